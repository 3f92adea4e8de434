ghost use Rattle.std.specs.Prelude.{◌≡◌};

use mn_base::NodeNo;
use mn_mini::SharedBytes;

/// The bytes of a page, an entry or a count, with the place in a node's space at which they stand
/// or are to stand.
#[derive(Debug, Drop)]
pub struct Image {
    pub node: NodeNo,
    pub start: u32,
    pub bytes: SharedBytes,
}

/// The turn of a place among the compares or the writes of a plan: pages come first and are alike,
/// then entries by node and then by place, then counts by node.
#[derive(Clone, Copy, Debug, PartialEq, Eq, PartialOrd, Ord, Drop)]
pub struct Turn {
    rank: u8,
    node: u8,
    start: u32,
}

/// Where a node's count of slots given out stands.
pub const COUNT_START: u32 = 16;

/// Where the slots of a node begin; the catalog stands before them.
pub const SLOTS_START: u32 = 20_480;

impl Image {
    ghost use Rattle.mn_txn.specs.Order.{turn_of};
    ghost use Rattle.mn_txn.specs.State.{is_at};

    /// Whether it stands at a place.
    pub fn is_at(&self, node: NodeNo, start: u32) -> bool
        ensures { result ≡ is_at node start self.now }
    {
        node == self.node && start == self.start
    }

    /// Its turn.
    pub fn turn(&self) -> Turn
        ensures { result ≡ turn_of self.now }
    {
        let node = self.node.0;
        let start = self.start;
        if start == COUNT_START {
            return Turn {
                rank: 2,
                node,
                start,
            };
        }
        if start < SLOTS_START {
            return Turn {
                rank: 1,
                node,
                start,
            };
        }
        Turn {
            rank: 0,
            node: 0,
            start: 0,
        }
    }
}

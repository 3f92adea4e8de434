ghost use Rattle.std.specs.Prelude.{◌≡◌, Some};
ghost use Rattle.mn_base.specs.declared.answer.Busy.TheVariants.{Path};
ghost use Rattle.mn_work.specs.Answers.{full_by, worn_by};

use mn_base::{Addr, Answer, Busy, NodeNo, Reply};
use mn_mini::Minitransaction;

/// What a try wants next.
#[derive(Debug, Drop)]
pub enum Next {
    /// To read the catalog.
    Catalog,
    /// To read a page: by a Peek, or else by an Exec.
    Page { addr: Addr, peek: bool },
    /// To read the count of a node: by a Peek, or else by an Exec.
    Count { node: NodeNo, peek: bool },
    /// To run its plan, which has this reply.
    Plan { mini: Minitransaction, reply: Reply },
    /// Nothing more: it failed. A cause is there where what it read shows one.
    Fails { cause: Option<Busy> },
    /// Nothing more: the operation is answered.
    Answers { answer: Answer },
}

/// What came of a catalog, a page or a count that was read.
#[derive(Debug, Drop)]
pub enum Taken {
    /// The try goes on with it.
    GoesOn,
    /// So does the scan, with a leaf that begins a new count of tries.
    Leaf,
    /// It shows the operation's reply.
    Replies { reply: Reply },
    /// The try failed by it. A cause is there where what the try read shows one.
    Fails { cause: Option<Busy> },
}

/// The fault of a page at this address, whose sequence number is `seq`, 0 where no page stands.
pub fn path_fault(addr: Addr, seq: u64) -> Busy
    ensures { result ≡ Path addr seq }
{
    Busy::Path { addr, seq }
}

/// The same as the cause of a try that failed.
pub fn fault_at(addr: Addr, seq: u64) -> Option<Busy>
    ensures { result ≡ Some (Path addr seq) }
{
    Some(path_fault(addr, seq))
}

/// There aren't enough slots: the answer of a later try. The first fails so.
pub fn full(need: u32, free: u32, later: bool) -> Next
    ensures { result ≡ full_by later need free }
{
    if later {
        Next::Answers {
            answer: Answer::Full { need, free },
        }
    } else {
        Next::Fails { cause: None }
    }
}

/// A place is worn: the answer of a later try. The first fails so.
pub fn worn(node: NodeNo, start: u32, later: bool) -> Next
    ensures { result ≡ worn_by later node start }
{
    if later {
        Next::Answers {
            answer: Answer::Worn { node, start },
        }
    } else {
        Next::Fails { cause: None }
    }
}

ghost use Rattle.std.specs.Prelude.{◌≡◌, ◌<◌, ◌+◌, ◌++◌, ◌∷◌, []};

use mn_base::{Addr, NodeNo};
use std::marker::Model;

/// How many addresses lie in place.
const FEW: usize = 8;

/// What stands where there is no address.
const NO_ADDR: Addr = Addr {
    node: NodeNo(0),
    slot: 0,
};

/// At most eight addresses, which lie in place. Contracts see them as a list, with the room for
/// more.
#[derive(Debug, Drop)]
pub struct Few {
    addrs: [Addr; FEW],
    count: usize,
}

impl Model for Few {
    ghost use Rattle.std.specs.Prelude.{◌≡◌, ◌≤◌, ◌-◌, length, take};
    ghost use Rattle.mn_tree.specs.Lists.{AddrList};
    ghost use Rattle.mn_tree.specs.declared.few.TheConstants.{FEW};

    ghost Value = { AddrList };

    ghost view = { λ f. record { items = take f.count f.addrs; room = FEW - f.count } };

    ghost invariant = { λ f. (f.count ≤ FEW) × (length f.addrs ≡ FEW) };
}

impl Few {
    pub fn new() -> Self
        ensures { result.items ≡ [] }
    {
        Few {
            addrs: [NO_ADDR; FEW],
            count: 0,
        }
    }

    /// For how many more there is room.
    pub fn room(&self) -> usize
        ensures { result ≡ self.now.room }
    {
        FEW - self.count
    }

    pub fn as_slice(&self) -> &[Addr]
        ensures { result.now ≡ self.now.items }
    {
        &self.addrs[..self.count]
    }

    pub fn clear(&mut self)
        ensures { self.new.items ≡ [] }
    {
        self.count = 0;
    }

    /// Puts an address behind the others. There is room for one.
    pub fn push(&mut self, addr: Addr)
        requires { 0 < self.old.room }
        ensures items { self.new.items ≡ self.old.items ++ addr ∷ [] }
        ensures room { self.old.room ≡ self.new.room + 1 }
    {
        self.addrs[self.count] = addr;
        self.count += 1;
    }

    /// Puts an address before the others. There is room for one.
    pub fn push_front(&mut self, addr: Addr)
        requires { 0 < self.old.room }
        ensures { self.new.items ≡ addr ∷ self.old.items }
    {
        let [a, b, c, d, e, f, g, _] = self.addrs;
        self.addrs = [addr, a, b, c, d, e, f, g];
        self.count += 1;
    }
}

ghost use Rattle.std.specs.Prelude.{◌≡◌, ◌≤◌, ◌<◌, ◌+◌, ◌++◌, ◌∷◌, [], OnOk, OnErr};
ghost use Rattle.std.specs.List.{list_any};
ghost use Rattle.mn_base.specs.Ids.{addr_same};
ghost use Rattle.mn_tree.specs.Writes.{joined};

use crate::few::Few;
use crate::held::{is_same, is_unplaced};
use mn_base::{Addr, NoMemory};
use std::alloc::Global;
use std::marker::Model;

/// Addresses, the first few of which take no memory beside the list. Contracts see them as a list,
/// in the order in which they joined, with the room for more. They are no more than the pages that
/// were read, so they are searched one after another too.
#[derive(Debug, Drop)]
pub struct Addrs {
    few: Few,
    /// All of them, once it has memory.
    many: Vec<Addr>,
}

impl Model for Addrs {
    ghost use Rattle.std.specs.Prelude.{◌-◌, vec_len, vec_capacity};
    ghost use Rattle.mn_tree.specs.Lists.{AddrList, list_in};

    ghost Value = { AddrList };

    ghost view = { λ a. list_in (vec_capacity a.many) a.few (record {
      items = a.many.items;
      room = vec_capacity a.many - vec_len a.many;
    }) };
}

impl Addrs {
    pub fn new(alloc: Global) -> Self
        ensures { result.items ≡ [] }
    {
        Addrs {
            few: Few::new(),
            many: Vec::new(alloc),
        }
    }

    /// Makes room for so many addresses more.
    pub fn reserve(&mut self, more: usize) -> Result<(), NoMemory>
        ensures room { OnOk result (more ≤ self.new.room) }
        ensures same { self.new.items ≡ self.old.items }
    {
        if self.many.capacity() > 0 {
            self.many.reserve(more)?;
            return Ok(());
        }
        if more <= self.few.room() {
            return Ok(());
        }
        let Some(all) = more.checked_add(self.few.as_slice().len()) else {
            return Err(NoMemory);
        };
        self.many.reserve(all)?;
        self.many.extend_from_slice(self.few.as_slice())?;
        Ok(())
    }

    /// The addresses in the order in which they joined.
    pub fn as_slice(&self) -> &[Addr]
        ensures { result.now ≡ self.now.items }
    {
        if self.many.capacity() == 0 {
            return self.few.as_slice();
        }
        &self.many
    }

    /// Whether the address is one of these.
    pub fn contains(&self, addr: Addr) -> bool
        ensures { result ≡ list_any (λ a. addr_same a addr) self.now.items }
    {
        let addrs = self.as_slice();
        for other in addrs {
            if is_same(*other, addr) {
                return true;
            }
        }
        false
    }

    pub fn clear(&mut self)
        ensures { self.new.items ≡ [] }
    {
        self.few.clear();
        self.many.clear();
    }

    /// Puts an address behind the others. There is room for one.
    pub fn push(&mut self, addr: Addr)
        requires { 0 < self.old.room }
        ensures items { self.new.items ≡ self.old.items ++ addr ∷ [] }
        ensures room { self.old.room ≡ self.new.room + 1 }
    {
        if self.many.capacity() == 0 {
            self.few.push(addr);
        } else {
            self.many.push_reserved(addr);
        }
    }

    /// Puts an address before the others. There is room for one.
    fn push_front_reserved(&mut self, addr: Addr) -> Result<(), NoMemory>
        requires { 0 < self.old.room }
        ensures front { OnOk result (self.new.items ≡ addr ∷ self.old.items) }
        ensures same { OnErr result (self.new.items ≡ self.old.items) }
    {
        if self.many.capacity() == 0 {
            self.few.push_front(addr);
        } else {
            self.many.insert(0, addr)?;
        }
        Ok(())
    }

    /// Puts an address before the others.
    pub fn push_front(&mut self, addr: Addr) -> Result<(), NoMemory>
        ensures front { OnOk result (self.new.items ≡ addr ∷ self.old.items) }
        ensures same { OnErr result (self.new.items ≡ self.old.items) }
    {
        self.reserve(1)?;
        self.push_front_reserved(addr)
    }

    /// Puts the address of an old page behind the others, if it isn't there. There is room for one.
    pub fn join(&mut self, addr: Addr)
        requires { 0 < self.old.room }
        ensures addrs { self.new.items ≡ joined self.old.items addr }
        ensures room { self.old.room ≤ self.new.room + 1 }
    {
        if is_unplaced(addr) || self.contains(addr) {
            return;
        }
        self.push(addr);
    }
}

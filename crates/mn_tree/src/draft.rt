ghost use Rattle.std.specs.Prelude.{◌≡◌, ◌≤◌, ◌<◌, ◌+◌, ◌^◌, length, OnOk, OnErr};

use crate::addrs::Addrs;
use crate::held::HeldPage;
use crate::held_pages::HeldPages;
use crate::write::Write;
use mn_base::{Addr, NoMemory};
use std::alloc::Global;

/// The pages as the steps left them, the old ones that were changed, the old ones of the read set,
/// and for each new page where the one was read that it was made of.
#[derive(Debug, Drop)]
pub struct Draft {
    pub pages: HeldPages,
    pub changed: Addrs,
    pub read: Addrs,
    pub origins: Addrs,
}

impl Draft {
    ghost use Rattle.std.specs.Prelude.{ℕ};
    ghost use Rattle.mn_tree.specs.State.{drafted, no_pages, draft_written};
    ghost use Rattle.mn_tree.specs.State.{all_drafted, touched};
    ghost use Rattle.mn_tree.specs.Room.{HasListRoom};

    pub fn new(alloc: Global) -> Self
        ensures { drafted result ≡ no_pages }
    {
        Draft {
            pages: HeldPages::new(alloc),
            changed: Addrs::new(alloc),
            read: Addrs::new(alloc),
            origins: Addrs::new(alloc),
        }
    }

    /// Makes room for so many writes, and for a leaf that joins the read set.
    fn reserve(&mut self, writes: usize) -> Result<(), NoMemory>
        requires { writes < 2 ^ 63 }
        ensures room { OnOk result (HasListRoom self.new writes) }
        ensures leaf { OnOk result (writes + 1 ≤ self.new.read.room) }
        ensures same { drafted self.new ≡ drafted self.old }
    {
        self.pages.reserve(writes)?;
        self.changed.reserve(writes)?;
        self.read.reserve(writes + 1)?;
        self.origins.reserve(writes)?;
        Ok(())
    }

    /// Makes a write, for which there is room.
    fn write(&mut self, write: Write)
        requires { HasListRoom self.old 1 }
        ensures written { drafted self.new ≡ draft_written (drafted self.old) write }
        ensures room { (n : ℕ) → HasListRoom self.old (n + 1) → HasListRoom self.new n }
    {
        let Write { addr, page, origin } = write;
        self.read.join(addr);
        match origin {
            Some(origin) => self.origins.push(origin),
            None => self.changed.join(addr),
        }
        self.pages.put(HeldPage { addr, page });
    }

    /// Makes the writes in their turn. There is room for them.
    fn write_all(&mut self, writes: Vec<Write>)
        requires { HasListRoom self.old (length writes.items) }
        ensures { drafted self.new ≡ all_drafted (drafted self.old) writes.items }
    {
        for write in writes {
            self.write(write);
        }
    }

    /// Makes the writes in their turn, where the leaf there joins the read set first. NoMemory:
    /// there was no memory for all of it, and nothing has changed.
    pub fn commit(&mut self, leaf: Addr, writes: Vec<Write>) -> Result<(), NoMemory>
        ensures written { OnOk result
            (drafted self.new ≡ all_drafted (touched (drafted self.old) leaf) writes.items) }
        ensures same { OnErr result (drafted self.new ≡ drafted self.old) }
    {
        self.reserve(writes.len())?;
        self.read.join(leaf);
        self.write_all(writes);
        Ok(())
    }
}

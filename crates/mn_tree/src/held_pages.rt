ghost use Rattle.std.specs.Prelude.{◌≡◌, ◌≤◌, ◌<◌, ◌+◌, ◌++◌, ◌∷◌, [], None, length};
ghost use Rattle.std.specs.Prelude.{take, drop};
ghost use Rattle.std.specs.Prelude.{option_map, IfSome, OnOk};
ghost use Rattle.std.specs.Option.{option_map_or};
ghost use Rattle.mn_page.specs.declared.page.Page.{Page};
ghost use Rattle.mn_page.specs.Overlay.{held_at, held_with};
ghost use Rattle.mn_tree.specs.Walk.{held, held_of, helds};

use crate::held::{HeldPage, is_same};
use mn_base::{Addr, NoMemory};
use std::alloc::Global;
use std::marker::Model;

/// For how many pages there is room at once: for those of a path in a tree of some size.
const FIRST_ROOM: usize = 7;

/// The pages that are held. Contracts see them as a list, in the order in which they joined, with
/// the room for more. They are searched one after another: a transaction has at most 16 steps and
/// a path at most 15 pages, and mostly there are the pages of one path, so no map would save time.
#[derive(Debug, Drop)]
pub struct HeldPages {
    pages: Vec<HeldPage>,
}

impl Model for HeldPages {
    ghost use Rattle.std.specs.Prelude.{◌-◌, vec_len, vec_capacity};
    ghost use Rattle.mn_tree.specs.Lists.{PageList};

    ghost Value = { PageList };

    ghost view = { λ h. record {
      items = h.pages.items;
      room = vec_capacity h.pages - vec_len h.pages;
    } };
}

/// Where the first page at an address stands, or how many there are.
fn position(pages: &[HeldPage], addr: Addr) -> usize
    ensures within { result ≤ length pages.now }
    ensures place { (page : Page) → held_with (helds pages.now) addr page
        ≡ helds (take result pages.now) ++ held addr page ∷ helds (drop (result + 1) pages.now) }
{
    for (at, page) in pages.iter().enumerate() {
        if is_same(page.addr, addr) {
            return at;
        }
    }
    pages.len()
}

impl HeldPages {
    pub fn new(alloc: Global) -> Self
        ensures { result.items ≡ [] }
    {
        HeldPages {
            pages: Vec::new(alloc),
        }
    }

    /// Makes room for so many pages more.
    pub fn reserve(&mut self, more: usize) -> Result<(), NoMemory>
        ensures room { OnOk result (more ≤ self.new.room) }
        ensures same { self.new.items ≡ self.old.items }
    {
        if self.pages.is_empty() {
            self.pages.reserve(more.max(FIRST_ROOM))?;
        } else {
            self.pages.reserve(more)?;
        }
        Ok(())
    }

    /// The page at an address.
    pub fn get(&self, addr: Addr) -> Option<&HeldPage>
        ensures page { option_map (λ h. h.now.page) result ≡ held_at (helds self.now.items) addr }
        ensures there { IfSome result (λ h. h.now.addr ≡ addr) }
    {
        for held in &self.pages {
            if is_same(held.addr, addr) {
                return Some(held);
            }
        }
        None
    }

    /// The page at an address, or this one where there is none.
    pub fn get_or<'a>(&'a self, addr: Addr, other: &'a HeldPage) -> &'a HeldPage
        ensures { held_of result.now ≡ option_map_or (held addr)
            (held_at (helds self.now.items) addr) (held_of other.now) }
    {
        match self.get(addr) {
            Some(held) => held,
            None => other,
        }
    }

    /// Puts a page in the place of the one at its address, or behind all. There is room for one.
    pub fn put(&mut self, held: HeldPage)
        requires { 0 < self.old.room }
        ensures put { helds self.new.items ≡ held_with (helds self.old.items) held.addr held.page }
        ensures room { self.old.room ≤ self.new.room + 1 }
    {
        let at = position(&self.pages, held.addr);
        if at < self.pages.len() {
            self.pages[at] = held;
        } else {
            self.pages.push_reserved(held);
        }
    }

    /// Puts a page behind the others, where none is held at its address. There is room for one.
    pub fn push(&mut self, held: HeldPage)
        requires room { 0 < self.old.room }
        requires absent { held_at (helds self.old.items) held.addr ≡ None }
        ensures { helds self.new.items ≡ held_with (helds self.old.items) held.addr held.page }
    {
        self.pages.push_reserved(held);
    }
}

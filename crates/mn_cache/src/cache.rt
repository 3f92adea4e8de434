ghost use Rattle.std.specs.Prelude.{◌≡◌, [], Some, None, IfOk, IfSome, OnOk, OnErr};
ghost use Rattle.std.specs.Borrow.{sem};
ghost use Rattle.std.specs.Option.{option_map};
ghost use Rattle.mn_page.specs.Grammar.{page_bytes};
ghost use Rattle.mn_cache.specs.Pages.{page_at, pages_without, pages_used, pages_put, AreKept};

use lru::LruCache;
use mn_base::{Addr, NoMemory, TryCopy};
use mn_mini::SharedBytes;
use mn_page::SharedPage;
use std::alloc::Global;
use std::marker::Model;
use std::num::NonZeroUsize;

/// The most pages that a cache keeps.
pub const CAPACITY: usize = 64;

// An address, as the map hashes it.
#[derive(Clone, Copy, PartialEq, Eq, Hash, Drop)]
struct Place {
    node: u8,
    slot: u16,
}

impl Place {
    fn new(addr: Addr) -> Self
        ensures node { result.node ≡ addr.node.0 }
        ensures slot { result.slot ≡ addr.slot }
    {
        Place {
            node: addr.node.0,
            slot: addr.slot,
        }
    }
}

/// A page with the bytes that spell it.
#[derive(Debug, Drop)]
pub struct Spelled {
    pub page: SharedPage,
    pub bytes: SharedBytes,
}

impl TryCopy for Spelled {
    fn try_copy(&self, alloc: Global) -> Result<Self, NoMemory> {
        Ok(Spelled {
            page: self.page.try_copy(alloc)?,
            bytes: self.bytes.try_copy(alloc)?,
        })
    }
}

/// Pages by address with their bytes, at most [`CAPACITY`], the most recently used first. Contracts
/// see them as a list of pages.
#[derive(Drop)]
pub struct Cache {
    pages: LruCache<Place, Spelled>,
}

impl Model for Cache {
    ghost use Rattle.std.specs.Prelude.{◌≡◌, List};
    ghost use Rattle.mn_base.specs.declared.ids.Addr.{Addr};
    ghost use Rattle.mn_page.specs.declared.page.Page.{Page};
    ghost use Rattle.mn_cache.specs.Pages.{pages_of, AreKept, AreSpelled};
    ghost use Rattle.mn_cache.specs.declared.cache.TheConstants.{CAPACITY};

    ghost Value = { List (Addr × Page) };

    ghost view = { λ c. pages_of c.pages.entries };

    ghost invariant = { λ c. (c.pages.cap ≡ CAPACITY) × AreKept (pages_of c.pages.entries)
        × AreSpelled c.pages.entries };
}

impl Cache {
    ghost use Rattle.mn_cache.specs.Lent.{ends_as};

    /// A cache that keeps no page. NoMemory: there was no memory for it.
    pub fn new(alloc: Global) -> Result<Self, NoMemory>
        ensures { IfOk result (λ pages. pages ≡ []) }
    {
        let most = NonZeroUsize::new(CAPACITY).unwrap();
        Ok(Cache {
            pages: LruCache::new(alloc, most)?,
        })
    }

    /// The page that is kept of this address, which becomes the most recently used. None exactly
    /// where none is kept.
    pub fn get(&mut self, addr: Addr) -> Option<&Spelled>
        ensures* used { sem 𝓛 (ends_as self.entry (pages_used addr self.old)) }
        ensures found { option_map (λ s. s.now.page) result ≡ page_at addr self.old }
        ensures spelled { IfSome result (λ s. s.now.bytes ≡ page_bytes s.now.page) }
        ensures kept { AreKept self.old }
    {
        self.pages.get(&Place::new(addr))
    }

    /// Keeps the page with its bytes, which becomes the most recently used, in place of an older
    /// one of its address. Where there would be more than [`CAPACITY`], the least recently used
    /// goes.
    /// NoMemory: there was no memory for it, and the cache is as before.
    pub fn put(&mut self, addr: Addr, spelled: Spelled) -> Result<(), NoMemory>
        requires spelled { spelled.bytes ≡ page_bytes spelled.page }
        ensures pages { OnOk result (self.new ≡ pages_put addr spelled.page self.old) }
        ensures found { OnOk result (page_at addr self.new ≡ Some spelled.page) }
        ensures kept { AreKept self.new }
        ensures unchanged { OnErr result (self.new ≡ self.old) }
    {
        self.pages.put(Place::new(addr), spelled)?;
        Ok(())
    }

    /// Drops the page of this address, if one is kept.
    pub fn drop_page(&mut self, addr: Addr)
        ensures pages { self.new ≡ pages_without addr self.old }
        ensures gone { page_at addr self.new ≡ None }
        ensures kept { AreKept self.new }
    {
        self.pages.pop(&Place::new(addr));
    }
}

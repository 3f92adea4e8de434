ghost use Rattle.std.specs.Prelude.{◌≡◌, IfOk, IfSome, None, OnErr, OnOk, Some, nat_lt};
ghost use Rattle.std.specs.Option.{option_map};
ghost use Rattle.mn_cache.specs.Pages.{page_at};
ghost use Rattle.mn_page.specs.Grammar.{IsPage, page_bytes};
ghost use Rattle.mn_work.specs.Cached.{AreUsed, with_inner};
ghost use Rattle.mn_work.specs.Catalogs.{found, refusal_by, root_by};
ghost use Rattle.mn_work.specs.Knows.{ArePages, KeepsKnown, LearnsFrom, lacks_catalog, new_known};

use crate::catalog::{Kept, kept_of};
use crate::seen::is_leaf;
use mn_base::{Addr, Name, NoMemory, Op, Reply, TryCopy, VersionNo};
use mn_cache::{Cache, Spelled};
use mn_mini::SharedBytes;
use mn_page::SharedPage;
use std::alloc::Global;

/// What a proxy keeps from one operation to the next: the number of nodes, the catalog as it last
/// read it, and inner pages.
#[derive(Drop)]
pub struct Known {
    pub nodes: u8,
    pub catalog: Option<Kept>,
    pub cache: Cache,
}

impl Known {
    /// It keeps nothing yet, of so many nodes. NoMemory: there was no memory for it.
    pub fn new(alloc: Global, nodes: u8) -> Result<Self, NoMemory>
        ensures { IfOk result (λ known. known ≡ new_known nodes) }
    {
        Ok(Known {
            nodes,
            catalog: None,
            cache: Cache::new(alloc)?,
        })
    }

    /// Keeps the catalog that the bytes spell, in place of the older one. Whether they spell one.
    /// NoMemory: there was no memory for it, and the older one is forgotten too, since these bytes
    /// were read after it.
    pub fn learn(&mut self, alloc: Global, bytes: &SharedBytes) -> Result<bool, NoMemory>
        ensures learnt { IfOk result (LearnsFrom bytes.now self.new.catalog) }
        ensures left { OnErr result (self.new.catalog ≡ None) }
        ensures kept { (self.new.nodes ≡ self.old.nodes) × (self.new.cache ≡ self.old.cache) }
    {
        self.catalog = None;
        self.catalog = kept_of(alloc, bytes)?;
        Ok(self.catalog.is_some())
    }

    /// Whether an operation has to read the catalog before its first try goes on: each but a
    /// transaction that the kept one admits.
    pub fn lacks_catalog(&self, op: &Op) -> bool
        ensures { result ≡ lacks_catalog self.now.catalog op.now }
    {
        match (op, &self.catalog) {
            (Op::Tx { .. }, Some(kept)) => kept.admit(op).is_some(),
            _ => true,
        }
    }

    /// The reply by which the kept catalog refuses the operation.
    pub fn refusal(&self, op: &Op) -> Option<Reply>
        ensures { result ≡ refusal_by self.now.catalog op.now }
    {
        match &self.catalog {
            Some(kept) => kept.admit(op),
            None => None,
        }
    }

    /// The number of the version of this name in the kept catalog, and where its root stands.
    pub fn root_of(&self, name: &Name) -> Option<(VersionNo, Addr)>
        ensures { option_map found result ≡ root_by self.now.catalog name.now }
    {
        match &self.catalog {
            Some(kept) => kept.root_of(name),
            None => None,
        }
    }

    /// Whether the address is on one of the nodes.
    pub fn has_node(&self, addr: Addr) -> bool
        ensures { result ≡ nat_lt addr.node.0 self.now.nodes }
    {
        addr.node.0 < self.nodes
    }

    /// Puts an inner page that was read into the cache, with its bytes.
    pub fn keep_inner(
        &mut self,
        alloc: Global,
        addr: Addr,
        page: &SharedPage,
        bytes: &SharedBytes,
    ) -> Result<(), NoMemory>
        requires page { IsPage page.now }
        requires bytes { bytes.now ≡ page_bytes page.now }
        ensures kept { KeepsKnown self.old self.new }
        ensures put { OnOk result (self.new.cache ≡ with_inner addr page.now self.old.cache) }
        ensures left { OnErr result (self.new.cache ≡ self.old.cache) }
    {
        if is_leaf(page.get()) {
            return Ok(());
        }
        let page = page.try_copy(alloc)?;
        let bytes = bytes.try_copy(alloc)?;
        self.cache.put(addr, Spelled { page, bytes })?;
        Ok(())
    }

    /// The inner page that is kept of this address, once more, with its bytes. NoMemory: there was
    /// no memory for it.
    #[inline(always)]
    pub fn kept_page(&mut self, alloc: Global, addr: Addr) -> Result<Option<Spelled>, NoMemory>
        requires pages { ArePages self.old.cache }
        ensures kept { KeepsKnown self.old self.new }
        ensures used { AreUsed self.old.cache self.new.cache }
        ensures page { IfOk result (λ kept. IfSome kept (λ s. IsPage s.page)) }
        ensures spelled { IfOk result (λ kept. IfSome kept (λ s. s.bytes ≡ page_bytes s.page)) }
        ensures found { IfOk result (λ kept. IfSome kept (λ s.
            page_at addr self.old.cache ≡ Some s.page)) }
    {
        match self.cache.get(addr) {
            Some(spelled) => Ok(Some(spelled.try_copy(alloc)?)),
            None => Ok(None),
        }
    }
}

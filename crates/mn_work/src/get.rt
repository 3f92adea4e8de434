ghost use Rattle.std.specs.Prelude.{◌≡◌, ◌≢◌, ◌<◌, ◌≤◌, false, true, IfOk, OnErr, OnOk, None, Some};
ghost use Rattle.std.specs.Prelude.{length};
ghost use Rattle.mn_base.specs.declared.error.BaseError.TheVariants as refusals;
ghost use Rattle.mn_base.specs.declared.value.TheConstants.{MAX_VALUE};
ghost use Rattle.mn_page.specs.Grammar.{IsPage, height_of, page_bytes};
ghost use Rattle.mn_work.specs.Cached.{AreUsed, Puts, Walks, with_inner};
ghost use Rattle.mn_work.specs.Descents.{FailsOff, DescentGoesOn, TakesPageBy, WantsPage};
ghost use Rattle.mn_work.specs.Descents.{goes_by_kept};
ghost use Rattle.mn_work.specs.Descents.{gone_below, may_be_leaf, values_at, wanted};
ghost use Rattle.mn_work.specs.Firsts.{GetFailsFirst, GoesDown, Passes};
ghost use Rattle.mn_work.specs.Knows.{ArePages, KeepsKnown};
ghost use Rattle.mn_work.specs.Paths.{IsLower, LeadsTo, PathPasses};
ghost use Rattle.mn_work.specs.Walks.{IsAbove};
ghost use Rattle.mn_work.specs.declared.get.Passed.TheVariants as passed;

use crate::causes::LEVELS;
use crate::known::Known;
use crate::next::{Next, Taken, fault_at};
use crate::seen::is_leaf;
use mn_base::{Addr, BaseError, Founds, Key, NoMemory, Reply, TryCopy, Value, VersionNo};
use mn_cache::Spelled;
use mn_mini::SharedBytes;
use mn_page::{Body, Page, PageRef, SharedPage};
use mn_path::{Front, child_for, value_in};
use std::alloc::Global;

/// A lone Get on its way down the tree of its version. The read of its leaf is all that has to be
/// valid.
#[derive(Debug, Drop)]
pub struct Descent {
    version: VersionNo,
    /// The page that it needs next.
    addr: Addr,
    /// The height of the page that names it; the root is named by none.
    above: Option<u16>,
}

/// What a descent makes of the page that it needs.
#[derive(Debug, Drop)]
enum Passed {
    /// It goes on at the page's child.
    On,
    /// The page isn't kept.
    Missing,
    /// The page is at fault.
    Fault { seq: u64 },
}

/// The answer where bytes that are no longer than a value may be make none.
fn want(error: BaseError) -> NoMemory
    requires { error ≡ refusals.NoMemory }
{
    let _only = error;
    NoMemory
}

/// The value of these bytes, which are no longer than one may be. NoMemory: there was no memory for
/// it.
fn value_of(alloc: Global, bytes: &[u8]) -> Result<Value, NoMemory>
    requires { length bytes.now ≤ MAX_VALUE }
    ensures { IfOk result (λ value. value ≡ bytes.now) }
{
    match Value::new(alloc, bytes) {
        Ok(value) => Ok(value),
        Err(error) => Err(want(error)),
    }
}

/// The reply of a Get of this key, by its leaf.
fn reply_of(alloc: Global, leaf: &PageRef<'_>, key: &[u8]) -> Result<Reply, NoMemory>
    requires page { IsPage leaf.now }
    requires leaf { height_of leaf.now.body ≡ 0 }
    ensures { IfOk result (λ reply. reply ≡ values_at leaf.now key.now) }
{
    let value = match value_in(leaf, key) {
        Some(bytes) => Some(value_of(alloc, bytes)?),
        None => None,
    };
    let found = Vec::from_array(alloc, [value])?;
    Ok(Reply::Values {
        found: Founds::from_vec(found),
    })
}

impl Descent {
    /// At the root of a version.
    pub fn new(version: VersionNo, root: Addr) -> Self
        ensures version { result.version ≡ version }
        ensures root { result.addr ≡ root }
        ensures above { result.above ≡ None }
    {
        Descent {
            version,
            addr: root,
            above: None,
        }
    }

    /// Whether a leaf may stand where it needs a page.
    fn may_be_leaf(&self) -> bool
        ensures { result ≡ may_be_leaf self.now.above }
    {
        match self.above {
            Some(above) => above == 1,
            None => true,
        }
    }

    /// As it goes on below a page, if that is an inner page.
    fn below(&self, page: &Page, key: &[u8]) -> Descent
        ensures { result ≡ gone_below self.now page.now.body key.now }
    {
        match &page.body {
            Body::Inner {
                height,
                first,
                rest,
            } => Descent {
                version: self.version,
                addr: child_for(*first, rest.as_slice(), key),
                above: Some(*height),
            },
            Body::Leaf { .. } => Descent {
                version: self.version,
                addr: self.addr,
                above: self.above,
            },
        }
    }

    /// Goes on at the page that it needs, if it is kept.
    fn pass_kept(&mut self, known: &mut Known, key: &[u8]) -> Passed
        requires pages { ArePages known.old.cache }
        ensures kept { KeepsKnown known.old known.new }
        ensures cache { AreUsed known.old.cache known.new.cache }
        ensures above { IsAbove self.old.above → IsAbove self.new.above }
        ensures version { self.new.version ≡ self.old.version }
        ensures stays { (result ≡ passed.On → ⊥) → self.new ≡ self.old }
        ensures lower { result ≡ passed.On → IsLower self.old.above self.new.above }
        ensures passes { Passes known.new key.now self.old self.new result }
        ensures path { (leaf : Descent) → LeadsTo known.old key.now self.old leaf
            → PathPasses known.new key.now self.old self.new leaf result }
    {
        // A leaf is never kept.
        if self.is_below_lowest() {
            return Passed::Missing;
        }
        self.pass_inner(known, key)
    }

    /// Whether a leaf has to stand where it needs a page.
    fn is_below_lowest(&self) -> bool
        ensures lowest { result ≡ true → self.now.above ≡ Some 1 }
        ensures higher { result ≡ false → self.now.above ≢ Some 1 }
    {
        match self.above {
            Some(above) => above == 1,
            None => false,
        }
    }

    /// Goes on at the inner page that it needs, if it is kept.
    fn pass_inner(&mut self, known: &mut Known, key: &[u8]) -> Passed
        requires pages { ArePages known.old.cache }
        requires higher { self.old.above ≢ Some 1 }
        ensures kept { KeepsKnown known.old known.new }
        ensures cache { AreUsed known.old.cache known.new.cache }
        ensures above { IsAbove self.old.above → IsAbove self.new.above }
        ensures version { self.new.version ≡ self.old.version }
        ensures stays { (result ≡ passed.On → ⊥) → self.new ≡ self.old }
        ensures lower { result ≡ passed.On → IsLower self.old.above self.new.above }
        ensures passes { Passes known.new key.now self.old self.new result }
        ensures path { (leaf : Descent) → LeadsTo known.old key.now self.old leaf
            → PathPasses known.new key.now self.old self.new leaf result }
    {
        let Some(kept) = &known.catalog else {
            return Passed::Missing;
        };
        let Some(spelled) = known.cache.get(self.addr) else {
            return Passed::Missing;
        };
        let page = spelled.page.get();
        let front = Front::of_page(page);
        if !front.is_on_path(kept.tree(), self.version, key, self.above) {
            return Passed::Fault { seq: page.seq };
        }
        if is_leaf(page) {
            return Passed::Missing;
        }
        *self = self.below(page, key);
        Passed::On
    }

    /// What it wants next: a page that isn't kept. A page that may be the leaf, and in a later try
    /// each page, is read by an Exec.
    pub fn advance(&mut self, known: &mut Known, key: &Key, later: bool) -> Next
        requires pages { ArePages known.old.cache }
        requires above { IsAbove self.old.above }
        ensures kept { KeepsKnown known.old known.new }
        ensures cache { Walks later (Some result) known.old.cache known.new.cache }
        ensures above { IsAbove self.new.above }
        ensures version { self.new.version ≡ self.old.version }
        ensures wants { WantsPage known.old.nodes later self.new result }
        ensures path { (leaf : Descent) → LeadsTo known.old key.now self.old leaf
            → later ≡ false → (self.new ≡ leaf) × (result ≡ wanted false leaf) }
        ensures later { later ≡ true → self.new ≡ self.old }
        ensures fault { later ≡ true → FailsOff known.old.nodes self.old.addr result }
        ensures first { later ≡ false
            → GetFailsFirst known.new key.now self.old self.new result }
    {
        if later {
            self.reach_anew(known)
        } else {
            self.reach_kept(known, key.as_slice())
        }
    }

    /// What it wants next in a later try, which reads each page anew.
    fn reach_anew(&self, known: &mut Known) -> Next
        ensures kept { KeepsKnown known.old known.new }
        ensures cache { Walks true (Some result) known.old.cache known.new.cache }
        ensures wants { WantsPage known.old.nodes true self.now result }
        ensures fault { FailsOff known.old.nodes self.now.addr result }
    {
        if !known.has_node(self.addr) {
            return Next::Fails {
                cause: fault_at(self.addr, 0),
            };
        }
        known.cache.drop_page(self.addr);
        self.want(true)
    }

    /// Goes on at the pages that are kept, as far as they lead. Each is lower than the one before,
    /// so they are fewer than `LEVELS`.
    fn go_down(&mut self, known: &mut Known, key: &[u8]) -> Passed
        requires pages { ArePages known.old.cache }
        requires above { IsAbove self.old.above }
        ensures kept { KeepsKnown known.old known.new }
        ensures cache { AreUsed known.old.cache known.new.cache }
        ensures above { IsAbove self.new.above }
        ensures version { self.new.version ≡ self.old.version }
        ensures path { (leaf : Descent) → LeadsTo known.old key.now self.old leaf
            → (self.new ≡ leaf) × (result ≡ passed.Missing) }
        ensures ends { result ≢ passed.On }
        ensures goes { GoesDown known.new key.now self.old self.new result }
    {
        for _level in 0..LEVELS {
            match self.pass_kept(known, key) {
                Passed::On => {}
                Passed::Missing => return Passed::Missing,
                Passed::Fault { seq } => return Passed::Fault { seq },
            }
        }
        unreachable!()
    }

    /// What it wants next in a first try, which goes on at the pages that are kept.
    fn reach_kept(&mut self, known: &mut Known, key: &[u8]) -> Next
        requires pages { ArePages known.old.cache }
        requires above { IsAbove self.old.above }
        ensures kept { KeepsKnown known.old known.new }
        ensures cache { AreUsed known.old.cache known.new.cache }
        ensures above { IsAbove self.new.above }
        ensures version { self.new.version ≡ self.old.version }
        ensures wants { WantsPage known.old.nodes false self.new result }
        ensures path { (leaf : Descent) → LeadsTo known.old key.now self.old leaf
            → (self.new ≡ leaf) × (result ≡ wanted false leaf) }
        ensures first { GetFailsFirst known.new key.now self.old self.new result }
    {
        match self.go_down(known, key) {
            Passed::On => unreachable!(),
            Passed::Missing => self.want_on(known),
            Passed::Fault { seq } => Next::Fails {
                cause: fault_at(self.addr, seq),
            },
        }
    }

    /// The page that it needs in a first try, if its address is on one of the nodes.
    fn want_on(&self, known: &Known) -> Next
        ensures wants { WantsPage known.now.nodes false self.now result }
        ensures there { self.now.addr.node.0 < known.now.nodes → result ≡ wanted false self.now }
        ensures fails { FailsOff known.now.nodes self.now.addr result }
    {
        if !known.has_node(self.addr) {
            return Next::Fails {
                cause: fault_at(self.addr, 0),
            };
        }
        self.want(false)
    }

    /// The page that it needs.
    fn want(&self, later: bool) -> Next
        ensures { result ≡ wanted later self.now }
    {
        Next::Page {
            addr: self.addr,
            peek: !later && !self.may_be_leaf(),
        }
    }

    /// Takes the page that it needed, by its bytes.
    pub fn take_page(
        &mut self,
        alloc: Global,
        known: &mut Known,
        key: &Key,
        bytes: &SharedBytes,
    ) -> Result<Taken, NoMemory>
        requires pages { ArePages known.old.cache }
        requires above { IsAbove self.old.above }
        ensures kept { KeepsKnown known.old known.new }
        ensures cache { Puts self.old.addr bytes.now known.old.cache known.new.cache result }
        ensures above { IsAbove self.new.above }
        ensures version { self.new.version ≡ self.old.version }
        ensures taken { DescentGoesOn known.old.catalog self.old key.now bytes.now self.new result }
    {
        let key = key.as_slice();
        let Ok(Some(page)) = PageRef::of_padded(&bytes.padded()) else {
            return Ok(Taken::Fails {
                cause: fault_at(self.addr, 0),
            });
        };
        if page.height() > 0 {
            let inner = Spelled {
                page: SharedPage::new(alloc, page.to_page(alloc)?)?,
                bytes: bytes.try_copy(alloc)?,
            };
            return self.take_inner(known, key, inner);
        }
        if !self.is_on_way(known, key, &Front::of_ref(&page)) {
            return Ok(Taken::Fails {
                cause: fault_at(self.addr, page.seq()),
            });
        }
        Ok(Taken::Replies {
            reply: reply_of(alloc, &page, key)?,
        })
    }

    /// Whether its walk goes on at the page, by the kept catalog.
    fn is_on_way(&self, known: &Known, key: &[u8], front: &Front<'_>) -> bool
        ensures { result ≡ goes_by_kept known.now.catalog self.now key.now front.now }
    {
        match &known.catalog {
            Some(kept) => front.is_on_path(kept.tree(), self.version, key, self.above),
            None => false,
        }
    }

    /// Takes the inner page that it needed, which is kept then.
    fn take_inner(
        &mut self,
        known: &mut Known,
        key: &[u8],
        inner: Spelled,
    ) -> Result<Taken, NoMemory>
        requires page { IsPage inner.page }
        requires spelled { inner.bytes ≡ page_bytes inner.page }
        requires high { 1 ≤ height_of inner.page.body }
        requires pages { ArePages known.old.cache }
        requires above { IsAbove self.old.above }
        ensures kept { KeepsKnown known.old known.new }
        ensures put { OnOk result
            (known.new.cache ≡ with_inner self.old.addr inner.page known.old.cache) }
        ensures left { OnErr result (known.new.cache ≡ known.old.cache) }
        ensures above { IsAbove self.new.above }
        ensures version { self.new.version ≡ self.old.version }
        ensures taken { TakesPageBy known.old.catalog self.old key.now inner.page self.new result }
    {
        let addr = self.addr;
        let page = inner.page.get();
        let seq = page.seq;
        let goes = self.is_on_way(known, key, &Front::of_page(page));
        let below = self.below(page, key);
        known.cache.put(addr, inner)?;
        if !goes {
            return Ok(Taken::Fails {
                cause: fault_at(addr, seq),
            });
        }
        *self = below;
        Ok(Taken::GoesOn)
    }
}

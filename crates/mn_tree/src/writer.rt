ghost use Rattle.std.specs.Prelude.{◌≡◌, ◌≤◌, ◌<◌, ◌+◌, ◌^◌, ◌++◌, ◌∷◌, [], Some, length, IfOk};
ghost use Rattle.std.specs.Prelude.{OnOk};
ghost use Rattle.mn_page.specs.Overlay.{halves_of, new_addr, page_with, new_page, copied_for};
ghost use Rattle.mn_tree.specs.Walk.{held_of, helds};
ghost use Rattle.mn_tree.specs.Writes.{change, creation, origins_in, own_writes, own_asks};
ghost use Rattle.mn_tree.specs.Writes.{other_writes, other_asks, root_writes, page_writes};
ghost use Rattle.mn_tree.specs.Writes.{page_asks, writes_up};
ghost use Rattle.mn_tree.specs.Asks.{seen_asked};
ghost use Rattle.mn_tree.specs.Found.{those_at};
ghost use Rattle.mn_page.specs.Overlay.{placed_addr};
ghost use Rattle.mn_page.specs.declared.page.Body.TheVariants.{Inner};

use crate::body::{Parts, parts_of, with_children};
use crate::draft::Draft;
use crate::held::{HeldPage, new_place, resolved};
use crate::write::Write;
use mn_base::{Addr, Key, NoMemory, TryCopy, VersionNo};
use mn_page::{Body, Branches, Child, Low, Page, SharedPage};
use mn_path::height;
use std::alloc::Global;

/// What a page's change asks of its parent.
#[derive(Drop)]
pub enum Ask {
    Nothing,
    /// The child stands at another address now, and perhaps a further one after it.
    Child { now: Addr, more: Option<Child> },
}

/// The writes of a step so far, for a version, and how many new pages there are with them.
#[derive(Drop)]
pub struct Writer {
    pub version: VersionNo,
    pub fresh: usize,
    pub writes: Vec<Write>,
}

/// An old page with other fences above and another body.
#[inline(always)]
fn changed(alloc: Global, page: &Page, high: Option<Key>, body: Body) -> Result<Page, NoMemory>
    ensures { IfOk result (λ made. made ≡ page_with page.now page.now.low high body) }
{
    Ok(Page {
        seq: page.seq,
        made: page.made,
        copied: page.copied,
        low: page.low.try_copy(alloc)?,
        high,
        body,
    })
}

/// An old page that ends at the separator now, with the left half of its body.
#[inline(always)]
fn left_half(alloc: Global, page: &Page, separator: &Key, left: Body) -> Result<Page, NoMemory>
    ensures { IfOk result (λ made. made
        ≡ page_with page.now page.now.low (Some separator.now) left) }
{
    let high = Some(separator.try_copy(alloc)?);
    changed(alloc, page, high, left)
}

/// A page of the first number, made for a version.
#[inline(always)]
fn fresh_page(version: VersionNo, low: Low, high: Option<Key>, body: Body) -> Page
    ensures { result ≡ new_page version low high body }
{
    Page {
        seq: 1,
        made: version,
        copied: 0,
        low,
        high,
        body,
    }
}

/// An old page with the version in its copied set.
#[inline(always)]
fn marked(alloc: Global, version: VersionNo, page: &Page) -> Result<Page, NoMemory>
    requires { version.0 < 64 }
    ensures { IfOk result (λ made. made ≡ copied_for version page.now) }
{
    let mut page = page.try_copy(alloc)?;
    page.copied |= 1 << version.0;
    Ok(page)
}

impl Writer {
    /// Adds a new page, which was made of the one that was read at `origin`.
    #[inline(always)]
    fn create(&mut self, alloc: Global, page: Page, origin: Addr) -> Result<Addr, NoMemory>
        ensures at { IfOk result (λ addr. addr ≡ new_addr self.old.fresh) }
        ensures writes { OnOk result
            (self.new.writes.items ≡ self.old.writes.items
            ++ creation self.old.fresh page origin ∷ []) }
        ensures fresh { OnOk result (self.new.fresh ≡ self.old.fresh + 1) }
        ensures bound { OnOk result (self.new.fresh ≤ 2 ^ 16) }
        ensures version { self.new.version ≡ self.old.version }
    {
        let addr = new_place(self.fresh)?;
        let page = SharedPage::new(alloc, page)?;
        self.writes.push(Write {
            addr,
            page,
            origin: Some(origin),
        })?;
        self.fresh += 1;
        Ok(addr)
    }

    /// Changes a page where it stands.
    #[inline(always)]
    fn put(&mut self, alloc: Global, addr: Addr, page: Page) -> Result<(), NoMemory>
        ensures writes { OnOk result
            (self.new.writes.items ≡ self.old.writes.items ++ change addr page ∷ []) }
        ensures fresh { self.new.fresh ≡ self.old.fresh }
        ensures version { self.new.version ≡ self.old.version }
    {
        let page = SharedPage::new(alloc, page)?;
        self.writes.push(Write {
            addr,
            page,
            origin: None,
        })?;
        Ok(())
    }

    /// Changes the body of a page where it stands.
    #[inline(always)]
    fn put_body(&mut self, alloc: Global, held: &HeldPage, body: Body) -> Result<(), NoMemory>
        ensures writes { OnOk result (self.new.writes.items ≡ self.old.writes.items
            ++ change held.now.addr (page_with held.now.page held.now.page.low held.now.page.high
            body) ∷ []) }
        ensures fresh { self.new.fresh ≡ self.old.fresh }
        ensures version { self.new.version ≡ self.old.version }
    {
        let page = held.page.get();
        let high = page.high.try_copy(alloc)?;
        let page = changed(alloc, page, high, body)?;
        self.put(alloc, held.addr, page)
    }

    /// Leaves the left half of a page where it stands.
    #[inline(always)]
    fn put_left(
        &mut self,
        alloc: Global,
        held: &HeldPage,
        separator: &Key,
        left: Body,
    ) -> Result<(), NoMemory>
        ensures writes { OnOk result (self.new.writes.items ≡ self.old.writes.items
            ++ change held.now.addr (page_with held.now.page held.now.page.low
            (Some separator.now) left) ∷ []) }
        ensures fresh { self.new.fresh ≡ self.old.fresh }
        ensures version { self.new.version ≡ self.old.version }
    {
        let page = left_half(alloc, held.page.get(), separator, left)?;
        self.put(alloc, held.addr, page)
    }

    /// Marks a page as copied for the version.
    fn put_marked(&mut self, alloc: Global, held: &HeldPage) -> Result<(), NoMemory>
        requires { self.old.version.0 < 64 }
        ensures writes { OnOk result (self.new.writes.items ≡ self.old.writes.items
            ++ change held.now.addr (copied_for self.old.version held.now.page) ∷ []) }
        ensures fresh { self.new.fresh ≡ self.old.fresh }
        ensures version { self.new.version ≡ self.old.version }
    {
        let page = marked(alloc, self.version, held.page.get())?;
        self.put(alloc, held.addr, page)
    }

    /// Adds a copy of a page with this body.
    fn create_copy(
        &mut self,
        alloc: Global,
        page: &Page,
        origin: Addr,
        body: Body,
    ) -> Result<Addr, NoMemory>
        ensures at { IfOk result (λ addr. addr ≡ new_addr self.old.fresh) }
        ensures writes { OnOk result (self.new.writes.items ≡ self.old.writes.items
            ++ creation self.old.fresh (new_page self.old.version page.now.low page.now.high body)
            origin ∷ []) }
        ensures fresh { OnOk result (self.new.fresh ≡ self.old.fresh + 1) }
        ensures bound { OnOk result (self.new.fresh ≤ 2 ^ 16) }
        ensures version { self.new.version ≡ self.old.version }
    {
        let low = page.low.try_copy(alloc)?;
        let high = page.high.try_copy(alloc)?;
        self.create(alloc, fresh_page(self.version, low, high, body), origin)
    }

    /// Adds the left half of a page.
    fn create_left(
        &mut self,
        alloc: Global,
        page: &Page,
        origin: Addr,
        left: Body,
        separator: &Key,
    ) -> Result<Addr, NoMemory>
        ensures at { IfOk result (λ addr. addr ≡ new_addr self.old.fresh) }
        ensures writes { OnOk result (self.new.writes.items ≡ self.old.writes.items
            ++ creation self.old.fresh (new_page self.old.version page.now.low
            (Some separator.now) left) origin ∷ []) }
        ensures fresh { OnOk result (self.new.fresh ≡ self.old.fresh + 1) }
        ensures bound { OnOk result (self.new.fresh ≤ 2 ^ 16) }
        ensures version { self.new.version ≡ self.old.version }
    {
        let low = page.low.try_copy(alloc)?;
        let high = Some(separator.try_copy(alloc)?);
        self.create(alloc, fresh_page(self.version, low, high, left), origin)
    }

    /// Adds the right half of a page.
    fn create_right(
        &mut self,
        alloc: Global,
        page: &Page,
        origin: Addr,
        separator: &Key,
        right: Body,
    ) -> Result<Addr, NoMemory>
        ensures at { IfOk result (λ addr. addr ≡ new_addr self.old.fresh) }
        ensures writes { OnOk result (self.new.writes.items ≡ self.old.writes.items
            ++ creation self.old.fresh (new_page self.old.version separator.now page.now.high right)
            origin ∷ []) }
        ensures fresh { OnOk result (self.new.fresh ≡ self.old.fresh + 1) }
        ensures bound { OnOk result (self.new.fresh ≤ 2 ^ 16) }
        ensures version { self.new.version ≡ self.old.version }
    {
        let low = Low::at(separator);
        let high = page.high.try_copy(alloc)?;
        self.create(alloc, fresh_page(self.version, low, high, right), origin)
    }

    /// A page that was made in the version has this body now.
    fn change_own(
        &mut self,
        alloc: Global,
        held: &HeldPage,
        origin: Addr,
        body: Body,
    ) -> Result<Ask, NoMemory>
        requires { self.old.fresh ≤ 2 ^ 16 }
        ensures asks { IfOk result (λ ask. seen_asked ask
            ≡ own_asks self.old.fresh (held_of held.now) (halves_of body)) }
        ensures writes { OnOk result
            (self.new.writes.items ≡ self.old.writes.items
            ++ own_writes self.old.version self.old.fresh origin (held_of held.now) body
            (halves_of body)) }
        ensures fresh { OnOk result (self.new.fresh
            ≡ self.old.fresh + length (origins_in
            (own_writes self.old.version self.old.fresh origin (held_of held.now) body
            (halves_of body)))) }
        ensures bound { OnOk result (self.new.fresh ≤ 2 ^ 16) }
        ensures version { self.new.version ≡ self.old.version }
    {
        match parts_of(alloc, body)? {
            Parts::Whole { body } => {
                self.put_body(alloc, held, body)?;
                Ok(Ask::Nothing)
            }
            Parts::Halves {
                left,
                separator,
                right,
            } => {
                let addr = self.create_right(alloc, held.page.get(), origin, &separator, right)?;
                self.put_left(alloc, held, &separator, left)?;
                Ok(Ask::Child {
                    now: held.addr,
                    more: Some(Child { separator, addr }),
                })
            }
        }
    }

    /// Adds both halves of a page. The answer is where they go, the left one first.
    fn create_halves(
        &mut self,
        alloc: Global,
        page: &Page,
        origin: Addr,
        left: Body,
        separator: &Key,
        right: Body,
    ) -> Result<(Addr, Addr), NoMemory>
        ensures at { IfOk result (λ at. (at.0 ≡ new_addr self.old.fresh)
            × (at.1 ≡ new_addr (self.old.fresh + 1))) }
        ensures writes { OnOk result (self.new.writes.items ≡ self.old.writes.items
            ++ creation self.old.fresh (new_page self.old.version page.now.low
            (Some separator.now) left) origin
            ∷ creation (self.old.fresh + 1)
            (new_page self.old.version separator.now page.now.high right) origin ∷ []) }
        ensures fresh { OnOk result (self.new.fresh ≡ self.old.fresh + 2) }
        ensures bound { OnOk result (self.new.fresh ≤ 2 ^ 16) }
        ensures version { self.new.version ≡ self.old.version }
    {
        let left = self.create_left(alloc, page, origin, left, separator)?;
        let right = self.create_right(alloc, page, origin, separator, right)?;
        Ok((left, right))
    }

    /// A page that was not made in the version has this body now: in a copy.
    fn change_other(
        &mut self,
        alloc: Global,
        held: &HeldPage,
        origin: Addr,
        body: Body,
    ) -> Result<Ask, NoMemory>
        requires version { self.old.version.0 < 64 }
        ensures asks { IfOk result (λ ask. seen_asked ask
            ≡ other_asks self.old.fresh (halves_of body)) }
        ensures writes { OnOk result
            (self.new.writes.items ≡ self.old.writes.items
            ++ other_writes self.old.version self.old.fresh origin (held_of held.now) body
            (halves_of body)) }
        ensures fresh { OnOk result (self.new.fresh
            ≡ self.old.fresh + length (origins_in
            (other_writes self.old.version self.old.fresh origin (held_of held.now) body
            (halves_of body)))) }
        ensures bound { OnOk result (self.new.fresh ≤ 2 ^ 16) }
        ensures version { self.new.version ≡ self.old.version }
    {
        let page = held.page.get();
        match parts_of(alloc, body)? {
            Parts::Whole { body } => {
                let now = self.create_copy(alloc, page, origin, body)?;
                self.put_marked(alloc, held)?;
                Ok(Ask::Child { now, more: None })
            }
            Parts::Halves {
                left,
                separator,
                right,
            } => {
                let (now, addr) = self.create_halves(alloc, page, origin, left, &separator, right)?;
                self.put_marked(alloc, held)?;
                Ok(Ask::Child {
                    now,
                    more: Some(Child { separator, addr }),
                })
            }
        }
    }

    /// A page below the root has this body now.
    fn change_page(
        &mut self,
        alloc: Global,
        held: &HeldPage,
        origin: Addr,
        body: Body,
    ) -> Result<Ask, NoMemory>
        requires version { self.old.version.0 < 64 }
        requires bound { self.old.fresh ≤ 2 ^ 16 }
        ensures asks { IfOk result (λ ask. seen_asked ask
            ≡ page_asks self.old.version self.old.fresh (held_of held.now) body) }
        ensures writes { OnOk result
            (self.new.writes.items ≡ self.old.writes.items
            ++ page_writes self.old.version self.old.fresh origin (held_of held.now) body) }
        ensures fresh { OnOk result (self.new.fresh
            ≡ self.old.fresh + length (origins_in
            (page_writes self.old.version self.old.fresh origin (held_of held.now) body))) }
        ensures bound { OnOk result (self.new.fresh ≤ 2 ^ 16) }
        ensures version { self.new.version ≡ self.old.version }
    {
        if held.page.get().made.0 == self.version.0 {
            return self.change_own(alloc, held, origin, body);
        }
        self.change_other(alloc, held, origin, body)
    }

    /// The root has this body now. It keeps its slot.
    fn change_root(
        &mut self,
        alloc: Global,
        held: &HeldPage,
        origin: Addr,
        body: Body,
    ) -> Result<(), NoMemory>
        requires { self.old.fresh ≤ 2 ^ 16 }
        ensures writes { OnOk result
            (self.new.writes.items ≡ self.old.writes.items
            ++ root_writes self.old.version self.old.fresh origin (held_of held.now) body
            (halves_of body)) }
        ensures fresh { OnOk result (self.new.fresh
            ≡ self.old.fresh + length (origins_in
            (root_writes self.old.version self.old.fresh origin (held_of held.now) body
            (halves_of body)))) }
        ensures bound { OnOk result (self.new.fresh ≤ 2 ^ 16) }
    {
        let page = held.page.get();
        let below = height(&body);
        match parts_of(alloc, body)? {
            Parts::Whole { body } => self.put_body(alloc, held, body),
            Parts::Halves {
                left,
                separator,
                right,
            } => {
                let (first, addr) = self.create_halves(
                    alloc, page, origin, left, &separator, right,
                )?;
                let root = root_over(alloc, below, first, Child { separator, addr })?;
                self.put_body(alloc, held, root)
            }
        }
    }
}

/// A root over two halves of this height. A height that has no number counts as want of memory.
fn root_over(alloc: Global, below: u16, first: Addr, second: Child) -> Result<Body, NoMemory>
    ensures { IfOk result (λ body. body ≡ Inner (below + 1) first (second ∷ [])) }
{
    let Some(height) = below.checked_add(1) else {
        return Err(NoMemory);
    };
    let mut rest = Vec::new(alloc);
    rest.push(second)?;
    Ok(Body::Inner {
        height,
        first,
        rest: Branches::from_vec(alloc, rest)?,
    })
}

/// The writes after which the leaf of a path has this body, where the pages at these addresses lead
/// from above it up to the root. They are looked up as far as the change goes.
pub fn raise(
    alloc: Global,
    version: VersionNo,
    draft: &Draft,
    leaf: &HeldPage,
    above: &[Addr],
    body: Body,
) -> Result<Vec<Write>, NoMemory>
    requires version { version.0 < 64 }
    requires bound { length draft.now.origins.items ≤ 2 ^ 16 }
    ensures writes { IfOk result (λ writes. writes.items
        ≡ writes_up version (length draft.now.origins.items) draft.now.origins.items
        (held_of leaf.now) (those_at (helds draft.now.pages.items) (held_of leaf.now) above.now)
        body) }
    ensures bound { IfOk result (λ writes.
        length draft.now.origins.items + length (origins_in writes.items) ≤ 2 ^ 16) }
{
    let origins = draft.origins.as_slice();
    let mut writer = Writer {
        version,
        fresh: origins.len(),
        writes: Vec::new(alloc),
    };
    let mut at = leaf;
    let mut body = body;
    for addr in above {
        let parent = draft.pages.get_or(*addr, at);
        let origin = resolved(origins, at.addr);
        let Ask::Child { now, more } = writer.change_page(alloc, at, origin, body)? else {
            return Ok(writer.writes);
        };
        body = with_children(alloc, &parent.page.get().body, at.addr, now, more)?;
        at = parent;
    }
    writer.change_root(alloc, at, resolved(origins, at.addr), body)?;
    Ok(writer.writes)
}

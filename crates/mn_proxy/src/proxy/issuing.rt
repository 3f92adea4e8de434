//! How a try goes on to what it wants next: a read, by a Peek or by a minitransaction, its plan,
//! or its end.
ghost use Rattle.std.specs.Prelude.{◌≡◌, ◌≤◌, ◌<◌, List, IfOk, OnErr, OnOk, None};
ghost use Rattle.std.specs.Prelude.{true};
ghost use Rattle.mn_base.specs.declared.op.Op.{Op};
ghost use Rattle.mn_mini.specs.Mini.{IsInSpace, IsSound};
ghost use Rattle.mn_txn.specs.Tries.{FreeSlotsAreLeft, TriesShowCauses, WornPagesShow};
ghost use Rattle.mn_runs.specs.declared.entry.Entry.{Entry};
ghost use Rattle.mn_law.specs.Places.{catalog_place};
ghost use Rattle.mn_proxy.specs.declared.errand.Purpose.TheVariants as purposes;
ghost use Rattle.mn_work.specs.declared.get.Descent.{Descent};
ghost use Rattle.mn_proxy.specs.Agrees.{IsAtRest, IsOwn, IsOwnLast, IsPlaceFor, MayPeekFor};
ghost use Rattle.mn_proxy.specs.Firsts.{FailsAsKept, IsSecond};
ghost use Rattle.mn_work.specs.Cached.{Walks, next_of};
ghost use Rattle.mn_proxy.specs.Kept.{CacheTurns, CatalogTurns, GoesWith, Issues, Reads};
ghost use Rattle.mn_work.specs.Knows.{KeepsKnown};
ghost use Rattle.mn_proxy.specs.Measure.{GoesBelow, left_after};
ghost use Rattle.mn_work.specs.Paths.{HasCurrentPath, WantsLeaf};
ghost use Rattle.mn_proxy.specs.LeafReads.{ReadsLeaf};
ghost use Rattle.mn_work.specs.Places.{place_of};
ghost use Rattle.mn_proxy.specs.Tries.{max_tries};
ghost use Rattle.mn_proxy.specs.Turns.{IsAsAsked, IsReadFor, IsSoundTurn, KeepsSelf, MayIssue};
ghost use Rattle.mn_proxy.specs.Turns.{TurnAgrees, WaitsFor, read_mini, with_known};
ghost use Rattle.mn_proxy.specs.Turn.{turned};
ghost use Rattle.mn_work.specs.Walks.{is_later};
ghost use Rattle.mn_work.specs.Works.{IsJobOf, IsStartable, IsToAsk, KeepsOp, StaysLast};
ghost use Rattle.mn_work.specs.Works.{WantsNext};
ghost use Rattle.mn_work.specs.Works.{new_work};

use super::{PEEKS, Proxy};
use crate::errand::{Errand, Purpose};
use crate::step::ProxyStep;
use mn_base::{NoMemory, Tid, TryCopy};
use mn_coord::Coordinator;
use mn_mini::{Item, Items, MAX_ITEM, Minitransaction, Request, SPACE};
use mn_work::{Next, Place, Task};
use std::alloc::Global;

/// A minitransaction that reads a place. NoMemory: there was no memory for it; or the place lies
/// outside the space, as the address of a page that was read may say: no run shows one.
#[inline(never)]
fn read_of(alloc: Global, nodes: u8, place: Place) -> Result<Minitransaction, NoMemory>
    ensures { IfOk result (λ mini. mini ≡ read_mini nodes (place_of place)) }
{
    let item = Item::Read {
        node: place.node,
        start: place.start,
        length: place.length,
    };
    match Minitransaction::new(alloc, nodes, Items::one(item)) {
        Ok(mini) => Ok(mini),
        Err(_) => Err(NoMemory),
    }
}

/// What is so of each minitransaction.
fn is_sound(mini: &Minitransaction)
    ensures { IsSound mini.now }
{
    let _items = mini.items();
}

/// Whether the place lies in the space of a node.
fn is_in_space(place: &Place) -> bool
    ensures { result ≡ true → IsInSpace place.now.start place.now.length }
{
    place.length >= 1
        && place.length <= MAX_ITEM
        && u64::from(place.start) + u64::from(place.length) <= u64::from(SPACE)
}

/// What is known of tries that end for want of slots or of numbers.
fn causes_are_shown()
    ensures causes { TriesShowCauses }
    ensures worns { WornPagesShow }
    ensures left { FreeSlotsAreLeft }
{
    mn_txn::tries_show_causes();
    mn_txn::worn_pages_show();
    mn_txn::free_slots_are_left();
}

impl Proxy {
    /// Goes on with what the try wants next.
    #[inline(never)]
    pub(super) fn advance(&mut self, alloc: Global, work: Task) -> Result<ProxyStep, NoMemory>
        requires idle { self.old.work ≡ None }
        requires few { work.failed < max_tries }
        requires job { IsJobOf self.old.known work }
        ensures sound { IfOk (turned self.new.work result) (IsSoundTurn self.new.known) }
        ensures turns { (es : List Entry) → IsOwn es self.old → IsAtRest es self.old.known work
            → IfOk (turned self.new.work result) (TurnAgrees es self.new) }
        ensures left { (es : List Entry) → IsOwnLast es self.old
            → OnErr result (IsOwnLast es self.new) }
        ensures kept { KeepsSelf self.old self.new × OnErr result (self.new.work ≡ None) }
        ensures falls { IfOk (turned self.new.work result)
            (GoesBelow (left_after self.old) self.new) }
        ensures cache { CacheTurns None (is_later work.failed)
            self.old.known.cache self.new.known.cache (turned self.new.work result) }
        ensures catalog { IfOk (turned self.new.work result)
            (CatalogTurns None self.old.known.catalog self.new.known.catalog) }
        ensures left_catalog { OnErr result (self.new.known.catalog ≡ self.old.known.catalog) }
        ensures first { work.failed ≡ 0 → IfOk (turned self.new.work result)
            (λ turn. IsSecond turn → FailsAsKept self.old.known work) }
        ensures path { (op : Op) (leaf : Descent) → (work ≡ new_work op)
            → HasCurrentPath self.old.known op leaf
            → IfOk (turned self.new.work result) (ReadsLeaf self.old.known.nodes op leaf) }
    {
        causes_are_shown();
        let mut work = work;
        match self.want(alloc, &mut work)? {
            Next::Catalog => self.read_catalog(alloc, work),
            Next::Page { addr, peek } => {
                let place = Place::of_page(addr);
                self.read(alloc, work, place, peek, Purpose::Page { addr })
            }
            Next::Count { node, peek } => {
                self.read(alloc, work, Place::of_count(node), peek, Purpose::Count)
            }
            Next::Plan { mini, reply } => self.issue(alloc, work, mini, Purpose::Plan { reply }),
            Next::Fails { cause } => self.fail(alloc, work, cause),
            Next::Answers { answer } => Ok(ProxyStep::Done { answer }),
        }
    }

    /// What the try wants next.
    #[inline(never)]
    fn want(&mut self, alloc: Global, work: &mut Task) -> Result<Next, NoMemory>
        requires idle { self.old.work ≡ None }
        requires job { IsJobOf self.old.known work.old }
        ensures same { self.new ≡ with_known self.old self.new.known }
        ensures kept { KeepsKnown self.old.known self.new.known }
        ensures op { KeepsOp work.old work.new }
        ensures last { OnOk result (StaysLast self.old.known.cache work.old.job work.new.job) }
        ensures wants { IfOk result (WantsNext self.new.known work.old work.new) }
        ensures cache { Walks (is_later work.old.failed) (next_of result)
            self.old.known.cache self.new.known.cache }
        ensures path { (op : Op) (leaf : Descent) → (work.old ≡ new_work op)
            → HasCurrentPath self.old.known op leaf → IfOk result (WantsLeaf leaf work.new) }
        ensures few { self.new.known.nodes ≤ 8 }
    {
        self.has_nodes();
        work.get_mut().advance(alloc, &mut self.known)
    }

    // There are 1 to 8 nodes.
    fn has_nodes(&self)
        ensures some { 1 ≤ self.now.known.nodes }
        ensures few { self.now.known.nodes ≤ 8 }
    {
        let _nodes = self.known.nodes;
    }

    /// Reads the catalog.
    #[inline(never)]
    pub(super) fn read_catalog(&mut self, alloc: Global, work: Task) -> Result<ProxyStep, NoMemory>
        requires idle { self.old.work ≡ None }
        requires few { work.failed < max_tries }
        requires job { IsJobOf self.old.known work }
        requires startable { IsStartable work.op work.job }
        requires asks { IsToAsk self.old.known.catalog work.job }
        ensures sound { IfOk (turned self.new.work result) (IsSoundTurn self.new.known) }
        ensures turns { (es : List Entry) → IsOwn es self.old → IsAtRest es self.old.known work
            → IfOk (turned self.new.work result) (TurnAgrees es self.new) }
        ensures left { (es : List Entry) → IsOwnLast es self.old
            → OnErr result (IsOwnLast es self.new) }
        ensures kept { KeepsSelf self.old self.new × OnErr result (self.new.work ≡ None) }
        ensures falls { IfOk (turned self.new.work result)
            (GoesBelow (left_after self.old) self.new) }
        ensures known { self.new.known ≡ self.old.known }
        ensures reads { IfOk (turned self.new.work result)
            (Issues work purposes.Catalog (read_mini self.old.known.nodes catalog_place)) }
    {
        self.has_nodes();
        self.read(alloc, work, Place::of_catalog(), false, Purpose::Catalog)
    }

    /// Reads a place, by a Peek or by an Exec.
    #[inline(always)]
    fn read(
        &mut self,
        alloc: Global,
        work: Task,
        place: Place,
        peek: bool,
        purpose: Purpose,
    ) -> Result<ProxyStep, NoMemory>
        requires idle { self.old.work ≡ None }
        requires few { work.failed < max_tries }
        requires waits { WaitsFor self.old.known work purpose }
        requires reads { IsReadFor purpose }
        requires node { place.node.0 < self.old.known.nodes }
        ensures sound { IfOk (turned self.new.work result) (IsSoundTurn self.new.known) }
        ensures turns { (es : List Entry) → IsOwn es self.old → IsAtRest es self.old.known work
            → IsPlaceFor work.job purpose (place_of place)
            → (peek ≡ true → (work.failed ≡ 0) × MayPeekFor work.job purpose)
            → IfOk (turned self.new.work result) (TurnAgrees es self.new) }
        ensures left { (es : List Entry) → IsOwnLast es self.old
            → OnErr result (IsOwnLast es self.new) }
        ensures kept { KeepsSelf self.old self.new × OnErr result (self.new.work ≡ None) }
        ensures falls { IfOk (turned self.new.work result)
            (GoesBelow (left_after self.old) self.new) }
        ensures known { self.new.known ≡ self.old.known }
        ensures reads { IfOk (turned self.new.work result)
            (Reads peek work purpose (read_mini self.old.known.nodes (place_of place))) }
    {
        if !self.may_peek(peek) {
            let mini = read_of(alloc, self.known.nodes, place)?;
            return self.issue(alloc, work, mini, purpose);
        }
        self.peek(work, place, purpose)
    }

    /// Whether a place is read by a Peek, where it may be.
    fn may_peek(&self, peek: bool) -> bool
        ensures { result ≡ true → (peek ≡ true) × (1 ≤ self.now.peeks) }
    {
        peek && self.peeks > 0
    }

    /// Reads a place by a Peek. NoMemory: the place lies outside the space, as the address of a
    /// page that was read may say: no run shows one.
    #[inline(always)]
    fn peek(&mut self, work: Task, place: Place, purpose: Purpose) -> Result<ProxyStep, NoMemory>
        requires idle { self.old.work ≡ None }
        requires few { work.failed < max_tries }
        requires waits { WaitsFor self.old.known work purpose }
        requires reads { IsReadFor purpose }
        requires node { place.node.0 < self.old.known.nodes }
        requires left { 1 ≤ self.old.peeks }
        ensures sound { IfOk (turned self.new.work result) (IsSoundTurn self.new.known) }
        ensures turns { (es : List Entry) → IsOwn es self.old → IsAtRest es self.old.known work
            → IsPlaceFor work.job purpose (place_of place)
            → (work.failed ≡ 0) × MayPeekFor work.job purpose
            → IfOk (turned self.new.work result) (TurnAgrees es self.new) }
        ensures left { (es : List Entry) → IsOwnLast es self.old
            → OnErr result (IsOwnLast es self.new) }
        ensures kept { KeepsSelf self.old self.new × OnErr result (self.new.work ≡ None) }
        ensures falls { IfOk (turned self.new.work result)
            (GoesBelow (left_after self.old) self.new) }
        ensures known { self.new.known ≡ self.old.known }
        ensures reads { IfOk (turned self.new.work result) (GoesWith work) }
    {
        if !is_in_space(&place) {
            return Err(NoMemory);
        }
        self.peeks -= 1;
        let step = ProxyStep::Call {
            node: place.node,
            request: Request::Peek {
                start: place.start,
                length: place.length,
            },
        };
        self.work = Some((work, Errand::Peek { place, purpose }));
        Ok(step)
    }

    /// Issues a minitransaction under the next serial. NoMemory: there was no memory, or no serial
    /// is left.
    #[inline(never)]
    fn issue(
        &mut self,
        alloc: Global,
        work: Task,
        mini: Minitransaction,
        purpose: Purpose,
    ) -> Result<ProxyStep, NoMemory>
        requires idle { self.old.work ≡ None }
        requires few { work.failed < max_tries }
        requires waits { WaitsFor self.old.known work purpose }
        requires asked { IsAsAsked self.old.known work purpose mini }
        requires nodes { mini.nodes ≡ self.old.known.nodes }
        ensures sound { IfOk (turned self.new.work result) (IsSoundTurn self.new.known) }
        ensures turns { (es : List Entry) → IsOwn es self.old
            → MayIssue es self.old.known work purpose mini
            → IfOk (turned self.new.work result) (TurnAgrees es self.new) }
        ensures left { (es : List Entry) → IsOwnLast es self.old
            → OnErr result (IsOwnLast es self.new) }
        ensures kept { KeepsSelf self.old self.new × OnErr result (self.new.work ≡ None) }
        ensures falls { IfOk (turned self.new.work result)
            (GoesBelow (left_after self.old) self.new) }
        ensures known { self.new.known ≡ self.old.known }
        ensures issues { IfOk (turned self.new.work result) (Issues work purpose mini) }
    {
        is_sound(&mini);
        if self.issued == u32::MAX {
            return Err(NoMemory);
        }
        let tid = Tid {
            run: self.run,
            client: self.client,
            serial: self.issued + 1,
        };
        let coordinator = Coordinator::new(alloc, tid, mini.try_copy(alloc)?)?;
        self.issued += 1;
        self.peeks = PEEKS;
        let errand = Errand::Mini {
            tid,
            coordinator,
            purpose,
        };
        self.work = Some((work, errand));
        Ok(ProxyStep::Issue { tid, mini })
    }
}

//! How an operation goes on by what came: a Peek, or a minitransaction under way.
ghost use Rattle.std.specs.Prelude.{◌≡◌, ◌<◌, ◌+◌, List, IfOk, OnErr, OnOk, None, Some, false};
ghost use Rattle.std.specs.Prelude.{MatchOption, option_map};
ghost use Rattle.mn_coord.specs.Coordination.{step_of};
ghost use Rattle.mn_runs.specs.declared.entry.Entry.{Entry};
ghost use Rattle.mn_runs.specs.Calls.{since_begin};
ghost use Rattle.mn_proxy.specs.declared.errand.Errand.TheVariants as errands;
ghost use Rattle.mn_proxy.specs.Agrees.{AreOverNodes, ErrandAgrees, HasRead, IsOwn};
ghost use Rattle.mn_proxy.specs.Agrees.{IsOwnLast, MayWant, MiniAgrees};
ghost use Rattle.mn_proxy.specs.Firsts.{FailsAsRead, IsRefusal, IsSecond};
ghost use Rattle.mn_proxy.specs.Issues.{AreClosed};
ghost use Rattle.mn_proxy.specs.Kept.{CacheTurns, CatalogTurns, Forgets, KeepsOrForgets, PutsRead};
ghost use Rattle.mn_proxy.specs.Kept.{read_by, read_for, read_when};
ghost use Rattle.mn_work.specs.Knows.{ArePages};
ghost use Rattle.mn_proxy.specs.Measure.{GoesBelow, left_after, left_of};
ghost use Rattle.mn_proxy.specs.LeafReads.{LeafTurns};
ghost use Rattle.mn_proxy.specs.Tries.{max_tries};
ghost use Rattle.mn_proxy.specs.Turns.{AnswersPeek, CameOf, IsCommitted, IsEnd, IsReadFor};
ghost use Rattle.mn_proxy.specs.Turns.{IsSoundTurn, KeepsSelf, Leaves, TurnAgrees, WaitsFor};
ghost use Rattle.mn_proxy.specs.Turns.{read_alone};
ghost use Rattle.mn_proxy.specs.Turn.{turned};
ghost use Rattle.mn_work.specs.Walks.{is_later};

use super::Proxy;
use crate::errand::Purpose;
use crate::step::ProxyStep;
use mn_base::{Answer, NoMemory, Tid};
use mn_coord::{CoordStep, Coordinator};
use mn_mini::{NodeReply, ReadBytes, Reads, SharedBytes};
use mn_work::{Known, Place, Taken, Task};
use std::alloc::Global;

/// What a minitransaction of one read item has read.
fn only_read(reads: &[Reads]) -> Option<&ReadBytes>
    ensures { option_map (λ b. b.now) result ≡ read_alone reads.now }
{
    let [one] = reads else { return None };
    let [bytes] = one.as_slice() else { return None };
    Some(bytes)
}

/// Forgets what is kept of the place that was read for this purpose. It takes no memory.
fn forget(known: &mut Known, purpose: Purpose)
    ensures { Forgets purpose known.old known.new }
{
    match purpose {
        Purpose::Catalog => known.catalog = None,
        Purpose::Page { addr } => known.cache.drop_page(addr),
        Purpose::Count => {}
        Purpose::Plan { reply: _reply } => {}
    }
}

/// Takes what was read for this purpose.
#[inline(never)]
fn taken_for(
    alloc: Global,
    work: &mut Task,
    known: &mut Known,
    purpose: Purpose,
    bytes: SharedBytes,
) -> Result<Taken, NoMemory>
    requires pages { ArePages known.old.cache }
    requires waits { WaitsFor known.old work.old purpose }
    requires reads { IsReadFor purpose }
    ensures pages { ArePages known.new.cache }
    ensures leaves { Leaves known.old known.new purpose bytes }
    ensures came { IfOk result (CameOf known.old known.new work.old work.new purpose bytes) }
    ensures cache { PutsRead (Some (purpose, bytes)) known.old.cache known.new.cache result }
{
    match purpose {
        Purpose::Catalog => work.get_mut().take_catalog(alloc, known, &bytes),
        Purpose::Page { addr } => work.get_mut().take_page(alloc, known, addr, bytes),
        Purpose::Count => work.get_mut().take_count(bytes.as_slice()),
        Purpose::Plan { .. } => unreachable!(),
    }
}

impl Proxy {
    /// Goes on after a Peek that was answered.
    #[inline(always)]
    pub(super) fn take_peeked(
        &mut self,
        alloc: Global,
        work: Task,
        place: Place,
        reply: NodeReply,
        purpose: Purpose,
    ) -> Result<ProxyStep, NoMemory>
        requires idle { self.old.work ≡ None }
        requires few { work.failed < max_tries }
        requires waits { WaitsFor self.old.known work purpose }
        requires reads { IsReadFor purpose }
        requires fits { AnswersPeek reply }
        ensures sound { IfOk (turned self.new.work result) (IsSoundTurn self.new.known) }
        ensures turns { (es : List Entry) → IsOwn es self.old
            → ErrandAgrees es self.old.known work (errands.Peeked place reply purpose)
            → IfOk (turned self.new.work result) (TurnAgrees es self.new) }
        ensures want { (es : List Entry) → IsOwn es self.old
            → ErrandAgrees es self.old.known work (errands.Peeked place reply purpose)
            → OnErr result (MayWant es) }
        ensures left { (es : List Entry) → IsOwn es self.old
            → ErrandAgrees es self.old.known work (errands.Peeked place reply purpose)
            → OnErr result (IsOwnLast es self.new) }
        ensures kept { KeepsSelf self.old self.new × OnErr result (self.new.work ≡ None) }
        ensures falls { IfOk (turned self.new.work result)
            (GoesBelow (left_after self.old) self.new) }
        ensures cache { CacheTurns
            (read_by (errands.Peeked place reply purpose)) (is_later work.failed)
            self.old.known.cache self.new.known.cache (turned self.new.work result) }
        ensures catalog { IfOk (turned self.new.work result)
            (CatalogTurns (read_by (errands.Peeked place reply purpose))
            self.old.known.catalog self.new.known.catalog) }
        ensures left_catalog { OnErr result
            (KeepsOrForgets (read_by (errands.Peeked place reply purpose))
            self.old.known.catalog self.new.known.catalog) }
        ensures lacks { reply ≡ NodeReply.NoMemory → OnOk result ⊥ }
        ensures first { work.failed ≡ 0 → IfOk (turned self.new.work result)
            (λ turn. IsSecond turn → MatchOption
            (read_by (errands.Peeked place reply purpose)) ⊥
            (FailsAsRead self.old.known work)) }
        ensures leaf { LeafTurns self.old.known work
            (read_by (errands.Peeked place reply purpose)) (turned self.new.work result) }
    {
        match reply {
            NodeReply::Peeked { bytes } => self.take(alloc, work, purpose, bytes),
            NodeReply::Down => Ok(ProxyStep::Done {
                answer: Answer::Down { node: place.node },
            }),
            NodeReply::NoMemory => Err(NoMemory),
            _ => unreachable!(),
        }
    }

    /// Goes on after a minitransaction that has ended.
    #[inline(always)]
    pub(super) fn coordinate(
        &mut self,
        alloc: Global,
        work: Task,
        tid: Tid,
        coordinator: Coordinator,
        purpose: Purpose,
    ) -> Result<ProxyStep, NoMemory>
        requires idle { self.old.work ≡ None }
        requires quiet { coordinator.asked ≡ false }
        requires ended { IsEnd (step_of coordinator) }
        requires few { work.failed < max_tries }
        requires nodes { coordinator.mini.nodes ≡ self.old.known.nodes }
        requires waits { WaitsFor self.old.known work purpose }
        ensures sound { IfOk (turned self.new.work result) (IsSoundTurn self.new.known) }
        ensures turns { (es : List Entry) → IsOwn es self.old
            → MiniAgrees es self.old.known work tid coordinator purpose
            → IfOk (turned self.new.work result) (TurnAgrees es self.new) }
        ensures want { (es : List Entry) → IsOwn es self.old
            → MiniAgrees es self.old.known work tid coordinator purpose
            → OnErr result (MayWant es) }
        ensures left { (es : List Entry) → IsOwn es self.old
            → MiniAgrees es self.old.known work tid coordinator purpose
            → OnErr result (IsOwnLast es self.new) }
        ensures kept { KeepsSelf self.old self.new × OnErr result (self.new.work ≡ None) }
        ensures falls { IfOk (turned self.new.work result)
            (GoesBelow (left_after self.old + left_of coordinator) self.new) }
        ensures cache { CacheTurns
            (read_when (step_of coordinator) coordinator.reads purpose) (is_later work.failed)
            self.old.known.cache self.new.known.cache (turned self.new.work result) }
        ensures catalog { IfOk (turned self.new.work result)
            (CatalogTurns (read_when (step_of coordinator) coordinator.reads purpose)
            self.old.known.catalog self.new.known.catalog) }
        ensures left_catalog { OnErr result
            (KeepsOrForgets (read_when (step_of coordinator) coordinator.reads purpose)
            self.old.known.catalog self.new.known.catalog) }
        ensures lacks { coordinator.refused ≡ Some NodeReply.NoMemory → OnOk result ⊥ }
        ensures first { (es : List Entry) → IsOwn es self.old
            → MiniAgrees es self.old.known work tid coordinator purpose → work.failed ≡ 0
            → IfOk (turned self.new.work result) (λ turn. IsSecond turn → MatchOption
            (read_when (step_of coordinator) coordinator.reads purpose)
            (IsRefusal coordinator.refused) (FailsAsRead self.old.known work)) }
        ensures leaf { LeafTurns self.old.known work
            (read_when (step_of coordinator) coordinator.reads purpose)
            (turned self.new.work result) }
    {
        let mut coordinator = coordinator;
        match coordinator.next() {
            CoordStep::Committed => self.commit(alloc, work, coordinator.reads(), purpose),
            CoordStep::Failed { node } => {
                self.refuse(alloc, work, tid, node, coordinator.into_outcome())
            }
            CoordStep::Doubt { node } => Ok(ProxyStep::Done {
                answer: Answer::InDoubt { tid, node },
            }),
            CoordStep::Send {
                node: _node,
                request: _request,
            } => unreachable!(),
            CoordStep::Abandon => unreachable!(),
        }
    }

    /// Goes on after a minitransaction that is committed. NoMemory: there was no memory; or a read
    /// has brought no bytes, as its one participant may say: no run shows it.
    #[inline(always)]
    fn commit(
        &mut self,
        alloc: Global,
        work: Task,
        reads: &[Reads],
        purpose: Purpose,
    ) -> Result<ProxyStep, NoMemory>
        requires idle { self.old.work ≡ None }
        requires few { work.failed < max_tries }
        requires waits { WaitsFor self.old.known work purpose }
        ensures sound { IfOk (turned self.new.work result) (IsSoundTurn self.new.known) }
        ensures turns { (es : List Entry) → IsOwn es self.old
            → IsCommitted es self.old.known work reads.now purpose
            → IfOk (turned self.new.work result) (TurnAgrees es self.new) }
        ensures want { (es : List Entry) → IsOwn es self.old
            → IsCommitted es self.old.known work reads.now purpose
            → OnErr result (MayWant es) }
        ensures left { (es : List Entry) → IsOwn es self.old
            → IsCommitted es self.old.known work reads.now purpose
            → OnErr result (IsOwnLast es self.new) }
        ensures kept { KeepsSelf self.old self.new × OnErr result (self.new.work ≡ None) }
        ensures falls { IfOk (turned self.new.work result)
            (GoesBelow (left_after self.old) self.new) }
        ensures cache { CacheTurns (read_for purpose reads.now) (is_later work.failed)
            self.old.known.cache self.new.known.cache (turned self.new.work result) }
        ensures catalog { IfOk (turned self.new.work result)
            (CatalogTurns (read_for purpose reads.now)
            self.old.known.catalog self.new.known.catalog) }
        ensures left_catalog { OnErr result (KeepsOrForgets (read_for purpose reads.now)
            self.old.known.catalog self.new.known.catalog) }
        ensures first { work.failed ≡ 0 → IfOk (turned self.new.work result)
            (λ turn. IsSecond turn → MatchOption (read_for purpose reads.now) ⊥
            (FailsAsRead self.old.known work)) }
        ensures leaf { LeafTurns self.old.known work (read_for purpose reads.now)
            (turned self.new.work result) }
    {
        match purpose {
            Purpose::Plan { reply } => Ok(ProxyStep::Done {
                answer: Answer::Replied { reply },
            }),
            purpose => match only_read(reads) {
                Some(bytes) => self.take_copy(alloc, work, purpose, bytes),
                None => Err(NoMemory),
            },
        }
    }

    /// Goes on with a copy of what was read. Where there is no memory for one, what is kept of its
    /// place is forgotten, since it was read before.
    #[inline(always)]
    fn take_copy(
        &mut self,
        alloc: Global,
        work: Task,
        purpose: Purpose,
        bytes: &ReadBytes,
    ) -> Result<ProxyStep, NoMemory>
        requires idle { self.old.work ≡ None }
        requires few { work.failed < max_tries }
        requires waits { WaitsFor self.old.known work purpose }
        requires reads { IsReadFor purpose }
        ensures sound { IfOk (turned self.new.work result) (IsSoundTurn self.new.known) }
        ensures turns { (es : List Entry) → IsOwn es self.old
            → HasRead es self.old.known work purpose bytes.now → AreClosed (since_begin es)
            → AreOverNodes self.old.known.nodes work.failed (since_begin es)
            → IfOk (turned self.new.work result) (TurnAgrees es self.new) }
        ensures left { (es : List Entry) → IsOwn es self.old
            → HasRead es self.old.known work purpose bytes.now
            → OnErr result (IsOwnLast es self.new) }
        ensures kept { KeepsSelf self.old self.new × OnErr result (self.new.work ≡ None) }
        ensures falls { IfOk (turned self.new.work result)
            (GoesBelow (left_after self.old) self.new) }
        ensures cache { CacheTurns (Some (purpose, bytes.now)) (is_later work.failed)
            self.old.known.cache self.new.known.cache (turned self.new.work result) }
        ensures catalog { IfOk (turned self.new.work result)
            (CatalogTurns (Some (purpose, bytes.now))
            self.old.known.catalog self.new.known.catalog) }
        ensures left_catalog { OnErr result (KeepsOrForgets (Some (purpose, bytes.now))
            self.old.known.catalog self.new.known.catalog) }
        ensures first { work.failed ≡ 0 → IfOk (turned self.new.work result)
            (λ turn. IsSecond turn → FailsAsRead self.old.known work (purpose, bytes.now)) }
        ensures leaf { LeafTurns self.old.known work (Some (purpose, bytes.now))
            (turned self.new.work result) }
    {
        match bytes.to_shared(alloc) {
            Ok(bytes) => self.take(alloc, work, purpose, bytes),
            Err(_) => {
                forget(&mut self.known, purpose);
                Err(NoMemory)
            }
        }
    }

    /// Goes on with what was read.
    #[inline(always)]
    fn take(
        &mut self,
        alloc: Global,
        work: Task,
        purpose: Purpose,
        bytes: SharedBytes,
    ) -> Result<ProxyStep, NoMemory>
        requires idle { self.old.work ≡ None }
        requires few { work.failed < max_tries }
        requires waits { WaitsFor self.old.known work purpose }
        requires reads { IsReadFor purpose }
        ensures sound { IfOk (turned self.new.work result) (IsSoundTurn self.new.known) }
        ensures turns { (es : List Entry) → IsOwn es self.old
            → HasRead es self.old.known work purpose bytes → AreClosed (since_begin es)
            → AreOverNodes self.old.known.nodes work.failed (since_begin es)
            → IfOk (turned self.new.work result) (TurnAgrees es self.new) }
        ensures left { (es : List Entry) → IsOwn es self.old
            → HasRead es self.old.known work purpose bytes
            → OnErr result (IsOwnLast es self.new) }
        ensures kept { KeepsSelf self.old self.new × OnErr result (self.new.work ≡ None) }
        ensures falls { IfOk (turned self.new.work result)
            (GoesBelow (left_after self.old) self.new) }
        ensures cache { CacheTurns (Some (purpose, bytes)) (is_later work.failed)
            self.old.known.cache self.new.known.cache (turned self.new.work result) }
        ensures catalog { IfOk (turned self.new.work result)
            (CatalogTurns (Some (purpose, bytes))
            self.old.known.catalog self.new.known.catalog) }
        ensures left_catalog { OnErr result (KeepsOrForgets (Some (purpose, bytes))
            self.old.known.catalog self.new.known.catalog) }
        ensures first { work.failed ≡ 0 → IfOk (turned self.new.work result)
            (λ turn. IsSecond turn → FailsAsRead self.old.known work (purpose, bytes)) }
        ensures leaf { LeafTurns self.old.known work (Some (purpose, bytes))
            (turned self.new.work result) }
    {
        let mut work = work;
        match taken_for(alloc, &mut work, &mut self.known, purpose, bytes)? {
            Taken::GoesOn => self.advance(alloc, work),
            Taken::Leaf => {
                work.get_mut().failed = 0;
                self.advance(alloc, work)
            }
            Taken::Replies { reply } => Ok(ProxyStep::Done {
                answer: Answer::Replied { reply },
            }),
            Taken::Fails { cause } => self.fail(alloc, work, cause),
        }
    }
}

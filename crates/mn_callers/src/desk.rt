//! A recovery coordinator of the script.
ghost use Rattle.std.specs.Prelude.{◌≡◌, ◌≢◌, ◌≤◌, ◌<◌, ◌&&◌, [], false, true, List, not};
ghost use Rattle.std.specs.Prelude.{MatchOption, None, OnErr, OnOk, ⊤};
ghost use Rattle.mn_cell.specs.Calls.{entry_at, what_said};
ghost use Rattle.mn_mini.specs.RecordGrammar.{IsTid};
ghost use Rattle.mn_mini.specs.Sound.{Fits, IsDecide, IsSoundRequest};
ghost use Rattle.mn_runs.specs.declared.entry.Entry.{Entry};
ghost use Rattle.mn_runs.specs.Calls.{issues_of};
ghost use Rattle.mn_runs.specs.Clients.{Sends};
ghost use Rattle.mn_runs.specs.Protocol.{Start, start_nodes, entries_of};
ghost use Rattle.mn_callers.specs.declared.desk.TheConstants.{ENTRIES_AHEAD};
ghost use Rattle.mn_callers.specs.Clients.{last_shared};
ghost use Rattle.mn_callers.specs.Closing.{calls_of};
ghost use Rattle.mn_callers.specs.Desks.{IsDesk, IsOfRecovery, IsRecoveryCall, RecoversOn};
ghost use Rattle.mn_callers.specs.Hands.{HasTurn, MovesOn, hand_of};
ghost use Rattle.mn_callers.specs.Recoveries.{AsksIf, DoesRecover, DoesRstep, bench_of, is_force};
ghost use Rattle.mn_callers.specs.Recoveries.{is_vote, work_of};
ghost use Rattle.mn_callers.specs.Steps.{Adds, KeepsList};

use crate::transport::Transport;
use mn_actors::Pass;
use mn_base::{ClientNo, NoMemory, NodeNo, Tid};
use mn_law::CoreLaw;
use mn_mini::{NodeReply, Request};
use mn_recov::{RecovStep, Recoverer};
use mn_runs::ClientList;
use std::alloc::Global;

/// The most entries of a recovery from a vote on: that one, and a decision for each participant.
const ENTRIES_AHEAD: usize = 9;

/// A recovery coordinator: its list, and the recovery that it works on.
#[derive(Drop)]
pub struct Desk {
    pub list: ClientList,
    work: Option<Recoverer>,
}

/// Room in the list for a call of a recovery, and unless it is a decision, for all decisions that
/// may follow it. NoMemory: there was none.
pub fn make_room(list: &mut ClientList, request: &Request) -> Result<(), NoMemory>
    ensures client { list.new.client ≡ list.old.client }
    ensures entries { list.new.entries ≡ list.old.entries }
    ensures room { OnOk result ((IsDecide request.now → ⊥) → ENTRIES_AHEAD ≤ list.new.room) }
    ensures refused { OnErr result (IsDecide request.now → ⊥) }
{
    if matches!(request, Request::Decide { .. }) {
        return Ok(());
    }
    list.reserve(ENTRIES_AHEAD)
}

/// Whether it asks for a vote.
fn is_force(request: &Request) -> bool
    ensures { result ≡ is_force request.now }
{
    matches!(request, Request::Force { .. })
}

/// Whether a Force, where it was one, wasn't voted on, and has to be asked again.
fn has_to_wait(force: bool, reply: &NodeReply) -> bool
    ensures { result ≡ (force && not (is_vote reply.now)) }
{
    force && !matches!(reply, NodeReply::Vote { .. })
}

impl Desk {
    /// A coordinator without work.
    pub fn new(alloc: Global, actor: ClientNo) -> Desk
        requires actor { actor.0 ≤ 20 }
        ensures list { (result.list.client ≡ actor) × (result.list.entries ≡ []) }
        ensures idle { result.work ≡ None }
        ensures desk { (start : Start) → IsDesk start result }
    {
        Desk {
            list: ClientList::new(alloc, actor),
            work: None,
        }
    }

    /// Leaves the recovery that it is at, if there is one.
    pub fn leave(&mut self)
        ensures { self.new ≡ record self.old { work = None } }
    {
        self.work = None;
    }

    /// Where it has no work it takes the recovery of this id, if there is one.
    /// NoMemory: there was none for it.
    fn take_work(&mut self, alloc: Global, shared: Option<Tid>, nodes: u8) -> Result<(), NoMemory>
        requires id { MatchOption shared ⊤ IsTid }
        ensures list { self.new.list ≡ self.old.list }
        ensures work { OnOk result ((es : List Entry) → shared ≡ last_shared (issues_of es)
            → self.new.work ≡ work_of nodes self.old.work es) }
        ensures failed { OnErr result (self.new ≡ self.old) }
        ensures desk { (start : Start) → nodes ≡ start_nodes start → IsDesk start self.old
            → IsDesk start self.new }
    {
        if self.work.is_some() {
            return Ok(());
        }
        let Some(tid) = shared else {
            return Ok(());
        };
        self.work = Some(Recoverer::new(alloc, tid, nodes)?);
        Ok(())
    }

    /// Sends a request. NoMemory: there was none for it or for its entries, and there is no entry.
    #[inline(always)]
    pub(crate) fn send<X: Transport>(
        &mut self,
        alloc: Global,
        table: &mut X,
        pass: &mut Pass<CoreLaw>,
        node: NodeNo,
        request: Request,
    ) -> NodeReply
        requires turn { HasTurn X.board (X.ready table.old) (hand_of pass.old self.old.list) }
        requires list { IsOfRecovery X.start self.old.list }
        requires node { node.0 < start_nodes X.start }
        requires sound { IsSoundRequest request }
        requires kind { IsRecoveryCall request }
        requires legal { Sends (entries_of self.old.list.entries) (Some node) request }
        ensures turn { HasTurn X.board (X.ready table.new) (hand_of pass.new self.new.list) }
        ensures goes_on { MovesOn (X.went table.old table.new)
            (hand_of pass.old self.old.list) (hand_of pass.new self.new.list) }
        ensures list { IsOfRecovery X.start self.new.list }
        ensures said { result ≢ NodeReply.NoMemory
            → Adds (entry_at node self.old.list.client (what_said request None result))
            self.old.list self.new.list }
        ensures none { result ≡ NodeReply.NoMemory → KeepsList self.old.list self.new.list }
        ensures recovers { RecoversOn (entries_of self.old.list.entries)
            (entries_of self.new.list.entries) }
        ensures fits { Fits request result }
        ensures work { self.new.work ≡ self.old.work }
    {
        // A list's actor is one that there may be.
        let _client = self.list.client();
        if make_room(&mut self.list, &request).is_err() {
            return NodeReply::NoMemory;
        }
        table.send(alloc, pass, &mut self.list, node, request, None)
    }

    /// The call that its recovery wants next, if it has work. The answer is whether another may
    /// follow: it has work left, and doesn't have to wait at a Force.
    fn call<X: Transport>(&mut self, alloc: Global, table: &mut X, pass: &mut Pass<CoreLaw>) -> bool
        requires turn { HasTurn X.board (X.ready table.old) (hand_of pass.old self.old.list) }
        requires desk { IsDesk X.start self.old }
        ensures turn { HasTurn X.board (X.ready table.new) (hand_of pass.new self.new.list) }
        ensures goes_on { MovesOn (X.went table.old table.new)
            (hand_of pass.old self.old.list) (hand_of pass.new self.new.list) }
        ensures desk { IsDesk X.start self.new }
        ensures client { self.new.list.client ≡ self.old.list.client }
        ensures recovers { RecoversOn (entries_of self.old.list.entries)
            (entries_of self.new.list.entries) }
        ensures asks { AsksIf self.old.list.client self.old.work (bench_of self.old)
            (bench_of self.new) result }
        ensures falls { result ≡ true → calls_of self.new.work < calls_of self.old.work }
    {
        let Some(mut work) = self.work.take() else {
            return false;
        };
        let RecovStep::Send { node, request } = work.next() else {
            return false;
        };
        let force = is_force(&request);
        let reply = self.send(alloc, table, pass, node, request);
        let waits = has_to_wait(force, &reply);
        work.feed(reply);
        if let RecovStep::Ended { .. } = work.next() {
            return false;
        }
        self.work = Some(work);
        !waits
    }

    /// One call. Where it has no work it first takes this id, if there is one. NoMemory: there was
    /// none to take it.
    pub fn step<X: Transport>(
        &mut self,
        alloc: Global,
        table: &mut X,
        pass: &mut Pass<CoreLaw>,
        shared: Option<Tid>,
    ) -> Result<(), NoMemory>
        requires turn { HasTurn X.board (X.ready table.old) (hand_of pass.old self.old.list) }
        requires desk { IsDesk X.start self.old }
        requires id { MatchOption shared ⊤ IsTid }
        ensures turn { HasTurn X.board (X.ready table.new) (hand_of pass.new self.new.list) }
        ensures goes_on { MovesOn (X.went table.old table.new)
            (hand_of pass.old self.old.list) (hand_of pass.new self.new.list) }
        ensures desk { IsDesk X.start self.new }
        ensures does { OnOk result ((es : List Entry) → shared ≡ last_shared (issues_of es)
            → DoesRstep (start_nodes X.start) self.old.list.client es (bench_of self.old)
            (bench_of self.new)) }
        ensures failed { OnErr result (self.new ≡ self.old) }
    {
        self.take_work(alloc, shared, table.nodes())?;
        self.call(alloc, table, pass);
        Ok(())
    }

    /// Calls until its recovery ends, or has to wait at a Force. NoMemory: there was none to take
    /// the id, and it made no call.
    pub fn recover<X: Transport>(
        &mut self,
        alloc: Global,
        table: &mut X,
        pass: &mut Pass<CoreLaw>,
        shared: Option<Tid>,
    ) -> Result<(), NoMemory>
        requires turn { HasTurn X.board (X.ready table.old) (hand_of pass.old self.old.list) }
        requires desk { IsDesk X.start self.old }
        requires id { MatchOption shared ⊤ IsTid }
        ensures turn { HasTurn X.board (X.ready table.new) (hand_of pass.new self.new.list) }
        ensures goes_on { MovesOn (X.went table.old table.new)
            (hand_of pass.old self.old.list) (hand_of pass.new self.new.list) }
        ensures desk { IsDesk X.start self.new }
        ensures recovers { RecoversOn (entries_of self.old.list.entries)
            (entries_of self.new.list.entries) }
        ensures does { OnOk result ((es : List Entry) → shared ≡ last_shared (issues_of es)
            → DoesRecover (start_nodes X.start) self.old.list.client es (bench_of self.old)
            (bench_of self.new) false) }
        ensures failed { OnErr result (self.new ≡ self.old) }
    {
        self.take_work(alloc, shared, table.nodes())?;
        while self.call(alloc, table, pass) {}
        Ok(())
    }
}

//! What the coordinator does that opens and closes a run.
ghost use Rattle.std.specs.Prelude.{◌≡◌, ◌<◌, ◌++◌, true, false, IfErr, IfOk, OnErr, OnOk, None};
ghost use Rattle.std.specs.Prelude.{Some, Contains, length, map};
ghost use Rattle.std.specs.List.{AllByRecursion};
ghost use Rattle.mn_base.specs.declared.ids.NodeNo.{NodeNo as Numbered};
ghost use Rattle.mn_base.specs.declared.ids.Tid.{Tid as Id};
ghost use Rattle.mn_cell.specs.Calls.{entry_at, what_said};
ghost use Rattle.mn_mini.specs.Node.{doubts_of, held_parts};
ghost use Rattle.mn_mini.specs.RecordGrammar.{IsTid};
ghost use Rattle.mn_mini.specs.Sound.{Fits, IsDoubt, IsSoundRequest};
ghost use Rattle.mn_recov.specs.Recovery.{step_of};
ghost use Rattle.mn_recov.specs.declared.step.RecovStep.TheVariants.{Send};
ghost use Rattle.mn_runs.specs.Clients.{Sends};
ghost use Rattle.mn_runs.specs.Protocol.{base_at, start_of, entries_of};
ghost use Rattle.mn_callers.specs.Begins.{AreBare};
ghost use Rattle.mn_callers.specs.Causes.{IsCaused, cause_of};
ghost use Rattle.mn_callers.specs.Closing.{AllExtend, AreHeldIn, AreInOrder, IsClosing, IsDone};
ghost use Rattle.mn_callers.specs.Closing.{IsDoneTo, ClosesOn, calls_left, failure_of};
ghost use Rattle.mn_callers.specs.Desks.{IsOfRecovery, IsRecoveryCall, IsWork};
ghost use Rattle.mn_callers.specs.Doings.{HasAnswered, IsAnswer, IsDownAs, OthersStay};
ghost use Rattle.mn_callers.specs.Failed.{IsDamage, closer};
ghost use Rattle.mn_callers.specs.Settled.{AllUp, AreUpAndFree, records_at};
ghost use Rattle.mn_callers.specs.Steps.{Adds, KeepsList};
ghost use Rattle.mn_callers.specs.Turn.{ExtendsLog, IsTurn, turn_at};

use crate::desk::make_room;
use crate::table::Table;
use crate::transport::Transport;
use mn_actors::Pass;
use mn_base::{ClientNo, NoMemory, NodeNo, Tid};
use mn_cell::{Named, RunCause};
use mn_io::Disk;
use mn_law::CoreLaw;
use mn_mini::{Doubts, NodeReply, Request};
use mn_node::RestartError;
use mn_recov::{RecovStep, Recoverer};
use mn_runs::ClientList;
use std::alloc::Global;

/// Why the run fails where a node wasn't restarted.
fn cause_of(node: NodeNo, error: RestartError) -> RunCause
    ensures { result ≡ cause_of node error }
{
    match error {
        RestartError::Fault => RunCause::Disk { node },
        RestartError::Damaged { at, kept, found } => RunCause::Damaged {
            node,
            place: at,
            kept,
            found,
        },
        RestartError::NoMemory => RunCause::NoMemory,
    }
}

/// Why the run fails by a reply, if it does: the node stopped, or there was no memory. A node that
/// was up doesn't say that it is down, and no decision that is owed wants memory.
fn failure_of(node: NodeNo, reply: &NodeReply) -> Option<RunCause>
    ensures { result ≡ failure_of node reply.now }
{
    match reply {
        NodeReply::Stopped | NodeReply::Down => Some(RunCause::Disk { node }),
        NodeReply::NoMemory => Some(RunCause::NoMemory),
        _ => None,
    }
}

/// The actor that opens and closes, halts and restarts.
pub const CLOSER: ClientNo = ClientNo(16);

/// The coordinator that opens and closes.
#[derive(Drop)]
pub struct Closer {
    pub list: ClientList,
}

impl Closer {
    /// Restarts a node if it is down.
    fn restart<N: Named, D: Disk>(
        &mut self,
        alloc: Global,
        table: &mut Table<N, D>,
        pass: &mut Pass<CoreLaw>,
        node: NodeNo,
    ) -> Result<(), RunCause>
        requires closing { IsClosing N.board (start_of N.records)
            (turn_at table.old pass.old self.old.list) }
        requires node { node.0 < length N.records }
        ensures closing { IsClosing N.board (start_of N.records)
            (turn_at table.new pass.new self.new.list) }
        ensures goes_on { ExtendsLog (turn_at table.old pass.old self.old.list)
            (turn_at table.new pass.new self.new.list) }
        ensures closes { OnOk result (ClosesOn (entries_of self.old.list.entries)
            (entries_of self.new.list.entries)) }
        ensures others { OthersStay node table.old.stations.items table.new.stations.items }
        ensures up { OnOk result (IsDownAs false table.new.stations.items node) }
        ensures none { OnErr result (KeepsList self.old.list self.new.list) }
        ensures was_down { OnErr result (IsDownAs true table.old.stations.items node) }
        ensures caused { IfErr result
            (IsCaused D.faults N.faults N.honest table.new.stations.items) }
    {
        match table.restart(alloc, pass, &mut self.list, node) {
            Ok(()) => Ok(()),
            Err(error) => Err(cause_of(node, error)),
        }
    }

    /// Restarts each node that is down.
    fn restart_all<N: Named, D: Disk>(
        &mut self,
        alloc: Global,
        table: &mut Table<N, D>,
        pass: &mut Pass<CoreLaw>,
    ) -> Result<(), RunCause>
        requires closing { IsClosing N.board (start_of N.records)
            (turn_at table.old pass.old self.old.list) }
        ensures closing { IsClosing N.board (start_of N.records)
            (turn_at table.new pass.new self.new.list) }
        ensures goes_on { ExtendsLog (turn_at table.old pass.old self.old.list)
            (turn_at table.new pass.new self.new.list) }
        ensures closes { OnOk result (ClosesOn (entries_of self.old.list.entries)
            (entries_of self.new.list.entries)) }
        ensures up { OnOk result (AllUp table.new.stations.items) }
        ensures closes_failed { OnErr result (ClosesOn (entries_of self.old.list.entries)
            (entries_of self.new.list.entries)) }
        ensures some_down { OnErr result (AllUp table.old.stations.items → ⊥) }
        ensures caused { IfErr result
            (IsCaused D.faults N.faults N.honest table.new.stations.items) }
    {
        for number in 0..table.nodes() {
            self.restart(alloc, table, pass, NodeNo(number))?;
        }
        Ok(())
    }

    /// Calls a node that is up.
    fn call<N: Named, D: Disk>(
        &mut self,
        alloc: Global,
        table: &mut Table<N, D>,
        pass: &mut Pass<CoreLaw>,
        node: NodeNo,
        request: Request,
    ) -> Result<NodeReply, RunCause>
        requires closing { IsClosing N.board (start_of N.records)
            (turn_at table.old pass.old self.old.list) }
        requires up { AllUp table.old.stations.items }
        requires node { node.0 < length N.records }
        requires sound { IsSoundRequest request }
        requires kind { IsRecoveryCall request }
        requires legal { Sends (entries_of self.old.list.entries) (Some node) request }
        ensures closing { IsClosing N.board (start_of N.records)
            (turn_at table.new pass.new self.new.list) }
        ensures goes_on { ExtendsLog (turn_at table.old pass.old self.old.list)
            (turn_at table.new pass.new self.new.list) }
        ensures closes { OnOk result (ClosesOn (entries_of self.old.list.entries)
            (entries_of self.new.list.entries)) }
        ensures answers { IfOk result IsAnswer }
        ensures fits { IfOk result (Fits request) }
        ensures said { IfOk result (λ reply.
            Adds (entry_at node self.old.list.client (what_said request None reply)) self.old.list
            self.new.list) }
        ensures up { OnOk result (AllUp table.new.stations.items) }
        ensures others { OthersStay node table.old.stations.items table.new.stations.items }
        ensures answered { IfOk result
            (λ reply. HasAnswered (base_at (start_of N.records) node) node request reply
            table.old.stations.items table.new.stations.items) }
        ensures caused { IfErr result
            (IsCaused D.faults N.faults N.honest table.new.stations.items) }
        ensures whole { IfErr result (λ cause. IsDamage cause → ⊥) }
    {
        let reply = table.call(alloc, pass, &mut self.list, node, request, None);
        match failure_of(node, &reply) {
            Some(cause) => Err(cause),
            None => Ok(reply),
        }
    }

    /// The ids that a node holds.
    fn list_of<N: Named, D: Disk>(
        &mut self,
        alloc: Global,
        table: &mut Table<N, D>,
        pass: &mut Pass<CoreLaw>,
        node: NodeNo,
    ) -> Result<Doubts, RunCause>
        requires closing { IsClosing N.board (start_of N.records)
            (turn_at table.old pass.old self.old.list) }
        requires up { AllUp table.old.stations.items }
        requires node { node.0 < length N.records }
        ensures closing { IsClosing N.board (start_of N.records)
            (turn_at table.new pass.new self.new.list) }
        ensures goes_on { ExtendsLog (turn_at table.old pass.old self.old.list)
            (turn_at table.new pass.new self.new.list) }
        ensures closes { OnOk result (ClosesOn (entries_of self.old.list.entries)
            (entries_of self.new.list.entries)) }
        ensures up { OnOk result (AllUp table.new.stations.items) }
        ensures listed { IfOk result
            (λ doubts. doubts ≡ doubts_of (held_parts (records_at table.new.stations.items node))) }
        ensures ids { IfOk result (AllByRecursion IsDoubt) }
        ensures same { OnOk result ((n : Numbered)
            → records_at table.new.stations.items n ≡ records_at table.old.stations.items n) }
        ensures caused { IfErr result
            (IsCaused D.faults N.faults N.honest table.new.stations.items) }
        ensures whole { IfErr result (λ cause. IsDamage cause → ⊥) }
    {
        let reply = self.call(alloc, table, pass, node, Request::List)?;
        let NodeReply::Listed { doubts } = reply else {
            unreachable!()
        };
        Ok(doubts)
    }

    /// Adds the ids that a node holds.
    fn add_held<N: Named, D: Disk>(
        &mut self,
        alloc: Global,
        table: &mut Table<N, D>,
        pass: &mut Pass<CoreLaw>,
        node: NodeNo,
        tids: &mut Vec<Tid>,
    ) -> Result<(), RunCause>
        requires closing { IsClosing N.board (start_of N.records)
            (turn_at table.old pass.old self.old.list) }
        requires up { AllUp table.old.stations.items }
        requires node { node.0 < length N.records }
        requires ids { AllByRecursion IsTid tids.old.items }
        ensures closing { IsClosing N.board (start_of N.records)
            (turn_at table.new pass.new self.new.list) }
        ensures goes_on { ExtendsLog (turn_at table.old pass.old self.old.list)
            (turn_at table.new pass.new self.new.list) }
        ensures closes { OnOk result (ClosesOn (entries_of self.old.list.entries)
            (entries_of self.new.list.entries)) }
        ensures up { OnOk result (AllUp table.new.stations.items) }
        ensures held { OnOk result (AreHeldIn tids.new.items
            (records_at table.new.stations.items node)) }
        ensures ids { OnOk result (AllByRecursion IsTid tids.new.items) }
        ensures more { OnOk result ((t : Id) → Contains tids.old.items t
            → Contains tids.new.items t) }
        ensures same { OnOk result ((n : Numbered)
            → records_at table.new.stations.items n ≡ records_at table.old.stations.items n) }
        ensures caused { IfErr result
            (IsCaused D.faults N.faults N.honest table.new.stations.items) }
        ensures whole { IfErr result (λ cause. IsDamage cause → ⊥) }
    {
        let doubts = self.list_of(alloc, table, pass, node)?;
        match add_ids(tids, &doubts) {
            Ok(()) => Ok(()),
            Err(_) => Err(RunCause::NoMemory),
        }
    }

    /// The ids that some node holds, in order, each once.
    fn held_ids<N: Named, D: Disk>(
        &mut self,
        alloc: Global,
        table: &mut Table<N, D>,
        pass: &mut Pass<CoreLaw>,
    ) -> Result<Vec<Tid>, RunCause>
        requires closing { IsClosing N.board (start_of N.records)
            (turn_at table.old pass.old self.old.list) }
        requires up { AllUp table.old.stations.items }
        ensures closing { IsClosing N.board (start_of N.records)
            (turn_at table.new pass.new self.new.list) }
        ensures goes_on { ExtendsLog (turn_at table.old pass.old self.old.list)
            (turn_at table.new pass.new self.new.list) }
        ensures closes { OnOk result (ClosesOn (entries_of self.old.list.entries)
            (entries_of self.new.list.entries)) }
        ensures up { OnOk result (AllUp table.new.stations.items) }
        ensures held { IfOk result (λ tids. (n : Numbered) → n.0 < length N.records
            → AreHeldIn tids.items (records_at table.new.stations.items n)) }
        ensures ids { IfOk result (λ tids. AllByRecursion IsTid tids.items) }
        ensures order { IfOk result (λ tids. AreInOrder tids.items) }
        ensures caused { IfErr result
            (IsCaused D.faults N.faults N.honest table.new.stations.items) }
        ensures whole { IfErr result (λ cause. IsDamage cause → ⊥) }
    {
        let mut tids = Vec::new(alloc);
        for number in 0..table.nodes() {
            self.add_held(alloc, table, pass, NodeNo(number), &mut tids)?;
        }
        sort_ids(&mut tids);
        Ok(tids)
    }

    /// Makes the call that a recovery wants. Its list has room for the decisions before the votes
    /// are asked for.
    fn advance<N: Named, D: Disk>(
        &mut self,
        alloc: Global,
        table: &mut Table<N, D>,
        pass: &mut Pass<CoreLaw>,
        work: &mut Recoverer,
        node: NodeNo,
        request: Request,
    ) -> Result<(), RunCause>
        requires closing { IsClosing N.board (start_of N.records)
            (turn_at table.old pass.old self.old.list) }
        requires up { AllUp table.old.stations.items }
        requires work { IsWork (start_of N.records) self.old.list work.old }
        requires step { step_of work.old ≡ Send node request }
        requires sound { (node.0 < length N.records) × IsSoundRequest request }
        requires legal { Sends (entries_of self.old.list.entries) (Some node) request }
        requires done { IsDoneTo (length N.records) work.old.tid
            (records_at table.old.stations.items) work.old.stage }
        ensures closing { IsClosing N.board (start_of N.records)
            (turn_at table.new pass.new self.new.list) }
        ensures goes_on { ExtendsLog (turn_at table.old pass.old self.old.list)
            (turn_at table.new pass.new self.new.list) }
        ensures closes { OnOk result (ClosesOn (entries_of self.old.list.entries)
            (entries_of self.new.list.entries)) }
        ensures tid { work.new.tid ≡ work.old.tid }
        ensures up { OnOk result (AllUp table.new.stations.items) }
        ensures work { OnOk result (IsWork (start_of N.records) self.new.list work.new) }
        ensures extends { OnOk result
            (AllExtend table.old.stations.items table.new.stations.items) }
        ensures done { OnOk result (IsDoneTo (length N.records) work.new.tid
            (records_at table.new.stations.items) work.new.stage) }
        ensures fewer { OnOk result (calls_left (length N.records) work.new.stage
            < calls_left (length N.records) work.old.stage) }
        ensures caused { IfErr result
            (IsCaused D.faults N.faults N.honest table.new.stations.items) }
        ensures whole { IfErr result (λ cause. IsDamage cause → ⊥) }
    {
        if make_room(&mut self.list, &request).is_err() {
            return Err(RunCause::NoMemory);
        }
        let reply = self.call(alloc, table, pass, node, request)?;
        work.feed(reply);
        Ok(())
    }

    /// Recovers an id.
    fn recover<N: Named, D: Disk>(
        &mut self,
        alloc: Global,
        table: &mut Table<N, D>,
        pass: &mut Pass<CoreLaw>,
        tid: Tid,
    ) -> Result<(), RunCause>
        requires closing { IsClosing N.board (start_of N.records)
            (turn_at table.old pass.old self.old.list) }
        requires up { AllUp table.old.stations.items }
        requires id { IsTid tid }
        ensures closing { IsClosing N.board (start_of N.records)
            (turn_at table.new pass.new self.new.list) }
        ensures goes_on { ExtendsLog (turn_at table.old pass.old self.old.list)
            (turn_at table.new pass.new self.new.list) }
        ensures closes { OnOk result (ClosesOn (entries_of self.old.list.entries)
            (entries_of self.new.list.entries)) }
        ensures up { OnOk result (AllUp table.new.stations.items) }
        ensures extends { OnOk result
            (AllExtend table.old.stations.items table.new.stations.items) }
        ensures done { OnOk result (IsDone (length N.records) tid
            (records_at table.new.stations.items)) }
        ensures caused { IfErr result
            (IsCaused D.faults N.faults N.honest table.new.stations.items) }
        ensures whole { IfErr result (λ cause. IsDamage cause → ⊥) }
    {
        let Ok(mut work) = Recoverer::new(alloc, tid, table.nodes()) else {
            return Err(RunCause::NoMemory);
        };
        while let RecovStep::Send { node, request } = work.next() {
            self.advance(alloc, table, pass, &mut work, node, request)?;
        }
        Ok(())
    }

    /// Recovers each of these ids.
    fn recover_all<N: Named, D: Disk>(
        &mut self,
        alloc: Global,
        table: &mut Table<N, D>,
        pass: &mut Pass<CoreLaw>,
        tids: &[Tid],
    ) -> Result<(), RunCause>
        requires closing { IsClosing N.board (start_of N.records)
            (turn_at table.old pass.old self.old.list) }
        requires up { AllUp table.old.stations.items }
        requires ids { AllByRecursion IsTid tids.now }
        ensures closing { IsClosing N.board (start_of N.records)
            (turn_at table.new pass.new self.new.list) }
        ensures goes_on { ExtendsLog (turn_at table.old pass.old self.old.list)
            (turn_at table.new pass.new self.new.list) }
        ensures closes { OnOk result (ClosesOn (entries_of self.old.list.entries)
            (entries_of self.new.list.entries)) }
        ensures up { OnOk result (AllUp table.new.stations.items) }
        ensures extends { OnOk result
            (AllExtend table.old.stations.items table.new.stations.items) }
        ensures done { OnOk result ((t : Id) → Contains tids.now t
            → IsDone (length N.records) t (records_at table.new.stations.items)) }
        ensures caused { IfErr result
            (IsCaused D.faults N.faults N.honest table.new.stations.items) }
        ensures whole { IfErr result (λ cause. IsDamage cause → ⊥) }
    {
        for tid in tids {
            self.recover(alloc, table, pass, *tid)?;
        }
        Ok(())
    }

    /// Restarts each node that is down, and recovers each id that a node holds, in order.
    pub fn settle<N: Named, D: Disk>(
        &mut self,
        alloc: Global,
        table: &mut Table<N, D>,
        pass: &mut Pass<CoreLaw>,
    ) -> Result<(), RunCause>
        requires turn { IsTurn N.board (length N.records)
            (turn_at table.old pass.old self.old.list) }
        requires closer { self.old.list.client ≡ closer }
        requires list { IsOfRecovery (start_of N.records) self.old.list }
        ensures turn { IsTurn N.board (length N.records)
            (turn_at table.new pass.new self.new.list) }
        ensures goes_on { ExtendsLog (turn_at table.old pass.old self.old.list)
            (turn_at table.new pass.new self.new.list) }
        ensures closes { OnOk result (ClosesOn (entries_of self.old.list.entries)
            (entries_of self.new.list.entries)) }
        ensures list { IsOfRecovery (start_of N.records) self.new.list }
        ensures settled { OnOk result (AreUpAndFree (length N.records) table.new.stations.items) }
        ensures caused { IfErr result
            (IsCaused D.faults N.faults N.honest table.new.stations.items) }

        // A restart that finds another list is the last that is done, and not before any entry.
        ensures damaged { IfErr result (λ cause. IsDamage cause
            → ClosesOn (entries_of self.old.list.entries) (entries_of self.new.list.entries)
            × (AreBare table.old.stations.items → ⊥)) }
    {
        // Where no node has an entry each is up, as what its station has made shows.
        table.made();
        self.restart_all(alloc, table, pass)?;
        let tids = self.held_ids(alloc, table, pass)?;
        self.recover_all(alloc, table, pass, &tids)
    }
}

/// Adds the ids of a list. NoMemory: there was none for them.
pub fn add_ids(tids: &mut Vec<Tid>, doubts: &Doubts) -> Result<(), NoMemory>
    ensures { OnOk result (tids.new.items ≡ tids.old.items ++ map (λ d. d.tid) doubts.now) }
{
    for doubt in doubts.as_slice() {
        tids.push(doubt.tid)?;
    }
    Ok(())
}

/// Puts ids in order, each once.
pub fn sort_ids(tids: &mut Vec<Tid>)
    ensures keeps { (t : Id) → Contains tids.old.items t → Contains tids.new.items t }
    ensures all { (t : Id) → Contains tids.new.items t → Contains tids.old.items t }
    ensures order { AreInOrder tids.new.items }
{
    tids.sort_unstable();
    tids.dedup();
}

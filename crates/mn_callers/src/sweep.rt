//! A recovery coordinator that looks at all nodes.
ghost use Rattle.std.specs.Prelude.{◌≡◌, ◌<◌, None, IfOk, OnOk};
ghost use Rattle.std.specs.List.{AllByRecursion};
ghost use Rattle.mn_mini.specs.RecordGrammar.{IsTid};
ghost use Rattle.mn_runs.specs.Protocol.{start_nodes, entries_of};
ghost use Rattle.mn_callers.specs.Closing.{AreInOrder};
ghost use Rattle.mn_callers.specs.Desks.{IsDesk, RecoversOn};
ghost use Rattle.mn_callers.specs.Hands.{HasTurn, MovesOn, hand_of};

use crate::desk::Desk;
use crate::settle::{add_ids, sort_ids};
use crate::transport::Transport;
use mn_actors::Pass;
use mn_base::{NoMemory, NodeNo, Tid};
use mn_law::CoreLaw;
use mn_mini::{NodeReply, Request};
use std::alloc::Global;

impl Desk {
    /// Restarts each node that is down. One whose restart fails stays down.
    fn restart_all<X: Transport>(&mut self, alloc: Global, table: &mut X, pass: &mut Pass<CoreLaw>)
        requires turn { HasTurn X.board (X.ready table.old) (hand_of pass.old self.old.list) }
        requires desk { IsDesk X.start self.old }
        requires idle { self.old.work ≡ None }
        ensures turn { HasTurn X.board (X.ready table.new) (hand_of pass.new self.new.list) }
        ensures goes_on { MovesOn (X.went table.old table.new)
            (hand_of pass.old self.old.list) (hand_of pass.new self.new.list) }
        ensures desk { IsDesk X.start self.new }
        ensures idle { self.new.work ≡ None }
        ensures recovers { RecoversOn (entries_of self.old.list.entries)
            (entries_of self.new.list.entries) }
    {
        for number in 0..table.nodes() {
            let _done = table.start_again(alloc, pass, &mut self.list, NodeNo(number));
        }
    }

    /// Adds the ids that a node lists, if it lists any. NoMemory: there was none for the call or
    /// for the ids.
    fn add_listed<X: Transport>(
        &mut self,
        alloc: Global,
        table: &mut X,
        pass: &mut Pass<CoreLaw>,
        node: NodeNo,
        tids: &mut Vec<Tid>,
    ) -> Result<(), NoMemory>
        requires turn { HasTurn X.board (X.ready table.old) (hand_of pass.old self.old.list) }
        requires desk { IsDesk X.start self.old }
        requires idle { self.old.work ≡ None }
        requires node { node.0 < start_nodes X.start }
        requires ids { AllByRecursion IsTid tids.old.items }
        ensures turn { HasTurn X.board (X.ready table.new) (hand_of pass.new self.new.list) }
        ensures goes_on { MovesOn (X.went table.old table.new)
            (hand_of pass.old self.old.list) (hand_of pass.new self.new.list) }
        ensures desk { IsDesk X.start self.new }
        ensures idle { self.new.work ≡ None }
        ensures recovers { RecoversOn (entries_of self.old.list.entries)
            (entries_of self.new.list.entries) }
        ensures ids { OnOk result (AllByRecursion IsTid tids.new.items) }
    {
        match self.send(alloc, table, pass, node, Request::List) {
            NodeReply::Listed { doubts } => add_ids(tids, &doubts),
            NodeReply::NoMemory => Err(NoMemory),
            _ => Ok(()),
        }
    }

    /// The ids that some node lists, in order, each once.
    fn listed_ids<X: Transport>(
        &mut self,
        alloc: Global,
        table: &mut X,
        pass: &mut Pass<CoreLaw>,
    ) -> Result<Vec<Tid>, NoMemory>
        requires turn { HasTurn X.board (X.ready table.old) (hand_of pass.old self.old.list) }
        requires desk { IsDesk X.start self.old }
        requires idle { self.old.work ≡ None }
        ensures turn { HasTurn X.board (X.ready table.new) (hand_of pass.new self.new.list) }
        ensures goes_on { MovesOn (X.went table.old table.new)
            (hand_of pass.old self.old.list) (hand_of pass.new self.new.list) }
        ensures desk { IsDesk X.start self.new }
        ensures idle { self.new.work ≡ None }
        ensures recovers { RecoversOn (entries_of self.old.list.entries)
            (entries_of self.new.list.entries) }
        ensures ids { IfOk result (λ tids. AllByRecursion IsTid tids.items) }
        ensures order { IfOk result (λ tids. AreInOrder tids.items) }
    {
        let mut tids = Vec::new(alloc);
        for number in 0..table.nodes() {
            self.add_listed(alloc, table, pass, NodeNo(number), &mut tids)?;
        }
        sort_ids(&mut tids);
        Ok(tids)
    }

    /// Recovers an id as far as it comes. A recovery that has to wait is left.
    fn recover_id<X: Transport>(
        &mut self,
        alloc: Global,
        table: &mut X,
        pass: &mut Pass<CoreLaw>,
        tid: Tid,
    ) -> Result<(), NoMemory>
        requires turn { HasTurn X.board (X.ready table.old) (hand_of pass.old self.old.list) }
        requires desk { IsDesk X.start self.old }
        requires idle { self.old.work ≡ None }
        requires id { IsTid tid }
        ensures turn { HasTurn X.board (X.ready table.new) (hand_of pass.new self.new.list) }
        ensures goes_on { MovesOn (X.went table.old table.new)
            (hand_of pass.old self.old.list) (hand_of pass.new self.new.list) }
        ensures desk { IsDesk X.start self.new }
        ensures idle { self.new.work ≡ None }
        ensures recovers { RecoversOn (entries_of self.old.list.entries)
            (entries_of self.new.list.entries) }
    {
        self.recover(alloc, table, pass, Some(tid))?;
        self.leave();
        Ok(())
    }

    /// Restarts each node that is down, and recovers each id that a node lists, in order. A
    /// recovery that it was at is left, and so is one that has to wait; a later turn that finds its
    /// id listed begins it anew. NoMemory: there was none, and the rest of the turn is left.
    pub fn sweep<X: Transport>(
        &mut self,
        alloc: Global,
        table: &mut X,
        pass: &mut Pass<CoreLaw>,
    ) -> Result<(), NoMemory>
        requires turn { HasTurn X.board (X.ready table.old) (hand_of pass.old self.old.list) }
        requires desk { IsDesk X.start self.old }
        ensures turn { HasTurn X.board (X.ready table.new) (hand_of pass.new self.new.list) }
        ensures goes_on { MovesOn (X.went table.old table.new)
            (hand_of pass.old self.old.list) (hand_of pass.new self.new.list) }
        ensures desk { IsDesk X.start self.new }
        ensures idle { self.new.work ≡ None }
        ensures recovers { RecoversOn (entries_of self.old.list.entries)
            (entries_of self.new.list.entries) }
    {
        self.leave();
        self.restart_all(alloc, table, pass);
        let tids = self.listed_ids(alloc, table, pass)?;
        for tid in tids.as_slice() {
            self.recover_id(alloc, table, pass, *tid)?;
        }
        Ok(())
    }
}

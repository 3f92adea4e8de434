//! A run whose callers act in turns.
ghost use Rattle.std.specs.Prelude.{◌≡◌, ◌<◌, ◌^◌, List, length, IfErr, OnOk};
ghost use Rattle.mn_runs.specs.declared.entry.Entry.{Entry};
ghost use Rattle.mn_runs.specs.Protocol.{AreUp, start_of};
ghost use Rattle.mn_callers.specs.Acts.{as_role, role_of};
ghost use Rattle.mn_callers.specs.Begins.{AreBare};
ghost use Rattle.mn_callers.specs.Causes.{IsCaused};
ghost use Rattle.mn_callers.specs.Clients.{IsClient, IsOfRun, past_of};
ghost use Rattle.mn_callers.specs.Failed.{IsDamage};
ghost use Rattle.mn_callers.specs.Going.{KeepsOrder};
ghost use Rattle.mn_callers.specs.Hands.{HasTurn, MovesOn, hand_of};
ghost use Rattle.mn_callers.specs.Logs.{HasLog};
ghost use Rattle.mn_callers.specs.Plays.{AreReady, IsOfSome, IsPlay, StayReady, StaysPlay};
ghost use Rattle.mn_callers.specs.Settled.{AreUpAndFree};
ghost use Rattle.mn_callers.specs.Stages.{AreFreeIfSound, DoesMove, GoesAs, IsOfClient, Settles};
ghost use Rattle.mn_callers.specs.Stages.{state_of};

use crate::callers::Callers;
use crate::client::Client;
use crate::gated::Gated;
use crate::settle::CLOSER;
use crate::table::Table;
use crate::transport::Transport;
use mn_actors::{Actor, Pass};
use mn_base::{ClientNo, Gate, NoMemory, SharedOp};
use mn_cell::{Named, RunCause};
use mn_io::Disk;
use mn_law::CoreLaw;
use mn_script::{Point, Script};
use std::alloc::Global;

/// A run of a script that is under way: `rest` owns the callers that have no turn. A turn begins
/// where the pass is split that owns its actor alone: all that stands in the log by then stands
/// before its next entry. The calls of clients pass a gate.
#[derive(Drop)]
pub struct Stage<'a, N: Named, D: Disk, G: Gate> {
    pub calls: Gated<'a, Table<N, D>, G>,
    pub rest: Pass<CoreLaw>,
    pub callers: Callers,
}

/// What a client is to do.
#[derive(Clone, Copy)]
pub enum Move {
    /// One call.
    Step,
    /// Calls until the next one would be a Prepare or the Exec of a plan.
    Plan,
    /// Calls until its operation is answered.
    Go,
    /// One operation after another, until none is left.
    All,
}

/// The client does it.
fn make_move<X: Transport>(
    alloc: Global,
    caller: &mut Client,
    table: &mut X,
    pass: &mut Pass<CoreLaw>,
    points: &[Point],
    ops: &[SharedOp],
    what: Move,
) -> Result<(), NoMemory>
    requires turn { HasTurn X.board (X.ready table.old) (hand_of pass.old caller.old.list) }
    requires client { IsClient X.start points.now caller.old }
    requires few { length ops.now < 2 ^ 32 }
    ensures turn { HasTurn X.board (X.ready table.new) (hand_of pass.new caller.new.list) }
    ensures goes_on { MovesOn (X.went table.old table.new)
        (hand_of pass.old caller.old.list) (hand_of pass.new caller.new.list) }
    ensures client { OnOk result (IsClient X.start points.now caller.new) }
    ensures of_run { IsOfRun X.start points.now caller.new }
    ensures does { OnOk result (DoesMove what (as_role points.now caller.old.list.client ops.now)
        (past_of caller.old) (past_of caller.new)) }
    ensures order { KeepsOrder ops.now (past_of caller.old) (past_of caller.new) }
{
    match what {
        Move::Step => caller.step(alloc, table, pass, points, ops),
        Move::Plan => caller.plan(alloc, table, pass, points, ops),
        Move::Go => caller.go(alloc, table, pass, points, ops),
        Move::All => caller.all(alloc, table, pass, points, ops),
    }
}

impl<'a, N: Named, D: Disk, G: Gate> Stage<'a, N, D, G> {
    /// The client does something in its turn.
    pub fn client_turn(
        &mut self,
        alloc: Global,
        script: &Script,
        client: ClientNo,
        what: Move,
    ) -> Result<(), NoMemory>
        requires play { IsPlay N.board (start_of N.records) script.now (state_of self.old) }
        requires ready { AreReady (start_of N.records) script.now self.old.callers }
        requires client { client.0 < length script.now.clients }
        ensures play { IsPlay N.board (start_of N.records) script.now (state_of self.new) }
        ensures ready { OnOk result (AreReady (start_of N.records) script.now self.new.callers) }
        ensures does { OnOk result (GoesAs (IsOfClient client (DoesMove what (role_of script.now
            client))) (state_of self.old) (state_of self.new)) }
    {
        let at = usize::from(client.0);
        let ops = script.clients()[at].ops.as_slice();
        let points = script.points();
        let actor = Actor::Client { client };
        let mut pass = self.calls.inner.board.split(&mut self.rest, actor);
        let caller = &mut self.callers.clients[at];
        let done = make_move(alloc, caller, &mut self.calls, &mut pass, points, ops, what);
        self.calls.inner.board.join(&mut self.rest, pass);
        done
    }

    /// Opens or closes: restarts each node that is down, and recovers each id that a node holds.
    pub fn settle(&mut self, alloc: Global) -> Result<(), RunCause>
        requires play { IsOfSome N.board (start_of N.records) (state_of self.old) }
        ensures play { StaysPlay N.board (start_of N.records) (state_of self.old)
            (state_of self.new) }
        ensures ready { StayReady (start_of N.records) self.old.callers self.new.callers }
        ensures does { OnOk result (GoesAs (Settles) (state_of self.old) (state_of self.new)) }
        ensures settled { OnOk result
            (AreUpAndFree (length N.records) self.new.calls.inner.stations.items) }
        ensures free { OnOk result ((past : List Entry) → HasLog (state_of self.new) past
            → AreFreeIfSound (start_of N.records) past) }
        ensures up_all { OnOk result ((past : List Entry) → HasLog (state_of self.new) past
            → AreUp (start_of N.records) past) }
        ensures caused { IfErr result
            (IsCaused D.faults N.faults N.honest self.new.calls.inner.stations.items) }
        ensures damaged { IfErr result (λ cause. IsDamage cause
            → GoesAs (Settles) (state_of self.old) (state_of self.new)
            × (AreBare self.old.calls.inner.stations.items → ⊥)) }
    {
        let actor = Actor::Client { client: CLOSER };
        let mut pass = self.calls.inner.board.split(&mut self.rest, actor);
        let done = self
            .callers
            .closer
            .settle(alloc, &mut self.calls.inner, &mut pass);
        self.calls.inner.board.join(&mut self.rest, pass);
        self.calls.inner.made();
        done
    }
}

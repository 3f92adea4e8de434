//! How a run of a script begins, on a board of its own.
ghost use Rattle.std.specs.Prelude.{◌≡◌, [], Err, IfErr, IfOk, None, OnOk, Some, length};
ghost use Rattle.mn_actors.specs.declared.actor.Actor.{Actor as Who};
ghost use Rattle.mn_actors.specs.Lines.{IsActor};
ghost use Rattle.mn_actors.specs.Lists.{held};
ghost use Rattle.mn_actors.specs.Sight.{board_of, clients_of, id_of, nodes_of, view_of};
ghost use Rattle.mn_node.specs.State.{NodeState};
ghost use Rattle.mn_runs.specs.declared.entry.Entry.{Entry as Noted};
ghost use Rattle.mn_runs.specs.Protocol.{run_number, start_of, entries_of};
ghost use Rattle.std.specs.Prelude.{IsOk, List};
ghost use Rattle.mn_callers.specs.Begun.{HasRooms};
ghost use Rattle.mn_callers.specs.Causes.{IsCaused};
ghost use Rattle.mn_callers.specs.Failed.{FailsSo, IsDamage};
ghost use Rattle.mn_callers.specs.Logs.{HasLog, IsFresh};
ghost use Rattle.mn_callers.specs.Plays.{AreReady, IsPlay, NamesGiven};
ghost use Rattle.mn_callers.specs.Settled.{AreUpAndFree};
ghost use Rattle.mn_callers.specs.Stages.{state_of};
ghost use Rattle.mn_callers.specs.Trace.{IsTrace, MayBegin};
ghost use Rattle.mn_callers.specs.Turn.{callers_count};

use crate::callers::Callers;
use crate::ending::{end, room_for_lists, without_log};
use crate::gated::Gated;
use crate::stage::Stage;
use crate::staging::stations_of;
use crate::table::Table;
use mn_actors::{Board, Pass};
use mn_base::Gate;
use mn_cell::{Named, RunCause, RunFailed, Trace};
use mn_io::Disk;
use mn_law::CoreLaw;
use mn_node::Node;
use mn_runs::ClientList;
use mn_script::Script;
use std::alloc::Global;

/// A run that has begun: its stage, and the rooms for its end, which were taken before.
#[derive(Drop)]
pub struct Begun<'a, N: Named, D: Disk, G: Gate> {
    pub stage: Stage<'a, N, D, G>,
    nodes: Vec<Node<D>>,
    lists: Vec<ClientList>,
}

impl<'a, N: Named, D: Disk, G: Gate> Begun<'a, N, D, G> {
    /// A run of the script in which nobody has done anything, on a board whose actors `all` owns.
    /// It fails for want of memory alone, and the nodes come back.
    pub fn new(
        alloc: Global,
        gate: &'a G,
        board: Board<CoreLaw>,
        all: Pass<CoreLaw>,
        nodes: Vec<Node<D>>,
        script: &Script,
        run: u32,
    ) -> Result<Begun<'a, N, D, G>, RunFailed<D>>
        requires board { (id_of board ≡ N.board) × (board_of all ≡ N.board) }
        requires size { (nodes_of board ≡ script.now.nodes) × (clients_of board ≡ callers_count) }
        requires empty { (a : Who) → IsActor script.now.nodes callers_count a
            → held (view_of all) a ≡ Some [] }
        requires others { (a : Who) → ¬ IsActor script.now.nodes callers_count a
            → held (view_of all) a ≡ None }
        requires nodes { MayBegin script.now.nodes nodes.items }
        requires named { NamesGiven D.state D.faults N.records N.faults N.honest nodes.items }
        requires run { run ≡ run_number (start_of N.records) }
        ensures play { IfOk result (λ begun. IsPlay N.board (start_of N.records) script.now
            (state_of begun.stage)) }
        ensures ready { IfOk result (λ begun. AreReady (start_of N.records) script.now
            begun.stage.callers) }
        ensures fresh { IfOk result (λ begun. IsFresh (state_of begun.stage)) }
        ensures rooms { IfOk result (HasRooms (length N.records)) }
        ensures failed { IfErr result (λ failed. FailsSo D.state D.faults script.now nodes.items
            failed.nodes.items failed.log failed.cause) }
        ensures cause { IfErr result (λ failed. failed.cause ≡ RunCause.NoMemory) }
    {
        let mut nodes = nodes;
        let mut rest = all;
        let Ok(callers) = Callers::new(alloc, script, run) else {
            return Err(without_log(alloc, board, rest, nodes));
        };
        let Ok(lists) = room_for_lists(alloc) else {
            return Err(without_log(alloc, board, rest, nodes));
        };
        let Ok(stations) = stations_of::<N, D>(alloc, &board, &mut rest, &mut nodes) else {
            return Err(without_log(alloc, board, rest, nodes));
        };
        let inner = Table { board, stations };
        let stage = Stage {
            calls: Gated { inner, gate },
            rest,
            callers,
        };
        Ok(Begun {
            stage,
            nodes,
            lists,
        })
    }

    /// Ends a run of the script that was played so, as `end` does.
    pub fn end(
        self,
        alloc: Global,
        script: &Script,
        played: Result<(), RunCause>,
    ) -> Result<Trace<D>, RunFailed<D>>
        requires play { IsPlay N.board (start_of N.records) script.now (state_of self.stage) }
        requires settled { OnOk played (AreUpAndFree (length N.records)
            self.stage.calls.inner.stations.items) }
        requires caused { IfErr played (IsCaused D.faults N.faults N.honest
            self.stage.calls.inner.stations.items) }
        requires rooms { HasRooms (length N.records) self }
        ensures trace { (given : List (NodeState D))
            → NamesGiven D.state D.faults N.records N.faults N.honest given
            → IfOk result (λ trace. IsTrace D.state D.faults script.now given trace.nodes.items
            trace.log) }
        ensures failed { (given : List (NodeState D))
            → NamesGiven D.state D.faults N.records N.faults N.honest given
            → IfErr result (λ failed. FailsSo D.state D.faults script.now given
            failed.nodes.items failed.log failed.cause) }
        ensures done { IfOk result (λ trace. IsOk played) }
        ensures log { IfOk result (λ trace. (past : List Noted)
            → HasLog (state_of self.entry.stage) past → entries_of trace.log ≡ past) }
        ensures told { IfErr result (λ failed. IsDamage failed.cause
            → (played ≡ Err failed.cause) × ((past : List Noted)
            → HasLog (state_of self.entry.stage) past → entries_of failed.log ≡ past)) }
    {
        let Begun {
            stage,
            nodes,
            lists,
        } = self;
        let Stage {
            calls,
            rest,
            callers,
        } = stage;
        let Gated {
            inner: table,
            gate: _gate,
        } = calls;
        end(alloc, script, table, rest, callers, nodes, lists, played)
    }
}

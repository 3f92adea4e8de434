//! A script that is run on nodes, by threads.
ghost use Rattle.std.specs.Prelude.{◌≡◌, ◌≤◌, ◌<◌, All, IfErr, IfOk, List, None, OnOk, Some, [], ℕ};
ghost use Rattle.std.specs.Prelude.{length, slice_get, vec_capacity};
ghost use Rattle.mn_actors.specs.declared.actor.Actor.{Actor as Who};
ghost use Rattle.mn_actors.specs.Lines.{IsActor};
ghost use Rattle.mn_actors.specs.Lists.{held};
ghost use Rattle.mn_actors.specs.Sight.{board_of, clients_of, id_of, nodes_of, view_of};
ghost use Rattle.mn_callers.specs.Causes.{IsCaused};
ghost use Rattle.mn_callers.specs.Failed.{FailsSo, IsDamage};
ghost use Rattle.mn_callers.specs.Logs.{HasLog, IsFresh};
ghost use Rattle.mn_callers.specs.Plays.{AreReady, IsPlay, NamesGiven, caller_at};
ghost use Rattle.mn_callers.specs.Settled.{AreUpAndFree};
ghost use Rattle.mn_callers.specs.Stages.{GoesAs, state_of};
ghost use Rattle.mn_callers.specs.Trace.{IsTrace, MayBegin, start_on};
ghost use Rattle.mn_callers.specs.Turn.{IsTable, callers_count, seen_of};
ghost use Rattle.mn_cluster.specs.Follows.{DoesIfMarked, FollowsOnThreads, FollowsToClosing};
ghost use Rattle.mn_cluster.specs.Follows.{GoAtOnce, GoInTurn};
ghost use Rattle.mn_cluster.specs.Runs.{GoFirst, RunsThrough, RunsToClosing, on_past};
ghost use Rattle.mn_cluster.specs.Workers.{HasWorked, IsWorker};
ghost use Rattle.mn_cluster.specs.declared.worker.Worker.{Worker as OneWorker};
ghost use Rattle.mn_runs.specs.declared.entry.Entry.{Entry};
ghost use Rattle.mn_runs.specs.Protocol.{run_number, start_of, entries_of};

use crate::alarm::Alarm;
use crate::forking::fork;
use crate::hiring::{dismiss, hire};
use crate::marks::{count_plain, is_marked};
use crate::worker::{Shared, Worker};
use mn_actors::{Board, Pass};
use mn_base::{ClientNo, Gate, NoMemory};
use mn_callers::{Begun, CALLERS, Move, Stage, Table, no_memory, without_log};
use mn_cell::{Cells, Named, RunCause, RunFailed, Trace};
use mn_commits::records_stay_sound;
use mn_io::Disk;
use mn_law::{CoreLaw, runs_follow_protocol};
use mn_node::Node;
use mn_script::{Mark, Script};
use std::alloc::Global;
use std::marker::Brand;
use std::sync::Wait;
use std::thread::Threads;

/// The most callers that work at once: clients and recovery coordinators.
const WORKERS: usize = 20;

/// A client does all that it has left, if it has the mark.
fn turn_if_marked<N: Named, D: Disk, G: Gate>(
    stage: &mut Stage<'_, N, D, G>,
    alloc: Global,
    script: &Script,
    mark: Mark,
    at: usize,
) -> Result<(), NoMemory>
    requires play { IsPlay N.board (start_of N.records) script.now (state_of stage.old) }
    requires ready { AreReady (start_of N.records) script.now stage.old.callers }
    requires client { at < length script.now.clients }
    ensures play { IsPlay N.board (start_of N.records) script.now (state_of stage.new) }
    ensures ready { OnOk result (AreReady (start_of N.records) script.now stage.new.callers) }
    ensures does { OnOk result (GoesAs (on_past (DoesIfMarked script.now mark (caller_at at)))
        (state_of stage.old) (state_of stage.new)) }
{
    if !is_marked(script, at, mark) {
        return Ok(());
    }
    stage.client_turn(alloc, script, ClientNo(at as u8), Move::All)
}

/// The clients with this mark do all that they have left, one after another.
fn in_turn<N: Named, D: Disk, G: Gate>(
    stage: &mut Stage<'_, N, D, G>,
    alloc: Global,
    script: &Script,
    mark: Mark,
) -> Result<(), NoMemory>
    requires play { IsPlay N.board (start_of N.records) script.now (state_of stage.old) }
    requires ready { AreReady (start_of N.records) script.now stage.old.callers }
    ensures play { IsPlay N.board (start_of N.records) script.now (state_of stage.new) }
    ensures ready { OnOk result (AreReady (start_of N.records) script.now stage.new.callers) }
    ensures does { OnOk result (GoesAs (on_past (GoInTurn script.now mark))
        (state_of stage.old) (state_of stage.new)) }
{
    let count = script.clients().len();
    for at in 0..count {
        turn_if_marked(stage, alloc, script, mark, at)?;
    }
    Ok(())
}

/// The workers do their work, while the nodes stand behind locks.
fn behind_locks<N: Named + Send + Sync, D: Disk + Send, T: Threads + Wait + Sync, G: Gate + Sync>(
    rt: &T,
    alloc: Global,
    table: &mut Table<N, D>,
    gate: &G,
    script: &Script,
    workers: &mut Vec<Worker>,
)
    requires table { IsTable N.board (length N.records) (seen_of table.old.board)
        table.old.stations.items }
    requires workers { All (λ w. IsWorker N.board (start_of N.records) script.now w)
        workers.old.items }
    ensures table { IsTable N.board (length N.records) (seen_of table.new.board)
        table.new.stations.items }
    ensures count { length workers.new.items ≡ length workers.old.items }
    ensures worked { (k : ℕ) (w v : OneWorker) → slice_get workers.old.items k ≡ Some w
        → slice_get workers.new.items k ≡ Some v
        → HasWorked N.board (start_of N.records) script.now w v }
    ensures room { vec_capacity workers.new ≡ vec_capacity workers.old }
{
    let nodes = table.stations.len() as u8;
    let cells = Cells::of(&mut table.stations);
    let alarm = Alarm::new(count_plain(script));
    let shared = Shared {
        board: &table.board,
        cells: &cells,
        nodes,
        gate,
        script,
        alarm: &alarm,
    };
    fork(rt, alloc, &shared, workers);
    cells.into_stations(&mut table.stations);
}

/// The clients without a mark do all that they have left at once, beside the recovery coordinators.
fn at_once<N: Named + Send + Sync, D: Disk + Send, T: Threads + Wait + Sync, G: Gate + Sync>(
    rt: &T,
    stage: &mut Stage<'_, N, D, G>,
    alloc: Global,
    script: &Script,
    workers: &mut Vec<Worker>,
) -> Result<(), NoMemory>
    requires play { IsPlay N.board (start_of N.records) script.now (state_of stage.old) }
    requires ready { AreReady (start_of N.records) script.now stage.old.callers }
    requires workers { (workers.old.items ≡ []) × (20 ≤ vec_capacity workers.old) }
    ensures play { IsPlay N.board (start_of N.records) script.now (state_of stage.new) }
    ensures ready { OnOk result (AreReady (start_of N.records) script.now stage.new.callers) }
    ensures does { OnOk result (GoesAs (on_past (GoAtOnce script.now))
        (state_of stage.old) (state_of stage.new)) }
{
    let gate = stage.calls.gate;
    let table = &mut stage.calls.inner;
    hire(&table.board, &mut stage.rest, &mut stage.callers, workers);
    behind_locks(rt, alloc, table, gate, script, workers);
    let done = dismiss(&table.board, &mut stage.rest, &mut stage.callers, workers);
    table.hear(&mut stage.rest, &stage.callers);
    done
}

/// The clients marked `first` go in turn, and then those without a mark at once.
fn go_first<N: Named + Send + Sync, D: Disk + Send, T: Threads + Wait + Sync, G: Gate + Sync>(
    rt: &T,
    stage: &mut Stage<'_, N, D, G>,
    alloc: Global,
    script: &Script,
    workers: &mut Vec<Worker>,
) -> Result<(), NoMemory>
    requires play { IsPlay N.board (start_of N.records) script.now (state_of stage.old) }
    requires ready { AreReady (start_of N.records) script.now stage.old.callers }
    requires workers { (workers.old.items ≡ []) × (20 ≤ vec_capacity workers.old) }
    ensures play { IsPlay N.board (start_of N.records) script.now (state_of stage.new) }
    ensures ready { OnOk result (AreReady (start_of N.records) script.now stage.new.callers) }
    ensures does { OnOk result (GoesAs (on_past (GoFirst script.now)) (state_of stage.old)
        (state_of stage.new)) }
{
    in_turn(stage, alloc, script, Mark::First)?;
    at_once(rt, stage, alloc, script, workers)
}

/// Opens, runs the clients by their marks, and closes before and behind the last ones.
fn run_through<N: Named + Send + Sync, D: Disk + Send, T: Threads + Wait + Sync, G: Gate + Sync>(
    rt: &T,
    stage: &mut Stage<'_, N, D, G>,
    alloc: Global,
    script: &Script,
    workers: &mut Vec<Worker>,
) -> Result<(), RunCause>
    requires play { IsPlay N.board (start_of N.records) script.now (state_of stage.old) }
    requires ready { AreReady (start_of N.records) script.now stage.old.callers }
    requires workers { (workers.old.items ≡ []) × (20 ≤ vec_capacity workers.old) }
    ensures play { IsPlay N.board (start_of N.records) script.now (state_of stage.new) }
    ensures settled { OnOk result
        (AreUpAndFree (length N.records) stage.new.calls.inner.stations.items) }
    ensures follows { IsFresh (state_of stage.old) → OnOk result ((past : List Entry) × HasLog
        (state_of stage.new) past × RunsThrough (start_of N.records) script.now past) }
    ensures damaged { IsFresh (state_of stage.old) → IfErr result (λ cause. IsDamage cause
        → (past : List Entry) × HasLog (state_of stage.new) past
        × RunsToClosing (start_of N.records) script.now past) }
    ensures caused { IfErr result
        (IsCaused D.faults N.faults N.honest stage.new.calls.inner.stations.items) }
{
    stage.settle(alloc)?;
    if go_first(rt, stage, alloc, script, workers).is_err() {
        return Err(RunCause::NoMemory);
    }
    stage.settle(alloc)?;
    if in_turn(stage, alloc, script, Mark::Last).is_err() {
        return Err(RunCause::NoMemory);
    }
    stage.settle(alloc)
}

/// Runs a script on a board of its own.
fn run_on<N: Named + Send + Sync, D: Disk + Send, T: Threads + Wait + Sync, G: Gate + Sync>(
    rt: &T,
    alloc: Global,
    gate: &G,
    board: Board<CoreLaw>,
    all: Pass<CoreLaw>,
    nodes: Vec<Node<D>>,
    script: &Script,
    run: u32,
) -> Result<Trace<D>, RunFailed<D>>
    requires board { (id_of board ≡ N.board) × (board_of all ≡ N.board) }
    requires size { (nodes_of board ≡ script.now.nodes) × (clients_of board ≡ callers_count) }
    requires empty { (a : Who) → IsActor script.now.nodes callers_count a
        → held (view_of all) a ≡ Some [] }
    requires others { (a : Who) → ¬ IsActor script.now.nodes callers_count a
        → held (view_of all) a ≡ None }
    requires nodes { MayBegin script.now.nodes nodes.items }
    requires named { NamesGiven D.state D.faults N.records N.faults N.honest nodes.items }
    requires run { run ≡ run_number (start_of N.records) }
    ensures trace { IfOk result (λ trace. IsTrace D.state D.faults script.now nodes.items
        trace.nodes.items trace.log) }
    ensures follows { IfOk result (λ trace. FollowsOnThreads (start_on nodes.items) script.now
        (entries_of trace.log)) }
    ensures failed { IfErr result (λ failed. FailsSo D.state D.faults script.now nodes.items
        failed.nodes.items failed.log failed.cause) }
    ensures damaged { IfErr result (λ failed. IsDamage failed.cause
        → FollowsToClosing (start_on nodes.items) script.now (entries_of failed.log)) }
{
    runs_follow_protocol();
    records_stay_sound();
    let Ok(mut workers) = Vec::with_capacity(alloc, WORKERS) else {
        return Err(without_log(alloc, board, all, nodes));
    };
    let mut begun = Begun::<N, D, G>::new(alloc, gate, board, all, nodes, script, run)?;
    let played = run_through(rt, &mut begun.stage, alloc, script, &mut workers);
    begun.end(alloc, script, played)
}

/// Runs a script on these nodes, one for each that the script says, numbered from 0 in order and
/// all up, in the run of this number: one above the greatest run in their records, or 1 where they
/// hold none. First each id is recovered that a node holds. Then the clients that are marked
/// `first` do all their operations, one client after another; then those without a mark, at once,
/// each on a thread of its own where one can be made, beside the recovery coordinators; then those
/// that are marked `last`, one after another. Before and behind these each node that is down is
/// restarted, and each id recovered that a node holds. Each call of a client passes the gate.
///
/// `Disk`: while the run was opened or closed that node's disk failed. `Damaged`: at a closing,
/// behind all operations of the clients before it, a node's disk had another list than the node,
/// which an honest disk never has. `NoMemory`: there was no memory for the run, and its log is
/// empty. The nodes come back as they are then.
pub fn run_threads<D: Disk + Send, T: Threads + Wait + Sync, G: Gate + Sync>(
    rt: &T,
    alloc: Global,
    gate: &G,
    nodes: Vec<Node<D>>,
    script: &Script,
    run: u32,
) -> Result<Trace<D>, RunFailed<D>>
    requires nodes { MayBegin script.now.nodes nodes.items }
    requires run { run ≡ run_number (start_on nodes.items) }
    ensures trace { IfOk result (λ trace. IsTrace D.state D.faults script.now nodes.items
        trace.nodes.items trace.log) }
    ensures follows { IfOk result (λ trace. FollowsOnThreads (start_on nodes.items) script.now
        (entries_of trace.log)) }
    ensures failed { IfErr result (λ failed. FailsSo D.state D.faults script.now nodes.items
        failed.nodes.items failed.log failed.cause) }
    ensures damaged { IfErr result (λ failed. IsDamage failed.cause
        → FollowsToClosing (start_on nodes.items) script.now (entries_of failed.log)) }
{
    match Board::<CoreLaw>::new(alloc, script.nodes(), CALLERS) {
        Ok((board, all)) => {
            run_on::<Brand, D, T, G>(rt, alloc, gate, board, all, nodes, script, run)
        }
        Err(_) => Err(no_memory(alloc, nodes)),
    }
}

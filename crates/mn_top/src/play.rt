//! A script on disks: they are opened, their nodes started, it is replayed or run, and they are
//! closed.
ghost use Rattle.std.specs.Prelude.{◌≡◌, ◌≤◌, ◌+◌, ◌++◌, ◌∷◌, [], List, IfOk, IfErr, length, map};
ghost use Rattle.std.specs.Prelude.{reverse, vec_capacity};
ghost use Rattle.mn_base.specs.Store.{Store};
ghost use Rattle.mn_mini.specs.declared.record.Record.{Record};
ghost use Rattle.mn_callers.specs.Failed.{FailsSo, IsDamage};
ghost use Rattle.mn_callers.specs.Trace.{IsTrace, MayBegin, start_on};
ghost use Rattle.mn_top.specs.Ending.{ComesTo};
ghost use Rattle.mn_top.specs.Logs.{AllCloseSo, AllRead, AreReady, AreStarted, IsToldOf, MakeStart};
ghost use Rattle.mn_top.specs.Logs.{MayAllBeStarted, WerentStarted, due_of_failing};
ghost use Rattle.mn_top.specs.Opening.{Show};
ghost use Rattle.mn_top.specs.Replayed.{FollowsBy, FollowsToClosingBy};
ghost use Rattle.mn_serial.specs.Meaning.{OpenedRun};
ghost use Rattle.mn_runs.specs.Protocol.{AreFree, Start, run_number, entries_of};

use crate::damage::due_of_start;
use crate::due::{DamageRule, Due};
use crate::open::{Judged, Logs, NotOpened, close_all, judge, open_all};
use crate::telling::text_on;
use crate::words::Command;
use mn_base::{Gate, NodeNo};
use mn_causes::undisturbed_is_answered;
use mn_cell::{RunCause, RunFailed, Trace};
use mn_cluster::run_threads;
use mn_io::Disk;
use mn_law::runs_follow_protocol;
use mn_node::{Node, StartFailed};
use mn_plain::Store;
use mn_redo::Redo;
use mn_replay::replay;
use mn_runs::Log;
use mn_script::Script;
use mn_serial::{runs_are_one_history, stops_leave_opened};
use std::alloc::Global;
use std::sync::Wait;
use std::thread::Threads;

/// What is due, the disks handed back in order, and the log, which is empty where none was made.
pub struct Ended<D> {
    pub due: Due,
    pub disks: Vec<D>,
    pub log: Log,
}

/// What is due where no log was made.
pub fn without_log<D>(alloc: Global, disks: Vec<D>, due: Due) -> Ended<D>
    ensures due { result.due ≡ due }
    ensures disks { result.disks.items ≡ disks.items }
    ensures log { result.log ≡ [] }
{
    Ended {
        due,
        disks,
        log: Log::empty(alloc),
    }
}

/// Puts the disks of the nodes behind the others, in order.
fn close_nodes<D: Disk>(nodes: Vec<Node<D>>, room: Vec<D>) -> Vec<D>
    requires { length nodes.items + length room.items ≤ vec_capacity room }
    ensures disks { result.items ≡ room.items ++ map (λ n. n.disk) nodes.items }
    ensures room { vec_capacity result ≡ vec_capacity room }
    ensures closed { AllCloseSo D.state nodes.items }
{
    let mut left = nodes;
    let mut disks = room;
    left.reverse();
    while let Some(node) = left.pop() {
        disks.push_reserved(node.close());
    }
    left.destroy_empty();
    disks
}

/// Puts the disks of logs behind the others, that of the last log first.
fn close_rest<D: Disk>(redos: Vec<Redo<D>>, room: Vec<D>) -> Vec<D>
    requires { length redos.items + length room.items ≤ vec_capacity room }
    ensures { result.items ≡ room.items ++ reverse (map (λ r. r.disk) redos.items) }
{
    let mut left = redos;
    let mut disks = room;
    while let Some(redo) = left.pop() {
        disks.push_reserved(redo.close());
    }
    left.destroy_empty();
    disks
}

/// The nodes of all logs, with the room for their disks.
struct Started<D: Disk> {
    nodes: Vec<Node<D>>,
    room: Vec<D>,
}

/// The disks of the nodes that were started, of the one that wasn't, and of the logs behind it,
/// which stand in `left`, the last one first.
fn close_failed<D: Disk>(nodes: Vec<Node<D>>, disk: D, left: Vec<Redo<D>>, room: Vec<D>) -> Vec<D>
    requires room { length nodes.items + 1 + length left.items ≤ vec_capacity room }
    requires empty { room.items ≡ [] }
    ensures disks { result.items ≡ map (λ n. n.disk) nodes.items
        ++ disk ∷ reverse (map (λ r. r.disk) left.items) }
    ensures closed { AllCloseSo D.state nodes.items }
{
    let mut disks = close_nodes(nodes, room);
    disks.push_reserved(disk);
    close_rest(left, disks)
}

/// Starts the node of each log in order.
fn start_all<D: Disk>(
    alloc: Global,
    redos: Vec<Redo<D>>,
    room: Vec<D>,
) -> Result<Started<D>, NotOpened<D>>
    requires may { MayAllBeStarted D.state redos.items }
    requires few { length redos.items ≤ 8 }
    requires empty { room.items ≡ [] }
    requires room { length redos.items ≤ vec_capacity room }
    ensures started { IfOk result (λ started.
        AreStarted D.state D.faults redos.items started.nodes.items) }
    ensures all { IfOk result (λ started. length started.nodes.items ≡ length redos.items) }
    ensures room { IfOk result (λ started. (started.room.items ≡ [])
        × (length redos.items ≤ vec_capacity started.room)) }
    ensures failed { IfErr result (λ failed.
        WerentStarted D.state D.faults redos.items failed.disks.items failed.due) }
{
    let Ok(mut nodes) = Vec::<Node<D>>::with_capacity(alloc, redos.len()) else {
        return Err(NotOpened {
            disks: close_all(redos, room),
            due: Due::NoMemory,
        });
    };
    let mut left = redos;
    left.reverse();
    while let Some(redo) = left.pop() {
        match Node::start(alloc, redo) {
            Ok(node) => nodes.push_reserved(node),
            Err(StartFailed { disk, cause }) => {
                let due = due_of_start(NodeNo(nodes.len() as u8), cause);
                return Err(NotOpened {
                    disks: close_failed(nodes, disk, left, room),
                    due,
                });
            }
        }
    }
    left.destroy_empty();
    Ok(Started { nodes, room })
}

/// What is due after a run.
fn due_of_trace(alloc: Global, command: Command, start: &Store, log: &Log, script: &Script) -> Due
    requires { (from : Start) × OpenedRun from start.now (entries_of log.now) }
    ensures { (from : Start) → OpenedRun from start.now (entries_of log.now)
        → AreFree from (entries_of log.now)
        → IsToldOf command from start.now script.now (entries_of log.now) result }
{
    match text_on(alloc, command, start, log, script) {
        Ok(text) => Due::Report { text },
        Err(_) => Due::NoMemory,
    }
}

/// What is due after a run that failed.
fn due_of_cause(cause: RunCause) -> Due
    ensures { result ≡ due_of_failing cause }
{
    match cause {
        RunCause::Disk { node } => Due::DiskFault { node: node.0 },
        RunCause::Damaged {
            node,
            place,
            kept: _kept,
            found: _found,
        } => Due::Damaged {
            node: node.0,
            place,
            rule: DamageRule::Kept,
        },
        RunCause::NoMemory => Due::NoMemory,
    }
}

/// Runs the script on threads, as `run` and `gen` do, or replays it.
fn run_script<T: Threads + Wait + Sync, D: Disk + Send, G: Gate + Sync>(
    rt: &T,
    alloc: Global,
    gate: &G,
    nodes: Vec<Node<D>>,
    command: Command,
    script: &Script,
    run: u32,
) -> Result<Trace<D>, RunFailed<D>>
    requires nodes { MayBegin script.now.nodes nodes.items }
    requires run { run ≡ run_number (start_on nodes.items) }
    ensures trace { IfOk result (λ trace. IsTrace D.state D.faults script.now nodes.items
        trace.nodes.items trace.log) }
    ensures follows { IfOk result (λ trace. FollowsBy command (start_on nodes.items) script.now
        (entries_of trace.log)) }
    ensures failed { IfErr result (λ failed. FailsSo D.state D.faults script.now nodes.items
        failed.nodes.items failed.log failed.cause) }
    ensures damaged { IfErr result (λ failed. IsDamage failed.cause
        → FollowsToClosingBy command (start_on nodes.items) script.now (entries_of failed.log)) }
{
    match command {
        Command::Run | Command::Gen => run_threads(rt, alloc, gate, nodes, script, run),
        Command::Replay | Command::Check => replay(alloc, nodes, script, run),
    }
}

/// Plays the script on the nodes, whose records make this store.
fn play_on<T: Threads + Wait + Sync, D: Disk + Send, G: Gate + Sync>(
    rt: &T,
    alloc: Global,
    gate: &G,
    started: Started<D>,
    command: Command,
    script: &Script,
    judged: &Judged,
) -> Ended<D>
    requires nodes { MayBegin script.now.nodes started.nodes.items }
    requires start { MakeStart (map (λ n. n.records) started.nodes.items) judged.now.store
        judged.now.run }
    requires empty { started.room.items ≡ [] }
    requires room { length started.nodes.items ≤ vec_capacity started.room }
    ensures count { length result.disks.items ≡ length started.nodes.items }
    ensures comes_to { (given : List D) (records : List (List Record))
        → Show D.state given records
        → AreReady D.state D.faults given records started.nodes.items
        → ComesTo D.state D.faults (record {
          command = command;
          script = script.now;
          given = given;
          left = result.disks.items;
          log = result.log;
        }) result.due }
{
    undisturbed_is_answered();
    runs_follow_protocol();
    stops_leave_opened();
    runs_are_one_history();
    let Started { nodes, room } = started;
    match run_script(rt, alloc, gate, nodes, command, script, judged.run) {
        Ok(Trace { nodes, log }) => Ended {
            due: due_of_trace(alloc, command, &judged.store, &log, script),
            disks: close_nodes(nodes, room),
            log,
        },
        Err(RunFailed { nodes, log, cause }) => Ended {
            due: due_of_cause(cause),
            disks: close_nodes(nodes, room),
            log,
        },
    }
}

/// Plays the script on the logs, if their records make a store.
fn on_logs<T: Threads + Wait + Sync, D: Disk + Send, G: Gate + Sync>(
    rt: &T,
    alloc: Global,
    gate: &G,
    logs: Logs<D>,
    command: Command,
    script: &Script,
) -> Ended<D>
    requires read { (given : List D)
        × AllRead D.state D.faults given logs.redos.items logs.records.items }
    requires nodes { script.now.nodes ≡ length logs.redos.items }
    requires some { 1 ≤ length logs.redos.items }
    requires few { length logs.redos.items ≤ 8 }
    requires empty { logs.room.items ≡ [] }
    requires room { length logs.redos.items ≤ vec_capacity logs.room }
    ensures count { length result.disks.items ≡ length logs.redos.items }
    ensures comes_to { (given : List D)
        → AllRead D.state D.faults given logs.redos.items logs.records.items
        → ComesTo D.state D.faults (record {
          command = command;
          script = script.now;
          given = given;
          left = result.disks.items;
          log = result.log;
        }) result.due }
{
    runs_follow_protocol();
    stops_leave_opened();
    runs_are_one_history();
    let Logs {
        redos,
        records,
        room,
    } = logs;
    let judged = match judge(alloc, &records) {
        Ok(judged) => judged,
        Err(due) => return without_log(alloc, close_all(redos, room), due),
    };
    match start_all(alloc, redos, room) {
        Ok(started) => play_on(rt, alloc, gate, started, command, script, &judged),
        Err(NotOpened { disks, due }) => without_log(alloc, disks, due),
    }
}

/// Opens the disks, plays the script on them, and tells what is due.
pub fn play<T: Threads + Wait + Sync, D: Disk + Send, G: Gate + Sync>(
    rt: &T,
    alloc: Global,
    gate: &G,
    disks: Vec<D>,
    command: Command,
    script: &Script,
) -> Ended<D>
    requires nodes { script.now.nodes ≡ length disks.items }
    requires some { 1 ≤ length disks.items }
    requires few { length disks.items ≤ 8 }
    ensures count { length result.disks.items ≡ length disks.items }
    ensures comes_to { ComesTo D.state D.faults (record {
      command = command;
      script = script.now;
      given = disks.items;
      left = result.disks.items;
      log = result.log;
    }) result.due }
{
    match open_all(alloc, disks) {
        Ok(logs) => on_logs(rt, alloc, gate, logs, command, script),
        Err(NotOpened { disks, due }) => without_log(alloc, disks, due),
    }
}

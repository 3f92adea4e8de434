//! How a run ends: its nodes are handed back, and its lists are made one log.
ghost use Rattle.std.specs.Prelude.{◌≡◌, ◌≤◌, ◌<◌, ◌+◌, ◌-◌, ◌++◌, List, [], length, map};
ghost use Rattle.std.specs.Prelude.{replicate, reverse, Some, Err, Ok, IfErr};
ghost use Rattle.std.specs.Prelude.{IfOk, IsOk};
ghost use Rattle.std.specs.Prelude.{OnOk, vec_len, vec_capacity};
ghost use Rattle.mn_actors.specs.Lists.{OwnsAll};
ghost use Rattle.mn_actors.specs.Sight.{board_of, clients_of, id_of, nodes_of, view_of};
ghost use Rattle.mn_node.specs.State.{NodeState};
ghost use Rattle.mn_runs.specs.declared.entry.Entry.{Entry as Noted};
ghost use Rattle.mn_runs.specs.Protocol.{start_of, entries_of};
ghost use Rattle.mn_callers.specs.Causes.{IsCaused};
ghost use Rattle.mn_callers.specs.Ended.{AllHaveMade, AreLists, AreMadeFromLast};
ghost use Rattle.mn_callers.specs.Ended.{HoldsNodes, IsEnded, OwnsNodes, SameCallers};
ghost use Rattle.mn_callers.specs.Failed.{FailsSo, IsDamage, IsRunOn};
ghost use Rattle.mn_callers.specs.Logs.{HasLog};
ghost use Rattle.mn_callers.specs.Plays.{IsPlay, NamesGiven, state_at};
ghost use Rattle.mn_callers.specs.Settled.{AreUpAndFree};
ghost use Rattle.mn_callers.specs.Trace.{HaveSoundRecords, IsTrace};
ghost use Rattle.mn_callers.specs.Turn.{AreStations, callers_count};

use crate::callers::{CALLERS, Callers};
use crate::client::Client;
use crate::desk::Desk;
use crate::settle::CLOSER;
use crate::table::Table;
use mn_actors::{Board, Pass};
use mn_base::{ClientNo, NoMemory};
use mn_cell::{Named, RunCause, RunFailed, Station, Trace, parts_make_run};
use mn_commits::records_stay_sound;
use mn_hist::{ClientLists, merge};
use mn_io::Disk;
use mn_law::{CoreLaw, runs_follow_protocol};
use mn_node::Node;
use mn_runs::{ClientList, Log};
use mn_script::Script;
use std::alloc::Global;

/// Room for the lists of all callers, taken before a run begins. NoMemory: there was none.
pub fn room_for_lists(alloc: Global) -> Result<Vec<ClientList>, NoMemory>
    ensures none { IfOk result (λ lists. lists.items ≡ []) }
    ensures room { IfOk result (λ lists. callers_count ≤ vec_capacity lists) }
{
    Ok(Vec::with_capacity(alloc, usize::from(CALLERS))?)
}

/// Puts the nodes of stations that were made from the last one on behind the others, and their
/// actors back.
pub fn give_back<N: Named, D: Disk>(
    board: &Board<CoreLaw>,
    all: &mut Pass<CoreLaw>,
    nodes: &mut Vec<Node<D>>,
    stations: Vec<Station<N, D>>,
)
    requires board { (id_of board.now ≡ N.board) × (board_of all.old ≡ N.board) }
    requires room { vec_len nodes.old + vec_len stations ≤ vec_capacity nodes.old }
    requires numbers { AreMadeFromLast (vec_len nodes.old + vec_len stations) stations.items }
    requires owns { OwnsNodes (vec_len nodes.old) (view_of all.old) }
    ensures board { board_of all.new ≡ N.board }
    ensures nodes { nodes.new.items
        ≡ nodes.old.items ++ reverse (map (λ s. s.node) stations.items) }
    ensures owns { OwnsNodes (vec_len nodes.new) (view_of all.new) }
    ensures callers { SameCallers (view_of all.old) (view_of all.new) }
{
    let mut left = stations;
    while let Some(station) = left.pop() {
        let (node, pass) = station.into_parts();
        nodes.push_reserved(node);
        board.join(all, pass);
    }
    left.destroy_empty();
}

/// What the records of each node are.
fn tell_records<D: Disk>(nodes: &[Node<D>])
    ensures { HaveSoundRecords nodes.now }
{
    for node in nodes {
        let _records = node.records();
    }
}

/// No run, for want of memory.
pub fn no_memory<D: Disk>(alloc: Global, nodes: Vec<Node<D>>) -> RunFailed<D>
    ensures fails { (script : Script) (given : List (NodeState D))
        → length nodes.items ≡ length given → (past : _) → (HaveSoundRecords nodes.items
        → IsRunOn D.state D.faults script given nodes.items past)
        → FailsSo D.state D.faults script given result.nodes.items result.log result.cause }
    ensures cause { result.cause ≡ RunCause.NoMemory }
{
    tell_records(&nodes);
    RunFailed {
        nodes,
        log: Log::empty(alloc),
        cause: RunCause::NoMemory,
    }
}

/// The same where there is a board.
pub fn without_log<D: Disk>(
    alloc: Global,
    board: Board<CoreLaw>,
    all: Pass<CoreLaw>,
    nodes: Vec<Node<D>>,
) -> RunFailed<D>
    requires board { board_of all ≡ id_of board }
    requires owns { OwnsAll (nodes_of board) (clients_of board) (view_of all) }
    ensures fails { (script : Script) (given : List (NodeState D))
        → length nodes.items ≡ length given → (past : _) → (HaveSoundRecords nodes.items
        → IsRunOn D.state D.faults script given nodes.items past)
        → FailsSo D.state D.faults script given result.nodes.items result.log result.cause }
    ensures cause { result.cause ≡ RunCause.NoMemory }
{
    board.close(all);
    no_memory(alloc, nodes)
}

/// Takes the stations apart: the nodes in order, and their actors with their lists.
fn take_apart<N: Named, D: Disk>(
    board: &Board<CoreLaw>,
    all: &mut Pass<CoreLaw>,
    stations: Vec<Station<N, D>>,
    nodes: &mut Vec<Node<D>>,
)
    requires board { (id_of board.now ≡ N.board) × (board_of all.old ≡ N.board) }
    requires stations { AreStations (length N.records) stations.items }
    requires empty { nodes.old.items ≡ [] }
    requires room { length N.records ≤ vec_capacity nodes.old }
    requires no_nodes { HoldsNodes (view_of all.old) [] }
    ensures board { board_of all.new ≡ N.board }
    ensures nodes { nodes.new.items ≡ map (λ s. s.node) stations.items }
    ensures made { AllHaveMade D.state D.faults
        (start_of N.records) N.faults N.honest stations.items }
    ensures holds { HoldsNodes (view_of all.new) (map (λ s. s.list) stations.items) }
    ensures callers { SameCallers (view_of all.old) (view_of all.new) }
{
    let mut left = stations;
    left.reverse();
    while let Some(station) = left.pop() {
        let (node, pass) = station.into_parts();
        nodes.push_reserved(node);
        board.join(all, pass);
    }
    left.destroy_empty();
}

/// Adds the lists of the clients.
fn take_clients(clients: Vec<Client>, lists: &mut Vec<ClientList>)
    requires { vec_len lists.old + vec_len clients ≤ vec_capacity lists.old }
    ensures lists { lists.new.items ≡ lists.old.items ++ map (λ c. c.list) clients.items }
    ensures room { vec_capacity lists.new ≡ vec_capacity lists.old }
{
    for client in clients {
        lists.push_reserved(client.list);
    }
}

/// Adds empty lists, so that there are as many as there may be clients.
fn fill(alloc: Global, lists: &mut Vec<ClientList>)
    requires few { vec_len lists.old ≤ 16 }
    requires room { 16 ≤ vec_capacity lists.old }
    ensures lists { map (λ l. l.entries) lists.new.items
        ≡ map (λ l. l.entries) lists.old.items ++ replicate (16 - vec_len lists.old) [] }
    ensures room { vec_capacity lists.new ≡ vec_capacity lists.old }
{
    for number in lists.len()..usize::from(CLOSER.0) {
        lists.push_reserved(ClientList::new(alloc, ClientNo(number as u8)));
    }
}

/// Adds the lists of the recovery coordinators.
fn take_desks(desks: Vec<Desk>, lists: &mut Vec<ClientList>)
    requires { vec_len lists.old + vec_len desks ≤ vec_capacity lists.old }
    ensures { lists.new.items ≡ lists.old.items ++ map (λ d. d.list) desks.items }
{
    for desk in desks {
        lists.push_reserved(desk.list);
    }
}

/// The lists of all callers, in order of number.
fn take_lists(alloc: Global, callers: Callers, lists: &mut Vec<ClientList>)
    requires few { length callers.clients.items ≤ 16 }
    requires four { length callers.desks.items ≡ 4 }
    requires empty { lists.old.items ≡ [] }
    requires room { callers_count ≤ vec_capacity lists.old }
    ensures { AreLists callers lists.new.items }
{
    let Callers {
        clients,
        desks,
        closer,
    } = callers;
    take_clients(clients, lists);
    fill(alloc, lists);
    lists.push_reserved(closer.list);
    take_desks(desks, lists);
}

/// The run of the script failed so.
fn failed_so<N: Named, D: Disk>(
    alloc: Global,
    script: &Script,
    nodes: Vec<Node<D>>,
    log: Log,
    cause: RunCause,
) -> RunFailed<D>
    requires { IsEnded D.state D.faults (start_of N.records) N.faults N.honest script.now
        nodes.items (Err cause) log }
    ensures fails { (given : List (NodeState D))
        → NamesGiven D.state D.faults N.records N.faults N.honest given
        → FailsSo D.state D.faults script.now given result.nodes.items result.log result.cause }
    ensures told { IsDamage result.cause → (cause ≡ result.cause) × (result.log ≡ log) }
{
    let _ = script;
    match cause {
        RunCause::Disk { node } => RunFailed {
            nodes,
            log,
            cause: RunCause::Disk { node },
        },
        RunCause::Damaged {
            node,
            place,
            kept,
            found,
        } => RunFailed {
            nodes,
            log,
            cause: RunCause::Damaged {
                node,
                place,
                kept,
                found,
            },
        },
        RunCause::NoMemory => no_memory(alloc, nodes),
    }
}

/// What the run comes to, where its lists were made one log or there was no memory for it.
fn result_of<N: Named, D: Disk>(
    alloc: Global,
    script: &Script,
    nodes: Vec<Node<D>>,
    merged: Result<Log, NoMemory>,
    played: Result<(), RunCause>,
) -> Result<Trace<D>, RunFailed<D>>
    requires { (past : _) × IsEnded D.state D.faults
        (start_of N.records) N.faults N.honest script.now nodes.items played past
        × IfOk merged (λ log. log ≡ past) }
    ensures trace { (given : List (NodeState D))
        → NamesGiven D.state D.faults N.records N.faults N.honest given
        → IfOk result (λ trace. IsTrace D.state D.faults script.now given trace.nodes.items
        trace.log) }
    ensures failed { (given : List (NodeState D))
        → NamesGiven D.state D.faults N.records N.faults N.honest given
        → IfErr result (λ failed. FailsSo D.state D.faults script.now given failed.nodes.items
        failed.log failed.cause) }
    ensures log { IfOk result (λ trace. merged ≡ Ok trace.log) }
    ensures done { IfOk result (λ trace. IsOk played) }
    ensures told { IfErr result (λ failed. IsDamage failed.cause
        → (played ≡ Err failed.cause) × (merged ≡ Ok failed.log)) }
{
    runs_follow_protocol();
    records_stay_sound();
    let Ok(log) = merged else {
        return Err(no_memory(alloc, nodes));
    };
    match played {
        Ok(()) => Ok(Trace { nodes, log }),
        Err(cause) => Err(failed_so::<N, D>(alloc, script, nodes, log, cause)),
    }
}

/// Ends a run of the script that was played so: its nodes go into `nodes` and the lists of its
/// callers into `lists`, which have the room.
pub fn end<N: Named, D: Disk>(
    alloc: Global,
    script: &Script,
    table: Table<N, D>,
    rest: Pass<CoreLaw>,
    callers: Callers,
    nodes: Vec<Node<D>>,
    lists: Vec<ClientList>,
    played: Result<(), RunCause>,
) -> Result<Trace<D>, RunFailed<D>>
    requires play { IsPlay N.board (start_of N.records) script.now (state_at table rest callers) }
    requires settled { OnOk played (AreUpAndFree (length N.records) table.stations.items) }
    requires caused { IfErr played (IsCaused D.faults N.faults N.honest table.stations.items) }
    requires empty { nodes.items ≡ [] }
    requires room { length N.records ≤ vec_capacity nodes }
    requires no_lists { lists.items ≡ [] }
    requires lists_room { callers_count ≤ vec_capacity lists }
    ensures trace { (given : List (NodeState D))
        → NamesGiven D.state D.faults N.records N.faults N.honest given
        → IfOk result (λ trace. IsTrace D.state D.faults script.now given trace.nodes.items
        trace.log) }
    ensures failed { (given : List (NodeState D))
        → NamesGiven D.state D.faults N.records N.faults N.honest given
        → IfErr result (λ failed. FailsSo D.state D.faults script.now given failed.nodes.items
        failed.log failed.cause) }
    ensures done { IfOk result (λ trace. IsOk played) }
    ensures log { IfOk result (λ trace. (past : List Noted)
        → HasLog (state_at table rest callers) past → entries_of trace.log ≡ past) }
    ensures told { IfErr result (λ failed. IsDamage failed.cause
        → (played ≡ Err failed.cause) × ((past : List Noted)
        → HasLog (state_at table rest callers) past → entries_of failed.log ≡ past)) }
{
    let Table { board, stations } = table;
    let mut nodes = nodes;
    let mut lists = lists;
    let mut all = rest;
    take_apart(&board, &mut all, stations, &mut nodes);
    tell_records(&nodes);
    take_lists(alloc, callers, &mut lists);
    board.close(all);
    parts_make_run();
    let merged = merge(alloc, ClientLists::from_vec(lists));
    result_of::<N, D>(alloc, script, nodes, merged, played)
}

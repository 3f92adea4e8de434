//! Two threads call two nodes, and the lists of both clients are merged.
ghost use Rattle.std.specs.Prelude.{◌≡◌, ◌≢◌, ◌∷◌, [], ℕ, List, Some, None, false, length, IfOk};
ghost use Rattle.std.specs.Prelude.{IfSome};
ghost use Rattle.std.specs.List.{AllByRecursion};
ghost use Rattle.mn_redo.specs.declared.redo.Phase.TheVariants.{Closing};
ghost use Rattle.mn_actors.specs.declared.actor.Actor.{Actor as Who};
ghost use Rattle.mn_actors.specs.declared.actor.Actor.TheVariants.{Client};
ghost use Rattle.mn_actors.specs.Lines.{IsActor, client_at, node_at};
ghost use Rattle.mn_actors.specs.Lists.{held, OwnsAll};
ghost use Rattle.mn_actors.specs.Sight.{board_of, clients_of, id_of, nodes_of, view_of};
ghost use Rattle.mn_node.specs.State.{HoldsPartsApart};
ghost use Rattle.mn_runs.specs.declared.entry.Entry.{Entry as Step};
ghost use Rattle.mn_runs.specs.Protocol.{Start, start_of, entries_of};
ghost use Rattle.mn_law.specs.Run.{IsLogOfRun};
ghost use Rattle.mn_cell.specs.Calls.{numbered};
ghost use Rattle.mn_cell.specs.Passes.{OwnsJust};
ghost use Rattle.mn_cell.specs.Runs.{ArePartsOfRun, IsIssueOf};
ghost use Rattle.mn_cell.specs.Station.{HasCaller, IsNodeAtStart};

use mn_actors::{Actor, Board, Pass};
use mn_base::{ClientNo, NodeNo};
use mn_cell::{Cell, Named, Refused, parts_make_run};
use mn_hist::{ClientLists, merge};
use mn_io::{Bytes, Calls, Disk};
use mn_law::CoreLaw;
use mn_memdisk::MemoryDisk;
use mn_mini::Request;
use mn_node::Node;
use mn_redo::Redo;
use mn_runs::{ClientList, Log};
use std::alloc::Global;
use std::marker::Brand;
use std::process::Abort;
use std::sync::Wait;
use std::test::Fail;
use std::thread;
use std::thread::Threads;

// A hundred Peeks of the cell's node.
fn peek_often<N: Named, D: Disk, T: Wait, const NODE: u8>(
    rt: &T,
    alloc: Global,
    cell: &Cell<N, D, NODE>,
    board: &Board<CoreLaw>,
    pass: Pass<CoreLaw>,
    list: ClientList,
) -> (Pass<CoreLaw>, ClientList)
    requires board { (id_of board.now ≡ N.board) × (board_of pass ≡ N.board) }
    requires owns { OwnsJust (view_of pass) (Client list.client) }
    requires list { held (view_of pass) (Client list.client) ≡ Some list.entries }
    requires fresh { list.entries ≡ [] }
    ensures board { board_of result.0 ≡ N.board }
    ensures owns { OwnsJust (view_of result.0) (Client list.client) }
    ensures list { held (view_of result.0) (Client list.client) ≡ Some result.1.entries }
    ensures issued { (start : Start)
        → AllByRecursion (IsIssueOf start) (entries_of result.1.entries) }
{
    let mut pass = pass;
    let mut list = list;
    for _ in 0..100 {
        let _client = list.client();
        let request = Request::Peek {
            start: 0,
            length: 8,
        };
        let _reply = cell.call(rt, alloc, board, &mut pass, &mut list, request, None);
    }
    (pass, list)
}

// Two clients at two cells at once.
fn peek_both<N: Named + Send + Sync, D: Disk + Send, T: Threads + Wait + Sync>(
    rt: &T,
    alloc: Global,
    board: &Board<CoreLaw>,
    cells: (&Cell<N, D, 0>, &Cell<N, D, 1>),
    passes: (Pass<CoreLaw>, Pass<CoreLaw>),
) -> ((Pass<CoreLaw>, ClientList), (Pass<CoreLaw>, ClientList))
    requires board { (id_of board.now ≡ N.board) × (board_of passes.0 ≡ N.board)
        × (board_of passes.1 ≡ N.board) }
    requires first { OwnsJust (view_of passes.0) (client_at 0)
        × (held (view_of passes.0) (client_at 0) ≡ Some []) }
    requires second { OwnsJust (view_of passes.1) (client_at 1)
        × (held (view_of passes.1) (client_at 1) ≡ Some []) }
    ensures board { (board_of result.0.0 ≡ N.board) × (board_of result.1.0 ≡ N.board) }
    ensures first { OwnsJust (view_of result.0.0) (client_at 0)
        × (held (view_of result.0.0) (client_at 0) ≡ Some result.0.1.entries) }
    ensures second { OwnsJust (view_of result.1.0) (client_at 1)
        × (held (view_of result.1.0) (client_at 1) ≡ Some result.1.1.entries) }
    ensures issued { (start : Start)
        → AllByRecursion (IsIssueOf start) (entries_of result.0.1.entries) }
    ensures other_issued { (start : Start)
        → AllByRecursion (IsIssueOf start) (entries_of result.1.1.entries) }
{
    let (cell, other_cell) = cells;
    let (pass, other) = passes;
    let list = ClientList::new(alloc, ClientNo(0));
    let other_list = ClientList::new(alloc, ClientNo(1));
    thread::join(
        rt,
        move || -> (Pass<CoreLaw>, ClientList)
            requires { (id_of board.now ≡ N.board) × (board_of pass ≡ N.board)
                × OwnsJust (view_of pass) (client_at 0)
                × (held (view_of pass) (client_at 0) ≡ Some list.entries)
                × (list.client ≡ record { 0 = 0 }) × (list.entries ≡ []) }
            ensures { (board_of result.0 ≡ N.board) × OwnsJust (view_of result.0) (client_at 0)
                × (held (view_of result.0) (client_at 0) ≡ Some result.1.entries)
                × ((start : Start) → AllByRecursion (IsIssueOf start)
                (entries_of result.1.entries)) }
        { peek_often::<N, D, T, 0>(rt, alloc, cell, board, pass, list) },
        move || -> (Pass<CoreLaw>, ClientList)
            requires { (id_of board.now ≡ N.board) × (board_of other ≡ N.board)
                × OwnsJust (view_of other) (client_at 1)
                × (held (view_of other) (client_at 1) ≡ Some other_list.entries)
                × (other_list.client ≡ record { 0 = 1 }) × (other_list.entries ≡ []) }
            ensures { (board_of result.0 ≡ N.board) × OwnsJust (view_of result.0) (client_at 1)
                × (held (view_of result.0) (client_at 1) ≡ Some result.1.entries)
                × ((start : Start) → AllByRecursion (IsIssueOf start)
                (entries_of result.1.entries)) }
        { peek_often::<N, D, T, 1>(rt, alloc, other_cell, board, other, other_list) },
    )
}

// The passes of two nodes and two clients.
#[derive(Drop)]
struct Dealt {
    node: Pass<CoreLaw>,
    other_node: Pass<CoreLaw>,
    client: Pass<CoreLaw>,
    other_client: Pass<CoreLaw>,
}

fn deal(board: &Board<CoreLaw>, pass: Pass<CoreLaw>) -> Dealt
    requires board { board_of pass ≡ id_of board.now }
    requires owns { (a : Who) → IsActor 2 2 a → held (view_of pass) a ≡ Some [] }
    requires others { (a : Who) → ¬ IsActor 2 2 a → held (view_of pass) a ≡ None }
    ensures boards { (board_of result.node ≡ id_of board.now)
        × (board_of result.other_node ≡ id_of board.now)
        × (board_of result.client ≡ id_of board.now)
        × (board_of result.other_client ≡ id_of board.now) }
    ensures node { OwnsJust (view_of result.node) (node_at 0)
        × (held (view_of result.node) (node_at 0) ≡ Some []) }
    ensures other_node { OwnsJust (view_of result.other_node) (node_at 1)
        × (held (view_of result.other_node) (node_at 1) ≡ Some []) }
    ensures client { OwnsJust (view_of result.client) (client_at 0)
        × (held (view_of result.client) (client_at 0) ≡ Some []) }
    ensures other_client { OwnsJust (view_of result.other_client) (client_at 1)
        × (held (view_of result.other_client) (client_at 1) ≡ Some []) }
{
    let mut client = pass;
    let node = board.split(&mut client, Actor::Node { node: NodeNo(0) });
    let other_node = board.split(&mut client, Actor::Node { node: NodeNo(1) });
    let given = Actor::Client {
        client: ClientNo(1),
    };
    let other_client = board.split(&mut client, given);
    Dealt {
        node,
        other_node,
        client,
        other_client,
    }
}

// One pass of all four, which owns the lists that they own.
fn gather(board: &Board<CoreLaw>, dealt: Dealt) -> Pass<CoreLaw>
    requires boards { (board_of dealt.node ≡ id_of board.now)
        × (board_of dealt.other_node ≡ id_of board.now) × (board_of dealt.client ≡ id_of board.now)
        × (board_of dealt.other_client ≡ id_of board.now) }
    requires nodes { OwnsJust (view_of dealt.node) (node_at 0)
        × OwnsJust (view_of dealt.other_node) (node_at 1) }
    requires clients { OwnsJust (view_of dealt.client) (client_at 0)
        × OwnsJust (view_of dealt.other_client) (client_at 1) }
    ensures board { board_of result ≡ id_of board.now }
    ensures all { OwnsAll 2 2 (view_of result) }
    ensures nodes { (held (view_of result) (node_at 0) ≡ held (view_of dealt.node) (node_at 0))
        × (held (view_of result) (node_at 1) ≡ held (view_of dealt.other_node) (node_at 1)) }
    ensures clients { (held (view_of result) (client_at 0)
        ≡ held (view_of dealt.client) (client_at 0))
        × (held (view_of result) (client_at 1) ≡ held (view_of dealt.other_client) (client_at 1)) }
{
    let Dealt {
        node,
        other_node,
        client,
        other_client,
    } = dealt;
    let mut all = client;
    board.join(&mut all, other_client);
    board.join(&mut all, node);
    board.join(&mut all, other_node);
    all
}

// What `hear` says of 200 and 201 before the log is closed, the clock, and the number of merged
// entries.
#[derive(Drop, PartialEq, Eq, Debug)]
struct Told {
    reached: bool,
    beyond: bool,
    clock: u64,
    entries: usize,
}

fn finish(
    alloc: Global,
    board: Board<CoreLaw>,
    all: Pass<CoreLaw>,
    clients: (ClientList, ClientList),
) -> Option<(Told, Log)>
    requires board { board_of all ≡ id_of board }
    requires size { (nodes_of board ≡ 2) × (clients_of board ≡ 2) }
    requires all { OwnsAll 2 2 (view_of all) }
    requires node { (list : List (ℕ × Step)) × (held (view_of all) (node_at 0) ≡ Some list)
        × AllByRecursion HasCaller (entries_of list) }
    requires other_node { (list : List (ℕ × Step)) × (held (view_of all) (node_at 1) ≡ Some list)
        × AllByRecursion HasCaller (entries_of list) }
    requires clients { (held (view_of all) (client_at 0) ≡ Some clients.0.entries)
        × (held (view_of all) (client_at 1) ≡ Some clients.1.entries) }
    ensures run { (start : Start) → ArePartsOfRun start 2 2 (held (view_of all))
        → IfSome result (λ ended. IsLogOfRun start ended.1) }
{
    parts_make_run();
    let mut all = all;
    let reached = board.hear(&mut all, 200);
    let beyond = board.hear(&mut all, 201);
    let clients = match Vec::from_array(alloc, [clients.0, clients.1]) {
        Ok(clients) => clients,
        Err(_) => return None,
    };
    let clock = board.close(all);
    let log = match merge(alloc, ClientLists::from_vec(clients)) {
        Ok(log) => log,
        Err(_) => return None,
    };
    let told = Told {
        reached,
        beyond,
        clock,
        entries: log.len(),
    };
    Some((told, log))
}

// Two threads at two cells of the board, whose log is a run. The nodes are handed back.
fn meet<N: Named + Send + Sync, D: Disk + Send, T: Threads + Wait + Sync>(
    rt: &T,
    alloc: Global,
    board: Board<CoreLaw>,
    pass: Pass<CoreLaw>,
    first: Node<D>,
    second: Node<D>,
) -> (Option<(Told, Log)>, (Node<D>, Node<D>))
    requires two { length N.records ≡ 2 }
    requires board { (id_of board ≡ N.board) × (board_of pass ≡ N.board) }
    requires size { (nodes_of board ≡ 2) × (clients_of board ≡ 2) }
    requires owns { (a : Who) → IsActor 2 2 a → held (view_of pass) a ≡ Some [] }
    requires others { (a : Who) → ¬ IsActor 2 2 a → held (view_of pass) a ≡ None }
    requires first { IsNodeAtStart D.state D.faults (start_of N.records) (numbered 0) (N.faults 0)
        (N.honest 0) first }
    requires second { IsNodeAtStart D.state D.faults (start_of N.records) (numbered 1) (N.faults 1)
        (N.honest 1) second }
    ensures run { IfSome result.0 (λ ended. IsLogOfRun (start_of N.records) ended.1) }
{
    let Dealt {
        node,
        other_node,
        client,
        other_client,
    } = deal(&board, pass);
    let cell = match Cell::<N, D, 0>::new(alloc, first, node) {
        Ok(cell) => cell,
        Err(Refused { node, pass: _ }) => return (None, (node, second)),
    };
    let other_cell = match Cell::<N, D, 1>::new(alloc, second, other_node) {
        Ok(cell) => cell,
        Err(Refused { node, pass: _ }) => {
            let (first, _pass) = cell.into_parts();
            return (None, (first, node));
        }
    };
    let (left, right) = peek_both::<N, D, T>(
        rt,
        alloc,
        &board,
        (&cell, &other_cell),
        (client, other_client),
    );
    let (first, node) = cell.into_parts();
    let (second, other_node) = other_cell.into_parts();
    let all = gather(
        &board,
        Dealt {
            node,
            other_node,
            client: left.0,
            other_client: right.0,
        },
    );
    let ended = finish(alloc, board, all, (left.1, right.1));
    (ended, (first, second))
}

// The same with a board of their own.
fn run<D: Disk + Send, T: Threads + Wait + Sync>(
    rt: &T,
    alloc: Global,
    first: Node<D>,
    second: Node<D>,
) -> (Option<(Told, Log)>, (Node<D>, Node<D>))
    requires first { (first.node ≡ 0) × (first.nodes ≡ 2) × (first.down ≡ false) }
    requires second { (second.node ≡ 1) × (second.nodes ≡ 2) × (second.down ≡ false) }
    ensures run { IfSome result.0
        (λ ended. IsLogOfRun (start_of (first.records ∷ second.records ∷ [])) ended.1) }
{
    let Ok((board, pass)) = Board::<CoreLaw>::new(alloc, 2, 2) else {
        return (None, (first, second));
    };
    meet::<Brand, D, T>(rt, alloc, board, pass, first, second)
}

// A node of this number, of two, on a disk without a byte.
fn start(rt: &impl Abort, alloc: Global, number: u8) -> Result<Node<MemoryDisk>, Fail>
    ensures node { IfOk result (λ node. node.node ≡ number) }
    ensures nodes { IfOk result (λ node. node.nodes ≡ 2) }
    ensures up { IfOk result (λ node. node.down ≡ false) }
{
    let redo = empty_log(rt, alloc, number)?;
    match Node::start(alloc, redo) {
        Ok(node) => Ok(node),
        Err(_) => panic!(rt; "no node"),
    }
}

// The log of a node of this number, of two, on a disk without a byte.
fn empty_log(rt: &impl Abort, alloc: Global, number: u8) -> Result<Redo<MemoryDisk>, Fail>
    ensures going { IfOk result (λ redo. redo.phase ≢ Closing) }
    ensures bodies { IfOk result (λ redo. HoldsPartsApart redo.bodies) }
    ensures node { IfOk result (λ redo. redo.node ≡ number) }
    ensures nodes { IfOk result (λ redo. redo.nodes ≡ 2) }
{
    let disk = MemoryDisk::new(
        Bytes::from_vec(Vec::new(alloc)),
        Calls::from_vec(Vec::new(alloc)),
    );
    match Redo::open(alloc, disk, NodeNo(number), 2) {
        Ok(redo) => Ok(redo),
        Err(_) => panic!(rt; "no log"),
    }
}

fn told_by(ended: Option<(Told, Log)>) -> Option<Told> {
    match ended {
        Some((told, _log)) => Some(told),
        None => None,
    }
}

#[test]
fn two_threads_at_two_cells_make_one_log(rt: HostRuntime) -> Result<(), Fail> {
    let alloc = rt.alloc();
    let first = start(&rt, alloc, 0)?;
    let second = start(&rt, alloc, 1)?;
    let expected = Told {
        reached: true,
        beyond: false,
        clock: 200,
        entries: 200,
    };
    let (ended, _nodes) = run::<MemoryDisk, HostRuntime>(&rt, alloc, first, second);
    assert!(rt; told_by(ended) == Some(expected));
    Ok(())
}

//! Two passes on one board, and two threads.
ghost use Rattle.std.specs.Prelude.{◌≡◌, [], Some};
ghost use Rattle.mn_actors.specs.declared.actor.Actor.{Actor as Who};
ghost use Rattle.mn_actors.specs.declared.actor.Actor.TheVariants.{Node, Client};
ghost use Rattle.mn_actors.specs.Lines.{node_at, client_at};
ghost use Rattle.mn_actors.specs.Lists.{held, Owns};
ghost use Rattle.mn_actors.specs.Sight.{id_of, board_of, view_of};

use crate::{Actor, Board, Law, Pass};
use mn_base::{ClientNo, NodeNo};
use std::alloc::Global;
use std::test::Fail;
use std::thread;
use std::thread::Threads;

// An entry is the number of the node's entries before it.
struct Turns;

impl Law for Turns {
    ghost use Rattle.std.specs.Prelude.{◌≡◌, length};

    type Entry = u64;

    ghost legal = { λ ns cs x. x.entry ≡ length ns };
}

// Adds a hundred entries of a node and a client.
fn work(board: &Board<Turns>, mut pass: Pass<Turns>, node: NodeNo, client: ClientNo) -> Pass<Turns>
    requires board { board_of pass ≡ id_of board.now }
    requires node { held (view_of pass) (Node node) ≡ Some [] }
    requires client { held (view_of pass) (Client client) ≡ Some [] }
    ensures board { board_of result ≡ board_of pass }
    ensures owns { (a : Who) → Owns (view_of pass) a → Owns (view_of result) a }
{
    for i in 0..100 {
        board.append(&mut pass, i, Some(node), Some(client));
    }
    pass
}

// Two threads work on a board. The answer is what `hear` says of 200 and 201, and the clock.
fn both<R: Threads + Sync>(rt: &R, alloc: Global) -> Option<(bool, bool, u64)> {
    let Ok((board, mut pass)) = Board::<Turns>::new(alloc, 2, 2) else {
        return None;
    };
    let mut other = board.split(&mut pass, Actor::Node { node: NodeNo(1) });
    let client = board.split(
        &mut pass,
        Actor::Client {
            client: ClientNo(1),
        },
    );
    board.join(&mut other, client);
    let shared = &board;
    let (mut one, two) = thread::join(
        rt,
        move || -> Pass<Turns>
            requires { (board_of pass ≡ id_of shared.now)
                × (held (view_of pass) (node_at 0) ≡ Some [])
                × (held (view_of pass) (client_at 0) ≡ Some []) }
            ensures { (board_of result ≡ board_of pass)
                × ((a : Who) → Owns (view_of pass) a → Owns (view_of result) a) }
        { work(shared, pass, NodeNo(0), ClientNo(0)) },
        move || -> Pass<Turns>
            requires { (board_of other ≡ id_of shared.now)
                × (held (view_of other) (node_at 1) ≡ Some [])
                × (held (view_of other) (client_at 1) ≡ Some []) }
            ensures { (board_of result ≡ board_of other)
                × ((a : Who) → Owns (view_of other) a → Owns (view_of result) a) }
        { work(shared, other, NodeNo(1), ClientNo(1)) },
    );
    board.join(&mut one, two);
    let reached = board.hear(&mut one, 200);
    let beyond = board.hear(&mut one, 201);
    let clock = board.close(one);
    Some((reached, beyond, clock))
}

// A pass looks at the clock after another added an entry. The answer is what `hear` says of 1 and
// 2.
fn late(alloc: Global) -> Option<(bool, bool)> {
    let Ok((board, mut pass)) = Board::<Turns>::new(alloc, 1, 1) else {
        return None;
    };
    let mut other = board.split(
        &mut pass,
        Actor::Client {
            client: ClientNo(0),
        },
    );
    board.append(&mut pass, 0, Some(NodeNo(0)), None);
    let reached = board.hear(&mut other, 1);
    let beyond = board.hear(&mut other, 2);
    Some((reached, beyond))
}

#[test]
fn a_look_tells_of_another_pass_entry(rt: HostRuntime) -> Result<(), Fail> {
    assert!(rt; late(rt.alloc()) == Some((true, false)));
    Ok(())
}

#[test]
fn two_threads_share_the_clock(rt: HostRuntime) -> Result<(), Fail> {
    assert!(rt; both(&rt, rt.alloc()) == Some((true, false, 200)));
    Ok(())
}

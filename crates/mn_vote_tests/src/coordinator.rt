//! A coordinator that is fed replies, step by step; and the flat memory of two minitransactions.
ghost use Rattle.std.specs.Prelude.{◌≡◌, ◌≤◌, false};
ghost use Rattle.mn_mini.specs.RecordGrammar.{IsTid};

use mn_base::{Bytes, ClientNo, NodeNo, Nodes, Tid};
use mn_commits::flat_after;
use mn_coord::{CoordStep, Coordinator};
use mn_mini::{
    Item, Items, Minitransaction, NodeReply, Reads, Request, SPACE, SharedBytes, Spaces,
};
use mn_runs::{Entry, Log, What};
use std::alloc::Global;
use std::test::Fail;

fn tid(client: u8, serial: u32) -> Tid
    requires client { client ≤ 20 }
    requires serial { 1 ≤ serial }
    ensures { IsTid result }
{
    Tid {
        run: 1,
        client: ClientNo(client),
        serial,
    }
}

/// Writes one byte at each of these nodes.
fn writes(alloc: Global, nodes: &[u8], start: u32, byte: u8) -> Result<Minitransaction, Fail> {
    let mut items = Vec::new(alloc);
    for node in nodes {
        items.push(Item::Write {
            node: NodeNo(*node),
            start,
            bytes: SharedBytes::copy_of(alloc, &[byte])?,
        })?;
    }
    Ok(Minitransaction::new(alloc, 2, Items::from_vec(alloc, items)?)?)
}

fn done() -> NodeReply {
    NodeReply::Done {
        reads: Reads::none(),
    }
}

/// The reply of this letter.
fn reply_of(alloc: Global, letter: u8) -> NodeReply {
    match letter {
        b'd' => done(),
        b'l' => NodeReply::BadLock {
            start: 20_480,
            length: 1,
            holder: tid(3, 7),
        },
        b'c' => NodeReply::BadCompare {
            item: 0,
            found: Bytes::from_vec(Vec::new(alloc)),
        },
        b'f' => NodeReply::BadForced,
        b'w' => NodeReply::Down,
        b'm' => NodeReply::NoMemory,
        _ => NodeReply::Stopped,
    }
}

fn digit(node: NodeNo) -> u8 {
    b'0' + (node.0 & 7)
}

/// P, X, Y or N: a Prepare, an Exec, a Decide with yes or with no.
fn letter_of(request: &Request) -> u8 {
    match request {
        Request::Prepare { .. } => b'P',
        Request::Exec { .. } => b'X',
        Request::Decide { yes: true, .. } => b'Y',
        Request::Decide { yes: false, .. } => b'N',
        _ => b'?',
    }
}

/// The next step: a request with its node, which is answered so; or that it is given up (A), or
/// ends as committed (C), failed (F) or in doubt (D).
fn step(coordinator: &mut Coordinator, reply: NodeReply) -> [u8; 2]
    requires { coordinator.old.asked ≡ false }
    ensures { coordinator.new.asked ≡ false }
{
    match coordinator.next() {
        CoordStep::Send { node, request } => {
            coordinator.feed(reply);
            [letter_of(&request), digit(node)]
        }
        CoordStep::Abandon => *b"A ",
        CoordStep::Committed => *b"C ",
        CoordStep::Failed { node } => [b'F', digit(node)],
        CoordStep::Doubt { node } => [b'D', digit(node)],
    }
}

/// The steps of a write at these nodes, with a letter for each: the reply, where it is a request.
fn steps(alloc: Global, nodes: &[u8], replies: &[u8]) -> Result<Vec<u8>, Fail> {
    let mut coordinator = Coordinator::new(alloc, tid(0, 1), writes(alloc, nodes, 20_480, 97)?)?;
    let mut said = Vec::new(alloc);
    for letter in replies {
        said.extend_from_slice(&step(&mut coordinator, reply_of(alloc, *letter)))?;
    }
    Ok(said)
}

/// Nodes, replies, and the steps.
const ROWS: [(&[u8], &[u8], &[u8]); 19] = [
    // All votes commit it, whatever becomes of the Decides.
    (&[0, 1], b"ddss-", b"P0P1Y0Y1C "),
    // The last Prepare is refused: the one that voted is told.
    (&[0, 1], b"dl-w-", b"P0P1A N0F1"),
    (&[0, 1], b"dc-w-", b"P0P1A N0F1"),
    (&[0, 1], b"df-w-", b"P0P1A N0F1"),
    (&[0, 1], b"dw-w-", b"P0P1A N0F1"),
    (&[0, 1], b"dm-w-", b"P0P1A N0F1"),
    // A stop inside it leaves a doubt.
    (&[0, 1], b"ds-", b"P0P1D1"),
    // The first Prepare is refused: nothing is to be told.
    (&[0, 1], b"l--", b"P0A F0"),
    (&[0, 1], b"c--", b"P0A F0"),
    (&[0, 1], b"f--", b"P0A F0"),
    (&[0, 1], b"w--", b"P0A F0"),
    (&[0, 1], b"m--", b"P0A F0"),
    (&[0, 1], b"s--", b"P0A F0"),
    // One participant: one Exec.
    (&[1], b"d-", b"X1C "),
    (&[1], b"l-", b"X1F1"),
    (&[1], b"c-", b"X1F1"),
    (&[1], b"w-", b"X1F1"),
    (&[1], b"m-", b"X1F1"),
    (&[1], b"s-", b"X1D1"),
];

#[test]
fn each_reply_leads_to_its_end(rt: HostRuntime) -> Result<(), Fail> {
    for (nodes, replies, said) in ROWS {
        assert!(rt; steps(rt.alloc(), nodes, replies)?.as_slice() == said);
    }
    Ok(())
}

fn issue(client: u8, mini: Minitransaction) -> Entry
    requires { client ≤ 20 }
{
    Entry {
        node: None,
        client: Some(ClientNo(client)),
        what: What::Issue {
            tid: tid(client, 1),
            mini,
        },
    }
}

fn called(client: u8, node: u8, request: Request) -> Entry {
    Entry {
        node: Some(NodeNo(node)),
        client: Some(ClientNo(client)),
        what: What::Called {
            request,
            reply: done(),
        },
    }
}

/// The first, which writes at both nodes.
fn first(alloc: Global) -> Result<Minitransaction, Fail> {
    writes(alloc, &[0, 1], 20_480, 97)
}

/// The second, which writes at node 0 alone.
fn second(alloc: Global) -> Result<Minitransaction, Fail> {
    writes(alloc, &[0], 21_504, 98)
}

/// The Prepare of the first at a node.
fn prepare(alloc: Global, node: u8) -> Result<Request, Fail> {
    let mut participants = Nodes::new();
    participants.push(NodeNo(0))?;
    participants.push(NodeNo(1))?;
    Ok(Request::Prepare {
        tid: tid(0, 1),
        participants,
        part: first(alloc)?.part(alloc, NodeNo(node))?,
    })
}

/// The Exec of the second.
fn exec(alloc: Global) -> Result<Request, Fail> {
    Ok(Request::Exec {
        tid: tid(1, 1),
        part: second(alloc)?.part(alloc, NodeNo(0))?,
    })
}

/// Two issues, the first vote, the Exec of the other, and the second vote: places 0 to 4.
fn entry_at(alloc: Global, place: u64) -> Result<Entry, Fail> {
    match place {
        0 => Ok(issue(0, first(alloc)?)),
        1 => Ok(issue(1, second(alloc)?)),
        2 => Ok(called(0, 0, prepare(alloc, 0)?)),
        3 => Ok(called(1, 0, exec(alloc)?)),
        _ => Ok(called(0, 1, prepare(alloc, 1)?)),
    }
}

/// The first entries, so many.
fn log_of(alloc: Global, count: u64) -> Result<Log, Fail> {
    let mut entries = Vec::new(alloc);
    for place in 0..count {
        entries.push((place, entry_at(alloc, place)?))?;
    }
    Ok(Log::of_list(alloc, entries)?)
}

fn zeros(alloc: Global) -> Result<Spaces, Fail> {
    let mut spaces = Vec::new(alloc);
    for _n in 0..2 {
        spaces.push(Bytes::from_vec(vec![in alloc; 0u8; SPACE as usize]?))?;
    }
    Ok(Spaces::from_vec(spaces))
}

fn byte_at(spaces: &Spaces, node: usize, at: usize) -> Option<u8> {
    spaces.as_slice().get(node)?.as_slice().get(at).copied()
}

/// What stands behind so many entries where the two write: the second on node 0, and the first on
/// both.
fn written(alloc: Global, count: u64) -> Result<[Option<u8>; 3], Fail> {
    let spaces = flat_after(alloc, &zeros(alloc)?, &log_of(alloc, count)?)?;
    Ok([
        byte_at(&spaces, 0, 21_504),
        byte_at(&spaces, 0, 20_480),
        byte_at(&spaces, 1, 20_480),
    ])
}

#[test]
fn the_last_vote_is_the_commit(rt: HostRuntime) -> Result<(), Fail> {
    assert!(rt; written(rt.alloc(), 4)? == [Some(98), Some(0), Some(0)]);
    assert!(rt; written(rt.alloc(), 5)? == [Some(98), Some(97), Some(97)]);
    Ok(())
}

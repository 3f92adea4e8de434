//! A small log on two nodes: what is committed, what is left in doubt, what a read shows, and what
//! is reported of it.
use mn_base::{
    Addr, Answer, ClientNo, Founds, History, Key, Name, NodeNo, Nodes, Op, Past, Reply, SharedOp,
    Step, Steps, StopAt, Tid, Value,
};
use mn_hist::{audit, history_of};
use mn_mini::{
    Item, Items, Minitransaction, NodeReply, OwnBytes, ReadBytes, Reads, Request, SharedBytes,
};
use mn_page::CatEntry;
use mn_plain::Store;
use mn_report::{LineAnswer, Report};
use mn_runs::{Entry, Log, What};
use mn_script::read_script;
use std::alloc::Global;
use std::test::Fail;

fn tid(client: u8) -> Tid {
    Tid {
        run: 1,
        client: ClientNo(client),
        serial: 1,
    }
}

fn own(client: u8, what: What) -> Entry {
    Entry {
        node: None,
        client: Some(ClientNo(client)),
        what,
    }
}

fn called(node: u8, client: u8, request: Request, reads: Reads) -> Entry {
    Entry {
        node: Some(NodeNo(node)),
        client: Some(ClientNo(client)),
        what: What::Called {
            request,
            reply: NodeReply::Done { reads },
        },
    }
}

/// `tx main get k ; put k VALUE`.
fn swap(alloc: Global, value: &[u8]) -> Result<Op, Fail> {
    let mut steps = Vec::new(alloc);
    steps.push(Step::Get {
        key: Key::new(alloc, b"k")?,
    })?;
    steps.push(Step::Put {
        key: Key::new(alloc, b"k")?,
        value: Value::new(alloc, value)?,
    })?;
    Ok(Op::Tx {
        version: Name::new(alloc, b"main")?,
        steps: Steps::new(steps)?,
    })
}

/// Writes on the first so many nodes.
fn writes(alloc: Global, nodes: u8) -> Result<Minitransaction, Fail> {
    let mut items = Vec::new(alloc);
    for node in 0..nodes {
        items.push(Item::Write {
            node: NodeNo(node),
            start: 20_480,
            bytes: SharedBytes::copy_of(alloc, &[0x61])?,
        })?;
    }
    Ok(Minitransaction::new(alloc, 2, Items::from_vec(alloc, items)?)?)
}

/// A read of the catalog.
fn reads(alloc: Global) -> Result<Minitransaction, Fail> {
    let item = Item::Read {
        node: NodeNo(0),
        start: 64,
        length: 4_096,
    };
    Ok(Minitransaction::new(alloc, 2, Items::one(item))?)
}

/// Asks for the vote of client 0's plan on a node.
fn prepare(alloc: Global, node: u8) -> Result<Request, Fail> {
    let mut participants = Nodes::new();
    participants.push(NodeNo(0))?;
    participants.push(NodeNo(1))?;
    Ok(Request::Prepare {
        tid: tid(0),
        participants,
        part: writes(alloc, 2)?.part(alloc, NodeNo(node))?,
    })
}

/// The catalog of a store that begins.
fn catalog(alloc: Global) -> Result<OwnBytes, Fail> {
    let entry = CatEntry {
        seq: 1,
        frozen: false,
        parent: None,
        root: Addr {
            node: NodeNo(0),
            slot: 0,
        },
        name: Name::new(alloc, b"main")?,
    };
    let mut bytes = vec![in alloc; 0; 4_096]?;
    entry.write(&mut bytes[..64]);
    Ok(OwnBytes::new(alloc, bytes)?)
}

/// What a client is to do.
fn op_of(alloc: Global, client: u8) -> Result<Op, Fail> {
    match client {
        0 => swap(alloc, b"a"),
        1 => swap(alloc, b"b"),
        _ => Ok(Op::Versions),
    }
}

/// The one minitransaction of a client: 0 and 1 write, and 2 reads the catalog.
fn mini_of(alloc: Global, client: u8) -> Result<Minitransaction, Fail> {
    match client {
        0 => writes(alloc, 2),
        1 => writes(alloc, 1),
        _ => reads(alloc),
    }
}

/// The minitransaction of a client, all at node 0.
fn exec(alloc: Global, client: u8) -> Result<Request, Fail> {
    Ok(Request::Exec {
        tid: tid(client),
        part: mini_of(alloc, client)?.part(alloc, NodeNo(0))?,
    })
}

/// Client 0 is in doubt of node 1, client 1 found nothing, and client 2 the one version.
fn answer_of(alloc: Global, client: u8) -> Result<Answer, Fail> {
    let reply = match client {
        0 => {
            return Ok(Answer::InDoubt {
                tid: tid(0),
                node: NodeNo(1),
            });
        }
        1 => Reply::Values {
            found: Founds::from_vec(Vec::from_array(alloc, [None])?),
        },
        _ => Reply::Listing {
            versions: Store::new(alloc)?.listing(alloc)?,
        },
    };
    Ok(Answer::Replied { reply })
}

/// What is logged, of a client or of a node.
#[derive(Clone, Copy)]
enum Logged {
    Begin(u8),
    Issue(u8),
    Answer(u8),
    /// Node 0 votes for client 0's plan.
    Vote,
    /// Client 2 reads the catalog.
    Catalog,
    /// Client 1's plan is run.
    Exec,
    /// Node 1 stops inside the last vote of client 0's plan.
    Stop,
    Restart,
}

/// Client 0's plan votes on node 0, client 2 reads the catalog, and client 1's plan is run before
/// node 1 stops inside the last vote of client 0's.
const WORKED: &[Logged] = &[
    Logged::Begin(0),
    Logged::Begin(1),
    Logged::Begin(2),
    Logged::Issue(0),
    Logged::Vote,
    Logged::Issue(2),
    Logged::Catalog,
    Logged::Issue(1),
    Logged::Exec,
    Logged::Stop,
    Logged::Restart,
    Logged::Answer(0),
    Logged::Answer(1),
    Logged::Answer(2),
];

fn begun(alloc: Global, client: u8) -> Result<Entry, Fail> {
    let op = SharedOp::new(alloc, op_of(alloc, client)?)?;
    Ok(own(client, What::Begin { number: 1, op }))
}

fn issued(alloc: Global, client: u8) -> Result<Entry, Fail> {
    let mini = mini_of(alloc, client)?;
    let tid = tid(client);
    Ok(own(client, What::Issue { tid, mini }))
}

fn answered(alloc: Global, client: u8) -> Result<Entry, Fail> {
    let answer = answer_of(alloc, client)?;
    Ok(own(client, What::Answered { number: 1, answer }))
}

fn stopped(alloc: Global, kept: bool) -> Result<Entry, Fail> {
    Ok(Entry {
        node: Some(NodeNo(1)),
        client: Some(ClientNo(0)),
        what: What::Stopped {
            request: Some(prepare(alloc, 1)?),
            asked: Some(if kept { StopAt::After } else { StopAt::Half }),
        },
    })
}

fn restarted(kept: bool) -> Entry {
    Entry {
        node: Some(NodeNo(1)),
        client: None,
        what: What::Restarted { kept },
    }
}

/// Client 2 reads the catalog on node 0.
fn catalog_read(alloc: Global) -> Result<Entry, Fail> {
    let reads = Reads::one(ReadBytes::own(catalog(alloc)?));
    Ok(called(0, 2, exec(alloc, 2)?, reads))
}

fn entry_of(alloc: Global, logged: Logged, kept: bool) -> Result<Entry, Fail> {
    match logged {
        Logged::Begin(client) => begun(alloc, client),
        Logged::Issue(client) => issued(alloc, client),
        Logged::Answer(client) => answered(alloc, client),
        Logged::Vote => Ok(called(0, 0, prepare(alloc, 0)?, Reads::none())),
        Logged::Catalog => catalog_read(alloc),
        Logged::Exec => Ok(called(0, 1, exec(alloc, 1)?, Reads::none())),
        Logged::Stop => stopped(alloc, kept),
        Logged::Restart => Ok(restarted(kept)),
    }
}

/// The log, where node 1's restart keeps the last vote if `kept`.
fn worked(alloc: Global, kept: bool) -> Result<Log, Fail> {
    let mut log = Vec::new(alloc);
    for (place, logged) in WORKED.iter().enumerate() {
        log.push((place as u64, entry_of(alloc, *logged, kept)?))?;
    }
    Ok(Log::of_list(alloc, log)?)
}

fn history(alloc: Global, kept: bool) -> Result<History, Fail> {
    Ok(history_of(alloc, &Store::new(alloc)?, &worked(alloc, kept)?)?)
}

/// Whether the operations are of these clients, in this order.
fn are_of(history: &History, clients: &[u8]) -> bool {
    let past = history.as_slice();
    for (place, one) in past.iter().enumerate() {
        if clients.get(place).copied() != Some(one.client.0) {
            return false;
        }
    }
    past.len() == clients.len()
}

/// The value that the operation's one Get found.
fn found(past: &Past) -> Option<&[u8]> {
    let Reply::Values { found } = &past.reply else {
        return None;
    };
    match found.as_slice() {
        [Some(value)] => Some(value.as_slice()),
        _ => None,
    }
}

#[test]
fn a_doubtful_commit_stands_at_its_restart_with_the_reply_of_the_store(
    rt: HostRuntime,
) -> Result<(), Fail> {
    let history = history(rt.alloc(), true)?;
    assert!(rt; are_of(&history, &[2, 1, 0]));
    // It saw what client 1 had put.
    assert!(rt; history.as_slice().last().and_then(found) == Some(b"b".as_slice()));
    Ok(())
}

#[test]
fn a_vote_that_was_not_kept_leaves_no_operation(rt: HostRuntime) -> Result<(), Fail> {
    assert!(rt; are_of(&history(rt.alloc(), false)?, &[2, 1]));
    Ok(())
}

/// What the three clients of the log were to do, and where they and a node were to crash.
const SCRIPT: &[u8] = b"nodes 2\n\
    client a\n\
    tx main get k ; put k a\n\
    client b\n\
    tx main get k ; put k b\n\
    get main k\n\
    client c\n\
    versions\n\
    kill a 1 votes 2\n\
    stop 1 a 1 after\n\
    stop 1 a 1 after\n";

fn reported(alloc: Global, kept: bool) -> Result<Report, Fail> {
    let script = read_script(alloc, SCRIPT)?;
    let log = worked(alloc, kept)?;
    Ok(audit(alloc, &Store::new(alloc)?, &log, &script)?)
}

/// What becomes of the one operation in doubt.
fn is_committed(report: &Report) -> Option<bool> {
    match report.doubts.as_slice() {
        [doubt] => Some(doubt.committed),
        _ => None,
    }
}

#[test]
fn a_report_tells_of_a_commit_in_doubt_and_which_points_were_met(
    rt: HostRuntime,
) -> Result<(), Fail> {
    let report = reported(rt.alloc(), true)?;
    assert!(rt; is_committed(&report) == Some(true));
    // The second stop point fits as well, and the first one works.
    assert!(rt; report.points.as_slice() == [false, true, false].as_slice());
    assert!(rt; report.history.as_slice().len() == 3);
    assert!(rt; report.answers.as_slice().len() == 4);
    assert!(rt; matches!(report.answers.as_slice()[2].answer, LineAnswer::Never));
    Ok(())
}

#[test]
fn a_report_tells_of_a_vote_that_was_not_kept_and_of_no_point(rt: HostRuntime) -> Result<(), Fail> {
    let report = reported(rt.alloc(), false)?;
    assert!(rt; is_committed(&report) == Some(false));
    // It stopped elsewhere than the points say.
    assert!(rt; report.points.as_slice() == [false, false, false].as_slice());
    Ok(())
}

//! A node on a disk in memory: what it answers, stops and restarts.
ghost use Rattle.std.specs.Prelude.{◌≡◌, ◌≢◌, ◌≤◌, ◌<◌, ◌+◌, ◌∷◌, [], false, length, IfOk};
ghost use Rattle.mn_mini.specs.Mini.{IsInSpace, space_size};
ghost use Rattle.mn_mini.specs.RecordGrammar.{IsPart, IsPartItem, IsTid};
ghost use Rattle.mn_redo.specs.declared.redo.Phase.TheVariants.{Closing};
ghost use Rattle.mn_mini.specs.Sound.{IsSoundRequest};
ghost use Rattle.mn_node.specs.State.{HoldsPartsApart};

use mn_base::{ClientNo, NodeNo, Nodes, StopAt, Tid};
use mn_io::{Bytes as DiskBytes, Calls};
use mn_memdisk::MemoryDisk;
use mn_mini::{NodeReply, Part, PartItem, Request, SharedBytes};
use mn_node::Node;
use mn_redo::Redo;
use std::alloc::Global;
use std::test::Fail;

/// The log of node 1 of two, on a disk without a byte whose calls in the list fail.
fn empty_log(alloc: Global, fails: &[u64]) -> Result<Redo<MemoryDisk>, Fail>
    ensures going { IfOk result (λ redo. redo.phase ≢ Closing) }
    ensures bodies { IfOk result (λ redo. HoldsPartsApart redo.bodies) }
    ensures nodes { IfOk result (λ redo. redo.nodes ≡ 2) }
{
    let fails = Calls::from_vec(fails.to_vec(alloc)?);
    let disk = MemoryDisk::new(DiskBytes::from_vec(Vec::new(alloc)), fails);
    match Redo::open(alloc, disk, NodeNo(1), 2) {
        Ok(redo) => Ok(redo),
        Err(_failed) => Err(Fail::new("no log")),
    }
}

/// Node 1 of two, on a disk without a byte whose calls in the list fail.
pub fn start(alloc: Global, fails: &[u64]) -> Result<Node<MemoryDisk>, Fail> {
    let redo = empty_log(alloc, fails)?;
    match Node::start(alloc, redo) {
        Ok(node) => Ok(node),
        Err(_failed) => Err(Fail::new("no node")),
    }
}

/// What is done at a place in the space.
#[derive(Clone, Copy)]
pub enum Piece {
    /// Compares the eight bytes of the count with zeros, and writes `a` into the first slot.
    Vote,
    /// Writes a byte.
    Write(u16, u8),
    /// Compares a byte.
    Compare(u16, u8),
    /// Reads so many bytes.
    Read(u16, u8),
}

/// A request: the numbers of a client and of its serial name an id, and a Prepare asks for a vote
/// of both nodes.
#[derive(Clone, Copy)]
pub enum Ask {
    Prepare(u8, u8, Piece),
    Exec(u8, u8, Piece),
    Decide(u8, u8, bool),
    Force(u8, u8),
    List,
    /// So many bytes at a place.
    Peek(u16, u8),
}

use Ask::{Decide, Exec, Force, List, Peek, Prepare};
use Piece::{Compare, Read, Vote, Write};

/// The id of these numbers, as far as there is one.
fn tid(client: u8, serial: u8) -> Tid
    ensures { IsTid result }
{
    Tid {
        run: 1,
        client: ClientNo(client.min(20)),
        serial: u32::from(serial.max(1)),
    }
}

/// A part of one item.
fn part_of(alloc: Global, item: PartItem) -> Result<Part, Fail>
    requires { IsPartItem item }
    ensures { IfOk result IsPart }
{
    let mut items = Vec::new(alloc);
    items.push(item)?;
    Ok(Part::from_vec(alloc, items)?)
}

fn write(alloc: Global, start: u32, byte: u8) -> Result<Part, Fail>
    requires { start < space_size }
    ensures { IfOk result IsPart }
{
    let bytes = SharedBytes::copy_of(alloc, &[byte])?;
    part_of(alloc, PartItem::Write { start, bytes })
}

fn compare(alloc: Global, start: u32, byte: u8) -> Result<Part, Fail>
    requires { start < space_size }
    ensures { IfOk result IsPart }
{
    let bytes = SharedBytes::copy_of(alloc, &[byte])?;
    part_of(alloc, PartItem::Compare { start, bytes })
}

fn vote_part(alloc: Global) -> Result<Part, Fail>
    ensures { IfOk result IsPart }
{
    let mut items = Vec::new(alloc);
    items.push(PartItem::Compare {
        start: 16,
        bytes: SharedBytes::copy_of(alloc, &[0; 8])?,
    })?;
    items.push(PartItem::Write {
        start: 20_480,
        bytes: SharedBytes::copy_of(alloc, &[0x61])?,
    })?;
    Ok(Part::from_vec(alloc, items)?)
}

fn made(alloc: Global, piece: Piece) -> Result<Part, Fail>
    ensures { IfOk result IsPart }
{
    match piece {
        Vote => vote_part(alloc),
        Write(start, byte) => write(alloc, u32::from(start), byte),
        Compare(start, byte) => compare(alloc, u32::from(start), byte),
        Read(start, length) => {
            let length = u32::from(length.max(1));
            let start = u32::from(start);
            part_of(alloc, PartItem::Read { start, length })
        }
    }
}

/// Asks for a vote of both nodes.
fn prepare(alloc: Global, tid: Tid, part: Part) -> Result<Request, Fail>
    requires id { IsTid tid }
    requires part { IsPart part }
    ensures { IfOk result IsSoundRequest }
{
    let mut participants = Nodes::new();
    participants.push(NodeNo(0))?;
    participants.push(NodeNo(1))?;
    Ok(Request::Prepare {
        tid,
        participants,
        part,
    })
}

fn request_of(alloc: Global, ask: Ask) -> Result<Request, Fail>
    ensures { IfOk result IsSoundRequest }
{
    match ask {
        Prepare(client, serial, piece) => prepare(alloc, tid(client, serial), made(alloc, piece)?),
        Exec(client, serial, piece) => Ok(Request::Exec {
            tid: tid(client, serial),
            part: made(alloc, piece)?,
        }),
        Decide(client, serial, yes) => Ok(Request::Decide {
            tid: tid(client, serial),
            yes,
        }),
        Force(client, serial) => Ok(Request::Force {
            tid: tid(client, serial),
        }),
        List => Ok(Request::List),
        Peek(start, length) => Ok(Request::Peek {
            start: u32::from(start),
            length: u32::from(length.max(1)),
        }),
    }
}

/// A reply in words. Of the only vote that is held: its id, and its participants.
fn words_of(alloc: Global, reply: &NodeReply) -> Result<String, Fail> {
    if let NodeReply::Listed { doubts } = reply {
        if let [held] = doubts.as_slice() {
            let participants = held.participants.as_slice();
            return Ok(format!(in alloc; "{:?} is held at {participants:?}", held.tid)?);
        }
    }
    Ok(format!(in alloc; "{reply:?}")?)
}

/// Whether the node says this to the request.
fn says(
    alloc: Global,
    node: &mut Node<MemoryDisk>,
    ask: Ask,
    stop: Option<StopAt>,
    wanted: &str,
) -> Result<bool, Fail> {
    let request = request_of(alloc, ask)?;
    let reply = node.handle(alloc, &request, stop);
    Ok(words_of(alloc, &reply)?.as_str() == wanted)
}

/// A request, and what the node says to it.
pub type Said = (Ask, &'static str);

/// Whether the node says these, one after another.
pub fn says_all(alloc: Global, node: &mut Node<MemoryDisk>, rows: &[Said]) -> Result<bool, Fail> {
    for (ask, wanted) in rows {
        if !says(alloc, node, *ask, None, wanted)? {
            return Ok(false);
        }
    }
    Ok(true)
}

/// Whether a restart finds the record of the stopped request; none if the node is up or stays down.
pub fn restart(alloc: Global, node: &mut Node<MemoryDisk>) -> Option<bool> {
    if !node.is_down() {
        return None;
    }
    match node.restart(alloc) {
        Ok(there) => Some(there),
        Err(_cause) => None,
    }
}

pub const YES: &str = "Done { reads: Reads { kept: Nothing } }";

const COUNT_IS_LOCKED: &str =
    "BadLock { start: 20, length: 1, holder: Tid { run: 1, client: ClientNo(0), serial: 1 } }";

const SLOT_IS_LOCKED: &str =
    "BadLock { start: 20480, length: 1, holder: Tid { run: 1, client: ClientNo(0), serial: 1 } }";

const A_VOTE: &[Said] = &[
    (Prepare(0, 1, Vote), YES),
    (Prepare(1, 1, Write(20, 1)), COUNT_IS_LOCKED),
    (
        Exec(1, 2, Read(16, 8)),
        "Done { reads: Reads { kept: One(ReadBytes { held: Shared { bytes: SharedBytes { bytes: [0, 0, 0, 0, 0, 0, 0, 0] } } }) } }",
    ),
];

const IT_IS_FORCED: &[Said] = &[
    (Force(1, 3), "Vote { yes: false }"),
    (Prepare(1, 3, Read(0, 1)), "BadForced"),
    (Force(0, 1), "Vote { yes: true }"),
];

const IT_IS_DECIDED: &[Said] = &[
    (Prepare(1, 4, Write(20, 1)), COUNT_IS_LOCKED),
    (
        List,
        "Tid { run: 1, client: ClientNo(0), serial: 1 } is held at [NodeNo(0), NodeNo(1)]",
    ),
    (Decide(0, 1, true), "Decided"),
    (
        Peek(20_480, 1),
        "Peeked { bytes: SharedBytes { bytes: [97] } }",
    ),
    (
        Prepare(1, 5, Compare(20_480, 0)),
        "BadCompare { item: 0, found: Bytes { bytes: [97] } }",
    ),
];

/// Whether it has one record behind a vote, says that it is down when it is halted, and has no new
/// record when it is restarted.
fn keeps_a_vote(alloc: Global, node: &mut Node<MemoryDisk>) -> Result<bool, Fail> {
    if !says_all(alloc, node, A_VOTE)? || node.records().len() != 1 {
        return Ok(false);
    }
    if !says_all(alloc, node, IT_IS_FORCED)? {
        return Ok(false);
    }
    node.halt();
    Ok(says(alloc, node, Peek(20_480, 1), None, "Down")? && restart(alloc, node) == Some(false))
}

#[test]
fn a_node_answers_by_its_records(rt: HostRuntime) -> Result<(), Fail> {
    let alloc = rt.alloc();
    let mut node = start(alloc, &[])?;
    assert!(rt; keeps_a_vote(alloc, &mut node)?);
    assert!(rt; says_all(alloc, &mut node, IT_IS_DECIDED)?);
    assert!(rt; node.records().len() == 3);
    Ok(())
}

const LOCKS_FIRST: &[Said] = &[
    (Prepare(0, 1, Vote), YES),
    (Prepare(1, 1, Compare(20_480, 9)), SLOT_IS_LOCKED),
];

#[test]
fn locks_are_tested_before_compares(rt: HostRuntime) -> Result<(), Fail> {
    let alloc = rt.alloc();
    let mut node = start(alloc, &[])?;
    assert!(rt; says_all(alloc, &mut node, LOCKS_FIRST)?);
    Ok(())
}

const TWO_IDS: &[Said] = &[
    (Prepare(0, 1, Write(20_480, 0x61)), YES),
    (Prepare(1, 1, Write(20_482, 0x62)), YES),
    (Prepare(0, 1, Write(20_481, 0x63)), YES),
    (Decide(0, 1, true), "Decided"),
];

/// The node shows both writes of the first id, and lists the second.
const ONE_HAS_ENDED: &[Said] = &[
    (
        Peek(20_480, 3),
        "Peeked { bytes: SharedBytes { bytes: [97, 99, 0] } }",
    ),
    (
        List,
        "Tid { run: 1, client: ClientNo(1), serial: 1 } is held at [NodeNo(0), NodeNo(1)]",
    ),
];

#[test]
fn a_decision_ends_each_vote_of_its_id_alone(rt: HostRuntime) -> Result<(), Fail> {
    let alloc = rt.alloc();
    let mut node = start(alloc, &[])?;
    assert!(rt; says_all(alloc, &mut node, TWO_IDS)?);
    assert!(rt; says_all(alloc, &mut node, ONE_HAS_ENDED)?);
    node.halt();
    assert!(rt; restart(alloc, &mut node) == Some(false));
    assert!(rt; says_all(alloc, &mut node, ONE_HAS_ENDED)?);
    Ok(())
}

/// A vote, and a decision of it in which the node stops and is down.
const A_DECISION_STOPS: &[Said] = &[
    (Prepare(0, 1, Vote), YES),
    (Decide(0, 1, true), "Stopped"),
    (Decide(0, 1, true), "Down"),
];

/// Whether the node stops in a decision on a disk whose call of this number fails, is restarted
/// where the decision is there or not, and decides.
fn decides(alloc: Global, fails: u64, there: bool) -> Result<bool, Fail> {
    let mut node = start(alloc, &[fails])?;
    if !says_all(alloc, &mut node, A_DECISION_STOPS)? {
        return Ok(false);
    }
    Ok(
        restart(alloc, &mut node) == Some(there)
            && says(alloc, &mut node, Decide(0, 1, true), None, "Decided")?
            && node.records().len() == 2,
    )
}

#[test]
fn a_decision_on_a_disk_that_fails_stops_the_node(rt: HostRuntime) -> Result<(), Fail> {
    // Three calls read the disk, eight write its header, and four write the vote. Then the record
    // behind its closed gate and the gate are written, each with a sync behind it.
    for (fails, there) in [(15, false), (16, false), (18, true)] {
        assert!(rt; decides(rt.alloc(), fails, there)?);
    }
    Ok(())
}

/// A write of one byte, at this node alone.
const EXEC: Ask = Exec(2, 1, Write(20_480, 0x62));

/// How many records a log has that is opened on what a crash leaves.
pub fn left_by(alloc: Global, disk: MemoryDisk, choice: u64) -> Result<Option<u32>, Fail> {
    match Redo::open(alloc, disk.crash(alloc, choice)?, NodeNo(1), 2) {
        Ok(redo) => Ok(Some(redo.count())),
        Err(_failed) => Ok(None),
    }
}

/// The call that fails, where the node is to stop, what the crash chooses, and how many records it
/// leaves.
type Crash = (u64, Option<StopAt>, u64, u32);

/// Whether an Exec stops the node, and so many records are left.
fn leaves(alloc: Global, crash: Crash) -> Result<bool, Fail> {
    let (fails, stop, choice, left) = crash;
    let mut node = start(alloc, &[fails])?;
    if !says(alloc, &mut node, EXEC, stop, "Stopped")? {
        return Ok(false);
    }
    Ok(left_by(alloc, node.close(), choice)? == Some(left))
}

const NEVER: u64 = 100;

const STOPS: &[Crash] = &[
    (NEVER, Some(StopAt::Before), 0, 0),
    (NEVER, Some(StopAt::Before), 1, 0),
    (NEVER, Some(StopAt::Half), 0, 0),
    (NEVER, Some(StopAt::Half), 1, 0),
    (NEVER, Some(StopAt::After), 0, 1),
    (NEVER, Some(StopAt::After), 1, 1),
];

#[test]
fn a_stop_leaves_the_record_or_not(rt: HostRuntime) -> Result<(), Fail> {
    for crash in STOPS {
        assert!(rt; leaves(rt.alloc(), *crash)?);
    }
    Ok(())
}

const FAILED_SYNCS: &[Crash] = &[
    (12, None, 0, 0),
    (12, None, 1, 0),
    (12, None, 2, 0),
    (12, None, 3, 0),
    (14, None, 0, 0),
    (14, None, 1, 1),
];

#[test]
fn a_crash_behind_a_failed_sync_leaves_the_record_or_not(rt: HostRuntime) -> Result<(), Fail> {
    for crash in FAILED_SYNCS {
        assert!(rt; leaves(rt.alloc(), *crash)?);
    }
    Ok(())
}

/// Whether a restart finds the record of an Exec with this stop or not, after which a Peek shows
/// whether it wrote.
fn comes_back(alloc: Global, stop: StopAt, there: bool, byte: &str) -> Result<bool, Fail> {
    let mut node = start(alloc, &[])?;
    if !says(alloc, &mut node, EXEC, Some(stop), "Stopped")? {
        return Ok(false);
    }
    Ok(
        restart(alloc, &mut node) == Some(there)
            && says(alloc, &mut node, Peek(20_480, 1), None, byte)?,
    )
}

#[test]
fn a_restart_tells_whether_the_record_is_there(rt: HostRuntime) -> Result<(), Fail> {
    let before = "Peeked { bytes: SharedBytes { bytes: [0] } }";
    let after = "Peeked { bytes: SharedBytes { bytes: [98] } }";
    for (stop, there, byte) in [
        (StopAt::Before, false, before),
        (StopAt::Half, false, before),
        (StopAt::After, true, after),
    ] {
        assert!(rt; comes_back(rt.alloc(), stop, there, byte)?);
    }
    Ok(())
}

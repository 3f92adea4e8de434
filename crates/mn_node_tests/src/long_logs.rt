//! A node whose log grows long: it is shortened before the next vote or execution, whatever its
//! disk does in that.
ghost use Rattle.std.specs.Prelude.{◌≡◌, ◌≤◌, ◌<◌, IfOk};
ghost use Rattle.mn_mini.specs.RecordGrammar.{IsPart, IsPartItem, kind_of};

use crate::nodes::Ask::{Decide, Force, List, Peek, Prepare};
use crate::nodes::Piece::{Compare, Read, Write};
use crate::nodes::{Said, YES, left_by, restart, says_all, start};
use mn_base::{ClientNo, StopAt, Tid};
use mn_memdisk::MemoryDisk;
use mn_mini::{NodeReply, Part, PartItem, Request, SharedBytes};
use mn_node::Node;
use std::alloc::Global;
use std::test::Fail;

/// The bytes of a write.
const SIZE: usize = 4_096;

/// And those of a record of eight writes in the log: a gate, the length, and the body.
const RECORD: usize = 32_857;

/// So many records have 1,048,576 bytes or more.
const LONG: u32 = 32;

/// One of three places.
fn place(number: u32) -> u32
    ensures { result ≤ 86_016 }
{
    20_480 + 32_768 * (number % 3)
}

fn write_at(alloc: Global, start: u32, byte: u8) -> Result<PartItem, Fail>
    requires { start < 200_000 }
    ensures inside { IfOk result IsPartItem }
    ensures kind { IfOk result (λ item. kind_of item ≡ 3) }
{
    let bytes = SharedBytes::copy_of(alloc, &[byte; SIZE])?;
    Ok(PartItem::Write { start, bytes })
}

/// Eight writes of one byte, over and over, from the place of this number on.
fn block(alloc: Global, number: u32) -> Result<Part, Fail>
    ensures { IfOk result IsPart }
{
    let start = place(number);
    let byte = (number % 251) as u8;
    let mut items = Vec::new(alloc);
    for item in 0..8 {
        items.push(write_at(alloc, start + 4_096 * item, byte)?)?;
    }
    Ok(Part::from_vec(alloc, items)?)
}

/// What the node says to the write of this number.
fn write(
    alloc: Global,
    node: &mut Node<MemoryDisk>,
    number: u32,
    stop: Option<StopAt>,
) -> Result<NodeReply, Fail>
    requires few { number < 1_000 }
{
    let tid = Tid {
        run: 1,
        client: ClientNo(2),
        serial: number + 1,
    };
    let part = block(alloc, number)?;
    Ok(node.handle(alloc, &Request::Exec { tid, part }, stop))
}

fn is_done(reply: &NodeReply) -> bool {
    match reply {
        NodeReply::Done { .. } => true,
        _ => false,
    }
}

fn is_stopped(reply: &NodeReply) -> bool {
    match reply {
        NodeReply::Stopped => true,
        _ => false,
    }
}

/// Whether the writes from one number to another are done.
fn writes(alloc: Global, node: &mut Node<MemoryDisk>, from: u32, to: u32) -> Result<bool, Fail>
    requires few { to < 1_000 }
{
    for number in from..to {
        if !is_done(&write(alloc, node, number, None)?) {
            return Ok(false);
        }
    }
    Ok(true)
}

/// Whether the node shows the write of this number.
fn shows(alloc: Global, node: &mut Node<MemoryDisk>, number: u32) -> Result<bool, Fail> {
    let request = Request::Peek {
        start: place(number),
        length: 1,
    };
    match node.handle(alloc, &request, None) {
        NodeReply::Peeked { bytes } => Ok(bytes.as_slice() == [(number % 251) as u8].as_slice()),
        _ => Ok(false),
    }
}

/// Whether it shows the last three of so many.
fn shows_last(alloc: Global, node: &mut Node<MemoryDisk>, count: u32) -> Result<bool, Fail>
    requires some { 3 ≤ count }
{
    Ok(
        shows(alloc, node, count - 3)?
            && shows(alloc, node, count - 2)?
            && shows(alloc, node, count - 1)?,
    )
}

/// A node with a long log, on a disk whose call of this number fails.
fn with_long_log(alloc: Global, fails: u64) -> Result<Node<MemoryDisk>, Fail> {
    let mut node = start(alloc, &[fails])?;
    if !writes(alloc, &mut node, 0, LONG)? {
        return Err(Fail::new("not written"));
    }
    Ok(node)
}

const NEVER: u64 = 1 << 40;

/// How many records its log has then, and how many bytes its disk.
fn closes(alloc: Global, node: Node<MemoryDisk>) -> Result<(Option<u32>, usize), Fail> {
    let disk = node.close();
    let bytes = disk.content().len();
    Ok((left_by(alloc, disk, 0)?, bytes))
}

#[test]
fn a_long_log_is_shortened(rt: HostRuntime) -> Result<(), Fail> {
    let alloc = rt.alloc();
    let mut node = with_long_log(alloc, NEVER)?;
    assert!(rt; writes(alloc, &mut node, LONG, 40)? && shows_last(alloc, &mut node, 40)?);
    assert!(rt; node.records().len() == 40);
    node.halt();
    assert!(rt; restart(alloc, &mut node) == Some(false) && shows_last(alloc, &mut node, 40)?);
    // Behind the old list and its closed gate stand three records and what came then.
    let closed = closes(alloc, node)?;
    assert!(rt;
        closed == (Some(11), 80 + 32 * RECORD + 1 + 11 * RECORD + 1),
        "{closed:?}"
    );
    Ok(())
}

#[test]
fn a_log_is_shortened_again(rt: HostRuntime) -> Result<(), Fail> {
    let alloc = rt.alloc();
    let mut node = with_long_log(alloc, NEVER)?;
    assert!(rt; writes(alloc, &mut node, LONG, 80)? && shows_last(alloc, &mut node, 80)?);
    // The second time there is room in front, and the disk is cut.
    let closed = closes(alloc, node)?;
    assert!(rt; closed == (Some(19), 80 + 19 * RECORD + 1), "{closed:?}");
    Ok(())
}

#[test]
fn a_log_is_shortened_behind_a_restart(rt: HostRuntime) -> Result<(), Fail> {
    let alloc = rt.alloc();
    let mut node = with_long_log(alloc, NEVER)?;
    node.halt();
    assert!(rt; restart(alloc, &mut node) == Some(false));
    assert!(rt; writes(alloc, &mut node, LONG, 34)? && shows_last(alloc, &mut node, 34)?);
    // The log was read again, so its tail is all of it.
    assert!(rt; closes(alloc, node)?.0 == Some(5));
    Ok(())
}

#[test]
fn a_stop_at_a_record_is_behind_the_shortening(rt: HostRuntime) -> Result<(), Fail> {
    let alloc = rt.alloc();
    for (stop, left) in [(StopAt::Before, 3), (StopAt::Half, 3), (StopAt::After, 4)] {
        let mut node = with_long_log(alloc, NEVER)?;
        assert!(rt; is_stopped(&write(alloc, &mut node, LONG, Some(stop))?));
        assert!(rt; restart(alloc, &mut node) == Some(left == 4));
        assert!(rt; closes(alloc, node)?.0 == Some(left));
    }
    Ok(())
}

/// Whether a node says these, shows the last three of so many writes, and does so again when it was
/// halted and restarted.
fn goes_on_saying(
    alloc: Global,
    node: &mut Node<MemoryDisk>,
    rows: &[Said],
    count: u32,
) -> Result<bool, Fail>
    requires some { 3 ≤ count }
{
    if !says_all(alloc, node, rows)? || !shows_last(alloc, node, count)? {
        return Ok(false);
    }
    node.halt();
    if restart(alloc, node) != Some(false) {
        return Ok(false);
    }
    Ok(says_all(alloc, node, rows)? && shows_last(alloc, node, count)?)
}

const VOTE_AND_REFUSAL: &[Said] = &[
    (Prepare(3, 1, Write(20, 0x61)), YES),
    (Force(3, 2), "Vote { yes: false }"),
];

const IS_HELD: &[Said] = &[
    (
        Prepare(4, 1, Write(20, 1)),
        "BadLock { start: 20, length: 1, holder: Tid { run: 1, client: ClientNo(3), serial: 1 } }",
    ),
    (Prepare(3, 2, Read(0, 1)), "BadForced"),
    (
        List,
        "Tid { run: 1, client: ClientNo(3), serial: 1 } is held at [NodeNo(0), NodeNo(1)]",
    ),
    (Peek(20, 1), "Peeked { bytes: SharedBytes { bytes: [0] } }"),
    (Force(3, 1), "Vote { yes: true }"),
];

const IS_DECIDED: &[Said] = &[
    (Peek(20, 1), "Peeked { bytes: SharedBytes { bytes: [97] } }"),
    (Prepare(3, 2, Read(0, 1)), "BadForced"),
    (
        Prepare(4, 1, Compare(20, 0)),
        "BadCompare { item: 0, found: Bytes { bytes: [97] } }",
    ),
    (Force(3, 1), "Vote { yes: true }"),
];

#[test]
fn a_vote_is_held_across_shortenings_and_restarts(rt: HostRuntime) -> Result<(), Fail> {
    let alloc = rt.alloc();
    let mut node = start(alloc, &[])?;
    assert!(rt; says_all(alloc, &mut node, VOTE_AND_REFUSAL)?);
    assert!(rt; writes(alloc, &mut node, 0, 33)?);
    assert!(rt; goes_on_saying(alloc, &mut node, IS_HELD, 33)?);
    assert!(rt; writes(alloc, &mut node, 33, 70)?);
    assert!(rt; goes_on_saying(alloc, &mut node, IS_HELD, 70)?);
    assert!(rt; says_all(alloc, &mut node, &[(Decide(3, 1, true), "Decided")])?);
    assert!(rt; goes_on_saying(alloc, &mut node, IS_DECIDED, 70)?);
    assert!(rt; node.records().len() == 73);
    // The second time the log is shortened before write 61: the vote, the refusal, the four writes
    // from the first time and 28 behind the restart are long. Three writes are left then, and nine
    // and the decision come.
    assert!(rt; closes(alloc, node)?.0 == Some(15));
    Ok(())
}

/// Three calls read the disk, eight write its header, and four write each record.
const CALLS: u64 = 11 + 4 * 32;

/// How many records a node has that stopped in the write behind the long log, and was restarted:
/// one more where that is there, which it isn't while the log is shortened.
fn records_after(there: bool, call: u64) -> Option<usize> {
    if !there {
        return Some(32);
    }
    if call < 8 {
        return None;
    }
    Some(33)
}

/// Whether it goes on, and so many records are left whatever a crash chooses then: three remain of
/// the first 32, and the one that may be there is written over.
fn goes_on(
    alloc: Global,
    node: Node<MemoryDisk>,
    records: usize,
    choice: u64,
) -> Result<bool, Fail> {
    let mut node = node;
    if node.records().len() != records {
        return Ok(false);
    }
    if !writes(alloc, &mut node, 33, 37)? {
        return Ok(false);
    }
    if !goes_on_saying(alloc, &mut node, &[], 37)? {
        return Ok(false);
    }
    let left = if records == 33 { 8 } else { 7 };
    Ok(left_by(alloc, node.close(), choice)? == Some(left))
}

/// Whether a node whose disk fails at a call of the shortening or of the record behind it stops,
/// and is restarted and goes on.
fn fails_at(alloc: Global, call: u64, choice: u64) -> Result<bool, Fail>
    requires few { call < 100 }
{
    let mut node = with_long_log(alloc, CALLS + call)?;
    if !is_stopped(&write(alloc, &mut node, LONG, None)?) {
        return Ok(false);
    }
    let Some(there) = restart(alloc, &mut node) else {
        return Ok(false);
    };
    match records_after(there, call) {
        Some(records) => goes_on(alloc, node, records, choice),
        None => Ok(false),
    }
}

#[test]
fn a_disk_that_fails_while_a_log_is_shortened_stops_the_node(rt: HostRuntime) -> Result<(), Fail> {
    for call in 0..11 {
        assert!(rt; fails_at(rt.alloc(), call, call % 4)?, "call {call}");
    }
    Ok(())
}

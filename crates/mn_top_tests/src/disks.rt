//! Disks that are used, damaged, or fail.
use crate::program::{Ran, disk_of, fresh_disks, replay};
use mn_base::{NoMemory, NodeNo};
use mn_memdisk::MemoryDisk;
use mn_redo::Redo;
use std::alloc::Global;
use std::sync::Wait;
use std::test::Fail;
use std::thread::Threads;

const PUT_AND_GET: &str = "nodes 1\nclient a\nput main k v\nget main k\n";

const GET: &str = "nodes 1\nclient a\nget main k\n";

const V_IS_THERE: &str =
    "a 1 ok =v\nhistory 1\n1 a 1\nversion main - writable 1 3a0511d85eacbbdd36deb83b3e4a9e8abe6bae92f89157155b49ae03a628c1ad\nend\n";

const NOTHING_IS_THERE: &str =
    "a 1 ok -\nhistory 1\n1 a 1\nversion main - writable 0 e3b0c44298fc1c149afbf4c8996fb92427ae41e4649b934ca495991b7852b855\nend\n";

/// One disk with these bytes, whose calls with these numbers fail.
pub fn one_disk(alloc: Global, content: &[u8], fails: &[u64]) -> Result<Vec<MemoryDisk>, NoMemory> {
    let mut disks = Vec::new(alloc);
    disks.push(disk_of(alloc, content, fails)?)?;
    Ok(disks)
}

/// Whether a replay of a get on one disk with these bytes ends with this status and text.
fn get_prints<T: Threads + Wait + Sync + AllocGlobal>(
    rt: &T,
    content: &[u8],
    status: u8,
    written: &str,
) -> Result<bool, Fail> {
    let ran = replay(rt, GET, one_disk(rt.alloc(), content, &[])?)?;
    Ok(ran.ended(status, written))
}

/// The bytes of a fresh disk after one put and one get.
pub fn used<T: Threads + Wait + Sync + AllocGlobal>(rt: &T) -> Result<Vec<u8>, Fail> {
    let ran = replay(rt, PUT_AND_GET, fresh_disks(rt.alloc(), 1)?)?;
    Ok(ran.content(0).to_vec(rt.alloc())?)
}

/// The front of that disk: the header, two closed areas, and the record.
const FRONT: &[u8] = &[
    1, 0x4d, 0x4e, 0x4c, 0x4f, 0x47, 2, 0, 1, 0, 0, 0, 0, 0, 0, 0, 0, 0, 0, 0, 0, 0, 0, 0, 0, 0, 0,
    0, 0, 0, 0, 0, 0, 0, 0, 0, 0, 0, 0, 0, 0, 0, 0, 0, 0, 0, 0, 0, 0, 0, 0, 0, 0, 0, 0, 0, 0, 0, 0,
    0, 0, 0, 0, 0, 0, 0, 0, 0, 0, 0, 0, 0, 0, 0, 0, 0, 0, 0, 0, 0, 1, 0, 0, 0x04, 0x37, 2, 0, 0, 0,
    1, 0, 0, 0, 0, 2, 0, 3, 1, 0, 0, 0x50, 0, 0, 0, 0, 8,
];

#[test]
fn a_log_begins_with_its_header_and_the_first_put(rt: HostRuntime) -> Result<(), Fail> {
    let bytes = used(&rt)?;
    assert!(rt; bytes.len() == 1_165 && bytes.starts_with(FRONT));
    Ok(())
}

/// How many bytes are left of that disk, its first gate, and the status and the text on it.
type Cut = (usize, u8, u8, &'static str);

const CUTS: &[Cut] = &[
    (1_165, 1, 0, V_IS_THERE),
    (1_165, 0, 0, NOTHING_IS_THERE),
    (81, 0, 0, NOTHING_IS_THERE),
    (1_000, 0, 0, NOTHING_IS_THERE),
    (1_000, 1, 6, "damaged 0 80 log\n"),
    (80, 1, 0, NOTHING_IS_THERE),
    (16, 1, 0, NOTHING_IS_THERE),
];

fn is_read_again<T: Threads + Wait + Sync + AllocGlobal>(rt: &T, cut: &Cut) -> Result<bool, Fail> {
    let (length, gate, status, written) = cut;
    let mut content = used(rt)?;
    if content.len() > 80 {
        content[80] = *gate;
    }
    content.truncate(*length);
    get_prints(rt, &content, *status, written)
}

#[test]
fn a_log_is_read_again(rt: HostRuntime) -> Result<(), Fail> {
    for cut in CUTS {
        assert!(rt; is_read_again(&rt, cut)?);
    }
    Ok(())
}

/// The header of the one node's log, and two closed areas.
const HEADER: [u8; 80] = [
    1, 0x4d, 0x4e, 0x4c, 0x4f, 0x47, 2, 0, 1, 0, 0, 0, 0, 0, 0, 0, 0, 0, 0, 0, 0, 0, 0, 0, 0, 0, 0,
    0, 0, 0, 0, 0, 0, 0, 0, 0, 0, 0, 0, 0, 0, 0, 0, 0, 0, 0, 0, 0, 0, 0, 0, 0, 0, 0, 0, 0, 0, 0, 0,
    0, 0, 0, 0, 0, 0, 0, 0, 0, 0, 0, 0, 0, 0, 0, 0, 0, 0, 0, 0, 0,
];

/// Behind a header, the whole record of an id of client 0's serial 1 in run 1, of this kind, and an
/// open gate with nothing behind it.
fn damaged_behind(alloc: Global, kind: u8) -> Result<Vec<u8>, Fail> {
    let mut content = HEADER.to_vec(alloc)?;
    content.extend_from_slice(&[1, 0, 0, 0, 10, kind, 0, 0, 0, 1, 0, 0, 0, 0, 1, 1])?;
    Ok(content)
}

#[test]
fn the_lower_one_of_two_faults_is_told(rt: HostRuntime) -> Result<(), Fail> {
    // A Forced record, and one of a kind that there is not.
    for (kind, written) in [(4, "damaged 0 95 log\n"), (9, "damaged 0 80 log\n")] {
        let content = damaged_behind(rt.alloc(), kind)?;
        assert!(rt; get_prints(&rt, &content, 6, written)?);
    }
    Ok(())
}

/// The gate of an area, and where it is told.
const AREAS: [(usize, &str); 2] = [(16, "damaged 0 16 log\n"), (48, "damaged 0 48 log\n")];

#[test]
fn an_open_area_without_a_number_is_damage(rt: HostRuntime) -> Result<(), Fail> {
    for (gate, written) in AREAS {
        let mut content = used(&rt)?;
        if gate < content.len() {
            content[gate] = 1;
        }
        assert!(rt; get_prints(&rt, &content, 6, written)?);
    }
    Ok(())
}

#[test]
fn a_log_of_format_1_is_refused(rt: HostRuntime) -> Result<(), Fail> {
    let mut content = used(&rt)?;
    if content.len() > 6 {
        content[6] = 1;
    }
    assert!(rt; get_prints(&rt, &content, 6, "damaged 0 0 log\n")?);
    Ok(())
}

const PUT: &str = "nodes 1\nclient a\nput main k w\n";

const WORN: &str =
    "a 1 worn 0 20480\nhistory 0\nversion main - writable 1 3a0511d85eacbbdd36deb83b3e4a9e8abe6bae92f89157155b49ae03a628c1ad\nend\n";

/// The used disk, where the leaf in the first slot has the last sequence number: its page ends the
/// record, before the closed gate.
fn worn<T: Threads + Wait + Sync + AllocGlobal>(rt: &T) -> Result<Vec<u8>, Fail> {
    let mut content = used(rt)?;
    if content.len() > 1_025 {
        let page = content.len() - 1_025;
        for byte in &mut content[page..page + 8] {
            *byte = 0xff;
        }
    }
    Ok(content)
}

#[test]
fn a_page_with_the_last_number_is_worn(rt: HostRuntime) -> Result<(), Fail> {
    let content = worn(&rt)?;
    let ran = replay(&rt, PUT, one_disk(rt.alloc(), &content, &[])?)?;
    assert!(rt; ran.ended(0, WORN));
    assert!(rt; ran.content(0) == content.as_slice());
    Ok(())
}

/// The used disk without its last byte, and its one record again.
fn with_two_records<T: Threads + Wait + Sync + AllocGlobal>(rt: &T) -> Result<Vec<u8>, Fail> {
    let mut content = used(rt)?;
    let bytes = used(rt)?;
    content.truncate(1_164);
    if bytes.len() > 80 {
        content.extend_from_slice(&bytes[80..])?;
    }
    Ok(content)
}

/// An execution is the only record of its id: the first of the two is none already.
#[test]
fn a_record_that_stands_twice_is_told(rt: HostRuntime) -> Result<(), Fail> {
    assert!(rt; get_prints(&rt, &with_two_records(&rt)?, 6, "damaged 0 0 votes\n")?);
    Ok(())
}

/// The used disk, with this last byte of the number of its run.
fn of_run<T: Threads + Wait + Sync + AllocGlobal>(rt: &T, last: u8) -> Result<Vec<u8>, Fail> {
    let mut content = used(rt)?;
    if content.len() > 89 {
        content[86] = 0xff;
        content[87] = 0xff;
        content[88] = 0xff;
        content[89] = last;
    }
    Ok(content)
}

#[test]
fn a_log_without_a_number_for_a_run_is_told(rt: HostRuntime) -> Result<(), Fail> {
    for (last, status, written) in [(0xfd, 0, V_IS_THERE), (0xfe, 6, "damaged 0 0 runs\n")] {
        let content = of_run(&rt, last)?;
        assert!(rt; get_prints(&rt, &content, status, written)?);
    }
    Ok(())
}

/// How many records what a crash leaves of a disk has; none if it is no log.
fn left_of(alloc: Global, disk: MemoryDisk, choice: u64) -> Result<Option<u32>, Fail> {
    match Redo::open(alloc, disk.crash(alloc, choice)?, NodeNo(0), 1) {
        Ok(log) => Ok(Some(log.count())),
        Err(_failed) => Ok(None),
    }
}

/// Whether a put and a get on a disk whose call of this number fails end with the status that is
/// due, and a crash then leaves one record or none.
fn leaves_one_or_none<T: Threads + Wait + Sync + AllocGlobal>(
    rt: &T,
    call: u64,
    choice: u64,
) -> Result<bool, Fail> {
    let mut ran = replay(rt, PUT_AND_GET, one_disk(rt.alloc(), &[], &[call])?)?;
    // Three calls open the disk, eight write its header; then the put begins.
    if ran.outcome.status != (if call < 11 { 5 } else { 0 }) {
        return Ok(false);
    }
    match ran.outcome.disks.pop() {
        Some(disk) => Ok(matches!(left_of(rt.alloc(), disk, choice)?, Some(0 | 1))),
        None => Ok(false),
    }
}

/// Of a change that no sync made stable the choices leave nothing, all, the first half and the
/// second.
#[test]
fn a_disk_that_fails_leaves_the_put_or_nothing(rt: HostRuntime) -> Result<(), Fail> {
    for call in 0..15 {
        for choice in 0..4 {
            assert!(rt; leaves_one_or_none(&rt, call, choice)?, "at call {call}");
        }
    }
    Ok(())
}

/// A transaction over two nodes, behind nine puts that split the root.
const OVER_TWO_NODES: &str =
    "nodes 2\nclient s\nput main k1 v\nput main k2 v\nput main k3 v\nput main k4 v\nput main k5 v\nput main k6 v\nput main k7 v\nput main k8 v\nput main k9 v\ntx main check k1 is v ; put k1 w ; put k5 w\ntx main check k1 is v ; put k5 x\n";

/// The same with a stop behind the vote of one node, and a recovery.
const STOPS_AFTER: &str =
    "nodes 2\nrecoverers 1\nclient s\nput main k1 v\nput main k2 v\nput main k3 v\nput main k4 v\nput main k5 v\nput main k6 v\nput main k7 v\nput main k8 v\nput main k9 v\nclient a\ntx main put k1 x ; put k5 x\nclient b\nget main k1\nget main k5\nstop 1 a 1 after\nschedule\nall s\ngo a\nrestart 1\nrecover 1 a\nall b\n";

const GET_BOTH: &str = "nodes 2\nclient a\nget main k1\nget main k5\nget main k9\n";

/// Two fresh disks, of which one's call of this number fails.
fn two_disks(alloc: Global, node: usize, call: u64) -> Result<Vec<MemoryDisk>, NoMemory> {
    let mut disks = Vec::new(alloc);
    for number in 0..2 {
        if number == node {
            disks.push(disk_of(alloc, &[], &[call])?)?;
        } else {
            disks.push(disk_of(alloc, &[], &[])?)?;
        }
    }
    Ok(disks)
}

/// Whether the bytes have this part.
fn has_part(bytes: &[u8], part: &[u8]) -> bool {
    for at in 0..bytes.len() {
        if bytes[at..].starts_with(part) {
            return true;
        }
    }
    false
}

/// Disks with the bytes of these, of which no call fails.
fn mended(alloc: Global, disks: &[MemoryDisk]) -> Result<Vec<MemoryDisk>, NoMemory> {
    let mut sound = Vec::new(alloc);
    for disk in disks {
        sound.push(disk_of(alloc, disk.content(), &[])?)?;
    }
    Ok(sound)
}

/// What was replied to is read again from the bytes of the disks that are handed back.
fn is_there_again<T: Threads + Wait + Sync + AllocGlobal>(
    rt: &T,
    ran: &Ran,
    reply: &[u8],
    found: &[u8],
) -> Result<bool, Fail> {
    let again = replay(rt, GET_BOTH, mended(rt.alloc(), &ran.outcome.disks)?)?;
    let was_told = has_part(ran.sink.written(), reply);
    let is_found = has_part(again.sink.written(), found);
    Ok(again.outcome.status == 0 && (is_found || !was_told))
}

/// A script, the reply that it may print, and what is then found in it.
type Kept = (&'static str, &'static [u8], &'static [u8]);

const KEPT: &[Kept] = &[
    (OVER_TWO_NODES, b"s 10 ok\n", b"a 1 ok =w\na 2 ok =w\n"),
    (STOPS_AFTER, b"\nb 1 ok =x\n", b"a 1 ok =x\na 2 ok =x\n"),
];

/// Whether the script ends well, or with a fault of a disk, where this call of a node's disk fails,
/// and what it replied to is there again.
fn is_kept<T: Threads + Wait + Sync + AllocGlobal>(
    rt: &T,
    kept: &Kept,
    node: usize,
    call: u64,
) -> Result<bool, Fail> {
    let (script, reply, found) = kept;
    let ran = replay(rt, script, two_disks(rt.alloc(), node, call)?)?;
    if ran.outcome.status != 0 && ran.outcome.status != 5 {
        return Ok(false);
    }
    is_there_again(rt, &ran, reply, found)
}

/// Whether both scripts are kept so.
fn are_kept<T: Threads + Wait + Sync + AllocGlobal>(
    rt: &T,
    node: usize,
    call: u64,
) -> Result<bool, Fail> {
    for kept in KEPT {
        if !is_kept(rt, kept, node, call)? {
            return Ok(false);
        }
    }
    Ok(true)
}

#[test]
fn what_was_replied_to_is_there_again(rt: HostRuntime) -> Result<(), Fail> {
    for node in 0..2 {
        for call in 0..70 {
            assert!(rt; are_kept(&rt, node, call)?, "at call {call} of {node}");
        }
    }
    Ok(())
}

/// The page of the root that has split: sequence 10, inner, one level up, with two children.
const ROOT: &[u8] = &[
    0, 0, 0, 0, 0, 0, 0, 10, 2, 0, 1, 0, 0, 0, 0, 0, 0, 0, 0, 0, 0, 0, 2, 1, 0, 0, 2, b'k', b'5',
    0, 0, 1,
];

#[test]
fn a_split_root_keeps_its_slot(rt: HostRuntime) -> Result<(), Fail> {
    let ran = replay(&rt, OVER_TWO_NODES, fresh_disks(rt.alloc(), 2)?)?;
    assert!(rt; has_part(ran.content(0), ROOT));
    Ok(())
}

/// How many records a log of two nodes has, whose bytes these are; none if they are no log.
fn records_in(alloc: Global, content: &[u8], node: u8) -> Result<Option<u32>, Fail> {
    match Redo::open(alloc, disk_of(alloc, content, &[])?, NodeNo(node), 2) {
        Ok(log) => Ok(Some(log.count())),
        Err(_failed) => Ok(None),
    }
}

/// Nine puts that split the root, and one into the left leaf, which stands on node 1.
const PUT_ON_NODE_1: &str =
    "nodes 2\nclient s\nput main k1 v\nput main k2 v\nput main k3 v\nput main k4 v\nput main k5 v\nput main k6 v\nput main k7 v\nput main k8 v\nput main k9 v\nput main k1 w\n";

/// The last put takes no part of node 0, since each node has the entry of its version.
#[test]
fn a_put_is_one_record_of_the_leafs_node(rt: HostRuntime) -> Result<(), Fail> {
    let ran = replay(&rt, PUT_ON_NODE_1, fresh_disks(rt.alloc(), 2)?)?;
    assert!(rt; records_in(rt.alloc(), ran.content(0), 0)? == Some(10));
    assert!(rt; records_in(rt.alloc(), ran.content(1), 1)? == Some(3));
    Ok(())
}

/// Nine puts, two children of `main`, and a put into each.
const TWO_CHILDREN: &str =
    "nodes 2\nclient s\nput main k1 v\nput main k2 v\nput main k3 v\nput main k4 v\nput main k5 v\nput main k6 v\nput main k7 v\nput main k8 v\nput main k9 v\nsnapshot main m2\nbranch main x\nput m2 k5 a\nput x k5 b\n";

/// What is written to node 0 at last: the count, the entries of the three versions, the root and
/// the right leaf of `main`, and the copies for `x`, which stand in the two slots behind them.
const WRITTEN_TO_0: [&[u8]; 8] = [
    b"\0\0\0\0\0\0\0\x04",
    b"\0\0\0\0\0\0\0\x02\x02\xff\0\0\0\x04main\0",
    b"\0\0\0\0\0\0\0\x01\x01\0\x01\0\x01\x02m2\0",
    b"\0\0\0\0\0\0\0\x01\x01\0\0\0\x02\x01x\0",
    b"\0\0\0\0\0\0\0\x0c\x02\0\x01\0\0\0\0\0\0\0\0\x06\0\0\x02\x01\0\0\x02k5\0\0\x01\0",
    b"\0\0\0\0\0\0\0\x03\x01\0\0\0\0\0\0\0\0\0\0\x06\x02k5\0\x05\x02k5\x01v\x02k6\x01v",
    b"\0\0\0\0\0\0\0\x02\x02\0\x01\x02\0\0\0\0\0\0\0\0\0\0\x02\x01\0\0\x02k5\0\0\x03\0",
    b"\0\0\0\0\0\0\0\x01\x01\0\0\x02\0\0\0\0\0\0\0\0\x02k5\0\x05\x02k5\x01b\x02k6\x01v",
];

/// What is written to node 1 at last: the count, the same entries, the left leaf of `main`, which
/// all three share, and the copies for `m2`.
const WRITTEN_TO_1: [&[u8]; 7] = [
    b"\0\0\0\0\0\0\0\x03",
    b"\0\0\0\0\0\0\0\x02\x02\xff\0\0\0\x04main\0",
    b"\0\0\0\0\0\0\0\x01\x01\0\x01\0\x01\x02m2\0",
    b"\0\0\0\0\0\0\0\x01\x01\0\0\0\x02\x01x\0",
    b"\0\0\0\0\0\0\0\x01\x01\0\0\0\0\0\0\0\0\0\0\0\0\x01\x02k5\x04\x02k1\x01v\x02k2\x01v",
    b"\0\0\0\0\0\0\0\x02\x02\0\x01\x01\0\0\0\0\0\0\0\0\0\0\x02\x01\0\0\x02k5\x01\0\x02\0",
    b"\0\0\0\0\0\0\0\x01\x01\0\0\x01\0\0\0\0\0\0\0\0\x02k5\0\x05\x02k5\x01a\x02k6\x01v",
];

/// The first of the parts that the bytes lack.
fn first_lacking(bytes: &[u8], parts: &[&[u8]]) -> Option<usize> {
    for (place, part) in parts.iter().enumerate() {
        if !has_part(bytes, part) {
            return Some(place);
        }
    }
    None
}

#[test]
fn versions_share_what_they_have_not_changed(rt: HostRuntime) -> Result<(), Fail> {
    let ran = replay(&rt, TWO_CHILDREN, fresh_disks(rt.alloc(), 2)?)?;
    assert!(rt; first_lacking(ran.content(0), &WRITTEN_TO_0) == None);
    assert!(rt; first_lacking(ran.content(1), &WRITTEN_TO_1) == None);
    Ok(())
}

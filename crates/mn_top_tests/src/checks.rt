//! Checks of disks: of a store, of damaged disks, and of disks that fail.
use crate::disks::used;
use crate::program::{Given, Ran, disk_of, fresh_disks, nodes_word, replay, run};
use mn_memdisk::MemoryDisk;
use std::alloc::Global;
use std::sync::Wait;
use std::test::Fail;
use std::thread::Threads;

const NOTHING: &str =
    "check yes\nversion main - writable 0 e3b0c44298fc1c149afbf4c8996fb92427ae41e4649b934ca495991b7852b855\nend\n";

/// Checks these disks. The source would fail if it were called.
pub fn check<T: Threads + Wait + Sync + AllocGlobal>(
    rt: &T,
    disks: Vec<MemoryDisk>,
) -> Result<Ran, Fail> {
    let words = ["check", nodes_word(disks.len()), "d"];
    let given = Given {
        script: "",
        source_fails: &[0],
        sink_fails: &[],
    };
    run(rt, &words, &given, disks)
}

/// A record of a node: how its body begins, and how many zeros end it.
type Body = (u8, &'static [u8], usize);

/// The log of a node, of so many nodes, with its records among these.
fn log_of(alloc: Global, node: u8, nodes: u8, bodies: &[Body]) -> Result<Vec<u8>, Fail> {
    let mut log = Vec::new(alloc);
    log.extend_from_slice(b"\x01MNLOG\x02")?;
    log.push(node)?;
    log.push(nodes)?;
    log.extend_from_slice(&[0; 71])?;
    for (owner, front, zeros) in bodies {
        if *owner == node {
            let mut body = front.to_vec(alloc)?;
            body.resize(front.len().saturating_add(*zeros), 0)?;
            log.push(1)?;
            log.extend_from_slice(&(body.len() as u64).to_be_bytes()[4..])?;
            log.extend_from_slice(&body)?;
        }
    }
    log.push(0)?;
    Ok(log)
}

/// Disks with these logs.
fn logs_of(alloc: Global, nodes: u8, bodies: &[Body]) -> Result<Vec<MemoryDisk>, Fail> {
    let mut disks = Vec::new(alloc);
    for node in 0..nodes {
        let log = log_of(alloc, node, nodes, bodies)?;
        disks.push(disk_of(alloc, &log, &[])?)?;
    }
    Ok(disks)
}

/// Executions of id 1.0.1 that write a byte of the header, a count of 4,097 and one of 2, and zeros
/// over a slot and over an entry.
const HEADER_BYTE: &[u8] = b"\x02\0\0\0\x01\0\0\0\0\x01\0\x01\x03\0\0\0\x09\0\0\0\x01\x01";

const COUNT_4097: &[u8] =
    b"\x02\0\0\0\x01\0\0\0\0\x01\0\x01\x03\0\0\0\x10\0\0\0\x08\0\0\0\0\0\0\x10\x01";

const COUNT_2: &[u8] =
    b"\x02\0\0\0\x01\0\0\0\0\x01\0\x01\x03\0\0\0\x10\0\0\0\x08\0\0\0\0\0\0\0\x02";

const SLOT: &[u8] = b"\x02\0\0\0\x01\0\0\0\0\x01\0\x01\x03\0\0\x50\0\0\0\x04\0";

const ENTRY: &[u8] = b"\x02\0\0\0\x01\0\0\0\0\x01\0\x01\x03\0\0\0\x40\0\0\0\x40";

/// A vote for 1.0.1 of nodes 0 and 1, which reads the count, and decisions of it.
const VOTED: &[u8] = b"\x01\0\0\0\x01\0\0\0\0\x01\x02\0\x01\0\x01\x02\0\0\0\x10\0\0\0\x08";

const YES: &[u8] = b"\x03\0\0\0\x01\0\0\0\0\x01\x01";

const NO: &[u8] = b"\x03\0\0\0\x01\0\0\0\0\x01\0";

/// How many bytes are left of a disk with one put, its first gate, and the status and the text.
type Cut = (usize, u8, u8, &'static str);

const ONE_PAIR: &str =
    "check yes\nversion main - writable 1 3a0511d85eacbbdd36deb83b3e4a9e8abe6bae92f89157155b49ae03a628c1ad\nend\n";

const CUTS: &[Cut] = &[
    (1_165, 1, 0, ONE_PAIR),
    (1_165, 0, 0, NOTHING),
    (1_000, 0, 0, NOTHING),
    (1_000, 1, 6, "damaged 0 80 log\n"),
    (81, 0, 0, NOTHING),
    (16, 1, 0, NOTHING),
];

/// Whether a check of that disk ends so, and keeps its bytes.
fn ends_so<T: Threads + Wait + Sync + AllocGlobal>(rt: &T, cut: &Cut) -> Result<bool, Fail> {
    let (length, gate, status, written) = cut;
    let mut content = used(rt)?;
    if content.len() > 80 {
        content[80] = *gate;
    }
    content.truncate(*length);
    let mut disks = Vec::new(rt.alloc());
    disks.push(disk_of(rt.alloc(), &content, &[])?)?;
    let ran = check(rt, disks)?;
    Ok(ran.ended(*status, written) && ran.content(0) == content.as_slice())
}

#[test]
fn what_is_left_of_a_log_is_checked(rt: HostRuntime) -> Result<(), Fail> {
    for cut in CUTS {
        assert!(rt; ends_so(&rt, cut)?, "not {} bytes", cut.0);
    }
    Ok(())
}

/// How many nodes there are, their records, and the line.
type Damaged = (u8, &'static [Body], &'static str);

const DAMAGED: &[Damaged] = &[
    (1, &[(0, HEADER_BYTE, 0)], "damaged 0 0 header\n"),
    (1, &[(0, COUNT_4097, 0)], "damaged 0 16 count\n"),
    (1, &[(0, SLOT, 1_024)], "damaged 0 64 root\n"),
    (1, &[(0, COUNT_2, 0)], "damaged 0 21504 page\n"),
    (2, &[(1, ENTRY, 64)], "damaged 1 64 entry\n"),
    (2, &[(0, YES, 0)], "damaged 0 0 votes\n"),
    (
        2,
        &[(0, VOTED, 0), (0, YES, 0), (1, VOTED, 0), (1, NO, 0)],
        "damaged 0 1 both\n",
    ),
];

/// Whether disks with these logs are told to be damaged so, and keep their bytes.
fn is_told<T: Threads + Wait + Sync + AllocGlobal>(
    rt: &T,
    damaged: &Damaged,
) -> Result<bool, Fail> {
    let (nodes, bodies, written) = damaged;
    let ran = check(rt, logs_of(rt.alloc(), *nodes, bodies)?)?;
    for node in 0..*nodes {
        if ran.content(node as usize) != log_of(rt.alloc(), node, *nodes, bodies)?.as_slice() {
            return Ok(false);
        }
    }
    Ok(ran.ended(6, written))
}

#[test]
fn damaged_disks_are_told(rt: HostRuntime) -> Result<(), Fail> {
    for damaged in DAMAGED {
        assert!(rt; is_told(&rt, damaged)?, "not {}", damaged.2);
    }
    Ok(())
}

/// The first leaf again with sequence 2, written by the last run that there is.
const LAST_RUN: &[Body] = &[(
    0,
    b"\x02\xff\xff\xff\xfe\0\0\0\0\x01\0\x01\x03\0\0\x50\0\0\0\0\x09\0\0\0\0\0\0\0\x02\x01",
    0,
)];

#[test]
fn a_check_needs_no_number_for_a_run(rt: HostRuntime) -> Result<(), Fail> {
    let script = "nodes 1\nclient a\nget main k\n";
    let ran = replay(&rt, script, logs_of(rt.alloc(), 1, LAST_RUN)?)?;
    assert!(rt; ran.ended(6, "damaged 0 0 runs\n"));
    let ran = check(&rt, logs_of(rt.alloc(), 1, LAST_RUN)?)?;
    assert!(rt; ran.ended(0, NOTHING));
    Ok(())
}

/// Whether fresh disks hold the empty store, and stay empty.
fn are_fresh<T: Threads + Wait + Sync + AllocGlobal>(rt: &T, nodes: usize) -> Result<bool, Fail> {
    let ran = check(rt, fresh_disks(rt.alloc(), nodes)?)?;
    for node in 0..nodes {
        if !ran.content(node).is_empty() {
            return Ok(false);
        }
    }
    Ok(ran.ended(0, NOTHING) && ran.outcome.disks.len() == nodes)
}

#[test]
fn fresh_disks_stay_empty(rt: HostRuntime) -> Result<(), Fail> {
    for nodes in [1, 2, 3, 8] {
        assert!(rt; are_fresh(&rt, nodes)?, "not {nodes}");
    }
    Ok(())
}

/// Two disks with these bytes, of which the calls with these numbers fail.
fn two_disks(alloc: Global, logs: [(&[u8], &[u64]); 2]) -> Result<Vec<MemoryDisk>, Fail> {
    let mut disks = Vec::new(alloc);
    for (content, fails) in logs {
        disks.push(disk_of(alloc, content, fails)?)?;
    }
    Ok(disks)
}

/// Seventeen bytes more than a header has, behind an open gate: of no log.
const NO_LOG: [u8; 97] = [1; 97];

#[test]
fn the_first_bad_disk_is_told(rt: HostRuntime) -> Result<(), Fail> {
    let rows: [([(&[u8], &[u64]); 2], u8, &str); 4] = [
        ([(&NO_LOG, &[]), (&[], &[0])], 6, "damaged 0 0 log\n"),
        ([(&[], &[0]), (&NO_LOG, &[])], 5, "disk fault 0\n"),
        ([(&[], &[]), (&NO_LOG, &[])], 6, "damaged 1 0 log\n"),
        ([(&[], &[]), (&[], &[2])], 5, "disk fault 1\n"),
    ];
    for (logs, status, written) in rows {
        let ran = check(&rt, two_disks(rt.alloc(), logs)?)?;
        assert!(rt; ran.ended(status, written), "not {written}");
    }
    Ok(())
}

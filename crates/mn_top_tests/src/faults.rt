//! Each call of a disk, of the source and of the sink that fails in turn, and all calls of the disks
//! from one on: what a crash then leaves is a store with all that was replied to.
use crate::checks::check;
use crate::histories::has_line;
use crate::program::{Given, Ran, disk_of, nodes_word, replay, run_gated};
use mn_base::{Answer, ClientNo, OpenGate, Reply, Value};
use mn_memdisk::{LastCall, MemoryDisk, StopsAfter};
use mn_runs::{Entry, Log, What};
use mn_top::Outcome;
use std::alloc::Global;
use std::sync::{Arc, Wait};
use std::test::Fail;
use std::thread::Threads;

/// The client and the number of an operation, the values that it was replied with, where not any
/// reply counts, and the line that is read ever after.
type Told = (u8, u32, &'static [&'static str], &'static str);

/// A script, one that reads what it wrote, what is read where an operation was replied to, and lines
/// that are never read.
struct Story {
    nodes: usize,
    script: &'static str,
    reads: &'static str,
    found: &'static [Told],
    never: &'static [&'static str],
}

const PUTS: Story = Story {
    nodes: 1,
    script: "nodes 1\nclient s\nput main k v\nput main l w\nget main k\n",
    reads: "nodes 1\nclient r\nget main k\nget main l\n",
    found: &[(0, 1, &[], "r 1 ok =v"), (0, 2, &[], "r 2 ok =w")],
    never: &[],
};

/// Nine puts that split the root, and two, one on each node.
const VOTES: Story = Story {
    nodes: 2,
    script: "nodes 2\nclient s\ntx main put k1 v ; put k2 v ; put k3 v ; put k4 v ; put k5 v ; put k6 v ; put k7 v ; put k8 v ; put k9 v\ntx main put k0 w ; put k91 w\n",
    reads: "nodes 2\nclient r\ntx main get k1 ; get k9\ntx main get k0 ; get k91\n",
    found: &[(0, 1, &[], "r 1 ok =v =v"), (0, 2, &[], "r 2 ok =w =w")],
    never: &["r 1 ok =v -", "r 1 ok - =v", "r 2 ok =w -", "r 2 ok - =w"],
};

const VERSIONS: Story = Story {
    nodes: 2,
    script: "nodes 2\nclient s\nput main k v\nsnapshot main m\nput m k w\nbranch main x\n",
    reads: "nodes 2\nclient r\nget main k\nget m l\nget m k\nget x l\n",
    found: &[
        (0, 1, &[], "r 1 ok =v"),
        (0, 2, &[], "r 2 ok -"),
        (0, 3, &[], "r 3 ok =w"),
        (0, 4, &[], "r 4 ok -"),
    ],
    never: &["r 1 ok =w"],
};

/// Node 1 stops behind the vote of a, is restarted, and a coordinator recovers it; then b reads both.
const STOPS: Story = Story {
    nodes: 2,
    script: "nodes 2\nrecoverers 1\nclient s\ntx main put k1 v ; put k2 v ; put k3 v ; put k4 v ; put k5 v ; put k6 v ; put k7 v ; put k8 v ; put k9 v\nclient a\ntx main put k1 x ; put k5 x\nclient b\ntx main get k1 ; get k5\nstop 1 a 1 after\nschedule\nall s\ngo a\nrestart 1\nrecover 1 a\nall b\n",
    reads: "nodes 2\nclient r\ntx main get k1 ; get k5\nget main k9\n",
    found: &[
        (0, 1, &[], "r 2 ok =v"),
        (1, 1, &[], "r 1 ok =x =x"),
        (2, 1, &["v", "v"], "r 1 ok =v =v"),
        (2, 1, &["x", "x"], "r 1 ok =x =x"),
    ],
    never: &[
        "r 1 ok =x =v",
        "r 1 ok =v =x",
        "r 1 ok =v -",
        "r 1 ok - =v",
        "r 1 ok =x -",
        "r 1 ok - =x",
    ],
};

/// Which calls fail: one of the disk of a node, all of the disks from one on, one of the source, or
/// one of the sink.
#[derive(Clone, Copy, Debug, PartialEq, Eq)]
enum Failing {
    Disk { node: usize },
    Disks,
    Source,
    Sink,
}

const FAILING: [Failing; 5] = [
    Failing::Disk { node: 0 },
    Failing::Disk { node: 1 },
    Failing::Disks,
    Failing::Source,
    Failing::Sink,
];

/// These calls, where they are to fail, and else none.
fn calls_if(fail: bool, calls: &[u64]) -> &[u64] {
    if fail { calls } else { &calls[..0] }
}

/// Fresh disks that fail so at this call.
fn failing_disks(
    alloc: Global,
    nodes: usize,
    failing: Failing,
    call: u64,
) -> Result<Vec<StopsAfter>, Fail> {
    let last = if matches!(failing, Failing::Disks) {
        call
    } else {
        u64::MAX
    };
    let last = LastCall::new(alloc, last)?;
    let mut disks = Vec::new(alloc);
    for number in 0..nodes {
        let is_here = matches!(failing, Failing::Disk { node } if node == number);
        let calls = [call];
        let fails = calls_if(is_here, &calls);
        disks.push(StopsAfter::new(disk_of(alloc, &[], fails)?, Arc::try_clone(&last)?))?;
    }
    Ok(disks)
}

/// Plays the script of a story on fresh disks, where a call fails so.
fn play_on<T: Threads + Wait + Sync + AllocGlobal>(
    rt: &T,
    story: &Story,
    failing: Failing,
    call: u64,
) -> Result<Outcome<StopsAfter>, Fail> {
    let calls = [call];
    let given = Given {
        script: story.script,
        source_fails: calls_if(matches!(failing, Failing::Source), &calls),
        sink_fails: calls_if(matches!(failing, Failing::Sink), &calls),
    };
    let disks = failing_disks(rt.alloc(), story.nodes, failing, call)?;
    let words = ["replay", nodes_word(story.nodes)];
    let (outcome, _sink) = run_gated(rt, &words, &given, disks, &OpenGate)?;
    Ok(outcome)
}

/// Whether a call of a disk failed.
fn has_failed(disks: &[StopsAfter]) -> bool {
    disks.iter().any(|disk| disk.faults() > 0)
}

/// Whether a call of the program may end with this status where such a call fails.
fn may_end(failing: Failing, status: u8) -> bool {
    match failing {
        Failing::Disk { .. } => status == 0 || status == 5,
        Failing::Disks => status == 5,
        Failing::Source => status == 3,
        Failing::Sink => status == 4,
    }
}

/// What a crash leaves of these disks. No call of theirs fails any more.
fn left_of(alloc: Global, disks: Vec<StopsAfter>, choice: u64) -> Result<Vec<MemoryDisk>, Fail> {
    let mut left = Vec::new(alloc);
    for disk in disks {
        let image = disk.into_disk().crash(alloc, choice)?;
        left.push(disk_of(alloc, image.content(), &[])?)?;
    }
    Ok(left)
}

/// Whether a value was found, and is this one.
fn is_found(found: &Option<Value>, value: &str) -> bool {
    match found {
        Some(found) => found.as_slice() == value.as_bytes(),
        None => false,
    }
}

/// Whether a reply gives these values, in their order.
fn gives(reply: &Reply, values: &[&str]) -> bool {
    let Reply::Values { found } = reply else {
        return false;
    };
    let found = found.as_slice();
    if found.len() != values.len() {
        return false;
    }
    for (found, value) in found.iter().zip(values) {
        if !is_found(found, value) {
            return false;
        }
    }
    true
}

/// Whether the operation was done, with these values where some are given.
fn is_done(reply: &Reply, values: &[&str]) -> bool {
    gives(reply, values) || values.is_empty() && matches!(reply, Reply::Values { .. } | Reply::Made)
}

/// Whether the entry tells it.
fn tells(entry: &Entry, told: &Told) -> bool {
    let (client, number, values, _line) = told;
    match &entry.what {
        What::Answered {
            number: answered,
            answer: Answer::Replied { reply },
        } => {
            *answered == *number
                && entry.client == Some(ClientNo(*client))
                && is_done(reply, values)
        }
        _ => false,
    }
}

/// Whether a log tells it.
fn was_told(log: &Log, told: &Told) -> bool {
    for place in 0..log.len() {
        if tells(log.entry(place), told) {
            return true;
        }
    }
    false
}

/// Whether a report has the line of all that was told by this log.
fn has_all_told(story: &Story, log: &Log, report: &str) -> bool {
    for told in story.found {
        if was_told(log, told) && !has_line(report, told.3) {
            return false;
        }
    }
    true
}

/// Whether a report has no line that is never read.
fn has_no_half(story: &Story, report: &str) -> bool {
    for line in story.never {
        if has_line(report, line) {
            return false;
        }
    }
    true
}

/// Whether disks hold a store in which all is that was told by this log.
fn hold_it<T: Threads + Wait + Sync + AllocGlobal>(
    rt: &T,
    story: &Story,
    log: &Log,
    disks: Vec<MemoryDisk>,
) -> Result<bool, Fail> {
    let Ran { outcome, sink } = check(rt, disks)?;
    if outcome.status != 0 || !sink.written().starts_with(b"check yes\n") {
        return Ok(false);
    }
    let Outcome { disks, .. } = outcome;
    let again = replay(rt, story.reads, disks)?;
    let report = again.text();
    Ok(again.outcome.status == 0 && has_all_told(story, log, report) && has_no_half(story, report))
}

/// What becomes of a story where a call fails so, and a crash leaves of the disks what this choice
/// says.
#[derive(Clone, Copy, Debug, PartialEq, Eq)]
enum Came {
    /// No such call is made.
    Whole,
    Kept,
    Lost,
}

fn came_of<T: Threads + Wait + Sync + AllocGlobal>(
    rt: &T,
    story: &Story,
    failing: Failing,
    call: u64,
    choice: u64,
) -> Result<Came, Fail> {
    let Outcome { status, disks, log } = play_on(rt, story, failing, call)?;
    if !has_failed(&disks) && status == 0 {
        return Ok(Came::Whole);
    }
    let disks = left_of(rt.alloc(), disks, choice)?;
    if may_end(failing, status) && hold_it(rt, story, &log, disks)? {
        return Ok(Came::Kept);
    }
    Ok(Came::Lost)
}

/// What becomes of it, whatever the crash leaves.
fn worst_of<T: Threads + Wait + Sync + AllocGlobal>(
    rt: &T,
    story: &Story,
    failing: Failing,
    call: u64,
) -> Result<Came, Fail> {
    for choice in 0..4 {
        let came = came_of(rt, story, failing, call, choice)?;
        if came != Came::Kept {
            return Ok(came);
        }
    }
    Ok(Came::Kept)
}

/// More calls than there are in a story.
const MANY: u64 = 200;

/// The first call at which something is lost, if there is one.
fn first_lost<T: Threads + Wait + Sync + AllocGlobal>(
    rt: &T,
    story: &Story,
    failing: Failing,
) -> Result<Option<u64>, Fail> {
    for call in 0..MANY {
        match worst_of(rt, story, failing, call)? {
            Came::Whole => return Ok(None),
            Came::Kept => {}
            Came::Lost => return Ok(Some(call)),
        }
    }
    Ok(Some(MANY))
}

/// The first failure at which something is lost, if there is one.
fn lost_in<T: Threads + Wait + Sync + AllocGlobal>(
    rt: &T,
    story: &Story,
) -> Result<Option<(Failing, u64)>, Fail> {
    for failing in FAILING {
        if let Some(call) = first_lost(rt, story, failing)? {
            return Ok(Some((failing, call)));
        }
    }
    Ok(None)
}

#[test]
fn a_crash_leaves_the_puts_that_were_replied_to(rt: HostRuntime) -> Result<(), Fail> {
    let lost = lost_in(&rt, &PUTS)?;
    assert!(rt; lost == None, "{lost:?}");
    Ok(())
}

#[test]
fn a_crash_leaves_all_or_nothing_of_a_vote(rt: HostRuntime) -> Result<(), Fail> {
    let lost = lost_in(&rt, &VOTES)?;
    assert!(rt; lost == None, "{lost:?}");
    Ok(())
}

#[test]
fn a_crash_leaves_the_versions_that_were_made(rt: HostRuntime) -> Result<(), Fail> {
    let lost = lost_in(&rt, &VERSIONS)?;
    assert!(rt; lost == None, "{lost:?}");
    Ok(())
}

#[test]
fn a_crash_leaves_what_was_told_of_a_stop(rt: HostRuntime) -> Result<(), Fail> {
    let lost = lost_in(&rt, &STOPS)?;
    assert!(rt; lost == None, "{lost:?}");
    Ok(())
}

//! A Snapshot that races puts at each node, stopped at each of its calls, and with stops of nodes.
use crate::histories::{Operation, is_its_history};
use crate::program::{fresh_disks, replay};
use std::sync::Wait;
use std::test::Fail;
use std::thread::Threads;

/// A tree over two nodes, a Snapshot of it, and puts below its two leaves.
const OPERATIONS: [Operation; 14] = [
    ("s 1", "put main k1 v\n"),
    ("s 2", "put main k2 v\n"),
    ("s 3", "put main k3 v\n"),
    ("s 4", "put main k4 v\n"),
    ("s 5", "put main k5 v\n"),
    ("s 6", "put main k6 v\n"),
    ("s 7", "put main k7 v\n"),
    ("s 8", "put main k8 v\n"),
    ("s 9", "put main k9 v\n"),
    ("a 1", "snapshot main m\n"),
    ("a 2", "put m k5 w\n"),
    ("b 1", "put main k1 x\n"),
    ("b 2", "put main k5 y\n"),
    ("b 3", "get main k1\n"),
];

/// The script, up to its crash points.
const RACE: &str =
    "nodes 2\nrecoverers 1\nclient s\nput main k1 v\nput main k2 v\nput main k3 v\nput main k4 v\nput main k5 v\nput main k6 v\nput main k7 v\nput main k8 v\nput main k9 v\nclient a\nsnapshot main m\nput m k5 w\nclient b\nput main k1 x\nput main k5 y\nget main k1\n";

/// No stop, or one of a node inside the Snapshot or inside a put: before, at half of, and behind
/// its record.
const STOPS: [&str; 11] = [
    "",
    "stop 0 a 1 before\n",
    "stop 0 a 1 half\n",
    "stop 0 a 1 after\n",
    "stop 1 a 1 before\n",
    "stop 1 a 1 half\n",
    "stop 1 a 1 after\n",
    "stop 0 b 2 after\n",
    "stop 1 b 1 after\n",
    "kill a 1 votes 1\n",
    "kill a 1 votes 2\n",
];

/// How many calls a Snapshot makes at most where nothing is in its way.
const CALLS: u32 = 12;

/// Whether the run in which so many calls of a's come first, then b's puts, then the rest, ends
/// well, and its versions are those of its history.
fn is_raced<T: Threads + Wait + Sync + AllocGlobal>(
    rt: &T,
    stop: &str,
    calls: u32,
) -> Result<bool, Fail> {
    let mut script = String::from_str(rt.alloc(), RACE)?;
    script.push_str(stop)?;
    script.push_str("schedule\nall s\n")?;
    for _ in 0..calls {
        script.push_str("step a\n")?;
    }
    script.push_str("go b\nstep a\ngo b\n")?;
    let ran = replay(rt, script.as_str(), fresh_disks(rt.alloc(), 2)?)?;
    Ok(ran.outcome.status == 0 && is_its_history(rt, &OPERATIONS, ran.text())?)
}

#[test]
fn a_snapshot_races_puts_at_each_node(rt: HostRuntime) -> Result<(), Fail> {
    for stop in STOPS {
        for calls in 0..CALLS {
            assert!(rt; is_raced(&rt, stop, calls)?, "{stop} behind {calls} calls");
        }
    }
    Ok(())
}

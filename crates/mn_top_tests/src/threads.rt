//! Scripts that are run on threads: what overlaps, and when recovery coordinators work.
use crate::histories::{has_line, has_operation, is_its_history};
use crate::program::{Given, Ran, disk_of, first_wrong, fresh_disks, play, run_gated};
use crate::rows::SCRIPTS_OF_ONE_CLIENT;
use mn_base::{ClientNo, Gate, NodeNo, OpenGate};
use mn_memdisk::{MeetDisk, Meeting};
use mn_mini::Request;
use mn_runs::{Entry, Log, What};
use std::alloc::Global;
use std::sync::atomic::{AtomicU64, Ordering};
use std::sync::{Arc, Wait};
use std::test::Fail;
use std::thread;
use std::thread::Threads;

#[test]
fn a_script_of_one_client_prints_the_same(rt: HostRuntime) -> Result<(), Fail> {
    let wrong = first_wrong(&rt, "run", SCRIPTS_OF_ONE_CLIENT)?;
    assert!(rt; wrong == None, "the row {wrong:?}");
    Ok(())
}

/// How often a call looks for another before it goes on.
const TURNS: u32 = 20_000_000;

/// A gate that holds the first call of each of two clients until that of the other has begun.
#[derive(Drop)]
struct Meet {
    first: AtomicU64,
    second: AtomicU64,
    met: AtomicU64,
}

impl Meet {
    fn new() -> Meet {
        Meet {
            first: AtomicU64::new(0),
            second: AtomicU64::new(0),
            met: AtomicU64::new(0),
        }
    }

    /// Counts a call of one client. The first one waits for a call of the other, but not for ever.
    fn hold(&self, own: &AtomicU64, other: &AtomicU64) {
        if own.fetch_add(1, Ordering::SeqCst) > 0 {
            return;
        }
        for _ in 0..TURNS {
            if other.load(Ordering::SeqCst) > 0 {
                self.met.fetch_add(1, Ordering::SeqCst);
                return;
            }
            thread::yield_now();
        }
    }
}

impl Gate for Meet {
    fn before(&self, client: ClientNo, _node: NodeNo) {
        match client.0 {
            0 => self.hold(&self.first, &self.second),
            1 => self.hold(&self.second, &self.first),
            _ => {}
        }
    }

    fn after(&self, _client: ClientNo, _node: NodeNo) {}
}

const TWO_GETS: &str = "nodes 1\nclient a\nget main k\nclient b\nget main k\n";

/// Each client waits inside its first call for the other's: on one thread the one that goes first
/// waits in vain, and one call meets at most.
#[test]
fn two_proxies_meet(rt: HostRuntime) -> Result<(), Fail> {
    let gate = Meet::new();
    let disks = fresh_disks(rt.alloc(), 1)?;
    let (outcome, _sink) = run_gated(&rt, &["run", "1"], &Given::whole(TWO_GETS), disks, &gate)?;
    assert!(rt; outcome.status == 0);
    assert!(rt; gate.met.load(Ordering::SeqCst) == 2);
    Ok(())
}

/// Nine puts, behind which `main` has two leaves on other nodes than its root.
const NINE_PUTS: &str =
    "nodes 3\nclient s first\nput main k1 v\nput main k2 v\nput main k3 v\nput main k4 v\nput main k5 v\nput main k6 v\nput main k7 v\nput main k8 v\nput main k9 v\n";

/// The same, and a put into each leaf at once.
const TWO_PUTS: &str =
    "nodes 3\nclient s first\nput main k1 v\nput main k2 v\nput main k3 v\nput main k4 v\nput main k5 v\nput main k6 v\nput main k7 v\nput main k8 v\nput main k9 v\nclient a\nput main k1 w\nclient b\nput main k9 w\n";

/// Three fresh disks, of which two come to a meeting, inside their writes of these numbers.
fn meeting_disks(
    alloc: Global,
    meeting: &Arc<Meeting, Global>,
    second: u64,
    third: u64,
) -> Result<Vec<MeetDisk>, Fail> {
    let mut disks = Vec::new(alloc);
    for at in [u64::MAX, second, third] {
        let place = Arc::try_clone(meeting)?;
        disks.push(MeetDisk::new(disk_of(alloc, &[], &[])?, place, at))?;
    }
    Ok(disks)
}

/// How often a node's disk was written.
fn writes_of(disks: &[MeetDisk], node: usize) -> u64 {
    match disks.get(node) {
        Some(disk) => disk.writes(),
        None => 0,
    }
}

/// Runs a script of three nodes, of which the second and the third meet inside the writes of these
/// numbers. The answer is how many met, and how often each of the two was written.
fn met_at<T: Threads + Wait + Sync + AllocGlobal>(
    rt: &T,
    script: &str,
    second: u64,
    third: u64,
) -> Result<(u64, u64, u64), Fail> {
    let meeting = Meeting::new(rt.alloc())?;
    let disks = meeting_disks(rt.alloc(), &meeting, second, third)?;
    let (outcome, _sink) = run_gated(rt, &["run", "3"], &Given::whole(script), disks, &OpenGate)?;
    let disks = outcome.disks.as_slice();
    Ok((meeting.met(), writes_of(disks, 1), writes_of(disks, 2)))
}

#[test]
fn two_nodes_at_once(rt: HostRuntime) -> Result<(), Fail> {
    let (_met, second, third) = met_at(&rt, NINE_PUTS, u64::MAX, u64::MAX)?;
    let (met, _second, _third) = met_at(&rt, TWO_PUTS, second, third)?;
    assert!(rt; met == 2);
    Ok(())
}

const ONE_CLIENT_AND_RECOVERY: &str =
    "nodes 2\nrecoverers 1\nclient s\nput main k1 v\nput main k2 v\nput main k3 v\nput main k4 v\nput main k5 v\nput main k6 v\nput main k7 v\nput main k8 v\nput main k9 v\n";

/// Whether the entry is of the first recovery coordinator of a script.
fn is_of_recoverer(entry: &Entry) -> bool {
    entry.client == Some(ClientNo(17))
}

/// Whether the first recovery coordinator asks this node for its list.
fn lists(entry: &Entry, node: u8) -> bool {
    let is_list = matches!(
        entry.what,
        What::Called {
            request: Request::List,
            ..
        }
    );
    is_list && is_of_recoverer(entry) && entry.node == Some(NodeNo(node))
}

/// Whether the first recovery coordinator asks this node for its list somewhere in a log.
fn has_list(log: &Log, node: u8) -> bool {
    for place in 0..log.len() {
        if lists(log.entry(place), node) {
            return true;
        }
    }
    false
}

/// How many operations are answered in a log before the first entry of the recovery coordinator,
/// and in all of it.
fn count_answered(log: &Log) -> (u32, u32) {
    let mut before: u32 = 0;
    let mut all: u32 = 0;
    let mut recovers = false;
    for place in 0..log.len() {
        let entry = log.entry(place);
        recovers = recovers || is_of_recoverer(entry);
        if matches!(entry.what, What::Answered { .. }) {
            all = all.saturating_add(1);
            if !recovers {
                before = all;
            }
        }
    }
    (before, all)
}

#[test]
fn recovery_waits(rt: HostRuntime) -> Result<(), Fail> {
    let disks = fresh_disks(rt.alloc(), 2)?;
    let ran = play(&rt, "run", ONE_CLIENT_AND_RECOVERY, disks)?;
    let log = &ran.outcome.log;
    assert!(rt; has_list(log, 0) && has_list(log, 1));
    assert!(rt; count_answered(log) == (9, 9));
    Ok(())
}

/// The operations of a script, each with its client and number, and its line.
const OPERATIONS: [(&str, &str); 12] = [
    ("s 1", "put main k1 v\n"),
    ("s 2", "put main k2 v\n"),
    ("s 3", "put main k3 v\n"),
    ("s 4", "put main k4 v\n"),
    ("s 5", "put main k5 v\n"),
    ("s 6", "put main k6 v\n"),
    ("s 7", "put main k7 v\n"),
    ("s 8", "put main k8 v\n"),
    ("s 9", "put main k9 v\n"),
    ("a 1", "tx main put k1 x ; put k5 x\n"),
    ("b 1", "put main k5 y\n"),
    ("b 2", "put main k5 z\n"),
];

/// That script, without the number of votes behind which client a dies.
const DIES: &str =
    "nodes 2\nrecoverers 1\nclient s first\nput main k1 v\nput main k2 v\nput main k3 v\nput main k4 v\nput main k5 v\nput main k6 v\nput main k7 v\nput main k8 v\nput main k9 v\nclient a\ntx main put k1 x ; put k5 x\nclient b\nput main k5 y\nput main k5 z\nkill a 1 votes ";

/// Whether a run in which client a dies behind so many votes ends well, and its history holds what
/// client a did exactly where that was committed.
fn is_recovered<T: Threads + Wait + Sync + AllocGlobal>(rt: &T, votes: &str) -> Result<bool, Fail> {
    let mut script = String::from_str(rt.alloc(), DIES)?;
    script.push_str(votes)?;
    let ran = play(rt, "run", script.as_str(), fresh_disks(rt.alloc(), 2)?)?;
    let report = ran.text();
    let is_whole = ran.outcome.status == 0 && report.ends_with("\nend\n");
    let is_told = has_line(report, "doubt a 1 committed") == has_operation(report, "a 1");
    Ok(is_whole && is_told && is_its_history(rt, &OPERATIONS, report)?)
}

#[test]
fn what_died_is_recovered_beside_the_others(rt: HostRuntime) -> Result<(), Fail> {
    for _ in 0..5 {
        assert!(rt; is_recovered(&rt, "1\n")?);
        assert!(rt; is_recovered(&rt, "2\n")?);
    }
    Ok(())
}

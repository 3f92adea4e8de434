//! What is due where the disks can't be opened.
ghost use Rattle.std.specs.Prelude.{◌≡◌, List, IfOk, MatchOption};
ghost use Rattle.mn_flat.specs.Refusal.{IsWantOfMemory};
ghost use Rattle.mn_forest.specs.Refusal.{IsLackOfMemory};
ghost use Rattle.mn_mini.specs.declared.record.Record.{Record};
ghost use Rattle.mn_node.specs.State.{AreRecords, IsFirstBadBody};
ghost use Rattle.mn_top.specs.Logs.{WasRefused, WasntRead, due_of_starting, due_of_votes};
ghost use Rattle.mn_top.specs.Logs.{due_of_forest};
ghost use Rattle.mn_top.specs.declared.due.DamageRule.TheVariants.{Log};
ghost use Rattle.mn_top.specs.declared.due.Due.TheVariants.{Damaged};
ghost use Rattle.mn_redo.specs.declared.open.OpenCause.TheVariants as opens;

use crate::due::{DamageRule, Due};
use mn_base::{NoMemory, NodeNo};
use mn_flat::VoteError;
use mn_forest::ForestError;
use mn_io::Disk;
use mn_mini::{Record, RecordError};
use mn_node::StartCause;
use mn_redo::{Front, OpenCause};
use std::alloc::Global;

/// The place of the gate of the first of these bodies that is no record.
fn first_bad(alloc: Global, front: &Front) -> Result<Option<u64>, NoMemory>
    ensures { IfOk result (λ found.
        MatchOption found ((records : List Record) × AreRecords front.now.bodies records)
        (IsFirstBadBody front.now.start front.now.bodies)) }
{
    for number in 0..front.count() {
        match Record::read(alloc, front.body(number)) {
            Ok(_record) => {}
            Err(RecordError::BadRecord) => return Ok(Some(front.gate(number))),
            Err(RecordError::NoMemory) => return Err(NoMemory),
        }
    }
    Ok(None)
}

/// What is due of a log that is bad at a place.
fn bad_log(node: NodeNo, place: u64) -> Due
    ensures { result ≡ Damaged node.0 place Log }
{
    Due::Damaged {
        node: node.0,
        place,
        rule: DamageRule::Log,
    }
}

/// What is due of a log that is damaged at a place: that of the damage, or that of the first body
/// in front of it that is no record.
fn due_of_damage<D: Disk>(alloc: Global, disk: &mut D, node: NodeNo, nodes: u8, at: u64) -> Due
    ensures { (old : D) → WasRefused D.state D.faults nodes node.0 old (opens.Damaged at) disk.old
        → WasntRead D.state D.faults nodes node.0 old disk.new result }
{
    match Front::read(alloc, disk, node, nodes, at) {
        Ok(front) => match first_bad(alloc, &front) {
            Ok(None) => bad_log(node, at),
            Ok(Some(place)) => bad_log(node, place),
            Err(_) => Due::NoMemory,
        },
        Err(OpenCause::Fault) => Due::DiskFault { node: node.0 },
        Err(OpenCause::NoMemory) => Due::NoMemory,
        Err(OpenCause::Damaged { .. }) => bad_log(node, at),
    }
}

/// What is due where a log of so many nodes wasn't opened. Of a damaged one it is the lower place.
pub fn due_of_open<D: Disk>(
    alloc: Global,
    disk: &mut D,
    node: NodeNo,
    nodes: u8,
    cause: OpenCause,
) -> Due
    ensures { (old : D) → WasRefused D.state D.faults nodes node.0 old cause disk.old
        → WasntRead D.state D.faults nodes node.0 old disk.new result }
{
    match cause {
        OpenCause::Fault => Due::DiskFault { node: node.0 },
        OpenCause::NoMemory => Due::NoMemory,
        OpenCause::Damaged { at } => due_of_damage(alloc, disk, node, nodes, at),
    }
}

/// What is due where the records of a log weren't read, or its node wasn't started.
pub fn due_of_start(node: NodeNo, cause: StartCause) -> Due
    ensures { result ≡ due_of_starting node.0 cause }
{
    match cause {
        StartCause::Fault => Due::DiskFault { node: node.0 },
        StartCause::Damaged { at } => bad_log(node, at),
        StartCause::NoMemory => Due::NoMemory,
    }
}

/// What is due where the records of all nodes make no memory.
pub fn due_of_votes(error: VoteError) -> Due
    ensures { result ≡ due_of_votes error }
{
    match error {
        VoteError::Unvoted { node, number } => Due::Damaged {
            node: node.0,
            place: u64::from(number),
            rule: DamageRule::Votes,
        },
        VoteError::Both { node, number } => Due::Damaged {
            node: node.0,
            place: u64::from(number),
            rule: DamageRule::Both,
        },
        VoteError::NoMemory => Due::NoMemory,
    }
}

/// What is due where the memory holds no store.
pub fn due_of_forest(error: ForestError) -> Due
    ensures { result ≡ due_of_forest error }
{
    match error {
        ForestError::Broken { node, start, rule } => Due::Damaged {
            node: node.0,
            place: u64::from(start),
            rule: DamageRule::Forest { rule },
        },
        ForestError::NoMemory => Due::NoMemory,
    }
}

//! Whether what a report lists as its history, done by one client, leaves the same versions.
use crate::program::{fresh_disks, replay};
use std::alloc::Global;
use std::sync::Wait;
use std::test::Fail;
use std::thread::Threads;

/// An operation of a script, by its client and number, and its line.
pub type Operation = (&'static str, &'static str);

/// The operation that a line of a report tells, if it is a line of its history.
fn ranked(line: &str) -> Option<&str> {
    let (rank, operation) = line.split_once(' ')?;
    match rank.parse::<u32>() {
        Ok(_rank) => Some(operation),
        Err(_none) => None,
    }
}

/// The script's line of an operation.
fn line_of(operations: &[Operation], operation: &str) -> &'static str {
    for (name, line) in operations {
        if *name == operation {
            return line;
        }
    }
    "unknown\n"
}

/// A script of one client that does what the history of a report lists, in its order.
fn one_after_another(
    alloc: Global,
    operations: &[Operation],
    report: &str,
) -> Result<String, Fail> {
    let mut script = String::from_str(alloc, "nodes 2\nclient r\n")?;
    for line in report.lines() {
        if let Some(operation) = ranked(line) {
            script.push_str(line_of(operations, operation))?;
        }
    }
    Ok(script)
}

/// Whether the history of a report lists an operation.
pub fn has_operation(report: &str, operation: &str) -> bool {
    for line in report.lines() {
        if ranked(line) == Some(operation) {
            return true;
        }
    }
    false
}

/// Whether a report has this line.
pub fn has_line(report: &str, wanted: &str) -> bool {
    for line in report.lines() {
        if line == wanted {
            return true;
        }
    }
    false
}

/// Whether each version that the one tells of is told alike by the other.
fn tells_versions(one: &str, other: &str) -> bool {
    for line in one.lines() {
        if line.starts_with("version ") && !has_line(other, line) {
            return false;
        }
    }
    true
}

/// Whether one client that does what the history of a report of two nodes lists leaves the same
/// versions.
pub fn is_its_history<T: Threads + Wait + Sync + AllocGlobal>(
    rt: &T,
    operations: &[Operation],
    report: &str,
) -> Result<bool, Fail> {
    let script = one_after_another(rt.alloc(), operations, report)?;
    let again = replay(rt, script.as_str(), fresh_disks(rt.alloc(), 2)?)?;
    let is_same = tells_versions(report, again.text()) && tells_versions(again.text(), report);
    Ok(again.outcome.status == 0 && is_same)
}

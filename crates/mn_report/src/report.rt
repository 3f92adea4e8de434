ghost use Rattle.std.specs.Prelude.{◌≡◌, ◌++◌, IfOk, OnOk};
ghost use Rattle.mn_report.specs.Report.{report_text, check_text, versions_text, CanReport};

use crate::lists::{AnswerLines, Flags, Outcomes, Ranks, VersionLines};
use crate::parts::{push_answer_lines, push_doubts, push_history, push_points, push_version_lines};
use mn_base::{Bytes, NoMemory};
use std::alloc::{AllocError, Global};

/// What a run is reported by: what each operation was answered, the history, what became of the
/// operations in doubt, which crash points were met, and the versions of the store.
#[derive(Debug, Drop)]
pub struct Report {
    pub answers: AnswerLines,
    pub history: Ranks,
    pub doubts: Outcomes,
    pub points: Flags,
    pub versions: VersionLines,
}

fn push_versions(
    alloc: Global,
    out: &mut Vec<u8>,
    versions: &VersionLines,
) -> Result<(), AllocError>
    ensures { OnOk result (out.new.items ≡ out.old.items ++ versions_text versions.now) }
{
    push_version_lines(alloc, out, versions.as_slice())?;
    out.extend_from_slice(b"end\n")
}

fn push_report(alloc: Global, out: &mut Vec<u8>, report: &Report) -> Result<(), AllocError>
    requires { CanReport report.now }
    ensures { OnOk result (out.new.items ≡ out.old.items ++ report_text report.now) }
{
    push_answer_lines(out, report.answers.as_slice())?;
    push_history(out, report.history.as_slice())?;
    push_doubts(out, report.doubts.as_slice())?;
    push_points(out, report.points.as_slice())?;
    push_versions(alloc, out, &report.versions)
}

/// The text of a report. Where an operation was answered that bytes moved, the expected and the
/// found ones differ, have one length, and lie inside the space of a node from the start on.
/// NoMemory: there was no memory for the text.
pub fn write_report(alloc: Global, report: &Report) -> Result<Bytes, NoMemory>
    requires { CanReport report.now }
    ensures { IfOk result (λ text. text ≡ report_text report.now) }
{
    let mut out = Vec::new(alloc);
    push_report(alloc, &mut out, report)?;
    Ok(Bytes::from_vec(out))
}

fn push_check(alloc: Global, out: &mut Vec<u8>, versions: &VersionLines) -> Result<(), AllocError>
    ensures { OnOk result (out.new.items ≡ out.old.items ++ check_text versions.now) }
{
    out.extend_from_slice(b"check yes\n")?;
    push_versions(alloc, out, versions)
}

/// What is told of disks that hold a store: that they do, and its versions, by the same lines as in
/// a report. NoMemory: there was no memory for the text.
pub fn write_check(alloc: Global, versions: &VersionLines) -> Result<Bytes, NoMemory>
    ensures { IfOk result (λ text. text ≡ check_text versions.now) }
{
    let mut out = Vec::new(alloc);
    push_check(alloc, &mut out, versions)?;
    Ok(Bytes::from_vec(out))
}

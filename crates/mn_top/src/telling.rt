//! What is written of a run that came to its end.
ghost use Rattle.std.specs.Prelude.{IfOk};
ghost use Rattle.mn_runs.specs.Protocol.{AreFree, Start, entries_of};
ghost use Rattle.mn_serial.specs.Meaning.{OpenedRun};
ghost use Rattle.mn_top.specs.Telling.{Reports, Summarizes, Tells};

use crate::words::Command;
use mn_base::{Bytes, NoMemory};
use mn_gen::summary_of;
use mn_hist::{audit, history_of};
use mn_plain::Store;
use mn_report::write_report;
use mn_runs::Log;
use mn_script::Script;
use mn_serial::runs_are_one_history;
use std::alloc::Global;

/// The report on a log.
fn report_on(alloc: Global, start: &Store, log: &Log, script: &Script) -> Result<Bytes, NoMemory>
    requires { (from : Start) × OpenedRun from start.now (entries_of log.now) }
    ensures { (from : Start) → OpenedRun from start.now (entries_of log.now)
        → IfOk result (Reports from start.now script.now (entries_of log.now)) }
{
    let report = audit(alloc, start, log, script)?;
    write_report(alloc, &report)
}

/// The summary of a log, after which no node lists an id.
fn summary_on(alloc: Global, start: &Store, log: &Log, script: &Script) -> Result<Bytes, NoMemory>
    ensures { (from : Start) → OpenedRun from start.now (entries_of log.now)
        → AreFree from (entries_of log.now)
        → IfOk result (Summarizes from start.now script.now (entries_of log.now)) }
{
    runs_are_one_history();
    let history = history_of(alloc, start, log)?;
    summary_of(alloc, start, &history, script, 0)
}

/// What the command writes of a log, after which no node lists an id.
pub fn text_on(
    alloc: Global,
    command: Command,
    start: &Store,
    log: &Log,
    script: &Script,
) -> Result<Bytes, NoMemory>
    requires { (from : Start) × OpenedRun from start.now (entries_of log.now) }
    ensures { (from : Start) → OpenedRun from start.now (entries_of log.now)
        → AreFree from (entries_of log.now)
        → IfOk result (Tells command from start.now script.now (entries_of log.now)) }
{
    match command {
        Command::Gen => summary_on(alloc, start, log, script),
        Command::Replay | Command::Run | Command::Check => report_on(alloc, start, log, script),
    }
}

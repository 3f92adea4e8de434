//! The audit of a log: the report on what a script's operations came to.
ghost use Rattle.std.specs.Prelude.{◌≡◌, IfOk, map};
ghost use Rattle.mn_report.specs.Report.{CanReport};
ghost use Rattle.mn_serial.specs.Meaning.{OpenedRun};
ghost use Rattle.mn_runs.specs.Protocol.{Start, entries_of};
ghost use Rattle.mn_hist.specs.Audit.{client_name, ranked_act, IsAudit};
ghost use Rattle.mn_hist.specs.History.{acts_in};

use crate::acts::PlacedAct;
use crate::answers::{answers_of, doubts_of, op_total};
use crate::history::ending_of;
use crate::points::points_met;
use crate::versions::versions_of;
use mn_base::{ClientNo, Name, NoMemory, TryCopy};
use mn_plain::Store;
use mn_report::{Flags, Ranked, Ranks, Report};
use mn_runs::Log;
use mn_script::{Script, ScriptClient};
use std::alloc::Global;

/// The name of a client. NoMemory: there was no memory for it, or the script has no such client.
fn client_name(alloc: Global, clients: &[ScriptClient], client: ClientNo) -> Result<Name, NoMemory>
    ensures { IfOk result (λ name. name ≡ client_name clients.now client) }
{
    match clients.get(usize::from(client.0)) {
        Some(client) => client.name.try_copy(alloc),
        None => Err(NoMemory),
    }
}

/// The operations of the history, by the names of their clients.
fn ranks_of(
    alloc: Global,
    clients: &[ScriptClient],
    acts: &[PlacedAct<'_>],
) -> Result<Ranks, NoMemory>
    ensures { IfOk result (λ ranks. ranks ≡ map (ranked_act clients.now) (acts_in acts.now)) }
{
    let mut ranks = Vec::with_capacity(alloc, acts.len())?;
    for placed in acts {
        ranks.push(Ranked {
            client: client_name(alloc, clients, placed.act.client)?,
            number: placed.act.number,
        })?;
    }
    Ok(Ranks::from_vec(ranks))
}

/// The report on a log that a script's clients made from a store on: what each operation was
/// answered, the history with its ranks, whether each operation in doubt took effect, which crash
/// points were met, and the versions of the store after the history. In doubt is an operation that
/// was answered so, or that was begun and has no answer. It takes time linear in the entries and
/// operations, beside what the store takes.
///
/// NoMemory: there was no memory for it. Where another than a client of the script has an operation
/// in the history, always.
pub fn audit(alloc: Global, start: &Store, log: &Log, script: &Script) -> Result<Report, NoMemory>
    ensures audit { (from : Start) → OpenedRun from start.now (entries_of log.now)
        → IfOk result (IsAudit from start.now script.now (entries_of log.now)) }
    ensures can_report { (from : Start) → OpenedRun from start.now (entries_of log.now)
        → IfOk result CanReport }
{
    let clients = script.clients();
    let ending = ending_of(alloc, start, log, op_total(clients))?;
    let answers = answers_of(alloc, &ending.said, clients)?;
    let history = ranks_of(alloc, clients, &ending.acts)?;
    let doubts = doubts_of(alloc, &ending.said, &ending.standing, clients)?;
    let points = points_met(alloc, script.points(), log)?;
    let versions = versions_of(alloc, &ending.store)?;
    Ok(Report {
        answers,
        history,
        doubts,
        points: Flags::from_vec(points),
        versions,
    })
}

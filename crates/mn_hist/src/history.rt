//! The operations of a log in order of place.
ghost use Rattle.std.specs.Option.{option_map};
ghost use Rattle.std.specs.Prelude.{◌≡◌, ◌∷◌, [], List, Option, Some, None, length, IfOk, OnOk};
ghost use Rattle.std.specs.Prelude.{MatchOption};
ghost use Rattle.mn_serial.specs.History.{Placed, IsHistory, pasts_of};
ghost use Rattle.mn_runs.specs.declared.entry.Entry.{Entry as Step};
ghost use Rattle.mn_hist.specs.Saying.{TellsAnswers};
ghost use Rattle.mn_hist.specs.History.{AnswerHasPlace, EntryHasPlace, StandsInSet, AreActsOf};
ghost use Rattle.mn_hist.specs.History.{AnswerIsInHistory, KnowsPlanners, IsIssuedUnderId};
ghost use Rattle.mn_hist.specs.History.{CommitIsInHistory, CommitsAreInHistory, AreCallerStates};
ghost use Rattle.mn_hist.specs.History.{planner_for, EntryIsInHistory, KnowsNoAct};
ghost use Rattle.mn_runs.specs.Protocol.{Start, entries_of};
ghost use Rattle.mn_law.specs.Run.{IsRun};
ghost use Rattle.mn_hist.specs.Plans.{planner_kept};
ghost use Rattle.mn_hist.specs.Told.{ReaderHasRead, ReaderHasTold};
ghost use Rattle.mn_hist.specs.Ending.{IsEndingOf, TellsHistory};
ghost use Rattle.mn_base.specs.Store.{Store as Versions};
ghost use Rattle.mn_commits.specs.CommitReader.{issued_of};
ghost use Rattle.mn_runs.specs.Commits.{committed_by};
ghost use Rattle.mn_commits.specs.declared.commit_reader.CommittedMini.{CommittedMini as Committed};
ghost use Rattle.mn_serial.specs.Meaning.{OpenedRun};
ghost use Rattle.mn_serial.specs.OneHistory.{Ascend, IsOneHistory};

use crate::acts::{
    Act, PlacedAct, all_done, follow_all, is_standing, may_change, note_standing, put,
};
use crate::answers::note_entry;
use crate::callers::{Caller, begun_by, idle_callers, note_own, read_place};
use crate::plans::Plans;
use crate::sayings::AllSaid;
use crate::table::Table;
use mn_base::{Answer, ClientNo, History, NoMemory, Tid, TryCopy};
use mn_commits::{CommitReader, CommittedMini};
use mn_plain::Store;
use mn_runs::{Entry, Log, What};
use mn_serial::{history_is_one, runs_are_one_history, runs_have_history};
use std::alloc::Global;

/// The operation of a plan of this id, if it is known: of each plan of a run it is.
fn planned<'a>(plans: &Plans<'a>, tid: Tid) -> Option<Act<'a>>
    ensures { MatchOption result (KnowsNoAct plans.now tid)
        (λ act. planner_kept plans.now tid ≡ Some (planner_for act)) }
{
    let plan = plans.of(tid)?;
    let (Some(client), Some(begun)) = (plan.client, plan.begun) else {
        return None;
    };
    Some(Act {
        client,
        may_change: true,
        number: begun.number,
        op: begun.op,
    })
}

/// Takes the answer to a client's operation: one that was replied to, and that no plan has put into
/// the history, has its place at a read. One that has no place, as none of a run, is left out.
/// NoMemory: there was no memory for it.
fn take_answer<'a>(
    alloc: Global,
    callers: &[Caller<'a>],
    standing: &mut Table<bool>,
    acts: &mut Vec<PlacedAct<'a>>,
    client: ClientNo,
    answer: &Answer,
) -> Result<(), NoMemory>
    requires { length callers.now ≡ 256 }
    ensures { OnOk result ((past : List Step) (placed : List Placed)
        → AreCallerStates callers.now past
        → StandsInSet standing.old placed
        → Ascend placed → AreActsOf acts.old.items placed
        → AnswerHasPlace past client answer.now placed
        → AnswerIsInHistory past client answer.now placed standing.new acts.new.items) }
{
    let Answer::Replied { reply } = answer else {
        return Ok(());
    };
    let caller = &callers[usize::from(client.0)];
    let Some(begun) = &caller.begun else {
        return Ok(());
    };
    if is_standing(standing, client, begun.number) {
        return Ok(());
    }
    let Some(place) = read_place(alloc, &caller.notes, begun.op.get(), reply)? else {
        return Ok(());
    };
    let act = Act {
        client,
        may_change: may_change(begun.op.get()),
        number: begun.number,
        op: begun.op,
    };
    put(acts, PlacedAct { place, act })?;
    note_standing(standing, client, begun.number)
}

/// Takes what is committed at this place: the operation of a plan comes last in the history, a read
/// puts none there. One whose plan isn't known, as none of a run, is left out. NoMemory: there was
/// no memory for it.
fn take_commit<'a>(
    plans: &Plans<'a>,
    standing: &mut Table<bool>,
    acts: &mut Vec<PlacedAct<'a>>,
    place: usize,
    committed: CommittedMini<'a>,
) -> Result<(), NoMemory>
    ensures { OnOk result ((start : Start) (past : List Step) (placed : List Placed)
        → IsRun start past → KnowsPlanners plans.now past → IsIssuedUnderId past committed.entry
        → place ≡ length past
        → StandsInSet standing.old placed → AreActsOf acts.old.items placed
        → CommitIsInHistory past committed.entry placed standing.new acts.new.items) }
{
    if committed.mini.is_read() {
        return Ok(());
    }
    let Some(act) = planned(plans, committed.tid) else {
        return Ok(());
    };
    note_standing(standing, act.client, act.number)?;
    acts.push(PlacedAct { place, act })?;
    Ok(())
}

/// Notes who issued a plan, and for which operation, where the entry issues one.
fn note_issue<'a>(
    callers: &[Caller<'a>],
    plans: &mut Plans<'a>,
    entry: &Entry,
) -> Result<(), NoMemory>
    requires { length callers.now ≡ 256 }
    ensures { OnOk result ((past : List Step) → AreCallerStates callers.now past
        → KnowsPlanners plans.old past
        → KnowsPlanners plans.new (entry.now ∷ past)) }
{
    let What::Issue { tid, mini } = &entry.what else {
        return Ok(());
    };
    if mini.is_read() {
        return Ok(());
    }
    let begun = match entry.client {
        Some(client) => begun_by(callers, client),
        None => None,
    };
    plans.note(*tid, entry.client, begun)
}

/// Takes the answer that the entry gives, if it does. NoMemory: there was no memory for it.
fn take_step<'a>(
    alloc: Global,
    callers: &[Caller<'a>],
    standing: &mut Table<bool>,
    acts: &mut Vec<PlacedAct<'a>>,
    entry: &Entry,
) -> Result<(), NoMemory>
    requires { length callers.now ≡ 256 }
    ensures { OnOk result ((past : List Step) (placed : List Placed)
        → AreCallerStates callers.now past
        → StandsInSet standing.old placed
        → Ascend placed → AreActsOf acts.old.items placed
        → EntryHasPlace past entry.now None placed
        → EntryIsInHistory past entry.now None placed standing.new acts.new.items) }
{
    let (Some(client), What::Answered { answer, .. }) = (entry.client, &entry.what) else {
        return Ok(());
    };
    take_answer(alloc, callers, standing, acts, client, answer)
}

/// Takes what is committed at this place, if anything is. NoMemory: there was no memory for it.
#[inline(always)]
fn take_committed<'a>(
    plans: &Plans<'a>,
    standing: &mut Table<bool>,
    acts: &mut Vec<PlacedAct<'a>>,
    place: usize,
    committed: Option<CommittedMini<'a>>,
) -> Result<(), NoMemory>
    ensures { OnOk result ((start : Start) (past : List Step) (e : Step) (placed : List Placed)
        → IsRun start past → KnowsPlanners plans.now past
        → option_map issued_of committed.entry ≡ committed_by past e
        → place ≡ length past
        → StandsInSet standing.old placed → AreActsOf acts.old.items placed
        → CommitsAreInHistory past committed.entry placed standing.new acts.new.items) }
{
    match committed {
        Some(committed) => take_commit(plans, standing, acts, place, committed),
        None => Ok(()),
    }
}

/// Takes what the entry of this client at this place tells beside what it commits. NoMemory: there
/// was no memory for it.
#[inline(always)]
fn take_own<'a>(
    alloc: Global,
    callers: &mut [Caller<'a>],
    plans: &mut Plans<'a>,
    standing: &mut Table<bool>,
    acts: &mut Vec<PlacedAct<'a>>,
    said: &mut AllSaid<'a>,
    client: ClientNo,
    place: usize,
    entry: &'a Entry,
) -> Result<(), NoMemory>
    requires { length callers.old ≡ 256 }
    ensures long { length callers.new ≡ 256 }
    ensures callers { OnOk result ((past : List Step) → place ≡ length past
        → entry.now.client ≡ Some client → AreCallerStates callers.old past
        → AreCallerStates callers.new (entry.now ∷ past)) }
    ensures plans { OnOk result ((past : List Step) → AreCallerStates callers.old past
        → KnowsPlanners plans.old past → KnowsPlanners plans.new (entry.now ∷ past)) }
    ensures said { OnOk result ((past : List Step) → TellsAnswers said.old past
        → TellsAnswers said.new (entry.now ∷ past)) }
    ensures answers { OnOk result
        ((past : List Step) (committed : Option Committed) (placed : List Placed)
        → AreCallerStates callers.old past
        → option_map issued_of committed ≡ committed_by past entry.now
        → Ascend placed → EntryHasPlace past entry.now (committed_by past entry.now) placed
        → CommitsAreInHistory past committed placed standing.old acts.old.items
        → EntryIsInHistory past entry.now (committed_by past entry.now) placed standing.new
        acts.new.items) }
{
    match &entry.what {
        What::Begin { .. } => {
            note_own(alloc, callers, client, place, entry)?;
            note_entry(said, entry)
        }
        What::Issue { .. } => note_issue(callers, plans, entry),
        What::Answered { .. } => {
            take_step(alloc, callers, standing, acts, entry)?;
            note_own(alloc, callers, client, place, entry)?;
            note_entry(said, entry)
        }
        _ => note_own(alloc, callers, client, place, entry),
    }
}

/// Takes what the entry at this place tells beside what it commits. NoMemory: there was no memory
/// for it.
#[inline(always)]
fn take_entry<'a>(
    alloc: Global,
    callers: &mut [Caller<'a>],
    plans: &mut Plans<'a>,
    standing: &mut Table<bool>,
    acts: &mut Vec<PlacedAct<'a>>,
    said: &mut AllSaid<'a>,
    place: usize,
    entry: &'a Entry,
) -> Result<(), NoMemory>
    requires { length callers.old ≡ 256 }
    ensures long { length callers.new ≡ 256 }
    ensures callers { OnOk result ((past : List Step) → place ≡ length past
        → AreCallerStates callers.old past → AreCallerStates callers.new (entry.now ∷ past)) }
    ensures plans { OnOk result ((past : List Step) → AreCallerStates callers.old past
        → KnowsPlanners plans.old past → KnowsPlanners plans.new (entry.now ∷ past)) }
    ensures said { OnOk result ((past : List Step) → TellsAnswers said.old past
        → TellsAnswers said.new (entry.now ∷ past)) }
    ensures answers { OnOk result
        ((past : List Step) (committed : Option Committed) (placed : List Placed)
        → AreCallerStates callers.old past
        → option_map issued_of committed ≡ committed_by past entry.now
        → Ascend placed → EntryHasPlace past entry.now (committed_by past entry.now) placed
        → CommitsAreInHistory past committed placed standing.old acts.old.items
        → EntryIsInHistory past entry.now (committed_by past entry.now) placed standing.new
        acts.new.items) }
{
    match entry.client {
        Some(client) => {
            take_own(
                alloc, callers, plans, standing, acts, said, client, place, entry,
            )
        }
        None => note_issue(callers, plans, entry),
    }
}

/// What the entries so far tell of the history.
#[derive(Drop)]
struct HistoryReader<'a> {
    commits: CommitReader<'a>,
    /// By number of the client, what is told of it.
    callers: Vec<Caller<'a>>,
    /// Who issued the last plan of each id.
    plans: Plans<'a>,
    /// The operations of the history.
    standing: Table<bool>,
    /// They in order of place.
    acts: Vec<PlacedAct<'a>>,
    /// What is said of each operation.
    said: AllSaid<'a>,
}

impl<'a> HistoryReader<'a> {
    /// No entry has come of so many, and there is room for so many operations. NoMemory: there was
    /// no memory for it.
    fn new(alloc: Global, entries: usize, ops: usize) -> Result<HistoryReader<'a>, NoMemory>
        ensures { IfOk result (λ reader. ReaderHasTold reader [] []) }
    {
        Ok(HistoryReader {
            commits: CommitReader::new(alloc, entries)?,
            callers: idle_callers(alloc)?,
            plans: Plans::new(alloc)?,
            standing: Table::new(alloc)?,
            acts: Vec::with_capacity(alloc, ops)?,
            said: AllSaid::new(alloc)?,
        })
    }

    /// Takes the next entry, which has this place. NoMemory: there was no memory for it.
    fn follow(&mut self, alloc: Global, place: usize, entry: &'a Entry) -> Result<(), NoMemory>
        requires { (past : List Step) × ReaderHasRead self.old past }
        ensures reads { (past : List Step) → ReaderHasRead self.old past
            → OnOk result (ReaderHasRead self.new (entry.now ∷ past)) }
        ensures tells { OnOk result ((start : Start) (past : List Step) (placed : List Placed)
            → IsRun start past → place ≡ length past → Ascend placed
            → EntryHasPlace past entry.now (committed_by past entry.now) placed
            → ReaderHasTold self.old past placed → (next : List Placed)
            × ReaderHasTold self.new (entry.now ∷ past) next) }
    {
        let committed = self.commits.follow(entry)?;
        take_committed(
            &self.plans,
            &mut self.standing,
            &mut self.acts,
            place,
            committed,
        )?;
        take_entry(
            alloc,
            &mut self.callers,
            &mut self.plans,
            &mut self.standing,
            &mut self.acts,
            &mut self.said,
            place,
            entry,
        )
    }
}

/// What the entries of a log tell of the history. There is room for so many operations at once.
fn read_log<'a>(alloc: Global, log: &'a Log, ops: usize) -> Result<HistoryReader<'a>, NoMemory>
    ensures { IfOk result (λ reader. (start : Start) (store : Versions)
        → OpenedRun start store (entries_of log.now)
        → (placed : List Placed) × ReaderHasTold reader (entries_of log.now) placed) }
{
    runs_have_history();
    history_is_one();
    runs_are_one_history();
    let mut reader = HistoryReader::new(alloc, log.len(), ops)?;
    for place in 0..log.len() {
        reader.follow(alloc, place, log.entry(place))?;
    }
    Ok(reader)
}

/// The reader of a whole log, with room for so many operations at once.
fn reader_of<'a>(alloc: Global, log: &'a Log, ops: usize) -> Result<HistoryReader<'a>, NoMemory>
    ensures { (from : Start) (store : Versions) → OpenedRun from store (entries_of log.now)
        → IfOk result (λ reader. (placed : List Placed) × TellsHistory reader.acts.items
        reader.standing from store (entries_of log.now) placed
        × TellsAnswers reader.said (entries_of log.now)) }
{
    runs_are_one_history();
    read_log(alloc, log, ops)
}

/// What a log comes to: the operations of its history in order of place; the same to look up; what
/// is said of each operation; and the store after them.
#[derive(Drop)]
pub struct Ending<'a> {
    pub acts: Vec<PlacedAct<'a>>,
    pub standing: Table<bool>,
    pub said: AllSaid<'a>,
    pub store: Store,
}

/// What the log comes to, from `start` on, with room for so many operations at once. NoMemory:
/// there was no memory for it.
pub fn ending_of<'a>(
    alloc: Global,
    start: &Store,
    log: &'a Log,
    ops: usize,
) -> Result<Ending<'a>, NoMemory>
    ensures { (from : Start) → OpenedRun from start.now (entries_of log.now)
        → IfOk result (λ ending. (placed : List Placed)
        × IsEndingOf ending from start.now (entries_of log.now) placed) }
{
    let reader = reader_of(alloc, log, ops)?;
    let mut store = start.try_copy(alloc)?;
    follow_all(alloc, &mut store, &reader.acts)?;
    Ok(Ending {
        acts: reader.acts,
        standing: reader.standing,
        said: reader.said,
        store,
    })
}

/// The history of a log: each operation that was replied to, and each one of whose plans is
/// committed, once, in order of place. A committed plan has its place at its commit, a scan's pairs
/// at the operation's first read of the catalog, and each other reply at the last read that shows
/// it. Each reply is what the store answers there, from `start` on: so an operation that was left
/// in doubt, or whose client died, has one too. It takes time linear in the entries, beside what
/// the store takes.
///
/// Where the log is no run from records whose memory holds `start`, a reply whose place no read
/// tells is left out, and so is a plan whose operation is not known. NoMemory: there was no memory
/// for it.
pub fn history_of(alloc: Global, start: &Store, log: &Log) -> Result<History, NoMemory>
    ensures history { (from : Start) → OpenedRun from start.now (entries_of log.now)
        → IfOk result (λ history. (placed : List Placed) × IsHistory (entries_of log.now) placed
        × (history ≡ pasts_of placed)) }
    ensures one { (from : Start) → OpenedRun from start.now (entries_of log.now)
        → IfOk result (λ history. (placed : List Placed)
        × IsOneHistory from start.now (entries_of log.now) placed × (history ≡ pasts_of placed)) }
{
    let reader = reader_of(alloc, log, 0)?;
    let mut store = start.try_copy(alloc)?;
    let history = all_done(alloc, &mut store, &reader.acts)?;
    Ok(history)
}

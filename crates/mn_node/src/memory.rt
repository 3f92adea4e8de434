ghost use Rattle.std.specs.Prelude.{◌≡◌, ◌≢◌, ◌≤◌, ◌<◌, ◌+◌, ◌-◌, ◌++◌, ◌∷◌, [], Bool, length};
ghost use Rattle.std.specs.Prelude.{reverse, IfOk, Some, None, vec_len, vec_capacity, IsSome};
ghost use Rattle.std.specs.Prelude.{◌^◌, ℕ, true, List, OnOk, if◌then◌else◌};
ghost use Rattle.std.specs.List.{AllByRecursion};
ghost use Rattle.mn_mini.specs.declared.record.Record.{Record};
ghost use Rattle.mn_base.specs.Ids.{tid_same};
ghost use Rattle.mn_mini.specs.Flat.{space_after_part};
ghost use Rattle.mn_mini.specs.Mini.{space_size};
ghost use Rattle.mn_mini.specs.Node.{HeldPart, held_parts, held_part_of, has_voted, has_forced};
ghost use Rattle.mn_mini.specs.Node.{clash_of, is_held, with_held};
ghost use Rattle.mn_mini.specs.RecordGrammar.{IsPart, IsRecord};
ghost use Rattle.mn_node.specs.Part.{shared_of, alone_of};
ghost use Rattle.mn_node.specs.Held.{AreHeldVotes, IsVote, IsVoteFor};
ghost use Rattle.mn_node.specs.Memory.{HasDecisionRoom, IsFront, IsMemory, IsTested, IsTestedFree};
ghost use Rattle.mn_node.specs.Memory.{is_among};

use crate::held::{Vote, forget, has_vote_for, is_same, part_of};
use crate::part::{Mismatch, Ranges, first_mismatch, ranges_of, reads_of, write_items};
use crate::space::Space;
use mn_base::{NoMemory, Nodes, Tid};
use mn_io::make_room;
use mn_locks::{Held, LockTable};
use mn_mini::{Part, PartItem, Reads, Record};
use std::alloc::Global;

/// For how many records there is room at once.
const RECORDS_AT_ONCE: usize = 1 << 12;

/// The first records of a node as its log has them, so that a restart makes no list anew.
#[derive(Drop)]
pub struct Shortened {
    /// Their list, shortened.
    pub list: Vec<Record>,
    /// The votes whose parts they hold, the oldest first.
    pub held: Vec<Vote>,
}

impl Shortened {
    /// Those of a log that wasn't shortened. It takes no memory.
    pub fn none(alloc: Global) -> Self
        ensures { (records : List Record) → IsFront records 0 result }
    {
        Shortened {
            list: Vec::new(alloc),
            held: Vec::new(alloc),
        }
    }
}

/// What a node keeps in memory: its records, and what they make of its space, its locks and the ids
/// that may not vote. It has room for a decision of each held part.
#[derive(Drop)]
pub struct Memory {
    pub node: u8,
    pub nodes: u8,
    pub records: Vec<Record>,
    /// How many of the records, the first, are shortened in the log.
    pub cut: usize,
    /// Those, as the log has them.
    pub front: Shortened,
    pub space: Space,
    pub locks: LockTable,
    pub forced: Vec<Tid>,
    /// The votes whose parts are held, the oldest first.
    pub held: Vec<Vote>,
}

/// What the test of a part told: what its read items read, or why not.
#[derive(Drop)]
pub enum Tested {
    Yes { reads: Reads },
    Locked { held: Held },
    Differs { differs: Mismatch },
}

/// The id is among these.
pub fn is_in(tids: &[Tid], tid: Tid) -> bool
    ensures { result ≡ is_among tids.now tid }
{
    for other in tids {
        if is_same(*other, tid) {
            return true;
        }
    }
    false
}

/// Tests the compares of a part that conflicts with none that is held.
fn test_compares(alloc: Global, space: &Space, part: &[PartItem]) -> Result<Tested, NoMemory>
    requires size { length space.now ≡ space_size }
    requires part { IsPart part.now }
    ensures { IfOk result (IsTestedFree space.now part.now) }
{
    if let Some(differs) = first_mismatch(alloc, space, part)? {
        return Ok(Tested::Differs { differs });
    }
    let reads = reads_of(alloc, space, part)?;
    Ok(Tested::Yes { reads })
}

/// Tests a part for an id: first its locks, then its compares.
pub fn test_part(
    alloc: Global,
    space: &Space,
    locks: &LockTable,
    tid: Tid,
    part: &[PartItem],
    ranges: &Ranges,
) -> Result<Tested, NoMemory>
    requires size { length space.now ≡ space_size }
    requires part { IsPart part.now }
    requires shared { ranges.now.shared.items ≡ shared_of part.now }
    requires alone { ranges.now.alone.items ≡ alone_of part.now }
    ensures { IfOk result (IsTested space.now locks.now.holds tid part.now) }
{
    if let Err(held) = locks.test(tid, &ranges.shared, &ranges.alone) {
        return Ok(Tested::Locked { held });
    }
    test_compares(alloc, space, part)
}

/// Tests a part for an id, with its ranges made for it, if there is a lock that they could meet.
pub fn test_alone(
    alloc: Global,
    space: &Space,
    locks: &LockTable,
    tid: Tid,
    part: &[PartItem],
) -> Result<Tested, NoMemory>
    requires size { length space.now ≡ space_size }
    requires part { IsPart part.now }
    ensures { IfOk result (IsTested space.now locks.now.holds tid part.now) }
{
    if locks.is_empty() {
        return test_compares(alloc, space, part);
    }
    let ranges = ranges_of(alloc, part)?;
    test_part(alloc, space, locks, tid, part, &ranges)
}

/// Makes the writes of a vote's part, if the vote is for the id.
fn write_vote(records: &[Record], vote: &Vote, space: &mut Space, tid: Tid)
    requires size { length space.old ≡ space_size }
    requires sound { AllByRecursion IsRecord records.now }
    requires vote { IsVote records.now vote.now }
    ensures space { (h : HeldPart) → IsVoteFor records.now vote.now h
        → space.new ≡ (if tid_same h.tid tid then space_after_part space.old h.part
        else space.old) }
    ensures whole { length space.new ≡ space_size }
{
    if !is_same(vote.tid, tid) {
        return;
    }
    write_items(space, part_of(records, *vote));
}

/// Makes the writes of each part that is held for an id, the oldest first, where the decision is
/// yes.
pub fn write_decided(records: &[Record], held: &[Vote], space: &mut Space, tid: Tid, yes: bool)
    requires size { length space.old ≡ space_size }
    requires sound { AllByRecursion IsRecord records.now }
    requires held { AreHeldVotes records.now held.now }
    ensures space { space.new ≡ (if yes
        then with_held (λ t. tid_same t tid) space.old (held_parts (reverse records.now))
        else space.old) }
    ensures whole { length space.new ≡ space_size }
{
    if !yes {
        return;
    }
    for vote in held {
        write_vote(records, vote, space, tid);
    }
}

impl Memory {
    /// A part is held for the id.
    pub fn holds(&self, tid: Tid) -> bool
        requires memory { IsMemory self.now }
        ensures held { result ≡ is_held (reverse self.now.records.items) tid }
        ensures some { result ≡ true → 0 < vec_len self.now.held }
    {
        has_vote_for(&self.held, tid)
    }

    /// Tests a part for an id, with its ranges.
    pub fn test(
        &self,
        alloc: Global,
        tid: Tid,
        part: &[PartItem],
        ranges: &Ranges,
    ) -> Result<Tested, NoMemory>
        requires size { length self.now.space ≡ space_size }
        requires part { IsPart part.now }
        requires shared { ranges.now.shared.items ≡ shared_of part.now }
        requires alone { ranges.now.alone.items ≡ alone_of part.now }
        ensures { IfOk result
            (IsTested self.now.space self.now.locks.holds tid part.now) }
    {
        test_part(alloc, &self.space, &self.locks, tid, part, ranges)
    }

    /// Adds a vote whose part conflicts with none that is held.
    pub fn add_vote(
        &mut self,
        vote: Record,
        tid: Tid,
        participants: &Nodes,
        part: &Part,
        ranges: &Ranges,
    )
        requires memory { IsMemory self.old }
        requires vote { IsRecord vote }
        requires same { vote ≡ Record.Voted tid participants.now part.now }
        requires shared { ranges.now.shared.items ≡ shared_of part.now }
        requires alone { ranges.now.alone.items ≡ alone_of part.now }
        requires free { clash_of (held_parts (reverse self.old.records.items)) tid part.now ≡ None }
        requires room { HasDecisionRoom self.old }
        requires more { vec_len self.old.records + vec_len self.old.held + 2
            ≤ vec_capacity self.old.records }
        requires votes { vec_len self.old.held < vec_capacity self.old.held }
        requires locks { length ranges.now.shared.items + length ranges.now.alone.items
            ≤ self.old.locks.spare }
        ensures memory { IsMemory self.new }
        ensures room { HasDecisionRoom self.new }
        ensures records { self.new.records.items ≡ self.old.records.items ++ vote ∷ [] }
        ensures held { vec_len self.new.held ≡ vec_len self.old.held + 1 }
        ensures cut { self.new.cut ≡ self.old.cut }
        ensures front { self.new.front ≡ self.old.front }
        ensures node { self.new.node ≡ self.old.node }
        ensures nodes { self.new.nodes ≡ self.old.nodes }
    {
        self.locks
            .try_lock(tid, &ranges.shared, &ranges.alone)
            .unwrap();
        let place = self.records.len();
        self.held.push(Vote { tid, place }).unwrap();
        self.records.push(vote).unwrap();
    }

    /// Adds an execution, whose writes are made.
    pub fn add_execution(&mut self, executed: Record, tid: Tid, part: &Part)
        requires memory { IsMemory self.old }
        requires execution { IsRecord executed }
        requires same { executed ≡ Record.Executed tid part.now }
        requires room { HasDecisionRoom self.old }
        requires more { vec_len self.old.records + vec_len self.old.held + 1
            ≤ vec_capacity self.old.records }
        ensures memory { IsMemory self.new }
        ensures room { HasDecisionRoom self.new }
        ensures records { self.new.records.items ≡ self.old.records.items ++ executed ∷ [] }
        ensures held { vec_len self.new.held ≡ vec_len self.old.held }
        ensures cut { self.new.cut ≡ self.old.cut }
        ensures front { self.new.front ≡ self.old.front }
        ensures node { self.new.node ≡ self.old.node }
        ensures nodes { self.new.nodes ≡ self.old.nodes }
    {
        write_items(&mut self.space, part.as_slice());
        self.records.push(executed).unwrap();
    }

    /// Adds that the node will not vote for an id.
    pub fn add_force(&mut self, tid: Tid)
        requires memory { IsMemory self.old }
        requires force { IsRecord (Record.Forced tid) }
        requires room { HasDecisionRoom self.old }
        requires more { vec_len self.old.records + vec_len self.old.held + 1
            ≤ vec_capacity self.old.records }
        requires forced { vec_len self.old.forced < vec_capacity self.old.forced }
        ensures memory { IsMemory self.new }
        ensures room { HasDecisionRoom self.new }
        ensures records { self.new.records.items
            ≡ self.old.records.items ++ Record.Forced tid ∷ [] }
        ensures held { vec_len self.new.held ≡ vec_len self.old.held }
        ensures cut { self.new.cut ≡ self.old.cut }
        ensures front { self.new.front ≡ self.old.front }
        ensures node { self.new.node ≡ self.old.node }
        ensures nodes { self.new.nodes ≡ self.old.nodes }
    {
        self.forced.push(tid).unwrap();
        self.records.push(Record::Forced { tid }).unwrap();
    }

    /// Adds the decision of a held part: with yes its writes are made. Its ranges are free then. It
    /// takes no memory.
    pub fn add_decision(&mut self, tid: Tid, yes: bool)
        requires memory { IsMemory self.old }
        requires decision { IsRecord (Record.Decided tid yes) }
        requires held { IsSome (held_part_of tid (held_parts (reverse self.old.records.items))) }
        requires room { HasDecisionRoom self.old }
        ensures memory { IsMemory self.new }
        ensures room { HasDecisionRoom self.new }
        ensures records { self.new.records.items
            ≡ self.old.records.items ++ Record.Decided tid yes ∷ [] }
        ensures held { vec_len self.new.held + 1 ≤ vec_len self.old.held }
        ensures cut { self.new.cut ≡ self.old.cut }
        ensures front { self.new.front ≡ self.old.front }
        ensures node { self.new.node ≡ self.old.node }
        ensures nodes { self.new.nodes ≡ self.old.nodes }
    {
        write_decided(&self.records, &self.held, &mut self.space, tid, yes);
        forget(&mut self.held, tid);
        self.locks.release(tid);
        self.records.push(Record::Decided { tid, yes }).unwrap();
    }
}

impl Memory {
    /// Makes room for one record more and so many ranges, beside what there is room for.
    pub fn reserve(&mut self, ranges: usize) -> Result<(), NoMemory>
        requires memory { IsMemory self.old }
        requires room { HasDecisionRoom self.old }
        ensures memory { IsMemory self.new }
        ensures room { HasDecisionRoom self.new }
        ensures held_few { OnOk result (vec_len self.new.held < 2 ^ 32 - 2) }
        ensures more { OnOk result (vec_len self.new.records + vec_len self.new.held + 2
            ≤ vec_capacity self.new.records) }
        ensures forced { OnOk result (vec_len self.new.forced < vec_capacity self.new.forced) }
        ensures votes { OnOk result (vec_len self.new.held < vec_capacity self.new.held) }
        ensures ranges { OnOk result (ranges ≤ self.new.locks.spare) }
        ensures records { self.new.records.items ≡ self.old.records.items }
        ensures held { vec_len self.new.held ≡ vec_len self.old.held }
        ensures cut { self.new.cut ≡ self.old.cut }
        ensures front { self.new.front ≡ self.old.front }
        ensures node { self.new.node ≡ self.old.node }
        ensures nodes { self.new.nodes ≡ self.old.nodes }
    {
        if self.held.len() >= 4_294_967_294 {
            return Err(NoMemory);
        }
        make_room(&mut self.records, self.held.len() + 2, RECORDS_AT_ONCE)?;
        self.held.reserve(1)?;
        self.forced.reserve(1)?;
        self.locks.reserve(ranges)?;
        Ok(())
    }
}

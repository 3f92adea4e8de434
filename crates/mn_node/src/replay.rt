ghost use Rattle.std.specs.Prelude.{◌≡◌, ◌≤◌, ◌<◌, ◌+◌, ◌++◌, ◌∷◌, [], ℕ, Bool, List, length};
ghost use Rattle.std.specs.Prelude.{reverse, take, IfOk, OnOk, None, vec_len, vec_capacity};
ghost use Rattle.std.specs.List.{AllByRecursion};
ghost use Rattle.mn_base.specs.declared.ids.Tid.{Tid};
ghost use Rattle.mn_locks.specs.Locks.{held_of, holds_of};
ghost use Rattle.mn_mini.specs.Laws.{PartsAreApart};
ghost use Rattle.mn_mini.specs.Mini.{space_size};
ghost use Rattle.mn_mini.specs.Node.{HeldPart, has_forced, held_parts, space_of};
ghost use Rattle.mn_mini.specs.RecordGrammar.{IsPart, IsRecord};
ghost use Rattle.mn_node.specs.Held.{AreHeldVotes, IsVoteFor};
ghost use Rattle.mn_page.specs.Base.{base_of};
ghost use Rattle.mn_node.specs.Memory.{HasDecisionRoom, HasFront, IsFront, IsMadeByRecords};
ghost use Rattle.mn_node.specs.Memory.{IsMemory, is_among};
ghost use Rattle.mn_node.specs.Part.{alone_of, holds_by, part_holds, shared_of};

use crate::held::{Vote, copy_of, forget, part_of};
use crate::memory::{Memory, Shortened, write_decided};
use crate::part::{ranges_of, write_items};
use crate::space::Space;
use mn_base::{NoMemory, Tid};
use mn_locks::LockTable;
use mn_mini::{PartItem, Record, short_is_like_whole};
use std::alloc::Global;

/// Makes what a record writes, which stands behind these, and notes what it changes in their held
/// votes.
fn apply(
    before: &[Record],
    next: &Record,
    held: &mut Vec<Vote>,
    space: &mut Space,
) -> Result<(), NoMemory>
    requires size { length space.old ≡ space_size }
    requires sound { AllByRecursion IsRecord before.now }
    requires next { IsRecord next.now }
    requires held { AreHeldVotes before.now held.old.items }
    ensures space { OnOk result ((base : List ℕ) → space.old ≡ space_of base (reverse before.now)
        → space.new ≡ space_of base (next.now ∷ reverse before.now)) }
    ensures whole { length space.new ≡ space_size }
    ensures held { OnOk result (AreHeldVotes (before.now ++ next.now ∷ []) held.new.items) }
{
    match next {
        Record::Voted { tid, .. } => {
            let place = before.len();
            held.push(Vote { tid: *tid, place })?;
            Ok(())
        }
        Record::Executed { part, .. } => {
            write_items(space, part.as_slice());
            Ok(())
        }
        Record::Decided { tid, yes } => {
            write_decided(before, held, space, *tid, *yes);
            forget(held, *tid);
            Ok(())
        }
        Record::Forced { .. } => Ok(()),
    }
}

/// Makes what the records from a number on write, one after the other, and notes what they change
/// in the held votes.
fn write_from(
    records: &[Record],
    from: usize,
    held: &mut Vec<Vote>,
    space: &mut Space,
) -> Result<(), NoMemory>
    requires size { length space.old ≡ space_size }
    requires sound { AllByRecursion IsRecord records.now }
    requires within { from ≤ length records.now }
    requires held { AreHeldVotes (take from records.now) held.old.items }
    ensures space { OnOk result ((base : List ℕ)
        → space.old ≡ space_of base (reverse (take from records.now))
        → space.new ≡ space_of base (reverse records.now)) }
    ensures whole { length space.new ≡ space_size }
    ensures held { OnOk result (AreHeldVotes records.now held.new.items) }
{
    for number in from..records.len() {
        apply(&records[..number], &records[number], held, space)?;
    }
    Ok(())
}

/// Makes what records write, of which the log has the first shortened, and tells the votes whose
/// parts they hold at their end.
fn write_all(
    alloc: Global,
    records: &[Record],
    cut: usize,
    front: &Shortened,
    space: &mut Space,
) -> Result<Vec<Vote>, NoMemory>
    requires size { length space.old ≡ space_size }
    requires sound { AllByRecursion IsRecord records.now }
    requires front { IsFront records.now cut front.now }
    ensures space { OnOk result (space.new ≡ space_of space.old (reverse records.now)) }
    ensures whole { length space.new ≡ space_size }
    ensures held { IfOk result (λ held. AreHeldVotes records.now held.items) }
{
    short_is_like_whole();
    let mut in_front = Vec::new(alloc);
    write_from(&front.list, 0, &mut in_front, space)?;
    let mut held = copy_of(alloc, &front.held)?;
    write_from(records, cut, &mut held, space)?;
    Ok(held)
}

/// Notes the id that a record forces, if it does.
fn note_forced(forced: &mut Vec<Tid>, next: &Record) -> Result<(), NoMemory>
    ensures { (records : List Record)
        → ((tid : Tid) → is_among forced.old.items tid ≡ has_forced records tid)
        → OnOk result ((tid : Tid) → is_among forced.new.items tid
        ≡ has_forced (next.now ∷ records) tid) }
{
    if let Record::Forced { tid } = next {
        forced.push(*tid)?;
    }
    Ok(())
}

/// Notes the ids that these records force, which stand behind others.
fn note_all(forced: &mut Vec<Tid>, records: &[Record]) -> Result<(), NoMemory>
    ensures { (before : List Record)
        → ((tid : Tid) → is_among forced.old.items tid ≡ has_forced before tid)
        → OnOk result ((tid : Tid) → is_among forced.new.items tid
        ≡ has_forced (reverse records.now ++ before) tid) }
{
    for record in records {
        note_forced(forced, record)?;
    }
    Ok(())
}

/// The ids that were forced by these records, of which the log has the first shortened.
fn forced_of(
    alloc: Global,
    records: &[Record],
    cut: usize,
    front: &Shortened,
) -> Result<Vec<Tid>, NoMemory>
    requires front { IsFront records.now cut front.now }
    ensures { IfOk result (λ forced. (tid : Tid)
        → is_among forced.items tid ≡ has_forced (reverse records.now) tid) }
{
    short_is_like_whole();
    let mut forced = Vec::new(alloc);
    note_all(&mut forced, &front.list)?;
    note_all(&mut forced, &records[cut..])?;
    Ok(forced)
}

/// Takes the locks of a part, shared ones too. No other id holds them.
fn lock_part(
    alloc: Global,
    locks: &mut LockTable,
    tid: Tid,
    part: &[PartItem],
) -> Result<(), NoMemory>
    requires part { IsPart part.now }
    requires free { held_of locks.old.holds tid (shared_of part.now) (alone_of part.now) ≡ None }
    ensures { OnOk result (locks.new.holds
        ≡ locks.old.holds ++ holds_of tid (shared_of part.now) (alone_of part.now)) }
{
    let ranges = ranges_of(alloc, part)?;
    locks.reserve(ranges.shared.len() + ranges.alone.len())?;
    locks.try_lock(tid, &ranges.shared, &ranges.alone).unwrap();
    Ok(())
}

/// Takes the locks of a vote's part, shared ones too. No other id holds them.
fn lock_vote(
    alloc: Global,
    records: &[Record],
    vote: &Vote,
    locks: &mut LockTable,
) -> Result<(), NoMemory>
    requires sound { AllByRecursion IsRecord records.now }
    requires free { (h : HeldPart) × IsVoteFor records.now vote.now h
        × (held_of locks.old.holds h.tid (shared_of h.part) (alone_of h.part) ≡ None) }
    ensures { OnOk result ((h : HeldPart) → IsVoteFor records.now vote.now h
        → locks.new.holds ≡ locks.old.holds ++ part_holds h) }
{
    lock_part(alloc, locks, vote.tid, part_of(records, *vote))?;
    Ok(())
}

/// Takes the locks of the parts of these votes.
fn lock_held(
    alloc: Global,
    records: &[Record],
    held: &[Vote],
    locks: &mut LockTable,
) -> Result<(), NoMemory>
    requires sound { AllByRecursion IsRecord records.now }
    requires held { AreHeldVotes records.now held.now }
    requires apart { PartsAreApart (held_parts (reverse records.now)) }
    requires none { locks.old.holds ≡ [] }
    ensures { OnOk result (locks.new.holds ≡ holds_by (held_parts (reverse records.now))) }
{
    for vote in held {
        lock_vote(alloc, records, vote, locks)?;
    }
    Ok(())
}

/// What records make of a node's space, its locks, the ids that may not vote, and the held votes.
#[derive(Drop)]
struct Made {
    space: Space,
    locks: LockTable,
    forced: Vec<Tid>,
    held: Vec<Vote>,
}

/// What the records of a node of so many make, of which the log has the first shortened.
fn made_of(
    alloc: Global,
    node: u8,
    nodes: u8,
    records: &[Record],
    cut: usize,
    front: &Shortened,
) -> Result<Made, NoMemory>
    requires nodes { 0 < nodes }
    requires front { IsFront records.now cut front.now }
    requires sound { AllByRecursion IsRecord records.now }
    requires apart { PartsAreApart (held_parts (reverse records.now)) }
    ensures { IfOk result (λ made.
        IsMadeByRecords (base_of nodes node) records.now made.space made.locks.holds
        made.forced.items
        made.held.items) }
{
    let mut space = Space::base(alloc, node, nodes)?;
    let held = write_all(alloc, records, cut, front, &mut space)?;
    let forced = forced_of(alloc, records, cut, front)?;
    let mut locks = LockTable::new(alloc)?;
    lock_held(alloc, records, &held, &mut locks)?;
    Ok(Made {
        space,
        locks,
        forced,
        held,
    })
}

/// What a node of so many keeps in memory with these records, and the room for a decision of each
/// held part.
pub fn memory_of(
    alloc: Global,
    node: u8,
    nodes: u8,
    records: Vec<Record>,
) -> Result<Memory, NoMemory>
    requires nodes { 0 < nodes }
    requires sound { AllByRecursion IsRecord records.items }
    requires apart { PartsAreApart (held_parts (reverse records.items)) }
    ensures memory { IfOk result IsMemory }
    ensures room { IfOk result HasDecisionRoom }
    ensures records { IfOk result (λ memory. memory.records.items ≡ records.items) }
    ensures cut { IfOk result (λ memory. memory.cut ≡ 0) }
    ensures front { IfOk result HasFront }
    ensures node { IfOk result (λ memory. memory.node ≡ node) }
    ensures nodes { IfOk result (λ memory. memory.nodes ≡ nodes) }
{
    let front = Shortened::none(alloc);
    let made = made_of(alloc, node, nodes, &records, 0, &front)?;
    let mut records = records;
    records.reserve(made.held.len())?;
    Ok(Memory {
        node,
        nodes,
        records,
        cut: 0,
        front,
        space: made.space,
        locks: made.locks,
        forced: made.forced,
        held: made.held,
    })
}

impl Memory {
    /// Makes anew what the records make, and the room for a decision of each held part.
    pub fn rebuild(&mut self, alloc: Global) -> Result<(), NoMemory>
        requires nodes { 0 < self.old.nodes }
        requires sound { AllByRecursion IsRecord self.old.records.items }
        requires apart { PartsAreApart (held_parts (reverse self.old.records.items)) }
        requires front { HasFront self.old }
        ensures memory { OnOk result (IsMemory self.new) }
        ensures room { OnOk result (HasDecisionRoom self.new) }
        ensures records { self.new.records.items ≡ self.old.records.items }
        ensures cut { self.new.cut ≡ self.old.cut }
        ensures front { self.new.front ≡ self.old.front }
        ensures node { self.new.node ≡ self.old.node }
        ensures nodes { self.new.nodes ≡ self.old.nodes }
    {
        let made = made_of(
            alloc,
            self.node,
            self.nodes,
            &self.records,
            self.cut,
            &self.front,
        )?;
        self.records.reserve(made.held.len())?;
        self.space = made.space;
        self.locks = made.locks;
        self.forced = made.forced;
        self.held = made.held;
        Ok(())
    }
}

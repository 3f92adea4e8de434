ghost use Rattle.std.specs.Prelude.{◌≡◌, ◌≤◌, ◌<◌, ◌+◌, ◌++◌, [], length, map, IfOk, OnOk, OnErr};
ghost use Rattle.std.specs.Prelude.{◌↔◌, IsTrue, MatchResult, Some, None, vec_len, vec_capacity};
ghost use Rattle.mn_base.specs.Ids.{tid_same};
ghost use Rattle.mn_base.specs.Ranges.{ranges_meet, least_tid, lesser_tid};
ghost use Rattle.mn_locks.specs.Locks.{conflicts, holders, first_held, held_of, hold_of, holds_of};
ghost use Rattle.mn_locks.specs.Locks.{without};

use crate::{Held, Hold};
use mn_base::{NoMemory, Range, Tid};
use std::alloc::Global;
use std::marker::Model;

/// Room that a new table has at once.
const FIRST_ROOM: usize = 64;

/// The ranges that are held. Contracts see them as a list, in the order in which they were taken,
/// beside the number of further ranges for which there is room.
#[derive(Debug, Drop)]
pub struct LockTable {
    holds: Vec<Hold>,
}

impl Model for LockTable {
    ghost use Rattle.std.specs.Prelude.{◌-◌, vec_len, vec_capacity};
    ghost use Rattle.mn_locks.specs.Locks.{TableState};

    ghost Value = { TableState };

    ghost view = { λ t. record {
      holds = t.holds.items;
      spare = vec_capacity t.holds - vec_len t.holds;
    } };
}

/// The two ids are one.
fn is_same(a: Tid, b: Tid) -> bool
    ensures { result ≡ tid_same a b }
{
    a.run == b.run && a.client.0 == b.client.0 && a.serial == b.serial
}

/// The ranges have a byte in common, which an empty range has with none.
fn meet(a: Range, b: Range) -> bool
    ensures { result ≡ ranges_meet a b }
{
    let start = u64::from(a.start).max(u64::from(b.start));
    let a_end = u64::from(a.start) + u64::from(a.length);
    let b_end = u64::from(b.start) + u64::from(b.length);
    start < a_end.min(b_end)
}

/// A range asked for conflicts with one that is held.
fn is_against(hold: &Hold, tid: Tid, range: Range, alone: bool) -> bool
    ensures { result ≡ conflicts tid alone range hold.now }
{
    !is_same(hold.tid, tid) && (meet(range, hold.range) && (alone || hold.alone))
}

/// The lesser of an id and, if there is one, another.
fn lesser(tid: Tid, other: Option<Tid>) -> Tid
    ensures { result ≡ lesser_tid tid other }
{
    match other {
        Some(other) if other.precedes(tid) => other,
        _ => tid,
    }
}

/// The least other id with whose ranges this range conflicts.
fn least_holder(holds: &[Hold], tid: Tid, range: Range, alone: bool) -> Option<Tid>
    ensures { result ≡ least_tid (holders tid alone range holds.now) }
{
    let mut least = None;
    let mut left = holds;
    while let [before @ .., hold] = left {
        if is_against(hold, tid, range, alone) {
            least = Some(lesser(hold.tid, least));
        }
        left = before;
    }
    least
}

/// The first of the ranges that conflicts with what is held.
fn first_conflict(holds: &[Hold], tid: Tid, ranges: &[Range], alone: bool) -> Option<Held>
    ensures { result ≡ first_held holds.now tid alone ranges.now None }
{
    for range in ranges {
        if let Some(holder) = least_holder(holds, tid, *range, alone) {
            return Some(Held {
                range: *range,
                holder,
            });
        }
    }
    None
}

/// Puts ranges behind those that are held. There is room for them.
fn take(holds: &mut Vec<Hold>, tid: Tid, ranges: &[Range], alone: bool)
    requires { vec_len holds.old + length ranges.now ≤ vec_capacity holds.old }
    ensures taken { holds.new.items ≡ holds.old.items ++ map (hold_of tid alone) ranges.now }
    ensures room { vec_capacity holds.old ≤ vec_capacity holds.new }
{
    for range in ranges {
        holds
            .push(Hold {
                tid,
                range: *range,
                alone,
            })
            .unwrap();
    }
}

impl LockTable {
    /// A table in which nothing is held. NoMemory: there was none for its first room.
    pub fn new(alloc: Global) -> Result<LockTable, NoMemory>
        ensures { IfOk result (λ table. table.holds ≡ []) }
    {
        Ok(LockTable {
            holds: Vec::with_capacity(alloc, FIRST_ROOM)?,
        })
    }

    /// Makes room for so many more ranges. NoMemory: there was none; the room is as before.
    pub fn reserve(&mut self, ranges: usize) -> Result<(), NoMemory>
        ensures spare { OnOk result (ranges ≤ self.new.spare) }
        ensures no_less { self.old.spare ≤ self.new.spare }
        ensures failed { OnErr result (self.new.spare ≡ self.old.spare) }
        ensures holds { self.new.holds ≡ self.old.holds }
    {
        Ok(self.holds.reserve(ranges)?)
    }

    /// The held ranges, in the order in which they were taken.
    pub fn holds(&self) -> &[Hold]
        ensures { result.now ≡ self.now.holds }
    {
        &self.holds
    }

    /// Whether nothing is held.
    pub fn is_empty(&self) -> bool
        ensures { IsTrue result ↔ (self.now.holds ≡ []) }
    {
        self.holds.is_empty()
    }

    /// Takes ranges for an id, `reads` to be shared and `writes` alone, besides those that it holds
    /// already. Held exactly where one of them meets a range that another id holds and one of the
    /// two is to be alone; it names the first such range, reads before writes, and the least id
    /// that holds it, and then nothing has changed. It takes no memory.
    pub fn try_lock(&mut self, tid: Tid, reads: &[Range], writes: &[Range]) -> Result<(), Held>
        requires { length reads.now + length writes.now ≤ self.old.spare }
        ensures verdict { MatchResult result
            (λ _. held_of self.old.holds tid reads.now writes.now ≡ None)
            (λ held. held_of self.old.holds tid reads.now writes.now ≡ Some held) }
        ensures taken { OnOk result (self.new.holds
            ≡ self.old.holds ++ holds_of tid reads.now writes.now) }
        ensures spare { OnOk result (self.old.spare
            ≤ self.new.spare + (length reads.now + length writes.now)) }
        ensures refused { OnErr result (self.new ≡ self.old) }
    {
        self.test(tid, reads, writes)?;
        take(&mut self.holds, tid, reads, false);
        take(&mut self.holds, tid, writes, true);
        Ok(())
    }

    /// Whether the ranges could be taken for an id: the answer of `try_lock`, with nothing taken.
    pub fn test(&self, tid: Tid, reads: &[Range], writes: &[Range]) -> Result<(), Held>
        ensures { MatchResult result (λ _. held_of self.now.holds tid reads.now writes.now ≡ None)
            (λ held. held_of self.now.holds tid reads.now writes.now ≡ Some held) }
    {
        if let Some(held) = first_conflict(&self.holds, tid, reads, false) {
            return Err(held);
        }
        match first_conflict(&self.holds, tid, writes, true) {
            Some(held) => Err(held),
            None => Ok(()),
        }
    }

    /// Gives up all ranges of an id. It takes no memory.
    pub fn release(&mut self, tid: Tid)
        ensures left { self.new.holds ≡ without tid self.old.holds }
        ensures spare { self.old.spare ≤ self.new.spare }
    {
        self.holds.retain(|hold| !is_same(hold.tid, tid));
    }
}

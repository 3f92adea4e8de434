//! Lists merged by place.
ghost use Rattle.std.specs.Prelude.{◌≡◌, ◌<◌, ◌+◌, ◌∷◌, [], ℕ, List, Option, map, length};
ghost use Rattle.std.specs.Prelude.{get_or, IfOk, OnOk};
ghost use Rattle.mn_cell.specs.Runs.{placed_from};
ghost use Rattle.mn_runs.specs.Log.{entry_at, log_of, nobody};
ghost use Rattle.mn_runs.specs.declared.entry.Entry.{Entry as Step};
ghost use Rattle.mn_hist.specs.Merging.{AreOneLog, HaveCallers, Hold, put_at, put_list, put_lists};

use crate::lists::ClientLists;
use mn_base::NoMemory;
use mn_runs::{Entry, Log, Spot};
use std::alloc::Global;

/// Where no entry stands.
const NOWHERE: Spot = Spot { list: 0, place: 0 };

/// The spot of an entry of a list. NoMemory: it is too far behind.
fn spot_of(list: usize, index: usize) -> Result<Spot, NoMemory>
    ensures { IfOk result (λ spot. spot ≡ record { list = list; place = index + 1 }) }
{
    let (Ok(list), Ok(index)) = (u32::try_from(list), u32::try_from(index)) else {
        return Err(NoMemory);
    };
    match index.checked_add(1) {
        Some(place) => Ok(Spot { list, place }),
        None => Err(NoMemory),
    }
}

/// Puts the spot of an entry into the slot of its place.
#[inline(always)]
fn put(
    lists: &[Vec<(u64, Entry)>],
    order: &mut Vec<Spot>,
    at: usize,
    spot: Spot,
) -> Result<(), NoMemory>
    requires { at ≡ (entry_at (map (λ list. list.items) lists.now) spot).0 }
    ensures { OnOk result ((filled : List (Option Step))
        → Hold 0 (log_of (map (λ list. list.items) lists.now) order.old.items) filled
        → Hold 0 (log_of (map (λ list. list.items) lists.now) order.new.items)
        (put_at at (entry_at (map (λ list. list.items) lists.now) spot).1 filled)) }
{
    while order.len() < at {
        order.push(NOWHERE)?;
    }
    if order.len() == at {
        order.push(spot)?;
        return Ok(());
    }
    order[at] = spot;
    Ok(())
}

/// Puts an entry of a list.
#[inline(always)]
fn put_entry(
    lists: &[Vec<(u64, Entry)>],
    order: &mut Vec<Spot>,
    list: usize,
    index: usize,
) -> Result<(), NoMemory>
    requires list { list < length lists.now }
    requires index { index < length (get_or (map (λ list. list.items) lists.now) list []) }
    ensures { OnOk result ((filled : List (Option Step))
        → Hold 0 (log_of (map (λ list. list.items) lists.now) order.old.items) filled
        → Hold 0 (log_of (map (λ list. list.items) lists.now) order.new.items)
        (put_list (get_or (get_or (map (λ list. list.items) lists.now) list []) index nobody ∷ [])
        filled)) }
{
    let entry = &lists[list][index];
    put(lists, order, entry.0 as usize, spot_of(list, index)?)
}

/// Puts the entries of a list, in order, so that slots are added one after another.
fn put_entries(
    lists: &[Vec<(u64, Entry)>],
    order: &mut Vec<Spot>,
    list: usize,
) -> Result<(), NoMemory>
    requires { list < length lists.now }
    ensures { OnOk result ((filled : List (Option Step))
        → Hold 0 (log_of (map (λ list. list.items) lists.now) order.old.items) filled
        → Hold 0 (log_of (map (λ list. list.items) lists.now) order.new.items)
        (put_list (get_or (map (λ list. list.items) lists.now) list []) filled)) }
{
    for index in 0..lists[list].len() {
        put_entry(lists, order, list, index)?;
    }
    Ok(())
}

/// Puts the entries of all lists.
fn put_all(lists: &[Vec<(u64, Entry)>], order: &mut Vec<Spot>) -> Result<(), NoMemory>
    requires { order.old.items ≡ [] }
    ensures { OnOk result (Hold 0
        (log_of (map (λ list. list.items) lists.now) order.new.items)
        (put_lists (map (λ list. list.items) lists.now) [])) }
{
    for list in 0..lists.len() {
        put_entries(lists, order, list)?;
    }
    Ok(())
}

/// The lists as plain ones.
fn all_lists(alloc: Global, lists: ClientLists) -> Result<Vec<Vec<(u64, Entry)>>, NoMemory>
    ensures { IfOk result (λ all. map (λ list. list.items) all.items
        ≡ map (λ list. list.entries) lists) }
{
    let mut all = Vec::with_capacity(alloc, lists.as_slice().len())?;
    for list in lists.into_vec() {
        all.push(list.into_vec())?;
    }
    Ok(all)
}

/// How many places the lists tell of.
fn places_of(lists: &[Vec<(u64, Entry)>]) -> usize {
    let mut places = 0;
    for list in lists {
        if let Some(entry) = list.last() {
            places = places.max((entry.0 as usize).saturating_add(1));
        }
    }
    places
}

/// The whole log of a run, from the lists of its clients and coordinators: each place once, in
/// order. The nodes' lists tell no more, since a client or a coordinator made each entry of them.
/// It takes time linear in the entries, and moves none of them.
pub fn merge(alloc: Global, lists: ClientLists) -> Result<Log, NoMemory>
    requires { (nodes : List (List (ℕ × Step))) × (clock : ℕ) × AreOneLog nodes lists clock
        × HaveCallers nodes }
    ensures { (nodes : List (List (ℕ × Step))) (clock : ℕ) (one : AreOneLog nodes lists clock)
        → HaveCallers nodes → IfOk result (λ log. log ≡ placed_from 0 one.log) }
{
    let all = all_lists(alloc, lists)?;
    let mut order = Vec::with_capacity(alloc, places_of(&all))?;
    put_all(&all, &mut order)?;
    Ok(Log::of_lists(all, order))
}

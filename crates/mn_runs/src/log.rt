//! The log of a whole run.
ghost use Rattle.std.specs.Prelude.{◌≡◌, ◌<◌, ◌∷◌, [], length, map, get_or, IfOk};
ghost use Rattle.mn_runs.specs.Log.{AreSpots, IsSpot, entry_at, log_of, nobody};

use crate::Entry;
use mn_base::NoMemory;
use std::alloc::Global;
use std::marker::Model;

/// Where an entry stands: in the list of this number, from 0, at this place, from 1. A place of 0
/// is that of no entry.
#[derive(Clone, Copy, Debug)]
pub struct Spot {
    pub list: u32,
    pub place: u32,
}

/// The entries of a whole run with their places, in order. They stay in the lists of the actors
/// that made them. Contracts see them as a list.
#[derive(Debug, Drop)]
pub struct Log {
    lists: Vec<Vec<(u64, Entry)>>,
    order: Vec<Spot>,
}

impl Model for Log {
    ghost use Rattle.std.specs.Prelude.{ℕ, List, map};
    ghost use Rattle.mn_runs.specs.declared.entry.Entry.{Entry};
    ghost use Rattle.mn_runs.specs.Log.{AreSpots, log_of};

    ghost Value = { List (ℕ × Entry) };

    ghost view = { λ l. log_of (map (λ list. list.items) l.lists.items) l.order.items };

    ghost invariant = { λ l. AreSpots (map (λ list. list.items) l.lists.items) l.order.items };
}

/// The entry at a spot.
fn entry_at<'a>(lists: &'a [Vec<(u64, Entry)>], spot: Spot) -> &'a (u64, Entry)
    requires { IsSpot (map (λ list. list.items) lists.now) spot }
    ensures { result.now ≡ entry_at (map (λ list. list.items) lists.now) spot }
{
    &lists[spot.list as usize][spot.place as usize - 1]
}

/// The order in which a lone list has its entries. NoMemory: there was no memory for it, or they
/// are too many.
fn in_order(alloc: Global, entries: &[(u64, Entry)]) -> Result<Vec<Spot>, NoMemory>
    ensures spots { IfOk result (λ order. AreSpots (entries.now ∷ []) order.items) }
    ensures order { IfOk result (λ order. log_of (entries.now ∷ []) order.items ≡ entries.now) }
{
    let Ok(length) = u32::try_from(entries.len()) else {
        return Err(NoMemory);
    };
    let mut order = Vec::with_capacity(alloc, length as usize)?;
    for before in 0..length {
        order.push(Spot {
            list: 0,
            place: before + 1,
        })?;
    }
    Ok(order)
}

impl Log {
    /// No entry. It takes no memory.
    pub fn empty(alloc: Global) -> Self
        ensures { result ≡ [] }
    {
        Log {
            lists: Vec::new(alloc),
            order: Vec::new(alloc),
        }
    }

    /// These entries, which are one list. NoMemory: there was no memory for their order, or they
    /// are too many.
    pub fn of_list(alloc: Global, entries: Vec<(u64, Entry)>) -> Result<Self, NoMemory>
        ensures { IfOk result (λ log. log ≡ entries.items) }
    {
        let order = in_order(alloc, &entries)?;
        let mut lists = Vec::with_capacity(alloc, 1)?;
        lists.push(entries)?;
        Ok(Log { lists, order })
    }

    /// The entries of these lists, in this order. It takes no memory.
    pub fn of_lists(lists: Vec<Vec<(u64, Entry)>>, order: Vec<Spot>) -> Self
        requires { AreSpots (map (λ list. list.items) lists.items) order.items }
        ensures { result ≡ log_of (map (λ list. list.items) lists.items) order.items }
    {
        Log { lists, order }
    }

    /// How many entries there are.
    pub fn len(&self) -> usize
        ensures { result ≡ length self.now }
    {
        self.order.len()
    }

    /// The entry of this place, from 0.
    #[inline(always)]
    pub fn entry(&self, place: usize) -> &Entry
        requires { place < length self.now }
        ensures { result.now ≡ (get_or self.now place nobody).1 }
    {
        &entry_at(&self.lists, self.order[place]).1
    }
}

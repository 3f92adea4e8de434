ghost use Rattle.std.specs.Prelude.{◌≡◌, ◌≤◌, ◌+◌, [], ◌∷◌, ◌++◌, None, length, take, option_map};
ghost use Rattle.std.specs.Prelude.{option_and_then, IfOk, IsTrue, OnOk, OnErr};
ghost use Rattle.std.specs.BTreeMap.{ContainsKey, get};
ghost use Rattle.std.specs.List.{AllByRecursion};
ghost use Rattle.mn_base.specs.Order.{key_cmp};
ghost use Rattle.mn_base.specs.Store.{pairs_within, pairs_without, value_at, is_ascending};
ghost use Rattle.mn_base.specs.Store.{pairs_after_step};
ghost use Rattle.mn_plain.specs.Run.{pairs_after};
ghost use Rattle.mn_plain.specs.Table.{shown, pairs_set, KeepsPlaces, HasPlace, from_low, to_high};
ghost use Rattle.mn_plain.specs.Table.{are_turned};

use crate::ordered::OrderedKey;
use mn_base::{Key, NoMemory, Pair, Step, TryCopy, Value, copies_of, key_precedes};
use std::alloc::Global;
use std::collections::BTreeMap;
use std::ops::Bound;

/// The pairs of a version: at each key its value. A place without a value has no pair: it is memory
/// for one.
pub type Table = BTreeMap<OrderedKey, Option<Value>>;

/// The value at a place.
fn value_in<'a>(place: Option<&'a Option<Value>>) -> Option<&'a Value>
    ensures { option_map (λ v. v.now) result
        ≡ option_and_then (λ v. v) (option_map (λ p. p.now) place.entry) }
{
    match place {
        Some(Some(value)) => Some(value),
        Some(None) | None => None,
    }
}

/// What the pairs have at a key. NoMemory: there was no memory for a copy of the key.
pub fn find<'a>(alloc: Global, table: &'a Table, key: &Key) -> Result<Option<&'a Value>, NoMemory>
    ensures { IfOk result (λ found. option_map (λ v. v.now) found
        ≡ value_at (shown table.now.entries) key.now) }
{
    let key = OrderedKey::copy_of(alloc, key)?;
    // Its clause says that the keys ascend.
    let _len = table.len();
    Ok(value_in(table.get(&key)))
}

/// Sets what stands at a key. NoMemory: the key had no place, and there was no memory for one.
fn set(table: &mut Table, key: OrderedKey, value: Option<Value>) -> Result<(), NoMemory>
    ensures pairs { OnOk result (shown table.new.entries
        ≡ pairs_set (shown table.old.entries) key value) }
    ensures there { OnOk result (ContainsKey key_cmp table.new key) }
    ensures kept { OnErr result (table.new.entries ≡ table.old.entries) }
    ensures refused { OnErr result (get key_cmp table.old key ≡ None) }
    ensures places { KeepsPlaces table.old table.new }
{
    match table.insert(key, value) {
        Ok(_) => Ok(()),
        Err(_) => Err(NoMemory),
    }
}

/// Makes a place for a key, if it has none.
fn add_place(table: &mut Table, key: OrderedKey) -> Result<(), NoMemory>
    ensures same { shown table.new.entries ≡ shown table.old.entries }
    ensures there { OnOk result (ContainsKey key_cmp table.new key) }
    ensures places { KeepsPlaces table.old table.new }
{
    if table.contains_key(&key) {
        return Ok(());
    }
    set(table, key, None)
}

/// Makes a place for the key that a step changes, if it has none.
fn add_place_for(alloc: Global, table: &mut Table, step: &Step) -> Result<(), NoMemory>
    ensures same { shown table.new.entries ≡ shown table.old.entries }
    ensures there { OnOk result (HasPlace table.new step.now) }
    ensures places { KeepsPlaces table.old table.new }
{
    match step {
        Step::Put { key, .. } | Step::Del { key } => {
            add_place(table, OrderedKey::copy_of(alloc, key)?)
        }
        Step::Get { .. } | Step::Check { .. } => Ok(()),
    }
}

/// Makes a place for each key that a step changes.
fn add_places(alloc: Global, table: &mut Table, steps: &[Step]) -> Result<(), NoMemory>
    ensures same { shown table.new.entries ≡ shown table.old.entries }
    ensures there { OnOk result (AllByRecursion (HasPlace table.new) steps.now) }
{
    for step in steps {
        add_place_for(alloc, table, step)?;
    }
    Ok(())
}

/// Sets what stands at a key that has a place.
fn set_there(table: &mut Table, key: Key, value: Option<Value>)
    requires { ContainsKey key_cmp table.old key }
    ensures pairs { shown table.new.entries ≡ pairs_set (shown table.old.entries) key value }
    ensures places { KeepsPlaces table.old table.new }
{
    if set(table, OrderedKey::from_key(key), value).is_err() {
        unreachable!();
    }
}

/// Does a step. The key that it changes has a place.
fn take_step(table: &mut Table, step: Step)
    requires { HasPlace table.old step }
    ensures pairs { shown table.new.entries ≡ pairs_after_step (shown table.old.entries) step }
    ensures places { KeepsPlaces table.old table.new }
{
    match step {
        Step::Put { key, value } => set_there(table, key, Some(value)),
        Step::Del { key } => set_there(table, key, None),
        Step::Get { .. } | Step::Check { .. } => {}
    }
}

/// Does the steps. Each key that they change has a place.
fn take_each(table: &mut Table, steps: Vec<Step>)
    requires { AllByRecursion (HasPlace table.old) steps.items }
    ensures { shown table.new.entries ≡ pairs_after (shown table.old.entries) steps.items }
{
    for step in steps {
        take_step(table, step);
    }
}

/// Does the steps, or nothing where there is no memory for the pairs that they may add. Places
/// without a value may be left.
fn take_in_places(alloc: Global, table: &mut Table, steps: &[Step]) -> Result<(), NoMemory>
    ensures taken { OnOk result (shown table.new.entries
        ≡ pairs_after (shown table.old.entries) steps.now) }
    ensures kept { OnErr result (shown table.new.entries ≡ shown table.old.entries) }
{
    let copies = copies_of(alloc, steps)?;
    add_places(alloc, table, steps)?;
    take_each(table, copies);
    Ok(())
}

/// Removes the place of a key where it has no value.
fn clear_place(alloc: Global, table: &mut Table, key: &Key)
    ensures { shown table.new.entries ≡ shown table.old.entries }
{
    let Ok(key) = OrderedKey::copy_of(alloc, key) else {
        return;
    };
    if let Some(None) = table.get(&key) {
        table.remove(&key);
    }
}

/// Removes the places without a value among those of the keys that the steps change. Where they
/// were taken, a Put has left a value, or a Del of its key stands behind it.
fn clear_places(alloc: Global, table: &mut Table, steps: &[Step], taken: bool)
    ensures { shown table.new.entries ≡ shown table.old.entries }
{
    for step in steps {
        match step {
            Step::Put { key, .. } => {
                if !taken {
                    clear_place(alloc, table, key);
                }
            }
            Step::Del { key } => clear_place(alloc, table, key),
            Step::Get { .. } | Step::Check { .. } => {}
        }
    }
}

/// Removes what stands at a key.
fn remove(table: &mut Table, key: &OrderedKey)
    ensures { shown table.new.entries ≡ pairs_without (shown table.old.entries) key.now }
{
    // Its clause says that the keys ascend.
    let _len = table.len();
    table.remove(key);
}

/// Does a step alone, with one search, or nothing where there is no memory for it.
fn take_lone(alloc: Global, table: &mut Table, step: &Step) -> Result<(), NoMemory>
    ensures taken { OnOk result (shown table.new.entries
        ≡ pairs_after_step (shown table.old.entries) step.now) }
    ensures kept { OnErr result (shown table.new.entries ≡ shown table.old.entries) }
{
    match step {
        Step::Put { key, value } => {
            let value = value.try_copy(alloc)?;
            set(table, OrderedKey::copy_of(alloc, key)?, Some(value))
        }
        Step::Del { key } => {
            remove(table, &OrderedKey::copy_of(alloc, key)?);
            Ok(())
        }
        Step::Get { .. } | Step::Check { .. } => Ok(()),
    }
}

/// Does the steps, or nothing where there is no memory for the pairs that they may add.
pub fn take_steps(alloc: Global, table: &mut Table, steps: &[Step]) -> Result<(), NoMemory>
    ensures taken { OnOk result (shown table.new.entries
        ≡ pairs_after (shown table.old.entries) steps.now) }
    ensures kept { OnErr result (shown table.new.entries ≡ shown table.old.entries) }
{
    if let [step] = steps {
        return take_lone(alloc, table, step);
    }
    let taken = take_in_places(alloc, table, steps);
    clear_places(alloc, table, steps, taken.is_ok());
    taken
}

/// The table of these pairs, which stand in order of key.
pub fn of_pairs(alloc: Global, pairs: Vec<Pair>) -> Result<Table, NoMemory>
    requires { IsTrue (is_ascending pairs.items) }
    ensures { IfOk result (λ table. shown table.entries ≡ pairs.items) }
{
    let mut table = BTreeMap::new(alloc);
    for pair in pairs {
        let Pair { key, value } = pair;
        set(&mut table, OrderedKey::from_key(key), Some(value))?;
    }
    Ok(table)
}

/// Adds a copy of the pair of a place, if it has a value.
fn push_copy(
    alloc: Global,
    found: &mut Vec<Pair>,
    key: &OrderedKey,
    value: &Option<Value>,
) -> Result<(), NoMemory>
    ensures pairs { OnOk result (found.new.items
        ≡ found.old.items ++ shown ((key.now, value.now) ∷ [])) }
    ensures len { OnOk result (length found.new.items ≤ length found.old.items + 1) }
{
    if let Some(value) = value {
        found.push(Pair {
            key: key.as_key().try_copy(alloc)?,
            value: value.try_copy(alloc)?,
        })?;
    }
    Ok(())
}

/// Copies of the pairs, in order of key.
pub fn pairs_of(alloc: Global, table: &Table) -> Result<Vec<Pair>, NoMemory>
    ensures pairs { IfOk result (λ pairs. pairs.items ≡ shown table.now.entries) }
    ensures ascend { IfOk result (λ pairs. IsTrue (is_ascending pairs.items)) }
{
    let mut pairs = Vec::new(alloc);
    for (key, value) in table {
        push_copy(alloc, &mut pairs, key, value)?;
    }
    Ok(pairs)
}

/// A table of the same pairs.
pub fn copy_of(alloc: Global, table: &Table) -> Result<Table, NoMemory>
    ensures { IfOk result (λ copy. shown copy.entries ≡ shown table.now.entries) }
{
    of_pairs(alloc, pairs_of(alloc, table)?)
}

/// How many pairs there are.
pub fn count_of(table: &Table) -> usize
    ensures { result ≡ length (shown table.now.entries) }
{
    let mut count = 0usize;
    for (_, value) in table {
        if value.is_some() {
            count += 1;
        }
    }
    count
}

/// Where the pairs at or above `low` begin.
fn from_low(alloc: Global, low: &Option<Key>) -> Result<Bound<OrderedKey>, NoMemory>
    ensures { IfOk result (λ bound. bound ≡ from_low low.now) }
{
    match low {
        Some(key) => Ok(Bound::Included(OrderedKey::copy_of(alloc, key)?)),
        None => Ok(Bound::Unbounded),
    }
}

/// Where the pairs below `high` end.
fn to_high(alloc: Global, high: &Option<Key>) -> Result<Bound<OrderedKey>, NoMemory>
    ensures { IfOk result (λ bound. bound ≡ to_high high.now) }
{
    match high {
        Some(key) => Ok(Bound::Excluded(OrderedKey::copy_of(alloc, key)?)),
        None => Ok(Bound::Unbounded),
    }
}

/// Whether `high` is below `low`.
fn are_turned(low: &Option<Key>, high: &Option<Key>) -> bool
    ensures { result ≡ are_turned low.now high.now }
{
    match (low, high) {
        (Some(low), Some(high)) => key_precedes(high.as_slice(), low.as_slice()),
        _ => false,
    }
}

/// Copies of the first `limit` pairs at or above `low` and below `high`. An absent bound doesn't
/// bound.
pub fn within(
    alloc: Global,
    table: &Table,
    low: &Option<Key>,
    high: &Option<Key>,
    limit: u32,
) -> Result<Vec<Pair>, NoMemory>
    ensures { IfOk result (λ found. found.items
        ≡ take limit (pairs_within (shown table.now.entries) low.now high.now)) }
{
    let mut found = Vec::new(alloc);
    if are_turned(low, high) {
        return Ok(found);
    }
    let bounds = (from_low(alloc, low)?, to_high(alloc, high)?);
    for (key, value) in table.range(bounds) {
        if found.len() >= limit as usize {
            return Ok(found);
        }
        push_copy(alloc, &mut found, key, value)?;
    }
    Ok(found)
}

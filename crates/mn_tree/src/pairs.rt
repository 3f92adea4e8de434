ghost use Rattle.std.specs.Prelude.{◌≡◌, ◌++◌, ◌∷◌, [], option_map, IfOk, OnOk, bytes_eq};
ghost use Rattle.std.specs.Option.{option_eq};
ghost use Rattle.mn_base.specs.Store.{value_at, pairs_with, pairs_without};

use mn_base::{Key, NoMemory, Pair, TryCopy, Value, key_precedes};
use std::alloc::Global;

/// What the pairs have at a key.
pub fn value_of<'a>(pairs: &'a [Pair], key: &Key) -> Option<&'a Value>
    ensures { option_map (λ v. v.now) result ≡ value_at pairs.now key.now }
{
    for pair in pairs {
        if pair.key.as_slice() == key.as_slice() {
            return Some(&pair.value);
        }
    }
    None
}

/// Whether a key has just the wanted value, or none where none is wanted.
pub fn is_found(found: Option<&Value>, want: &Option<Value>) -> bool
    ensures { result ≡ option_eq bytes_eq (option_map (λ v. v.now) found.entry) want.now }
{
    match (found, want) {
        (Some(found), Some(want)) => found.as_slice() == want.as_slice(),
        (None, None) => true,
        _ => false,
    }
}

pub fn copy_of(alloc: Global, found: Option<&Value>) -> Result<Option<Value>, NoMemory>
    ensures { IfOk result (λ copy. copy ≡ option_map (λ v. v.now) found.entry) }
{
    match found {
        Some(value) => Ok(Some(value.try_copy(alloc)?)),
        None => Ok(None),
    }
}

/// Adds a pair.
fn push_pair(alloc: Global, pairs: &mut Vec<Pair>, key: &Key, value: &Value) -> Result<(), NoMemory>
    ensures { OnOk result (pairs.new.items
        ≡ pairs.old.items ++ record { key = key.now; value = value.now } ∷ []) }
{
    let key = key.try_copy(alloc)?;
    let value = value.try_copy(alloc)?;
    pairs.push(Pair { key, value })?;
    Ok(())
}

/// Adds a new pair and copies of others behind these.
fn push_tail(
    alloc: Global,
    pairs: &mut Vec<Pair>,
    key: &Key,
    value: &Value,
    after: &[Pair],
) -> Result<(), NoMemory>
    ensures { OnOk result (pairs.new.items
        ≡ pairs.old.items ++ record { key = key.now; value = value.now } ∷ after.now) }
{
    push_pair(alloc, pairs, key, value)?;
    for pair in after {
        push_pair(alloc, pairs, &pair.key, &pair.value)?;
    }
    Ok(())
}

/// Adds the pairs with this value of the key, still in order.
fn push_pairs_with(
    alloc: Global,
    found: &mut Vec<Pair>,
    pairs: &[Pair],
    key: &Key,
    value: &Value,
) -> Result<(), NoMemory>
    ensures { OnOk result (found.new.items
        ≡ found.old.items ++ pairs_with pairs.now key.now value.now) }
{
    for (at, pair) in pairs.iter().enumerate() {
        if key_precedes(key.as_slice(), pair.key.as_slice()) {
            return push_tail(alloc, found, key, value, &pairs[at..]);
        }
        if pair.key.as_slice() == key.as_slice() {
            return push_tail(alloc, found, key, value, &pairs[at + 1..]);
        }
        push_pair(alloc, found, &pair.key, &pair.value)?;
    }
    push_pair(alloc, found, key, value)
}

/// The pairs with this value of the key, still in order.
pub fn with_pair(
    alloc: Global,
    pairs: &[Pair],
    key: &Key,
    value: &Value,
) -> Result<Vec<Pair>, NoMemory>
    ensures { IfOk result (λ found. found.items ≡ pairs_with pairs.now key.now value.now) }
{
    let mut found = Vec::with_capacity(alloc, pairs.len().saturating_add(1))?;
    push_pairs_with(alloc, &mut found, pairs, key, value)?;
    Ok(found)
}

/// The pairs without the key.
pub fn without_pair(alloc: Global, pairs: &[Pair], key: &Key) -> Result<Vec<Pair>, NoMemory>
    ensures { IfOk result (λ found. found.items ≡ pairs_without pairs.now key.now) }
{
    let mut found = Vec::new(alloc);
    for pair in pairs {
        if pair.key.as_slice() != key.as_slice() {
            push_pair(alloc, &mut found, &pair.key, &pair.value)?;
        }
    }
    Ok(found)
}

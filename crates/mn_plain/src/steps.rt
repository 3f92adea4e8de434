ghost use Rattle.std.specs.Prelude.{◌≡◌, ◌≤◌, true, false, length, option_map, bytes_eq, IfOk};
ghost use Rattle.std.specs.Option.{option_eq};
ghost use Rattle.mn_base.specs.Store.{ran, value_at};
ghost use Rattle.mn_plain.specs.Run.{pairs_after, left_by, StepTells, pairs_left};
ghost use Rattle.mn_plain.specs.Table.{shown};

use crate::table::{Table, find};
use mn_base::{Found, Founds, Key, NoMemory, Reply, Step, TryCopy, Value};
use std::alloc::Global;

/// What a key has after a step, when it had this before.
fn left<'a>(found: Option<&'a Value>, step: &'a Step, key: &Key) -> Option<&'a Value>
    ensures { option_map (λ v. v.now) result
        ≡ left_by (option_map (λ v. v.now) found.entry) step.now key.now }
{
    match step {
        Step::Put { key: other, value } => {
            if other.as_slice() == key.as_slice() {
                Some(value)
            } else {
                found
            }
        }
        Step::Del { key: other } => {
            if other.as_slice() == key.as_slice() {
                None
            } else {
                found
            }
        }
        Step::Get { .. } | Step::Check { .. } => found,
    }
}

/// What the pairs have at a key after the steps.
fn value_after<'a>(
    alloc: Global,
    table: &'a Table,
    steps: &'a [Step],
    key: &Key,
) -> Result<Option<&'a Value>, NoMemory>
    ensures { IfOk result (λ found. option_map (λ v. v.now) found
        ≡ value_at (pairs_after (shown table.now.entries) steps.now) key.now) }
{
    let mut found = find(alloc, table, key)?;
    for step in steps {
        found = left(found, step, key);
    }
    Ok(found)
}

fn is_same(found: Option<&Value>, want: &Option<Value>) -> bool
    ensures { result ≡ option_eq bytes_eq (option_map (λ v. v.now) found.entry) want.now }
{
    match (found, want) {
        (Some(found), Some(want)) => found.as_slice() == want.as_slice(),
        (None, None) => true,
        _ => false,
    }
}

fn copy_of(alloc: Global, found: Option<&Value>) -> Result<Option<Value>, NoMemory>
    ensures { IfOk result (λ copy. copy ≡ option_map (λ v. v.now) found.entry) }
{
    match found {
        Some(value) => Ok(Some(value.try_copy(alloc)?)),
        None => Ok(None),
    }
}

/// Notes what a step tells after those before it: a Get what it finds. The answer is what a Check
/// finds that isn't met.
fn note(
    alloc: Global,
    table: &Table,
    before: &[Step],
    step: &Step,
    values: &mut Vec<Option<Value>>,
) -> Result<Option<Option<Value>>, NoMemory>
    ensures { IfOk result (StepTells (pairs_after (shown table.now.entries) before.now) step.now
        values.old.items values.new.items) }
{
    match step {
        Step::Get { key } => {
            let found = value_after(alloc, table, before, key)?;
            values.push(copy_of(alloc, found)?)?;
            Ok(None)
        }
        Step::Check { key, want } => {
            let found = value_after(alloc, table, before, key)?;
            if is_same(found, want) {
                return Ok(None);
            }
            Ok(Some(copy_of(alloc, found)?))
        }
        Step::Put { .. } | Step::Del { .. } => Ok(None),
    }
}

/// The reply to a transaction of these steps. The pairs stay as they are.
pub fn reply_to(alloc: Global, table: &Table, steps: &[Step]) -> Result<Reply, NoMemory>
    requires { length steps.now ≤ 16 }
    ensures { IfOk result (λ reply. ran (shown table.now.entries) steps.now
        ≡ record {
          pairs = pairs_left (shown table.now.entries) steps.now reply;
          reply = reply;
        }) }
{
    let mut values = Vec::new(alloc);
    for (at, step) in steps.iter().enumerate() {
        if let Some(found) = note(alloc, table, &steps[..at], step, &mut values)? {
            return Ok(Reply::Unmet {
                step: (at + 1) as u8,
                found: Found::new(alloc, found)?,
            });
        }
    }
    Ok(Reply::Values {
        found: Founds::from_vec(values),
    })
}

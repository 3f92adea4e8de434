ghost use Rattle.std.specs.Prelude.{◌≡◌, ◌≤◌, ◌+◌, ◌∷◌, length, OnOk, bytes_eq, codes};
ghost use Rattle.mn_script.specs.Words.{word_at, told_at, GivesPart, Gives};
ghost use Rattle.mn_script.specs.Lines.{literal_at, absent_or_is, want_at, get_step, put_step};
ghost use Rattle.mn_script.specs.Lines.{del_step, check_step, step_at, entry_at, steps_at};
ghost use Rattle.mn_script.specs.Lines.{GivesSteps};

use crate::error::LineError;
use crate::words::{key, next, value, word, wrong};
use mn_base::{Step, Value};
use std::alloc::Global;

/// This very word.
pub fn literal(line: &[u8], at: &mut usize, wanted: &[u8]) -> Result<(), LineError>
    requires { at.old ≤ length line.now + 1 }
    ensures said { GivesPart result at.new (literal_at wanted.now line.now at.old) }
    ensures within { OnOk result (at.new ≤ length line.now + 1) }
{
    if word(line, *at) != wanted {
        return Err(wrong(line, *at));
    }
    *at = next(line, *at);
    Ok(())
}

/// Whether a value is wanted, by the word `is`, or none, by `absent`.
fn is_wanted(line: &[u8], at: &mut usize) -> Result<bool, LineError>
    requires { at.old ≤ length line.now + 1 }
    ensures said { GivesPart result at.new
        (told_at line.now at.old (absent_or_is (word_at line.now at.old))) }
    ensures within { OnOk result (at.new ≤ length line.now + 1) }
{
    let word = word(line, *at);
    if word == b"absent".as_slice() {
        *at = next(line, *at);
        return Ok(false);
    }
    if word == b"is".as_slice() {
        *at = next(line, *at);
        return Ok(true);
    }
    Err(wrong(line, *at))
}

#[tactic(auto, unfolding(crate::specs::Lines::want_at))]
fn want(alloc: Global, line: &[u8], at: &mut usize) -> Result<Option<Value>, LineError>
    requires { at.old ≤ length line.now + 1 }
    ensures said { GivesPart result at.new (want_at line.now at.old) }
    ensures within { OnOk result (at.new ≤ length line.now + 1) }
{
    if is_wanted(line, at)? {
        return Ok(Some(value(alloc, line, at)?));
    }
    Ok(None)
}

#[tactic(auto, unfolding(crate::specs::Lines::get_step))]
#[inline(always)]
pub fn get(alloc: Global, line: &[u8], at: &mut usize) -> Result<Step, LineError>
    requires { at.old ≤ length line.now + 1 }
    ensures said { GivesPart result at.new (get_step line.now at.old) }
    ensures within { OnOk result (at.new ≤ length line.now + 1) }
{
    let key = key(alloc, line, at)?;
    Ok(Step::Get { key })
}

#[tactic(auto, unfolding(crate::specs::Lines::put_step))]
#[inline(always)]
pub fn put(alloc: Global, line: &[u8], at: &mut usize) -> Result<Step, LineError>
    requires { at.old ≤ length line.now + 1 }
    ensures said { GivesPart result at.new (put_step line.now at.old) }
    ensures within { OnOk result (at.new ≤ length line.now + 1) }
{
    let key = key(alloc, line, at)?;
    let value = value(alloc, line, at)?;
    Ok(Step::Put { key, value })
}

#[tactic(auto, unfolding(crate::specs::Lines::del_step))]
pub fn del(alloc: Global, line: &[u8], at: &mut usize) -> Result<Step, LineError>
    requires { at.old ≤ length line.now + 1 }
    ensures said { GivesPart result at.new (del_step line.now at.old) }
    ensures within { OnOk result (at.new ≤ length line.now + 1) }
{
    let key = key(alloc, line, at)?;
    Ok(Step::Del { key })
}

#[tactic(auto, unfolding(crate::specs::Lines::check_step))]
fn check(alloc: Global, line: &[u8], at: &mut usize) -> Result<Step, LineError>
    requires { at.old ≤ length line.now + 1 }
    ensures said { GivesPart result at.new (check_step line.now at.old) }
    ensures within { OnOk result (at.new ≤ length line.now + 1) }
{
    let key = key(alloc, line, at)?;
    let want = want(alloc, line, at)?;
    Ok(Step::Check { key, want })
}

/// A step of a transaction.
#[tactic(auto, unfolding(crate::specs::Lines::step_at))]
fn step(alloc: Global, line: &[u8], at: &mut usize) -> Result<Step, LineError>
    requires { at.old ≤ length line.now + 1 }
    ensures said { GivesPart result at.new (step_at line.now at.old) }
    ensures within { OnOk result (at.new ≤ length line.now + 1) }
{
    let word = word(line, *at);
    let refusal = wrong(line, *at);
    *at = next(line, *at);
    if word == b"get".as_slice() {
        return get(alloc, line, at);
    }
    if word == b"put".as_slice() {
        return put(alloc, line, at);
    }
    if word == b"del".as_slice() {
        return del(alloc, line, at);
    }
    if word == b"check".as_slice() {
        return check(alloc, line, at);
    }
    Err(refusal)
}

/// A step, and whether `;` and another one follow.
#[tactic(auto, unfolding(crate::specs::Lines::entry_at))]
fn entry(alloc: Global, line: &[u8], at: &mut usize) -> Result<(Step, bool), LineError>
    requires { at.old ≤ length line.now + 1 }
    ensures said { GivesPart result at.new (entry_at line.now at.old) }
    ensures within { OnOk result (at.new ≤ length line.now + 1) }
{
    let step = step(alloc, line, at)?;
    if *at > line.len() {
        return Ok((step, false));
    }
    literal(line, at, b";")?;
    Ok((step, true))
}

/// The steps from a place to the line's end, with `;` between two of them.
pub fn steps(alloc: Global, line: &[u8], at: usize) -> Result<Vec<Step>, LineError>
    requires { at ≤ length line.now + 1 }
    ensures { GivesSteps result (steps_at (length line.now) line.now at) }
{
    let mut at = at;
    let mut steps = Vec::new(alloc);
    for count in 0..line.len() {
        match entry(alloc, line, &mut at) {
            Ok((step, more)) => {
                steps.push(step)?;
                if !more {
                    return Ok(steps);
                }
            }
            Err(error) => return Err(error),
        }
    }
    Err(wrong(line, at))
}

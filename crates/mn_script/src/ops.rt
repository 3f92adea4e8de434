ghost use Rattle.std.specs.Prelude.{◌≡◌, ◌≤◌, ◌+◌, [], ◌∷◌, length, IfOk};
ghost use Rattle.mn_script.specs.Words.{Gives, end_at};
ghost use Rattle.mn_script.specs.Lines.{few_steps, tx_op, put_op, get_op, del_op, snapshot_op};
ghost use Rattle.mn_script.specs.Lines.{branch_op, scan_op, limited_scan, other_op, op_at};

use crate::error::LineError;
use crate::steps::{del, get, put, steps};
use crate::words::{bound, end, name, next, number, word, wrong};
use mn_base::{BaseError, Key, Name, Op, Step, Steps};
use std::alloc::Global;

/// A transaction of one step.
#[inline(always)]
fn one_step(alloc: Global, version: Name, step: Step) -> Op
    ensures { result ≡ Op.Tx version (step ∷ []) }
{
    Op::Tx {
        version,
        steps: Steps::one(alloc, step),
    }
}

/// A transaction of one step, whose line ends there.
#[inline(always)]
fn lone(alloc: Global, line: &[u8], at: usize, version: Name, step: Step) -> Result<Op, LineError>
    requires { at ≤ length line.now + 1 }
    ensures { Gives result (end_at line.now at (Op.Tx version (step ∷ []))) }
{
    end(line, at)?;
    Ok(one_step(alloc, version, step))
}

/// An operation whose line ends there.
#[inline(always)]
fn ended(line: &[u8], at: usize, op: Op) -> Result<Op, LineError>
    requires { at ≤ length line.now + 1 }
    ensures { Gives result (end_at line.now at op) }
{
    end(line, at)?;
    Ok(op)
}

/// A transaction of these steps, of which there is at least one.
fn transaction(version: Name, steps: Vec<Step>) -> Result<Op, LineError>
    ensures { Gives result (few_steps version steps.items) }
{
    match Steps::new(steps) {
        Ok(steps) => Ok(Op::Tx { version, steps }),
        Err(BaseError::BadSteps { .. }) => Err(LineError::Wrong { column: 1 }),
        Err(BaseError::Empty) => unreachable!(),
        Err(BaseError::TooLong { .. }) => unreachable!(),
        Err(BaseError::BadName { .. }) => unreachable!(),
        Err(BaseError::NoMemory) => unreachable!(),
    }
}

#[tactic(auto, unfolding(crate::specs::Lines::tx_op))]
fn tx_of(alloc: Global, line: &[u8], at: usize) -> Result<Op, LineError>
    requires { at ≤ length line.now + 1 }
    ensures { Gives result (tx_op line.now at) }
{
    let mut at = at;
    let version = name(alloc, line, &mut at)?;
    let steps = steps(alloc, line, at)?;
    transaction(version, steps)
}

#[tactic(auto, unfolding(crate::specs::Lines::put_op))]
#[inline(always)]
fn put_of(alloc: Global, line: &[u8], at: usize) -> Result<Op, LineError>
    requires { at ≤ length line.now + 1 }
    ensures { Gives result (put_op line.now at) }
{
    let mut at = at;
    let version = name(alloc, line, &mut at)?;
    let step = put(alloc, line, &mut at)?;
    lone(alloc, line, at, version, step)
}

#[tactic(auto, unfolding(crate::specs::Lines::get_op))]
#[inline(always)]
fn get_of(alloc: Global, line: &[u8], at: usize) -> Result<Op, LineError>
    requires { at ≤ length line.now + 1 }
    ensures { Gives result (get_op line.now at) }
{
    let mut at = at;
    let version = name(alloc, line, &mut at)?;
    let step = get(alloc, line, &mut at)?;
    lone(alloc, line, at, version, step)
}

#[tactic(auto, unfolding(crate::specs::Lines::del_op))]
fn del_of(alloc: Global, line: &[u8], at: usize) -> Result<Op, LineError>
    requires { at ≤ length line.now + 1 }
    ensures { Gives result (del_op line.now at) }
{
    let mut at = at;
    let version = name(alloc, line, &mut at)?;
    let step = del(alloc, line, &mut at)?;
    lone(alloc, line, at, version, step)
}

#[tactic(auto, unfolding(crate::specs::Lines::snapshot_op))]
fn snapshot_of(alloc: Global, line: &[u8], at: usize) -> Result<Op, LineError>
    requires { at ≤ length line.now + 1 }
    ensures { Gives result (snapshot_op line.now at) }
{
    let mut at = at;
    let version = name(alloc, line, &mut at)?;
    let child = name(alloc, line, &mut at)?;
    ended(line, at, Op::Snapshot { version, child })
}

#[tactic(auto, unfolding(crate::specs::Lines::branch_op))]
fn branch_of(alloc: Global, line: &[u8], at: usize) -> Result<Op, LineError>
    requires { at ≤ length line.now + 1 }
    ensures { Gives result (branch_op line.now at) }
{
    let mut at = at;
    let version = name(alloc, line, &mut at)?;
    let child = name(alloc, line, &mut at)?;
    ended(line, at, Op::Branch { version, child })
}

/// A scan between these bounds, whose line ends behind its limit.
fn limited(
    line: &[u8],
    at: usize,
    version: Name,
    low: Option<Key>,
    high: Option<Key>,
) -> Result<Op, LineError>
    requires { at ≤ length line.now + 1 }
    ensures { Gives result (limited_scan version low high line.now at) }
{
    let mut at = at;
    let limit = number(line, &mut at, 1, 1000)?;
    end(line, at)?;
    Ok(Op::Scan {
        version,
        low,
        high,
        limit,
    })
}

#[tactic(auto, unfolding(crate::specs::Lines::scan_op))]
fn scan_of(alloc: Global, line: &[u8], at: usize) -> Result<Op, LineError>
    requires { at ≤ length line.now + 1 }
    ensures { Gives result (scan_op line.now at) }
{
    let mut at = at;
    let version = name(alloc, line, &mut at)?;
    let low = bound(alloc, line, &mut at)?;
    let high = bound(alloc, line, &mut at)?;
    limited(line, at, version, low, high)
}

/// The operation of a line that begins with this word, if it is no transaction.
#[tactic(auto, unfolding(crate::specs::Lines::other_op))]
fn other_op(alloc: Global, line: &[u8], word: &[u8], at: usize) -> Result<Op, LineError>
    requires { at ≤ length line.now + 1 }
    ensures { Gives result (other_op word.now line.now at) }
{
    if word == b"snapshot".as_slice() {
        return snapshot_of(alloc, line, at);
    }
    if word == b"branch".as_slice() {
        return branch_of(alloc, line, at);
    }
    if word == b"scan".as_slice() {
        return scan_of(alloc, line, at);
    }
    if word == b"versions".as_slice() {
        return ended(line, at, Op::Versions);
    }
    Err(wrong(line, 0))
}

/// The operation of a line.
#[tactic(auto, unfolding(crate::specs::Lines::op_at))]
pub fn op_of(alloc: Global, line: &[u8]) -> Result<Op, LineError>
    ensures { Gives result (op_at line.now) }
{
    let word = word(line, 0);
    let at = next(line, 0);
    if word == b"put".as_slice() {
        return put_of(alloc, line, at);
    }
    if word == b"get".as_slice() {
        return get_of(alloc, line, at);
    }
    if word == b"del".as_slice() {
        return del_of(alloc, line, at);
    }
    if word == b"tx".as_slice() {
        return tx_of(alloc, line, at);
    }
    other_op(alloc, line, word, at)
}

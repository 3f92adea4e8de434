ghost use Rattle.std.specs.Prelude.{◌≡◌, ◌<◌, ◌≤◌, IfOk, OnOk, slice_index, codes};
ghost use Rattle.mn_base.specs.declared.op.Op.TheVariants.{Tx};
ghost use Rattle.mn_gen.specs.Draws.{third_state, transfer_of, moved};
ghost use Rattle.mn_gen.specs.Accounts.{steps_of};
ghost use Rattle.mn_gen.specs.Work.{AreAtMost, scan_of, is_branch, is_aside, done, worked};

use crate::accounts::{ACCOUNTS, check, name, put};
use crate::draws::{Transfer, draw_transfer};
use mn_base::{NoMemory, Op, SharedOp, Steps};
use mn_script::Ops;
use std::alloc::Global;

/// How many operations a client has.
pub const OPERATIONS: u32 = 400;

/// With what a client goes on: the state of the draws, and the balances of its accounts in `w` and
/// in `x`, as if every transfer had been done.
#[derive(Clone, Copy)]
pub struct Books {
    state: u64,
    main: [u16; ACCOUNTS],
    aside: [u16; ACCOUNTS],
}

/// The scan of all pairs of a version.
pub fn scan(alloc: Global, version: &[u8]) -> Result<Op, NoMemory>
    ensures { IfOk result (λ op. op ≡ scan_of version.now) }
{
    Ok(Op::Scan {
        version: name(alloc, version)?,
        low: None,
        high: None,
        limit: 64,
    })
}

/// The steps of a transfer between accounts of these balances.
fn steps(
    alloc: Global,
    client: u8,
    transfer: Transfer,
    balances: &[u16; ACCOUNTS],
) -> Result<Steps, NoMemory>
    requires there { (client < 8) × (transfer.from < 8) × (transfer.to < 8) }
    requires covered { transfer.amount ≤ slice_index balances.now transfer.from }
    requires few { (transfer.amount ≤ 10) × AreAtMost 10000 balances.now }
    ensures { IfOk result (λ steps. steps ≡ steps_of client transfer balances.now) }
{
    let Transfer { from, to, amount } = transfer;
    let mut steps = Vec::with_capacity(alloc, 4)?;
    steps.push(check(alloc, client, from, balances[from])?)?;
    steps.push(check(alloc, client, to, balances[to])?)?;
    steps.push(put(alloc, client, from, balances[from] - amount)?)?;
    steps.push(put(alloc, client, to, balances[to] + amount)?)?;
    match Steps::new(steps) {
        Ok(steps) => Ok(steps),
        Err(_) => Err(NoMemory),
    }
}

/// The next transfer in a version, whose balances then say that it was done.
fn transfer(
    alloc: Global,
    client: u8,
    version: &[u8],
    state: &mut u64,
    balances: &mut [u16; ACCOUNTS],
) -> Result<Op, NoMemory>
    requires there { client < 8 }
    requires few { AreAtMost 10000 balances.old }
    ensures op { IfOk result (λ op. op
        ≡ Tx version.now (steps_of client (transfer_of state.old balances.old) balances.old)) }
    ensures state { OnOk result (state.new ≡ third_state state.old) }
    ensures balances { OnOk result
        (balances.new ≡ moved (transfer_of state.old balances.old) balances.old) }
{
    let drawn = draw_transfer(state, balances);
    let steps = steps(alloc, client, drawn, balances)?;
    balances[drawn.from] -= drawn.amount;
    balances[drawn.to] += drawn.amount;
    Ok(Op::Tx {
        version: name(alloc, version)?,
        steps,
    })
}

/// Whether this operation is a transfer in `x`, if it is a transfer.
fn is_aside(client: u8, number: u32) -> bool
    ensures { result ≡ is_aside client number }
{
    client == 0 && number > 101 && number % 2 == 1
}

/// Whether this operation makes the branch.
fn is_branch(client: u8, number: u32) -> bool
    ensures { result ≡ is_branch client number }
{
    client == 0 && number == 101
}

/// The operation of this number of a client, and the books behind it.
fn next_op(alloc: Global, client: u8, number: u32, books: &mut Books) -> Result<Op, NoMemory>
    requires there { client < 8 }
    requires few { AreAtMost 10000 books.old.main × AreAtMost 10000 books.old.aside }
    ensures op { IfOk result (λ op. op ≡ (done client number books.old).op) }
    ensures books { OnOk result (books.new ≡ (done client number books.old).books) }
{
    if number % 50 == 0 {
        return scan(alloc, b"main");
    }
    if is_branch(client, number) {
        return Ok(Op::Branch {
            version: name(alloc, b"main")?,
            child: name(alloc, b"x")?,
        });
    }
    if is_aside(client, number) {
        return transfer(alloc, client, b"x", &mut books.state, &mut books.aside);
    }
    transfer(alloc, client, b"w", &mut books.state, &mut books.main)
}

/// The operations of a client; the state of the draws goes on behind them.
pub fn work(alloc: Global, client: u8, state: &mut u64) -> Result<Ops, NoMemory>
    requires { client < 8 }
    ensures ops { IfOk result (λ ops. ops ≡ (worked client state.old 400).ops) }
    ensures state { OnOk result (state.new ≡ (worked client state.old 400).books.state) }
{
    let mut books = Books {
        state: *state,
        main: [100; ACCOUNTS],
        aside: [100; ACCOUNTS],
    };
    let mut ops = Vec::with_capacity(alloc, OPERATIONS as usize)?;
    for done in 0..OPERATIONS {
        let op = next_op(alloc, client, done + 1, &mut books)?;
        ops.push(SharedOp::new(alloc, op)?)?;
    }
    *state = books.state;
    Ok(Ops::from_vec(ops))
}

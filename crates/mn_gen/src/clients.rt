ghost use Rattle.std.specs.Prelude.{◌≡◌, ◌<◌, ◌++◌, IfOk, OnOk};
ghost use Rattle.mn_base.specs.declared.op.Op.TheVariants.{Snapshot};
ghost use Rattle.mn_gen.specs.Generated.{opening, openings, opener, closer, clients_of};
ghost use Rattle.mn_gen.specs.Generated.{mover_from, state_behind};

use crate::accounts::{name, put};
use crate::work::{scan, work};
use mn_base::{NoMemory, Op, SharedOp, Steps};
use mn_script::{Clients, Mark, Ops, ScriptClient};
use std::alloc::Global;

/// How many clients move between their accounts.
pub const MOVERS: u8 = 8;

/// A transaction that sets an account to 100.
fn opening(alloc: Global, client: u8, account: usize) -> Result<SharedOp, NoMemory>
    requires { (client < 8) × (account < 8) }
    ensures { IfOk result (λ op. op ≡ opening client account) }
{
    let version = name(alloc, b"main")?;
    let steps = Steps::one(alloc, put(alloc, client, account, 100)?);
    SharedOp::new(alloc, Op::Tx { version, steps })
}

/// Adds the accounts of a client.
fn push_openings(alloc: Global, client: u8, ops: &mut Vec<SharedOp>) -> Result<(), NoMemory>
    requires { client < 8 }
    ensures { OnOk result (ops.new.items ≡ ops.old.items ++ openings client) }
{
    for account in 0..8 {
        ops.push(opening(alloc, client, account)?)?;
    }
    Ok(())
}

fn snapshot(alloc: Global, version: &[u8], child: &[u8]) -> Result<SharedOp, NoMemory>
    ensures { IfOk result (λ op. op ≡ Snapshot version.now child.now) }
{
    let version = name(alloc, version)?;
    let child = name(alloc, child)?;
    SharedOp::new(alloc, Op::Snapshot { version, child })
}

/// The client that opens all accounts.
fn opener(alloc: Global) -> Result<ScriptClient, NoMemory>
    ensures { IfOk result (λ client. client ≡ opener) }
{
    let mut ops = Vec::with_capacity(alloc, 65)?;
    for client in 0..MOVERS {
        push_openings(alloc, client, &mut ops)?;
    }
    ops.push(snapshot(alloc, b"main", b"w")?)?;
    Ok(ScriptClient {
        name: name(alloc, b"s")?,
        mark: Mark::First,
        ops: Ops::from_vec(ops),
    })
}

/// The client of this number that moves between its accounts.
fn mover(alloc: Global, client: u8, state: &mut u64) -> Result<ScriptClient, NoMemory>
    requires { client < 8 }
    ensures client { IfOk result (λ made. made ≡ mover_from state.old client) }
    ensures state { OnOk result (state.new ≡ state_behind state.old client) }
{
    Ok(ScriptClient {
        name: name(alloc, &[b'c', b'0' + client])?,
        mark: Mark::Plain,
        ops: work(alloc, client, state)?,
    })
}

/// The client that looks at the end.
fn closer(alloc: Global) -> Result<ScriptClient, NoMemory>
    ensures { IfOk result (λ client. client ≡ closer) }
{
    let mut ops = Vec::with_capacity(alloc, 2)?;
    ops.push(snapshot(alloc, b"w", b"w2")?)?;
    ops.push(SharedOp::new(alloc, scan(alloc, b"w")?)?)?;
    Ok(ScriptClient {
        name: name(alloc, b"z")?,
        mark: Mark::Last,
        ops: Ops::from_vec(ops),
    })
}

/// All clients, whose draws begin at this state.
pub fn all_clients(alloc: Global, number: u64) -> Result<Clients, NoMemory>
    ensures { IfOk result (λ clients. clients ≡ clients_of number) }
{
    let mut state = number;
    let mut clients = Vec::with_capacity(alloc, 10)?;
    clients.push(opener(alloc)?)?;
    for client in 0..MOVERS {
        clients.push(mover(alloc, client, &mut state)?)?;
    }
    clients.push(closer(alloc)?)?;
    Ok(Clients::from_vec(clients))
}

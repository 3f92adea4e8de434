//! The callers of a run.
ghost use Rattle.std.specs.Prelude.{◌≡◌, ◌≤◌, [], length, IfOk, None, replicate};
ghost use Rattle.mn_base.specs.declared.ids.ClientNo.{ClientNo as ClientNumber};
ghost use Rattle.mn_runs.specs.Protocol.{Start, run_number, start_nodes};
ghost use Rattle.mn_callers.specs.Begins.{AreNewClients, AreNewDesks};
ghost use Rattle.mn_callers.specs.Logs.{works_of};
ghost use Rattle.mn_callers.specs.Plays.{AreCallers, AreReady, HaveNumbers, list_by};

use crate::client::Client;
use crate::desk::Desk;
use crate::settle::{CLOSER, Closer};
use mn_base::{ClientNo, NoMemory};
use mn_runs::ClientList;
use mn_script::Script;
use std::alloc::Global;

/// How many actors a board has that call nodes: the clients, the coordinator that opens and closes,
/// and the recovery coordinators.
pub const CALLERS: u8 = 21;

/// The actor that is recovery coordinator 1.
pub const FIRST_RECOVERER: u8 = 17;

/// The most recovery coordinators.
const RECOVERERS: u8 = 4;

/// The callers of a run: its clients and recovery coordinators, and the coordinator that opens and
/// closes.
#[derive(Drop)]
pub struct Callers {
    pub clients: Vec<Client>,
    pub desks: Vec<Desk>,
    pub closer: Closer,
}

/// The clients of a script, of which none has done anything. NoMemory: there was no memory for
/// them.
fn new_clients(alloc: Global, script: &Script, run: u32) -> Result<Vec<Client>, NoMemory>
    requires run { 1 ≤ run }
    ensures count { IfOk result (λ clients. length clients.items ≡ length script.now.clients) }
    ensures few { IfOk result (λ clients. length clients.items ≤ 16) }
    ensures new { IfOk result (λ clients. AreNewClients run script.now clients.items) }
{
    let count = script.clients().len();
    let mut clients = Vec::with_capacity(alloc, count)?;
    for at in 0..count {
        let client = ClientNo(at as u8);
        clients.push(Client::new(alloc, client, run, script.nodes(), script.points())?)?;
    }
    Ok(clients)
}

/// The recovery coordinators, of which none has done anything. NoMemory: there was no memory for
/// them.
fn new_desks(alloc: Global) -> Result<Vec<Desk>, NoMemory>
    ensures count { IfOk result (λ desks. length desks.items ≡ 4) }
    ensures new { IfOk result (λ desks. AreNewDesks desks.items) }
{
    let mut desks = Vec::with_capacity(alloc, usize::from(RECOVERERS))?;
    for at in 0..RECOVERERS {
        desks.push(Desk::new(alloc, ClientNo(FIRST_RECOVERER + at)))?;
    }
    Ok(desks)
}

impl Callers {
    /// The callers of a script, of which none has done anything. NoMemory: there was no memory for
    /// them.
    pub fn new(alloc: Global, script: &Script, run: u32) -> Result<Callers, NoMemory>
        requires run { 1 ≤ run }
        ensures callers { (start : Start) → run ≡ run_number start
            → script.now.nodes ≡ start_nodes start
            → IfOk result (AreCallers start script.now) }
        ensures ready { (start : Start) → run ≡ run_number start
            → script.now.nodes ≡ start_nodes start
            → IfOk result (AreReady start script.now) }
        ensures empty { (c : ClientNumber) → IfOk result (λ callers. list_by callers c ≡ []) }
        ensures numbers { IfOk result HaveNumbers }
        ensures idle { IfOk result (λ callers. works_of callers ≡ replicate 4 None) }
        ensures few { IfOk result (λ callers. length callers.clients.items ≤ 16) }
        ensures desks { IfOk result (λ callers. length callers.desks.items ≡ 4) }
    {
        Ok(Callers {
            clients: new_clients(alloc, script, run)?,
            desks: new_desks(alloc)?,
            closer: Closer {
                list: ClientList::new(alloc, CLOSER),
            },
        })
    }
}

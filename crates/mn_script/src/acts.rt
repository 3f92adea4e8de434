ghost use Rattle.std.specs.Prelude.{◌≡◌, ◌≤◌, ◌+◌, length, OnOk, IfOk, ◌<◌};
ghost use Rattle.mn_base.specs.declared.ids.NodeNo.{NodeNo};
ghost use Rattle.mn_base.specs.declared.ids.ClientNo.{ClientNo};
ghost use Rattle.mn_script.specs.Words.{Gives, GivesPart};
ghost use Rattle.mn_script.specs.Lines.{number_at, client_at, by_client, by_node, by_recoverer};
ghost use Rattle.mn_script.specs.Lines.{act_at, other_act, AreFew};

use crate::clients::client;
use crate::elements::Act;
use crate::error::LineError;
use crate::roster::Roster;
use crate::words::{end, next, number, word, wrong};
use mn_base::{ClientNo, NodeNo};

/// The client that ends a line.
#[tactic(auto, unfolding(crate::specs::Lines::by_client))]
fn client_of(clients: &Roster, line: &[u8], at: usize) -> Result<ClientNo, LineError>
    requires at { at ≤ length line.now + 1 }
    requires clients { AreFew clients.now }
    ensures { Gives result (by_client clients.now line.now at) }
{
    let mut at = at;
    let client = client(clients, line, &mut at)?;
    end(line, at)?;
    Ok(ClientNo(client as u8))
}

/// The node that ends a line.
#[tactic(auto, unfolding(crate::specs::Lines::by_node))]
fn node_of(last: u8, line: &[u8], at: usize) -> Result<NodeNo, LineError>
    requires { at ≤ length line.now + 1 }
    ensures { Gives result (by_node last line.now at) }
{
    let mut at = at;
    let node = number(line, &mut at, 0, u32::from(last))?;
    end(line, at)?;
    Ok(NodeNo(node as u8))
}

/// The recovery coordinator and the client that end a line.
#[tactic(auto, unfolding(crate::specs::Lines::by_recoverer))]
fn recoverer_of(
    recoverers: u8,
    clients: &Roster,
    line: &[u8],
    at: usize,
) -> Result<(u8, ClientNo), LineError>
    requires at { at ≤ length line.now + 1 }
    requires clients { AreFew clients.now }
    ensures { Gives result (by_recoverer recoverers clients.now line.now at) }
{
    let mut at = at;
    let recoverer = number(line, &mut at, 1, u32::from(recoverers))?;
    let client = client_of(clients, line, at)?;
    Ok((recoverer as u8, client))
}

/// The act of a line that begins with this word, where it names not just a client.
#[tactic(auto, unfolding(crate::specs::Lines::other_act))]
fn other_act(
    last: u8,
    recoverers: u8,
    clients: &Roster,
    line: &[u8],
    word: &[u8],
    at: usize,
) -> Result<Act, LineError>
    requires at { at ≤ length line.now + 1 }
    requires clients { AreFew clients.now }
    ensures { Gives result (other_act last recoverers clients.now word.now line.now at) }
{
    if word == b"halt".as_slice() {
        let node = node_of(last, line, at)?;
        return Ok(Act::Halt { node });
    }
    if word == b"restart".as_slice() {
        let node = node_of(last, line, at)?;
        return Ok(Act::Restart { node });
    }
    if word == b"rstep".as_slice() {
        let (recoverer, client) = recoverer_of(recoverers, clients, line, at)?;
        return Ok(Act::Rstep { recoverer, client });
    }
    if word == b"recover".as_slice() {
        let (recoverer, client) = recoverer_of(recoverers, clients, line, at)?;
        return Ok(Act::Recover { recoverer, client });
    }
    Err(wrong(line, 0))
}

/// The act of a line, where the nodes go up to the last and there are so many recovery
/// coordinators.
#[tactic(auto, unfolding(crate::specs::Lines::act_at))]
pub fn act_of(last: u8, recoverers: u8, clients: &Roster, line: &[u8]) -> Result<Act, LineError>
    requires { AreFew clients.now }
    ensures { Gives result (act_at last recoverers clients.now line.now) }
{
    let word = word(line, 0);
    let at = next(line, 0);
    if word == b"step".as_slice() {
        let client = client_of(clients, line, at)?;
        return Ok(Act::Step { client });
    }
    if word == b"plan".as_slice() {
        let client = client_of(clients, line, at)?;
        return Ok(Act::Plan { client });
    }
    if word == b"go".as_slice() {
        let client = client_of(clients, line, at)?;
        return Ok(Act::Go { client });
    }
    if word == b"all".as_slice() {
        let client = client_of(clients, line, at)?;
        return Ok(Act::All { client });
    }
    other_act(last, recoverers, clients, line, word, at)
}

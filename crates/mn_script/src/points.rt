ghost use Rattle.std.specs.Prelude.{◌≡◌, ◌≤◌, ◌+◌, length, OnOk, IfOk, ◌<◌};
ghost use Rattle.mn_script.specs.Words.{word_at, told_at, Gives, GivesPart};
ghost use Rattle.mn_script.specs.Lines.{number_at, stop_word, target_at, kill_point, stop_point};
ghost use Rattle.mn_script.specs.Lines.{AreFew};

use crate::clients::{client, count_of};
use crate::elements::Point;
use crate::error::LineError;
use crate::roster::Roster;
use crate::steps::literal;
use crate::words::{end, next, number, word, wrong};
use mn_base::{ClientNo, NodeNo, StopAt};

/// An operation of a client: the client's number and the operation's. There are at most 16 clients,
/// each with at most 2,000.
#[tactic(auto, unfolding(crate::specs::Lines::target_at))]
fn target(clients: &Roster, line: &[u8], at: &mut usize) -> Result<(usize, u32), LineError>
    requires at { at.old ≤ length line.now + 1 }
    requires clients { AreFew clients.now }
    ensures said { GivesPart result at.new (target_at clients.now line.now at.old) }
    ensures within { OnOk result (at.new ≤ length line.now + 1) }
    ensures number { IfOk result (λ t. t.0 < 16) }
{
    let client = client(clients, line, at)?;
    let number = number(line, at, 1, count_of(clients.as_slice(), client) as u32)?;
    Ok((client, number))
}

fn stop_at(line: &[u8], at: &mut usize) -> Result<StopAt, LineError>
    requires { at.old ≤ length line.now + 1 }
    ensures said { GivesPart result at.new
        (told_at line.now at.old (stop_word (word_at line.now at.old))) }
    ensures within { OnOk result (at.new ≤ length line.now + 1) }
{
    let word = word(line, *at);
    let refusal = wrong(line, *at);
    *at = next(line, *at);
    if word == b"before".as_slice() {
        return Ok(StopAt::Before);
    }
    if word == b"half".as_slice() {
        return Ok(StopAt::Half);
    }
    if word == b"after".as_slice() {
        return Ok(StopAt::After);
    }
    Err(refusal)
}

/// The death of a client.
#[tactic(auto, unfolding(crate::specs::Lines::kill_point))]
pub fn kill_of(clients: &Roster, line: &[u8], at: usize) -> Result<Point, LineError>
    requires at { at ≤ length line.now + 1 }
    requires clients { AreFew clients.now }
    ensures { Gives result (kill_point clients.now line.now at) }
{
    let mut at = at;
    let (client, number) = target(clients, line, &mut at)?;
    literal(line, &mut at, b"votes")?;
    let votes = vote_count(line, &mut at)?;
    end(line, at)?;
    Ok(Point::Kill {
        client: ClientNo(client as u8),
        number,
        votes: votes as u8,
    })
}

/// The stop of one of the nodes up to the last.
#[tactic(auto, unfolding(crate::specs::Lines::stop_point))]
pub fn stop_of(last: u8, clients: &Roster, line: &[u8], at: usize) -> Result<Point, LineError>
    requires at { at ≤ length line.now + 1 }
    requires clients { AreFew clients.now }
    ensures { Gives result (stop_point last clients.now line.now at) }
{
    let mut at = at;
    let node = number(line, &mut at, 0, u32::from(last))?;
    let (client, number) = target(clients, line, &mut at)?;
    let stop = stop_at(line, &mut at)?;
    end(line, at)?;
    Ok(Point::Stop {
        node: NodeNo(node as u8),
        client: ClientNo(client as u8),
        number,
        at: stop,
    })
}

fn vote_count(line: &[u8], at: &mut usize) -> Result<u32, LineError>
    requires { at.old ≤ length line.now + 1 }
    ensures said { GivesPart result at.new (number_at 1 8 line.now at.old) }
    ensures within { OnOk result (at.new ≤ length line.now + 1) }
    ensures range { IfOk result (λ n. n ≤ 8) }
{
    number(line, at, 1, 8)
}

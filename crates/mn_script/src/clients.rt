ghost use Rattle.std.specs.Prelude.{◌≡◌, ◌≤◌, ◌<◌, ◌+◌, length, OnOk, IfOk};
ghost use Rattle.mn_script.specs.Words.{Gives, GivesPart};
ghost use Rattle.mn_script.specs.Lines.{client_at, ops_of, target_at, mark_at, mark_word};
ghost use Rattle.mn_script.specs.Words.{word_at, told_at};

use crate::elements::{Mark, ScriptClient};
use crate::error::LineError;
use crate::roster::Roster;
use crate::words::{end, next, number, word, wrong};

/// The number of a client that is there.
pub fn client(clients: &Roster, line: &[u8], at: &mut usize) -> Result<usize, LineError>
    requires { at.old ≤ length line.now + 1 }
    ensures said { GivesPart result at.new (client_at clients.now line.now at.old) }
    ensures within { OnOk result (at.new ≤ length line.now + 1) }
    ensures number { IfOk result (λ n. n < length clients.now) }
{
    let Some(place) = clients.place_of(word(line, *at)) else {
        return Err(wrong(line, *at));
    };
    *at = next(line, *at);
    Ok(place)
}

/// How many operations a client has.
pub fn count_of(clients: &[ScriptClient], client: usize) -> usize
    ensures { result ≡ ops_of clients.now client }
{
    if client < clients.len() {
        clients[client].ops.as_slice().len()
    } else {
        0
    }
}

/// The mark of a client, if there is one, and the line's end.
#[tactic(auto, unfolding(crate::specs::Lines::mark_at))]
pub fn mark(line: &[u8], at: usize) -> Result<Mark, LineError>
    requires { at ≤ length line.now + 1 }
    ensures { Gives result (mark_at line.now at) }
{
    if at > line.len() {
        return Ok(Mark::Plain);
    }
    let mut at = at;
    let mark = mark_of(line, &mut at)?;
    end(line, at)?;
    Ok(mark)
}

fn mark_of(line: &[u8], at: &mut usize) -> Result<Mark, LineError>
    requires { at.old ≤ length line.now + 1 }
    ensures said { GivesPart result at.new
        (told_at line.now at.old (mark_word (word_at line.now at.old))) }
    ensures within { OnOk result (at.new ≤ length line.now + 1) }
{
    let word = word(line, *at);
    if word == b"first".as_slice() {
        *at = next(line, *at);
        return Ok(Mark::First);
    }
    if word == b"last".as_slice() {
        *at = next(line, *at);
        return Ok(Mark::Last);
    }
    Err(wrong(line, *at))
}

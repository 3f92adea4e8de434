//! What a log says of the operations of a script.
ghost use Rattle.std.specs.Prelude.{◌≡◌, ◌++◌, ◌&&◌, ◌∷◌, ℕ, List, IfOk, OnOk, if◌then◌else◌};
ghost use Rattle.std.specs.Prelude.{nat_eq, map, flat_map, length};
ghost use Rattle.mn_base.specs.Ids.{client_same};
ghost use Rattle.mn_base.specs.declared.ids.ClientNo.{ClientNo as Who};
ghost use Rattle.mn_runs.specs.declared.entry.Entry.{Entry as Step};
ghost use Rattle.mn_hist.specs.Audit.{answer_line_at, answers_from, op_numbers, is_said_in_doubt};
ghost use Rattle.mn_hist.specs.Audit.{doubt_at};
ghost use Rattle.mn_hist.specs.Audit.{doubt_lines, doubts_from};
ghost use Rattle.mn_hist.specs.History.{stands};
ghost use Rattle.mn_hist.specs.Saying.{said_kept, TellsAnswers};

use crate::acts::is_standing;
use crate::sayings::{AllSaid, Kept, kept_answer};
use crate::table::Table;
use mn_base::{ClientNo, Name, NoMemory, TryCopy};
use mn_report::{AnswerLine, AnswerLines, DoubtLine, LineAnswer, Outcomes};
use mn_runs::{Entry, What};
use mn_script::ScriptClient;
use std::alloc::Global;

/// Notes what the entry says of an operation of its client.
pub fn note_entry<'a>(said: &mut AllSaid<'a>, entry: &'a Entry) -> Result<(), NoMemory>
    ensures { OnOk result ((past : List Step) → TellsAnswers said.old past
        → TellsAnswers said.new (entry.now ∷ past)) }
{
    match (entry.client, &entry.what) {
        (Some(client), What::Begin { number, .. }) => { said.note(client, *number, Kept::Died) }
        (Some(client), What::Answered { number, answer }) => {
            said.note(client, *number, kept_answer(answer))
        }
        _ => Ok(()),
    }
}

/// What is said of an operation.
fn line_answer(
    alloc: Global,
    said: &AllSaid<'_>,
    client: ClientNo,
    number: u32,
) -> Result<LineAnswer, NoMemory>
    ensures { IfOk result (λ answer. answer ≡ said_kept said.now client number) }
{
    match said.of(client, number) {
        Kept::InDoubt(answer) | Kept::Answered(answer) => Ok(LineAnswer::Answered {
            answer: answer.try_copy(alloc)?,
        }),
        Kept::Died => Ok(LineAnswer::Died),
        Kept::Never => Ok(LineAnswer::Never),
    }
}

/// Whether the client of the operation didn't learn whether it took effect.
fn is_said_in_doubt(said: &AllSaid<'_>, client: ClientNo, number: u32) -> bool
    ensures { result ≡ is_said_in_doubt (said_kept said.now client number) }
{
    matches!(said.of(client, number), Kept::InDoubt(_) | Kept::Died)
}

/// The line of an operation.
fn answer_line_at(
    alloc: Global,
    said: &AllSaid<'_>,
    number_of_client: ClientNo,
    client: &ScriptClient,
    number: u32,
) -> Result<AnswerLine, NoMemory>
    ensures { IfOk result (λ line. line
        ≡ answer_line_at (said_kept said.now) number_of_client client.now number) }
{
    Ok(AnswerLine {
        client: client.name.try_copy(alloc)?,
        number,
        answer: line_answer(alloc, said, number_of_client, number)?,
    })
}

/// How many operations the client has. NoMemory: more than a number of an operation counts.
fn op_count(client: &ScriptClient) -> Result<u32, NoMemory>
    ensures { IfOk result (λ count. count ≡ length client.now.ops) }
{
    match u32::try_from(client.ops.as_slice().len()) {
        Ok(count) => Ok(count),
        Err(_) => Err(NoMemory),
    }
}

/// How many operations the clients have.
pub fn op_total(clients: &[ScriptClient]) -> usize {
    let mut total = 0usize;
    for client in clients {
        total = total.saturating_add(client.ops.as_slice().len());
    }
    total
}

/// Adds the lines of a client's operations.
fn push_answers(
    alloc: Global,
    lines: &mut Vec<AnswerLine>,
    said: &AllSaid<'_>,
    number_of_client: ClientNo,
    client: &ScriptClient,
) -> Result<(), NoMemory>
    ensures { OnOk result (lines.new.items
        ≡ lines.old.items ++ map (answer_line_at (said_kept said.now) number_of_client client.now)
        (op_numbers client.now)) }
{
    let count = op_count(client)?;
    for before in 0..count {
        let number = before + 1;
        lines.push(answer_line_at(alloc, said, number_of_client, client, number)?)?;
    }
    Ok(())
}

/// The number of the client at this place. NoMemory: there is no such number.
fn client_at(at: usize) -> Result<ClientNo, NoMemory>
    ensures { IfOk result (λ client. client ≡ record { 0 = at }) }
{
    match u8::try_from(at) {
        Ok(number) => Ok(ClientNo(number)),
        Err(_) => Err(NoMemory),
    }
}

/// The lines of the clients, each with its operations in order. NoMemory: there was no memory for
/// them.
pub fn answers_of(
    alloc: Global,
    said: &AllSaid<'_>,
    clients: &[ScriptClient],
) -> Result<AnswerLines, NoMemory>
    ensures { IfOk result (λ lines. lines ≡ answers_from (said_kept said.now) 0 clients.now) }
{
    let mut lines = Vec::with_capacity(alloc, op_total(clients))?;
    for (at, client) in clients.iter().enumerate() {
        push_answers(alloc, &mut lines, said, client_at(at)?, client)?;
    }
    Ok(AnswerLines::from_vec(lines))
}

/// Adds the line of an operation, if it is in doubt.
fn push_doubt(
    alloc: Global,
    lines: &mut Vec<DoubtLine>,
    said: &AllSaid<'_>,
    committed: &Table<bool>,
    number_of_client: ClientNo,
    name: &Name,
    number: u32,
) -> Result<(), NoMemory>
    ensures { OnOk result (lines.new.items
        ≡ lines.old.items ++ doubt_lines
        (said_kept said.now number_of_client number) name.now number
        (stands committed.now number_of_client number)) }
{
    if !is_said_in_doubt(said, number_of_client, number) {
        return Ok(());
    }
    lines.push(DoubtLine {
        client: name.try_copy(alloc)?,
        number,
        committed: is_standing(committed, number_of_client, number),
    })?;
    Ok(())
}

/// Adds the lines of a client's operations in doubt.
fn push_doubts(
    alloc: Global,
    lines: &mut Vec<DoubtLine>,
    said: &AllSaid<'_>,
    committed: &Table<bool>,
    number_of_client: ClientNo,
    client: &ScriptClient,
) -> Result<(), NoMemory>
    ensures { OnOk result (lines.new.items
        ≡ lines.old.items ++ flat_map
        (doubt_at (said_kept said.now) (stands committed.now) number_of_client client.now)
        (op_numbers client.now)) }
{
    let count = op_count(client)?;
    for before in 0..count {
        let number = before + 1;
        push_doubt(
            alloc,
            lines,
            said,
            committed,
            number_of_client,
            &client.name,
            number,
        )?;
    }
    Ok(())
}

/// For each operation in doubt, client after client, whether it took effect: whether it is one of
/// these. NoMemory: there was no memory for the lines.
pub fn doubts_of(
    alloc: Global,
    said: &AllSaid<'_>,
    committed: &Table<bool>,
    clients: &[ScriptClient],
) -> Result<Outcomes, NoMemory>
    ensures { IfOk result (λ lines. lines
        ≡ doubts_from (said_kept said.now) (stands committed.now) 0 clients.now) }
{
    let mut lines = Vec::new(alloc);
    for (at, client) in clients.iter().enumerate() {
        push_doubts(alloc, &mut lines, said, committed, client_at(at)?, client)?;
    }
    Ok(Outcomes::from_vec(lines))
}

ghost use Rattle.std.specs.Prelude.{◌≡◌, ◌≤◌, ◌++◌, length, flat_map, codes, Ok, IfOk, OnOk};
ghost use Rattle.mn_report.specs.Spelling.{word_of, spaced, spaced_number};
ghost use Rattle.mn_script.specs.Script.{IsScript};
ghost use Rattle.mn_script.specs.Reading.{script_of};
ghost use Rattle.mn_script.specs.Grammar.{line, want_text, step_text, more_text, steps_text};
ghost use Rattle.mn_script.specs.Grammar.{bound_text, op_text, mark_text, client_text, name_of};
ghost use Rattle.mn_script.specs.Grammar.{stop_text, point_text, act_text, recoverers_text};
ghost use Rattle.mn_script.specs.Grammar.{head_text, schedule_text, script_text};

use crate::elements::{Act, Mark, Point, ScriptClient};
use crate::script::Script;
use mn_base::{Bytes, ClientNo, Key, Name, NoMemory, Op, SharedOp, Step, StopAt, Value};
use mn_report::{push_spaced_number, push_word};
use std::alloc::{AllocError, Global};

fn push_spaced(out: &mut Vec<u8>, text: &[u8]) -> Result<(), AllocError>
    ensures { OnOk result (out.new.items ≡ out.old.items ++ spaced text.now) }
{
    out.push(b' ')?;
    out.extend_from_slice(text)
}

fn push_spaced_word(out: &mut Vec<u8>, bytes: &[u8]) -> Result<(), AllocError>
    ensures { OnOk result (out.new.items ≡ out.old.items ++ spaced (word_of bytes.now)) }
{
    out.push(b' ')?;
    push_word(out, bytes)
}

/// Adds a word and a name, with a space between them.
fn push_named(out: &mut Vec<u8>, word: &[u8], name: &[u8]) -> Result<(), AllocError>
    ensures { OnOk result (out.new.items ≡ out.old.items ++ (word.now ++ spaced name.now)) }
{
    out.extend_from_slice(word)?;
    push_spaced(out, name)
}

/// Adds a word and a number, with a space between them.
fn push_numbered(out: &mut Vec<u8>, word: &[u8], number: u8) -> Result<(), AllocError>
    ensures { OnOk result (out.new.items ≡ out.old.items ++ (word.now ++ spaced_number number)) }
{
    out.extend_from_slice(word)?;
    push_spaced_number(out, u64::from(number))
}

/// Adds a word and a key, with a space between them.
fn push_keyed(out: &mut Vec<u8>, word: &[u8], key: &Key) -> Result<(), AllocError>
    ensures { OnOk result (out.new.items
        ≡ out.old.items ++ (word.now ++ spaced (word_of key.now))) }
{
    out.extend_from_slice(word)?;
    push_spaced_word(out, key.as_slice())
}

fn push_want(out: &mut Vec<u8>, want: &Option<Value>) -> Result<(), AllocError>
    ensures { OnOk result (out.new.items ≡ out.old.items ++ want_text want.now) }
{
    match want {
        None => out.extend_from_slice(b" absent"),
        Some(value) => {
            out.extend_from_slice(b" is")?;
            push_spaced_word(out, value.as_slice())
        }
    }
}

fn push_step(out: &mut Vec<u8>, step: &Step) -> Result<(), AllocError>
    ensures { OnOk result (out.new.items ≡ out.old.items ++ step_text step.now) }
{
    match step {
        Step::Get { key } => push_keyed(out, b" get", key),
        Step::Put { key, value } => {
            push_keyed(out, b" put", key)?;
            push_spaced_word(out, value.as_slice())
        }
        Step::Del { key } => push_keyed(out, b" del", key),
        Step::Check { key, want } => {
            push_keyed(out, b" check", key)?;
            push_want(out, want)
        }
    }
}

fn push_more(out: &mut Vec<u8>, steps: &[Step]) -> Result<(), AllocError>
    ensures { OnOk result (out.new.items ≡ out.old.items ++ more_text steps.now) }
{
    for step in steps {
        out.extend_from_slice(b" ;")?;
        push_step(out, step)?;
    }
    Ok(())
}

fn push_steps(out: &mut Vec<u8>, steps: &[Step]) -> Result<(), AllocError>
    ensures { OnOk result (out.new.items ≡ out.old.items ++ steps_text steps.now) }
{
    match steps {
        [] => Ok(()),
        [step, more @ ..] => {
            push_step(out, step)?;
            push_more(out, more)
        }
    }
}

fn push_bound(out: &mut Vec<u8>, bound: &Option<Key>) -> Result<(), AllocError>
    ensures { OnOk result (out.new.items ≡ out.old.items ++ bound_text bound.now) }
{
    match bound {
        None => out.extend_from_slice(b" %"),
        Some(key) => push_spaced_word(out, key.as_slice()),
    }
}

/// Adds the first word of an operation that makes a child, with the names of both versions.
fn push_family(
    out: &mut Vec<u8>,
    word: &[u8],
    version: &Name,
    child: &Name,
) -> Result<(), AllocError>
    ensures { OnOk result (out.new.items
        ≡ out.old.items ++ (word.now ++ (spaced version.now ++ spaced child.now))) }
{
    push_named(out, word, version.as_slice())?;
    push_spaced(out, child.as_slice())
}

/// Adds the bounds of a scan and its limit.
fn push_range(
    out: &mut Vec<u8>,
    low: &Option<Key>,
    high: &Option<Key>,
    limit: u32,
) -> Result<(), AllocError>
    ensures { OnOk result (out.new.items ≡ out.old.items
        ++ (bound_text low.now ++ (bound_text high.now ++ spaced_number limit))) }
{
    push_bound(out, low)?;
    push_bound(out, high)?;
    push_spaced_number(out, u64::from(limit))
}

fn push_op(out: &mut Vec<u8>, op: &Op) -> Result<(), AllocError>
    ensures { OnOk result (out.new.items ≡ out.old.items ++ op_text op.now) }
{
    match op {
        Op::Tx { version, steps } => {
            push_named(out, b"tx", version.as_slice())?;
            push_steps(out, steps.as_slice())
        }
        Op::Snapshot { version, child } => push_family(out, b"snapshot", version, child),
        Op::Branch { version, child } => push_family(out, b"branch", version, child),
        Op::Scan {
            version,
            low,
            high,
            limit,
        } => {
            push_named(out, b"scan", version.as_slice())?;
            push_range(out, low, high, *limit)
        }
        Op::Versions => out.extend_from_slice(b"versions"),
    }
}

fn push_ops(out: &mut Vec<u8>, ops: &[SharedOp]) -> Result<(), AllocError>
    ensures { OnOk result (out.new.items
        ≡ out.old.items ++ flat_map (λ op. line (op_text op)) ops.now) }
{
    for op in ops {
        push_op(out, op.get())?;
        out.push(b'\n')?;
    }
    Ok(())
}

fn push_mark(out: &mut Vec<u8>, mark: Mark) -> Result<(), AllocError>
    ensures { OnOk result (out.new.items ≡ out.old.items ++ mark_text mark) }
{
    match mark {
        Mark::Plain => Ok(()),
        Mark::First => out.extend_from_slice(b" first"),
        Mark::Last => out.extend_from_slice(b" last"),
    }
}

fn push_client(out: &mut Vec<u8>, client: &ScriptClient) -> Result<(), AllocError>
    ensures { OnOk result (out.new.items ≡ out.old.items ++ client_text client.now) }
{
    out.extend_from_slice(b"client")?;
    push_spaced(out, client.name.as_slice())?;
    push_mark(out, client.mark)?;
    out.push(b'\n')?;
    push_ops(out, client.ops.as_slice())
}

fn push_clients(out: &mut Vec<u8>, clients: &[ScriptClient]) -> Result<(), AllocError>
    ensures { OnOk result (out.new.items ≡ out.old.items ++ flat_map client_text clients.now) }
{
    for client in clients {
        push_client(out, client)?;
    }
    Ok(())
}

/// The name of the client with this number.
fn name_at(clients: &[ScriptClient], client: ClientNo) -> &[u8]
    ensures { result.now ≡ name_of clients.now client.0 }
{
    let at = usize::from(client.0);
    if at < clients.len() {
        clients[at].name.as_slice()
    } else {
        &[]
    }
}

fn push_stop(out: &mut Vec<u8>, at: StopAt) -> Result<(), AllocError>
    ensures { OnOk result (out.new.items ≡ out.old.items ++ stop_text at) }
{
    match at {
        StopAt::Before => out.extend_from_slice(b" before"),
        StopAt::Half => out.extend_from_slice(b" half"),
        StopAt::After => out.extend_from_slice(b" after"),
    }
}

/// Adds the death of a client.
fn push_kill(out: &mut Vec<u8>, client: &[u8], number: u32, votes: u8) -> Result<(), AllocError>
    ensures { OnOk result (out.new.items ≡ out.old.items ++ (codes "kill" ++ (spaced client.now
        ++ (spaced_number number ++ (codes " votes" ++ spaced_number votes))))) }
{
    push_named(out, b"kill", client)?;
    push_spaced_number(out, u64::from(number))?;
    push_numbered(out, b" votes", votes)
}

/// Adds the stop of a node.
fn push_node_stop(
    out: &mut Vec<u8>,
    node: u8,
    client: &[u8],
    number: u32,
    at: StopAt,
) -> Result<(), AllocError>
    ensures { OnOk result (out.new.items ≡ out.old.items ++ (codes "stop" ++ (spaced_number node
        ++ (spaced client.now ++ (spaced_number number ++ stop_text at))))) }
{
    push_numbered(out, b"stop", node)?;
    push_spaced(out, client)?;
    push_spaced_number(out, u64::from(number))?;
    push_stop(out, at)
}

fn push_point(out: &mut Vec<u8>, clients: &[ScriptClient], point: &Point) -> Result<(), AllocError>
    ensures { OnOk result (out.new.items ≡ out.old.items ++ point_text clients.now point.now) }
{
    match point {
        Point::Kill {
            client,
            number,
            votes,
        } => push_kill(out, name_at(clients, *client), *number, *votes),
        Point::Stop {
            node,
            client,
            number,
            at,
        } => push_node_stop(out, node.0, name_at(clients, *client), *number, *at),
    }
}

fn push_points(
    out: &mut Vec<u8>,
    clients: &[ScriptClient],
    points: &[Point],
) -> Result<(), AllocError>
    ensures { OnOk result (out.new.items
        ≡ out.old.items ++ flat_map (λ p. line (point_text clients.now p)) points.now) }
{
    for point in points {
        push_point(out, clients, point)?;
        out.push(b'\n')?;
    }
    Ok(())
}

/// Adds the first word of an act, the number of a recovery coordinator and the name of a client.
fn push_recovery(
    out: &mut Vec<u8>,
    word: &[u8],
    recoverer: u8,
    client: &[u8],
) -> Result<(), AllocError>
    ensures { OnOk result (out.new.items
        ≡ out.old.items ++ (word.now ++ (spaced_number recoverer ++ spaced client.now))) }
{
    push_numbered(out, word, recoverer)?;
    push_spaced(out, client)
}

fn push_act(out: &mut Vec<u8>, clients: &[ScriptClient], act: &Act) -> Result<(), AllocError>
    ensures { OnOk result (out.new.items ≡ out.old.items ++ act_text clients.now act.now) }
{
    match act {
        Act::Step { client } => push_named(out, b"step", name_at(clients, *client)),
        Act::Plan { client } => push_named(out, b"plan", name_at(clients, *client)),
        Act::Go { client } => push_named(out, b"go", name_at(clients, *client)),
        Act::All { client } => push_named(out, b"all", name_at(clients, *client)),
        Act::Halt { node } => push_numbered(out, b"halt", node.0),
        Act::Restart { node } => push_numbered(out, b"restart", node.0),
        Act::Rstep { recoverer, client } => {
            let client = name_at(clients, *client);
            push_recovery(out, b"rstep", *recoverer, client)
        }
        Act::Recover { recoverer, client } => {
            let client = name_at(clients, *client);
            push_recovery(out, b"recover", *recoverer, client)
        }
    }
}

fn push_acts(out: &mut Vec<u8>, clients: &[ScriptClient], acts: &[Act]) -> Result<(), AllocError>
    ensures { OnOk result (out.new.items
        ≡ out.old.items ++ flat_map (λ a. line (act_text clients.now a)) acts.now) }
{
    for act in acts {
        push_act(out, clients, act)?;
        out.push(b'\n')?;
    }
    Ok(())
}

/// Adds a word, a number and the end of the line.
fn push_number_line(out: &mut Vec<u8>, word: &[u8], number: u8) -> Result<(), AllocError>
    ensures { OnOk result (out.new.items
        ≡ out.old.items ++ line (word.now ++ spaced_number number)) }
{
    push_numbered(out, word, number)?;
    out.push(b'\n')?;
    Ok(())
}

fn push_recoverers(out: &mut Vec<u8>, recoverers: u8) -> Result<(), AllocError>
    ensures { OnOk result (out.new.items ≡ out.old.items ++ recoverers_text recoverers) }
{
    if recoverers == 0 {
        return Ok(());
    }
    push_number_line(out, b"recoverers", recoverers)
}

fn push_head(out: &mut Vec<u8>, nodes: u8, recoverers: u8) -> Result<(), AllocError>
    ensures { OnOk result (out.new.items ≡ out.old.items ++ head_text nodes recoverers) }
{
    push_number_line(out, b"nodes", nodes)?;
    push_recoverers(out, recoverers)
}

fn push_schedule(
    out: &mut Vec<u8>,
    clients: &[ScriptClient],
    schedule: &[Act],
) -> Result<(), AllocError>
    ensures { OnOk result (out.new.items
        ≡ out.old.items ++ schedule_text clients.now schedule.now) }
{
    if schedule.is_empty() {
        return Ok(());
    }
    out.extend_from_slice(b"schedule\n")?;
    push_acts(out, clients, schedule)
}

fn push_script(out: &mut Vec<u8>, script: &Script) -> Result<(), AllocError>
    ensures text { OnOk result (out.new.items ≡ out.old.items ++ script_text script.now) }
    ensures right { IsScript script.now }
{
    let clients = script.clients();
    push_head(out, script.nodes(), script.recoverers())?;
    push_clients(out, clients)?;
    push_points(out, clients, script.points())?;
    push_schedule(out, clients, script.schedule())
}

/// Writes one spelling of a script, without the lines `recoverers` and `schedule` where they can be
/// left out, and with each transaction as `tx`. A text of at most 4,194,304 bytes reads as that
/// script. NoMemory: there was no memory for the text.
pub fn write_script(alloc: Global, script: &Script) -> Result<Bytes, NoMemory>
    ensures text { IfOk result (λ text. text ≡ script_text script.now) }
    ensures reads_back { IfOk result
        (λ text. length text ≤ 4194304 → script_of text ≡ Ok script.now) }
{
    let mut out = Vec::new(alloc);
    push_script(&mut out, script)?;
    Ok(Bytes::from_vec(out))
}

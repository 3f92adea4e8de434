ghost use Rattle.std.specs.Prelude.{◌≡◌, ◌<◌, ◌++◌, length, flat_map, option_map, slice_index};
ghost use Rattle.std.specs.Prelude.{OnOk};
ghost use Rattle.mn_report.specs.Spelling.{spaced, hex_byte};
ghost use Rattle.mn_report.specs.Answers.{found_text, name_text, state_text, id_text, pair_text};
ghost use Rattle.mn_report.specs.Answers.{version_text, reply_text, same_before, both_text};
ghost use Rattle.mn_report.specs.Answers.{moved_text, busy_text, answer_text, line_answer_text};
ghost use Rattle.mn_report.specs.Answers.{IsMove, CanTell, CanTellLine};

use crate::lines::LineAnswer;
use crate::spelling::{push_hex, push_number, push_spaced_number, push_spelled};
use mn_base::{Answer, Busy, Name, NodeNo, Pair, Reply, Tid, Value, Version};
use std::alloc::AllocError;

/// Adds a space and a text.
pub fn push_spaced(out: &mut Vec<u8>, text: &[u8]) -> Result<(), AllocError>
    ensures { OnOk result (out.new.items ≡ out.old.items ++ spaced text.now) }
{
    out.push(b' ')?;
    out.extend_from_slice(text)
}

fn push_found(out: &mut Vec<u8>, found: Option<&Value>) -> Result<(), AllocError>
    ensures { OnOk result (out.new.items ≡ out.old.items
        ++ spaced (found_text (option_map (λ v. v.now) found.entry))) }
{
    out.push(b' ')?;
    match found {
        None => {
            out.push(b'-')?;
            Ok(())
        }
        Some(value) => {
            out.push(b'=')?;
            push_spelled(out, value.as_slice())
        }
    }
}

fn push_all_found(out: &mut Vec<u8>, found: &[Option<Value>]) -> Result<(), AllocError>
    ensures { OnOk result (out.new.items
        ≡ out.old.items ++ flat_map (λ f. spaced (found_text f)) found.now) }
{
    for value in found {
        push_found(out, value.as_ref())?;
    }
    Ok(())
}

/// Adds a space and a name, or `-` for none.
pub fn push_name(out: &mut Vec<u8>, name: &Option<Name>) -> Result<(), AllocError>
    ensures { OnOk result (out.new.items ≡ out.old.items ++ spaced (name_text name.now)) }
{
    match name {
        None => push_spaced(out, b"-"),
        Some(name) => push_spaced(out, name.as_slice()),
    }
}

/// Adds a space and the state of a version.
pub fn push_state(out: &mut Vec<u8>, frozen: bool) -> Result<(), AllocError>
    ensures { OnOk result (out.new.items ≡ out.old.items ++ spaced (state_text frozen)) }
{
    if frozen {
        push_spaced(out, b"frozen")
    } else {
        push_spaced(out, b"writable")
    }
}

fn push_id(out: &mut Vec<u8>, tid: &Tid) -> Result<(), AllocError>
    ensures { OnOk result (out.new.items ≡ out.old.items ++ spaced (id_text tid.now)) }
{
    push_spaced_number(out, u64::from(tid.run))?;
    out.push(b'.')?;
    push_number(out, u64::from(tid.client.0))?;
    out.push(b'.')?;
    push_number(out, u64::from(tid.serial))
}

fn push_pair(out: &mut Vec<u8>, pair: &Pair) -> Result<(), AllocError>
    ensures { OnOk result (out.new.items ≡ out.old.items ++ pair_text pair.now) }
{
    out.push(b' ')?;
    push_spelled(out, pair.key.as_slice())?;
    out.extend_from_slice(b" =")?;
    push_spelled(out, pair.value.as_slice())
}

fn push_pairs(out: &mut Vec<u8>, pairs: &[Pair]) -> Result<(), AllocError>
    ensures { OnOk result (out.new.items ≡ out.old.items ++ flat_map pair_text pairs.now) }
{
    for pair in pairs {
        push_pair(out, pair)?;
    }
    Ok(())
}

fn push_version(out: &mut Vec<u8>, version: &Version) -> Result<(), AllocError>
    ensures { OnOk result (out.new.items ≡ out.old.items ++ version_text version.now) }
{
    push_spaced(out, version.name.as_slice())?;
    push_name(out, &version.parent)?;
    push_state(out, version.frozen)
}

fn push_versions(out: &mut Vec<u8>, versions: &[Version]) -> Result<(), AllocError>
    ensures { OnOk result (out.new.items ≡ out.old.items ++ flat_map version_text versions.now) }
{
    for version in versions {
        push_version(out, version)?;
    }
    Ok(())
}

fn push_reply(out: &mut Vec<u8>, reply: &Reply) -> Result<(), AllocError>
    ensures { OnOk result (out.new.items ≡ out.old.items ++ reply_text reply.now) }
{
    match reply {
        Reply::Values { found } => {
            out.extend_from_slice(b"ok")?;
            push_all_found(out, found.as_slice())
        }
        Reply::Unmet { step, found } => {
            out.extend_from_slice(b"unmet")?;
            push_spaced_number(out, u64::from(*step))?;
            push_found(out, found.get())
        }
        Reply::Made => out.extend_from_slice(b"made"),
        Reply::Pairs { pairs } => {
            out.extend_from_slice(b"pairs")?;
            push_spaced_number(out, pairs.as_slice().len() as u64)?;
            push_pairs(out, pairs.as_slice())
        }
        Reply::Listing { versions } => {
            out.extend_from_slice(b"versions")?;
            push_spaced_number(out, versions.as_slice().len() as u64)?;
            push_versions(out, versions.as_slice())
        }
        Reply::NoVersion => out.extend_from_slice(b"noversion"),
        Reply::Frozen => out.extend_from_slice(b"frozen"),
        Reply::NotFrozen => out.extend_from_slice(b"notfrozen"),
        Reply::NameTaken => out.extend_from_slice(b"nametaken"),
        Reply::VersionsFull => out.extend_from_slice(b"versionsfull"),
    }
}

/// How many bytes stand before the first that differs.
fn count_same(expected: &[u8], found: &[u8]) -> usize
    requires { length expected.now ≡ length found.now }
    ensures { result ≡ same_before expected.now found.now }
{
    for (at, byte) in expected.iter().enumerate() {
        if *byte != found[at] {
            return at;
        }
    }
    expected.len()
}

/// Adds a space and one of the bytes.
fn push_byte_at(out: &mut Vec<u8>, bytes: &[u8], at: usize) -> Result<(), AllocError>
    requires { at < length bytes.now }
    ensures { OnOk result (out.new.items
        ≡ out.old.items ++ spaced (hex_byte (slice_index bytes.now at))) }
{
    out.push(b' ')?;
    push_hex(out, bytes[at])
}

/// Adds an expected byte and the one that was found.
fn push_both(out: &mut Vec<u8>, expected: &[u8], found: &[u8], at: usize) -> Result<(), AllocError>
    requires expected { at < length expected.now }
    requires found { at < length found.now }
    ensures { OnOk result (out.new.items ≡ out.old.items ++ both_text expected.now found.now at) }
{
    push_byte_at(out, expected, at)?;
    push_byte_at(out, found, at)
}

/// Adds that bytes moved, of which the first that differs is this one.
fn push_moved_at(
    out: &mut Vec<u8>,
    node: NodeNo,
    place: u64,
    expected: &[u8],
    found: &[u8],
    at: usize,
) -> Result<(), AllocError>
    requires expected { at < length expected.now }
    requires found { at < length found.now }
    ensures { OnOk result (out.new.items
        ≡ out.old.items ++ moved_text node.0 place (both_text expected.now found.now at)) }
{
    out.extend_from_slice(b"busy moved")?;
    push_spaced_number(out, u64::from(node.0))?;
    push_spaced_number(out, place)?;
    push_both(out, expected, found, at)
}

#[tactic(auto, using(crate::proofs::Moves::same_before_within))]
fn push_moved(
    out: &mut Vec<u8>,
    node: NodeNo,
    start: u32,
    expected: &[u8],
    found: &[u8],
) -> Result<(), AllocError>
    requires { IsMove start expected.now found.now }
    ensures { OnOk result (out.new.items
        ≡ out.old.items ++ busy_text (Busy.Moved node start expected.now found.now)) }
{
    let at = count_same(expected, found);
    let place = u64::from(start) + at as u64;
    push_moved_at(out, node, place, expected, found, at)
}

fn push_forced(out: &mut Vec<u8>, tid: &Tid) -> Result<(), AllocError>
    ensures { OnOk result (out.new.items ≡ out.old.items ++ busy_text (Busy.Forced tid.now)) }
{
    out.extend_from_slice(b"busy forced")?;
    push_id(out, tid)
}

fn push_busy(out: &mut Vec<u8>, cause: &Busy) -> Result<(), AllocError>
    requires { CanTell (Answer.Busy cause.now) }
    ensures { OnOk result (out.new.items ≡ out.old.items ++ busy_text cause.now) }
{
    match cause {
        Busy::Lock {
            node,
            start,
            length,
            holder,
        } => {
            out.extend_from_slice(b"busy lock")?;
            push_spaced_number(out, u64::from(node.0))?;
            push_spaced_number(out, u64::from(*start))?;
            push_spaced_number(out, u64::from(*length))?;
            push_id(out, holder)
        }
        Busy::Moved {
            node,
            start,
            expected,
            found,
        } => push_moved(out, *node, *start, expected.as_slice(), found.as_slice()),
        Busy::Forced { tid } => push_forced(out, tid),
        Busy::Path { addr, seq } => {
            out.extend_from_slice(b"busy path")?;
            push_spaced_number(out, u64::from(addr.node.0))?;
            push_spaced_number(out, u64::from(addr.slot))?;
            push_spaced_number(out, *seq)
        }
    }
}

fn push_answer(out: &mut Vec<u8>, answer: &Answer) -> Result<(), AllocError>
    requires { CanTell answer.now }
    ensures { OnOk result (out.new.items ≡ out.old.items ++ answer_text answer.now) }
{
    match answer {
        Answer::Replied { reply } => push_reply(out, reply),
        Answer::Busy { cause } => push_busy(out, cause),
        Answer::Down { node } => {
            out.extend_from_slice(b"down")?;
            push_spaced_number(out, u64::from(node.0))
        }
        Answer::InDoubt { tid, node } => {
            out.extend_from_slice(b"doubt")?;
            push_id(out, tid)?;
            push_spaced_number(out, u64::from(node.0))
        }
        Answer::Full { need, free } => {
            out.extend_from_slice(b"full")?;
            push_spaced_number(out, u64::from(*need))?;
            push_spaced_number(out, u64::from(*free))
        }
        Answer::Worn { node, start } => {
            out.extend_from_slice(b"worn")?;
            push_spaced_number(out, u64::from(node.0))?;
            push_spaced_number(out, u64::from(*start))
        }
        Answer::NoMemory => out.extend_from_slice(b"nomemory"),
    }
}

/// Adds what is said of an operation.
pub fn push_line_answer(out: &mut Vec<u8>, answer: &LineAnswer) -> Result<(), AllocError>
    requires { CanTellLine answer.now }
    ensures { OnOk result (out.new.items ≡ out.old.items ++ line_answer_text answer.now) }
{
    match answer {
        LineAnswer::Answered { answer } => push_answer(out, answer),
        LineAnswer::Died => out.extend_from_slice(b"died"),
        LineAnswer::Never => out.extend_from_slice(b"never"),
    }
}

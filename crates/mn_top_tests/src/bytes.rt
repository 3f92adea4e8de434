//! Each byte of a small store changed in turn: what is then told is what the layout says.
use crate::checks::check;
use crate::disks::one_disk;
use crate::program::{Ran, replay};
use std::alloc::Global;
use std::sync::Wait;
use std::test::Fail;
use std::thread::Threads;

/// The header of the log of the one node.
const HEADER: [u8; 16] = *b"\x01MNLOG\x02\0\x01\0\0\0\0\0\0\0";

/// A leaf with the pair of k and v: sequence 2, made in `main`, without fences.
const LEAF: [u8; 27] = *b"\0\0\0\0\0\0\0\x02\x01\0\0\0\0\0\0\0\0\0\0\0\0\0\x01\x01k\x01v";

/// The body of an execution of id 1.0.1 in front of its leaf, which it writes to the first slot.
const EXECUTES: [u8; 21] = *b"\x02\0\0\0\x01\0\0\0\0\x01\0\x01\x03\0\0\x50\0\0\0\0\x1b";

/// The body of a Forced record of id 1.0.2.
const FORCES: [u8; 10] = *b"\x04\0\0\0\x01\0\0\0\0\x02";

/// A log of these two records, behind two closed areas.
fn small_log(alloc: Global) -> Result<Vec<u8>, Fail> {
    let mut log = HEADER.to_vec(alloc)?;
    log.extend_from_slice(&[0; 64])?;
    log.extend_from_slice(&[1, 0, 0, 0, 48])?;
    log.extend_from_slice(&EXECUTES)?;
    log.extend_from_slice(&LEAF)?;
    log.extend_from_slice(&[1, 0, 0, 0, 10])?;
    log.extend_from_slice(&FORCES)?;
    log.push(0)?;
    Ok(log)
}

/// A place and a rule, or no damage.
type Damage = Option<(u64, &'static str)>;

/// The byte at a place, and 0 behind the end.
fn byte_at(bytes: &[u8], at: usize) -> u8 {
    match bytes.get(at) {
        Some(byte) => *byte,
        None => 0,
    }
}

/// The number in four bytes.
fn number_at(bytes: &[u8], at: usize) -> u64 {
    let mut number: u64 = 0;
    for place in 0..4 {
        number = (number << 8) | byte_at(bytes, at.saturating_add(place)) as u64;
    }
    number
}

/// Whether a body begins with a kind and an id.
fn has_id(body: &[u8]) -> bool {
    number_at(body, 1) > 0 && byte_at(body, 5) <= 20 && number_at(body, 6) > 0
}

/// Whether a body goes on with one write of as many bytes as there are, inside the space.
fn has_one_write(body: &[u8]) -> bool {
    let start = number_at(body, 13);
    let length = number_at(body, 17);
    let is_one = byte_at(body, 10) == 0 && byte_at(body, 11) == 1 && byte_at(body, 12) == 3;
    is_one
        && length > 0
        && start.saturating_add(length) <= 4_214_784
        && body.len() as u64 == length.saturating_add(21)
}

/// Whether a body of that length is a record: a vote has more bytes, and a decision has eleven.
fn is_record(body: &[u8]) -> bool {
    match byte_at(body, 0) {
        2 => has_id(body) && has_one_write(body),
        4 => has_id(body) && body.len() == 10,
        _ => false,
    }
}

/// Where a body has these bytes in front of a leaf of the root: a leaf of one pair with a key and a
/// value of one byte, made in `main`, without fences.
const ROOT: [(usize, u8); 9] = [
    (29, 1),
    (30, 0),
    (31, 0),
    (32, 0),
    (41, 0),
    (42, 0),
    (43, 1),
    (44, 1),
    (46, 1),
];

/// What is damaged by the leaf that a body writes to the first slot. There is no version but `main`
/// for which a page may have been copied, and `main` is none for its own pages.
fn damage_by_leaf(body: &[u8]) -> Damage {
    for (at, byte) in ROOT {
        if byte_at(body, at) != byte {
            return Some((64, "root"));
        }
    }
    if byte_at(body, 40) & 1 == 1 {
        return Some((64, "root"));
    }
    for at in 33..41 {
        if byte_at(body, at) != 0 {
            return Some((20_480, "page"));
        }
    }
    None
}

/// What is damaged by what a record writes: inside the first slot the root is none, and a slot
/// behind it isn't given out.
fn damage_by(body: &[u8]) -> Damage {
    let start = number_at(body, 13);
    if byte_at(body, 0) != 2 {
        return None;
    }
    if start == 20_480 {
        return damage_by_leaf(body);
    }
    if start < 21_504 {
        return Some((64, "root"));
    }
    Some((start - (start - 20_480) % 1_024, "page"))
}

/// The body behind an open gate, if it is whole and has a gate behind it.
fn body_at(log: &[u8], gate: usize) -> Option<&[u8]> {
    let from = gate.saturating_add(5);
    let to = from.saturating_add(number_at(log, gate.saturating_add(1)) as usize);
    if to < log.len() {
        return Some(&log[from..to]);
    }
    None
}

/// The first damage of the records, or of the memory that they make.
fn damage_of_records(log: &[u8]) -> Damage {
    let mut gate: usize = 80;
    let mut damage = None;
    for _ in 0..log.len() {
        if byte_at(log, gate) != 1 {
            break;
        }
        let Some(body) = body_at(log, gate) else {
            return Some((gate as u64, "log"));
        };
        if !is_record(body) {
            return Some((gate as u64, "log"));
        }
        damage = damage.or(damage_by(body));
        gate = gate.saturating_add(5).saturating_add(body.len());
    }
    damage
}

/// The first damage of a log. Its areas are zeros but for the byte that was changed, so an open one
/// has no number.
fn damage_of(log: &[u8]) -> Damage {
    if byte_at(log, 0) != 1 {
        return None;
    }
    if !log.starts_with(&HEADER) {
        return Some((0, "log"));
    }
    for gate in [16, 48] {
        if byte_at(log, gate) == 1 {
            return Some((gate as u64, "log"));
        }
    }
    damage_of_records(log)
}

/// The place and the rule that the line names.
fn damage_in(line: &str) -> Option<(u64, &str)> {
    let (place, rule) = line
        .strip_prefix("damaged 0 ")?
        .strip_suffix("\n")?
        .split_once(' ')?;
    match place.parse::<u64>() {
        Ok(place) => Some((place, rule)),
        Err(_none) => None,
    }
}

/// Whether a call of the program tells this damage, or that there is none.
fn tells(ran: &Ran, damage: Damage) -> bool {
    match damage {
        Some((place, rule)) => {
            ran.outcome.status == 6 && damage_in(ran.text()) == Some((place, rule))
        }
        None => ran.outcome.status == 0,
    }
}

const GET: &str = "nodes 1\nclient a\nget main k\n";

/// Whether a check and a replay tell what is damaged where bits of the byte at this place are
/// turned.
fn is_told<T: Threads + Wait + Sync + AllocGlobal>(
    rt: &T,
    at: usize,
    bits: u8,
) -> Result<bool, Fail> {
    let mut log = small_log(rt.alloc())?;
    if at < log.len() {
        log[at] ^= bits;
    }
    let damage = damage_of(&log);
    let checked = check(rt, one_disk(rt.alloc(), &log, &[])?)?;
    let opened = replay(rt, GET, one_disk(rt.alloc(), &log, &[])?)?;
    Ok(tells(&checked, damage) && tells(&opened, damage))
}

#[test]
fn each_byte_that_changes_is_told_or_no_matter(rt: HostRuntime) -> Result<(), Fail> {
    for bits in [1, 0x80] {
        for at in 0..149 {
            assert!(rt; is_told(&rt, at, bits)?, "bits {bits} of byte {at}");
        }
    }
    Ok(())
}

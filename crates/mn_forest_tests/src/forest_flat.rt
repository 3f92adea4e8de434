//! The memory of two nodes, and the records at which there is none.
use mn_base::{ClientNo, NoMemory, NodeNo, Nodes, Tid};
use mn_flat::{VoteError, flat_of};
use mn_forest::base_spaces;
use mn_mini::{Part, PartItem, Record, Records, SharedBytes};
use mn_space::{NodeSpace, NodeSpaces};
use std::alloc::Global;
use std::test::Fail;

/// A place of no page and of no entry.
const PLACE: u32 = 4_160;

/// The place of a page: the second slot, which is free on both nodes.
const SLOT: u32 = 21_504;

/// The bytes of a slot.
const SIZE: usize = 1_024;

/// The place of the first entry, which is that of `main`, under number 1, on both nodes.
const ENTRY: u32 = 64;

/// The bytes of an entry.
const ENTRY_SIZE: usize = 64;

fn tid(serial: u32) -> Tid {
    Tid {
        run: 1,
        client: ClientNo(0),
        serial,
    }
}

/// A part that writes these bytes.
fn writing(alloc: Global, start: u32, bytes: &[u8]) -> Result<Part, NoMemory> {
    let mut items = Vec::new(alloc);
    items.push(PartItem::Write {
        start,
        bytes: SharedBytes::copy_of(alloc, bytes)?,
    })?;
    Ok(Part::from_vec(alloc, items)?)
}

/// A part that writes `61` at the place.
fn part(alloc: Global) -> Result<Part, NoMemory> {
    writing(alloc, PLACE, &[0x61])
}

/// A part that writes so many bytes of a page or an entry, under this number.
fn numbered(alloc: Global, start: u32, number: u8, size: usize) -> Result<Part, NoMemory> {
    let mut bytes = [0u8; SIZE];
    bytes[7] = number;
    writing(alloc, start, &bytes[..size.min(SIZE)])
}

/// A vote of id 1 for two nodes, with this part.
fn vote(one: u8, other: u8, part: Part) -> Result<Record, NoMemory> {
    let mut participants = Nodes::new();
    participants.push(NodeNo(one))?;
    participants.push(NodeNo(other))?;
    Ok(Record::Voted {
        tid: tid(1),
        participants,
        part,
    })
}

/// The same that writes at the place.
fn voted(alloc: Global, one: u8, other: u8) -> Result<Record, NoMemory> {
    vote(one, other, part(alloc)?)
}

fn executed(alloc: Global, serial: u32) -> Result<Record, NoMemory> {
    Ok(Record::Executed {
        tid: tid(serial),
        part: part(alloc)?,
    })
}

fn decided(yes: bool) -> Record {
    Record::Decided { tid: tid(1), yes }
}

/// The record of id 1 that has this letter: v, a vote for nodes 0 and 1, and w, z and 8 for 1 and
/// 1, 0 and 0, and 1 and 8; y and n, a decision with yes and with no; f, it is forced; e, an
/// execution, and o, one of another id. Votes for nodes 0 and 1 of the slot: 0 and 1 write it whole
/// under these numbers, h the half of it under number 1; 2 is an execution of another id that
/// writes it whole under number 2. The same of the entry: s and g write it whole under numbers 1
/// and 2, p the half of it under number 2.
fn record_of(alloc: Global, letter: u8) -> Result<Record, NoMemory> {
    match letter {
        b'0' => vote(0, 1, numbered(alloc, SLOT, 0, SIZE)?),
        b'1' => vote(0, 1, numbered(alloc, SLOT, 1, SIZE)?),
        b'h' => vote(0, 1, numbered(alloc, SLOT, 1, SIZE / 2)?),
        b's' => vote(0, 1, numbered(alloc, ENTRY, 1, ENTRY_SIZE)?),
        b'g' => vote(0, 1, numbered(alloc, ENTRY, 2, ENTRY_SIZE)?),
        b'p' => vote(0, 1, numbered(alloc, ENTRY, 2, ENTRY_SIZE / 2)?),
        b'2' => Ok(Record::Executed {
            tid: tid(2),
            part: numbered(alloc, SLOT, 2, SIZE)?,
        }),
        b'v' => voted(alloc, 0, 1),
        b'w' => voted(alloc, 1, 1),
        b'z' => voted(alloc, 0, 0),
        b'8' => voted(alloc, 1, 8),
        b'e' => executed(alloc, 1),
        b'o' => executed(alloc, 2),
        b'y' => Ok(decided(true)),
        b'n' => Ok(decided(false)),
        _ => Ok(Record::Forced { tid: tid(1) }),
    }
}

fn records_of(alloc: Global, letters: &str) -> Result<Records, NoMemory> {
    let mut records = Vec::new(alloc);
    for letter in letters.as_bytes() {
        records.push(record_of(alloc, *letter)?)?;
    }
    Ok(Records::from_vec(records))
}

/// The memory that the records of two nodes make, which have these letters.
fn memory_of(alloc: Global, zero: &str, one: &str) -> Result<NodeSpaces, VoteError> {
    flat_of(alloc, &[records_of(alloc, zero)?, records_of(alloc, one)?])
}

/// Whether these bytes stand at the place in a node's space.
fn has(spaces: &NodeSpaces, node: usize, at: usize, bytes: &[u8]) -> bool {
    match spaces.as_slice().get(node) {
        Some(space) => bytes_at(space, at).starts_with(bytes),
        None => false,
    }
}

/// The bytes from a place on, up to the end of its slot, or of what stands before the slots.
fn bytes_at(space: &NodeSpace, at: usize) -> &[u8] {
    if at < 20_480 {
        return &space.front()[at..];
    }
    let slot = (at - 20_480) / 1_024;
    if slot >= 4_096 {
        return &[];
    }
    &space.slot(slot as u16)[(at - 20_480) % 1_024..]
}

/// The entry of `main` in a fresh store.
const MAIN: &[u8] = &[
    0, 0, 0, 0, 0, 0, 0, 1, 1, 0xff, 0, 0, 0, 4, 0x6d, 0x61, 0x69, 0x6e,
];

const HEADER: &[u8] = &[0x4d, 0x49, 0x4e, 0x55, 0x45, 0x54, 1, 2];

/// A place, and what stands there on node 0 and on node 1.
const BASE: &[(usize, &[u8], &[u8])] = &[
    (64, MAIN, MAIN),
    (0, HEADER, HEADER),
    // The node's number, the count's last byte, the leaf's sequence number and kind, and the last
    // byte.
    (8, &[0], &[1]),
    (23, &[1], &[0]),
    (20_487, &[1], &[0]),
    (20_488, &[1], &[0]),
    (20_489, &[0], &[0]),
    (4_214_783, &[0], &[0]),
];

#[test]
fn the_base_memory_is_that_of_the_format(rt: HostRuntime) -> Result<(), Fail> {
    let spaces = base_spaces(rt.alloc(), 2)?;
    for (at, zero, one) in BASE {
        assert!(rt; has(&spaces, 0, *at, zero) && has(&spaces, 1, *at, one));
    }
    // There is nothing behind the last byte.
    assert!(rt; !has(&spaces, 1, 4_214_784, &[0]) && has(&spaces, 1, 4_214_784, &[]));
    Ok(())
}

/// The records of node 0 and of node 1, and the byte at the place on each.
const MADE: &[(&str, &str, u8, u8)] = &[
    ("", "", 0, 0),
    // Both have voted, and nothing is decided.
    ("v", "v", 0x61, 0x61),
    // One of them has the decision.
    ("vy", "v", 0x61, 0x61),
    // One of them alone has voted.
    ("v", "", 0, 0),
    ("", "e", 0, 0x61),
];

#[test]
fn applies_what_is_committed(rt: HostRuntime) -> Result<(), Fail> {
    let at = PLACE as usize;
    for (zero, one, byte, other) in MADE {
        let memory = memory_of(rt.alloc(), zero, one)?;
        assert!(rt; has(&memory, 0, at, &[*byte]) && has(&memory, 1, at, &[*other]));
    }
    Ok(())
}

/// The records of node 0 and of node 1, and the node and the number of the one that is named.
type Refused = (&'static str, &'static str, u8, u32);

const OUT_OF_PLACE: &[Refused] = &[
    // A decision of an id that is not held.
    ("", "n", 1, 0),
    // A yes without the vote of the other participant.
    ("vy", "", 0, 1),
    // A second vote for the id, and a vote after it was forced.
    ("vv", "", 0, 1),
    ("fv", "", 0, 1),
    // A part that conflicts with a held one.
    ("vo", "", 0, 1),
];

const DO_NOT_FIT: &[Refused] = &[
    // Votes that name different participants.
    ("v", "w", 0, 0),
    // A participant that is no node, and a vote that leaves out its own node.
    ("", "8", 1, 0),
    ("", "z", 1, 0),
    // An execution on two nodes.
    ("e", "e", 0, 0),
];

/// Whether the named record of each row is out of place.
fn are_unvoted(alloc: Global, rows: &[Refused]) -> bool {
    for (zero, one, node, number) in rows {
        let node = NodeNo(*node);
        let number = *number;
        if memory_of(alloc, zero, one).err() != Some(VoteError::Unvoted { node, number }) {
            return false;
        }
    }
    true
}

#[test]
fn names_a_record_out_of_place(rt: HostRuntime) {
    assert!(rt; are_unvoted(rt.alloc(), OUT_OF_PLACE));
}

#[test]
fn names_the_least_of_records_that_do_not_fit(rt: HostRuntime) {
    assert!(rt; are_unvoted(rt.alloc(), DO_NOT_FIT));
}

/// What is held of a committed id writes a page or an entry whole, with a greater number than
/// stands there.
const DO_NOT_RISE: &[Refused] = &[
    // The number of a free slot, and half a page.
    ("0", "0", 0, 0),
    ("h", "h", 0, 0),
    // Node 1 alone still holds its vote.
    ("hy", "h", 1, 0),
    // A lower number than that of an execution in front of the vote.
    ("21", "1", 0, 1),
    // An entry under its own number, and half an entry, on each node.
    ("s", "v", 0, 0),
    ("v", "s", 1, 0),
    ("p", "v", 0, 0),
    ("v", "p", 1, 0),
];

/// Votes that rise, and such that need not: the other node has no vote, or both have the decision.
const RISE: &[(&str, &str)] = &[
    ("1", "1"),
    ("1y", "1"),
    ("h", ""),
    ("hy", "hy"),
    ("0", ""),
    ("g", "g"),
    ("v", "g"),
    ("", "s"),
];

#[test]
fn what_is_held_of_a_committed_id_has_greater_numbers(rt: HostRuntime) -> Result<(), Fail> {
    assert!(rt; are_unvoted(rt.alloc(), DO_NOT_RISE));
    for (zero, one) in RISE {
        memory_of(rt.alloc(), zero, one)?;
    }
    Ok(())
}

const BOTH_WAYS: &[Refused] = &[
    // All votes count as a yes.
    ("v", "vn", 1, 1),
    // The first decision is named, be it a yes.
    ("vy", "vn", 0, 1),
];

#[test]
fn names_an_id_that_is_decided_both_ways(rt: HostRuntime) {
    let alloc = rt.alloc();
    for (zero, one, node, number) in BOTH_WAYS {
        let node = NodeNo(*node);
        let number = *number;
        let refused = memory_of(alloc, zero, one).err();
        assert!(rt; refused == Some(VoteError::Both { node, number }));
    }
    // A decision that is not held is out of place before all.
    assert!(rt; are_unvoted(alloc, &[("n", "vy", 0, 0)]));
}

//! Lists of records that are shortened.
use mn_base::{ClientNo, NodeNo, Nodes, Tid};
use mn_mini::{Part, PartItem, Record, SharedBytes, shorten};
use std::alloc::Global;
use std::test::Fail;

/// An item at a place.
#[derive(Clone, Copy)]
enum Piece {
    /// Compares eight bytes with this one.
    Compare(u8, u8),
    /// Reads eight bytes.
    Read(u8),
    /// Writes this byte eight times.
    Write(u8, u8),
    /// Writes this byte once.
    WriteOne(u8, u8),
}

/// A record of the id with this serial.
#[derive(Clone, Copy)]
enum Step {
    Vote(u8, &'static [Piece]),
    Execute(u8, &'static [Piece]),
    Decide(u8, bool),
    Force(u8),
}

use Piece::{Compare, Read, Write, WriteOne};
use Step::{Decide, Execute, Force, Vote};

fn tid(serial: u8) -> Tid {
    Tid {
        run: 1,
        client: ClientNo(0),
        serial: u32::from(serial),
    }
}

fn item_of(alloc: Global, piece: Piece) -> Result<PartItem, Fail> {
    match piece {
        Compare(start, byte) => Ok(PartItem::Compare {
            start: u32::from(start),
            bytes: SharedBytes::copy_of(alloc, &[byte; 8])?,
        }),
        Read(start) => Ok(PartItem::Read {
            start: u32::from(start),
            length: 8,
        }),
        Write(start, byte) => Ok(PartItem::Write {
            start: u32::from(start),
            bytes: SharedBytes::copy_of(alloc, &[byte; 8])?,
        }),
        WriteOne(start, byte) => Ok(PartItem::Write {
            start: u32::from(start),
            bytes: SharedBytes::copy_of(alloc, &[byte])?,
        }),
    }
}

fn part_of(alloc: Global, pieces: &[Piece]) -> Result<Part, Fail> {
    let mut items = Vec::new(alloc);
    for piece in pieces {
        items.push(item_of(alloc, *piece)?)?;
    }
    Ok(Part::from_vec(alloc, items)?)
}

/// A vote of nodes 0 and 1.
fn vote(alloc: Global, serial: u8, pieces: &[Piece]) -> Result<Record, Fail> {
    let mut participants = Nodes::new();
    participants.push(NodeNo(0))?;
    participants.push(NodeNo(1))?;
    Ok(Record::Voted {
        tid: tid(serial),
        participants,
        part: part_of(alloc, pieces)?,
    })
}

fn record_of(alloc: Global, step: Step) -> Result<Record, Fail> {
    match step {
        Vote(serial, pieces) => vote(alloc, serial, pieces),
        Execute(serial, pieces) => Ok(Record::Executed {
            tid: tid(serial),
            part: part_of(alloc, pieces)?,
        }),
        Decide(serial, yes) => Ok(Record::Decided {
            tid: tid(serial),
            yes,
        }),
        Force(serial) => Ok(Record::Forced { tid: tid(serial) }),
    }
}

fn records_of(alloc: Global, steps: &[Step]) -> Result<Vec<Record>, Fail> {
    let mut records = Vec::new(alloc);
    for step in steps {
        records.push(record_of(alloc, *step)?)?;
    }
    Ok(records)
}

/// A record in words, whatever place its items lie in.
fn words_of(alloc: Global, record: &Record) -> Result<String, Fail> {
    match record {
        Record::Voted { tid, part, .. } => {
            let items = part.as_slice();
            Ok(format!(in alloc; "{tid:?} voted {items:?}")?)
        }
        Record::Executed { tid, part } => {
            let items = part.as_slice();
            Ok(format!(in alloc; "{tid:?} executed {items:?}")?)
        }
        Record::Decided { tid, yes } => Ok(format!(in alloc; "{tid:?} decided {yes}")?),
        Record::Forced { tid } => Ok(format!(in alloc; "{tid:?} forced")?),
    }
}

/// Whether these records are shortened to those.
fn is_shortened(alloc: Global, whole: &[Step], shorter: &[Step]) -> Result<bool, Fail> {
    let whole = records_of(alloc, whole)?;
    let wanted = records_of(alloc, shorter)?;
    let found = shorten(alloc, &whole)?;
    let found = found.as_slice();
    if found.len() != wanted.len() {
        return Ok(false);
    }
    for (one, other) in found.iter().zip(&wanted) {
        if words_of(alloc, one)?.as_str() != words_of(alloc, other)?.as_str() {
            return Ok(false);
        }
    }
    Ok(true)
}

/// Records, and what is left of them.
type Shortened = (&'static [Step], &'static [Step]);

const LISTS: &[Shortened] = &[
    // an execution that is written over goes
    (
        &[
            Execute(1, &[Write(16, 1)]),
            Execute(2, &[Write(16, 2)]),
            Force(3),
        ],
        &[Execute(2, &[Write(16, 2)]), Force(3)],
    ),
    // the same start with another length stays
    (
        &[Execute(1, &[Write(16, 1)]), Execute(2, &[WriteOne(16, 2)])],
        &[Execute(1, &[Write(16, 1)]), Execute(2, &[WriteOne(16, 2)])],
    ),
    // a range that one part writes twice
    (
        &[Execute(1, &[Compare(8, 0), Write(16, 1), Write(16, 2)])],
        &[Execute(1, &[Write(16, 2)])],
    ),
    // a vote writes at its decision, behind the execution
    (
        &[
            Vote(1, &[Compare(16, 0), Write(16, 1)]),
            Execute(2, &[Write(16, 2)]),
            Decide(1, true),
        ],
        &[Vote(1, &[Write(16, 1)]), Decide(1, true)],
    ),
    // a decided vote without a write keeps its first range; one without a decision stays
    (
        &[
            Vote(1, &[Compare(8, 0), Write(16, 1)]),
            Decide(1, false),
            Vote(2, &[Compare(24, 0), Write(16, 2)]),
        ],
        &[
            Vote(1, &[Read(8)]),
            Decide(1, false),
            Vote(2, &[Compare(24, 0), Write(16, 2)]),
        ],
    ),
    // of two votes for an id the older one writes first
    (
        &[
            Vote(1, &[Write(16, 1)]),
            Vote(1, &[Write(16, 2)]),
            Decide(1, true),
        ],
        &[
            Vote(1, &[Read(16)]),
            Vote(1, &[Write(16, 2)]),
            Decide(1, true),
        ],
    ),
];

#[test]
fn what_is_written_over_goes(rt: HostRuntime) -> Result<(), Fail> {
    for (whole, shorter) in LISTS {
        assert!(rt; is_shortened(rt.alloc(), whole, shorter)?);
    }
    Ok(())
}

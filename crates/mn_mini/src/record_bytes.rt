ghost use Rattle.std.specs.Prelude.{◌≡◌, ◌≤◌, ◌<◌, ◌++◌, ◌∷◌, [], ℕ, List, length, IfOk, IfErr};
ghost use Rattle.std.specs.Prelude.{OnOk, MatchOption, IsTrue};
ghost use Rattle.std.specs.List.{flat_map, AllByRecursion};
ghost use Rattle.byteorder.specs.Endian.{big_bytes};
ghost use Rattle.mn_mini.specs.declared.record.Record.{Record};
ghost use Rattle.mn_mini.specs.RecordGrammar.{IsRecord, IsTid, IsPart, IsPartItem, AreParticipants};
ghost use Rattle.mn_mini.specs.RecordGrammar.{AreItems, record_bytes, tid_bytes, item_bytes};
ghost use Rattle.mn_mini.specs.RecordGrammar.{part_bytes, participants_bytes, range_bytes};

use crate::{Part, PartItem, Record};
use byteorder::{BigEndian, ByteOrder};
use mn_base::{Bytes, NoMemory, NodeNo, Tid};
use std::alloc::{AllocError, Global};

/// Adds a number in four bytes, the highest first.
fn push_number(out: &mut Vec<u8>, number: u32) -> Result<(), AllocError>
    ensures { OnOk result (out.new.items ≡ out.old.items ++ big_bytes 4 number) }
{
    let mut bytes = [0u8; 4];
    BigEndian::write_u32(&mut bytes, number);
    out.extend_from_slice(&bytes)
}

/// Adds an id.
fn push_tid(out: &mut Vec<u8>, tid: Tid) -> Result<(), AllocError>
    ensures { OnOk result (out.new.items ≡ out.old.items ++ tid_bytes tid) }
{
    push_number(out, tid.run)?;
    out.push(tid.client.0)?;
    push_number(out, tid.serial)
}

/// Adds an item's kind and its range.
fn push_head(out: &mut Vec<u8>, kind: u8, start: u32, length: u32) -> Result<(), AllocError>
    ensures { OnOk result (out.new.items
        ≡ out.old.items ++ (kind ∷ range_bytes (record { start = start; length = length }))) }
{
    out.push(kind)?;
    push_number(out, start)?;
    push_number(out, length)
}

/// Adds an item.
fn push_item(out: &mut Vec<u8>, item: &PartItem) -> Result<(), AllocError>
    requires { IsPartItem item.now }
    ensures { OnOk result (out.new.items ≡ out.old.items ++ item_bytes item.now) }
{
    match item {
        PartItem::Compare { start, bytes } => {
            let bytes = bytes.as_slice();
            push_head(out, 1, *start, bytes.len() as u32)?;
            out.extend_from_slice(bytes)
        }
        PartItem::Read { start, length } => push_head(out, 2, *start, *length),
        PartItem::Write { start, bytes } => {
            let bytes = bytes.as_slice();
            push_head(out, 3, *start, bytes.len() as u32)?;
            out.extend_from_slice(bytes)
        }
    }
}

/// Adds items.
fn push_items(out: &mut Vec<u8>, items: &[PartItem]) -> Result<(), AllocError>
    requires { AllByRecursion IsPartItem items.now }
    ensures { OnOk result (out.new.items ≡ out.old.items ++ flat_map item_bytes items.now) }
{
    for item in items {
        push_item(out, item)?;
    }
    Ok(())
}

/// Adds a part.
fn push_part(out: &mut Vec<u8>, part: &Part) -> Result<(), AllocError>
    requires { IsPart part.now }
    ensures { OnOk result (out.new.items ≡ out.old.items ++ part_bytes part.now) }
{
    let items = part.as_slice();
    let mut count = [0u8; 2];
    BigEndian::write_u16(&mut count, items.len() as u16);
    out.extend_from_slice(&count)?;
    push_items(out, items)
}

/// Adds the numbers of the participants behind their count.
fn push_participants(out: &mut Vec<u8>, participants: &[NodeNo]) -> Result<(), AllocError>
    requires { AreParticipants participants.now }
    ensures { OnOk result (out.new.items ≡ out.old.items ++ participants_bytes participants.now) }
{
    out.push(participants.len() as u8)?;
    for node in participants {
        out.push(node.0)?;
    }
    Ok(())
}

/// Adds a record.
fn push_record(out: &mut Vec<u8>, written: &Record) -> Result<(), AllocError>
    requires { IsRecord written.now }
    ensures { OnOk result (out.new.items ≡ out.old.items ++ record_bytes written.now) }
{
    match written {
        Record::Voted {
            tid,
            participants,
            part,
        } => {
            out.push(1)?;
            push_tid(out, *tid)?;
            push_participants(out, participants.as_slice())?;
            push_part(out, part)
        }
        Record::Executed { tid, part } => {
            out.push(2)?;
            push_tid(out, *tid)?;
            push_part(out, part)
        }
        Record::Decided { tid, yes } => {
            out.push(3)?;
            push_tid(out, *tid)?;
            Ok(out.push(if *yes { 1 } else { 0 })?)
        }
        Record::Forced { tid } => {
            out.push(4)?;
            push_tid(out, *tid)
        }
    }
}

/// For how many bytes there is room at once, beside those of the items.
const FIRST_ROOM: usize = 64;

/// About how many bytes the items take.
fn room_of(items: &[PartItem]) -> usize {
    let mut room = FIRST_ROOM;
    for item in items {
        if let PartItem::Compare { bytes, .. } | PartItem::Write { bytes, .. } = item {
            room = room
                .saturating_add(FIRST_ROOM)
                .saturating_add(bytes.as_slice().len());
        }
    }
    room
}

/// About how many bytes a record takes.
fn room_for(written: &Record) -> usize {
    match written {
        Record::Voted { part, .. } | Record::Executed { part, .. } => room_of(part.as_slice()),
        Record::Decided { .. } | Record::Forced { .. } => FIRST_ROOM,
    }
}

impl Record {
    /// Its spelling. Only a record in the grammar has one: an id with a run and a serial from 1 on
    /// and a client from 0 to 20; 2 to 8 participants in order; 1 to 1,024 items, compares before
    /// reads before writes, each of 1 to 4,096 bytes inside the space; and a write item in what was
    /// executed.
    pub fn write(&self, alloc: Global) -> Result<Bytes, NoMemory>
        requires { IsRecord self.now }
        ensures { IfOk result (λ bytes. bytes ≡ record_bytes self.now) }
    {
        let mut out = Vec::new(alloc);
        self.write_to(&mut out)?;
        Ok(Bytes::from_vec(out))
    }

    /// Puts its spelling, as `write` gives it, in place of what the list holds. NoMemory: there was
    /// no memory for it; what the list holds then is not told.
    pub fn write_to(&self, out: &mut Vec<u8>) -> Result<(), NoMemory>
        requires { IsRecord self.now }
        ensures { OnOk result (out.new.items ≡ record_bytes self.now) }
    {
        out.clear();
        out.reserve(room_for(self))?;
        push_record(out, self)?;
        Ok(())
    }
}

/// Two records in the grammar that are spelled alike are one.
pub fn spelled_once()
    ensures { (r s : Record) → IsRecord r → IsRecord s → record_bytes r ≡ record_bytes s → r ≡ s }
{}

ghost use Rattle.std.specs.Prelude.{◌≡◌, ◌≤◌, ◌<◌, ◌++◌, ◌∷◌, [], ℕ, List, length, IfOk, IfErr};
ghost use Rattle.std.specs.Prelude.{IfSome, IfNone, MatchOption, IsTrue, map};
ghost use Rattle.std.specs.List.{flat_map};
ghost use Rattle.byteorder.specs.Endian.{big_bytes};
ghost use Rattle.mn_base.specs.declared.ids.NodeNo.{NodeNo};
ghost use Rattle.mn_mini.specs.declared.part.PartItem.{PartItem};
ghost use Rattle.mn_mini.specs.declared.record.Record.{Record};
ghost use Rattle.mn_mini.specs.declared.record_error.RecordError.{RecordError};
ghost use Rattle.mn_mini.specs.RecordGrammar.{IsRecord, IsTid, IsRange, IsPart, IsPartItem};
ghost use Rattle.mn_mini.specs.RecordGrammar.{IsItemFrom, AreParticipants, AreItems, HasLength};
ghost use Rattle.mn_mini.specs.RecordGrammar.{Begins, NoneBegins, BodyFollows, NoneGoesOn, Spells};
ghost use Rattle.mn_mini.specs.RecordGrammar.{SpellsNone, kind_of, are_ascending, as_they_stand};
ghost use Rattle.mn_mini.specs.RecordGrammar.{record_bytes, tid_bytes, item_bytes, part_bytes};
ghost use Rattle.mn_mini.specs.RecordGrammar.{participants_bytes, range_bytes, numbers_of};

use crate::minitransaction::MAX_ITEMS;
use crate::spaces::{MAX_ITEM, SPACE};
use crate::{Part, PartItem, Record, RecordError, SharedBytes};
use byteorder::{BigEndian, ByteOrder};
use mn_base::{ClientNo, NoMemory, NodeNo, Nodes, Range, Tid};
use std::alloc::Global;

/// The number in the first four bytes, and what follows them.
fn first_number(bytes: &[u8]) -> Option<(u32, &[u8])>
    ensures found { IfSome result (λ x. bytes.now ≡ big_bytes 4 x.0 ++ x.1.now) }
    ensures short { IfNone result (length bytes.now < 4) }
{
    if bytes.len() < 4 {
        return None;
    }
    Some((BigEndian::read_u32(bytes), &bytes[4..]))
}

/// The range that the bytes begin with, if it has 1 to 4,096 bytes inside the space, and what
/// follows.
fn first_range(bytes: &[u8]) -> Option<(Range, &[u8])>
    ensures { MatchOption result (NoneBegins IsRange range_bytes bytes.now)
        (λ x. Begins IsRange range_bytes bytes.now x.0 x.1.now) }
{
    let (start, behind) = first_number(bytes)?;
    let (length, rest) = first_number(behind)?;
    if length < 1 || length > MAX_ITEM || start > SPACE - length {
        return None;
    }
    Some((Range { start, length }, rest))
}

/// The id that the bytes begin with, and what follows.
fn first_tid(bytes: &[u8]) -> Option<(Tid, &[u8])>
    ensures { MatchOption result (NoneBegins IsTid tid_bytes bytes.now)
        (λ x. Begins IsTid tid_bytes bytes.now x.0 x.1.now) }
{
    let (run, behind) = first_number(bytes)?;
    let [client, behind @ ..] = behind else {
        return None;
    };
    let (serial, rest) = first_number(behind)?;
    if run < 1 || *client > 20 || serial < 1 {
        return None;
    }
    let client = ClientNo(*client);
    Some((
        Tid {
            run,
            client,
            serial,
        },
        rest,
    ))
}

/// So many bytes, and what follows.
fn first_data(
    alloc: Global,
    bytes: &[u8],
    length: u32,
) -> Result<Option<(SharedBytes, &[u8])>, NoMemory>
    ensures { IfOk result (λ found.
        MatchOption found (NoneBegins (HasLength length) as_they_stand bytes.now)
        (λ x. Begins (HasLength length) as_they_stand bytes.now x.0 x.1.now)) }
{
    let length = length as usize;
    if length > bytes.len() {
        return Ok(None);
    }
    let (data, rest) = bytes.split_at(length);
    Ok(Some((SharedBytes::copy_of(alloc, data)?, rest)))
}

/// The item that the bytes begin with, if it is of this kind or a later one, and what follows.
fn first_item(alloc: Global, bytes: &[u8], least: u8) -> Result<Option<(PartItem, &[u8])>, NoMemory>
    ensures { IfOk result (λ found.
        MatchOption found (NoneBegins (IsItemFrom least) item_bytes bytes.now)
        (λ x. Begins (IsItemFrom least) item_bytes bytes.now x.0 x.1.now)) }
{
    let [kind, behind @ ..] = bytes else {
        return Ok(None);
    };
    if *kind < least {
        return Ok(None);
    }
    let Some((range, rest)) = first_range(behind) else {
        return Ok(None);
    };
    let start = range.start;
    let length = range.length;
    match kind {
        1 => match first_data(alloc, rest, length)? {
            Some((bytes, rest)) => Ok(Some((PartItem::Compare { start, bytes }, rest))),
            None => Ok(None),
        },
        2 => Ok(Some((PartItem::Read { start, length }, rest))),
        3 => match first_data(alloc, rest, length)? {
            Some((bytes, rest)) => Ok(Some((PartItem::Write { start, bytes }, rest))),
            None => Ok(None),
        },
        _ => Ok(None),
    }
}

/// The number of an item's kind.
fn kind_number(item: &PartItem) -> u8
    ensures { result ≡ kind_of item.now }
{
    match item {
        PartItem::Compare { .. } => 1,
        PartItem::Read { .. } => 2,
        PartItem::Write { .. } => 3,
    }
}

/// So many items in order, and what follows.
fn first_items(
    alloc: Global,
    bytes: &[u8],
    count: usize,
) -> Result<Option<(Vec<PartItem>, &[u8])>, NoMemory>
    ensures { IfOk result (λ found.
        MatchOption found (NoneBegins (AreItems count 1) (flat_map item_bytes) bytes.now)
        (λ x. Begins (AreItems count 1) (flat_map item_bytes) bytes.now x.0.items x.1.now)) }
{
    let mut items = Vec::new(alloc);
    let mut rest = bytes;
    let mut kind = 1;
    for _ in 0..count {
        let Some((item, behind)) = first_item(alloc, rest, kind)? else {
            return Ok(None);
        };
        kind = kind_number(&item);
        items.push(item)?;
        rest = behind;
    }
    Ok(Some((items, rest)))
}

/// The part that the bytes begin with, and what follows.
fn first_part(alloc: Global, bytes: &[u8]) -> Result<Option<(Part, &[u8])>, NoMemory>
    ensures { IfOk result (λ found.
        MatchOption found (NoneBegins IsPart part_bytes bytes.now)
        (λ x. Begins IsPart part_bytes bytes.now x.0 x.1.now)) }
{
    if bytes.len() < 2 {
        return Ok(None);
    }
    let count = BigEndian::read_u16(bytes) as usize;
    if count < 1 || count > MAX_ITEMS {
        return Ok(None);
    }
    match first_items(alloc, &bytes[2..], count)? {
        Some((items, rest)) => Ok(Some((Part::from_vec(alloc, items)?, rest))),
        None => Ok(None),
    }
}

/// Each number is above the one before it.
fn ascend(numbers: &[u8]) -> bool
    ensures { result ≡ are_ascending numbers.now }
{
    let mut rest = numbers;
    while let [a, behind @ ..] = rest {
        if let [b, ..] = behind {
            if a >= b {
                return false;
            }
        }
        rest = behind;
    }
    true
}

/// Nodes of these numbers.
fn nodes_of(numbers: &[u8]) -> Result<Nodes, NoMemory>
    ensures { IfOk result (λ nodes. numbers_of nodes ≡ numbers.now) }
{
    let mut nodes = Nodes::new();
    for number in numbers {
        nodes.push(NodeNo(*number))?;
    }
    Ok(nodes)
}

/// The participants that the bytes begin with, and what follows.
fn first_participants(bytes: &[u8]) -> Result<Option<(Nodes, &[u8])>, NoMemory>
    ensures { IfOk result (λ found.
        MatchOption found (NoneBegins AreParticipants participants_bytes bytes.now)
        (λ x. Begins AreParticipants participants_bytes bytes.now x.0 x.1.now)) }
{
    let [count, behind @ ..] = bytes else {
        return Ok(None);
    };
    let count = *count as usize;
    if count < 2 || count > 8 || count > behind.len() {
        return Ok(None);
    }
    let (numbers, rest) = behind.split_at(count);
    if !ascend(numbers) {
        return Ok(None);
    }
    Ok(Some((nodes_of(numbers)?, rest)))
}

/// The vote that the bytes behind its id spell.
fn read_voted(alloc: Global, tid: Tid, bytes: &[u8]) -> Result<Option<Record>, NoMemory>
    ensures { IfOk result (λ found.
        MatchOption found (NoneGoesOn 1 tid bytes.now) (BodyFollows 1 tid bytes.now)) }
{
    let Some((participants, behind)) = first_participants(bytes)? else {
        return Ok(None);
    };
    let Some((part, rest)) = first_part(alloc, behind)? else {
        return Ok(None);
    };
    if !rest.is_empty() {
        return Ok(None);
    }
    Ok(Some(Record::Voted {
        tid,
        participants,
        part,
    }))
}

/// The execution that the bytes behind its id spell.
fn read_executed(alloc: Global, tid: Tid, bytes: &[u8]) -> Result<Option<Record>, NoMemory>
    ensures { IfOk result (λ found.
        MatchOption found (NoneGoesOn 2 tid bytes.now) (BodyFollows 2 tid bytes.now)) }
{
    let Some((part, rest)) = first_part(alloc, bytes)? else {
        return Ok(None);
    };
    if !rest.is_empty() {
        return Ok(None);
    }
    if !part.writes() {
        return Ok(None);
    }
    Ok(Some(Record::Executed { tid, part }))
}

/// The decision that the bytes behind its id spell.
fn read_decided(tid: Tid, bytes: &[u8]) -> Option<Record>
    ensures { MatchOption result (NoneGoesOn 3 tid bytes.now) (BodyFollows 3 tid bytes.now) }
{
    match bytes {
        [0] => Some(Record::Decided { tid, yes: false }),
        [1] => Some(Record::Decided { tid, yes: true }),
        _ => None,
    }
}

/// The refusal to vote whose id the bytes are behind.
fn read_forced(tid: Tid, bytes: &[u8]) -> Option<Record>
    ensures { MatchOption result (NoneGoesOn 4 tid bytes.now) (BodyFollows 4 tid bytes.now) }
{
    match bytes {
        [] => Some(Record::Forced { tid }),
        _ => None,
    }
}

/// The record of this kind and id that the bytes behind its id spell.
fn read_behind(alloc: Global, kind: u8, tid: Tid, bytes: &[u8]) -> Result<Option<Record>, NoMemory>
    ensures { IfOk result (λ found.
        MatchOption found (NoneGoesOn kind tid bytes.now) (BodyFollows kind tid bytes.now)) }
{
    match kind {
        1 => read_voted(alloc, tid, bytes),
        2 => read_executed(alloc, tid, bytes),
        3 => Ok(read_decided(tid, bytes)),
        4 => Ok(read_forced(tid, bytes)),
        _ => Ok(None),
    }
}

/// The record that the bytes spell.
fn record_of(alloc: Global, body: &[u8]) -> Result<Option<Record>, NoMemory>
    ensures { IfOk result (λ found. MatchOption found (SpellsNone body.now) (Spells body.now)) }
{
    let [kind, behind @ ..] = body else {
        return Ok(None);
    };
    let Some((tid, rest)) = first_tid(behind) else {
        return Ok(None);
    };
    read_behind(alloc, *kind, tid, rest)
}

impl Record {
    /// The record that the bytes spell, which is in the grammar. BadRecord: they spell no record in
    /// the grammar.
    pub fn read(alloc: Global, body: &[u8]) -> Result<Record, RecordError>
        ensures read { IfOk result (Spells body.now) }
        ensures bad { IfErr result (λ e. e ≡ RecordError.BadRecord → SpellsNone body.now) }
    {
        match record_of(alloc, body)? {
            Some(found) => Ok(found),
            None => Err(RecordError::BadRecord),
        }
    }
}

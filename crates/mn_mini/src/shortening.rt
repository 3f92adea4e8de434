ghost use Rattle.std.specs.Prelude.{◌≡◌, ◌++◌, ◌∷◌, [], List, map, reverse, Some, IfOk, OnOk};
ghost use Rattle.std.specs.Prelude.{if◌then◌else◌};
ghost use Rattle.mn_base.specs.Ids.{tid_same};
ghost use Rattle.mn_base.specs.declared.ids.Tid.{Tid as Id};
ghost use Rattle.mn_base.specs.declared.ids.NodeNo.{NodeNo};
ghost use Rattle.mn_mini.specs.declared.part.PartItem.{PartItem as BareItem};
ghost use Rattle.mn_mini.specs.declared.part.PartItem.TheVariants as Bare;
ghost use Rattle.mn_mini.specs.declared.record.Record.{Record as Logged};
ghost use Rattle.mn_mini.specs.declared.record.Record.TheVariants.{Voted, Decided, Executed};
ghost use Rattle.mn_mini.specs.Node.{held_parts};
ghost use Rattle.mn_mini.specs.Short.{Fate, Applied, Dropped, remaining, first_read, kept_part};
ghost use Rattle.mn_mini.specs.Short.{with_fate, fate_before, short, held_items, or_first_read};
ghost use Rattle.mn_mini.specs.Shorten.{range_key, id_key, parts_of, held_at, ended_lists, joined};
ghost use Rattle.mn_mini.specs.Shorten.{remaining_each, queue_of, held_of};
ghost use Rattle.mn_mini.specs.Shorten.{OverTells, HeldTells, FateTells, NewerTells, Goes};

use crate::{Part, PartItem, Record, Records};
use mn_base::{NoMemory, Nodes, Tid, TryCopy};
use std::alloc::Global;
use std::collections::{HashMap, HashSet};

/// A range as it is looked up.
#[derive(Clone, Copy, PartialEq, Eq, Hash)]
struct RangeKey {
    start: u32,
    length: usize,
}

/// An id as it is looked up.
#[derive(Clone, Copy, PartialEq, Eq, Hash)]
struct IdKey {
    run: u32,
    client: u8,
    serial: u32,
}

/// Parts of one id, the oldest first.
#[derive(Drop)]
struct Parts<'a> {
    parts: Vec<&'a Part>,
}

/// The parts that are held, by id.
#[derive(Drop)]
struct Held<'a> {
    held: HashMap<IdKey, Parts<'a>>,
}

/// What remains of each of the parts of one id, the oldest first.
#[derive(Drop)]
struct Kept {
    parts: Vec<Vec<PartItem>>,
}

/// What the newer records make of the older votes for an id that they decide.
#[derive(Drop)]
enum Ended {
    /// They say no.
    Dropped,
    /// They say yes, and of the votes' parts this remains.
    Applied(Kept),
}

/// What the newer records make of the older ones.
#[derive(Drop)]
struct Newer {
    /// The ranges that they write.
    over: HashSet<RangeKey>,
    /// By id, what they make of its votes.
    ended: HashMap<IdKey, Ended>,
}

fn range_key(start: u32, length: usize) -> RangeKey
    ensures { result ≡ range_key (record { start = start; length = length }) }
{
    RangeKey { start, length }
}

fn id_key(tid: Tid) -> IdKey
    ensures { result ≡ id_key tid }
{
    IdKey {
        run: tid.run,
        client: tid.client.0,
        serial: tid.serial,
    }
}

/// Keeps an item that writes a range which nothing behind it writes.
fn keep_item(
    alloc: Global,
    item: &PartItem,
    over: &mut HashSet<RangeKey>,
    kept: &mut Vec<PartItem>,
) -> Result<(), NoMemory>
    ensures { (rest items : List BareItem) → reverse kept.old.items ≡ remaining rest items
        → OverTells over.old (rest ++ items)
        → OnOk result ((reverse kept.new.items ≡ remaining (item.now ∷ rest) items)
        × OverTells over.new (item.now ∷ (rest ++ items))) }
{
    match item {
        PartItem::Write { start, bytes } => {
            if over.insert(range_key(*start, bytes.as_slice().len()))? {
                kept.push(PartItem::Write {
                    start: *start,
                    bytes: bytes.try_copy(alloc)?,
                })?;
            }
            Ok(())
        }
        PartItem::Compare { .. } => Ok(()),
        PartItem::Read { .. } => Ok(()),
    }
}

/// The write items of the part that remain, where these ranges are written behind it. Then they
/// have the part's ranges too.
fn keep_remaining(
    alloc: Global,
    part: &[PartItem],
    over: &mut HashSet<RangeKey>,
) -> Result<Vec<PartItem>, NoMemory>
    ensures { (items : List BareItem) → OverTells over.old items
        → IfOk result (λ kept. (kept.items ≡ remaining part.now items)
        × OverTells over.new (part.now ++ items)) }
{
    let mut kept = Vec::new(alloc);
    let mut left = part.len();
    while left > 0 {
        left -= 1;
        keep_item(alloc, &part[left], over, &mut kept)?;
    }
    kept.reverse();
    Ok(kept)
}

/// The same of several parts, which are applied in turn.
fn keep_each(
    alloc: Global,
    parts: &Parts<'_>,
    over: &mut HashSet<RangeKey>,
) -> Result<Kept, NoMemory>
    ensures { (items : List BareItem) → OverTells over.old items
        → IfOk result (λ kept. (queue_of kept ≡ remaining_each (parts_of parts.now) items)
        × OverTells over.new (joined (parts_of parts.now) ++ items)) }
{
    let all = parts.parts.as_slice();
    let mut kept = Vec::new(alloc);
    let mut left = all.len();
    while left > 0 {
        left -= 1;
        kept.push(keep_remaining(alloc, all[left].as_slice(), over)?)?;
    }
    kept.reverse();
    Ok(Kept { parts: kept })
}

/// A read of so many bytes. NoMemory: no item has so many.
fn read_of(start: u32, length: usize) -> Result<Part, NoMemory>
    ensures { IfOk result (λ read. read ≡ Bare.Read start length ∷ []) }
{
    match u32::try_from(length) {
        Ok(length) => Ok(Part::one(PartItem::Read { start, length })),
        Err(_) => Err(NoMemory),
    }
}

/// The range of the first item, read.
fn first_read(alloc: Global, part: &Part) -> Result<Part, NoMemory>
    ensures { IfOk result (λ read. read ≡ first_read part.now) }
{
    match part.as_slice() {
        [PartItem::Compare { start, bytes }, ..] => read_of(*start, bytes.as_slice().len()),
        [PartItem::Read { start, length }, ..] => Ok(Part::one(PartItem::Read {
            start: *start,
            length: *length,
        })),
        [PartItem::Write { start, bytes }, ..] => read_of(*start, bytes.as_slice().len()),
        [] => part.try_copy(alloc),
    }
}

impl<'a> Held<'a> {
    /// The parts of the id, which are then held no longer.
    fn take(&mut self, alloc: Global, tid: Tid) -> Parts<'a>
        ensures taken { parts_of result ≡ held_at self.old tid }
        ensures left { (q : Id) → held_at self.new q
            ≡ (if tid_same tid q then [] else held_at self.old q) }
    {
        match self.held.remove(&id_key(tid)) {
            Some(parts) => parts,
            None => Parts {
                parts: Vec::new(alloc),
            },
        }
    }

    /// Holds one part more.
    fn add(&mut self, alloc: Global, tid: Tid, part: &'a Part) -> Result<(), NoMemory>
        ensures { OnOk result ((q : Id) → held_at self.new q
            ≡ (if tid_same tid q then held_at self.old q ++ part.now ∷ []
            else held_at self.old q)) }
    {
        let mut parts = self.take(alloc, tid);
        parts.parts.push(part)?;
        self.held.insert(id_key(tid), parts)?;
        Ok(())
    }

    /// Goes on by one record, and notes the parts that it ends.
    fn note(
        &mut self,
        alloc: Global,
        ended: &mut Vec<Parts<'a>>,
        record: &'a Record,
    ) -> Result<(), NoMemory>
        ensures { (older : List Logged) → HeldTells self.old older
            → map parts_of ended.old.items ≡ ended_lists older
            → OnOk result (HeldTells self.new (record.now ∷ older)
            × (map parts_of ended.new.items ≡ ended_lists (record.now ∷ older))) }
    {
        match record {
            Record::Voted { tid, part, .. } => self.add(alloc, *tid, part),
            Record::Decided { tid, .. } => {
                ended.push(self.take(alloc, *tid))?;
                Ok(())
            }
            _ => Ok(()),
        }
    }
}

/// For each decision the parts that it ends, the oldest decision first.
fn ended_parts<'a>(alloc: Global, records: &'a [Record]) -> Result<Vec<Parts<'a>>, NoMemory>
    ensures { IfOk result (λ ended.
        map parts_of ended.items ≡ ended_lists (reverse records.now)) }
{
    let mut held = Held {
        held: HashMap::new(alloc),
    };
    let mut ended = Vec::new(alloc);
    for record in records {
        held.note(alloc, &mut ended, record)?;
    }
    Ok(ended)
}

/// A part of these items, or the range of the first item of the whole part where there are none.
fn or_first_read(alloc: Global, part: &Part, items: Vec<PartItem>) -> Result<Part, NoMemory>
    ensures { IfOk result (λ kept. kept ≡ or_first_read part.now items.items) }
{
    if items.is_empty() {
        first_read(alloc, part)
    } else {
        Part::from_vec(alloc, items)
    }
}

impl Kept {
    /// What remains of the newest part, which then isn't of them.
    fn newest(&mut self, alloc: Global) -> Vec<PartItem>
        ensures { (older : List (List BareItem)) (part : List BareItem)
            → queue_of self.old ≡ older ++ part ∷ []
            → (result.items ≡ part) × (queue_of self.new ≡ older) }
    {
        match self.parts.pop() {
            Some(items) => items,
            None => Vec::new(alloc),
        }
    }
}

/// The parts that the newest decision ends, which then isn't of them.
fn newest_ended<'a>(alloc: Global, ended: &mut Vec<Parts<'a>>) -> Parts<'a>
    ensures { (older : List (List (List BareItem))) (parts : List (List BareItem))
        → map parts_of ended.old.items ≡ older ++ parts ∷ []
        → (parts_of result ≡ parts) × (map parts_of ended.new.items ≡ older) }
{
    match ended.pop() {
        Some(parts) => parts,
        None => Parts {
            parts: Vec::new(alloc),
        },
    }
}

/// What a decision makes of the parts that it ends. With yes the ranges have theirs too.
fn ended_by(
    alloc: Global,
    yes: bool,
    parts: &Parts<'_>,
    over: &mut HashSet<RangeKey>,
) -> Result<Ended, NoMemory>
    ensures { (items : List BareItem) → OverTells over.old items
        → IfOk result (λ ended. FateTells (Some ended) (if yes then Applied items else Dropped)
        (parts_of parts.now)
        × OverTells over.new (if yes then joined (parts_of parts.now) ++ items else items)) }
{
    if yes {
        let kept = keep_each(alloc, parts, over)?;
        return Ok(Ended::Applied(kept));
    }
    Ok(Ended::Dropped)
}

impl Newer {
    /// Behind the newest record.
    fn new(alloc: Global) -> Self
        ensures { (whole : List Logged) → Goes result [] whole whole }
    {
        let over = HashSet::new(alloc);
        let ended = HashMap::new(alloc);
        Newer { over, ended }
    }

    /// What a vote keeps of its part.
    fn voted_part(&mut self, alloc: Global, tid: Tid, part: &Part) -> Result<Part, NoMemory>
        ensures { (over : List BareItem) (fates : Id → Fate) (nodes : List NodeNo)
            (older : List Logged)
            → NewerTells self.old over fates (held_parts (Voted tid nodes part.now ∷ older))
            → IfOk result (λ kept. (kept ≡ kept_part (fates tid) part.now)
            × NewerTells self.new over (with_fate tid (fate_before (fates tid) part.now) fates)
            (held_parts older)) }
    {
        let key = id_key(tid);
        match self.ended.remove(&key) {
            None => Ok(part.try_copy(alloc)?),
            Some(Ended::Dropped) => {
                self.ended.insert(key, Ended::Dropped)?;
                Ok(first_read(alloc, part)?)
            }
            Some(Ended::Applied(mut kept)) => {
                let items = kept.newest(alloc);
                self.ended.insert(key, Ended::Applied(kept))?;
                Ok(or_first_read(alloc, part, items)?)
            }
        }
    }

    /// Keeps a vote with what remains of its part.
    fn keep_vote(
        &mut self,
        alloc: Global,
        kept: &mut Vec<Record>,
        tid: Tid,
        participants: &Nodes,
        part: &Part,
    ) -> Result<(), NoMemory>
        ensures { (older whole : List Logged)
            → Goes self.old kept.old.items (Voted tid participants.now part.now ∷ older) whole
            → OnOk result (Goes self.new kept.new.items older whole) }
    {
        let participants = participants.try_copy(alloc)?;
        let part = self.voted_part(alloc, tid, part)?;
        let vote = Record::Voted {
            tid,
            participants,
            part,
        };
        kept.push(vote)?;
        Ok(())
    }

    /// Keeps what remains of an execution, if anything does.
    fn keep_execution(
        &mut self,
        alloc: Global,
        kept: &mut Vec<Record>,
        tid: Tid,
        part: &Part,
    ) -> Result<(), NoMemory>
        ensures { (older whole : List Logged)
            → Goes self.old kept.old.items (Executed tid part.now ∷ older) whole
            → OnOk result (Goes self.new kept.new.items older whole) }
    {
        let items = keep_remaining(alloc, part.as_slice(), &mut self.over)?;
        if items.is_empty() {
            return Ok(());
        }
        let part = Part::from_vec(alloc, items)?;
        kept.push(Record::Executed { tid, part })?;
        Ok(())
    }

    /// Notes a decision, which ends these parts.
    fn note_decision(
        &mut self,
        alloc: Global,
        tid: Tid,
        yes: bool,
        parts: &Parts<'_>,
    ) -> Result<(), NoMemory>
        ensures { (over : List BareItem) (fates : Id → Fate) (older : List Logged)
            → NewerTells self.old over fates (held_parts (Decided tid yes ∷ older))
            → parts_of parts.now ≡ held_of tid (held_parts older)
            → OnOk result (NewerTells self.new
            (if yes then held_items tid (held_parts older) ++ over else over)
            (with_fate tid (if yes then Applied over else Dropped) fates) (held_parts older)) }
    {
        let ended = ended_by(alloc, yes, parts, &mut self.over)?;
        self.ended.insert(id_key(tid), ended)?;
        Ok(())
    }

    /// Goes back by one record, and notes what is kept of it.
    fn note<'a>(
        &mut self,
        alloc: Global,
        ended: &mut Vec<Parts<'a>>,
        kept: &mut Vec<Record>,
        record: &'a Record,
    ) -> Result<(), NoMemory>
        ensures { (older whole : List Logged)
            → Goes self.old kept.old.items (record.now ∷ older) whole
            → map parts_of ended.old.items ≡ ended_lists (record.now ∷ older)
            → OnOk result (Goes self.new kept.new.items older whole
            × (map parts_of ended.new.items ≡ ended_lists older)) }
    {
        match record {
            Record::Voted {
                tid,
                participants,
                part,
            } => {
                self.keep_vote(alloc, kept, *tid, participants, part)?;
                Ok(())
            }
            Record::Executed { tid, part } => {
                self.keep_execution(alloc, kept, *tid, part)?;
                Ok(())
            }
            Record::Decided { tid, yes } => {
                let parts = newest_ended(alloc, ended);
                self.note_decision(alloc, *tid, *yes, &parts)?;
                kept.push(record.try_copy(alloc)?)?;
                Ok(())
            }
            Record::Forced { tid } => {
                kept.push(Record::Forced { tid: *tid })?;
                Ok(())
            }
        }
    }
}

/// The records without the writes that are written over: a write item that was applied remains
/// where no item with its start and length was applied later. An execution without any goes, and a
/// vote without any keeps its first item's range, as a read. NoMemory: there was no memory for it.
pub fn shorten(alloc: Global, records: &[Record]) -> Result<Records, NoMemory>
    ensures { IfOk result (λ list. list ≡ short records.now) }
{
    let mut ended = ended_parts(alloc, records)?;
    let mut newer = Newer::new(alloc);
    let mut kept = Vec::new(alloc);
    let mut left = records.len();
    while left > 0 {
        left -= 1;
        newer.note(alloc, &mut ended, &mut kept, &records[left])?;
    }
    kept.reverse();
    Ok(Records::from_vec(kept))
}

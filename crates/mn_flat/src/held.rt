ghost use Rattle.std.specs.Prelude.{◌≡◌, ◌+◌, ◌∷◌, [], not, List, map, option_map, IfOk, OnOk};
ghost use Rattle.std.specs.Prelude.{vec_len};
ghost use Rattle.std.specs.List.{list_any};
ghost use Rattle.mn_mini.specs.declared.record.Record.{Record};
ghost use Rattle.mn_base.specs.Ranges.{ranges_meet};
ghost use Rattle.mn_mini.specs.Mini.{items_conflict, item_conflicts_with, parts_conflict, range_of};
ghost use Rattle.mn_mini.specs.Mini.{is_write};
ghost use Rattle.mn_mini.specs.Node.{held_parts, held_part_of, without_tid};
ghost use Rattle.mn_runs.specs.Sound.{is_free};
ghost use Rattle.mn_flat.specs.Known.{held_seen, parts_seen};

use mn_base::{NoMemory, Nodes, Range, Tid};
use mn_mini::{Part, PartItem, Record};
use std::alloc::Global;

/// A part that is voted and not yet decided.
#[derive(Clone, Copy)]
pub struct Held<'a> {
    pub tid: Tid,
    pub participants: &'a Nodes,
    pub part: &'a Part,
}

/// Where the item begins and where it ends.
fn bounds(item: &PartItem) -> (usize, usize)
    ensures start { result.0 ≡ (range_of item.now).start }
    ensures end { result.1 ≡ (range_of item.now).start + (range_of item.now).length }
{
    match item {
        PartItem::Compare { start, bytes } => {
            let start = *start as usize;
            (start, start + bytes.as_slice().len())
        }
        PartItem::Read { start, length } => {
            let start = *start as usize;
            (start, start + *length as usize)
        }
        PartItem::Write { start, bytes } => {
            let start = *start as usize;
            (start, start + bytes.as_slice().len())
        }
    }
}

fn writes(item: &PartItem) -> bool
    ensures { result ≡ is_write item.now }
{
    matches!(item, PartItem::Write { .. })
}

/// Whether the ranges of two items meet, and one of the two writes.
fn items_clash(one: &PartItem, other: &PartItem) -> bool
    ensures { result ≡ items_conflict one.now other.now }
{
    let (start, end) = bounds(one);
    let (other_start, other_end) = bounds(other);
    start.max(other_start) < end.min(other_end) && (writes(one) || writes(other))
}

fn item_clashes(item: &PartItem, part: &[PartItem]) -> bool
    ensures { result ≡ item_conflicts_with item.now part.now }
{
    part.iter().any(|other| items_clash(item, other))
}

fn parts_clash(one: &[PartItem], other: &[PartItem]) -> bool
    ensures { result ≡ parts_conflict one.now other.now }
{
    one.iter().any(|item| item_clashes(item, other))
}

/// Whether the part conflicts with a held part.
fn clashes(held: &[Held<'_>], part: &[PartItem]) -> bool
    ensures { result ≡ list_any (λ h. parts_conflict part.now h.part.now) held.now }
{
    held.iter().any(|h| parts_clash(part, h.part.as_slice()))
}

/// Whether it conflicts with none.
pub fn is_free(held: &[Held<'_>], part: &[PartItem]) -> bool
    ensures { result ≡ is_free (parts_seen held.now) part.now }
{
    !clashes(held, part)
}

/// The held part of an id.
pub fn held_of<'a>(held: &[Held<'a>], tid: Tid) -> Option<Held<'a>>
    ensures { option_map held_seen result ≡ held_part_of tid (parts_seen held.now) }
{
    let mut found = None;
    for h in held {
        if h.tid == tid {
            found = Some(*h);
        }
    }
    found
}

/// The held parts without those of an id.
fn let_go(held: &mut Vec<Held<'_>>, tid: Tid)
    ensures { parts_seen held.new.items ≡ without_tid tid (parts_seen held.old.items) }
{
    held.retain(|h| h.tid != tid);
}

/// What is held after one more record.
pub fn hold<'a>(held: &mut Vec<Held<'a>>, record: &'a Record) -> Result<(), NoMemory>
    ensures { (older : List Record) → parts_seen held.old.items ≡ held_parts older
        → OnOk result (parts_seen held.new.items ≡ held_parts (record.now ∷ older)) }
{
    match record {
        Record::Voted {
            tid,
            participants,
            part,
        } => held.push(Held {
            tid: *tid,
            participants,
            part,
        })?,
        Record::Decided { tid, .. } => let_go(held, *tid),
        _ => {}
    }
    Ok(())
}

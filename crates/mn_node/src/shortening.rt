//! The list that a log gets when it is shortened: the node's records without the writes that are
//! written over.
ghost use Rattle.std.specs.Prelude.{◌≡◌, ◌≢◌, ◌≤◌, ◌<◌, ◌⊎◌, ◌^◌, ℕ, length, true, false, ⊤};
ghost use Rattle.std.specs.Prelude.{IfOk, MatchOption};
ghost use Rattle.std.specs.List.{AllByRecursion};
ghost use Rattle.mn_mini.specs.RecordGrammar.{IsRecord};
ghost use Rattle.mn_mini.specs.Short.{short};
ghost use Rattle.mn_redo.specs.Grammar.{HaveSizes};
ghost use Rattle.mn_redo.specs.Grammar.{total as total_of};
ghost use Rattle.mn_node.specs.Memory.{IsFront, IsMemory};
ghost use Rattle.mn_node.specs.Node.{bodies_of};

use crate::held::copy_of;
use crate::memory::{Memory, Shortened};
use mn_base::NoMemory;
use mn_io::{Bytes, Disk};
use mn_mini::{Record, short_is_like_whole, shorten};
use mn_redo::Appender;
use std::alloc::Global;

/// From so many bytes of records on, since it was read or shortened, a log is shortened before the
/// next vote or execution.
const LONG: u64 = 1 << 20;

/// More bytes than these are refused like want of memory, so that no sum wraps.
const MOST_BYTES: usize = 1_000_000_000_000;

/// The bodies of a list, and how many bytes they have.
#[derive(Drop)]
pub struct Spelled {
    pub bodies: Vec<Bytes>,
    pub total: usize,
}

/// Spells the records.
fn spell(alloc: Global, records: &[Record]) -> Result<Spelled, NoMemory>
    requires sound { AllByRecursion IsRecord records.now }
    ensures bodies { IfOk result (λ list. list.bodies.items ≡ bodies_of records.now) }
    ensures sizes { IfOk result (λ list. HaveSizes list.bodies.items) }
    ensures total { IfOk result (λ list. list.total ≡ total_of list.bodies.items) }
    ensures few { IfOk result (λ list. list.total ≤ MOST_BYTES) }
{
    let mut bodies = Vec::new(alloc);
    bodies.reserve(records.len())?;
    let mut total = 0;
    for added in records {
        let mut body = Vec::new(alloc);
        added.write_to(&mut body)?;
        if body.len() > 4_294_967_295 || body.len() > MOST_BYTES - total {
            return Err(NoMemory);
        }
        total += body.len();
        bodies.push(Bytes::from_vec(body))?;
    }
    Ok(Spelled { bodies, total })
}

/// A log is to be shortened before a record is put into it: its tail is long, and it can be.
fn is_due<D: Disk>(redo: &Appender<D>) -> bool
    ensures due { result ≡ true → redo.now.number ≢ 2 ^ 63 }
    ensures not_due { result ≡ false → (redo.now.tail < 2 ^ 20) ⊎ (redo.now.number ≡ 2 ^ 63) }
{
    if redo.tail() < LONG {
        return false;
    }
    redo.can_shorten()
}

/// A list that a log is to get: what memory then has of it, and its bodies.
#[derive(Drop)]
pub struct Due {
    pub front: Shortened,
    pub spelled: Spelled,
}

/// The shortened list of all records, where the log is to be shortened before the next record.
pub fn due_list<D: Disk>(
    alloc: Global,
    redo: &Appender<D>,
    memory: &Memory,
) -> Result<Option<Due>, NoMemory>
    requires memory { IsMemory memory.now }
    ensures front { IfOk result (λ due. MatchOption due ⊤
        (λ list. IsFront memory.now.records.items (length memory.now.records.items) list.front)) }
    ensures bodies { IfOk result (λ due. MatchOption due ⊤
        (λ list. list.spelled.bodies.items ≡ bodies_of (short memory.now.records.items))) }
    ensures sizes { IfOk result (λ due. MatchOption due ⊤
        (λ list. HaveSizes list.spelled.bodies.items)) }
    ensures total { IfOk result (λ due. MatchOption due ⊤
        (λ list. list.spelled.total ≡ total_of list.spelled.bodies.items)) }
    ensures few { IfOk result (λ due. MatchOption due ⊤
        (λ list. list.spelled.total ≤ MOST_BYTES)) }
    ensures due { IfOk result (λ due. MatchOption due
        ((redo.now.tail < 2 ^ 20) ⊎ (redo.now.number ≡ 2 ^ 63))
        (λ list. redo.now.number ≢ 2 ^ 63)) }
{
    short_is_like_whole();
    if !is_due(redo) {
        return Ok(None);
    }
    let list = shorten(alloc, &memory.records)?.into_vec();
    let spelled = spell(alloc, &list)?;
    let held = copy_of(alloc, &memory.held)?;
    Ok(Some(Due {
        front: Shortened { list, held },
        spelled,
    }))
}

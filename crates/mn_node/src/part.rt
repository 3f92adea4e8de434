ghost use Rattle.std.specs.Prelude.{◌≡◌, ◌≤◌, ◌+◌, length, IfOk};
ghost use Rattle.mn_mini.specs.Mini.{space_size};
ghost use Rattle.mn_mini.specs.Flat.{bytes_in, part_mismatch_from, part_reads};
ghost use Rattle.mn_mini.specs.Flat.{space_after_part};
ghost use Rattle.mn_node.specs.Part.{AreInside, IsMismatch, shared_of, alone_of};

use crate::space::Space;
use mn_base::{Bytes, NoMemory, Range};
use mn_mini::{MAX_ITEMS, PartItem, ReadBytes, Reads, SharedBytes};
use smallvec::SmallVec;
use std::alloc::Global;

/// A compare item that differs: its number among the compares, and the bytes in place.
#[derive(Debug, Drop)]
pub struct Mismatch {
    pub item: u16,
    pub found: Bytes,
}

/// How many ranges lie in place: those that a put has at a node.
const FEW: usize = 2;

/// The ranges of a part: those to be held shared, and those to be held alone.
#[derive(Debug, Drop)]
pub struct Ranges {
    pub shared: SmallVec<Range, FEW>,
    pub alone: SmallVec<Range, FEW>,
}

/// A copy of the bytes of a range.
pub fn copy_of(alloc: Global, space: &Space, start: u32, length: usize) -> Result<Bytes, NoMemory>
    requires { start + length ≤ Rattle.std.specs.Prelude.length space.now }
    ensures { IfOk result (λ bytes. bytes ≡ bytes_in space.now start length) }
{
    Ok(Bytes::from_vec(space.copy_of(alloc, start, length)?))
}

/// A copy of the bytes of a range.
pub fn shared_copy_of(
    alloc: Global,
    space: &Space,
    start: u32,
    length: usize,
) -> Result<SharedBytes, NoMemory>
    requires { start + length ≤ Rattle.std.specs.Prelude.length space.now }
    ensures { IfOk result (λ bytes. bytes ≡ bytes_in space.now start length) }
{
    space.shared_copy_of(alloc, start, length)
}

/// The first compare item that differs.
pub fn first_mismatch(
    alloc: Global,
    space: &Space,
    items: &[PartItem],
) -> Result<Option<Mismatch>, NoMemory>
    requires inside { AreInside items.now }
    requires whole { length space.now ≡ space_size }
    requires few { length items.now ≤ MAX_ITEMS }
    ensures { IfOk result (IsMismatch (part_mismatch_from space.now 0 items.now)) }
{
    let mut item = 0;
    for compare in items {
        if let PartItem::Compare { start, bytes } = compare {
            if !space.holds(*start, bytes) {
                let found = copy_of(alloc, space, *start, bytes.as_slice().len())?;
                return Ok(Some(Mismatch { item, found }));
            }
            item += 1;
        }
    }
    Ok(None)
}

/// The bytes of the read items, which copies share.
pub fn reads_of(alloc: Global, space: &Space, items: &[PartItem]) -> Result<Reads, NoMemory>
    requires inside { AreInside items.now }
    requires whole { length space.now ≡ space_size }
    ensures { IfOk result (λ reads. reads ≡ part_reads space.now items.now) }
{
    let mut reads = Reads::none();
    for item in items {
        if let PartItem::Read { start, length } = item {
            let bytes = shared_copy_of(alloc, space, *start, *length as usize)?;
            reads = reads.with(alloc, ReadBytes::shared(bytes))?;
        }
    }
    Ok(reads)
}

/// Puts the write items in place.
pub fn write_items(space: &mut Space, items: &[PartItem])
    requires inside { AreInside items.now }
    requires whole { length space.old ≡ space_size }
    ensures space { space.new ≡ space_after_part space.old items.now }
    ensures whole { length space.new ≡ space_size }
{
    for item in items {
        if let PartItem::Write { start, bytes } = item {
            space.put(*start, bytes);
        }
    }
}

/// The ranges of a part's items, in order.
pub fn ranges_of(alloc: Global, items: &[PartItem]) -> Result<Ranges, NoMemory>
    requires { AreInside items.now }
    ensures shared { IfOk result (λ ranges. ranges.shared.items ≡ shared_of items.now) }
    ensures alone { IfOk result (λ ranges. ranges.alone.items ≡ alone_of items.now) }
{
    let mut shared = SmallVec::new(alloc);
    let mut alone = SmallVec::new(alloc);
    for item in items {
        match item {
            PartItem::Compare { start, bytes } => shared.push(Range {
                start: *start,
                length: bytes.as_slice().len() as u32,
            })?,
            PartItem::Read { start, length } => shared.push(Range {
                start: *start,
                length: *length,
            })?,
            PartItem::Write { start, bytes } => alone.push(Range {
                start: *start,
                length: bytes.as_slice().len() as u32,
            })?,
        }
    }
    Ok(Ranges { shared, alone })
}

ghost use Rattle.std.specs.Prelude.{◌≡◌, ◌≤◌, ◌+◌, ◌&&◌, ◌||◌, not, length, take, drop};
ghost use Rattle.std.specs.Prelude.{nat_le, nat_lt};
ghost use Rattle.std.specs.List.{list_all};
ghost use Rattle.mn_base.specs.Ids.{tid_same};
ghost use Rattle.mn_law.specs.Places.{number_in};
ghost use Rattle.mn_flat.specs.Numbers.{rises, item_rises};

use crate::held::Held;
use byteorder::{BigEndian, ByteOrder};
use mn_base::Tid;
use mn_mini::PartItem;
use mn_space::NodeSpace;

/// Where the entries and the slots begin, how many bytes each has, and where they end.
const CATALOG_START: u32 = 64;

const ENTRY_SIZE: u32 = 64;

const CATALOG_END: u32 = 4_160;

const SLOTS_START: u32 = 20_480;

const SLOT_SIZE: u32 = 1_024;

const SPACE: u32 = 4_214_784;

/// The number with which a page or an entry begins.
fn number(bytes: &[u8]) -> u64
    requires { 8 ≤ length bytes.now }
    ensures { result ≡ number_in bytes.now }
{
    BigEndian::read_u64(bytes)
}

/// Whether the space has all of a range, with a number less than that of these bytes.
fn is_less(space: &NodeSpace, start: u32, bytes: &[u8]) -> bool
    requires { 8 ≤ length bytes.now }
    ensures { result ≡ (nat_le (start + length bytes.now) (length space.now)
        && nat_lt (number_in (take (length bytes.now) (drop start space.now)))
        (number_in bytes.now)) }
{
    let at = start as usize;
    if at + bytes.len() > space.len() {
        return false;
    }
    space.number_at(at) < number(bytes)
}

/// Whether a write, if it meets one of the places of this size from here to there, writes just the
/// whole of it, with a greater number than the space has there.
fn rises(space: &NodeSpace, first: u32, behind: u32, size: u32, start: u32, bytes: &[u8]) -> bool
    requires { 8 ≤ size }
    ensures { result ≡ rises space.now first behind size start bytes.now }
{
    let at = start as usize;
    let first = first as usize;
    let end = at + bytes.len();
    if end <= first || behind as usize <= at || bytes.len() == 0 {
        return true;
    }
    bytes.len() == size as usize
        && first <= at
        && (at - first) % size as usize == 0
        && is_less(space, start, bytes)
}

/// Whether the item, if it writes, does so at each place of a page or an entry.
fn item_rises(space: &NodeSpace, item: &PartItem) -> bool
    ensures { result ≡ item_rises space.now item.now }
{
    match item {
        PartItem::Write { start, bytes } => {
            let bytes = bytes.as_slice();
            rises(space, SLOTS_START, SPACE, SLOT_SIZE, *start, bytes)
                && rises(space, CATALOG_START, CATALOG_END, ENTRY_SIZE, *start, bytes)
        }
        PartItem::Compare { .. } | PartItem::Read { .. } => true,
    }
}

/// Whether each item of a part does so.
fn part_rises(space: &NodeSpace, part: &[PartItem]) -> bool
    ensures { result ≡ list_all (item_rises space.now) part.now }
{
    part.iter().all(|item| item_rises(space, item))
}

/// Whether each item of what is held for the id does so.
pub fn held_rises(space: &NodeSpace, held: &[Held<'_>], tid: Tid) -> bool
    ensures { result ≡ list_all (λ h. not (tid_same h.tid tid)
        || list_all (item_rises space.now) h.part.now) held.now }
{
    held.iter()
        .all(|h| h.tid != tid || part_rises(space, h.part.as_slice()))
}

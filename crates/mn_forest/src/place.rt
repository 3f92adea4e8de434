ghost use Rattle.std.specs.Prelude.{◌≡◌, ◌+◌, ◌<◌, ◌≤◌, length, take, replicate, MatchBool};
ghost use Rattle.std.specs.Prelude.{MatchOption};
ghost use Rattle.std.specs.List.{AllByRecursion};
ghost use Rattle.mn_mini.specs.Mini.{space_size};
ghost use Rattle.mn_mini.specs.Flat.{bytes_in};
ghost use Rattle.mn_page.specs.Space as spot;
ghost use Rattle.mn_page.specs.declared.page.Page.{Page};
ghost use Rattle.mn_forest.specs.Rules.{space_at, count_at, entry_place, slot_place, StandsAt};

use byteorder::{BigEndian, ByteOrder};
use mn_base::{Addr, NodeNo};
use mn_page::PageRef;
use mn_space::NodeSpace;

/// How many slots a node has.
pub const SLOTS: u16 = 4_096;

/// How many entries a catalog has.
pub const ENTRIES: usize = 64;

/// Where an entry begins.
pub fn entry_start(entry: usize) -> usize
    requires { entry < 64 }
    ensures { result ≡ spot.entry_start entry }
{
    64 + 64 * entry
}

/// Where a slot begins.
pub fn slot_start(slot: u16) -> usize
    ensures { result ≡ spot.slot_start slot }
{
    20_480 + 1_024 * usize::from(slot)
}

/// What stands before the slots of a node.
fn front_at(spaces: &[NodeSpace], node: u8) -> &[u8]
    requires there { node < length spaces.now }
    ensures bytes { result.now ≡ take 20480 (space_at spaces.now node) }
    ensures size { length result.now ≡ 20480 }
{
    spaces[usize::from(node)].front()
}

/// The bytes of a range before the slots of a node.
pub fn front_range(spaces: &[NodeSpace], node: u8, start: usize, size: usize) -> &[u8]
    requires there { node < length spaces.now }
    requires before { start + size ≤ 20480 }
    ensures bytes { result.now ≡ bytes_in (space_at spaces.now node) start size }
    ensures size { length result.now ≡ size }
{
    &front_at(spaces, node)[start..start + size]
}

/// Whether the bytes are all zero.
pub fn are_zeros(bytes: &[u8]) -> bool
    ensures { MatchBool result (bytes.now ≡ replicate (length bytes.now) 0)
        (bytes.now ≡ replicate (length bytes.now) 0 → ⊥) }
{
    mn_base::are_zeros(bytes)
}

/// How many slots the node has given out.
pub fn count_at(spaces: &[NodeSpace], node: u8) -> u64
    requires there { node < length spaces.now }
    requires whole { AllByRecursion (λ space. length space ≡ space_size) spaces.now }
    ensures { result ≡ count_at spaces.now node }
{
    BigEndian::read_u64(front_range(spaces, node, 16, 8))
}

/// The bytes of a place of the catalog.
pub fn entry_place(spaces: &[NodeSpace], node: u8, entry: usize) -> &[u8]
    requires there { node < length spaces.now }
    requires whole { AllByRecursion (λ space. length space ≡ space_size) spaces.now }
    requires place { entry < 64 }
    ensures place { result.now ≡ entry_place spaces.now node entry }
    ensures size { length result.now ≡ 64 }
{
    front_range(spaces, node, entry_start(entry), 64)
}

/// The bytes of a slot.
pub fn slot_place(spaces: &[NodeSpace], node: u8, slot: u16) -> &[u8]
    requires there { node < length spaces.now }
    requires whole { AllByRecursion (λ space. length space ≡ space_size) spaces.now }
    requires place { slot < 4096 }
    ensures place { result.now ≡ slot_place spaces.now node slot }
    ensures size { length result.now ≡ 1024 }
{
    spaces[usize::from(node)].slot(slot)
}

/// The page that stands at the address.
pub fn page_at<'a>(spaces: &'a [NodeSpace], addr: Addr) -> Option<PageRef<'a>>
    requires whole { AllByRecursion (λ space. length space ≡ space_size) spaces.now }
    ensures { MatchOption result ((p : Page) → StandsAt spaces.now addr p → ⊥)
        (λ p. StandsAt spaces.now addr p) }
{
    let NodeNo(node) = addr.node;
    if usize::from(node) >= spaces.len() || addr.slot >= SLOTS {
        return None;
    }
    if u64::from(addr.slot) >= count_at(spaces, node) {
        return None;
    }
    match PageRef::new(slot_place(spaces, node, addr.slot)) {
        Ok(found) => found,
        Err(_) => None,
    }
}

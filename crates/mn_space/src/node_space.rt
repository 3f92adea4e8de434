ghost use Rattle.std.specs.Prelude.{◌≡◌, ◌≤◌, ◌<◌, ◌+◌, length, take, drop, IfOk, vec_capacity};
ghost use Rattle.byteorder.specs.Endian.{big_number};
ghost use Rattle.mn_mini.specs.Flat.{bytes_in, overwritten};
ghost use Rattle.mn_mini.specs.Mini.{space_size};
ghost use Rattle.mn_page.specs.Base.{base_of};
ghost use Rattle.mn_page.specs.Grammar.{padded};
ghost use Rattle.mn_page.specs.Space.{slot_start};
ghost use Rattle.mn_space.specs.Kept.{AreWholeSlots};

use crate::kept::{kept_in, write};
use byteorder::{BigEndian, ByteOrder};
use mn_base::NoMemory;
use mn_mini::SPACE;
use mn_page::base_bytes;
use std::alloc::Global;
use std::marker::Model;

/// How many bytes stand before the slots.
const FRONT: usize = 20_480;

/// How many bytes a slot has.
const SLOT: usize = 1_024;

/// The space of a node. Contracts see all its bytes. The zeros behind the last slot that was written
/// aren't kept, so it uses memory for what it holds alone; but there is room for them, so a write
/// takes none.
#[derive(Drop)]
pub struct NodeSpace {
    kept: Vec<u8>,
    /// A slot of zeros, in place of each that isn't kept.
    blank: Vec<u8>,
}

impl Model for NodeSpace {
    ghost use Rattle.std.specs.Prelude.{◌≡◌, ◌≤◌, List, ℕ, replicate, vec_capacity};
    ghost use Rattle.mn_mini.specs.Mini.{space_size};
    ghost use Rattle.mn_page.specs.Grammar.{padded};
    ghost use Rattle.mn_space.specs.Kept.{AreWholeSlots};

    ghost Value = { List ℕ };

    ghost view = { λ s. padded space_size s.kept.items };

    ghost invariant = { λ s. AreWholeSlots s.kept.items × (space_size ≤ vec_capacity s.kept)
        × (s.blank.items ≡ replicate 1024 0) };
}

/// Keeps the zeros up to the end of the slot in which what is kept ends, and at least what stands
/// before the slots.
fn fill_slot(kept: &mut Vec<u8>)
    requires short { length kept.old.items ≤ space_size }
    requires room { space_size ≤ vec_capacity kept.old }
    ensures bytes { padded space_size kept.new.items ≡ padded space_size kept.old.items }
    ensures whole { AreWholeSlots kept.new.items }
    ensures room { space_size ≤ vec_capacity kept.new }
{
    let behind = kept.len().max(FRONT) - FRONT;
    let slots = (behind + SLOT - 1) / SLOT;
    kept.resize(FRONT + SLOT * slots, 0).unwrap();
}

/// A slot of zeros.
fn blank_slot(alloc: Global) -> Result<Vec<u8>, NoMemory>
    ensures { IfOk result (λ blank. blank.items ≡ Rattle.std.specs.Prelude.replicate 1024 0) }
{
    let mut blank = Vec::new(alloc);
    blank.resize(SLOT, 0)?;
    Ok(blank)
}

/// The number in eight bytes: these, and zeros.
fn padded_number(kept: &[u8]) -> u64
    requires { length kept.now ≤ 8 }
    ensures { result ≡ big_number 8 (padded 8 kept.now) }
{
    let mut bytes = [0; 8];
    bytes[..kept.len()].copy_from_slice(kept);
    BigEndian::read_u64(&bytes)
}

impl NodeSpace {
    /// The space that this node, of so many, begins with. NoMemory: there was no memory for it.
    pub fn base(alloc: Global, node: u8, nodes: u8) -> Result<Self, NoMemory>
        requires { 0 < nodes }
        ensures base { IfOk result (λ space. space ≡ base_of nodes node) }
    {
        let mut kept = base_bytes(alloc, node, nodes)?;
        kept.reserve(SPACE as usize - kept.len())?;
        fill_slot(&mut kept);
        Ok(NodeSpace {
            kept,
            blank: blank_slot(alloc)?,
        })
    }

    /// Puts the bytes in place from `start` on, as far as the space goes. It takes no memory.
    pub fn write(&mut self, start: u32, bytes: &[u8])
        ensures { self.new ≡ overwritten self.old start bytes.now }
    {
        let _ = &self.kept;
        let start = start as usize;
        if start >= SPACE as usize {
            return;
        }
        let count = bytes.len().min(SPACE as usize - start);
        write(&mut self.kept, start, &bytes[..count]);
        fill_slot(&mut self.kept);
    }

    /// How many bytes it has: those of a space.
    pub fn len(&self) -> usize
        ensures size { result ≡ space_size }
        ensures all { result ≡ length self.now }
    {
        let _ = &self.kept;
        SPACE as usize
    }

    /// What stands before the slots: the header, the count and the catalog.
    pub fn front(&self) -> &[u8]
        ensures bytes { result.now ≡ take 20480 self.now }
        ensures size { length result.now ≡ 20480 }
    {
        &self.kept[..FRONT]
    }

    /// The bytes of a slot.
    pub fn slot(&self, slot: u16) -> &[u8]
        requires { slot < 4096 }
        ensures bytes { result.now ≡ bytes_in self.now (slot_start slot) 1024 }
        ensures size { length result.now ≡ 1024 }
    {
        let start = FRONT + SLOT * usize::from(slot);
        if start >= self.kept.len() {
            return &self.blank;
        }
        &self.kept[start..start + SLOT]
    }

    /// The number in the eight bytes from here on.
    pub fn number_at(&self, at: usize) -> u64
        requires { at + 8 ≤ space_size }
        ensures { result ≡ big_number 8 (drop at self.now) }
    {
        padded_number(kept_in(&self.kept, at, 8))
    }
}

/// A space for each node, by node. Contracts see them as a list of lists of bytes.
#[derive(Drop)]
pub struct NodeSpaces {
    spaces: Vec<NodeSpace>,
}

impl Model for NodeSpaces {
    ghost use Rattle.std.specs.Prelude.{ℕ, List};

    ghost Value = { List (List ℕ) };

    ghost view = { λ s. s.spaces.items };
}

impl NodeSpaces {
    /// It takes no memory.
    pub fn from_vec(spaces: Vec<NodeSpace>) -> Self
        ensures { result ≡ spaces.items }
    {
        NodeSpaces { spaces }
    }

    pub fn into_vec(self) -> Vec<NodeSpace>
        ensures { result.items ≡ self }
    {
        self.spaces
    }

    pub fn as_slice(&self) -> &[NodeSpace]
        ensures { result.now ≡ self.now }
    {
        &self.spaces
    }
}

ghost use Rattle.std.specs.Prelude.{◌≡◌, ◌++◌, [], length, map, None, IfOk, IfErr, OnOk, OnErr};
ghost use Rattle.std.specs.Prelude.{IsTrue, take};
ghost use Rattle.mn_law.specs.Places.{number_size};
ghost use Rattle.std.specs.List.{position_or_len};
ghost use Rattle.smallvec.specs.SmallVec.{HasRoomFor};
ghost use Rattle.mn_mini.specs.declared.error.MiniError.TheVariants as mini;
ghost use Rattle.mn_page.specs.Space.{slot_start};
ghost use Rattle.mn_txn.specs.declared.error.PlanError.TheVariants as plan;
ghost use Rattle.mn_txn.specs.State.{image, is_at, joined, bytes_at, ImagesAreApart};
ghost use Rattle.mn_txn.specs.Order.{in_item_order};
ghost use Rattle.mn_txn.specs.Plan.{plan_of, compare_of, write_of, is_inside, are_inside, can_plan};
ghost use Rattle.mn_txn.specs.Plan.{is_last, is_last_read, is_worn, first_worn, only_read};
ghost use Rattle.mn_txn.specs.Plan.{RefusesPlan};
ghost use Rattle.mn_txn.specs.AttemptPlan.{least_node, nodes_of};
ghost use Rattle.mn_law.specs.Planned.{least_of, lesser};

use crate::image::{COUNT_START, SLOTS_START};
use crate::{Image, PlanError};
use byteorder::{BigEndian, ByteOrder};
use mn_base::{Addr, NoMemory, NodeNo};
use mn_mini::{
    ITEMS_IN_PLACE, Item, Items, MAX_ITEM, MAX_ITEMS, MAX_NODES, MiniError, Minitransaction, SPACE,
    SharedBytes,
};
use smallvec::SmallVec;
use std::alloc::Global;
use std::marker::Model;

/// How many bytes a slot has.
const SLOT_SIZE: u32 = 1_024;

/// How many bytes of a page or an entry its sequence number has. They stand first, the highest
/// first.
const NUMBER_SIZE: usize = 8;

/// For how many places that are compared or written there is room at once.
const FIRST_ROOM: usize = 4;

/// What a try of an operation has read and is to write, over so many nodes: the pages that it read
/// dirty, the read set, which the plan compares, and the writes, each in the order in which its
/// places came in. Contracts see these as lists.
///
/// A place is looked for in a list one after another: a plan reads and writes few of them, at most
/// 16 leaves and the pages that their splits write.
#[derive(Drop)]
pub struct Txn {
    nodes: u8,
    dirty: Vec<Image>,
    reads: Vec<Image>,
    writes: Vec<Image>,
}

impl Model for Txn {
    ghost use Rattle.mn_txn.specs.State.{State, ImagesAreApart};

    ghost Value = { State };

    ghost view = { λ t. record {
      nodes = t.nodes;
      dirty = t.dirty.items;
      reads = t.reads.items;
      writes = t.writes.items;
    } };

    ghost invariant = { λ t. ImagesAreApart t.dirty.items
        × ImagesAreApart t.reads.items
        × ImagesAreApart t.writes.items };
}

/// The number of the image that stands at a place, or that of all images where none does.
fn position(images: &[Image], node: NodeNo, start: u32) -> usize
    ensures { result ≡ position_or_len (is_at node start) images.now }
{
    for (at, image) in images.iter().enumerate() {
        if image.is_at(node, start) {
            return at;
        }
    }
    images.len()
}

/// Keeps the bytes of a place, in place of older ones.
#[inline(always)]
fn keep(
    images: &mut Vec<Image>,
    node: NodeNo,
    start: u32,
    bytes: SharedBytes,
) -> Result<(), NoMemory>
    ensures kept { OnOk result (images.new.items
        ≡ joined images.old.items (image node start bytes)) }
    ensures unchanged { OnErr result (images.new.items ≡ images.old.items) }
    ensures apart { ImagesAreApart images.old.items → ImagesAreApart images.new.items }
{
    let at = position(images, node, start);
    if at < images.len() {
        images[at].bytes = bytes;
        return Ok(());
    }
    images.push(Image { node, start, bytes })?;
    Ok(())
}

/// Puts the images in the order of the items of a plan.
fn put_in_order(images: &mut Vec<Image>) -> Result<(), NoMemory>
    ensures { OnOk result (images.new.items ≡ in_item_order images.old.items) }
{
    images.sort_by_key(|image| image.turn())?;
    Ok(())
}

/// Whether the bytes at a place may be an item's, over so many nodes.
fn is_inside(nodes: u8, image: &Image) -> bool
    ensures { result ≡ is_inside nodes image.now }
{
    let length = image.bytes.as_slice().len();
    image.node.0 < nodes
        && image.node.0 < MAX_NODES
        && length >= 1
        && length <= MAX_ITEM as usize
        && image.start as usize + length <= SPACE as usize
}

/// Whether all images may be items.
fn are_inside(nodes: u8, images: &[Image]) -> bool
    ensures { result ≡ are_inside nodes images.now }
{
    for image in images {
        if !is_inside(nodes, image) {
            return false;
        }
    }
    true
}

/// Whether bytes begin with the last sequence number.
fn has_last_number(bytes: &SharedBytes) -> bool
    ensures { result ≡ is_last bytes.now }
{
    let bytes = bytes.as_slice();
    bytes.len() >= NUMBER_SIZE && BigEndian::read_u64(bytes) == u64::MAX
}

/// Whether the bytes that were read at the image's place begin with the last sequence number; where
/// none were, as otherwise.
fn is_last_read(reads: &[Image], image: &Image, otherwise: bool) -> bool
    ensures { result
        ≡ is_last_read (bytes_at image.now.node image.now.start reads.now) otherwise }
{
    for read in reads {
        if read.is_at(image.node, image.start) {
            return has_last_number(&read.bytes);
        }
    }
    otherwise
}

/// Whether a place was read with the last sequence number: by its bytes in the read set, or else by
/// those that were read dirty.
fn is_worn(dirty: &[Image], reads: &[Image], image: &Image) -> bool
    ensures { result ≡ is_worn (only_read dirty.now reads.now) image.now }
{
    if image.start == COUNT_START {
        return false;
    }
    let otherwise = is_last_read(dirty, image, false);
    is_last_read(reads, image, otherwise)
}

/// The first of the images whose place was read with the last sequence number.
fn first_worn(dirty: &[Image], reads: &[Image], images: &[Image]) -> Option<(NodeNo, u32)>
    ensures { result ≡ first_worn (only_read dirty.now reads.now) images.now }
{
    for image in images {
        if is_worn(dirty, reads, image) {
            return Some((image.node, image.start));
        }
    }
    None
}

/// The lesser of the node and of the other, if there is one.
fn lesser(node: u8, other: Option<u8>) -> u8
    ensures { result ≡ lesser node other }
{
    match other {
        Some(other) if other < node => other,
        _ => node,
    }
}

/// The least node of the slots.
fn least_of_slots(slots: &[Addr]) -> Option<u8>
    ensures { result ≡ least_of (nodes_of [] slots.now) }
{
    let mut least = None;
    let mut left = slots;
    while let [before @ .., slot] = left {
        least = Some(lesser(slot.node.0, least));
        left = before;
    }
    least
}

/// The least node of the images and of the slots.
fn least_of(images: &[Image], slots: &[Addr]) -> Option<u8>
    ensures { result ≡ least_of (nodes_of images.now slots.now) }
{
    let mut least = least_of_slots(slots);
    let mut left = images;
    while let [before @ .., image] = left {
        least = Some(lesser(image.node.0, least));
        left = before;
    }
    least
}

/// The first 8 of these bytes, or all of them where there are fewer.
fn front_of(bytes: &[u8]) -> &[u8]
    ensures { result.now ≡ take number_size bytes.now }
{
    if bytes.len() < NUMBER_SIZE {
        bytes
    } else {
        &bytes[..NUMBER_SIZE]
    }
}

/// Adds the compare of each image, where there is room for them: of the number of a page or an
/// entry, and of a whole count.
fn push_compares(
    alloc: Global,
    items: &mut SmallVec<Item, ITEMS_IN_PLACE>,
    images: Vec<Image>,
) -> Result<(), NoMemory>
    requires { HasRoomFor items.old (length images.items) }
    ensures items { OnOk result (items.new.items ≡ items.old.items ++ map compare_of images.items) }
    ensures room { items.new.capacity ≡ items.old.capacity }
{
    for image in images {
        let Image { node, start, bytes } = image;
        let bytes = SharedBytes::copy_of(alloc, front_of(bytes.as_slice()))?;
        items.push_reserved(Item::Compare { node, start, bytes });
    }
    Ok(())
}

/// Adds the write of each image, where there is room for them.
fn push_writes(items: &mut SmallVec<Item, ITEMS_IN_PLACE>, images: Vec<Image>)
    requires { HasRoomFor items.old (length images.items) }
    ensures items { items.new.items ≡ items.old.items ++ map write_of images.items }
    ensures room { items.new.capacity ≡ items.old.capacity }
{
    for image in images {
        let Image { node, start, bytes } = image;
        items.push_reserved(Item::Write { node, start, bytes });
    }
}

/// The items that compare these images and write those.
fn items_of(alloc: Global, reads: Vec<Image>, writes: Vec<Image>) -> Result<Items, NoMemory>
    ensures { IfOk result (λ items. items
        ≡ map compare_of reads.items ++ map write_of writes.items) }
{
    let mut items = SmallVec::with_capacity(alloc, reads.len() + writes.len())?;
    push_compares(alloc, &mut items, reads)?;
    push_writes(&mut items, writes);
    Items::new(alloc, items)
}

/// The answer where the items are sound and there is none yet.
fn no_memory(error: MiniError) -> PlanError
    requires { error ≡ mini.NoMemory }
    ensures { result ≡ plan.NoMemory }
{
    let _only = error;
    PlanError::NoMemory
}

impl Txn {
    /// A transaction over so many nodes that has read nothing and writes nothing. NoMemory: there
    /// was no memory for it.
    #[inline(always)]
    pub fn new(alloc: Global, nodes: u8) -> Result<Self, NoMemory>
        ensures { IfOk result (λ txn. txn
            ≡ record { nodes = nodes; dirty = []; reads = []; writes = [] }) }
    {
        Ok(Txn {
            nodes,
            dirty: Vec::new(alloc),
            reads: Vec::with_capacity(alloc, FIRST_ROOM)?,
            writes: Vec::with_capacity(alloc, FIRST_ROOM)?,
        })
    }

    /// Keeps a page that was read and that the plan doesn't compare, in place of older bytes of it.
    /// NoMemory: there was no memory for it, and the transaction is as before.
    pub fn dirty_read(&mut self, alloc: Global, addr: Addr, bytes: &[u8]) -> Result<(), NoMemory>
        ensures kept { OnOk result (self.new
            ≡ record {
              nodes = self.old.nodes;
              dirty = joined self.old.dirty (image addr.node (slot_start addr.slot) bytes.now);
              reads = self.old.reads;
              writes = self.old.writes;
            }) }
        ensures unchanged { OnErr result (self.new ≡ self.old) }
    {
        let start = SLOTS_START + SLOT_SIZE * u32::from(addr.slot);
        let bytes = SharedBytes::copy_of(alloc, bytes)?;
        keep(&mut self.dirty, addr.node, start, bytes)
    }

    /// Bytes that were read join the read set, which the plan compares. A place that is read again
    /// keeps its turn, with the later bytes. NoMemory: there was no memory for it, and the
    /// transaction is as before.
    pub fn read(&mut self, node: NodeNo, start: u32, bytes: SharedBytes) -> Result<(), NoMemory>
        ensures kept { OnOk result (self.new
            ≡ record {
              nodes = self.old.nodes;
              dirty = self.old.dirty;
              reads = joined self.old.reads (image node start bytes);
              writes =
                  self.old.writes;
            }) }
        ensures unchanged { OnErr result (self.new ≡ self.old) }
    {
        keep(&mut self.reads, node, start, bytes)
    }

    /// Bytes that the plan writes. A place that is written again keeps its turn, with the later
    /// bytes. NoMemory: there was no memory for it, and the transaction is as before.
    pub fn write(&mut self, node: NodeNo, start: u32, bytes: SharedBytes) -> Result<(), NoMemory>
        ensures kept { OnOk result (self.new
            ≡ record {
              nodes = self.old.nodes;
              dirty = self.old.dirty;
              reads = self.old.reads;
              writes = joined self.old.writes (image node start bytes);
            }) }
        ensures unchanged { OnErr result (self.new ≡ self.old) }
    {
        keep(&mut self.writes, node, start, bytes)
    }

    /// The least node of what it has read and of these slots; node 0 where there is none of either.
    pub fn least_node(&self, slots: &[Addr]) -> NodeNo
        ensures { result ≡ least_node self.now.reads slots.now }
    {
        NodeNo(least_of(&self.reads, slots).unwrap_or(0))
    }

    /// Whether there may be a plan: the read set and the writes give 1 to 1,024 items, each of 1 to
    /// 4,096 bytes inside the space of one of the nodes.
    pub fn can_plan(&self) -> bool
        ensures { result ≡ can_plan self.now }
    {
        let items = self.reads.len() + self.writes.len();
        items >= 1
            && items <= MAX_ITEMS
            && are_inside(self.nodes, &self.reads)
            && are_inside(self.nodes, &self.writes)
    }

    /// The minitransaction that compares the read set and makes the writes, in this order: the
    /// compares of pages as they joined the read set, of catalog entries by number, of counts by
    /// node, and then the writes of pages as they came in, of entries, of counts (Sinfonia, SOSP
    /// 2007; Minuet, PVLDB 2012). Worn: the place is the first in this order at which a page or an
    /// entry is to be written and was read with the last sequence number. NoMemory: there was no
    /// memory for it.
    pub fn plan(self, alloc: Global) -> Result<Minitransaction, PlanError>
        requires { IsTrue (can_plan self) }
        ensures planned { IfOk result (λ mini. mini ≡ plan_of self) }
        ensures unworn { OnOk result (first_worn self (in_item_order self.writes) ≡ None) }
        ensures refused { IfErr result (RefusesPlan self) }
        ensures reads_apart { ImagesAreApart self.reads }
        ensures writes_apart { ImagesAreApart self.writes }
    {
        let Txn {
            nodes,
            dirty,
            mut reads,
            mut writes,
        } = self;
        put_in_order(&mut writes)?;
        if let Some((node, start)) = first_worn(&dirty, &reads, &writes) {
            return Err(PlanError::Worn { node, start });
        }
        put_in_order(&mut reads)?;
        let items = items_of(alloc, reads, writes)?;
        match Minitransaction::new(alloc, nodes, items) {
            Ok(mini) => Ok(mini),
            Err(error) => Err(no_memory(error)),
        }
    }
}

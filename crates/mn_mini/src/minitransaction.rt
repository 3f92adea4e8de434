ghost use Rattle.std.specs.Prelude.{◌≡◌, ◌++◌, ◌↔◌, IfOk, IfErr, OnOk, IsTrue, IfSome, IfNone};
ghost use Rattle.std.specs.Prelude.{◌<◌, Some, filter, length, slice_get};
ghost use Rattle.std.specs.List.{AllByRecursion, flat_map};
ghost use Rattle.mn_mini.specs.Mini.{IsSound, IsSoundItem, IsInSpace, is_named, is_read, part_of};
ghost use Rattle.mn_mini.specs.Mini.{participants_of, compare_at, read_at, write_at, item_node};
ghost use Rattle.mn_base.specs.Ids.{node_numbers, node_same};
ghost use Rattle.smallvec.specs.SmallVec.{HasRoomFor};
ghost use Rattle.mn_mini.specs.Refusal.{RefusesItems, IsFirstOutside};

use crate::part::PART_IN_PLACE;
use crate::{Item, Items, MAX_ITEM, MiniError, Part, PartItem, SPACE};
use mn_base::{NoMemory, NodeNo, Nodes, TryCopy};
use smallvec::SmallVec;
use std::alloc::Global;
use std::marker::Model;

/// The most items of a minitransaction.
pub const MAX_ITEMS: usize = 1_024;

/// The most memory nodes.
pub const MAX_NODES: u8 = 8;

/// How many numbers of nodes there are.
const NUMBERS: usize = 256;

/// A minitransaction: 1 to 1,024 items, each at a range inside the space of a node, chosen before
/// it starts, and the number of nodes that it was made for. Contracts see the items and that
/// number.
#[derive(Debug, Drop)]
pub struct Minitransaction {
    nodes: u8,
    one_read: bool,
    items: Items,
    participants: Nodes,
}

impl Model for Minitransaction {
    ghost use Rattle.std.specs.Prelude.{◌≡◌};
    ghost use Rattle.mn_mini.specs.Mini.{Mini, IsSound, is_read, participants_of};

    ghost Value = { Mini };

    ghost view = { λ m. record { nodes = m.nodes; items = m.items } };

    ghost invariant = { λ m. IsSound (record { nodes = m.nodes; items = m.items })
        × (m.participants ≡ participants_of (record { nodes = m.nodes; items = m.items }))
        × (m.one_read ≡ is_read m.items) };
}

/// Whether a range of bytes may be an item's.
fn is_in_space(start: u32, length: usize) -> bool
    ensures { IsTrue result ↔ IsInSpace start length }
{
    length >= 1 && length <= MAX_ITEM as usize && start as usize <= SPACE as usize - length
}

/// Whether an item may stand in a minitransaction over so many nodes.
fn is_sound(nodes: u8, item: &Item) -> bool
    ensures { IsTrue result ↔ IsSoundItem nodes item.now }
{
    let node = item.node().0;
    if node >= nodes || node >= MAX_NODES {
        return false;
    }
    match item {
        Item::Compare { start, bytes, .. } => is_in_space(*start, bytes.as_slice().len()),
        Item::Read { start, length, .. } => is_in_space(*start, *length as usize),
        Item::Write { start, bytes, .. } => is_in_space(*start, bytes.as_slice().len()),
    }
}

/// The first item that may not stand in a minitransaction over so many nodes.
fn first_outside(nodes: u8, items: &[Item]) -> Option<usize>
    ensures found { IfSome result (IsFirstOutside nodes items.now) }
    ensures none { IfNone result (AllByRecursion (IsSoundItem nodes) items.now) }
{
    for (at, item) in items.iter().enumerate() {
        if !is_sound(nodes, item) {
            return Some(at);
        }
    }
    None
}

/// By the number of a node, whether some item is at it.
fn named_by(items: &[Item]) -> [bool; NUMBERS]
    ensures { (node : NodeNo) → node.0 < 256
        → slice_get result node.0 ≡ Some (is_named items.now node) }
{
    let mut named = [false; NUMBERS];
    for item in items {
        named[usize::from(item.node().0)] = true;
    }
    named
}

/// The nodes, out of so many, that some item is at, in order.
#[tactic(auto, using(std::proofs::lemmas::List::FromFn::filter_of_map_range_with_len_more))]
fn participants_among(nodes: u8, items: &[Item]) -> Result<Nodes, NoMemory>
    ensures { IfOk result (λ participants. participants
        ≡ filter (is_named items.now) (node_numbers nodes)) }
{
    let named = named_by(items);
    let mut participants = Nodes::new();
    for number in 0..nodes {
        if named[usize::from(number)] {
            participants.push(NodeNo(number))?;
        }
    }
    Ok(participants)
}

/// Whether they are one item, which reads.
fn is_one_read(items: &[Item]) -> bool
    ensures { result ≡ is_read items.now }
{
    matches!(items, [Item::Read { .. }])
}

/// How many items are at the node.
fn count_at(items: &[Item], at: NodeNo) -> usize
    ensures { result ≡ length (filter (λ item. node_same (item_node item) at) items.now) }
{
    items.iter().filter(|item| item.node() == at).count()
}

/// Adds the node's compares, in the order given, where there is room for them.
fn push_compares(
    alloc: Global,
    part: &mut SmallVec<PartItem, PART_IN_PLACE>,
    items: &[Item],
    at: NodeNo,
) -> Result<(), NoMemory>
    requires { HasRoomFor part.old (length (flat_map (compare_at at) items.now)) }
    ensures items { OnOk result
        (part.new.items ≡ part.old.items ++ flat_map (compare_at at) items.now) }
    ensures room { part.new.capacity ≡ part.old.capacity }
{
    for item in items {
        if let Item::Compare { node, start, bytes } = item
            && *node == at
        {
            part.push_reserved(PartItem::Compare {
                start: *start,
                bytes: bytes.try_copy(alloc)?,
            });
        }
    }
    Ok(())
}

/// Adds the node's reads, in the order given, where there is room for them.
fn push_reads(part: &mut SmallVec<PartItem, PART_IN_PLACE>, items: &[Item], at: NodeNo)
    requires { HasRoomFor part.old (length (flat_map (read_at at) items.now)) }
    ensures items { part.new.items ≡ part.old.items ++ flat_map (read_at at) items.now }
    ensures room { part.new.capacity ≡ part.old.capacity }
{
    for item in items {
        if let Item::Read {
            node,
            start,
            length,
        } = item
            && *node == at
        {
            part.push_reserved(PartItem::Read {
                start: *start,
                length: *length,
            });
        }
    }
}

/// Adds the node's writes, in the order given, where there is room for them.
fn push_writes(
    alloc: Global,
    part: &mut SmallVec<PartItem, PART_IN_PLACE>,
    items: &[Item],
    at: NodeNo,
) -> Result<(), NoMemory>
    requires { HasRoomFor part.old (length (flat_map (write_at at) items.now)) }
    ensures items { OnOk result
        (part.new.items ≡ part.old.items ++ flat_map (write_at at) items.now) }
    ensures room { part.new.capacity ≡ part.old.capacity }
{
    for item in items {
        if let Item::Write { node, start, bytes } = item
            && *node == at
        {
            part.push_reserved(PartItem::Write {
                start: *start,
                bytes: bytes.try_copy(alloc)?,
            });
        }
    }
    Ok(())
}

impl Minitransaction {
    /// The minitransaction of these items over so many nodes. NoItems, then TooMany, then
    /// OutOfSpace are answered exactly where `MiniError` says, the first that fits. NoMemory: there
    /// was no memory for it.
    pub fn new(alloc: Global, nodes: u8, items: Items) -> Result<Self, MiniError>
        ensures ok { IfOk result (λ mini. mini ≡ record { nodes = nodes; items = items }) }
        ensures sound { OnOk result (IsSound (record { nodes = nodes; items = items })) }
        ensures refused { IfErr result (RefusesItems nodes items) }
    {
        let n = items.as_slice().len();
        if n == 0 {
            return Err(MiniError::NoItems);
        }
        if n > MAX_ITEMS {
            return Err(MiniError::TooMany { n });
        }
        if let Some(item) = first_outside(nodes, items.as_slice()) {
            return Err(MiniError::OutOfSpace { item });
        }
        let participants = participants_among(nodes, items.as_slice())?;
        Ok(Minitransaction {
            nodes,
            one_read: is_one_read(items.as_slice()),
            items,
            participants,
        })
    }

    /// How many nodes it was made for.
    pub fn nodes(&self) -> u8
        ensures { result ≡ self.now.nodes }
    {
        self.nodes
    }

    /// Whether it is one read. It is told without a look at the items.
    pub fn is_read(&self) -> bool
        ensures { result ≡ is_read self.now.items }
    {
        self.one_read
    }

    /// Its items, in the order given.
    pub fn items(&self) -> &[Item]
        ensures items { result.now ≡ self.now.items }
        ensures sound { IsSound self.now }
    {
        self.items.as_slice()
    }

    /// The nodes that some item is at, in order.
    pub fn participants(&self) -> &Nodes
        ensures { result.now ≡ participants_of self.now }
    {
        &self.participants
    }

    /// The items at a node, without the node: compares, then reads, then writes. NoMemory: there
    /// was no memory for it.
    pub fn part(&self, alloc: Global, node: NodeNo) -> Result<Part, NoMemory>
        ensures { IfOk result (λ part. part ≡ part_of self.now node) }
    {
        let items = self.items.as_slice();
        if let [
            Item::Read {
                node: at,
                start,
                length,
            },
        ] = items
            && *at == node
        {
            return Ok(Part::one(PartItem::Read {
                start: *start,
                length: *length,
            }));
        }
        let mut part = SmallVec::with_capacity(alloc, count_at(items, node))?;
        push_compares(alloc, &mut part, items, node)?;
        push_reads(&mut part, items, node);
        push_writes(alloc, &mut part, items, node)?;
        Part::new(alloc, part)
    }
}

impl TryCopy for Minitransaction {
    fn try_copy(&self, alloc: Global) -> Result<Self, NoMemory> {
        Ok(Minitransaction {
            nodes: self.nodes,
            one_read: self.one_read,
            items: self.items.try_copy(alloc)?,
            participants: self.participants.try_copy(alloc)?,
        })
    }
}

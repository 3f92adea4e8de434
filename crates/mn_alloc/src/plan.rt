ghost use Rattle.std.specs.Prelude.{◌≡◌, ℕ, ◌+◌, ◌<◌, ◌≤◌, ◌∷◌, ◌++◌, [], length, slice_index, All};
ghost use Rattle.std.specs.Prelude.{EachIndex, IfOk, IfErr, OnOk};
ghost use Rattle.mn_alloc.specs.declared.plan.TheConstants.{SLOTS};
ghost use Rattle.mn_alloc.specs.Plan.{next_node, next_slot, one_given, new_slots, free_slots};
ghost use Rattle.mn_alloc.specs.Plan.{RefusesPlan};

use crate::AllocError;
use mn_base::{Addr, Counts, NodeNo, Slots};
use std::alloc::Global;

/// The slots of a node, free or given out.
pub const SLOTS: u16 = 4096;

// The slots of all nodes together that are not given out.
fn free_of(counts: &[u16]) -> u32
    requires nodes { length counts.now ≤ 8 }
    requires given { All (λ count. count ≤ SLOTS) counts.now }
    ensures { result ≡ free_slots counts.now }
{
    counts.iter().map(|count| u32::from(SLOTS - *count)).sum()
}

// The node with the fewest slots given out, among equals the one with the least number.
fn next_of(counts: &[u16]) -> usize
    requires { (1 ≤ length counts.now) × (length counts.now ≤ 8) }
    ensures node { result ≡ next_node counts.now }
    ensures there { result < length counts.now }
    ensures fewest { EachIndex counts.now
        (λ k. slice_index counts.now result ≤ slice_index counts.now k) }
{
    let mut node = 0;
    for (other, count) in counts.iter().enumerate() {
        if *count < counts[node] {
            node = other;
        }
    }
    node
}

// Gives out the next slot.
fn give(counts: &mut Vec<u16>) -> Addr
    requires nodes { (1 ≤ length counts.old.items) × (length counts.old.items ≤ 8) }
    requires given { All (λ count. count ≤ SLOTS) counts.old.items }
    requires free { 1 ≤ free_slots counts.old.items }
    ensures slot { result ≡ next_slot counts.old.items }
    ensures range { (result.node.0 < length counts.old.items) × (result.slot < SLOTS) }
    ensures counts { counts.new.items ≡ one_given counts.old.items }
    ensures nodes { length counts.new.items ≡ length counts.old.items }
    ensures given { All (λ count. count ≤ SLOTS) counts.new.items }
    ensures free { free_slots counts.new.items + 1 ≡ free_slots counts.old.items }
{
    let node = next_of(counts);
    let slot = counts[node];
    counts[node] = slot + 1;
    Addr {
        node: NodeNo(node as u8),
        slot,
    }
}

/// As many new slots as are needed, where `counts` says how many each of 1 to 8 nodes has given
/// out. Each goes to the node with the fewest given out, counting those of this plan, and among
/// equals to the least number. Full: the nodes together have fewer slots left. NoMemory: there was
/// no memory for the list.
pub fn plan_slots(alloc: Global, counts: &Counts, need: u32) -> Result<Slots, AllocError>
    requires nodes { (1 ≤ length counts.now) × (length counts.now ≤ 8) }
    requires given { All (λ count. count ≤ SLOTS) counts.now }
    ensures slots { IfOk result (λ slots. slots ≡ new_slots need counts.now) }
    ensures number { IfOk result (λ slots. length slots ≡ need) }
    ensures range { IfOk result (λ slots.
        All (λ slot. (slot.node.0 < length counts.now) × (slot.slot < SLOTS)) slots) }
    ensures free { OnOk result (need ≤ free_slots counts.now) }
    ensures refused { IfErr result (RefusesPlan counts.now need) }
{
    let free = free_of(counts.as_slice());
    if need > free {
        return Err(AllocError::Full { need, free });
    }
    let mut given = counts.as_slice().to_vec(alloc)?;
    let mut slots = Vec::with_capacity(alloc, need as usize)?;
    for _made in 0..need {
        slots.push(give(&mut given))?;
    }
    Ok(Slots::from_vec(slots))
}

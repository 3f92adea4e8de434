ghost use Rattle.std.specs.Prelude.{◌≡◌, ◌≤◌, ◌∷◌, [], IfErr, IfOk, List, OnOk, length, map};
ghost use Rattle.std.specs.List.{AllByRecursion, range_with_len};
ghost use Rattle.mn_base.specs.Store.{Head};
ghost use Rattle.mn_page.specs.Grammar.{count_in};
ghost use Rattle.mn_page.specs.Space.{max_slots};
ghost use Rattle.mn_tree.specs.Limits.{MovesAreFew, MovesTouchLeaves, PlacedArePut};
ghost use Rattle.mn_tree.specs.MoveLaws.{MovesRead};
ghost use Rattle.mn_tree.specs.Tries.{PlacedHaveRoom};
ghost use Rattle.mn_plans.specs.Growth.{taken_on};
ghost use Rattle.mn_txn.specs.declared.error.PlanError.TheVariants as plan;
ghost use Rattle.mn_txn.specs.Attempt.{Attempt, page_image};
ghost use Rattle.mn_txn.specs.AttemptPlan.{DonePlanned, IsDonePlan, IsUnmetPlan, MayBeDone};
ghost use Rattle.mn_txn.specs.AttemptPlan.{MayBeUnmet, MayWrite, RefusesDone, UnmetPlanned};
ghost use Rattle.mn_txn.specs.AttemptPlan.{page_read, pages_read, placing_state, tried_state};
ghost use Rattle.mn_txn.specs.AttemptPlan.{with_counts, with_entry, with_given, with_reads};
ghost use Rattle.mn_txn.specs.ChildPlan.{with_writes};
ghost use Rattle.mn_txn.specs.Seen.{seen_at};

use crate::image::COUNT_START;
use crate::seen::{SeenPage, page_at};
use crate::spelled::{SpelledEntry, count_bytes, entry_start, placed_bytes, slot_start};
use crate::{
    PlanError, Txn, attempts_stand_in_order, done_is_planned, done_may_be_planned,
    unmet_is_planned, unmet_may_be_planned, worn_is_changed,
};
use mn_base::{Addr, NoMemory, NodeNo, Steps, TryCopy, VersionNo};
use mn_mini::Minitransaction;
use mn_page::{Pages, PlacedPage};
use std::alloc::Global;

/// What a try of a transaction has read, on so many nodes: the version with its entry in the
/// catalog, for these steps, the pages that came in, and where those of the read set stand.
#[derive(Drop)]
pub struct Tried<'a> {
    pub nodes: u8,
    pub version: VersionNo,
    pub entry: SpelledEntry<'a>,
    pub steps: &'a Steps,
    pub pages: &'a [SeenPage],
    pub read_set: &'a [Addr],
}

/// What it is to write where all its Checks are met: its changed and new pages, and by the counts
/// of the nodes, as they were read, the slots of the new ones.
#[derive(Clone, Copy)]
pub struct Placing<'a> {
    pub pages: &'a Pages,
    pub counts: &'a [u16],
    pub slots: &'a [Addr],
}

/// The page at the address joins the read set, if it was seen; of leaves alone, if so wanted.
fn read_page(
    alloc: Global,
    txn: &mut Txn,
    pages: &[SeenPage],
    addr: Addr,
    leaves: bool,
) -> Result<(), NoMemory>
    ensures { OnOk result (txn.new
        ≡ with_reads txn.old (page_read leaves addr (seen_at pages.now addr))) }
{
    match page_at(pages, addr) {
        Some(page) if !leaves || page.leaf => {
            let bytes = page.bytes.try_copy(alloc)?;
            txn.read(addr.node, slot_start(addr.slot), bytes)
        }
        _ => Ok(()),
    }
}

/// The pages at these addresses join the read set; of leaves alone, if so wanted.
fn read_pages(
    alloc: Global,
    txn: &mut Txn,
    pages: &[SeenPage],
    addrs: &[Addr],
    leaves: bool,
) -> Result<(), NoMemory>
    ensures { OnOk result (txn.new ≡ with_reads txn.old (pages_read leaves pages.now addrs.now)) }
{
    for addr in addrs {
        read_page(alloc, txn, pages, *addr, leaves)?;
    }
    Ok(())
}

/// The version's entry joins the read set, if some step is a Put or a Del. Each node has it: it is
/// compared on the least node of what was read and of the slots, so that it asks no other node.
fn read_entry(
    alloc: Global,
    txn: &mut Txn,
    steps: &Steps,
    version: VersionNo,
    entry: &SpelledEntry<'_>,
    slots: &[Addr],
) -> Result<(), NoMemory>
    ensures { OnOk result
        (txn.new ≡ with_entry txn.old steps.now version entry.now slots.now) }
{
    if !steps.has_change() {
        return Ok(());
    }
    let node = txn.least_node(slots);
    let bytes = entry.share(alloc)?;
    txn.read(node, entry_start(version), bytes)
}

/// A transaction that has read all that the try did; of the pages of the read set the leaves alone,
/// if so wanted. Its new pages are to have these slots.
#[inline(always)]
fn tried_txn(alloc: Global, tried: Tried<'_>, leaves: bool, slots: &[Addr]) -> Result<Txn, NoMemory>
    ensures { IfOk result (λ txn. txn ≡ tried_state leaves tried.entry slots.now) }
{
    let mut txn = Txn::new(alloc, tried.nodes)?;
    read_pages(alloc, &mut txn, tried.pages, tried.read_set, leaves)?;
    read_entry(
        alloc,
        &mut txn,
        tried.steps,
        tried.version,
        &tried.entry,
        slots,
    )?;
    Ok(txn)
}

/// Writes a page, which may have the number that it came with, or the next one.
fn write_page(alloc: Global, txn: &mut Txn, addr: Addr, page: &PlacedPage) -> Result<(), NoMemory>
    requires few { count_in page.now.body ≤ 8 }
    requires low { length page.now.low ≤ 32 }
    ensures { OnOk result (txn.new ≡ with_writes txn.old (page_image addr page.now ∷ [])) }
{
    let bytes = placed_bytes(alloc, page)?;
    txn.write(addr.node, slot_start(addr.slot), bytes)
}

/// Writes pages, each at its place.
fn write_pages(alloc: Global, txn: &mut Txn, pages: &[(Addr, PlacedPage)]) -> Result<(), NoMemory>
    requires { AllByRecursion (λ h. (count_in h.1.body ≤ 8) × (length h.1.low ≤ 32)) pages.now }
    ensures { OnOk result (txn.new
        ≡ with_writes txn.old (map (λ h. page_image h.0 h.1) pages.now)) }
{
    for (addr, page) in pages {
        write_page(alloc, txn, *addr, page)?;
    }
    Ok(())
}

/// How many of the slots are on the node.
fn given_on(slots: &[Addr], node: NodeNo) -> u16
    requires { length slots.now ≤ 518 }
    ensures taken { result ≡ taken_on slots.now node.0 }
    ensures few { result ≤ 518 }
{
    let mut given = 0;
    for slot in slots {
        if slot.node == node {
            given += 1;
        }
    }
    given
}

/// The count of a node that gives slots joins the read set, and is written with these given out.
fn change_count(
    alloc: Global,
    txn: &mut Txn,
    node: NodeNo,
    count: u16,
    slots: &[Addr],
) -> Result<(), NoMemory>
    requires few { length slots.now ≤ 518 }
    requires small { count ≤ max_slots }
    ensures { OnOk result (txn.new ≡ with_given txn.old node.0 count (taken_on slots.now node.0)) }
{
    let given = given_on(slots, node);
    if given == 0 {
        return Ok(());
    }
    let old = count_bytes(alloc, count)?;
    txn.read(node, COUNT_START, old)?;
    let new = count_bytes(alloc, count + given)?;
    txn.write(node, COUNT_START, new)
}

/// So do those of all nodes.
fn change_counts(
    alloc: Global,
    txn: &mut Txn,
    counts: &[u16],
    slots: &[Addr],
) -> Result<(), NoMemory>
    requires nodes { length counts.now ≤ 8 }
    requires small { AllByRecursion (λ count. count ≤ max_slots) counts.now }
    requires few { length slots.now ≤ 518 }
    ensures { OnOk result (txn.new
        ≡ with_counts txn.old counts.now slots.now (range_with_len 0 (length counts.now))) }
{
    for number in 0..counts.len() {
        change_count(alloc, txn, NodeNo(number as u8), counts[number], slots)?;
    }
    Ok(())
}

/// Writes all that the try is to write.
fn write_all(alloc: Global, txn: &mut Txn, placing: Placing<'_>) -> Result<(), NoMemory>
    requires { MayWrite placing }
    ensures { OnOk result (txn.new ≡ placing_state txn.old placing.entry) }
{
    write_pages(alloc, txn, placing.pages.as_slice())?;
    change_counts(alloc, txn, placing.counts, placing.slots)
}

/// What is known of the moves of each try, and of what it writes.
fn tries_are_known()
    ensures read { MovesRead }
    ensures few { MovesAreFew }
    ensures touch { MovesTouchLeaves }
    ensures put { PlacedArePut }
    ensures room { PlacedHaveRoom }
{
    mn_tree::moves_read();
    mn_tree::moves_are_few();
    mn_tree::moves_touch_leaves();
    mn_tree::placed_are_put();
    mn_tree::placed_have_room();
}

/// The plan of a transaction whose Checks are met, by what its try has read and is to write. It
/// compares the pages of the read set, the count of each node that gives slots, and, if some step
/// is a Put or a Del, the version's entry on the least node of these; it writes the changed and new
/// pages and these counts (Minuet, PVLDB 2012).
///
/// Worn: a changed page was read with the last sequence number, 2^64 - 1. NoMemory: there was no
/// memory for it.
pub fn done_plan(
    alloc: Global,
    tried: Tried<'_>,
    placing: Placing<'_>,
) -> Result<Minitransaction, PlanError>
    requires may { (kept : List Head) × (a : Attempt) × MayBeDone kept tried placing a }
    ensures planned { IfOk result (DonePlanned tried.entry placing.entry) }
    ensures made { IfOk result (IsDonePlan tried.entry placing.entry) }
    ensures refused { IfErr result (RefusesDone tried.entry placing.entry) }
{
    tries_are_known();
    attempts_stand_in_order();
    done_may_be_planned();
    done_is_planned();
    worn_is_changed();
    let mut txn = tried_txn(alloc, tried, false, placing.slots)?;
    write_all(alloc, &mut txn, placing)?;
    txn.plan(alloc)
}

/// The answer where nothing is written.
fn no_memory(error: PlanError) -> NoMemory
    requires { error ≡ plan.NoMemory }
{
    let _only = error;
    NoMemory
}

/// The plan of a transaction with a Check that is unmet, by what its try has read: it compares the
/// leaves that it touched, and the version's entry, on the least node of them, if some step is a
/// Put or a Del. NoMemory: there was no memory for it.
pub fn unmet_plan(alloc: Global, tried: Tried<'_>) -> Result<Minitransaction, NoMemory>
    requires may { (kept : List Head) × (a : Attempt) × MayBeUnmet kept tried a }
    ensures planned { IfOk result (UnmetPlanned tried.entry) }
    ensures made { IfOk result (IsUnmetPlan tried.entry) }
{
    tries_are_known();
    attempts_stand_in_order();
    unmet_may_be_planned();
    unmet_is_planned();
    let txn = tried_txn(alloc, tried, true, &[])?;
    match txn.plan(alloc) {
        Ok(mini) => Ok(mini),
        Err(error) => Err(no_memory(error)),
    }
}

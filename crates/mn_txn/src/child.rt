ghost use Rattle.std.specs.Prelude.{◌≡◌, ◌<◌, None, false, length, IfOk, IfErr, OnOk};
ghost use Rattle.std.specs.List.{range_with_len};
ghost use Rattle.mn_base.specs.Store.{max_versions, refusal};
ghost use Rattle.mn_base.specs.Tree.{has_version};
ghost use Rattle.mn_base.specs.declared.op.Op.TheVariants as Does;
ghost use Rattle.mn_page.specs.Forest.{heads_in};
ghost use Rattle.mn_page.specs.Grammar.{IsPage};
ghost use Rattle.mn_page.specs.Space.{max_slots};
ghost use Rattle.mn_txn.specs.ChildPlan.{IsBranchPlan, IsSnapshotPlan, MayHaveChild};
ghost use Rattle.mn_txn.specs.ChildPlan.{BranchPlanned, SnapshotPlanned};
ghost use Rattle.mn_txn.specs.ChildPlan.{RefusesBranch, RefusesSnapshot};
ghost use Rattle.mn_txn.specs.ChildPlan.{IsChildPlan, IsChildState, MayPlanChild, RefusesChild};
ghost use Rattle.mn_txn.specs.ChildPlan.{read_state, with_count, with_entries, with_entries_on};
ghost use Rattle.mn_txn.specs.ChildPlan.{with_pages};

use crate::image::COUNT_START;
use crate::spelled::{
    CATALOG_NODE, count_bytes, entry_bytes, entry_start, no_entry_bytes, page_bytes, slot_start,
};
use crate::{PlanError, Txn, branch_is_planned, children_stand_in_order, snapshot_is_planned};
use mn_base::{Addr, Name, NoMemory, NodeNo, VersionNo};
use mn_catalog::Catalog;
use mn_cow::copy_for;
use mn_mini::Minitransaction;
use mn_page::{CatEntry, Page, copies_are_pages};
use std::alloc::Global;

/// A transaction that has read what a child of the version needs: the version's root page and its
/// entry, the first unused entry, and the count of the slot's node.
fn read_for(
    alloc: Global,
    nodes: u8,
    version: VersionNo,
    entry: &CatEntry,
    root: &Page,
    number: VersionNo,
    slot: Addr,
) -> Result<Txn, NoMemory>
    requires { IsPage root.now }
    ensures { IfOk result (λ txn. txn ≡ read_state nodes version entry.now root.now number slot) }
{
    let mut txn = Txn::new(alloc, nodes)?;
    let page = page_bytes(alloc, root)?;
    let start = slot_start(entry.root.slot);
    txn.read(entry.root.node, start, page)?;
    let bytes = entry_bytes(alloc, entry)?;
    txn.read(CATALOG_NODE, entry_start(version), bytes)?;
    let unused = no_entry_bytes(alloc)?;
    txn.read(CATALOG_NODE, entry_start(number), unused)?;
    let count = count_bytes(alloc, slot.slot)?;
    txn.read(slot.node, COUNT_START, count)?;
    Ok(txn)
}

/// Writes the root page, marked for the version of this number, and its copy.
fn write_pages(
    alloc: Global,
    txn: &mut Txn,
    addr: Addr,
    root: &Page,
    number: VersionNo,
    slot: Addr,
) -> Result<(), NoMemory>
    requires page { IsPage root.now }
    requires above { root.now.made.0 < number.0 }
    requires few { number.0 < max_versions }
    requires first { has_version root.now.copied number.0 ≡ false }
    ensures { OnOk result (txn.new ≡ with_pages txn.old addr root.now number slot) }
{
    let (marked, copy) = copy_for(alloc, root, number)?;
    let old = page_bytes(alloc, &marked)?;
    txn.write(addr.node, slot_start(addr.slot), old)?;
    let new = page_bytes(alloc, &copy)?;
    txn.write(slot.node, slot_start(slot.slot), new)
}

/// Writes entries on a node.
fn write_entries_on(
    alloc: Global,
    txn: &mut Txn,
    node: NodeNo,
    entries: &[(VersionNo, CatEntry)],
) -> Result<(), NoMemory>
    ensures { OnOk result (txn.new ≡ with_entries_on txn.old entries.now node.0) }
{
    for (number, entry) in entries {
        let bytes = entry_bytes(alloc, entry)?;
        txn.write(node, entry_start(*number), bytes)?;
    }
    Ok(())
}

/// Writes entries on each of so many nodes.
fn write_entries(
    alloc: Global,
    txn: &mut Txn,
    nodes: u8,
    entries: &[(VersionNo, CatEntry)],
) -> Result<(), NoMemory>
    ensures { OnOk result (txn.new ≡ with_entries txn.old entries.now (range_with_len 0 nodes)) }
{
    for number in 0..nodes {
        write_entries_on(alloc, txn, NodeNo(number), entries)?;
    }
    Ok(())
}

/// Writes the count of the slot's node, with the slot given out.
fn write_count(alloc: Global, txn: &mut Txn, slot: Addr) -> Result<(), NoMemory>
    requires { slot.slot < max_slots }
    ensures { OnOk result (txn.new ≡ with_count txn.old slot) }
{
    let count = count_bytes(alloc, slot.slot + 1)?;
    txn.write(slot.node, COUNT_START, count)
}

/// A transaction that has read all that a child of the version needs and is to write these entries,
/// the root page and its copy, and the count.
fn child_txn(
    alloc: Global,
    nodes: u8,
    used: &[CatEntry],
    version: VersionNo,
    root: &Page,
    slot: Addr,
    entries: &[(VersionNo, CatEntry)],
) -> Result<Txn, NoMemory>
    requires there { version.0 < length used.now }
    requires few { length used.now < max_versions }
    requires page { IsPage root.now }
    requires made { root.now.made.0 < length used.now }
    requires first { has_version root.now.copied (length used.now) ≡ false }
    requires low { slot.slot < max_slots }
    ensures { IfOk result (IsChildState nodes used.now version root.now slot entries.now) }
{
    let number = VersionNo(used.len() as u8);
    let entry = &used[usize::from(version.0)];
    let mut txn = read_for(alloc, nodes, version, entry, root, number, slot)?;
    write_pages(alloc, &mut txn, entry.root, root, number, slot)?;
    write_entries(alloc, &mut txn, nodes, entries)?;
    write_count(alloc, &mut txn, slot)?;
    Ok(txn)
}

/// The plan of that transaction.
fn child_plan(
    alloc: Global,
    nodes: u8,
    used: &[CatEntry],
    version: VersionNo,
    root: &Page,
    slot: Addr,
    entries: &[(VersionNo, CatEntry)],
) -> Result<Minitransaction, PlanError>
    requires there { version.0 < length used.now }
    requires few { length used.now < max_versions }
    requires page { IsPage root.now }
    requires made { root.now.made.0 < length used.now }
    requires first { has_version root.now.copied (length used.now) ≡ false }
    requires low { slot.slot < max_slots }
    requires fits { MayPlanChild nodes used.now version root.now slot entries.now }
    ensures planned { IfOk result (IsChildPlan nodes used.now version root.now slot entries.now) }
    ensures refused { IfErr result (RefusesChild nodes used.now version root.now slot entries.now) }
{
    let txn = child_txn(alloc, nodes, used, version, root, slot, entries)?;
    txn.plan(alloc)
}

/// The plan of the Snapshot of the version `name` with the child `child`, by the catalog, the root
/// page of the version as it was read, and the slot that its copy is to have, which is the next one
/// of its node. It compares the root page, the version's entry and the first unused entry, both
/// where the catalog is read, and the count of the slot's node. It writes the root page, marked for
/// the child, its copy, on every node the version's entry, now frozen, and the child's entry, and
/// the count (Minuet, PVLDB 2012).
///
/// Worn: the root page or the version's entry was read with the last sequence number, 2^64 - 1.
/// NoMemory: there was no memory for it.
pub fn snapshot_plan(
    alloc: Global,
    nodes: u8,
    catalog: &Catalog,
    name: &Name,
    child: &Name,
    root: &Page,
    slot: Addr,
) -> Result<Minitransaction, PlanError>
    requires may { MayHaveChild catalog.now nodes name.now root.now slot }
    requires admitted { refusal (heads_in catalog.now) (Does.Snapshot name.now child.now) ≡ None }
    ensures planned { IfOk result
        (SnapshotPlanned catalog.now nodes name.now child.now root.now slot) }
    ensures made { IfOk result (IsSnapshotPlan catalog.now nodes name.now child.now root.now slot) }
    ensures refused { IfErr result (RefusesSnapshot catalog.now name.now root.now) }
{
    copies_are_pages();
    children_stand_in_order();
    snapshot_is_planned();
    let _name = child.as_slice();
    let used = catalog.entries();
    match catalog.find(name) {
        Some(version) => {
            let entries = catalog.snapshot(alloc, version, child, slot)?;
            child_plan(alloc, nodes, used, version, root, slot, entries.as_slice())
        }
        None => unreachable!(),
    }
}

/// The plan of a Branch of the version `name` with the child `child`, as that of a Snapshot; it
/// doesn't write the version's entry.
///
/// Worn: the root page was read with the last sequence number, 2^64 - 1. NoMemory: there was no
/// memory for it.
pub fn branch_plan(
    alloc: Global,
    nodes: u8,
    catalog: &Catalog,
    name: &Name,
    child: &Name,
    root: &Page,
    slot: Addr,
) -> Result<Minitransaction, PlanError>
    requires may { MayHaveChild catalog.now nodes name.now root.now slot }
    requires admitted { refusal (heads_in catalog.now) (Does.Branch name.now child.now) ≡ None }
    ensures planned { IfOk result
        (BranchPlanned catalog.now nodes name.now child.now root.now slot) }
    ensures made { IfOk result (IsBranchPlan catalog.now nodes name.now child.now root.now slot) }
    ensures refused { IfErr result (RefusesBranch catalog.now name.now root.now) }
{
    copies_are_pages();
    children_stand_in_order();
    branch_is_planned();
    let _name = child.as_slice();
    let used = catalog.entries();
    match catalog.find(name) {
        Some(version) => {
            let entries = catalog.branch(alloc, version, child, slot)?;
            child_plan(alloc, nodes, used, version, root, slot, entries.as_slice())
        }
        None => unreachable!(),
    }
}

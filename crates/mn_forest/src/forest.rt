ghost use Rattle.std.specs.Prelude.{◌≡◌, ◌<◌, ◌≤◌, ◌^◌, [], ◌∷◌, ◌++◌, true, false, List, Option};
ghost use Rattle.std.specs.Prelude.{length, map, IfOk, IfErr, OnOk, MatchBool};
ghost use Rattle.std.specs.List.{AllByRecursion};
ghost use Rattle.mn_mini.specs.Mini.{space_size};
ghost use Rattle.mn_forest.specs.Refusal.{RefusesMemory, IsLackOfMemory};
ghost use Rattle.mn_base.specs.Store.{StoreVersion};
ghost use Rattle.mn_page.specs.Holds.{Holds};
ghost use Rattle.mn_page.specs.declared.entry.CatEntry.{CatEntry};
ghost use Rattle.mn_forest.specs.declared.error.ForestError.TheVariants as forest;
ghost use Rattle.mn_forest.specs.Rules.{Says, AllPass, HasEntryAt, HasRootAt, entries_of};
ghost use Rattle.mn_forest.specs.Progress.{HasFront, HasEntriesTo, HasSlot, HasSlotsTo, PassesAll};
ghost use Rattle.mn_forest.specs.Progress.{SaysFailed};
ghost use Rattle.mn_forest.specs.Trees.{AreVersions, AreNames};
ghost use Rattle.mn_flat.specs.Votes.{numbered};

use crate::front::{catalog_in, has_count, has_entry, has_header, has_root, has_same_entry};
use crate::pages::{Names, Versions, has_children, has_page, is_reached};
use crate::place::{ENTRIES, entry_start, slot_start};
use crate::shown::store_in;
use crate::{ForestError, Rule};
use mn_base::{Addr, NoMemory, NodeNo, VersionNo};
use mn_page::CatEntry;
use mn_plain::Store;
use mn_space::{NodeSpace, NodeSpaces};
use mn_vtree::VersionTree;
use std::alloc::Global;

/// Names a test that fails.
fn pass(passes: bool, node: u8, start: usize, rule: Rule) -> Result<(), ForestError>
    requires { start < 2 ^ 32 }
    ensures passes { OnOk result (passes ≡ true) }
    ensures fails { IfErr result (λ e. (passes ≡ false)
        × (e ≡ forest.Broken (numbered node) start rule)) }
{
    if passes {
        return Ok(());
    }
    Err(ForestError::Broken {
        node: NodeNo(node),
        start: start as u32,
        rule,
    })
}

/// Tests the header and the count of a node.
fn test_front(spaces: &[NodeSpace], node: u8) -> Result<(), ForestError>
    requires there { node < length spaces.now }
    requires few { length spaces.now ≤ 8 }
    requires whole { AllByRecursion (λ space. length space ≡ space_size) spaces.now }
    ensures passes { OnOk result (HasFront spaces.now node) }
    ensures fails { (es : List (Option CatEntry)) → IfErr result (SaysFailed spaces.now es node) }
{
    pass(has_header(spaces, node), node, 0, Rule::Header)?;
    pass(has_count(spaces, node), node, 16, Rule::Count)?;
    Ok(())
}

/// Whether the root of an entry, if there is one, is right.
fn root_fits(spaces: &[NodeSpace], entries: &[Option<CatEntry>], version: usize) -> bool
    requires whole { AllByRecursion (λ space. length space ≡ space_size) spaces.now }
    requires place { version < length entries.now }
    ensures { MatchBool result (HasRootAt spaces.now entries.now 0 version)
        (HasRootAt spaces.now entries.now 0 version → ⊥) }
{
    match &entries[version] {
        Some(entry) => has_root(spaces, version, entry),
        None => true,
    }
}

/// Tests an entry of the catalog and its root.
fn test_entry(
    spaces: &[NodeSpace],
    entries: &[Option<CatEntry>],
    version: usize,
) -> Result<(), ForestError>
    requires some { 0 < length spaces.now }
    requires whole { AllByRecursion (λ space. length space ≡ space_size) spaces.now }
    requires says { Says spaces.now entries.now }
    requires place { version < 64 }
    ensures passes { OnOk result (HasEntryAt spaces.now entries.now 0 version
        × HasRootAt spaces.now entries.now 0 version) }
    ensures fails { HasFront spaces.now 0 → HasEntriesTo spaces.now entries.now 0 version
        → IfErr result (SaysFailed spaces.now entries.now 0) }
{
    let start = entry_start(version);
    pass(has_entry(spaces, entries, version), 0, start, Rule::Entry)?;
    pass(root_fits(spaces, entries, version), 0, start, Rule::Root)?;
    Ok(())
}

/// Tests the catalog.
fn test_catalog(spaces: &[NodeSpace], entries: &[Option<CatEntry>]) -> Result<(), ForestError>
    requires some { 0 < length spaces.now }
    requires whole { AllByRecursion (λ space. length space ≡ space_size) spaces.now }
    requires says { Says spaces.now entries.now }
    requires front { HasFront spaces.now 0 }
    ensures passes { OnOk result (HasEntriesTo spaces.now entries.now 0 64) }
    ensures fails { IfErr result (SaysFailed spaces.now entries.now 0) }
{
    for version in 0..ENTRIES {
        test_entry(spaces, entries, version)?;
    }
    Ok(())
}

/// Tests that a node behind the first has the catalog of the first.
fn test_same_catalog(spaces: &[NodeSpace], node: u8) -> Result<(), ForestError>
    requires behind { 1 ≤ node }
    requires there { node < length spaces.now }
    requires whole { AllByRecursion (λ space. length space ≡ space_size) spaces.now }
    ensures passes { (es : List (Option CatEntry))
        → OnOk result (HasEntriesTo spaces.now es node 64) }
    ensures fails { (es : List (Option CatEntry)) → HasFront spaces.now node
        → IfErr result (SaysFailed spaces.now es node) }
{
    for entry in 0..ENTRIES {
        pass(
            has_same_entry(spaces, node, entry),
            node,
            entry_start(entry),
            Rule::Entry,
        )?;
    }
    Ok(())
}

/// Tests a slot.
fn test_slot(
    spaces: &[NodeSpace],
    versions: &Versions,
    names: &Names,
    node: u8,
    slot: u16,
) -> Result<(), ForestError>
    requires there { node < length spaces.now }
    requires whole { AllByRecursion (λ space. length space ≡ space_size) spaces.now }
    requires place { slot < 4096 }
    ensures passes { (es : List (Option CatEntry)) → AreVersions versions.now (entries_of es)
        → AreNames names.now spaces.now (entries_of es)
        → OnOk result (HasSlot spaces.now es node slot) }
    ensures fails { (es : List (Option CatEntry)) → AreVersions versions.now (entries_of es)
        → AreNames names.now spaces.now (entries_of es) → HasFront spaces.now node
        → HasEntriesTo spaces.now es node 64 → HasSlotsTo spaces.now es node slot
        → IfErr result (SaysFailed spaces.now es node) }
{
    let addr = Addr {
        node: NodeNo(node),
        slot,
    };
    let start = slot_start(slot);
    pass(has_page(spaces, versions, addr), node, start, Rule::Page)?;
    pass(
        has_children(spaces, versions, addr),
        node,
        start,
        Rule::Child,
    )?;
    pass(
        is_reached(spaces, versions, names, addr),
        node,
        start,
        Rule::Reach,
    )?;
    Ok(())
}

/// Tests the slots of a node.
fn test_slots(
    spaces: &[NodeSpace],
    versions: &Versions,
    names: &Names,
    node: u8,
) -> Result<(), ForestError>
    requires there { node < length spaces.now }
    requires whole { AllByRecursion (λ space. length space ≡ space_size) spaces.now }
    ensures passes { (es : List (Option CatEntry)) → AreVersions versions.now (entries_of es)
        → AreNames names.now spaces.now (entries_of es)
        → OnOk result (HasSlotsTo spaces.now es node 4096) }
    ensures fails { (es : List (Option CatEntry)) → AreVersions versions.now (entries_of es)
        → AreNames names.now spaces.now (entries_of es) → HasFront spaces.now node
        → HasEntriesTo spaces.now es node 64 → IfErr result (SaysFailed spaces.now es node) }
{
    for slot in 0u16..4_096 {
        test_slot(spaces, versions, names, node, slot)?;
    }
    Ok(())
}

/// Tests a node behind the first.
fn test_node(
    spaces: &[NodeSpace],
    versions: &Versions,
    names: &Names,
    node: u8,
) -> Result<(), ForestError>
    requires there { node < length spaces.now }
    requires few { length spaces.now ≤ 8 }
    requires whole { AllByRecursion (λ space. length space ≡ space_size) spaces.now }
    requires behind { 1 ≤ node }
    ensures passes { (es : List (Option CatEntry)) → AreVersions versions.now (entries_of es)
        → AreNames names.now spaces.now (entries_of es)
        → OnOk result (PassesAll spaces.now es node) }
    ensures fails { (es : List (Option CatEntry)) → AreVersions versions.now (entries_of es)
        → AreNames names.now spaces.now (entries_of es)
        → IfErr result (SaysFailed spaces.now es node) }
{
    test_front(spaces, node)?;
    test_same_catalog(spaces, node)?;
    test_slots(spaces, versions, names, node)?;
    Ok(())
}

/// Adds what the tree of versions and the list of roots say of an entry.
fn take_entry(
    entry: &CatEntry,
    parents: &mut Vec<Option<VersionNo>>,
    roots: &mut Vec<Addr>,
) -> Result<(), NoMemory>
    ensures parents { OnOk result (parents.new.items ≡ parents.old.items ++ entry.now.parent ∷ []) }
    ensures roots { OnOk result (roots.new.items ≡ roots.old.items ++ entry.now.root ∷ []) }
{
    parents.push(entry.parent)?;
    roots.push(entry.root)?;
    Ok(())
}

/// Adds what they say of the entries up to the first place without one.
fn take_entries(
    entries: &[Option<CatEntry>],
    parents: &mut Vec<Option<VersionNo>>,
    roots: &mut Vec<Addr>,
) -> Result<(), NoMemory>
    ensures parents { OnOk result
        (parents.new.items ≡ parents.old.items ++ map (λ e. e.parent) (entries_of entries.now)) }
    ensures roots { OnOk result (roots.new.items
        ≡ roots.old.items ++ map (λ e. e.root) (entries_of entries.now)) }
{
    for entry in entries {
        match entry {
            Some(entry) => take_entry(entry, parents, roots)?,
            None => return Ok(()),
        }
    }
    Ok(())
}

/// The versions of the entries up to the first place without one.
fn versions_of(alloc: Global, entries: &[Option<CatEntry>]) -> Result<Versions, NoMemory>
    requires { length entries.now ≤ 64 }
    ensures { IfOk result (λ versions. AreVersions versions (entries_of entries.now)) }
{
    let mut parents = Vec::new(alloc);
    let mut roots = Vec::new(alloc);
    take_entries(entries, &mut parents, &mut roots)?;
    // The parents fit, so that it is refused for want of memory alone.
    let Ok(tree) = VersionTree::new(alloc, &parents) else {
        return Err(NoMemory);
    };
    Ok(Versions { tree, roots })
}

/// The pages of all nodes that are named as children.
fn names_of(alloc: Global, spaces: &[NodeSpace], versions: &Versions) -> Result<Names, NoMemory>
    requires few { length spaces.now ≤ 8 }
    requires whole { AllByRecursion (λ space. length space ≡ space_size) spaces.now }
    ensures { (entries : List CatEntry) → AreVersions versions.now entries
        → IfOk result (λ names. AreNames names spaces.now entries) }
{
    let mut names = Names::new(alloc);
    for node in 0..spaces.len() {
        names.note_node(spaces, versions, node as u8)?;
    }
    Ok(names)
}

/// Tests the nodes behind the first.
fn test_others(spaces: &[NodeSpace], versions: &Versions, names: &Names) -> Result<(), ForestError>
    requires few { length spaces.now ≤ 8 }
    requires whole { AllByRecursion (λ space. length space ≡ space_size) spaces.now }
    ensures passes { (es : List (Option CatEntry)) → AreVersions versions.now (entries_of es)
        → AreNames names.now spaces.now (entries_of es) → PassesAll spaces.now es 0
        → OnOk result (AllPass spaces.now es) }
    ensures fails { (es : List (Option CatEntry)) → Says spaces.now es
        → AreVersions versions.now (entries_of es) → AreNames names.now spaces.now (entries_of es)
        → PassesAll spaces.now es 0 → IfErr result (RefusesMemory spaces.now) }
{
    for node in 1..spaces.len() {
        test_node(spaces, versions, names, node as u8)?;
    }
    Ok(())
}

/// Tests each rule on each node.
fn test_all(
    alloc: Global,
    spaces: &[NodeSpace],
    entries: &[Option<CatEntry>],
) -> Result<(), ForestError>
    requires some { 1 ≤ length spaces.now }
    requires few { length spaces.now ≤ 8 }
    requires whole { AllByRecursion (λ space. length space ≡ space_size) spaces.now }
    requires says { Says spaces.now entries.now }
    ensures passes { OnOk result (AllPass spaces.now entries.now) }
    ensures fails { IfErr result (RefusesMemory spaces.now) }
{
    test_front(spaces, 0)?;
    test_catalog(spaces, entries)?;
    let versions = versions_of(alloc, entries)?;
    let names = names_of(alloc, spaces, &versions)?;
    test_slots(spaces, &versions, &names, 0)?;
    test_others(spaces, &versions, &names)?;
    Ok(())
}

/// The store that 1 to 8 spaces of full size hold. Broken: they hold none; it names the first rule
/// that fails by node, by where what it speaks of begins, and by the order of the rules. NoMemory:
/// there was no memory for it.
///
/// The rules are: `Header` (at 0), the header is that of the format, and bytes that are kept are
/// zero. `Count` (at 16), at most 4,096 slots are given out. `Entry` (where it begins), on node 0
/// it is an entry or unused, no used one follows an unused one, the first one is used and has no
/// parent, each other used one has a parent of a lower number, no name comes twice, and a version
/// is frozen exactly where it has a child; on the nodes behind the first it is, byte for byte, that
/// of node 0. `Root` (where the entry begins, on node 0 alone), its root is a page that was made in
/// its version and has no fences. `Page` (where a slot begins), below the count it is a page of
/// versions that there are, whose copied set descends from the version that it was made in, and
/// from the count on it is free. `Child` (where the page begins), each child is a page one height
/// lower with just the child's range, which serves what its parent serves. `Reach` (where the page
/// begins), for each version that the page serves it is the root, or a page one height up that
/// serves the version names it.
pub fn check(alloc: Global, spaces: &NodeSpaces) -> Result<Store, ForestError>
    requires some { 1 ≤ length spaces.now }
    requires few { length spaces.now ≤ 8 }
    requires whole { AllByRecursion (λ space. length space ≡ space_size) spaces.now }
    ensures store { IfOk result (Holds spaces.now) }
    ensures broken { IfErr result (RefusesMemory spaces.now) }
    ensures holds { (store : List StoreVersion) → Holds spaces.now store
        → IfErr result IsLackOfMemory }
{
    let spaces = spaces.as_slice();
    let entries = catalog_in(alloc, spaces)?;
    test_all(alloc, spaces, &entries)?;
    Ok(store_in(alloc, spaces, &entries)?)
}

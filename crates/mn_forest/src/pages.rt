ghost use Rattle.std.specs.Prelude.{◌≡◌, ℕ, ◌+◌, ◌<◌, ◌&&◌, ◌||◌, not, true, nat_lt, nat_eq, List};
ghost use Rattle.std.specs.Prelude.{Option, Some, length, slice_get, MatchBool, OnOk};
ghost use Rattle.std.specs.Prelude.{if◌then◌else◌, option_map};
ghost use Rattle.std.specs.List.{AllByRecursion, list_all, range_with_len};
ghost use Rattle.mn_base.specs.Tree.{has_version, is_ancestor, serves};
ghost use Rattle.mn_mini.specs.Mini.{space_size};
ghost use Rattle.mn_page.specs.declared.entry.CatEntry.{CatEntry};
ghost use Rattle.mn_page.specs.Holds.{HasVersions};
ghost use Rattle.mn_base.specs.declared.ids.Addr.{Addr};
ghost use Rattle.mn_page.specs.Forest.{ChildRange, children_of};
ghost use Rattle.mn_page.specs.Grammar.{IsPage, height_of};
ghost use Rattle.mn_page.specs.Reading.{addrs_in};
ghost use Rattle.mn_forest.specs.Rules.{StandsAt, HasPage, HasChildren, IsChildAt, IsReached};
ghost use Rattle.mn_forest.specs.Trees.{AreVersions, AreNames, AreNamesTo, Notes, NotesChildren};
ghost use Rattle.mn_forest.specs.Trees.{name_key, keys_same, is_noted, is_root_at};

use crate::front::are_all;
use crate::place::{are_zeros, count_at, page_at, slot_place};
use mn_base::{Addr, NoMemory, NodeNo, VersionNo};
use mn_page::PageRef;
use mn_space::NodeSpace;
use mn_vtree::VersionTree;
use std::alloc::Global;
use std::collections::HashSet;

/// The versions that the catalog says: the tree that they make, and their roots.
#[derive(Drop)]
pub struct Versions {
    pub tree: VersionTree,
    pub roots: Vec<Addr>,
}

/// That a page of this height which serves the version names the page at the address as a child.
#[derive(Clone, Copy, PartialEq, Eq, Hash)]
struct NameKey {
    node: u8,
    slot: u16,
    version: u8,
    height: u16,
}

/// The pages that are named as children.
#[derive(Drop)]
pub struct Names {
    named: HashSet<NameKey>,
}

impl Versions {
    fn has(&self, version: u8) -> bool
        ensures { result ≡ nat_lt version (length self.now.roots.items) }
    {
        usize::from(version) < self.roots.len()
    }

    fn serves(&self, page: &PageRef<'_>, version: u8) -> bool
        ensures { result ≡ serves self.now.tree page.now.made.0 page.now.copied version }
    {
        self.tree
            .serves(page.made(), page.copied(), VersionNo(version))
    }
}

// Whether the set of versions has this one.
fn is_in(copied: u64, version: u8) -> bool
    ensures { result ≡ has_version copied version }
{
    version < 64 && (copied >> version) & 1 == 1
}

/// Whether a version that a page was copied for descends from the one that it was made in.
fn copy_fits(versions: &Versions, made: VersionNo, copied: u64, version: u8) -> bool
    ensures { result ≡ (not (has_version copied version)
        || (nat_lt version (length versions.now.roots.items)
        && is_ancestor versions.now.tree made.0 version)) }
{
    !is_in(copied, version)
        || (versions.has(version) && versions.tree.ancestor(made, VersionNo(version)))
}

/// Whether each of them does.
fn copies_fit(versions: &Versions, made: VersionNo, copied: u64) -> bool
    ensures { result ≡ list_all (λ w. not (has_version copied w)
        || (nat_lt w (length versions.now.roots.items) && is_ancestor versions.now.tree made.0 w))
        (range_with_len 0 64) }
{
    (0u8..64).all(|version| copy_fits(versions, made, copied, version))
}

fn made_fits(versions: &Versions, page: &PageRef<'_>) -> bool
    ensures { result ≡ (nat_lt page.now.made.0 (length versions.now.roots.items)
        && list_all (λ w. not (has_version page.now.copied w)
        || (nat_lt w (length versions.now.roots.items)
        && is_ancestor versions.now.tree page.now.made.0 w)) (range_with_len 0 64)) }
{
    let made = page.made();
    versions.has(made.0) && copies_fit(versions, made, page.copied())
}

/// Whether the page's versions are versions, and those that it was copied for descend from the one
/// that it was made in.
fn versions_fit(versions: &Versions, page: &PageRef<'_>) -> bool
    ensures { (entries : List CatEntry) → AreVersions versions.now entries
        → MatchBool result (HasVersions entries page.now) (HasVersions entries page.now → ⊥) }
{
    made_fits(versions, page)
}

/// Whether a slot below the count has a page of the catalog's versions, or one from there on is
/// free.
pub fn has_page(spaces: &[NodeSpace], versions: &Versions, addr: Addr) -> bool
    requires there { addr.node.0 < length spaces.now }
    requires whole { AllByRecursion (λ space. length space ≡ space_size) spaces.now }
    requires slot { addr.slot < 4096 }
    ensures { (entries : List CatEntry) → AreVersions versions.now entries
        → MatchBool result (HasPage spaces.now entries addr) (HasPage spaces.now entries addr → ⊥) }
{
    let NodeNo(node) = addr.node;
    if u64::from(addr.slot) >= count_at(spaces, node) {
        return are_zeros(slot_place(spaces, node, addr.slot));
    }
    match page_at(spaces, addr) {
        Some(page) => versions_fit(versions, &page),
        None => false,
    }
}

/// Where child `i` of an inner page begins.
fn child_low<'a>(page: &PageRef<'a>, i: usize) -> &'a [u8]
    requires { i < length (addrs_in page.now.body) }
    ensures { (c : ChildRange) → slice_get (children_of page.now) i ≡ Some c → result.now ≡ c.low }
{
    if i == 0 { page.low() } else { page.key(i - 1) }
}

/// Where it ends.
fn child_high<'a>(page: &PageRef<'a>, i: usize) -> Option<&'a [u8]>
    requires { i < length (addrs_in page.now.body) }
    ensures { (c : ChildRange) → slice_get (children_of page.now) i ≡ Some c
        → option_map (λ h. h.now) result ≡ c.high }
{
    if i < page.count() - 1 {
        Some(page.key(i))
    } else {
        page.high()
    }
}

fn same_bound(one: Option<&[u8]>, other: Option<&[u8]>) -> bool
    ensures { MatchBool result (option_map (λ h. h.now) one.entry
        ≡ option_map (λ h. h.now) other.entry)
        (option_map (λ h. h.now) one.entry ≡ option_map (λ h. h.now) other.entry → ⊥) }
{
    match (one, other) {
        (Some(one), Some(other)) => one == other,
        (None, None) => true,
        _ => false,
    }
}

/// Whether a page serves a version, if the other page does.
fn serves_too(versions: &Versions, page: &PageRef<'_>, other: &PageRef<'_>, version: u8) -> bool
    ensures { result ≡ (not (nat_lt version (length versions.now.roots.items))
        || (not (serves versions.now.tree other.now.made.0 other.now.copied version)
        || serves versions.now.tree page.now.made.0 page.now.copied version)) }
{
    !versions.has(version) || !versions.serves(other, version) || versions.serves(page, version)
}

/// Whether a page serves each version that the other serves.
fn serves_as(versions: &Versions, page: &PageRef<'_>, other: &PageRef<'_>) -> bool
    ensures { result ≡ list_all (λ v. not (nat_lt v (length versions.now.roots.items))
        || (not (serves versions.now.tree other.now.made.0 other.now.copied v)
        || serves versions.now.tree page.now.made.0 page.now.copied v)) (range_with_len 0 64) }
{
    (0u8..64).all(|version| serves_too(versions, page, other, version))
}

fn same_range(page: &PageRef<'_>, low: &[u8], high: Option<&[u8]>) -> bool
    ensures { MatchBool result ((page.now.low ≡ low.now)
        × (page.now.high ≡ option_map (λ h. h.now) high.entry))
        ((page.now.low ≡ low.now) × (page.now.high ≡ option_map (λ h. h.now) high.entry) → ⊥) }
{
    page.low() == low && same_bound(page.high(), high)
}

fn is_below(page: &PageRef<'_>, other: &PageRef<'_>) -> bool
    ensures { result ≡ nat_eq (height_of page.now.body + 1) (height_of other.now.body) }
{
    u32::from(page.height()) + 1 == u32::from(other.height())
}

/// Whether a page is child `i` of an inner page as that says.
fn is_child(versions: &Versions, page: &PageRef<'_>, i: usize, child: &PageRef<'_>) -> bool
    requires { i < length (addrs_in page.now.body) }
    ensures { (memory : List (List ℕ)) (entries : List CatEntry) (c : ChildRange)
        → AreVersions versions.now entries → slice_get (children_of page.now) i ≡ Some c
        → StandsAt memory c.addr child.now
        → MatchBool result (IsChildAt memory entries page.now c)
        (IsChildAt memory entries page.now c → ⊥) }
{
    let range = same_range(child, child_low(page, i), child_high(page, i));
    let below = is_below(child, page);
    let serves = serves_as(versions, child, page);
    are_all(range, below, serves)
}

/// Whether child `i` of an inner page is as the page says.
fn has_child(spaces: &[NodeSpace], versions: &Versions, page: &PageRef<'_>, i: usize) -> bool
    requires whole { AllByRecursion (λ space. length space ≡ space_size) spaces.now }
    requires there { i < length (addrs_in page.now.body) }
    ensures { (entries : List CatEntry) (c : ChildRange) → AreVersions versions.now entries
        → slice_get (children_of page.now) i ≡ Some c
        → MatchBool result (IsChildAt spaces.now entries page.now c)
        (IsChildAt spaces.now entries page.now c → ⊥) }
{
    match page_at(spaces, page.child(i)) {
        Some(child) => is_child(versions, page, i, &child),
        None => false,
    }
}

/// How many children a page has.
pub fn child_count(page: &PageRef<'_>) -> usize
    requires { IsPage page.now }
    ensures children { result ≡ length (children_of page.now) }
    ensures addrs { result ≡ length (addrs_in page.now.body) }
{
    if page.height() == 0 { 0 } else { page.count() }
}

/// Whether each child of a page is.
fn are_children(spaces: &[NodeSpace], versions: &Versions, page: &PageRef<'_>) -> bool
    requires whole { AllByRecursion (λ space. length space ≡ space_size) spaces.now }
    requires page { IsPage page.now }
    ensures { (entries : List CatEntry) → AreVersions versions.now entries
        → MatchBool result (AllByRecursion (IsChildAt spaces.now entries page.now)
        (children_of page.now)) (AllByRecursion (IsChildAt spaces.now entries page.now)
        (children_of page.now) → ⊥) }
{
    for i in 0..child_count(page) {
        if !has_child(spaces, versions, page, i) {
            return false;
        }
    }
    true
}

/// Whether each child of the page at the address is.
pub fn has_children(spaces: &[NodeSpace], versions: &Versions, addr: Addr) -> bool
    requires { AllByRecursion (λ space. length space ≡ space_size) spaces.now }
    ensures { (entries : List CatEntry) → AreVersions versions.now entries
        → MatchBool result (HasChildren spaces.now entries addr)
        (HasChildren spaces.now entries addr → ⊥) }
{
    match page_at(spaces, addr) {
        Some(page) => are_children(spaces, versions, &page),
        None => true,
    }
}

impl Names {
    ghost use Rattle.mn_forest.specs.declared.pages.Names.{Names};

    pub fn new(alloc: Global) -> Self
        ensures { (memory : List (List ℕ)) (entries : List CatEntry)
            → AreNamesTo result memory entries 0 0 }
    {
        Names {
            named: HashSet::new(alloc),
        }
    }

    /// Notes that a page of this height which serves the version names the page at the address.
    fn note(&mut self, addr: Addr, version: u8, height: u16) -> Result<(), NoMemory>
        ensures { OnOk result ((a : Addr) (v h : ℕ)
            → is_noted self.new a v h ≡ (if keys_same (name_key addr version height)
            (name_key a v h) then true else is_noted self.old a v h)) }
    {
        self.named.insert(NameKey {
            node: addr.node.0,
            slot: addr.slot,
            version,
            height,
        })?;
        Ok(())
    }

    /// Notes a child of a page for a version, if the page serves that.
    fn note_version(
        &mut self,
        versions: &Versions,
        page: &PageRef<'_>,
        child: Addr,
        version: u8,
    ) -> Result<(), NoMemory>
        ensures { (entries : List CatEntry) (first : Names) → AreVersions versions.now entries
            → Notes first self.old entries page.now child version
            → OnOk result (Notes first self.new entries page.now child (version + 1)) }
    {
        if !versions.has(version) {
            return Ok(());
        }
        if !versions.serves(page, version) {
            return Ok(());
        }
        self.note(child, version, page.height())?;
        Ok(())
    }

    /// Notes a child of a page for each version that the page serves.
    fn note_child(
        &mut self,
        versions: &Versions,
        page: &PageRef<'_>,
        child: Addr,
    ) -> Result<(), NoMemory>
        ensures { (entries : List CatEntry) → AreVersions versions.now entries
            → OnOk result (Notes self.old self.new entries page.now child 64) }
    {
        for version in 0u8..64 {
            self.note_version(versions, page, child, version)?;
        }
        Ok(())
    }

    /// Notes the children of a page.
    fn note_children(&mut self, versions: &Versions, page: &PageRef<'_>) -> Result<(), NoMemory>
        requires { IsPage page.now }
        ensures { (entries : List CatEntry) → AreVersions versions.now entries
            → OnOk result (NotesChildren self.old self.new entries page.now
            (length (addrs_in page.now.body))) }
    {
        for i in 0..child_count(page) {
            self.note_child(versions, page, page.child(i))?;
        }
        Ok(())
    }

    /// Notes the children of the page at the address.
    fn note_page(
        &mut self,
        spaces: &[NodeSpace],
        versions: &Versions,
        addr: Addr,
    ) -> Result<(), NoMemory>
        requires { AllByRecursion (λ space. length space ≡ space_size) spaces.now }
        ensures { (entries : List CatEntry) → AreVersions versions.now entries
            → AreNamesTo self.old spaces.now entries addr.node.0 addr.slot
            → OnOk result (AreNamesTo self.new spaces.now entries addr.node.0 (addr.slot + 1)) }
    {
        match page_at(spaces, addr) {
            Some(page) => {
                self.note_children(versions, &page)?;
                Ok(())
            }
            None => Ok(()),
        }
    }

    /// Notes the children of the pages of a node.
    pub fn note_node(
        &mut self,
        spaces: &[NodeSpace],
        versions: &Versions,
        node: u8,
    ) -> Result<(), NoMemory>
        requires { AllByRecursion (λ space. length space ≡ space_size) spaces.now }
        ensures { (entries : List CatEntry) → AreVersions versions.now entries
            → AreNamesTo self.old spaces.now entries node 0
            → OnOk result (AreNamesTo self.new spaces.now entries (node + 1) 0) }
    {
        for slot in 0u16..4_096 {
            let addr = Addr {
                node: NodeNo(node),
                slot,
            };
            self.note_page(spaces, versions, addr)?;
        }
        Ok(())
    }

    fn has(&self, addr: Addr, version: u8, height: u16) -> bool
        ensures { result ≡ is_noted self.now addr version height }
    {
        self.named.contains(&NameKey {
            node: addr.node.0,
            slot: addr.slot,
            version,
            height,
        })
    }
}

fn is_root(versions: &Versions, version: u8, addr: Addr) -> bool
    ensures { result ≡ is_root_at versions.now.roots.items version addr }
{
    let at = usize::from(version);
    at < versions.roots.len() && versions.roots[at] == addr
}

/// Whether a page one height up names the page.
fn is_named(names: &Names, page: &PageRef<'_>, addr: Addr, version: u8) -> bool
    ensures { result ≡ (nat_lt (height_of page.now.body) 65535
        && is_noted names.now addr version (height_of page.now.body + 1)) }
{
    page.height() < u16::MAX && names.has(addr, version, page.height() + 1)
}

/// Whether a page is reached for a version, if it serves that.
fn is_reached_for(
    versions: &Versions,
    names: &Names,
    page: &PageRef<'_>,
    addr: Addr,
    version: u8,
) -> bool
    ensures { result ≡ (not (nat_lt version (length versions.now.roots.items))
        || (not (serves versions.now.tree page.now.made.0 page.now.copied version)
        || (is_root_at versions.now.roots.items version addr
        || (nat_lt (height_of page.now.body) 65535
        && is_noted names.now addr version (height_of page.now.body + 1))))) }
{
    !versions.has(version)
        || !versions.serves(page, version)
        || is_root(versions, version, addr)
        || is_named(names, page, addr, version)
}

/// Whether it is for each version.
fn is_reached_for_all(versions: &Versions, names: &Names, page: &PageRef<'_>, addr: Addr) -> bool
    ensures { result ≡ list_all (λ v. not (nat_lt v (length versions.now.roots.items))
        || (not (serves versions.now.tree page.now.made.0 page.now.copied v)
        || (is_root_at versions.now.roots.items v addr
        || (nat_lt (height_of page.now.body) 65535
        && is_noted names.now addr v (height_of page.now.body + 1))))) (range_with_len 0 64) }
{
    (0u8..64).all(|version| is_reached_for(versions, names, page, addr, version))
}

/// Whether the page at the address is, for each version that it serves, the root or named by a page
/// one height up.
pub fn is_reached(spaces: &[NodeSpace], versions: &Versions, names: &Names, addr: Addr) -> bool
    requires { AllByRecursion (λ space. length space ≡ space_size) spaces.now }
    ensures { (entries : List CatEntry) → AreVersions versions.now entries
        → AreNames names.now spaces.now entries
        → MatchBool result (IsReached spaces.now entries addr)
        (IsReached spaces.now entries addr → ⊥) }
{
    match page_at(spaces, addr) {
        Some(page) => is_reached_for_all(versions, names, &page, addr),
        None => true,
    }
}

ghost use Rattle.std.specs.Prelude.{◌≡◌, ◌+◌, ◌<◌, ◌≤◌, length, ◌&&◌, not, nat_eq, IfOk, MatchBool};
ghost use Rattle.std.specs.Prelude.{is_some};
ghost use Rattle.std.specs.List.{AllByRecursion, list_all, list_any};
ghost use Rattle.mn_mini.specs.Mini.{space_size};
ghost use Rattle.mn_mini.specs.Flat.{bytes_in};
ghost use Rattle.mn_page.specs.Forest.{header_bytes};
ghost use Rattle.mn_page.specs.Grammar.{IsUnused};
ghost use Rattle.mn_forest.specs.Rules.{ReadsAs, Says, IsReadable, HasHeader, IsCount, HasCount};
ghost use Rattle.mn_forest.specs.Rules.{HasEntry, IsRootAt, EntryFits, entry_place, entry_of};
ghost use Rattle.mn_forest.specs.Rules.{parent_fits, is_named, is_child_of, space_at, zeros};

use crate::place::{ENTRIES, are_zeros, entry_place, front_range, page_at};
use byteorder::{BigEndian, ByteOrder};
use mn_base::{Name, NoMemory, VersionNo};
use mn_page::{CatEntry, PageError, PageRef};
use mn_space::NodeSpace;
use std::alloc::Global;

/// What a place of the catalog says: its entry, or none where it is unused or outside the grammar.
fn entry_in(alloc: Global, place: &[u8]) -> Result<Option<CatEntry>, NoMemory>
    ensures { IfOk result (ReadsAs place.now) }
{
    match CatEntry::read(alloc, place) {
        Ok(found) => Ok(found),
        Err(PageError::BadPage { .. }) => Ok(None),
        Err(PageError::NoMemory) => Err(NoMemory),
    }
}

/// What the catalog of node 0 says, place by place.
pub fn catalog_in(alloc: Global, spaces: &[NodeSpace]) -> Result<Vec<Option<CatEntry>>, NoMemory>
    requires some { 0 < length spaces.now }
    requires whole { AllByRecursion (λ space. length space ≡ space_size) spaces.now }
    ensures { IfOk result (λ es. Says spaces.now es.items) }
{
    let mut entries = Vec::new(alloc);
    for entry in 0..ENTRIES {
        entries.push(entry_in(alloc, entry_place(spaces, 0, entry))?)?;
    }
    Ok(entries)
}

/// Whether a space begins with the header, by its first 16 bytes.
fn is_header(first: &[u8], nodes: u8, node: u8) -> bool
    ensures { MatchBool result (first.now ≡ header_bytes nodes node)
        (first.now ≡ header_bytes nodes node → ⊥) }
{
    let header = [
        b'M', b'I', b'N', b'U', b'E', b'T', 1, nodes, node, 0, 0, 0, 0, 0, 0, 0,
    ];
    first == &header[..]
}

/// Whether the bytes of a range before the slots are all zero.
fn is_kept_zero(spaces: &[NodeSpace], node: u8, start: usize, size: usize) -> bool
    requires there { node < length spaces.now }
    requires before { start + size ≤ 20480 }
    ensures { MatchBool result (bytes_in (space_at spaces.now node) start size ≡ zeros size)
        (bytes_in (space_at spaces.now node) start size ≡ zeros size → ⊥) }
{
    are_zeros(front_range(spaces, node, start, size))
}

/// Whether all three are so.
pub fn are_all(one: bool, two: bool, three: bool) -> bool
    ensures { result ≡ (one && (two && three)) }
{
    one && two && three
}

/// Whether the node has its header, and zeros where nothing may stand.
pub fn has_header(spaces: &[NodeSpace], node: u8) -> bool
    requires there { node < length spaces.now }
    requires few { length spaces.now ≤ 8 }
    requires whole { AllByRecursion (λ space. length space ≡ space_size) spaces.now }
    ensures { MatchBool result (HasHeader spaces.now node) (HasHeader spaces.now node → ⊥) }
{
    let first = front_range(spaces, node, 0, 16);
    let header = is_header(first, spaces.len() as u8, node);
    let behind = is_kept_zero(spaces, node, 24, 40);
    let kept = is_kept_zero(spaces, node, 4_160, 16_320);
    are_all(header, behind, kept)
}

/// Whether the number in these bytes is that of slots which there are.
fn is_count(bytes: &[u8]) -> bool
    requires { length bytes.now ≡ 8 }
    ensures { MatchBool result (IsCount bytes.now) (IsCount bytes.now → ⊥) }
{
    BigEndian::read_u64(bytes) <= 4_096
}

/// Whether the node has given out no more slots than there are.
pub fn has_count(spaces: &[NodeSpace], node: u8) -> bool
    requires there { node < length spaces.now }
    requires whole { AllByRecursion (λ space. length space ≡ space_size) spaces.now }
    ensures { MatchBool result (HasCount spaces.now node) (HasCount spaces.now node → ⊥) }
{
    is_count(front_range(spaces, node, 16, 8))
}

/// Whether a place of the catalog of node 0 is unused.
fn is_unused(spaces: &[NodeSpace], entry: usize) -> bool
    requires some { 0 < length spaces.now }
    requires whole { AllByRecursion (λ space. length space ≡ space_size) spaces.now }
    requires place { entry < 64 }
    ensures { MatchBool result (IsUnused (entry_place spaces.now 0 entry))
        (IsUnused (entry_place spaces.now 0 entry) → ⊥) }
{
    are_zeros(entry_place(spaces, 0, entry))
}

/// Whether a place of the node's catalog is, byte for byte, that of node 0, whatever it says.
pub fn has_same_entry(spaces: &[NodeSpace], node: u8, entry: usize) -> bool
    requires there { node < length spaces.now }
    requires whole { AllByRecursion (λ space. length space ≡ space_size) spaces.now }
    requires place { entry < 64 }
    ensures { MatchBool result
        (entry_place spaces.now node entry ≡ entry_place spaces.now 0 entry)
        (entry_place spaces.now node entry ≡ entry_place spaces.now 0 entry → ⊥) }
{
    entry_place(spaces, node, entry) == entry_place(spaces, 0, entry)
}

/// Version 0 has no parent, each other one a parent of a lower number.
fn parent_fits(version: usize, parent: Option<VersionNo>) -> bool
    ensures { result ≡ parent_fits version parent }
{
    match parent {
        Some(parent) => usize::from(parent.0) < version,
        None => version == 0,
    }
}

fn all_used(entries: &[Option<CatEntry>]) -> bool
    ensures { result ≡ list_all (λ o. is_some o) entries.now }
{
    entries.iter().all(|entry| entry.is_some())
}

fn has_name(entry: &Option<CatEntry>, name: &Name) -> bool
    ensures { result ≡ is_named name.now entry.now }
{
    match entry {
        Some(entry) => entry.name.as_slice() == name.as_slice(),
        None => false,
    }
}

fn any_named(entries: &[Option<CatEntry>], name: &Name) -> bool
    ensures { result ≡ list_any (is_named name.now) entries.now }
{
    entries.iter().any(|entry| has_name(entry, name))
}

fn is_child_of(entry: &Option<CatEntry>, version: usize) -> bool
    ensures { result ≡ is_child_of version entry.now }
{
    match entry {
        Some(entry) => match entry.parent {
            Some(parent) => usize::from(parent.0) == version,
            None => false,
        },
        None => false,
    }
}

fn has_child(entries: &[Option<CatEntry>], version: usize) -> bool
    ensures { result ≡ list_any (is_child_of version) entries.now }
{
    entries.iter().any(|entry| is_child_of(entry, version))
}

/// Whether an entry fits the others; an unused place does, but the first.
fn entry_fits(entries: &[Option<CatEntry>], version: usize) -> bool
    requires { version < length entries.now }
    ensures { MatchBool result (EntryFits entries.now version (entry_of entries.now version))
        (EntryFits entries.now version (entry_of entries.now version) → ⊥) }
{
    match &entries[version] {
        Some(entry) => {
            all_used(&entries[..version])
                && parent_fits(version, entry.parent)
                && !any_named(&entries[..version], &entry.name)
                && entry.frozen == has_child(entries, version)
        }
        None => version >= 1,
    }
}

/// Whether a place of the catalog of node 0 has an entry or is unused.
fn is_readable(spaces: &[NodeSpace], entries: &[Option<CatEntry>], version: usize) -> bool
    requires some { 0 < length spaces.now }
    requires whole { AllByRecursion (λ space. length space ≡ space_size) spaces.now }
    requires says { Says spaces.now entries.now }
    requires place { version < 64 }
    ensures { MatchBool result (IsReadable (entry_place spaces.now 0 version))
        (IsReadable (entry_place spaces.now 0 version) → ⊥) }
{
    match &entries[version] {
        Some(_) => true,
        None => is_unused(spaces, version),
    }
}

/// Whether a place of the catalog of node 0 has an entry that fits the others, or is unused.
pub fn has_entry(spaces: &[NodeSpace], entries: &[Option<CatEntry>], version: usize) -> bool
    requires some { 0 < length spaces.now }
    requires whole { AllByRecursion (λ space. length space ≡ space_size) spaces.now }
    requires says { Says spaces.now entries.now }
    requires place { version < 64 }
    ensures { MatchBool result (HasEntry spaces.now entries.now version)
        (HasEntry spaces.now entries.now version → ⊥) }
{
    is_readable(spaces, entries, version) && entry_fits(entries, version)
}

fn root_fits(page: &PageRef<'_>, version: usize) -> bool
    ensures { result ≡ (nat_eq page.now.made.0 version
        && (nat_eq (length page.now.low) 0 && not (is_some page.now.high))) }
{
    usize::from(page.made().0) == version && page.low().is_empty() && page.high().is_none()
}

/// Whether the root of an entry is a page that was made in its version, without fences.
pub fn has_root(spaces: &[NodeSpace], version: usize, entry: &CatEntry) -> bool
    requires { AllByRecursion (λ space. length space ≡ space_size) spaces.now }
    ensures { MatchBool result (IsRootAt spaces.now version entry.now)
        (IsRootAt spaces.now version entry.now → ⊥) }
{
    match page_at(spaces, entry.root) {
        Some(page) => root_fits(&page, version),
        None => false,
    }
}

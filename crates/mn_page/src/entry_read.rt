ghost use Rattle.std.specs.Prelude.{◌≡◌, ◌++◌, ◌∷◌, [], ℕ, List, Option, Bool, Some, None, length};
ghost use Rattle.std.specs.Prelude.{nat_eq, IfOk, IfErr, IfSome, IsSomeAnd, IsOkAnd, MatchOption};
ghost use Rattle.std.specs.Prelude.{IsTrue, ◌↔◌};
ghost use Rattle.mn_base.specs.declared.ids.VersionNo.{VersionNo};
ghost use Rattle.mn_page.specs.declared.entry.CatEntry.{CatEntry};
ghost use Rattle.mn_page.specs.Grammar.{IsEntry, IsParent, IsUnused, SpellsEntry, SpellsNoEntry};
ghost use Rattle.mn_page.specs.Grammar.{state_byte, parent_byte, entry_bytes};
ghost use Rattle.mn_page.specs.Fronts.{BeginsEntry, NamesLongest};
ghost use Rattle.mn_page.specs.Reading.{Begins, IsWantOfMemory, IsPlaceWithin, entry_seen};
ghost use Rattle.mn_page.specs.Reading.{entry_text, IsNamed};

use crate::fault::{ENTRY, entry_fault};
use crate::scan::{first_addr, first_byte, first_counted, first_seq};
use crate::{CatEntry, PageError};
use mn_base::{Addr, BaseError, Name, VersionNo, are_zeros};
use std::alloc::Global;

/// An entry as it stands in its bytes.
#[derive(Clone, Copy)]
struct EntryRef<'a> {
    seq: u64,
    frozen: bool,
    parent: Option<VersionNo>,
    root: Addr,
    name: &'a [u8],
}

/// Whether the version is frozen, and what follows.
#[inline(always)]
fn first_state(bytes: &[u8]) -> Option<(bool, &[u8])>
    ensures found { IfSome result (λ x. bytes.now ≡ state_byte x.0 ∷ x.1.now) }
    ensures only { (frozen : Bool) (more : List ℕ) → bytes.now ≡ state_byte frozen ∷ more
        → IsSomeAnd result (λ x. (x.0 ≡ frozen) × (x.1.now ≡ more)) }
{
    let (state, rest) = first_byte(bytes)?;
    match state {
        1 => Some((false, rest)),
        2 => Some((true, rest)),
        _ => None,
    }
}

/// The version's parent, and what follows.
#[inline(always)]
fn first_parent(bytes: &[u8]) -> Option<(Option<VersionNo>, &[u8])>
    ensures found { IfSome result (λ x. IsParent x.0 × (bytes.now ≡ parent_byte x.0 ∷ x.1.now)) }
    ensures only { (parent : Option VersionNo) (more : List ℕ) → IsParent parent
        → bytes.now ≡ parent_byte parent ∷ more
        → IsSomeAnd result (λ x. (x.0 ≡ parent) × (x.1.now ≡ more)) }
{
    let (parent, rest) = first_byte(bytes)?;
    if parent == 255 {
        return Some((None, rest));
    }
    if parent > 63 {
        return None;
    }
    Some((Some(VersionNo(parent)), rest))
}

/// The entry that the bytes begin with, whatever its name's bytes are, and what follows it.
#[inline(always)]
fn first_entry(bytes: &[u8]) -> Option<(EntryRef<'_>, &[u8])>
    ensures found { IfSome result
        (λ x. Begins IsNamed entry_text bytes.now (entry_seen x.0) x.1.now) }
    ensures only { (e : CatEntry) (more : List ℕ) → IsNamed e → bytes.now ≡ entry_text e ++ more
        → IsSomeAnd result (λ x. (entry_seen x.0 ≡ e) × (x.1.now ≡ more)) }
{
    let (seq, behind) = first_seq(bytes)?;
    let (frozen, behind) = first_state(behind)?;
    let (parent, behind) = first_parent(behind)?;
    let (root, behind) = first_addr(behind)?;
    let (name, rest) = first_counted(behind, 1, 16)?;
    Some((
        EntryRef {
            seq,
            frozen,
            parent,
            root,
            name,
        },
        rest,
    ))
}

/// The entry that the bytes are, all of them, whatever its name's bytes are.
#[inline(always)]
fn whole_entry(bytes: &[u8]) -> Option<EntryRef<'_>>
    ensures found { IfSome result
        (λ x. IsNamed (entry_seen x) × (bytes.now ≡ entry_bytes (entry_seen x))) }
    ensures only { (e : CatEntry) → SpellsEntry bytes.now e
        → IsSomeAnd result (λ x. entry_seen x ≡ e) }
{
    if bytes.len() != ENTRY {
        return None;
    }
    let (entry, rest) = first_entry(bytes)?;
    if !are_zeros(rest) {
        return None;
    }
    Some(entry)
}

/// Whether the bytes are those of an unused place.
fn is_unused(bytes: &[u8]) -> bool
    ensures { IsTrue result ↔ IsUnused bytes.now }
{
    bytes.len() == ENTRY && are_zeros(bytes)
}

impl CatEntry {
    /// The entry whose bytes these are, or none for an unused place. BadPage: they are neither's;
    /// `at` is how many of the first bytes still begin some entry. NoMemory: there was no memory
    /// for it.
    pub fn read(alloc: Global, bytes: &[u8]) -> Result<Option<CatEntry>, PageError>
        ensures read { IfOk result (λ found.
            MatchOption found (IsUnused bytes.now) (SpellsEntry bytes.now)) }
        ensures entry { (e : CatEntry) → SpellsEntry bytes.now e
            → IfOk result (λ found. found ≡ Some e) }
        ensures unused { IsUnused bytes.now → IfOk result (λ found. found ≡ None) }
        ensures bad { IfErr result (λ e. (IsWantOfMemory e → ⊥) → SpellsNoEntry bytes.now) }
        ensures place { IfErr result (IsPlaceWithin (length bytes.now)) }
        ensures longest { IfErr result (NamesLongest BeginsEntry bytes.now) }
    {
        let Some(entry) = whole_entry(bytes) else {
            if is_unused(bytes) {
                return Ok(None);
            }
            return Err(PageError::BadPage {
                at: entry_fault(bytes),
            });
        };
        match Name::new(alloc, entry.name) {
            Ok(name) => Ok(Some(CatEntry {
                seq: entry.seq,
                frozen: entry.frozen,
                parent: entry.parent,
                root: entry.root,
                name,
            })),
            Err(BaseError::NoMemory) => Err(PageError::NoMemory),
            Err(_) => Err(PageError::BadPage {
                at: entry_fault(bytes),
            }),
        }
    }
}

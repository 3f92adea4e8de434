ghost use Rattle.std.specs.List.{list_all};
ghost use Rattle.std.specs.Prelude.{◌≡◌, ◌≢◌, ◌<◌, ℕ, Option, length, option_map, All};
ghost use Rattle.std.specs.Prelude.{IfOk, IfErr, MatchOption, List, ◌*◌, drop, nat_eq};
ghost use Rattle.mn_page.specs.Space.{catalog_size, entry_size};
ghost use Rattle.mn_page.specs.declared.entry.CatEntry.{CatEntry};
ghost use Rattle.mn_catalog.specs.Grammar.{IsCatalog, SpellsCatalog, SpellsNoCatalog};
ghost use Rattle.mn_catalog.specs.Grammar.{RefusesCatalog, IsWantOfMemory, IsFirstNamed};
ghost use Rattle.mn_catalog.specs.Grammar.{place_bytes, max_entries};
ghost use Rattle.mn_catalog.specs.Places.{IsEntryRead, AreRead, RefusesPlace};
ghost use Rattle.mn_page.specs.Added.{frozen_entry, child_entry};
ghost use Rattle.mn_catalog.specs.Versions.{branch_entries, snapshot_entries, AreEntries};
ghost use Rattle.mn_catalog.specs.Versions.{AdmitsChild, MakesVersion};
ghost use Rattle.mn_base.specs.Name.{IsName};
ghost use Rattle.mn_base.specs.Store.{refusal, child_refusal, number_named, head_named};
ghost use Rattle.mn_base.specs.declared.op.Op.TheVariants as Does;
ghost use Rattle.mn_page.specs.Forest.{heads_in};
ghost use Rattle.mn_page.specs.Grammar.{IsAddr};

use crate::CatError;
use mn_base::{Addr, Name, NoMemory, Op, Reply, Steps, TryCopy, VersionNo};
use mn_padded::Padded;
use mn_page::{CatEntry, Entries, PageError, number_after};
use std::alloc::Global;
use std::marker::Model;

// The bytes of a catalog, the bytes of a place in it, and how many places it has.
const CATALOG: usize = 4_096;

const ENTRY: usize = 64;

const PLACES: u16 = 64;

/// The used entries of a catalog in order of version. Contracts see them as a list.
#[derive(Debug, Drop)]
pub struct Catalog {
    entries: Vec<CatEntry>,
}

impl Model for Catalog {
    ghost use Rattle.std.specs.Prelude.{List};
    ghost use Rattle.mn_page.specs.declared.entry.CatEntry.{CatEntry};
    ghost use Rattle.mn_catalog.specs.Grammar.{IsCatalog};

    ghost Value = { List CatEntry };

    ghost view = { λ c. c.entries.items };

    ghost invariant = { λ c. IsCatalog c.entries.items };
}

// The bytes of a place.
fn place<'a>(bytes: &Padded<'a>, version: u16) -> &'a [u8]
    requires whole { length bytes.now ≡ catalog_size }
    requires there { version < max_entries }
    ensures { result.now ≡ place_bytes version bytes.now }
{
    let start = ENTRY * usize::from(version);
    &bytes.as_slice()[start..start + ENTRY]
}

// The entry of a place, or none for an unused one.
fn entry_at(alloc: Global, bytes: &Padded<'_>, version: u16) -> Result<Option<CatEntry>, CatError>
    requires whole { length bytes.now ≡ catalog_size }
    requires there { version < max_entries }
    ensures read { IfOk result (IsEntryRead (place_bytes version bytes.now)) }
    ensures bad { IfErr result (RefusesPlace version (place_bytes version bytes.now)) }
{
    match CatEntry::read(alloc, place(bytes, version)) {
        Ok(found) => Ok(found),
        Err(PageError::BadPage { .. }) => Err(CatError::BadCatalog { entry: version }),
        Err(PageError::NoMemory) => Err(CatError::NoMemory),
    }
}

// Whether this place and all behind it are unused.
fn are_unused_from(bytes: &Padded<'_>, version: u16) -> bool
    requires whole { length bytes.now ≡ catalog_size }
    requires there { version < max_entries }
    ensures { result ≡ list_all (λ b. nat_eq b 0) (drop (entry_size * version) bytes.now) }
{
    bytes.are_zeros_from(ENTRY * usize::from(version))
}

// The used entries.
fn used_entries(alloc: Global, bytes: &Padded<'_>) -> Result<Vec<CatEntry>, CatError>
    requires whole { length bytes.now ≡ catalog_size }
    ensures read { IfOk result (λ entries. AreRead max_entries bytes.now entries.items) }
    ensures bad { IfErr result (RefusesCatalog bytes.now) }
    ensures outside { IfErr result (λ e. (IsWantOfMemory e → ⊥) → SpellsNoCatalog bytes.now) }
{
    let mut entries = Vec::new(alloc);
    for version in 0..PLACES {
        let Some(entry) = entry_at(alloc, bytes, version)? else {
            if are_unused_from(bytes, version) {
                return Ok(entries);
            }
            continue;
        };
        if entries.len() < usize::from(version) {
            return Err(CatError::BadCatalog { entry: version });
        }
        entries.push(entry)?;
    }
    Ok(entries)
}

/// The entry, frozen.
fn frozen(alloc: Global, entry: &CatEntry) -> Result<CatEntry, NoMemory>
    ensures { IfOk result (λ e. e ≡ frozen_entry entry.now) }
{
    Ok(CatEntry {
        seq: number_after(entry.seq),
        frozen: true,
        parent: entry.parent,
        root: entry.root,
        name: entry.name.try_copy(alloc)?,
    })
}

/// The entry of a writable child of the version.
fn child_of(
    alloc: Global,
    version: VersionNo,
    child: &Name,
    root: Addr,
) -> Result<CatEntry, NoMemory>
    ensures { IfOk result (λ e. e ≡ child_entry version child.now root) }
{
    Ok(CatEntry {
        seq: 1,
        frozen: false,
        parent: Some(version),
        root,
        name: child.try_copy(alloc)?,
    })
}

impl Catalog {
    /// The catalog that the bytes spell: up to 64 entries of 64 bytes each, then zeros, 4,096 bytes
    /// in all. BadCatalog: they spell none. NoMemory: there was no memory for it.
    pub fn read(alloc: Global, bytes: &[u8]) -> Result<Self, CatError>
        ensures read { IfOk result (SpellsCatalog bytes.now) }
        ensures one { (entries : List CatEntry) → SpellsCatalog bytes.now entries
            → IfOk result (λ catalog. catalog ≡ entries) }
        ensures bad { IfErr result (RefusesCatalog bytes.now) }
        ensures outside { IfErr result (λ e. (IsWantOfMemory e → ⊥) → SpellsNoCatalog bytes.now) }
    {
        Catalog::read_padded(alloc, &Padded::plain(bytes))
    }

    /// The same of bytes whose zeros at the end may be known.
    pub fn read_padded(alloc: Global, bytes: &Padded<'_>) -> Result<Self, CatError>
        ensures read { IfOk result (SpellsCatalog bytes.now) }
        ensures one { (entries : List CatEntry) → SpellsCatalog bytes.now entries
            → IfOk result (λ catalog. catalog ≡ entries) }
        ensures bad { IfErr result (RefusesCatalog bytes.now) }
        ensures outside { IfErr result (λ e. (IsWantOfMemory e → ⊥) → SpellsNoCatalog bytes.now) }
    {
        if bytes.as_slice().len() != CATALOG {
            return Err(CatError::BadCatalog { entry: 0 });
        }
        Ok(Catalog {
            entries: used_entries(alloc, bytes)?,
        })
    }

    /// The used entries, that of version 0 first.
    pub fn entries(&self) -> &[CatEntry]
        ensures entries { result.now ≡ self.now }
        ensures right { IsCatalog self.now }
    {
        &self.entries
    }

    /// The least version of this name. None exactly where no used entry has it.
    pub fn find(&self, name: &Name) -> Option<VersionNo>
        ensures first { MatchOption result (All (λ e. e.name ≢ name.now) self.now)
            (λ version. IsFirstNamed self.now name.now version.0) }
        ensures number { option_map (λ version. version.0) result
            ≡ number_named (heads_in self.now) name.now }
    {
        for (version, entry) in self.entries.iter().enumerate() {
            if entry.name.as_slice() == name.as_slice() {
                return Some(VersionNo(version as u8));
            }
        }
        None
    }

    /// Whether there is no room or no free name for a new version.
    fn child_refusal(&self, child: &Name) -> Option<Reply>
        ensures { result ≡ child_refusal (heads_in self.now) child.now }
    {
        if self.find(child).is_some() {
            return Some(Reply::NameTaken);
        }
        if self.entries.len() >= usize::from(PLACES) {
            return Some(Reply::VersionsFull);
        }
        None
    }

    /// Whether the version of this name is frozen, if it is there.
    fn state(&self, name: &Name) -> Option<bool>
        ensures { result ≡ option_map (λ h. h.frozen) (head_named (heads_in self.now) name.now) }
    {
        match self.find(name) {
            Some(version) => Some(self.entries[usize::from(version.0)].frozen),
            None => None,
        }
    }

    /// The refusing reply to steps on the version of this name, or none.
    fn admit_steps(&self, version: &Name, steps: &Steps) -> Option<Reply>
        ensures { result ≡ refusal (heads_in self.now) (Does.Tx version.now steps.now) }
    {
        let Some(frozen) = self.state(version) else {
            return Some(Reply::NoVersion);
        };
        let change = steps.has_change();
        if frozen && change {
            return Some(Reply::Frozen);
        }
        None
    }

    fn admit_snapshot(&self, version: &Name, child: &Name) -> Option<Reply>
        ensures { result ≡ refusal (heads_in self.now) (Does.Snapshot version.now child.now) }
    {
        let Some(frozen) = self.state(version) else {
            return Some(Reply::NoVersion);
        };
        if frozen {
            return Some(Reply::Frozen);
        }
        self.child_refusal(child)
    }

    fn admit_branch(&self, version: &Name, child: &Name) -> Option<Reply>
        ensures { result ≡ refusal (heads_in self.now) (Does.Branch version.now child.now) }
    {
        let Some(frozen) = self.state(version) else {
            return Some(Reply::NoVersion);
        };
        if !frozen {
            return Some(Reply::NotFrozen);
        }
        self.child_refusal(child)
    }

    fn admit_scan(&self, version: &Name) -> Option<Reply>
        ensures { (low high : Option (List ℕ)) (limit : ℕ)
            → result ≡ refusal (heads_in self.now) (Does.Scan version.now low high limit) }
    {
        let Some(frozen) = self.state(version) else {
            return Some(Reply::NoVersion);
        };
        if !frozen {
            return Some(Reply::NotFrozen);
        }
        None
    }

    /// The refusing reply to an operation on the versions of this catalog, or none. It takes no
    /// memory.
    pub fn admit(&self, op: &Op) -> Option<Reply>
        ensures { result ≡ refusal (heads_in self.now) op.now }
    {
        match op {
            Op::Tx { version, steps } => self.admit_steps(version, steps),
            Op::Snapshot { version, child } => self.admit_snapshot(version, child),
            Op::Branch { version, child } => self.admit_branch(version, child),
            Op::Scan { version, .. } => self.admit_scan(version),
            Op::Versions => None,
        }
    }

    /// The entries that a snapshot of the version writes, by number: the version's own, frozen, and
    /// that of its new child `child`, whose root is to stand at `root`. A sequence number that is
    /// the last stays. NoMemory: there was no memory for them.
    pub fn snapshot(
        &self,
        alloc: Global,
        version: VersionNo,
        child: &Name,
        root: Addr,
    ) -> Result<Entries, NoMemory>
        requires there { version.0 < length self.now }
        requires admitted { AdmitsChild Does.Snapshot self.now version.0 child.now }
        ensures entries { IfOk result
            (λ es. es ≡ snapshot_entries self.now version child.now root) }
        ensures sound { IfOk result (λ es. IsAddr root → IsName child.now → AreEntries es) }
        ensures made { IfOk result (λ es.
            MakesVersion Does.Snapshot self.now version.0 child.now es) }
    {
        let entry = &self.entries[usize::from(version.0)];
        let mut entries = Vec::new(alloc);
        entries.push((version, frozen(alloc, entry)?))?;
        let number = VersionNo(self.entries.len() as u8);
        entries.push((number, child_of(alloc, version, child, root)?))?;
        Ok(Entries::from_vec(entries))
    }

    /// The entry that a branch of the version writes: that of its new child `child`, whose root is
    /// to stand at `root`. NoMemory: there was no memory for it.
    pub fn branch(
        &self,
        alloc: Global,
        version: VersionNo,
        child: &Name,
        root: Addr,
    ) -> Result<Entries, NoMemory>
        requires there { version.0 < length self.now }
        requires admitted { AdmitsChild Does.Branch self.now version.0 child.now }
        ensures entries { IfOk result (λ es. es ≡ branch_entries self.now version child.now root) }
        ensures sound { IfOk result (λ es. IsAddr root → IsName child.now → AreEntries es) }
        ensures made { IfOk result (λ es.
            MakesVersion Does.Branch self.now version.0 child.now es) }
    {
        let mut entries = Vec::new(alloc);
        let number = VersionNo(self.entries.len() as u8);
        entries.push((number, child_of(alloc, version, child, root)?))?;
        Ok(Entries::from_vec(entries))
    }
}

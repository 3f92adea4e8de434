ghost use Rattle.std.specs.Prelude.{◌≡◌};

use mn_base::{Addr, Name, NoMemory, TryCopy, VersionNo};
use std::alloc::Global;
use std::marker::Model;

/// A used entry of the catalog, which tells of one version.
#[derive(Debug, Drop)]
pub struct CatEntry {
    /// How often the entry was written: 1 for a new version.
    pub seq: u64,
    pub frozen: bool,
    pub parent: Option<VersionNo>,
    /// Where the root of its tree lies.
    pub root: Addr,
    pub name: Name,
}

impl TryCopy for CatEntry {
    fn try_copy(&self, alloc: Global) -> Result<Self, NoMemory> {
        Ok(CatEntry {
            seq: self.seq,
            frozen: self.frozen,
            parent: self.parent,
            root: self.root,
            name: self.name.try_copy(alloc)?,
        })
    }
}

/// Entries with the numbers of their versions. Contracts see them as a list.
#[derive(Debug, Drop)]
pub struct Entries {
    entries: Vec<(VersionNo, CatEntry)>,
}

impl Model for Entries {
    ghost use Rattle.std.specs.Prelude.{List};
    ghost use Rattle.mn_base.specs.declared.ids.VersionNo.{VersionNo};
    ghost use Rattle.mn_page.specs.declared.entry.CatEntry.{CatEntry};

    ghost Value = { List (VersionNo × CatEntry) };

    ghost view = { λ e. e.entries.items };
}

impl Entries {
    /// It takes no memory.
    pub fn from_vec(entries: Vec<(VersionNo, CatEntry)>) -> Self
        ensures { result ≡ entries.items }
    {
        Entries { entries }
    }

    pub fn into_vec(self) -> Vec<(VersionNo, CatEntry)>
        ensures { result.items ≡ self }
    {
        self.entries
    }

    pub fn as_slice(&self) -> &[(VersionNo, CatEntry)]
        ensures { result.now ≡ self.now }
    {
        &self.entries
    }
}

impl TryCopy for Entries {
    fn try_copy(&self, alloc: Global) -> Result<Self, NoMemory> {
        let mut entries = Vec::new(alloc);
        for (version, entry) in &self.entries {
            entries.push((*version, entry.try_copy(alloc)?))?;
        }
        Ok(Entries { entries })
    }
}

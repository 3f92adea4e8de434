ghost use Rattle.std.specs.Prelude.{◌≡◌, ◌<◌, IfErr, IfOk, OnOk, Some, length, map, slice_get};
ghost use Rattle.std.specs.Option.{option_map};
ghost use Rattle.mn_base.specs.Store.{listed, listing_of, refusal};
ghost use Rattle.mn_base.specs.Tree.{parents_of};
ghost use Rattle.mn_catalog.specs.Grammar.{IsCatalog};
ghost use Rattle.mn_page.specs.Forest.{entry_head, heads_in};
ghost use Rattle.mn_page.specs.Grammar.{entry_bytes};
ghost use Rattle.mn_work.specs.Catalogs.{HasParentsBelow, RefusesTree, TellsVersions};
ghost use Rattle.mn_work.specs.Catalogs.{found, name_in, parent_in, root_named};

use mn_base::{Addr, Listing, Name, NoMemory, Op, Reply, TryCopy, Version, VersionNo};
use mn_catalog::{CatError, Catalog};
use mn_mini::SharedBytes;
use mn_page::CatEntry;
use mn_txn::{SpelledEntry, entry_bytes};
use mn_vtree::{TreeError, VersionTree};
use std::alloc::Global;
use std::marker::Model;

/// A catalog with the tree of its versions, and with the bytes of each entry: they are spelled once
/// for all plans that compare them.
#[derive(Drop)]
pub struct Kept {
    catalog: Catalog,
    tree: VersionTree,
    spelled: Vec<SharedBytes>,
}

impl Model for Kept {
    ghost use Rattle.std.specs.Prelude.{◌≡◌, List, map};
    ghost use Rattle.mn_base.specs.Tree.{parents_of};
    ghost use Rattle.mn_page.specs.Forest.{heads_in};
    ghost use Rattle.mn_page.specs.Grammar.{entry_bytes};
    ghost use Rattle.mn_page.specs.declared.entry.CatEntry.{CatEntry};

    ghost Value = { List CatEntry };

    ghost view = { λ k. k.catalog };

    ghost invariant = { λ k. (k.tree ≡ parents_of (heads_in k.catalog))
        × (k.spelled.items ≡ map entry_bytes k.catalog) };
}

/// The tree of the versions of a catalog. BadParent: a parent has no lower number than its child.
pub fn tree_of(alloc: Global, catalog: &Catalog) -> Result<VersionTree, TreeError>
    ensures tree { IfOk result (λ tree. tree ≡ parents_of (heads_in catalog.now)) }
    ensures below { OnOk result (HasParentsBelow catalog.now) }
    ensures refused { IfErr result (RefusesTree catalog.now) }
{
    let mut parents = Vec::new(alloc);
    for entry in catalog.entries() {
        if parents.push(entry.parent).is_err() {
            return Err(TreeError::NoMemory);
        }
    }
    VersionTree::new(alloc, &parents)
}

/// The bytes of each entry of a catalog.
fn spelled_of(alloc: Global, catalog: &Catalog) -> Result<Vec<SharedBytes>, NoMemory>
    ensures { IfOk result (λ spelled. spelled.items ≡ map entry_bytes catalog.now) }
{
    let entries = catalog.entries();
    let mut spelled = Vec::with_capacity(alloc, entries.len())?;
    for entry in entries {
        spelled.push(entry_bytes(alloc, entry)?)?;
    }
    Ok(spelled)
}

/// The catalog that the bytes spell, with parents below their children, or none. NoMemory: there
/// was no memory for it.
pub fn kept_of(alloc: Global, bytes: &SharedBytes) -> Result<Option<Kept>, NoMemory>
    ensures { IfOk result (TellsVersions bytes.now) }
{
    let catalog = match Catalog::read_padded(alloc, &bytes.padded()) {
        Ok(catalog) => catalog,
        Err(CatError::BadCatalog { .. }) => return Ok(None),
        Err(CatError::NoMemory) => return Err(NoMemory),
    };
    match tree_of(alloc, &catalog) {
        Ok(tree) => {
            let spelled = spelled_of(alloc, &catalog)?;
            Ok(Some(Kept {
                catalog,
                tree,
                spelled,
            }))
        }
        Err(TreeError::BadParent { .. }) => Ok(None),
        Err(TreeError::NoMemory) => Err(NoMemory),
    }
}

/// The name of the version of a number, if there is one.
fn name_at(entries: &[CatEntry], at: usize) -> Option<&Name>
    ensures { option_map (λ n. n.now) result ≡ name_in (heads_in entries.now) at }
{
    if at < entries.len() {
        Some(&entries[at].name)
    } else {
        None
    }
}

/// The name of a version's parent.
fn parent_name(entries: &[CatEntry], parent: Option<VersionNo>) -> Option<&Name>
    ensures { option_map (λ n. n.now) result ≡ parent_in (heads_in entries.now) parent }
{
    match parent {
        Some(number) => name_at(entries, usize::from(number.0)),
        None => None,
    }
}

fn copy_of_name(alloc: Global, name: Option<&Name>) -> Result<Option<Name>, NoMemory>
    ensures { IfOk result (λ copy. copy ≡ option_map (λ n. n.now) name.entry) }
{
    match name {
        Some(name) => Ok(Some(name.try_copy(alloc)?)),
        None => Ok(None),
    }
}

/// A version as it is listed.
fn listed_of(alloc: Global, entries: &[CatEntry], entry: &CatEntry) -> Result<Version, NoMemory>
    ensures { IfOk result (λ line. line ≡ listed (heads_in entries.now) (entry_head entry.now)) }
{
    Ok(Version {
        name: entry.name.try_copy(alloc)?,
        parent: copy_of_name(alloc, parent_name(entries, entry.parent))?,
        frozen: entry.frozen,
    })
}

impl Kept {
    /// Its entries are those of a catalog. It does nothing.
    pub fn has_entries(&self)
        ensures { IsCatalog self.now }
    {
        self.catalog.entries();
    }

    /// Its catalog.
    pub fn catalog(&self) -> &Catalog
        ensures { result.now ≡ self.now }
    {
        &self.catalog
    }

    /// The entry of a version, with its bytes.
    pub fn entry(&self, version: VersionNo) -> SpelledEntry<'_>
        requires { version.0 < length self.now }
        ensures { slice_get self.now version.0 ≡ Some result }
    {
        let at = usize::from(version.0);
        SpelledEntry::new(&self.catalog.entries()[at], &self.spelled[at])
    }

    /// The tree of its versions.
    pub fn tree(&self) -> &VersionTree
        ensures { result.now ≡ parents_of (heads_in self.now) }
    {
        &self.tree
    }

    /// The reply by which it refuses an operation.
    pub fn admit(&self, op: &Op) -> Option<Reply>
        ensures { result ≡ refusal (heads_in self.now) op.now }
    {
        self.catalog.admit(op)
    }

    /// The number of the version of this name, and where its root stands.
    pub fn root_of(&self, name: &Name) -> Option<(VersionNo, Addr)>
        ensures { option_map found result ≡ root_named self.now name.now }
    {
        let version = self.catalog.find(name)?;
        Some((version, self.catalog.entries()[usize::from(version.0)].root))
    }

    /// The tree of its versions once more.
    pub fn copy_tree(&self, alloc: Global) -> Result<VersionTree, NoMemory>
        ensures { IfOk result (λ tree. tree ≡ parents_of (heads_in self.now)) }
    {
        self.tree.try_copy(alloc)
    }
}

/// The versions of a catalog as they are listed.
pub fn listing_of(alloc: Global, kept: &Kept) -> Result<Listing, NoMemory>
    ensures { IfOk result (λ listing. listing ≡ listing_of (heads_in kept.now)) }
{
    let entries = kept.catalog.entries();
    let mut versions = Vec::new(alloc);
    for entry in entries {
        versions.push(listed_of(alloc, entries, entry)?)?;
    }
    Ok(Listing::from_vec(versions))
}

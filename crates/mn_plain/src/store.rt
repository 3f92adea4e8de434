ghost use Rattle.std.specs.Prelude.{◌≡◌, ◌<◌, ◌&&◌, [], ◌∷◌, ◌++◌, not, length, IfOk, IfNone};
ghost use Rattle.std.specs.Prelude.{IsTrue, OnOk, OnErr};
ghost use Rattle.std.specs.Prelude.{IsSomeAnd, slice_get, option_map, option_and_then};
ghost use Rattle.std.specs.List.{AllByRecursion};
ghost use Rattle.mn_base.specs.Store.{applied, empty_store, main_store, heads_of, is_ascending};
ghost use Rattle.mn_base.specs.Store.{listed, listing_of, child_refusal, max_versions};
ghost use Rattle.mn_base.specs.Stores.{IsStore};
ghost use Rattle.mn_plain.specs.Run.{Does, is_unmet_reply, pairs_after};
ghost use Rattle.mn_plain.specs.Digest.{pairs_digest};
ghost use Rattle.mn_plain.specs.Kept.{version_of, store_of, held_head, HasTwin, IsPlace};
ghost use Rattle.mn_plain.specs.Table.{shown};

use crate::digest::digest_of;
use crate::steps::reply_to;
use crate::table::{Table, count_of, of_pairs, pairs_of, within};
use crate::version::{Held, Kept, Place};
use crate::versions::Versions;
use mn_base::{Key, Listing, Name, NoMemory, Op, Pairs, Reply, Steps, TryCopy, Version, VersionNo};
use std::alloc::Global;
use std::marker::Model;

/// The most versions of a store.
pub const MAX_VERSIONS: usize = 64;

/// The versions in order of number, each with its pairs in order of key: a tree of versions with
/// names that differ. Contracts see the list that the rules of the store speak of.
#[derive(Debug, Drop)]
pub struct Store {
    versions: Versions,
}

impl Model for Store {
    ghost use Rattle.std.specs.Prelude.{List};
    ghost use Rattle.mn_base.specs.Store.{StoreVersion};
    ghost use Rattle.mn_base.specs.Stores.{IsStore};

    ghost Value = { List StoreVersion };

    ghost view = { λ s. s.versions };

    ghost invariant = { λ s. IsStore s.versions };
}

/// Where the version of this name stands.
fn place_of(versions: &Versions, name: &Name) -> Option<Place>
    ensures { IsPlace versions.now name.now result }
{
    for at in 0..versions.len() {
        let version = versions.at(at);
        if version.name.as_slice() == name.as_slice() {
            return Some(Place {
                at,
                frozen: version.frozen,
            });
        }
    }
    None
}

/// The name of a version.
fn name_at(versions: &Versions, at: usize) -> Option<&Name>
    ensures { option_map (λ n. n.now) result
        ≡ option_map (λ p. p.name) (slice_get (heads_of versions.now) at) }
{
    if at < versions.len() {
        Some(&versions.at(at).name)
    } else {
        None
    }
}

/// The name of a version's parent.
fn parent_name(versions: &Versions, parent: Option<VersionNo>) -> Option<&Name>
    ensures { option_map (λ n. n.now) result
        ≡ option_and_then (λ n. option_map (λ p. p.name)
        (slice_get (heads_of versions.now) n)) (option_map (λ n. n.0) parent) }
{
    match parent {
        Some(number) => name_at(versions, usize::from(number.0)),
        None => None,
    }
}

fn copy_of_name(alloc: Global, name: Option<&Name>) -> Result<Option<Name>, NoMemory>
    ensures { IfOk result (λ copy. copy ≡ option_map (λ n. n.now) name.entry) }
{
    match name {
        Some(name) => Ok(Some(name.try_copy(alloc)?)),
        None => Ok(None),
    }
}

/// What a listing says of a version among these.
fn listed_of(alloc: Global, versions: &Versions, version: &Held) -> Result<Version, NoMemory>
    ensures { IfOk result (λ line. line
        ≡ listed (heads_of versions.now) (held_head version.now)) }
{
    Ok(Version {
        name: version.name.try_copy(alloc)?,
        parent: copy_of_name(alloc, parent_name(versions, version.parent))?,
        frozen: version.frozen,
    })
}

/// Whether a transaction is refused there, which changes pairs or not.
fn is_shut(place: Place, change: bool) -> bool
    ensures { result ≡ (place.frozen && change) }
{
    place.frozen && change
}

/// Whether a transaction with this reply leaves all pairs, which holds a change or not.
fn is_without_effect(reply: &Reply, change: bool) -> bool
    ensures { result ≡ not (change && not (is_unmet_reply reply.now)) }
{
    match reply {
        Reply::Unmet { .. } => true,
        _ => !change,
    }
}

/// Adds a version. Its pairs stand in order of key.
fn push_kept(alloc: Global, versions: &mut Versions, version: Kept) -> Result<(), NoMemory>
    requires { IsTrue (is_ascending version.pairs) }
    ensures { OnOk result (versions.new ≡ versions.old ++ version_of version ∷ []) }
{
    let Kept {
        name,
        parent,
        frozen,
        pairs,
    } = version;
    let table = of_pairs(alloc, pairs.into_vec())?;
    versions.push(name, parent, frozen, table)
}

/// The versions as the store holds them. The pairs of each stand in order of key.
fn all_held(alloc: Global, versions: Vec<Kept>) -> Result<Versions, NoMemory>
    requires { AllByRecursion (λ v. IsTrue (is_ascending v.pairs)) (store_of versions.items) }
    ensures { IfOk result (λ held. held ≡ store_of versions.items) }
{
    let mut held = Versions::new(alloc);
    for version in versions {
        push_kept(alloc, &mut held, version)?;
    }
    Ok(held)
}

impl Store {
    /// The store as it begins: one writable version, number 0, named `main`, without a parent and
    /// without pairs. NoMemory: there was no memory for it.
    pub fn new(alloc: Global) -> Result<Self, NoMemory>
        ensures { IfOk result (λ store. store ≡ empty_store) }
    {
        Store::with_main(alloc, Pairs::from_vec(Vec::new(alloc)))
    }

    /// The store whose one version is the writable `main` with these pairs, which stand in order of
    /// key. NoMemory: there was no memory for it.
    pub fn with_main(alloc: Global, pairs: Pairs) -> Result<Self, NoMemory>
        requires { IsTrue (is_ascending pairs) }
        ensures { IfOk result (λ store. store ≡ main_store pairs) }
    {
        let Ok(name) = Name::new(alloc, b"main") else {
            return Err(NoMemory);
        };
        let mut versions = Versions::new(alloc);
        versions.push(name, None, false, of_pairs(alloc, pairs.into_vec())?)?;
        Ok(Store { versions })
    }

    /// The store of these versions, in order of number: a tree of at most 64 versions with names
    /// that differ, each with its pairs in order of key. NoMemory: there was no memory for it.
    pub fn of_versions(alloc: Global, versions: Vec<Kept>) -> Result<Self, NoMemory>
        requires { IsStore (store_of versions.items) }
        ensures { IfOk result (λ store. store ≡ store_of versions.items) }
    {
        Ok(Store {
            versions: all_held(alloc, versions)?,
        })
    }

    /// Does the operation and replies to it. After a refusing reply or an unmet Check the store is
    /// as it was. NoMemory: there was no memory for the operation or its reply; the store is as it
    /// was.
    pub fn apply(&mut self, alloc: Global, op: &Op) -> Result<Reply, NoMemory>
        ensures reply { IfOk result (λ reply. reply ≡ (applied self.old op.now).reply) }
        ensures store { OnOk result (self.new ≡ (applied self.old op.now).store) }
        ensures kept { OnErr result (self.new ≡ self.old) }
    {
        match op {
            Op::Tx { version, steps } => self.run(alloc, version, steps),
            Op::Snapshot { version, child } => self.snapshot(alloc, version, child),
            Op::Branch { version, child } => self.branch(alloc, version, child),
            Op::Scan {
                version,
                low,
                high,
                limit,
            } => self.scan(alloc, version, low, high, *limit),
            Op::Versions => Ok(Reply::Listing {
                versions: self.listing(alloc)?,
            }),
        }
    }

    /// Where the version of this name stands.
    fn find(&self, name: &Name) -> Option<Place>
        ensures { IsPlace self.now name.now result }
    {
        place_of(&self.versions, name)
    }

    /// The pairs of a version.
    fn table_at(&self, at: usize) -> &Table
        requires { at < length self.now }
        ensures { IsSomeAnd (slice_get self.now at)
            (λ kept. shown result.now.entries ≡ kept.pairs) }
    {
        self.versions.table(at)
    }

    /// Why no version of this name can be made.
    fn child_refusal(&self, child: &Name) -> Option<Reply>
        ensures refused { result ≡ child_refusal (heads_of self.now) child.now }
        ensures room { IfNone result (length self.now < max_versions) }
    {
        if self.find(child).is_some() {
            return Some(Reply::NameTaken);
        }
        if self.versions.len() >= MAX_VERSIONS {
            return Some(Reply::VersionsFull);
        }
        None
    }

    fn run(&mut self, alloc: Global, version: &Name, steps: &Steps) -> Result<Reply, NoMemory>
        ensures { Does (Op.Tx version.now steps.now) self.old self.new result }
    {
        let Some(place) = self.find(version) else {
            return Ok(Reply::NoVersion);
        };
        let change = steps.has_change();
        if is_shut(place, change) {
            return Ok(Reply::Frozen);
        }
        let reply = reply_to(alloc, self.table_at(place.at), steps.as_slice())?;
        if is_without_effect(&reply, change) {
            return Ok(reply);
        }
        self.versions.take(alloc, place.at, steps)?;
        Ok(reply)
    }

    fn snapshot(&mut self, alloc: Global, version: &Name, child: &Name) -> Result<Reply, NoMemory>
        ensures { Does (Op.Snapshot version.now child.now) self.old self.new result }
    {
        let Some(place) = self.find(version) else {
            return Ok(Reply::NoVersion);
        };
        if place.frozen {
            return Ok(Reply::Frozen);
        }
        if let Some(refusal) = self.child_refusal(child) {
            return Ok(refusal);
        }
        self.versions.push_child(alloc, place.at, child)?;
        self.versions.freeze(place.at);
        Ok(Reply::Made)
    }

    fn branch(&mut self, alloc: Global, version: &Name, child: &Name) -> Result<Reply, NoMemory>
        ensures { Does (Op.Branch version.now child.now) self.old self.new result }
    {
        let Some(place) = self.find(version) else {
            return Ok(Reply::NoVersion);
        };
        if !place.frozen {
            return Ok(Reply::NotFrozen);
        }
        if let Some(refusal) = self.child_refusal(child) {
            return Ok(refusal);
        }
        self.versions.push_child(alloc, place.at, child)?;
        Ok(Reply::Made)
    }

    fn scan(
        &self,
        alloc: Global,
        version: &Name,
        low: &Option<Key>,
        high: &Option<Key>,
        limit: u32,
    ) -> Result<Reply, NoMemory>
        ensures { Does (Op.Scan version.now low.now high.now limit) self.now self.now result }
    {
        let Some(place) = self.find(version) else {
            return Ok(Reply::NoVersion);
        };
        if !place.frozen {
            return Ok(Reply::NotFrozen);
        }
        let found = within(alloc, self.table_at(place.at), low, high, limit)?;
        Ok(Reply::Pairs {
            pairs: Pairs::from_vec(found),
        })
    }

    /// Every version in order of number. NoMemory: there was no memory for the list.
    pub fn listing(&self, alloc: Global) -> Result<Listing, NoMemory>
        ensures { IfOk result (λ listing. listing ≡ listing_of (heads_of self.now)) }
    {
        let versions = &self.versions;
        let mut lines = Vec::with_capacity(alloc, versions.len())?;
        for at in 0..versions.len() {
            lines.push(listed_of(alloc, versions, versions.at(at))?)?;
        }
        Ok(Listing::from_vec(lines))
    }

    /// The pairs of a version that is there, in order of key. NoMemory: there was no memory for
    /// them.
    pub fn pairs(&self, alloc: Global, version: VersionNo) -> Result<Pairs, NoMemory>
        requires { version.0 < length self.now }
        ensures pairs { IfOk result (λ pairs.
            IsSomeAnd (slice_get self.now version.0) (λ kept. pairs ≡ kept.pairs)) }
        ensures ascend { IfOk result (λ pairs. IsTrue (is_ascending pairs)) }
    {
        let pairs = pairs_of(alloc, self.table_at(usize::from(version.0)))?;
        Ok(Pairs::from_vec(pairs))
    }

    /// The first version that shares its pairs with one that is there, if it stands before it: what
    /// is told of its pairs need not be found again.
    pub fn twin(&self, version: VersionNo) -> Option<VersionNo>
        requires { version.0 < length self.now }
        ensures { HasTwin self.now version.0 (option_map (λ v. v.0) result) }
    {
        let at = self.versions.twin(usize::from(version.0))?;
        Some(VersionNo(at as u8))
    }

    /// How many pairs a version has that is there.
    pub fn count(&self, version: VersionNo) -> usize
        requires { version.0 < length self.now }
        ensures { IsSomeAnd (slice_get self.now version.0)
            (λ kept. result ≡ length kept.pairs) }
    {
        count_of(self.table_at(usize::from(version.0)))
    }

    /// The SHA-256 of the pairs of a version that is there: for each pair in order of key the key's
    /// length (1 byte), the key, the value's length (1 byte), the value. NoMemory: there was no
    /// memory for these bytes.
    pub fn digest(&self, alloc: Global, version: VersionNo) -> Result<[u8; 32], NoMemory>
        requires { version.0 < length self.now }
        ensures { IfOk result (λ digest.
            IsSomeAnd (slice_get self.now version.0) (λ kept. digest ≡ pairs_digest kept.pairs)) }
    {
        digest_of(alloc, self.pairs(alloc, version)?.as_slice())
    }
}

impl TryCopy for Store {
    fn try_copy(&self, alloc: Global) -> Result<Self, NoMemory> {
        Ok(Store {
            versions: self.versions.try_copy(alloc)?,
        })
    }
}

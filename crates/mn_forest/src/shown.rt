ghost use Rattle.std.specs.Prelude.{◌≡◌, ◌++◌, length, IfOk, OnOk};
ghost use Rattle.std.specs.List.{AllByRecursion};
ghost use Rattle.mn_base.specs.Stores.{IsStore};
ghost use Rattle.mn_mini.specs.Mini.{space_size};
ghost use Rattle.mn_page.specs.Holds.{PagesAt, pairs_in};
ghost use Rattle.mn_plain.specs.Kept.{version_of, store_of};
ghost use Rattle.mn_forest.specs.Rules.{entries_of};
ghost use Rattle.mn_forest.specs.Shown.{ArePages, pairs_below, height_there, version_shown};
ghost use Rattle.mn_forest.specs.Shown.{store_shown};

use crate::pages::child_count;
use crate::place::page_at;
use mn_base::{Addr, NoMemory, Pair, Pairs, TryCopy};
use mn_page::{Body, CatEntry, Page, PageRef};
use mn_plain::{Kept, Store};
use mn_space::NodeSpace;
use std::alloc::Global;

/// Adds the pairs of a leaf.
fn take_leaf(alloc: Global, page: &PageRef<'_>, pairs: &mut Vec<Pair>) -> Result<(), NoMemory>
    ensures { OnOk result (pairs.new.items ≡ pairs.old.items ++ pairs_in page.now.body) }
{
    let Page { body, .. } = page.to_page(alloc)?;
    match body {
        Body::Leaf { pairs: found } => {
            let mut found = found.into_vec();
            pairs.append(&mut found)?;
            Ok(())
        }
        Body::Inner { .. } => Ok(()),
    }
}

/// Adds the pairs of the leaves so many heights below a page, in order.
fn take_pairs(
    alloc: Global,
    spaces: &[NodeSpace],
    addr: Addr,
    height: u16,
    pairs: &mut Vec<Pair>,
) -> Result<(), NoMemory>
    requires { AllByRecursion (λ space. length space ≡ space_size) spaces.now }
    ensures { (at : PagesAt) → ArePages spaces.now at
        → OnOk result (pairs.new.items ≡ pairs.old.items ++ pairs_below at height addr) }
{
    let page = match page_at(spaces, addr) {
        Some(page) => page,
        None => return Ok(()),
    };
    if height == 0 {
        take_leaf(alloc, &page, pairs)?;
        return Ok(());
    }
    for i in 0..child_count(&page) {
        take_pairs(alloc, spaces, page.child(i), height - 1, pairs)?;
    }
    Ok(())
}

/// The height of the page at the address; 0 where there is none.
fn height_at(spaces: &[NodeSpace], addr: Addr) -> u16
    requires { AllByRecursion (λ space. length space ≡ space_size) spaces.now }
    ensures { (at : PagesAt) → ArePages spaces.now at → result ≡ height_there at addr }
{
    match page_at(spaces, addr) {
        Some(page) => page.height(),
        None => 0,
    }
}

/// A version with its pairs, from its entry.
fn version_of(alloc: Global, spaces: &[NodeSpace], entry: &CatEntry) -> Result<Kept, NoMemory>
    requires { AllByRecursion (λ space. length space ≡ space_size) spaces.now }
    ensures { (at : PagesAt) → ArePages spaces.now at
        → IfOk result (λ kept. version_of kept ≡ version_shown at entry.now) }
{
    let mut pairs = Vec::new(alloc);
    let height = height_at(spaces, entry.root);
    take_pairs(alloc, spaces, entry.root, height, &mut pairs)?;
    let name = entry.name.try_copy(alloc)?;
    Ok(Kept {
        name,
        parent: entry.parent,
        frozen: entry.frozen,
        pairs: Pairs::from_vec(pairs),
    })
}

/// Adds the versions of these entries, up to the first place without one.
fn take_versions(
    alloc: Global,
    spaces: &[NodeSpace],
    entries: &[Option<CatEntry>],
    versions: &mut Vec<Kept>,
) -> Result<(), NoMemory>
    requires { AllByRecursion (λ space. length space ≡ space_size) spaces.now }
    ensures { (at : PagesAt) → ArePages spaces.now at
        → OnOk result (store_of versions.new.items
        ≡ store_of versions.old.items ++ store_shown at (entries_of entries.now)) }
{
    for entry in entries {
        match entry {
            Some(entry) => versions.push(version_of(alloc, spaces, entry)?)?,
            None => return Ok(()),
        }
    }
    Ok(())
}

/// The store of these entries, up to the first place without one, where the pages that stand in the
/// spaces show one.
pub fn store_in(
    alloc: Global,
    spaces: &[NodeSpace],
    entries: &[Option<CatEntry>],
) -> Result<Store, NoMemory>
    requires whole { AllByRecursion (λ space. length space ≡ space_size) spaces.now }
    requires shows { (at : PagesAt) × ArePages spaces.now at
        × IsStore (store_shown at (entries_of entries.now)) }
    ensures { (at : PagesAt) → ArePages spaces.now at
        → IfOk result (λ store. store ≡ store_shown at (entries_of entries.now)) }
{
    let mut versions = Vec::new(alloc);
    take_versions(alloc, spaces, entries, &mut versions)?;
    Store::of_versions(alloc, versions)
}

ghost use Rattle.std.specs.Prelude.{◌≡◌, IfOk, OnOk, Some};
ghost use Rattle.mn_page.specs.Holds.{page_covers};
ghost use Rattle.mn_tree.specs.Walk.{helds, is_met, walk};
ghost use Rattle.mn_tree.specs.Way.{may_follow, CameTo};
ghost use Rattle.mn_tree.specs.Found.{Ended, IsFound};

use crate::held::HeldPage;
use crate::held_pages::HeldPages;
use crate::way::Way;
use mn_base::{Addr, Key, NoMemory, VersionNo};
use mn_fence::covers;
use mn_page::Page;
use mn_path::{height, is_one_below};
use mn_vtree::VersionTree;
use std::alloc::Global;

/// Where a walk ended, to which its way has come.
#[derive(Clone, Copy)]
pub enum Walked {
    /// Before a page that isn't there.
    Missing,
    /// At a page that doesn't serve the version, doesn't cover the key or isn't one height below.
    Wrong,
    /// At the leaf. The pages that were passed lead up to the root.
    Reached,
}

/// What stands where a walk goes on.
#[derive(Drop)]
pub enum Found<'a> {
    Missing,
    Wrong,
    Leaf { held: &'a HeldPage },
    Inner { held: &'a HeldPage },
}

/// Whether the key lies within the fences of the page.
pub fn is_within(page: &Page, key: &Key) -> bool
    ensures { result ≡ page_covers key.now page.now }
{
    let high = match &page.high {
        Some(high) => Some(high.as_slice()),
        None => None,
    };
    covers(page.low.as_slice(), high, key.as_slice())
}

/// Whether a walk for the key may meet the page: it serves the version and covers the key.
#[tactic(auto, unfolding(crate::specs::Walk::is_live))]
fn may_meet(tree: &VersionTree, version: VersionNo, page: &Page, key: &Key) -> bool
    ensures { result ≡ is_met tree.now version.0 key.now page.now }
{
    tree.serves(page.made, page.copied, version) && is_within(page, key)
}

/// Whether a walk goes on at a page, where the page that names it is of height `above`.
fn may_follow(
    tree: &VersionTree,
    version: VersionNo,
    page: &Page,
    above: Option<u16>,
    key: &Key,
) -> bool
    ensures { result ≡ may_follow tree.now version.0 key.now above page.now }
{
    is_one_below(above, height(&page.body)) && may_meet(tree, version, page, key)
}

/// What stands where a walk goes on.
fn look<'a>(
    tree: &VersionTree,
    version: VersionNo,
    pages: &'a HeldPages,
    way: &Way,
    key: &Key,
) -> Found<'a>
    ensures { IsFound tree.now version.0 (helds pages.now.items) key.now way.now result }
{
    let Some(held) = pages.get(way.next) else {
        return Found::Missing;
    };
    let page = held.page.get();
    if !may_follow(tree, version, page, way.above, key) {
        return Found::Wrong;
    }
    if height(&page.body) == 0 {
        return Found::Leaf { held };
    }
    Found::Inner { held }
}

/// The walk from the root to the leaf of a key, by pages that serve the version. It goes on where
/// an earlier one of the same key has come to.
pub fn walk_to(
    alloc: Global,
    tree: &VersionTree,
    version: VersionNo,
    pages: &HeldPages,
    root: Addr,
    way: &mut Way,
    key: &Key,
) -> Result<Walked, NoMemory>
    requires { CameTo tree.now version.0 root (helds pages.now.items) way.old }
    ensures walk { IfOk result (Ended (helds pages.now.items) way.new
        (walk tree.now version.0 (helds pages.now.items) root key.now)) }
    ensures key { OnOk result (way.new.key ≡ Some key.now) }
    ensures came { CameTo tree.now version.0 root (helds pages.now.items) way.new }
{
    way.begin(alloc, root, key)?;
    loop {
        match look(tree, version, pages, way, key) {
            Found::Missing => return Ok(Walked::Missing),
            Found::Wrong => return Ok(Walked::Wrong),
            Found::Leaf { .. } => return Ok(Walked::Reached),
            Found::Inner { held } => way.pass(held)?,
        }
    }
}

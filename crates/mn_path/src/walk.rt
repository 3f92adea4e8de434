ghost use Rattle.std.specs.Prelude.{◌≡◌};
ghost use Rattle.std.specs.Option.{option_map};
ghost use Rattle.mn_page.specs.Grammar.{height_of};
ghost use Rattle.mn_path.specs.Walk.{child_from, front_of, is_below, is_live, is_on_path};
ghost use Rattle.mn_path.specs.Walk.{may_stand};

use mn_base::{Addr, VersionNo, key_precedes};
use mn_fence::covers;
use mn_page::{Body, Child, Page, PageRef};
use mn_vtree::VersionTree;
use std::marker::Model;

/// The greatest height of a page.
pub const MAX_HEIGHT: u16 = 14;

/// What a walk asks of a page before it goes on there, lent from the page.
#[derive(Drop)]
pub struct Front<'a> {
    pub made: VersionNo,
    pub copied: u64,
    pub height: u16,
    pub low: &'a [u8],
    pub high: Option<&'a [u8]>,
}

impl<'a> Model for Front<'a> {
    ghost use Rattle.std.specs.Option.{option_map};
    ghost use Rattle.mn_path.specs.Walk.{FrontState};

    ghost Value = { FrontState };

    ghost view = { λ f. record {
      made = f.made;
      copied = f.copied;
      height = f.height;
      low = f.low.now;
      high = option_map (λ h. h.now) f.high;
    } };
}

/// The height of a page with this body; that of a leaf is 0.
pub fn height(body: &Body) -> u16
    ensures { result ≡ height_of body.now }
{
    match body {
        Body::Leaf { .. } => 0,
        Body::Inner { height, .. } => *height,
    }
}

/// Whether a page of this height may stand below the page that names it, which is of height
/// `above`. A root may have any height.
pub fn is_one_below(above: Option<u16>, height: u16) -> bool
    ensures { result ≡ is_below above height }
{
    match above {
        Some(above) => u32::from(height) + 1 == u32::from(above),
        None => true,
    }
}

/// Whether a page of this height may stand below the page that names it, and isn't too high.
fn may_stand(above: Option<u16>, height: u16) -> bool
    ensures { result ≡ may_stand above height }
{
    is_one_below(above, height) && height <= MAX_HEIGHT
}

/// Whether a page that was made in this version and copied for those serves the version.
#[tactic(auto, unfolding(crate::specs::Walk::is_live))]
fn is_live(tree: &VersionTree, version: VersionNo, made: VersionNo, copied: u64) -> bool
    ensures { result ≡ is_live tree.now version.0 made.0 copied }
{
    tree.serves(made, copied, version)
}

impl<'a> Front<'a> {
    /// That of a page.
    pub fn of_page(page: &'a Page) -> Front<'a>
        ensures { result ≡ front_of page.now }
    {
        let high = match &page.high {
            Some(high) => Some(high.as_slice()),
            None => None,
        };
        Front {
            made: page.made,
            copied: page.copied,
            height: height(&page.body),
            low: page.low.as_slice(),
            high,
        }
    }

    /// That of a page as it stands in its bytes.
    pub fn of_ref(page: &PageRef<'a>) -> Front<'a>
        ensures { result ≡ front_of page.now }
    {
        Front {
            made: page.made(),
            copied: page.copied(),
            height: page.height(),
            low: page.low(),
            high: page.high(),
        }
    }

    /// Whether a walk for the key goes on at the page: it serves the version, covers the key, is
    /// one height below the page that names it, whose height is `above` (none for a root), and
    /// isn't higher than 14.
    pub fn is_on_path(
        &self,
        tree: &VersionTree,
        version: VersionNo,
        key: &[u8],
        above: Option<u16>,
    ) -> bool
        ensures { result ≡ is_on_path tree.now version.0 key.now above self.now }
    {
        is_live(tree, version, self.made, self.copied)
            && covers(self.low, self.high, key)
            && may_stand(above, self.height)
    }
}

/// Among the children of a page, the one that a key goes to: the last one whose separator, and each
/// before it, isn't above the key.
pub fn child_for(first: Addr, rest: &[Child], key: &[u8]) -> Addr
    ensures { result ≡ child_from first rest.now key.now }
{
    let mut found = first;
    for child in rest {
        if key_precedes(key, child.separator.as_slice()) {
            return found;
        }
        found = child.addr;
    }
    found
}

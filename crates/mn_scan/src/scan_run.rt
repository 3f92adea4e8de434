ghost use Rattle.std.specs.Prelude.{◌≡◌, true, false, [], IfOk, IfErr, OnOk, OnErr, IsTrue, length};
ghost use Rattle.std.specs.Prelude.{MatchBool};
ghost use Rattle.std.specs.Prelude.{nat_le, unwrap_or};
ghost use Rattle.std.specs.Option.{option_map};
ghost use Rattle.mn_base.specs.Order.{covers_key};
ghost use Rattle.mn_base.specs.Store.{pairs_within};
ghost use Rattle.mn_scan.specs.Scan.{new_scan, step_of, key_at, may_be_leaf, IsNeeded, fits};
ghost use Rattle.mn_scan.specs.Scan.{restarted, is_end, gathered, fed, leaf_taken, with_pairs};
ghost use Rattle.mn_scan.specs.Scan.{IsInTurn, RefusesPage};

use crate::{ScanError, ScanStep};
use mn_base::{Addr, Key, NoMemory, Pair, Pairs, TryCopy, VersionNo, key_precedes};
use mn_fence::covers;
use mn_page::{Body, Page, SharedPage};
use mn_path::{Front, child_for};
use mn_vtree::VersionTree;
use std::alloc::Global;
use std::marker::Model;

/// The bytes of a bound; the empty key is the least.
fn bytes_of(bound: &Option<Key>) -> &[u8]
    ensures { result.now ≡ unwrap_or bound.now [] }
{
    match bound {
        Some(key) => key.as_slice(),
        None => &[],
    }
}

/// The bytes of an upper bound, if there is one.
fn upper_of(bound: &Option<Key>) -> Option<&[u8]>
    ensures { option_map (λ b. b.now) result ≡ bound.now }
{
    match bound {
        Some(key) => Some(key.as_slice()),
        None => None,
    }
}

/// Whether the key lies within the bounds.
fn is_within(key: &Key, low: &Option<Key>, high: &Option<Key>) -> bool
    ensures { result ≡ covers_key (unwrap_or low.now []) high.now key.now }
{
    covers(bytes_of(low), upper_of(high), key.as_slice())
}

/// Those of the pairs that lie within the bounds.
fn within(pairs: Pairs, low: &Option<Key>, high: &Option<Key>) -> Vec<Pair>
    ensures { result.items ≡ pairs_within pairs low.now high.now }
{
    let mut found = pairs.into_vec();
    found.retain(|pair| is_within(&pair.key, low, high));
    found
}

/// Whether a leaf with this high fence is the last one of the bound.
fn is_last(bound: &Option<Key>, fence: &Option<Key>) -> bool
    ensures { result ≡ is_end bound.now fence.now }
{
    match (fence, bound) {
        (None, _) => true,
        (Some(_), None) => false,
        (Some(fence), Some(bound)) => !key_precedes(fence.as_slice(), bound.as_slice()),
    }
}

/// A scan on its way through the leaves of a frozen version. It stands at a key, walks from the
/// root to the leaf that covers it, takes that leaf's pairs, and goes on at the leaf's high fence
/// (Minuet, PVLDB 2012).
#[derive(Debug)]
pub struct ScanRun {
    tree: VersionTree,
    version: VersionNo,
    root: Addr,
    low: Option<Key>,
    high: Option<Key>,
    limit: u32,
    /// The key at which it stands, none for the least.
    at: Option<Key>,
    /// The page that it needs next.
    needed: Addr,
    /// The height of the page that names it; the root is named by none.
    above: Option<u16>,
    /// Whether it took a leaf.
    began: bool,
    ended: bool,
    pairs: Vec<Pair>,
}

/// It is let go by a call, which is proved once, and not in place wherever one goes.
impl Drop for ScanRun {
    fn drop(self) {
        let ScanRun {
            tree,
            version: _version,
            root: _root,
            low,
            high,
            limit: _limit,
            at,
            needed: _needed,
            above: _above,
            began: _began,
            ended: _ended,
            pairs,
        } = self;
        drop(tree);
        drop(low);
        drop(high);
        drop(at);
        drop(pairs);
    }
}

impl Model for ScanRun {
    ghost use Rattle.mn_scan.specs.Scan.{ScanState};

    ghost Value = { ScanState };

    ghost view = { λ s. record {
      parents = s.tree;
      version = s.version;
      root = s.root;
      low = s.low;
      high = s.high;
      limit = s.limit;
      at = s.at;
      needed = s.needed;
      above = s.above;
      began =
          s.began;
      ended = s.ended;
      pairs = s.pairs.items;
    } };
}

impl ScanRun {
    /// A scan of the version with this root: of the first `limit` pairs with `low <= key < high`,
    /// where an absent bound doesn't bound. It takes at least one leaf. NoMemory: there was no
    /// memory for it.
    pub fn new(
        alloc: Global,
        tree: VersionTree,
        version: VersionNo,
        root: Addr,
        low: Option<Key>,
        high: Option<Key>,
        limit: u32,
    ) -> Result<Self, NoMemory>
        ensures { IfOk result (λ scan. scan ≡ new_scan tree version root low high limit) }
    {
        Ok(ScanRun {
            tree,
            version,
            root,
            at: low.try_copy(alloc)?,
            low,
            high,
            limit,
            needed: root,
            above: None,
            began: false,
            ended: false,
            pairs: Vec::new(alloc),
        })
    }

    /// What it wants next.
    pub fn next(&self) -> ScanStep
        ensures { result ≡ step_of self.now }
    {
        if self.ended {
            return ScanStep::Ended;
        }
        ScanStep::Need {
            addr: self.needed,
            leaf: self.may_be_leaf(),
        }
    }

    fn may_be_leaf(&self) -> bool
        ensures { result ≡ may_be_leaf self.now.above }
    {
        match self.above {
            Some(above) => above == 1,
            None => true,
        }
    }

    /// The key at which it stands: its next leaf is the one that covers it.
    pub fn key(&self) -> &[u8]
        ensures { result.now ≡ key_at self.now }
    {
        bytes_of(&self.at)
    }

    /// The height of the page that names the needed one; none for the root.
    pub fn above(&self) -> Option<u16>
        ensures { result ≡ self.now.above }
    {
        self.above
    }

    /// Where the root stands.
    pub fn root(&self) -> Addr
        ensures { result ≡ self.now.root }
    {
        self.root
    }

    /// Walks to its next leaf from the root again.
    pub fn restart(&mut self)
        ensures { self.new ≡ restarted self.old }
    {
        self.needed = self.root;
        self.above = None;
    }

    /// Whether the page is on the path to its next leaf.
    fn is_right(&self, page: &Page) -> bool
        ensures { result ≡ fits self.now page.now }
    {
        let front = Front::of_page(page);
        front.is_on_path(&self.tree, self.version, self.key(), self.above)
    }

    /// Whether the page follows on the leaf before: if it is a leaf, it begins at the key at which
    /// that one ended.
    fn is_in_turn(&self, page: &Page) -> bool
        ensures { MatchBool result (IsInTurn self.now page.now) (IsInTurn self.now page.now → ⊥) }
    {
        match &page.body {
            Body::Leaf { .. } => !self.began || page.low.as_slice() == bytes_of(&self.at),
            Body::Inner { .. } => true,
        }
    }

    /// Takes the page that was read at the needed address. BadPath: it doesn't serve the version,
    /// doesn't cover the key at which the scan stands, isn't one height below the page that names
    /// it, or is higher than 14; or it is a leaf that begins below the key at which the leaf before
    /// it ended, as none of a frozen version does. NoMemory: there was no memory for its pairs.
    /// After a refusal the scan stands before its next leaf again.
    pub fn feed(&mut self, alloc: Global, addr: Addr, page: SharedPage) -> Result<(), ScanError>
        requires { IsNeeded self.old addr }
        ensures fits { OnOk result (IsTrue (fits self.old page)) }
        ensures in_turn { OnOk result (IsInTurn self.old page) }
        ensures fed { OnOk result (self.new ≡ fed self.old page) }
        ensures refused { IfErr result (RefusesPage self.old addr page) }
        ensures again { OnErr result (self.new ≡ restarted self.old) }
    {
        if !self.is_right(page.get()) || !self.is_in_turn(page.get()) {
            self.restart();
            return Err(ScanError::BadPath { addr });
        }
        if let Body::Inner {
            height,
            first,
            rest,
        } = &page.get().body
        {
            self.needed = child_for(*first, rest.as_slice(), bytes_of(&self.at));
            self.above = Some(*height);
            return Ok(());
        }
        self.restart();
        let Page {
            seq: _,
            made: _,
            copied: _,
            low: _,
            high,
            body,
        } = page.into_page(alloc)?;
        match body {
            Body::Leaf { pairs } => Ok(self.take_leaf(high, pairs)?),
            Body::Inner { .. } => unreachable!(),
        }
    }

    /// Takes the pairs of its next leaf, and goes on behind it.
    fn take_leaf(&mut self, high: Option<Key>, pairs: Pairs) -> Result<(), NoMemory>
        requires { self.old ≡ restarted self.old }
        ensures taken { OnOk result (self.new ≡ leaf_taken self.old high pairs) }
        ensures unchanged { OnErr result (self.new ≡ self.old) }
    {
        self.gather(pairs)?;
        self.began = true;
        self.ended = self.has_enough() || is_last(&self.high, &high);
        self.at = high;
        Ok(())
    }

    /// Whether it has as many pairs as it may have.
    fn has_enough(&self) -> bool
        ensures { result ≡ nat_le self.now.limit (length self.now.pairs) }
    {
        self.pairs.len() >= self.limit as usize
    }

    /// Takes of these pairs those within the bounds, up to the limit. NoMemory: there was no memory
    /// for them, and nothing has changed.
    fn gather(&mut self, pairs: Pairs) -> Result<(), NoMemory>
        ensures pairs { OnOk result (self.new ≡ with_pairs self.old (gathered self.old pairs)) }
        ensures unchanged { OnErr result (self.new ≡ self.old) }
    {
        let mut found = within(pairs, &self.low, &self.high);
        self.pairs.append(&mut found)?;
        self.pairs.truncate(self.limit as usize);
        Ok(())
    }

    /// The pairs that it has gathered, in order of key.
    pub fn into_pairs(self) -> Pairs
        ensures { result ≡ self.pairs }
    {
        let ScanRun {
            tree: _tree,
            version: _version,
            root: _root,
            low: _low,
            high: _high,
            limit: _limit,
            at: _at,
            needed: _needed,
            above: _above,
            began: _began,
            ended: _ended,
            pairs,
        } = self;
        Pairs::from_vec(pairs)
    }
}

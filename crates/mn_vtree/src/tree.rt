ghost use Rattle.std.specs.Prelude.{◌≡◌, ◌<◌, length, nat_lt, true, false, Some, IfOk, IfErr, OnOk};
ghost use Rattle.std.specs.Prelude.{MatchOption, option_map, slice_get};
ghost use Rattle.std.specs.Option.{option_map_or};
ghost use Rattle.mn_base.specs.Tree.{has_version, is_ancestor, serves};
ghost use Rattle.mn_vtree.specs.Parents.{numbers_of, IsLess, AreLess, IsFirstBad, RefusesParents};

use crate::TreeError;
use mn_base::{NoMemory, TryCopy, VersionNo};
use std::alloc::Global;
use std::marker::Model;
use std::sync::Arc;

/// The parent of each version, by number; a parent is less than its children. Copies share one
/// memory. Contracts see a tree as the list of its parents' numbers.
#[derive(Debug, Drop)]
pub struct VersionTree {
    parents: Arc<Vec<Option<VersionNo>>>,
}

impl Model for VersionTree {
    ghost use Rattle.std.specs.Prelude.{ℕ, List, Option};
    ghost use Rattle.mn_vtree.specs.Parents.{numbers_of, AreLess};

    ghost Value = { List (Option ℕ) };

    ghost view = { λ t. numbers_of t.parents.value.items };

    ghost invariant = { λ t. AreLess (numbers_of t.parents.value.items) };
}

// The first version whose parent isn't less.
fn first_bad(parents: &[Option<VersionNo>]) -> Option<VersionNo>
    ensures { MatchOption result (AreLess (numbers_of parents.now))
        (λ v. IsFirstBad (numbers_of parents.now) v.0) }
{
    for (version, parent) in parents.iter().enumerate() {
        if !is_less(*parent, version) {
            return Some(VersionNo(version as u8));
        }
    }
    None
}

// Whether the parent, if there is one, is less than the version. A version above all numbers
// passes.
fn is_less(parent: Option<VersionNo>, version: usize) -> bool
    ensures test { result ≡ option_map_or (λ p. nat_lt p.0 version) parent true }
    ensures numbered { result ≡ false → version < 256 }
{
    match parent {
        Some(parent) => usize::from(parent.0) < version,
        None => true,
    }
}

// Whether the set of versions has this one.
fn is_in(copied: u64, version: u8) -> bool
    ensures { result ≡ has_version copied version }
{
    version < 64 && (copied >> version) & 1 == 1
}

impl VersionTree {
    /// The tree in which version `i` has the parent `parents[i]`. BadParent: a parent isn't less
    /// than its version, and this is the first such version. NoMemory: there was no memory for the
    /// list.
    pub fn new(alloc: Global, parents: &[Option<VersionNo>]) -> Result<Self, TreeError>
        ensures ok { IfOk result (λ tree. tree ≡ numbers_of parents.now) }
        ensures less { OnOk result (AreLess (numbers_of parents.now)) }
        ensures refused { IfErr result (RefusesParents (numbers_of parents.now)) }
    {
        if let Some(version) = first_bad(parents) {
            return Err(TreeError::BadParent { version });
        }
        Ok(VersionTree {
            parents: Arc::new(alloc, parents.to_vec(alloc)?)?,
        })
    }

    // Whether the version is there.
    fn has(&self, version: u8) -> bool
        ensures there { result ≡ nat_lt version (length self.now) }
        ensures less { AreLess self.now }
    {
        usize::from(version) < self.parents.len()
    }

    // The parent of a version that is there.
    fn parent(&self, version: u8) -> Option<VersionNo>
        requires { version < length self.now }
        ensures is { slice_get self.now version ≡ Some (option_map (λ p. p.0) result) }
        ensures less { IsLess self.now version }
    {
        self.parents[usize::from(version)]
    }

    /// Whether `a` is `v` or a version above it. Above a version that isn't there is none.
    pub fn ancestor(&self, a: VersionNo, v: VersionNo) -> bool
        ensures { result ≡ is_ancestor self.now a.0 v.0 }
    {
        if !self.has(v.0) {
            return false;
        }
        // Parents are less, so that nothing below `a` has it above.
        let mut at = v.0;
        'walk: while at > a.0 {
            let Some(parent) = self.parent(at) else {
                return false;
            };
            at = parent.0;
        }
        at == a.0
    }

    /// Whether a page that was made in `made` serves `v`: that is `v` or above it, and no version
    /// that the page was copied for is. Version `i` is in the set `copied` where bit `i` is 1.
    pub fn serves(&self, made: VersionNo, copied: u64, v: VersionNo) -> bool
        ensures { result ≡ serves self.now made.0 copied v.0 }
    {
        if !self.has(v.0) {
            return false;
        }
        let mut meets_made = false;
        let mut at = v.0;
        'walk: while !is_in(copied, at) {
            meets_made |= at == made.0;
            let Some(parent) = self.parent(at) else {
                return meets_made;
            };
            at = parent.0;
        }
        false
    }
}

impl TryCopy for VersionTree {
    fn try_copy(&self, _alloc: Global) -> Result<Self, NoMemory> {
        Ok(VersionTree {
            parents: Arc::try_clone(&self.parents)?,
        })
    }
}

ghost use Rattle.std.specs.Prelude.{◌≡◌, ◌<◌, ◌∷◌, ℕ, true, false, List, Option, Some, None};
ghost use Rattle.std.specs.Prelude.{◌≢◌, IfSome, OnOk, OnErr, bytes_eq};
ghost use Rattle.std.specs.Option.{option_map_or};
ghost use Rattle.mn_base.specs.declared.ids.Addr.{Addr};
ghost use Rattle.mn_page.specs.Grammar.{height_of};
ghost use Rattle.mn_page.specs.Holds.{page_covers};
ghost use Rattle.mn_page.specs.Overlay.{Held};
ghost use Rattle.mn_path.specs.Walk.{is_below};
ghost use Rattle.mn_tree.specs.Walk.{held_of, walk_down};
ghost use Rattle.mn_tree.specs.Found.{IsMet};
ghost use Rattle.mn_tree.specs.Way.{CameTo, IsSameWay, IsWay, left_above, walk_at};

use crate::addrs::Addrs;
use crate::held::HeldPage;
use mn_base::{Addr, Key, NoMemory, TryCopy};
use mn_page::Body;
use mn_path::{child_for, height};
use std::alloc::Global;

/// How far a walk has come: its key, or none where no walk is under way, the pages that it passed,
/// the last one first, the address at which it goes on, and the height of the page that names it,
/// if one does.
#[derive(Debug, Drop)]
pub struct Way {
    pub key: Option<Key>,
    pub passed: Addrs,
    pub next: Addr,
    pub above: Option<u16>,
}

impl Way {
    /// No walk is under way.
    pub fn new(alloc: Global, root: Addr) -> Self
        ensures { result.key ≡ None }
    {
        Way {
            key: None,
            passed: Addrs::new(alloc),
            next: root,
            above: None,
        }
    }

    /// Whether a walk for the key is under way.
    fn is_for(&self, key: &Key) -> bool
        ensures { result ≡ option_map_or (λ k. bytes_eq k key.now) self.now.key false }
    {
        match &self.key {
            Some(own) => own.as_slice() == key.as_slice(),
            None => false,
        }
    }

    /// Begins a walk at the root.
    #[inline(never)]
    fn restart(&mut self, alloc: Global, root: Addr, key: &Key) -> Result<(), NoMemory>
        ensures way { OnOk result ((parents : List (Option ℕ)) (v : ℕ) (pages : List Held)
            → IsWay parents v root pages key.now self.new) }
        ensures key { OnOk result (self.new.key ≡ Some key.now) }
        ensures forgotten { OnErr result (self.new.key ≡ None) }
    {
        self.key = None;
        self.passed.clear();
        self.next = root;
        self.above = None;
        self.key = Some(key.try_copy(alloc)?);
        Ok(())
    }

    /// Begins a walk: where one for this key has come already, or at the root.
    pub fn begin(&mut self, alloc: Global, root: Addr, key: &Key) -> Result<(), NoMemory>
        ensures way { OnOk result ((parents : List (Option ℕ)) (v : ℕ) (pages : List Held)
            → CameTo parents v root pages self.old → IsWay parents v root pages key.now self.new) }
        ensures key { OnOk result (self.new.key ≡ Some key.now) }
        ensures forgotten { OnErr result (self.new.key ≡ None) }
    {
        if self.is_for(key) {
            return Ok(());
        }
        self.restart(alloc, root, key)
    }

    /// Passes an inner page, to which the walk has come: it goes on at the child of its key.
    pub fn pass(&mut self, held: &HeldPage) -> Result<(), NoMemory>
        requires under { self.old.key ≢ None }
        requires covers { IfSome self.old.key (λ key. page_covers key held.now.page ≡ true) }
        requires below { is_below self.old.above (height_of held.now.page.body) ≡ true }
        requires inner { 0 < height_of held.now.page.body }
        ensures key { self.new.key ≡ self.old.key }
        ensures passed { OnOk result
            (self.new.passed.items ≡ self.old.next ∷ self.old.passed.items) }
        ensures next { OnOk result ((key : List ℕ) → self.old.key ≡ Some key
            → (parents : List (Option ℕ)) (v : ℕ) (pages : List Held) (passed : List Held)
            → walk_down parents v (height_of held.now.page.body) pages key
            (held_of held.now) passed
            ≡ walk_at parents v pages key self.new.next self.new.above
            (held_of held.now ∷ passed)) }
        ensures lower { OnOk result (left_above self.new.above < left_above self.old.above) }
        ensures same { OnErr result (IsSameWay self.old self.new) }
    {
        let Some(key) = &self.key else {
            unreachable!();
        };
        let Body::Inner {
            height,
            first,
            rest,
        } = &held.page.get().body
        else {
            unreachable!();
        };
        let child = child_for(*first, rest.as_slice(), key.as_slice());
        self.passed.push_front(self.next)?;
        self.next = child;
        self.above = Some(*height);
        Ok(())
    }
    /// Goes on below the page to which the walk has come, if it is an inner page.
    pub fn follow(&mut self, held: &HeldPage) -> Result<(), NoMemory>
        requires under { self.old.key ≢ None }
        requires covers { IfSome self.old.key (λ key. page_covers key held.now.page ≡ true) }
        requires below { is_below self.old.above (height_of held.now.page.body) ≡ true }
        ensures came { OnOk result ((parents : List (Option ℕ)) (v : ℕ) (root : Addr)
            (pages : List Held) → CameTo parents v root pages self.old
            → IfSome self.old.key (λ key. IsMet parents v pages key self.old held.now)
            → CameTo parents v root pages self.new) }
        ensures same { OnErr result (IsSameWay self.old self.new) }
    {
        if height(&held.page.get().body) == 0 {
            return Ok(());
        }
        self.pass(held)?;
        Ok(())
    }
}

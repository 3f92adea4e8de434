ghost use Rattle.std.specs.Prelude.{◌≡◌, ◌≢◌, ◌≤◌, ◌<◌, ◌^◌, ℕ, List, Option, Some, None, length};
ghost use Rattle.std.specs.Prelude.{IfOk, IfSome, OnOk, OnErr, true, false};
ghost use Rattle.std.specs.Option.{option_map};
ghost use Rattle.mn_base.specs.declared.ids.Addr.{Addr};
ghost use Rattle.mn_page.specs.declared.page.Page.{Page};
ghost use Rattle.mn_page.specs.Grammar.{height_of};
ghost use Rattle.mn_page.specs.Holds.{page_covers};
ghost use Rattle.mn_page.specs.Overlay.{held_at, path_pairs};
ghost use Rattle.mn_path.specs.Walk.{is_below};
ghost use Rattle.mn_tree.specs.Found.{path_at};
ghost use Rattle.mn_tree.specs.Walk.{helds};
ghost use Rattle.mn_tree.specs.Way.{may_follow};
ghost use Rattle.mn_tree.specs.Kept.{IsKept, asked, state_of};
ghost use Rattle.mn_tree.specs.State.{drafted, drafted_after, no_pages, drafted_with, stepped};
ghost use Rattle.mn_tree.specs.State.{AsksFor, told};

use crate::Stepped;
use crate::draft::Draft;
use crate::effect::{effect_at, key_of};
use crate::held::{HeldPage, resolved};
use crate::walk::{Walked, walk_to};
use crate::way::Way;
use mn_base::{Addr, NoMemory, Step, VersionNo};
use mn_page::SharedPage;
use mn_vtree::VersionTree;
use std::alloc::Global;
use std::mem;

/// What an overlay keeps from one call to the next: its draft, how far the walk came that stopped
/// last, and whether it asked for the page at which it goes on.
#[derive(Debug, Drop)]
pub struct Kept {
    pub draft: Draft,
    pub asks: bool,
    pub way: Way,
}

impl Kept {
    pub fn new(alloc: Global, root: Addr) -> Self
        ensures draft { drafted result.draft ≡ no_pages }
        ensures asks { result.asks ≡ false }
        ensures way { result.way.key ≡ None }
    {
        Kept {
            draft: Draft::new(alloc),
            asks: false,
            way: Way::new(alloc, root),
        }
    }

    /// Puts the page that was asked for, on which the walk goes on. After want of memory the draft
    /// and what was asked for are as before.
    pub fn add(&mut self, addr: Addr, page: SharedPage) -> Result<(), NoMemory>
        requires asked { option_map (λ w. w.addr) (asked self.old.asks self.old.way) ≡ Some addr }
        requires absent { held_at (helds self.old.draft.pages.items) addr ≡ None }
        requires covers { IfSome self.old.way.key (λ key. page_covers key page ≡ true) }
        requires below { is_below self.old.way.above (height_of page.body) ≡ true }
        ensures added { OnOk result
            (drafted self.new.draft ≡ drafted_with (drafted self.old.draft) addr page) }
        ensures taken { OnOk result (self.new.asks ≡ false) }
        ensures same { OnErr result (drafted self.new.draft ≡ drafted self.old.draft) }
        ensures wanted { OnErr result
            (asked self.new.asks self.new.way ≡ asked self.old.asks self.old.way) }
        ensures kept { (parents : List (Option ℕ)) (v : ℕ) (root : Addr)
            → IfSome self.old.way.key
            (λ key. may_follow parents v key self.old.way.above page ≡ true)
            → IsKept parents v root self.old → IsKept parents v root self.new }
    {
        let held = HeldPage { addr, page };
        self.draft.pages.reserve(1)?;
        self.way.follow(&held)?;
        self.draft.pages.push(held);
        self.asks = false;
        Ok(())
    }

    /// Makes a step, or says which page it needs first. After want of memory the draft and what was
    /// asked for are as before.
    pub fn step(
        &mut self,
        alloc: Global,
        tree: &VersionTree,
        version: VersionNo,
        root: Addr,
        step: &Step,
    ) -> Result<Stepped, NoMemory>
        requires version { version.0 < 64 }
        requires kept { IsKept tree.now version.0 root self.old }
        ensures answer { IfOk result (λ answer.
            answer ≡ (stepped (state_of tree.now version root self.old) step.now).answer) }
        ensures state { OnOk result (state_of tree.now version root self.new
            ≡ (stepped (state_of tree.now version root self.old) step.now).state) }
        ensures wanted { IfOk result (AsksFor (state_of tree.now version root self.new)) }
        ensures unchanged { OnErr result (state_of tree.now version root self.new
            ≡ state_of tree.now version root self.old) }
        ensures kept { IsKept tree.now version.0 root self.new }
    {
        if self.asks {
            return self.step_anew(alloc, tree, version, root, step);
        }
        self.step_on(alloc, tree, version, root, step)
    }

    /// Makes a step in place of one whose page didn't come.
    #[inline(never)]
    fn step_anew(
        &mut self,
        alloc: Global,
        tree: &VersionTree,
        version: VersionNo,
        root: Addr,
        step: &Step,
    ) -> Result<Stepped, NoMemory>
        requires version { version.0 < 64 }
        requires kept { IsKept tree.now version.0 root self.old }
        requires asks { self.old.asks ≡ true }
        ensures answer { IfOk result (λ answer.
            answer ≡ (stepped (state_of tree.now version root self.old) step.now).answer) }
        ensures state { OnOk result (state_of tree.now version root self.new
            ≡ (stepped (state_of tree.now version root self.old) step.now).state) }
        ensures wanted { IfOk result (AsksFor (state_of tree.now version root self.new)) }
        ensures unchanged { OnErr result (state_of tree.now version root self.new
            ≡ state_of tree.now version root self.old) }
        ensures kept { IsKept tree.now version.0 root self.new }
    {
        let way = mem::replace(&mut self.way, Way::new(alloc, root));
        self.asks = false;
        match self.step_on(alloc, tree, version, root, step) {
            Ok(answer) => Ok(answer),
            Err(error) => {
                self.way = way;
                self.asks = true;
                Err(error)
            }
        }
    }

    /// Makes a step where none asks for a page.
    fn step_on(
        &mut self,
        alloc: Global,
        tree: &VersionTree,
        version: VersionNo,
        root: Addr,
        step: &Step,
    ) -> Result<Stepped, NoMemory>
        requires version { version.0 < 64 }
        requires kept { IsKept tree.now version.0 root self.old }
        requires free { self.old.asks ≡ false }
        ensures answer { IfOk result (λ answer.
            answer ≡ (stepped (state_of tree.now version root self.old) step.now).answer) }
        ensures state { OnOk result (state_of tree.now version root self.new
            ≡ (stepped (state_of tree.now version root self.old) step.now).state) }
        ensures wanted { IfOk result (AsksFor (state_of tree.now version root self.new)) }
        ensures free { OnErr result (self.new.asks ≡ false) }
        ensures same { OnErr result (drafted self.new.draft ≡ drafted self.old.draft) }
        ensures kept { IsKept tree.now version.0 root self.new }
    {
        let pages = &self.draft.pages;
        match walk_to(
            alloc,
            tree,
            version,
            pages,
            root,
            &mut self.way,
            key_of(step),
        )? {
            Walked::Missing => {
                self.asks = true;
                Ok(Stepped::Need {
                    addr: self.way.next,
                })
            }
            Walked::Wrong => Ok(Stepped::BadPath {
                addr: resolved(self.draft.origins.as_slice(), self.way.next),
            }),
            Walked::Reached => self.run(alloc, version, step),
        }
    }

    /// Makes a step at the leaf at which its walk goes on.
    #[inline(never)]
    fn run(&mut self, alloc: Global, version: VersionNo, step: &Step) -> Result<Stepped, NoMemory>
        requires version { version.0 < 64 }
        requires bound { length self.old.draft.origins.items ≤ 2 ^ 16 }
        requires leaf { held_at (helds self.old.draft.pages.items) self.old.way.next ≢ None }
        ensures answer { IfOk result (λ answer. (leaf : Page)
            → held_at (helds self.old.draft.pages.items) self.old.way.next ≡ Some leaf
            → answer ≡ told step.now (path_pairs
            (path_at (helds self.old.draft.pages.items) self.old.way leaf))) }
        ensures draft { OnOk result ((leaf : Page)
            → held_at (helds self.old.draft.pages.items) self.old.way.next ≡ Some leaf
            → drafted self.new.draft ≡ drafted_after version (drafted self.old.draft) step.now
            (path_at (helds self.old.draft.pages.items) self.old.way leaf)) }
        ensures done { OnOk result (self.new.way.key ≡ None) }
        ensures bound { length self.new.draft.origins.items ≤ 2 ^ 16 }
        ensures asks { self.new.asks ≡ self.old.asks }
        ensures same { OnErr result (drafted self.new.draft ≡ drafted self.old.draft) }
        ensures way { OnErr result (self.new.way ≡ self.old.way) }
    {
        let effect = effect_at(alloc, version, &self.draft, &self.way, step)?;
        self.draft.commit(self.way.next, effect.writes)?;
        self.way.key = None;
        Ok(effect.answer)
    }
}

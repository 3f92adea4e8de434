ghost use Rattle.std.specs.Prelude.{◌≡◌, ◌<◌, length, IfOk, IfErr, OnOk, OnErr, IsTrue};
ghost use Rattle.mn_tree.specs.Order.{placed};
ghost use Rattle.mn_tree.specs.State.{new_state, fits, IsWanted, with_page, RefusesPage, stepped};
ghost use Rattle.mn_tree.specs.State.{AsksFor};

use crate::kept::Kept;
use crate::order::{by_number, order_of, push_changed, push_new};
use crate::{AddError, Stepped};
use mn_base::{Addr, NoMemory, Step, VersionNo};
use mn_page::{Page, Pages, SharedPage};
use mn_path::Front;
use mn_vtree::VersionTree;
use std::alloc::Global;
use std::marker::Model;

/// The tree of a version as a transaction changes it: the pages that were read, and what its steps
/// made of them. Contracts see it as the version tree by its parents, the version, its root, the
/// pages, and what the last step asked for.
#[derive(Debug, Drop)]
pub struct Overlay {
    tree: VersionTree,
    version: VersionNo,
    root: Addr,
    /// It is moved often with the rest, so it lies elsewhere.
    kept: Box<Kept>,
}

impl Model for Overlay {
    ghost use Rattle.std.specs.Prelude.{◌<◌};
    ghost use Rattle.mn_tree.specs.State.{TreeState};
    ghost use Rattle.mn_tree.specs.Kept.{IsKept, state_of};

    ghost Value = { TreeState };

    ghost view = { λ o. state_of o.tree o.version o.root o.kept.value };

    ghost invariant = { λ o. (o.version.0 < 64) × IsKept o.tree o.version.0 o.root o.kept.value };
}

impl Overlay {
    /// The tree of a version with this root, of which no page was read yet.
    pub fn new(
        alloc: Global,
        tree: VersionTree,
        version: VersionNo,
        root: Addr,
    ) -> Result<Self, NoMemory>
        requires there { version.0 < length tree }
        requires within { version.0 < 64 }
        ensures { IfOk result (λ overlay. overlay ≡ new_state tree version root) }
    {
        match Box::new(alloc, Kept::new(alloc, root)) {
            Ok(kept) => Ok(Overlay {
                tree,
                version,
                root,
                kept,
            }),
            Err(_) => Err(NoMemory),
        }
    }

    /// Whether a page is what the last step asked for.
    fn is_right(&self, page: &Page) -> bool
        ensures { result ≡ fits self.now page.now }
    {
        if !self.kept.asks {
            return false;
        }
        let Some(key) = &self.kept.way.key else {
            return false;
        };
        let front = Front::of_page(page);
        front.is_on_path(
            &self.tree,
            self.version,
            key.as_slice(),
            self.kept.way.above,
        )
    }

    /// Takes the page that was read at the address that the last step asked for. BadPath: it
    /// doesn't serve the version, doesn't cover that step's key, isn't one height below the page
    /// that names it, or is higher than 14. NoMemory: there was no memory for it. After a refusal
    /// the tree is as before.
    pub fn add(&mut self, addr: Addr, page: SharedPage) -> Result<(), AddError>
        requires { IsWanted self.old addr }
        ensures fits { OnOk result (IsTrue (fits self.old page)) }
        ensures added { OnOk result (self.new ≡ with_page self.old addr page) }
        ensures refused { IfErr result (RefusesPage self.old addr page) }
        ensures unchanged { OnErr result (self.new ≡ self.old) }
    {
        if !self.is_right(page.get()) {
            return Err(AddError::BadPath { addr });
        }
        self.kept.add(addr, page)?;
        Ok(())
    }

    /// Makes a step on the pages, with the splits and copies that it takes, or says which page it
    /// needs first. NoMemory: there was no memory for it, and the tree is as before.
    #[inline(never)]
    pub fn step(&mut self, alloc: Global, step: &Step) -> Result<Stepped, NoMemory>
        ensures answer { IfOk result (λ answer. answer ≡ (stepped self.old step.now).answer) }
        ensures state { OnOk result (self.new ≡ (stepped self.old step.now).state) }
        ensures wanted { IfOk result (AsksFor self.new) }
        ensures unchanged { OnErr result (self.new ≡ self.old) }
    {
        self.kept
            .step(alloc, &self.tree, self.version, self.root, step)
    }

    /// How many new pages there are, up to 65,536.
    pub fn new_pages(&self) -> u32
        ensures { result ≡ self.now.draft.overlay.fresh }
    {
        self.kept.draft.origins.as_slice().len() as u32
    }

    /// Where the old pages of the read set stand, in the order in which they joined: a leaf when a
    /// step first reaches it, another page when a step first changes it.
    pub fn read_set(&self) -> &[Addr]
        ensures { result.now ≡ self.now.draft.read }
    {
        self.kept.draft.read.as_slice()
    }

    /// What the steps write, once the new pages have these slots: the changed pages in the order in
    /// which they joined the read set, each with its next sequence number, then the new ones in the
    /// order in which slots are asked for, from the leaves upwards and at one height from left to
    /// right, which is the order of the slots. A sequence number that is the last stays. The tree
    /// stays as it is. NoMemory: there was no memory for the list.
    pub fn place(&mut self, alloc: Global, slots: &[Addr]) -> Result<Pages, NoMemory>
        requires { length slots.now ≡ self.old.draft.overlay.fresh }
        ensures placed { IfOk result (λ pages. pages ≡ placed slots.now self.old.draft) }
        ensures unchanged { self.new ≡ self.old }
    {
        let draft = &self.kept.draft;
        let count = draft.origins.as_slice().len();
        let order = order_of(alloc, &draft.pages, count)?;
        let by = by_number(alloc, &order, slots, count)?;
        let mut placed = Vec::new(alloc);
        push_changed(
            alloc,
            &by,
            &draft.pages,
            &draft.changed,
            draft.read.as_slice(),
            &mut placed,
        )?;
        push_new(alloc, &by, &draft.pages, &order, &mut placed)?;
        Ok(Pages::from_vec(placed))
    }
}

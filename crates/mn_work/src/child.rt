ghost use Rattle.std.specs.Prelude.{◌≡◌, ◌≢◌, ◌<◌, ◌≤◌, [], false, true, None, IfErr, IfOk, OnOk};
ghost use Rattle.std.specs.Prelude.{length};
ghost use Rattle.mn_base.specs.Tree.{has_version};
ghost use Rattle.mn_page.specs.Grammar.{IsPage};
ghost use Rattle.mn_page.specs.Space.{max_slots};
ghost use Rattle.mn_alloc.specs.Plan.{next_slot};
ghost use Rattle.mn_work.specs.Cached.{AreUsed, Puts, Walks, next_of, next_then};
ghost use Rattle.mn_work.specs.Children.{CountsOn, DoesChild, HasRead, IsOnItsWay, IsPlanFor};
ghost use Rattle.mn_work.specs.Children.{KeepsTry, MayPlan, RefusesChild, SameButCounts};
ghost use Rattle.mn_work.specs.Children.{StaysLast, StaysOnItsWay, TakesRoot, TakesRootBytes};
ghost use Rattle.mn_work.specs.Children.{WantsEnd, WantsNext, WantsRoot, failing, may_copy_by};
ghost use Rattle.mn_work.specs.Firsts.{ChildFailsFirst, EndsFirst, ReachesRoot};
ghost use Rattle.mn_work.specs.Knows.{ArePages, KeepsKnown};

use crate::counts::take_count;
use crate::known::Known;
use crate::next::{Next, Taken, fault_at, full, worn};
use crate::seen::page_in;
use mn_alloc::{AllocError, plan_slots};
use mn_base::{Addr, Counts, NoMemory, NodeNo, Op, Reply, TryCopy, VersionNo};
use mn_catalog::Catalog;
use mn_mini::{Minitransaction, SharedBytes};
use mn_page::{Page, SharedPage};
use mn_path::Front;
use mn_txn::{PlanError, branch_plan, snapshot_plan};
use std::alloc::Global;

/// A try of a Snapshot or a Branch, which makes a child of a version: the root page that it copies,
/// and the counts.
#[derive(Debug)]
pub struct Child {
    version: VersionNo,
    root: Addr,
    /// The root page, once it was read.
    page: Option<SharedPage>,
    /// The counts that were read, from node 0 on.
    counts: Vec<u16>,
}

/// It is let go by a call, which is proved once, and not in place wherever one goes.
impl Drop for Child {
    fn drop(self) {
        let Child {
            version: _version,
            root: _root,
            page,
            counts,
        } = self;
        drop(page);
        drop(counts);
    }
}

/// Whether the copied set has the version of this number.
fn has_copied(page: &Page, number: usize) -> bool
    requires { IsPage page.now }
    ensures { result ≡ has_version page.now.copied number }
{
    number < 64 && (page.copied >> number) & 1 == 1
}

/// The plan of the operation, with this slot for the new root.
fn plan_for(
    alloc: Global,
    nodes: u8,
    catalog: &Catalog,
    op: &Op,
    root: &Page,
    slot: Addr,
) -> Result<Minitransaction, PlanError>
    requires may { MayPlan nodes catalog.now op.now root.now slot }
    ensures planned { IfOk result (DoesChild catalog.now op.now root.now) }
    ensures made { IfOk result (IsPlanFor nodes catalog.now op.now root.now slot) }
    ensures refused { IfErr result (RefusesChild catalog.now op.now root.now) }
{
    catalog.entries();
    match op {
        Op::Snapshot { version, child } => {
            snapshot_plan(alloc, nodes, catalog, version, child, root, slot)
        }
        Op::Branch { version, child } => {
            branch_plan(alloc, nodes, catalog, version, child, root, slot)
        }
        _ => unreachable!(),
    }
}

/// That the try fails, where the root page made it fail.
fn failing(taken: Taken) -> Option<Next>
    ensures { result ≡ failing taken }
{
    match taken {
        Taken::Fails { cause } => Some(Next::Fails { cause }),
        _ => None,
    }
}

impl Child {
    /// A try that has read the catalog alone.
    pub fn new(alloc: Global, version: VersionNo, root: Addr) -> Self
        ensures version { result.version ≡ version }
        ensures root { result.root ≡ root }
        ensures page { result.page ≡ None }
        ensures counts { result.counts.items ≡ [] }
    {
        Child {
            version,
            root,
            page: None,
            counts: Vec::new(alloc),
        }
    }

    /// Whether the root page may be copied for a new version.
    fn may_copy(&self, known: &Known, page: &Page) -> bool
        requires { IsPage page.now }
        ensures { result ≡ may_copy_by known.now.catalog self.now.version.0 page.now }
    {
        match &known.catalog {
            Some(kept) => {
                Front::of_page(page).is_on_path(kept.tree(), self.version, &[], None)
                    && !has_copied(page, kept.catalog().entries().len())
            }
            None => false,
        }
    }

    /// Takes the root page.
    fn keep(&mut self, known: &Known, page: SharedPage) -> Taken
        requires page { IsPage page }
        ensures taken { TakesRoot known.now.catalog self.old page self.new result }
        ensures stays { KeepsTry self.old self.new }
    {
        let root = page.get();
        if !self.may_copy(known, root) {
            return Taken::Fails {
                cause: fault_at(self.root, root.seq),
            };
        }
        self.page = Some(page);
        Taken::GoesOn
    }

    /// Takes the root page that it asked for, by its bytes.
    #[inline(never)]
    pub fn take_page(
        &mut self,
        alloc: Global,
        known: &mut Known,
        bytes: &SharedBytes,
    ) -> Result<Taken, NoMemory>
        ensures kept { KeepsKnown known.old known.new }
        ensures cache { Puts self.old.root bytes.now known.old.cache known.new.cache result }
        ensures taken { IfOk result (TakesRootBytes known.old.catalog self.old bytes.now self.new) }
        ensures stays { KeepsTry self.old self.new }
    {
        let Some(page) = page_in(alloc, bytes)? else {
            return Ok(Taken::Fails {
                cause: fault_at(self.root, 0),
            });
        };
        known.keep_inner(alloc, self.root, &page, bytes)?;
        Ok(self.keep(known, page))
    }

    /// Takes the count of the next node, by its bytes.
    pub fn take_count(&mut self, bytes: &[u8]) -> Result<Taken, NoMemory>
        requires { length self.old.counts.items < 8 }
        ensures taken { IfOk result (CountsOn self.old self.new bytes.now) }
        ensures same { SameButCounts self.old self.new }
    {
        take_count(&mut self.counts, bytes)
    }

    /// What it wants next.
    #[inline(never)]
    pub fn advance(
        &mut self,
        alloc: Global,
        known: &mut Known,
        op: &Op,
        later: bool,
    ) -> Result<Next, NoMemory>
        requires pages { ArePages known.old.cache }
        requires nodes { (1 ≤ known.old.nodes) × (known.old.nodes ≤ 8) }
        requires way { IsOnItsWay known.old op.now self.old }
        ensures kept { KeepsKnown known.old known.new }
        ensures cache { Walks later (next_of result) known.old.cache known.new.cache }
        ensures stays { KeepsTry self.old self.new }
        ensures way { IfOk result (StaysOnItsWay known.new op.now self.new) }
        ensures later { later ≡ true → self.new ≡ self.old }
        ensures last { OnOk result (StaysLast known.old.cache self.old self.new) }
        ensures wants { IfOk result (WantsNext known.new later op.now self.new) }
        ensures first { later ≡ false
            → IfOk result (ChildFailsFirst known.new op.now self.old self.new) }
    {
        if self.page.is_some() {
            return self.go_on(alloc, known, op, later);
        }
        match self.reach(alloc, known, later)? {
            Some(next) => Ok(next),
            None => self.go_on(alloc, known, op, later),
        }
    }

    /// Goes on behind the root page: with the counts, then with its plan.
    fn go_on(&self, alloc: Global, known: &Known, op: &Op, later: bool) -> Result<Next, NoMemory>
        requires nodes { (1 ≤ known.now.nodes) × (known.now.nodes ≤ 8) }
        requires way { IsOnItsWay known.now op.now self.now }
        requires page { self.now.page ≢ None }
        ensures wants { IfOk result (WantsNext known.now later op.now self.now) }
        ensures first { later ≡ false → IfOk result (EndsFirst known.now op.now self.now) }
    {
        if self.counts.len() < usize::from(known.nodes) {
            return Ok(Next::Count {
                node: NodeNo(self.counts.len() as u8),
                peek: !later,
            });
        }
        self.finish(alloc, known, op, later)
    }

    /// Takes the root page from the cache, in a first try, or asks for it.
    fn reach(
        &mut self,
        alloc: Global,
        known: &mut Known,
        later: bool,
    ) -> Result<Option<Next>, NoMemory>
        requires pages { ArePages known.old.cache }
        requires none { self.old.page ≡ None }
        ensures kept { KeepsKnown known.old known.new }
        ensures cache { Walks later (next_then result) known.old.cache known.new.cache }
        ensures stays { KeepsTry self.old self.new }
        ensures later { later ≡ true → self.new ≡ self.old }
        ensures last { OnOk result (StaysLast known.old.cache self.old self.new) }
        ensures wants { IfOk result (WantsRoot known.old later self.old self.new) }
        ensures first { later ≡ false → IfOk result (ReachesRoot known.new self.old self.new) }
    {
        if !known.has_node(self.root) {
            return Ok(Some(Next::Fails {
                cause: fault_at(self.root, 0),
            }));
        }
        if !later {
            return self.reach_kept(alloc, known);
        }
        known.cache.drop_page(self.root);
        Ok(Some(Next::Page {
            addr: self.root,
            peek: false,
        }))
    }

    /// Takes the root page from the cache, or asks for it, in a first try.
    fn reach_kept(&mut self, alloc: Global, known: &mut Known) -> Result<Option<Next>, NoMemory>
        requires pages { ArePages known.old.cache }
        requires none { self.old.page ≡ None }
        requires node { self.old.root.node.0 < known.old.nodes }
        ensures kept { KeepsKnown known.old known.new }
        ensures cache { AreUsed known.old.cache known.new.cache }
        ensures stays { KeepsTry self.old self.new }
        ensures last { OnOk result (StaysLast known.old.cache self.old self.new) }
        ensures wants { IfOk result (WantsRoot known.old false self.old self.new) }
        ensures first { IfOk result (ReachesRoot known.new self.old self.new) }
    {
        let page = match known.cache.get(self.root) {
            Some(spelled) => spelled.page.try_copy(alloc)?,
            None => {
                return Ok(Some(Next::Page {
                    addr: self.root,
                    peek: true,
                }));
            }
        };
        let taken = self.keep(known, page);
        Ok(failing(taken))
    }

    /// Where all is read: it wants its plan.
    fn finish(&self, alloc: Global, known: &Known, op: &Op, later: bool) -> Result<Next, NoMemory>
        requires read { HasRead known.now op.now self.now }
        ensures { IfOk result (WantsEnd known.now later op.now self.now) }
    {
        let counts = Counts::from_vec(self.counts.to_vec(alloc)?);
        match plan_slots(alloc, &counts, 1) {
            Ok(slots) => match slots.as_slice() {
                [slot, ..] => self.end(alloc, known, op, *slot, later),
                [] => unreachable!(),
            },
            Err(AllocError::Full { need, free }) => Ok(full(need, free, later)),
            Err(AllocError::NoMemory) => Err(NoMemory),
        }
    }

    /// Wants its plan, with this slot for the new root.
    fn end(
        &self,
        alloc: Global,
        known: &Known,
        op: &Op,
        slot: Addr,
        later: bool,
    ) -> Result<Next, NoMemory>
        requires read { HasRead known.now op.now self.now }
        requires slot { slot ≡ next_slot self.now.counts.items }
        requires free { (slot.node.0 < known.now.nodes) × (slot.slot < max_slots) }
        ensures { IfOk result (WantsEnd known.now later op.now self.now) }
    {
        let (Some(kept), Some(root)) = (&known.catalog, &self.page) else {
            unreachable!();
        };
        if slot == self.root {
            return Ok(Next::Fails { cause: None });
        }
        match plan_for(alloc, known.nodes, kept.catalog(), op, root.get(), slot) {
            Ok(mini) => Ok(Next::Plan {
                mini,
                reply: Reply::Made,
            }),
            Err(PlanError::Worn { node, start }) => Ok(worn(node, start, later)),
            Err(PlanError::NoMemory) => Err(NoMemory),
        }
    }
}

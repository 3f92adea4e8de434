ghost use Rattle.std.specs.Prelude.{◌≡◌, ◌≤◌, ◌<◌, ◌+◌, [], None, Some, IfOk, OnOk, length, true};
ghost use Rattle.std.specs.Prelude.{false};
ghost use Rattle.mn_alloc.specs.Plan.{new_slots};
ghost use Rattle.mn_base.specs.Store.{step_key};
ghost use Rattle.mn_base.specs.declared.answer.Busy.{Busy};
ghost use Rattle.mn_base.specs.declared.reply.Reply.TheVariants.{Values};
ghost use Rattle.mn_page.specs.Grammar.{IsPage, page_bytes};
ghost use Rattle.mn_tree.specs.State.{IsWanted};
ghost use Rattle.mn_tree.specs.Tries.{MovesTakePages, NeedsAreSlots, NeedsMayCome};
ghost use Rattle.mn_work.specs.Attempts.{Asks, CameBySteps, ComesIn, ComesInner, CountsOn};
ghost use Rattle.mn_work.specs.Attempts.{HasCounts};
ghost use Rattle.mn_work.specs.Attempts.{HasStepped, HasUnmet, IsBegun, IsFailure, IsFault};
ghost use Rattle.mn_work.specs.Attempts.{IsOnItsWay, IsTold, KeepsSteps, KeepsVersion, MayFail};
ghost use Rattle.mn_work.specs.Attempts.{NamesNoPage, NeedsNone, ReachesOn, RunsFurther, RunsOn};
ghost use Rattle.mn_work.specs.Attempts.{SameButCounts, SameButFound, StaysLast, StaysOnItsWay};
ghost use Rattle.mn_work.specs.Attempts.{TakesRead};
ghost use Rattle.mn_work.specs.Attempts.{WantsNext, was_read};
ghost use Rattle.mn_work.specs.Cached.{AreUsed, Puts, Walks, next_at, next_of, next_then};
ghost use Rattle.mn_work.specs.Firsts.{CameKept, FailsOnWay, ReachesFirst};
ghost use Rattle.mn_work.specs.Firsts.{RunFailsAsKept, RunFailsOnWay, StepsFailFirst};
ghost use Rattle.mn_work.specs.Knows.{ArePages, KeepsKnown};
ghost use Rattle.mn_work.specs.Last.{AreReadAs};
ghost use Rattle.mn_work.specs.declared.next.Taken.TheVariants as taken;

use crate::causes::{LEVELS, fault_among};
use crate::counts::take_count;
use crate::known::Known;
use crate::next::{Next, Taken, full, worn};
use crate::seen::{is_leaf, page_in};
use mn_alloc::{AllocError, plan_slots};
use mn_base::{
    Addr, Busy, Counts, Found, Founds, Key, NoMemory, NodeNo, Reply, Step, Steps, TryCopy, Value,
    VersionNo,
};
use mn_mini::SharedBytes;
use mn_page::SharedPage;
use mn_tree::{AddError, Overlay, Stepped};
use mn_txn::{Placing, PlanError, SeenPage, SpelledEntry, Tried, done_plan, page_at, unmet_plan};
use mn_vtree::VersionTree;
use std::alloc::Global;
use std::mem;

/// For how many pages there is room at once: for those of a path in a tree of some size.
const FIRST_ROOM: usize = 7;

/// A try of a transaction: its steps on the pages that it read.
#[derive(Debug)]
pub struct Attempt {
    version: VersionNo,
    root: Addr,
    overlay: Overlay,
    /// The pages that came in, as they were read.
    pages: Vec<SeenPage>,
    /// What its Gets have found.
    found: Vec<Option<Value>>,
    /// How many steps are done.
    done: usize,
    /// The counts that were read, from node 0 on.
    counts: Vec<u16>,
}

/// It is let go by a call, which is proved once, and not in place wherever one goes.
impl Drop for Attempt {
    fn drop(self) {
        let Attempt {
            version: _version,
            root: _root,
            overlay,
            pages,
            found,
            done: _done,
            counts,
        } = self;
        drop(overlay);
        drop(pages);
        drop(found);
        drop(counts);
    }
}

/// What became of the page that a step needs.
#[derive(Clone, Copy, Debug)]
enum Reached {
    /// It came in.
    Came,
    /// It has to be read.
    Needed,
    /// It is on no node, or it doesn't fit.
    Unfit,
}

/// The key that a step names.
fn key_of(step: &Step) -> &Key
    ensures { result.now ≡ step_key step.now }
{
    match step {
        Step::Get { key } | Step::Put { key, .. } | Step::Del { key } | Step::Check { key, .. } => {
            key
        }
    }
}

/// Whether one of these pages stands at one of the slots.
fn was_read(pages: &[SeenPage], slots: &[Addr]) -> bool
    ensures { result ≡ was_read pages.now slots.now }
{
    for slot in slots {
        if page_at(pages, *slot).is_some() {
            return true;
        }
    }
    false
}

/// What is known of pages that come in where a step asks for them.
fn pages_are_known()
    ensures pages { MovesTakePages }
    ensures slots { NeedsAreSlots }
    ensures come { NeedsMayCome }
{
    mn_tree::moves_take_pages();
    mn_tree::needs_are_slots();
    mn_tree::needs_may_come();
}

impl Attempt {
    /// A try that has read no page yet.
    pub fn new(
        alloc: Global,
        tree: VersionTree,
        version: VersionNo,
        root: Addr,
    ) -> Result<Self, NoMemory>
        requires there { version.0 < length tree }
        requires within { version.0 < 64 }
        ensures { IfOk result (IsBegun tree version root) }
    {
        Ok(Attempt {
            version,
            root,
            overlay: Overlay::new(alloc, tree, version, root)?,
            pages: Vec::with_capacity(alloc, FIRST_ROOM)?,
            found: Vec::new(alloc),
            done: 0,
            counts: Vec::new(alloc),
        })
    }

    /// The fault that the walk for a key meets among the pages as they were read. The first try
    /// tells none.
    #[inline(never)]
    fn fault(&self, known: &Known, key: &Key, later: bool) -> Option<Busy>
        ensures { IsFault known.now later self.now key.now result }
    {
        if !later {
            return None;
        }
        match &known.catalog {
            Some(kept) => fault_among(
                known.nodes,
                kept,
                self.version,
                self.root,
                self.pages.as_slice(),
                key.as_slice(),
            ),
            None => None,
        }
    }

    /// What it wants next. A first try goes on at the inner pages that are kept, and reads each
    /// other page by a Peek; a later one reads each page anew, by an Exec.
    #[inline(never)]
    pub fn advance(
        &mut self,
        alloc: Global,
        known: &mut Known,
        steps: &Steps,
        later: bool,
    ) -> Result<Next, NoMemory>
        requires pages { ArePages known.old.cache }
        requires nodes { (1 ≤ known.old.nodes) × (known.old.nodes ≤ 8) }
        requires way { IsOnItsWay known.old steps.now self.old }
        ensures kept { KeepsKnown known.old known.new }
        ensures cache { Walks later (next_of result) known.old.cache known.new.cache }
        ensures stays { KeepsVersion self.old self.new }
        ensures counts { self.new.counts ≡ self.old.counts }
        ensures way { IfOk result (StaysOnItsWay known.new steps.now self.new) }
        ensures later { later ≡ true → self.new.pages ≡ self.old.pages }
        ensures last { OnOk result (StaysLast known.old.cache self.old self.new) }
        ensures wants { IfOk result (WantsNext known.new later steps.now self.new) }
        ensures first { later ≡ false
            → IfOk result (StepsFailFirst known.new steps.now self.old self.new) }
    {
        let all = steps.as_slice();
        while self.done < all.len() {
            if let Some(next) = self.run_step(alloc, known, steps, later)? {
                return Ok(next);
            }
        }
        self.finish(alloc, known, steps, later)
    }

    /// Does the next step, as far as its pages are there. None: it is done. A path has at most
    /// `LEVELS` pages, and its leaf is never kept, so the step asks for a page before the last one.
    fn run_step(
        &mut self,
        alloc: Global,
        known: &mut Known,
        steps: &Steps,
        later: bool,
    ) -> Result<Option<Next>, NoMemory>
        requires pages { ArePages known.old.cache }
        requires nodes { known.old.nodes ≤ 8 }
        requires way { IsOnItsWay known.old steps.now self.old }
        requires more { self.old.done < length steps.now }
        ensures kept { KeepsKnown known.old known.new }
        ensures cache { Walks later (next_then result) known.old.cache known.new.cache }
        ensures stays { KeepsVersion self.old self.new }
        ensures counts { self.new.counts ≡ self.old.counts }
        ensures later { later ≡ true → self.new.pages ≡ self.old.pages }
        ensures last { OnOk result (StaysLast known.old.cache self.old self.new) }
        ensures ran { IfOk result (RunsOn known.new later steps.now self.new) }
        ensures further { IfOk result (RunsFurther self.old self.new) }
        ensures came { later ≡ false
            → OnOk result (CameKept known.new.cache self.old self.new) }
        ensures first { later ≡ false → IfOk result (RunFailsAsKept known.new steps.now self.new) }
    {
        mn_tree::moves_take_steps();
        for _level in 0..LEVELS {
            let addr = match self.overlay.step(alloc, &steps.as_slice()[self.done]) {
                Ok(Stepped::Need { addr }) => addr,
                Ok(answer) => return self.take(alloc, known, steps, answer, later),
                Err(error) => return Err(error),
            };
            match self.reach(alloc, known, steps, addr, later)? {
                Reached::Came => {}
                Reached::Needed => return Ok(Some(Next::Page { addr, peek: !later })),
                Reached::Unfit => return Ok(Some(self.fails(known, steps, later))),
            }
        }
        unreachable!()
    }

    /// Takes the answer of the next step, whose pages are there.
    #[inline(never)]
    fn take(
        &mut self,
        alloc: Global,
        known: &Known,
        steps: &Steps,
        answer: Stepped,
        later: bool,
    ) -> Result<Option<Next>, NoMemory>
        requires nodes { known.now.nodes ≤ 8 }
        requires more { self.old.done < length steps.now }
        requires stepped { HasStepped known.now steps.now self.old answer }
        requires there { NeedsNone answer }
        ensures stays { KeepsVersion self.old self.new }
        ensures counts { self.new.counts ≡ self.old.counts }
        ensures pages { self.new.pages ≡ self.old.pages }
        ensures ran { IfOk result (RunsOn known.now later steps.now self.new) }
        ensures further { IfOk result (RunsFurther self.old self.new) }
        ensures fails { IfOk result (λ next. NamesNoPage next) }
        ensures way { IfOk result (RunFailsOnWay known.now steps.now self.new) }
    {
        mn_tree::moves_take_steps();
        match answer {
            Stepped::Need { .. } => unreachable!(),
            Stepped::BadPath { .. } => Ok(Some(self.fails(known, steps, later))),
            Stepped::Found { value } => {
                self.found.push(value)?;
                self.done += 1;
                Ok(None)
            }
            Stepped::Changed | Stepped::Same => {
                self.done += 1;
                Ok(None)
            }
            Stepped::Unmet { found } => {
                Ok(Some(self.end_unmet(alloc, known, steps, found, later)?))
            }
        }
    }

    /// The walk of the next step can't go on: the try fails.
    #[inline(never)]
    fn fails(&self, known: &Known, steps: &Steps, later: bool) -> Next
        requires more { self.now.done < length steps.now }
        requires may { MayFail known.now later steps.now self.now }
        ensures fails { IsFailure result }
        ensures wants { WantsNext known.now later steps.now self.now result }
    {
        Next::Fails {
            cause: self.fault(known, key_of(&steps.as_slice()[self.done]), later),
        }
    }

    /// Takes the page that a step needs from the cache, in a first try, or tells that it has to be
    /// read.
    fn reach(
        &mut self,
        alloc: Global,
        known: &mut Known,
        steps: &Steps,
        addr: Addr,
        later: bool,
    ) -> Result<Reached, NoMemory>
        requires pages { ArePages known.old.cache }
        requires way { IsOnItsWay known.old steps.now self.old }
        requires asks { Asks steps.now self.old addr }
        ensures kept { KeepsKnown known.old known.new }
        ensures cache { Walks later (next_at later addr result) known.old.cache known.new.cache }
        ensures stays { KeepsVersion self.old self.new }
        ensures counts { self.new.counts ≡ self.old.counts }
        ensures later { later ≡ true → self.new.pages ≡ self.old.pages }
        ensures last { OnOk result (StaysLast known.old.cache self.old self.new) }
        ensures done { self.new.done ≡ self.old.done }
        ensures inner { IfOk result (ComesInner addr self.old self.new) }
        ensures reached { IfOk result (ReachesOn known.new later steps.now addr self.new) }
        ensures came { OnOk result (CameKept known.new.cache self.old self.new) }
        ensures first { later ≡ false → IfOk result (ReachesFirst known.new steps.now self.new) }
    {
        if !known.has_node(addr) {
            return Ok(Reached::Unfit);
        }
        if !later {
            return self.reach_kept(alloc, known, steps, addr);
        }
        known.cache.drop_page(addr);
        Ok(Reached::Needed)
    }

    /// Takes the page from the cache, or tells that it has to be read.
    fn reach_kept(
        &mut self,
        alloc: Global,
        known: &mut Known,
        steps: &Steps,
        addr: Addr,
    ) -> Result<Reached, NoMemory>
        requires pages { ArePages known.old.cache }
        requires way { IsOnItsWay known.old steps.now self.old }
        requires asks { Asks steps.now self.old addr }
        requires node { addr.node.0 < known.old.nodes }
        ensures kept { KeepsKnown known.old known.new }
        ensures cache { AreUsed known.old.cache known.new.cache }
        ensures stays { KeepsVersion self.old self.new }
        ensures counts { self.new.counts ≡ self.old.counts }
        ensures last { OnOk result (StaysLast known.old.cache self.old self.new) }
        ensures done { self.new.done ≡ self.old.done }
        ensures inner { IfOk result (ComesInner addr self.old self.new) }
        ensures reached { IfOk result (ReachesOn known.new false steps.now addr self.new) }
        ensures came { OnOk result (CameKept known.new.cache self.old self.new) }
        ensures first { IfOk result (ReachesFirst known.new steps.now self.new) }
    {
        pages_are_known();
        let Some(kept) = known.kept_page(alloc, addr)? else {
            return Ok(Reached::Needed);
        };
        if self.keep(addr, kept.bytes, kept.page)? {
            Ok(Reached::Came)
        } else {
            Ok(Reached::Unfit)
        }
    }

    /// A page comes in, with its bytes. Whether the step that asked for it goes on at it.
    #[inline(always)]
    fn keep(&mut self, addr: Addr, bytes: SharedBytes, page: SharedPage) -> Result<bool, NoMemory>
        requires wanted { IsWanted self.old.overlay addr }
        requires page { IsPage page }
        requires bytes { bytes ≡ page_bytes page }
        ensures stays { KeepsSteps self.old self.new }
        ensures comes { IfOk result (ComesIn self.old addr page self.new) }
    {
        let leaf = is_leaf(page.get());
        self.pages.push(SeenPage { addr, bytes, leaf })?;
        match self.overlay.add(addr, page) {
            Ok(()) => Ok(true),
            Err(AddError::BadPath { .. }) => Ok(false),
            Err(AddError::NoMemory) => Err(NoMemory),
        }
    }

    /// Takes the page that it asked for, by its bytes.
    pub fn take_page(
        &mut self,
        alloc: Global,
        known: &mut Known,
        steps: &Steps,
        addr: Addr,
        bytes: SharedBytes,
        later: bool,
    ) -> Result<Taken, NoMemory>
        requires way { IsOnItsWay known.old steps.now self.old }
        requires asks { Asks steps.now self.old addr }
        requires node { addr.node.0 < known.old.nodes }
        ensures kept { KeepsKnown known.old known.new }
        ensures cache { Puts addr bytes known.old.cache known.new.cache result }
        ensures stays { KeepsVersion self.old self.new }
        ensures counts { self.new.counts ≡ self.old.counts }
        ensures taken { IfOk result (TakesRead known.old later steps.now self.old addr bytes
            self.new) }
        ensures way { IfOk result (CameBySteps known.new steps.now self.new) }
        ensures read { IfOk result (λ t. t ≡ taken.GoesOn
            → AreReadAs addr bytes self.new.pages.items) }
    {
        pages_are_known();
        mn_tree::moves_come_once();
        let key = key_of(&steps.as_slice()[self.done]);
        let Some(page) = page_in(alloc, &bytes)? else {
            self.pages.push(SeenPage {
                addr,
                bytes,
                leaf: false,
            })?;
            return Ok(Taken::Fails {
                cause: self.fault(known, key, later),
            });
        };
        known.keep_inner(alloc, addr, &page, &bytes)?;
        if self.keep(addr, bytes, page)? {
            Ok(Taken::GoesOn)
        } else {
            Ok(Taken::Fails {
                cause: self.fault(known, key, later),
            })
        }
    }

    /// Takes the count of the next node, by its bytes.
    pub fn take_count(&mut self, bytes: &[u8]) -> Result<Taken, NoMemory>
        requires { length self.old.counts.items < 8 }
        ensures taken { IfOk result (CountsOn self.old self.new bytes.now) }
        ensures same { SameButCounts self.old self.new }
    {
        take_count(&mut self.counts, bytes)
    }

    /// What it has read, of which its plan is made.
    fn tried<'a>(&'a self, nodes: u8, entry: SpelledEntry<'a>, steps: &'a Steps) -> Tried<'a>
        ensures { IsTold nodes entry.entry steps.now self.now result }
    {
        Tried {
            nodes,
            version: self.version,
            entry,
            steps,
            pages: self.pages.as_slice(),
            read_set: self.overlay.read_set(),
        }
    }

    /// Where a Check is unmet: it wants its plan, which compares the leaves that it touched.
    #[inline(never)]
    fn end_unmet(
        &self,
        alloc: Global,
        known: &Known,
        steps: &Steps,
        found: Option<Value>,
        later: bool,
    ) -> Result<Next, NoMemory>
        requires nodes { known.now.nodes ≤ 8 }
        requires unmet { HasUnmet known.now steps.now self.now found }
        ensures wants { IfOk result (WantsNext known.now later steps.now self.now) }
        ensures way { IfOk result (FailsOnWay known.now steps.now self.now) }
    {
        let Some(kept) = &known.catalog else {
            unreachable!();
        };
        let entry = kept.entry(self.version);
        let mini = unmet_plan(alloc, self.tried(known.nodes, entry, steps))?;
        Ok(Next::Plan {
            mini,
            reply: Reply::Unmet {
                step: self.done as u8 + 1,
                found: Found::new(alloc, found)?,
            },
        })
    }

    /// Where all steps are done: it wants the counts, if it needs new slots, and then its plan.
    fn finish(
        &mut self,
        alloc: Global,
        known: &Known,
        steps: &Steps,
        later: bool,
    ) -> Result<Next, NoMemory>
        requires nodes { (1 ≤ known.now.nodes) × (known.now.nodes ≤ 8) }
        requires way { IsOnItsWay known.now steps.now self.old }
        requires done { self.old.done ≡ length steps.now }
        ensures stays { KeepsVersion self.old self.new }
        ensures counts { self.new.counts ≡ self.old.counts }
        ensures pages { self.new.pages ≡ self.old.pages }
        ensures way { IfOk result (StaysOnItsWay known.now steps.now self.new) }
        ensures fails { IfOk result (FailsOnWay known.now steps.now self.new) }
        ensures wants { IfOk result (WantsNext known.now later steps.now self.new) }
    {
        let need = self.overlay.new_pages();
        if need == 0 {
            return self.end(alloc, known, steps, &[], &[], later);
        }
        if self.counts.len() < usize::from(known.nodes) {
            return Ok(Next::Count {
                node: NodeNo(self.counts.len() as u8),
                peek: !later,
            });
        }
        let counts = Counts::from_vec(self.counts.to_vec(alloc)?);
        match plan_slots(alloc, &counts, need) {
            Ok(slots) => self.end(
                alloc,
                known,
                steps,
                counts.as_slice(),
                slots.as_slice(),
                later,
            ),
            Err(AllocError::Full { need, free }) => Ok(full(need, free, later)),
            Err(AllocError::NoMemory) => Err(NoMemory),
        }
    }

    /// Wants its plan, with these slots for its new pages. Where a page was read at one of them no
    /// run can have given these replies.
    fn end(
        &mut self,
        alloc: Global,
        known: &Known,
        steps: &Steps,
        counts: &[u16],
        slots: &[Addr],
        later: bool,
    ) -> Result<Next, NoMemory>
        requires nodes { (1 ≤ known.now.nodes) × (known.now.nodes ≤ 8) }
        requires way { IsOnItsWay known.now steps.now self.old }
        requires done { self.old.done ≡ length steps.now }
        requires slots { slots.now ≡ new_slots self.old.overlay.draft.overlay.fresh
            self.old.counts.items }
        requires counts { HasCounts known.now self.old counts.now slots.now }
        ensures stays { KeepsVersion self.old self.new }
        ensures counts { self.new.counts ≡ self.old.counts }
        ensures pages { self.new.pages ≡ self.old.pages }
        ensures way { IfOk result (StaysOnItsWay known.now steps.now self.new) }
        ensures fails { IfOk result (FailsOnWay known.now steps.now self.new) }
        ensures wants { IfOk result (WantsNext known.now later steps.now self.new) }
    {
        mn_tree::moves_are_met();
        mn_txn::new_slots_are_next();
        let Some(kept) = &known.catalog else {
            unreachable!();
        };
        if was_read(self.pages.as_slice(), slots) {
            return Ok(Next::Fails { cause: None });
        }
        let entry = kept.entry(self.version);
        let pages = self.overlay.place(alloc, slots)?;
        let placing = Placing {
            pages: &pages,
            counts,
            slots,
        };
        match done_plan(alloc, self.tried(known.nodes, entry, steps), placing) {
            Ok(mini) => Ok(Next::Plan {
                mini,
                reply: self.values(alloc),
            }),
            Err(PlanError::Worn { node, start }) => Ok(worn(node, start, later)),
            Err(PlanError::NoMemory) => Err(NoMemory),
        }
    }

    /// The reply of its steps, which it gives away.
    fn values(&mut self, alloc: Global) -> Reply
        ensures reply { result ≡ Values self.old.found.items }
        ensures same { SameButFound self.old self.new }
    {
        let found = mem::replace(&mut self.found, Vec::new(alloc));
        Reply::Values {
            found: Founds::from_vec(found),
        }
    }
}

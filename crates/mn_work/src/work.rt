ghost use Rattle.std.specs.Prelude.{◌≡◌, ◌≢◌, ◌<◌, ◌≤◌, ℕ, List, None, Some, IfOk, length, OnOk};
ghost use Rattle.std.specs.Prelude.{false};
ghost use Rattle.std.specs.Option.{option_map};
ghost use Rattle.mn_base.specs.declared.answer.Answer.TheVariants as answer;
ghost use Rattle.mn_base.specs.declared.reply.Reply.TheVariants.{Pairs};
ghost use Rattle.mn_work.specs.declared.next.Next.TheVariants as next;
ghost use Rattle.mn_work.specs.declared.next.Taken.TheVariants as taken;
ghost use Rattle.mn_work.specs.declared.work.Job.TheVariants as at;
ghost use Rattle.mn_work.specs.declared.work.Started.TheVariants as started;
ghost use Rattle.mn_work.specs.declared.get.Descent.{Descent};
ghost use Rattle.mn_base.specs.declared.op.Op.{Op};
ghost use Rattle.mn_work.specs.Cached.{Replaces, Walks, next_of};
ghost use Rattle.mn_work.specs.Knows.{ArePages, KeepsKnown, LearnsOrForgets};
ghost use Rattle.mn_work.specs.Paths.{GetsAt, HasCurrentPath, LeadsTo, WantsLeaf};
ghost use Rattle.mn_work.specs.Walks.{is_later};
ghost use Rattle.mn_work.specs.Works.{AsksCount, AsksPage, BeginsJob, FailsFirst, IsJobIfOn};
ghost use Rattle.mn_work.specs.Works.{IsJobOf, IsReadIfOn, IsScan, IsStartable, KeepsOp, MayStart};
ghost use Rattle.mn_work.specs.Works.{StartsBy, StaysLast};
ghost use Rattle.mn_work.specs.Works.{TakesCatalog, TakesCountBytes, TakesPageBytes, WantsNext};
ghost use Rattle.mn_work.specs.Works.{BeginsSteps, IsScanOp, WantsSo};
ghost use Rattle.mn_work.specs.Works.{ends_with, lacks_catalog, lone_key, new_work, retried};
ghost use Rattle.mn_work.specs.Works.{version_name};

use crate::attempt::Attempt;
use crate::catalog::{Kept, listing_of};
use crate::child::Child;
use crate::get::Descent;
use crate::grammar::has_right_steps;
use crate::known::Known;
use crate::next::{Next, Taken, fault_at};
use crate::place::CATALOG_NODE;
use crate::scan;
use mn_base::{
    Addr, Answer, Key, Name, NoMemory, Op, Reply, SharedOp, Step, Steps, TryCopy, VersionNo,
};
use mn_mini::SharedBytes;
use mn_scan::ScanRun;
use std::alloc::Global;
use std::mem;

/// How far a try of an operation has come.
#[derive(Debug, Drop)]
pub enum Job {
    /// It has read nothing.
    Start,
    /// A lone Get walks to its leaf.
    Get { descent: Descent },
    /// A transaction makes its steps.
    Transaction { attempt: Attempt },
    /// A Snapshot or a Branch reads what it copies and counts.
    Child { child: Child },
    /// A scan walks from leaf to leaf, also over several tries.
    Scan { scan: ScanRun },
}

/// How a try begins on a catalog that admits its operation.
#[derive(Debug, Drop)]
pub enum Started {
    /// It goes on with its job.
    On,
    /// The catalog shows the reply.
    Replies { reply: Reply },
    /// The root of the scan's version has moved.
    Moved,
}

/// An operation under way.
#[derive(Debug)]
pub struct Work {
    pub op: SharedOp,
    /// How many tries have failed; of a scan, since its last leaf.
    pub failed: u8,
    /// Whether a catalog that was read was none.
    spoiled: bool,
    job: Job,
}

/// It is let go by a call, which is proved once, and not in place wherever one goes.
impl Drop for Work {
    fn drop(self) {
        let Work {
            op,
            failed: _failed,
            spoiled: _spoiled,
            job,
        } = self;
        drop(op);
        drop(job);
    }
}

/// The key of a Get that is alone.
fn lone_get(steps: &Steps) -> Option<&Key>
    ensures { option_map (λ k. k.now) result ≡ lone_key steps.now }
{
    match steps.as_slice() {
        [Step::Get { key }] => Some(key),
        _ => None,
    }
}

/// The name of the version of an operation on one.
fn version_of(op: &Op) -> Option<&Name>
    ensures { option_map (λ n. n.now) result ≡ version_name op.now }
{
    match op {
        Op::Tx { version, .. }
        | Op::Snapshot { version, .. }
        | Op::Branch { version, .. }
        | Op::Scan { version, .. } => Some(version),
        Op::Versions => None,
    }
}

impl Work {
    /// An operation that has begun.
    #[inline(always)]
    pub fn new(op: SharedOp) -> Self
        ensures { result ≡ new_work op }
    {
        Work {
            op,
            failed: 0,
            spoiled: false,
            job: Job::Start,
        }
    }

    /// Whether it is in a later try than the first.
    pub fn is_later(&self) -> bool
        ensures { result ≡ is_later self.now.failed }
    {
        self.failed > 0
    }

    /// Begins a later try, after one that failed. Only a scan takes something along.
    pub fn retry(&mut self)
        requires { self.old.failed < 255 }
        ensures { self.new ≡ retried self.old }
    {
        self.failed += 1;
        match &mut self.job {
            Job::Scan { scan } => scan.restart(),
            _ => self.job = Job::Start,
        }
    }

    /// Whether it has to read the catalog first.
    fn lacks_catalog(&self, known: &Known) -> bool
        ensures { result ≡ lacks_catalog known.now.catalog self.now }
    {
        match &self.job {
            Job::Start => known.lacks_catalog(self.op.get()),
            _ => known.catalog.is_none(),
        }
    }

    /// What it wants next.
    pub fn advance(&mut self, alloc: Global, known: &mut Known) -> Result<Next, NoMemory>
        requires pages { ArePages known.old.cache }
        requires nodes { (1 ≤ known.old.nodes) × (known.old.nodes ≤ 8) }
        requires job { IsJobOf known.old self.old }
        ensures kept { KeepsKnown known.old known.new }
        ensures cache { Walks (is_later self.old.failed) (next_of result)
            known.old.cache known.new.cache }
        ensures op { KeepsOp self.old self.new }
        ensures last { OnOk result (StaysLast known.old.cache self.old.job self.new.job) }
        ensures wants { IfOk result (WantsNext known.new self.old self.new) }
        ensures path { (op : Op) (leaf : Descent) → self.old ≡ new_work op
            → HasCurrentPath known.old op leaf → IfOk result (WantsLeaf leaf self.new) }
    {
        if self.lacks_catalog(known) {
            return Ok(Next::Catalog);
        }
        if let Job::Start = self.job {
            self.begin(alloc, known)?;
        }
        self.go_on(alloc, known)
    }

    /// Begins a transaction on the catalog that is kept.
    fn begin(&mut self, alloc: Global, known: &Known) -> Result<(), NoMemory>
        requires job { self.old.job ≡ at.Start }
        requires may { MayStart known.now self.old }
        requires enough { lacks_catalog known.now.catalog self.old ≡ false }
        ensures op { KeepsOp self.old self.new }
        ensures starts { IfOk result (λ _. StartsBy known.now self.old self.new started.On) }
        ensures right { IfOk result (λ _. IsJobOf known.now self.new) }
    {
        match self.start(alloc, known)? {
            Started::On => Ok(()),
            Started::Replies { .. } => unreachable!(),
            Started::Moved => unreachable!(),
        }
    }

    /// Begins on the catalog that is kept, which admits the operation.
    fn start(&mut self, alloc: Global, known: &Known) -> Result<Started, NoMemory>
        requires may { MayStart known.now self.old }
        ensures op { KeepsOp self.old self.new }
        ensures starts { IfOk result (StartsBy known.now self.old self.new) }
        ensures right { IfOk result (IsJobIfOn known.now self.new) }
    {
        let Some(kept) = &known.catalog else {
            unreachable!();
        };
        let Some(name) = version_of(self.op.get()) else {
            return Ok(Started::Replies {
                reply: Reply::Listing {
                    versions: listing_of(alloc, kept)?,
                },
            });
        };
        let Some((version, root)) = kept.root_of(name) else {
            unreachable!();
        };
        if let Job::Scan { scan } = &self.job {
            if scan.root() == root {
                return Ok(Started::On);
            }
            return Ok(Started::Moved);
        }
        kept.has_entries();
        has_right_steps(self.op.get());
        self.begin_on(alloc, kept, version, root)?;
        Ok(Started::On)
    }

    /// Begins a try on the tree of a version with this root. Its job is made where it stays.
    fn begin_on(
        &mut self,
        alloc: Global,
        kept: &Kept,
        version: VersionNo,
        root: Addr,
    ) -> Result<(), NoMemory>
        requires version { version_name self.old.op ≢ None }
        requires there { version.0 < length kept.now }
        requires within { length kept.now ≤ 64 }
        ensures begins { OnOk result (BeginsJob kept.now self.old version root self.new.job) }
        ensures same { self.new ≡ record self.old { job = self.new.job } }
    {
        match self.op.get() {
            Op::Tx { steps, .. } => {
                if lone_get(steps).is_some() {
                    self.job = Job::Get {
                        descent: Descent::new(version, root),
                    };
                    return Ok(());
                }
                self.begin_steps(alloc, kept, version, root)?;
            }
            Op::Snapshot { .. } | Op::Branch { .. } => {
                self.job = Job::Child {
                    child: Child::new(alloc, version, root),
                };
            }
            Op::Scan { .. } => self.begin_scan(alloc, kept, version, root)?,
            Op::Versions => unreachable!(),
        }
        Ok(())
    }

    /// Begins a try of several steps.
    #[inline(never)]
    fn begin_steps(
        &mut self,
        alloc: Global,
        kept: &Kept,
        version: VersionNo,
        root: Addr,
    ) -> Result<(), NoMemory>
        requires there { version.0 < length kept.now }
        requires within { length kept.now ≤ 64 }
        ensures begins { OnOk result (BeginsSteps kept.now version root self.new.job) }
        ensures same { self.new ≡ record self.old { job = self.new.job } }
    {
        let tree = kept.copy_tree(alloc)?;
        let attempt = Attempt::new(alloc, tree, version, root)?;
        self.job = Job::Transaction { attempt };
        Ok(())
    }

    /// Begins a scan.
    #[inline(never)]
    fn begin_scan(
        &mut self,
        alloc: Global,
        kept: &Kept,
        version: VersionNo,
        root: Addr,
    ) -> Result<(), NoMemory>
        requires scan { IsScanOp self.old.op }
        requires there { version.0 < length kept.now }
        requires within { length kept.now ≤ 64 }
        ensures begins { OnOk result (BeginsJob kept.now self.old version root self.new.job) }
        ensures same { self.new ≡ record self.old { job = self.new.job } }
    {
        let Op::Scan {
            low,
            high,
            limit,
            ..
        } = self.op.get()
        else {
            unreachable!();
        };
        // The pairs have their place at the first catalog, which was none.
        if self.spoiled {
            return Err(NoMemory);
        }
        let tree = kept.copy_tree(alloc)?;
        let low = low.try_copy(alloc)?;
        let high = high.try_copy(alloc)?;
        let scan = ScanRun::new(alloc, tree, version, root, low, high, *limit)?;
        self.job = Job::Scan { scan };
        Ok(())
    }

    /// What its job wants next.
    fn go_on(&mut self, alloc: Global, known: &mut Known) -> Result<Next, NoMemory>
        requires pages { ArePages known.old.cache }
        requires nodes { (1 ≤ known.old.nodes) × (known.old.nodes ≤ 8) }
        requires job { IsJobOf known.old self.old }
        requires started { self.old.job ≢ at.Start }
        ensures kept { KeepsKnown known.old known.new }
        ensures cache { Walks (is_later self.old.failed) (next_of result)
            known.old.cache known.new.cache }
        ensures op { KeepsOp self.old self.new }
        ensures last { OnOk result (StaysLast known.old.cache self.old.job self.new.job) }
        ensures wants { IfOk result (WantsSo known.new self.old self.new) }
        ensures first { is_later self.old.failed ≡ false
            → IfOk result (FailsFirst known.new self.old self.new) }
        ensures path { (key : List ℕ) (d leaf : Descent) → self.old.failed ≡ 0
            → GetsAt self.old key d → LeadsTo known.old key d leaf
            → IfOk result (WantsLeaf leaf self.new) }
    {
        let later = self.is_later();
        match (&mut self.job, self.op.get()) {
            (Job::Get { descent }, Op::Tx { steps, .. }) => match lone_get(steps) {
                Some(key) => Ok(descent.advance(known, key, later)),
                None => unreachable!(),
            },
            (Job::Transaction { attempt }, Op::Tx { steps, .. }) => {
                attempt.advance(alloc, known, steps, later)
            }
            (Job::Child { child }, op) => child.advance(alloc, known, op, later),
            (Job::Scan { scan }, Op::Scan { version, .. }) => {
                match scan::advance(alloc, scan, known, version, later)? {
                    Some(next) => Ok(next),
                    None => Ok(self.end_scan()),
                }
            }
            _ => unreachable!(),
        }
    }

    /// The answer of a scan that has ended.
    #[inline(never)]
    fn end_scan(&mut self) -> Next
        requires { IsScan self.old.job }
        ensures ends { ends_with self.old.job ≡ Some result }
        ensures job { self.new.job ≡ at.Start }
        ensures op { KeepsOp self.old self.new }
        ensures spoiled { self.new.spoiled ≡ self.old.spoiled }
    {
        match mem::replace(&mut self.job, Job::Start) {
            Job::Scan { scan } => Next::Answers {
                answer: Answer::Replied {
                    reply: Reply::Pairs {
                        pairs: scan.into_pairs(),
                    },
                },
            },
            _ => unreachable!(),
        }
    }

    /// Takes the catalog that was read, by its bytes.
    #[inline(never)]
    pub fn take_catalog(
        &mut self,
        alloc: Global,
        known: &mut Known,
        bytes: &SharedBytes,
    ) -> Result<Taken, NoMemory>
        requires startable { IsStartable self.old.op self.old.job }
        ensures kept { (known.new.nodes ≡ known.old.nodes) × (known.new.cache ≡ known.old.cache) }
        ensures learns { LearnsOrForgets bytes.now known.new.catalog }
        ensures op { KeepsOp self.old self.new }
        ensures taken { IfOk result (TakesCatalog bytes.now self.old known.new self.new) }
        ensures right { IfOk result (λ t. t ≡ taken.GoesOn → IsJobOf known.new self.new) }
    {
        if !known.learn(alloc, bytes)? {
            self.spoiled = true;
            let addr = Addr {
                node: CATALOG_NODE,
                slot: 0,
            };
            return Ok(Taken::Fails {
                cause: fault_at(addr, 0),
            });
        }
        if let Some(reply) = known.refusal(self.op.get()) {
            return Ok(Taken::Replies { reply });
        }
        match self.start(alloc, known)? {
            Started::On => Ok(Taken::GoesOn),
            Started::Replies { reply } => Ok(Taken::Replies { reply }),
            Started::Moved => Ok(Taken::Fails { cause: None }),
        }
    }

    /// Takes the page that was read at an address, by its bytes.
    pub fn take_page(
        &mut self,
        alloc: Global,
        known: &mut Known,
        addr: Addr,
        bytes: SharedBytes,
    ) -> Result<Taken, NoMemory>
        requires pages { ArePages known.old.cache }
        requires job { IsJobOf known.old self.old }
        requires asks { AsksPage known.old self.old addr }
        ensures kept { KeepsKnown known.old known.new }
        ensures cache { Replaces addr bytes known.old.cache known.new.cache result }
        ensures op { KeepsOp self.old self.new }
        ensures taken { IfOk result (TakesPageBytes known.old addr bytes self.old self.new) }
        ensures read { IfOk result (IsReadIfOn addr bytes self.new.job) }
    {
        let later = self.is_later();
        known.cache.drop_page(addr);
        match (&mut self.job, self.op.get()) {
            (Job::Get { descent }, Op::Tx { steps, .. }) => match lone_get(steps) {
                Some(key) => descent.take_page(alloc, known, key, &bytes),
                None => unreachable!(),
            },
            (Job::Transaction { attempt }, Op::Tx { steps, .. }) => {
                attempt.take_page(alloc, known, steps, addr, bytes, later)
            }
            (Job::Child { child }, _) => child.take_page(alloc, known, &bytes),
            (Job::Scan { scan }, Op::Scan { version, .. }) => {
                scan::take_page(alloc, scan, known, version, addr, &bytes)
            }
            _ => unreachable!(),
        }
    }

    /// Takes the count of the next node, by its bytes.
    #[inline(never)]
    pub fn take_count(&mut self, bytes: &[u8]) -> Result<Taken, NoMemory>
        requires asks { AsksCount self.old }
        ensures op { KeepsOp self.old self.new }
        ensures taken { IfOk result (TakesCountBytes bytes.now self.old self.new) }
    {
        match &mut self.job {
            Job::Transaction { attempt } => attempt.take_count(bytes),
            Job::Child { child } => child.take_count(bytes),
            _ => unreachable!(),
        }
    }
}

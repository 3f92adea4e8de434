//! How a try fails, and what follows: a later one, or the answer.
ghost use Rattle.std.specs.Prelude.{◌≡◌, ◌≢◌, ◌<◌, ◌+◌, List, IfOk, OnErr, OnOk, None, Some};
ghost use Rattle.mn_runs.specs.declared.entry.Entry.{Entry};
ghost use Rattle.mn_proxy.specs.Agrees.{IsOwnLast};
ghost use Rattle.mn_proxy.specs.Firsts.{IsRefusal, IsSecond};
ghost use Rattle.mn_proxy.specs.Kept.{CatalogTurns};
ghost use Rattle.mn_proxy.specs.Measure.{GoesBelow, left_after};
ghost use Rattle.mn_proxy.specs.Tries.{max_tries};
ghost use Rattle.mn_proxy.specs.Turns.{FailsSo, HasFailed, IsRefused, IsSoundTurn, KeepsSelf};
ghost use Rattle.mn_proxy.specs.Turns.{MayRetry, TurnAgrees};
ghost use Rattle.mn_proxy.specs.Turn.{turned};
ghost use Rattle.mn_work.specs.Works.{IsStartable, retried_job};

use super::Proxy;
use crate::step::ProxyStep;
use mn_base::{Answer, Busy, NoMemory, NodeNo, Tid};
use mn_coord::Outcome;
use mn_mini::{Minitransaction, NodeReply};
use mn_work::{Task, refusal};
use std::alloc::Global;

/// The most tries of an operation, and of each leaf of a scan.
const TRIES: u8 = 8;

/// How a minitransaction failed.
#[derive(Debug, Drop)]
enum Failure {
    /// A node was down, or stopped.
    Down,
    /// A node refused it; so its try failed by this cause.
    Refused { cause: Option<Busy> },
}

/// How a minitransaction failed by this reply.
fn failure_by(
    alloc: Global,
    tid: Tid,
    mini: &Minitransaction,
    node: NodeNo,
    reply: NodeReply,
) -> Result<Failure, NoMemory>
    ensures { IfOk result (FailsSo tid mini.now node (Some reply)) }
{
    match reply {
        NodeReply::NoMemory => Err(NoMemory),
        NodeReply::Down => Ok(Failure::Down),
        NodeReply::Stopped => Ok(Failure::Down),
        reply => {
            let cause = refusal(alloc, tid, mini, node, reply)?;
            Ok(Failure::Refused { cause })
        }
    }
}

/// How a minitransaction failed, by the reply of this node. NoMemory: for want of memory, there or
/// here.
#[inline(never)]
fn failure_of(alloc: Global, tid: Tid, node: NodeNo, outcome: Outcome) -> Result<Failure, NoMemory>
    requires failed { outcome.reply ≢ None }
    ensures { IfOk result (FailsSo tid outcome.mini node outcome.reply) }
{
    let Outcome {
        mini,
        reply,
        reads: _reads,
    } = outcome;
    match reply {
        Some(reply) => failure_by(alloc, tid, &mini, node, reply),
        None => unreachable!(),
    }
}

impl Proxy {
    /// Goes on after a minitransaction that failed by the reply of this node.
    #[inline(never)]
    pub(super) fn refuse(
        &mut self,
        alloc: Global,
        work: Task,
        tid: Tid,
        node: NodeNo,
        outcome: Outcome,
    ) -> Result<ProxyStep, NoMemory>
        requires idle { self.old.work ≡ None }
        requires few { work.failed < max_tries }
        requires startable { IsStartable work.op (retried_job work.job) }
        requires failed { outcome.reply ≢ None }
        ensures sound { IfOk (turned self.new.work result) (IsSoundTurn self.new.known) }
        ensures turns { (es : List Entry) → IsOwnLast es self.old
            → IsRefused es self.old.known work tid outcome.mini node outcome.reply
            → IfOk (turned self.new.work result) (TurnAgrees es self.new) }
        ensures left { (es : List Entry) → IsOwnLast es self.old
            → OnErr result (IsOwnLast es self.new) }
        ensures kept { KeepsSelf self.old self.new × OnErr result (self.new.work ≡ None) }
        ensures falls { IfOk (turned self.new.work result)
            (GoesBelow (left_after self.old) self.new) }
        ensures cache { self.new.known.cache ≡ self.old.known.cache }
        ensures catalog { IfOk (turned self.new.work result)
            (CatalogTurns None self.old.known.catalog self.new.known.catalog) }
        ensures left_catalog { OnErr result (self.new.known.catalog ≡ self.old.known.catalog) }
        ensures lacks { outcome.reply ≡ Some NodeReply.NoMemory → OnOk result ⊥ }
        ensures first { (es : List Entry)
            → IsRefused es self.old.known work tid outcome.mini node outcome.reply
            → IfOk (turned self.new.work result)
            (λ turn. IsSecond turn → IsRefusal outcome.reply) }
    {
        match failure_of(alloc, tid, node, outcome)? {
            Failure::Down => Ok(ProxyStep::Done {
                answer: Answer::Down { node },
            }),
            Failure::Refused { cause } => self.fail(alloc, work, cause),
        }
    }

    /// Goes on after a try that failed: with a later one, which reads the catalog anew, or with the
    /// answer. Only the first try may fail with no cause. A later one does so by replies that no
    /// run gives, which nothing here rules out: the answer is NoMemory then.
    #[inline(never)]
    pub(super) fn fail(
        &mut self,
        alloc: Global,
        work: Task,
        cause: Option<Busy>,
    ) -> Result<ProxyStep, NoMemory>
        requires idle { self.old.work ≡ None }
        requires few { work.failed < max_tries }
        requires startable { IsStartable work.op (retried_job work.job) }
        ensures sound { IfOk (turned self.new.work result) (IsSoundTurn self.new.known) }
        ensures turns { (es : List Entry) → IsOwnLast es self.old
            → HasFailed es self.old.known work cause
            → IfOk (turned self.new.work result) (TurnAgrees es self.new) }
        ensures left { (es : List Entry) → IsOwnLast es self.old
            → OnErr result (IsOwnLast es self.new) }
        ensures kept { KeepsSelf self.old self.new × OnErr result (self.new.work ≡ None) }
        ensures falls { IfOk (turned self.new.work result)
            (GoesBelow (left_after self.old) self.new) }
        ensures cache { self.new.known.cache ≡ self.old.known.cache }
        ensures catalog { IfOk (turned self.new.work result)
            (CatalogTurns None self.old.known.catalog self.new.known.catalog) }
        ensures left_catalog { OnErr result (self.new.known.catalog ≡ self.old.known.catalog) }
    {
        match cause {
            None if work.get().is_later() => Err(NoMemory),
            Some(cause) if work.get().failed + 1 >= TRIES => Ok(ProxyStep::Done {
                answer: Answer::Busy { cause },
            }),
            _ => self.retry(alloc, work),
        }
    }

    /// Begins a later try, which goes by no kept catalog. Where there is no memory for one the
    /// catalog stays.
    #[inline(always)]
    fn retry(&mut self, alloc: Global, work: Task) -> Result<ProxyStep, NoMemory>
        requires idle { self.old.work ≡ None }
        requires few { work.failed + 1 < max_tries }
        requires startable { IsStartable work.op (retried_job work.job) }
        ensures sound { IfOk (turned self.new.work result) (IsSoundTurn self.new.known) }
        ensures turns { (es : List Entry) → IsOwnLast es self.old
            → MayRetry es self.old.known work
            → IfOk (turned self.new.work result) (TurnAgrees es self.new) }
        ensures left { (es : List Entry) → IsOwnLast es self.old
            → OnErr result (IsOwnLast es self.new) }
        ensures kept { KeepsSelf self.old self.new × OnErr result (self.new.work ≡ None) }
        ensures falls { IfOk (turned self.new.work result)
            (GoesBelow (left_after self.old) self.new) }
        ensures cache { self.new.known.cache ≡ self.old.known.cache }
        ensures catalog { IfOk (turned self.new.work result)
            (CatalogTurns None self.old.known.catalog self.new.known.catalog) }
        ensures left_catalog { OnErr result (self.new.known.catalog ≡ self.old.known.catalog) }
    {
        let mut work = work;
        work.get_mut().retry();
        let kept = self.known.catalog.take();
        match self.read_catalog(alloc, work) {
            Ok(step) => Ok(step),
            Err(error) => {
                self.known.catalog = kept;
                Err(error)
            }
        }
    }
}

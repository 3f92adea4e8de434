ghost use Rattle.std.specs.Prelude.{◌≡◌, ◌<◌, ◌≤◌, true, false, [], ◌∷◌, length, slice_index_or};
ghost use Rattle.std.specs.Prelude.{IfOk, OnOk};
ghost use Rattle.std.specs.Option.{option_map};
ghost use Rattle.mn_mini.specs.Mini.{IsSound, participants_of};
ghost use Rattle.mn_coord.specs.Inside.{view_of, unfilled, filled, IsSoundInside};

use crate::requests::Requests;
use crate::stage::stage_for;
use crate::{AllReads, CoordStep, Outcome, Stage};
use mn_base::{NoMemory, NodeNo, Tid};
use mn_mini::{Minitransaction, NodeReply, Reads, Request};
use std::alloc::Global;

/// What a coordinator keeps.
#[derive(Debug)]
pub struct Machine {
    tid: Tid,
    mini: Minitransaction,
    requests: Requests,
    reads: AllReads,
    done: usize,
    refused: Option<NodeReply>,
    told: bool,
    decided: usize,
    asked: bool,
}

/// It is let go by a call, which is proved once, and not in place wherever one goes.
impl Drop for Machine {
    fn drop(self) {
        let Machine {
            tid: _tid,
            mini,
            requests,
            reads,
            done: _done,
            refused,
            told: _told,
            decided: _decided,
            asked: _asked,
        } = self;
        drop(mini);
        drop(requests);
        drop(reads);
        drop(refused);
    }
}

/// How many participants it has. There is one, since it has an item.
fn participants_in(mini: &Minitransaction) -> usize
    ensures count { result ≡ length (participants_of mini.now) }
    ensures some { 1 ≤ result }
    ensures sound { IsSound mini.now }
{
    let _items = mini.items();
    mini.participants().as_slice().len()
}

/// The participant of this number.
fn node_at(mini: &Minitransaction, number: usize) -> NodeNo
    requires { number < length (participants_of mini.now) }
    ensures { result ≡ slice_index_or (participants_of mini.now) number (record { 0 = 0 }) }
{
    mini.participants().as_slice()[number]
}

/// What is kept of a minitransaction before its requests are made. What is handed back where there
/// is no memory is large: it is let go at once, and not moved through a `?`.
fn machine_for(alloc: Global, tid: Tid, mini: Minitransaction) -> Result<Box<Machine>, NoMemory>
    ensures { IfOk result (λ machine. machine.value ≡ unfilled tid mini) }
{
    let made = Box::new(
        alloc,
        Machine {
            tid,
            mini,
            requests: Requests::none(),
            reads: AllReads::of_one(),
            done: 0,
            refused: None,
            told: false,
            decided: 0,
            asked: false,
        },
    );
    match made {
        Ok(machine) => Ok(machine),
        Err(_) => Err(NoMemory),
    }
}

impl Machine {
    ghost use Rattle.mn_mini.specs.declared.request.Request.TheVariants.{Decide};
    ghost use Rattle.mn_coord.specs.declared.stage.Stage.TheVariants.{Ask};
    ghost use Rattle.mn_coord.specs.declared.step.CoordStep.TheVariants.{Send};
    ghost use Rattle.mn_coord.specs.Coordination.{IsSoundCoordination, participant, stage_in};
    ghost use Rattle.mn_coord.specs.Coordination.{step_of, after_step, fed};

    /// That of a minitransaction that was not asked for yet, made in the memory where it stays.
    /// NoMemory: there was no memory for all that it will need.
    pub fn new(alloc: Global, tid: Tid, mini: Minitransaction) -> Result<Box<Self>, NoMemory>
        ensures starts { IfOk result (λ m. m.value
            ≡ filled (unfilled tid mini) (length (participants_of mini))) }
        ensures some { OnOk result (1 ≤ length (participants_of mini)) }
        ensures sound { OnOk result (IsSound mini) }
    {
        let mut machine = machine_for(alloc, tid, mini)?;
        machine.fill(alloc)?;
        Ok(machine)
    }

    /// Makes its requests, and room for what its participants read.
    fn fill(&mut self, alloc: Global) -> Result<(), NoMemory>
        requires none { self.old.requests ≡ [] }
        requires one { self.old.reads ≡ [] ∷ [] }
        ensures filled { OnOk result
            (self.new ≡ filled self.old (length (participants_of self.old.mini))) }
        ensures some { OnOk result (1 ≤ length (participants_of self.old.mini)) }
        ensures sound { OnOk result (IsSound self.old.mini) }
    {
        let participants = participants_in(&self.mini);
        self.requests.make(alloc, self.tid, &self.mini)?;
        if participants != 1 {
            self.reads = AllReads::new(alloc, participants)?;
        }
        Ok(())
    }

    // What is so of each.
    pub fn is_sound(&self)
        requires { IsSoundInside self.now }
        ensures { IsSoundCoordination (view_of self.now) }
    {}

    fn stage(&self) -> Stage
        requires { IsSoundInside self.now }
        ensures { result ≡ stage_in (view_of self.now) }
    {
        stage_for(
            self.mini.participants().as_slice().len(),
            self.done,
            self.refused.as_ref(),
            self.told,
            self.decided,
        )
    }

    /// Hands out the request to the next participant.
    #[inline(never)]
    fn ask(&mut self) -> CoordStep
        requires sound { IsSoundInside self.old }
        requires idle { self.old.asked ≡ false }
        requires stage { stage_in (view_of self.old) ≡ Ask }
        ensures sound { IsSoundInside self.new }
        ensures step { result ≡ step_of (view_of self.old) }
        ensures after { view_of self.new ≡ after_step (view_of self.old) result }
    {
        self.asked = true;
        let node = node_at(&self.mini, self.done);
        match self.requests.pop_front() {
            Some(request) => CoordStep::Send { node, request },
            None => unreachable!(),
        }
    }

    /// Tells the next participant the decision.
    #[inline(never)]
    fn decide(&mut self, yes: bool) -> CoordStep
        requires { self.old.decided < length (participants_of self.old.mini) }
        ensures step { result
            ≡ Send (participant (view_of self.old) self.old.decided) (Decide self.old.tid yes) }
        ensures after { self.new ≡ record self.old { asked = true } }
    {
        self.asked = true;
        CoordStep::Send {
            node: node_at(&self.mini, self.decided),
            request: Request::Decide { tid: self.tid, yes },
        }
    }

    /// What it wants next.
    #[inline(always)]
    pub fn advance(&mut self) -> CoordStep
        requires sound { IsSoundInside self.old }
        requires idle { self.old.asked ≡ false }
        ensures sound { IsSoundInside self.new }
        ensures step { result ≡ step_of (view_of self.old) }
        ensures after { view_of self.new ≡ after_step (view_of self.old) result }
    {
        match self.stage() {
            Stage::Ask => self.ask(),
            Stage::Commit => self.decide(true),
            Stage::Abandon => {
                self.told = true;
                CoordStep::Abandon
            }
            Stage::Cancel => self.decide(false),
            Stage::Committed => CoordStep::Committed,
            Stage::Failed => CoordStep::Failed {
                node: node_at(&self.mini, self.done),
            },
            Stage::Doubt => CoordStep::Doubt {
                node: node_at(&self.mini, self.done),
            },
        }
    }

    /// The reply to the request that is out.
    pub fn take(&mut self, reply: NodeReply)
        requires sound { IsSoundInside self.old }
        requires asked { self.old.asked ≡ true }
        ensures sound { IsSoundInside self.new }
        ensures fed { view_of self.new ≡ fed (view_of self.old) reply }
    {
        let stage = self.stage();
        self.asked = false;
        match (stage, reply) {
            (Stage::Ask, NodeReply::Done { reads }) => {
                self.reads.put(self.done, reads);
                self.done += 1;
            }
            (Stage::Ask, reply) => self.refused = Some(reply),
            (Stage::Commit | Stage::Cancel, _) => self.decided += 1,
            _ => {}
        }
    }

    /// What each participant read, by participant, where it is committed.
    pub fn reads(&self) -> &[Reads]
        ensures { result.now ≡ self.now.reads }
    {
        self.reads.as_slice()
    }

    /// The reply by which it failed, or is in doubt.
    pub fn reply(&self) -> Option<&NodeReply>
        ensures { option_map (λ r. r.now) result ≡ self.now.refused }
    {
        self.refused.as_ref()
    }

    /// What it ends with. It takes no memory.
    #[inline(always)]
    pub fn into_outcome(self) -> Outcome
        ensures mini { result.mini ≡ self.mini }
        ensures reads { result.reads ≡ self.reads }
        ensures reply { result.reply ≡ self.refused }
    {
        let Machine {
            tid: _tid,
            mini,
            requests: _requests,
            reads,
            done: _done,
            refused,
            told: _told,
            decided: _decided,
            asked: _asked,
        } = self;
        Outcome {
            mini,
            reads,
            reply: refused,
        }
    }
}

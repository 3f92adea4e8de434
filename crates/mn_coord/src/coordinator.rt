ghost use Rattle.std.specs.Prelude.{◌≡◌, ◌≢◌, true, false, None, List, ◌∷◌, IfOk};
ghost use Rattle.std.specs.Option.{option_map};
ghost use Rattle.mn_mini.specs.RecordGrammar.{IsTid};

use crate::machine::Machine;
use crate::{CoordStep, Outcome};
use mn_base::{NoMemory, Tid};
use mn_mini::{Minitransaction, NodeReply, Reads, parts_sound};
use std::alloc::Global;
use std::marker::Model;

/// A minitransaction on its way. Contracts see what it was answered so far. It is moved often, so
/// what it keeps lies elsewhere.
#[derive(Debug)]
pub struct Coordinator {
    machine: Box<Machine>,
}

/// It is let go by a call, which is proved once, and not in place wherever one goes.
impl Drop for Coordinator {
    fn drop(self) {
        let Coordinator { machine } = self;
        drop(machine);
    }
}

impl Model for Coordinator {
    ghost use Rattle.mn_coord.specs.Coordination.{Coordination};
    ghost use Rattle.mn_coord.specs.Inside.{view_of, IsSoundInside};

    ghost Value = { Coordination };

    ghost view = { λ c. view_of c.machine.value };

    ghost invariant = { λ c. IsSoundInside c.machine.value };
}

impl Coordinator {
    ghost use Rattle.mn_base.specs.declared.ids.NodeNo.{NodeNo};
    ghost use Rattle.mn_mini.specs.declared.request.Request.{Request};
    ghost use Rattle.mn_runs.specs.declared.entry.Entry.{Entry};
    ghost use Rattle.mn_runs.specs.declared.entry.What.TheVariants as is;
    ghost use Rattle.mn_coord.specs.declared.step.CoordStep.TheVariants.{Send, Abandon};
    ghost use Rattle.mn_coord.specs.Coordination.{IsSoundCoordination, IsSoundStep};
    ghost use Rattle.mn_coord.specs.Coordination.{new_coordination, step_of, after_step, fed};
    ghost use Rattle.mn_coord.specs.Legal.{Agrees, IsAsking, IsFresh, IsAnswered, MayMake};

    /// The coordinator of the minitransaction under this id, which has a run and a serial from 1 on
    /// and a client from 0 to 20. NoMemory: there was no memory for all that it will need.
    #[inline(never)]
    pub fn new(alloc: Global, tid: Tid, mini: Minitransaction) -> Result<Self, NoMemory>
        requires id { IsTid tid }
        ensures starts { IfOk result (λ c. c ≡ new_coordination tid mini) }
        ensures agrees { (es : List Entry) (e : Entry) → IsFresh tid es → e.node ≡ None
            → e.what ≡ is.Issue tid mini → IfOk result (λ c. Agrees (e ∷ es) c) }
    {
        Ok(Coordinator {
            machine: Machine::new(alloc, tid, mini)?,
        })
    }

    // What is so of each.
    fn is_sound(&self)
        ensures { IsSoundCoordination self.now }
    {
        self.machine.is_sound();
    }

    #[inline(always)]
    fn advance(&mut self) -> CoordStep
        requires idle { self.old.asked ≡ false }
        ensures step { result ≡ step_of self.old }
        ensures after { self.new ≡ after_step self.old result }
    {
        self.machine.advance()
    }

    #[inline(always)]
    fn take(&mut self, reply: NodeReply)
        requires { self.old.asked ≡ true }
        ensures { self.new ≡ fed self.old reply }
    {
        self.machine.take(reply);
    }

    /// What it wants next. A request is handed out once, and Abandon is told once. It takes no
    /// memory. The client may make it, by the commit protocol, where its list holds the issue and
    /// the calls so far.
    #[inline(always)]
    pub fn next(&mut self) -> CoordStep
        requires idle { self.old.asked ≡ false }
        ensures step { result ≡ step_of self.old }
        ensures after { self.new ≡ after_step self.old result }

        // A request is sound, and goes to a node that the minitransaction was made for.
        ensures sound { IsSoundStep self.old.mini.nodes result }
        ensures legal { (es : List Entry) → Agrees es self.old → MayMake es self.old.tid result }
        ensures agrees { (es : List Entry) → Agrees es self.old → step_of self.old ≢ Abandon
            → Agrees es self.new }
        ensures abandoned { (es : List Entry) (e : Entry) → Agrees es self.old
            → step_of self.old ≡ Abandon → e.node ≡ None → e.what ≡ is.Abandoned self.old.tid
            → Agrees (e ∷ es) self.new }
    {
        parts_sound();
        self.is_sound();
        self.advance()
    }

    /// The reply to the request that is out. It takes no memory.
    #[inline(always)]
    pub fn feed(&mut self, reply: NodeReply)
        requires out { self.old.asked ≡ true }
        ensures fed { self.new ≡ fed self.old reply }
        ensures idle { self.new.asked ≡ false }
        ensures agrees { (es : List Entry) (e : Entry) (node : NodeNo) (request : Request)
            → Agrees es self.old → step_of self.old ≡ Send node request
            → IsAnswered e node request reply → Agrees (e ∷ es) self.new }

        // NoMemory to a Prepare or an Exec is no entry.
        ensures no_entry { reply ≡ NodeReply.NoMemory → IsAsking self.old
            → (es : List Entry) → Agrees es self.old → Agrees es self.new }
    {
        self.take(reply);
    }

    /// What each participant read, by participant, where it is committed.
    pub fn reads(&self) -> &[Reads]
        ensures { result.now ≡ self.now.reads }
    {
        self.machine.reads()
    }

    /// The reply by which it failed, or is in doubt.
    pub fn reply(&self) -> Option<&NodeReply>
        ensures { option_map (λ r. r.now) result ≡ self.now.refused }
    {
        self.machine.reply()
    }

    /// What it ends with. It takes no memory.
    #[inline(always)]
    pub fn into_outcome(self) -> Outcome
        ensures mini { result.mini ≡ self.mini }
        ensures reads { result.reads ≡ self.reads }
        ensures reply { result.reply ≡ self.refused }
    {
        let Coordinator { machine } = self;
        Box::into_inner(machine).into_outcome()
    }
}

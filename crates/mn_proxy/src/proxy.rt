//! The machine: which operation is under way, and what is on its way for it.
ghost use Rattle.std.specs.Prelude.{◌≡◌, ◌≤◌, ◌∷◌, [], List, IfOk, IfSome, OnErr, OnOk, None};
ghost use Rattle.std.specs.Prelude.{Some};
ghost use Rattle.mn_base.specs.declared.ids.NodeNo.{NodeNo};
ghost use Rattle.mn_base.specs.declared.ids.Tid.{Tid};
ghost use Rattle.mn_base.specs.declared.op.Op.{Op};
ghost use Rattle.mn_mini.specs.declared.request.Request.{Request};
ghost use Rattle.mn_mini.specs.Sound.{Fits};
ghost use Rattle.mn_coord.specs.declared.step.CoordStep.TheVariants.{Send};
ghost use Rattle.mn_coord.specs.Coordination.{Coordination, step_of, fed as fed_by};
ghost use Rattle.mn_coord.specs.Legal.{IsAnswered};
ghost use Rattle.mn_runs.specs.declared.entry.Entry.{Entry};
ghost use Rattle.mn_proxy.specs.declared.errand.Errand.TheVariants as errands;
ghost use Rattle.mn_proxy.specs.declared.errand.Purpose.{Purpose};
ghost use Rattle.mn_work.specs.declared.get.Descent.{Descent};
ghost use Rattle.mn_work.specs.declared.work.Work.{Work};
ghost use Rattle.mn_proxy.specs.Agrees.{Agrees, BeginsNext, Enters, EntersWant, ErrandAgrees};
ghost use Rattle.mn_proxy.specs.Agrees.{HasOut, IsOwn, IsOwnLast, IsSoundStep, MayStep, MayWant};
ghost use Rattle.mn_proxy.specs.Agrees.{Wants};
ghost use Rattle.mn_proxy.specs.Firsts.{FailsBy, FailsFirst, IsSecond};
ghost use Rattle.mn_proxy.specs.Kept.{CacheGoes, CacheTurns, CatalogGoes, CatalogLeft};
ghost use Rattle.mn_proxy.specs.Kept.{CatalogTurns, KeepsOrForgets, StepCalls, read_by};
ghost use Rattle.mn_proxy.specs.Measure.{Falls, GoesBelow, steps_left};
ghost use Rattle.mn_work.specs.Paths.{HasCurrentPath};
ghost use Rattle.mn_proxy.specs.LeafReads.{LeafGoes, LeafTurns, ReadsLeaf};
ghost use Rattle.mn_proxy.specs.LeafReads.{StepReadsLeaf};
ghost use Rattle.mn_proxy.specs.State.{IsIdle, IsOut, IsOutIn, IsReady, begun, new_proxy};
ghost use Rattle.mn_proxy.specs.Turns.{GivesUp, IsSoundTurn, IsSoundWork, KeepsSelf, LacksIn};
ghost use Rattle.mn_proxy.specs.Turns.{IsSentWhole, IsSentWholeIn, LacksMemory, OwesNoDecide};
ghost use Rattle.mn_proxy.specs.Turns.{Sends, StepIsAsAsked, TurnAgrees, with_work};
ghost use Rattle.mn_proxy.specs.Turn.{turned};
ghost use Rattle.mn_work.specs.Walks.{is_later};
ghost use Rattle.mn_work.specs.Works.{new_work};

use crate::errand::Errand;
use crate::step::ProxyStep;
use mn_base::{ClientNo, NoMemory};
use mn_mini::NodeReply;
use mn_work::{Known, Task};
use std::alloc::Global;
use std::marker::Model;

mod issuing;
mod retrying;
mod taking;

/// The most Peeks between two minitransactions: more than a try can ask for, and a bound of the
/// steps of an operation.
const PEEKS: u16 = 4_096;

/// The proxy of a client, which runs its operations one after another.
pub struct Proxy {
    client: ClientNo,
    run: u32,
    /// How many serials were given out.
    issued: u32,
    /// How many Peeks may come before the next one is.
    peeks: u16,
    known: Known,
    /// The operation under way, and what is on its way for it.
    work: Option<(Task, Errand)>,
}

/// It is let go by a call, which is proved once, and not in place wherever one goes.
impl Drop for Proxy {
    fn drop(self) {
        let Proxy {
            client: _client,
            run: _run,
            issued: _issued,
            peeks: _peeks,
            known,
            work,
        } = self;
        drop(known);
        drop(work);
    }
}

impl Model for Proxy {
    ghost use Rattle.mn_proxy.specs.State.{ProxyState};
    ghost use Rattle.mn_proxy.specs.Turns.{IsSoundInside};

    ghost Value = { ProxyState };

    ghost view = { λ p. record {
      client = p.client;
      run = p.run;
      issued = p.issued;
      peeks = p.peeks;
      known = p.known;
      work = p.work;
    } };

    ghost invariant = { IsSoundInside };
}

impl Proxy {
    /// The proxy of a client, 0 to 15, in a run of this number, at least 1, over 1 to 8 nodes. It
    /// keeps nothing yet. NoMemory: there was no memory for it.
    pub fn new(alloc: Global, client: ClientNo, run: u32, nodes: u8) -> Result<Self, NoMemory>
        requires client { client.0 ≤ 15 }
        requires run { 1 ≤ run }
        requires nodes { (1 ≤ nodes) × (nodes ≤ 8) }
        ensures starts { IfOk result (λ proxy. proxy ≡ new_proxy client run nodes) }
        ensures agrees { IfOk result (λ proxy. Agrees [] proxy) }
    {
        let known = Known::new(alloc, nodes)?;
        Ok(Proxy {
            client,
            run,
            issued: 0,
            peeks: PEEKS,
            known,
            work: None,
        })
    }

    /// Begins an operation, where none is under way. It takes no memory.
    pub fn begin(&mut self, work: Task)
        requires idle { IsIdle self.old }
        requires new { work ≡ new_work work.op }
        ensures begun { self.new ≡ begun self.old work.op }
        ensures ready { IsReady self.new }
        ensures agrees { (es : List Entry) (e : Entry) → Agrees es self.old
            → BeginsNext es self.old.client work.op e → Agrees (e ∷ es) self.new }
    {
        self.peeks = PEEKS;
        self.work = Some((work, Errand::Nothing));
    }

    /// What it wants next. After Done no operation is under way. NoMemory: there was no memory,
    /// here or at a node, or no serial is left for one more. It comes only while no minitransaction
    /// is under way: the last one has ended. The answer is NoMemory then, and no operation is under
    /// way.
    pub fn next(&mut self, alloc: Global) -> Result<ProxyStep, NoMemory>
        requires ready { IsReady self.old }

        // A request is sound, and goes to one of the nodes.
        ensures sound { IfOk result (IsSoundStep self.old.known.nodes) }

        // The client may make the step by its own list, which shows what the step means.
        ensures legal { (es : List Entry) → Agrees es self.old → IfOk result (MayStep es self.old) }
        ensures agrees { (es new : List Entry) → Agrees es self.old
            → IfOk result (λ step. Enters es self.old step new → Agrees new self.new) }
        ensures goes_on { IfOk result (λ step. Wants step self.new) }

        // What is issued is on its way, and a plan is just what its try asks for: it writes the
        // pages that its steps changed, and its new pages take the next slots by the counts.
        ensures made { IfOk result (StepIsAsAsked self.new) }

        // Want of memory comes only while no minitransaction is under way. The operation may be
        // answered so, and none is under way.
        ensures over { OnErr result (IsSentWholeIn self.old.work) }
        ensures want { (es : List Entry) → Agrees es self.old → OnErr result (MayWant es) }
        ensures left { (es new : List Entry) → Agrees es self.old
            → OnErr result (EntersWant es self.old new → Agrees new self.new) }
        ensures ended { OnErr result (IsIdle self.new) }
        ensures kept { KeepsSelf self.old self.new }

        // After a reply that there is no memory no call follows: what it was for is given up, or
        // the operation is answered.
        ensures lacks { LacksMemory self.old → IfOk result GivesUp }

        // A first try fails only where a node refused it, or where it can't go on: at what was
        // read, at a page that is kept, or where a later one would be answered.
        ensures first { (es : List Entry) → Agrees es self.old
            → IfOk result (λ _. FailsFirst self.old self.new) }

        // Each step lowers the number of steps that are left, which `feed` never raises.
        ensures falls { IfOk result (Falls self.old self.new) }

        // What is kept stays, but for what was read, for want of room, and for a later try. For
        // want of memory the catalog goes only where it was read.
        ensures cache { CacheGoes self.old self.new result }
        ensures catalog { IfOk result (CatalogGoes self.old self.new) }
        ensures left_catalog { OnErr result (CatalogLeft self.old self.new) }

        // The calls of a minitransaction are those of its coordinator.
        ensures calls { (work : Work) (tid : Tid) (c : Coordination) (purpose : Purpose)
            (node : NodeNo) (request : Request)
            → (self.old.work ≡ Some (work, errands.Mini tid c purpose))
            → step_of c ≡ Send node request → IfOk result
            (StepCalls self.old self.new work tid c purpose node request) }

        // A lone Get with a current path reads its leaf alone, and is done with it.
        ensures path { (op : Op) (leaf : Descent)
            → (self.old.work ≡ Some (new_work op, errands.Nothing))
            → HasCurrentPath self.old.known op leaf
            → IfOk result (StepReadsLeaf self.old.known.nodes op leaf self.new) }
        ensures leaf { LeafGoes self.old result }
    {
        match self.send() {
            Some(step) => Ok(step),
            None => {
                let Some((work, errand)) = self.work.take() else {
                    unreachable!();
                };
                self.turn(alloc, work, errand)
            }
        }
    }

    /// Hands out the next request of the minitransaction under way, or tells that it is given up,
    /// while it stays where it lies. None: neither is due, and all is as it was.
    #[inline(always)]
    fn send(&mut self) -> Option<ProxyStep>
        requires ready { IsReady self.old }
        ensures sends { IfSome result (Sends self.old self.new) }
        ensures same { result ≡ None → self.new ≡ self.old }
        ensures whole { result ≡ None → IsSentWholeIn self.old.work }
    {
        let Some((_, errand)) = &mut self.work else {
            return None;
        };
        errand.send()
    }

    /// Goes on with what is on its way.
    #[inline(never)]
    fn turn(&mut self, alloc: Global, work: Task, errand: Errand) -> Result<ProxyStep, NoMemory>
        requires idle { self.old.work ≡ None }
        requires ready { IsOutIn (Some (work, errand)) → ⊥ }
        requires whole { IsSentWhole errand }
        requires sound { IsSoundWork self.old.known work errand }
        ensures sound { IfOk (turned self.new.work result) (IsSoundTurn self.new.known) }
        ensures turns { (es : List Entry) → IsOwn es self.old
            → ErrandAgrees es self.old.known work errand
            → IfOk (turned self.new.work result) (TurnAgrees es self.new) }
        ensures want { (es : List Entry) → IsOwn es self.old
            → ErrandAgrees es self.old.known work errand → OnErr result (MayWant es) }
        ensures left { (es : List Entry) → IsOwn es self.old
            → ErrandAgrees es self.old.known work errand
            → OnErr result (IsOwnLast es self.new) }
        ensures kept { KeepsSelf self.old self.new × OnErr result (self.new.work ≡ None) }
        ensures falls { IfOk (turned self.new.work result)
            (GoesBelow (steps_left (with_work self.old work errand)) self.new) }
        ensures cache { CacheTurns (read_by errand) (is_later work.failed)
            self.old.known.cache self.new.known.cache (turned self.new.work result) }
        ensures catalog { IfOk (turned self.new.work result)
            (CatalogTurns (read_by errand) self.old.known.catalog self.new.known.catalog) }
        ensures left_catalog { OnErr result
            (KeepsOrForgets (read_by errand) self.old.known.catalog self.new.known.catalog) }
        ensures lacks { LacksIn (Some (work, errand)) → OnOk result ⊥ }
        ensures first { (es : List Entry) → IsOwn es self.old
            → ErrandAgrees es self.old.known work errand → work.failed ≡ 0
            → IfOk (turned self.new.work result)
            (λ turn. IsSecond turn → FailsBy self.old.known work errand) }
        ensures path { (op : Op) (leaf : Descent) → (work ≡ new_work op)
            → errand ≡ errands.Nothing → HasCurrentPath self.old.known op leaf
            → IfOk (turned self.new.work result) (ReadsLeaf self.old.known.nodes op leaf) }
        ensures leaf { LeafTurns self.old.known work (read_by errand)
            (turned self.new.work result) }
    {
        match errand {
            Errand::Nothing => self.advance(alloc, work),
            Errand::Peek { .. } => unreachable!(),
            Errand::Peeked {
                place,
                reply,
                purpose,
            } => self.take_peeked(alloc, work, place, reply, purpose),
            Errand::Mini {
                tid,
                coordinator,
                purpose,
            } => self.coordinate(alloc, work, tid, coordinator, purpose),
        }
    }

    /// The reply to the request that is out, of a kind that it may be answered by. It takes no
    /// memory.
    pub fn feed(&mut self, reply: NodeReply)
        requires out { IsOut self.old }
        requires fits { (node : NodeNo) (request : Request) → HasOut self.old node request
            → Fits request reply }
        ensures ready { IsReady self.new }
        ensures agrees { (es : List Entry) (e : Entry) (node : NodeNo) (request : Request)
            → Agrees es self.old → HasOut self.old node request → Fits request reply
            → IsAnswered e node request reply → Agrees (e ∷ es) self.new }

        // NoMemory is no entry; a Decide isn't answered so.
        ensures no_entry { (es : List Entry) → Agrees es self.old → reply ≡ NodeReply.NoMemory
            → OwesNoDecide self.old → Agrees es self.new }
        ensures lacks { (es : List Entry) → Agrees es self.old → reply ≡ NodeReply.NoMemory
            → OwesNoDecide self.old → LacksMemory self.new }
        ensures kept { KeepsSelf self.old self.new }
        ensures falls { steps_left self.new ≤ steps_left self.old }
        ensures known { self.new.known ≡ self.old.known }
        ensures fed { (work : Work) (tid : Tid) (c : Coordination) (purpose : Purpose)
            → (self.old.work ≡ Some (work, errands.Mini tid c purpose))
            → self.new.work ≡ Some (work, errands.Mini tid (fed_by c reply) purpose) }
    {
        let Some((_, errand)) = &mut self.work else {
            return;
        };
        errand.feed(reply);
    }
}

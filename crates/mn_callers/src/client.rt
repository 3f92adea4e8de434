//! A client of the script, and what the acts of a schedule make it do.
ghost use Rattle.std.specs.Prelude.{◌≡◌, ◌≢◌, ◌≤◌, ◌<◌, ◌+◌, ◌^◌, List, [], length, nat_le};
ghost use Rattle.std.specs.Prelude.{IfOk, OnOk, OnErr, MatchBool, MatchOption, None, is_some};
ghost use Rattle.std.specs.Prelude.{true, false, not, ◌&&◌, ◌||◌, nat_lt, if◌then◌else◌, ⊤};
ghost use Rattle.mn_base.specs.declared.op.Op.{Op};
ghost use Rattle.mn_hist.specs.Points.{points_met};
ghost use Rattle.mn_mini.specs.Mini.{participants_of, is_read};
ghost use Rattle.mn_mini.specs.RecordGrammar.{IsTid};
ghost use Rattle.mn_mini.specs.Sound.{Fits, IsDecide, IsSoundRequest};
ghost use Rattle.mn_proxy.specs.Measure.{Falls, steps_left};
ghost use Rattle.mn_proxy.specs.State.{ProxyState};
ghost use Rattle.mn_proxy.specs.Turns.{GivesUp, LacksMemory};
ghost use Rattle.mn_runs.specs.Protocol.{Start, run_number, start_nodes};
ghost use Rattle.mn_callers.specs.Acts.{BeginsOp, CallsOnce, DoesAll, DoesGo, DoesPlan, DoesStep};
ghost use Rattle.mn_callers.specs.Acts.{GoesByItself, IsUnderWay, as_role, has_work};
ghost use Rattle.mn_callers.specs.Clients.{HasProxy, IsAtSteps, IsClient, MayCallNext, IsOfRun};
ghost use Rattle.mn_callers.specs.Clients.{past_of};
ghost use Rattle.mn_callers.specs.Going.{BeginsAtMost, BeginsIfIdle, HasAnswer, HasFewer, HasGone};
ghost use Rattle.mn_callers.specs.Going.{HasList, IsLonger, IsSameBut, IsSameButRoom, IsUnnoted};
ghost use Rattle.mn_callers.specs.Going.{KeepsOrder, KeepsPoints, MakesStep, MayAdd, MayTake};
ghost use Rattle.mn_callers.specs.Going.{is_planned, ops_left, work_left};
ghost use Rattle.mn_callers.specs.Hands.{HasTurn, MovesOn, hand_of};
ghost use Rattle.mn_callers.specs.Points.{has_died};
ghost use Rattle.mn_callers.specs.Steps.{Adds, KeepsList, own_entry};

use crate::points::{has_met_kill, note, stop_due};
use crate::transport::Transport;
use mn_actors::Pass;
use mn_base::{Answer, ClientNo, NoMemory, NodeNo, SharedOp, Tid, TryCopy};
use mn_hist::{may_stop, none_met};
use mn_law::CoreLaw;
use mn_mini::{Minitransaction, NodeReply, Request};
use mn_proxy::{Proxy, ProxyStep};
use mn_runs::{ClientList, What};
use mn_script::Point;
use mn_work::Task;
use std::alloc::Global;

/// For how many entries a client's list has room at first: about those of as many operations as a
/// client may have.
const ENTRIES_AT_ONCE: usize = 1 << 14;

/// The most steps that a client makes by itself between two calls.
const OWN_STEPS: usize = 3;

/// A call of a node.
#[derive(Debug, Drop)]
struct Call {
    node: NodeNo,
    request: Request,
}

/// A client: its proxy and its list, and how far it has come.
#[derive(Drop)]
pub struct Client {
    pub list: ClientList,
    proxy: Proxy,
    /// How many of its operations were begun.
    begun: u32,
    /// The call that its operation wants next: some exactly where an operation is under way and the
    /// client lives.
    due: Option<Call>,
    /// The id of the last minitransaction that it issued with several participants.
    shared: Option<Tid>,
    /// Whether the last minitransaction that it issued is a plan: whether it compares or writes.
    is_plan: bool,
    /// Whether each crash point of the script was met by its entries.
    met: Vec<bool>,
}

/// Whether the minitransaction has several participants.
fn is_shared(mini: &Minitransaction) -> bool
    ensures { result ≡ nat_le 2 (length (participants_of mini.now)) }
{
    mini.participants().as_slice().len() >= 2
}

/// How many entries have to have room before a call: with the first Prepare those of its whole plan
/// and what follows it, else that of the call and the steps that follow.
fn entries_ahead(node: NodeNo, request: &Request) -> usize
    requires { IsSoundRequest request.now }
    ensures { 1 ≤ result }
{
    match request {
        Request::Prepare { participants, .. } => {
            let participants = participants.as_slice();
            if participants.first() == Some(&node) {
                2 * participants.len() + 2 * OWN_STEPS
            } else {
                1 + OWN_STEPS
            }
        }
        _ => 1 + OWN_STEPS,
    }
}

/// Whether the request is a decision.
fn is_decide(request: &Request) -> bool
    ensures is { result ≡ true → IsDecide request.now }
    ensures is_none { result ≡ false → IsDecide request.now → ⊥ }
{
    matches!(request, Request::Decide { .. })
}

/// Whether the reply is an entry of the log: want of memory is none.
fn is_entry(reply: &NodeReply) -> bool
    ensures { MatchBool result (reply.now ≢ NodeReply.NoMemory) (reply.now ≡ NodeReply.NoMemory) }
{
    !matches!(reply, NodeReply::NoMemory)
}

/// Whether a decision did not reach its node, for want of memory.
fn is_lost(is_decide: bool, reply: &NodeReply) -> bool
    ensures { result ≡ false → reply.now ≡ NodeReply.NoMemory → is_decide ≡ false }
{
    is_decide && !is_entry(reply)
}

/// How a client goes on by itself.
#[derive(Clone, Copy)]
enum Went {
    /// Another step of its own follows.
    On,
    /// It waits for a reply, or its operation is answered.
    Rests,
}

impl Client {
    /// A client that has begun nothing, in a run of this number on so many nodes, of a script with
    /// so many crash points. NoMemory: there was no memory for it.
    pub fn new(
        alloc: Global,
        client: ClientNo,
        run: u32,
        nodes: u8,
        points: &[Point],
    ) -> Result<Self, NoMemory>
        requires client { client.0 ≤ 15 }
        requires run { 1 ≤ run }
        requires nodes { (1 ≤ nodes) × (nodes ≤ 8) }
        ensures client { (start : Start) → run ≡ run_number start → nodes ≡ start_nodes start
            → IfOk result (IsClient start points.now) }
        ensures list { IfOk result (λ made. (made.list.client ≡ client)
            × (made.list.entries ≡ [])) }
    {
        let met = none_met(alloc, points.len())?;
        let proxy = Proxy::new(alloc, client, run, nodes)?;
        let mut list = ClientList::new(alloc, client);
        list.reserve(ENTRIES_AT_ONCE)?;
        Ok(Client {
            list,
            proxy,
            begun: 0,
            due: None,
            shared: None,
            is_plan: false,
            met,
        })
    }

    /// The id of the last minitransaction that it issued with several participants.
    pub fn shared(&self) -> Option<Tid>
        ensures { result ≡ self.now.shared }
    {
        self.shared
    }

    /// Whether it has died.
    fn has_died(&self, points: &[Point]) -> bool
        requires { self.now.met.items ≡ points_met points.now (past_of self.now) }
        ensures { result ≡ has_died points.now self.now.list.client (past_of self.now) }
    {
        has_met_kill(points, &self.met, self.list.client())
    }

    /// Whether an operation is under way, and the client lives.
    fn is_at_work(&self) -> bool
        ensures { result ≡ is_some self.now.due }
    {
        self.due.is_some()
    }

    /// Whether an operation is under way or left, and the client lives.
    fn has_work(&self, points: &[Point], ops: &[SharedOp]) -> bool
        requires { self.now.met.items ≡ points_met points.now (past_of self.now) }
        ensures left { result ≡ true → self.now.due ≡ None → self.now.begun < length ops.now }
        ensures lives { result ≡ true → self.now.due ≡ None
            → has_died points.now self.now.list.client (past_of self.now) ≡ false }
        ensures is { result ≡ (is_some self.now.due || (nat_lt self.now.begun (length ops.now)
            && not (has_died points.now self.now.list.client (past_of self.now)))) }
    {
        self.is_at_work() || ((self.begun as usize) < ops.len() && !self.has_died(points))
    }

    /// Whether the next call is a Prepare or the Exec of a plan, or there is none.
    fn is_planned(&self) -> bool
        ensures { result ≡ is_planned self.now.due self.now.is_plan }
    {
        match &self.due {
            Some(call) => may_stop(&call.request) && self.is_plan,
            None => true,
        }
    }

    /// Adds a step that it makes by itself. NoMemory: its list has no room, and there is no memory
    /// for more; the run ends.
    #[inline(always)]
    fn add<X: Transport>(
        &mut self,
        table: &mut X,
        pass: &mut Pass<CoreLaw>,
        what: What,
    ) -> Result<(), NoMemory>
        requires turn { HasTurn X.board (X.ready table.old) (hand_of pass.old self.old.list) }
        requires may { MayAdd self.old.list.client (past_of self.old) what }
        ensures turn { HasTurn X.board (X.ready table.new) (hand_of pass.new self.new.list) }
        ensures goes_on { MovesOn (X.went table.old table.new)
            (hand_of pass.old self.old.list) (hand_of pass.new self.new.list) }
        ensures added { OnOk result (Adds
            (own_entry self.old.list.client what) self.old.list self.new.list) }
        ensures none { OnErr result (KeepsList self.old.list self.new.list) }
        ensures same { IsSameBut self.old self.new }
    {
        let _client = self.list.client();
        self.list.reserve(1)?;
        table.put(pass, &mut self.list, what);
        Ok(())
    }

    /// Makes a step by itself that begins no operation, and issues nothing.
    #[inline(always)]
    fn make<X: Transport>(
        &mut self,
        table: &mut X,
        pass: &mut Pass<CoreLaw>,
        what: What,
    ) -> Result<(), NoMemory>
        requires turn { HasTurn X.board (X.ready table.old) (hand_of pass.old self.old.list) }
        requires list { HasList X.start self.old }
        requires step { MakesStep X.start self.old what }
        ensures turn { HasTurn X.board (X.ready table.new) (hand_of pass.new self.new.list) }
        ensures goes_on { MovesOn (X.went table.old table.new)
            (hand_of pass.old self.old.list) (hand_of pass.new self.new.list) }
        ensures list { HasList X.start self.new }
        ensures proxy { OnOk result (HasProxy X.start self.new) }
        ensures points { KeepsPoints self.old self.new }
        ensures same { IsSameBut self.old self.new }
        ensures own { OnOk result (GoesByItself self.old.list.client
            (past_of self.old) (past_of self.new)) }
        ensures longer { OnOk result (IsLonger self.old self.new) }
    {
        self.add(table, pass, what)
    }

    /// Keeps what it has to know of a minitransaction that it has issued.
    fn keep_issue(&mut self, tid: Tid, is_shared: bool, is_plan: bool)
        requires shared { MatchOption self.old.shared ⊤ IsTid }
        requires run { 1 ≤ tid.run }
        requires client { tid.client ≡ self.old.list.client }
        requires serial { 1 ≤ tid.serial }
        ensures shared { MatchOption self.new.shared ⊤ IsTid }
        ensures id { self.new.shared ≡ (if is_shared then Some tid else self.old.shared) }
        ensures same { self.new
            ≡ record self.old { shared = self.new.shared; is_plan = is_plan } }
    {
        let _client = self.list.client();
        let _run = tid.run;
        let _serial = tid.serial;
        self.is_plan = is_plan;
        if is_shared {
            self.shared = Some(tid);
        }
    }

    /// Issues a minitransaction.
    fn issue<X: Transport>(
        &mut self,
        table: &mut X,
        pass: &mut Pass<CoreLaw>,
        tid: Tid,
        mini: Minitransaction,
    ) -> Result<(), NoMemory>
        requires turn { HasTurn X.board (X.ready table.old) (hand_of pass.old self.old.list) }
        requires list { HasList X.start self.old }
        requires step { MayTake X.start self.old (ProxyStep.Issue tid mini) }
        ensures turn { HasTurn X.board (X.ready table.new) (hand_of pass.new self.new.list) }
        ensures goes_on { MovesOn (X.went table.old table.new)
            (hand_of pass.old self.old.list) (hand_of pass.new self.new.list) }
        ensures list { HasList X.start self.new }
        ensures proxy { OnOk result (HasProxy X.start self.new) }
        ensures points { KeepsPoints self.old self.new }
        ensures stays { (self.new.proxy ≡ self.old.proxy) × (self.new.due ≡ self.old.due)
            × (self.new.begun ≡ self.old.begun) }
        ensures own { OnOk result (GoesByItself self.old.list.client
            (past_of self.old) (past_of self.new)) }
    {
        let is_shared = is_shared(&mini);
        let is_read = mini.is_read();
        self.add(table, pass, What::Issue { tid, mini })?;
        self.keep_issue(tid, is_shared, !is_read);
        Ok(())
    }

    /// Takes one step of the proxy.
    fn take_step<X: Transport>(
        &mut self,
        table: &mut X,
        pass: &mut Pass<CoreLaw>,
        step: ProxyStep,
    ) -> Result<Went, NoMemory>
        requires turn { HasTurn X.board (X.ready table.old) (hand_of pass.old self.old.list) }
        requires list { HasList X.start self.old }
        requires step { MayTake X.start self.old step }
        requires none_due { self.old.due ≡ None }
        ensures turn { HasTurn X.board (X.ready table.new) (hand_of pass.new self.new.list) }
        ensures goes_on { MovesOn (X.went table.old table.new)
            (hand_of pass.old self.old.list) (hand_of pass.new self.new.list) }
        ensures list { HasList X.start self.new }
        ensures points { KeepsPoints self.old self.new }
        ensures went { IfOk result (λ went. HasGone X.start self.new went) }
        ensures own { OnOk result (GoesByItself self.old.list.client
            (past_of self.old) (past_of self.new)) }
        ensures longer { GivesUp step → OnOk result (IsLonger self.old self.new) }
        ensures begun { self.new.begun ≡ self.old.begun }
        ensures falls { (before : ProxyState) → Falls before self.old.proxy step
            → IfOk result (HasFewer (steps_left before) self.new) }
    {
        match step {
            ProxyStep::Issue { tid, mini } => {
                self.issue(table, pass, tid, mini)?;
                Ok(Went::On)
            }
            ProxyStep::Abandon { tid } => {
                self.make(table, pass, What::Abandoned { tid })?;
                Ok(Went::On)
            }
            ProxyStep::Call { node, request } => {
                self.due = Some(Call { node, request });
                Ok(Went::Rests)
            }
            ProxyStep::Done { answer } => {
                let number = self.begun;
                self.make(table, pass, What::Answered { number, answer })?;
                Ok(Went::Rests)
            }
        }
    }

    /// Makes one step of its own, or finds the next call.
    fn own_step<X: Transport>(
        &mut self,
        alloc: Global,
        table: &mut X,
        pass: &mut Pass<CoreLaw>,
    ) -> Result<Went, NoMemory>
        requires turn { HasTurn X.board (X.ready table.old) (hand_of pass.old self.old.list) }
        requires list { HasList X.start self.old }
        requires ready { HasGone X.start self.old Went.On }
        ensures turn { HasTurn X.board (X.ready table.new) (hand_of pass.new self.new.list) }
        ensures goes_on { MovesOn (X.went table.old table.new)
            (hand_of pass.old self.old.list) (hand_of pass.new self.new.list) }
        ensures list { HasList X.start self.new }
        ensures points { KeepsPoints self.old self.new }
        ensures went { IfOk result (λ went. HasGone X.start self.new went) }
        ensures own { OnOk result (GoesByItself self.old.list.client
            (past_of self.old) (past_of self.new)) }
        ensures longer { LacksMemory self.old.proxy → OnOk result (IsLonger self.old self.new) }
        ensures begun { self.new.begun ≡ self.old.begun }
        ensures falls { IfOk result (HasFewer (steps_left self.old.proxy) self.new) }
    {
        match self.proxy.next(alloc) {
            Ok(step) => self.take_step(table, pass, step),
            Err(_) => {
                let number = self.begun;
                let answer = Answer::NoMemory;
                self.make(table, pass, What::Answered { number, answer })?;
                Ok(Went::Rests)
            }
        }
    }

    /// Makes the steps of its own up to the next call, or to the answer: after a reply that there
    /// is no memory at least one.
    fn go_on<X: Transport>(
        &mut self,
        alloc: Global,
        table: &mut X,
        pass: &mut Pass<CoreLaw>,
        points: &[Point],
    ) -> Result<(), NoMemory>
        requires turn { HasTurn X.board (X.ready table.old) (hand_of pass.old self.old.list) }
        requires steps { IsAtSteps X.start points.now self.old }
        ensures turn { HasTurn X.board (X.ready table.new) (hand_of pass.new self.new.list) }
        ensures goes_on { MovesOn (X.went table.old table.new)
            (hand_of pass.old self.old.list) (hand_of pass.new self.new.list) }
        ensures client { OnOk result (IsClient X.start points.now self.new) }
        ensures of_run { OnErr result (IsOfRun X.start points.now self.new) }
        ensures own { OnOk result (GoesByItself self.old.list.client
            (past_of self.old) (past_of self.new)) }
        ensures longer { LacksMemory self.old.proxy → OnOk result (IsLonger self.old self.new) }
        ensures begun { self.new.begun ≡ self.old.begun }
        ensures falls { OnOk result (work_left self.new ≤ steps_left self.old.proxy) }
    {
        loop {
            match self.own_step(alloc, table, pass)? {
                Went::Rests => return Ok(()),
                Went::On => {}
            }
        }
    }

    /// Begins its next operation. NoMemory: there was no memory to begin it; the run ends.
    fn begin<X: Transport>(
        &mut self,
        alloc: Global,
        table: &mut X,
        pass: &mut Pass<CoreLaw>,
        points: &[Point],
        op: &SharedOp,
    ) -> Result<(), NoMemory>
        requires turn { HasTurn X.board (X.ready table.old) (hand_of pass.old self.old.list) }
        requires client { IsClient X.start points.now self.old }
        requires idle { self.old.due ≡ None }
        requires lives { has_died points.now self.old.list.client (past_of self.old) ≡ false }
        requires few { self.old.begun + 1 < 2 ^ 32 }
        ensures turn { HasTurn X.board (X.ready table.new) (hand_of pass.new self.new.list) }
        ensures goes_on { MovesOn (X.went table.old table.new)
            (hand_of pass.old self.old.list) (hand_of pass.new self.new.list) }
        ensures client { OnOk result (IsClient X.start points.now self.new) }
        ensures of_run { OnErr result (IsOfRun X.start points.now self.new) }
        ensures begins { OnOk result (BeginsOp self.old.list.client op.now
            (past_of self.old) (past_of self.new)) }
        ensures begun { OnOk result (self.new.begun ≡ self.old.begun + 1) }
        ensures at_most { BeginsAtMost op.now (past_of self.old) (past_of self.new) }
    {
        let asked = op.try_copy(alloc)?;
        let work = Task::new(alloc, asked)?;
        let op = op.try_copy(alloc)?;
        let number = self.begun + 1;
        self.add(table, pass, What::Begin { number, op })?;
        self.begun = number;
        self.proxy.begin(work);
        self.go_on(alloc, table, pass, points)
    }

    /// Begins its next operation where none is under way.
    fn begin_if_idle<X: Transport>(
        &mut self,
        alloc: Global,
        table: &mut X,
        pass: &mut Pass<CoreLaw>,
        points: &[Point],
        ops: &[SharedOp],
    ) -> Result<(), NoMemory>
        requires turn { HasTurn X.board (X.ready table.old) (hand_of pass.old self.old.list) }
        requires client { IsClient X.start points.now self.old }
        requires few { length ops.now < 2 ^ 32 }
        requires left { self.old.due ≡ None → self.old.begun < length ops.now }
        requires lives { self.old.due ≡ None
            → has_died points.now self.old.list.client (past_of self.old) ≡ false }
        ensures turn { HasTurn X.board (X.ready table.new) (hand_of pass.new self.new.list) }
        ensures goes_on { MovesOn (X.went table.old table.new)
            (hand_of pass.old self.old.list) (hand_of pass.new self.new.list) }
        ensures client { OnOk result (IsClient X.start points.now self.new) }
        ensures of_run { OnErr result (IsOfRun X.start points.now self.new) }
        ensures under_way { OnOk result (IsUnderWay
            (as_role points.now self.old.list.client ops.now)
            (past_of self.old) (past_of self.new)) }
        ensures begun { OnOk result (BeginsIfIdle self.old self.new) }
        ensures order { KeepsOrder ops.now (past_of self.old) (past_of self.new) }
    {
        if self.is_at_work() {
            return Ok(());
        }
        self.begin(alloc, table, pass, points, &ops[self.begun as usize])
    }

    /// The crash points after its last entry, which is a call. Most scripts have none.
    fn note_last(&mut self, points: &[Point])
        requires { IsUnnoted points.now self.old }
        ensures met { self.new.met.items ≡ points_met points.now (past_of self.old) }
        ensures same { self.new ≡ record self.old { met = self.new.met } }
    {
        if points.is_empty() {
            return;
        }
        if let [before @ .., (_, last)] = self.list.as_slice() {
            note(
                points,
                &mut self.met,
                self.list.client(),
                Some(self.begun),
                before,
                last,
            );
        }
    }

    /// The crash points after a call that was answered so.
    fn note_reply(&mut self, points: &[Point], reply: &NodeReply)
        requires entry { reply.now ≢ NodeReply.NoMemory → IsUnnoted points.now self.old }
        requires none { reply.now ≡ NodeReply.NoMemory
            → self.old.met.items ≡ points_met points.now (past_of self.old) }
        ensures met { self.new.met.items ≡ points_met points.now (past_of self.old) }
        ensures same { self.new ≡ record self.old { met = self.new.met } }
    {
        if is_entry(reply) {
            self.note_last(points);
        }
    }

    /// Makes room for a call and what follows it, if there is memory. A decision goes without.
    fn make_room(&mut self, node: NodeNo, request: &Request) -> bool
        requires { IsSoundRequest request.now }
        ensures same { IsSameButRoom self.old self.new }
        ensures room { result ≡ true → (IsDecide request.now → ⊥) → 1 ≤ self.new.list.room }
        ensures refused { result ≡ false → IsDecide request.now → ⊥ }
    {
        let room = self.list.reserve(entries_ahead(node, request));
        room.is_ok() || is_decide(request)
    }

    /// Calls a node, which is to stop inside the call where the points say so. NoMemory: there was
    /// none, and there is no entry.
    fn ask<X: Transport>(
        &mut self,
        alloc: Global,
        table: &mut X,
        pass: &mut Pass<CoreLaw>,
        points: &[Point],
        node: NodeNo,
        request: Request,
    ) -> NodeReply
        requires turn { HasTurn X.board (X.ready table.old) (hand_of pass.old self.old.list) }
        requires run { IsOfRun X.start points.now self.old }
        requires proxy { HasProxy X.start self.old }
        requires due { MayCallNext X.start self.old
            (record { node = node; request = request }) }
        ensures turn { HasTurn X.board (X.ready table.new) (hand_of pass.new self.new.list) }
        ensures goes_on { MovesOn (X.went table.old table.new)
            (hand_of pass.old self.old.list) (hand_of pass.new self.new.list) }
        ensures run { IsOfRun X.start points.now self.new }
        ensures fits { Fits request result }
        ensures answer { result ≢ NodeReply.NoMemory
            → HasAnswer points.now node request result self.old self.new }
        ensures none { result ≡ NodeReply.NoMemory → past_of self.new ≡ past_of self.old }
        ensures client { self.new.list.client ≡ self.old.list.client }
        ensures stays { (self.new.proxy ≡ self.old.proxy) × (self.new.due ≡ self.old.due)
            × (self.new.begun ≡ self.old.begun) }
    {
        let stop = stop_due(
            points,
            &self.met,
            self.list.client(),
            self.begun,
            node,
            &request,
        );
        let reply = table.send(alloc, pass, &mut self.list, node, request, stop);
        self.note_reply(points, &reply);
        reply
    }

    /// Sends a request. NoMemory: there was none for it or for its entries, and there is no entry.
    fn send<X: Transport>(
        &mut self,
        alloc: Global,
        table: &mut X,
        pass: &mut Pass<CoreLaw>,
        points: &[Point],
        node: NodeNo,
        request: Request,
    ) -> NodeReply
        requires turn { HasTurn X.board (X.ready table.old) (hand_of pass.old self.old.list) }
        requires run { IsOfRun X.start points.now self.old }
        requires proxy { HasProxy X.start self.old }
        requires due { MayCallNext X.start self.old
            (record { node = node; request = request }) }
        ensures turn { HasTurn X.board (X.ready table.new) (hand_of pass.new self.new.list) }
        ensures goes_on { MovesOn (X.went table.old table.new)
            (hand_of pass.old self.old.list) (hand_of pass.new self.new.list) }
        ensures run { IsOfRun X.start points.now self.new }
        ensures fits { Fits request result }
        ensures answer { result ≢ NodeReply.NoMemory
            → HasAnswer points.now node request result self.old self.new }
        ensures none { result ≡ NodeReply.NoMemory → past_of self.new ≡ past_of self.old }
        ensures client { self.new.list.client ≡ self.old.list.client }
        ensures stays { (self.new.proxy ≡ self.old.proxy) × (self.new.due ≡ self.old.due)
            × (self.new.begun ≡ self.old.begun) }
    {
        if !self.make_room(node, &request) {
            return NodeReply::NoMemory;
        }
        self.ask(alloc, table, pass, points, node, request)
    }

    /// Makes the call that is due, with the steps that follow from its reply: none, where the
    /// client dies by it.
    fn call<X: Transport>(
        &mut self,
        alloc: Global,
        table: &mut X,
        pass: &mut Pass<CoreLaw>,
        points: &[Point],
    ) -> Result<(), NoMemory>
        requires turn { HasTurn X.board (X.ready table.old) (hand_of pass.old self.old.list) }
        requires client { IsClient X.start points.now self.old }
        ensures turn { HasTurn X.board (X.ready table.new) (hand_of pass.new self.new.list) }
        ensures goes_on { MovesOn (X.went table.old table.new)
            (hand_of pass.old self.old.list) (hand_of pass.new self.new.list) }
        ensures client { OnOk result (IsClient X.start points.now self.new) }
        ensures of_run { OnErr result (IsOfRun X.start points.now self.new) }
        ensures calls { OnOk result ((ops : List Op)
            → CallsOnce (as_role points.now self.old.list.client ops)
            (past_of self.old) (past_of self.new)) }
        ensures begun { self.new.begun ≡ self.old.begun }
        ensures falls { OnOk result (is_some self.old.due ≡ true
            → work_left self.new < work_left self.old) }
    {
        let Some(Call { node, request }) = self.due.take() else {
            return Ok(());
        };
        let is_decide = is_decide(&request);
        let reply = self.send(alloc, table, pass, points, node, request);
        if is_lost(is_decide, &reply) {
            return Err(NoMemory);
        }
        if self.has_died(points) {
            return Ok(());
        }
        self.proxy.feed(reply);
        self.go_on(alloc, table, pass, points)
    }

    /// One call, of an operation that is begun if none is under way; nothing where there is no
    /// work.
    pub fn step<X: Transport>(
        &mut self,
        alloc: Global,
        table: &mut X,
        pass: &mut Pass<CoreLaw>,
        points: &[Point],
        ops: &[SharedOp],
    ) -> Result<(), NoMemory>
        requires turn { HasTurn X.board (X.ready table.old) (hand_of pass.old self.old.list) }
        requires client { IsClient X.start points.now self.old }
        requires few { length ops.now < 2 ^ 32 }
        ensures turn { HasTurn X.board (X.ready table.new) (hand_of pass.new self.new.list) }
        ensures goes_on { MovesOn (X.went table.old table.new)
            (hand_of pass.old self.old.list) (hand_of pass.new self.new.list) }
        ensures client { OnOk result (IsClient X.start points.now self.new) }
        ensures of_run { IsOfRun X.start points.now self.new }
        ensures does { OnOk result (DoesStep
            (as_role points.now self.old.list.client ops.now)
            (past_of self.old) (past_of self.new)) }
        ensures order { KeepsOrder ops.now (past_of self.old) (past_of self.new) }
    {
        if !self.has_work(points, ops) {
            return Ok(());
        }
        self.begin_if_idle(alloc, table, pass, points, ops)?;
        // For want of memory the operation may be over already: then this does nothing.
        self.call(alloc, table, pass, points)
    }

    /// Calls until the next one would be a Prepare or the Exec of a plan, or the operation is over.
    pub fn plan<X: Transport>(
        &mut self,
        alloc: Global,
        table: &mut X,
        pass: &mut Pass<CoreLaw>,
        points: &[Point],
        ops: &[SharedOp],
    ) -> Result<(), NoMemory>
        requires turn { HasTurn X.board (X.ready table.old) (hand_of pass.old self.old.list) }
        requires client { IsClient X.start points.now self.old }
        requires few { length ops.now < 2 ^ 32 }
        ensures turn { HasTurn X.board (X.ready table.new) (hand_of pass.new self.new.list) }
        ensures goes_on { MovesOn (X.went table.old table.new)
            (hand_of pass.old self.old.list) (hand_of pass.new self.new.list) }
        ensures client { OnOk result (IsClient X.start points.now self.new) }
        ensures of_run { IsOfRun X.start points.now self.new }
        ensures does { OnOk result (DoesPlan
            (as_role points.now self.old.list.client ops.now)
            (past_of self.old) (past_of self.new)) }
        ensures order { KeepsOrder ops.now (past_of self.old) (past_of self.new) }
    {
        if !self.has_work(points, ops) {
            return Ok(());
        }
        self.begin_if_idle(alloc, table, pass, points, ops)?;
        while !self.is_planned() {
            self.call(alloc, table, pass, points)?;
        }
        Ok(())
    }

    /// Calls until the operation is answered or the client has died.
    pub fn go<X: Transport>(
        &mut self,
        alloc: Global,
        table: &mut X,
        pass: &mut Pass<CoreLaw>,
        points: &[Point],
        ops: &[SharedOp],
    ) -> Result<(), NoMemory>
        requires turn { HasTurn X.board (X.ready table.old) (hand_of pass.old self.old.list) }
        requires client { IsClient X.start points.now self.old }
        requires few { length ops.now < 2 ^ 32 }
        ensures turn { HasTurn X.board (X.ready table.new) (hand_of pass.new self.new.list) }
        ensures goes_on { MovesOn (X.went table.old table.new)
            (hand_of pass.old self.old.list) (hand_of pass.new self.new.list) }
        ensures client { OnOk result (IsClient X.start points.now self.new) }
        ensures of_run { IsOfRun X.start points.now self.new }
        ensures does { OnOk result (DoesGo
            (as_role points.now self.old.list.client ops.now)
            (past_of self.old) (past_of self.new)) }
        ensures order { KeepsOrder ops.now (past_of self.old) (past_of self.new) }
        ensures falls { OnOk result (has_work
            (as_role points.now self.old.list.client ops.now) (past_of self.old) ≡ true
            → ops_left (length ops.now) self.new < ops_left (length ops.now) self.old) }
    {
        if !self.has_work(points, ops) {
            return Ok(());
        }
        self.begin_if_idle(alloc, table, pass, points, ops)?;
        while self.is_at_work() {
            self.call(alloc, table, pass, points)?;
        }
        Ok(())
    }

    /// One operation after another, until none is left or the client has died.
    pub fn all<X: Transport>(
        &mut self,
        alloc: Global,
        table: &mut X,
        pass: &mut Pass<CoreLaw>,
        points: &[Point],
        ops: &[SharedOp],
    ) -> Result<(), NoMemory>
        requires turn { HasTurn X.board (X.ready table.old) (hand_of pass.old self.old.list) }
        requires client { IsClient X.start points.now self.old }
        requires few { length ops.now < 2 ^ 32 }
        ensures turn { HasTurn X.board (X.ready table.new) (hand_of pass.new self.new.list) }
        ensures goes_on { MovesOn (X.went table.old table.new)
            (hand_of pass.old self.old.list) (hand_of pass.new self.new.list) }
        ensures client { OnOk result (IsClient X.start points.now self.new) }
        ensures of_run { IsOfRun X.start points.now self.new }
        ensures does { OnOk result (DoesAll
            (as_role points.now self.old.list.client ops.now)
            (past_of self.old) (past_of self.new)) }
        ensures order { KeepsOrder ops.now (past_of self.old) (past_of self.new) }
    {
        while self.has_work(points, ops) {
            self.go(alloc, table, pass, points, ops)?;
            table.pause(&self.list, self.has_died(points));
        }
        Ok(())
    }
}

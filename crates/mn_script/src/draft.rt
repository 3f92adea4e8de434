ghost use Rattle.std.specs.Prelude.{◌≡◌, ◌≤◌, ◌<◌, ◌+◌, ◌-◌, ◌^◌, length, Option, Some, None};
ghost use Rattle.std.specs.Prelude.{option_map, IfSome, OnOk, OnErr, IfOk, IsOkUnless, not};
ghost use Rattle.std.specs.Prelude.{is_some, bytes_eq, codes, IsTrue};
ghost use Rattle.mn_script.specs.Words.{word_at, told_at, Gives, GivesPart};
ghost use Rattle.mn_script.specs.Lines.{client_named};
ghost use Rattle.mn_script.specs.Script.{steps_in, limit_in};
ghost use Rattle.mn_script.specs.Reading.{empty_draft, fits_op, add_op, op_line, add_client};
ghost use Rattle.mn_script.specs.Reading.{new_name, client_line, add_point, add_act, act_line};
ghost use Rattle.mn_script.specs.Reading.{kill_line, stop_line, nodes_line, recoverers_line};
ghost use Rattle.mn_script.specs.Reading.{schedule_line, is_head, is_section, is_points};
ghost use Rattle.mn_script.specs.Reading.{middle_line, line_in, is_passed, line_at, ended, IsDraft};
ghost use Rattle.mn_script.specs.Reading.{GivesDraft, IsScriptRead};

use crate::acts::act_of;
use crate::clients::{count_of, mark};
use crate::elements::{Act, Mark, Point};
use crate::error::{LineError, ScriptError};
use crate::lists::{Acts, Clients, Points};
use crate::ops::op_of;
use crate::points::{kill_of, stop_of};
use crate::roster::Roster;
use crate::script::Script;
use crate::words::{end, name, next, number, word, wrong};
use mn_base::{Name, Op, SharedOp};
use std::alloc::Global;
use std::marker::Model;

/// Which lines may come next: the nodes; the recovery coordinators or a section; a section; the
/// operations of a client; crash points; acts. Where sections may come the later parts may too.
#[derive(Clone, Copy, PartialEq, Eq)]
pub enum Phase {
    Start,
    Head,
    Begun,
    Section,
    Points,
    Schedule,
}

/// What the lines so far say.
#[derive(Drop)]
pub struct Draft {
    phase: Phase,
    nodes: u8,
    recoverers: u8,
    clients: Roster,
    points: Vec<Point>,
    schedule: Vec<Act>,
    ops: u32,
    steps: u32,
    limits: u32,
}

impl Model for Draft {
    ghost use Rattle.std.specs.Prelude.{◌≤◌, length};
    ghost use Rattle.mn_script.specs.Reading as reading;
    ghost use Rattle.mn_script.specs.Lines.{AreFew};

    ghost Value = { reading.Draft };

    ghost view = { λ d. record {
      phase = d.phase;
      nodes = d.nodes;
      recoverers = d.recoverers;
      clients = d.clients;
      points = d.points.items;
      schedule = d.schedule.items;
      ops =
          d.ops;
      steps = d.steps;
      limits = d.limits;
    } };

    ghost invariant = { λ d. (AreFew d.clients) × (reading.HasClient d.phase d.clients)
        × (d.ops ≤ 8000) × (d.steps ≤ 20000) × (d.limits ≤ 100000) };
}

/// How many steps an operation has.
fn steps_of(op: &Op) -> usize
    ensures count { result ≡ steps_in op.now }
    ensures few { result ≤ 16 }
{
    match op {
        Op::Tx { steps, .. } => steps.as_slice().len(),
        _ => 0,
    }
}

/// How many pairs an operation scans at most.
fn limit_of(op: &Op) -> u32
    ensures { result ≡ limit_in op.now }
{
    match op {
        Op::Scan { limit, .. } => *limit,
        _ => 0,
    }
}

impl Draft {
    pub fn new(alloc: Global) -> Self
        ensures { result ≡ empty_draft }
    {
        Draft {
            phase: Phase::Start,
            nodes: 0,
            recoverers: 0,
            clients: Roster::new(alloc),
            points: Vec::new(alloc),
            schedule: Vec::new(alloc),
            ops: 0,
            steps: 0,
            limits: 0,
        }
    }

    /// Whether there is room for an operation.
    fn has_room(&self, op: &Op) -> bool
        ensures { result ≡ fits_op self.now op.now }
    {
        let last = self.clients.as_slice().len().saturating_sub(1);
        count_of(self.clients.as_slice(), last) < 2000
            && self.ops < 8000
            && self.steps as usize + steps_of(op) <= 20_000
            && u64::from(self.limits) + u64::from(limit_of(op)) <= 100_000
    }

    /// Adds an operation, for which there is room, to the last client.
    #[inline(always)]
    fn push_op(&mut self, op: SharedOp) -> Result<(), LineError>
        requires some { 1 ≤ length self.old.clients }
        requires room { IsTrue (fits_op self.old op) }
        ensures { GivesDraft result self.new (add_op self.old op) }
    {
        let asked = op.get();
        let steps = steps_of(asked) as u32;
        let limit = limit_of(asked);
        self.clients.push_op(op)?;
        self.ops += 1;
        self.steps += steps;
        self.limits += limit;
        Ok(())
    }

    /// Adds an operation to the last client.
    #[inline(always)]
    fn add_op(&mut self, op: SharedOp) -> Result<(), LineError>
        requires { 1 ≤ length self.old.clients }
        ensures { GivesDraft result self.new (add_op self.old op) }
    {
        if !self.has_room(op.get()) {
            return Err(LineError::Wrong { column: 1 });
        }
        self.push_op(op)
    }

    #[tactic(auto, unfolding(crate::specs::Reading::op_line))]
    fn op_line(&mut self, alloc: Global, line: &[u8]) -> Result<(), LineError>
        requires { 1 ≤ length self.old.clients }
        ensures { GivesDraft result self.new (op_line self.old line.now) }
    {
        let op = op_of(alloc, line)?;
        self.add_op(SharedOp::new(alloc, op)?)
    }

    /// A name that no client has yet.
    fn new_name(&self, alloc: Global, line: &[u8], at: &mut usize) -> Result<Name, LineError>
        requires { at.old ≤ length line.now + 1 }
        ensures said { GivesPart result at.new
            (told_at line.now at.old (new_name self.now.clients (word_at line.now at.old))) }
        ensures within { OnOk result (at.new ≤ length line.now + 1) }
        ensures new { IfOk result (λ name. client_named self.now.clients name ≡ None) }
    {
        if self.clients.place_of(word(line, *at)).is_some() {
            return Err(wrong(line, *at));
        }
        name(alloc, line, at)
    }

    fn add_client(&mut self, alloc: Global, name: Name, mark: Mark) -> Result<(), LineError>
        requires { client_named self.old.clients name ≡ None }
        ensures { GivesDraft result self.new (add_client self.old name mark) }
    {
        if self.clients.as_slice().len() >= 16 {
            return Err(LineError::Wrong { column: 1 });
        }
        self.clients.push(alloc, name, mark)?;
        self.phase = Phase::Section;
        Ok(())
    }

    #[tactic(auto, unfolding(crate::specs::Reading::client_line))]
    fn client_line(&mut self, alloc: Global, line: &[u8]) -> Result<(), LineError>
        ensures { GivesDraft result self.new (client_line self.old line.now) }
    {
        let mut at = next(line, 0);
        let name = self.new_name(alloc, line, &mut at)?;
        let mark = mark(line, at)?;
        self.add_client(alloc, name, mark)
    }

    fn add_point(&mut self, point: Point) -> Result<(), LineError>
        ensures { GivesDraft result self.new (add_point self.old point) }
    {
        if self.points.len() >= 64 {
            return Err(LineError::Wrong { column: 1 });
        }
        self.points.push(point)?;
        self.phase = Phase::Points;
        Ok(())
    }

    #[tactic(auto, unfolding(crate::specs::Reading::kill_line))]
    fn kill_line(&mut self, line: &[u8]) -> Result<(), LineError>
        ensures { GivesDraft result self.new (kill_line self.old line.now) }
    {
        let point = kill_of(&self.clients, line, next(line, 0))?;
        self.add_point(point)
    }

    #[tactic(auto, unfolding(crate::specs::Reading::stop_line))]
    fn stop_line(&mut self, line: &[u8]) -> Result<(), LineError>
        ensures { GivesDraft result self.new (stop_line self.old line.now) }
    {
        let last = self.nodes.saturating_sub(1);
        let point = stop_of(last, &self.clients, line, next(line, 0))?;
        self.add_point(point)
    }

    fn add_act(&mut self, act: Act) -> Result<(), LineError>
        ensures { GivesDraft result self.new (add_act self.old act) }
    {
        if self.schedule.len() >= 20_000 {
            return Err(LineError::Wrong { column: 1 });
        }
        self.schedule.push(act)?;
        Ok(())
    }

    #[tactic(auto, unfolding(crate::specs::Reading::act_line))]
    fn act_line(&mut self, line: &[u8]) -> Result<(), LineError>
        ensures { GivesDraft result self.new (act_line self.old line.now) }
    {
        let last = self.nodes.saturating_sub(1);
        let act = act_of(last, self.recoverers, &self.clients, line)?;
        self.add_act(act)
    }

    #[tactic(auto, unfolding(crate::specs::Reading::nodes_line))]
    fn nodes_line(&mut self, line: &[u8]) -> Result<(), LineError>
        ensures { GivesDraft result self.new (nodes_line self.old line.now) }
    {
        if word(line, 0) != b"nodes".as_slice() {
            return Err(wrong(line, 0));
        }
        let mut at = next(line, 0);
        let nodes = number(line, &mut at, 1, 8)?;
        end(line, at)?;
        self.nodes = nodes as u8;
        self.phase = Phase::Head;
        Ok(())
    }

    #[tactic(auto, unfolding(crate::specs::Reading::recoverers_line))]
    fn recoverers_line(&mut self, line: &[u8]) -> Result<(), LineError>
        ensures { GivesDraft result self.new (recoverers_line self.old line.now) }
    {
        let mut at = next(line, 0);
        let recoverers = number(line, &mut at, 0, 4)?;
        end(line, at)?;
        self.recoverers = recoverers as u8;
        self.phase = Phase::Begun;
        Ok(())
    }

    fn schedule_line(&mut self, line: &[u8]) -> Result<(), LineError>
        ensures { GivesDraft result self.new (schedule_line self.old line.now) }
    {
        end(line, next(line, 0))?;
        self.phase = Phase::Schedule;
        Ok(())
    }

    /// A line between the nodes and the schedule.
    #[tactic(auto, unfolding(crate::specs::Reading::middle_line))]
    fn middle_line(&mut self, alloc: Global, line: &[u8]) -> Result<(), LineError>
        ensures { GivesDraft result self.new (middle_line self.old line.now) }
    {
        let word = word(line, 0);
        if self.phase == Phase::Head && word == b"recoverers".as_slice() {
            return self.recoverers_line(line);
        }
        if self.phase != Phase::Points && word == b"client".as_slice() {
            return self.client_line(alloc, line);
        }
        if word == b"kill".as_slice() {
            return self.kill_line(line);
        }
        if word == b"stop".as_slice() {
            return self.stop_line(line);
        }
        if word == b"schedule".as_slice() {
            return self.schedule_line(line);
        }
        if self.phase == Phase::Section {
            return self.op_line(alloc, line);
        }
        Err(wrong(line, 0))
    }

    /// The next line of the text.
    pub fn line(&mut self, alloc: Global, line: &[u8]) -> Result<(), LineError>
        ensures { GivesDraft result self.new (line_at self.old line.now) }
    {
        if line.is_empty() || line[0] == b'#' {
            return Ok(());
        }
        match self.phase {
            Phase::Start => self.nodes_line(line),
            Phase::Schedule => self.act_line(line),
            _ => self.middle_line(alloc, line),
        }
    }

    /// The end of a text of so many lines.
    pub fn finish(self, lines: u32) -> Result<Script, ScriptError>
        requires few { lines < 2 ^ 32 - 1 }
        requires right { IsDraft self }
        ensures { IsScriptRead result (ended self.phase self lines) }
    {
        if self.phase == Phase::Start {
            return Err(ScriptError::Refused {
                line: lines + 1,
                column: 1,
            });
        }
        Ok(Script::of(
            self.nodes,
            self.recoverers,
            Clients::from_vec(self.clients.into_vec()),
            Points::from_vec(self.points),
            Acts::from_vec(self.schedule),
        ))
    }
}

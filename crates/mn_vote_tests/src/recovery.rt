//! A coordinator and two recoveries race over one id and two nodes.
ghost use Rattle.std.specs.Prelude.{◌≡◌, false, IfOk, OnOk};

use crate::one_id::{coordinator, ended, tid};
use mn_base::{NodeNo, Nodes};
use mn_coord::{CoordStep, Coordinator};
use mn_mini::{Doubt, Doubts, NodeReply, Reads, Request};
use mn_recov::{RecovStep, Recoverer};
use std::alloc::Global;
use std::test::Fail;

/// What a node knows of the one id.
#[derive(Clone, Copy)]
struct OneId {
    voted: bool,
    forced: bool,
    decided: Option<bool>,
}

const NOTHING: OneId = OneId {
    voted: false,
    forced: false,
    decided: None,
};

fn both() -> Result<Nodes, Fail> {
    let mut nodes = Nodes::new();
    nodes.push(NodeNo(0))?;
    nodes.push(NodeNo(1))?;
    Ok(nodes)
}

fn listed(alloc: Global, held: bool) -> Result<NodeReply, Fail> {
    let mut doubts = Vec::new(alloc);
    if held {
        doubts.push(Doubt {
            tid: tid(),
            participants: both()?,
        })?;
    }
    Ok(NodeReply::Listed {
        doubts: Doubts::from_vec(doubts),
    })
}

/// A node's answer.
fn answer(alloc: Global, node: &mut OneId, request: &Request) -> Result<NodeReply, Fail> {
    match request {
        Request::Prepare { .. } if node.forced => Ok(NodeReply::BadForced),
        Request::Prepare { .. } => {
            node.voted = true;
            Ok(NodeReply::Done {
                reads: Reads::none(),
            })
        }
        Request::Force { .. } if node.voted => Ok(NodeReply::Vote { yes: true }),
        Request::Force { .. } => {
            node.forced = true;
            Ok(NodeReply::Vote { yes: false })
        }
        Request::Decide { yes, .. } => {
            if node.voted && node.decided.is_none() {
                node.decided = Some(*yes);
            }
            Ok(NodeReply::Decided)
        }
        Request::List => listed(alloc, node.voted && node.decided.is_none()),
        _ => Ok(NodeReply::Down),
    }
}

fn call(
    alloc: Global,
    nodes: &mut [OneId],
    at: NodeNo,
    request: &Request,
) -> Result<NodeReply, Fail> {
    match nodes.get_mut(at.0 as usize) {
        Some(node) => answer(alloc, node, request),
        None => Ok(NodeReply::Down),
    }
}

/// The coordinator makes its next call, if it has one.
fn coordinate(alloc: Global, c: &mut Coordinator, nodes: &mut [OneId]) -> Result<(), Fail>
    requires { c.old.asked ≡ false }
    ensures { OnOk result (c.new.asked ≡ false) }
{
    match c.next() {
        CoordStep::Send { node, request } => c.feed(call(alloc, nodes, node, &request)?),
        CoordStep::Abandon | CoordStep::Committed => {}
        CoordStep::Failed { node: _node } | CoordStep::Doubt { node: _node } => {}
    }
    Ok(())
}

/// A recovery makes its next call, if it has one.
fn recover(alloc: Global, r: &mut Recoverer, nodes: &mut [OneId]) -> Result<(), Fail> {
    if let RecovStep::Send { node, request } = r.next() {
        let reply = call(alloc, nodes, node, &request)?;
        r.feed(reply);
    }
    Ok(())
}

/// The decision at a node, if one was made, is `verdict`; and a forced node has no vote.
fn fits(node: &OneId, verdict: Option<bool>) -> bool {
    (node.decided.is_none() || node.decided == verdict) && !(node.forced && node.voted)
}

/// How the coordinator ended.
fn verdict_of(c: &mut Coordinator) -> Option<bool>
    requires { c.old.asked ≡ false }
{
    let step = c.next();
    if matches!(step, CoordStep::Committed) {
        return Some(true);
    }
    if matches!(step, CoordStep::Failed { .. }) {
        return Some(false);
    }
    None
}

/// A recovery ended so, or found nothing more to be decided.
fn ended_so(r: &Recoverer, verdict: Option<bool>) -> bool {
    let end = ended(r);
    end == Some(None) || end == Some(verdict)
}

/// The three that race, and what the nodes know.
#[derive(Drop)]
struct Race {
    nodes: [OneId; 2],
    coordinator: Coordinator,
    one: Recoverer,
    two: Recoverer,
}

impl Race {
    fn new(alloc: Global) -> Result<Self, Fail>
        ensures { IfOk result (λ race. race.coordinator.asked ≡ false) }
    {
        Ok(Race {
            nodes: [NOTHING, NOTHING],
            coordinator: coordinator(alloc)?,
            one: Recoverer::new(alloc, tid(), 2)?,
            two: Recoverer::new(alloc, tid(), 2)?,
        })
    }

    /// The turn of the coordinator, of one recovery, or of the other.
    fn turn(&mut self, alloc: Global, number: u32) -> Result<(), Fail>
        requires { self.old.coordinator.asked ≡ false }
        ensures { OnOk result (self.new.coordinator.asked ≡ false) }
    {
        match number {
            0 => coordinate(alloc, &mut self.coordinator, &mut self.nodes),
            1 => recover(alloc, &mut self.one, &mut self.nodes),
            _ => recover(alloc, &mut self.two, &mut self.nodes),
        }
    }

    /// Whether all three have ended in one way, which the nodes have too.
    fn has_one_end(&mut self) -> bool
        requires { self.old.coordinator.asked ≡ false }
    {
        let verdict = verdict_of(&mut self.coordinator);
        if verdict.is_none() || !ended_so(&self.one, verdict) || !ended_so(&self.two, verdict) {
            return false;
        }
        fits(&self.nodes[0], verdict) && fits(&self.nodes[1], verdict)
    }
}

/// One order of the first eight calls, by the digits of `order` to base 3, and then one after
/// another.
fn is_one_way(alloc: Global, order: u32) -> Result<bool, Fail> {
    let mut race = Race::new(alloc)?;
    let mut rest = order;
    for n in 0..32u32 {
        race.turn(alloc, if n < 8 { rest % 3 } else { n % 3 })?;
        rest /= 3;
    }
    Ok(race.has_one_end())
}

#[test]
fn every_order_decides_one_way(rt: HostRuntime) -> Result<(), Fail> {
    for order in 0..6_561 {
        assert!(rt; is_one_way(rt.alloc(), order)?);
    }
    Ok(())
}

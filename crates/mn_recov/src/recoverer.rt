ghost use Rattle.std.specs.Prelude.{◌≡◌, ◌<◌, length, IfOk, IfSome, IfNone, slice_get, nat_lt};
ghost use Rattle.std.specs.List.{list_all};
ghost use Rattle.std.specs.Option.{option_map};
ghost use Rattle.mn_mini.specs.declared.doubt.Doubt.{Doubt};
ghost use Rattle.mn_runs.specs.Calls.{lists_doubt};
ghost use Rattle.mn_recov.specs.declared.stage.RecovStage.TheVariants.{Looking};
ghost use Rattle.mn_mini.specs.RecordGrammar.{IsTid};
ghost use Rattle.mn_recov.specs.Recovery.{found_or, after_list, stage_after};

use crate::{RecovStage, RecovStep};
use mn_base::{NoMemory, NodeNo, Nodes, Tid};
use mn_mini::{Doubt, Doubts, NodeReply, Request};
use std::alloc::Global;
use std::marker::Model;

/// The recovery of one id. Contracts see how far it has come.
#[derive(Debug, Drop)]
pub struct Recoverer {
    tid: Tid,
    nodes: u8,
    stage: RecovStage,
}

impl Model for Recoverer {
    ghost use Rattle.mn_recov.specs.Recovery.{IsSoundRecovery, Recovery};

    ghost Value = { Recovery };

    ghost view = { λ r. record { tid = r.tid; nodes = r.nodes; stage = r.stage } };

    ghost invariant = { λ r. IsSoundRecovery
        (record { tid = r.tid; nodes = r.nodes; stage = r.stage }) };
}

/// Where the list has the id.
fn place_of(tid: Tid, doubts: &[Doubt]) -> Option<usize>
    ensures none { IfNone result (lists_doubt tid doubts.now ≡ None) }
    ensures some { IfSome result (λ at. (at < length doubts.now)
        × ((d : Doubt) → slice_get doubts.now at ≡ Some d
        → lists_doubt tid doubts.now ≡ Some d.participants)) }
{
    for (at, doubt) in doubts.iter().enumerate() {
        if doubt.tid == tid {
            return Some(at);
        }
    }
    None
}

/// The participants that the list gives for the id.
fn participants_of(tid: Tid, doubts: Doubts) -> Option<Nodes>
    ensures { result ≡ lists_doubt tid doubts }
{
    let mut doubts = doubts.into_vec();
    let at = place_of(tid, &doubts)?;
    Some(doubts.swap_remove(at).participants)
}

/// Whether all of them are nodes of the space.
fn are_below(nodes: u8, participants: &Nodes) -> bool
    ensures { result ≡ list_all (λ n. nat_lt n.0 nodes) participants.now }
{
    participants.as_slice().iter().all(|n| n.0 < nodes)
}

/// The stage after the list of a node.
fn listed(tid: Tid, nodes: u8, node: u8, reply: NodeReply) -> RecovStage
    requires { node < nodes }
    ensures { result ≡ after_list tid nodes node reply }
{
    if let NodeReply::Listed { doubts } = reply
        && let Some(participants) = participants_of(tid, doubts)
        && are_below(nodes, &participants)
    {
        return RecovStage::Found {
            participants,
            voted: 0,
            yes: true,
            decided: 0,
        };
    }
    RecovStage::Looking { node: node + 1 }
}

impl Recoverer {
    ghost use Rattle.std.specs.Prelude.{List, ◌∷◌};
    ghost use Rattle.mn_base.specs.declared.ids.NodeNo.{NodeNo};
    ghost use Rattle.mn_mini.specs.declared.request.Request.{Request};
    ghost use Rattle.mn_runs.specs.declared.entry.Entry.{Entry};
    ghost use Rattle.mn_recov.specs.declared.step.RecovStep.TheVariants.{Send};
    ghost use Rattle.mn_recov.specs.Recovery.{step_of, fed, IsSend, IsSoundRecovery, IsSoundStep};
    ghost use Rattle.mn_recov.specs.Legal.{Agrees, MayMake, IsAnswered};

    /// The recovery of the id among so many nodes. It has a run and a serial from 1 on and a client
    /// from 0 to 20. NoMemory: there was no memory for it.
    pub fn new(_alloc: Global, tid: Tid, nodes: u8) -> Result<Self, NoMemory>
        requires id { IsTid tid }
        ensures { IfOk result (λ r. r ≡ record { tid = tid; nodes = nodes; stage = Looking 0 }) }
    {
        Ok(Recoverer {
            tid,
            nodes,
            stage: RecovStage::Looking { node: 0 },
        })
    }

    /// What it wants next: the same until a reply is fed. It takes no memory. The client may make
    /// it, by the commit protocol, where its list holds the calls so far.
    pub fn next(&self) -> RecovStep
        ensures step { result ≡ step_of self.now }

        // A request is sound, and goes to one of the nodes.
        ensures sound { IsSoundStep self.now.nodes result }
        ensures legal { (es : List Entry) → Agrees es self.now → MayMake es result }
    {
        self.is_sound();
        self.step()
    }

    // What is so of each.
    fn is_sound(&self)
        ensures { IsSoundRecovery self.now }
    {
        let _nodes = self.nodes;
    }

    fn step(&self) -> RecovStep
        ensures { result ≡ step_of self.now }
    {
        match &self.stage {
            RecovStage::Looking { node } if *node < self.nodes => RecovStep::Send {
                node: NodeNo(*node),
                request: Request::List,
            },
            RecovStage::Looking { .. } => RecovStep::Ended { yes: None },
            RecovStage::Found {
                participants,
                voted,
                yes,
                decided,
            } => {
                let participants = participants.as_slice();
                if *voted < participants.len() {
                    RecovStep::Send {
                        node: participants[*voted],
                        request: Request::Force { tid: self.tid },
                    }
                } else if *decided < participants.len() {
                    RecovStep::Send {
                        node: participants[*decided],
                        request: Request::Decide {
                            tid: self.tid,
                            yes: *yes,
                        },
                    }
                } else {
                    RecovStep::Ended { yes: Some(*yes) }
                }
            }
        }
    }

    /// The reply to the request that `next` gives. It takes no memory.
    pub fn feed(&mut self, reply: NodeReply)
        requires out { IsSend (step_of self.old) }
        ensures fed { self.new ≡ fed self.old reply }
        ensures agrees { (es : List Entry) (e : Entry) (node : NodeNo) (request : Request)
            → Agrees es self.old → step_of self.old ≡ Send node request
            → IsAnswered e node request reply → Agrees (e ∷ es) self.new }
        ensures no_entry { (reply ≡ NodeReply.NoMemory)
            → ((es : List Entry) → Agrees es self.old → Agrees es self.new) }
    {
        self.advance(reply);
    }

    fn advance(&mut self, reply: NodeReply)
        requires { IsSend (step_of self.old) }
        ensures { self.new ≡ fed self.old reply }
    {
        match &mut self.stage {
            RecovStage::Looking { node } => {
                self.stage = listed(self.tid, self.nodes, *node, reply);
            }
            RecovStage::Found {
                participants,
                voted,
                yes,
                decided,
            } => {
                if *voted >= participants.as_slice().len() {
                    *decided += 1;
                } else if let NodeReply::Vote { yes: vote } = reply {
                    *voted += 1;
                    *yes = *yes && vote;
                }
            }
        }
    }
}

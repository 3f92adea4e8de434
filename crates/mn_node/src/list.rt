ghost use Rattle.std.specs.Prelude.{◌≡◌, reverse, IfOk, OnOk};
ghost use Rattle.mn_mini.specs.Node.{HeldPart, held_parts, doubts_of, with_doubt};
ghost use Rattle.mn_node.specs.Held.{AreHeldVotes, IsVote, IsVoteFor};

use crate::held::{Vote, participants_of};
use mn_base::{NoMemory, Tid, TryCopy};
use mn_mini::{Doubt, Doubts, Record};
use std::alloc::Global;

/// Puts an id in its place.
fn place(doubts: &mut Vec<Doubt>, doubt: Doubt) -> Result<(), NoMemory>
    ensures { OnOk result (doubts.new.items ≡ with_doubt doubt doubts.old.items) }
{
    let mut at = 0;
    while at < doubts.len() && !doubt.tid.precedes(doubts[at].tid) {
        at += 1;
    }
    doubts.insert(at, doubt)?;
    Ok(())
}

/// The id and the participants of a vote.
fn doubt_of(alloc: Global, records: &[Record], vote: &Vote) -> Result<Doubt, NoMemory>
    requires vote { IsVote records.now vote.now }
    ensures { IfOk result (λ doubt. (h : HeldPart) → IsVoteFor records.now vote.now h
        → doubt ≡ record { tid = h.tid; participants = h.participants }) }
{
    let participants = participants_of(records, *vote).try_copy(alloc)?;
    Ok(Doubt {
        tid: vote.tid,
        participants,
    })
}

/// The ids that are held by these votes, in order, with their participants.
pub fn doubts(alloc: Global, records: &[Record], held: &[Vote]) -> Result<Doubts, NoMemory>
    requires held { AreHeldVotes records.now held.now }
    ensures { IfOk result (λ doubts. doubts ≡ doubts_of (held_parts (reverse records.now))) }
{
    let mut doubts = Vec::new(alloc);
    for vote in held {
        let doubt = doubt_of(alloc, records, vote)?;
        place(&mut doubts, doubt)?;
    }
    Ok(Doubts::from_vec(doubts))
}

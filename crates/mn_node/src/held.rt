ghost use Rattle.std.specs.Prelude.{◌≡◌, Bool, IfOk, List, reverse};
ghost use Rattle.std.specs.List.{list_any};
ghost use Rattle.mn_base.specs.Ids.{tid_same};
ghost use Rattle.mn_mini.specs.Node.{HeldPart, has_voted};
ghost use Rattle.mn_node.specs.Held.{IsVote, IsVoteFor, votes_of_others};

use mn_base::{NoMemory, Nodes, Tid};
use mn_mini::{PartItem, Record};
use std::alloc::Global;

/// A vote whose part is held: its id, and how many records stand before its record.
#[derive(Clone, Copy, Debug, PartialEq, Eq)]
pub struct Vote {
    pub tid: Tid,
    pub place: usize,
}

/// The two ids are one.
pub fn is_same(a: Tid, b: Tid) -> bool
    ensures { result ≡ tid_same a b }
{
    a.run == b.run && a.client.0 == b.client.0 && a.serial == b.serial
}

/// The node has voted for the id.
pub fn voted(records: &[Record], tid: Tid) -> bool
    ensures { result ≡ has_voted (reverse records.now) tid }
{
    let mut left = records.len();
    while left > 0 {
        left -= 1;
        if let Record::Voted { tid: voter, .. } = &records[left] {
            if is_same(*voter, tid) {
                return true;
            }
        }
    }
    false
}

/// One of the votes is for the id.
pub fn has_vote_for(held: &[Vote], tid: Tid) -> bool
    ensures { result ≡ list_any (λ vote. tid_same vote.tid tid) held.now }
{
    for vote in held {
        if is_same(vote.tid, tid) {
            return true;
        }
    }
    false
}

/// Leaves out the votes for an id. It takes no memory.
pub fn forget(held: &mut Vec<Vote>, tid: Tid)
    ensures { held.new.items ≡ votes_of_others tid held.old.items }
{
    held.retain(|vote| !is_same(vote.tid, tid));
}

/// A copy of votes.
pub fn copy_of(alloc: Global, held: &[Vote]) -> Result<Vec<Vote>, NoMemory>
    ensures { IfOk result (λ copy. copy.items ≡ held.now) }
{
    Ok(held.to_vec(alloc)?)
}

/// The part of a vote.
pub fn part_of(records: &[Record], vote: Vote) -> &[PartItem]
    requires vote { IsVote records.now vote }
    ensures { (h : HeldPart) → IsVoteFor records.now vote h → result.now ≡ h.part }
{
    match &records[vote.place] {
        Record::Voted { part, .. } => part.as_slice(),
        _ => unreachable!(),
    }
}

/// The participants of a vote.
pub fn participants_of(records: &[Record], vote: Vote) -> &Nodes
    requires vote { IsVote records.now vote }
    ensures { (h : HeldPart) → IsVoteFor records.now vote h → result.now ≡ h.participants }
{
    match &records[vote.place] {
        Record::Voted { participants, .. } => participants,
        _ => unreachable!(),
    }
}

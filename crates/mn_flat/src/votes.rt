ghost use Rattle.std.specs.Prelude.{◌≡◌, ◌≤◌, ◌<◌, ◌&&◌, ◌||◌, ◌∷◌, not, false, nat_lt, is_some};
ghost use Rattle.std.specs.Prelude.{List, length, Option, option_map, MatchBool, OnOk, IfErr};
ghost use Rattle.std.specs.Prelude.{Contains, slice_get};
ghost use Rattle.std.specs.List.{list_all, list_any};
ghost use Rattle.std.specs.Option.{option_map_or};
ghost use Rattle.mn_base.specs.Ids.{node_same, tid_same};
ghost use Rattle.mn_base.specs.declared.ids.NodeNo.{NodeNo};
ghost use Rattle.mn_mini.specs.declared.record.Record.{Record};
ghost use Rattle.mn_mini.specs.Node.{held_part_of};
ghost use Rattle.mn_runs.specs.Sound.{is_free};
ghost use Rattle.mn_flat.specs.Known.{parts_seen, known_at, named_in, says_voted, says_all};
ghost use Rattle.mn_flat.specs.Known.{says_committed};
ghost use Rattle.mn_flat.specs.Told.{IsTold, IsPast, IsEnd, SaysWrong};
ghost use Rattle.mn_flat.specs.Numbers.{item_rises};
ghost use Rattle.mn_flat.specs.Votes.{KeepsVotes, KeepsDecisions, IsRight, all_of};

use crate::VoteError;
use crate::held::{Held, held_of, hold, is_free};
use crate::known::Table;
use crate::numbers::held_rises;
use mn_base::{NoMemory, NodeNo, Nodes, Tid};
use mn_mini::{Part, Record};
use mn_space::NodeSpace;

/// What the records of all nodes tell.
#[derive(Drop)]
pub struct Told<'a> {
    /// Of all nodes together.
    pub all: Table<'a>,
    /// Of each node.
    pub nodes: Vec<Table<'a>>,
}

/// What the older records of a node tell.
#[derive(Drop)]
pub struct Past<'a> {
    pub known: Table<'a>,
    /// The parts that are held, the oldest first.
    pub held: Vec<Held<'a>>,
}

/// Whether the node has voted for the id.
fn has_voted(tables: &[Table<'_>], node: NodeNo, tid: Tid) -> bool
    ensures { result ≡ says_voted tables.now tid node }
{
    let at = usize::from(node.0);
    at < tables.len() && tables[at].of(tid).participants.is_some()
}

/// Whether each of these nodes has.
fn have_voted(tables: &[Table<'_>], participants: &[NodeNo], tid: Tid) -> bool
    ensures { result ≡ list_all (says_voted tables.now tid) participants.now }
{
    participants
        .iter()
        .all(|node| has_voted(tables, *node, tid))
}

/// Whether each of the participants that a vote names has; false where there is no vote.
fn all_voted(tables: &[Table<'_>], participants: Option<&Nodes>, tid: Tid) -> bool
    ensures { result ≡ says_all tables.now tid (option_map (λ ns. ns.now) participants.entry) }
{
    match participants {
        Some(participants) => have_voted(tables, participants.as_slice(), tid),
        None => false,
    }
}

/// Whether the node's records show that the id is committed.
fn shows_commit(tables: &[Table<'_>], table: &Table<'_>, tid: Tid) -> bool
    ensures { result ≡ says_committed tables.now tid table.now }
{
    let known = table.of(tid);
    known.executed || all_voted(tables, known.participants, tid)
}

/// Whether each participant has voted, or the one participant has executed it.
pub fn is_committed(tables: &[Table<'_>], tid: Tid) -> bool
    ensures { result ≡ list_any (says_committed tables.now tid) tables.now }
{
    tables.iter().any(|table| shows_commit(tables, table, tid))
}

fn are_nodes(participants: &[NodeNo], nodes: usize) -> bool
    ensures { result ≡ list_all (λ m. nat_lt m.0 nodes) participants.now }
{
    participants.iter().all(|m| usize::from(m.0) < nodes)
}

fn has_node(participants: &[NodeNo], node: NodeNo) -> bool
    ensures { result ≡ list_any (λ m. node_same m node) participants.now }
{
    participants.iter().any(|m| m.0 == node.0)
}

/// Whether a vote may stand there.
fn vote_fits(
    told: &Told<'_>,
    past: &Past<'_>,
    node: NodeNo,
    tid: Tid,
    participants: &Nodes,
    part: &Part,
) -> bool
    ensures { result ≡ (not (known_at past.now.known tid).seen
        && (list_all (λ m. nat_lt m.0 (length told.now.nodes.items)) participants.now
        && (list_any (λ m. node_same m node) participants.now
        && (is_free (parts_seen past.now.held.items) part.now
        && not (known_at told.now.all tid).differ)))) }
{
    !past.known.of(tid).seen
        && are_nodes(participants.as_slice(), told.nodes.len())
        && has_node(participants.as_slice(), node)
        && is_free(&past.held, part.as_slice())
        && !told.all.of(tid).differ
}

/// Whether what is held for the id in the end writes greater numbers, if the id is committed.
fn vote_rises(told: &Told<'_>, held: &[Held<'_>], space: &NodeSpace, tid: Tid) -> bool
    ensures { result ≡ (not (list_any
        (says_committed told.now.nodes.items tid) told.now.nodes.items)
        || list_all (λ h. not (tid_same h.tid tid)
        || list_all (item_rises space.now) h.part.now) held.now) }
{
    !is_committed(&told.nodes, tid) || held_rises(space, held, tid)
}

/// Whether a vote may stand there, and what its node holds of it in the end writes greater numbers.
fn vote_stands(
    told: &Told<'_>,
    held: &[Held<'_>],
    space: &NodeSpace,
    past: &Past<'_>,
    node: NodeNo,
    tid: Tid,
    participants: &Nodes,
    part: &Part,
) -> bool
    ensures { result ≡ ((not (known_at past.now.known tid).seen
        && (list_all (λ m. nat_lt m.0 (length told.now.nodes.items)) participants.now
        && (list_any (λ m. node_same m node) participants.now
        && (is_free (parts_seen past.now.held.items) part.now
        && not (known_at told.now.all tid).differ))))
        && (not (list_any (says_committed told.now.nodes.items tid) told.now.nodes.items)
        || list_all (λ h. not (tid_same h.tid tid)
        || list_all (item_rises space.now) h.part.now) held.now)) }
{
    vote_fits(told, past, node, tid, participants, part) && vote_rises(told, held, space, tid)
}

/// Whether an execution may stand there.
fn execution_fits(told: &Told<'_>, past: &Past<'_>, tid: Tid, part: &Part) -> bool
    ensures { result ≡ (not (known_at past.now.known tid).seen
        && (is_free (parts_seen past.now.held.items) part.now
        && not (known_at told.now.all tid).several)) }
{
    !past.known.of(tid).seen && is_free(&past.held, part.as_slice()) && !told.all.of(tid).several
}

/// Whether the id is held.
fn is_held(past: &Past<'_>, tid: Tid) -> bool
    ensures { result ≡ is_some (held_part_of tid (parts_seen past.now.held.items)) }
{
    held_of(&past.held, tid).is_some()
}

/// Whether each participant that the node's vote names has voted.
fn is_voted(told: &Told<'_>, node: NodeNo, tid: Tid) -> bool
    ensures { result ≡ option_map_or
        (λ t. says_all told.now.nodes.items tid (named_in (known_at t tid)))
        (slice_get told.now.nodes.items node.0) false }
{
    let at = usize::from(node.0);
    at < told.nodes.len() && all_voted(&told.nodes, told.nodes[at].of(tid).participants, tid)
}

/// Whether a decision may stand there: a yes only where each participant has voted.
fn decision_fits(told: &Told<'_>, past: &Past<'_>, node: NodeNo, tid: Tid, verdict: bool) -> bool
    ensures { result ≡ (is_some (held_part_of tid (parts_seen past.now.held.items))
        && (not verdict || option_map_or
        (λ t. says_all told.now.nodes.items tid (named_in (known_at t tid)))
        (slice_get told.now.nodes.items node.0) false)) }
{
    is_held(past, tid) && (!verdict || is_voted(told, node, tid))
}

/// Whether the record stands where it may, after the older ones of its node.
fn keeps_votes(
    told: &Told<'_>,
    held: &[Held<'_>],
    space: &NodeSpace,
    past: &Past<'_>,
    node: NodeNo,
    record: &Record,
) -> bool
    ensures { (records : List (List Record)) (older : List Record) → IsTold told.now records
        → IsPast past.now older → IsEnd held.now space.now records node
        → Contains (all_of records) record.now
        → MatchBool result (KeepsVotes records node older record.now)
        (KeepsVotes records node older record.now → ⊥) }
{
    match record {
        Record::Voted {
            tid,
            participants,
            part,
        } => vote_stands(told, held, space, past, node, *tid, participants, part),
        Record::Executed { tid, part } => execution_fits(told, past, *tid, part),
        Record::Decided { tid, yes } => decision_fits(told, past, node, *tid, *yes),
        Record::Forced { tid } => !past.known.of(*tid).seen,
    }
}

/// Whether the id has a decided no, and is committed or has a decided yes.
fn is_both(told: &Told<'_>, tid: Tid) -> bool
    ensures { result ≡ ((known_at told.now.all tid).refused
        && (list_any (says_committed told.now.nodes.items tid) told.now.nodes.items
        || (known_at told.now.all tid).agreed)) }
{
    let known = told.all.of(tid);
    known.refused && (is_committed(&told.nodes, tid) || known.agreed)
}

/// Whether the record's id, if it decides one, is not decided both ways.
fn keeps_decisions(told: &Told<'_>, record: &Record) -> bool
    ensures { (records : List (List Record)) → IsTold told.now records
        → MatchBool result (KeepsDecisions records record.now)
        (KeepsDecisions records record.now → ⊥) }
{
    match record {
        Record::Decided { tid, .. } => !is_both(told, *tid),
        _ => true,
    }
}

/// Tests the record, the one with this number in its node's list. Unvoted: it stands where it may
/// not, after the older ones of its node. Both: its id is decided both ways. NoMemory: its number
/// is above those that there are names for.
pub fn test(
    told: &Told<'_>,
    held: &[Held<'_>],
    space: &NodeSpace,
    past: &Past<'_>,
    node: NodeNo,
    number: usize,
    record: &Record,
) -> Result<(), VoteError>
    ensures right { (records : List (List Record)) (older : List Record) → IsTold told.now records
        → IsPast past.now older → IsEnd held.now space.now records node
        → Contains (all_of records) record.now
        → OnOk result (IsRight records node older record.now) }
    ensures wrong { (records : List (List Record)) (older : List Record) → IsTold told.now records
        → IsPast past.now older → IsEnd held.now space.now records node
        → Contains (all_of records) record.now
        → IfErr result (SaysWrong records node number older record.now) }
{
    let Ok(number) = u32::try_from(number) else {
        return Err(VoteError::NoMemory);
    };
    if !keeps_votes(told, held, space, past, node, record) {
        return Err(VoteError::Unvoted { node, number });
    }
    if !keeps_decisions(told, record) {
        return Err(VoteError::Both { node, number });
    }
    Ok(())
}

/// Notes a record behind the others of its node.
pub fn note<'a>(past: &mut Past<'a>, record: &'a Record) -> Result<(), NoMemory>
    ensures { (older : List Record) → IsPast past.old older
        → OnOk result (IsPast past.new (record.now ∷ older)) }
{
    past.known.note(record)?;
    hold(&mut past.held, record)?;
    Ok(())
}

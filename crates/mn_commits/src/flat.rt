ghost use Rattle.std.specs.Prelude.{◌≡◌, ◌<◌, ◌&&◌, ◌||◌, List, [], ◌∷◌, if◌then◌else◌, length};
ghost use Rattle.std.specs.Prelude.{bytes_eq, slice_set, OnOk, IfOk};
ghost use Rattle.std.specs.List.{list_all};
ghost use Rattle.std.specs.Option.{option_map};
ghost use Rattle.mn_base.specs.Ids.{tid_same, node_same};
ghost use Rattle.mn_base.specs.declared.ids.Tid.{Tid};
ghost use Rattle.mn_base.specs.declared.ids.NodeNo.{NodeNo};
ghost use Rattle.mn_mini.specs.Flat.{bytes_in, overwritten, memory_after, space_in, outcome_on};
ghost use Rattle.mn_runs.specs.declared.entry.Entry.{Entry};
ghost use Rattle.mn_runs.specs.Calls.{node_entries};
ghost use Rattle.mn_runs.specs.Nodes.{stopped_request_after};
ghost use Rattle.mn_runs.specs.Commits.{is_vote_effect, effect_of, committed_with, committed_by};
ghost use Rattle.mn_runs.specs.Commits.{memory_of_outcome, memory_after_commit, flat_after};
ghost use Rattle.mn_runs.specs.Protocol.{entries_of, Start};
ghost use Rattle.mn_commits.specs.Laws.{IsRunFrom, IsFlatRun};
ghost use Rattle.mn_commits.specs.Standing.{id_key, vote_key, kept_mini, keeps_vote, kept_request};
ghost use Rattle.mn_commits.specs.Standing.{issue_after, effect_of_entry, StandingTells};
ghost use Rattle.mn_commits.specs.Standing.{item_holds};

use mn_base::{Bytes, NoMemory, NodeNo, Tid, TryCopy};
use mn_mini::{Item, Minitransaction, NodeReply, Request, Spaces};
use mn_runs::{Entry, Log, What, overwrite};
use std::alloc::Global;
use std::collections::{HashMap, HashSet};
use std::mem;

/// An id as what is kept of it is looked up in a map.
#[derive(Clone, Copy, PartialEq, Eq, Hash)]
pub struct IdKey {
    run: u32,
    client: u8,
    serial: u32,
}

/// A vote as it is looked up.
#[derive(Clone, Copy, PartialEq, Eq, Hash)]
struct VoteKey {
    id: IdKey,
    node: u8,
}

/// What the entries so far tell of ids and nodes.
#[derive(Drop)]
pub struct Standing<'a> {
    /// The last minitransaction that was issued under each id.
    issued: HashMap<IdKey, &'a Minitransaction>,
    /// The ids for which a node has voted yes, with the node.
    voted: HashSet<VoteKey>,
    /// By node, the request inside which it last stopped.
    stopped: Vec<Option<&'a Request>>,
}

/// How many numbers of nodes there are.
const NODE_NUMBERS: usize = 256;

/// How many entries stand in a log for a minitransaction, mostly.
const ENTRIES: usize = 4;

/// No entry of so many tells anything yet. There is room at once for what is mostly issued in them.
pub fn nothing<'a>(alloc: Global, entries: usize) -> Result<Standing<'a>, NoMemory>
    ensures length { IfOk result (λ s. length s.stopped.items ≡ 256) }
    ensures tells { IfOk result (λ s. StandingTells s []) }
{
    Ok(Standing {
        issued: HashMap::with_capacity(alloc, entries / ENTRIES)?,
        voted: HashSet::with_capacity(alloc, entries / ENTRIES)?,
        stopped: vec![in alloc; None; NODE_NUMBERS]?,
    })
}

/// The id, to look up what is kept of it.
pub fn id_key(tid: Tid) -> IdKey
    ensures { result ≡ id_key tid }
{
    IdKey {
        run: tid.run,
        client: tid.client.0,
        serial: tid.serial,
    }
}

fn vote_key(tid: Tid, node: NodeNo) -> VoteKey
    ensures { result ≡ vote_key tid node }
{
    VoteKey {
        id: id_key(tid),
        node: node.0,
    }
}

fn issued_as<'a>(standing: &Standing<'a>, tid: Tid) -> Option<&'a Minitransaction>
    ensures { option_map (λ m. m.now) result ≡ kept_mini standing.now tid }
{
    standing.issued.get(&id_key(tid)).copied()
}

fn has_voted(standing: &Standing<'_>, tid: Tid, node: NodeNo) -> bool
    ensures { result ≡ keeps_vote standing.now tid node }
{
    standing.voted.contains(&vote_key(tid, node))
}

fn stopped_in<'a>(standing: &Standing<'a>, node: NodeNo) -> Option<&'a Request>
    requires { length standing.now.stopped.items ≡ 256 }
    ensures { option_map (λ r. r.now) result ≡ kept_request standing.now node }
{
    standing.stopped[node.0 as usize]
}

fn note_issue<'a>(
    standing: &mut Standing<'a>,
    tid: Tid,
    mini: &'a Minitransaction,
) -> Result<(), NoMemory>
    ensures issued { OnOk result ((q : Tid)
        → kept_mini standing.new q ≡ (if tid_same tid q then Some mini.now
        else kept_mini standing.old q)) }
    ensures others { OnOk result ((standing.new.voted ≡ standing.old.voted)
        × (standing.new.stopped ≡ standing.old.stopped)) }
{
    standing.issued.insert(id_key(tid), mini)?;
    Ok(())
}

fn note_vote(standing: &mut Standing<'_>, tid: Tid, node: NodeNo) -> Result<(), NoMemory>
    ensures voted { OnOk result ((q : Tid) (n : NodeNo)
        → keeps_vote standing.new q n
        ≡ ((tid_same tid q && node_same n node) || keeps_vote standing.old q n)) }
    ensures others { OnOk result ((standing.new.issued ≡ standing.old.issued)
        × (standing.new.stopped ≡ standing.old.stopped)) }
{
    standing.voted.insert(vote_key(tid, node))?;
    Ok(())
}

fn note_stop<'a>(standing: &mut Standing<'a>, node: NodeNo, request: Option<&'a Request>)
    requires { length standing.old.stopped.items ≡ 256 }
    ensures length { length standing.new.stopped.items ≡ 256 }
    ensures stopped { (n : NodeNo) → n.0 < 256
        → kept_request standing.new n
        ≡ (if node_same n node then option_map (λ r. r.now) request.entry
        else kept_request standing.old n) }
    ensures others { (standing.new.issued ≡ standing.old.issued)
        × (standing.new.voted ≡ standing.old.voted) }
{
    standing.stopped[node.0 as usize] = request;
}

/// The request that takes effect at an entry of the node.
fn effect_at<'a>(standing: &Standing<'a>, node: NodeNo, what: &'a What) -> Option<&'a Request>
    requires { length standing.now.stopped.items ≡ 256 }
    ensures { (past : List Entry) → StandingTells standing.now past
        → option_map (λ r. r.now) result ≡ effect_of (node_entries node past) what.now }
{
    match what {
        What::Called {
            request,
            reply: NodeReply::Done { .. },
        } => Some(request),
        What::Restarted { kept: true } => stopped_in(standing, node),
        _ => None,
    }
}

/// Whether each of these nodes has voted yes, but for the one that votes now.
fn all_voted(standing: &Standing<'_>, tid: Tid, now: NodeNo, participants: &[NodeNo]) -> bool
    ensures { result ≡ list_all (λ m. node_same m now || keeps_vote standing.now tid m)
        participants.now }
{
    participants
        .iter()
        .all(|m| *m == now || has_voted(standing, tid, *m))
}

/// What commits by a request that takes effect at the node.
fn committed_at<'a>(
    standing: &Standing<'a>,
    node: NodeNo,
    request: &Request,
) -> Option<&'a Minitransaction>
    ensures { (past : List Entry) → StandingTells standing.now past
        → option_map (λ m. m.now) result
        ≡ option_map (λ i. i.mini) (committed_with past node (Some request.now)) }
{
    match request {
        Request::Prepare {
            tid,
            participants,
            ..
        } => {
            if all_voted(standing, *tid, node, participants.as_slice()) {
                issued_as(standing, *tid)
            } else {
                None
            }
        }
        Request::Exec { tid, .. } => issued_as(standing, *tid),
        _ => None,
    }
}

/// Notes the vote that takes effect at the node, if it is one.
fn note_effect(
    standing: &mut Standing<'_>,
    node: NodeNo,
    effect: Option<&Request>,
) -> Result<(), NoMemory>
    ensures voted { OnOk result ((q : Tid) (n : NodeNo)
        → keeps_vote standing.new q n
        ≡ ((node_same n node && is_vote_effect q (option_map (λ r. r.now) effect.entry))
        || keeps_vote standing.old q n)) }
    ensures others { OnOk result ((standing.new.issued ≡ standing.old.issued)
        × (standing.new.stopped ≡ standing.old.stopped)) }
{
    if let Some(Request::Prepare { tid, .. }) = effect {
        note_vote(standing, *tid, node)?;
    }
    Ok(())
}

/// Notes the request inside which the node stopped, if it did.
fn note_stopped<'a>(standing: &mut Standing<'a>, node: NodeNo, what: &'a What)
    requires { length standing.old.stopped.items ≡ 256 }
    ensures length { length standing.new.stopped.items ≡ 256 }
    ensures stopped { (n : NodeNo) → n.0 < 256
        → kept_request standing.new n
        ≡ (if node_same n node then stopped_request_after what.now (kept_request standing.old n)
        else kept_request standing.old n) }
    ensures others { (standing.new.issued ≡ standing.old.issued)
        × (standing.new.voted ≡ standing.old.voted) }
{
    if let What::Stopped { request, .. } = what {
        note_stop(standing, node, request.as_ref());
    }
}

/// Notes the minitransaction that was issued, if one was.
fn note_issued<'a>(standing: &mut Standing<'a>, what: &'a What) -> Result<(), NoMemory>
    ensures issued { OnOk result ((q : Tid)
        → kept_mini standing.new q ≡ issue_after what.now q (kept_mini standing.old q)) }
    ensures others { OnOk result ((standing.new.voted ≡ standing.old.voted)
        × (standing.new.stopped ≡ standing.old.stopped)) }
{
    if let What::Issue { tid, mini } = what {
        note_issue(standing, *tid, mini)?;
    }
    Ok(())
}

/// The request that takes effect at the entry.
pub fn effect_in<'a>(standing: &Standing<'a>, entry: &'a Entry) -> Option<&'a Request>
    requires { length standing.now.stopped.items ≡ 256 }
    ensures { (past : List Entry) → StandingTells standing.now past
        → option_map (λ r. r.now) result ≡ effect_of_entry past entry.now }
{
    match entry.node {
        Some(node) => effect_at(standing, node, &entry.what),
        None => None,
    }
}

/// What commits at the entry, at which `effect` takes effect.
pub fn committed_in<'a>(
    standing: &Standing<'a>,
    entry: &Entry,
    effect: Option<&Request>,
) -> Option<&'a Minitransaction>
    ensures { (past : List Entry) → StandingTells standing.now past
        → option_map (λ r. r.now) effect.entry ≡ effect_of_entry past entry.now
        → option_map (λ m. m.now) result ≡ option_map (λ i. i.mini) (committed_by past entry.now) }
{
    match (entry.node, effect) {
        (Some(node), Some(request)) => committed_at(standing, node, request),
        _ => None,
    }
}

/// Adds the entry, at which `effect` takes effect.
pub fn note<'a>(
    standing: &mut Standing<'a>,
    entry: &'a Entry,
    effect: Option<&Request>,
) -> Result<(), NoMemory>
    requires { length standing.old.stopped.items ≡ 256 }
    ensures length { OnOk result (length standing.new.stopped.items ≡ 256) }
    ensures tells { OnOk result ((past : List Entry) → StandingTells standing.old past
        → option_map (λ r. r.now) effect.entry ≡ effect_of_entry past entry.now
        → StandingTells standing.new (entry.now ∷ past)) }
{
    note_issued(standing, &entry.what)?;
    if let Some(node) = entry.node {
        note_stopped(standing, node, &entry.what);
        note_effect(standing, node, effect)?;
    }
    Ok(())
}

/// Whether these bytes stand at `start`.
fn stand_at(space: &[u8], start: usize, bytes: &[u8]) -> bool
    ensures { result ≡ bytes_eq (bytes_in space.now start (length bytes.now)) bytes.now }
{
    if start > space.len() {
        return bytes.is_empty();
    }
    let rest = &space[start..];
    rest.len() >= bytes.len() && &rest[..bytes.len()] == bytes
}

/// Whether the item finds its bytes in place, if it compares.
fn holds_here(memory: &[Bytes], item: &Item) -> bool
    ensures { result ≡ item_holds memory.now item.now }
{
    match item {
        Item::Compare { node, start, bytes } => match memory.get(node.0 as usize) {
            Some(space) => stand_at(space.as_slice(), *start as usize, bytes.as_slice()),
            None => bytes.as_slice().is_empty(),
        },
        _ => true,
    }
}

fn all_hold(memory: &[Bytes], items: &[Item]) -> bool
    ensures { result ≡ list_all (item_holds memory.now) items.now }
{
    items.iter().all(|item| holds_here(memory, item))
}

fn write(alloc: Global, memory: &mut Vec<Bytes>, node: NodeNo, start: u32, bytes: &[u8])
    ensures { memory.new.items ≡ slice_set memory.old.items node.0
        (overwritten (space_in memory.old.items node) start bytes.now) }
{
    let at = node.0 as usize;
    if at < memory.len() {
        let mut space = mem::replace(&mut memory[at], Bytes::from_vec(Vec::new(alloc))).into_vec();
        overwrite(&mut space, start, bytes);
        memory[at] = Bytes::from_vec(space);
    }
}

fn write_all(alloc: Global, memory: &mut Vec<Bytes>, items: &[Item])
    ensures { memory.new.items ≡ memory_after memory.old.items items.now }
{
    for item in items {
        if let Item::Write { node, start, bytes } = item {
            write(alloc, memory, *node, *start, bytes.as_slice());
        }
    }
}

/// All of the minitransaction, or nothing where a compare item differs.
fn commit(alloc: Global, memory: &mut Vec<Bytes>, mini: &Minitransaction)
    ensures { memory.new.items ≡ memory_of_outcome memory.old.items
        (outcome_on memory.old.items mini.now) }
{
    if all_hold(memory, mini.items()) {
        write_all(alloc, memory, mini.items());
    }
}

/// One more entry.
fn step<'a>(
    alloc: Global,
    standing: &mut Standing<'a>,
    memory: &mut Vec<Bytes>,
    entry: &'a Entry,
) -> Result<(), NoMemory>
    requires { length standing.old.stopped.items ≡ 256 }
    ensures length { OnOk result (length standing.new.stopped.items ≡ 256) }
    ensures tells { OnOk result ((past : List Entry) → StandingTells standing.old past
        → StandingTells standing.new (entry.now ∷ past)) }
    ensures memory { (past : List Entry) → StandingTells standing.old past
        → memory.new.items ≡ memory_after_commit memory.old.items (committed_by past entry.now) }
{
    let effect = effect_in(standing, entry);
    if let Some(mini) = committed_in(standing, entry, effect) {
        commit(alloc, memory, mini);
    }
    note(standing, entry, effect)
}

/// The flat memory after these entries, where it was `start` before them: the committed
/// minitransactions take effect on it all at once each, in the order of the places where they are
/// committed. NoMemory: there was no memory for it.
///
/// Where the entries keep the commit protocol, from records that fit together and whose memory
/// `start` is, all that the nodes did has this meaning: each committed minitransaction found its
/// compares in the flat memory at its place and read from it, held parts don't conflict, and each
/// space is the flat memory's but for writes that are committed and still held.
pub fn flat_after(alloc: Global, start: &Spaces, log: &Log) -> Result<Spaces, NoMemory>
    ensures memory { IfOk result (λ after. after ≡ flat_after start.now (entries_of log.now)) }
    ensures run { (from : Start) → IsRunFrom from start.now (entries_of log.now)
        → IfOk result (λ after. IsFlatRun from start.now after (entries_of log.now)) }
{
    let mut memory = start.try_copy(alloc)?.into_vec();
    let mut standing = nothing(alloc, log.len())?;
    for place in 0..log.len() {
        step(alloc, &mut standing, &mut memory, log.entry(place))?;
    }
    Ok(Spaces::from_vec(memory))
}

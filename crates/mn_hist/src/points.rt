//! The crash points of a script that a log met.
ghost use Rattle.std.specs.Prelude.{◌≡◌, ◌+◌, ◌&&◌, ◌∷◌, [], List, IfOk, OnOk, length, replicate};
ghost use Rattle.std.specs.Prelude.{false, if◌then◌else◌};
ghost use Rattle.std.specs.Option.{option_map, option_map_or};
ghost use Rattle.mn_base.specs.Ids.{client_same, tid_same};
ghost use Rattle.mn_base.specs.declared.ids.ClientNo.{ClientNo as Who};
ghost use Rattle.mn_base.specs.declared.ids.Tid.{Tid as Id};
ghost use Rattle.mn_runs.specs.declared.entry.Entry.{Entry as Past};
ghost use Rattle.mn_runs.specs.Protocol.{entries_of};
ghost use Rattle.mn_hist.specs.Points.{voted_id, may_stop, asked_in, with_met, points_met};
ghost use Rattle.mn_hist.specs.Watching.{step_fits, StepMeetsPoint, number_after, try_key};
ghost use Rattle.mn_hist.specs.Watching.{votes_kept};
ghost use Rattle.mn_hist.specs.Watching.{IsWatchOf, TellsPointsMet};

use mn_base::{ClientNo, NoMemory, NodeNo, StopAt, Tid};
use mn_commits::{IdKey, id_key};
use mn_mini::{NodeReply, Request};
use mn_runs::{Entry, Log, What};
use mn_script::Point;
use std::alloc::Global;
use std::collections::HashMap;

/// A client's try as its votes are looked up.
#[derive(Clone, Copy, PartialEq, Eq, Hash)]
struct TryKey {
    caller: u8,
    id: IdKey,
}

fn try_key(client: ClientNo, tid: Tid) -> TryKey
    ensures { result ≡ try_key client tid }
{
    TryKey {
        caller: client.0,
        id: id_key(tid),
    }
}

/// What a step of a client is to crash points.
#[derive(Clone, Copy)]
pub struct Step {
    pub client: ClientNo,
    /// The number of its operation under way.
    pub number: Option<u32>,
    pub node: Option<NodeNo>,
    /// Its yes votes for the id that the step brings one for.
    pub votes: Option<usize>,
    /// Where the node stopped as it was asked to.
    pub asked: Option<StopAt>,
}

/// The id for which the step brings a yes vote.
pub fn voted_id(what: &What) -> Option<Tid>
    ensures { result ≡ voted_id what.now }
{
    match what {
        What::Called {
            request: Request::Prepare { tid, .. },
            reply: NodeReply::Done { .. },
        } => Some(*tid),
        _ => None,
    }
}

/// Whether a point may stop a node inside the request.
pub fn may_stop(request: &Request) -> bool
    ensures { result ≡ may_stop request.now }
{
    matches!(request, Request::Prepare { .. } | Request::Exec { .. })
}

/// Where the node stopped, as it was asked to, inside a request that a point may stop.
pub fn asked_in(what: &What) -> Option<StopAt>
    ensures { result ≡ asked_in what.now }
{
    match what {
        What::Stopped {
            request: Some(request),
            asked,
        } if may_stop(request) => *asked,
        _ => None,
    }
}

/// The number of the operation under way after the step.
fn number_after(what: &What, before: Option<u32>) -> Option<u32>
    ensures { result ≡ number_after what.now before }
{
    match what {
        What::Begin { number, .. } => Some(*number),
        What::Answered { .. } => None,
        _ => before,
    }
}

/// Whether the point fits the step.
fn fits(point: &Point, step: &Step) -> bool
    ensures { result ≡ step_fits step.now point.now }
{
    match point {
        Point::Kill {
            client,
            number,
            votes,
        } => {
            *client == step.client
                && step.number == Some(*number)
                && step.votes == Some(usize::from(*votes))
        }
        Point::Stop {
            node,
            client,
            number,
            at,
        } => {
            *client == step.client
                && step.number == Some(*number)
                && step.node == Some(*node)
                && step.asked == Some(*at)
        }
    }
}

/// The place of the first point that fits the step and that was not met before.
fn first_fit(points: &[Point], met: &[bool], step: &Step) -> Option<usize>
    requires { length met.now ≡ length points.now }
    ensures { StepMeetsPoint (step_fits step.now) points.now met.now result }
{
    for (at, point) in points.iter().enumerate() {
        if !met[at] && fits(point, step) {
            return Some(at);
        }
    }
    None
}

/// The first point that fits the step and that was not met before is met. The points are looked at
/// only if some may fit.
pub fn meet(points: &[Point], met: &mut [bool], step: &Step)
    requires { length met.old ≡ length points.now }
    ensures met { met.new ≡ with_met (step_fits step.now) points.now met.old }
    ensures long { length met.new ≡ length met.old }
{
    if step.votes.is_none() && step.asked.is_none() {
        return;
    }
    if let Some(at) = first_fit(points, met, step) {
        met[at] = true;
    }
}

/// How many yes votes are kept of the client for this id.
fn votes_of(votes: &HashMap<TryKey, usize>, client: ClientNo, tid: Tid) -> usize
    ensures { result ≡ votes_kept votes.now client tid }
{
    match votes.get(&try_key(client, tid)) {
        Some(count) => *count,
        None => 0,
    }
}

/// Counts a yes vote of the client for this id, and tells how many it has then.
fn add_vote(
    votes: &mut HashMap<TryKey, usize>,
    client: ClientNo,
    tid: Tid,
) -> Result<usize, NoMemory>
    ensures count { IfOk result (λ count. count ≡ votes_kept votes.old client tid + 1) }
    ensures kept { OnOk result ((c : Who) (t : Id)
        → votes_kept votes.new c t ≡ (if client_same client c && tid_same tid t
        then votes_kept votes.old client tid + 1 else votes_kept votes.old c t)) }
{
    let before = votes_of(votes, client, tid);
    let count = before.checked_add(1).ok_or(NoMemory)?;
    votes.insert(try_key(client, tid), count)?;
    Ok(count)
}

/// Counts the yes vote of the client for this id, if there is one, and tells how many it has then.
fn count_vote(
    votes: &mut HashMap<TryKey, usize>,
    client: ClientNo,
    voted: Option<Tid>,
) -> Result<Option<usize>, NoMemory>
    ensures count { IfOk result (λ count. count
        ≡ option_map (λ tid. votes_kept votes.old client tid + 1) voted) }
    ensures kept { OnOk result ((c : Who) (t : Id)
        → votes_kept votes.new c t ≡ (if client_same client c
        && option_map_or (λ tid. tid_same tid t) voted false then votes_kept votes.old c t + 1
        else votes_kept votes.old c t)) }
{
    let Some(tid) = voted else {
        return Ok(None);
    };
    Ok(Some(add_vote(votes, client, tid)?))
}

/// How many numbers of clients there are.
const CLIENT_NUMBERS: usize = 256;

/// Of no client is an operation under way.
fn no_numbers(alloc: Global) -> Result<Vec<Option<u32>>, NoMemory>
    ensures { IfOk result (λ numbers. numbers.items ≡ replicate 256 None) }
{
    let mut numbers = Vec::with_capacity(alloc, CLIENT_NUMBERS)?;
    for _ in 0..CLIENT_NUMBERS {
        numbers.push(None)?;
    }
    Ok(numbers)
}

/// So many points of which none was met.
pub fn none_met(alloc: Global, points: usize) -> Result<Vec<bool>, NoMemory>
    ensures { IfOk result (λ met. met.items ≡ replicate points false) }
{
    let mut met = Vec::with_capacity(alloc, points)?;
    for _ in 0..points {
        met.push(false)?;
    }
    Ok(met)
}

/// What the entries so far tell of crash points.
#[derive(Drop)]
struct Watch {
    /// By number of the client, the number of its operation under way.
    numbers: Vec<Option<u32>>,
    /// The yes votes of each client for each id.
    votes: HashMap<TryKey, usize>,
    /// Whether each point was met.
    met: Vec<bool>,
}

impl Watch {
    /// No entry has come. NoMemory: there was no memory for it.
    fn new(alloc: Global, points: &[Point]) -> Result<Watch, NoMemory>
        ensures is { IfOk result (λ watch. IsWatchOf watch points.now) }
        ensures watches { IfOk result (λ watch. TellsPointsMet watch points.now []) }
    {
        Ok(Watch {
            numbers: no_numbers(alloc)?,
            votes: HashMap::new(alloc),
            met: none_met(alloc, points.len())?,
        })
    }

    /// Takes the next entry of this client. NoMemory: there was no memory for it.
    fn note_own(
        &mut self,
        points: &[Point],
        client: ClientNo,
        entry: &Entry,
    ) -> Result<(), NoMemory>
        requires { IsWatchOf self.old points.now }
        ensures is { OnOk result (IsWatchOf self.new points.now) }
        ensures watches { OnOk result
            ((past : List Past) → entry.now.client ≡ Some client
            → TellsPointsMet self.old points.now past
            → TellsPointsMet self.new points.now (entry.now ∷ past)) }
    {
        let number = self.numbers[usize::from(client.0)];
        let votes = count_vote(&mut self.votes, client, voted_id(&entry.what))?;
        let step = Step {
            client,
            number,
            node: entry.node,
            votes,
            asked: asked_in(&entry.what),
        };
        meet(points, &mut self.met, &step);
        self.numbers[usize::from(client.0)] = number_after(&entry.what, number);
        Ok(())
    }

    /// Takes the next entry. NoMemory: there was no memory for it.
    fn note(&mut self, points: &[Point], entry: &Entry) -> Result<(), NoMemory>
        requires { IsWatchOf self.old points.now }
        ensures is { OnOk result (IsWatchOf self.new points.now) }
        ensures watches { OnOk result
            ((past : List Past) → TellsPointsMet self.old points.now past
            → TellsPointsMet self.new points.now (entry.now ∷ past)) }
    {
        match entry.client {
            Some(client) => self.note_own(points, client, entry),
            None => Ok(()),
        }
    }
}

/// Which of these crash points the log met, in order of number. It takes time linear in the
/// entries, if there are points, and beside that looks at the points at each yes vote and each stop
/// that was asked for. NoMemory: there was no memory for it.
pub fn points_met(alloc: Global, points: &[Point], log: &Log) -> Result<Vec<bool>, NoMemory>
    ensures { IfOk result (λ met. met.items ≡ points_met points.now (entries_of log.now)) }
{
    if points.is_empty() {
        return Ok(Vec::new(alloc));
    }
    let mut watch = Watch::new(alloc, points)?;
    for place in 0..log.len() {
        watch.note(points, log.entry(place))?;
    }
    Ok(watch.met)
}

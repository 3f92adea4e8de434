//! The crash points of a script, as the list of one client meets them.
ghost use Rattle.std.specs.Prelude.{◌≡◌, ◌≤◌, ◌∷◌, [], None, if◌then◌else◌, length};
ghost use Rattle.std.specs.List.{AllByRecursion, list_any};
ghost use Rattle.mn_hist.specs.Points.{point_fits, may_stop, votes_for, votes_with, with_met};
ghost use Rattle.mn_hist.specs.Watching.{number_of};
ghost use Rattle.mn_runs.specs.Protocol.{entries_of};
ghost use Rattle.mn_callers.specs.Points.{is_kill_of, is_some_met, is_stop_at, stop_among};

use mn_base::{ClientNo, NodeNo, StopAt, Tid};
use mn_hist::{Step, asked_in, may_stop, meet, voted_id};
use mn_mini::Request;
use mn_runs::{Entry, What};
use mn_script::Point;

/// Whether the point kills the client.
fn is_kill_of(client: ClientNo, point: &Point) -> bool
    ensures { result ≡ is_kill_of client point.now }
{
    match point {
        Point::Kill { client: by, .. } => *by == client,
        Point::Stop { .. } => false,
    }
}

/// Whether some point that was met kills the client.
pub fn has_met_kill(points: &[Point], met: &[bool], client: ClientNo) -> bool
    requires { length met.now ≡ length points.now }
    ensures { result ≡ is_some_met (is_kill_of client) points.now met.now }
{
    for (at, point) in points.iter().enumerate() {
        if met[at] && is_kill_of(client, point) {
            return true;
        }
    }
    false
}

/// Where the point stops this node inside the client's operation of this number, if it was not met.
fn stop_by(point: &Point, met: bool, client: ClientNo, number: u32, node: NodeNo) -> Option<StopAt>
    ensures { result ≡ stop_among (is_stop_at node client number) (point.now ∷ []) (met ∷ []) }
{
    match point {
        Point::Stop {
            node: there,
            client: by,
            number: of,
            at,
        } if !met && *there == node && *by == client && *of == number => Some(*at),
        _ => None,
    }
}

/// Where the node is to stop inside this request of the client, in its operation of this number:
/// where the first point says that was not met.
pub fn stop_due(
    points: &[Point],
    met: &[bool],
    client: ClientNo,
    number: u32,
    node: NodeNo,
    request: &Request,
) -> Option<StopAt>
    requires { length met.now ≡ length points.now }
    ensures { result ≡ (if may_stop request.now
        then stop_among (is_stop_at node client number) points.now met.now else None) }
{
    if !may_stop(request) {
        return None;
    }
    for (at, point) in points.iter().enumerate() {
        if let Some(stop) = stop_by(point, met[at], client, number, node) {
            return Some(stop);
        }
    }
    None
}

/// How many yes votes the entries have for the id.
fn votes_for(tid: Tid, before: &[(u64, Entry)]) -> usize
    ensures votes { result ≡ votes_for tid (entries_of before.now) }
    ensures few { result ≤ length before.now }
{
    let mut votes = 0;
    for (_, entry) in before {
        if voted_id(&entry.what) == Some(tid) {
            votes += 1;
        }
    }
    votes
}

/// Whether some point kills the client.
fn may_die(points: &[Point], client: ClientNo) -> bool
    ensures { result ≡ list_any (is_kill_of client) points.now }
{
    points.iter().any(|point| is_kill_of(client, point))
}

/// How many yes votes the client has with this step for the id of that, if the step brings one.
/// They are counted only for a client that a point may kill.
fn votes_with(
    points: &[Point],
    client: ClientNo,
    before: &[(u64, Entry)],
    what: &What,
) -> Option<usize>
    ensures { result ≡ (if list_any (is_kill_of client) points.now
        then votes_with (entries_of before.now) what.now else None) }
{
    if !may_die(points, client) {
        return None;
    }
    let tid = voted_id(what)?;
    Some(votes_for(tid, before) + 1)
}

/// The points after a step of the client, in its operation of this number; `before` are its entries
/// until then.
pub fn note(
    points: &[Point],
    met: &mut [bool],
    client: ClientNo,
    number: Option<u32>,
    before: &[(u64, Entry)],
    entry: &Entry,
)
    requires long { length met.old ≡ length points.now }
    requires own { AllByRecursion (λ e. e.client ≡ Some client) (entries_of before.now) }
    requires by { entry.now.client ≡ Some client }
    requires number { number ≡ number_of (entries_of before.now) }
    ensures met { met.new ≡ with_met
        (point_fits (entries_of before.now) entry.now) points.now met.old }
    ensures long { length met.new ≡ length points.now }
{
    let step = Step {
        client,
        number,
        node: entry.node,
        votes: votes_with(points, client, before, &entry.what),
        asked: asked_in(&entry.what),
    };
    meet(points, met, &step);
}

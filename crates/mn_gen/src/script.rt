ghost use Rattle.std.specs.Prelude.{◌≡◌, ◌<◌, ◌≤◌, IfOk};
ghost use Rattle.mn_gen.specs.Generated.{stop_of, points_of, generated};

use crate::clients::all_clients;
use mn_base::{ClientNo, NoMemory, NodeNo, StopAt};
use mn_script::{Acts, Point, Points, Script};
use std::alloc::Global;

/// The stop of a node in an operation of client `c1`, `c2` or `c3`.
fn stop(nodes: u8, which: u8, number: u32, at: StopAt) -> Point
    requires { (1 ≤ nodes) × (which < 8) }
    ensures { result ≡ stop_of nodes which number at }
{
    Point::Stop {
        node: NodeNo(which % nodes),
        client: ClientNo(which + 1),
        number,
        at,
    }
}

/// Where nodes stop.
fn stops(alloc: Global, nodes: u8) -> Result<Points, NoMemory>
    requires { 1 ≤ nodes }
    ensures { IfOk result (λ points. points ≡ points_of nodes) }
{
    let mut points = Vec::with_capacity(alloc, 3)?;
    points.push(stop(nodes, 1, 30, StopAt::After))?;
    points.push(stop(nodes, 2, 60, StopAt::Half))?;
    points.push(stop(nodes, 3, 90, StopAt::Before))?;
    Ok(Points::from_vec(points))
}

/// The script of this number for 1 to 8 nodes: accounts are opened, eight clients move between
/// theirs, each transfer checking both balances, and three nodes stop. NoMemory: there was no
/// memory for the script.
pub fn gen_script(alloc: Global, nodes: u8, number: u64) -> Result<Script, NoMemory>
    requires { (1 ≤ nodes) × (nodes ≤ 8) }
    ensures { IfOk result (λ script. script ≡ generated nodes number) }
{
    let clients = all_clients(alloc, number)?;
    let points = stops(alloc, nodes)?;
    let schedule = Acts::from_vec(Vec::new(alloc));
    Ok(Script::of(nodes, 2, clients, points, schedule))
}

//! The stations of a run.
ghost use Rattle.std.specs.Prelude.{◌≡◌, ◌≤◌, [], length, IfOk, OnErr, OnOk, vec_capacity};
ghost use Rattle.mn_actors.specs.Sight.{board_of, id_of, view_of};
ghost use Rattle.mn_callers.specs.Begins.{AreBare, HoldsEmpty};
ghost use Rattle.mn_callers.specs.Ended.{HoldsNodes, OwnsNodes, SameCallers};
ghost use Rattle.mn_callers.specs.Plays.{NamesGiven};
ghost use Rattle.mn_callers.specs.Trace.{MayBegin};
ghost use Rattle.mn_callers.specs.Turn.{AreStations};

use crate::ending::give_back;
use mn_actors::{Actor, Board, Pass};
use mn_base::{NoMemory, NodeNo};
use mn_cell::{Named, Refused, Station};
use mn_io::Disk;
use mn_law::CoreLaw;
use mn_node::Node;
use std::alloc::Global;

/// The stations of the nodes, in order; `all` loses their actors. Where there is no memory the
/// nodes are given back.
pub fn stations_of<N: Named, D: Disk>(
    alloc: Global,
    board: &Board<CoreLaw>,
    all: &mut Pass<CoreLaw>,
    nodes: &mut Vec<Node<D>>,
) -> Result<Vec<Station<N, D>>, NoMemory>
    requires board { (id_of board.now ≡ N.board) × (board_of all.old ≡ N.board) }
    requires few { length N.records ≤ 8 }
    requires nodes { MayBegin (length N.records) nodes.old.items }
    requires named { NamesGiven D.state D.faults N.records N.faults N.honest nodes.old.items }
    requires empty { HoldsEmpty (length N.records) (view_of all.old) }
    ensures board { board_of all.new ≡ N.board }
    ensures callers { SameCallers (view_of all.old) (view_of all.new) }
    ensures room { OnOk result (vec_capacity nodes.new ≡ vec_capacity nodes.old) }
    ensures stations { IfOk result (λ stations. AreStations (length N.records) stations.items) }
    ensures bare { IfOk result (λ stations. AreBare stations.items) }
    ensures taken { OnOk result (nodes.new.items ≡ []) }
    ensures no_nodes { OnOk result (HoldsNodes (view_of all.new) []) }
    ensures back { OnErr result (nodes.new.items ≡ nodes.old.items) }
    ensures owns { OnErr result (OwnsNodes (length N.records) (view_of all.new)) }
{
    let mut stations = Vec::with_capacity(alloc, nodes.len())?;
    while let Some(node) = nodes.pop() {
        let number = NodeNo(nodes.len() as u8);
        let pass = board.split(all, Actor::Node { node: number });
        match Station::new(alloc, node, number, pass) {
            Ok(station) => stations.push_reserved(station),
            Err(Refused { node, pass }) => {
                board.join(all, pass);
                nodes.push_reserved(node);
                give_back(board, all, nodes, stations);
                return Err(NoMemory);
            }
        }
    }
    stations.reverse();
    Ok(stations)
}

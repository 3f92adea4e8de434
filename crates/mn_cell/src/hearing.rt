//! A look at the clock for a whole run.
ghost use Rattle.std.specs.Prelude.{◌≡◌, ◌≤◌, ◌<◌, None, vec_len, vec_capacity};
ghost use Rattle.mn_base.specs.declared.ids.NodeNo.{NodeNo as Number};
ghost use Rattle.mn_actors.specs.declared.actor.Actor.TheVariants.{Node};
ghost use Rattle.mn_actors.specs.Lists.{held, IsSameLists};
ghost use Rattle.mn_actors.specs.Sight.{board_of, id_of, view_of};
ghost use Rattle.mn_cell.specs.Filled.{AreNumbered};
ghost use Rattle.mn_cell.specs.Hearing.{HasOneLog, StationsStay};

use crate::named::Named;
use crate::station::Station;
use mn_actors::{Actor, Board, Pass};
use mn_io::Disk;
use mn_law::CoreLaw;

/// Looks at the clock for the actors that the pass and the stations own together: their lists are
/// those of one log. The pass then knows how many entries that has. The stations stay, but for the
/// place that each knows.
pub fn hear_all<N: Named, D: Disk>(
    board: &Board<CoreLaw>,
    rest: &mut Pass<CoreLaw>,
    stations: &mut Vec<Station<N, D>>,
)
    requires board { (id_of board.now ≡ N.board) × (board_of rest.old ≡ N.board) }
    requires numbers { AreNumbered stations.old.items }
    requires apart { (n : Number) → n.0 < vec_len stations.old
        → held (view_of rest.old) (Node n) ≡ None }
    ensures board { board_of rest.new ≡ N.board }
    ensures lists { IsSameLists (view_of rest.old) (view_of rest.new) }
    ensures known { (view_of rest.old).known ≤ (view_of rest.new).known }
    ensures stations { StationsStay stations.old.items stations.new.items }
    ensures room { vec_capacity stations.new ≡ vec_capacity stations.old }
    ensures one_log { HasOneLog (view_of rest.new) stations.new.items }
{
    let Some(station) = stations.pop() else {
        let _reached = board.hear(rest, 0);
        return;
    };
    let Station {
        number,
        node,
        owing,
        pass,
        named,
    } = station;
    let Some(pass) = pass else { unreachable!() };
    board.join(rest, pass);
    hear_all(board, rest, stations);
    let pass = board.split(rest, Actor::Node { node: number });
    stations.push_reserved(Station {
        number,
        node,
        owing,
        pass: Some(pass),
        named,
    });
}

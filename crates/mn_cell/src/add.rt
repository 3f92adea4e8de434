//! One entry of a node and a client.
ghost use Rattle.std.specs.Prelude.{◌≡◌, ◌≤◌, Some};
ghost use Rattle.mn_actors.specs.declared.actor.Actor.TheVariants.{Node, Client};
ghost use Rattle.mn_actors.specs.Lines.{line};
ghost use Rattle.mn_actors.specs.Lists.{HasRoom, held, or_empty};
ghost use Rattle.mn_actors.specs.Sight.{board_of, id_of, view_of};
ghost use Rattle.mn_cell.specs.Passes.{AreOfOneLog, ListHasGrown, IsSameView, OwnsJust};

use mn_actors::{Actor, Board, Law, Pass};
use mn_base::{ClientNo, NodeNo};

/// Adds an entry of a node and a client, and answers its place. The node's pass `own` is joined
/// into the client's for it, and split off again.
pub fn add<L: Law>(
    board: &Board<L>,
    own: Pass<L>,
    pass: &mut Pass<L>,
    entry: &L::Entry,
    node: NodeNo,
    client: ClientNo,
) -> (Pass<L>, u64)
    requires board { (board_of own ≡ id_of board.now) × (board_of pass.old ≡ id_of board.now) }
    requires owns { OwnsJust (view_of own) (Node node)
        × OwnsJust (view_of pass.old) (Client client) }
    requires room { HasRoom (view_of own) (Node node) × HasRoom (view_of pass.old) (Client client) }
    requires legal { L.legal (or_empty (held (view_of own) (Node node)))
        (or_empty (held (view_of pass.old) (Client client)))
        (line (Some node) (Some client) entry.now) }
    ensures board { (board_of result.0 ≡ board_of own) × (board_of pass.new ≡ board_of own) }
    ensures place { (view_of pass.old).known ≤ result.1 }
    ensures node { ListHasGrown (view_of own) (Node node) (result.1, entry.now) (view_of result.0) }
    ensures client { ListHasGrown (view_of pass.old) (Client client) (result.1, entry.now)
        (view_of pass.new) }
{
    board.join(pass, own);
    let place = board.append_ref(pass, entry, Some(node), Some(client));
    let own = board.split(pass, Actor::Node { node });
    (own, place)
}

/// Tells that the lists of a node and a client are of one log. Both passes are as before.
pub fn compare<L: Law>(
    board: &Board<L>,
    own: Pass<L>,
    pass: &mut Pass<L>,
    node: NodeNo,
    client: ClientNo,
) -> Pass<L>
    requires board { (board_of own ≡ id_of board.now) × (board_of pass.old ≡ id_of board.now) }
    requires owns { OwnsJust (view_of own) (Node node)
        × OwnsJust (view_of pass.old) (Client client) }
    ensures board { (board_of result ≡ board_of own) × (board_of pass.new ≡ board_of own) }
    ensures node { (held (view_of result) (Node node) ≡ held (view_of own) (Node node))
        × OwnsJust (view_of result) (Node node) }
    ensures node_same { IsSameView (view_of own) (view_of result) }
    ensures client { IsSameView (view_of pass.old) (view_of pass.new)
        × OwnsJust (view_of pass.new) (Client client) }
    ensures one_log { AreOfOneLog L.legal node client (or_empty (held (view_of own) (Node node)))
        (or_empty (held (view_of pass.old) (Client client))) }
{
    let _ = client;
    let known = board.note(pass);
    let own_known = board.note(&own);
    board.join(pass, own);
    let greater = board.note(pass);
    board.look(pass, greater);
    let mut own = board.split(pass, Actor::Node { node });
    board.look(pass, known);
    board.look(&mut own, own_known);
    own
}

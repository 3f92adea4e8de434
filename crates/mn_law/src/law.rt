use mn_actors::Law;
use mn_runs::Entry;

/// The law of the store: which entries its clients and nodes may make. What a node answers, and
/// which run it is, is judged by the nodes' records; all else by the client's own list.
pub struct CoreLaw;

impl Law for CoreLaw {
    ghost use Rattle.std.specs.Prelude.{◌≡◌};
    ghost use Rattle.mn_runs.specs.Protocol.{entries_of};
    ghost use Rattle.mn_law.specs.Run.{IsLegalBy};

    type Entry = Entry;

    ghost legal = { λ node client line. (line.entry.node ≡ line.node)
        × (line.entry.client ≡ line.client) × IsLegalBy (entries_of client) line.entry };
}

//! What a board does for its passes.
ghost use Rattle.std.specs.Prelude.{◌≡◌, ◌≤◌, ◌↔◌, [], Some, None, IfOk, IsTrue};
ghost use Rattle.mn_actors.specs.Lines.{line, IsActor};
ghost use Rattle.mn_actors.specs.Lists.{held, MayAppend, IsAppended, IsJoined, IsSplit};
ghost use Rattle.mn_actors.specs.Lists.{IsSameLists, Owns, OwnsAll};
ghost use Rattle.mn_actors.specs.Log.{IsOneLog};
ghost use Rattle.mn_actors.specs.Look.{IsOfLog, KnowsAll, knowing};
ghost use Rattle.mn_actors.specs.Rule.{appended};
ghost use Rattle.mn_actors.specs.Sight.{id_of, nodes_of, clients_of, board_of, view_of};

use super::{Board, Pass};
use crate::actor::Actor;
use crate::clock::{Add, Both, Hear, Look, Named, Part, Placed, Said, Size};
use crate::law::Law;
use atomic_table::Table;
use mn_base::{ClientNo, NoMemory, NodeNo};
use std::alloc::Global;
use std::marker::Brand;

impl<L: Law> Board<L> {
    /// A board of 1 to 8 nodes and 1 to 21 clients, both numbered from 0, and the pass that owns
    /// them all. Their lists are empty. The error is that there is no memory for the clock.
    pub fn new(alloc: Global, nodes: u8, clients: u8) -> Result<(Board<L>, Pass<L>), NoMemory>
        requires nodes { (1 ≤ nodes) × (nodes ≤ 8) }
        requires clients { (1 ≤ clients) × (clients ≤ 21) }
        ensures size { IfOk result (λ made. (nodes_of made.0 ≡ nodes) × (clients_of made.0 ≡ clients)) }
        ensures pass { IfOk result (λ made. (board_of made.1 ≡ id_of made.0) × ((view_of made.1).known ≡ 0)) }
        ensures owns { IfOk result (λ made. (a : Actor) → IsActor nodes clients a →
            held (view_of made.1) a ≡ Some []) }
        ensures others { IfOk result (λ made. (a : Actor) → ¬ IsActor nodes clients a →
            held (view_of made.1) a ≡ None) }
    {
        let (table, seat) = Table::of_words(alloc, &[0], &Size { nodes, clients })?;
        Ok((Board { table }, Pass { known: 0, seat }))
    }

    // `append_ref` for an entry that the proof names by `W`.
    fn append_said<W: Said<L::Entry>>(
        &self,
        pass: &mut Pass<L>,
        entry: &L::Entry,
        node: Option<NodeNo>,
        client: Option<ClientNo>,
    ) -> u64
        requires said { W.line ≡ Some (line node client entry.now) }
        requires board { board_of pass.old ≡ id_of self.now }
        requires may { MayAppend L.legal (view_of pass.old) (line node client entry.now) }
        ensures board { board_of pass.new ≡ board_of pass.old }
        ensures place { (view_of pass.old).known ≤ result }
        ensures view { view_of pass.new ≡ appended (view_of pass.old) result (line node client entry.now) }
    {
        let place = self.table.shared.fetch_add::<Add<W>>(&mut pass.seat, 0, 1);
        pass.known = place + 1;
        place
    }

    /// Adds an entry that the caller keeps, as `append` does.
    pub fn append_ref(
        &self,
        pass: &mut Pass<L>,
        entry: &L::Entry,
        node: Option<NodeNo>,
        client: Option<ClientNo>,
    ) -> u64
        requires board { board_of pass.old ≡ id_of self.now }
        requires may { MayAppend L.legal (view_of pass.old) (line node client entry.now) }
        ensures board { board_of pass.new ≡ board_of pass.old }
        ensures place { (view_of pass.old).known ≤ result }
        ensures view { IsAppended (view_of pass.old) result (line node client entry.now) (view_of pass.new) }
    {
        self.append_said::<Brand>(pass, entry, node, client)
    }

    /// Adds an entry of a node, a client or both, and answers its place, which is the number of
    /// entries before it. The entry ends the lists of its actors. It is one atomic step, under no
    /// lock.
    pub fn append(
        &self,
        pass: &mut Pass<L>,
        entry: L::Entry,
        node: Option<NodeNo>,
        client: Option<ClientNo>,
    ) -> u64
        requires board { board_of pass.old ≡ id_of self.now }
        requires may { MayAppend L.legal (view_of pass.old) (line node client entry) }
        ensures board { board_of pass.new ≡ board_of pass.old }
        ensures place { (view_of pass.old).known ≤ result }
        ensures view { IsAppended (view_of pass.old) result (line node client entry) (view_of pass.new) }
    {
        let place = self.append_ref(pass, &entry, node, client);
        drop(entry);
        place
    }

    /// Gives all that `from` owns to `into`, which then knows the greater place.
    pub fn join(&self, into: &mut Pass<L>, from: Pass<L>)
        requires board { (board_of into.old ≡ id_of self.now) × (board_of from ≡ id_of self.now) }
        ensures board { board_of into.new ≡ board_of into.old }
        ensures view { IsJoined (view_of into.old) (view_of from) (view_of into.new) }
    {
        let Pass { known, seat } = from;
        self.table.shared.join_seat::<Both>(&mut into.seat, seat);
        into.known = into.known.max(known);
    }

    // `split` for an actor that the proof names by `W`.
    fn split_named<W: Named>(&self, from: &mut Pass<L>, actor: Actor) -> Pass<L>
        requires named { W.actor ≡ actor }
        requires board { board_of from.old ≡ id_of self.now }
        requires owns { Owns (view_of from.old) actor }
        ensures board { (board_of from.new ≡ board_of from.old) × (board_of result ≡ board_of from.old) }
        ensures view { IsSplit (view_of from.old) actor (view_of from.new) (view_of result) }
    {
        let _ = actor;
        let seat = self.table.shared.split_seat::<Part<W>>(&mut from.seat);
        Pass {
            known: from.known,
            seat,
        }
    }

    /// Takes one actor out of `from`, and gives it a pass of its own. Both keep the known place.
    pub fn split(&self, from: &mut Pass<L>, actor: Actor) -> Pass<L>
        requires board { board_of from.old ≡ id_of self.now }
        requires owns { Owns (view_of from.old) actor }
        ensures board { (board_of from.new ≡ board_of from.old) × (board_of result ≡ board_of from.old) }
        ensures view { IsSplit (view_of from.old) actor (view_of from.new) (view_of result) }
    {
        self.split_named::<Brand>(from, actor)
    }

    /// The place that the pass knows. The clock has reached it, so that each later entry of the
    /// pass stands there or above.
    pub fn note(&self, pass: &Pass<L>) -> u64
        requires { board_of pass.now ≡ id_of self.now }
        ensures { result ≡ (view_of pass.now).known }
    {
        pass.known
    }

    // Loads the clock, which the pass then knows.
    fn clock(&self, pass: &mut Pass<L>) -> u64
        requires board { board_of pass.old ≡ id_of self.now }
        ensures board { board_of pass.new ≡ board_of pass.old }
        ensures known { (view_of pass.old).known ≤ result }
        ensures view { view_of pass.new ≡ knowing result (view_of pass.old) }
        ensures clock { KnowsAll L.legal (view_of pass.new) }
    {
        let clock = self.table.shared.load::<Hear<L>>(&mut pass.seat, 0);
        pass.known = clock;
        clock
    }

    /// Looks at the clock, whose value the pass then knows, and says whether it has reached the
    /// place. The clock's value is the number of lines of the log.
    pub fn hear(&self, pass: &mut Pass<L>, place: u64) -> bool
        requires board { board_of pass.old ≡ id_of self.now }
        ensures board { board_of pass.new ≡ board_of pass.old }
        ensures known { (view_of pass.old).known ≤ (view_of pass.new).known }
        ensures clock { KnowsAll L.legal (view_of pass.new) }
        ensures reached { IsTrue result ↔ (place ≤ (view_of pass.new).known) }
        ensures lists { IsSameLists (view_of pass.old) (view_of pass.new) }
    {
        let clock = self.clock(pass);
        place <= clock
    }

    // `look` for a place that the proof names by `W`.
    fn look_placed<W: Placed>(&self, pass: &mut Pass<L>, known: u64)
        requires placed { W.place ≡ known }
        requires board { board_of pass.old ≡ id_of self.now }
        requires no_later { known ≤ (view_of pass.old).known }
        ensures board { board_of pass.new ≡ board_of pass.old }
        ensures view { view_of pass.new ≡ knowing known (view_of pass.old) }
        ensures one_log { IsOfLog L.legal (view_of pass.old) }
    {
        let _clock = self.table.shared.load::<Look<L, W>>(&mut pass.seat, 0);
        pass.known = known;
    }

    /// Looks at the clock, which tells that the pass's lists are those of one log. The place that
    /// the pass knows is then `known`, which it had reached before.
    pub fn look(&self, pass: &mut Pass<L>, known: u64)
        requires board { board_of pass.old ≡ id_of self.now }
        requires no_later { known ≤ (view_of pass.old).known }
        ensures board { board_of pass.new ≡ board_of pass.old }
        ensures known { (view_of pass.new).known ≡ known }
        ensures lists { IsSameLists (view_of pass.old) (view_of pass.new) }
        ensures one_log { IsOfLog L.legal (view_of pass.old) }
    {
        self.look_placed::<Brand>(pass, known);
    }

    /// Ends the log, and answers the clock, which is the number of entries. The pass owns all
    /// actors: their lists are one log, in which each place below the clock is one entry.
    pub fn close(self, pass: Pass<L>) -> u64
        requires board { board_of pass ≡ id_of self }
        requires all { OwnsAll (nodes_of self) (clients_of self) (view_of pass) }
        ensures { IsOneLog L.legal (nodes_of self) (clients_of self) (held (view_of pass)) result }
    {
        let Board { table } = self;
        let Pass { known: _, seat } = pass;
        let closed = table.close_with(seat);
        let clock = closed.word(0);
        closed.free();
        clock
    }
}

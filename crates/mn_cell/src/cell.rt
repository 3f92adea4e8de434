//! A station behind a lock.
ghost use Rattle.std.specs.Prelude.{◌≡◌, ◌≢◌, ◌≤◌, ◌<◌, ◌+◌, [], Some, None, true, false, IfOk};
ghost use Rattle.std.specs.Prelude.{IfErr, IfSome, IfNone, OnErr};
ghost use Rattle.mn_mini.specs.Sound.{Fits, IsSoundRequest};
ghost use Rattle.mn_mini.specs.declared.reply.NodeReply.{NodeReply as Reply};
ghost use Rattle.mn_actors.specs.declared.actor.Actor.TheVariants.{Client};
ghost use Rattle.mn_actors.specs.Lines.{node_at};
ghost use Rattle.mn_actors.specs.Lists.{held};
ghost use Rattle.mn_actors.specs.Sight.{board_of, id_of, view_of};
ghost use Rattle.mn_runs.specs.declared.entry.What.TheVariants.{Stopped, Restarted};
ghost use Rattle.mn_runs.specs.Protocol.{entries_of, start_of};
ghost use Rattle.mn_cell.specs.Calls.{EndsList, IsUndamaged, ObeysStop, MaySend, entry_at};
ghost use Rattle.mn_cell.specs.Calls.{numbered, what_said};
ghost use Rattle.mn_cell.specs.Passes.{IsSameView, OwnsJust};
ghost use Rattle.mn_cell.specs.Promises.{IsOwedAt, decided_by};
ghost use Rattle.mn_cell.specs.Station.{HasMadeEntries, IsNodeAtStart, list_in};

use crate::named::Named;
use crate::station::{Refused, Station};
use mn_actors::{Board, Pass};
use mn_base::{NoMemory, NodeNo, StopAt};
use mn_io::Disk;
use mn_law::CoreLaw;
use mn_mini::{NodeReply, Request};
use mn_node::{Node, RestartError};
use mn_runs::ClientList;
use std::alloc::Global;
use std::marker::Model;
use std::sync::{Mutex, Wait};

// The station of the node of this number.
#[derive(Drop)]
struct Numbered<N: Named, D: Disk, const NODE: u8> {
    station: Station<N, D>,
}

impl<N: Named, D: Disk, const NODE: u8> Model for Numbered<N, D, NODE> {
    ghost use Rattle.std.specs.Prelude.{◌≡◌};
    ghost use Rattle.mn_cell.specs.Station.{StationState};

    ghost Value = { StationState D };

    ghost view = { λ s. s.station };

    ghost invariant = { λ s. s.station.number ≡ record { 0 = NODE } };
}

/// The station of node `NODE` behind a lock: one call of it is under way at a time.
#[derive(Drop)]
pub struct Cell<N: Named, D: Disk, const NODE: u8> {
    lock: Mutex<Numbered<N, D, NODE>>,
}

impl<N: Named, D: Disk, const NODE: u8> Cell<N, D, NODE> {
    /// The cell of a node with which the run starts. `Refused` comes for want of memory alone.
    pub fn new(
        alloc: Global,
        node: Node<D>,
        pass: Pass<CoreLaw>,
    ) -> Result<Cell<N, D, NODE>, Refused<D>>
        requires node { IsNodeAtStart D.state D.faults (start_of N.records) (numbered NODE)
            (N.faults NODE) (N.honest NODE) node }
        requires board { board_of pass ≡ N.board }
        requires owns { OwnsJust (view_of pass) (node_at NODE) }
        requires list { held (view_of pass) (node_at NODE) ≡ Some [] }
        ensures refused { IfErr result (λ refused. (refused.node ≡ node) × (refused.pass ≡ pass)) }
    {
        match Station::new(alloc, node, NodeNo(NODE), pass) {
            Ok(station) => Ok(Cell::of(station)),
            Err(refused) => Err(refused),
        }
    }

    /// The cell of a station of this number.
    pub fn of(station: Station<N, D>) -> Cell<N, D, NODE>
        requires { station.number ≡ numbered NODE }
    {
        Cell {
            lock: Mutex::new(Numbered { station }),
        }
    }

    /// The station. What is known of it is what its type says, since its last caller may have been
    /// another.
    pub fn into_station(self) -> Station<N, D>
        ensures { result.number ≡ numbered NODE }
    {
        let Cell { lock } = self;
        let Numbered { station } = lock.into_inner();
        station
    }

    /// Calls the node for the client, and adds the reply to both lists.
    ///
    /// NoMemory: there was none for the call; the pass and the client's list are as before. It
    /// never comes for the decision of an id whose vote the client's list shows here without the
    /// decision, where the list has room. Any other reply is the last entry of the client's list,
    /// at this node and at a place that is not below the one that the client's pass knew, and the
    /// pass knows the place after it. Where `stop` is given, a request that adds a record isn't
    /// done.
    pub fn call<T: Wait>(
        &self,
        rt: &T,
        alloc: Global,
        board: &Board<CoreLaw>,
        pass: &mut Pass<CoreLaw>,
        list: &mut ClientList,
        request: Request,
        stop: Option<StopAt>,
    ) -> NodeReply
        requires board { (id_of board.now ≡ N.board) × (board_of pass.old ≡ N.board) }
        requires owns { OwnsJust (view_of pass.old) (Client list.old.client) }
        requires list { held (view_of pass.old) (Client list.old.client) ≡ Some list.old.entries }
        requires sound { IsSoundRequest request }
        requires legal { MaySend (numbered NODE) list.old.client list.old.entries request stop }
        ensures fits { Fits request result }
        ensures client { list.new.client ≡ list.old.client }
        ensures board { board_of pass.new ≡ N.board }
        ensures owns { OwnsJust (view_of pass.new) (Client list.old.client) }
        ensures list { held (view_of pass.new) (Client list.old.client) ≡ Some list.new.entries }
        ensures said { result ≢ Reply.NoMemory
            → EndsList (view_of pass.old).known (view_of pass.new).known
            (entry_at (numbered NODE) list.old.client (what_said request stop result))
            list.old.entries list.new.entries }
        ensures pass_before { result ≡ Reply.NoMemory
            → IsSameView (view_of pass.old) (view_of pass.new) }
        ensures list_before { result ≡ Reply.NoMemory → list.new.entries ≡ list.old.entries }
        ensures room { list.old.room ≤ list.new.room + 1 }
        ensures owed { IsOwedAt (numbered NODE) (decided_by request) (entries_of list.old.entries)
            → 0 < list.old.room → result ≢ Reply.NoMemory }
        ensures stop { ObeysStop stop request result }
    {
        let mut guard = self.lock.lock(rt);
        guard.station.call(alloc, board, pass, list, request, stop)
    }

    /// Stops the node between two calls, and adds that to both lists. The answer is false exactly
    /// where it is down already; then no entry is made. NoMemory: there was none, and nothing has
    /// changed.
    pub fn halt<T: Wait>(
        &self,
        rt: &T,
        board: &Board<CoreLaw>,
        pass: &mut Pass<CoreLaw>,
        list: &mut ClientList,
    ) -> Result<bool, NoMemory>
        requires board { (id_of board.now ≡ N.board) × (board_of pass.old ≡ N.board) }
        requires owns { OwnsJust (view_of pass.old) (Client list.old.client) }
        requires list { held (view_of pass.old) (Client list.old.client) ≡ Some list.old.entries }
        ensures client { list.new.client ≡ list.old.client }
        ensures board { board_of pass.new ≡ N.board }
        ensures owns { OwnsJust (view_of pass.new) (Client list.old.client) }
        ensures list { held (view_of pass.new) (Client list.old.client) ≡ Some list.new.entries }
        ensures halted { IfOk result
            (λ halted. halted ≡ true → EndsList (view_of pass.old).known (view_of pass.new).known
            (entry_at (numbered NODE) list.old.client (Stopped None None)) list.old.entries
            list.new.entries) }
        ensures no_entry { IfOk result
            (λ halted. halted ≡ false → (pass.new ≡ pass.old) × (list.new ≡ list.old)) }
        ensures failed { OnErr result
            ((pass.new ≡ pass.old) × (list.new.entries ≡ list.old.entries)) }
        ensures room { list.old.room ≤ list.new.room + 1 }
    {
        let mut guard = self.lock.lock(rt);
        guard.station.halt(board, pass, list)
    }

    /// Starts the node again, and adds that to both lists, with whether the record of the request
    /// inside which it had stopped is there. The answer is None exactly where the node is up; then
    /// no entry is made. The causes are those of the node's own restart, or want of memory for the
    /// entry; after an error no entry is made, and the node is still down.
    pub fn restart<T: Wait>(
        &self,
        rt: &T,
        alloc: Global,
        board: &Board<CoreLaw>,
        pass: &mut Pass<CoreLaw>,
        list: &mut ClientList,
    ) -> Result<Option<bool>, RestartError>
        requires board { (id_of board.now ≡ N.board) × (board_of pass.old ≡ N.board) }
        requires owns { OwnsJust (view_of pass.old) (Client list.old.client) }
        requires list { held (view_of pass.old) (Client list.old.client) ≡ Some list.old.entries }
        ensures client { list.new.client ≡ list.old.client }
        ensures board { board_of pass.new ≡ N.board }
        ensures owns { OwnsJust (view_of pass.new) (Client list.old.client) }
        ensures list { held (view_of pass.new) (Client list.old.client) ≡ Some list.new.entries }
        ensures restarted { IfOk result
            (λ kept. IfSome kept (λ there.
            EndsList (view_of pass.old).known (view_of pass.new).known
            (entry_at (numbered NODE) list.old.client (Restarted there)) list.old.entries
            list.new.entries)) }
        ensures no_entry { IfOk result
            (λ kept. IfNone kept ((pass.new ≡ pass.old) × (list.new ≡ list.old))) }
        ensures failed { OnErr result
            ((pass.new ≡ pass.old) × (list.new.entries ≡ list.old.entries)) }
        ensures undamaged { N.honest NODE → IfErr result IsUndamaged }
        ensures room { list.old.room ≤ list.new.room + 1 }
    {
        let mut guard = self.lock.lock(rt);
        guard.station.restart(alloc, board, pass, list)
    }

    /// The node and its pass, which has its list.
    pub fn into_parts(self) -> (Node<D>, Pass<CoreLaw>)
        ensures made { HasMadeEntries D.state D.faults (start_of N.records) (numbered NODE)
            (N.faults NODE)
            (N.honest NODE) (entries_of (list_in (numbered NODE) result.1)) result.0 }
        ensures board { board_of result.1 ≡ N.board }
        ensures owns { OwnsJust (view_of result.1) (node_at NODE) }
        ensures pass { held (view_of result.1) (node_at NODE)
            ≡ Some (list_in (numbered NODE) result.1) }
    {
        self.into_station().into_parts()
    }
}

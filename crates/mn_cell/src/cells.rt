//! The cells of a run's nodes.
ghost use Rattle.std.specs.Prelude.{◌≡◌, ◌≢◌, ◌≤◌, ◌<◌, ◌+◌, ◌-◌, ◌∷◌, [], Some, None, true, false};
ghost use Rattle.std.specs.Prelude.{ℕ, nat_lt, vec_len, vec_capacity, is_some, slice_get, IfOk};
ghost use Rattle.std.specs.Prelude.{IfErr, IfSome, IfNone, OnErr, OnOk};
ghost use Rattle.mn_mini.specs.Sound.{Fits, IsSoundRequest};
ghost use Rattle.mn_mini.specs.declared.reply.NodeReply.{NodeReply as Reply};
ghost use Rattle.mn_actors.specs.declared.actor.Actor.TheVariants.{Client};
ghost use Rattle.mn_actors.specs.Lists.{held};
ghost use Rattle.mn_actors.specs.Sight.{board_of, id_of, view_of};
ghost use Rattle.mn_runs.specs.declared.entry.What.TheVariants.{Stopped, Restarted};
ghost use Rattle.mn_runs.specs.Protocol.{entries_of};
ghost use Rattle.mn_cell.specs.Calls.{EndsList, IsUndamaged, ObeysStop, MaySend, entry_at};
ghost use Rattle.mn_cell.specs.Calls.{what_said};
ghost use Rattle.mn_cell.specs.Filled.{AreNumbered, AreNumberedBelow, count_if, filled_in};
ghost use Rattle.mn_cell.specs.Filled.{filled_to};
ghost use Rattle.mn_cell.specs.Passes.{IsSameView, OwnsJust};
ghost use Rattle.mn_cell.specs.Promises.{IsOwedAt, decided_by};

use crate::cell::Cell;
use crate::named::Named;
use crate::station::Station;
use mn_actors::{Board, Pass};
use mn_base::{NoMemory, NodeNo, StopAt};
use mn_io::Disk;
use mn_law::CoreLaw;
use mn_mini::{NodeReply, Request};
use mn_node::RestartError;
use mn_runs::ClientList;
use std::alloc::Global;
use std::sync::Wait;

/// The cells of a run. As many of them, from `c0` on, are filled as there are nodes.
#[derive(Drop)]
pub struct Cells<N: Named, D: Disk> {
    pub c0: Option<Cell<N, D, 0>>,
    pub c1: Option<Cell<N, D, 1>>,
    pub c2: Option<Cell<N, D, 2>>,
    pub c3: Option<Cell<N, D, 3>>,
    pub c4: Option<Cell<N, D, 4>>,
    pub c5: Option<Cell<N, D, 5>>,
    pub c6: Option<Cell<N, D, 6>>,
    pub c7: Option<Cell<N, D, 7>>,
}

/// The cell of the last of these stations, which is that of this number, if one is left.
fn take_last<N: Named, D: Disk, const NODE: u8>(
    left: &mut Vec<Station<N, D>>,
) -> Option<Cell<N, D, NODE>>
    requires { AreNumberedBelow (NODE + vec_len left.old) left.old.items }
    ensures is { is_some result ≡ nat_lt 0 (vec_len left.old) }
    ensures left { AreNumberedBelow (NODE + 1 + vec_len left.new) left.new.items }
    ensures len { vec_len left.new ≡ vec_len left.old - 1 }
    ensures room { vec_capacity left.new ≡ vec_capacity left.old }
{
    match left.pop() {
        Some(station) => Some(Cell::of(station)),
        None => None,
    }
}

/// Puts the station of the cell, if it is filled, behind the others, of which there are as many as
/// its number says.
fn put_back<N: Named, D: Disk, const NODE: u8>(
    cell: Option<Cell<N, D, NODE>>,
    stations: &mut Vec<Station<N, D>>,
)
    requires room { vec_len stations.old + count_if (is_some cell) ≤ vec_capacity stations.old }
    requires numbers { AreNumbered stations.old.items }
    requires next { is_some cell ≡ true → vec_len stations.old ≡ NODE }
    ensures numbers { AreNumbered stations.new.items }
    ensures len { vec_len stations.new ≡ vec_len stations.old + count_if (is_some cell) }
    ensures room { vec_capacity stations.new ≡ vec_capacity stations.old }
{
    if let Some(cell) = cell {
        stations.push_reserved(cell.into_station());
    }
}

impl<N: Named, D: Disk> Cells<N, D> {
    /// The cells of stations, numbered from 0 in order, of which none is left; their room is.
    pub fn of(stations: &mut Vec<Station<N, D>>) -> Cells<N, D>
        requires few { vec_len stations.old ≤ 8 }
        requires numbers { AreNumbered stations.old.items }
        ensures filled { filled_in result ≡ filled_to (vec_len stations.old) }
        ensures none { stations.new.items ≡ [] }
        ensures room { vec_capacity stations.new ≡ vec_capacity stations.old }
    {
        stations.reverse();
        Cells {
            c0: take_last(stations),
            c1: take_last(stations),
            c2: take_last(stations),
            c3: take_last(stations),
            c4: take_last(stations),
            c5: take_last(stations),
            c6: take_last(stations),
            c7: take_last(stations),
        }
    }

    /// Puts the stations of the cells back, in order, where there is room for them.
    pub fn into_stations(self, stations: &mut Vec<Station<N, D>>)
        requires none { stations.old.items ≡ [] }
        requires filled { (count : ℕ) × (count ≤ vec_capacity stations.old)
            × (filled_in self ≡ filled_to count) }
        ensures count { filled_in self ≡ filled_to (vec_len stations.new) }
        ensures few { vec_len stations.new ≤ 8 }
        ensures numbers { AreNumbered stations.new.items }
        ensures room { vec_capacity stations.new ≡ vec_capacity stations.old }
    {
        let Cells {
            c0,
            c1,
            c2,
            c3,
            c4,
            c5,
            c6,
            c7,
        } = self;
        put_back(c0, stations);
        put_back(c1, stations);
        put_back(c2, stations);
        put_back(c3, stations);
        put_back(c4, stations);
        put_back(c5, stations);
        put_back(c6, stations);
        put_back(c7, stations);
    }

    /// Calls a node, whose cell is filled, as `Cell::call` does.
    pub fn call<T: Wait>(
        &self,
        rt: &T,
        alloc: Global,
        node: NodeNo,
        board: &Board<CoreLaw>,
        pass: &mut Pass<CoreLaw>,
        list: &mut ClientList,
        request: Request,
        stop: Option<StopAt>,
    ) -> NodeReply
        requires filled { slice_get (filled_in self.now) node.0 ≡ Some true }
        requires board { (id_of board.now ≡ N.board) × (board_of pass.old ≡ N.board) }
        requires owns { OwnsJust (view_of pass.old) (Client list.old.client) }
        requires list { held (view_of pass.old) (Client list.old.client) ≡ Some list.old.entries }
        requires sound { IsSoundRequest request }
        requires legal { MaySend node list.old.client list.old.entries request stop }
        ensures fits { Fits request result }
        ensures client { list.new.client ≡ list.old.client }
        ensures board { board_of pass.new ≡ N.board }
        ensures owns { OwnsJust (view_of pass.new) (Client list.old.client) }
        ensures list { held (view_of pass.new) (Client list.old.client) ≡ Some list.new.entries }
        ensures said { result ≢ Reply.NoMemory
            → EndsList (view_of pass.old).known (view_of pass.new).known
            (entry_at node list.old.client (what_said request stop result)) list.old.entries
            list.new.entries }
        ensures pass_before { result ≡ Reply.NoMemory
            → IsSameView (view_of pass.old) (view_of pass.new) }
        ensures list_before { result ≡ Reply.NoMemory → list.new.entries ≡ list.old.entries }
        ensures room { list.old.room ≤ list.new.room + 1 }
        ensures owed { IsOwedAt node (decided_by request) (entries_of list.old.entries)
            → 0 < list.old.room → result ≢ Reply.NoMemory }
        ensures stop { ObeysStop stop request result }
    {
        match node.0 {
            0 => match &self.c0 {
                Some(cell) => cell.call(rt, alloc, board, pass, list, request, stop),
                None => unreachable!(),
            },
            1 => match &self.c1 {
                Some(cell) => cell.call(rt, alloc, board, pass, list, request, stop),
                None => unreachable!(),
            },
            2 => match &self.c2 {
                Some(cell) => cell.call(rt, alloc, board, pass, list, request, stop),
                None => unreachable!(),
            },
            3 => match &self.c3 {
                Some(cell) => cell.call(rt, alloc, board, pass, list, request, stop),
                None => unreachable!(),
            },
            4 => match &self.c4 {
                Some(cell) => cell.call(rt, alloc, board, pass, list, request, stop),
                None => unreachable!(),
            },
            5 => match &self.c5 {
                Some(cell) => cell.call(rt, alloc, board, pass, list, request, stop),
                None => unreachable!(),
            },
            6 => match &self.c6 {
                Some(cell) => cell.call(rt, alloc, board, pass, list, request, stop),
                None => unreachable!(),
            },
            7 => match &self.c7 {
                Some(cell) => cell.call(rt, alloc, board, pass, list, request, stop),
                None => unreachable!(),
            },
            _ => unreachable!(),
        }
    }

    /// Stops a node, whose cell is filled, as `Cell::halt` does.
    pub fn halt<T: Wait>(
        &self,
        rt: &T,
        node: NodeNo,
        board: &Board<CoreLaw>,
        pass: &mut Pass<CoreLaw>,
        list: &mut ClientList,
    ) -> Result<bool, NoMemory>
        requires filled { slice_get (filled_in self.now) node.0 ≡ Some true }
        requires board { (id_of board.now ≡ N.board) × (board_of pass.old ≡ N.board) }
        requires owns { OwnsJust (view_of pass.old) (Client list.old.client) }
        requires list { held (view_of pass.old) (Client list.old.client) ≡ Some list.old.entries }
        ensures client { list.new.client ≡ list.old.client }
        ensures board { board_of pass.new ≡ N.board }
        ensures owns { OwnsJust (view_of pass.new) (Client list.old.client) }
        ensures list { held (view_of pass.new) (Client list.old.client) ≡ Some list.new.entries }
        ensures halted { IfOk result
            (λ halted. halted ≡ true → EndsList (view_of pass.old).known (view_of pass.new).known
            (entry_at node list.old.client (Stopped None None)) list.old.entries list.new.entries) }
        ensures no_entry { IfOk result
            (λ halted. halted ≡ false → (pass.new ≡ pass.old) × (list.new ≡ list.old)) }
        ensures failed { OnErr result
            ((pass.new ≡ pass.old) × (list.new.entries ≡ list.old.entries)) }
        ensures room { list.old.room ≤ list.new.room + 1 }
    {
        match node.0 {
            0 => match &self.c0 {
                Some(cell) => cell.halt(rt, board, pass, list),
                None => unreachable!(),
            },
            1 => match &self.c1 {
                Some(cell) => cell.halt(rt, board, pass, list),
                None => unreachable!(),
            },
            2 => match &self.c2 {
                Some(cell) => cell.halt(rt, board, pass, list),
                None => unreachable!(),
            },
            3 => match &self.c3 {
                Some(cell) => cell.halt(rt, board, pass, list),
                None => unreachable!(),
            },
            4 => match &self.c4 {
                Some(cell) => cell.halt(rt, board, pass, list),
                None => unreachable!(),
            },
            5 => match &self.c5 {
                Some(cell) => cell.halt(rt, board, pass, list),
                None => unreachable!(),
            },
            6 => match &self.c6 {
                Some(cell) => cell.halt(rt, board, pass, list),
                None => unreachable!(),
            },
            7 => match &self.c7 {
                Some(cell) => cell.halt(rt, board, pass, list),
                None => unreachable!(),
            },
            _ => unreachable!(),
        }
    }

    /// Starts a node again, whose cell is filled, as `Cell::restart` does.
    pub fn restart<T: Wait>(
        &self,
        rt: &T,
        alloc: Global,
        node: NodeNo,
        board: &Board<CoreLaw>,
        pass: &mut Pass<CoreLaw>,
        list: &mut ClientList,
    ) -> Result<Option<bool>, RestartError>
        requires filled { slice_get (filled_in self.now) node.0 ≡ Some true }
        requires board { (id_of board.now ≡ N.board) × (board_of pass.old ≡ N.board) }
        requires owns { OwnsJust (view_of pass.old) (Client list.old.client) }
        requires list { held (view_of pass.old) (Client list.old.client) ≡ Some list.old.entries }
        ensures client { list.new.client ≡ list.old.client }
        ensures board { board_of pass.new ≡ N.board }
        ensures owns { OwnsJust (view_of pass.new) (Client list.old.client) }
        ensures list { held (view_of pass.new) (Client list.old.client) ≡ Some list.new.entries }
        ensures restarted { IfOk result
            (λ kept. IfSome kept (λ there.
            EndsList (view_of pass.old).known (view_of pass.new).known
            (entry_at node list.old.client (Restarted there)) list.old.entries list.new.entries)) }
        ensures no_entry { IfOk result
            (λ kept. IfNone kept ((pass.new ≡ pass.old) × (list.new ≡ list.old))) }
        ensures failed { OnErr result
            ((pass.new ≡ pass.old) × (list.new.entries ≡ list.old.entries)) }
        ensures undamaged { N.honest node.0 → IfErr result IsUndamaged }
        ensures room { list.old.room ≤ list.new.room + 1 }
    {
        match node.0 {
            0 => match &self.c0 {
                Some(cell) => cell.restart(rt, alloc, board, pass, list),
                None => unreachable!(),
            },
            1 => match &self.c1 {
                Some(cell) => cell.restart(rt, alloc, board, pass, list),
                None => unreachable!(),
            },
            2 => match &self.c2 {
                Some(cell) => cell.restart(rt, alloc, board, pass, list),
                None => unreachable!(),
            },
            3 => match &self.c3 {
                Some(cell) => cell.restart(rt, alloc, board, pass, list),
                None => unreachable!(),
            },
            4 => match &self.c4 {
                Some(cell) => cell.restart(rt, alloc, board, pass, list),
                None => unreachable!(),
            },
            5 => match &self.c5 {
                Some(cell) => cell.restart(rt, alloc, board, pass, list),
                None => unreachable!(),
            },
            6 => match &self.c6 {
                Some(cell) => cell.restart(rt, alloc, board, pass, list),
                None => unreachable!(),
            },
            7 => match &self.c7 {
                Some(cell) => cell.restart(rt, alloc, board, pass, list),
                None => unreachable!(),
            },
            _ => unreachable!(),
        }
    }
}

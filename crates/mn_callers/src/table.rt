//! What the actors of a run share: its board, and the stations of its nodes.
ghost use Rattle.std.specs.Prelude.{◌≡◌, ◌≢◌, ◌≤◌, ◌<◌, ◌+◌, None, IfErr, OnErr, OnOk};
ghost use Rattle.std.specs.Prelude.{length, true, false};
ghost use Rattle.mn_cell.specs.Calls.{ObeysStop, MaySend, entry_at, what_said};
ghost use Rattle.mn_cell.specs.Promises.{IsOwedAt, decided_by};
ghost use Rattle.mn_mini.specs.Sound.{Fits, IsSoundRequest};
ghost use Rattle.mn_runs.specs.Protocol.{entries_of, base_at, start_of};
ghost use Rattle.mn_callers.specs.Turn.{ExtendsLog, IsTurn, turn_at};
ghost use Rattle.mn_callers.specs.Steps.{Adds, KeepsList};
ghost use Rattle.mn_callers.specs.Causes.{IsCaused, cause_of};
ghost use Rattle.mn_callers.specs.Doings.{Halts, HasAnswered, IsAnswer, IsDownAs, OthersStay};
ghost use Rattle.mn_callers.specs.Doings.{Restarts};
ghost use Rattle.mn_callers.specs.Ended.{AllHaveMade};
ghost use Rattle.mn_callers.specs.Failed.{closer};
ghost use Rattle.mn_cell.specs.declared.trace.RunCause.{RunCause};

use crate::transport::{Transport, put_alone};
use mn_actors::{Board, Pass};
use mn_base::{NoMemory, NodeNo, StopAt};
use mn_cell::{Named, Station};
use mn_io::Disk;
use mn_law::CoreLaw;
use mn_mini::{NodeReply, Request};
use mn_node::RestartError;
use mn_runs::{ClientList, What};
use std::alloc::Global;

/// The board of a run and the stations of its nodes, from number 0 on.
#[derive(Drop)]
pub struct Table<N: Named, D: Disk> {
    pub board: Board<CoreLaw>,
    pub stations: Vec<Station<N, D>>,
}

impl<N: Named, D: Disk> Table<N, D> {
    /// Calls a node for an actor, and stops it inside the call where that is asked. NoMemory: there
    /// was none, and there is no entry. It never comes for a decision that is owed, where the list
    /// has room.
    #[inline(always)]
    pub fn call(
        &mut self,
        alloc: Global,
        pass: &mut Pass<CoreLaw>,
        list: &mut ClientList,
        node: NodeNo,
        request: Request,
        stop: Option<StopAt>,
    ) -> NodeReply
        requires turn { IsTurn N.board (length N.records) (turn_at self.old pass.old list.old) }
        requires node { node.0 < length N.records }
        requires sound { IsSoundRequest request }
        requires legal { MaySend node list.old.client list.old.entries request stop }
        ensures turn { IsTurn N.board (length N.records) (turn_at self.new pass.new list.new) }
        ensures goes_on { ExtendsLog (turn_at self.old pass.old list.old)
            (turn_at self.new pass.new list.new) }
        ensures fits { Fits request result }
        ensures said { result ≢ NodeReply.NoMemory
            → Adds (entry_at node list.old.client (what_said request stop result)) list.old
            list.new }
        ensures none { result ≡ NodeReply.NoMemory → list.new.entries ≡ list.old.entries }
        ensures room { list.old.room ≤ list.new.room + 1 }
        ensures owed { IsOwedAt node (decided_by request) (entries_of list.old.entries)
            → 0 < list.old.room → result ≢ NodeReply.NoMemory }
        ensures stop { ObeysStop stop request result }
        ensures others { OthersStay node self.old.stations.items self.new.stations.items }
        ensures answered { IsAnswer result
            → HasAnswered (base_at (start_of N.records) node) node request result
            self.old.stations.items self.new.stations.items }
        ensures was_down { result ≡ NodeReply.Down → IsDownAs true self.old.stations.items node }
        ensures stopped { result ≡ NodeReply.Stopped → stop ≡ None → list.old.client ≡ closer
            → IsCaused D.faults N.faults N.honest self.new.stations.items (RunCause.Disk node) }
    {
        // What the call does shows by what the station has made before and after it.
        let station = &mut self.stations[usize::from(node.0)];
        station.made();
        let reply = station.call(alloc, &self.board, pass, list, request, stop);
        station.made();
        reply
    }

    /// Stops a node between two calls, if it is up. NoMemory: there was none for the entry.
    pub fn halt(
        &mut self,
        pass: &mut Pass<CoreLaw>,
        list: &mut ClientList,
        node: NodeNo,
    ) -> Result<(), NoMemory>
        requires turn { IsTurn N.board (length N.records) (turn_at self.old pass.old list.old) }
        requires node { node.0 < length N.records }
        ensures turn { IsTurn N.board (length N.records) (turn_at self.new pass.new list.new) }
        ensures goes_on { ExtendsLog (turn_at self.old pass.old list.old)
            (turn_at self.new pass.new list.new) }
        ensures halts { Halts node self.old.stations.items result list.old list.new }
        ensures none { OnErr result (KeepsList list.old list.new) }
    {
        // Whether the node is up shows by what its station has made.
        let station = &mut self.stations[usize::from(node.0)];
        station.made();
        station.halt(&self.board, pass, list)?;
        Ok(())
    }

    /// Restarts a node, if it is down. The causes are those of the station's own restart; after an
    /// error there is no entry, and the node is still down.
    pub fn restart(
        &mut self,
        alloc: Global,
        pass: &mut Pass<CoreLaw>,
        list: &mut ClientList,
        node: NodeNo,
    ) -> Result<(), RestartError>
        requires turn { IsTurn N.board (length N.records) (turn_at self.old pass.old list.old) }
        requires node { node.0 < length N.records }
        ensures turn { IsTurn N.board (length N.records) (turn_at self.new pass.new list.new) }
        ensures goes_on { ExtendsLog (turn_at self.old pass.old list.old)
            (turn_at self.new pass.new list.new) }
        ensures restarts { Restarts node self.old.stations.items result list.old list.new }
        ensures none { OnErr result (KeepsList list.old list.new) }
        ensures was_down { OnErr result (IsDownAs true self.old.stations.items node) }
        ensures failed { IfErr result
            (λ e. IsCaused D.faults N.faults N.honest self.new.stations.items (cause_of node e)) }
        ensures others { OthersStay node self.old.stations.items self.new.stations.items }
        ensures up { OnOk result (IsDownAs false self.new.stations.items node) }
    {
        let station = &mut self.stations[usize::from(node.0)];
        station.made();
        match station.restart(alloc, &self.board, pass, list) {
            Ok(_kept) => Ok(()),
            Err(error) => {
                station.made();
                Err(error)
            }
        }
    }

    /// What each station knows of its node.
    pub fn made(&self)
        ensures { AllHaveMade D.state D.faults (start_of N.records) N.faults N.honest
            self.now.stations.items }
    {
        for station in &self.stations {
            station.made();
        }
    }
}

impl<N: Named, D: Disk> Transport for Table<N, D> {
    ghost use Rattle.std.specs.Prelude.{length};
    ghost use Rattle.mn_runs.specs.Protocol.{start_of};
    ghost use Rattle.mn_callers.specs.Turn.{IsTable, StationsWent, seen_of};
    ghost use Rattle.mn_callers.specs.Stationed.{stations_go_on, stations_stay};

    ghost board = { N.board };

    ghost start = { start_of N.records };

    ghost ready = { λ t. IsTable N.board (length N.records) (seen_of t.board) t.stations.items };

    ghost went = { λ old new own. StationsWent old.stations.items new.stations.items own };

    fn nodes(&self) -> u8 {
        self.stations.len() as u8
    }

    #[inline(always)]
    fn put(&mut self, pass: &mut Pass<CoreLaw>, list: &mut ClientList, what: What) {
        put_alone(&self.board, pass, list, what);
    }

    #[inline(always)]
    fn send(
        &mut self,
        alloc: Global,
        pass: &mut Pass<CoreLaw>,
        list: &mut ClientList,
        node: NodeNo,
        request: Request,
        stop: Option<StopAt>,
    ) -> NodeReply {
        self.call(alloc, pass, list, node, request, stop)
    }

    fn start_again(
        &mut self,
        alloc: Global,
        pass: &mut Pass<CoreLaw>,
        list: &mut ClientList,
        node: NodeNo,
    ) -> Result<(), RestartError> {
        self.restart(alloc, pass, list, node)
    }

    fn pause(&mut self, _list: &ClientList, _died: bool) {}

    ghost stays = { λ s. stations_stay s.stations.items };

    ghost goes_on = { λ a b c own later. stations_go_on a.stations.items b.stations.items
        c.stations.items own later };
}

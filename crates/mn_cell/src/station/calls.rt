//! The calls of a station. Each is one entry of the node and the caller.
ghost use Rattle.std.specs.Prelude.{◌≡◌, ◌≢◌, ◌≤◌, ◌<◌, ◌^◌, ◌+◌, ℕ, List, Some, None, true};
ghost use Rattle.std.specs.Prelude.{false, not, length, IfOk, IfErr, IfSome, IfNone, OnErr, OnOk};
ghost use Rattle.std.specs.Prelude.{OnSome};
ghost use Rattle.mn_mini.specs.Sound.{Fits, IsSoundRequest};
ghost use Rattle.mn_mini.specs.declared.reply.NodeReply.{NodeReply as Reply};
ghost use Rattle.mn_actors.specs.declared.actor.Actor.TheVariants.{Node as AtNode, Client};
ghost use Rattle.mn_actors.specs.Lists.{held};
ghost use Rattle.mn_actors.specs.Sight.{board_of, id_of, view_of};
ghost use Rattle.mn_io.specs.DiskModel.{LeavesOnly};
ghost use Rattle.mn_node.specs.Node.{IsUpToWithOrWithout, listed};
ghost use Rattle.mn_node.specs.Restart.{FailsRestart};
ghost use Rattle.mn_node.specs.State.{left_behind_list, response_to};
ghost use Rattle.mn_runs.specs.declared.entry.What.TheVariants.{Stopped, Restarted};
ghost use Rattle.mn_runs.specs.declared.entry.Entry.{Entry};
ghost use Rattle.mn_law.specs.Run.{IsLegalBy};
ghost use Rattle.mn_runs.specs.Protocol.{entries_of};
ghost use Rattle.mn_cell.specs.Calls.{EndsBoth, HasLengths, IsLarge, IsLegalLine, IsUndamaged};
ghost use Rattle.mn_cell.specs.Calls.{ObeysStop, MaySend, entry_at, lengths_by, what_said};
ghost use Rattle.mn_cell.specs.Passes.{AreOfOneLog, IsSameView, OwnsJust};
ghost use Rattle.mn_cell.specs.Promises.{HasRoomForStep, IsOwedAt, IsOwing, OwesTo, decided_by};
ghost use Rattle.mn_cell.specs.Promises.{decided_in};
ghost use Rattle.mn_cell.specs.Station.{IsAsBefore, RoseBy, list_in, unasked};

use super::Station;
use crate::add::{add, compare};
use crate::copies::{Blanks, blanks_for, copy_of, what_of};
use crate::named::Named;
use crate::owing::{Owing, decided_id};
use mn_actors::{Board, Pass};
use mn_base::{ClientNo, NoMemory, NodeNo, StopAt, Tid};
use mn_io::Disk;
use mn_law::CoreLaw;
use mn_mini::{NodeReply, Request};
use mn_node::RestartError;
use mn_runs::{ClientList, Entry, What};
use std::alloc::Global;

/// Makes room in the caller's list for a step of it, which may decide an id, and for the decision
/// that the step may owe the node's. NoMemory: there is none. It never comes for a decision that is
/// owed, where the caller's list has room.
fn make_room(owing: &mut Owing, list: &mut ClientList, decided: Option<Tid>) -> Result<(), NoMemory>
    ensures place { OnOk result (HasRoomForStep owing.new (Some list.old.client) decided) }
    ensures short { OnOk result ((owing.new.size < 2 ^ 58) × (length list.new.entries < 2 ^ 58)) }
    ensures room { OnOk result (0 < list.new.room) }
    ensures owed { OnErr result (OwesTo (Some list.old.client) decided owing.old.owed
        → 0 < list.old.room → ⊥) }
    ensures owing { (owing.new.size ≡ owing.old.size) × (owing.new.owed ≡ owing.old.owed) }
    ensures client { list.new.client ≡ list.old.client }
    ensures entries { list.new.entries ≡ list.old.entries }
    ensures no_less { list.old.room ≤ list.new.room }
{
    list.reserve(1)?;
    owing.make_place(list.client(), decided)
}

/// Takes all that a call needs: room for its entry, and for a copy of what is read, if the request
/// may add a record. NoMemory never comes for a decision that is owed, where the caller's list has
/// room.
#[inline(always)]
fn prepare(
    alloc: Global,
    owing: &mut Owing,
    list: &mut ClientList,
    request: &Request,
) -> Result<Option<Blanks>, NoMemory>
    ensures blanks { IfOk result (λ blanks. blanks ≡ lengths_by request.now) }
    ensures place { OnOk result (HasRoomForStep owing.new (Some list.old.client)
        (decided_by request.now)) }
    ensures short { OnOk result ((owing.new.size < 2 ^ 58) × (length list.new.entries < 2 ^ 58)) }
    ensures room { OnOk result (0 < list.new.room) }
    ensures owed { OnErr result (OwesTo (Some list.old.client) (decided_by request.now)
        owing.old.owed → 0 < list.old.room → ⊥) }
    ensures owing { (owing.new.size ≡ owing.old.size) × (owing.new.owed ≡ owing.old.owed) }
    ensures client { list.new.client ≡ list.old.client }
    ensures entries { list.new.entries ≡ list.old.entries }
    ensures no_less { list.old.room ≤ list.new.room }
{
    make_room(owing, list, decided_id(request))?;
    blanks_for(alloc, request)
}

/// Whether the reply is one of an entry: want of memory is none.
fn is_entry(reply: &NodeReply) -> bool
    ensures yes { result ≡ true → reply.now ≢ Reply.NoMemory }
    ensures no { result ≡ false → reply.now ≡ Reply.NoMemory }
{
    !matches!(reply, NodeReply::NoMemory)
}

/// The entry of a call, with a copy of the reply. NoMemory comes only for a reply that comes with
/// no new record. It is made by a call of its own, since the second is made by the same code.
#[inline(never)]
fn call_entry(
    alloc: Global,
    number: NodeNo,
    client: ClientNo,
    request: Request,
    stop: Option<StopAt>,
    reply: &NodeReply,
    blanks: Option<Blanks>,
) -> Result<Entry, NoMemory>
    requires { HasLengths blanks reply.now }
    ensures made { IfOk result
        (λ made. made ≡ entry_at number client (what_said request stop reply.now)) }
    ensures large { OnErr result (IsLarge blanks reply.now) }
{
    let reply = copy_of(alloc, reply, blanks)?;
    Ok(Entry {
        node: Some(number),
        client: Some(client),
        what: what_of(request, stop, reply),
    })
}

/// The entry of a stop between two calls.
fn stop_entry(number: NodeNo, client: ClientNo) -> Entry
    ensures { result ≡ entry_at number client (Stopped None None) }
{
    Entry {
        node: Some(number),
        client: Some(client),
        what: What::Stopped {
            request: None,
            asked: None,
        },
    }
}

/// The entry of a restart.
fn restart_entry(number: NodeNo, client: ClientNo, kept: bool) -> Entry
    ensures { result ≡ entry_at number client (Restarted kept) }
{
    Entry {
        node: Some(number),
        client: Some(client),
        what: What::Restarted { kept },
    }
}

/// Adds an entry, and puts it at the end of the client's list. `own` is the node's pass, which
/// comes back.
#[inline(always)]
fn enter(
    board: &Board<CoreLaw>,
    own: Pass<CoreLaw>,
    owing: &mut Owing,
    number: NodeNo,
    pass: &mut Pass<CoreLaw>,
    list: &mut ClientList,
    entry: Entry,
) -> Pass<CoreLaw>
    requires board { (board_of own ≡ id_of board.now) × (board_of pass.old ≡ id_of board.now) }
    requires owns { OwnsJust (view_of own) (AtNode number)
        × OwnsJust (view_of pass.old) (Client list.old.client) }
    requires list { held (view_of pass.old) (Client list.old.client) ≡ Some list.old.entries }
    requires actors { (entry.node ≡ Some number) × (entry.client ≡ Some list.old.client) }
    requires legal { IsLegalBy (entries_of list.old.entries) entry }
    requires owing { IsOwing (list_in number own) owing.old.size owing.old.owed }
    requires place { HasRoomForStep owing.old (Some list.old.client) (decided_in entry.what) }
    requires short { (owing.old.size < 2 ^ 58) × (length list.old.entries < 2 ^ 58) }
    requires room { 0 < list.old.room }
    ensures board { (board_of result ≡ id_of board.now) × (board_of pass.new ≡ id_of board.now) }
    ensures owns { OwnsJust (view_of result) (AtNode number)
        × OwnsJust (view_of pass.new) (Client list.old.client) }
    ensures list { held (view_of pass.new) (Client list.old.client) ≡ Some list.new.entries }
    ensures ends { EndsBoth (view_of pass.old).known (view_of result).known
        (view_of pass.new).known entry (list_in number own) (list_in number result)
        list.old.entries list.new.entries }
    ensures owing { IsOwing (list_in number result) owing.new.size owing.new.owed }
    ensures client { list.new.client ≡ list.old.client }
    ensures room { list.old.room ≤ list.new.room + 1 }
{
    let (own, place) = add(board, own, pass, &entry, number, list.client());
    owing.add(&entry);
    list.push(place, entry);
    own
}

impl<N: Named, D: Disk> Station<N, D> {
    /// Tells that the node's list and the client's are of one log: so a decision that the client's
    /// list owes has its room in the node's. All is as before.
    fn compare(&mut self, board: &Board<CoreLaw>, pass: &mut Pass<CoreLaw>, client: ClientNo)
        requires board { (id_of board.now ≡ N.board) × (board_of pass.old ≡ N.board) }
        requires owns { OwnsJust (view_of pass.old) (Client client) }
        ensures same { self.new ≡ self.old }
        ensures board { board_of pass.new ≡ N.board }
        ensures pass { IsSameView (view_of pass.old) (view_of pass.new)
            × OwnsJust (view_of pass.new) (Client client) }
        ensures one_log { (list : List (ℕ × Entry))
            → held (view_of pass.old) (Client client) ≡ Some list
            → AreOfOneLog IsLegalLine self.old.number client self.old.list list }
    {
        let Some(own) = self.pass.take() else {
            unreachable!()
        };
        self.pass = Some(compare(board, own, pass, self.number, client));
    }

    /// Calls the node for the client, and adds the reply to both lists.
    ///
    /// NoMemory: there was none for the call; the node, the pass and both lists are as before. It
    /// never comes for the decision of an id whose vote the client has got here and hasn't decided,
    /// where the client's list has room, whether the node is up or down. Any other reply is the
    /// last entry of both lists, at a place that is not below the one that the client's pass knew,
    /// and both passes know the place after it. Where `stop` is given, a request that adds a record
    /// isn't done.
    pub fn call(
        &mut self,
        alloc: Global,
        board: &Board<CoreLaw>,
        pass: &mut Pass<CoreLaw>,
        list: &mut ClientList,
        request: Request,
        stop: Option<StopAt>,
    ) -> NodeReply
        requires board { (id_of board.now ≡ N.board) × (board_of pass.old ≡ N.board) }
        requires owns { OwnsJust (view_of pass.old) (Client list.old.client) }
        requires list { held (view_of pass.old) (Client list.old.client) ≡ Some list.old.entries }
        requires sound { IsSoundRequest request }
        requires legal { MaySend self.old.number list.old.client list.old.entries request stop }
        ensures fits { Fits request result }
        ensures number { self.new.number ≡ self.old.number }
        ensures client { list.new.client ≡ list.old.client }
        ensures board { board_of pass.new ≡ N.board }
        ensures owns { OwnsJust (view_of pass.new) (Client list.old.client) }
        ensures list { held (view_of pass.new) (Client list.old.client) ≡ Some list.new.entries }
        ensures said { result ≢ Reply.NoMemory
            → EndsBoth (view_of pass.old).known self.new.known (view_of pass.new).known
            (entry_at self.old.number list.old.client (what_said request stop result)) self.old.list
            self.new.list list.old.entries list.new.entries }
        ensures before { result ≡ Reply.NoMemory → IsAsBefore self.old self.new }
        ensures pass_before { result ≡ Reply.NoMemory
            → IsSameView (view_of pass.old) (view_of pass.new) }
        ensures list_before { result ≡ Reply.NoMemory → list.new.entries ≡ list.old.entries }
        ensures room { list.old.room ≤ list.new.room + 1 }
        ensures owed { IsOwedAt self.old.number (decided_by request) (entries_of list.old.entries)
            → 0 < list.old.room → result ≢ Reply.NoMemory }
        ensures stop { ObeysStop stop request result }

        // A crash at any moment of the call leaves the node's records from before it, with the
        // answer's one record or without.
        ensures moments { self.old.node.down ≡ false → (D.state self.old.node.disk).honest
            → LeavesOnly (D.state self.old.node.disk) (D.state self.new.node.disk)
            (IsUpToWithOrWithout self.old.node.node self.old.node.nodes self.old.node.records
            (response_to self.old.node request).added) }
    {
        let client = list.client();
        let _down = self.node.is_down();
        let Ok(blanks) = prepare(alloc, &mut self.owing, list, &request) else {
            self.compare(board, pass, client);
            return NodeReply::NoMemory;
        };
        let reply = self.node.handle(alloc, &request, stop);
        if !is_entry(&reply) {
            return NodeReply::NoMemory;
        }
        let number = self.number;
        let made = call_entry(alloc, number, client, request, stop, &reply, blanks);
        let Ok(entry) = made else {
            return NodeReply::NoMemory;
        };
        let Some(own) = self.pass.take() else {
            unreachable!()
        };
        let own = enter(board, own, &mut self.owing, number, pass, list, entry);
        self.pass = Some(own);
        reply
    }

    /// Stops the node between two calls, and adds that to both lists. The answer is false exactly
    /// where it is down already; then no entry is made. NoMemory: there was none, and nothing has
    /// changed.
    pub fn halt(
        &mut self,
        board: &Board<CoreLaw>,
        pass: &mut Pass<CoreLaw>,
        list: &mut ClientList,
    ) -> Result<bool, NoMemory>
        requires board { (id_of board.now ≡ N.board) × (board_of pass.old ≡ N.board) }
        requires owns { OwnsJust (view_of pass.old) (Client list.old.client) }
        requires list { held (view_of pass.old) (Client list.old.client) ≡ Some list.old.entries }
        ensures number { self.new.number ≡ self.old.number }
        ensures client { list.new.client ≡ list.old.client }
        ensures board { board_of pass.new ≡ N.board }
        ensures owns { OwnsJust (view_of pass.new) (Client list.old.client) }
        ensures list { held (view_of pass.new) (Client list.old.client) ≡ Some list.new.entries }
        ensures exactly { IfOk result (λ halted. halted ≡ not self.old.node.down) }
        ensures down { OnOk result (self.new.node.down ≡ true) }
        ensures halted { IfOk result
            (λ halted. halted ≡ true → EndsBoth (view_of pass.old).known self.new.known
            (view_of pass.new).known (entry_at self.old.number list.old.client (Stopped None None))
            self.old.list self.new.list list.old.entries list.new.entries) }
        ensures no_entry { IfOk result
            (λ halted. halted ≡ false → (self.new ≡ self.old) × (pass.new ≡ pass.old)
            × (list.new ≡ list.old)) }
        ensures failed { OnErr result
            ((self.new ≡ self.old) × (pass.new ≡ pass.old)
            × (list.new.entries ≡ list.old.entries)) }
        ensures room { list.old.room ≤ list.new.room + 1 }
    {
        if self.node.is_down() {
            return Ok(false);
        }
        make_room(&mut self.owing, list, None)?;
        self.node.halt();
        let Some(own) = self.pass.take() else {
            unreachable!()
        };
        let number = self.number;
        let entry = stop_entry(number, list.client());
        let own = enter(board, own, &mut self.owing, number, pass, list, entry);
        self.pass = Some(own);
        Ok(true)
    }

    /// Starts the node again, and adds that to both lists, with whether the record of the request
    /// inside which it had stopped is there. The answer is None exactly where the node is up; then
    /// no entry is made. The causes are those of the node's own restart, or want of memory for the
    /// entry; after an error no entry is made, and the node is still down. At Fault the disk's
    /// count has risen by one more since the run began than the node has stopped unasked in
    /// requests.
    pub fn restart(
        &mut self,
        alloc: Global,
        board: &Board<CoreLaw>,
        pass: &mut Pass<CoreLaw>,
        list: &mut ClientList,
    ) -> Result<Option<bool>, RestartError>
        requires board { (id_of board.now ≡ N.board) × (board_of pass.old ≡ N.board) }
        requires owns { OwnsJust (view_of pass.old) (Client list.old.client) }
        requires list { held (view_of pass.old) (Client list.old.client) ≡ Some list.old.entries }
        ensures number { self.new.number ≡ self.old.number }
        ensures client { list.new.client ≡ list.old.client }
        ensures board { board_of pass.new ≡ N.board }
        ensures owns { OwnsJust (view_of pass.new) (Client list.old.client) }
        ensures list { held (view_of pass.new) (Client list.old.client) ≡ Some list.new.entries }
        ensures was_up { IfOk result (λ kept. IfNone kept (self.old.node.down ≡ false)) }
        ensures was_down { IfOk result (λ kept. OnSome kept (self.old.node.down ≡ true)) }
        ensures up { OnOk result (self.new.node.down ≡ false) }
        ensures restarted { IfOk result
            (λ kept. IfSome kept (λ there.
            EndsBoth (view_of pass.old).known self.new.known (view_of pass.new).known
            (entry_at self.old.number list.old.client (Restarted there)) self.old.list self.new.list
            list.old.entries list.new.entries)) }
        ensures no_entry { IfOk result
            (λ kept. IfNone kept ((self.new ≡ self.old) × (pass.new ≡ pass.old)
            × (list.new ≡ list.old))) }
        ensures cause { IfErr result
            (FailsRestart D.state D.faults self.old.node.disk self.new.node.disk
            (listed self.old.node.cut self.old.node.records)
            (left_behind_list self.old.node.cutting self.old.node.pending)) }
        ensures fault { IfErr result (λ e. e ≡ RestartError.Fault
            → RoseBy (unasked (entries_of self.new.list) + 1) (N.faults self.old.number.0)
            (D.faults self.new.node.disk)) }
        ensures undamaged { N.honest self.old.number.0 → IfErr result IsUndamaged }

        // A crash at any moment of the call leaves the node's records, with the one that may have
        // been there or without.
        ensures moments { (D.state self.old.node.disk).honest
            → LeavesOnly (D.state self.old.node.disk) (D.state self.new.node.disk)
            (IsUpToWithOrWithout self.old.node.node self.old.node.nodes self.old.node.records
            self.old.node.pending) }
        ensures failed { OnErr result
            (IsAsBefore self.old self.new × (self.old.node.down ≡ true) × (pass.new ≡ pass.old)
            × (list.new.entries ≡ list.old.entries)) }
        ensures room { list.old.room ≤ list.new.room + 1 }
    {
        if !self.node.is_down() {
            return Ok(None);
        }
        make_room(&mut self.owing, list, None)?;
        let kept = match self.node.restart(alloc) {
            Ok(kept) => kept,
            Err(error) => return Err(error),
        };
        let Some(own) = self.pass.take() else {
            unreachable!()
        };
        let number = self.number;
        let entry = restart_entry(number, list.client(), kept);
        let own = enter(board, own, &mut self.owing, number, pass, list, entry);
        self.pass = Some(own);
        Ok(Some(kept))
    }
}

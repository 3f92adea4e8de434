//! Through what an actor of a run acts.
ghost use Rattle.std.specs.Prelude.{◌≡◌, ◌≢◌, ◌≤◌, ◌<◌, ◌+◌, ⊤};
ghost use Rattle.mn_actors.specs.Sight.{id_of};
ghost use Rattle.mn_cell.specs.Calls.{ObeysStop, MaySend, entry_at, what_said};
ghost use Rattle.mn_cell.specs.Promises.{IsOwedAt, decided_by};
ghost use Rattle.mn_mini.specs.Sound.{Fits, IsSoundRequest};
ghost use Rattle.mn_runs.specs.Protocol.{start_nodes, entries_of};
ghost use Rattle.mn_law.specs.Run.{IsLegalBy};
ghost use Rattle.mn_callers.specs.Hands.{HasTurn, IsOwnStep, MovesOn, hand_of};
ghost use Rattle.mn_callers.specs.Steps.{Adds, MayRestart, own_entry};

use mn_actors::{Board, Pass};
use mn_base::{NodeNo, StopAt};
use mn_law::CoreLaw;
use mn_mini::{NodeReply, Request};
use mn_node::RestartError;
use mn_runs::{ClientList, Entry, What};
use std::alloc::Global;

/// The board of a run and its nodes, as an actor reaches them: on one thread, or behind locks.
pub trait Transport {
    ghost use Rattle.std.specs.Prelude.{ℕ, List, [], ◌++◌};
    ghost use Rattle.atomic_table.specs.Seated.{TableId};
    ghost use Rattle.mn_runs.specs.declared.entry.Entry.{Entry as Noted};
    ghost use Rattle.mn_runs.specs.Protocol.{Start};

    // The board of the run.
    ghost board: { TableId };

    // What the run started from.
    ghost start: { Start };

    // What is so of it between two calls.
    ghost ready: { Self → Type 0 };

    // How these entries, newest first, changed it.
    ghost went: { Self → Self → List (ℕ × Noted) → Type 0 };

    /// How many nodes there are.
    fn nodes(&self) -> u8
        requires ready { ready self.now }
        ensures count { result ≡ start_nodes start }
        ensures few { result ≤ 8 };

    /// Puts a step on the board that an actor makes by itself, and for which its list has room.
    fn put(&mut self, pass: &mut Pass<CoreLaw>, list: &mut ClientList, what: What)
        requires turn { HasTurn board (ready self.old) (hand_of pass.old list.old) }
        requires legal { IsLegalBy (entries_of list.old.entries) (own_entry list.old.client what) }
        requires room { 0 < list.old.room }
        ensures turn { HasTurn board (ready self.new) (hand_of pass.new list.new) }
        ensures goes_on { MovesOn (went self.old self.new)
            (hand_of pass.old list.old) (hand_of pass.new list.new) }
        ensures added { Adds (own_entry list.old.client what) list.old list.new }
        ensures room { list.new.room + 1 ≡ list.old.room };

    /// Calls a node for an actor, and stops it inside the call where that is asked. NoMemory: there
    /// was none, and there is no entry. It never comes for a decision that is owed, where the list
    /// has room.
    fn send(
        &mut self,
        alloc: Global,
        pass: &mut Pass<CoreLaw>,
        list: &mut ClientList,
        node: NodeNo,
        request: Request,
        stop: Option<StopAt>,
    ) -> NodeReply
        requires turn { HasTurn board (ready self.old) (hand_of pass.old list.old) }
        requires node { node.0 < start_nodes start }
        requires sound { IsSoundRequest request }
        requires legal { MaySend node list.old.client list.old.entries request stop }
        ensures turn { HasTurn board (ready self.new) (hand_of pass.new list.new) }
        ensures goes_on { MovesOn (went self.old self.new)
            (hand_of pass.old list.old) (hand_of pass.new list.new) }
        ensures fits { Fits request result }
        ensures said { result ≢ NodeReply.NoMemory
            → Adds (entry_at node list.old.client (what_said request stop result)) list.old
            list.new }
        ensures none { result ≡ NodeReply.NoMemory → list.new.entries ≡ list.old.entries }
        ensures room { list.old.room ≤ list.new.room + 1 }
        ensures owed { IsOwedAt node (decided_by request) (entries_of list.old.entries)
            → 0 < list.old.room → result ≢ NodeReply.NoMemory }
        ensures stop { ObeysStop stop request result };

    /// Starts a node again, if it is down. After an error it is still down, and there is no entry.
    fn start_again(
        &mut self,
        alloc: Global,
        pass: &mut Pass<CoreLaw>,
        list: &mut ClientList,
        node: NodeNo,
    ) -> Result<(), RestartError>
        requires turn { HasTurn board (ready self.old) (hand_of pass.old list.old) }
        requires node { node.0 < start_nodes start }
        ensures turn { HasTurn board (ready self.new) (hand_of pass.new list.new) }
        ensures goes_on { MovesOn (went self.old self.new)
            (hand_of pass.old list.old) (hand_of pass.new list.new) }
        ensures restarts { MayRestart node list.old list.new };

    /// Hears that an actor rests between two operations, or has died.
    fn pause(&mut self, list: &ClientList, died: bool)
        ensures { self.new ≡ self.old };

    // Nothing changes it by no entries.
    ghost stays: { (s : Self) → went s s [] };

    // What entries did, and then later ones, all of them did.
    ghost goes_on: { (a b c : Self) (own later : List (ℕ × Noted)) → went a b own → went b c later
        → went a c (later ++ own) };
}

/// Puts a step on a board that an actor makes by itself.
#[inline(always)]
pub fn put_alone(
    board: &Board<CoreLaw>,
    pass: &mut Pass<CoreLaw>,
    list: &mut ClientList,
    what: What,
)
    requires turn { HasTurn (id_of board.now) ⊤ (hand_of pass.old list.old) }
    requires legal { IsLegalBy (entries_of list.old.entries) (own_entry list.old.client what) }
    requires room { 0 < list.old.room }
    ensures turn { HasTurn (id_of board.now) ⊤ (hand_of pass.new list.new) }
    ensures goes_on { MovesOn (IsOwnStep list.old.client)
        (hand_of pass.old list.old) (hand_of pass.new list.new) }
    ensures added { Adds (own_entry list.old.client what) list.old list.new }
    ensures room { list.new.room + 1 ≡ list.old.room }
{
    let client = list.client();
    // A list with room is no longer than a log may be.
    let _room = list.room();
    let entry = Entry {
        node: None,
        client: Some(client),
        what,
    };
    let place = board.append_ref(pass, &entry, None, Some(client));
    list.push(place, entry);
}

//! What is kept of a node's list, whose entries stand in the lists of their callers: how long it
//! is, and the decisions that it is owed.
ghost use Rattle.std.specs.Prelude.{◌≡◌, ◌≤◌, ◌<◌, ◌+◌, ◌^◌, ◌⊎◌, ◌++◌, ◌∷◌, [], ℕ, List, Some};
ghost use Rattle.std.specs.Prelude.{true, false, IfOk, OnOk, OnErr, vec_len, vec_capacity};
ghost use Rattle.mn_runs.specs.declared.entry.Entry.{Entry as Step};
ghost use Rattle.mn_cell.specs.Promises.{HasRoomForStep, IsOwing, OwesTo, decided_by, decided_in};
ghost use Rattle.mn_cell.specs.Promises.{is_owed_to, owed_after, owes, voted_by, voted_in};
ghost use Rattle.mn_cell.specs.Promises.{owed_without};

use mn_base::{ClientNo, NoMemory, Tid};
use mn_mini::{NodeReply, Request};
use mn_runs::{Entry, What};
use std::alloc::Global;
use std::marker::Model;

/// How many entries a list may have.
const LONGEST: usize = 1 << 57;

/// For how many decisions there is room at once.
const FIRST_ROOM: usize = 8;

/// A decision that a client will send, of an id whose vote it got.
#[derive(Clone, Copy, Debug)]
pub struct Owed {
    pub tid: Tid,
    pub client: ClientNo,
}

/// How long the list of a node is, and the decisions that it is owed: with each vote one of that id
/// by that caller. With all of them the list is as short as a log's may be.
#[derive(Drop)]
pub struct Owing {
    size: usize,
    owed: Vec<Owed>,
}

impl Model for Owing {
    ghost use Rattle.std.specs.Prelude.{◌≤◌, ◌-◌, ◌+◌, ◌^◌, vec_len, vec_capacity};
    ghost use Rattle.mn_cell.specs.Promises.{OwingState};

    ghost Value = { OwingState };

    ghost view = { λ o. record {
      size = o.size;
      owed = o.owed.items;
      spare = vec_capacity o.owed - vec_len o.owed;
    } };

    ghost invariant = { λ o. o.size + vec_len o.owed ≤ 2 ^ 57 };
}

/// The two are one decision.
fn is_same(owed: &Owed, tid: Tid, client: ClientNo) -> bool
    ensures { result ≡ is_owed_to tid client owed.now }
{
    owed.tid.run == tid.run
        && owed.tid.client.0 == tid.client.0
        && owed.tid.serial == tid.serial
        && owed.client.0 == client.0
}

/// A decision of the id by the client is among these.
fn is_among(all: &[Owed], tid: Tid, client: ClientNo) -> bool
    ensures { result ≡ owes tid client all.now }
{
    for owed in all {
        if is_same(owed, tid, client) {
            return true;
        }
    }
    false
}

/// The decision of this id, if there is one, by the client is among these.
fn is_owed(all: &[Owed], decided: Option<Tid>, client: ClientNo) -> bool
    ensures yes { result ≡ true → OwesTo (Some client) decided all.now }
    ensures no { result ≡ false → OwesTo (Some client) decided all.now → ⊥ }
{
    match decided {
        Some(tid) => is_among(all, tid, client),
        None => false,
    }
}

/// Leaves out a decision.
fn forget(all: &mut Vec<Owed>, tid: Tid, client: ClientNo)
    ensures left { all.new.items ≡ owed_without tid client all.old.items }
    ensures room { vec_capacity all.old ≤ vec_capacity all.new }
{
    all.retain(|owed| !is_same(owed, tid, client));
}

/// The id of which the reply is a vote.
fn voted_id(request: &Request, reply: &NodeReply) -> Option<Tid>
    ensures { result ≡ voted_by request.now reply.now }
{
    match request {
        Request::Prepare { tid, .. } => match reply {
            NodeReply::Done { .. } => Some(*tid),
            _ => None,
        },
        Request::Force { tid } => match reply {
            NodeReply::Vote { .. } => Some(*tid),
            _ => None,
        },
        _ => None,
    }
}

/// The id that the request decides.
pub fn decided_id(request: &Request) -> Option<Tid>
    ensures { result ≡ decided_by request.now }
{
    match request {
        Request::Decide { tid, .. } => Some(*tid),
        _ => None,
    }
}

/// The id of which the step is a vote.
fn voted_id_in(what: &What) -> Option<Tid>
    ensures { result ≡ voted_in what.now }
{
    match what {
        What::Called { request, reply } => voted_id(request, reply),
        _ => None,
    }
}

/// The id that the step decides.
fn decided_id_in(what: &What) -> Option<Tid>
    ensures { result ≡ decided_in what.now }
{
    match what {
        What::Called { request, .. } => decided_id(request),
        What::Stopped { request, .. } => match request {
            Some(request) => decided_id(request),
            None => None,
        },
        _ => None,
    }
}

/// Notes what a step of a client changes in the decisions that are owed: it decides one, or is a
/// vote. There is room for it.
fn note(owed: &mut Vec<Owed>, client: Option<ClientNo>, what: &What)
    requires room { (vec_len owed.old < vec_capacity owed.old)
        ⊎ OwesTo client (decided_in what.now) owed.old.items }
    ensures noted { owed.new.items
        ≡ owed_after client (decided_in what.now) (voted_in what.now) owed.old.items }
{
    let Some(client) = client else {
        return;
    };
    if let Some(tid) = decided_id_in(what) {
        forget(owed, tid, client);
        return;
    }
    if let Some(tid) = voted_id_in(what) {
        owed.push_reserved(Owed { tid, client });
    }
}

impl Owing {
    /// An empty list, which is owed nothing. NoMemory: there was no room for decisions.
    pub fn new(alloc: Global) -> Result<Owing, NoMemory>
        ensures { IfOk result (λ owing. IsOwing [] owing.size owing.owed) }
    {
        Ok(Owing {
            size: 0,
            owed: Vec::with_capacity(alloc, FIRST_ROOM)?,
        })
    }

    /// Makes room for a step of the client, which may decide an id, and for the decision that the
    /// step may owe. NoMemory: there is none, or the list would be longer than a log may be. It
    /// never comes for a decision that is owed.
    pub fn make_place(&mut self, client: ClientNo, decided: Option<Tid>) -> Result<(), NoMemory>
        ensures place { OnOk result (HasRoomForStep self.new (Some client) decided) }
        ensures owed { OnErr result (OwesTo (Some client) decided self.old.owed → ⊥) }
        ensures size { self.new.size ≡ self.old.size }
        ensures kept { self.new.owed ≡ self.old.owed }
        ensures short { self.new.size ≤ 2 ^ 57 }
    {
        if is_owed(&self.owed, decided, client) {
            return Ok(());
        }
        let count = self.owed.len();
        if self.size >= LONGEST - 2 || count >= LONGEST - 2 - self.size {
            return Err(NoMemory);
        }
        self.owed.reserve(1)?;
        Ok(())
    }

    /// Notes an entry that ends the list. It takes no memory.
    #[inline(always)]
    pub fn add(&mut self, entry: &Entry)
        requires place { HasRoomForStep self.old entry.now.client (decided_in entry.now.what) }
        ensures { (list : List (ℕ × Step)) (place : ℕ) → IsOwing list self.old.size self.old.owed
            → IsOwing (list ++ (place, entry.now) ∷ []) self.new.size self.new.owed }
    {
        note(&mut self.owed, entry.client, &entry.what);
        self.size += 1;
    }
}

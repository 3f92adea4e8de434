ghost use Rattle.std.specs.Prelude.{◌≡◌, ◌≤◌, ◌<◌, ◌+◌, ◌^◌, ◌++◌, ◌∷◌, [], length, max, OnOk};
ghost use Rattle.std.specs.Prelude.{OnErr};

use crate::Entry;
use mn_base::{ClientNo, NoMemory};
use std::alloc::Global;
use std::marker::Model;

/// How many entries a list may have room for.
const LONGEST: usize = 1 << 57;

/// The entries of one client with their places, in order. Contracts see them as a list, beside the
/// client's number and the number of further entries for which there is room.
#[derive(Debug, Drop)]
pub struct ClientList {
    client: ClientNo,
    entries: Vec<(u64, Entry)>,
    room: usize,
}

impl Model for ClientList {
    ghost use Rattle.std.specs.Prelude.{vec_len, vec_capacity};
    ghost use Rattle.mn_runs.specs.Lists.{ClientState, IsClientList};

    ghost Value = { ClientState };

    ghost view = { λ l. record { client = l.client; entries = l.entries.items; room = l.room } };

    ghost invariant = { λ l. IsClientList l.client (vec_len l.entries)
        (vec_capacity l.entries) l.room };
}

impl ClientList {
    /// The empty list of a client, whose number is at most 20, without room. It takes no memory.
    pub fn new(alloc: Global, client: ClientNo) -> ClientList
        requires client { client.0 ≤ 20 }
        ensures { result ≡ record { client = client; entries = []; room = 0 } }
    {
        ClientList {
            client,
            entries: Vec::new(alloc),
            room: 0,
        }
    }

    /// The list of these entries, without room. It takes no memory.
    pub fn from_vec(client: ClientNo, entries: Vec<(u64, Entry)>) -> ClientList
        requires client { client.0 ≤ 20 }
        ensures { result ≡ record { client = client; entries = entries.items; room = 0 } }
    {
        ClientList {
            client,
            entries,
            room: 0,
        }
    }

    pub fn into_vec(self) -> Vec<(u64, Entry)>
        ensures { result.items ≡ self.entries }
    {
        self.entries
    }

    pub fn as_slice(&self) -> &[(u64, Entry)]
        ensures { result.now ≡ self.now.entries }
    {
        &self.entries
    }

    /// Whose list it is.
    pub fn client(&self) -> ClientNo
        ensures client { result ≡ self.now.client }
        ensures known { result.0 ≤ 20 }
    {
        self.client
    }

    /// For how many further entries there is room.
    pub fn room(&self) -> usize
        ensures room { result ≡ self.now.room }
        ensures few { length self.now.entries + result ≤ max (length self.now.entries) (2 ^ 57) }
    {
        self.room
    }

    /// Makes room for so many further entries. NoMemory: there was less and there is no memory for
    /// more, or the list would be longer than a log may be; the list is as before.
    pub fn reserve(&mut self, entries: usize) -> Result<(), NoMemory>
        ensures room { OnOk result (entries ≤ self.new.room) }
        ensures no_less { self.old.room ≤ self.new.room }
        ensures short { OnOk result (0 < entries → length self.new.entries + entries ≤ 2 ^ 57) }
        ensures failed { OnErr result ((self.old.room < entries) × (self.new ≡ self.old)) }
        ensures client { self.new.client ≡ self.old.client }
        ensures entries { self.new.entries ≡ self.old.entries }
    {
        if entries <= self.room {
            return Ok(());
        }
        let length = self.entries.len();
        if length >= LONGEST || entries > LONGEST - length {
            return Err(NoMemory);
        }
        self.entries.reserve(entries)?;
        self.room = entries;
        Ok(())
    }

    /// Puts an entry at the end. It takes no memory.
    #[inline(always)]
    pub fn push(&mut self, place: u64, entry: Entry)
        requires room { 0 < self.old.room }
        ensures client { self.new.client ≡ self.old.client }
        ensures entries { self.new.entries ≡ self.old.entries ++ (place, entry) ∷ [] }
        ensures room { self.new.room + 1 ≡ self.old.room }
    {
        self.entries.push_reserved((place, entry));
        self.room -= 1;
    }
}

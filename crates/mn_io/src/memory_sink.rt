ghost use Rattle.std.specs.Prelude.{◌≡◌, [], IfOk};

use crate::{Calls, Failed, NoMemory, Sink};
use std::alloc::Global;
use std::marker::Model;

/// A sink in memory, of a room that is taken when it is made. A call of it fails exactly where its
/// number is in a list, or where its room is used up and there is something to write.
#[derive(Debug, Drop)]
pub struct MemorySink {
    bytes: Vec<u8>,
    room: usize,
    calls: u64,
    fails: Calls,
    faults: u64,
}

impl Model for MemorySink {
    ghost use Rattle.std.specs.Prelude.{◌≤◌, ◌+◌, vec_len, vec_capacity};
    ghost use Rattle.mn_io.specs.Memory.{SinkState};

    ghost Value = { SinkState };

    ghost view = { λ s. record {
      bytes = s.bytes.items;
      room = s.room;
      calls = s.calls;
      fails = s.fails;
      faults = s.faults;
    } };

    ghost invariant = { λ s. vec_len s.bytes + s.room ≤ vec_capacity s.bytes };
}

impl MemorySink {
    ghost use Rattle.mn_io.specs.Memory.{is_due};

    /// An empty sink that takes `room` bytes. The calls in `fails` will fail. `NoMemory` where
    /// there is no room.
    pub fn new(alloc: Global, room: usize, fails: Calls) -> Result<Self, NoMemory>
        ensures { IfOk result (λ sink. sink
            ≡ record { bytes = []; room = room; calls = 0; fails = fails; faults = 0 }) }
    {
        Ok(MemorySink {
            bytes: Vec::with_capacity(alloc, room)?,
            room,
            calls: 0,
            fails,
            faults: 0,
        })
    }

    /// Whether a write of this piece fails now.
    fn is_due_for(&self, piece: &[u8]) -> bool
        ensures { result ≡ is_due self.now piece.now }
    {
        self.fails.as_slice().contains(&self.calls) || (self.room == 0 && !piece.is_empty())
    }

    /// The bytes written so far.
    pub fn written(&self) -> &[u8]
        ensures { result.now ≡ self.now.bytes }
    {
        &self.bytes
    }
}

impl Sink for MemorySink {
    ghost use Rattle.std.specs.Prelude.{◌≡◌, Some, IsErr, IfOk, OnOk, IsTrue, ◌↔◌, ◌<◌, ◌+◌, ◌⊎◌};
    ghost use Rattle.std.specs.Prelude.{length, min};
    ghost use Rattle.std.specs.Io.{WritesAtMost};
    ghost use Rattle.std.specs.Io.KnownBytes.{WriteAppends};
    ghost use Rattle.mn_io.specs.Faults.{HasCause, next_count};
    ghost use Rattle.mn_io.specs.Memory.{is_due, counted};

    ghost contents = { λ s. Some s.bytes };

    ghost faults = { λ s. s.faults };

    fn write(&mut self, piece: &[u8]) -> Result<usize, Failed>
        ensures bound { WritesAtMost result piece.now }
        ensures some { 0 < length piece.now → IfOk result (λ n. 0 < n) }
        ensures bytes { WriteAppends (Some self.old.bytes) (Some self.new.bytes) result piece.now }
        ensures cause { HasCause self.old.faults self.new.faults result }

        // It fails, and counts a fault, exactly at the calls of its list and where its room is used
        // up; else it takes as much as fits.
        ensures exact { IsErr result ↔ IsTrue (is_due self.old piece.now) }
        ensures full { IfOk result (λ n. n ≡ min (length piece.now) self.old.room) }
        ensures room { IfOk result (λ n. self.new.room + n ≡ self.old.room) }
        ensures faults { self.new.faults ≡ counted (is_due self.old piece.now) self.old.faults }
        ensures calls { self.new.calls ≡ next_count self.old.calls }
        ensures fails { self.new.fails ≡ self.old.fails }
    {
        let is_due = self.is_due_for(piece);
        self.calls = self.calls.saturating_add(1);
        if is_due {
            self.faults = self.faults.saturating_add(1);
            return Err(Failed);
        }
        let count = piece.len().min(self.room);
        self.bytes.extend_from_slice(&piece[..count]).unwrap();
        self.room -= count;
        Ok(count)
    }
}

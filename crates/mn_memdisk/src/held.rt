//! What a disk holds, and what is needed to undo its changes.
ghost use Rattle.std.specs.Prelude.{◌≡◌, ◌≤◌, ◌+◌, [], length, OnOk};
ghost use Rattle.mn_memdisk.specs.Held.{IsBounded, Fits, Follows, shown, undone, piece_of};
ghost use Rattle.mn_memdisk.specs.History.{write, lost_write, shorten};

use crate::changes::Change;
use crate::overwrite::{append, overwrite};
use mn_io::make_room;
use std::alloc::AllocError;
use std::marker::Model;

/// For how many bytes there is room at once.
const ROOM_FOR_BYTES: usize = 1 << 20;

/// The bytes of a disk, and those that are needed to undo its changes, the newest first.
#[derive(Drop)]
pub struct Held {
    /// Behind those that a read gives stand the ones that a cut took off.
    bytes: Vec<u8>,
    size: usize,
    /// What each write overwrote, and what each that failed would have written.
    saved: Vec<u8>,
}

impl Model for Held {
    ghost use Rattle.std.specs.Prelude.{◌≤◌, ◌-◌, length, min, vec_len, vec_capacity};
    ghost use Rattle.mn_memdisk.specs.Held.{HeldState};

    ghost Value = { HeldState };

    ghost view = { λ h. record {
      held = record { bytes = h.bytes.items; size = h.size; saved = h.saved.items };
      room = min (vec_capacity h.saved - vec_len h.saved) (vec_capacity h.bytes - vec_len h.bytes);
    } };

    ghost invariant = { λ h. h.size ≤ length h.bytes.items };
}

impl Held {
    /// These bytes, before any change. It takes no memory.
    pub fn new(bytes: Vec<u8>) -> Held
        ensures { result.held ≡ record {
          bytes = bytes.items;
          size = length bytes.items;
          saved = [];
        } }
    {
        let alloc = *bytes.allocator();
        Held {
            size: bytes.len(),
            bytes,
            saved: Vec::new(alloc),
        }
    }

    /// What a read gives.
    pub fn content(&self) -> &[u8]
        ensures { result.now ≡ shown self.now.held }
    {
        &self.bytes[..self.size]
    }

    /// What a read gives, and nothing else.
    pub fn into_content(self) -> Vec<u8>
        ensures { result.items ≡ shown self.held }
    {
        let Held {
            mut bytes,
            size,
            saved: _saved,
        } = self;
        bytes.truncate(size);
        bytes
    }

    /// Writes a piece over the bytes and past their end. The bytes that it overwrites are saved.
    pub fn write(&mut self, at: u64, piece: &[u8]) -> Change
        requires within { at ≤ length (shown self.old.held) }
        requires room { length piece.now ≤ self.old.room }
        ensures follows { Follows result (write at piece.now) self.old.held self.new.held }
        ensures room { self.old.room ≤ self.new.room + length piece.now }
    {
        let count = piece.len();
        let start = at as usize;
        let over = count.min(self.bytes.len() - start);
        append(&mut self.saved, &self.bytes[start..start + over]);
        overwrite(&mut self.bytes, start, piece);
        let before = self.size;
        self.size = before.max(start + count);
        Change::Wrote {
            at,
            count,
            grown: count - over,
            before,
        }
    }

    /// Saves a piece whose write failed.
    pub fn lose(&mut self, at: u64, piece: &[u8]) -> Change
        requires { length piece.now ≤ self.old.room }
        ensures follows { Follows result (lost_write at piece.now) self.old.held self.new.held }
        ensures room { self.old.room ≤ self.new.room + length piece.now }
    {
        self.saved.extend_from_slice(piece).unwrap();
        Change::LostWrite {
            at,
            count: piece.len(),
        }
    }

    /// Cuts it to a length. The bytes behind stay, for they may be asked for again.
    pub fn cut(&mut self, length: u64) -> Change
        ensures follows { Follows result (shorten length) self.old.held self.new.held }
        ensures room { self.new.room ≡ self.old.room }
    {
        let before = self.size;
        self.size = before.min(length as usize);
        Change::Shortened { length, before }
    }

    /// The bytes that its newest change was to write.
    pub fn piece(&self, newest: Change) -> &[u8]
        requires { Fits newest self.now.held }
        ensures { result.now ≡ piece_of self.now.held newest }
    {
        match newest {
            Change::Wrote { at, count, .. } => &self.bytes[at as usize..at as usize + count],
            Change::LostWrite { count, .. } => &self.saved[self.saved.len() - count..],
            _ => &[],
        }
    }

    /// Undoes its newest change.
    pub fn undo(&mut self, newest: Change)
        requires fits { Fits newest self.old.held }
        requires bounded { IsBounded (undone newest self.old.held) }
        ensures { self.new.held ≡ undone newest self.old.held }
    {
        match newest {
            Change::Wrote {
                at,
                count,
                grown,
                before,
            } => {
                let start = at as usize;
                let over = count - grown;
                let from = self.saved.len() - over;
                self.bytes[start..start + over].copy_from_slice(&self.saved[from..]);
                self.bytes.truncate(self.bytes.len() - grown);
                self.saved.truncate(from);
                self.size = before;
            }
            Change::LostWrite { count, .. } => self.saved.truncate(self.saved.len() - count),
            Change::Shortened { before, .. } => self.size = before,
            Change::LostCut { .. } | Change::Synced => {}
        }
    }

    /// Makes room for so many bytes more. AllocError: there was no memory for it.
    pub fn make_room(&mut self, bytes: usize) -> Result<(), AllocError>
        ensures room { OnOk result (bytes ≤ self.new.room) }
        ensures held { self.new.held ≡ self.old.held }
        ensures no_less { self.old.room ≤ self.new.room }
    {
        make_room(&mut self.saved, bytes, ROOM_FOR_BYTES)?;
        make_room(&mut self.bytes, bytes, ROOM_FOR_BYTES)?;
        Ok(())
    }
}

ghost use Rattle.std.specs.Prelude.{◌≡◌};

use crate::{Bytes, Calls, Failed, Source};
use std::marker::Model;

/// A source over bytes in memory. A call of it fails exactly where its number is in a list.
#[derive(Debug, Drop)]
pub struct MemorySource {
    bytes: Bytes,
    at: usize,
    calls: u64,
    fails: Calls,
    faults: u64,
}

impl Model for MemorySource {
    ghost use Rattle.std.specs.Prelude.{◌≤◌, length, drop};
    ghost use Rattle.mn_io.specs.Memory.{SourceState};

    ghost Value = { SourceState };

    ghost view = { λ s. record {
      rest = drop s.at s.bytes;
      calls = s.calls;
      fails = s.fails;
      faults = s.faults;
    } };

    ghost invariant = { λ s. s.at ≤ length s.bytes };
}

impl MemorySource {
    /// A source of these bytes, none of which is read yet. The calls in `fails` will fail.
    pub fn new(bytes: Bytes, fails: Calls) -> Self
        ensures { result ≡ record { rest = bytes; calls = 0; fails = fails; faults = 0 } }
    {
        MemorySource {
            bytes,
            at: 0,
            calls: 0,
            fails,
            faults: 0,
        }
    }
}

impl Source for MemorySource {
    ghost use Rattle.std.specs.Prelude.{◌≡◌, Some, IsErr, IfOk, IsTrue, ◌↔◌, length, min};
    ghost use Rattle.std.specs.Io.{ReadsAtMost};
    ghost use Rattle.std.specs.Io.KnownBytes.{ReadConsumes};
    ghost use Rattle.mn_io.specs.Faults.{HasCause, next_count};
    ghost use Rattle.mn_io.specs.Memory.{is_one_of, counted};

    ghost remaining = { λ s. Some s.rest };

    ghost faults = { λ s. s.faults };

    fn read(&mut self, into: &mut [u8]) -> Result<usize, Failed>
        ensures bound { ReadsAtMost result into.new }
        ensures bytes { ReadConsumes (Some self.old.rest) (Some self.new.rest) result into.new }
        ensures cause { HasCause self.old.faults self.new.faults result }

        // It fails, and counts a fault, exactly at the calls of its list; else it gives as much as
        // fits.
        ensures exact { IsErr result ↔ IsTrue (is_one_of self.old.calls self.old.fails) }
        ensures full { IfOk result (λ n. n ≡ min (length self.old.rest) (length into.old)) }
        ensures faults { self.new.faults
            ≡ counted (is_one_of self.old.calls self.old.fails) self.old.faults }
        ensures calls { self.new.calls ≡ next_count self.old.calls }
        ensures fails { self.new.fails ≡ self.old.fails }
    {
        let call = self.calls;
        self.calls = self.calls.saturating_add(1);
        if self.fails.as_slice().contains(&call) {
            self.faults = self.faults.saturating_add(1);
            return Err(Failed);
        }
        let rest = &self.bytes.as_slice()[self.at..];
        let count = rest.len().min(into.len());
        into[..count].copy_from_slice(&rest[..count]);
        self.at += count;
        Ok(count)
    }
}

ghost use Rattle.std.specs.Prelude.{◌≡◌, ◌<◌, ◌≤◌, ℕ, List, Option, length, IfOk, IfSome, OnOk};
ghost use Rattle.std.specs.Prelude.{OnErr, IsErrOf};
ghost use Rattle.std.specs.Io.{ReadsAtMost};
ghost use Rattle.std.specs.Io.KnownBytes.{Consumes, ReadConsumes, IsAtEnd};
ghost use Rattle.mn_io.specs.Faults.{Rose, HasCause};

use crate::{Bytes, Failed, ReadError};
use std::alloc::Global;

/// What is read from, byte after byte.
pub trait Source {
    /// The bytes that are left, where the source tells them.
    ghost remaining: { Self → Option (List ℕ) };

    /// How often it failed.
    ghost faults: { Self → ℕ };

    /// Puts the next bytes at the front of `into`, and says how many they are. 0 for a buffer that
    /// isn't empty is the end. `Failed` comes only where the count of faults rose; no byte is lost
    /// by it.
    fn read(&mut self, into: &mut [u8]) -> Result<usize, Failed>
        ensures bound { ReadsAtMost result into.new }
        ensures bytes { ReadConsumes (remaining self.old) (remaining self.new) result into.new }
        ensures cause { HasCause (faults self.old) (faults self.new) result };
}

/// All bytes that are left, if they are at most `limit`. The memory that it takes grows with what
/// comes.
///
/// `Fault` comes only where the source's count of faults rose, `TooLong` where more than `limit`
/// bytes came. After an error some of the bytes are gone from the front.
pub fn read_all<R: Source>(alloc: Global, source: &mut R, limit: usize) -> Result<Bytes, ReadError>
    // Where the source tells what is left, that is the answer, and nothing is left.
    ensures all { IfOk result (λ bytes. IfSome (R.remaining source.old) (λ rest. bytes ≡ rest)) }
    ensures end { OnOk result (IsAtEnd (R.remaining source.new)) }
    ensures within { IfOk result (λ bytes. length bytes ≤ limit) }
    ensures too_long { IsErrOf result ReadError.TooLong
        → IfSome (R.remaining source.old) (λ rest. limit < length rest) }
    ensures fault { IsErrOf result ReadError.Fault
        → Rose (R.faults source.old) (R.faults source.new) }
    ensures later { R.faults source.old ≤ R.faults source.new }
    ensures err { OnErr result ((taken : List ℕ)
        × Consumes (R.remaining source.old) (R.remaining source.new) taken) }
{
    let mut bytes = Vec::new(alloc);
    let mut piece = [0u8; 4096];
    while bytes.len() <= limit {
        let count = source.read(&mut piece)?;
        if count == 0 {
            return Ok(Bytes::from_vec(bytes));
        }
        bytes.extend_from_slice(&piece[..count])?;
    }
    Err(ReadError::TooLong)
}

ghost use Rattle.std.specs.Prelude.{◌≡◌, ◌<◌, ◌≤◌, ℕ, List, Option, length, take, IfOk, OnOk};
ghost use Rattle.std.specs.Prelude.{OnErr};
ghost use Rattle.std.specs.Io.{WritesAtMost};
ghost use Rattle.std.specs.Io.KnownBytes.{WriteAppends, Appends};
ghost use Rattle.mn_io.specs.Faults.{HasCause};

use crate::{Failed, Fault};

/// What is written to, byte after byte.
pub trait Sink {
    /// The bytes written so far, where the sink tells them.
    ghost contents: { Self → Option (List ℕ) };

    /// How often it failed.
    ghost faults: { Self → ℕ };

    /// Takes the first bytes of a piece, and says how many: at least one of a piece that isn't
    /// empty. `Failed` comes only where the count of faults rose; no byte is taken then.
    fn write(&mut self, piece: &[u8]) -> Result<usize, Failed>
        ensures bound { WritesAtMost result piece.now }
        ensures some { 0 < length piece.now → IfOk result (λ n. 0 < n) }
        ensures bytes { WriteAppends (contents self.old) (contents self.new) result piece.now }
        ensures cause { HasCause (faults self.old) (faults self.new) result };
}

/// Writes all of the bytes. `Fault` comes only where the sink's count of faults rose; a prefix of
/// the bytes stands then.
pub fn write_all<W: Sink>(sink: &mut W, bytes: &[u8]) -> Result<(), Fault>
    ensures all { OnOk result (Appends (W.contents sink.old) (W.contents sink.new) bytes.now) }
    ensures prefix { OnErr result
        ((n : ℕ) × Appends (W.contents sink.old) (W.contents sink.new) (take n bytes.now)) }
    ensures cause { HasCause (W.faults sink.old) (W.faults sink.new) result }
{
    let mut written = 0;
    while written < bytes.len() {
        written += sink.write(&bytes[written..])?;
    }
    Ok(())
}

ghost use Rattle.std.specs.Io.{ReadsAtMost};
ghost use Rattle.std.specs.Io.KnownBytes.{ReadConsumes};

use mn_io::{Failed, Source};
use std::io::{ErrorKind, Read};

/// One read. Where a signal interrupts it nothing was read, and it is tried again.
fn read_through<R: Read>(reader: &mut R, into: &mut [u8]) -> Result<usize, Failed>
    ensures bound { ReadsAtMost result into.new }
    ensures bytes { ReadConsumes (R.remaining reader.old) (R.remaining reader.new) result into.new }
{
    for _ in 0..u64::MAX {
        match reader.read(into) {
            Ok(count) => return Ok(count),
            Err(error) => {
                if error.kind() != ErrorKind::Interrupted {
                    return Err(Failed);
                }
            }
        }
    }
    Err(Failed)
}

/// A source over a reader, as standard input. A read that a signal interrupts is no failure.
#[derive(Drop)]
pub struct StdSource<R: Read> {
    reader: R,
    faults: u64,
}

impl<R: Read> StdSource<R> {
    pub fn new(reader: R) -> Self {
        StdSource { reader, faults: 0 }
    }

    /// How often it failed.
    pub fn faults(&self) -> u64 {
        self.faults
    }
}

impl<R: Read> Source for StdSource<R> {
    ghost remaining = { λ s. R.remaining s.reader };

    ghost faults = { λ s. s.faults };

    fn read(&mut self, into: &mut [u8]) -> Result<usize, Failed> {
        let result = read_through(&mut self.reader, into);
        if result.is_err() {
            self.faults = self.faults.saturating_add(1);
        }
        result
    }
}

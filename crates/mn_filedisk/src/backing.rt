ghost use Rattle.std.specs.Prelude.{◌≡◌, false, true, IsErr, IsNone, IsOk, IfOk};
ghost use Rattle.std.specs.Io.{ReadsAtMost};

use mn_io::Failed;
use std::fs::OpenFile;
use std::io::ErrorKind;
use std::os::unix::fs::FileExt;

/// What stands behind a disk: a file, or none. Once it is lost each call fails.
#[derive(Drop)]
pub struct Backing<F: FileExt + OpenFile + Drop> {
    pub file: Option<F>,
    pub is_lost: bool,
}

/// Reads until the buffer is full or the file ends: a read that gives less than was asked for
/// isn't the end. Where a signal interrupts it, it is tried again.
fn read_through<F: FileExt>(file: &F, at: u64, into: &mut [u8]) -> Result<usize, Failed>
    ensures { ReadsAtMost result into.new }
{
    let mut count = 0;
    for _ in 0..u64::MAX {
        if count == into.len() {
            return Ok(count);
        }
        match file.read_at(&mut into[count..], at.saturating_add(count as u64)) {
            Ok(0) => return Ok(count),
            Ok(more) => count += more,
            Err(error) => {
                if error.kind() != ErrorKind::Interrupted {
                    return Err(Failed);
                }
            }
        }
    }
    Err(Failed)
}

impl<F: FileExt + OpenFile + Drop> Backing<F> {
    /// How many bytes it has: none without a file.
    pub fn length(&self) -> Result<u64, Failed>
        ensures lost { self.now.is_lost ≡ true → IsErr result }
        ensures none { IsNone self.now.file → IfOk result (λ n. n ≡ 0) }
        ensures there { IsNone self.now.file → self.now.is_lost ≡ false → IsOk result }
    {
        if self.is_lost {
            return Err(Failed);
        }
        match &self.file {
            None => Ok(0),
            Some(file) => match file.metadata() {
                Ok(metadata) => Ok(metadata.len()),
                Err(_) => Err(Failed),
            },
        }
    }

    /// Reads what is there from a place on: nothing without a file.
    pub fn read(&self, at: u64, into: &mut [u8]) -> Result<usize, Failed>
        ensures bound { ReadsAtMost result into.new }
        ensures lost { self.now.is_lost ≡ true → IsErr result }
        ensures none { IsNone self.now.file → IfOk result (λ n. n ≡ 0) }
        ensures there { IsNone self.now.file → self.now.is_lost ≡ false → IsOk result }
    {
        if self.is_lost {
            return Err(Failed);
        }
        match &self.file {
            None => Ok(0),
            Some(file) => read_through(file, at, into),
        }
    }

    /// Writes a piece: it fails without a file.
    pub fn write(&self, at: u64, piece: &[u8]) -> Result<(), Failed>
        ensures lost { self.now.is_lost ≡ true → IsErr result }
        ensures none { IsNone self.now.file → IsErr result }
    {
        if self.is_lost {
            return Err(Failed);
        }
        match &self.file {
            None => Err(Failed),
            Some(file) => file.write_all_at(piece, at).map_err(|_| Failed),
        }
    }

    /// Cuts it to a length: it fails without a file.
    pub fn cut(&self, length: u64) -> Result<(), Failed>
        ensures lost { self.now.is_lost ≡ true → IsErr result }
        ensures none { IsNone self.now.file → IsErr result }
    {
        if self.is_lost {
            return Err(Failed);
        }
        match &self.file {
            None => Err(Failed),
            Some(file) => file.set_len(length).map_err(|_| Failed),
        }
    }

    /// Makes its bytes and its length stable: without a file there is nothing to do.
    pub fn sync(&self) -> Result<(), Failed>
        ensures lost { self.now.is_lost ≡ true → IsErr result }
        ensures there { IsNone self.now.file → self.now.is_lost ≡ false → IsOk result }
    {
        if self.is_lost {
            return Err(Failed);
        }
        match &self.file {
            None => Ok(()),
            Some(file) => file.sync_data().map_err(|_| Failed),
        }
    }
}

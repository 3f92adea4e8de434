use crate::backing::Backing;
use mn_io::{Disk, Failed, NoMemory};
use std::fs::{File, OpenFile};
use std::marker::Model;
use std::os::unix::fs::FileExt;

/// A disk over a file. It tells no content: what it reads and keeps is what the system's file does.
pub type FileDisk = DiskOver<File>;

/// A disk over what is read, written, cut and synced as a file is.
///
/// A write, a cut or a sync that failed loses it: each later call fails until the file is opened
/// again. What the system still holds of the change may be read then, and is gone after a crash.
#[derive(Drop)]
pub struct DiskOver<F: FileExt + OpenFile + Drop> {
    backing: Backing<F>,
    faults: u64,
}

impl<F: FileExt + OpenFile + Drop> Model for DiskOver<F> {
    ghost use Rattle.std.specs.Prelude.{is_some};
    ghost use Rattle.mn_filedisk.specs.File.{FileState};

    ghost Value = { FileState };

    ghost view = { λ d. record {
      has_file = is_some d.backing.file;
      is_lost = d.backing.is_lost;
      faults = d.faults;
    } };
}

impl<F: FileExt + OpenFile + Drop> DiskOver<F> {
    ghost use Rattle.std.specs.Prelude.{◌≡◌, ◌≤◌, ◌&&◌, false, true, is_some, not};
    ghost use Rattle.mn_io.specs.Faults.{next_count};

    /// A disk over a file. `None` is a file that couldn't be opened: each call fails.
    pub fn new(file: Option<F>) -> Self
        ensures { result ≡ record {
          has_file = is_some file;
          is_lost = not (is_some file);
          faults = 0;
        } }
    {
        DiskOver {
            backing: Backing {
                is_lost: file.is_none(),
                file,
            },
            faults: 0,
        }
    }

    /// A disk that is only read, whose file isn't there: it has no bytes. A sync of it succeeds,
    /// since there is nothing to do; a write and a cut fail.
    pub fn missing() -> Self
        ensures { result ≡ record {
          has_file = false;
          is_lost = false;
          faults = 0;
        } }
    {
        DiskOver {
            backing: Backing {
                file: None,
                is_lost: false,
            },
            faults: 0,
        }
    }

    /// Takes a file, which was made by now. `None` is one that couldn't be made: each later call
    /// fails.
    pub(crate) fn take(&mut self, file: Option<F>)
        ensures { self.new ≡ record {
          has_file = is_some file;
          is_lost = not (is_some file);
          faults = self.old.faults;
        } }
    {
        self.backing.is_lost = file.is_none();
        self.backing.file = file;
    }

    /// Whether it has neither a file nor failed in a change: its file is missing.
    pub(crate) fn is_missing(&self) -> bool
        ensures { result ≡ not self.now.has_file && not self.now.is_lost }
    {
        self.backing.file.is_none() && !self.backing.is_lost
    }

    /// How many calls failed. The count stays at its last value.
    pub fn faults(&self) -> u64
        ensures { result ≡ self.now.faults }
    {
        self.faults
    }

    /// Counts a change that failed; each later call fails.
    fn lose(&mut self)
        ensures file { self.new.has_file ≡ self.old.has_file }
        ensures lost { self.new.is_lost ≡ true }
        ensures faults { self.new.faults ≡ next_count self.old.faults }
        ensures later { self.old.faults ≤ self.new.faults }
    {
        self.faults = self.faults.saturating_add(1);
        self.backing.is_lost = true;
    }
}

impl<F: FileExt + OpenFile + Drop> Disk for DiskOver<F> {
    ghost use Rattle.std.specs.Prelude.{◌≡◌, ◌≤◌, ◌^◌, false, true, IfOk, OnOk, IsOk, IsErr};
    ghost use Rattle.std.specs.Io.{ReadsAtMost};
    ghost use Rattle.mn_filedisk.specs.File.{untold, HasLooked, HasChanged};
    ghost use Rattle.mn_io.specs.Faults.{HasCause};

    ghost state = { λ _. untold };

    ghost faults = { λ d. d.faults };

    ghost spare_changes = { λ _. 2 ^ 32 };

    ghost spare_bytes = { λ _. 2 ^ 64 };

    ghost is_disk = { λ _ honest. absurd honest };

    fn length(&mut self) -> Result<u64, Failed>
        ensures cause { HasCause self.old.faults self.new.faults result }
        ensures looked { HasLooked self.old self.new result }
        ensures lost { self.old.is_lost ≡ true → IsErr result }
        ensures none { self.old.has_file ≡ false → IfOk result (λ n. n ≡ 0) }
        ensures there { self.old.has_file ≡ false → self.old.is_lost ≡ false → IsOk result }
    {
        let result = self.backing.length();
        if result.is_err() {
            self.faults = self.faults.saturating_add(1);
        }
        result
    }

    fn read(&mut self, at: u64, into: &mut [u8]) -> Result<usize, Failed>
        ensures bound { ReadsAtMost result into.new }
        ensures cause { HasCause self.old.faults self.new.faults result }
        ensures looked { HasLooked self.old self.new result }
        ensures lost { self.old.is_lost ≡ true → IsErr result }
        ensures none { self.old.has_file ≡ false → IfOk result (λ n. n ≡ 0) }
        ensures there { self.old.has_file ≡ false → self.old.is_lost ≡ false → IsOk result }
    {
        let result = self.backing.read(at, into);
        if result.is_err() {
            self.faults = self.faults.saturating_add(1);
        }
        result
    }

    fn write_at(&mut self, at: u64, piece: &[u8]) -> Result<(), Failed>
        ensures cause { HasCause self.old.faults self.new.faults result }
        ensures changed { HasChanged self.old self.new result }
        ensures lost { self.old.is_lost ≡ true → IsErr result }
        ensures none { self.old.has_file ≡ false → IsErr result }
    {
        let result = self.backing.write(at, piece);
        if result.is_err() {
            self.lose();
        }
        result
    }

    fn cut(&mut self, length: u64) -> Result<(), Failed>
        ensures cause { HasCause self.old.faults self.new.faults result }
        ensures changed { HasChanged self.old self.new result }
        ensures lost { self.old.is_lost ≡ true → IsErr result }
        ensures none { self.old.has_file ≡ false → IsErr result }
    {
        let result = self.backing.cut(length);
        if result.is_err() {
            self.lose();
        }
        result
    }

    fn sync(&mut self) -> Result<(), Failed>
        ensures cause { HasCause self.old.faults self.new.faults result }
        ensures changed { HasChanged self.old self.new result }
        ensures lost { self.old.is_lost ≡ true → IsErr result }
        ensures there { self.old.has_file ≡ false → self.old.is_lost ≡ false → IsOk result }
    {
        let result = self.backing.sync();
        if result.is_err() {
            self.lose();
        }
        result
    }

    /// It takes no memory, so there is always room.
    fn make_room(&mut self, changes: u32, bytes: usize) -> Result<(), NoMemory>
        ensures room_changes { OnOk result (changes ≤ 2 ^ 32) }
        ensures room_bytes { OnOk result (bytes ≤ 2 ^ 64) }
        ensures always { IsOk result }
        ensures same { self.new ≡ self.old }
    {
        let _room = (changes, bytes);
        Ok(())
    }
}

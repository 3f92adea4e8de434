use crate::file_disk::FileDisk;
use crate::opening::{disk_at, new_file};
use mn_io::{Disk, Failed, NoMemory};
use std::fs::File;
use std::marker::Model;
use std::rt::Files;

/// The disk of a node over the file at a path.
///
/// Where it is written, a file that is missing is made by the first cut, with which each log
/// begins. Until then, as ever where it is only read, it has no bytes; a sync of it succeeds, since
/// there is nothing to do, and a write fails.
#[derive(Drop)]
pub struct NodeFile<R: Files<File = File> + Drop> {
    files: R,
    path: String,
    disk: FileDisk,
    is_written: bool,
}

impl<R: Files<File = File> + Drop> Model for NodeFile<R> {
    ghost use Rattle.mn_filedisk.specs.File.{NodeFileState};

    ghost Value = { NodeFileState };

    ghost view = { λ d. record { file = d.disk; is_written = d.is_written } };
}

impl<R: Files<File = File> + Drop> NodeFile<R> {
    ghost use Rattle.std.specs.Prelude.{◌≡◌, false, true};

    /// A disk that is read and written. A file that is there is opened now.
    ///
    /// Each call fails where the folder is missing, where the file can't be read and written, where
    /// something else than a regular file stands there, and where another disk has it open.
    pub fn to_write(files: R, path: String) -> Self
        ensures new { result.file.faults ≡ 0 }
        ensures written { result.is_written ≡ true }
    {
        NodeFile {
            disk: disk_at(&files, path.as_str(), true),
            files,
            path,
            is_written: true,
        }
    }

    /// A disk that is only read: a write and a cut of it fail, and no file is made.
    ///
    /// Each call fails where the folder is missing, where the file can't be read, where something
    /// else than a regular file stands there, and where another disk has it open for writing.
    pub fn to_read(files: R, path: String) -> Self
        ensures new { result.file.faults ≡ 0 }
        ensures only_read { result.is_written ≡ false }
    {
        NodeFile {
            disk: disk_at(&files, path.as_str(), false),
            files,
            path,
            is_written: false,
        }
    }

    /// How many calls failed. The count stays at its last value.
    pub fn faults(&self) -> u64
        ensures { result ≡ self.now.file.faults }
    {
        self.disk.faults()
    }
}

impl<R: Files<File = File> + Drop> Disk for NodeFile<R> {
    ghost use Rattle.std.specs.Prelude.{◌≡◌, ◌≤◌, ◌^◌, false, true, OnOk, IsErr};
    ghost use Rattle.std.specs.Io.{ReadsAtMost};
    ghost use Rattle.mn_filedisk.specs.File.{untold, HasLooked, HasChanged};
    ghost use Rattle.mn_io.specs.Faults.{HasCause};

    ghost state = { λ _. untold };

    ghost faults = { λ d. d.file.faults };

    ghost spare_changes = { λ _. 2 ^ 32 };

    ghost spare_bytes = { λ _. 2 ^ 64 };

    ghost is_disk = { λ _ honest. absurd honest };

    fn length(&mut self) -> Result<u64, Failed>
        ensures cause { HasCause self.old.file.faults self.new.file.faults result }
        ensures looked { HasLooked self.old.file self.new.file result }
        ensures same { self.new.is_written ≡ self.old.is_written }
    {
        self.disk.length()
    }

    fn read(&mut self, at: u64, into: &mut [u8]) -> Result<usize, Failed>
        ensures bound { ReadsAtMost result into.new }
        ensures cause { HasCause self.old.file.faults self.new.file.faults result }
        ensures looked { HasLooked self.old.file self.new.file result }
        ensures same { self.new.is_written ≡ self.old.is_written }
    {
        self.disk.read(at, into)
    }

    fn write_at(&mut self, at: u64, piece: &[u8]) -> Result<(), Failed>
        ensures cause { HasCause self.old.file.faults self.new.file.faults result }
        ensures changed { HasChanged self.old.file self.new.file result }
        ensures none { self.old.file.has_file ≡ false → IsErr result }
        ensures same { self.new.is_written ≡ self.old.is_written }
    {
        self.disk.write_at(at, piece)
    }

    fn cut(&mut self, length: u64) -> Result<(), Failed>
        ensures cause { HasCause self.old.file.faults self.new.file.faults result }
        ensures lost { self.old.file.is_lost ≡ true → IsErr result }
        ensures only_read { self.old.is_written ≡ false → self.old.file.has_file ≡ false
            → IsErr result }
        ensures same { self.new.is_written ≡ self.old.is_written }
    {
        if self.is_written && self.disk.is_missing() {
            self.disk.take(new_file(&self.files, self.path.as_str()));
        }
        self.disk.cut(length)
    }

    fn sync(&mut self) -> Result<(), Failed>
        ensures cause { HasCause self.old.file.faults self.new.file.faults result }
        ensures changed { HasChanged self.old.file self.new.file result }
        ensures same { self.new.is_written ≡ self.old.is_written }
    {
        self.disk.sync()
    }

    /// It takes no memory, so there is always room.
    fn make_room(&mut self, changes: u32, bytes: usize) -> Result<(), NoMemory>
        ensures room_changes { OnOk result (changes ≤ 2 ^ 32) }
        ensures room_bytes { OnOk result (bytes ≤ 2 ^ 64) }
        ensures same { self.new ≡ self.old }
    {
        let _room = (changes, bytes);
        Ok(())
    }
}

//! How a node's file is opened. A file that can't be opened gives a disk whose calls all fail.
ghost use Rattle.std.specs.Prelude.{◌≡◌, ◌↔◌, false, true, IsTrue};

use crate::file_disk::FileDisk;
use std::fs;
use std::fs::{File, TryLockError};
use std::io::ErrorKind;
use std::rt::Files;

/// What stands at a path.
#[derive(Clone, Copy, Debug, PartialEq, Eq)]
enum Found {
    File,
    Nothing,
    /// Something that isn't a regular file, or nobody knows what.
    Other,
}

/// The folder that a path stands in.
fn folder_of(path: &str) -> &str {
    match path.rsplit_once('/') {
        None => ".",
        Some((folder, _)) => { if folder.is_empty() { "/" } else { folder } }
    }
}

/// What stands at a path, before it is opened: opening a pipe may wait for its other end.
fn look<R: Files>(files: &R, path: &str) -> Found {
    match fs::metadata(files, path) {
        Ok(metadata) => {
            if metadata.is_file() {
                Found::File
            } else {
                Found::Other
            }
        }
        Err(error) => {
            if error.kind() == ErrorKind::NotFound {
                Found::Nothing
            } else {
                Found::Other
            }
        }
    }
}

/// Whether a folder stands at a path.
fn is_folder<R: Files>(files: &R, path: &str) -> bool {
    match fs::metadata(files, path) {
        Ok(metadata) => metadata.is_dir(),
        Err(_) => false,
    }
}

/// Makes the names in a folder stable.
fn sync_folder<R: Files<File = File>>(files: &R, path: &str) -> Option<()> {
    let folder = File::open(files, path).ok()?;
    folder.sync_all().ok()
}

/// Whether a lock that was tried keeps others out. A file system may have none.
fn is_locked(tried: Result<(), TryLockError>) -> bool {
    match tried {
        Ok(()) => true,
        Err(TryLockError::WouldBlock) => false,
        Err(TryLockError::Error(error)) => error.kind() == ErrorKind::Unsupported,
    }
}

/// The file that stands at a path, to be read and written at once, which nobody else has open by
/// this crate.
fn file_to_write<R: Files<File = File>>(files: &R, path: &str) -> Option<File> {
    let file = File::options()
        .read(true)
        .write(true)
        .open(files, path)
        .ok()?;
    let is_file = file.metadata().ok()?.is_file();
    if !is_file || !is_locked(file.try_lock()) {
        return None;
    }

    // Whoever made it may have been stopped in front of this.
    sync_folder(files, folder_of(path))?;
    Some(file)
}

/// A file that is made at a path at which nothing stands, and stays after a crash.
pub fn new_file<R: Files<File = File>>(files: &R, path: &str) -> Option<File> {
    let file = File::options()
        .read(true)
        .write(true)
        .create_new(true)
        .open(files, path)
        .ok()?;
    if !is_locked(file.try_lock()) {
        return None;
    }
    sync_folder(files, folder_of(path))?;
    Some(file)
}

/// A file to be read, which nobody has open for writing by this crate.
fn file_to_read<R: Files<File = File>>(files: &R, path: &str) -> Option<File> {
    let file = File::open(files, path).ok()?;
    let is_file = file.metadata().ok()?.is_file();
    if !is_file || !is_locked(file.try_lock_shared()) {
        return None;
    }
    Some(file)
}

/// A disk over the file at a path, whose folder is there: one that is missing has no bytes, and is
/// only read. Each call fails where the file can't be opened.
pub fn disk_at<R: Files<File = File>>(files: &R, path: &str, is_written: bool) -> FileDisk
    ensures new { result.faults ≡ 0 }
{
    match look(files, path) {
        Found::File if is_written => FileDisk::new(file_to_write(files, path)),
        Found::File => FileDisk::new(file_to_read(files, path)),
        Found::Nothing if is_folder(files, folder_of(path)) => FileDisk::missing(),
        _ => FileDisk::new(None),
    }
}

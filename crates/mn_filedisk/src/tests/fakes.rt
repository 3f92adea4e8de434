//! A disk over a file that is slow, is interrupted and fails.
use crate::DiskOver;
use mn_io::{Disk, Failed};
use std::cell::Cell;
use std::fs::{Metadata, OpenFile};
use std::io::{Error, ErrorKind};
use std::os::unix::fs::FileExt;
use std::test::Fail;

const BYTES: &[u8] = b"abcdef";

/// A file of six bytes. Each second call that reads or writes is interrupted, from the first one
/// on; the others do at most two bytes. One of these calls fails, and maybe each sync and cut.
#[derive(Drop)]
struct Slow {
    calls: Cell<u32>,
    fails: u32,
    is_broken: bool,
    written: Cell<usize>,
}

impl Slow {
    fn new(fails: u32, is_broken: bool) -> Slow {
        Slow {
            calls: Cell::new(0),
            fails,
            is_broken,
            written: Cell::new(0),
        }
    }

    fn call(&self) -> std::io::Result<()> {
        let call = self.calls.get();
        self.calls.set(call.saturating_add(1));
        if call == self.fails {
            return Err(Error::from(ErrorKind::StorageFull));
        }
        if call % 2 == 0 {
            return Err(Error::from(ErrorKind::Interrupted));
        }
        Ok(())
    }

    fn keep(&self) -> std::io::Result<()> {
        if self.is_broken {
            return Err(Error::from(ErrorKind::StorageFull));
        }
        Ok(())
    }
}

impl FileExt for Slow {
    fn read_at(&self, into: &mut [u8], at: u64) -> std::io::Result<usize> {
        self.call()?;
        let rest = &BYTES[BYTES.len().min(at as usize)..];
        let count = rest.len().min(into.len()).min(2);
        into[..count].copy_from_slice(&rest[..count]);
        Ok(count)
    }

    fn write_at(&self, piece: &[u8], _at: u64) -> std::io::Result<usize> {
        self.call()?;
        let count = piece.len().min(2);
        self.written.set(self.written.get().saturating_add(count));
        Ok(count)
    }
}

impl OpenFile for Slow {
    fn metadata(&self) -> std::io::Result<Metadata> {
        Ok(Metadata::of_file(6))
    }

    fn set_len(&self, _size: u64) -> std::io::Result<()> {
        self.keep()
    }

    fn sync_all(&self) -> std::io::Result<()> {
        self.keep()
    }

    fn sync_data(&self) -> std::io::Result<()> {
        self.keep()
    }
}

#[test]
fn short_and_interrupted_calls_go_on(rt: HostRuntime) -> Result<(), Fail> {
    let mut disk = DiskOver::new(Some(Slow::new(u32::MAX, false)));
    let mut into = [0; 8];
    assert!(rt; disk.read(1, &mut into) == Ok(5) && into == *b"bcdef\0\0\0");
    assert!(rt; disk.read(9, &mut into) == Ok(0));
    assert!(rt; disk.write_at(6, b"ghijk") == Ok(()));
    assert!(rt; disk.cut(3) == Ok(()) && disk.sync() == Ok(()));
    assert!(rt; disk.length() == Ok(6) && disk.faults() == 0);
    Ok(())
}

#[test]
fn a_read_that_fails_in_its_midst_counts_once(rt: HostRuntime) -> Result<(), Fail> {
    let mut disk = DiskOver::new(Some(Slow::new(3, false)));
    let mut into = [0; 8];
    assert!(rt; disk.read(0, &mut into) == Err(Failed) && disk.faults() == 1);
    assert!(rt; disk.read(0, &mut into) == Ok(6) && disk.faults() == 1);
    Ok(())
}

/// Whether each call of a disk fails, and is counted once.
fn is_lost(disk: &mut DiskOver<Slow>) -> bool {
    let before = disk.faults();
    let mut into = [0; 8];
    let reads = disk.length().is_ok() || disk.read(0, &mut into).is_ok();
    let writes = disk.write_at(0, b"x").is_ok() || disk.cut(0).is_ok();
    !reads && !writes && disk.sync().is_err() && disk.faults() == before.saturating_add(5)
}

#[test]
fn a_change_that_fails_loses_the_disk(rt: HostRuntime) -> Result<(), Fail> {
    let mut disk = DiskOver::new(Some(Slow::new(3, false)));
    assert!(rt; disk.write_at(0, b"abcd") == Err(Failed) && disk.faults() == 1);
    assert!(rt; is_lost(&mut disk));
    let mut disk = DiskOver::new(Some(Slow::new(u32::MAX, true)));
    assert!(rt; disk.sync() == Err(Failed) && disk.faults() == 1);
    assert!(rt; is_lost(&mut disk));
    let mut disk = DiskOver::new(Some(Slow::new(u32::MAX, true)));
    assert!(rt; disk.cut(3) == Err(Failed) && disk.faults() == 1);
    assert!(rt; is_lost(&mut disk));
    assert!(rt; is_lost(&mut DiskOver::new(None)));
    Ok(())
}

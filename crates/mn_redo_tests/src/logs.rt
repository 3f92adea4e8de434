//! Logs of node 1 of two on disks in memory, whose bodies are those of one list.
ghost use Rattle.std.specs.Prelude.{◌≡◌, ◌≢◌, true, IfOk};
ghost use Rattle.mn_redo.specs.declared.redo.Phase.TheVariants.{Closing, Started};

use mn_base::NodeNo;
use mn_io::{Bytes, Calls};
use mn_memdisk::MemoryDisk;
use mn_redo::Redo;
use std::alloc::Global;
use std::test::Fail;

/// The body of this number in every list of these tests. One is empty.
pub fn body(number: u32) -> &'static [u8] {
    match number {
        0 => b"first",
        1 => b"",
        2 => b"third",
        _ => b"more",
    }
}

/// A disk of these bytes whose calls in the list fail.
pub fn disk_of(alloc: Global, content: &[u8], fails: &[u64]) -> Result<MemoryDisk, Fail> {
    let content = Bytes::from_vec(content.to_vec(alloc)?);
    let fails = Calls::from_vec(fails.to_vec(alloc)?);
    Ok(MemoryDisk::new(content, fails))
}

/// The log of a disk of these bytes.
pub fn open(alloc: Global, content: &[u8], fails: &[u64]) -> Result<Redo<MemoryDisk>, Fail>
    ensures going { IfOk result (λ redo. redo.phase ≢ Closing) }
{
    match Redo::open(alloc, disk_of(alloc, content, fails)?, NodeNo(1), 2) {
        Ok(redo) => Ok(redo),
        Err(_failed) => Err(Fail::new("no log")),
    }
}

/// The same with its header.
pub fn start(alloc: Global, content: &[u8], fails: &[u64]) -> Result<Redo<MemoryDisk>, Fail>
    ensures started { IfOk result (λ redo. redo.phase ≡ Started) }
{
    let mut redo = open(alloc, content, fails)?;
    if redo.start().is_err() {
        return Err(Fail::new("no start"));
    }
    Ok(redo)
}

/// Whether the log's bodies are so many of the list.
pub fn has(redo: &Redo<MemoryDisk>, count: u32) -> bool
    requires going { redo.now.phase ≢ Closing }
{
    if redo.count() != count {
        return false;
    }
    for number in 0..count {
        if redo.body(number) != body(number) {
            return false;
        }
    }
    true
}

/// Adds the body of this number, and says whether the disk took it.
pub fn append(redo: &mut Redo<MemoryDisk>, number: u32) -> Result<bool, Fail>
    requires started { redo.old.phase ≡ Started }
    ensures started { IfOk result (λ done. done ≡ true → redo.new.phase ≡ Started) }
{
    let body = body(number);
    if body.len() >= 100 {
        return Err(Fail::new("too long"));
    }
    redo.reserve(1, body.len())?;
    Ok(redo.append(body).is_ok())
}

/// Writes half of that body.
pub fn write_half(redo: &mut Redo<MemoryDisk>, number: u32) -> Result<bool, Fail>
    requires started { redo.old.phase ≡ Started }
{
    let body = body(number);
    if body.len() >= 100 {
        return Err(Fail::new("too long"));
    }
    redo.reserve(1, body.len())?;
    Ok(redo.write_half(body).is_ok())
}

/// The bytes of a disk whose log has so many bodies.
pub fn content_with(alloc: Global, count: u32) -> Result<Vec<u8>, Fail> {
    let mut redo = start(alloc, &[], &[])?;
    for number in 0..count {
        if !append(&mut redo, number)? {
            return Err(Fail::new("no body"));
        }
    }
    Ok(redo.close().content().to_vec(alloc)?)
}

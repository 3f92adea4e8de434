//! A log is started and gets bodies, with a stop at each call of the disk and each outcome of a
//! crash.
ghost use Rattle.std.specs.Prelude.{◌≤◌};

use crate::logs::{append, content_with, disk_of, has, open, start, write_half};
use mn_base::NodeNo;
use mn_memdisk::MemoryDisk;
use mn_redo::{OpenCause, Redo};
use std::alloc::Global;
use std::test::Fail;

/// How many calls an opening makes of a disk.
const OPENING: u64 = 3;

/// The numbers of the calls behind an opening at which a disk may fail: the last of them is above
/// those of a start and of an append.
const CALLS: u64 = 8;

/// How many choices of a crash there are for the changes of two calls.
const CHOICES: u64 = 16;

/// Whether a disk as a crash left it has a log with so many bodies, which takes one more.
fn goes_on(alloc: Global, content: &[u8], count: u32) -> Result<bool, Fail>
    requires few { count ≤ 4 }
{
    let mut redo = start(alloc, content, &[])?;
    if redo.is_fresh() || !has(&redo, count) || !append(&mut redo, count)? {
        return Ok(false);
    }
    let disk = redo.close();
    let again = open(alloc, disk.content(), &[])?;
    Ok(!again.is_fresh() && has(&again, count + 1))
}

/// Whether a disk has a log with so many bodies or, where the call was through, with one more.
fn has_either(alloc: Global, content: &[u8], count: u32, done: bool) -> Result<bool, Fail>
    requires few { count ≤ 3 }
{
    let redo = open(alloc, content, &[])?;
    let longer = has(&redo, count + 1);
    if done && !longer {
        return Ok(false);
    }
    goes_on(alloc, content, if longer { count + 1 } else { count })
}

/// Whether the append of a body to so many was through, where a call of this number fails, and
/// each crash then left what it must.
fn append_at(alloc: Global, count: u32, call: u64) -> Result<bool, Fail>
    requires few { count ≤ 3 }
{
    let before = content_with(alloc, count)?;
    let mut through = false;
    for choice in 0..CHOICES {
        let mut redo = start(alloc, &before, &[call])?;
        through = append(&mut redo, count)?;
        let left = redo.close().crash(alloc, choice)?;
        if !has_either(alloc, left.content(), count, through)? {
            return Err(Fail::new("another list"));
        }
    }
    Ok(through)
}

/// At how many of its calls an append to so many bodies stops where the disk fails.
fn append_stops(alloc: Global, count: u32) -> Result<u64, Fail>
    requires few { count ≤ 3 }
{
    let mut stops = 0u64;
    for call in OPENING..OPENING + CALLS {
        if !append_at(alloc, count, call)? {
            stops = stops.saturating_add(1);
        }
    }
    Ok(stops)
}

#[test]
fn a_crash_in_an_append_leaves_the_list_with_the_body_or_without(
    rt: HostRuntime,
) -> Result<(), Fail> {
    // Two writes, each of them synced.
    assert!(rt; append_stops(rt.alloc(), 0)? == 4);
    assert!(rt; append_stops(rt.alloc(), 1)? == 4);
    assert!(rt; append_stops(rt.alloc(), 2)? == 4);
    Ok(())
}

/// Whether half a record was written behind so many bodies, where a call of this number fails, and
/// each crash then left the list without it.
fn half_at(alloc: Global, count: u32, call: u64) -> Result<bool, Fail>
    requires few { count ≤ 3 }
{
    let before = content_with(alloc, count)?;
    let mut through = false;
    for choice in 0..CHOICES {
        let mut redo = start(alloc, &before, &[call])?;
        through = write_half(&mut redo, count)?;
        let left = redo.close().crash(alloc, choice)?;
        if !goes_on(alloc, left.content(), count)? {
            return Err(Fail::new("another list"));
        }
    }
    Ok(through)
}

/// At how many of its calls a half write behind so many bodies stops where the disk fails.
fn half_stops(alloc: Global, count: u32) -> Result<u64, Fail>
    requires few { count ≤ 3 }
{
    let mut stops = 0u64;
    for call in OPENING..OPENING + CALLS {
        if !half_at(alloc, count, call)? {
            stops = stops.saturating_add(1);
        }
    }
    Ok(stops)
}

#[test]
fn half_a_record_is_no_body(rt: HostRuntime) -> Result<(), Fail> {
    assert!(rt; half_stops(rt.alloc(), 0)? == 2);
    assert!(rt; half_stops(rt.alloc(), 1)? == 2);
    assert!(rt; half_stops(rt.alloc(), 2)? == 2);
    Ok(())
}

/// Whether a fresh disk got its header, where a call of this number fails, and each crash then left
/// a disk that is fresh or has the header and no body.
fn start_at(alloc: Global, call: u64) -> Result<bool, Fail> {
    let mut through = false;
    for choice in 0..64 {
        let mut redo = open(alloc, b"rests of something", &[call])?;
        if !redo.is_fresh() {
            return Err(Fail::new("not fresh"));
        }
        through = redo.start().is_ok();
        let left = redo.close().crash(alloc, choice)?;
        let again = open(alloc, left.content(), &[])?;
        if (through && again.is_fresh()) || !goes_on(alloc, left.content(), 0)? {
            return Err(Fail::new("no log"));
        }
    }
    Ok(through)
}

#[test]
fn a_crash_in_a_start_leaves_a_fresh_disk_or_an_empty_log(rt: HostRuntime) -> Result<(), Fail> {
    let mut stops = 0u64;
    for call in OPENING..OPENING + 2 * CALLS {
        if !start_at(rt.alloc(), call)? {
            stops = stops.saturating_add(1);
        }
    }
    // A cut and three writes, each of them synced.
    assert!(rt; stops == 8);
    Ok(())
}

/// Whether a log on whose disk half a record was written is read again without it, and goes on.
fn is_read_again(alloc: Global, count: u32) -> Result<bool, Fail>
    requires few { count ≤ 3 }
{
    let mut redo = start(alloc, &content_with(alloc, count)?, &[])?;
    if !write_half(&mut redo, count)? || redo.reopen(alloc).is_err() || redo.is_fresh() {
        return Ok(false);
    }
    if !has(&redo, count) || redo.start().is_err() || !append(&mut redo, count)? {
        return Ok(false);
    }
    Ok(has(&redo, count + 1))
}

#[test]
fn a_log_is_read_again_as_its_disk_has_it(rt: HostRuntime) -> Result<(), Fail> {
    assert!(rt; is_read_again(rt.alloc(), 0)?);
    assert!(rt; is_read_again(rt.alloc(), 1)?);
    assert!(rt; is_read_again(rt.alloc(), 2)?);
    Ok(())
}

#[test]
fn a_disk_that_fails_as_it_is_read_again_is_a_fault(rt: HostRuntime) -> Result<(), Fail> {
    let content = content_with(rt.alloc(), 2)?;
    for call in OPENING..2 * OPENING {
        let disk = disk_of(rt.alloc(), &content, &[call])?;
        let Ok(mut redo) = Redo::open(rt.alloc(), disk, NodeNo(1), 2) else {
            return Err(Fail::new("no log"));
        };
        assert!(rt; redo.reopen(rt.alloc()) == Err(OpenCause::Fault));
        assert!(rt; redo.close().faults() == 1);
    }
    Ok(())
}

ghost use Rattle.std.specs.Prelude.{◌≡◌, ◌≤◌, length, IfOk};
ghost use Rattle.mn_memdisk.specs.Memory.{state_of};

use crate::{LastCall, MemoryDisk, StopsAfter};
use mn_io::{Bytes, Calls, Disk, Failed, NoMemory};
use std::alloc::Global;
use std::sync::Arc;
use std::test::Fail;

/// A disk of the bytes `abcdef` with room for four changes of eight bytes, whose calls in the list
/// fail.
fn make_disk(alloc: Global, fails: &[u64]) -> Result<MemoryDisk, NoMemory>
    ensures honest { IfOk result (λ disk. (state_of disk).honest) }
    ensures content { IfOk result (λ disk. length disk.content ≡ 6) }
    ensures changes { IfOk result (λ disk. 4 ≤ disk.spare_changes) }
    ensures bytes { IfOk result (λ disk. 8 ≤ disk.spare_bytes) }
{
    let content = Bytes::from_vec([b'a', b'b', b'c', b'd', b'e', b'f'].to_vec(alloc)?);
    let fails = Calls::from_vec(fails.to_vec(alloc)?);
    let mut disk = MemoryDisk::new(content, fails);
    disk.make_room(4, 8)?;
    Ok(disk)
}

/// What a crash leaves of a write of `WXYZ` that wasn't synced, over the disk `abcdef`.
fn crash_in_write(
    alloc: Global,
    at: u64,
    fails: &[u64],
    choice: u64,
) -> Result<MemoryDisk, NoMemory>
    requires { at ≤ 6 }
{
    let mut disk = make_disk(alloc, fails)?;
    let _ = disk.write_at(at, b"WXYZ");
    disk.crash(alloc, choice)
}

/// What a crash leaves of a cut to two bytes that wasn't synced, over the disk `abcdef`.
fn crash_in_cut(alloc: Global, fails: &[u64], choice: u64) -> Result<MemoryDisk, NoMemory> {
    let mut disk = make_disk(alloc, fails)?;
    let _ = disk.cut(2);
    disk.crash(alloc, choice)
}

/// Each call of the list by itself may fail, or none does.
const FAILS: [&[u64]; 2] = [&[], &[0]];

/// Whether a crash in a write at this place leaves these bytes, whether or not its call failed.
fn write_leaves(alloc: Global, at: u64, choice: u64, left: &[u8]) -> Result<bool, NoMemory>
    requires { at ≤ 6 }
{
    for fails in FAILS {
        if crash_in_write(alloc, at, fails, choice)?.content() != left {
            return Ok(false);
        }
    }
    Ok(true)
}

#[test]
fn a_crash_leaves_nothing_all_or_either_half_of_an_unsynced_write(
    rt: HostRuntime,
) -> Result<(), Fail> {
    for (choice, over, behind) in [
        (0, b"abcdef".as_slice(), b"abcdef".as_slice()),
        (1, b"abcdWXYZ".as_slice(), b"abcdefWXYZ".as_slice()),
        (2, b"abcdWX".as_slice(), b"abcdefWX".as_slice()),
        (3, b"abcdefYZ".as_slice(), b"abcdef\0\0YZ".as_slice()),
    ] {
        assert!(rt; write_leaves(rt.alloc(), 4, choice, over)?);
        assert!(rt; write_leaves(rt.alloc(), 6, choice, behind)?);
    }
    Ok(())
}

/// Whether a crash in a cut leaves these bytes, whether or not its call failed.
fn cut_leaves(alloc: Global, choice: u64, left: &[u8]) -> Result<bool, NoMemory> {
    for fails in FAILS {
        if crash_in_cut(alloc, fails, choice)?.content() != left {
            return Ok(false);
        }
    }
    Ok(true)
}

#[test]
fn a_crash_leaves_some_length_between_of_an_unsynced_cut(rt: HostRuntime) -> Result<(), Fail> {
    for (choice, left) in [
        (0, b"abcdef".as_slice()),
        (1, b"ab".as_slice()),
        (2, b"abcd".as_slice()),
        (3, b"abcd".as_slice()),
    ] {
        assert!(rt; cut_leaves(rt.alloc(), choice, left)?);
    }
    Ok(())
}

/// A disk with one change that was synced and two that weren't, or nothing if a call failed.
fn changed_thrice(alloc: Global) -> Result<Option<MemoryDisk>, NoMemory> {
    let mut disk = make_disk(alloc, &[])?;
    let first = disk.write_at(0, b"X").is_ok() && disk.sync().is_ok();
    if !first || disk.write_at(1, b"Y").is_err() || disk.write_at(2, b"Z").is_err() {
        return Ok(None);
    }
    Ok(Some(disk))
}

/// Whether a crash leaves these bytes of it.
fn changes_leave(alloc: Global, choice: u64, left: &[u8]) -> Result<bool, NoMemory> {
    match changed_thrice(alloc)? {
        Some(disk) => Ok(disk.crash(alloc, choice)?.content() == left),
        None => Ok(false),
    }
}

#[test]
fn each_change_has_its_own_outcome_and_a_synced_one_stands(rt: HostRuntime) -> Result<(), Fail> {
    for (choice, left) in [
        (0, b"Xbcdef".as_slice()),
        (1, b"XYcdef".as_slice()),
        (4, b"XbZdef".as_slice()),
        (5, b"XYZdef".as_slice()),
    ] {
        assert!(rt; changes_leave(rt.alloc(), choice, left)?);
    }
    Ok(())
}

#[test]
fn a_disk_fails_at_the_calls_of_its_list(rt: HostRuntime) -> Result<(), Fail> {
    let mut disk = make_disk(rt.alloc(), &[1, 3])?;
    let mut into = [0; 4];
    assert!(rt; disk.length() == Ok(6));
    assert!(rt; disk.read(3, &mut into) == Err(Failed));
    assert!(rt; disk.read(3, &mut into) == Ok(3) && into == *b"def\0");
    assert!(rt; disk.sync() == Err(Failed));
    assert!(rt; disk.sync() == Ok(()) && disk.faults() == 2);
    Ok(())
}

/// What a crash leaves of two disks that are written and then synced in turn, and that stop inside
/// the call of a number.
fn stopped_at(alloc: Global, at: u64, choice: u64) -> Result<(MemoryDisk, MemoryDisk), Fail> {
    let last = LastCall::new(alloc, at)?;
    let mut first = StopsAfter::new(make_disk(alloc, &[])?, Arc::try_clone(&last)?);
    let mut second = StopsAfter::new(make_disk(alloc, &[])?, last);
    let _ = first.write_at(0, b"XX");
    let _ = second.write_at(0, b"YY");
    let _ = first.sync();
    let _ = second.sync();
    Ok((
        first.into_disk().crash(alloc, choice)?,
        second.into_disk().crash(alloc, choice)?,
    ))
}

#[test]
fn a_stop_leaves_what_was_synced_and_any_of_the_rest(rt: HostRuntime) -> Result<(), Fail> {
    for (at, choice, first, second) in [
        (0, 1, b"XXcdef".as_slice(), b"abcdef".as_slice()),
        (0, 2, b"Xbcdef".as_slice(), b"abcdef".as_slice()),
        (1, 0, b"abcdef".as_slice(), b"abcdef".as_slice()),
        (1, 1, b"XXcdef".as_slice(), b"YYcdef".as_slice()),
        (2, 0, b"abcdef".as_slice(), b"abcdef".as_slice()),
        (3, 0, b"XXcdef".as_slice(), b"abcdef".as_slice()),
        (4, 0, b"XXcdef".as_slice(), b"YYcdef".as_slice()),
    ] {
        let left = stopped_at(rt.alloc(), at, choice)?;
        assert!(rt;
            left.0.content() == first && left.1.content() == second,
            "{at} {choice}"
        );
    }
    Ok(())
}

#[test]
fn a_disk_that_has_stopped_fails_at_each_call(rt: HostRuntime) -> Result<(), Fail> {
    let last = LastCall::new(rt.alloc(), 1)?;
    let mut disk = StopsAfter::new(make_disk(rt.alloc(), &[])?, Arc::try_clone(&last)?);
    let mut into = [0; 4];
    assert!(rt; disk.length() == Ok(6) && last.calls() == 1);
    assert!(rt; disk.cut(2) == Err(Failed) && last.calls() == 2);
    assert!(rt; disk.length().is_err() && disk.read(0, &mut into).is_err());
    assert!(rt; disk.sync() == Err(Failed) && disk.faults() == 4);
    assert!(rt; disk.into_disk().content() == b"ab".as_slice());
    Ok(())
}

//! A log on a disk in memory is shortened, with a stop at each call of the disk and each outcome of
//! a crash.
ghost use Rattle.std.specs.Prelude.{◌≡◌, ◌≢◌, ◌≤◌, ◌<◌, ◌+◌, ◌*◌, length, true, IfOk, IfSome};
ghost use Rattle.mn_redo.specs.Grammar.{HaveSizes, total};
ghost use Rattle.mn_redo.specs.declared.redo.Phase.TheVariants.{Closing, Started};

use crate::damaged::damage;
use crate::logs::{open, start};
use mn_io::Bytes;
use mn_memdisk::MemoryDisk;
use mn_redo::Redo;
use std::alloc::Global;
use std::test::Fail;

/// A list with one body of two bytes more.
fn more(alloc: Global, list: Vec<Bytes>, round: u8, number: u8) -> Result<Vec<Bytes>, Fail>
    requires sizes { HaveSizes list.items }
    ensures sizes { IfOk result (λ more. HaveSizes more.items) }
    ensures total { IfOk result (λ more. total more.items ≡ total list.items + 2) }
    ensures count { IfOk result (λ more. length more.items ≡ length list.items + 1) }
{
    let mut list = list;
    list.push(Bytes::from_vec([round, number].to_vec(alloc)?))?;
    Ok(list)
}

/// The bodies of a round: three of two bytes, or fewer in later rounds.
fn bodies(alloc: Global, round: u8) -> Result<Vec<Bytes>, Fail>
    ensures sizes { IfOk result (λ list. HaveSizes list.items) }
    ensures total { IfOk result (λ list. total list.items ≡ 2 * length list.items) }
    ensures few { IfOk result (λ list. length list.items ≤ 3) }
{
    let first = more(alloc, Vec::new(alloc), round, 0)?;
    if round % 3 == 2 {
        return Ok(first);
    }
    let second = more(alloc, first, round, 1)?;
    if round % 3 == 1 {
        return Ok(second);
    }
    more(alloc, second, round, 2)
}

/// Whether the log's bodies are these, and no others.
fn has(redo: &Redo<MemoryDisk>, bodies: &[Bytes]) -> bool
    requires going { redo.now.phase ≢ Closing }
{
    let count = redo.count();
    if count as usize != bodies.len() {
        return false;
    }
    for number in 0..count {
        if redo.body(number) != bodies[number as usize].as_slice() {
            return false;
        }
    }
    true
}

/// Adds a body of fewer than 100 bytes.
fn append(redo: &mut Redo<MemoryDisk>, body: &[u8]) -> Result<bool, Fail>
    requires started { redo.old.phase ≡ Started }
    ensures started { IfOk result (λ done. done ≡ true → redo.new.phase ≡ Started) }
{
    if body.len() >= 100 {
        return Err(Fail::new("too long"));
    }
    redo.reserve(1, body.len())?;
    Ok(redo.append(body).is_ok())
}

/// Puts the list of a round in place of the log's.
fn shorten(alloc: Global, redo: &mut Redo<MemoryDisk>, round: u8) -> Result<bool, Fail>
    requires started { redo.old.phase ≡ Started }
    ensures started { IfOk result (λ done. done ≡ true → redo.new.phase ≡ Started) }
{
    let list = bodies(alloc, round)?;
    redo.reserve(list.len() as u32 + 1, 2 * list.len())?;
    if !redo.can_shorten() {
        return Err(Fail::new("the last number"));
    }
    Ok(redo.shorten(&list).is_ok())
}

/// The bytes of a disk, again.
fn content_of(alloc: Global, redo: Redo<MemoryDisk>) -> Result<Vec<u8>, Fail> {
    Ok(redo.close().content().to_vec(alloc)?)
}

/// Shortens a log to the list of each round up to this one.
fn shorten_to(alloc: Global, redo: &mut Redo<MemoryDisk>, round: u8) -> Result<(), Fail>
    requires started { redo.old.phase ≡ Started }
{
    for later in 1..=round {
        if !shorten(alloc, redo, later)? {
            return Err(Fail::new("not shortened"));
        }
    }
    Ok(())
}

/// The bytes of a disk whose log has the list of this round after as many shortenings.
fn content_after(alloc: Global, round: u8) -> Result<Vec<u8>, Fail> {
    let mut redo = start(alloc, &[], &[])?;
    for number in 0..3u8 {
        if !append(&mut redo, &[0, number])? {
            return Err(Fail::new("no body"));
        }
    }
    shorten_to(alloc, &mut redo, round)?;
    content_of(alloc, redo)
}

/// The list that a log has: that of this round or, unless the call was through, that of the one
/// before.
fn list_of(
    alloc: Global,
    redo: &Redo<MemoryDisk>,
    round: u8,
    done: bool,
) -> Result<Option<Vec<Bytes>>, Fail>
    requires going { redo.now.phase ≢ Closing }
    requires later { 0 < round }
    ensures few { IfOk result (λ list. IfSome list (λ list. length list.items ≤ 3)) }
{
    let new = bodies(alloc, round)?;
    if has(redo, &new) {
        return Ok(Some(new));
    }
    let old = bodies(alloc, round - 1)?;
    if done || !has(redo, &old) {
        return Ok(None);
    }
    Ok(Some(old))
}

/// Whether a log has this list and the body `more` behind it.
fn has_more(alloc: Global, content: &[u8], list: Vec<Bytes>) -> Result<bool, Fail> {
    let mut list = list;
    list.push(Bytes::from_vec(b"more".to_vec(alloc)?))?;
    let redo = open(alloc, content, &[])?;
    Ok(has(&redo, &list))
}

/// Whether a log that a crash left in a shortening to the list of this round has the list from
/// before it or that list, and takes a body more. Where the call was through it has that list.
fn is_left(alloc: Global, content: &[u8], round: u8, done: bool) -> Result<bool, Fail>
    requires later { 0 < round }
{
    let mut redo = start(alloc, content, &[])?;
    let Some(list) = list_of(alloc, &redo, round, done)? else {
        return Ok(false);
    };
    let size = list.len() as u64 * 7;
    if redo.tail() != size {
        return Ok(false);
    }
    if !append(&mut redo, b"more")? {
        return Ok(false);
    }
    if redo.tail() != size + 9 {
        return Ok(false);
    }
    has_more(alloc, &content_of(alloc, redo)?, list)
}

/// How many calls an opening makes of a disk.
const OPENING: u64 = 3;

/// More than the calls of a shortening.
const CALLS: u64 = 14;

/// Whether each crash in a shortening to the list of this round leaves what it must, where a call
/// of this number fails.
fn leaves_either(alloc: Global, before: &[u8], round: u8, call: u64) -> Result<bool, Fail>
    requires later { 0 < round }
{
    for choice in 0..16 {
        let mut redo = start(alloc, before, &[call])?;
        let done = shorten(alloc, &mut redo, round)?;
        let left = redo.close().crash(alloc, choice)?;
        if !is_left(alloc, left.content(), round, done)? {
            return Ok(false);
        }
    }
    Ok(true)
}

#[test]
fn a_crash_in_a_shortening_leaves_the_old_list_or_the_new(rt: HostRuntime) -> Result<(), Fail> {
    for round in 1..=5u8 {
        let before = content_after(rt.alloc(), round - 1)?;
        for call in OPENING..OPENING + CALLS {
            assert!(rt; leaves_either(rt.alloc(), &before, round, call)?);
        }
    }
    Ok(())
}

#[test]
fn a_list_that_fits_in_front_is_written_at_80_and_the_rest_is_cut(
    rt: HostRuntime,
) -> Result<(), Fail> {
    // Three records of seven bytes and a gate end at 102. The list of two bodies stands behind it,
    // that of one at 80.
    let first = content_after(rt.alloc(), 1)?;
    assert!(rt; first.len() == 117);
    assert!(rt; first[48] == 1 && first[56] == 1 && first[64] == 102);
    let second = content_after(rt.alloc(), 2)?;
    assert!(rt; second.len() == 88);
    assert!(rt; second[16] == 1 && second[24] == 2 && second[32] == 80);
    assert!(rt; second[48] == 1 && second[56] == 1 && second[64] == 102);
    let third = content_after(rt.alloc(), 3)?;
    assert!(rt; third.len() == 110);
    assert!(rt; third[48] == 1 && third[56] == 3 && third[64] == 88);
    Ok(())
}

/// The bytes of a disk with one of them changed.
fn with(alloc: Global, content: &[u8], at: usize, byte: u8) -> Result<Vec<u8>, Fail> {
    let mut changed = content.to_vec(alloc)?;
    if at >= changed.len() {
        return Err(Fail::new("too short"));
    }
    changed[at] = byte;
    Ok(changed)
}

#[test]
fn damage_of_an_area_is_named_by_its_place(rt: HostRuntime) -> Result<(), Fail> {
    let alloc = rt.alloc();
    let content = content_after(alloc, 2)?;
    assert!(rt; content.len() == 88);
    assert!(rt; damage(alloc, &content)? == None);
    assert!(rt; damage(alloc, &with(alloc, &content, 6, 1)?)? == Some(0));
    assert!(rt; damage(alloc, &with(alloc, &content, 24, 3)?)? == Some(16));
    assert!(rt; damage(alloc, &with(alloc, &content, 24, 0)?)? == Some(16));
    assert!(rt; damage(alloc, &with(alloc, &content, 56, 0)?)? == Some(48));
    assert!(rt; damage(alloc, &with(alloc, &content, 32, 79)?)? == Some(16));
    assert!(rt; damage(alloc, &with(alloc, &content, 32, 88)?)? == Some(16));
    assert!(rt; damage(alloc, &with(alloc, &content, 32, 87)?)? == None);
    Ok(())
}

/// The first bytes of a disk.
fn front(alloc: Global, content: &[u8], length: usize) -> Result<Vec<u8>, Fail> {
    if length > content.len() {
        return Err(Fail::new("too short"));
    }
    Ok(content[..length].to_vec(alloc)?)
}

#[test]
fn what_means_nothing_is_no_damage(rt: HostRuntime) -> Result<(), Fail> {
    let alloc = rt.alloc();
    let content = content_after(alloc, 2)?;
    assert!(rt; content.len() == 88);

    // The start of the area that isn't current means nothing, and of a closed one nothing does.
    assert!(rt; damage(alloc, &with(alloc, &content, 64, 1)?)? == None);
    let closed = with(alloc, &content, 48, 0)?;
    assert!(rt; damage(alloc, &with(alloc, &closed, 56, 0)?)? == None);
    assert!(rt; damage(alloc, &front(alloc, &content, 87)?)? == Some(80));
    assert!(rt; damage(alloc, &front(alloc, &content, 81)?)? == Some(80));
    assert!(rt; damage(alloc, &front(alloc, &content, 80)?)? == None);
    Ok(())
}

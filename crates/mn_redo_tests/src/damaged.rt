//! The bytes of a log, where its gates stand, and what is damage.
use crate::logs::{content_with, disk_of, open};
use mn_base::NodeNo;
use mn_redo::{OpenCause, Redo};
use std::alloc::Global;
use std::test::Fail;

/// The log of node 1 of two with three bodies, of 5, 0 and 5 bytes.
const THREE: &[u8] = b"\x01MNLOG\x02\x01\x02\0\0\0\0\0\0\0\
    \0\0\0\0\0\0\0\0\0\0\0\0\0\0\0\0\0\0\0\0\0\0\0\0\0\0\0\0\0\0\0\0\
    \0\0\0\0\0\0\0\0\0\0\0\0\0\0\0\0\0\0\0\0\0\0\0\0\0\0\0\0\0\0\0\0\
    \x01\0\0\0\x05first\x01\0\0\0\0\x01\0\0\0\x05third\0";

#[test]
fn a_log_is_spelled_as_its_format_says(rt: HostRuntime) -> Result<(), Fail> {
    let content = content_with(rt.alloc(), 3)?;
    assert!(rt; content.as_slice() == THREE);
    let redo = open(rt.alloc(), &content, &[])?;
    assert!(rt; redo.count() == 3);
    if redo.count() == 3 {
        assert!(rt; redo.gate(0) == 80 && redo.gate(1) == 90 && redo.gate(2) == 95);
    }
    Ok(())
}

/// Where bytes are damaged, if they are.
pub fn damage(alloc: Global, content: &[u8]) -> Result<Option<u64>, Fail> {
    match Redo::open(alloc, disk_of(alloc, content, &[])?, NodeNo(1), 2) {
        Ok(_redo) => Ok(None),
        Err(failed) => match failed.cause {
            OpenCause::Damaged { at } => Ok(Some(at)),
            _ => Err(Fail::new("no cause")),
        },
    }
}

/// Where the log of three bodies is damaged when one of its bytes is this one.
fn damage_with(alloc: Global, at: usize, byte: u8) -> Result<Option<u64>, Fail> {
    let mut changed = THREE.to_vec(alloc)?;
    if at >= changed.len() {
        return Err(Fail::new("too short"));
    }
    changed[at] = byte;
    damage(alloc, &changed)
}

/// Where its first bytes, so many, are damaged.
fn damage_of_first(alloc: Global, count: usize) -> Result<Option<u64>, Fail> {
    if count > THREE.len() {
        return Err(Fail::new("too short"));
    }
    damage(alloc, &THREE[..count])
}

/// A byte that is changed, its new value, and where the log is damaged then.
const CHANGED: [(usize, u8, Option<u64>); 16] = [
    (0, 0, None),
    (5, 0, Some(0)),
    (6, 1, Some(0)),
    (6, 3, Some(0)),
    (7, 0, Some(0)),
    (8, 3, Some(0)),
    (15, 1, Some(0)),
    (16, 1, Some(16)),
    (48, 1, Some(48)),
    (79, 1, None),
    (80, 0, None),
    (80, 255, None),
    (84, 6, None),
    (84, 255, Some(80)),
    (91, 255, Some(90)),
    (105, 1, Some(105)),
];

#[test]
fn damage_is_named_by_its_place(rt: HostRuntime) -> Result<(), Fail> {
    for (at, byte, named) in CHANGED {
        assert!(rt; damage_with(rt.alloc(), at, byte)? == named, "byte {at}");
    }
    Ok(())
}

/// How many bytes are left, and where the log is damaged then.
const CUT: [(usize, Option<u64>); 7] = [
    (80, None),
    (81, Some(80)),
    (89, Some(80)),
    (90, Some(80)),
    (91, Some(90)),
    (105, Some(95)),
    (106, None),
];

#[test]
fn a_log_that_was_cut_is_damaged_at_its_last_gate(rt: HostRuntime) -> Result<(), Fail> {
    for (count, named) in CUT {
        assert!(rt;
            damage_of_first(rt.alloc(), count)? == named,
            "{count} bytes"
        );
    }
    Ok(())
}

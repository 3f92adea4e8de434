use mn_page::{BadPage, Body, CatEntry, Page, PageError, PageRef};
use std::alloc::Global;

/// The root after the first split: children node 1 slot 0 and, from `k5` on, node 0 slot 1.
const ROOT: [u8; 32] = [
    0, 0, 0, 0, 0, 0, 0, 10, 2, 0, 1, 0, 0, 0, 0, 0, 0, 0, 0, 0, 0, 0, 2, 1, 0, 0, 2, b'k', b'5',
    0, 0, 1,
];

/// A slot that begins with these bytes and goes on with zeros.
fn slot(front: &[u8]) -> [u8; 1_024] {
    let mut bytes = [0; 1_024];
    if front.len() <= 1_024 {
        bytes[..front.len()].copy_from_slice(front);
    }
    bytes
}

/// The place of the fault.
fn place(bytes: &[u8]) -> Option<u16> {
    match PageRef::new(bytes) {
        Ok(_) => None,
        Err(BadPage { at }) => Some(at),
    }
}

/// The place of the fault in the root with one byte changed.
fn changed(at: usize, byte: u8) -> Option<u16> {
    let mut bytes = slot(&ROOT);
    if at < 1_024 {
        bytes[at] = byte;
    }
    place(&bytes)
}

/// What is written of the page that a slot spells.
fn written(alloc: Global, bytes: &[u8; 1_024]) -> Result<[u8; 1_024], PageError> {
    let Some(page) = Page::read(alloc, bytes)? else {
        return Err(PageError::BadPage { at: 0 });
    };
    let mut again = [7; 1_024];
    if let Body::Inner { rest, .. } = &page.body {
        if rest.as_slice().len() < 8 && page.low.as_slice().len() <= 32 {
            page.write(&mut again);
        }
    }
    Ok(again)
}

#[test]
fn reads_and_writes_the_root(rt: HostRuntime) -> Result<(), PageError> {
    let bytes = slot(&ROOT);
    assert!(rt; written(rt.alloc(), &bytes)? == bytes);
    Ok(())
}

/// A byte of the root that is changed, and the place of the fault.
const CHANGES: &[(usize, u8, u16)] = &[
    (26, 0, 26),
    (26, 33, 26),
    (7, 0, 7),
    (8, 3, 8),
    (10, 0, 10),
    (11, 64, 11),
    (19, 1, 19),
    (20, 33, 20),
    (21, 2, 21),
    (22, 1, 22),
    (22, 9, 22),
    (23, 8, 23),
    (24, 16, 24),
    (29, 8, 29),
    (32, 1, 32),
    (1_023, 1, 1_023),
];

#[test]
fn names_the_first_byte_at_fault(rt: HostRuntime) {
    for (at, byte, fault) in CHANGES {
        assert!(rt; changed(*at, *byte) == Some(*fault));
    }
}

#[test]
fn names_the_end_of_a_slot_of_another_size(rt: HostRuntime) {
    assert!(rt; place(&[0; 1_023]) == Some(7));
    assert!(rt; place(&ROOT) == Some(32));
}

/// What a slot begins with, and the place of the fault.
const FRONTS: &[(&[u8], Option<u16>)] = &[
    // It is free.
    (&[], None),
    // Low fence `a`, high fence `a` and a zero: one key lies between.
    (
        &[
            0, 0, 0, 0, 0, 0, 0, 1, 1, 0, 0, 0, 0, 0, 0, 0, 0, 0, 0, 0, 1, b'a', 1, 2, b'a', 0, 2,
        ],
        Some(26),
    ),
    // `k2`, then `k1`.
    (
        &[
            0, 0, 0, 0, 0, 0, 0, 1, 1, 0, 0, 0, 0, 0, 0, 0, 0, 0, 0, 0, 0, 0, 2, 2, b'k', b'2', 0,
            2, b'k', b'1', 0,
        ],
        Some(29),
    ),
    // Low fence `b`, high fence `a`.
    (
        &[
            0, 0, 0, 0, 0, 0, 0, 1, 1, 0, 0, 0, 0, 0, 0, 0, 0, 0, 0, 0, 1, b'b', 1, 1, b'a', 0,
        ],
        Some(24),
    ),
];

#[test]
fn names_the_first_byte_at_which_no_key_fits(rt: HostRuntime) {
    for (front, fault) in FRONTS {
        assert!(rt; place(&slot(front)) == *fault);
    }
}

/// The entry of `main`, writable, without a parent, with its root in the first slot of node 0.
const MAIN: [u8; 64] = [
    0, 0, 0, 0, 0, 0, 0, 1, 1, 255, 0, 0, 0, 4, b'm', b'a', b'i', b'n', 0, 0, 0, 0, 0, 0, 0, 0, 0,
    0, 0, 0, 0, 0, 0, 0, 0, 0, 0, 0, 0, 0, 0, 0, 0, 0, 0, 0, 0, 0, 0, 0, 0, 0, 0, 0, 0, 0, 0, 0, 0,
    0, 0, 0, 0, 0,
];

/// What is written of the entry that these bytes spell.
fn entry_written(alloc: Global, bytes: &[u8; 64]) -> Result<[u8; 64], PageError> {
    let Some(entry) = CatEntry::read(alloc, bytes)? else {
        return Err(PageError::BadPage { at: 0 });
    };
    let mut again = [7; 64];
    entry.write(&mut again);
    Ok(again)
}

#[test]
fn reads_and_writes_an_entry(rt: HostRuntime) -> Result<(), PageError> {
    assert!(rt; entry_written(rt.alloc(), &MAIN)? == MAIN);
    Ok(())
}

#[test]
fn names_the_byte_at_fault_in_an_entry(rt: HostRuntime) {
    let mut bytes = MAIN;
    bytes[15] = b'A';
    let refused = CatEntry::read(rt.alloc(), &bytes).err();
    assert!(rt; refused == Some(PageError::BadPage { at: 15 }));
}

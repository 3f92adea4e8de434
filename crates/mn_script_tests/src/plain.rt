use mn_base::{Key, Name, Op, Reply, Step, Steps, Value, VersionNo};
use mn_plain::{MAX_VERSIONS, Store};
use std::alloc::Global;
use std::test::Fail;

/// What a reply says.
#[derive(Clone, Copy)]
enum Said {
    Values,
    Made,
    Frozen,
    NameTaken,
    VersionsFull,
    Other,
}

fn told(reply: &Reply) -> Said {
    match reply {
        Reply::Values { .. } => Said::Values,
        Reply::Made => Said::Made,
        Reply::Frozen => Said::Frozen,
        Reply::NameTaken => Said::NameTaken,
        Reply::VersionsFull => Said::VersionsFull,
        _ => Said::Other,
    }
}

/// What the store replies.
fn reply_to(alloc: Global, store: &mut Store, op: &Op) -> Result<Said, Fail> {
    let reply = store.apply(alloc, op)?;
    Ok(told(&reply))
}

/// The step that puts this value at `k`.
fn k_is(alloc: Global, value: &[u8]) -> Result<Steps, Fail> {
    let mut steps = Vec::new(alloc);
    steps.push(Step::Put {
        key: Key::new(alloc, b"k")?,
        value: Value::new(alloc, value)?,
    })?;
    Ok(Steps::new(steps)?)
}

/// Puts this value at `k` in a version.
fn put(alloc: Global, store: &mut Store, version: &[u8], value: &[u8]) -> Result<Said, Fail> {
    let version = Name::new(alloc, version)?;
    let steps = k_is(alloc, value)?;
    reply_to(alloc, store, &Op::Tx { version, steps })
}

/// Makes a snapshot of `main` whose child has this name.
fn snapshot(alloc: Global, store: &mut Store, child: &[u8]) -> Result<Said, Fail> {
    let version = Name::new(alloc, b"main")?;
    let child = Name::new(alloc, child)?;
    reply_to(alloc, store, &Op::Snapshot { version, child })
}

/// Makes a branch of `main` of this name.
fn branch(alloc: Global, store: &mut Store, child: &[u8]) -> Result<Said, Fail> {
    let version = Name::new(alloc, b"main")?;
    let child = Name::new(alloc, child)?;
    reply_to(alloc, store, &Op::Branch { version, child })
}

/// The digest of a version, if it is there.
fn digest_of(alloc: Global, store: &Store, version: VersionNo) -> Result<Option<[u8; 32]>, Fail> {
    let there = store.listing(alloc)?.as_slice().len();
    if usize::from(version.0) >= there {
        return Ok(None);
    }
    Ok(Some(store.digest(alloc, version)?))
}

/// The SHA-256 of the bytes `01 6B 01 76`.
const K_IS_V: [u8; 32] = [
    0x3A, 0x05, 0x11, 0xD8, 0x5E, 0xAC, 0xBB, 0xDD, 0x36, 0xDE, 0xB8, 0x3B, 0x3E, 0x4A, 0x9E, 0x8A,
    0xBE, 0x6B, 0xAE, 0x92, 0xF8, 0x91, 0x57, 0x15, 0x5B, 0x49, 0xAE, 0x03, 0xA6, 0x28, 0xC1, 0xAD,
];

/// The SHA-256 of the bytes `01 6B 01 77`.
const K_IS_W: [u8; 32] = [
    0x0E, 0x04, 0x64, 0x7F, 0xA6, 0xAC, 0x09, 0x67, 0x58, 0x16, 0x44, 0xEE, 0x90, 0x42, 0x03, 0x1D,
    0x37, 0x7D, 0x58, 0xB2, 0xBF, 0xEE, 0x60, 0xA9, 0xB3, 0x9A, 0xFF, 0x58, 0x64, 0x44, 0x1C, 0x7D,
];

/// Whether `main` takes a Put, is frozen by a snapshot, and then its child takes one.
fn is_frozen(alloc: Global, store: &mut Store) -> Result<bool, Fail> {
    Ok(
        matches!(put(alloc, store, b"main", b"v")?, Said::Values)
            && matches!(snapshot(alloc, store, b"next")?, Said::Made)
            && matches!(put(alloc, store, b"main", b"w")?, Said::Frozen)
            && matches!(put(alloc, store, b"next", b"w")?, Said::Values),
    )
}

/// Whether there are `main`, where `k` is `v`, and its child, where `k` is `w`, and no other.
fn has_both(alloc: Global, store: &Store) -> Result<bool, Fail> {
    Ok(
        digest_of(alloc, store, VersionNo(0))? == Some(K_IS_V)
            && digest_of(alloc, store, VersionNo(1))? == Some(K_IS_W)
            && digest_of(alloc, store, VersionNo(2))? == None,
    )
}

#[test]
fn a_snapshot_keeps_what_it_had(rt: HostRuntime) -> Result<(), Fail> {
    let alloc = rt.alloc();
    let mut store = Store::new(alloc)?;
    assert!(rt; is_frozen(alloc, &mut store)?);
    assert!(rt; has_both(alloc, &store)?);
    Ok(())
}

/// Whether 62 branches are made beside `main` and its child `v`.
fn is_filled(alloc: Global, store: &mut Store) -> Result<bool, Fail> {
    if !matches!(snapshot(alloc, store, b"v")?, Said::Made) {
        return Ok(false);
    }
    for n in 2..MAX_VERSIONS {
        let name = [b'a' + (n / 26) as u8, b'a' + (n % 26) as u8];
        if !matches!(branch(alloc, store, &name)?, Said::Made) {
            return Ok(false);
        }
    }
    Ok(true)
}

/// Whether there are so many versions that no branch of another name is made.
fn is_full(alloc: Global, store: &mut Store) -> Result<bool, Fail> {
    Ok(
        matches!(branch(alloc, store, b"v")?, Said::NameTaken)
            && matches!(branch(alloc, store, b"w")?, Said::VersionsFull)
            && store.listing(alloc)?.as_slice().len() == MAX_VERSIONS,
    )
}

#[test]
fn the_65th_version_is_refused(rt: HostRuntime) -> Result<(), Fail> {
    let alloc = rt.alloc();
    let mut store = Store::new(alloc)?;
    assert!(rt; is_filled(alloc, &mut store)?);
    assert!(rt; is_full(alloc, &mut store)?);
    Ok(())
}

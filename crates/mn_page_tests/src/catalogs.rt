ghost use Rattle.std.specs.Prelude.{◌≡◌, None};
ghost use Rattle.mn_base.specs.Store.{refusal};
ghost use Rattle.mn_page.specs.Forest.{heads_in};

use mn_base::{Addr, Name, NoMemory, NodeNo, Op, Reply, VersionNo};
use mn_catalog::{CatError, Catalog};
use mn_page::{Entries, base_space};
use std::alloc::Global;
use std::test::Fail;

/// `main`, writable, without a parent, with its root in the first slot of node 0.
const MAIN: [u8; 18] = [
    0, 0, 0, 0, 0, 0, 0, 1, 1, 255, 0, 0, 0, 4, b'm', b'a', b'i', b'n',
];

/// A catalog with `main` at this place alone.
fn main_at(place: u8) -> [u8; 4_096] {
    let mut bytes = [0; 4_096];
    let start = usize::from(place) * 64;
    if start <= 4_032 {
        bytes[start..start + 18].copy_from_slice(&MAIN);
    }
    bytes
}

/// The version of this name.
fn number_of(alloc: Global, catalog: &Catalog, name: &[u8]) -> Result<Option<VersionNo>, Fail> {
    let name = Name::new(alloc, name)?;
    Ok(catalog.find(&name))
}

#[test]
fn the_base_catalog_has_main(rt: HostRuntime) -> Result<(), Fail> {
    let alloc = rt.alloc();
    let catalog = Catalog::read(alloc, &main_at(0))?;
    assert!(rt; catalog.entries().len() == 1);
    assert!(rt; number_of(alloc, &catalog, b"main")? == Some(VersionNo(0)));
    assert!(rt; number_of(alloc, &catalog, b"other")? == None);
    Ok(())
}

#[test]
fn each_node_has_the_base_catalog(rt: HostRuntime) -> Result<(), Fail> {
    for node in [0u8, 1] {
        let space = base_space(rt.alloc(), node, 2)?;
        assert!(rt; &space[64..4_160] == &main_at(0)[..]);
    }
    Ok(())
}

#[test]
fn an_entry_behind_a_free_one_is_refused(rt: HostRuntime) {
    let refused = Catalog::read(rt.alloc(), &main_at(1)).err();
    assert!(rt; refused == Some(CatError::BadCatalog { entry: 1 }));
}

/// Writes entries into the bytes of a catalog.
fn put(bytes: &mut [u8; 4_096], entries: Entries) {
    for (version, entry) in entries.into_vec() {
        let start = usize::from(version.0) * 64;
        if start <= 4_032 {
            entry.write(&mut bytes[start..start + 64]);
        }
    }
}

/// The first slot of node 1.
const ROOT: Addr = Addr {
    node: NodeNo(1),
    slot: 0,
};

/// The entries that an operation writes which makes a child with this root.
fn entries_of(alloc: Global, catalog: &Catalog, op: &Op) -> Result<Option<Entries>, NoMemory>
    requires admitted { refusal (heads_in catalog.now) op.now ≡ None }
{
    match op {
        Op::Snapshot { version, child } => match catalog.find(version) {
            Some(number) => Ok(Some(catalog.snapshot(alloc, number, child, ROOT)?)),
            None => Ok(None),
        },
        Op::Branch { version, child } => match catalog.find(version) {
            Some(number) => Ok(Some(catalog.branch(alloc, number, child, ROOT)?)),
            None => Ok(None),
        },
        _ => Ok(None),
    }
}

/// What becomes of an operation: the child is made, or a reply refuses it.
#[derive(Clone, Copy)]
enum Said {
    Made,
    Frozen,
    NotFrozen,
    NameTaken,
    VersionsFull,
    Other,
}

fn told(refused: &Reply) -> Said {
    match refused {
        Reply::Frozen => Said::Frozen,
        Reply::NotFrozen => Said::NotFrozen,
        Reply::NameTaken => Said::NameTaken,
        Reply::VersionsFull => Said::VersionsFull,
        _ => Said::Other,
    }
}

/// Makes the child that an operation asks for.
fn make(alloc: Global, bytes: &mut [u8; 4_096], op: &Op) -> Result<Said, Fail> {
    let catalog = Catalog::read(alloc, bytes)?;
    if let Some(refused) = catalog.admit(op) {
        return Ok(told(&refused));
    }
    match entries_of(alloc, &catalog, op)? {
        Some(entries) => {
            put(bytes, entries);
            Ok(Said::Made)
        }
        None => Ok(Said::Other),
    }
}

/// Makes a snapshot of `main` whose child has this name.
fn snapshot(alloc: Global, bytes: &mut [u8; 4_096], child: &[u8]) -> Result<Said, Fail> {
    let version = Name::new(alloc, b"main")?;
    let child = Name::new(alloc, child)?;
    make(alloc, bytes, &Op::Snapshot { version, child })
}

/// Makes a branch of `main` of this name.
fn branch(alloc: Global, bytes: &mut [u8; 4_096], child: &[u8]) -> Result<Said, Fail> {
    let version = Name::new(alloc, b"main")?;
    let child = Name::new(alloc, child)?;
    make(alloc, bytes, &Op::Branch { version, child })
}

/// Whether 62 branches are made.
fn is_filled(alloc: Global, bytes: &mut [u8; 4_096]) -> Result<bool, Fail> {
    for n in 1..63 {
        let child = [b'x', b'0' + n / 10, b'0' + n % 10];
        if !matches!(branch(alloc, bytes, &child)?, Said::Made) {
            return Ok(false);
        }
    }
    Ok(true)
}

#[test]
fn a_catalog_tells_what_may_be_made(rt: HostRuntime) -> Result<(), Fail> {
    let alloc = rt.alloc();
    let mut bytes = main_at(0);
    assert!(rt; matches!(branch(alloc, &mut bytes, b"m")?, Said::NotFrozen));
    assert!(rt; matches!(snapshot(alloc, &mut bytes, b"main")?, Said::NameTaken));
    assert!(rt; matches!(snapshot(alloc, &mut bytes, b"m")?, Said::Made));
    assert!(rt; matches!(snapshot(alloc, &mut bytes, b"y")?, Said::Frozen));
    Ok(())
}

/// Whether there are 64 entries, of which the first was changed once and the last is a child of it.
fn has_64(alloc: Global, bytes: &[u8; 4_096]) -> Result<bool, Fail> {
    let catalog = Catalog::read(alloc, bytes)?;
    let entries = catalog.entries();
    Ok(entries.len() == 64 && entries[0].seq == 2 && entries[63].parent == Some(VersionNo(0)))
}

#[test]
fn a_catalog_takes_64_versions(rt: HostRuntime) -> Result<(), Fail> {
    let alloc = rt.alloc();
    let mut bytes = main_at(0);
    assert!(rt; matches!(snapshot(alloc, &mut bytes, b"m")?, Said::Made));
    assert!(rt; is_filled(alloc, &mut bytes)?);
    assert!(rt; matches!(branch(alloc, &mut bytes, b"y")?, Said::VersionsFull));
    assert!(rt; matches!(branch(alloc, &mut bytes, b"m")?, Said::NameTaken));
    assert!(rt; has_64(alloc, &bytes)?);
    Ok(())
}

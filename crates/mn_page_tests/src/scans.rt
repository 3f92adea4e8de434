use mn_base::{Addr, Key, NoMemory, NodeNo, Pair, Pairs, TryCopy, Value, VersionNo};
use mn_page::{Body, Branches, Child, Low, Page, SharedPage};
use mn_scan::{ScanError, ScanRun, ScanStep};
use mn_vtree::VersionTree;
use std::alloc::Global;
use std::test::Fail;

fn at(slot: u16) -> Addr {
    Addr {
        node: NodeNo(0),
        slot,
    }
}

fn key_of(alloc: Global, bytes: &[u8]) -> Result<Key, NoMemory> {
    match Key::new(alloc, bytes) {
        Ok(key) => Ok(key),
        Err(_) => Err(NoMemory),
    }
}

// No bound where there are no bytes.
fn bound(alloc: Global, bytes: &[u8]) -> Result<Option<Key>, NoMemory> {
    if bytes.is_empty() {
        return Ok(None);
    }
    Ok(Some(key_of(alloc, bytes)?))
}

fn pairs_of(alloc: Global, keys: &[&[u8]]) -> Result<Pairs, NoMemory> {
    let mut pairs = Vec::new(alloc);
    for key in keys {
        let Ok(value) = Value::new(alloc, key) else {
            return Err(NoMemory);
        };
        pairs.push(Pair {
            key: key_of(alloc, key)?,
            value,
        })?;
    }
    Ok(Pairs::from_vec(pairs))
}

// A leaf with these fences and keys.
fn leaf(
    alloc: Global,
    made: u8,
    low: &[u8],
    high: &[u8],
    keys: &[&[u8]],
) -> Result<Page, NoMemory> {
    Ok(Page {
        seq: 1,
        made: VersionNo(made),
        copied: 0,
        low: Low::new(low).ok_or(NoMemory)?,
        high: bound(alloc, high)?,
        body: Body::Leaf {
            pairs: pairs_of(alloc, keys)?,
        },
    })
}

// A root of this height over the pages in slots 1 and 2, the second from k5 on, and 3, from k7 on.
fn root(alloc: Global, made: u8, height: u16) -> Result<Page, NoMemory> {
    let mut rest = Vec::new(alloc);
    for (separator, slot) in [(b"k5", 2), (b"k7", 3)] {
        rest.push(Child {
            separator: key_of(alloc, separator)?,
            addr: at(slot),
        })?;
    }
    Ok(Page {
        body: Body::Inner {
            height,
            first: at(1),
            rest: Branches::from_vec(alloc, rest)?,
        },
        ..leaf(alloc, made, b"", b"", &[])?
    })
}

// The pages of main, and in the slot 1 the one of its child: an empty leaf from k5 to k7.
fn page_at(alloc: Global, version: u8, slot: u16) -> Result<Page, NoMemory> {
    match (version, slot) {
        (0, 1) => leaf(alloc, 0, b"", b"k5", &[b"k1", b"k3"]),
        (1, 1) => leaf(alloc, 1, b"", b"k5", &[b"k2"]),
        (_, 2) => leaf(alloc, 0, b"k5", b"k7", &[]),
        (_, 3) => leaf(alloc, 0, b"k7", b"", &[b"k7", b"k8"]),
        _ => root(alloc, version, 1),
    }
}

// A scan of main, or of its child.
fn scan_of(
    alloc: Global,
    version: u8,
    low: &[u8],
    high: &[u8],
    limit: u32,
) -> Result<ScanRun, Fail> {
    let tree = VersionTree::new(alloc, &[None, Some(VersionNo(0))])?;
    let (low, high) = (bound(alloc, low)?, bound(alloc, high)?);
    Ok(ScanRun::new(alloc, tree, VersionNo(version), at(0), low, high, limit)?)
}

// The slots that it reads.
fn read_by(alloc: Global, version: u8, scan: &mut ScanRun) -> Result<Vec<u16>, Fail> {
    let mut reads = Vec::new(alloc);
    for _page in 0..16 {
        if let ScanStep::Need { addr, .. } = scan.next() {
            reads.push(addr.slot)?;
            let page = page_at(alloc, version, addr.slot)?;
            scan.feed(alloc, addr, SharedPage::new(alloc, page)?)?;
        }
    }
    Ok(reads)
}

// The keys that it finds, one behind the other.
fn found(alloc: Global, scan: ScanRun) -> Result<Vec<u8>, Fail> {
    let mut keys = Vec::new(alloc);
    for pair in scan.into_pairs().as_slice() {
        keys.extend_from_slice(pair.key.as_slice())?;
    }
    Ok(keys)
}

// A version, the bounds and the limit, the slots that are read and the keys that are found.
type Walk = (
    u8,
    &'static [u8],
    &'static [u8],
    u32,
    &'static [u16],
    &'static [u8],
);

const WALKS: &[Walk] = &[
    (0, b"", b"", 10, &[0, 1, 0, 2, 0, 3], b"k1k3k7k8"),
    (1, b"", b"", 10, &[0, 1, 0, 2, 0, 3], b"k2k7k8"),
    // The limit ends it at a leaf, also in the midst of its pairs.
    (0, b"", b"", 1, &[0, 1], b"k1"),
    (0, b"", b"", 2, &[0, 1], b"k1k3"),
    (0, b"", b"", 3, &[0, 1, 0, 2, 0, 3], b"k1k3k7"),
    // So does a leaf that reaches the upper bound, which doesn't belong to it.
    (0, b"k2", b"k5", 10, &[0, 1], b"k3"),
    (0, b"", b"k50", 10, &[0, 1, 0, 2], b"k1k3"),
    (0, b"k3", b"k8", 10, &[0, 1, 0, 2, 0, 3], b"k3k7"),
    // It reads a leaf also where nothing lies between the bounds, and an empty one.
    (0, b"k5", b"k5", 10, &[0, 2], b""),
    (1, b"k7", b"k1", 10, &[0, 3], b""),
];

fn walks_so(alloc: Global, walk: &Walk) -> Result<bool, Fail> {
    let (version, low, high, limit, reads, keys) = walk;
    let mut scan = scan_of(alloc, *version, low, high, *limit)?;
    if read_by(alloc, *version, &mut scan)?.as_slice() != *reads {
        return Ok(false);
    }
    Ok(found(alloc, scan)?.as_slice() == *keys)
}

#[test]
fn a_scan_walks_to_each_leaf(rt: HostRuntime) -> Result<(), Fail> {
    for walk in WALKS {
        assert!(rt; walks_so(rt.alloc(), walk)?);
    }
    Ok(())
}

// A page that is given to a scan.
enum Given {
    // An inner page over three leaves, made for a version.
    Root {
        made: u8,
        height: u16,
    },
    // A leaf of main with these fences and keys.
    Leaf {
        low: &'static [u8],
        high: &'static [u8],
        keys: &'static [&'static [u8]],
    },
}

fn page_of(alloc: Global, given: &Given) -> Result<Page, NoMemory> {
    match given {
        Given::Root { made, height } => root(alloc, *made, *height),
        Given::Leaf { low, high, keys } => leaf(alloc, 0, low, high, keys),
    }
}

// A page, the slot at which it is refused, what the scan wants next (a slot, and whether a leaf may
// stand there), and the key at which it then stands.
type Feed = (Given, Option<u16>, (u16, bool), &'static [u8]);

const FEEDS: &[Feed] = &[
    // Made for another version; too high; beside the key.
    (
        Given::Root { made: 1, height: 1 },
        Some(0),
        (0, true),
        b"k6",
    ),
    (
        Given::Root {
            made: 0,
            height: 15,
        },
        Some(0),
        (0, true),
        b"k6",
    ),
    (
        Given::Leaf {
            low: b"k7",
            high: b"",
            keys: &[],
        },
        Some(0),
        (0, true),
        b"k6",
    ),
    (
        Given::Leaf {
            low: b"",
            high: b"k6",
            keys: &[],
        },
        Some(0),
        (0, true),
        b"k6",
    ),
    // Not one height below; after that it begins at the root again.
    (Given::Root { made: 0, height: 2 }, None, (2, false), b"k6"),
    (
        Given::Leaf {
            low: b"k5",
            high: b"k7",
            keys: &[],
        },
        Some(2),
        (0, true),
        b"k6",
    ),
    // The first leaf covers the lower bound.
    (Given::Root { made: 0, height: 1 }, None, (2, true), b"k6"),
    (
        Given::Leaf {
            low: b"k5",
            high: b"k7",
            keys: &[],
        },
        None,
        (0, true),
        b"k7",
    ),
];

// The slot at which a page is refused that is given to the scan for the one that it needs.
fn refusal(alloc: Global, scan: &mut ScanRun, page: Page) -> Result<Option<ScanError>, NoMemory> {
    let page = SharedPage::new(alloc, page)?;
    match scan.next() {
        ScanStep::Need { addr, .. } => Ok(scan.feed(alloc, addr, page).err()),
        ScanStep::Ended => Ok(None),
    }
}

fn stands_at(scan: &ScanRun, key: &[u8]) -> bool {
    scan.key() == key
}

fn is_answered(alloc: Global, scan: &mut ScanRun, feed: &Feed) -> Result<bool, NoMemory> {
    let (given, refused, (slot, leaf), key) = feed;
    let answer = refusal(alloc, scan, page_of(alloc, given)?)?;
    let wanted = refused.map(|slot| ScanError::BadPath { addr: at(slot) });
    let next = ScanStep::Need {
        addr: at(*slot),
        leaf: *leaf,
    };
    Ok(answer == wanted && scan.next() == next && stands_at(scan, key))
}

fn are_answered(alloc: Global, scan: &mut ScanRun) -> Result<bool, NoMemory> {
    for feed in FEEDS {
        if !is_answered(alloc, scan, feed)? {
            return Ok(false);
        }
    }
    Ok(true)
}

#[test]
fn pages_on_no_path_are_refused(rt: HostRuntime) -> Result<(), Fail> {
    let alloc = rt.alloc();
    let mut scan = scan_of(alloc, 0, b"k6", b"", 10)?;
    assert!(rt; are_answered(alloc, &mut scan)?);
    // A later leaf begins where the one before it ended.
    let wide = leaf(alloc, 0, b"k6", b"", &[b"k6"])?;
    assert!(rt; refusal(alloc, &mut scan, wide)? == Some(ScanError::BadPath { addr: at(0) }));
    assert!(rt; scan.key() == b"k7".as_slice());
    assert!(rt; refusal(alloc, &mut scan, page_at(alloc, 0, 3)?)? == None);
    assert!(rt; scan.next() == ScanStep::Ended);
    Ok(())
}

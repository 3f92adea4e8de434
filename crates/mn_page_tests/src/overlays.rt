//! The numbers of pages that a transaction changes.
use mn_base::{Addr, Key, NodeNo, Pairs, Step, Value, VersionNo};
use mn_page::{Body, Low, Page, SharedPage};
use mn_tree::{Overlay, Stepped};
use mn_vtree::VersionTree;
use std::alloc::Global;
use std::test::Fail;

/// A leaf of `main` without pairs and fences, with this sequence number.
fn leaf(alloc: Global, seq: u64) -> Result<SharedPage, Fail> {
    let Some(low) = Low::new(b"") else {
        return Err(Fail::new("no low fence"));
    };
    let page = Page {
        seq,
        made: VersionNo(0),
        copied: 0,
        low,
        high: None,
        body: Body::Leaf {
            pairs: Pairs::from_vec(Vec::new(alloc)),
        },
    };
    Ok(SharedPage::new(alloc, page)?)
}

fn put(alloc: Global) -> Result<Step, Fail> {
    Ok(Step::Put {
        key: Key::new(alloc, b"k")?,
        value: Value::new(alloc, b"v")?,
    })
}

/// What is shown of the leaf that a put writes, where it was read with this number.
fn written(alloc: Global, seq: u64) -> Result<String, Fail> {
    let tree = VersionTree::new(alloc, &[None])?;
    let root = Addr {
        node: NodeNo(0),
        slot: 0,
    };
    let mut overlay = Overlay::new(alloc, tree, VersionNo(0), root)?;
    let step = put(alloc)?;
    if let Stepped::Need { addr } = overlay.step(alloc, &step)? {
        overlay.add(addr, leaf(alloc, seq)?)?;
    }
    let is_changed = matches!(overlay.step(alloc, &step)?, Stepped::Changed);
    if !is_changed || overlay.new_pages() != 0 {
        return Err(Fail::new("not changed in place"));
    }
    let pages = overlay.place(alloc, &[])?;
    match pages.as_slice() {
        [(_root, page)] => Ok(format!(in alloc; "{page:?}")?),
        _ => Err(Fail::new("another page")),
    }
}

/// A number with which the leaf is read, and what is then shown of it as it is written.
const NUMBERS: [(u64, &str); 3] = [
    (1, "PlacedPage { seq: 2, "),
    (u64::MAX - 1, "PlacedPage { seq: 18446744073709551615, "),
    (u64::MAX, "PlacedPage { seq: 18446744073709551615, "),
];

#[test]
fn the_last_number_of_a_page_stays(rt: HostRuntime) -> Result<(), Fail> {
    for (read, shown) in NUMBERS {
        assert!(rt; written(rt.alloc(), read)?.starts_with(shown), "of {read}");
    }
    Ok(())
}

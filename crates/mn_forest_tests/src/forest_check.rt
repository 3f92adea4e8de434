//! A tree over two nodes, and what breaks each rule of the forest.
ghost use Rattle.std.specs.Prelude.{◌≡◌, ◌≤◌, length, nat_eq};
ghost use Rattle.std.specs.Bool.{OnTrue};
ghost use Rattle.std.specs.List.{AllByRecursion, list_all};
ghost use Rattle.mn_mini.specs.Mini.{space_size};

use mn_base::{Key, Name, NoMemory, NodeNo, Op, Reply, Step, Steps};
use mn_forest::{ForestError, Rule, base_spaces, check};
use mn_mini::SPACE;
use mn_plain::Store;
use mn_space::{NodeSpace, NodeSpaces};
use std::alloc::Global;
use std::test::Fail;

/// Bytes of a node's space: the node, the place, and what stands there.
type Change = (usize, u32, &'static [u8]);

/// Where slots 0 and 1 begin.
const SLOT_0: u32 = 20_480;

const SLOT_1: u32 = 21_504;

/// The root after the first split: children node 1 slot 0 and, from `k5` on, node 0 slot 1.
const ROOT: &[u8] = &[
    0, 0, 0, 0, 0, 0, 0, 10, 2, 0, 1, 0, 0, 0, 0, 0, 0, 0, 0, 0, 0, 0, 2, 1, 0, 0, 2, b'k', b'5',
    0, 0, 1,
];

/// The leaf below `k5`, with `k1`.
const LEFT: &[u8] = &[
    0, 0, 0, 0, 0, 0, 0, 1, 1, 0, 0, 0, 0, 0, 0, 0, 0, 0, 0, 0, 0, 1, 2, b'k', b'5', 1, 2, b'k',
    b'1', 1, b'v',
];

/// The leaf from `k5` on, with `k9`.
const RIGHT: &[u8] = &[
    0, 0, 0, 0, 0, 0, 0, 1, 1, 0, 0, 0, 0, 0, 0, 0, 0, 0, 0, 0, 2, b'k', b'5', 0, 1, 2, b'k', b'9',
    1, b'w',
];

/// An empty leaf without fences, made in version 0.
const LEAF: &[u8] = &[0, 0, 0, 0, 0, 0, 0, 1, 1];

/// Entries `main`, frozen, and one more child of it, with its root in slot 1 of node 0.
const FROZEN: &[u8] = &[2];

const NEXT: &[u8] = &[0, 0, 0, 0, 0, 0, 0, 1, 1, 0, 0, 0, 1, 1, b'm'];

const MAIN_AGAIN: &[u8] = &[
    0, 0, 0, 0, 0, 0, 0, 1, 1, 0, 0, 0, 1, 4, b'm', b'a', b'i', b'n',
];

/// A leaf made in version 1.
const NEXT_LEAF: &[u8] = &[0, 0, 0, 0, 0, 0, 0, 1, 1, 0, 0, 1];

/// The tree of the root and the two leaves.
const TREE: &[Change] = &[
    (0, 23, &[2]),
    (1, 23, &[1]),
    (0, SLOT_0, ROOT),
    (1, SLOT_0, LEFT),
    (0, SLOT_1, RIGHT),
];

/// Makes the changes of this node in its space.
fn change(space: &mut NodeSpace, of: usize, changes: &[Change]) {
    for (node, start, bytes) in changes {
        if *node == of {
            space.write(*start, bytes);
        }
    }
}

/// The memory of two fresh nodes with these changes, and then those.
fn changed(alloc: Global, tree: &[Change], changes: &[Change]) -> Result<NodeSpaces, NoMemory> {
    let mut spaces = Vec::new(alloc);
    for (node, space) in base_spaces(alloc, 2)?.into_vec().into_iter().enumerate() {
        let mut space = space;
        change(&mut space, node, tree);
        change(&mut space, node, changes);
        spaces.push(space)?;
    }
    Ok(NodeSpaces::from_vec(spaces))
}

/// Whether the spaces are of full size.
fn are_whole(spaces: &[NodeSpace]) -> bool
    ensures { result ≡ list_all (λ space. nat_eq (length space) space_size) spaces.now }
{
    spaces.iter().all(|space| space.len() == SPACE as usize)
}

/// Whether there are 1 to 8 spaces of full size.
fn may_be_checked(spaces: &NodeSpaces) -> bool
    ensures { OnTrue result ((1 ≤ length spaces.now) × (length spaces.now ≤ 8)
        × AllByRecursion (λ space. length space ≡ space_size) spaces.now) }
{
    let spaces = spaces.as_slice();
    if spaces.is_empty() || spaces.len() > 8 {
        return false;
    }
    are_whole(spaces)
}

/// The store that whole spaces hold.
fn store_of(alloc: Global, spaces: &NodeSpaces) -> Result<Store, Fail> {
    if !may_be_checked(spaces) {
        return Err(Fail::new("the spaces are not whole"));
    }
    Ok(check(alloc, spaces)?)
}

/// A Get of a key in `main`.
fn get(alloc: Global, key: &[u8]) -> Result<Op, Fail> {
    let mut steps = Vec::new(alloc);
    steps.push(Step::Get {
        key: Key::new(alloc, key)?,
    })?;
    Ok(Op::Tx {
        version: Name::new(alloc, b"main")?,
        steps: Steps::new(steps)?,
    })
}

/// Whether a Get found this value, or none.
fn has_found(reply: &Reply, value: Option<&[u8]>) -> bool {
    let Reply::Values { found } = reply else {
        return false;
    };
    match found.as_slice() {
        [Some(found)] => value == Some(found.as_slice()),
        [None] => value.is_none(),
        _ => false,
    }
}

/// Whether `main` is the only version, and has these values, or none, at these keys.
fn shows(
    alloc: Global,
    spaces: &NodeSpaces,
    values: &[(&[u8], Option<&[u8]>)],
) -> Result<bool, Fail> {
    let mut store = store_of(alloc, spaces)?;
    for (key, value) in values {
        let reply = store.apply(alloc, &get(alloc, key)?)?;
        if !has_found(&reply, *value) {
            return Ok(false);
        }
    }
    Ok(store.listing(alloc)?.as_slice().len() == 1)
}

const VALUES: &[(&[u8], Option<&[u8]>)] = &[
    (b"k1", Some(b"v")),
    (b"k5", None),
    (b"k9", Some(b"w")),
];

#[test]
fn shows_the_tree(rt: HostRuntime) -> Result<(), Fail> {
    let alloc = rt.alloc();
    let spaces = changed(alloc, TREE, &[])?;
    assert!(rt; shows(alloc, &spaces, VALUES)?);
    Ok(())
}

#[test]
fn shows_the_base_of_one_and_of_eight_nodes(rt: HostRuntime) -> Result<(), Fail> {
    let alloc = rt.alloc();
    for nodes in [1u8, 8] {
        assert!(rt; shows(alloc, &base_spaces(alloc, nodes)?, &[(b"k1", None)])?);
    }
    Ok(())
}

/// Changes, and the node and the place of what breaks a rule; none where none is broken.
type Row = (&'static [Change], Option<(u8, u32, Rule)>);

/// What the check says of a memory.
fn found(alloc: Global, spaces: &NodeSpaces) -> Result<Option<(u8, u32, Rule)>, Fail> {
    if !may_be_checked(spaces) {
        return Err(Fail::new("the spaces are not whole"));
    }
    match check(alloc, spaces) {
        Ok(_store) => Ok(None),
        Err(ForestError::Broken { node, start, rule }) => Ok(Some((node.0, start, rule))),
        Err(ForestError::NoMemory) => Err(Fail::new("no memory")),
    }
}

/// Whether the check says so of each row, whose changes come behind those of the tree.
fn says(alloc: Global, tree: &[Change], rows: &[Row]) -> Result<bool, Fail> {
    for (changes, said) in rows {
        if found(alloc, &changed(alloc, tree, changes)?)? != *said {
            return Ok(false);
        }
    }
    Ok(true)
}

const FRONTS: &[Row] = &[
    (&[(0, 0, b"X")], Some((0, 0, Rule::Header))),
    (&[(1, 8, &[0])], Some((1, 0, Rule::Header))),
    (&[(0, 15, &[1])], Some((0, 0, Rule::Header))),
    (&[(0, 24, &[1])], Some((0, 0, Rule::Header))),
    (&[(1, 20_479, &[1])], Some((1, 0, Rule::Header))),
    (&[(1, 22, &[16, 1])], Some((1, 16, Rule::Count))),
    // The entry of `main` is none, is no entry, or is frozen; the root's slot is above the
    // count.
    (&[(0, 64, &[0; 64])], Some((0, 64, Rule::Entry))),
    (&[(0, 72, &[3])], Some((0, 64, Rule::Entry))),
    (&[(0, 72, FROZEN)], Some((0, 64, Rule::Entry))),
    (&[(0, 73, &[0])], Some((0, 64, Rule::Entry))),
    (&[(0, 76, &[1])], Some((0, 64, Rule::Root))),
    (&[(0, 74, &[1])], Some((0, 64, Rule::Root))),
    (&[(0, 4_159, &[1])], Some((0, 4_096, Rule::Entry))),
    (&[(1, 4_159, &[1])], Some((1, 4_096, Rule::Entry))),
];

const SECOND_CATALOG: &[Row] = &[
    // On node 1 the entry of `main` is none, is another one, or is no entry.
    (&[(1, 64, &[0; 64])], Some((1, 64, Rule::Entry))),
    (&[(1, 71, &[2])], Some((1, 64, Rule::Entry))),
    (&[(1, 72, &[3])], Some((1, 64, Rule::Entry))),
    (&[(1, 127, &[1])], Some((1, 64, Rule::Entry))),
    (&[(1, 128, NEXT)], Some((1, 128, Rule::Entry))),
    // Where both nodes have the same fault, node 0's is named; of a root node 0 alone is at fault.
    (&[(0, 72, &[3]), (1, 72, &[3])], Some((0, 64, Rule::Entry))),
    (
        &[(0, 64, &[0; 64]), (1, 64, &[0; 64])],
        Some((0, 64, Rule::Entry)),
    ),
    (&[(0, 76, &[1]), (1, 76, &[1])], Some((0, 64, Rule::Root))),
    // Both have another number.
    (&[(0, 71, &[2]), (1, 71, &[2])], None),
];

#[test]
fn names_an_entry_that_differs_from_node_0(rt: HostRuntime) -> Result<(), Fail> {
    assert!(rt; says(rt.alloc(), &[], SECOND_CATALOG)?);
    Ok(())
}

#[test]
fn names_the_front_at_fault(rt: HostRuntime) -> Result<(), Fail> {
    assert!(rt; says(rt.alloc(), &[], FRONTS)?);
    Ok(())
}

/// Node 0 has given out two slots.
const TWO: Change = (0, 23, &[2]);

/// The page of `main` was copied for version 1.
const COPIED: Change = (0, SLOT_0 + 19, &[2]);

const FROZEN_MAIN: Change = (0, 72, FROZEN);

const CHILD: Change = (0, 128, NEXT);

const ITS_LEAF: Change = (0, SLOT_1, NEXT_LEAF);

/// The same entries on node 1.
const FROZEN_THERE: Change = (1, 72, FROZEN);

const CHILD_THERE: Change = (1, 128, NEXT);

const ENTRIES: &[Row] = &[
    (
        &[
            FROZEN_MAIN,
            FROZEN_THERE,
            TWO,
            ITS_LEAF,
            COPIED,
            CHILD,
            CHILD_THERE,
        ],
        None,
    ),
    // Node 1 has one of the two entries alone.
    (
        &[FROZEN_MAIN, TWO, ITS_LEAF, COPIED, CHILD, CHILD_THERE],
        Some((1, 64, Rule::Entry)),
    ),
    (
        &[FROZEN_MAIN, FROZEN_THERE, TWO, ITS_LEAF, COPIED, CHILD],
        Some((1, 128, Rule::Entry)),
    ),
    // Its name stands twice; it is behind a free entry.
    (
        &[FROZEN_MAIN, TWO, ITS_LEAF, COPIED, (0, 128, MAIN_AGAIN)],
        Some((0, 128, Rule::Entry)),
    ),
    (
        &[FROZEN_MAIN, TWO, ITS_LEAF, COPIED, (0, 192, NEXT)],
        Some((0, 192, Rule::Entry)),
    ),
    // `main` is not frozen, is not copied; the child's root is a page of `main`.
    (&[TWO, ITS_LEAF, COPIED, CHILD], Some((0, 64, Rule::Entry))),
    (
        &[FROZEN_MAIN, TWO, ITS_LEAF, CHILD],
        Some((0, 20_480, Rule::Reach)),
    ),
    (
        &[FROZEN_MAIN, TWO, (0, SLOT_1, LEAF), COPIED, CHILD],
        Some((0, 128, Rule::Root)),
    ),
];

#[test]
fn names_the_entry_at_fault(rt: HostRuntime) -> Result<(), Fail> {
    assert!(rt; says(rt.alloc(), &[], ENTRIES)?);
    Ok(())
}

const PAGES: &[Row] = &[
    // A slot below the count without a page, one from there on that is not free, a version that is
    // not there.
    (&[TWO], Some((0, 21_504, Rule::Page))),
    (&[(0, SLOT_1, LEAF)], Some((0, 21_504, Rule::Page))),
    (&[TWO, ITS_LEAF], Some((0, 21_504, Rule::Page))),
    // A page that nothing names.
    (&[TWO, (0, SLOT_1, LEAF)], Some((0, 21_504, Rule::Reach))),
];

#[test]
fn names_the_page_at_fault(rt: HostRuntime) -> Result<(), Fail> {
    assert!(rt; says(rt.alloc(), &[], PAGES)?);
    Ok(())
}

const CHILDREN: &[Row] = &[
    // The left leaf ends at `k6`, the right one begins at `k6`, the root is 2 high, a child's slot
    // is above the count.
    (&[(1, SLOT_0 + 24, b"6")], Some((0, 20_480, Rule::Child))),
    (&[(0, SLOT_1 + 22, b"6")], Some((0, 20_480, Rule::Child))),
    (&[(0, SLOT_0 + 10, &[2])], Some((0, 20_480, Rule::Child))),
    (&[(1, 23, &[0])], Some((0, 20_480, Rule::Child))),
];

#[test]
fn names_the_child_at_fault(rt: HostRuntime) -> Result<(), Fail> {
    assert!(rt; says(rt.alloc(), TREE, CHILDREN)?);
    Ok(())
}

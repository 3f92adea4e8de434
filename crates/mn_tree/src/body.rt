ghost use Rattle.std.specs.Prelude.{◌≡◌, ◌≤◌, ◌<◌, ◌++◌, ◌∷◌, [], length, IfOk, OnOk};
ghost use Rattle.std.specs.Option.{option_to_list};
ghost use Rattle.mn_page.specs.Grammar.{height_of};
ghost use Rattle.mn_page.specs.Holds.{pairs_in};
ghost use Rattle.mn_page.specs.Overlay.{halves_of, leaf_halves, inner_halves, body_with, rest_with};
ghost use Rattle.mn_tree.specs.Parts.{AreParts, AreHalves};
ghost use Rattle.mn_page.specs.declared.page.Body.TheVariants.{Leaf, Inner};

use crate::held::is_same;
use mn_base::{Addr, Key, NoMemory, Pair, Pairs, TryCopy};
use mn_page::{Body, Branches, Child};
use std::alloc::Global;

/// The most pairs of a leaf, and the most children of an inner page.
const MOST: usize = 8;

/// How many stay at the left when a page splits.
const LEFT: usize = 4;

/// A body that one page can hold, or its two halves, with the first key or lower fence of the right
/// one.
#[derive(Drop)]
pub enum Parts {
    Whole {
        body: Body,
    },
    Halves {
        left: Body,
        separator: Key,
        right: Body,
    },
}

/// The pairs of a leaf; an inner page has none.
pub fn pairs_of(body: &Body) -> &[Pair]
    ensures { result.now ≡ pairs_in body.now }
{
    match body {
        Body::Leaf { pairs } => pairs.as_slice(),
        Body::Inner { .. } => &[],
    }
}

pub fn leaf_of(pairs: Vec<Pair>) -> Body
    ensures { result ≡ Leaf pairs.items }
{
    Body::Leaf {
        pairs: Pairs::from_vec(pairs),
    }
}

/// The halves of the pairs of a leaf, of which there are too many.
fn split_leaf(alloc: Global, pairs: Vec<Pair>) -> Result<Parts, NoMemory>
    requires { 8 < length pairs.items }
    ensures { IfOk result (AreHalves (leaf_halves pairs.items)) }
{
    let mut left = pairs;
    let right = left.split_off(LEFT)?;
    let separator = right[0].key.try_copy(alloc)?;
    Ok(Parts::Halves {
        left: leaf_of(left),
        separator,
        right: leaf_of(right),
    })
}

/// The halves of an inner page, which has too many children.
fn split_inner(alloc: Global, height: u16, first: Addr, rest: Vec<Child>) -> Result<Parts, NoMemory>
    requires { 8 ≤ length rest.items }
    ensures { IfOk result (AreHalves (inner_halves height first rest.items)) }
{
    let mut left = rest;
    let mut right = left.split_off(LEFT - 1)?;
    let Child { separator, addr } = right.remove(0);
    Ok(Parts::Halves {
        left: Body::Inner {
            height,
            first,
            rest: Branches::from_vec(alloc, left)?,
        },
        separator,
        right: Body::Inner {
            height,
            first: addr,
            rest: Branches::from_vec(alloc, right)?,
        },
    })
}

/// A body as it fits into pages: a ninth pair or child splits it.
pub fn parts_of(alloc: Global, body: Body) -> Result<Parts, NoMemory>
    ensures { IfOk result (AreParts body (halves_of body)) }
{
    match body {
        Body::Leaf { pairs } => {
            let pairs = pairs.into_vec();
            if pairs.len() <= MOST {
                return Ok(Parts::Whole {
                    body: leaf_of(pairs),
                });
            }
            split_leaf(alloc, pairs)
        }
        Body::Inner {
            height,
            first,
            rest,
        } => {
            if rest.as_slice().len() < MOST {
                return Ok(Parts::Whole {
                    body: Body::Inner {
                        height,
                        first,
                        rest,
                    },
                });
            }
            split_inner(alloc, height, first, rest.into_vec(alloc)?)
        }
    }
}

/// Adds a copy of a child.
fn push_copy(alloc: Global, children: &mut Vec<Child>, child: &Child) -> Result<(), NoMemory>
    ensures { OnOk result (children.new.items ≡ children.old.items ++ child.now ∷ []) }
{
    let child = child.try_copy(alloc)?;
    children.push(child)?;
    Ok(())
}

/// Adds copies of children.
fn push_copies(alloc: Global, children: &mut Vec<Child>, more: &[Child]) -> Result<(), NoMemory>
    ensures { OnOk result (children.new.items ≡ children.old.items ++ more.now) }
{
    for child in more {
        push_copy(alloc, children, child)?;
    }
    Ok(())
}

/// Adds perhaps a child, and copies of others after it.
fn push_first(
    alloc: Global,
    children: &mut Vec<Child>,
    more: Option<Child>,
    after: &[Child],
) -> Result<(), NoMemory>
    ensures { OnOk result (children.new.items
        ≡ children.old.items ++ (option_to_list more ++ after.now)) }
{
    match more {
        Some(child) => {
            children.push(child)?;
            push_copies(alloc, children, after)
        }
        None => push_copies(alloc, children, after),
    }
}

/// Adds a child at another address, perhaps a further one, and copies of others behind these.
fn push_tail(
    alloc: Global,
    children: &mut Vec<Child>,
    separator: &Key,
    now: Addr,
    more: Option<Child>,
    after: &[Child],
) -> Result<(), NoMemory>
    ensures { OnOk result (children.new.items
        ≡ children.old.items ++ (record { separator = separator.now; addr = now }
        ∷ (option_to_list more ++ after.now))) }
{
    let separator = separator.try_copy(alloc)?;
    children.push(Child {
        separator,
        addr: now,
    })?;
    push_first(alloc, children, more, after)
}

/// Adds copies of the children with the one at `addr` at another address, and perhaps a further one
/// after it.
fn push_rest_with(
    alloc: Global,
    children: &mut Vec<Child>,
    rest: &[Child],
    addr: Addr,
    now: Addr,
    more: Option<Child>,
) -> Result<(), NoMemory>
    ensures { OnOk result (children.new.items
        ≡ children.old.items ++ rest_with rest.now addr now more) }
{
    for (at, child) in rest.iter().enumerate() {
        if is_same(child.addr, addr) {
            return push_tail(
                alloc,
                children,
                &child.separator,
                now,
                more,
                &rest[at + 1..],
            );
        }
        push_copy(alloc, children, child)?;
    }
    Ok(())
}

/// A body with the child at `addr` at another address, and perhaps a further child after it.
pub fn with_children(
    alloc: Global,
    body: &Body,
    addr: Addr,
    now: Addr,
    more: Option<Child>,
) -> Result<Body, NoMemory>
    ensures { IfOk result (λ made. made ≡ body_with body.now addr now more) }
{
    match body {
        Body::Leaf { .. } => Ok(body.try_copy(alloc)?),
        Body::Inner {
            height,
            first,
            rest,
        } => {
            let mut children = Vec::new(alloc);
            if is_same(*first, addr) {
                push_first(alloc, &mut children, more, rest.as_slice())?;
                return Ok(Body::Inner {
                    height: *height,
                    first: now,
                    rest: Branches::from_vec(alloc, children)?,
                });
            }
            push_rest_with(alloc, &mut children, rest.as_slice(), addr, now, more)?;
            Ok(Body::Inner {
                height: *height,
                first: *first,
                rest: Branches::from_vec(alloc, children)?,
            })
        }
    }
}

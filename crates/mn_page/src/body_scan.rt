ghost use Rattle.std.specs.Prelude.{◌≡◌, ◌≤◌, ◌++◌, ℕ, List, length, map, IfSome, IsSomeAnd};
ghost use Rattle.std.specs.List.{flat_map};
ghost use Rattle.std.specs.Option.{option_map};
ghost use Rattle.mn_base.specs.declared.ids.Addr.{Addr};
ghost use Rattle.mn_base.specs.declared.reply.Pair.{Pair};
ghost use Rattle.mn_page.specs.declared.page.Body.{Body};
ghost use Rattle.mn_page.specs.declared.page.Body.TheVariants.{Leaf, Inner};
ghost use Rattle.mn_page.specs.declared.page.Child.{Child};
ghost use Rattle.mn_page.specs.Grammar.{pair_bytes};
ghost use Rattle.mn_page.specs.Reading.{Begins, pair_seen, child_seen, pairs_seen, children_seen};
ghost use Rattle.mn_page.specs.Reading.{body_seen, ArePairsOf, AreChildrenOf, children_text};
ghost use Rattle.mn_page.specs.Reading.{IsBodyAt, body_text, HasCounted, HasSizes};
ghost use Rattle.mn_page.specs.Reading.{pairs_fit, ascends_to};

use crate::page_ref::{BodyRef, ChildRef, PairRef};
use crate::scan::{first_addr, first_byte, first_children, first_pairs, is_below};
use mn_base::{Addr, key_precedes};

/// Whether the pairs ascend from the low fence to the high one. The first and the last tell it for
/// those between them.
fn pairs_fit(low: &[u8], high: Option<&[u8]>, pairs: &[PairRef<'_>]) -> bool
    ensures { result
        ≡ pairs_fit low.now (option_map (λ h. h.now) high.entry) (map pair_seen pairs.now) }
{
    let [first, rest @ ..] = pairs else {
        return true;
    };
    if key_precedes(first.key, low) {
        return false;
    }
    let mut last = first.key;
    let mut rest = rest;
    while let [pair, behind @ ..] = rest {
        if !key_precedes(last, pair.key) {
            return false;
        }
        last = pair.key;
        rest = behind;
    }
    is_below(last, high)
}

/// Whether the separators ascend from the low fence, which is below them, to the high one.
fn children_fit(low: &[u8], high: Option<&[u8]>, children: &[ChildRef<'_>]) -> bool
    ensures { result ≡ ascends_to low.now (map (λ c. c.separator) (map child_seen children.now))
        (option_map (λ h. h.now) high.entry) }
{
    let mut above = low;
    let mut rest = children;
    while let [child, behind @ ..] = rest {
        if !key_precedes(above, child.separator) {
            return false;
        }
        above = child.separator;
        rest = behind;
    }
    is_below(above, high)
}

/// Reads the pairs of a leaf, so many, into an array, and gives what follows them.
#[inline(always)]
fn leaf_pairs<'a>(
    pairs: &mut [PairRef<'a>; 8],
    low: &[u8],
    high: Option<&[u8]>,
    bytes: &'a [u8],
    count: usize,
) -> Option<&'a [u8]>
    ensures found { IfSome result
        (λ rest. Begins (ArePairsOf low.now (option_map (λ h. h.now) high.entry) count)
        (flat_map pair_bytes) bytes.now (pairs_seen count pairs.new) rest.now) }
    ensures few { IfSome result (λ rest. count ≤ 8) }
    ensures size { IfSome result (λ rest. length pairs.new ≡ 8) }
    ensures only { (ps : List Pair) (more : List ℕ)
        → ArePairsOf low.now (option_map (λ h. h.now) high.entry) count ps
        → bytes.now ≡ flat_map pair_bytes ps ++ more
        → IsSomeAnd result (λ rest. (pairs_seen count pairs.new ≡ ps) × (rest.now ≡ more)) }
{
    if count > 8 {
        return None;
    }
    let rest = first_pairs(pairs, bytes, count)?;
    if !pairs_fit(low, high, &pairs[..count]) {
        return None;
    }
    Some(rest)
}

/// Reads the children of an inner page, so many after the first, into an array. It gives the first
/// one, and what follows them.
#[inline(always)]
fn inner_children<'a>(
    children: &mut [ChildRef<'a>; 7],
    low: &[u8],
    high: Option<&[u8]>,
    bytes: &'a [u8],
    count: usize,
) -> Option<(Addr, &'a [u8])>
    ensures found { IfSome result
        (λ x. Begins (AreChildrenOf low.now (option_map (λ h. h.now) high.entry) count)
        children_text bytes.now (x.0, children_seen count children.new) x.1.now) }
    ensures few { IfSome result (λ x. count ≤ 7) }
    ensures size { IfSome result (λ x. length children.new ≡ 7) }
    ensures only { (cs : Addr × List Child) (more : List ℕ)
        → AreChildrenOf low.now (option_map (λ h. h.now) high.entry) count cs
        → bytes.now ≡ children_text cs ++ more
        → IsSomeAnd result (λ x. (x.0 ≡ cs.0) × (children_seen count children.new ≡ cs.1)
        × (x.1.now ≡ more)) }
{
    if count < 1 || count > 7 {
        return None;
    }
    let (first, behind) = first_addr(bytes)?;
    let behind = first_children(children, behind, count)?;
    if !children_fit(low, high, &children[..count]) {
        return None;
    }
    Some((first, behind))
}

/// Reads a leaf of so many pairs, and gives what follows it.
#[inline(always)]
fn leaf_body<'a>(
    body: &mut BodyRef<'a>,
    low: &[u8],
    high: Option<&[u8]>,
    bytes: &'a [u8],
    count: usize,
) -> Option<&'a [u8]>
    requires sizes { HasSizes body.old }
    ensures found { IfSome result
        (λ rest. (pairs : List Pair) × (body_seen body.new ≡ Leaf pairs)
        × Begins (ArePairsOf low.now (option_map (λ h. h.now) high.entry) count)
        (flat_map pair_bytes) bytes.now pairs rest.now) }
    ensures room { IfSome result (λ rest. HasCounted body.new) }
    ensures only { (pairs : List Pair) (more : List ℕ)
        → ArePairsOf low.now (option_map (λ h. h.now) high.entry) count pairs
        → bytes.now ≡ flat_map pair_bytes pairs ++ more
        → IsSomeAnd result (λ rest. (body_seen body.new ≡ Leaf pairs) × (rest.now ≡ more)) }
{
    body.height = 0;
    body.count = count;
    leaf_pairs(&mut body.pairs, low, high, bytes, count)
}

/// Reads an inner page of the first child and so many more, and gives what follows it.
#[inline(always)]
fn inner_body<'a>(
    body: &mut BodyRef<'a>,
    height: u16,
    low: &[u8],
    high: Option<&[u8]>,
    bytes: &'a [u8],
    count: usize,
) -> Option<&'a [u8]>
    requires height { 1 ≤ height }
    requires sizes { HasSizes body.old }
    ensures found { IfSome result
        (λ rest. (children : Addr × List Child)
        × (body_seen body.new ≡ Inner height children.0 children.1)
        × Begins (AreChildrenOf low.now (option_map (λ h. h.now) high.entry) count) children_text
        bytes.now children rest.now) }
    ensures room { IfSome result (λ rest. HasCounted body.new) }
    ensures only { (children : Addr × List Child) (more : List ℕ)
        → AreChildrenOf low.now (option_map (λ h. h.now) high.entry) count children
        → bytes.now ≡ children_text children ++ more
        → IsSomeAnd result (λ rest. (body_seen body.new ≡ Inner height children.0 children.1)
        × (rest.now ≡ more)) }
{
    let (first, behind) = inner_children(&mut body.rest, low, high, bytes, count)?;
    body.height = height;
    body.count = count;
    body.first = first;
    Some(behind)
}

/// Reads the body of a page of this height and with these fences, behind its count, and gives what
/// follows it.
#[inline(always)]
pub fn first_body<'a>(
    body: &mut BodyRef<'a>,
    height: u16,
    low: &[u8],
    high: Option<&[u8]>,
    bytes: &'a [u8],
) -> Option<&'a [u8]>
    requires sizes { HasSizes body.old }
    ensures found { IfSome result
        (λ rest. Begins (IsBodyAt height low.now (option_map (λ h. h.now) high.entry)) body_text
        bytes.now (body_seen body.new) rest.now) }
    ensures room { IfSome result (λ rest. HasCounted body.new) }
    ensures only { (b : Body) (more : List ℕ)
        → IsBodyAt height low.now (option_map (λ h. h.now) high.entry) b
        → bytes.now ≡ body_text b ++ more
        → IsSomeAnd result (λ rest. (body_seen body.new ≡ b) × (rest.now ≡ more)) }
{
    let (count, behind) = first_byte(bytes)?;
    let count = count as usize;
    if height == 0 {
        return leaf_body(body, low, high, behind, count);
    }
    if count == 0 {
        return None;
    }
    inner_body(body, height, low, high, behind, count - 1)
}

ghost use Rattle.std.specs.Prelude.{◌≡◌, ◌≤◌, ◌<◌, ◌^◌, ◌++◌, ◌∷◌, [], ℕ, List, Option, length};
ghost use Rattle.std.specs.Prelude.{IfSome, IsSomeAnd};
ghost use Rattle.std.specs.List.{flat_map};
ghost use Rattle.std.specs.Option.{option_map};
ghost use Rattle.byteorder.specs.Endian.{big_bytes};
ghost use Rattle.mn_base.specs.Order.{below_bound};
ghost use Rattle.mn_base.specs.Tree.{has_version};
ghost use Rattle.mn_base.specs.declared.ids.Addr.{Addr};
ghost use Rattle.mn_base.specs.declared.reply.Pair.{Pair};
ghost use Rattle.mn_page.specs.declared.page.Child.{Child};
ghost use Rattle.mn_page.specs.declared.page_ref.Head.{Head};
ghost use Rattle.mn_page.specs.Grammar.{IsAddr, IsBound, addr_bytes, counted};
ghost use Rattle.mn_page.specs.Grammar.{high_bytes, pair_bytes, child_bytes};
ghost use Rattle.mn_page.specs.Reading.{Begins, HasLength, as_they_stand, head_text, IsHead};
ghost use Rattle.mn_page.specs.Reading.{kind_at, eight, are_above, IsSeq, height_text};
ghost use Rattle.mn_page.specs.Reading.{versions_text, AreVersions, pair_seen, child_seen};
ghost use Rattle.mn_page.specs.Reading.{pairs_seen, children_seen, IsPair, IsChild, AreMany};

use crate::page_ref::{ChildRef, Head, PairRef};
use byteorder::{BigEndian, ByteOrder};
use mn_base::{Addr, NodeNo, VersionNo, key_precedes};

/// The first byte, and what follows it.
#[inline(always)]
pub fn first_byte(bytes: &[u8]) -> Option<(u8, &[u8])>
    ensures found { IfSome result (λ x. bytes.now ≡ x.0 ∷ x.1.now) }
    ensures only { (byte : ℕ) (more : List ℕ) → bytes.now ≡ byte ∷ more
        → IsSomeAnd result (λ x. (x.0 ≡ byte) × (x.1.now ≡ more)) }
{
    match bytes {
        [byte, rest @ ..] => Some((*byte, rest)),
        [] => None,
    }
}

/// The number in the first two bytes, and what follows them.
#[inline(always)]
fn first_u16(bytes: &[u8]) -> Option<(u16, &[u8])>
    ensures found { IfSome result (λ x. bytes.now ≡ big_bytes 2 x.0 ++ x.1.now) }
    ensures only { (n : ℕ) (more : List ℕ) → n < 2 ^ 16 → bytes.now ≡ big_bytes 2 n ++ more
        → IsSomeAnd result (λ x. (x.0 ≡ n) × (x.1.now ≡ more)) }
{
    if bytes.len() < 2 {
        return None;
    }
    Some((BigEndian::read_u16(bytes), &bytes[2..]))
}

/// The number in the first eight bytes, and what follows them.
#[tactic(auto, unfolding(crate::specs::Reading::eight))]
#[inline(always)]
fn first_u64(bytes: &[u8]) -> Option<(u64, &[u8])>
    ensures found { IfSome result (λ x. bytes.now ≡ eight x.0 ++ x.1.now) }
    ensures only { (n : ℕ) (more : List ℕ) → n < 2 ^ 64 → bytes.now ≡ eight n ++ more
        → IsSomeAnd result (λ x. (x.0 ≡ n) × (x.1.now ≡ more)) }
{
    if bytes.len() < 8 {
        return None;
    }
    Some((BigEndian::read_u64(bytes), &bytes[8..]))
}

/// The first bytes, so many, and what follows them.
#[tactic(auto, using(crate::proofs::Scanned::are_bytes))]
#[inline(always)]
pub fn first_text(bytes: &[u8], length: usize) -> Option<(&[u8], &[u8])>
    ensures found { IfSome result
        (λ x. Begins (HasLength length length) as_they_stand bytes.now x.0.now x.1.now) }
    ensures only { (text more : List ℕ) → Rattle.std.specs.Prelude.length text ≡ length
        → bytes.now ≡ text ++ more → IsSomeAnd result (λ x. (x.0.now ≡ text) × (x.1.now ≡ more)) }
{
    if length > bytes.len() {
        return None;
    }
    let (text, rest) = bytes.split_at(length);
    Some((text, rest))
}

/// The bytes behind their length in one byte, where it is within bounds, and what follows them.
#[inline(always)]
pub fn first_counted(bytes: &[u8], least: usize, most: usize) -> Option<(&[u8], &[u8])>
    ensures found { IfSome result
        (λ x. Begins (HasLength least most) counted bytes.now x.0.now x.1.now) }
    ensures only { (text more : List ℕ) → HasLength least most text
        → bytes.now ≡ counted text ++ more
        → IsSomeAnd result (λ x. (x.0.now ≡ text) × (x.1.now ≡ more)) }
{
    let [length, rest @ ..] = bytes else {
        return None;
    };
    let length = *length as usize;
    if length < least || length > most {
        return None;
    }
    first_text(rest, length)
}

#[inline(always)]
pub fn first_addr(bytes: &[u8]) -> Option<(Addr, &[u8])>
    ensures found { IfSome result (λ x. Begins IsAddr addr_bytes bytes.now x.0 x.1.now) }
    ensures only { (addr : Addr) (more : List ℕ) → IsAddr addr → bytes.now ≡ addr_bytes addr ++ more
        → IsSomeAnd result (λ x. (x.0 ≡ addr) × (x.1.now ≡ more)) }
{
    let [node, behind @ ..] = bytes else {
        return None;
    };
    let (slot, rest) = first_u16(behind)?;
    if *node > 7 || slot > 4_095 {
        return None;
    }
    let node = NodeNo(*node);
    Some((Addr { node, slot }, rest))
}

fn is_in(copied: u64, version: u8) -> bool
    requires { version < 64 }
    ensures { result ≡ has_version copied version }
{
    (copied >> version) & 1 == 1
}

/// Whether each version of the set is above this one.
#[tactic(auto, unfolding(crate::specs::Reading::are_above))]
fn are_above(made: u8, copied: u64) -> bool
    ensures { result ≡ are_above made copied }
{
    if copied == 0 {
        return true;
    }
    (0..64)
        .filter(|version| is_in(copied, *version))
        .all(|version| made < version)
}

fn kind_at(height: u16) -> u8
    ensures { result ≡ kind_at height }
{
    if height == 0 { 1 } else { 2 }
}

/// How often the slot was written, from 1, and what follows.
#[inline(always)]
pub fn first_seq(bytes: &[u8]) -> Option<(u64, &[u8])>
    ensures found { IfSome result (λ x. Begins IsSeq eight bytes.now x.0 x.1.now) }
    ensures only { (seq : ℕ) (more : List ℕ) → IsSeq seq → bytes.now ≡ eight seq ++ more
        → IsSomeAnd result (λ x. (x.0 ≡ seq) × (x.1.now ≡ more)) }
{
    let (seq, rest) = first_u64(bytes)?;
    if seq < 1 {
        return None;
    }
    Some((seq, rest))
}

/// The height, behind its kind, and what follows.
#[inline(always)]
pub fn first_height(bytes: &[u8]) -> Option<(u16, &[u8])>
    ensures found { IfSome result (λ x. bytes.now ≡ height_text x.0 ++ x.1.now) }
    ensures only { (height : ℕ) (more : List ℕ) → height < 2 ^ 16
        → bytes.now ≡ height_text height ++ more
        → IsSomeAnd result (λ x. (x.0 ≡ height) × (x.1.now ≡ more)) }
{
    let [kind, behind @ ..] = bytes else {
        return None;
    };
    let (height, rest) = first_u16(behind)?;
    if *kind != kind_at(height) {
        return None;
    }
    Some((height, rest))
}

/// The made version and the versions that the page was copied for, and what follows.
#[inline(always)]
pub fn first_versions(bytes: &[u8]) -> Option<((u8, u64), &[u8])>
    ensures found { IfSome result (λ x. Begins AreVersions versions_text bytes.now x.0 x.1.now) }
    ensures only { (v : ℕ × ℕ) (more : List ℕ) → AreVersions v → bytes.now ≡ versions_text v ++ more
        → IsSomeAnd result (λ x. (x.0 ≡ v) × (x.1.now ≡ more)) }
{
    let [made, behind @ ..] = bytes else {
        return None;
    };
    let (copied, rest) = first_u64(behind)?;
    if *made > 63 || !are_above(*made, copied) {
        return None;
    }
    Some(((*made, copied), rest))
}

/// What stands before the fences, and what follows.
#[inline(always)]
pub fn first_head(bytes: &[u8]) -> Option<(Head, &[u8])>
    ensures found { IfSome result (λ x. Begins IsHead head_text bytes.now x.0 x.1.now) }
    ensures only { (head : Head) (more : List ℕ) → IsHead head → bytes.now ≡ head_text head ++ more
        → IsSomeAnd result (λ x. (x.0 ≡ head) × (x.1.now ≡ more)) }
{
    let (seq, behind) = first_seq(bytes)?;
    let (height, behind) = first_height(behind)?;
    let ((made, copied), rest) = first_versions(behind)?;
    let made = VersionNo(made);
    Some((
        Head {
            seq,
            height,
            made,
            copied,
        },
        rest,
    ))
}

/// The bound above the keys, and what follows it.
#[inline(always)]
pub fn first_high(bytes: &[u8]) -> Option<(Option<&[u8]>, &[u8])>
    ensures found { IfSome result
        (λ x. Begins IsBound high_bytes bytes.now (option_map (λ h. h.now) x.0) x.1.now) }
    ensures only { (high : Option (List ℕ)) (more : List ℕ) → IsBound high
        → bytes.now ≡ high_bytes high ++ more
        → IsSomeAnd result (λ x. (option_map (λ h. h.now) x.0 ≡ high) × (x.1.now ≡ more)) }
{
    match bytes {
        [0, rest @ ..] => Some((None, rest)),
        [1, behind @ ..] => {
            let (high, rest) = first_counted(behind, 1, 32)?;
            Some((Some(high), rest))
        }
        _ => None,
    }
}

/// Whether the key is below the bound.
#[inline(always)]
pub fn is_below(key: &[u8], high: Option<&[u8]>) -> bool
    ensures { result ≡ below_bound key.now (option_map (λ h. h.now) high.entry) }
{
    match high {
        Some(high) => key_precedes(key, high),
        None => true,
    }
}

/// The pair that the bytes begin with, and what follows.
#[inline(always)]
fn first_pair(bytes: &[u8]) -> Option<(PairRef<'_>, &[u8])>
    ensures found { IfSome result
        (λ x. Begins IsPair pair_bytes bytes.now (pair_seen x.0) x.1.now) }
    ensures only { (pair : Pair) (more : List ℕ) → IsPair pair → bytes.now ≡ pair_bytes pair ++ more
        → IsSomeAnd result (λ x. (pair_seen x.0 ≡ pair) × (x.1.now ≡ more)) }
{
    let (key, behind) = first_counted(bytes, 1, 32)?;
    let (value, rest) = first_counted(behind, 0, 64)?;
    Some((PairRef { key, value }, rest))
}

/// The child after the first that the bytes begin with, and what follows.
#[inline(always)]
fn first_child(bytes: &[u8]) -> Option<(ChildRef<'_>, &[u8])>
    ensures found { IfSome result
        (λ x. Begins IsChild child_bytes bytes.now (child_seen x.0) x.1.now) }
    ensures only { (child : Child) (more : List ℕ) → IsChild child
        → bytes.now ≡ child_bytes child ++ more
        → IsSomeAnd result (λ x. (child_seen x.0 ≡ child) × (x.1.now ≡ more)) }
{
    let (separator, behind) = first_counted(bytes, 1, 32)?;
    let (addr, rest) = first_addr(behind)?;
    Some((ChildRef { separator, addr }, rest))
}

/// An address where nothing is told.
pub const NO_ADDR: Addr = Addr {
    node: NodeNo(0),
    slot: 0,
};

#[inline(always)]
pub fn no_pairs<'a>() -> [PairRef<'a>; 8] {
    [PairRef {
        key: &[],
        value: &[],
    }; 8]
}

#[inline(always)]
pub fn no_children<'a>() -> [ChildRef<'a>; 7] {
    [ChildRef {
        separator: &[],
        addr: NO_ADDR,
    }; 7]
}

/// Reads so many pairs into an array, and gives what follows them.
#[inline(always)]
pub fn first_pairs<'a>(
    pairs: &mut [PairRef<'a>; 8],
    bytes: &'a [u8],
    count: usize,
) -> Option<&'a [u8]>
    requires { count ≤ 8 }
    ensures found { IfSome result
        (λ rest. Begins (AreMany IsPair count) (flat_map pair_bytes) bytes.now
        (pairs_seen count pairs.new) rest.now) }
    ensures size { IfSome result (λ rest. length pairs.new ≡ 8) }
    ensures only { (ps : List Pair) (more : List ℕ) → AreMany IsPair count ps
        → bytes.now ≡ flat_map pair_bytes ps ++ more
        → IsSomeAnd result (λ rest. (pairs_seen count pairs.new ≡ ps) × (rest.now ≡ more)) }
{
    let mut rest = bytes;
    for i in 0..count {
        let (pair, behind) = first_pair(rest)?;
        pairs[i] = pair;
        rest = behind;
    }
    Some(rest)
}

/// Reads so many children after the first into an array, and gives what follows them.
#[inline(always)]
pub fn first_children<'a>(
    children: &mut [ChildRef<'a>; 7],
    bytes: &'a [u8],
    count: usize,
) -> Option<&'a [u8]>
    requires { count ≤ 7 }
    ensures found { IfSome result
        (λ rest. Begins (AreMany IsChild count) (flat_map child_bytes) bytes.now
        (children_seen count children.new) rest.now) }
    ensures size { IfSome result (λ rest. length children.new ≡ 7) }
    ensures only { (cs : List Child) (more : List ℕ) → AreMany IsChild count cs
        → bytes.now ≡ flat_map child_bytes cs ++ more
        → IsSomeAnd result (λ rest. (children_seen count children.new ≡ cs) × (rest.now ≡ more)) }
{
    let mut rest = bytes;
    for i in 0..count {
        let (child, behind) = first_child(rest)?;
        children[i] = child;
        rest = behind;
    }
    Some(rest)
}

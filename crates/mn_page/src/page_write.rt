ghost use Rattle.std.specs.Prelude.{◌≡◌, ◌≤◌, ◌<◌, ◌+◌, ◌*◌, ◌++◌, ◌∷◌, [], List, length};
ghost use Rattle.std.specs.List.{flat_map};
ghost use Rattle.mn_page.specs.Grammar.{page_bytes, high_bytes, pair_bytes, child_bytes, count_in};
ghost use Rattle.mn_page.specs.Grammar.{kind_of, height_of, body_bytes};
ghost use Rattle.mn_page.specs.Space.{slot_size};
ghost use Rattle.mn_page.specs.Written.{Adds, head_bytes, fence_bytes};
ghost use Rattle.mn_padded.specs.Zeros.{IsFilled};

use crate::write::{put_addr, put_byte, put_counted, put_u16, put_u64, put_zeros};
use crate::{Body, Child, Page};
use mn_base::{Key, Pair};

/// Puts the bound above the keys behind the first `at` bytes.
#[inline(always)]
fn put_high(into: &mut [u8], at: usize, high: &Option<Key>) -> usize
    requires { at + 34 ≤ length into.old }
    ensures added { Adds into.old into.new at result (high_bytes high.now) }
    ensures end { result ≤ at + 34 }
{
    match high {
        Some(high) => {
            let at = put_byte(into, at, 1);
            put_counted(into, at, high.as_slice())
        }
        None => put_byte(into, at, 0),
    }
}

#[inline(always)]
fn put_pair(into: &mut [u8], at: usize, pair: &Pair) -> usize
    requires { at + 98 ≤ length into.old }
    ensures added { Adds into.old into.new at result (pair_bytes pair.now) }
    ensures end { result ≤ at + 98 }
{
    let at = put_counted(into, at, pair.key.as_slice());
    put_counted(into, at, pair.value.as_slice())
}

#[inline(always)]
fn put_child(into: &mut [u8], at: usize, child: &Child) -> usize
    requires { at + 36 ≤ length into.old }
    ensures added { Adds into.old into.new at result (child_bytes child.now) }
    ensures end { result ≤ at + 36 }
{
    let at = put_counted(into, at, child.separator.as_slice());
    put_addr(into, at, child.addr)
}

fn put_pairs(into: &mut [u8], start: usize, pairs: &[Pair]) -> usize
    requires { start + 98 * length pairs.now ≤ length into.old }
    ensures added { Adds into.old into.new start result (flat_map pair_bytes pairs.now) }
    ensures end { result ≤ start + 98 * length pairs.now }
{
    let mut at = start;
    for pair in pairs {
        at = put_pair(into, at, pair);
    }
    at
}

fn put_children(into: &mut [u8], start: usize, children: &[Child]) -> usize
    requires { start + 36 * length children.now ≤ length into.old }
    ensures added { Adds into.old into.new start result (flat_map child_bytes children.now) }
    ensures end { result ≤ start + 36 * length children.now }
{
    let mut at = start;
    for child in children {
        at = put_child(into, at, child);
    }
    at
}

fn put_body(into: &mut [u8], at: usize, body: &Body) -> usize
    requires few { count_in body.now ≤ 8 }
    requires room { at + 785 ≤ length into.old }
    ensures added { Adds into.old into.new at result (count_in body.now ∷ body_bytes body.now) }
    ensures end { result ≤ at + 785 }
{
    match body {
        Body::Leaf { pairs } => {
            let pairs = pairs.as_slice();
            let at = put_byte(into, at, pairs.len() as u8);
            put_pairs(into, at, pairs)
        }
        Body::Inner { first, rest, .. } => {
            let rest = rest.as_slice();
            let at = put_byte(into, at, rest.len() as u8 + 1);
            let at = put_addr(into, at, *first);
            put_children(into, at, rest)
        }
    }
}

/// Puts what stands before the fences at the front, with this sequence number.
fn put_head(into: &mut [u8], page: &Page, seq: u64) -> usize
    requires { 20 ≤ length into.old }
    ensures added { Adds into.old into.new 0 result (head_bytes (record page.now { seq = seq })) }
    ensures end { result ≡ 20 }
{
    let (kind, height) = match &page.body {
        Body::Leaf { .. } => (1, 0),
        Body::Inner { height, .. } => (2, *height),
    };
    let at = put_u64(into, 0, seq);
    let at = put_byte(into, at, kind);
    let at = put_u16(into, at, height);
    let at = put_byte(into, at, page.made.0);
    put_u64(into, at, page.copied)
}

fn put_fences(into: &mut [u8], at: usize, page: &Page) -> usize
    requires low { length page.now.low ≤ 32 }
    requires room { at + 67 ≤ length into.old }
    ensures added { Adds into.old into.new at result (fence_bytes page.now) }
    ensures end { result ≤ at + 67 }
{
    let at = put_counted(into, at, page.low.as_slice());
    put_high(into, at, &page.high)
}

impl Page {
    /// Writes its spelling over a slot, all of its 1,024 bytes. The page has at most 8 pairs or
    /// children, and a low fence of at most 32 bytes. A place from which on the slot is zeros.
    pub fn write(&self, into: &mut [u8]) -> usize
        requires slot { length into.old ≡ slot_size }
        requires few { count_in self.now.body ≤ 8 }
        requires low { length self.now.low ≤ 32 }
        ensures bytes { into.new ≡ page_bytes self.now }
        ensures filled { IsFilled result into.new }
    {
        self.write_as(self.seq, into)
    }

    /// Writes the spelling that it has under this sequence number, as `write` does.
    pub fn write_as(&self, seq: u64, into: &mut [u8]) -> usize
        requires slot { length into.old ≡ slot_size }
        requires few { count_in self.now.body ≤ 8 }
        requires low { length self.now.low ≤ 32 }
        ensures bytes { into.new ≡ page_bytes (record self.now { seq = seq }) }
        ensures filled { IsFilled result into.new }
    {
        let at = put_head(into, self, seq);
        let at = put_fences(into, at, self);
        let at = put_body(into, at, &self.body);
        put_zeros(into, at);
        at
    }
}

ghost use Rattle.std.specs.Prelude.{◌≡◌, ◌<◌, length, Some, slice_get};
ghost use Rattle.std.specs.Option.{option_map};
ghost use Rattle.mn_page.specs.Grammar.{count_in, height_of};
ghost use Rattle.mn_page.specs.Reading.{HasCounted, HasSizes, framed, keys_in, values_in, addrs_in};

use crate::scan::{NO_ADDR, no_children, no_pairs};
use mn_base::{Addr, VersionNo};
use std::marker::Model;

/// What stands before the fences of a page; height 0 is a leaf.
#[derive(Clone, Copy)]
pub struct Head {
    pub seq: u64,
    pub height: u16,
    pub made: VersionNo,
    pub copied: u64,
}

/// A pair as it stands in the bytes.
#[derive(Clone, Copy)]
pub struct PairRef<'a> {
    pub key: &'a [u8],
    pub value: &'a [u8],
}

/// A child after the first as it stands in the bytes.
#[derive(Clone, Copy)]
pub struct ChildRef<'a> {
    pub separator: &'a [u8],
    pub addr: Addr,
}

/// What a page holds, lent from its bytes. At height 0 it is a leaf of the first `count` pairs,
/// else an inner page of the first child and `count` more.
#[derive(Clone, Copy)]
pub struct BodyRef<'a> {
    pub height: u16,
    pub count: usize,
    pub pairs: [PairRef<'a>; 8],
    pub first: Addr,
    pub rest: [ChildRef<'a>; 7],
}

impl<'a> BodyRef<'a> {
    /// A leaf without a pair.
    #[inline(always)]
    pub fn none() -> Self
        ensures { HasSizes result }
    {
        BodyRef {
            height: 0,
            count: 0,
            pairs: no_pairs(),
            first: NO_ADDR,
            rest: no_children(),
        }
    }
}

/// What stands in front of the body of a page: its head and its fences.
#[derive(Clone, Copy)]
pub struct Frame<'a> {
    pub head: Head,
    pub low: &'a [u8],
    pub high: Option<&'a [u8]>,
}

/// A page as it stands in its bytes, from which it lends its keys and values. Contracts see it as
/// the page.
#[derive(Drop)]
pub struct PageRef<'a> {
    pub(crate) frame: Frame<'a>,
    pub(crate) body: BodyRef<'a>,
}

impl<'a> Model for PageRef<'a> {
    ghost use Rattle.mn_page.specs.declared.page.Page.{Page};
    ghost use Rattle.mn_page.specs.Reading.{HasCounted, framed};

    ghost Value = { Page };

    ghost view = { λ p. framed p.frame p.body };

    ghost invariant = { λ p. HasCounted p.body };
}

impl<'a> PageRef<'a> {
    /// The page of these parts.
    #[inline(always)]
    pub(crate) fn of_parts(frame: Frame<'a>, body: BodyRef<'a>) -> Self
        requires { HasCounted body }
        ensures { result ≡ framed frame.entry body.entry }
    {
        PageRef { frame, body }
    }

    /// How often the slot was written, from 1.
    pub fn seq(&self) -> u64
        ensures { result ≡ self.now.seq }
    {
        self.frame.head.seq
    }

    /// The version that the page was made for.
    pub fn made(&self) -> VersionNo
        ensures { result ≡ self.now.made }
    {
        self.frame.head.made
    }

    /// The versions that it was copied for: bit w for version w.
    pub fn copied(&self) -> u64
        ensures { result ≡ self.now.copied }
    {
        self.frame.head.copied
    }

    /// 0 for a leaf, else how many heights above the leaves.
    pub fn height(&self) -> u16
        ensures { result ≡ height_of self.now.body }
    {
        self.body.height
    }

    /// The least bound of its keys, 0 to 32 bytes.
    pub fn low(&self) -> &'a [u8]
        ensures { result.now ≡ self.now.low }
    {
        self.frame.low
    }

    /// The bound above its keys, or none.
    pub fn high(&self) -> Option<&'a [u8]>
        ensures { option_map (λ h. h.now) result ≡ self.now.high }
    {
        self.frame.high
    }

    /// How many pairs a leaf has, or how many children an inner page.
    pub fn count(&self) -> usize
        ensures { result ≡ count_in self.now.body }
    {
        if self.body.height == 0 {
            self.body.count
        } else {
            self.body.count + 1
        }
    }

    /// The key of pair `i` of a leaf, or the separator between the children `i` and `i` + 1 of an
    /// inner page.
    pub fn key(&self, i: usize) -> &'a [u8]
        requires { i < length (keys_in self.now.body) }
        ensures { slice_get (keys_in self.now.body) i ≡ Some result.now }
    {
        if self.body.height == 0 {
            self.body.pairs[i].key
        } else {
            self.body.rest[i].separator
        }
    }

    /// The value of pair `i` of a leaf.
    pub fn value(&self, i: usize) -> &'a [u8]
        requires { i < length (values_in self.now.body) }
        ensures { slice_get (values_in self.now.body) i ≡ Some result.now }
    {
        let body = &self.body;
        body.pairs[i].value
    }

    /// Where child `i` of an inner page stands.
    pub fn child(&self, i: usize) -> Addr
        requires { i < length (addrs_in self.now.body) }
        ensures { slice_get (addrs_in self.now.body) i ≡ Some result }
    {
        if i == 0 {
            self.body.first
        } else {
            self.body.rest[i - 1].addr
        }
    }
}

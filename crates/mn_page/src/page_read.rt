ghost use Rattle.std.specs.Prelude.{◌≡◌, ◌≤◌, Some, None, length, map, IfOk};
ghost use Rattle.std.specs.Prelude.{IfErr, IfSome, OnErr, IsOkAnd, MatchOption};
ghost use Rattle.std.specs.Option.{option_map};
ghost use Rattle.mn_page.specs.declared.page.Page.{Page};
ghost use Rattle.mn_page.specs.declared.page.Body.TheVariants.{Leaf, Inner};
ghost use Rattle.mn_page.specs.declared.error.PageError.{PageError};
ghost use Rattle.mn_page.specs.Fronts.{BeginsPage, IsLongest, NamesLongest};
ghost use Rattle.mn_page.specs.Grammar.{IsFree, SpellsPage, SpellsNoPage};
ghost use Rattle.mn_page.specs.Reading.{pair_seen, child_seen, body_seen, IsWantOfMemory};
ghost use Rattle.mn_page.specs.Reading.{HasCounted, HasSizes, IsPlaceWithin, framed};

use crate::fault::page_fault;
use crate::page_ref::{BodyRef, ChildRef, Frame, PairRef};
use crate::page_scan::{is_free, whole_page};
use crate::{BadPage, Body, Branches, Child, Low, Page, PageError, PageRef};
use mn_base::{Key, NoMemory, Pair, Pairs, Value};
use mn_padded::Padded;
use std::alloc::Global;

/// The key of these bytes.
#[inline(always)]
fn key_of(alloc: Global, bytes: &[u8]) -> Result<Key, NoMemory>
    ensures { IfOk result (λ key. key ≡ bytes.now) }
{
    match Key::new(alloc, bytes) {
        Ok(key) => Ok(key),
        Err(_) => Err(NoMemory),
    }
}

/// The value of these bytes.
#[inline(always)]
fn value_of(alloc: Global, bytes: &[u8]) -> Result<Value, NoMemory>
    ensures { IfOk result (λ value. value ≡ bytes.now) }
{
    match Value::new(alloc, bytes) {
        Ok(value) => Ok(value),
        Err(_) => Err(NoMemory),
    }
}

/// The bound of these bytes. So many that there is none count as want of memory.
#[inline(always)]
fn low_of(bytes: &[u8]) -> Result<Low, NoMemory>
    ensures { IfOk result (λ low. low ≡ bytes.now) }
{
    match Low::new(bytes) {
        Some(low) => Ok(low),
        None => Err(NoMemory),
    }
}

#[inline(always)]
fn high_of(alloc: Global, high: Option<&[u8]>) -> Result<Option<Key>, NoMemory>
    ensures { IfOk result (λ found. found ≡ option_map (λ h. h.now) high.entry) }
{
    match high {
        Some(high) => Ok(Some(key_of(alloc, high)?)),
        None => Ok(None),
    }
}

fn pairs_of(alloc: Global, pairs: &[PairRef<'_>]) -> Result<Vec<Pair>, NoMemory>
    ensures { IfOk result (λ found. found.items ≡ map pair_seen pairs.now) }
{
    let mut found = Vec::with_capacity(alloc, pairs.len())?;
    for pair in pairs {
        let key = key_of(alloc, pair.key)?;
        let value = value_of(alloc, pair.value)?;
        found.push(Pair { key, value })?;
    }
    Ok(found)
}

fn children_of(alloc: Global, children: &[ChildRef<'_>]) -> Result<Vec<Child>, NoMemory>
    ensures { IfOk result (λ found. found.items ≡ map child_seen children.now) }
{
    let mut found = Vec::with_capacity(alloc, children.len())?;
    for child in children {
        let separator = key_of(alloc, child.separator)?;
        let addr = child.addr;
        found.push(Child { separator, addr })?;
    }
    Ok(found)
}

#[inline(always)]
fn body_of(alloc: Global, body: &BodyRef<'_>) -> Result<Body, NoMemory>
    requires pairs { body.now.count ≤ 8 }
    requires rest { 1 ≤ body.now.height → body.now.count ≤ 7 }
    ensures { IfOk result (λ found. found ≡ body_seen body.now) }
{
    if body.height == 0 {
        let pairs = Pairs::from_vec(pairs_of(alloc, &body.pairs[..body.count])?);
        return Ok(Body::Leaf { pairs });
    }
    let children = children_of(alloc, &body.rest[..body.count])?;
    let rest = Branches::from_vec(alloc, children)?;
    Ok(Body::Inner {
        height: body.height,
        first: body.first,
        rest,
    })
}

/// The page of these parts.
#[inline(always)]
fn page_of(alloc: Global, frame: &Frame<'_>, body: &BodyRef<'_>) -> Result<Page, NoMemory>
    requires { HasCounted body.now }
    ensures { IfOk result (λ page. page ≡ framed frame.now body.now) }
{
    Ok(Page {
        seq: frame.head.seq,
        made: frame.head.made,
        copied: frame.head.copied,
        low: low_of(frame.low)?,
        high: high_of(alloc, frame.high)?,
        body: body_of(alloc, body)?,
    })
}

/// Reads the page whose bytes these are, and gives what stands in front of its body, or none for a
/// free slot. BadPage: they are neither's; `at` is how many of the first bytes still begin some
/// page.
#[inline(always)]
fn frame_of<'a>(body: &mut BodyRef<'a>, bytes: &Padded<'a>) -> Result<Option<Frame<'a>>, BadPage>
    requires { HasSizes body.old }
    ensures read { IfOk result (λ found. MatchOption found (IsFree bytes.now)
        (λ frame. SpellsPage bytes.now (framed frame body.new))) }
    ensures room { IfOk result (λ found. IfSome found (λ frame. HasCounted body.new)) }
    ensures page { (p : Page) → SpellsPage bytes.now p
        → IsOkAnd result (λ found. option_map (λ frame. framed frame body.new) found ≡ Some p) }
    ensures free { IsFree bytes.now → IsOkAnd result (λ found. found ≡ None) }
    ensures bad { OnErr result (SpellsNoPage bytes.now) }
    ensures place { IfErr result (λ e. e.at ≤ length bytes.now) }
    ensures longest { IfErr result (λ e. IsLongest BeginsPage bytes.now e.at) }
{
    if let Some(frame) = whole_page(body, bytes) {
        return Ok(Some(frame));
    }
    if is_free(bytes) {
        return Ok(None);
    }
    Err(BadPage {
        at: page_fault(bytes.as_slice()),
    })
}

impl<'a> PageRef<'a> {
    /// The page whose bytes these are, or none for a free slot. BadPage: they are neither's; `at`
    /// is how many of the first bytes still begin some page. It takes no memory.
    #[inline(always)]
    pub fn new(bytes: &'a [u8]) -> Result<Option<PageRef<'a>>, BadPage>
        ensures read { IfOk result (λ found.
            MatchOption found (IsFree bytes.now) (SpellsPage bytes.now)) }
        ensures page { (p : Page) → SpellsPage bytes.now p
            → IsOkAnd result (λ found. found ≡ Some p) }
        ensures free { IsFree bytes.now → IsOkAnd result (λ found. found ≡ None) }
        ensures bad { OnErr result (SpellsNoPage bytes.now) }
        ensures place { IfErr result (λ e. e.at ≤ length bytes.now) }
        ensures longest { IfErr result (λ e. IsLongest BeginsPage bytes.now e.at) }
    {
        PageRef::of_padded(&Padded::plain(bytes))
    }

    /// The same of bytes whose zeros at the end may be known.
    #[inline(always)]
    pub fn of_padded(bytes: &Padded<'a>) -> Result<Option<PageRef<'a>>, BadPage>
        ensures read { IfOk result (λ found.
            MatchOption found (IsFree bytes.now) (SpellsPage bytes.now)) }
        ensures page { (p : Page) → SpellsPage bytes.now p
            → IsOkAnd result (λ found. found ≡ Some p) }
        ensures free { IsFree bytes.now → IsOkAnd result (λ found. found ≡ None) }
        ensures bad { OnErr result (SpellsNoPage bytes.now) }
        ensures place { IfErr result (λ e. e.at ≤ length bytes.now) }
        ensures longest { IfErr result (λ e. IsLongest BeginsPage bytes.now e.at) }
    {
        let mut body = BodyRef::none();
        match frame_of(&mut body, bytes)? {
            Some(frame) => Ok(Some(PageRef::of_parts(frame, body))),
            None => Ok(None),
        }
    }

    /// The same page in memory of its own. NoMemory: there was no memory for it.
    #[inline(always)]
    pub fn to_page(&self, alloc: Global) -> Result<Page, NoMemory>
        ensures { IfOk result (λ page. page ≡ self.now) }
    {
        page_of(alloc, &self.frame, &self.body)
    }
}

impl Page {
    /// The page whose bytes these are, or none for a free slot. BadPage: they are neither's; `at`
    /// is how many of the first bytes still begin some page. NoMemory: there was no memory for it.
    pub fn read(alloc: Global, bytes: &[u8]) -> Result<Option<Page>, PageError>
        ensures read { IfOk result (λ found.
            MatchOption found (IsFree bytes.now) (SpellsPage bytes.now)) }
        ensures page { (p : Page) → SpellsPage bytes.now p → IfOk result (λ found. found ≡ Some p) }
        ensures free { IsFree bytes.now → IfOk result (λ found. found ≡ None) }
        ensures bad { IfErr result (λ e. (IsWantOfMemory e → ⊥) → SpellsNoPage bytes.now) }
        ensures place { IfErr result (IsPlaceWithin (length bytes.now)) }
        ensures longest { IfErr result (NamesLongest BeginsPage bytes.now) }
    {
        Page::read_padded(alloc, &Padded::plain(bytes))
    }

    /// The same of bytes whose zeros at the end may be known.
    pub fn read_padded(alloc: Global, bytes: &Padded<'_>) -> Result<Option<Page>, PageError>
        ensures read { IfOk result (λ found.
            MatchOption found (IsFree bytes.now) (SpellsPage bytes.now)) }
        ensures page { (p : Page) → SpellsPage bytes.now p → IfOk result (λ found. found ≡ Some p) }
        ensures free { IsFree bytes.now → IfOk result (λ found. found ≡ None) }
        ensures bad { IfErr result (λ e. (IsWantOfMemory e → ⊥) → SpellsNoPage bytes.now) }
        ensures place { IfErr result (IsPlaceWithin (length bytes.now)) }
        ensures longest { IfErr result (NamesLongest BeginsPage bytes.now) }
    {
        let mut body = BodyRef::none();
        match frame_of(&mut body, bytes)? {
            Some(frame) => Ok(Some(page_of(alloc, &frame, &body)?)),
            None => Ok(None),
        }
    }
}

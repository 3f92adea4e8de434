ghost use Rattle.std.specs.Prelude.{◌≡◌, ◌≤◌, ◌^◌, ◌++◌, ◌∷◌, [], length, map, filter, insert};
ghost use Rattle.std.specs.Prelude.{IfOk, OnOk};
ghost use Rattle.mn_base.specs.Order.{key_lt};
ghost use Rattle.std.specs.List.{range_with_len};
ghost use Rattle.mn_page.specs.Overlay.{new_addr, child_at, placed_addr, placed_page};
ghost use Rattle.mn_page.specs.declared.page.Body.TheVariants.{Inner};
ghost use Rattle.mn_page.specs.SlotOrder.{stands_first};
ghost use Rattle.mn_tree.specs.Walk.{helds};
ghost use Rattle.mn_tree.specs.Order.{precedes, with_number, with_numbers, place_in, slot_of};
ghost use Rattle.mn_tree.specs.Order.{slots_by_number, is_changed, old_pages, new_pages};

use crate::addrs::Addrs;
use crate::held::{UNPLACED, resolved};
use crate::held_pages::HeldPages;
use mn_base::{Addr, NoMemory, NodeNo, TryCopy, key_precedes};
use mn_page::{Body, Branches, Child, Low, Page, PlacedPage, SharedPage, number_after};
use mn_path::height;
use std::alloc::Global;

/// The place of the new page of this number.
fn place_of(number: u16) -> Addr
    ensures { result ≡ new_addr number }
{
    Addr {
        node: NodeNo(UNPLACED),
        slot: number,
    }
}

/// Lower pages stand first, at one height those to the left.
fn is_first(page: &Page, other: &Page) -> bool
    ensures { result ≡ stands_first page.now other.now }
{
    let at = height(&page.body);
    let other_at = height(&other.body);
    at < other_at || at == other_at && is_left(&page.low, &other.low)
}

fn is_left(low: &Low, other: &Low) -> bool
    ensures { result ≡ key_lt low.now other.now }
{
    key_precedes(low.as_slice(), other.as_slice())
}

/// Whether the new page of the first number stands before that of the second.
fn is_before(pages: &HeldPages, number: u16, other: u16) -> bool
    ensures { result ≡ precedes (helds pages.now.items) number other }
{
    let Some(page) = pages.get(place_of(number)) else {
        return false;
    };
    let Some(other) = pages.get(place_of(other)) else {
        return false;
    };
    is_first(page.page.get(), other.page.get())
}

/// Where a further number goes: before the first one that it precedes.
fn place_before(pages: &HeldPages, order: &[u16], number: u16) -> usize
    ensures within { result ≤ length order.now }
    ensures place { insert order.now result number
        ≡ with_number (helds pages.now.items) number order.now }
{
    for (at, other) in order.iter().enumerate() {
        if is_before(pages, number, *other) {
            return at;
        }
    }
    order.len()
}

/// The numbers of so many new pages in the order in which slots are asked for.
pub fn order_of(alloc: Global, pages: &HeldPages, count: usize) -> Result<Vec<u16>, NoMemory>
    requires { count ≤ 2 ^ 16 }
    ensures { IfOk result (λ order. order.items
        ≡ with_numbers (helds pages.now.items) [] (range_with_len 0 count)) }
{
    let mut order = Vec::new(alloc);
    for number in 0..count {
        let number = number as u16;
        let at = place_before(pages, &order, number);
        order.insert(at, number)?;
    }
    Ok(order)
}

/// How many stand before a number.
fn position(order: &[u16], number: u16) -> usize
    ensures { result ≡ place_in order.now number }
{
    for (at, other) in order.iter().enumerate() {
        if *other == number {
            return at;
        }
    }
    order.len()
}

/// The slot of a new page.
fn slot_for(order: &[u16], slots: &[Addr], number: u16) -> Addr
    ensures { result ≡ slot_of order.now slots.now number }
{
    let at = position(order, number);
    if at < slots.len() {
        slots[at]
    } else {
        place_of(number)
    }
}

/// The slots by the number of the new page.
pub fn by_number(
    alloc: Global,
    order: &[u16],
    slots: &[Addr],
    count: usize,
) -> Result<Vec<Addr>, NoMemory>
    requires { count ≤ 2 ^ 16 }
    ensures { IfOk result (λ by. by.items ≡ slots_by_number order.now slots.now count) }
{
    let mut by = Vec::new(alloc);
    for number in 0..count {
        by.push(slot_for(order, slots, number as u16))?;
    }
    Ok(by)
}

/// The children with the new ones in their slots.
fn placed_children(alloc: Global, by: &[Addr], rest: &[Child]) -> Result<Vec<Child>, NoMemory>
    ensures { IfOk result (λ children. children.items
        ≡ map (λ c. child_at c.separator (placed_addr by.now c.addr)) rest.now) }
{
    let mut children = Vec::new(alloc);
    for child in rest {
        children.push(Child {
            separator: child.separator.try_copy(alloc)?,
            addr: resolved(by, child.addr),
        })?;
    }
    Ok(children)
}

/// An inner page with the new pages below it in their slots.
fn inner_in(
    alloc: Global,
    by: &[Addr],
    page: &Page,
    height: u16,
    first: Addr,
    rest: &[Child],
) -> Result<Page, NoMemory>
    requires { page.now.body ≡ Inner height first rest.now }
    ensures { IfOk result (λ made. made ≡ placed_page by.now page.now.seq page.now) }
{
    Ok(Page {
        seq: page.seq,
        made: page.made,
        copied: page.copied,
        low: page.low.try_copy(alloc)?,
        high: page.high.try_copy(alloc)?,
        body: Body::Inner {
            height,
            first: resolved(by, first),
            rest: Branches::from_vec(alloc, placed_children(alloc, by, rest)?)?,
        },
    })
}

/// A page under this number, with the new pages in their slots. A leaf names none.
fn page_in(alloc: Global, by: &[Addr], seq: u64, page: &SharedPage) -> Result<PlacedPage, NoMemory>
    ensures { IfOk result (λ made. made ≡ placed_page by.now seq page.now) }
{
    let seen = page.get();
    match &seen.body {
        Body::Leaf { .. } => Ok(PlacedPage::new(seq, page.try_copy(alloc)?)),
        Body::Inner {
            height,
            first,
            rest,
        } => {
            let made = inner_in(alloc, by, seen, *height, *first, rest.as_slice())?;
            Ok(PlacedPage::new(seq, SharedPage::new(alloc, made)?))
        }
    }
}

/// Adds an old page, if it was changed.
fn push_old(
    alloc: Global,
    by: &[Addr],
    pages: &HeldPages,
    changed: &Addrs,
    addr: Addr,
    placed: &mut Vec<(Addr, PlacedPage)>,
) -> Result<(), NoMemory>
    ensures { OnOk result (placed.new.items
        ≡ placed.old.items ++ old_pages by.now (helds pages.now.items)
        (filter (is_changed changed.now.items) (addr ∷ []))) }
{
    if !changed.contains(addr) {
        return Ok(());
    }
    if let Some(held) = pages.get(addr) {
        let seq = number_after(held.page.get().seq);
        placed.push((addr, page_in(alloc, by, seq, &held.page)?))?;
    }
    Ok(())
}

/// Adds the changed pages in the order of the read set.
pub fn push_changed(
    alloc: Global,
    by: &[Addr],
    pages: &HeldPages,
    changed: &Addrs,
    read: &[Addr],
    placed: &mut Vec<(Addr, PlacedPage)>,
) -> Result<(), NoMemory>
    ensures { OnOk result (placed.new.items
        ≡ placed.old.items ++ old_pages by.now (helds pages.now.items)
        (filter (is_changed changed.now.items) read.now)) }
{
    for addr in read {
        push_old(alloc, by, pages, changed, *addr, placed)?;
    }
    Ok(())
}

/// Adds a new page.
fn push_created(
    alloc: Global,
    by: &[Addr],
    pages: &HeldPages,
    number: u16,
    placed: &mut Vec<(Addr, PlacedPage)>,
) -> Result<(), NoMemory>
    ensures { OnOk result (placed.new.items
        ≡ placed.old.items ++ new_pages by.now (helds pages.now.items) (number ∷ [])) }
{
    let addr = place_of(number);
    if let Some(held) = pages.get(addr) {
        let page = page_in(alloc, by, held.page.get().seq, &held.page)?;
        placed.push((resolved(by, addr), page))?;
    }
    Ok(())
}

/// Adds the new pages in their order.
pub fn push_new(
    alloc: Global,
    by: &[Addr],
    pages: &HeldPages,
    order: &[u16],
    placed: &mut Vec<(Addr, PlacedPage)>,
) -> Result<(), NoMemory>
    ensures { OnOk result (placed.new.items
        ≡ placed.old.items ++ new_pages by.now (helds pages.now.items) order.now) }
{
    for number in order {
        push_created(alloc, by, pages, *number, placed)?;
    }
    Ok(())
}

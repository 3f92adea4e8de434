ghost use Rattle.std.specs.Prelude.{◌≡◌, ◌≤◌, ℕ, IfOk, Some, slice_get};
ghost use Rattle.std.specs.Option.{option_map};
ghost use Rattle.mn_page.specs.Grammar.{IsPage, height_of};
ghost use Rattle.mn_work.specs.Among.{FaultIsMet, IsHigh, MeetsAmong, MeetsAt};
ghost use Rattle.mn_work.specs.Bodies.{body_child};
ghost use Rattle.mn_work.specs.Refusals.{compared, compares_at, expected, refusal_of};
ghost use Rattle.mn_work.specs.Walks.{IsAbove};

use crate::catalog::Kept;
use crate::next::path_fault;
use mn_base::{Addr, Busy, Bytes, NoMemory, NodeNo, Tid, VersionNo, key_precedes};
use mn_mini::{Item, Minitransaction, NodeReply, SharedBytes};
use mn_page::PageRef;
use mn_path::Front;
use mn_txn::{SeenPage, page_at};
use std::alloc::Global;

/// The most pages of a path.
pub const LEVELS: u16 = 15;

/// How a walk among pages goes on at an address.
#[derive(Debug, Drop)]
enum Met {
    /// It meets a fault.
    Fault { busy: Busy },
    /// It ends: there is no page, or a leaf.
    End,
    /// It goes on below an inner page of this height.
    Below { addr: Addr, height: u16 },
}

/// The child of an inner page that a key goes to.
fn child_in(page: &PageRef<'_>, key: &[u8]) -> Addr
    requires page { IsPage page.now }
    requires inner { 1 ≤ height_of page.now.body }
    ensures { Some result ≡ body_child page.now.body key.now }
{
    let last = page.count() - 1;
    let mut found = page.child(0);
    for i in 0..last {
        if key_precedes(key, page.key(i)) {
            return found;
        }
        found = page.child(i + 1);
    }
    found
}

/// How the walk goes on at the page that was read at the address.
fn met_page(kept: &Kept, version: VersionNo, seen: &SeenPage, key: &[u8], above: Option<u16>) -> Met
    requires above { IsAbove above }
    ensures high { IsHigh result }
    ensures met { (nodes : ℕ) → MeetsAt nodes kept.now version key.now above seen.now result }
{
    let Ok(Some(page)) = PageRef::of_padded(&seen.bytes.padded()) else {
        return Met::Fault {
            busy: path_fault(seen.addr, 0),
        };
    };
    if !Front::of_ref(&page).is_on_path(kept.tree(), version, key, above) {
        return Met::Fault {
            busy: path_fault(seen.addr, page.seq()),
        };
    }
    if page.height() == 0 {
        return Met::End;
    }
    Met::Below {
        addr: child_in(&page, key),
        height: page.height(),
    }
}

/// How the walk goes on at an address.
fn met_at(
    nodes: u8,
    kept: &Kept,
    version: VersionNo,
    pages: &[SeenPage],
    key: &[u8],
    addr: Addr,
    above: Option<u16>,
) -> Met
    requires above { IsAbove above }
    ensures high { IsHigh result }
    ensures met { MeetsAmong nodes kept.now version key.now addr above pages.now result }
{
    if addr.node.0 >= nodes {
        return Met::Fault {
            busy: path_fault(addr, 0),
        };
    }
    match page_at(pages, addr) {
        Some(seen) => met_page(kept, version, seen, key, above),
        None => Met::End,
    }
}

/// The fault that a walk for the key meets among the pages as they were read, if it meets one.
pub fn fault_among(
    nodes: u8,
    kept: &Kept,
    version: VersionNo,
    root: Addr,
    pages: &[SeenPage],
    key: &[u8],
) -> Option<Busy>
    ensures { FaultIsMet nodes kept.now version key.now root pages.now result }
{
    let mut addr = root;
    let mut above = None;
    for _level in 0..LEVELS {
        match met_at(nodes, kept, version, pages, key, addr, above) {
            Met::Fault { busy } => return Some(busy),
            Met::End => return None,
            Met::Below {
                addr: child,
                height,
            } => {
                addr = child;
                above = Some(height);
            }
        }
    }
    None
}

/// A compare of a part: where it stands, and what it expects.
#[derive(Clone, Copy)]
struct Expected<'a> {
    start: u32,
    bytes: &'a SharedBytes,
}

/// What an item compares at a node, if it does.
fn compared<'a>(item: &'a Item, at: NodeNo) -> Option<Expected<'a>>
    ensures { option_map expected result ≡ compared at item.now }
{
    match item {
        Item::Compare { node, start, bytes } if *node == at => Some(Expected {
            start: *start,
            bytes,
        }),
        _ => None,
    }
}

/// The n-th compare of a minitransaction at a node, from 0.
fn compare_at<'a>(mini: &'a Minitransaction, at: NodeNo, number: u16) -> Option<Expected<'a>>
    ensures { option_map expected result ≡ slice_get (compares_at at mini.now.items) number }
{
    let mut left = number;
    for item in mini.items() {
        let Some(expected) = compared(item, at) else {
            continue;
        };
        if left == 0 {
            return Some(expected);
        }
        left -= 1;
    }
    None
}

/// Why a try failed whose minitransaction the node refused so. None where the reply is no refusal.
pub fn refusal(
    alloc: Global,
    tid: Tid,
    mini: &Minitransaction,
    node: NodeNo,
    reply: NodeReply,
) -> Result<Option<Busy>, NoMemory>
    ensures { IfOk result (λ cause. cause ≡ refusal_of tid mini.now node reply) }
{
    match reply {
        NodeReply::BadLock {
            start,
            length,
            holder,
        } => Ok(Some(Busy::Lock {
            node,
            start,
            length,
            holder,
        })),
        NodeReply::BadCompare { item, found } => match compare_at(mini, node, item) {
            Some(expected) => Ok(Some(Busy::Moved {
                node,
                start: expected.start,
                expected: Bytes::from_vec(expected.bytes.as_slice().to_vec(alloc)?),
                found,
            })),
            None => Ok(None),
        },
        NodeReply::BadForced => Ok(Some(Busy::Forced { tid })),
        _ => Ok(None),
    }
}

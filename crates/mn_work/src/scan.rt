ghost use Rattle.std.specs.Prelude.{◌≡◌, false, true, IfOk, OnOk};
ghost use Rattle.mn_page.specs.Grammar.{IsPage};
ghost use Rattle.mn_scan.specs.Scan.{IsNeeded};
ghost use Rattle.mn_work.specs.Cached.{AreUsed, Puts, Walks, next_then};
ghost use Rattle.mn_work.specs.Firsts.{ScanFailsFirst, ScanPasses};
ghost use Rattle.mn_work.specs.Knows.{ArePages, KeepsKnown};
ghost use Rattle.mn_work.specs.Scans.{FailsOffNodes, IsUnmoved, StaysBefore, ScanGoesOn};
ghost use Rattle.mn_work.specs.Scans.{TakesPage};
ghost use Rattle.mn_work.specs.Scans.{WalksAlike, WantsNext, goes_by_kept, passage_of};
ghost use Rattle.mn_work.specs.Paths.{IsLower};
ghost use Rattle.mn_work.specs.Walks.{IsAbove};
ghost use Rattle.mn_work.specs.declared.scan.Passage.TheVariants as passage;

use crate::causes::LEVELS;
use crate::known::Known;
use crate::next::{Next, Taken, fault_at};
use crate::seen::{is_leaf, page_in};
use mn_base::{Addr, Busy, Name, NoMemory, TryCopy};
use mn_mini::SharedBytes;
use mn_page::{Page, SharedPage};
use mn_path::Front;
use mn_scan::{ScanError, ScanRun, ScanStep};
use std::alloc::Global;

/// Whether the walk of the scan goes on at the page, by the catalog that was read last.
fn goes_on(scan: &ScanRun, known: &Known, name: &Name, page: &Page) -> bool
    ensures { result ≡ goes_by_kept known.now.catalog name.now scan.now page.now }
{
    match (&known.catalog, known.root_of(name)) {
        (Some(kept), Some((version, _root))) => {
            Front::of_page(page).is_on_path(kept.tree(), version, scan.key(), scan.above())
        }
        _ => false,
    }
}

/// Takes a page that was read, or is kept, at the needed address.
fn keep(
    alloc: Global,
    scan: &mut ScanRun,
    known: &Known,
    name: &Name,
    addr: Addr,
    page: SharedPage,
) -> Result<Taken, NoMemory>
    requires needed { IsNeeded scan.old addr }
    requires page { IsPage page }
    requires above { IsAbove scan.old.above }
    ensures taken { IfOk result (TakesPage known.now.catalog name.now scan.old addr page scan.new) }
    ensures stays { IfOk result (StaysBefore scan.old scan.new) }
    ensures above { IsAbove scan.new.above }
{
    let seen = page.get();
    if !goes_on(scan, known, name, seen) {
        return Ok(Taken::Fails {
            cause: fault_at(addr, seen.seq),
        });
    }
    let leaf = is_leaf(seen);
    match scan.feed(alloc, addr, page) {
        Ok(()) if leaf => Ok(Taken::Leaf),
        Ok(()) => Ok(Taken::GoesOn),
        Err(ScanError::BadPath { .. }) => Ok(Taken::Fails { cause: None }),
        Err(ScanError::NoMemory) => Err(NoMemory),
    }
}

/// What became of the cached page that a scan needs.
#[derive(Debug, Drop)]
enum Passage {
    /// The scan goes on below it.
    On,
    /// It isn't kept.
    Missing,
    /// The try fails by it.
    Fails { cause: Option<Busy> },
}

fn passage_of(taken: Taken) -> Passage
    ensures { result ≡ passage_of taken }
{
    match taken {
        Taken::Fails { cause } => Passage::Fails { cause },
        _ => Passage::On,
    }
}

/// Takes the needed page, if it is kept.
fn pass_kept(
    alloc: Global,
    scan: &mut ScanRun,
    known: &mut Known,
    name: &Name,
    addr: Addr,
) -> Result<Passage, NoMemory>
    requires pages { ArePages known.old.cache }
    requires needed { IsNeeded scan.old addr }
    requires above { IsAbove scan.old.above }
    ensures kept { KeepsKnown known.old known.new }
    ensures cache { AreUsed known.old.cache known.new.cache }
    ensures above { IsAbove scan.new.above }
    ensures alike { OnOk result (WalksAlike scan.old scan.new) }
    ensures missing { IfOk result (IsUnmoved scan.old scan.new) }
    ensures lower { IfOk result (λ p. p ≡ passage.On → IsLower scan.old.above scan.new.above) }
    ensures passes { IfOk result (ScanPasses known.new name.now scan.old addr scan.new) }
{
    let page = match known.cache.get(addr) {
        Some(spelled) => spelled.page.try_copy(alloc)?,
        None => return Ok(Passage::Missing),
    };
    let taken = keep(alloc, scan, known, name, addr, page)?;
    Ok(passage_of(taken))
}

/// The page that a scan needs next in a later try, which reads each page anew. None where the scan
/// has ended.
fn reach_anew(scan: &ScanRun, known: &mut Known) -> Option<Next>
    ensures kept { KeepsKnown known.old known.new }
    ensures cache { Walks true result known.old.cache known.new.cache }
    ensures wants { WantsNext known.old.nodes true scan.now result }
    ensures fault { FailsOffNodes known.old.nodes scan.now.needed result }
{
    let ScanStep::Need { addr, .. } = scan.next() else {
        return None;
    };
    if !known.has_node(addr) {
        return Some(Next::Fails {
            cause: fault_at(addr, 0),
        });
    }
    known.cache.drop_page(addr);
    Some(Next::Page { addr, peek: false })
}

/// The page that a scan needs next and that isn't kept, in a first try. None where the scan has
/// ended. Each kept page is lower than the one before, so they are fewer than `LEVELS`.
fn reach_kept(
    alloc: Global,
    scan: &mut ScanRun,
    known: &mut Known,
    name: &Name,
) -> Result<Option<Next>, NoMemory>
    requires pages { ArePages known.old.cache }
    requires above { IsAbove scan.old.above }
    ensures kept { KeepsKnown known.old known.new }
    ensures cache { AreUsed known.old.cache known.new.cache }
    ensures above { IsAbove scan.new.above }
    ensures alike { OnOk result (WalksAlike scan.old scan.new) }
    ensures wants { IfOk result (WantsNext known.old.nodes false scan.new) }
    ensures first { IfOk result (ScanFailsFirst known.new name.now scan.old) }
{
    for _level in 0..LEVELS {
        let ScanStep::Need { addr, leaf } = scan.next() else {
            return Ok(None);
        };
        if !known.has_node(addr) {
            return Ok(Some(Next::Fails {
                cause: fault_at(addr, 0),
            }));
        }
        match pass_kept(alloc, scan, known, name, addr)? {
            Passage::On => {}
            Passage::Missing => return Ok(Some(Next::Page { addr, peek: !leaf })),
            Passage::Fails { cause } => return Ok(Some(Next::Fails { cause })),
        }
    }
    unreachable!()
}

/// The page that a scan needs next and that isn't kept. A page that may be a leaf, and in a later
/// try each page, is read by an Exec. None where the scan has ended.
#[inline(never)]
pub fn advance(
    alloc: Global,
    scan: &mut ScanRun,
    known: &mut Known,
    name: &Name,
    later: bool,
) -> Result<Option<Next>, NoMemory>
    requires pages { ArePages known.old.cache }
    requires above { IsAbove scan.old.above }
    ensures kept { KeepsKnown known.old known.new }
    ensures cache { Walks later (next_then result) known.old.cache known.new.cache }
    ensures above { IsAbove scan.new.above }
    ensures alike { OnOk result (WalksAlike scan.old scan.new) }
    ensures wants { IfOk result (WantsNext known.old.nodes later scan.new) }
    ensures later { later ≡ true → scan.new ≡ scan.old }
    ensures fault { later ≡ true → IfOk result (FailsOffNodes known.old.nodes scan.old.needed) }
    ensures first { later ≡ false → IfOk result (ScanFailsFirst known.new name.now scan.old) }
{
    if later {
        Ok(reach_anew(scan, known))
    } else {
        reach_kept(alloc, scan, known, name)
    }
}

/// Takes the page that a scan asked for, by its bytes.
#[inline(never)]
pub fn take_page(
    alloc: Global,
    scan: &mut ScanRun,
    known: &mut Known,
    name: &Name,
    addr: Addr,
    bytes: &SharedBytes,
) -> Result<Taken, NoMemory>
    requires needed { IsNeeded scan.old addr }
    requires above { IsAbove scan.old.above }
    ensures kept { KeepsKnown known.old known.new }
    ensures cache { Puts addr bytes.now known.old.cache known.new.cache result }
    ensures above { IsAbove scan.new.above }
    ensures taken { IfOk result (ScanGoesOn known.old name.now scan.old addr bytes.now scan.new) }
    ensures stays { IfOk result (StaysBefore scan.old scan.new) }
{
    let Some(page) = page_in(alloc, bytes)? else {
        return Ok(Taken::Fails {
            cause: fault_at(addr, 0),
        });
    };
    known.keep_inner(alloc, addr, &page, bytes)?;
    keep(alloc, scan, known, name, addr, page)
}

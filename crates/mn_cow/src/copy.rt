ghost use Rattle.std.specs.Prelude.{◌≡◌, ◌<◌, false, IfOk};
ghost use Rattle.mn_base.specs.Tree.{has_version};
ghost use Rattle.mn_page.specs.Grammar.{IsPage};
ghost use Rattle.mn_page.specs.Copies as Copies;
ghost use Rattle.mn_cow.specs.Serving.{ServesOthers, ServesItsOwn};

use mn_base::{NoMemory, TryCopy, VersionNo};
use mn_page::{Page, number_after};
use std::alloc::Global;

/// The old page: with the version in its copied set and the next sequence number.
fn marked(alloc: Global, page: &Page, version: VersionNo) -> Result<Page, NoMemory>
    requires { version.0 < 64 }
    ensures { IfOk result (λ old. old ≡ Copies.marked_for version page.now) }
{
    let mut old = page.try_copy(alloc)?;
    old.seq = number_after(page.seq);
    old.copied |= 1 << version.0;
    Ok(old)
}

/// A new page of the version with the same fences and body.
fn copied(alloc: Global, page: &Page, version: VersionNo) -> Result<Page, NoMemory>
    ensures { IfOk result (λ copy. copy ≡ Copies.copy_for version page.now) }
{
    Ok(Page {
        seq: 1,
        made: version,
        copied: 0,
        low: page.low.try_copy(alloc)?,
        high: page.high.try_copy(alloc)?,
        body: page.body.try_copy(alloc)?,
    })
}

/// The page as it stands once it has been copied for the version, and the copy.
///
/// The old page has the version in its copied set and the next sequence number, where the last one
/// stays, and serves the version and its descendants no more. The copy was made in the version, was
/// copied for none, has sequence number 1, and the old page's fences and body. NoMemory: there was
/// no memory for the two.
pub fn copy_for(alloc: Global, page: &Page, version: VersionNo) -> Result<(Page, Page), NoMemory>
    requires above { page.now.made.0 < version.0 }
    requires few { version.0 < 64 }
    requires first { has_version page.now.copied version.0 ≡ false }
    ensures old { IfOk result (λ pages. pages.0 ≡ Copies.marked_for version page.now) }
    ensures copy { IfOk result (λ pages. pages.1 ≡ Copies.copy_for version page.now) }
    ensures old_sound { IfOk result (λ pages. IsPage page.now → IsPage pages.0) }
    ensures copy_sound { IfOk result (λ pages. IsPage page.now → IsPage pages.1) }
    ensures others { IfOk result (λ pages. ServesOthers version.0 page.now pages.0) }
    ensures own { IfOk result (λ pages. ServesItsOwn version.0 pages.1) }
{
    let old = marked(alloc, page, version)?;
    let copy = copied(alloc, page, version)?;
    Ok((old, copy))
}

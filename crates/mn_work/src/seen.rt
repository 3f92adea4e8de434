ghost use Rattle.std.specs.Prelude.{◌≡◌, nat_eq, IfOk};
ghost use Rattle.mn_page.specs.Grammar.{IsPage, height_of};
ghost use Rattle.mn_work.specs.Seen.{TellsPage};

use mn_base::NoMemory;
use mn_mini::SharedBytes;
use mn_page::{Body, Page, PageError, SharedPage};
use std::alloc::Global;

/// Whether the page is a leaf. An inner page in the grammar has a height of at least 1.
pub fn is_leaf(page: &Page) -> bool
    ensures { IsPage page.now → result ≡ nat_eq (height_of page.now.body) 0 }
{
    match &page.body {
        Body::Leaf { .. } => true,
        Body::Inner { .. } => false,
    }
}

/// The page that these bytes spell, or none. NoMemory: there was no memory for it.
#[inline(always)]
pub fn page_in(alloc: Global, bytes: &SharedBytes) -> Result<Option<SharedPage>, NoMemory>
    ensures { IfOk result (TellsPage bytes.now) }
{
    match Page::read_padded(alloc, &bytes.padded()) {
        Ok(Some(page)) => Ok(Some(SharedPage::new(alloc, page)?)),
        Ok(None) => Ok(None),
        Err(PageError::BadPage { .. }) => Ok(None),
        Err(PageError::NoMemory) => Err(NoMemory),
    }
}

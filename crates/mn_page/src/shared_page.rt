ghost use Rattle.std.specs.Prelude.{◌≡◌, IfOk};

use crate::Page;
use mn_base::{NoMemory, TryCopy};
use std::alloc::Global;
use std::marker::Model;
use std::sync::Arc;

/// A page that stands in several places: its copies share one memory. Contracts see the page.
#[derive(Debug, Drop)]
pub struct SharedPage {
    page: Arc<Page>,
}

impl Model for SharedPage {
    ghost use Rattle.mn_page.specs.declared.page.Page.{Page};

    ghost Value = { Page };

    ghost view = { λ s. s.page.value };
}

impl SharedPage {
    /// The page, for several owners. NoMemory: there was no memory for it.
    pub fn new(alloc: Global, page: Page) -> Result<Self, NoMemory>
        ensures { IfOk result (λ shared. shared ≡ page) }
    {
        match Arc::new(alloc, page) {
            Ok(page) => Ok(SharedPage { page }),
            Err(_) => Err(NoMemory),
        }
    }

    #[inline(always)]
    pub fn get(&self) -> &Page
        ensures { result.now ≡ self.now }
    {
        &self.page
    }

    /// The page, copied where others have it too. NoMemory: there was no memory for that.
    pub fn into_page(self, alloc: Global) -> Result<Page, NoMemory>
        ensures { IfOk result (λ page. page ≡ self) }
    {
        match Arc::try_unwrap(self.page) {
            Ok(page) => Ok(page),
            Err(page) => page.try_copy(alloc),
        }
    }
}

impl TryCopy for SharedPage {
    fn try_copy(&self, _alloc: Global) -> Result<Self, NoMemory> {
        Ok(SharedPage {
            page: Arc::try_clone(&self.page)?,
        })
    }
}

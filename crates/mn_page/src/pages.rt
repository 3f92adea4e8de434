ghost use Rattle.std.specs.Prelude.{◌≡◌};

use crate::PlacedPage;
use mn_base::{Addr, NoMemory, TryCopy};
use std::alloc::Global;
use std::marker::Model;

/// Pages with their places. Contracts see them as a list.
#[derive(Debug, Drop)]
pub struct Pages {
    pages: Vec<(Addr, PlacedPage)>,
}

impl Model for Pages {
    ghost use Rattle.std.specs.Prelude.{List};
    ghost use Rattle.mn_base.specs.declared.ids.Addr.{Addr};
    ghost use Rattle.mn_page.specs.declared.page.Page.{Page};

    ghost Value = { List (Addr × Page) };

    ghost view = { λ p. p.pages.items };
}

impl Pages {
    /// It takes no memory.
    pub fn from_vec(pages: Vec<(Addr, PlacedPage)>) -> Self
        ensures { result ≡ pages.items }
    {
        Pages { pages }
    }

    pub fn into_vec(self) -> Vec<(Addr, PlacedPage)>
        ensures { result.items ≡ self }
    {
        self.pages
    }

    pub fn as_slice(&self) -> &[(Addr, PlacedPage)]
        ensures { result.now ≡ self.now }
    {
        &self.pages
    }
}

impl TryCopy for Pages {
    fn try_copy(&self, alloc: Global) -> Result<Self, NoMemory> {
        let mut pages = Vec::new(alloc);
        for (addr, page) in &self.pages {
            pages.push((*addr, page.try_copy(alloc)?))?;
        }
        Ok(Pages { pages })
    }
}

ghost use Rattle.std.specs.Prelude.{◌≡◌, ◌≤◌, length};
ghost use Rattle.mn_page.specs.Grammar.{page_bytes, count_in};
ghost use Rattle.mn_page.specs.Space.{slot_size};
ghost use Rattle.mn_padded.specs.Zeros.{IsFilled};

use crate::SharedPage;
use mn_base::{NoMemory, TryCopy};
use std::alloc::Global;
use std::marker::Model;

/// A page as a plan writes it: a shared page under a sequence number of its own. Contracts see the
/// page with that number.
#[derive(Debug, Drop)]
pub struct PlacedPage {
    seq: u64,
    page: SharedPage,
}

impl Model for PlacedPage {
    ghost use Rattle.mn_page.specs.declared.page.Page.{Page};

    ghost Value = { Page };

    ghost view = { λ p. record p.page { seq = p.seq } };
}

impl PlacedPage {
    /// The page under this number.
    pub fn new(seq: u64, page: SharedPage) -> Self
        ensures { result ≡ record page { seq = seq } }
    {
        PlacedPage { seq, page }
    }

    /// Writes its spelling over a slot, as `Page::write` does.
    pub fn write(&self, into: &mut [u8]) -> usize
        requires slot { length into.old ≡ slot_size }
        requires few { count_in self.now.body ≤ 8 }
        requires low { length self.now.low ≤ 32 }
        ensures bytes { into.new ≡ page_bytes self.now }
        ensures filled { IsFilled result into.new }
    {
        self.page.get().write_as(self.seq, into)
    }
}

impl TryCopy for PlacedPage {
    fn try_copy(&self, alloc: Global) -> Result<Self, NoMemory> {
        Ok(PlacedPage {
            seq: self.seq,
            page: self.page.try_copy(alloc)?,
        })
    }
}

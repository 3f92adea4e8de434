use mn_base::NoMemory;
use thiserror::Error;

/// Bytes are neither those of a page nor of a free slot. `at`, up to 1,024, is how many of the
/// first bytes still begin some page. A free slot is no page: of bytes that begin with eight zeros,
/// but are not all zero, just seven begin some page.
#[derive(Clone, Copy, Debug, PartialEq, Eq, Error)]
#[error("no page from byte {at} on")]
pub struct BadPage {
    pub at: u16,
}

/// Why bytes gave no page and no entry.
#[derive(Clone, Copy, Debug, PartialEq, Eq, Error)]
pub enum PageError {
    /// They spell none, and aren't the zeros of a free slot or an unused place; `at` is how many of
    /// the first bytes still begin some page or some entry.
    #[error("no page from byte {at} on")]
    BadPage { at: u16 },
    #[error("no memory")]
    NoMemory,
}

impl From<BadPage> for PageError {
    ghost use Rattle.std.specs.Prelude.{◌≡◌};
    ghost use Rattle.mn_page.specs.declared.error.PageError.TheVariants as refusals;

    ghost from_gives = { λ bad e. e ≡ refusals.BadPage bad.at };

    fn from(bad: BadPage) -> Self {
        PageError::BadPage { at: bad.at }
    }
}

impl From<NoMemory> for PageError {
    ghost use Rattle.std.specs.Prelude.{◌≡◌};
    ghost use Rattle.mn_page.specs.declared.error.PageError.TheVariants as refusals;

    ghost from_gives = { λ _ e. e ≡ refusals.NoMemory };

    fn from(_error: NoMemory) -> Self {
        PageError::NoMemory
    }
}

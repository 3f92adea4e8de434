ghost use Rattle.std.specs.Prelude.{◌≡◌};

use mn_base::NoMemory;
use std::alloc::{AllocError, AllocFailed};
use thiserror::Error;

/// Why items make no minitransaction.
#[derive(Clone, Copy, Debug, PartialEq, Eq, Error)]
pub enum MiniError {
    /// There is none.
    #[error("no items")]
    NoItems,
    /// There are `n`, more than 1,024.
    #[error("{n} items are too many")]
    TooMany { n: usize },
    /// Item `item` (from 0, in the order given) is the first that names no node of the space, or
    /// whose range has no byte, more than 4,096, or one outside the space.
    #[error("item {item} lies outside the space")]
    OutOfSpace { item: usize },
    #[error("no memory")]
    NoMemory,
}

impl MiniError {
    ghost use Rattle.mn_mini.specs.Refusal.{code_of};

    /// The number of the refusal: 6 NoItems, 5 TooMany, 4 OutOfSpace; 0 for want of memory, which
    /// is none.
    pub fn code(&self) -> u8
        ensures { result ≡ code_of self.now }
    {
        match self {
            MiniError::NoItems => 6,
            MiniError::TooMany { .. } => 5,
            MiniError::OutOfSpace { .. } => 4,
            MiniError::NoMemory => 0,
        }
    }
}

impl From<AllocError> for MiniError {
    ghost use Rattle.std.specs.Prelude.{◌≡◌};
    ghost use Rattle.mn_mini.specs.declared.error.MiniError.TheVariants.{NoMemory};

    ghost from_gives = { λ _ e. e ≡ NoMemory };

    fn from(_error: AllocError) -> Self {
        MiniError::NoMemory
    }
}

impl<T: Drop> From<AllocFailed<T>> for MiniError {
    ghost use Rattle.std.specs.Prelude.{◌≡◌};
    ghost use Rattle.mn_mini.specs.declared.error.MiniError.TheVariants.{NoMemory};

    ghost from_gives = { λ _ e. e ≡ NoMemory };

    fn from(_error: AllocFailed<T>) -> Self {
        MiniError::NoMemory
    }
}

impl From<NoMemory> for MiniError {
    ghost use Rattle.std.specs.Prelude.{◌≡◌};
    ghost use Rattle.mn_mini.specs.declared.error.MiniError.TheVariants as refusals;

    ghost from_gives = { λ _ e. e ≡ refusals.NoMemory };

    fn from(_error: NoMemory) -> Self {
        MiniError::NoMemory
    }
}

ghost use Rattle.std.specs.Prelude.{◌≡◌};

use std::alloc::{AllocError, AllocFailed};
use thiserror::Error;

/// A call found no memory.
#[derive(Clone, Copy, Debug, PartialEq, Eq, Error)]
#[error("no memory")]
pub struct NoMemory;

impl From<AllocError> for NoMemory {
    fn from(_error: AllocError) -> Self {
        NoMemory
    }
}

impl<T: Drop> From<AllocFailed<T>> for NoMemory {
    fn from(_error: AllocFailed<T>) -> Self {
        NoMemory
    }
}

/// Why a key, a value, a name or a list of steps was refused.
#[derive(Clone, Copy, Debug, PartialEq, Eq, Error)]
pub enum BaseError {
    /// A key has no byte.
    #[error("empty")]
    Empty,
    /// A key or a value has `n` bytes, too many.
    #[error("{n} bytes are too many")]
    TooLong { n: usize },
    /// The byte at `at` can't stand there in a name.
    #[error("byte {at} can't stand in a name")]
    BadName { at: usize },
    /// A transaction has `n` steps, none or too many.
    #[error("{n} steps")]
    BadSteps { n: usize },
    #[error("no memory")]
    NoMemory,
}

impl BaseError {
    ghost use Rattle.mn_base.specs.Refusal.{code_of};

    /// The number of the refusal: 1 Empty, 2 TooLong, 3 BadName, 7 BadSteps; 0 for want of memory,
    /// which is none.
    pub fn code(&self) -> u8
        ensures { result ≡ code_of self.now }
    {
        match self {
            BaseError::Empty => 1,
            BaseError::TooLong { .. } => 2,
            BaseError::BadName { .. } => 3,
            BaseError::BadSteps { .. } => 7,
            BaseError::NoMemory => 0,
        }
    }
}

impl From<AllocError> for BaseError {
    ghost use Rattle.std.specs.Prelude.{◌≡◌};
    ghost use Rattle.mn_base.specs.declared.error.BaseError.TheVariants.{NoMemory};

    ghost from_gives = { λ _ e. e ≡ NoMemory };

    fn from(_error: AllocError) -> Self {
        BaseError::NoMemory
    }
}

impl<T: Drop> From<AllocFailed<T>> for BaseError {
    ghost use Rattle.std.specs.Prelude.{◌≡◌};
    ghost use Rattle.mn_base.specs.declared.error.BaseError.TheVariants.{NoMemory};

    ghost from_gives = { λ _ e. e ≡ NoMemory };

    fn from(_error: AllocFailed<T>) -> Self {
        BaseError::NoMemory
    }
}

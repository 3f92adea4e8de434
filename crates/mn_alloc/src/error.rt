use std::alloc::AllocFailed;
use thiserror::Error;

/// Why a plan of new slots was refused.
#[derive(Clone, Copy, Debug, PartialEq, Eq, Error)]
pub enum AllocError {
    /// The nodes together have `free` slots that are not given out, fewer than the `need`.
    #[error("{need} slots are needed, {free} are free")]
    Full { need: u32, free: u32 },
    #[error("no memory")]
    NoMemory,
}

impl From<std::alloc::AllocError> for AllocError {
    ghost use Rattle.std.specs.Prelude.{◌≡◌};
    ghost use Rattle.mn_alloc.specs.declared.error.AllocError.TheVariants.{NoMemory};

    ghost from_gives = { λ _ e. e ≡ NoMemory };

    fn from(_error: std::alloc::AllocError) -> Self {
        AllocError::NoMemory
    }
}

impl<T: Drop> From<AllocFailed<T>> for AllocError {
    ghost use Rattle.std.specs.Prelude.{◌≡◌};
    ghost use Rattle.mn_alloc.specs.declared.error.AllocError.TheVariants.{NoMemory};

    ghost from_gives = { λ _ e. e ≡ NoMemory };

    fn from(_error: AllocFailed<T>) -> Self {
        AllocError::NoMemory
    }
}

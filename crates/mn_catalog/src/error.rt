use std::alloc::AllocFailed;
use thiserror::Error;

/// Why bytes gave no catalog.
#[derive(Clone, Copy, Debug, PartialEq, Eq, Error)]
pub enum CatError {
    /// They spell none: `entry`, 0 to 63, is the first place that is neither an entry nor unused,
    /// or that is used behind an unused one; 0 where they are not 4,096 bytes.
    #[error("catalog entry {entry} is at fault")]
    BadCatalog { entry: u16 },
    #[error("no memory")]
    NoMemory,
}

impl<T: Drop> From<AllocFailed<T>> for CatError {
    ghost use Rattle.std.specs.Prelude.{◌≡◌};
    ghost use Rattle.mn_catalog.specs.declared.error.CatError.TheVariants.{NoMemory};

    ghost from_gives = { λ _ e. e ≡ NoMemory };

    fn from(_error: AllocFailed<T>) -> Self {
        CatError::NoMemory
    }
}

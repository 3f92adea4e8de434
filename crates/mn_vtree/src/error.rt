ghost use Rattle.std.specs.Prelude.{◌≡◌};

use mn_base::VersionNo;
use std::alloc::{AllocError, AllocFailed};
use thiserror::Error;

/// Why a list of parents is no tree of versions.
#[derive(Clone, Copy, Debug, PartialEq, Eq, Error)]
pub enum TreeError {
    /// The first version whose parent isn't less than itself.
    #[error("version {} has a parent that isn't less", version.0)]
    BadParent { version: VersionNo },
    #[error("no memory")]
    NoMemory,
}

impl TreeError {
    ghost use Rattle.mn_vtree.specs.Parents.{code_of};

    /// The number of the refusal: 8 for BadParent; 0 for want of memory, which is none.
    pub fn code(&self) -> u8
        ensures { result ≡ code_of self.now }
    {
        match self {
            TreeError::BadParent { .. } => 8,
            TreeError::NoMemory => 0,
        }
    }
}

impl From<AllocError> for TreeError {
    ghost use Rattle.std.specs.Prelude.{◌≡◌};
    ghost use Rattle.mn_vtree.specs.declared.error.TreeError.TheVariants.{NoMemory};

    ghost from_gives = { λ _ e. e ≡ NoMemory };

    fn from(_error: AllocError) -> Self {
        TreeError::NoMemory
    }
}

impl<T: Drop> From<AllocFailed<T>> for TreeError {
    ghost use Rattle.std.specs.Prelude.{◌≡◌};
    ghost use Rattle.mn_vtree.specs.declared.error.TreeError.TheVariants.{NoMemory};

    ghost from_gives = { λ _ e. e ≡ NoMemory };

    fn from(_error: AllocFailed<T>) -> Self {
        TreeError::NoMemory
    }
}

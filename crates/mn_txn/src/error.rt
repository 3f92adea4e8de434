ghost use Rattle.std.specs.Prelude.{◌≡◌};

use mn_base::{NoMemory, NodeNo};
use std::alloc::{AllocError, AllocFailed};
use thiserror::Error;

/// Why there is no plan.
#[derive(Clone, Copy, Debug, PartialEq, Eq, Error)]
pub enum PlanError {
    /// The page or entry at `start` of the node is to be written, and was read with the last
    /// sequence number, 2^64 - 1.
    #[error("the place at {start} of node {node:?} has the last sequence number")]
    Worn { node: NodeNo, start: u32 },
    #[error("no memory")]
    NoMemory,
}

impl From<AllocError> for PlanError {
    ghost use Rattle.std.specs.Prelude.{◌≡◌};
    ghost use Rattle.mn_txn.specs.declared.error.PlanError.TheVariants.{NoMemory};

    ghost from_gives = { λ _ e. e ≡ NoMemory };

    fn from(_error: AllocError) -> Self {
        PlanError::NoMemory
    }
}

impl<T: Drop> From<AllocFailed<T>> for PlanError {
    ghost use Rattle.std.specs.Prelude.{◌≡◌};
    ghost use Rattle.mn_txn.specs.declared.error.PlanError.TheVariants.{NoMemory};

    ghost from_gives = { λ _ e. e ≡ NoMemory };

    fn from(_error: AllocFailed<T>) -> Self {
        PlanError::NoMemory
    }
}

impl From<NoMemory> for PlanError {
    ghost use Rattle.std.specs.Prelude.{◌≡◌};
    ghost use Rattle.mn_txn.specs.declared.error.PlanError.TheVariants as refusals;

    ghost from_gives = { λ _ e. e ≡ refusals.NoMemory };

    fn from(_error: NoMemory) -> Self {
        PlanError::NoMemory
    }
}

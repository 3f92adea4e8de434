use mn_base::{NoMemory, NodeNo};
use std::alloc::{AllocError, AllocFailed};
use thiserror::Error;

/// Why the records of all nodes make no memory.
#[derive(Clone, Copy, Debug, PartialEq, Eq, Error)]
pub enum VoteError {
    /// Record `number`, from 0, of this node is out of place, decides yes where a participant has
    /// no vote, or is a vote for a committed id that is held and doesn't write greater numbers.
    #[error("record {number} of node {} is out of place", node.0)]
    Unvoted { node: NodeNo, number: u32 },
    /// Record `number`, from 0, of this node decides an id that is decided no, and that is
    /// committed or decided yes too.
    #[error("record {number} of node {} decides an id both ways", node.0)]
    Both { node: NodeNo, number: u32 },
    #[error("no memory")]
    NoMemory,
}

impl From<NoMemory> for VoteError {
    ghost use Rattle.std.specs.Prelude.{◌≡◌};
    ghost use Rattle.mn_flat.specs.declared.error.VoteError.TheVariants as refusals;

    ghost from_gives = { λ _ e. e ≡ refusals.NoMemory };

    fn from(_error: NoMemory) -> Self {
        VoteError::NoMemory
    }
}

impl From<AllocError> for VoteError {
    ghost use Rattle.std.specs.Prelude.{◌≡◌};
    ghost use Rattle.mn_flat.specs.declared.error.VoteError.TheVariants as refusals;

    ghost from_gives = { λ _ e. e ≡ refusals.NoMemory };

    fn from(_error: AllocError) -> Self {
        VoteError::NoMemory
    }
}

impl<T: Drop> From<AllocFailed<T>> for VoteError {
    ghost use Rattle.std.specs.Prelude.{◌≡◌};
    ghost use Rattle.mn_flat.specs.declared.error.VoteError.TheVariants as refusals;

    ghost from_gives = { λ _ e. e ≡ refusals.NoMemory };

    fn from(_error: AllocFailed<T>) -> Self {
        VoteError::NoMemory
    }
}

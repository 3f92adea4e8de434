use mn_base::{NoMemory, NodeNo};
use std::alloc::{AllocError, AllocFailed};
use thiserror::Error;

/// A rule that the bytes of a memory keep where it holds a store.
#[derive(Clone, Copy, Debug, PartialEq, Eq)]
pub enum Rule {
    /// The header, and the bytes that are kept zero.
    Header,
    /// The count of slots given out.
    Count,
    /// An entry of the catalog.
    Entry,
    /// The root of an entry.
    Root,
    /// A page, or a free slot.
    Page,
    /// The children of a page.
    Child,
    /// What names a page.
    Reach,
}

/// Why a memory holds no store.
#[derive(Clone, Copy, Debug, PartialEq, Eq, Error)]
pub enum ForestError {
    /// On this node the rule fails of what begins at `start`.
    #[error("a rule fails at byte {start} of node {}", node.0)]
    Broken {
        node: NodeNo,
        start: u32,
        rule: Rule,
    },
    #[error("no memory")]
    NoMemory,
}

impl From<NoMemory> for ForestError {
    ghost use Rattle.std.specs.Prelude.{◌≡◌};
    ghost use Rattle.mn_forest.specs.declared.error.ForestError.TheVariants as refusals;

    ghost from_gives = { λ _ e. e ≡ refusals.NoMemory };

    fn from(_error: NoMemory) -> Self {
        ForestError::NoMemory
    }
}

impl From<AllocError> for ForestError {
    ghost use Rattle.std.specs.Prelude.{◌≡◌};
    ghost use Rattle.mn_forest.specs.declared.error.ForestError.TheVariants as refusals;

    ghost from_gives = { λ _ e. e ≡ refusals.NoMemory };

    fn from(_error: AllocError) -> Self {
        ForestError::NoMemory
    }
}

impl<T: Drop> From<AllocFailed<T>> for ForestError {
    ghost use Rattle.std.specs.Prelude.{◌≡◌};
    ghost use Rattle.mn_forest.specs.declared.error.ForestError.TheVariants as refusals;

    ghost from_gives = { λ _ e. e ≡ refusals.NoMemory };

    fn from(_error: AllocFailed<T>) -> Self {
        ForestError::NoMemory
    }
}

ghost use Rattle.std.specs.Prelude.{◌≡◌};

use mn_base::{Addr, NoMemory};
use thiserror::Error;

/// Why a page was not taken.
#[derive(Clone, Copy, Debug, PartialEq, Eq, Error)]
pub enum AddError {
    /// The page that was read at `addr` doesn't serve the version, doesn't cover the key of the
    /// step that asked for it, isn't one height below the page that names it, or is higher than 14.
    #[error("the page at node {}, slot {} is on no path", addr.node.0, addr.slot)]
    BadPath { addr: Addr },
    #[error("no memory")]
    NoMemory,
}

impl From<NoMemory> for AddError {
    ghost use Rattle.mn_tree.specs.declared.error.AddError.TheVariants as refusals;

    ghost from_gives = { λ _ e. e ≡ refusals.NoMemory };

    fn from(_error: NoMemory) -> Self {
        AddError::NoMemory
    }
}

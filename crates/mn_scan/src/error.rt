ghost use Rattle.std.specs.Prelude.{◌≡◌};

use mn_base::{Addr, NoMemory};
use std::alloc::AllocFailed;
use thiserror::Error;

/// Why a page was not taken.
#[derive(Clone, Copy, Debug, PartialEq, Eq, Error)]
pub enum ScanError {
    /// The page that was read at `addr` doesn't serve the version, doesn't cover the key at which
    /// the scan stands, isn't one height below the page that names it, or is higher than 14; or it
    /// is a leaf that begins below the key at which the leaf before it ended.
    #[error("the page at node {}, slot {} is on no path", addr.node.0, addr.slot)]
    BadPath { addr: Addr },
    #[error("no memory")]
    NoMemory,
}

impl From<NoMemory> for ScanError {
    ghost use Rattle.mn_scan.specs.declared.error.ScanError.TheVariants as refusals;

    ghost from_gives = { λ _ e. e ≡ refusals.NoMemory };

    fn from(_error: NoMemory) -> Self {
        ScanError::NoMemory
    }
}

impl<T: Drop> From<AllocFailed<T>> for ScanError {
    ghost use Rattle.mn_scan.specs.declared.error.ScanError.TheVariants as refusals;

    ghost from_gives = { λ _ e. e ≡ refusals.NoMemory };

    fn from(_error: AllocFailed<T>) -> Self {
        ScanError::NoMemory
    }
}

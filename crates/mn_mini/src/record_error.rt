use mn_base::NoMemory;
use thiserror::Error;

/// Why bytes gave no record.
#[derive(Clone, Copy, Debug, PartialEq, Eq, Error)]
pub enum RecordError {
    /// They spell no record.
    #[error("no record")]
    BadRecord,
    #[error("no memory")]
    NoMemory,
}

impl From<NoMemory> for RecordError {
    ghost use Rattle.std.specs.Prelude.{◌≡◌};
    ghost use Rattle.mn_mini.specs.declared.record_error.RecordError.TheVariants as refusals;

    ghost from_gives = { λ _ e. e ≡ refusals.NoMemory };

    fn from(_error: NoMemory) -> Self {
        RecordError::NoMemory
    }
}

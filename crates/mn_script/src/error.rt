use mn_base::NoMemory;
use std::alloc::{AllocError, AllocFailed};

/// Why a text is no script.
#[derive(Clone, Copy, Debug, PartialEq, Eq)]
pub enum ScriptError {
    /// The text isn't in the grammar or passes a limit. `line` is the first line at which the text
    /// up to it can't be the beginning of a script, counted from 1, and `column` the place of its
    /// first wrong word, counted from 1; both are 0 for a text of too many bytes.
    Refused { line: u32, column: u32 },
    NoMemory,
}

/// Why a line was refused.
#[derive(Clone, Copy)]
pub enum LineError {
    /// The first wrong word stands at this column, counted from 1.
    Wrong { column: usize },
    NoMemory,
}

impl From<NoMemory> for LineError {
    ghost use Rattle.std.specs.Prelude.{◌≡◌};
    ghost use Rattle.mn_script.specs.declared.error.LineError.TheVariants.{NoMemory};

    ghost from_gives = { λ _ e. e ≡ NoMemory };

    fn from(_error: NoMemory) -> Self {
        LineError::NoMemory
    }
}

impl From<AllocError> for LineError {
    ghost use Rattle.std.specs.Prelude.{◌≡◌};
    ghost use Rattle.mn_script.specs.declared.error.LineError.TheVariants.{NoMemory};

    ghost from_gives = { λ _ e. e ≡ NoMemory };

    fn from(_error: AllocError) -> Self {
        LineError::NoMemory
    }
}

impl<T: Drop> From<AllocFailed<T>> for LineError {
    ghost use Rattle.std.specs.Prelude.{◌≡◌};
    ghost use Rattle.mn_script.specs.declared.error.LineError.TheVariants.{NoMemory};

    ghost from_gives = { λ _ e. e ≡ NoMemory };

    fn from(_error: AllocFailed<T>) -> Self {
        LineError::NoMemory
    }
}

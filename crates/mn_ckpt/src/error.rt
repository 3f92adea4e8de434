use mn_io::Failed;
use std::alloc::AllocError;

/// Why an image wasn't read.
#[derive(Clone, Copy, Debug, PartialEq, Eq)]
pub enum ImageError {
    Fault,
    NoMemory,
}

impl From<Failed> for ImageError {
    ghost use Rattle.std.specs.Prelude.{◌≡◌};
    ghost use Rattle.mn_ckpt.specs.declared.error.ImageError.TheVariants.{Fault};

    ghost from_gives = { λ _ e. e ≡ Fault };

    fn from(_failed: Failed) -> Self {
        ImageError::Fault
    }
}

impl From<AllocError> for ImageError {
    ghost use Rattle.std.specs.Prelude.{◌≡◌};
    ghost use Rattle.mn_ckpt.specs.declared.error.ImageError.TheVariants.{NoMemory};

    ghost from_gives = { λ _ e. e ≡ NoMemory };

    fn from(_error: AllocError) -> Self {
        ImageError::NoMemory
    }
}

ghost use Rattle.std.specs.Prelude.{◌≡◌, IfOk};

use crate::NoMemory;
use std::alloc::Global;

/// A value that takes memory of its own and can be copied where memory is left.
pub trait TryCopy: Sized {
    /// An equal value. NoMemory: there was no memory for it.
    fn try_copy(&self, alloc: Global) -> Result<Self, NoMemory>
        ensures { IfOk result (λ copy. copy ≡ self.now) };
}

impl<T: TryCopy> TryCopy for Option<T> {
    #[inline(always)]
    fn try_copy(&self, alloc: Global) -> Result<Self, NoMemory> {
        match self {
            Some(value) => Ok(Some(value.try_copy(alloc)?)),
            None => Ok(None),
        }
    }
}

/// Equal values in the same order. NoMemory: there was no memory for them.
pub fn copies_of<T: TryCopy + Drop>(alloc: Global, values: &[T]) -> Result<Vec<T>, NoMemory>
    ensures { IfOk result (λ copies. copies.items ≡ values.now) }
{
    let mut copies = Vec::with_capacity(alloc, values.len())?;
    for value in values {
        copies.push(value.try_copy(alloc)?)?;
    }
    Ok(copies)
}

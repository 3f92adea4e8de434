ghost use Rattle.std.specs.Prelude.{◌≡◌, ◌≤◌, ℕ, List, length, IfOk, IfErr, OnOk};
ghost use Rattle.mn_base.specs.Refusal.{RefusesValue};
ghost use Rattle.mn_base.specs.declared.value.TheConstants.{MAX_VALUE};

use crate::short_list::ShortList;
use crate::{BaseError, NoMemory, TryCopy};
use std::alloc::Global;
use std::marker::Model;

/// The most bytes of a value.
pub const MAX_VALUE: usize = 64;

/// A value: 0 to 64 bytes. Contracts see it as a list.
#[derive(Debug, Drop)]
pub struct Value {
    bytes: ShortList<u8, MAX_VALUE>,
}

impl Model for Value {
    ghost Value = { List ℕ };

    ghost view = { λ v. v.bytes };

    ghost invariant = { λ v. length v.bytes ≤ MAX_VALUE };
}

impl Value {
    /// The value of these bytes. TooLong: there are `n`, more than 64. NoMemory: there was no
    /// memory for it.
    #[inline(always)]
    pub fn new(alloc: Global, bytes: &[u8]) -> Result<Self, BaseError>
        ensures ok { IfOk result (λ value. value ≡ bytes.now) }
        ensures within { OnOk result (length bytes.now ≤ MAX_VALUE) }
        ensures refused { IfErr result (RefusesValue bytes.now) }
    {
        match ShortList::of(bytes) {
            Some(bytes) => Ok(Value { bytes }),
            None => Err(BaseError::TooLong { n: bytes.len() }),
        }
    }

    pub fn as_slice(&self) -> &[u8]
        ensures bytes { result.now ≡ self.now }
        ensures within { length self.now ≤ MAX_VALUE }
    {
        self.bytes.as_slice()
    }
}

impl TryCopy for Value {
    #[inline(always)]
    fn try_copy(&self, _alloc: Global) -> Result<Self, NoMemory> {
        Ok(Value {
            bytes: self.bytes.copy(),
        })
    }
}

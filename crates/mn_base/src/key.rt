ghost use Rattle.std.specs.Prelude.{◌≡◌, ◌<◌, ◌≤◌, ℕ, List, length, IfOk, IfErr, OnOk};
ghost use Rattle.mn_base.specs.Refusal.{RefusesKey};
ghost use Rattle.mn_base.specs.declared.key.TheConstants.{MAX_KEY};

use crate::short_list::ShortList;
use crate::{BaseError, NoMemory, TryCopy};
use std::alloc::Global;
use std::marker::Model;

/// The most bytes of a key.
pub const MAX_KEY: usize = 32;

/// A key: 1 to 32 bytes. Contracts see it as a list.
#[derive(Debug, Drop)]
pub struct Key {
    bytes: ShortList<u8, MAX_KEY>,
}

impl Model for Key {
    ghost Value = { List ℕ };

    ghost view = { λ k. k.bytes };

    ghost invariant = { λ k. (1 ≤ length k.bytes) × (length k.bytes ≤ MAX_KEY) };
}

impl Key {
    /// The key of these bytes. Empty: there is none. TooLong: there are `n`, more than 32.
    /// NoMemory: there was no memory for it.
    #[inline(always)]
    pub fn new(alloc: Global, bytes: &[u8]) -> Result<Self, BaseError>
        ensures ok { IfOk result (λ key. key ≡ bytes.now) }
        ensures within { OnOk result ((1 ≤ length bytes.now) × (length bytes.now ≤ MAX_KEY)) }
        ensures refused { IfErr result (RefusesKey bytes.now) }
    {
        if bytes.is_empty() {
            return Err(BaseError::Empty);
        }
        match ShortList::of(bytes) {
            Some(bytes) => Ok(Key { bytes }),
            None => Err(BaseError::TooLong { n: bytes.len() }),
        }
    }

    /// A key of zeros, which stands where none was put yet.
    pub(crate) fn blank() -> Self {
        Key {
            bytes: ShortList::blank(),
        }
    }

    pub fn as_slice(&self) -> &[u8]
        ensures bytes { result.now ≡ self.now }
        ensures within { (1 ≤ length self.now) × (length self.now ≤ MAX_KEY) }
    {
        self.bytes.as_slice()
    }
}

impl TryCopy for Key {
    #[inline(always)]
    fn try_copy(&self, _alloc: Global) -> Result<Self, NoMemory> {
        Ok(Key {
            bytes: self.bytes.copy(),
        })
    }
}

ghost use Rattle.std.specs.Prelude.{◌≡◌, ◌<◌, None, IfSome, length};

use mn_base::{Key, MAX_KEY, NoMemory, ShortList, TryCopy};
use std::alloc::Global;
use std::marker::Model;

/// The least bound of a page's keys: 0 to 32 bytes, where no byte bounds none. It takes no memory
/// beside the page's. Contracts see it as a list.
#[derive(Debug, Drop)]
pub struct Low {
    bytes: ShortList<u8, MAX_KEY>,
}

impl Model for Low {
    ghost use Rattle.std.specs.Prelude.{ℕ, List};

    ghost Value = { List ℕ };

    ghost view = { λ l. l.bytes };
}

impl Low {
    /// The bound of these bytes. None: there are more than 32.
    #[inline(always)]
    pub fn new(bytes: &[u8]) -> Option<Self>
        ensures bound { IfSome result (λ low. low ≡ bytes.now) }
        ensures long { result ≡ None → 32 < length bytes.now }
    {
        match ShortList::of(bytes) {
            Some(bytes) => Some(Low { bytes }),
            None => None,
        }
    }

    /// The bound at the key: a page's keys may be this one or above it.
    #[inline(always)]
    pub fn at(key: &Key) -> Self
        ensures { result ≡ key.now }
    {
        match ShortList::of(key.as_slice()) {
            Some(bytes) => Low { bytes },
            None => unreachable!(),
        }
    }

    pub fn as_slice(&self) -> &[u8]
        ensures { result.now ≡ self.now }
    {
        self.bytes.as_slice()
    }
}

impl TryCopy for Low {
    #[inline(always)]
    fn try_copy(&self, _alloc: Global) -> Result<Self, NoMemory> {
        Ok(Low {
            bytes: self.bytes.copy(),
        })
    }
}

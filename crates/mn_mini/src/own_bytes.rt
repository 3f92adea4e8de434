ghost use Rattle.std.specs.Prelude.{◌≡◌, length, IfOk};

use mn_base::{NoMemory, TryCopy};
use std::alloc::Global;
use std::marker::Model;

/// Bytes that are copied with what has them. They are rare, and lie in memory of their own, so that
/// what may have them is no larger. Contracts see them as a list.
#[derive(Debug, Drop)]
pub struct OwnBytes {
    bytes: Box<Vec<u8>>,
}

impl Model for OwnBytes {
    ghost use Rattle.std.specs.Prelude.{ℕ, List};

    ghost Value = { List ℕ };

    ghost view = { λ b. b.bytes.value.items };
}

impl OwnBytes {
    /// These bytes, which are not copied. NoMemory: there was no memory of their own for them.
    pub fn new(alloc: Global, bytes: Vec<u8>) -> Result<Self, NoMemory>
        ensures { IfOk result (λ b. b ≡ bytes.items) }
    {
        Ok(OwnBytes {
            bytes: Box::new(alloc, bytes)?,
        })
    }

    pub fn as_slice(&self) -> &[u8]
        ensures { result.now ≡ self.now }
    {
        self.bytes.as_slice()
    }

    /// Puts as many other bytes in their place.
    pub fn put(&mut self, bytes: &[u8])
        requires { length self.old ≡ length bytes.now }
        ensures { self.new ≡ bytes.now }
    {
        self.bytes.copy_from_slice(bytes);
    }
}

impl TryCopy for OwnBytes {
    fn try_copy(&self, alloc: Global) -> Result<Self, NoMemory> {
        OwnBytes::new(alloc, self.bytes.to_vec(alloc)?)
    }
}

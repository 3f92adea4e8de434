ghost use Rattle.std.specs.Prelude.{◌≡◌, ℕ, List, nat_eq};
ghost use Rattle.std.specs.List.{list_all};

use crate::{NoMemory, TryCopy};
use std::alloc::Global;
use std::marker::Model;

/// Any bytes. Contracts see them as a list.
#[derive(Debug, Drop)]
pub struct Bytes {
    bytes: Vec<u8>,
}

impl Model for Bytes {
    ghost Value = { List ℕ };

    ghost view = { λ b. b.bytes.items };
}

impl Bytes {
    /// It takes no memory.
    pub fn from_vec(bytes: Vec<u8>) -> Self
        ensures { result ≡ bytes.items }
    {
        Bytes { bytes }
    }

    pub fn into_vec(self) -> Vec<u8>
        ensures { result.items ≡ self }
    {
        self.bytes
    }

    pub fn as_slice(&self) -> &[u8]
        ensures { result.now ≡ self.now }
    {
        &self.bytes
    }
}

impl TryCopy for Bytes {
    fn try_copy(&self, alloc: Global) -> Result<Self, NoMemory> {
        Ok(Bytes {
            bytes: self.bytes.to_vec(alloc)?,
        })
    }
}

/// How many bytes are compared with zeros at once.
const BLOCK: usize = 4_096;

const ZEROS: [u8; BLOCK] = [0; BLOCK];

/// Whether each byte is zero.
pub fn are_zeros(bytes: &[u8]) -> bool
    ensures { result ≡ list_all (λ b. nat_eq b 0) bytes.now }
{
    if bytes.len() > BLOCK {
        return bytes.iter().all(|byte| *byte == 0);
    }
    bytes == &ZEROS[..bytes.len()]
}

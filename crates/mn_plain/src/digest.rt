ghost use Rattle.std.specs.Prelude.{◌≡◌, IfOk};
ghost use Rattle.mn_plain.specs.Digest.{pair_bytes, pairs_digest};

use mn_base::{NoMemory, Pair};
use sha2::{Digest, Sha256};
use std::alloc::{AllocError, Global};

/// The bytes of the pairs, each string behind its length.
fn bytes_of(alloc: Global, pairs: &[Pair]) -> Result<Vec<u8>, AllocError>
    ensures { IfOk result (λ bytes. bytes.items ≡ pair_bytes pairs.now) }
{
    let mut bytes = Vec::new(alloc);
    for pair in pairs {
        let key = pair.key.as_slice();
        let value = pair.value.as_slice();
        bytes.push(key.len() as u8)?;
        bytes.extend_from_slice(key)?;
        bytes.push(value.len() as u8)?;
        bytes.extend_from_slice(value)?;
    }
    Ok(bytes)
}

/// The SHA-256 of the pairs: for each in order the key's length (1 byte), the key, the value's
/// length (1 byte), the value. NoMemory: there was no memory for these bytes.
pub fn digest_of(alloc: Global, pairs: &[Pair]) -> Result<[u8; 32], NoMemory>
    ensures { IfOk result (λ digest. digest ≡ pairs_digest pairs.now) }
{
    let bytes = bytes_of(alloc, pairs)?;
    Ok(Sha256::digest(bytes.as_slice()))
}

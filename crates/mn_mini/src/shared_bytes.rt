ghost use Rattle.std.specs.Prelude.{◌≡◌, IfOk};
ghost use Rattle.mn_padded.specs.Zeros.{IsFilled};

use mn_base::{NoMemory, TryCopy};
use mn_padded::{Padded, filled_in};
use smallvec::SmallVec;
use std::alloc::Global;
use std::fmt;
use std::marker::Model;
use std::sync::Arc;

/// How many bytes lie beside the count of their owners: the count of a node's slots has 8.
const BYTES_IN_PLACE: usize = 16;

/// Bytes, and a place from which on they are zeros.
#[derive(Drop)]
struct Filled {
    bytes: SmallVec<u8, BYTES_IN_PLACE>,
    filled: usize,
}

impl Model for Filled {
    ghost use Rattle.std.specs.Prelude.{ℕ, List};
    ghost use Rattle.mn_padded.specs.Zeros.{IsFilled};

    ghost Value = { List ℕ };

    ghost view = { λ f. f.bytes.items };

    ghost invariant = { λ f. IsFilled f.filled f.bytes.items };
}

impl Filled {
    /// Looks where the zeros at the end of the bytes begin.
    fn found(bytes: SmallVec<u8, BYTES_IN_PLACE>) -> Self
        ensures { result ≡ bytes.items }
    {
        let filled = filled_in(bytes.as_slice());
        Filled { bytes, filled }
    }

    fn new(bytes: SmallVec<u8, BYTES_IN_PLACE>, filled: usize) -> Self
        requires { IsFilled filled bytes.items }
        ensures { result ≡ bytes.items }
    {
        Filled { bytes, filled }
    }

    #[inline(always)]
    fn as_slice(&self) -> &[u8]
        ensures { result.now ≡ self.now }
    {
        self.bytes.as_slice()
    }

    #[inline(always)]
    fn padded(&self) -> Padded<'_>
        ensures { result ≡ self.now }
    {
        Padded::new(self.bytes.as_slice(), self.filled)
    }
}

/// Only the bytes are shown.
impl fmt::Debug for Filled {
    fn fmt<W: fmt::Write>(&self, f: &mut fmt::Formatter<W>) -> fmt::Result {
        self.bytes.fmt(f)
    }
}

/// Bytes that an item compares or writes, or that a node has read. Copies share one memory.
/// Contracts see them as a list.
#[derive(Debug, Drop)]
pub struct SharedBytes {
    bytes: Arc<Filled>,
}

impl Model for SharedBytes {
    ghost use Rattle.std.specs.Prelude.{ℕ, List};

    ghost Value = { List ℕ };

    ghost view = { λ b. b.bytes.value };
}

impl SharedBytes {
    /// These bytes, which are not copied unless they are few. NoMemory: there was no memory to
    /// count their owners.
    pub fn new(alloc: Global, bytes: Vec<u8>) -> Result<Self, NoMemory>
        ensures { IfOk result (λ b. b ≡ bytes.items) }
    {
        if bytes.len() <= BYTES_IN_PLACE {
            return SharedBytes::copy_of(alloc, &bytes);
        }
        SharedBytes::counted(alloc, Filled::found(SmallVec::from_vec(bytes)))
    }

    /// These bytes, which are zeros from a place on; nobody looks for it, and they are not copied.
    /// NoMemory: there was no memory to count their owners.
    pub fn filled(alloc: Global, bytes: Vec<u8>, filled: usize) -> Result<Self, NoMemory>
        requires { IsFilled filled bytes.items }
        ensures { IfOk result (λ b. b ≡ bytes.items) }
    {
        SharedBytes::counted(alloc, Filled::new(SmallVec::from_vec(bytes), filled))
    }

    /// Counts their owners. NoMemory: there was no memory for that.
    #[inline(always)]
    fn counted(alloc: Global, bytes: Filled) -> Result<Self, NoMemory>
        ensures { IfOk result (λ b. b ≡ bytes) }
    {
        match Arc::new(alloc, bytes) {
            Ok(bytes) => Ok(SharedBytes { bytes }),
            Err(_) => Err(NoMemory),
        }
    }

    /// A copy of these bytes. NoMemory: there was no memory for it.
    pub fn copy_of(alloc: Global, bytes: &[u8]) -> Result<Self, NoMemory>
        ensures { IfOk result (λ b. b ≡ bytes.now) }
    {
        let own = SmallVec::from_slice(alloc, bytes)?;
        SharedBytes::counted(alloc, Filled::found(own))
    }

    pub fn as_slice(&self) -> &[u8]
        ensures { result.now ≡ self.now }
    {
        self.bytes.as_slice()
    }

    /// The bytes, with a place from which on they are zeros.
    #[inline(always)]
    pub fn padded(&self) -> Padded<'_>
        ensures { result ≡ self.now }
    {
        self.bytes.padded()
    }
}

impl TryCopy for SharedBytes {
    fn try_copy(&self, _alloc: Global) -> Result<Self, NoMemory> {
        Ok(SharedBytes {
            bytes: Arc::try_clone(&self.bytes)?,
        })
    }
}

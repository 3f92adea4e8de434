ghost use Rattle.std.specs.Prelude.{◌≡◌, IfOk};

use crate::{OwnBytes, SharedBytes};
use mn_base::{NoMemory, TryCopy};
use mn_padded::Padded;
use std::alloc::Global;
use std::marker::Model;

/// Where the bytes are.
#[derive(Debug)]
enum Held {
    Own { bytes: OwnBytes },
    Shared { bytes: SharedBytes },
}

/// Bytes that a read item has read: its own, or such as copies share. Contracts see them as a list.
#[derive(Debug)]
pub struct ReadBytes {
    held: Held,
}

impl Model for ReadBytes {
    ghost use Rattle.std.specs.Prelude.{ℕ, List};

    ghost Value = { List ℕ };

    ghost use Rattle.mn_mini.specs.ReadBytes.{bytes_of};

    ghost view = { λ r. bytes_of r.held };
}

/// It is let go by a call, which is proved once, and not in place wherever one goes.
impl Drop for ReadBytes {
    fn drop(self) {
        let ReadBytes { held } = self;
        match held {
            Held::Own { bytes } => drop(bytes),
            Held::Shared { bytes } => drop(bytes),
        }
    }
}

impl ReadBytes {
    /// Bytes that are copied with it. It takes no memory.
    pub fn own(bytes: OwnBytes) -> Self
        ensures { result ≡ bytes }
    {
        ReadBytes {
            held: Held::Own { bytes },
        }
    }

    /// Bytes that copies share. It takes no memory.
    pub fn shared(bytes: SharedBytes) -> Self
        ensures { result ≡ bytes }
    {
        ReadBytes {
            held: Held::Shared { bytes },
        }
    }

    pub fn as_slice(&self) -> &[u8]
        ensures { result.now ≡ self.now }
    {
        match &self.held {
            Held::Own { bytes } => bytes.as_slice(),
            Held::Shared { bytes } => bytes.as_slice(),
        }
    }

    /// The bytes, with what is known of zeros at their end: nothing of its own bytes.
    #[inline(always)]
    pub fn padded(&self) -> Padded<'_>
        ensures { result ≡ self.now }
    {
        match &self.held {
            Held::Own { bytes } => Padded::plain(bytes.as_slice()),
            Held::Shared { bytes } => bytes.padded(),
        }
    }

    /// The bytes, for copies to share; those of its own are copied. NoMemory: there was no memory
    /// for it.
    pub fn to_shared(&self, alloc: Global) -> Result<SharedBytes, NoMemory>
        ensures { IfOk result (λ bytes. bytes ≡ self.now) }
    {
        match &self.held {
            Held::Own { bytes } => SharedBytes::copy_of(alloc, bytes.as_slice()),
            Held::Shared { bytes } => bytes.try_copy(alloc),
        }
    }
}

impl TryCopy for ReadBytes {
    fn try_copy(&self, alloc: Global) -> Result<Self, NoMemory> {
        match &self.held {
            Held::Own { bytes } => Ok(ReadBytes::own(bytes.try_copy(alloc)?)),
            Held::Shared { bytes } => Ok(ReadBytes::shared(bytes.try_copy(alloc)?)),
        }
    }
}

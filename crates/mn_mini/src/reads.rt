ghost use Rattle.std.specs.Prelude.{◌≡◌, ◌++◌, ◌∷◌, [], IfOk};

use crate::ReadBytes;
use mn_base::{NoMemory, TryCopy, copies_of};
use std::alloc::Global;
use std::marker::Model;
use std::slice;

/// What the read items read, in order. Contracts see them as a list. What a lone one read lies in
/// place.
#[derive(Debug)]
pub struct Reads {
    kept: Kept,
}

/// Those of several lie in memory of their own, so that a reply is no larger for them.
#[derive(Debug, Drop)]
enum Kept {
    Nothing,
    One(ReadBytes),
    Several(Box<Vec<ReadBytes>>),
}

/// They are let go by a call, which is proved once, and not in place wherever they go.
impl Drop for Reads {
    fn drop(self) {
        let Reads { kept } = self;
        drop(kept);
    }
}

impl Model for Reads {
    ghost use Rattle.std.specs.Prelude.{ℕ, List};
    ghost use Rattle.mn_mini.specs.Reads.{reads_in};

    ghost Value = { List (List ℕ) };

    ghost view = { λ r. reads_in r.kept };
}

impl Reads {
    /// Nothing was read.
    pub fn none() -> Self
        ensures { result ≡ [] }
    {
        Reads {
            kept: Kept::Nothing,
        }
    }

    /// One item read these. It takes no memory.
    pub fn one(bytes: ReadBytes) -> Self
        ensures { result ≡ bytes ∷ [] }
    {
        Reads {
            kept: Kept::One(bytes),
        }
    }

    /// NoMemory: there was no memory of their own for them.
    pub fn from_vec(alloc: Global, reads: Vec<ReadBytes>) -> Result<Self, NoMemory>
        ensures { IfOk result (λ r. r ≡ reads.items) }
    {
        Ok(Reads::from_box(Box::new(alloc, reads)?))
    }

    /// It takes no memory.
    pub fn from_box(reads: Box<Vec<ReadBytes>>) -> Self
        ensures { result ≡ reads.value.items }
    {
        Reads {
            kept: Kept::Several(reads),
        }
    }

    /// These, and what one item more read. NoMemory: there was no memory for it, which one alone
    /// doesn't take.
    pub fn with(self, alloc: Global, bytes: ReadBytes) -> Result<Self, NoMemory>
        ensures { IfOk result (λ r. r ≡ self ++ bytes ∷ []) }
    {
        let Reads { kept } = self;
        match kept {
            Kept::Nothing => Ok(Reads::one(bytes)),
            Kept::One(first) => Reads::from_vec(alloc, Vec::from_array(alloc, [first, bytes])?),
            Kept::Several(mut reads) => {
                reads.push(bytes)?;
                Ok(Reads::from_box(reads))
            }
        }
    }

    pub fn as_slice(&self) -> &[ReadBytes]
        ensures { result.now ≡ self.now }
    {
        match &self.kept {
            Kept::Nothing => &[],
            Kept::One(bytes) => slice::from_ref(bytes),
            Kept::Several(reads) => reads,
        }
    }
}

impl TryCopy for Reads {
    fn try_copy(&self, alloc: Global) -> Result<Self, NoMemory> {
        match &self.kept {
            Kept::Nothing => Ok(Reads::none()),
            Kept::One(bytes) => Ok(Reads::one(bytes.try_copy(alloc)?)),
            Kept::Several(reads) => Reads::from_vec(alloc, copies_of(alloc, reads)?),
        }
    }
}

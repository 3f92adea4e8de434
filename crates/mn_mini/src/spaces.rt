ghost use Rattle.std.specs.Prelude.{◌≡◌};

use mn_base::{Bytes, NoMemory, TryCopy, copies_of};
use std::alloc::Global;
use std::marker::Model;

/// How many bytes the space of a memory node has.
pub const SPACE: u32 = 4_214_784;

/// The most bytes of an item.
pub const MAX_ITEM: u32 = 4_096;

/// A space for each node, by node. Contracts see them as a list of lists of bytes.
#[derive(Debug, Drop)]
pub struct Spaces {
    spaces: Vec<Bytes>,
}

impl Model for Spaces {
    ghost use Rattle.std.specs.Prelude.{ℕ, List};

    ghost Value = { List (List ℕ) };

    ghost view = { λ s. s.spaces.items };
}

impl Spaces {
    /// It takes no memory.
    pub fn from_vec(spaces: Vec<Bytes>) -> Self
        ensures { result ≡ spaces.items }
    {
        Spaces { spaces }
    }

    pub fn into_vec(self) -> Vec<Bytes>
        ensures { result.items ≡ self }
    {
        self.spaces
    }

    pub fn as_slice(&self) -> &[Bytes]
        ensures { result.now ≡ self.now }
    {
        &self.spaces
    }
}

impl TryCopy for Spaces {
    fn try_copy(&self, alloc: Global) -> Result<Self, NoMemory> {
        Ok(Spaces {
            spaces: copies_of(alloc, &self.spaces)?,
        })
    }
}

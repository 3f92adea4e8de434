ghost use Rattle.std.specs.Prelude.{◌≡◌, ℕ, List, IfOk};

use crate::NoMemory;
use std::alloc::Global;
use std::marker::Model;

/// Numbers of calls, counted from 0. Contracts see them as a list.
#[derive(Debug, Drop)]
pub struct Calls {
    calls: Vec<u64>,
}

impl Model for Calls {
    ghost Value = { List ℕ };

    ghost view = { λ c. c.calls.items };
}

impl Calls {
    /// Takes the vector over, and no memory.
    pub fn from_vec(calls: Vec<u64>) -> Self
        ensures { result ≡ calls.items }
    {
        Calls { calls }
    }

    /// The vector that they stand in.
    pub fn into_vec(self) -> Vec<u64>
        ensures { result.items ≡ self }
    {
        self.calls
    }

    /// All of them.
    pub fn as_slice(&self) -> &[u64]
        ensures { result.now ≡ self.now }
    {
        &self.calls
    }

    /// The same numbers again. `NoMemory` where they find no room.
    pub fn try_copy(&self, alloc: Global) -> Result<Self, NoMemory>
        ensures { IfOk result (λ copy. copy ≡ self.now) }
    {
        Ok(Calls {
            calls: self.calls.to_vec(alloc)?,
        })
    }
}

ghost use Rattle.std.specs.Prelude.{◌≡◌};

use mn_base::{NoMemory, Nodes, Tid, TryCopy, copies_of};
use std::alloc::Global;
use std::marker::Model;

/// An id that a node holds, with the participants of its minitransaction.
#[derive(Debug, Drop)]
pub struct Doubt {
    pub tid: Tid,
    pub participants: Nodes,
}

impl TryCopy for Doubt {
    fn try_copy(&self, alloc: Global) -> Result<Self, NoMemory> {
        Ok(Doubt {
            tid: self.tid,
            participants: self.participants.try_copy(alloc)?,
        })
    }
}

/// The ids that a node holds, in order of id. Contracts see them as a list.
#[derive(Debug, Drop)]
pub struct Doubts {
    doubts: Vec<Doubt>,
}

impl Model for Doubts {
    ghost use Rattle.std.specs.Prelude.{List};
    ghost use Rattle.mn_mini.specs.declared.doubt.Doubt.{Doubt};

    ghost Value = { List Doubt };

    ghost view = { λ d. d.doubts.items };
}

impl Doubts {
    /// It takes no memory.
    pub fn from_vec(doubts: Vec<Doubt>) -> Self
        ensures { result ≡ doubts.items }
    {
        Doubts { doubts }
    }

    pub fn into_vec(self) -> Vec<Doubt>
        ensures { result.items ≡ self }
    {
        self.doubts
    }

    pub fn as_slice(&self) -> &[Doubt]
        ensures { result.now ≡ self.now }
    {
        &self.doubts
    }
}

impl TryCopy for Doubts {
    fn try_copy(&self, alloc: Global) -> Result<Self, NoMemory> {
        Ok(Doubts {
            doubts: copies_of(alloc, &self.doubts)?,
        })
    }
}

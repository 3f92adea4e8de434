ghost use Rattle.std.specs.Prelude.{◌≡◌, ◌<◌, [], ◌∷◌, ◌++◌, length, IsOk, OnOk, OnErr};

use crate::short_list::ShortList;
use crate::{Addr, NoMemory, NodeNo, TryCopy};
use std::alloc::Global;
use std::marker::Model;

/// The most numbers in a list of nodes: there are no more nodes.
const MOST: usize = 8;

/// Numbers of nodes, at most 8, which lie in the value itself. Contracts see them as a list.
#[derive(Debug, Drop)]
pub struct Nodes {
    nodes: ShortList<NodeNo, MOST>,
}

impl Model for Nodes {
    ghost use Rattle.std.specs.Prelude.{List};
    ghost use Rattle.mn_base.specs.declared.ids.NodeNo.{NodeNo};

    ghost Value = { List NodeNo };

    ghost view = { λ n. n.nodes };
}

impl Nodes {
    /// None. It takes no memory.
    pub fn new() -> Self
        ensures { result ≡ [] }
    {
        Nodes {
            nodes: ShortList::new(),
        }
    }

    /// Adds a node behind the others. NoMemory: there are 8 already. It takes no memory.
    #[inline(always)]
    pub fn push(&mut self, node: NodeNo) -> Result<(), NoMemory>
        ensures ok { OnOk result (self.new ≡ self.old ++ node ∷ []) }
        ensures room { length self.old < 8 → IsOk result }
        ensures err { OnErr result (self.new ≡ self.old) }
    {
        self.nodes.push(node)
    }

    pub fn as_slice(&self) -> &[NodeNo]
        ensures { result.now ≡ self.now }
    {
        self.nodes.as_slice()
    }
}

impl TryCopy for Nodes {
    #[inline(always)]
    fn try_copy(&self, _alloc: Global) -> Result<Self, NoMemory> {
        Ok(Nodes {
            nodes: self.nodes.copy(),
        })
    }
}

/// Places of pages. Contracts see them as a list.
#[derive(Debug, Drop)]
pub struct Slots {
    slots: Vec<Addr>,
}

impl Model for Slots {
    ghost use Rattle.std.specs.Prelude.{List};
    ghost use Rattle.mn_base.specs.declared.ids.Addr.{Addr};

    ghost Value = { List Addr };

    ghost view = { λ s. s.slots.items };
}

impl Slots {
    /// It takes no memory.
    pub fn from_vec(slots: Vec<Addr>) -> Self
        ensures { result ≡ slots.items }
    {
        Slots { slots }
    }

    pub fn into_vec(self) -> Vec<Addr>
        ensures { result.items ≡ self }
    {
        self.slots
    }

    pub fn as_slice(&self) -> &[Addr]
        ensures { result.now ≡ self.now }
    {
        &self.slots
    }
}

/// How many slots each node has given out, by node. Contracts see them as a list.
#[derive(Debug, Drop)]
pub struct Counts {
    counts: Vec<u16>,
}

impl Model for Counts {
    ghost use Rattle.std.specs.Prelude.{ℕ, List};

    ghost Value = { List ℕ };

    ghost view = { λ c. c.counts.items };
}

impl Counts {
    /// It takes no memory.
    pub fn from_vec(counts: Vec<u16>) -> Self
        ensures { result ≡ counts.items }
    {
        Counts { counts }
    }

    pub fn into_vec(self) -> Vec<u16>
        ensures { result.items ≡ self }
    {
        self.counts
    }

    pub fn as_slice(&self) -> &[u16]
        ensures { result.now ≡ self.now }
    {
        &self.counts
    }
}

impl TryCopy for Counts {
    fn try_copy(&self, alloc: Global) -> Result<Self, NoMemory> {
        Ok(Counts {
            counts: self.counts.to_vec(alloc)?,
        })
    }
}

ghost use Rattle.std.specs.Prelude.{◌≡◌, IfOk};
ghost use Rattle.mn_page.specs.Overlay.{next_number};

use crate::Low;
use mn_base::{Addr, Key, NoMemory, Pairs, TryCopy, VersionNo, copies_of};
use std::alloc::Global;
use std::marker::Model;
use std::sync::Arc;

/// The sequence number of the next write of a page or an entry. The last number stays, which tells
/// a plan that the place is worn.
pub fn number_after(seq: u64) -> u64
    ensures { result ≡ next_number seq }
{
    if seq == u64::MAX { seq } else { seq + 1 }
}

/// A page of a version tree.
#[derive(Debug, Drop)]
pub struct Page {
    /// How often the slot was written: 1 for a new page.
    pub seq: u64,
    /// The version that it was made for.
    pub made: VersionNo,
    /// The versions that it was copied for: bit w for version w.
    pub copied: u64,
    /// The least bound of its keys; no byte for the least of all.
    pub low: Low,
    /// The bound above its keys, or none.
    pub high: Option<Key>,
    pub body: Body,
}

/// What a page holds.
#[derive(Debug, Drop)]
pub enum Body {
    /// Up to 8 pairs in order of key.
    Leaf {
        pairs: Pairs,
    },
    /// Its first child and up to 7 more; height 1 is above the leaves.
    Inner {
        height: u16,
        first: Addr,
        rest: Branches,
    },
}

/// A child after the first, and the key from which on it serves.
#[derive(Debug, Drop)]
pub struct Child {
    pub separator: Key,
    pub addr: Addr,
}

/// The children of a page after the first, in order. Copies share one memory. Contracts see them
/// as a list.
#[derive(Debug, Drop)]
pub struct Branches {
    children: Arc<Vec<Child>>,
}

impl Model for Branches {
    ghost use Rattle.std.specs.Prelude.{List};
    ghost use Rattle.mn_page.specs.declared.page.Child.{Child};

    ghost Value = { List Child };

    ghost view = { λ b. b.children.value.items };
}

impl Branches {
    /// These children. NoMemory: there was no memory to count their owners.
    pub fn from_vec(alloc: Global, children: Vec<Child>) -> Result<Self, NoMemory>
        ensures { IfOk result (λ b. b ≡ children.items) }
    {
        Ok(Branches {
            children: Arc::new(alloc, children)?,
        })
    }

    /// The children, copied where others have them too. NoMemory: there was no memory for that.
    pub fn into_vec(self, alloc: Global) -> Result<Vec<Child>, NoMemory>
        ensures { IfOk result (λ children. children.items ≡ self) }
    {
        match Arc::try_unwrap(self.children) {
            Ok(children) => Ok(children),
            Err(children) => copies_of(alloc, children.as_slice()),
        }
    }

    pub fn as_slice(&self) -> &[Child]
        ensures { result.now ≡ self.now }
    {
        self.children.as_slice()
    }
}

impl TryCopy for Page {
    fn try_copy(&self, alloc: Global) -> Result<Self, NoMemory> {
        Ok(Page {
            seq: self.seq,
            made: self.made,
            copied: self.copied,
            low: self.low.try_copy(alloc)?,
            high: self.high.try_copy(alloc)?,
            body: self.body.try_copy(alloc)?,
        })
    }
}

impl TryCopy for Body {
    fn try_copy(&self, alloc: Global) -> Result<Self, NoMemory> {
        match self {
            Body::Leaf { pairs } => Ok(Body::Leaf {
                pairs: pairs.try_copy(alloc)?,
            }),
            Body::Inner {
                height,
                first,
                rest,
            } => Ok(Body::Inner {
                height: *height,
                first: *first,
                rest: rest.try_copy(alloc)?,
            }),
        }
    }
}

impl TryCopy for Child {
    fn try_copy(&self, alloc: Global) -> Result<Self, NoMemory> {
        Ok(Child {
            separator: self.separator.try_copy(alloc)?,
            addr: self.addr,
        })
    }
}

impl TryCopy for Branches {
    fn try_copy(&self, _alloc: Global) -> Result<Self, NoMemory> {
        Ok(Branches {
            children: Arc::try_clone(&self.children)?,
        })
    }
}

ghost use Rattle.std.specs.Prelude.{◌≡◌, ◌∷◌, [], IfOk};

use crate::SharedBytes;
use mn_base::{NoMemory, TryCopy};
use smallvec::SmallVec;
use std::alloc::Global;
use std::default::MadeWith;
use std::marker::Model;
use std::slice;
use std::sync::Arc;

/// How many items lie in a part itself: a put has three.
pub(crate) const PART_IN_PLACE: usize = 3;

/// An item without its node.
#[derive(Debug)]
pub enum PartItem {
    Compare { start: u32, bytes: SharedBytes },
    Read { start: u32, length: u32 },
    Write { start: u32, bytes: SharedBytes },
}

/// It is let go by a call, which is proved once, and not in place wherever one goes.
impl Drop for PartItem {
    #[inline(never)]
    fn drop(self) {
        match self {
            PartItem::Compare {
                start: _start,
                bytes,
            } => drop(bytes),
            PartItem::Read {
                start: _start,
                length: _length,
            } => {}
            PartItem::Write {
                start: _start,
                bytes,
            } => drop(bytes),
        }
    }
}

/// What a place of a list has before an item stands there.
impl MadeWith<Global> for PartItem {
    fn made_with(_alloc: Global) -> Self {
        PartItem::Read {
            start: 0,
            length: 0,
        }
    }
}

impl TryCopy for PartItem {
    fn try_copy(&self, alloc: Global) -> Result<Self, NoMemory> {
        match self {
            PartItem::Compare { start, bytes } => Ok(PartItem::Compare {
                start: *start,
                bytes: bytes.try_copy(alloc)?,
            }),
            PartItem::Read { start, length } => Ok(PartItem::Read {
                start: *start,
                length: *length,
            }),
            PartItem::Write { start, bytes } => Ok(PartItem::Write {
                start: *start,
                bytes: bytes.try_copy(alloc)?,
            }),
        }
    }
}

/// Where the items lie.
#[derive(Debug, Drop)]
enum Held {
    /// A lone one lies in place, which takes no memory of its own.
    Lone(PartItem),
    /// Copies share one memory.
    Shared(Arc<SmallVec<PartItem, PART_IN_PLACE>>),
}

/// A node's items: compares, then reads, then writes, each in the order given. Contracts see them
/// as a list.
#[derive(Debug)]
pub struct Part {
    held: Held,
}

/// It is let go by a call, which is proved once, and not in place wherever it goes.
impl Drop for Part {
    fn drop(self) {
        let Part { held } = self;
        drop(held);
    }
}

impl Model for Part {
    ghost use Rattle.std.specs.Prelude.{List};
    ghost use Rattle.mn_mini.specs.declared.part.PartItem.{PartItem};
    ghost use Rattle.mn_mini.specs.Lone.{part_items_in};

    ghost Value = { List PartItem };

    ghost view = { λ p. part_items_in p.held };
}

impl Part {
    ghost use Rattle.mn_mini.specs.Mini.{has_write};

    /// These items. NoMemory: there was no memory to count their owners.
    pub fn from_vec(alloc: Global, items: Vec<PartItem>) -> Result<Self, NoMemory>
        ensures { IfOk result (λ part. part ≡ items.items) }
    {
        Part::new(alloc, SmallVec::from_vec(items))
    }

    /// These items. NoMemory: there was no memory for them.
    pub(crate) fn new(
        alloc: Global,
        items: SmallVec<PartItem, PART_IN_PLACE>,
    ) -> Result<Self, NoMemory>
        ensures { IfOk result (λ part. part ≡ items.items) }
    {
        match Arc::new(alloc, items) {
            Ok(items) => Ok(Part {
                held: Held::Shared(items),
            }),
            Err(_) => Err(NoMemory),
        }
    }

    /// One item. It takes no memory.
    pub(crate) fn one(item: PartItem) -> Self
        ensures { result ≡ item ∷ [] }
    {
        Part {
            held: Held::Lone(item),
        }
    }

    pub fn as_slice(&self) -> &[PartItem]
        ensures { result.now ≡ self.now }
    {
        match &self.held {
            Held::Lone(item) => slice::from_ref(item),
            Held::Shared(items) => items.as_slice(),
        }
    }

    /// Some item writes.
    pub fn writes(&self) -> bool
        ensures { result ≡ has_write self.now }
    {
        let items = self.as_slice();
        for item in items {
            if let PartItem::Write { .. } = item {
                return true;
            }
        }
        false
    }
}

impl TryCopy for Part {
    fn try_copy(&self, alloc: Global) -> Result<Self, NoMemory> {
        match &self.held {
            Held::Lone(item) => Ok(Part::one(item.try_copy(alloc)?)),
            Held::Shared(items) => Ok(Part {
                held: Held::Shared(Arc::try_clone(items)?),
            }),
        }
    }
}

ghost use Rattle.std.specs.Prelude.{◌≡◌, ◌∷◌, [], IfOk};

use crate::SharedBytes;
use mn_base::{NoMemory, NodeNo, TryCopy};
use smallvec::SmallVec;
use std::alloc::Global;
use std::default::MadeWith;
use std::marker::Model;
use std::slice;
use std::sync::Arc;

/// How many items lie in a list itself: the plan of a put has three.
pub const ITEMS_IN_PLACE: usize = 3;

/// An item of a minitransaction, at a range of one node's space: 1 to 4,096 bytes from `start` on.
#[derive(Debug)]
pub enum Item {
    /// Nothing is done unless the range holds these bytes.
    Compare {
        node: NodeNo,
        start: u32,
        bytes: SharedBytes,
    },
    /// Reads the range.
    Read {
        node: NodeNo,
        start: u32,
        length: u32,
    },
    /// Writes the range.
    Write {
        node: NodeNo,
        start: u32,
        bytes: SharedBytes,
    },
}

/// It is let go by a call, which is proved once, and not in place wherever one goes.
impl Drop for Item {
    fn drop(self) {
        match self {
            Item::Compare {
                node: _node,
                start: _start,
                bytes,
            } => drop(bytes),
            Item::Read {
                node: _node,
                start: _start,
                length: _length,
            } => {}
            Item::Write {
                node: _node,
                start: _start,
                bytes,
            } => drop(bytes),
        }
    }
}

/// What a place of a list has before an item stands there.
impl MadeWith<Global> for Item {
    fn made_with(_alloc: Global) -> Self {
        Item::Read {
            node: NodeNo(0),
            start: 0,
            length: 0,
        }
    }
}

impl Item {
    ghost use Rattle.mn_mini.specs.Mini.{item_node};

    /// The node whose space it is at.
    pub fn node(&self) -> NodeNo
        ensures { result ≡ item_node self.now }
    {
        match self {
            Item::Compare { node, .. } => *node,
            Item::Read { node, .. } => *node,
            Item::Write { node, .. } => *node,
        }
    }
}

impl TryCopy for Item {
    fn try_copy(&self, alloc: Global) -> Result<Self, NoMemory> {
        match self {
            Item::Compare { node, start, bytes } => Ok(Item::Compare {
                node: *node,
                start: *start,
                bytes: bytes.try_copy(alloc)?,
            }),
            Item::Read {
                node,
                start,
                length,
            } => Ok(Item::Read {
                node: *node,
                start: *start,
                length: *length,
            }),
            Item::Write { node, start, bytes } => Ok(Item::Write {
                node: *node,
                start: *start,
                bytes: bytes.try_copy(alloc)?,
            }),
        }
    }
}

/// Where the items lie.
#[derive(Debug, Drop)]
enum Held {
    /// A lone one lies in place, which takes no memory of its own.
    Lone(Item),
    /// Copies share one memory.
    Shared(Arc<SmallVec<Item, ITEMS_IN_PLACE>>),
}

/// Items in the order given. Contracts see them as a list.
#[derive(Debug)]
pub struct Items {
    held: Held,
}

/// They are let go by a call, which is proved once, and not in place wherever they go.
impl Drop for Items {
    fn drop(self) {
        let Items { held } = self;
        drop(held);
    }
}

impl Model for Items {
    ghost use Rattle.std.specs.Prelude.{List};
    ghost use Rattle.mn_mini.specs.declared.item.Item.{Item};
    ghost use Rattle.mn_mini.specs.Lone.{items_in};

    ghost Value = { List Item };

    ghost view = { λ s. items_in s.held };
}

impl Items {
    /// These items. NoMemory: there was no memory to count their owners.
    pub fn from_vec(alloc: Global, items: Vec<Item>) -> Result<Self, NoMemory>
        ensures { IfOk result (λ list. list ≡ items.items) }
    {
        Items::new(alloc, SmallVec::from_vec(items))
    }

    /// One item. It takes no memory.
    pub fn one(item: Item) -> Self
        ensures { result ≡ item ∷ [] }
    {
        Items {
            held: Held::Lone(item),
        }
    }

    /// These items. NoMemory: there was no memory for them.
    pub fn new(alloc: Global, items: SmallVec<Item, ITEMS_IN_PLACE>) -> Result<Self, NoMemory>
        ensures { IfOk result (λ list. list ≡ items.items) }
    {
        match Arc::new(alloc, items) {
            Ok(items) => Ok(Items {
                held: Held::Shared(items),
            }),
            Err(_) => Err(NoMemory),
        }
    }

    pub fn as_slice(&self) -> &[Item]
        ensures { result.now ≡ self.now }
    {
        match &self.held {
            Held::Lone(item) => slice::from_ref(item),
            Held::Shared(items) => items.as_slice(),
        }
    }
}

impl TryCopy for Items {
    fn try_copy(&self, alloc: Global) -> Result<Self, NoMemory> {
        match &self.held {
            Held::Lone(item) => Ok(Items::one(item.try_copy(alloc)?)),
            Held::Shared(items) => Ok(Items {
                held: Held::Shared(Arc::try_clone(items)?),
            }),
        }
    }
}

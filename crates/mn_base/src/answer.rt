use crate::{Addr, Bytes, NoMemory, NodeNo, Reply, Tid, TryCopy};
use std::alloc::Global;

/// Why an operation gave up after its tries: the cause of the last one.
#[derive(Debug)]
pub enum Busy {
    /// A range of `length` bytes from `start` on conflicts with what `holder` holds on the node.
    Lock {
        node: NodeNo,
        start: u32,
        length: u32,
        holder: Tid,
    },
    /// The bytes from `start` on aren't those that were read; both have the same length.
    Moved {
        node: NodeNo,
        start: u32,
        expected: Bytes,
        found: Bytes,
    },
    /// A recovery coordinator has forced a no vote on this id.
    Forced {
        tid: Tid,
    },
    /// The page at `addr` isn't one that the path can go on with. `seq` is its sequence number, 0
    /// where no page stands.
    Path {
        addr: Addr,
        seq: u64,
    },
}

/// It is let go by a call, which is proved once, and not in place wherever one goes.
impl Drop for Busy {
    fn drop(self) {
        match self {
            Busy::Lock {
                node: _node,
                start: _start,
                length: _length,
                holder: _holder,
            } => {}
            Busy::Moved {
                node: _node,
                start: _start,
                expected,
                found,
            } => {
                drop(expected);
                drop(found);
            }
            Busy::Forced { tid: _tid } => {}
            Busy::Path {
                addr: _addr,
                seq: _seq,
            } => {}
        }
    }
}

impl TryCopy for Busy {
    fn try_copy(&self, alloc: Global) -> Result<Self, NoMemory> {
        match self {
            Busy::Lock {
                node,
                start,
                length,
                holder,
            } => Ok(Busy::Lock {
                node: *node,
                start: *start,
                length: *length,
                holder: *holder,
            }),
            Busy::Moved {
                node,
                start,
                expected,
                found,
            } => Ok(Busy::Moved {
                node: *node,
                start: *start,
                expected: expected.try_copy(alloc)?,
                found: found.try_copy(alloc)?,
            }),
            Busy::Forced { tid } => Ok(Busy::Forced { tid: *tid }),
            Busy::Path { addr, seq } => Ok(Busy::Path {
                addr: *addr,
                seq: *seq,
            }),
        }
    }
}

/// What an operation is answered. Busy, Down, Full, Worn and NoMemory mean that it has no effect,
/// now or later.
#[derive(Debug)]
pub enum Answer {
    Replied { reply: Reply },
    Busy { cause: Busy },
    /// The node was down, or it stopped before the operation could be in doubt.
    Down { node: NodeNo },
    /// The node stopped inside the last vote on this id: the operation takes effect wholly or not
    /// at all.
    InDoubt { tid: Tid, node: NodeNo },
    /// The operation needs more new slots than are free on all nodes together.
    Full { need: u32, free: u32 },
    /// The page or entry from `start` on has the greatest sequence number and can't be written
    /// again.
    Worn { node: NodeNo, start: u32 },
    NoMemory,
}

/// It is let go by a call, which is proved once, and not in place wherever one goes.
impl Drop for Answer {
    fn drop(self) {
        match self {
            Answer::Replied { reply } => drop(reply),
            Answer::Busy { cause } => drop(cause),
            Answer::Down { node: _node } => {}
            Answer::InDoubt {
                tid: _tid,
                node: _node,
            } => {}
            Answer::Full {
                need: _need,
                free: _free,
            } => {}
            Answer::Worn {
                node: _node,
                start: _start,
            } => {}
            Answer::NoMemory => {}
        }
    }
}

impl TryCopy for Answer {
    fn try_copy(&self, alloc: Global) -> Result<Self, NoMemory> {
        match self {
            Answer::Replied { reply } => Ok(Answer::Replied {
                reply: reply.try_copy(alloc)?,
            }),
            Answer::Busy { cause } => Ok(Answer::Busy {
                cause: cause.try_copy(alloc)?,
            }),
            Answer::Down { node } => Ok(Answer::Down { node: *node }),
            Answer::InDoubt { tid, node } => Ok(Answer::InDoubt {
                tid: *tid,
                node: *node,
            }),
            Answer::Full { need, free } => Ok(Answer::Full {
                need: *need,
                free: *free,
            }),
            Answer::Worn { node, start } => Ok(Answer::Worn {
                node: *node,
                start: *start,
            }),
            Answer::NoMemory => Ok(Answer::NoMemory),
        }
    }
}

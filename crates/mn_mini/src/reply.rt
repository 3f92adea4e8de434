use crate::{Doubts, Reads, SharedBytes};
use mn_base::{Bytes, NoMemory, Tid, TryCopy};
use std::alloc::Global;

/// What a memory node answers.
#[derive(Debug, Drop)]
pub enum NodeReply {
    /// To a Prepare, the yes vote; to an Exec, that it was run. What its read items read.
    Done {
        reads: Reads,
    },
    /// The first range of the part that conflicts with one held for another id, and the least such
    /// id.
    BadLock {
        start: u32,
        length: u32,
        holder: Tid,
    },
    /// Compare item `item` of the part, from 0, is the first that differs; the bytes that stand
    /// there.
    BadCompare {
        item: u16,
        found: Bytes,
    },
    /// The id was forced here before.
    BadForced,
    /// To a Force: the vote of this node.
    Vote {
        yes: bool,
    },
    /// To a Decide: the id isn't held here, or no longer.
    Decided,
    /// To a List: the ids that are held, in order, with their participants.
    Listed {
        doubts: Doubts,
    },
    /// To a Peek: the bytes of the range.
    Peeked {
        bytes: SharedBytes,
    },
    /// The node is down.
    Down,
    /// The node stopped inside the request: its record is there after the restart, or not.
    Stopped,
    /// There was no memory; the request has done nothing.
    NoMemory,
}

impl TryCopy for NodeReply {
    fn try_copy(&self, alloc: Global) -> Result<Self, NoMemory> {
        match self {
            NodeReply::Done { reads } => Ok(NodeReply::Done {
                reads: reads.try_copy(alloc)?,
            }),
            NodeReply::BadLock {
                start,
                length,
                holder,
            } => Ok(NodeReply::BadLock {
                start: *start,
                length: *length,
                holder: *holder,
            }),
            NodeReply::BadCompare { item, found } => Ok(NodeReply::BadCompare {
                item: *item,
                found: found.try_copy(alloc)?,
            }),
            NodeReply::BadForced => Ok(NodeReply::BadForced),
            NodeReply::Vote { yes } => Ok(NodeReply::Vote { yes: *yes }),
            NodeReply::Decided => Ok(NodeReply::Decided),
            NodeReply::Listed { doubts } => Ok(NodeReply::Listed {
                doubts: doubts.try_copy(alloc)?,
            }),
            NodeReply::Peeked { bytes } => Ok(NodeReply::Peeked {
                bytes: bytes.try_copy(alloc)?,
            }),
            NodeReply::Down => Ok(NodeReply::Down),
            NodeReply::Stopped => Ok(NodeReply::Stopped),
            NodeReply::NoMemory => Ok(NodeReply::NoMemory),
        }
    }
}

use crate::Part;
use mn_base::{NoMemory, Nodes, Tid, TryCopy};
use std::alloc::Global;

/// What a memory node is asked.
#[derive(Debug)]
pub enum Request {
    /// To vote for its part of a minitransaction with several participants. Done is the yes vote:
    /// the part is held until it is decided.
    Prepare {
        tid: Tid,
        participants: Nodes,
        part: Part,
    },
    /// To run the whole minitransaction, whose one participant it is.
    Exec {
        tid: Tid,
        part: Part,
    },
    /// To end a part that it holds: with `yes` its writes are made.
    Decide {
        tid: Tid,
        yes: bool,
    },
    /// To tell its vote; if it hasn't voted, it never will.
    Force {
        tid: Tid,
    },
    /// To tell the ids that it holds.
    List,
    /// To read a range, whatever is held.
    Peek {
        start: u32,
        length: u32,
    },
}

/// It is let go by a call, which is proved once, and not in place wherever one goes.
impl Drop for Request {
    fn drop(self) {
        match self {
            Request::Prepare {
                tid: _tid,
                participants,
                part,
            } => {
                drop(participants);
                drop(part);
            }
            Request::Exec { tid: _tid, part } => drop(part),
            Request::Decide {
                tid: _tid,
                yes: _yes,
            } => {}
            Request::Force { tid: _tid } => {}
            Request::List => {}
            Request::Peek {
                start: _start,
                length: _length,
            } => {}
        }
    }
}

impl TryCopy for Request {
    fn try_copy(&self, alloc: Global) -> Result<Self, NoMemory> {
        match self {
            Request::Prepare {
                tid,
                participants,
                part,
            } => Ok(Request::Prepare {
                tid: *tid,
                participants: participants.try_copy(alloc)?,
                part: part.try_copy(alloc)?,
            }),
            Request::Exec { tid, part } => Ok(Request::Exec {
                tid: *tid,
                part: part.try_copy(alloc)?,
            }),
            Request::Decide { tid, yes } => Ok(Request::Decide {
                tid: *tid,
                yes: *yes,
            }),
            Request::Force { tid } => Ok(Request::Force { tid: *tid }),
            Request::List => Ok(Request::List),
            Request::Peek { start, length } => Ok(Request::Peek {
                start: *start,
                length: *length,
            }),
        }
    }
}

use crate::lists::Ops;
use mn_base::{ClientNo, Name, NodeNo, StopAt};

/// When a client runs: with the others, before them, or after the first closing.
#[derive(Clone, Copy, Debug, PartialEq, Eq)]
pub enum Mark {
    Plain,
    First,
    Last,
}

/// A client: its name, when it runs, and its operations, numbered from 1.
#[derive(Debug, Drop)]
pub struct ScriptClient {
    pub name: Name,
    pub mark: Mark,
    pub ops: Ops,
}

/// A crash point. It works at most once.
#[derive(Clone, Copy, Debug, PartialEq, Eq)]
pub enum Point {
    /// The client dies as soon as it has so many yes votes (1 to 8) in a try of this operation.
    Kill {
        client: ClientNo,
        number: u32,
        votes: u8,
    },
    /// The node stops inside the first Prepare or Exec of this operation that reaches it and adds a
    /// record.
    Stop {
        node: NodeNo,
        client: ClientNo,
        number: u32,
        at: StopAt,
    },
}

/// An act of the schedule.
#[derive(Clone, Copy, Debug, PartialEq, Eq)]
pub enum Act {
    /// One node call of the client.
    Step { client: ClientNo },
    /// Node calls of the client until the next one would be a Prepare, an Exec that compares or
    /// writes, or the answer.
    Plan { client: ClientNo },
    /// Node calls of the client until its operation is answered or it has died.
    Go { client: ClientNo },
    /// All operations that the client has left.
    All { client: ClientNo },
    Halt { node: NodeNo },
    Restart { node: NodeNo },
    /// One node call of a recovery coordinator (from 1), which without work takes the client's last
    /// id.
    Rstep { recoverer: u8, client: ClientNo },
    /// The same until it ends or has to wait.
    Recover { recoverer: u8, client: ClientNo },
}

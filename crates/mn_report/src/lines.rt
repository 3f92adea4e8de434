use mn_base::{Answer, Name};

/// What is said of an operation.
#[derive(Debug, Drop)]
pub enum LineAnswer {
    Answered { answer: Answer },
    /// The client died in it.
    Died,
    /// It wasn't begun, because the client had died.
    Never,
}

/// An operation, by its client and its number among this client's operations (from 1), and what is
/// said of it.
#[derive(Debug, Drop)]
pub struct AnswerLine {
    pub client: Name,
    pub number: u32,
    pub answer: LineAnswer,
}

/// An operation of the history, by its client and its number. Its rank is its place in the list.
#[derive(Debug, Drop)]
pub struct Ranked {
    pub client: Name,
    pub number: u32,
}

/// What became of an operation whose client didn't learn it.
#[derive(Debug, Drop)]
pub struct DoubtLine {
    pub client: Name,
    pub number: u32,
    pub committed: bool,
}

/// A version: its name, its parent's name or none, whether it is frozen, how many pairs it has, and
/// the SHA-256 of them.
#[derive(Debug, Drop)]
pub struct VersionLine {
    pub name: Name,
    pub parent: Option<Name>,
    pub frozen: bool,
    pub count: u32,
    pub digest: [u8; 32],
}

use mn_base::{Name, Pairs, VersionNo};

/// A version: its name, its parent's number or none, whether it is frozen, and its pairs in order
/// of key.
#[derive(Debug, Drop)]
pub struct Kept {
    pub name: Name,
    pub parent: Option<VersionNo>,
    pub frozen: bool,
    pub pairs: Pairs,
}

/// A version as the store holds it. `table` is the number of the table with its pairs.
#[derive(Debug, Drop)]
pub struct Held {
    pub name: Name,
    pub parent: Option<VersionNo>,
    pub frozen: bool,
    pub table: usize,
}

/// Where a version stands, and whether it is frozen.
#[derive(Clone, Copy, Debug)]
pub struct Place {
    pub at: usize,
    pub frozen: bool,
}

//! The locks of a memory node: ranges of its space that are held for ids, shared or alone. Nothing
//! waits: a range that conflicts is refused at once.
#![tactic(auto)]

mod hold;
mod table;

pub use hold::{Held, Hold};
pub use table::LockTable;

#[cfg(test)]
mod tests;

//! The memory that the records of all nodes make, or the first record that does not fit the others.
#![tactic(auto)]

mod error;
mod flat;
mod held;
mod known;
mod numbers;
mod votes;
mod write;

pub use error::VoteError;
pub use flat::flat_of;

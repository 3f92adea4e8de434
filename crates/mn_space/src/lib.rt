//! The space of a memory node, of which the zeros at its end aren't kept.
#![tactic(auto)]

mod kept;
mod node_space;

pub use kept::{is_kept, kept_in, write};
pub use node_space::{NodeSpace, NodeSpaces};

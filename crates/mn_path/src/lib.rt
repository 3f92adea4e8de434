//! A walk down a tree of pages: what it asks of a page before it goes on there, and the child to
//! which a key goes.
#![tactic(auto)]

mod values;
mod walk;

pub use values::value_in;
pub use walk::{Front, MAX_HEIGHT, child_for, height, is_one_below};

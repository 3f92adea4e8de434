//! The store that the memory of all nodes holds, or the first rule that fails of it.
#![tactic(auto)]

mod base;
mod error;
mod forest;
mod front;
mod pages;
mod place;
mod shown;

pub use base::base_spaces;
pub use error::{ForestError, Rule};
pub use forest::check;

//! Which slots of which nodes new pages get.
#![tactic(auto)]

mod error;
mod plan;

pub use error::AllocError;
pub use plan::{SLOTS, plan_slots};

#[cfg(test)]
mod tests;

//! Votes and decisions: what they rest on, at every place of every run.
#![tactic(auto)]

mod laws;

pub use laws::{decided_one_way, fresh_is_sound, held_parts_apart};

//! A script that is run on one thread, in the order of its schedule.
#![tactic(auto)]

mod play;
mod replaying;

pub use replaying::replay;

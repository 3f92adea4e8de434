//! A log that many threads write by one shared clock. Each entry takes one place and ends the lists
//! of its actors, and each actor's list belongs to one pass at a time.
#![tactic(auto)]

mod actor;
mod board;
mod clock;
mod law;

pub use actor::Actor;
pub use board::{Board, Pass};
pub use clock::{Size, View};
pub use law::Law;

#[cfg(test)]
mod tests;

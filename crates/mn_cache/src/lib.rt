//! The pages that a proxy keeps, the most recently used first.
#![tactic(auto)]

mod cache;

pub use cache::{CAPACITY, Cache, Spelled};

#[cfg(test)]
mod tests;

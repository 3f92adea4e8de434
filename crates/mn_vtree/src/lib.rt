//! The tree of versions: which version is above which, and which versions a page serves.
#![tactic(auto)]

mod error;
mod tree;

pub use error::TreeError;
pub use tree::VersionTree;

#[cfg(test)]
mod tests;

//! Copies of pages: a page that another version made is copied before a version changes it (Minuet,
//! PVLDB 2012).
#![tactic(auto)]

mod copy;

pub use copy::copy_for;

#[cfg(test)]
mod tests;

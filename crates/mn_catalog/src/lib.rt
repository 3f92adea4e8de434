//! The catalog of a store: which versions there are, by number and by name.
#![tactic(auto)]

mod catalog;
mod error;

pub use catalog::Catalog;
pub use error::CatError;

//! The store of versions as its rules say it, in one list and without nodes: what every other form
//! of it must answer.
#![tactic(auto)]

mod digest;
mod ordered;
mod pairs;
mod steps;
mod store;
mod table;
mod version;
mod versions;

pub use digest::digest_of;
pub use pairs::value_of;
pub use store::{MAX_VERSIONS, Store};
pub use version::Kept;

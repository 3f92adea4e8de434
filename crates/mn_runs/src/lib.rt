//! Runs: the entries that clients, recovery coordinators and memory nodes make, their lists and
//! their log, what each of them allows the next, and what the records of nodes say is committed. No
//! page and no store is named.
#![tactic(auto)]

mod entry;
mod lists;
mod log;
mod spaces;

pub use entry::{Entry, What};
pub use lists::ClientList;
pub use log::{Log, Spot};
pub use spaces::overwrite;

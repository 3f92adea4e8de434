//! The one log of a run, from the lists of its clients, its history, and its audit.
#![tactic(auto)]

mod acts;
mod answers;
mod auditing;
mod callers;
mod history;
mod lists;
mod merging;
mod plans;
mod points;
mod sayings;
mod shown;
mod table;
mod versions;

pub use auditing::audit;
pub use history::history_of;
pub use lists::ClientLists;
pub use merging::merge;
pub use points::{Step, asked_in, may_stop, meet, none_met, voted_id};
pub use shown::{KnownCatalog, Read, shows};
pub use versions::versions_of;

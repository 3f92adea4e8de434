//! A memory node behind a lock, with the pass that owns its list. Each call of it is one entry,
//! which ends the node's list and the caller's; it stands in memory once, in the caller's.
#![tactic(auto)]

mod add;
mod cell;
mod cells;
mod copies;
mod hearing;
mod laws;
mod named;
mod owing;
mod station;
mod trace;

pub use cell::Cell;
pub use cells::Cells;
pub use hearing::hear_all;
pub use laws::parts_make_run;
pub use named::Named;
pub use station::{Refused, Station};
pub use trace::{RunCause, RunFailed, Trace};

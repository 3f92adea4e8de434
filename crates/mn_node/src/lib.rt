//! A memory node: a list of records on a disk, the space and the locks that they make, and its
//! answers (Sinfonia, SOSP 2007).
#![tactic(auto)]

mod bodies;
mod held;
mod images;
mod list;
mod logging;
mod memory;
mod node;
mod part;
mod replay;
mod requests;
mod restart;
mod shortening;
mod space;
mod start;

pub use node::{Node, StartFailed};
pub use restart::RestartError;
pub use start::{StartCause, records_of};

//! A redo log: a list of bodies on a disk, to which bodies are appended. A crash at any moment of
//! an append leaves the list from before it or the one after it. It is shortened by another list,
//! and so is what a crash leaves then.
#![tactic(auto)]

mod appender;
mod area;
mod body;
mod change;
mod front;
mod header;
mod laws;
mod open;
mod redo;
mod shorten;

pub use appender::Appender;
pub use front::Front;
pub use laws::{damaged_or_not, one_list, one_place};
pub use open::OpenCause;
pub use redo::{OpenFailed, Phase, Redo};

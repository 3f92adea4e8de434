//! Scripts: their grammar, their limits, and the place of the first fault.
#![tactic(auto)]

mod acts;
mod clients;
mod draft;
mod elements;
mod error;
mod laws;
mod lists;
mod ops;
mod points;
mod read;
mod roster;
mod script;
mod steps;
mod strings;
mod words;
mod write;

pub use elements::{Act, Mark, Point, ScriptClient};
pub use error::ScriptError;
pub use laws::{read_is_right, refusal_is_first, written_is_read};
pub use lists::{Acts, Clients, Ops, Points};
pub use read::{read_script, split_line};
pub use script::Script;
pub use write::write_script;

//! What a run of a script is made of: its callers and their table, in turns, however the turns are
//! dealt out.
#![tactic(auto)]

mod begun;
mod callers;
mod client;
mod desk;
mod ending;
mod gated;
mod hearing;
mod points;
mod settle;
mod stage;
mod staging;
mod sweep;
mod table;
mod transport;

pub use begun::Begun;
pub use callers::{CALLERS, Callers, FIRST_RECOVERER};
pub use client::Client;
pub use desk::Desk;
pub use ending::{no_memory, without_log};
pub use gated::Gated;
pub use settle::{CLOSER, Closer};
pub use stage::{Move, Stage};
pub use table::Table;
pub use transport::{Transport, put_alone};

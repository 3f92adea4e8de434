//! A script that is run on threads: its clients and recovery coordinators call nodes that stand
//! behind locks.
#![tactic(auto)]

mod alarm;
mod forking;
mod hiring;
mod marks;
mod running;
mod wires;
mod worker;

pub use running::run_threads;

//! A disk in memory, which fails at chosen calls and shows what a crash may leave.
#![tactic(auto)]

mod calls;
mod changes;
mod crash;
mod held;
mod meet_disk;
mod memory_disk;
mod outcome;
mod overwrite;
mod stops_after;

pub use meet_disk::{MeetDisk, Meeting};
pub use memory_disk::MemoryDisk;
pub use stops_after::{LastCall, StopsAfter};

#[cfg(test)]
mod tests;

//! What a store reads from, writes to and keeps its bytes on: sources, sinks and disks, the counts
//! of their faults, and a source and a sink in memory.
#![tactic(auto)]

mod bytes;
mod calls;
mod disk;
mod error;
mod memory_sink;
mod memory_source;
mod room;
mod sink;
mod source;

pub use bytes::Bytes;
pub use calls::Calls;
pub use disk::Disk;
pub use error::{Failed, Fault, NoMemory, ReadError};
pub use memory_sink::MemorySink;
pub use memory_source::MemorySource;
pub use room::make_room;
pub use sink::{Sink, write_all};
pub use source::{Source, read_all};

#[cfg(test)]
mod tests;

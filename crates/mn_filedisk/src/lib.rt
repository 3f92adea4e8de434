//! Disks over files, a source over a reader and a sink over a writer: what a program of the system
//! hands to a store.
#![tactic(auto)]

mod backing;
mod file_disk;
mod node_file;
mod opening;
mod sink;
mod source;

pub use file_disk::{DiskOver, FileDisk};
pub use node_file::NodeFile;
pub use sink::StdSink;
pub use source::StdSource;

#[cfg(test)]
mod tests;

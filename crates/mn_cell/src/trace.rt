//! What a run leaves.
use mn_base::NodeNo;
use mn_io::Disk;
use mn_mini::Record;
use mn_node::Node;
use mn_runs::Log;

/// A run that was closed: its nodes, from number 0 on, and its whole log.
#[derive(Drop)]
pub struct Trace<D: Disk> {
    pub nodes: Vec<Node<D>>,
    pub log: Log,
}

/// A run that failed while it was opened or closed: its nodes as they are then, its log so far, and
/// why.
#[derive(Drop)]
pub struct RunFailed<D: Disk> {
    pub nodes: Vec<Node<D>>,
    pub log: Log,
    pub cause: RunCause,
}

/// Why a run failed.
#[derive(Debug, Drop)]
pub enum RunCause {
    /// The disk of the node failed.
    Disk {
        node: NodeNo,
    },
    /// At closing the node's disk had other records than the node: record `place`, from 0, is the
    /// first that differs, with the node's and the disk's, as far as they have one. Or, with both
    /// absent, it is no log of records, and `place` is that of the fault on the disk.
    Damaged {
        node: NodeNo,
        place: u64,
        kept: Option<Record>,
        found: Option<Record>,
    },
    /// There was no memory; the log is empty.
    NoMemory,
}

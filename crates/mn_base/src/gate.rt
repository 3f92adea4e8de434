use crate::{ClientNo, NodeNo};

/// What stands round each call that a client makes of a node. A gate may hold a call back; it sees
/// nothing of it.
pub trait Gate {
    fn before(&self, client: ClientNo, node: NodeNo);

    fn after(&self, client: ClientNo, node: NodeNo);
}

/// The gate that is always open: it does nothing.
#[derive(Clone, Copy, Debug)]
pub struct OpenGate;

impl Gate for OpenGate {
    fn before(&self, _client: ClientNo, _node: NodeNo) {}

    fn after(&self, _client: ClientNo, _node: NodeNo) {}
}

/// Where a node stops inside a request that adds a record: before its log is touched, with the
/// record written behind a closed gate, or with the record stable and the reply not sent.
#[derive(Clone, Copy, Debug, PartialEq, Eq)]
pub enum StopAt {
    Before,
    Half,
    After,
}

use mn_base::{ClientNo, NodeNo};

/// Who makes an entry: a memory node, or whoever calls it.
#[derive(Clone, Copy, Debug, PartialEq, Eq)]
pub enum Actor {
    Node { node: NodeNo },
    Client { client: ClientNo },
}

use mn_base::Nodes;

/// How far a recovery has come.
#[derive(Debug, Drop)]
pub enum RecovStage {
    /// The nodes below this number listed no such id.
    Looking {
        node: u8,
    },
    /// A node listed the id with these participants. So many have voted, with `yes` all of them
    /// yes, and so many were sent the decision.
    Found {
        participants: Nodes,
        voted: usize,
        yes: bool,
        decided: usize,
    },
}

use crate::AllReads;
use mn_base::NodeNo;
use mn_mini::{Minitransaction, NodeReply, Request};

/// What a coordinator wants next.
#[derive(Debug, Drop)]
pub enum CoordStep {
    /// To send this request, and to be fed its reply.
    Send { node: NodeNo, request: Request },
    /// That the minitransaction is given up: before any Decide, told once.
    Abandon,
    /// Nothing more: it is committed, and all its Decides were sent. `reads` has what was read.
    Committed,
    /// Nothing more: it has no effect, now or later, and all its Decides were sent. `reply` has the
    /// reply of this node.
    Failed { node: NodeNo },
    /// Nothing more: whether it is committed isn't known, since this node stopped inside the last
    /// Prepare or the Exec.
    Doubt { node: NodeNo },
}

/// What a coordinator ends with.
#[derive(Debug, Drop)]
pub struct Outcome {
    pub mini: Minitransaction,
    /// What each participant read, by participant, where it is committed.
    pub reads: AllReads,
    /// The reply by which it failed, or is in doubt.
    pub reply: Option<NodeReply>,
}

use mn_base::NodeNo;
use mn_mini::Request;

/// What a recovery wants next.
#[derive(Debug, Drop)]
pub enum RecovStep {
    /// To send this request, and to be fed its reply.
    Send { node: NodeNo, request: Request },
    /// Nothing more: the decision that each participant was sent, or none where no node lists the
    /// id.
    Ended { yes: Option<bool> },
}

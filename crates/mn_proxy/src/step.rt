use mn_base::{Answer, NodeNo, Tid};
use mn_mini::{Minitransaction, Request};

/// What a proxy wants next.
#[derive(Debug, Drop)]
pub enum ProxyStep {
    /// To issue a minitransaction under a new id.
    Issue { tid: Tid, mini: Minitransaction },
    /// To give a minitransaction up.
    Abandon { tid: Tid },
    /// To call the node with this request, and to be fed its reply.
    Call { node: NodeNo, request: Request },
    /// Nothing more: the operation is answered.
    Done { answer: Answer },
}

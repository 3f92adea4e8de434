use mn_base::{Answer, ClientNo, NoMemory, NodeNo, SharedOp, StopAt, Tid, TryCopy};
use mn_mini::{Minitransaction, NodeReply, Request};
use std::alloc::Global;

/// One atomic step of a run: at a node, by an actor that calls, or both.
#[derive(Debug, Drop)]
pub struct Entry {
    pub node: Option<NodeNo>,
    pub client: Option<ClientNo>,
    pub what: What,
}

/// What happened in a step.
#[derive(Debug)]
pub enum What {
    /// The client began its operation of this number, from 1.
    Begin {
        number: u32,
        op: SharedOp,
    },
    /// It issued a minitransaction under a new id.
    Issue {
        tid: Tid,
        mini: Minitransaction,
    },
    /// It called the node, and this was the reply.
    Called {
        request: Request,
        reply: NodeReply,
    },
    /// The node stopped: inside this request, or where there is none, between two. `asked` is where
    /// the call was told to stop.
    Stopped {
        request: Option<Request>,
        asked: Option<StopAt>,
    },
    /// The node was restarted; whether the record of the request inside which it had stopped is
    /// there.
    Restarted {
        kept: bool,
    },
    /// The client gave the minitransaction up.
    Abandoned {
        tid: Tid,
    },
    /// It answered its operation of this number.
    Answered {
        number: u32,
        answer: Answer,
    },
}

/// It is let go by a call, which is proved once, and not in place wherever one goes.
impl Drop for What {
    fn drop(self) {
        match self {
            What::Begin {
                number: _number,
                op,
            } => drop(op),
            What::Issue { tid: _tid, mini } => drop(mini),
            What::Called { request, reply } => {
                drop(request);
                drop(reply);
            }
            What::Stopped {
                request,
                asked: _asked,
            } => drop(request),
            What::Restarted { kept: _kept } => {}
            What::Abandoned { tid: _tid } => {}
            What::Answered {
                number: _number,
                answer,
            } => drop(answer),
        }
    }
}

impl TryCopy for Entry {
    fn try_copy(&self, alloc: Global) -> Result<Self, NoMemory> {
        Ok(Entry {
            node: self.node,
            client: self.client,
            what: self.what.try_copy(alloc)?,
        })
    }
}

impl TryCopy for What {
    fn try_copy(&self, alloc: Global) -> Result<Self, NoMemory> {
        match self {
            What::Begin { number, op } => Ok(What::Begin {
                number: *number,
                op: op.try_copy(alloc)?,
            }),
            What::Issue { tid, mini } => Ok(What::Issue {
                tid: *tid,
                mini: mini.try_copy(alloc)?,
            }),
            What::Called { request, reply } => Ok(What::Called {
                request: request.try_copy(alloc)?,
                reply: reply.try_copy(alloc)?,
            }),
            What::Stopped { request, asked } => Ok(What::Stopped {
                request: request.try_copy(alloc)?,
                asked: *asked,
            }),
            What::Restarted { kept } => Ok(What::Restarted { kept: *kept }),
            What::Abandoned { tid } => Ok(What::Abandoned { tid: *tid }),
            What::Answered { number, answer } => Ok(What::Answered {
                number: *number,
                answer: answer.try_copy(alloc)?,
            }),
        }
    }
}

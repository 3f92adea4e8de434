ghost use Rattle.std.specs.Prelude.{◌≡◌, IfSome, None};
ghost use Rattle.mn_proxy.specs.Turns.{IsFed, IsOutFor, IsSent, IsSentWhole};

use crate::step::ProxyStep;
use mn_base::{Addr, Reply, Tid};
use mn_coord::{CoordStep, Coordinator};
use mn_mini::NodeReply;
use mn_work::Place;
use std::mem;

/// What a minitransaction or a Peek is for.
#[derive(Debug, Drop)]
pub enum Purpose {
    /// It reads the catalog.
    Catalog,
    /// It reads the page at this address.
    Page { addr: Addr },
    /// It reads the count of the next node.
    Count,
    /// It is the operation's plan, with this reply.
    Plan { reply: Reply },
}

/// What is on its way to the nodes.
#[derive(Debug, Drop)]
pub enum Errand {
    /// Nothing: the try says what comes next.
    Nothing,
    /// A Peek of this place, which wasn't answered.
    Peek {
        place: Place,
        purpose: Purpose,
    },
    /// A Peek that was answered.
    Peeked {
        place: Place,
        reply: NodeReply,
        purpose: Purpose,
    },
    /// A minitransaction.
    Mini {
        tid: Tid,
        coordinator: Coordinator,
        purpose: Purpose,
    },
}

impl Errand {
    /// The next request of a minitransaction, which is out from then on, or that it is given up,
    /// which is told once. It stays where it lies. None: neither is due, and all is as it was.
    #[inline(always)]
    pub fn send(&mut self) -> Option<ProxyStep>
        requires quiet { IsOutFor self.old → ⊥ }
        ensures sent { IfSome result (IsSent self.old self.new) }
        ensures same { result ≡ None → self.new ≡ self.old }
        ensures whole { result ≡ None → IsSentWhole self.old }
    {
        let Errand::Mini {
            tid,
            coordinator,
            ..
        } = self
        else {
            return None;
        };
        match coordinator.next() {
            CoordStep::Send { node, request } => Some(ProxyStep::Call { node, request }),
            CoordStep::Abandon => Some(ProxyStep::Abandon { tid: *tid }),
            CoordStep::Committed => None,
            CoordStep::Failed { .. } => None,
            CoordStep::Doubt { .. } => None,
        }
    }

    /// Takes the reply to the request that is out for it. It stays where it lies: only what was a
    /// Peek is moved.
    pub fn feed(&mut self, reply: NodeReply)
        requires out { IsOutFor self.old }
        ensures { IsFed self.old reply self.new }
    {
        if let Errand::Mini { coordinator, .. } = self {
            coordinator.feed(reply);
            return;
        }
        if let Errand::Peek { place, purpose } = mem::replace(self, Errand::Nothing) {
            *self = Errand::Peeked {
                place,
                reply,
                purpose,
            };
        }
    }
}

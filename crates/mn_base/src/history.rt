ghost use Rattle.std.specs.Prelude.{◌≡◌};

use crate::{ClientNo, Reply, SharedOp};
use std::marker::Model;

/// An operation that took effect or was replied to: who asked for it, its number among this
/// client's operations (from 1), and the reply.
#[derive(Debug, Drop)]
pub struct Past {
    pub client: ClientNo,
    pub number: u32,
    pub op: SharedOp,
    pub reply: Reply,
}

/// Operations in the order in which they took effect. Contracts see them as a list.
#[derive(Debug, Drop)]
pub struct History {
    past: Vec<Past>,
}

impl Model for History {
    ghost use Rattle.std.specs.Prelude.{List};
    ghost use Rattle.mn_base.specs.declared.history.Past.{Past};

    ghost Value = { List Past };

    ghost view = { λ h. h.past.items };
}

impl History {
    /// It takes no memory.
    pub fn from_vec(past: Vec<Past>) -> Self
        ensures { result ≡ past.items }
    {
        History { past }
    }

    pub fn into_vec(self) -> Vec<Past>
        ensures { result.items ≡ self }
    {
        self.past
    }

    pub fn as_slice(&self) -> &[Past]
        ensures { result.now ≡ self.now }
    {
        &self.past
    }
}

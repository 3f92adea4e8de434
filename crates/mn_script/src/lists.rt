ghost use Rattle.std.specs.Prelude.{◌≡◌, [], ◌∷◌, ◌++◌, OnOk, OnErr};

use crate::elements::{Act, Point, ScriptClient};
use mn_base::{NoMemory, SharedOp};
use std::marker::Model;

/// The clients in order of number. Contracts see them as a list.
#[derive(Debug, Drop)]
pub struct Clients {
    clients: Vec<ScriptClient>,
}

impl Model for Clients {
    ghost use Rattle.std.specs.Prelude.{List};
    ghost use Rattle.mn_script.specs.declared.elements.ScriptClient.{ScriptClient};

    ghost Value = { List ScriptClient };

    ghost view = { λ l. l.clients.items };
}

impl Clients {
    /// It takes no memory.
    pub fn from_vec(clients: Vec<ScriptClient>) -> Self
        ensures { result ≡ clients.items }
    {
        Clients { clients }
    }

    pub fn into_vec(self) -> Vec<ScriptClient>
        ensures { result.items ≡ self }
    {
        self.clients
    }

    pub fn as_slice(&self) -> &[ScriptClient]
        ensures { result.now ≡ self.now }
    {
        &self.clients
    }
}

/// A client's operations in order. Contracts see them as a list.
#[derive(Debug, Drop)]
pub struct Ops {
    ops: Vec<SharedOp>,
}

impl Model for Ops {
    ghost use Rattle.std.specs.Prelude.{List};
    ghost use Rattle.mn_base.specs.declared.op.Op.{Op};

    ghost Value = { List Op };

    ghost view = { λ l. l.ops.items };
}

impl Ops {
    /// It takes no memory.
    pub fn from_vec(ops: Vec<SharedOp>) -> Self
        ensures { result ≡ ops.items }
    {
        Ops { ops }
    }

    pub fn into_vec(self) -> Vec<SharedOp>
        ensures { result.items ≡ self }
    {
        self.ops
    }

    pub fn as_slice(&self) -> &[SharedOp]
        ensures { result.now ≡ self.now }
    {
        &self.ops
    }

    /// Adds an operation at the end. NoMemory: there was no memory for it; nothing is changed.
    pub fn push(&mut self, op: SharedOp) -> Result<(), NoMemory>
        ensures ok { OnOk result (self.new ≡ self.old ++ op ∷ []) }
        ensures kept { OnErr result (self.new ≡ self.old) }
    {
        self.ops.push(op)?;
        Ok(())
    }
}

/// Crash points in order of number. Contracts see them as a list.
#[derive(Debug, Drop)]
pub struct Points {
    points: Vec<Point>,
}

impl Model for Points {
    ghost use Rattle.std.specs.Prelude.{List};
    ghost use Rattle.mn_script.specs.declared.elements.Point.{Point};

    ghost Value = { List Point };

    ghost view = { λ l. l.points.items };
}

impl Points {
    /// It takes no memory.
    pub fn from_vec(points: Vec<Point>) -> Self
        ensures { result ≡ points.items }
    {
        Points { points }
    }

    pub fn into_vec(self) -> Vec<Point>
        ensures { result.items ≡ self }
    {
        self.points
    }

    pub fn as_slice(&self) -> &[Point]
        ensures { result.now ≡ self.now }
    {
        &self.points
    }
}

/// The acts of a schedule in order. Contracts see them as a list.
#[derive(Debug, Drop)]
pub struct Acts {
    acts: Vec<Act>,
}

impl Model for Acts {
    ghost use Rattle.std.specs.Prelude.{List};
    ghost use Rattle.mn_script.specs.declared.elements.Act.{Act};

    ghost Value = { List Act };

    ghost view = { λ l. l.acts.items };
}

impl Acts {
    /// It takes no memory.
    pub fn from_vec(acts: Vec<Act>) -> Self
        ensures { result ≡ acts.items }
    {
        Acts { acts }
    }

    pub fn into_vec(self) -> Vec<Act>
        ensures { result.items ≡ self }
    {
        self.acts
    }

    pub fn as_slice(&self) -> &[Act]
        ensures { result.now ≡ self.now }
    {
        &self.acts
    }
}

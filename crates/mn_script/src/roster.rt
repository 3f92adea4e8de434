ghost use Rattle.std.specs.Prelude.{◌≡◌, ◌<◌, ◌≤◌, ◌++◌, ◌∷◌, [], length, None, IfSome, OnOk};
ghost use Rattle.std.specs.Prelude.{OnErr, IsOkUnless};
ghost use Rattle.mn_script.specs.Lines.{client_named};
ghost use Rattle.mn_script.specs.Reading.{with_op};

use crate::elements::{Mark, ScriptClient};
use crate::error::LineError;
use crate::lists::Ops;
use mn_base::{Name, SharedOp};
use std::alloc::Global;
use std::collections::BTreeMap;
use std::marker::Model;

/// The clients of a script so far, in order, with a map by which one is found by its name.
#[derive(Drop)]
pub struct Roster {
    clients: Vec<ScriptClient>,
    numbers: BTreeMap<Vec<u8>, usize>,
}

impl Model for Roster {
    ghost use Rattle.std.specs.Prelude.{List};
    ghost use Rattle.mn_script.specs.declared.elements.ScriptClient.{ScriptClient};
    ghost use Rattle.mn_script.specs.Roster.{AreNumbered};

    ghost Value = { List ScriptClient };

    ghost view = { λ r. r.clients.items };

    ghost invariant = { λ r. AreNumbered (λ k. k.items) r.numbers r.clients.items };
}

/// Adds an operation to the last client.
#[inline(always)]
fn push_op(clients: &mut Vec<ScriptClient>, op: SharedOp) -> Result<(), LineError>
    requires { 1 ≤ length clients.old.items }
    ensures added { OnOk result (clients.new.items ≡ with_op clients.old.items op) }
    ensures kept { OnErr result (clients.new.items ≡ clients.old.items) }
    ensures memory { IsOkUnless result LineError.NoMemory }
{
    let last = clients.len() - 1;
    clients[last].ops.push(op)?;
    Ok(())
}

impl Roster {
    pub fn new(alloc: Global) -> Roster
        ensures { result ≡ [] }
    {
        Roster {
            clients: Vec::new(alloc),
            numbers: BTreeMap::new(alloc),
        }
    }

    pub fn as_slice(&self) -> &[ScriptClient]
        ensures { result.now ≡ self.now }
    {
        &self.clients
    }

    pub fn into_vec(self) -> Vec<ScriptClient>
        ensures { result.items ≡ self }
    {
        self.clients
    }

    /// The number of the client of this name.
    pub fn place_of(&self, name: &[u8]) -> Option<usize>
        ensures number { result ≡ client_named self.now name.now }
        ensures within { IfSome result (λ n. n < length self.now) }
    {
        self.numbers.get(name).copied()
    }

    /// Adds a client, whose name is new, without operations. After want of memory the clients are
    /// as before.
    pub fn push(&mut self, alloc: Global, name: Name, mark: Mark) -> Result<(), LineError>
        requires new { client_named self.old name ≡ None }
        ensures added { OnOk result (self.new
            ≡ self.old ++ record { name = name; mark = mark; ops = [] } ∷ []) }
        ensures kept { OnErr result (self.new ≡ self.old) }
        ensures memory { IsOkUnless result LineError.NoMemory }
    {
        self.clients.reserve(1)?;
        let key = name.as_slice().to_vec(alloc)?;
        self.numbers.insert(key, self.clients.len())?;
        self.clients.push_reserved(ScriptClient {
            name,
            mark,
            ops: Ops::from_vec(Vec::new(alloc)),
        });
        Ok(())
    }

    /// Adds an operation to the last client. After want of memory the clients are as before.
    #[inline(always)]
    pub fn push_op(&mut self, op: SharedOp) -> Result<(), LineError>
        requires { 1 ≤ length self.old }
        ensures added { OnOk result (self.new ≡ with_op self.old op) }
        ensures kept { OnErr result (self.new ≡ self.old) }
        ensures memory { IsOkUnless result LineError.NoMemory }
    {
        push_op(&mut self.clients, op)?;
        Ok(())
    }
}

ghost use Rattle.std.specs.Prelude.{◌≡◌, IfOk};

use crate::{NoMemory, Op, TryCopy};
use std::alloc::Global;
use std::marker::Model;
use std::sync::Arc;

/// An operation that stands in several places: its copies share one memory. Contracts see the
/// operation.
#[derive(Debug, Drop)]
pub struct SharedOp {
    op: Arc<Op>,
}

impl Model for SharedOp {
    ghost use Rattle.mn_base.specs.declared.op.Op.{Op};

    ghost Value = { Op };

    ghost view = { λ s. s.op.value };
}

impl SharedOp {
    /// The operation, for several owners. NoMemory: there was no memory for it.
    pub fn new(alloc: Global, op: Op) -> Result<Self, NoMemory>
        ensures { IfOk result (λ shared. shared ≡ op) }
    {
        match Arc::new(alloc, op) {
            Ok(op) => Ok(SharedOp { op }),
            Err(_) => Err(NoMemory),
        }
    }

    #[inline(always)]
    pub fn get(&self) -> &Op
        ensures { result.now ≡ self.now }
    {
        &self.op
    }
}

impl TryCopy for SharedOp {
    fn try_copy(&self, _alloc: Global) -> Result<Self, NoMemory> {
        Ok(SharedOp {
            op: Arc::try_clone(&self.op)?,
        })
    }
}

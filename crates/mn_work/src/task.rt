ghost use Rattle.std.specs.Prelude.{◌≡◌, IfOk};
ghost use Rattle.std.specs.Borrow.{sem};
ghost use Rattle.mn_work.specs.Lent.{LendsWork};
ghost use Rattle.mn_work.specs.Works.{new_work};

use crate::work::Work;
use mn_base::{NoMemory, SharedOp};
use std::alloc::Global;
use std::marker::Model;

/// An operation under way, in memory of its own: it is handed from function to function at each
/// step. Contracts see the operation.
#[derive(Debug)]
pub struct Task {
    work: Box<Work>,
}

/// It is let go by a call, which is proved once, and not in place wherever one goes.
impl Drop for Task {
    fn drop(self) {
        let Task { work } = self;
        drop(work);
    }
}

impl Model for Task {
    ghost use Rattle.mn_work.specs.declared.work.Work.{Work};

    ghost Value = { Work };

    ghost view = { λ t. t.work.value };
}

impl Task {
    /// An operation that has begun. NoMemory: there was no memory for it.
    pub fn new(alloc: Global, op: SharedOp) -> Result<Self, NoMemory>
        ensures { IfOk result (λ task. task ≡ new_work op) }
    {
        match Box::new(alloc, Work::new(op)) {
            Ok(work) => Ok(Task { work }),
            Err(_) => Err(NoMemory),
        }
    }

    /// The operation.
    #[inline(always)]
    pub fn get(&self) -> &Work
        ensures { result.now ≡ self.now }
    {
        &self.work
    }

    /// The operation, to go on with it.
    #[inline(always)]
    pub fn get_mut(&mut self) -> &mut Work
        ensures* lends { sem 𝓛 (LendsWork self.entry result) }
        ensures same { result.now ≡ self.old }
    {
        &mut self.work
    }
}

ghost use Rattle.std.specs.Prelude.{◌≡◌, ◌≤◌, ◌∷◌, [], length, IfOk, IfErr, OnOk};
ghost use Rattle.std.specs.List.{list_any};
ghost use Rattle.mn_base.specs.Refusal.{RefusesSteps};
ghost use Rattle.mn_base.specs.Store.{is_change};

use crate::{BaseError, Key, Name, NoMemory, TryCopy, Value, copies_of};
use smallvec::SmallVec;
use std::alloc::Global;
use std::default::MadeWith;
use std::marker::Model;

/// How many steps lie in an operation itself: most have one.
const STEPS_IN_PLACE: usize = 1;

/// One step of a transaction on the pairs of a version.
#[derive(Debug, Drop)]
pub enum Step {
    /// Notes the value of the key, or that there is none.
    Get { key: Key },
    /// Sets the value of the key.
    Put { key: Key, value: Value },
    /// Removes the key, if it is there.
    Del { key: Key },
    /// Ends the transaction without effect where the key has another value, or none. No `want`
    /// wants none.
    Check { key: Key, want: Option<Value> },
}

impl TryCopy for Step {
    fn try_copy(&self, alloc: Global) -> Result<Self, NoMemory> {
        match self {
            Step::Get { key } => Ok(Step::Get {
                key: key.try_copy(alloc)?,
            }),
            Step::Put { key, value } => Ok(Step::Put {
                key: key.try_copy(alloc)?,
                value: value.try_copy(alloc)?,
            }),
            Step::Del { key } => Ok(Step::Del {
                key: key.try_copy(alloc)?,
            }),
            Step::Check { key, want } => Ok(Step::Check {
                key: key.try_copy(alloc)?,
                want: want.try_copy(alloc)?,
            }),
        }
    }
}

/// What a place of a list has before a step stands there.
impl MadeWith<Global> for Step {
    fn made_with(_alloc: Global) -> Self {
        Step::Get { key: Key::blank() }
    }
}

impl Step {
    /// Whether it may change pairs: a Put or a Del.
    pub fn changes(&self) -> bool
        ensures { result ≡ is_change self.now }
    {
        match self {
            Step::Put { .. } | Step::Del { .. } => true,
            Step::Get { .. } | Step::Check { .. } => false,
        }
    }
}

/// The most steps of a transaction.
pub const MAX_STEPS: usize = 16;

/// The steps of a transaction, 1 to 16. Contracts see them as a list.
#[derive(Debug, Drop)]
pub struct Steps {
    steps: SmallVec<Step, STEPS_IN_PLACE>,
}

impl Model for Steps {
    ghost use Rattle.std.specs.Prelude.{◌≤◌, List, length};
    ghost use Rattle.mn_base.specs.declared.op.Step.{Step};
    ghost use Rattle.mn_base.specs.declared.op.TheConstants.{MAX_STEPS};

    ghost Value = { List Step };

    ghost view = { λ s. s.steps.items };

    ghost invariant = { λ s. (1 ≤ length s.steps.items) × (length s.steps.items ≤ MAX_STEPS) };
}

impl Steps {
    /// These steps. BadSteps: there are `n`, which is 0 or above 16. It takes no memory.
    pub fn new(steps: Vec<Step>) -> Result<Self, BaseError>
        ensures ok { IfOk result (λ list. list ≡ steps.items) }
        ensures within { OnOk result ((1 ≤ length steps.items) × (length steps.items ≤ MAX_STEPS)) }
        ensures refused { IfErr result (RefusesSteps (length steps.items)) }
    {
        let n = steps.len();
        if n == 0 || n > MAX_STEPS {
            return Err(BaseError::BadSteps { n });
        }
        Ok(Steps {
            steps: SmallVec::from_vec(steps),
        })
    }

    /// One step. It takes no memory.
    pub fn one(alloc: Global, step: Step) -> Self
        ensures { result ≡ step ∷ [] }
    {
        Steps {
            steps: SmallVec::from_buf(alloc, [step]),
        }
    }

    pub fn as_slice(&self) -> &[Step]
        ensures steps { result.now ≡ self.now }
        ensures within { (1 ≤ length self.now) × (length self.now ≤ MAX_STEPS) }
    {
        self.steps.as_slice()
    }

    /// Whether some step is a Put or a Del.
    pub fn has_change(&self) -> bool
        ensures { result ≡ list_any is_change self.now }
    {
        let steps = self.as_slice();
        for step in steps {
            if step.changes() {
                return true;
            }
        }
        false
    }
}

impl TryCopy for Steps {
    fn try_copy(&self, alloc: Global) -> Result<Self, NoMemory> {
        let steps = copies_of(alloc, self.as_slice())?;
        Ok(Steps {
            steps: SmallVec::from_vec(steps),
        })
    }
}

/// An operation on the store.
#[derive(Debug)]
pub enum Op {
    /// Runs the steps in order on the version's pairs: all of them, or none where a Check isn't
    /// met.
    Tx {
        version: Name,
        steps: Steps,
    },
    /// Freezes a writable version and makes its first child, writable and with the same pairs.
    Snapshot {
        version: Name,
        child: Name,
    },
    /// Makes another child of a frozen version, writable and with the same pairs.
    Branch {
        version: Name,
        child: Name,
    },
    /// The first `limit` pairs of a frozen version with `low <= key < high`. An absent bound
    /// doesn't bound.
    Scan {
        version: Name,
        low: Option<Key>,
        high: Option<Key>,
        limit: u32,
    },
    /// Lists every version in order of number.
    Versions,
}

/// It is let go by a call, which is proved once, and not in place wherever one goes.
impl Drop for Op {
    fn drop(self) {
        match self {
            Op::Tx { version, steps } => {
                drop(version);
                drop(steps);
            }
            Op::Snapshot { version, child } => {
                drop(version);
                drop(child);
            }
            Op::Branch { version, child } => {
                drop(version);
                drop(child);
            }
            Op::Scan {
                version,
                low,
                high,
                limit: _limit,
            } => {
                drop(version);
                drop(low);
                drop(high);
            }
            Op::Versions => {}
        }
    }
}

impl TryCopy for Op {
    fn try_copy(&self, alloc: Global) -> Result<Self, NoMemory> {
        match self {
            Op::Tx { version, steps } => Ok(Op::Tx {
                version: version.try_copy(alloc)?,
                steps: steps.try_copy(alloc)?,
            }),
            Op::Snapshot { version, child } => Ok(Op::Snapshot {
                version: version.try_copy(alloc)?,
                child: child.try_copy(alloc)?,
            }),
            Op::Branch { version, child } => Ok(Op::Branch {
                version: version.try_copy(alloc)?,
                child: child.try_copy(alloc)?,
            }),
            Op::Scan {
                version,
                low,
                high,
                limit,
            } => Ok(Op::Scan {
                version: version.try_copy(alloc)?,
                low: low.try_copy(alloc)?,
                high: high.try_copy(alloc)?,
                limit: *limit,
            }),
            Op::Versions => Ok(Op::Versions),
        }
    }
}

ghost use Rattle.std.specs.Prelude.{◌≡◌};

use crate::Part;
use mn_base::{NoMemory, Nodes, Tid, TryCopy, copies_of};
use std::alloc::Global;
use std::marker::Model;

/// What a memory node keeps, one record for each request that changes it.
#[derive(Debug)]
pub enum Record {
    /// It voted yes for the part, which is held until it is decided.
    Voted {
        tid: Tid,
        participants: Nodes,
        part: Part,
    },
    /// It ran the part, which has a write item.
    Executed {
        tid: Tid,
        part: Part,
    },
    /// It ended the part that it held for the id: with `yes` the writes are made.
    Decided {
        tid: Tid,
        yes: bool,
    },
    /// It will not vote for the id.
    Forced {
        tid: Tid,
    },
}

/// It is let go by a call, which is proved once, and not in place wherever one goes.
impl Drop for Record {
    fn drop(self) {
        match self {
            Record::Voted {
                tid: _tid,
                participants,
                part,
            } => {
                drop(participants);
                drop(part);
            }
            Record::Executed { tid: _tid, part } => drop(part),
            Record::Decided {
                tid: _tid,
                yes: _yes,
            } => {}
            Record::Forced { tid: _tid } => {}
        }
    }
}

impl TryCopy for Record {
    fn try_copy(&self, alloc: Global) -> Result<Self, NoMemory> {
        match self {
            Record::Voted {
                tid,
                participants,
                part,
            } => Ok(Record::Voted {
                tid: *tid,
                participants: participants.try_copy(alloc)?,
                part: part.try_copy(alloc)?,
            }),
            Record::Executed { tid, part } => Ok(Record::Executed {
                tid: *tid,
                part: part.try_copy(alloc)?,
            }),
            Record::Decided { tid, yes } => Ok(Record::Decided {
                tid: *tid,
                yes: *yes,
            }),
            Record::Forced { tid } => Ok(Record::Forced { tid: *tid }),
        }
    }
}

/// The records of a node, from the first on. Contracts see them as a list.
#[derive(Debug, Drop)]
pub struct Records {
    records: Vec<Record>,
}

impl Model for Records {
    ghost use Rattle.std.specs.Prelude.{List};
    ghost use Rattle.mn_mini.specs.declared.record.Record.{Record};

    ghost Value = { List Record };

    ghost view = { λ r. r.records.items };
}

impl Records {
    /// It takes no memory.
    pub fn from_vec(records: Vec<Record>) -> Self
        ensures { result ≡ records.items }
    {
        Records { records }
    }

    pub fn into_vec(self) -> Vec<Record>
        ensures { result.items ≡ self }
    {
        self.records
    }

    pub fn as_slice(&self) -> &[Record]
        ensures { result.now ≡ self.now }
    {
        &self.records
    }
}

impl TryCopy for Records {
    fn try_copy(&self, alloc: Global) -> Result<Self, NoMemory> {
        Ok(Records {
            records: copies_of(alloc, &self.records)?,
        })
    }
}

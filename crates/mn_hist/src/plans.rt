//! Who issued the last plan of each id, and for which operation.
ghost use Rattle.std.specs.Option.{option_map};
ghost use Rattle.std.specs.Prelude.{◌≡◌, Some, None, IfOk, OnOk, if◌then◌else◌};
ghost use Rattle.mn_base.specs.Ids.{tid_same};
ghost use Rattle.mn_base.specs.declared.ids.Tid.{Tid as Id};
ghost use Rattle.mn_hist.specs.Plans.{begun_of, planner_in, planner_kept};

use crate::table::Table;
use mn_base::{ClientNo, NoMemory, SharedOp, Tid};
use mn_commits::{IdKey, id_key};
use std::alloc::Global;
use std::collections::HashMap;

/// An operation that was begun.
#[derive(Clone, Copy)]
pub struct Begun<'a> {
    pub number: u32,
    pub op: &'a SharedOp,
}

/// Who issued a plan, and for which operation; with the run of its id.
#[derive(Clone, Copy)]
pub struct Plan<'a> {
    pub run: u32,
    pub client: Option<ClientNo>,
    pub begun: Option<Begun<'a>>,
}

/// The last plan of each id.
#[derive(Drop)]
pub struct Plans<'a> {
    /// By client and serial, of the run that came first.
    first: Table<Option<Plan<'a>>>,
    /// Of other runs.
    others: HashMap<IdKey, Plan<'a>>,
}

impl<'a> Plans<'a> {
    /// None is known. NoMemory: there was no memory for it.
    pub fn new(alloc: Global) -> Result<Self, NoMemory>
        ensures { IfOk result (λ plans. (tid : Id) → planner_kept plans tid ≡ None) }
    {
        Ok(Plans {
            first: Table::new(alloc)?,
            others: HashMap::new(alloc),
        })
    }

    /// Notes who issued the last plan of this id. NoMemory: there was no memory for it.
    pub fn note(
        &mut self,
        tid: Tid,
        client: Option<ClientNo>,
        begun: Option<Begun<'a>>,
    ) -> Result<(), NoMemory>
        ensures { OnOk result ((q : Id) → planner_kept self.new q ≡ (if tid_same tid q then
            Some (record { client = client; begun = option_map begun_of begun.entry })
            else planner_kept self.old q)) }
    {
        let plan = Plan {
            run: tid.run,
            client,
            begun,
        };
        match self.first.of(tid.client, tid.serial, None) {
            Some(first) if first.run != tid.run => {
                self.others.insert(id_key(tid), plan)?;
                Ok(())
            }
            _ => self.first.keep(tid.client, tid.serial, Some(plan), None),
        }
    }

    /// The last plan of this id.
    pub fn of(&self, tid: Tid) -> Option<Plan<'a>>
        ensures { option_map planner_in result ≡ planner_kept self.now tid }
    {
        match self.first.of(tid.client, tid.serial, None) {
            Some(first) if first.run == tid.run => Some(first),
            _ => self.others.get(&id_key(tid)).copied(),
        }
    }
}

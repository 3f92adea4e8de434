ghost use Rattle.std.specs.Prelude.{◌≡◌, ◌∷◌, [], List, OnOk, option_map};
ghost use Rattle.mn_mini.specs.declared.record.Record.{Record};
ghost use Rattle.mn_mini.specs.RecordGrammar.{HasTid};
ghost use Rattle.mn_flat.specs.Known.{id_key, known_at, unknown, FollowsRecord, TableTells};
ghost use Rattle.mn_flat.specs.Known.{differs_from};
ghost use Rattle.mn_flat.specs.Votes.{same_nodes};

use mn_base::{NoMemory, NodeNo, Nodes, Tid};
use mn_mini::Record;
use std::alloc::Global;
use std::collections::HashMap;

/// An id as it is looked up.
#[derive(Clone, Copy, PartialEq, Eq, Hash)]
struct IdKey {
    run: u32,
    client: u8,
    serial: u32,
}

/// What records tell of an id.
#[derive(Clone, Copy)]
pub struct Known<'a> {
    /// It has a record.
    pub seen: bool,
    /// It has more than one.
    pub several: bool,
    /// Those that its last vote names.
    pub participants: Option<&'a Nodes>,
    /// Two votes for it name different ones.
    pub differ: bool,
    pub executed: bool,
    /// It has a decided yes.
    pub agreed: bool,
    /// It has a decided no.
    pub refused: bool,
}

/// What records tell of each id.
#[derive(Drop)]
pub struct Table<'a> {
    known: HashMap<IdKey, Known<'a>>,
}

fn id_key(tid: Tid) -> IdKey
    ensures { result ≡ id_key tid }
{
    IdKey {
        run: tid.run,
        client: tid.client.0,
        serial: tid.serial,
    }
}

/// What is known of an id without records.
fn nothing<'a>() -> Known<'a>
    ensures { result ≡ unknown }
{
    Known {
        seen: false,
        several: false,
        participants: None,
        differ: false,
        executed: false,
        agreed: false,
        refused: false,
    }
}

/// Whether these are the same nodes in the same order.
pub fn are_same(one: &[NodeNo], other: &[NodeNo]) -> bool
    ensures { result ≡ same_nodes one.now other.now }
{
    one == other
}

/// Whether a vote before named others than these.
fn differ(before: Option<&Nodes>, participants: &Nodes) -> bool
    ensures { result ≡ differs_from (option_map (λ ns. ns.now) before.entry) participants.now }
{
    match before {
        Some(others) => !are_same(others.as_slice(), participants.as_slice()),
        None => false,
    }
}

/// What is known of the id of a record after it.
fn after<'a>(before: Known<'a>, record: &'a Record) -> Known<'a>
    ensures { FollowsRecord before.entry result record.now }
{
    let mut known = before;
    known.several = before.seen;
    if before.several {
        known.several = true;
    }
    known.seen = true;
    match record {
        Record::Voted { participants, .. } => {
            if differ(before.participants, participants) {
                known.differ = true;
            }
            known.participants = Some(participants);
        }
        Record::Executed { .. } => known.executed = true,
        Record::Decided { yes: true, .. } => known.agreed = true,
        Record::Decided { yes: false, .. } => known.refused = true,
        Record::Forced { .. } => {}
    }
    known
}

impl<'a> Table<'a> {
    /// No record tells anything.
    pub fn new(alloc: Global) -> Self
        ensures { TableTells result [] }
    {
        Table {
            known: HashMap::new(alloc),
        }
    }

    /// What is known of the id.
    pub fn of(&self, tid: Tid) -> Known<'a>
        ensures { result ≡ known_at self.now tid }
    {
        match self.known.get(&id_key(tid)) {
            Some(known) => *known,
            None => nothing(),
        }
    }

    /// Notes a record behind the others.
    pub fn note(&mut self, record: &'a Record) -> Result<(), NoMemory>
        ensures { (older : List Record) → TableTells self.old older
            → OnOk result (TableTells self.new (record.now ∷ older)) }
    {
        match record {
            Record::Voted { tid, .. } => self.note_of(*tid, record),
            Record::Executed { tid, .. } => self.note_of(*tid, record),
            Record::Decided { tid, .. } => self.note_of(*tid, record),
            Record::Forced { tid } => self.note_of(*tid, record),
        }
    }

    /// Notes a record of this id behind the others.
    fn note_of(&mut self, tid: Tid, record: &'a Record) -> Result<(), NoMemory>
        requires { HasTid tid record.now }
        ensures { (older : List Record) → TableTells self.old older
            → OnOk result (TableTells self.new (record.now ∷ older)) }
    {
        let known = after(self.of(tid), record);
        self.known.insert(id_key(tid), known)?;
        Ok(())
    }
}

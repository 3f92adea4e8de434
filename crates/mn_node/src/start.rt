ghost use Rattle.std.specs.Prelude.{◌≡◌, ◌≢◌, ◌≤◌, ◌<◌, ◌*◌, ℕ, List, IfOk, OnOk, IsErrOf};
ghost use Rattle.std.specs.Prelude.{reverse};
ghost use Rattle.std.specs.List.{AllByRecursion};
ghost use Rattle.mn_io.specs.Faults.{Rose};
ghost use Rattle.mn_io.specs.DiskModel.{LeavesOnly, DiskStays};
ghost use Rattle.mn_mini.specs.Laws.{PartsAreApart};
ghost use Rattle.mn_mini.specs.Node.{held_parts};
ghost use Rattle.mn_mini.specs.RecordGrammar.{IsRecord};
ghost use Rattle.mn_redo.specs.Appender.{IsLogOf};
ghost use Rattle.mn_redo.specs.Grammar.{Stands};
ghost use Rattle.mn_redo.specs.Redo.{HasHeader, StandsFor};
ghost use Rattle.mn_redo.specs.declared.redo.Phase.TheVariants.{Started, Closing};
ghost use Rattle.mn_node.specs.declared.start.StartCause.TheVariants as causes;
ghost use Rattle.mn_node.specs.Node.{LogKeepsDisk, IsNodeUp, bodies_of};
ghost use Rattle.mn_node.specs.State.{AreRecords, IsFirstBadBody};

use crate::memory::Memory;
use crate::replay::memory_of;
use mn_base::NoMemory;
use mn_io::{Disk, Fault};
use mn_mini::{Record, RecordError};
use mn_redo::{Appender, Redo};
use std::alloc::{AllocFailed, Global};

/// Why a node wasn't started.
#[derive(Clone, Copy, Debug, PartialEq, Eq)]
pub enum StartCause {
    /// The disk failed.
    Fault,
    /// A body of the log is no record; the place of its gate on the disk.
    Damaged { at: u64 },
    NoMemory,
}

impl From<NoMemory> for StartCause {
    ghost use Rattle.std.specs.Prelude.{◌≡◌};
    ghost use Rattle.mn_node.specs.declared.start.StartCause.TheVariants as causes;

    ghost from_gives = { λ _ e. e ≡ causes.NoMemory };

    fn from(_error: NoMemory) -> Self {
        StartCause::NoMemory
    }
}

impl<T: Drop> From<AllocFailed<T>> for StartCause {
    ghost use Rattle.std.specs.Prelude.{◌≡◌};
    ghost use Rattle.mn_node.specs.declared.start.StartCause.TheVariants as causes;

    ghost from_gives = { λ _ e. e ≡ causes.NoMemory };

    fn from(_error: AllocFailed<T>) -> Self {
        StartCause::NoMemory
    }
}

impl From<Fault> for StartCause {
    ghost use Rattle.std.specs.Prelude.{◌≡◌};
    ghost use Rattle.mn_node.specs.declared.start.StartCause.TheVariants as causes;

    ghost from_gives = { λ _ e. e ≡ causes.Fault };

    fn from(_error: Fault) -> Self {
        StartCause::Fault
    }
}

/// The records that the bodies of a log spell.
pub fn records_of<D: Disk>(alloc: Global, redo: &Redo<D>) -> Result<Vec<Record>, StartCause>
    requires going { redo.now.phase ≢ Closing }
    ensures records { IfOk result (λ records. AreRecords redo.now.bodies records.items) }
    ensures damaged { (at : ℕ) → IsErrOf result (causes.Damaged at)
        → IsFirstBadBody redo.now.start redo.now.bodies at }
    ensures no_fault { IsErrOf result causes.Fault → ⊥ }
{
    let mut records = Vec::new(alloc);
    for number in 0..redo.count() {
        match Record::read(alloc, redo.body(number)) {
            Ok(record) => records.push(record)?,
            Err(RecordError::BadRecord) => {
                return Err(StartCause::Damaged {
                    at: redo.gate(number),
                });
            }
            Err(RecordError::NoMemory) => return Err(StartCause::NoMemory),
        }
    }
    Ok(records)
}

/// Makes room for a decision of each held part in the log, and starts it.
pub fn start_log<D: Disk>(redo: &mut Appender<D>, held: usize) -> Result<(), StartCause>
    requires going { redo.old.phase ≢ Closing }
    ensures started { OnOk result (redo.new.phase ≡ Started) }
    ensures log { (bodies : List (List ℕ)) → IsLogOf D.state redo.old bodies
        → OnOk result (IsLogOf D.state redo.new bodies) }
    ensures spare_bodies { OnOk result (held ≤ redo.new.spare_bodies) }
    ensures spare_bytes { OnOk result (11 * held ≤ redo.new.spare_bytes) }
    ensures header { OnOk result ((D.state redo.new.disk).honest
        → HasHeader (D.state redo.new.disk)) }
    ensures stands { (bodies : List (List ℕ)) → IsLogOf D.state redo.old bodies
        → OnOk result ((D.state redo.new.disk).honest
        → StandsFor (D.state redo.new.disk) redo.old.node redo.old.nodes bodies) }
    ensures keeps { (bodies : List (List ℕ)) → IsLogOf D.state redo.old bodies
        → ((D.state redo.old.disk).honest
        → StandsFor (D.state redo.old.disk) redo.old.node redo.old.nodes bodies)
        → (D.state redo.new.disk).honest
        → StandsFor (D.state redo.new.disk) redo.old.node redo.old.nodes bodies }
    ensures moments { (bodies : List (List ℕ)) → IsLogOf D.state redo.old bodies
        → (D.state redo.old.disk).honest
        → StandsFor (D.state redo.old.disk) redo.old.node redo.old.nodes bodies
        → LeavesOnly (D.state redo.old.disk) (D.state redo.new.disk)
        (λ c. Stands redo.old.node redo.old.nodes c bodies) }
    ensures rests { redo.old.phase ≡ Started → (D.state redo.old.disk).honest
        → DiskStays (D.state redo.old.disk) (D.state redo.new.disk) }
    ensures continues { LogKeepsDisk D.state D.faults redo.old redo.new }
    ensures fault { IsErrOf result causes.Fault
        → Rose (D.faults redo.old.disk) (D.faults redo.new.disk) }
    ensures not_damaged { (at : ℕ) → IsErrOf result (causes.Damaged at) → ⊥ }
{
    if held > 4_294_967_295 {
        return Err(StartCause::NoMemory);
    }
    if redo.reserve(held as u32, 11 * held).is_err() {
        return Err(StartCause::NoMemory);
    }
    redo.start()?;
    Ok(())
}

/// Makes what a node keeps in memory of its records, which its log has, and makes the log ready for
/// more.
pub fn ready<D: Disk>(
    alloc: Global,
    redo: &mut Appender<D>,
    records: Vec<Record>,
) -> Result<Memory, StartCause>
    requires going { redo.old.phase ≢ Closing }
    requires nodes { 0 < redo.old.nodes }
    requires log { IsLogOf D.state redo.old (bodies_of records.items) }
    requires stands { (D.state redo.old.disk).honest
        → StandsFor (D.state redo.old.disk) redo.old.node redo.old.nodes
        (bodies_of records.items) }
    requires sound { AllByRecursion IsRecord records.items }
    requires apart { PartsAreApart (held_parts (reverse records.items)) }
    ensures up { IfOk result (λ memory. IsNodeUp D.state redo.new memory) }
    ensures header { OnOk result ((D.state redo.new.disk).honest
        → HasHeader (D.state redo.new.disk)) }
    ensures records { IfOk result (λ memory. memory.records.items ≡ records.items) }
    ensures cut { IfOk result (λ memory. memory.cut ≡ 0) }
    ensures node { IfOk result (λ memory. memory.node ≡ redo.old.node) }
    ensures nodes { IfOk result (λ memory. memory.nodes ≡ redo.old.nodes) }
    ensures stands { (D.state redo.new.disk).honest
        → StandsFor (D.state redo.new.disk) redo.old.node redo.old.nodes
        (bodies_of records.items) }
    ensures moments { (D.state redo.old.disk).honest
        → LeavesOnly (D.state redo.old.disk) (D.state redo.new.disk)
        (λ c. Stands redo.old.node redo.old.nodes c (bodies_of records.items)) }
    ensures rests { redo.old.phase ≡ Started → (D.state redo.old.disk).honest
        → DiskStays (D.state redo.old.disk) (D.state redo.new.disk) }
    ensures continues { LogKeepsDisk D.state D.faults redo.old redo.new }
    ensures fault { IsErrOf result causes.Fault
        → Rose (D.faults redo.old.disk) (D.faults redo.new.disk) }
    ensures not_damaged { (at : ℕ) → IsErrOf result (causes.Damaged at) → ⊥ }
{
    let memory = memory_of(alloc, redo.node(), redo.nodes(), records)?;
    start_log(redo, memory.held.len())?;
    Ok(memory)
}

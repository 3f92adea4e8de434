ghost use Rattle.std.specs.Prelude.{◌≡◌, ◌≢◌, ◌<◌, ◌++◌, ◌∷◌, [], ℕ, List, Option, length};
ghost use Rattle.std.specs.Prelude.{reverse};
ghost use Rattle.std.specs.Prelude.{get_or, Some, None, true, false, IfOk, IfErr, OnOk, OnErr};
ghost use Rattle.std.specs.Prelude.{MatchOption, ⊤};
ghost use Rattle.std.specs.List.{AllByRecursion};
ghost use Rattle.mn_io.specs.DiskModel.{LeavesOnly, NoneNew, DiskStays, WritesNothing};
ghost use Rattle.mn_redo.specs.Appender.{IsLogOf};
ghost use Rattle.mn_redo.specs.Grammar.{Stands};
ghost use Rattle.mn_redo.specs.Redo.{HasHeader, StandsFor};
ghost use Rattle.mn_redo.specs.declared.redo.Phase.TheVariants.{Closing, Started};
ghost use Rattle.mn_mini.specs.Laws.{PartsAreApart};
ghost use Rattle.mn_mini.specs.Node.{held_parts};
ghost use Rattle.mn_mini.specs.RecordGrammar.{IsRecord, record_bytes};
ghost use Rattle.mn_mini.specs.Short.{short};
ghost use Rattle.mn_mini.specs.declared.record.Record.{Record};
ghost use Rattle.mn_node.specs.declared.restart.RestartError.TheVariants as errors;
ghost use Rattle.mn_node.specs.Node.{LogKeepsDisk, IsNodeUp, IsEither, KeepsNodeNumbers};
ghost use Rattle.mn_node.specs.Node.{StandsForEither, added_to, bodies_of, on_disk};
ghost use Rattle.mn_node.specs.Memory.{HasFront};
ghost use Rattle.mn_node.specs.State.{FitsMemory, MayBeFound, left_behind_list, list_of};
ghost use Rattle.mn_node.specs.State.{other_list_of};
ghost use Rattle.mn_node.specs.Restart.{TellsOtherRecords, TellsDifferenceAt, FailsRestart};
ghost use Rattle.mn_node.specs.Restart.{AreBodiesWithPending, FailsWithoutDamage, IsSpelledAt};
ghost use Rattle.mn_node.specs.Restart.{BeginsWithRecords, AreBodiesWithOrWithout, DiffersFirstAt};
ghost use Rattle.mn_node.specs.Restart.{IsDamage, TellsBadBody, RestartLeaves};

use crate::held::copy_of;
use crate::memory::{Memory, Shortened};
use crate::start::{StartCause, start_log};
use mn_base::{NoMemory, TryCopy};
use mn_io::Disk;
use mn_mini::{Record, RecordError, short_is_like_whole, shorten};
use mn_redo::{Appender, Front, OpenCause, damaged_or_not, one_list};
use std::alloc::{AllocFailed, Global};

/// Why a node wasn't restarted. It is still down.
#[derive(Debug, Drop)]
pub enum RestartError {
    /// The disk failed.
    Fault,
    /// The disk has other records than the node: record `at`, from 0, is the first that differs,
    /// with the node's and the disk's, as far as they have one. Or, with both absent, it is no log
    /// of records: `at` is the place of the fault, 0 for a disk that reads as fresh. An honest disk
    /// never shows it.
    Damaged {
        at: u64,
        kept: Option<Record>,
        found: Option<Record>,
    },
    NoMemory,
}

impl From<NoMemory> for RestartError {
    ghost use Rattle.std.specs.Prelude.{◌≡◌};
    ghost use Rattle.mn_node.specs.declared.restart.RestartError.TheVariants as errors;

    ghost from_gives = { λ _ e. e ≡ errors.NoMemory };

    fn from(_error: NoMemory) -> Self {
        RestartError::NoMemory
    }
}

impl<T: Drop> From<AllocFailed<T>> for RestartError {
    ghost use Rattle.std.specs.Prelude.{◌≡◌};
    ghost use Rattle.mn_node.specs.declared.restart.RestartError.TheVariants as errors;

    ghost from_gives = { λ _ e. e ≡ errors.NoMemory };

    fn from(_error: AllocFailed<T>) -> Self {
        RestartError::NoMemory
    }
}

/// What a log that can't be read again makes of a restart.
fn error_of(cause: OpenCause) -> RestartError
    ensures { result ≡ Rattle.mn_node.specs.Restart.error_of cause }
{
    match cause {
        OpenCause::Fault => RestartError::Fault,
        OpenCause::Damaged { at } => RestartError::Damaged {
            at,
            kept: None,
            found: None,
        },
        OpenCause::NoMemory => RestartError::NoMemory,
    }
}

/// A started node's disk that reads as fresh has lost its header.
fn no_log() -> RestartError
    ensures { result ≡ errors.Damaged 0 None None }
{
    RestartError::Damaged {
        at: 0,
        kept: None,
        found: None,
    }
}

/// Whether a body of the log is the record's.
fn spells(alloc: Global, log: &Front, number: u32, kept: &Record) -> Result<bool, NoMemory>
    requires number { number < length log.now.bodies }
    requires sound { IsRecord kept.now }
    ensures yes { IfOk result (λ same. same ≡ true
        → get_or log.now.bodies number [] ≡ record_bytes kept.now) }
    ensures no { IfOk result (λ same. same ≡ false
        → get_or log.now.bodies number [] ≢ record_bytes kept.now) }
{
    let bytes = kept.write(alloc)?;
    Ok(bytes.as_slice() == log.body(number))
}

/// A record of a list in two pieces.
fn record_in<'a>(first: &'a [Record], rest: &'a [Record], number: usize) -> &'a Record
    requires { number < length (first.now ++ rest.now) }
    ensures { result.now ≡ get_or (first.now ++ rest.now) number result.now }
{
    if number < first.len() {
        return &first[number];
    }
    let behind = number - first.len();
    &rest[behind]
}

/// How many records a list in two pieces has. NoMemory where they can't be counted.
fn count_of(first: &[Record], rest: &[Record]) -> Result<usize, NoMemory>
    ensures { IfOk result (λ count. count ≡ length (first.now ++ rest.now)) }
{
    match first.len().checked_add(rest.len()) {
        Some(count) => Ok(count),
        None => Err(NoMemory),
    }
}

/// The number of the first of these records, a list in two pieces, that the log has not.
fn first_difference(
    alloc: Global,
    log: &Front,
    first: &[Record],
    rest: &[Record],
) -> Result<Option<usize>, NoMemory>
    requires sound { AllByRecursion IsRecord (first.now ++ rest.now) }
    ensures { IfOk result (λ found.
        MatchOption found (BeginsWithRecords log.now.bodies (first.now ++ rest.now))
        (λ at. (at < length (first.now ++ rest.now))
        × DiffersFirstAt log.now.bodies (first.now ++ rest.now) at)) }
{
    let count = log.count() as usize;
    let total = count_of(first, rest)?;
    for number in 0..total {
        if number >= count {
            return Ok(Some(number));
        }
        if !spells(alloc, log, number as u32, record_in(first, rest, number))? {
            return Ok(Some(number));
        }
    }
    Ok(None)
}

/// The record that a body of the log spells, if there is that body.
fn found_at(alloc: Global, log: &Front, at: usize) -> Result<Option<Record>, RestartError>
    ensures found { IfOk result (IsSpelledAt log.now.bodies at) }
    ensures unread { IfErr result (TellsBadBody log.now) }
{
    if at >= log.count() as usize {
        return Ok(None);
    }
    match Record::read(alloc, log.body(at as u32)) {
        Ok(record) => Ok(Some(record)),
        Err(RecordError::BadRecord) => Err(RestartError::Damaged {
            at: log.gate(at as u32),
            kept: None,
            found: None,
        }),
        Err(RecordError::NoMemory) => Err(RestartError::NoMemory),
    }
}

/// What a log says that differs at this number from the node's record, if it has one.
fn differs(alloc: Global, log: &Front, at: usize, kept: Option<Record>) -> RestartError
    ensures { TellsDifferenceAt log.now at kept result }
{
    match found_at(alloc, log, at) {
        Ok(found) => RestartError::Damaged {
            at: at as u64,
            kept,
            found,
        },
        Err(error) => error,
    }
}

/// Compares what the log has behind a list in two pieces with the record that may be there. It has
/// something.
fn compare_rest(
    alloc: Global,
    log: &Front,
    first: &[Record],
    rest: &[Record],
    pending: &Option<Record>,
) -> Result<bool, RestartError>
    requires sound { AllByRecursion IsRecord (added_to (first.now ++ rest.now) pending.now) }
    requires front { BeginsWithRecords log.now.bodies (first.now ++ rest.now) }
    requires more { length (first.now ++ rest.now) < length log.now.bodies }
    ensures more { IfOk result (λ there. there ≡ true) }
    ensures listed { OnOk result
        (AreBodiesWithPending log.now.bodies (first.now ++ rest.now) pending.now) }
    ensures differs { IfErr result (TellsOtherRecords log.now (first.now ++ rest.now) pending.now) }
{
    let total = log.count();
    let count = count_of(first, rest)?;
    let Some(left) = pending else {
        return Err(differs(alloc, log, count, None));
    };
    if !spells(alloc, log, count as u32, left)? {
        return Err(differs(alloc, log, count, None));
    }
    if total as usize > count + 1 {
        return Err(differs(alloc, log, count + 1, None));
    }
    Ok(true)
}

/// Compares the log with a list in two pieces and the record that may be behind it. Whether that is
/// there. The log's bodies go, so that the memory is made anew in their place.
fn compare(
    alloc: Global,
    log: Front,
    first: &[Record],
    rest: &[Record],
    pending: &Option<Record>,
) -> Result<bool, RestartError>
    requires sound { AllByRecursion IsRecord (added_to (first.now ++ rest.now) pending.now) }
    ensures listed { IfOk result
        (AreBodiesWithOrWithout log.bodies (first.now ++ rest.now) pending.now) }
    ensures differs { IfErr result (TellsOtherRecords log (first.now ++ rest.now) pending.now) }
{
    if let Some(at) = first_difference(alloc, &log, first, rest)? {
        let kept = record_in(first, rest, at).try_copy(alloc)?;
        return Err(differs(alloc, &log, at, Some(kept)));
    }
    let total = count_of(first, rest)?;
    if log.count() as usize == total {
        return Ok(false);
    }
    compare_rest(alloc, &log, first, rest, pending)
}

/// Compares the log with a node's list, of which the first records are shortened.
fn compare_listed(
    alloc: Global,
    log: Front,
    memory: &Memory,
    pending: &Option<Record>,
) -> Result<bool, RestartError>
    requires front { HasFront memory.now }
    requires sound { AllByRecursion IsRecord (added_to memory.now.records.items pending.now) }
    ensures listed { IfOk result
        (AreBodiesWithOrWithout log.bodies (on_disk memory.now) pending.now) }
    ensures differs { IfErr result (TellsOtherRecords log (on_disk memory.now) pending.now) }
{
    short_is_like_whole();
    let rest = &memory.records[memory.cut..];
    compare(alloc, log, &memory.front.list, rest, pending)
}

/// Whether the log's bodies are those of these records, and no more.
fn has_just(alloc: Global, log: &Front, records: &[Record]) -> Result<bool, NoMemory>
    requires sound { AllByRecursion IsRecord records.now }
    ensures yes { IfOk result (λ same. same ≡ true → log.now.bodies ≡ bodies_of records.now) }
    ensures no { IfOk result (λ same. same ≡ false → log.now.bodies ≢ bodies_of records.now) }
{
    if log.count() as usize != records.len() {
        return Ok(false);
    }
    match first_difference(alloc, log, records, &[])? {
        None => Ok(true),
        Some(_) => Ok(false),
    }
}

/// The shortened list of all records, if a log has it whose shortening failed. Else it has the one
/// from before.
fn compare_shortened(
    alloc: Global,
    log: Front,
    memory: &Memory,
) -> Result<Option<Vec<Record>>, RestartError>
    requires front { HasFront memory.now }
    requires sound { AllByRecursion IsRecord memory.now.records.items }
    ensures found { IfOk result (λ found.
        MatchOption found (log.bodies ≡ bodies_of (on_disk memory.now))
        (λ list. log.bodies ≡ bodies_of (short memory.now.records.items))) }
    ensures list { IfOk result (λ found.
        MatchOption found ⊤ (λ list. list.items ≡ short memory.now.records.items)) }
    ensures differs { IfErr result (TellsOtherRecords log (on_disk memory.now) None) }
    ensures other { IfErr result (λ error. IsDamage error
        → log.bodies ≢ bodies_of (short memory.now.records.items)) }
{
    short_is_like_whole();
    let list = shorten(alloc, &memory.records)?.into_vec();
    if has_just(alloc, &log, &list)? {
        return Ok(Some(list));
    }
    let _as_before = compare_listed(alloc, log, memory, &None)?;
    Ok(None)
}

/// Which list the log of a node has that is down.
#[derive(Drop)]
enum Found {
    /// Its own.
    Own,
    /// Its own with the pending record behind it.
    Longer,
    /// All records, shortened: this list.
    AllShortened { list: Vec<Record> },
}

/// Which list the log of a node has that is down: its own, or the other that the disk may have.
fn find_list(
    alloc: Global,
    log: Front,
    memory: &Memory,
    pending: &Option<Record>,
    cutting: bool,
) -> Result<Found, RestartError>
    requires front { HasFront memory.now }
    requires sound { AllByRecursion IsRecord (added_to memory.now.records.items pending.now) }
    ensures found { IfOk result
        (λ found. log.bodies ≡ bodies_of (list_of memory.now pending.now found)) }
    ensures fits { IfOk result (FitsMemory memory.now pending.now) }
    ensures may { IfOk result (MayBeFound cutting) }
    ensures differs { IfErr result (TellsOtherRecords log (on_disk memory.now)
        (left_behind_list cutting pending.now)) }
    ensures neither { IfErr result (λ error. IsDamage error → log.bodies
        ≢ bodies_of (other_list_of memory.now pending.now cutting)) }
{
    if cutting {
        return match compare_shortened(alloc, log, memory)? {
            Some(list) => Ok(Found::AllShortened { list }),
            None => Ok(Found::Own),
        };
    }
    if compare_listed(alloc, log, memory, pending)? {
        return Ok(Found::Longer);
    }
    Ok(Found::Own)
}

/// The pending record was found behind the node's list.
fn is_longer(found: &Found) -> bool
    ensures { result ≡ Rattle.mn_node.specs.State.is_longer found.now }
{
    match found {
        Found::Longer => true,
        _ => false,
    }
}

/// Makes a node's memory anew from its records, which the log has, and makes the log ready for
/// more.
fn wake<D: Disk>(
    alloc: Global,
    redo: &mut Appender<D>,
    memory: &mut Memory,
) -> Result<(), RestartError>
    requires going { redo.old.phase ≢ Closing }
    requires nodes { 0 < memory.old.nodes }
    requires log { IsLogOf D.state redo.old (bodies_of (on_disk memory.old)) }
    requires front { HasFront memory.old }
    requires sound { AllByRecursion IsRecord memory.old.records.items }
    requires apart { PartsAreApart (held_parts (reverse memory.old.records.items)) }
    requires stands { (D.state redo.old.disk).honest
        → StandsFor (D.state redo.old.disk) redo.old.node redo.old.nodes
        (bodies_of (on_disk memory.old)) }
    ensures up { OnOk result (IsNodeUp D.state redo.new memory.new) }
    ensures records { memory.new.records.items ≡ memory.old.records.items }
    ensures cut { memory.new.cut ≡ memory.old.cut }
    ensures front { memory.new.front ≡ memory.old.front }
    ensures stands { (D.state redo.new.disk).honest
        → StandsFor (D.state redo.new.disk) redo.old.node redo.old.nodes
        (bodies_of (on_disk memory.old)) }
    ensures moments { (D.state redo.old.disk).honest
        → LeavesOnly (D.state redo.old.disk) (D.state redo.new.disk)
        (λ c. Stands redo.old.node redo.old.nodes c (bodies_of (on_disk memory.old))) }
    ensures rests { redo.old.phase ≡ Started → (D.state redo.old.disk).honest
        → DiskStays (D.state redo.old.disk) (D.state redo.new.disk) }
    ensures continues { LogKeepsDisk D.state D.faults redo.old redo.new }
    ensures same { KeepsNodeNumbers memory.old memory.new }
    ensures cause { IfErr result (FailsWithoutDamage D.faults redo.old.disk redo.new.disk) }
{
    memory.rebuild(alloc)?;
    match start_log(redo, memory.held.len()) {
        Ok(()) => Ok(()),
        Err(StartCause::Fault) => Err(RestartError::Fault),
        Err(_) => Err(RestartError::NoMemory),
    }
}

/// The same with one record more, which the log has too.
fn wake_with<D: Disk>(
    alloc: Global,
    redo: &mut Appender<D>,
    memory: &mut Memory,
    left: &Record,
) -> Result<(), RestartError>
    requires going { redo.old.phase ≢ Closing }
    requires nodes { 0 < memory.old.nodes }
    requires log { IsLogOf D.state redo.old
        (bodies_of (on_disk memory.old ++ left.now ∷ [])) }
    requires front { HasFront memory.old }
    requires sound { AllByRecursion IsRecord (memory.old.records.items ++ left.now ∷ []) }
    requires apart { PartsAreApart
        (held_parts (reverse (memory.old.records.items ++ left.now ∷ []))) }
    requires stands { (D.state redo.old.disk).honest
        → StandsFor (D.state redo.old.disk) redo.old.node redo.old.nodes
        (bodies_of (on_disk memory.old ++ left.now ∷ [])) }
    ensures up { OnOk result (IsNodeUp D.state redo.new memory.new) }
    ensures records { OnOk result
        (memory.new.records.items ≡ memory.old.records.items ++ left.now ∷ []) }
    ensures cut { memory.new.cut ≡ memory.old.cut }
    ensures front { memory.new.front ≡ memory.old.front }
    ensures before { OnErr result (memory.new.records.items ≡ memory.old.records.items) }
    ensures stands { (D.state redo.new.disk).honest
        → StandsFor (D.state redo.new.disk) redo.old.node redo.old.nodes
        (bodies_of (on_disk memory.old ++ left.now ∷ [])) }
    ensures moments { (D.state redo.old.disk).honest
        → LeavesOnly (D.state redo.old.disk) (D.state redo.new.disk)
        (λ c. Stands redo.old.node redo.old.nodes c
        (bodies_of (on_disk memory.old ++ left.now ∷ []))) }
    ensures rests { redo.old.phase ≡ Started → (D.state redo.old.disk).honest
        → DiskStays (D.state redo.old.disk) (D.state redo.new.disk) }
    ensures continues { LogKeepsDisk D.state D.faults redo.old redo.new }
    ensures same { KeepsNodeNumbers memory.old memory.new }
    ensures cause { IfErr result (FailsWithoutDamage D.faults redo.old.disk redo.new.disk) }
{
    let copy = left.try_copy(alloc)?;
    memory.records.push(copy)?;
    match wake(alloc, redo, memory) {
        Ok(()) => Ok(()),
        Err(error) => {
            let _copy = memory.records.pop();
            Err(error)
        }
    }
}

/// The same with all records shortened, as this list, which the log has.
fn wake_shortened<D: Disk>(
    alloc: Global,
    redo: &mut Appender<D>,
    memory: &mut Memory,
    list: Vec<Record>,
) -> Result<(), RestartError>
    requires going { redo.old.phase ≢ Closing }
    requires nodes { 0 < memory.old.nodes }
    requires log { IsLogOf D.state redo.old (bodies_of (short memory.old.records.items)) }
    requires front { HasFront memory.old }
    requires list { list.items ≡ short memory.old.records.items }
    requires sound { AllByRecursion IsRecord memory.old.records.items }
    requires apart { PartsAreApart (held_parts (reverse memory.old.records.items)) }
    requires stands { (D.state redo.old.disk).honest
        → StandsFor (D.state redo.old.disk) redo.old.node redo.old.nodes
        (bodies_of (short memory.old.records.items)) }
    ensures up { OnOk result (IsNodeUp D.state redo.new memory.new) }
    ensures records { memory.new.records.items ≡ memory.old.records.items }
    ensures cut { OnOk result (memory.new.cut ≡ length memory.old.records.items) }
    ensures before { OnErr result (memory.new.cut ≡ memory.old.cut) }
    ensures front { OnErr result (memory.new.front ≡ memory.old.front) }
    ensures stands { (D.state redo.new.disk).honest
        → StandsFor (D.state redo.new.disk) redo.old.node redo.old.nodes
        (bodies_of (short memory.old.records.items)) }
    ensures moments { (D.state redo.old.disk).honest
        → LeavesOnly (D.state redo.old.disk) (D.state redo.new.disk)
        (λ c. Stands redo.old.node redo.old.nodes c
        (bodies_of (short memory.old.records.items))) }
    ensures rests { redo.old.phase ≡ Started → (D.state redo.old.disk).honest
        → DiskStays (D.state redo.old.disk) (D.state redo.new.disk) }
    ensures continues { LogKeepsDisk D.state D.faults redo.old redo.new }
    ensures same { KeepsNodeNumbers memory.old memory.new }
    ensures cause { IfErr result (FailsWithoutDamage D.faults redo.old.disk redo.new.disk) }
{
    memory.rebuild(alloc)?;
    let held = copy_of(alloc, &memory.held)?;
    match start_log(redo, memory.held.len()) {
        Ok(()) => {
            memory.cut = memory.records.len();
            memory.front = Shortened { list, held };
            Ok(())
        }
        Err(StartCause::Fault) => Err(RestartError::Fault),
        Err(_) => Err(RestartError::NoMemory),
    }
}

/// Makes a node's memory anew from its records and, where the log has it, the record that may be
/// behind them.
fn wake_found<D: Disk>(
    alloc: Global,
    redo: &mut Appender<D>,
    memory: &mut Memory,
    pending: &Option<Record>,
    found: Found,
) -> Result<(), RestartError>
    requires going { redo.old.phase ≢ Closing }
    requires nodes { 0 < memory.old.nodes }
    requires front { HasFront memory.old }
    requires found { FitsMemory memory.old pending.now found }
    requires log { IsLogOf D.state redo.old (bodies_of (list_of memory.old pending.now found)) }
    requires sound { AllByRecursion IsRecord (added_to memory.old.records.items pending.now) }
    requires apart { PartsAreApart (held_parts (reverse memory.old.records.items)) }
    requires apart_left { PartsAreApart
        (held_parts (reverse (added_to memory.old.records.items pending.now))) }
    requires stands { (D.state redo.old.disk).honest
        → StandsFor (D.state redo.old.disk) redo.old.node redo.old.nodes
        (bodies_of (list_of memory.old pending.now found)) }
    ensures up { OnOk result (IsNodeUp D.state redo.new memory.new) }
    ensures records { OnOk result (RestartLeaves memory.old.records.items pending.now
        memory.new.records.items (Rattle.mn_node.specs.State.is_longer found)) }
    ensures list { OnOk result (on_disk memory.new ≡ list_of memory.old pending.now found) }
    ensures before { OnErr result (memory.new.records.items ≡ memory.old.records.items) }
    ensures cut { OnErr result (memory.new.cut ≡ memory.old.cut) }
    ensures front { OnErr result (memory.new.front ≡ memory.old.front) }
    ensures uncut { MayBeFound false found → OnOk result (memory.new.cut ≡ memory.old.cut) }
    ensures stands { (D.state redo.new.disk).honest
        → StandsFor (D.state redo.new.disk) redo.old.node redo.old.nodes
        (bodies_of (list_of memory.old pending.now found)) }
    ensures moments { (D.state redo.old.disk).honest
        → LeavesOnly (D.state redo.old.disk) (D.state redo.new.disk)
        (λ c. Stands redo.old.node redo.old.nodes c
        (bodies_of (list_of memory.old pending.now found))) }
    ensures rests { redo.old.phase ≡ Started → (D.state redo.old.disk).honest
        → DiskStays (D.state redo.old.disk) (D.state redo.new.disk) }
    ensures continues { LogKeepsDisk D.state D.faults redo.old redo.new }
    ensures same { KeepsNodeNumbers memory.old memory.new }
    ensures cause { IfErr result (FailsWithoutDamage D.faults redo.old.disk redo.new.disk) }
{
    match found {
        Found::Own => wake(alloc, redo, memory),
        Found::AllShortened { list } => wake_shortened(alloc, redo, memory, list),
        Found::Longer => match pending {
            None => unreachable!(),
            Some(left) => wake_with(alloc, redo, memory, left),
        },
    }
}

/// Reads the log of a node that is down again, and makes its memory anew. Whether the record that
/// may have been behind the others is there. With `cutting` the disk failed while the log was
/// shortened, and the record is not there.
pub fn back<D: Disk>(
    alloc: Global,
    redo: &mut Appender<D>,
    memory: &mut Memory,
    pending: &Option<Record>,
    cutting: bool,
) -> Result<bool, RestartError>
    requires nodes { 0 < memory.old.nodes }
    requires front { HasFront memory.old }
    requires sound { AllByRecursion IsRecord (added_to memory.old.records.items pending.now) }
    requires apart { PartsAreApart (held_parts (reverse memory.old.records.items)) }
    requires apart_left { PartsAreApart
        (held_parts (reverse (added_to memory.old.records.items pending.now))) }
    requires stands { (D.state redo.old.disk).honest
        → StandsForEither (D.state redo.old.disk) redo.old.node redo.old.nodes
        (on_disk memory.old) (other_list_of memory.old pending.now cutting) }
    requires header { (D.state redo.old.disk).honest → HasHeader (D.state redo.old.disk) }
    ensures up { OnOk result (IsNodeUp D.state redo.new memory.new) }
    ensures records { IfOk result
        (RestartLeaves memory.old.records.items pending.now memory.new.records.items) }
    ensures cutting { cutting ≡ true → IfOk result (λ there. there ≡ false) }
    ensures before { OnErr result (memory.new.records.items ≡ memory.old.records.items) }
    ensures cut { OnErr result (memory.new.cut ≡ memory.old.cut) }
    ensures front { OnErr result (memory.new.front ≡ memory.old.front) }
    ensures uncut { cutting ≡ false → OnOk result (memory.new.cut ≡ memory.old.cut) }
    ensures stands { (D.state redo.new.disk).honest
        → StandsForEither (D.state redo.new.disk) redo.old.node redo.old.nodes
        (on_disk memory.old) (other_list_of memory.old pending.now cutting) }
    ensures moments { (D.state redo.old.disk).honest
        → LeavesOnly (D.state redo.old.disk) (D.state redo.new.disk)
        (IsEither redo.old.node redo.old.nodes (on_disk memory.old)
        (other_list_of memory.old pending.now cutting)) }
    ensures unwritten { (D.state redo.old.disk).honest
        → WritesNothing (D.state redo.old.disk) (D.state redo.new.disk) }
    ensures images { (D.state redo.old.disk).honest
        → NoneNew (D.state redo.old.disk) (D.state redo.new.disk) }
    ensures keeps { (D.state redo.old.disk).honest → (bodies : List (List ℕ))
        → StandsFor (D.state redo.old.disk) redo.old.node redo.old.nodes bodies
        → StandsFor (D.state redo.new.disk) redo.old.node redo.old.nodes bodies }
    ensures found { (D.state redo.old.disk).honest → (bodies : List (List ℕ))
        → StandsFor (D.state redo.old.disk) redo.old.node redo.old.nodes bodies
        → OnOk result (bodies_of (on_disk memory.new) ≡ bodies) }
    ensures continues { LogKeepsDisk D.state D.faults redo.old redo.new }
    ensures same { KeepsNodeNumbers memory.old memory.new }
    ensures cause { IfErr result (FailsRestart D.state D.faults redo.old.disk redo.new.disk
        (on_disk memory.old) (left_behind_list cutting pending.now)) }
{
    one_list();
    damaged_or_not();
    let log = match redo.reopen(alloc) {
        Ok(log) => log,
        Err(cause) => return Err(error_of(cause)),
    };
    if redo.is_fresh() {
        return Err(no_log());
    }
    let found = match find_list(alloc, log, memory, pending, cutting) {
        Ok(found) => found,
        Err(error) => return Err(error),
    };
    let there = is_longer(&found);
    wake_found(alloc, redo, memory, pending, found)?;
    Ok(there)
}

//! How a record gets into the log.
ghost use Rattle.std.specs.Prelude.{◌≡◌, ◌≢◌, ◌≤◌, ◌<◌, ◌+◌, ◌*◌, ◌^◌, ℕ, List, length, OnOk};
ghost use Rattle.std.specs.Prelude.{Some, None, true, false, vec_len};
ghost use Rattle.mn_mini.specs.declared.record.Record.{Record};
ghost use Rattle.mn_mini.specs.RecordGrammar.{record_bytes, IsRecord};
ghost use Rattle.mn_mini.specs.Short.{short};
ghost use Rattle.mn_redo.specs.Grammar.{HaveSizes, IsBeforeOrAfter, total};
ghost use Rattle.mn_redo.specs.declared.redo.Phase.TheVariants.{Started};
ghost use Rattle.mn_node.specs.declared.logging.Logging.TheVariants.{Logged, Unshortened};
ghost use Rattle.mn_node.specs.Memory.{IsFront};
ghost use Rattle.mn_node.specs.Node.{IsNodeUp, IsLogFor, HasOneBodyMore, IsUpToWithOrWithout};
ghost use Rattle.mn_node.specs.Node.{CrashLeavesOnly, bodies_of};
ghost use Rattle.mn_node.specs.Node.{DiskStaysIfHonest, StopLeaves, HasRoomForRecord, LogKeepsDisk};
ghost use Rattle.mn_node.specs.Node.{KeepsNodeNumbers, LoggingLeaves};

use crate::memory::Memory;
use crate::shortening::{Due, due_list};
use mn_base::{NoMemory, StopAt};
use mn_io::Disk;
use mn_mini::Record;
use mn_redo::Appender;
use std::alloc::Global;

/// Makes room for one record more, of so many bytes, and so many ranges, beside a decision of each
/// held part; and beside these for as many bodies and bytes more, which a shortening takes.
pub fn make_room<D: Disk>(
    redo: &mut Appender<D>,
    memory: &mut Memory,
    bytes: usize,
    ranges: usize,
    more_bodies: usize,
    more_bytes: usize,
) -> Result<(), NoMemory>
    requires up { IsNodeUp D.state redo.old memory.old }
    requires few { more_bytes ≤ 1_000_000_000_000 }
    ensures up { IsNodeUp D.state redo.new memory.new }
    ensures more { OnOk result (HasRoomForRecord redo.new memory.new bytes ranges) }
    ensures bodies { OnOk result
        (vec_len memory.new.held + 2 + more_bodies ≤ redo.new.spare_bodies) }
    ensures bytes { OnOk result
        (11 * (vec_len memory.new.held + 1) + bytes + more_bytes ≤ redo.new.spare_bytes) }
    ensures records { memory.new.records.items ≡ memory.old.records.items }
    ensures cut { memory.new.cut ≡ memory.old.cut }
    ensures front { memory.new.front ≡ memory.old.front }
    ensures held { vec_len memory.new.held ≡ vec_len memory.old.held }
    ensures number { redo.new.number ≡ redo.old.number }
    ensures tail { redo.new.tail ≡ redo.old.tail }
    ensures continues { LogKeepsDisk D.state D.faults redo.old redo.new }
    ensures rests { DiskStaysIfHonest D.state redo.old.disk redo.new.disk }
    ensures same { KeepsNodeNumbers memory.old memory.new }
{
    memory.reserve(ranges)?;
    let held = memory.held.len();
    if bytes > 4_294_967_295 {
        return Err(NoMemory);
    }
    if more_bodies > 4_294_967_293 - held {
        return Err(NoMemory);
    }
    let bodies = (held + 2 + more_bodies) as u32;
    match redo.reserve(bodies, 11 * (held + 1) + bytes + more_bytes) {
        Ok(()) => Ok(()),
        Err(_) => Err(NoMemory),
    }
}

/// Puts a record of these bytes into the log, for which there is room, or stops where that is
/// asked. Whether it is in the log: if not, the node stops.
pub fn append_or_stop<D: Disk>(redo: &mut Appender<D>, body: &[u8], stop: Option<StopAt>) -> bool
    requires started { redo.old.phase ≡ Started }
    requires size { length body.now < 2 ^ 32 }
    requires spare_body { 0 < redo.old.spare_bodies }
    requires spare_bytes { length body.now ≤ redo.old.spare_bytes }
    ensures appended { result ≡ true → (bodies : List (List ℕ)) → IsLogFor D.state redo.old bodies
        → HasOneBodyMore D.state redo.old redo.new bodies body.now }
    ensures unasked { result ≡ true → stop ≡ None }
    ensures tail { result ≡ true → redo.new.tail ≡ redo.old.tail + 5 + length body.now }
    ensures stopped { result ≡ false → (bodies : List (List ℕ)) → IsLogFor D.state redo.old bodies
        → StopLeaves D.state D.faults redo.old.disk redo.new.disk redo.old.node redo.old.nodes
        bodies body.now stop }
    ensures images { (bodies : List (List ℕ)) → IsLogFor D.state redo.old bodies
        → (D.state redo.old.disk).honest → (c : List ℕ) → (D.state redo.new.disk).images c
        → IsBeforeOrAfter redo.old.node redo.old.nodes bodies body.now c }
    ensures continues { LogKeepsDisk D.state D.faults redo.old redo.new }
    ensures moments { (bodies : List (List ℕ)) → IsLogFor D.state redo.old bodies
        → CrashLeavesOnly D.state redo.old.disk redo.new.disk
        (IsBeforeOrAfter redo.old.node redo.old.nodes bodies body.now) }
{
    match stop {
        None => redo.append(body).is_ok(),
        Some(StopAt::Before) => false,
        Some(StopAt::Half) => {
            let _half = redo.write_half(body);
            false
        }
        Some(StopAt::After) => {
            let _whole = redo.append(body);
            false
        }
    }
}

/// What became of a record that was to be logged.
#[derive(Clone, Copy, Debug, PartialEq, Eq)]
pub enum Logging {
    /// There was no memory for it, and nothing was done.
    NoRoom,
    /// The disk failed while the log was shortened.
    Unshortened,
    /// The disk failed, or a stop was asked for.
    Stopped,
    /// It is in the log.
    Logged,
}

/// Makes room for a record of these bytes and for so many ranges, and puts it into the log, or
/// stops where that is asked.
pub fn log_bytes<D: Disk>(
    redo: &mut Appender<D>,
    memory: &mut Memory,
    body: &[u8],
    ranges: usize,
    stop: Option<StopAt>,
) -> Logging
    requires up { IsNodeUp D.state redo.old memory.old }
    ensures leaves { (r : Record) → body.now ≡ record_bytes r
        → LoggingLeaves D.state D.faults redo.old memory.old r ranges stop result redo.new
        memory.new }
    ensures shortens { result ≢ Unshortened }
    ensures tail { result ≡ Logged → redo.new.tail ≡ redo.old.tail + 5 + length body.now }
    ensures continues { LogKeepsDisk D.state D.faults redo.old redo.new }
    ensures moments { (r : Record) → body.now ≡ record_bytes r
        → CrashLeavesOnly D.state redo.old.disk redo.new.disk
        (IsUpToWithOrWithout redo.old.node redo.old.nodes memory.old.records.items (Some r)) }
    ensures same { KeepsNodeNumbers memory.old memory.new }
{
    if make_room(redo, memory, body.len(), ranges, 0, 0).is_err() {
        return Logging::NoRoom;
    }
    if !append_or_stop(redo, body, stop) {
        return Logging::Stopped;
    }
    Logging::Logged
}

/// Puts the shortened list of all records in place of the log's, and a record of these bytes behind
/// it, or stops where that is asked.
fn log_behind<D: Disk>(
    redo: &mut Appender<D>,
    memory: &mut Memory,
    due: Due,
    body: &[u8],
    ranges: usize,
    stop: Option<StopAt>,
) -> Logging
    requires up { IsNodeUp D.state redo.old memory.old }
    requires front { IsFront memory.old.records.items (length memory.old.records.items) due.front }
    requires bodies { due.spelled.bodies.items ≡ bodies_of (short memory.old.records.items) }
    requires sizes { HaveSizes due.spelled.bodies.items }
    requires total { due.spelled.total ≡ total due.spelled.bodies.items }
    requires few { due.spelled.total ≤ 1_000_000_000_000 }
    requires can { redo.old.number ≢ 2 ^ 63 }
    ensures leaves { (r : Record) → body.now ≡ record_bytes r
        → LoggingLeaves D.state D.faults redo.old memory.old r ranges stop result redo.new
        memory.new }
    ensures tail { result ≡ Logged → redo.new.tail ≡ 5 + length body.now }
    ensures continues { LogKeepsDisk D.state D.faults redo.old redo.new }
    ensures moments { (r : Record) → body.now ≡ record_bytes r
        → CrashLeavesOnly D.state redo.old.disk redo.new.disk
        (IsUpToWithOrWithout redo.old.node redo.old.nodes memory.old.records.items (Some r)) }
    ensures same { KeepsNodeNumbers memory.old memory.new }
{
    let list = due.spelled;
    let count = list.bodies.len();
    if count > 4_294_967_295 {
        return Logging::NoRoom;
    }
    if make_room(redo, memory, body.len(), ranges, count + 1, list.total).is_err() {
        return Logging::NoRoom;
    }
    if redo.shorten(&list.bodies).is_err() {
        return Logging::Unshortened;
    }
    memory.cut = memory.records.len();
    memory.front = due.front;
    if !append_or_stop(redo, body, stop) {
        return Logging::Stopped;
    }
    Logging::Logged
}

/// Makes room for a record and so many ranges, and puts it into the log, which is shortened first
/// where its tail is long. It is spelled in `line`, in place of what that holds, so that its bytes
/// lie where those of the last one lay. All memory is taken before anything is written.
pub fn log_record<D: Disk>(
    alloc: Global,
    redo: &mut Appender<D>,
    memory: &mut Memory,
    line: &mut Vec<u8>,
    added: &Record,
    ranges: usize,
    stop: Option<StopAt>,
) -> Logging
    requires up { IsNodeUp D.state redo.old memory.old }
    requires record { IsRecord added.now }
    ensures leaves { LoggingLeaves D.state D.faults redo.old memory.old added.now ranges stop result
        redo.new
        memory.new }
    ensures tail { result ≡ Logged → redo.old.number ≢ 2 ^ 63
        → redo.new.tail < 2 ^ 20 + 5 + length (record_bytes added.now) }
    ensures continues { LogKeepsDisk D.state D.faults redo.old redo.new }
    ensures moments { CrashLeavesOnly D.state redo.old.disk redo.new.disk
        (IsUpToWithOrWithout redo.old.node redo.old.nodes memory.old.records.items
        (Some added.now)) }
    ensures same { KeepsNodeNumbers memory.old memory.new }
{
    let Ok(()) = added.write_to(line) else {
        return Logging::NoRoom;
    };
    match due_list(alloc, redo, memory) {
        Err(_) => Logging::NoRoom,
        Ok(None) => log_bytes(redo, memory, line, ranges, stop),
        Ok(Some(due)) => log_behind(redo, memory, due, line, ranges, stop),
    }
}

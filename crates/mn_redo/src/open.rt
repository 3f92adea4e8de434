ghost use Rattle.std.specs.Prelude.{◌≡◌, [], ◌≢◌, ◌≤◌, ◌<◌, ◌^◌, ◌+◌, ℕ, List, length, take, drop};
ghost use Rattle.std.specs.Prelude.{get_or, IfOk, OnOk, IfSome, IsNone, IsErrOf, true, false};
ghost use Rattle.std.specs.Int.{w32, from_be_bytes};
ghost use Rattle.mn_io.specs.Faults.{Rose};
ghost use Rattle.mn_io.specs.DiskModel.{IsStable, NoneNew, DiskStays, WritesNothing};
ghost use Rattle.mn_redo.specs.Grammar.{IsFront, IsFresh, IsLogAt, IsDamaged, IsDamagedAt};
ghost use Rattle.mn_redo.specs.Log.{IsFrontKept, IsNoLog, listed_in};
ghost use Rattle.mn_redo.specs.declared.open.OpenCause.TheVariants as causes;

use crate::area::find_start;
use crate::header::is_fresh;
use mn_io::{Disk, Failed, NoMemory};
use std::alloc::{AllocError, AllocFailed, Global};

/// Why a disk wasn't opened.
#[derive(Clone, Copy, Debug, PartialEq, Eq)]
pub enum OpenCause {
    Fault,
    Damaged { at: u64 },
    NoMemory,
}

impl From<Failed> for OpenCause {
    ghost use Rattle.std.specs.Prelude.{◌≡◌};
    ghost use Rattle.mn_redo.specs.declared.open.OpenCause.TheVariants.{Fault};

    ghost from_gives = { λ _ e. e ≡ Fault };

    fn from(_failed: Failed) -> Self {
        OpenCause::Fault
    }
}

impl From<NoMemory> for OpenCause {
    ghost use Rattle.std.specs.Prelude.{◌≡◌};
    ghost use Rattle.mn_redo.specs.declared.open.OpenCause.TheVariants.{NoMemory};

    ghost from_gives = { λ _ e. e ≡ NoMemory };

    fn from(_error: NoMemory) -> Self {
        OpenCause::NoMemory
    }
}

impl From<AllocError> for OpenCause {
    ghost use Rattle.std.specs.Prelude.{◌≡◌};
    ghost use Rattle.mn_redo.specs.declared.open.OpenCause.TheVariants.{NoMemory};

    ghost from_gives = { λ _ e. e ≡ NoMemory };

    fn from(_error: AllocError) -> Self {
        OpenCause::NoMemory
    }
}

impl<T: Drop> From<AllocFailed<T>> for OpenCause {
    ghost use Rattle.std.specs.Prelude.{◌≡◌};
    ghost use Rattle.mn_redo.specs.declared.open.OpenCause.TheVariants.{NoMemory};

    ghost from_gives = { λ _ e. e ≡ NoMemory };

    fn from(_error: AllocFailed<T>) -> Self {
        OpenCause::NoMemory
    }
}

/// The length in the first four bytes.
fn size_in(rest: &[u8]) -> Option<usize>
    ensures some { IfSome result (λ n. n ≡ from_be_bytes w32 (take 4 rest.now)) }
    ensures four { IfSome result (λ n. 4 ≤ length rest.now) }
    ensures small { IfSome result (λ n. n < 2 ^ 32) }
    ensures none { IsNone result → length rest.now < 4 }
{
    if let [a, b, c, d, ..] = rest {
        return Some(u32::from_be_bytes([*a, *b, *c, *d]) as usize);
    }
    None
}

/// The places of the gates of the open records of a log, from its beginning on, and that of the
/// closed gate behind them. An open gate with no whole record and gate behind it is damage at that
/// gate.
fn scan(alloc: Global, bytes: &[u8]) -> Result<(Vec<u64>, usize), OpenCause>
    requires gate { 0 < length bytes.now }
    ensures front { IfOk result (λ found. IsFront [] bytes.now found.0.items found.1) }
    ensures closed { IfOk result (λ found. get_or bytes.now found.1 0 ≢ 1) }
    ensures count { IfOk result (λ found. length found.0.items < 2 ^ 32) }
    ensures damaged { (at : ℕ) → IsErrOf result (causes.Damaged at)
        → IsDamagedAt [] bytes.now at }
    ensures no_fault { IsErrOf result causes.Fault → ⊥ }
{
    let mut gates = Vec::new(alloc);
    let mut at = 0;
    while bytes[at] == 1 {
        let rest = &bytes[at + 1..];
        let Some(size) = size_in(rest) else {
            return Err(OpenCause::Damaged { at: at as u64 });
        };
        if rest.len() - 4 <= size {
            return Err(OpenCause::Damaged { at: at as u64 });
        }

        // The number of a body fits 32 bits.
        if gates.len() >= 4_294_967_295 {
            return Err(OpenCause::NoMemory);
        }
        gates.push(at as u64)?;
        at += 5 + size;
    }
    Ok((gates, at))
}

/// The same of a log that begins at a place; that of damage is counted from the beginning of the
/// disk.
fn scan_from(alloc: Global, content: &[u8], start: usize) -> Result<(Vec<u64>, usize), OpenCause>
    requires within { start < length content.now }
    ensures front { IfOk result (λ found.
        IsFront [] (drop start content.now) found.0.items found.1) }
    ensures closed { IfOk result (λ found. get_or (drop start content.now) found.1 0 ≢ 1) }
    ensures count { IfOk result (λ found. length found.0.items < 2 ^ 32) }
    ensures damaged { (at : ℕ) → IsErrOf result (causes.Damaged at)
        → IsDamagedAt (take start content.now) content.now at }
    ensures no_fault { IsErrOf result causes.Fault → ⊥ }
{
    match scan(alloc, &content[start..]) {
        Ok(found) => Ok(found),
        Err(OpenCause::Damaged { at }) => Err(OpenCause::Damaged {
            at: start as u64 + at,
        }),
        Err(cause) => Err(cause),
    }
}

/// A log's bytes from its beginning up to its closed gate, as they are on a disk or as they will be
/// on one that is fresh, the places of its gates from there, where it begins, and the number of the
/// current area.
#[derive(Drop)]
pub struct Found {
    pub bytes: Vec<u8>,
    pub gates: Vec<u64>,
    pub start: u64,
    pub number: u64,
    pub is_fresh: bool,
}

/// Reads the log in the bytes of a disk. Of a fresh disk it is the one that its header will have.
pub fn read_log(alloc: Global, content: Vec<u8>, node: u8, nodes: u8) -> Result<Found, OpenCause>
    ensures kept { IfOk result (λ found. IsFrontKept found.bytes.items found.gates.items) }
    ensures near { IfOk result (λ found. found.start + length found.bytes.items ≤ 2 ^ 63) }
    ensures few { IfOk result (λ found. found.number ≤ 9223372036854775808) }
    ensures fresh { IfOk result (λ found. found.is_fresh ≡ true → IsFresh content.items) }
    ensures none { IfOk result (λ found. found.is_fresh ≡ true → IsNoLog found.start found.number
        (listed_in 0 found.bytes.items)) }
    ensures log { IfOk result (λ found. found.is_fresh ≡ false
        → IsLogAt node nodes content.items found.number found.start
        (listed_in 0 found.bytes.items)) }
    ensures damaged { (at : ℕ) → IsErrOf result (causes.Damaged at)
        → IsDamaged node nodes content.items at }
    ensures no_fault { IsErrOf result causes.Fault → ⊥ }
{
    if is_fresh(&content) {
        return Ok(Found {
            bytes: vec![in alloc; 0; 1]?,
            gates: Vec::new(alloc),
            start: 80,
            number: 0,
            is_fresh: true,
        });
    }
    let (number, start) = match find_start(&content, node, nodes) {
        Ok(found) => found,
        Err(at) => return Err(OpenCause::Damaged { at }),
    };
    let (gates, at) = scan_from(alloc, &content, start)?;
    let mut bytes = Vec::from_slice(alloc, &content[start..start + at])?;
    bytes.push(0)?;
    Ok(Found {
        bytes,
        gates,
        start: start as u64,
        number,
        is_fresh: false,
    })
}

/// All bytes of a disk.
pub fn read_whole<D: Disk>(alloc: Global, disk: &mut D) -> Result<Vec<u8>, OpenCause>
    ensures content { (D.state disk.old).honest
        → IfOk result (λ bytes. bytes.items ≡ (D.state disk.old).content) }
    ensures same { (D.state disk.old).honest → DiskStays (D.state disk.old) (D.state disk.new) }
    ensures no_better { (D.state disk.new).honest → (D.state disk.old).honest }
    ensures changes { D.spare_changes disk.old ≤ D.spare_changes disk.new }
    ensures room { D.spare_bytes disk.old ≤ D.spare_bytes disk.new }
    ensures later { D.faults disk.old ≤ D.faults disk.new }
    ensures fault { IsErrOf result causes.Fault → Rose (D.faults disk.old) (D.faults disk.new) }
    ensures not_damaged { (at : ℕ) → IsErrOf result (causes.Damaged at) → ⊥ }
{
    let length = disk.length()? as usize;
    let mut bytes = vec![in alloc; 0; length]?;
    let count = disk.read(0, &mut bytes)?;
    bytes.truncate(count);
    Ok(bytes)
}

/// Makes the room for a header, syncs, and reads the log. It writes nothing.
pub fn prepare<D: Disk>(
    alloc: Global,
    disk: &mut D,
    node: u8,
    nodes: u8,
) -> Result<Found, OpenCause>
    ensures kept { IfOk result (λ found. IsFrontKept found.bytes.items found.gates.items) }
    ensures near { IfOk result (λ found. found.start + length found.bytes.items ≤ 2 ^ 63) }
    ensures few { IfOk result (λ found. found.number ≤ 9223372036854775808) }
    ensures none { IfOk result (λ found. found.is_fresh ≡ true → IsNoLog found.start found.number
        (listed_in 0 found.bytes.items)) }
    ensures fresh { (D.state disk.old).honest
        → IfOk result (λ found. found.is_fresh ≡ true → IsFresh (D.state disk.new).content) }
    ensures log { (D.state disk.old).honest
        → IfOk result (λ found. found.is_fresh ≡ false
        → IsLogAt node nodes (D.state disk.new).content found.number found.start
        (listed_in 0 found.bytes.items)) }
    ensures content { (D.state disk.old).honest
        → OnOk result ((D.state disk.new).content ≡ (D.state disk.old).content) }
    ensures content_damaged { (D.state disk.old).honest → (at : ℕ)
        → IsErrOf result (causes.Damaged at)
        → (D.state disk.new).content ≡ (D.state disk.old).content }
    ensures stable { (D.state disk.old).honest → OnOk result (IsStable (D.state disk.new)) }
    ensures changes { OnOk result (8 ≤ D.spare_changes disk.new) }
    ensures room { OnOk result (82 ≤ D.spare_bytes disk.new) }
    ensures damaged { (D.state disk.old).honest → (at : ℕ) → IsErrOf result (causes.Damaged at)
        → IsDamaged node nodes (D.state disk.old).content at }
    ensures told { (at : ℕ) → IsErrOf result (causes.Damaged at) → (content : List ℕ)
        × IsDamaged node nodes content at }
    ensures fault { IsErrOf result causes.Fault → Rose (D.faults disk.old) (D.faults disk.new) }
    ensures later { D.faults disk.old ≤ D.faults disk.new }
    ensures unwritten { (D.state disk.old).honest
        → WritesNothing (D.state disk.old) (D.state disk.new) }
    ensures images { (D.state disk.old).honest → NoneNew (D.state disk.old) (D.state disk.new) }
    ensures honest { (D.state disk.old).honest → (D.state disk.new).honest }
    ensures no_better { (D.state disk.new).honest → (D.state disk.old).honest }
{
    // The sync here, and the eight changes of a header, which has 82 bytes with its gate written
    // twice.
    disk.make_room(9, 82)?;
    disk.sync()?;
    let content = read_whole(alloc, disk)?;
    read_log(alloc, content, node, nodes)
}

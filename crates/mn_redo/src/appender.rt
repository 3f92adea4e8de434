ghost use Rattle.std.specs.Prelude.{◌≡◌, ◌≢◌, ◌≤◌, ◌<◌, ◌^◌, ◌*◌, ◌+◌, ◌++◌, ◌∷◌, []};
ghost use Rattle.std.specs.Prelude.{ℕ, List, length, IfOk, IsErrOf, OnOk, OnErr, IsOk, IsTrue};
ghost use Rattle.std.specs.Prelude.{◌↔◌, vec_capacity};
ghost use Rattle.mn_io.specs.DiskModel.{IsStable, LeavesOnly, NoneNew, DiskStays, WritesNothing};
ghost use Rattle.mn_io.specs.Faults.{HasCause, Rose};
ghost use Rattle.mn_redo.specs.Appender.{IsLogOf};
ghost use Rattle.mn_redo.specs.Grammar.{IsBeforeOrAfter, IsDamaged, IsFresh, IsLog, IsOneOrOther};
ghost use Rattle.mn_redo.specs.Grammar.{HaveSizes, IsStaged, IsStagedAt, Stands, place_for};
ghost use Rattle.mn_redo.specs.Grammar.{records};
ghost use Rattle.mn_redo.specs.Grammar.{total, whole_log};
ghost use Rattle.mn_redo.specs.Log.{IsFrontKept, listed_in};
ghost use Rattle.mn_redo.specs.Redo.{HasHeader, StandsFor};
ghost use Rattle.mn_redo.specs.declared.open.OpenCause.TheVariants as causes;

use crate::change::{stage, stage_all};
use crate::front::Front;
use crate::header::{empty_log, write_header};
use crate::open::{Found, OpenCause, prepare};
use crate::redo::Phase;
use crate::shorten::{choose_place, replace};
use mn_ckpt::change;
use mn_io::{Bytes, Disk, Failed, Fault, NoMemory, make_room};
use std::alloc::Global;
use std::marker::Model;

/// More than these is refused like want of memory, so that no sum wraps.
const MOST_BODIES: u32 = 400_000_000;

const MOST_BYTES: usize = 1_000_000_000_000;

const MOST_PLACE: u64 = 1 << 60;

/// The greatest number of an area. A log of this number isn't shortened.
const LAST_NUMBER: u64 = 1 << 63;

/// For how many bytes of a record there is room at once.
const PIECE_AT_ONCE: usize = 1 << 12;

/// Writes the record of a body behind the closed gate at this place, which stays closed, with a
/// closed gate behind it. It is put together in the piece, in place of what that holds.
fn half<D: Disk>(disk: &mut D, piece: &mut Vec<u8>, gate: u64, body: &[u8]) -> Result<(), Failed>
    requires within { (D.state disk.old).honest → gate < length (D.state disk.old).content }
    requires place { gate < 2 ^ 63 }
    requires stable { (D.state disk.old).honest → IsStable (D.state disk.old) }
    requires size { length body.now < 2 ^ 32 }
    requires room { 5 + length body.now ≤ vec_capacity piece.old }
    requires changes { 2 ≤ D.spare_changes disk.old }
    requires disk_room { 5 + length body.now ≤ D.spare_bytes disk.old }
    ensures staged { (D.state disk.old).honest → (before : List ℕ) (bodies : List (List ℕ))
        → IsLog before (D.state disk.old).content bodies
        → gate ≡ length before + length (records bodies)
        → OnOk result (IsStaged before bodies body.now (D.state disk.new).content) }
    ensures stable { (D.state disk.old).honest → OnOk result (IsStable (D.state disk.new)) }
    ensures any_moment { (D.state disk.old).honest → (before : List ℕ) (bodies : List (List ℕ))
        → IsLog before (D.state disk.old).content bodies
        → gate ≡ length before + length (records bodies)
        → LeavesOnly (D.state disk.old) (D.state disk.new) (λ c. IsLog before c bodies) }
    ensures room { vec_capacity piece.old ≤ vec_capacity piece.new }
    ensures honest { (D.state disk.old).honest → (D.state disk.new).honest }
    ensures no_better { (D.state disk.new).honest → (D.state disk.old).honest }
    ensures changes { D.spare_changes disk.old ≤ D.spare_changes disk.new + 2 }
    ensures disk_room { D.spare_bytes disk.old ≤ D.spare_bytes disk.new + 5 + length body.now }
    ensures cause { HasCause (D.faults disk.old) (D.faults disk.new) result }
{
    piece.clear();
    stage(piece, body);
    change(disk, gate + 1, piece)
}

/// A log to which bodies are appended. It keeps no copy of them: of each list that its clauses
/// name they say what is so if it is the log's.
#[derive(Drop)]
pub struct Appender<D: Disk> {
    disk: D,
    node: u8,
    nodes: u8,
    phase: Phase,
    /// How many bodies it has.
    count: u32,
    /// Where it begins.
    start: u64,
    /// The place of the closed gate behind them.
    gate: u64,
    /// The number of the current area, or 0.
    number: u64,
    /// The bytes of records since it was read or shortened.
    tail: u64,
    spare_bodies: u32,
    spare_bytes: usize,
    /// The room in which records are put together, one after another.
    piece: Vec<u8>,
}

impl<D: Disk> Model for Appender<D> {
    ghost use Rattle.std.specs.Prelude.{vec_capacity};
    ghost use Rattle.mn_redo.specs.Appender.{AppenderState, IsUsable};

    ghost Value = { AppenderState D };

    ghost view = { λ a. record {
      disk = a.disk;
      node = a.node;
      nodes = a.nodes;
      phase = a.phase;
      count = a.count;
      start = a.start;
      gate = a.gate;
      number = a.number;
      tail = a.tail;
      spare_bodies = a.spare_bodies;
      spare_bytes = a.spare_bytes;
    } };

    ghost invariant = { λ a. IsUsable D.state D.spare_changes D.spare_bytes (vec_capacity a.piece)
        (record {
          disk = a.disk;
          node = a.node;
          nodes = a.nodes;
          phase = a.phase;
          count = a.count;
          start = a.start;
          gate = a.gate;
          number = a.number;
          tail = a.tail;
          spare_bodies = a.spare_bodies;
          spare_bytes = a.spare_bytes;
        }) };
}

impl<D: Disk> Appender<D> {
    /// A log whose disk wasn't read yet: only `read`, `reopen` and `close` may be called.
    pub(crate) fn new(alloc: Global, disk: D, node: u8, nodes: u8) -> Self
        ensures disk { result.disk ≡ disk }
        ensures node { result.node ≡ node }
        ensures nodes { result.nodes ≡ nodes }
        ensures closing { result.phase ≡ Phase.Closing }
    {
        Appender {
            disk,
            node,
            nodes,
            phase: Phase::Closing,
            count: 0,
            start: 0,
            gate: 0,
            number: 0,
            tail: 0,
            spare_bodies: 0,
            spare_bytes: 0,
            piece: Vec::new(alloc),
        }
    }

    /// Reads the log from its disk, whatever the last call left. It writes nothing.
    ///
    /// The causes are those of `Redo::open`. After an error only `read`, `reopen` and `close` may
    /// be called.
    pub(crate) fn read(&mut self, alloc: Global) -> Result<Found, OpenCause>
        ensures kept { IfOk result (λ found. IsFrontKept found.bytes.items found.gates.items) }
        ensures near { IfOk result (λ found. found.start + length found.bytes.items ≤ 2 ^ 63) }
        ensures log { IfOk result (λ found.
            IsLogOf D.state self.new (listed_in 0 found.bytes.items)) }
        ensures start { IfOk result (λ found. self.new.start ≡ found.start) }
        ensures tail { IfOk result (λ found.
            self.new.tail ≡ length (records (listed_in 0 found.bytes.items))) }
        ensures read { (D.state self.old.disk).honest
            → IfOk result (λ found. Stands self.old.node self.old.nodes
            (D.state self.old.disk).content (listed_in 0 found.bytes.items)) }
        ensures stands { (D.state self.old.disk).honest
            → IfOk result (λ found. StandsFor (D.state self.new.disk) self.old.node self.old.nodes
            (listed_in 0 found.bytes.items)) }
        ensures fresh { (D.state self.old.disk).honest
            → OnOk result (self.new.phase ≡ Phase.Fresh → IsFresh (D.state self.old.disk).content) }
        ensures going { OnOk result (self.new.phase ≢ Phase.Closing) }
        ensures closing { OnErr result (self.new.phase ≡ Phase.Closing) }
        ensures node { self.new.node ≡ self.old.node }
        ensures nodes { self.new.nodes ≡ self.old.nodes }
        ensures damaged { (D.state self.old.disk).honest → (at : ℕ)
            → IsErrOf result (causes.Damaged at)
            → IsDamaged self.old.node self.old.nodes (D.state self.old.disk).content at }
        ensures told { (at : ℕ) → IsErrOf result (causes.Damaged at) → (content : List ℕ)
            × IsDamaged self.old.node self.old.nodes content at }
        ensures fault { IsErrOf result causes.Fault
            → Rose (D.faults self.old.disk) (D.faults self.new.disk) }
        ensures later { D.faults self.old.disk ≤ D.faults self.new.disk }
        ensures content { (D.state self.old.disk).honest
            → OnOk result ((D.state self.new.disk).content ≡ (D.state self.old.disk).content) }
        ensures content_damaged { (D.state self.old.disk).honest → (at : ℕ)
            → IsErrOf result (causes.Damaged at)
            → (D.state self.new.disk).content ≡ (D.state self.old.disk).content }
        ensures unwritten { (D.state self.old.disk).honest
            → WritesNothing (D.state self.old.disk) (D.state self.new.disk) }
        ensures images { (D.state self.old.disk).honest
            → NoneNew (D.state self.old.disk) (D.state self.new.disk) }
        ensures honest { (D.state self.old.disk).honest → (D.state self.new.disk).honest }
        ensures no_better { (D.state self.new.disk).honest → (D.state self.old.disk).honest }
    {
        self.phase = Phase::Closing;
        let found = prepare(alloc, &mut self.disk, self.node, self.nodes)?;
        self.count = found.gates.len() as u32;
        self.start = found.start;
        self.tail = found.bytes.len() as u64 - 1;
        self.gate = self.start + self.tail;
        self.number = found.number;
        self.spare_bodies = 0;
        self.spare_bytes = 0;
        self.phase = if found.is_fresh {
            Phase::Fresh
        } else {
            Phase::Started
        };
        Ok(found)
    }

    /// Reads the log again from its disk, whatever the last call left, and lends its bodies to the
    /// caller, who drops them when they were looked at. It writes nothing.
    ///
    /// The causes are those of `Redo::open`. After an error only `reopen` and `close` may be
    /// called.
    pub fn reopen(&mut self, alloc: Global) -> Result<Front, OpenCause>
        // The list is that of the bytes that the disk had; a fresh disk has none.
        ensures log { IfOk result (λ front. IsLogOf D.state self.new front.bodies) }
        ensures start { IfOk result (λ front. self.new.start ≡ front.start) }
        ensures tail { IfOk result (λ front. self.new.tail ≡ length (records front.bodies)) }
        ensures read { (D.state self.old.disk).honest
            → IfOk result (λ front. Stands self.old.node self.old.nodes
            (D.state self.old.disk).content front.bodies) }
        ensures stands { (D.state self.old.disk).honest
            → IfOk result (λ front. StandsFor (D.state self.new.disk) self.old.node self.old.nodes
            front.bodies) }
        ensures fresh { (D.state self.old.disk).honest
            → OnOk result (self.new.phase ≡ Phase.Fresh → IsFresh (D.state self.old.disk).content) }
        ensures going { OnOk result (self.new.phase ≢ Phase.Closing) }
        ensures closing { OnErr result (self.new.phase ≡ Phase.Closing) }
        ensures node { self.new.node ≡ self.old.node }
        ensures nodes { self.new.nodes ≡ self.old.nodes }
        ensures damaged { (D.state self.old.disk).honest → (at : ℕ)
            → IsErrOf result (causes.Damaged at)
            → IsDamaged self.old.node self.old.nodes (D.state self.old.disk).content at }

        // Whatever bytes the disk gave, they are damaged there.
        ensures told { (at : ℕ) → IsErrOf result (causes.Damaged at) → (content : List ℕ)
            × IsDamaged self.old.node self.old.nodes content at }
        ensures fault { IsErrOf result causes.Fault
            → Rose (D.faults self.old.disk) (D.faults self.new.disk) }
        ensures later { D.faults self.old.disk ≤ D.faults self.new.disk }

        // Nothing was written.
        ensures unwritten { (D.state self.old.disk).honest
            → WritesNothing (D.state self.old.disk) (D.state self.new.disk) }
        ensures images { (D.state self.old.disk).honest
            → NoneNew (D.state self.old.disk) (D.state self.new.disk) }
        ensures header_stays { ((D.state self.old.disk).honest → HasHeader (D.state self.old.disk))
            → (D.state self.new.disk).honest → HasHeader (D.state self.new.disk) }
        ensures honest { (D.state self.old.disk).honest → (D.state self.new.disk).honest }
        ensures no_better { (D.state self.new.disk).honest → (D.state self.old.disk).honest }
    {
        let found = self.read(alloc)?;
        Ok(Front::of(found))
    }

    /// Gives a fresh disk its header; of a disk that has one it calls nothing. `Fault` comes only
    /// where the disk's count of faults rose; after it only `reopen` and `close` may be called.
    pub fn start(&mut self) -> Result<(), Fault>
        requires going { self.old.phase ≢ Phase.Closing }
        ensures started { OnOk result (self.new.phase ≡ Phase.Started) }
        ensures closing { OnErr result (self.new.phase ≡ Phase.Closing) }
        ensures log { (bodies : List (List ℕ)) → IsLogOf D.state self.old bodies
            → OnOk result (IsLogOf D.state self.new bodies) }
        ensures spare_bodies { self.new.spare_bodies ≡ self.old.spare_bodies }
        ensures spare_bytes { self.new.spare_bytes ≡ self.old.spare_bytes }
        ensures place { self.new.start ≡ self.old.start }
        ensures number { self.new.number ≡ self.old.number }
        ensures tail { self.new.tail ≡ self.old.tail }
        ensures stands { (bodies : List (List ℕ)) → IsLogOf D.state self.old bodies
            → (D.state self.old.disk).honest
            → StandsFor (D.state self.new.disk) self.old.node self.old.nodes bodies }
        ensures used { self.old.phase ≡ Phase.Started → self.new ≡ self.old }
        ensures used_ok { self.old.phase ≡ Phase.Started → IsOk result }

        // At Ok no image of the disk is fresh.
        ensures header { (D.state self.old.disk).honest
            → OnOk result (HasHeader (D.state self.new.disk)) }
        ensures header_stays { ((D.state self.old.disk).honest → HasHeader (D.state self.old.disk))
            → (D.state self.new.disk).honest → HasHeader (D.state self.new.disk) }

        // A crash at any moment of the call leaves a disk that stands for the same list.
        ensures any_moment { (bodies : List (List ℕ)) → IsLogOf D.state self.old bodies
            → (D.state self.old.disk).honest
            → LeavesOnly (D.state self.old.disk) (D.state self.new.disk)
            (λ c. Stands self.old.node self.old.nodes c bodies) }
        ensures node { self.new.node ≡ self.old.node }
        ensures nodes { self.new.nodes ≡ self.old.nodes }
        ensures honest { (D.state self.old.disk).honest → (D.state self.new.disk).honest }
        ensures no_better { (D.state self.new.disk).honest → (D.state self.old.disk).honest }
        ensures cause { HasCause (D.faults self.old.disk) (D.faults self.new.disk) result }
    {
        if self.phase != Phase::Fresh {
            return Ok(());
        }
        self.phase = Phase::Closing;
        let bytes = empty_log(self.node, self.nodes);
        write_header(&mut self.disk, self.node, self.nodes, &bytes)?;
        self.phase = Phase::Started;
        Ok(())
    }

    /// Takes the memory for so many more bodies with so many bytes in them, on the disk too: the
    /// spare numbers are both at least so much. `NoMemory` where there is none; then nothing but
    /// the room has changed.
    pub fn reserve(&mut self, bodies: u32, bytes: usize) -> Result<(), NoMemory>
        requires going { self.old.phase ≢ Phase.Closing }
        ensures spare_bodies { OnOk result (bodies ≤ self.new.spare_bodies) }
        ensures spare_bytes { OnOk result (bytes ≤ self.new.spare_bytes) }
        ensures few { OnOk result (bytes + 5 * bodies < 2 ^ 63) }
        ensures no_fewer { self.old.spare_bodies ≤ self.new.spare_bodies }
        ensures no_less { self.old.spare_bytes ≤ self.new.spare_bytes }
        ensures phase { self.new.phase ≡ self.old.phase }
        ensures place { self.new.start ≡ self.old.start }
        ensures number { self.new.number ≡ self.old.number }
        ensures tail { self.new.tail ≡ self.old.tail }
        ensures log { (list : List (List ℕ)) → IsLogOf D.state self.old list
            → IsLogOf D.state self.new list }
        ensures node { self.new.node ≡ self.old.node }
        ensures nodes { self.new.nodes ≡ self.old.nodes }
        ensures stays { (D.state self.old.disk).honest
            → DiskStays (D.state self.old.disk) (D.state self.new.disk) }
        ensures header_stays { ((D.state self.old.disk).honest → HasHeader (D.state self.old.disk))
            → (D.state self.new.disk).honest → HasHeader (D.state self.new.disk) }
        ensures no_better { (D.state self.new.disk).honest → (D.state self.old.disk).honest }
        ensures faults { D.faults self.new.disk ≡ D.faults self.old.disk }
    {
        let bodies = self.spare_bodies.max(bodies);
        let bytes = self.spare_bytes.max(bytes);
        if bodies > MOST_BODIES || bytes > MOST_BYTES || self.gate > MOST_PLACE {
            return Err(NoMemory);
        }

        // The number of a body fits 32 bits.
        if self.count as usize + bodies as usize > 4_294_967_295 {
            return Err(NoMemory);
        }

        // A body is two writes and two syncs, of its bytes and six more. A shortening uses up one
        // spare body more than it has bodies: it is ten changes, of its bodies' bytes, five more
        // for each of them and 19. A header is eight changes of 82 bytes.
        self.disk
            .make_room(10 * bodies + 8, bytes + 19 * bodies as usize + 82)?;
        self.piece.clear();
        make_room(&mut self.piece, bytes + 5 * bodies as usize, PIECE_AT_ONCE)?;
        self.spare_bodies = bodies;
        self.spare_bytes = bytes;
        Ok(())
    }

    /// Adds a body of fewer than 2^32 bytes at the end of the list; at `Ok` it is stable. It uses
    /// up one spare body and as many spare bytes as the body has. `Fault` comes only where the
    /// disk's count of faults rose; after it only `reopen` and `close` may be called.
    pub fn append(&mut self, body: &[u8]) -> Result<(), Fault>
        requires started { self.old.phase ≡ Phase.Started }
        requires size { length body.now < 2 ^ 32 }
        requires spare_body { 0 < self.old.spare_bodies }
        requires spare_bytes { length body.now ≤ self.old.spare_bytes }
        ensures started { OnOk result (self.new.phase ≡ Phase.Started) }
        ensures closing { OnErr result (self.new.phase ≡ Phase.Closing) }
        ensures list { (bodies : List (List ℕ)) → IsLogOf D.state self.old bodies
            → OnOk result (IsLogOf D.state self.new (bodies ++ body.now ∷ [])) }
        ensures bodies { OnOk result (self.old.spare_bodies ≤ self.new.spare_bodies + 1) }
        ensures bytes { OnOk result (self.old.spare_bytes
            ≤ self.new.spare_bytes + length body.now) }
        ensures place { self.new.start ≡ self.old.start }
        ensures number { self.new.number ≡ self.old.number }
        ensures tail { OnOk result (self.new.tail ≡ self.old.tail + 5 + length body.now) }

        // At Ok each image of the disk stands for the list with the body.
        ensures stable { (bodies : List (List ℕ)) → IsLogOf D.state self.old bodies
            → (D.state self.old.disk).honest
            → OnOk result (StandsFor (D.state self.new.disk) self.old.node self.old.nodes
            (bodies ++ body.now ∷ [])) }

        // A crash at any moment of the call leaves the list from before it, with the body or
        // without.
        ensures any_moment { (bodies : List (List ℕ)) → IsLogOf D.state self.old bodies
            → (D.state self.old.disk).honest
            → LeavesOnly (D.state self.old.disk) (D.state self.new.disk)
            (IsBeforeOrAfter self.old.node self.old.nodes bodies body.now) }
        ensures images { (bodies : List (List ℕ)) → IsLogOf D.state self.old bodies
            → (D.state self.old.disk).honest → (c : List ℕ) → (D.state self.new.disk).images c
            → IsBeforeOrAfter self.old.node self.old.nodes bodies body.now c }
        ensures header { (D.state self.old.disk).honest → HasHeader (D.state self.new.disk) }
        ensures node { self.new.node ≡ self.old.node }
        ensures nodes { self.new.nodes ≡ self.old.nodes }
        ensures honest { (D.state self.old.disk).honest → (D.state self.new.disk).honest }
        ensures no_better { (D.state self.new.disk).honest → (D.state self.old.disk).honest }
        ensures cause { HasCause (D.faults self.old.disk) (D.faults self.new.disk) result }
    {
        self.phase = Phase::Closing;
        half(&mut self.disk, &mut self.piece, self.gate, body)?;
        change(&mut self.disk, self.gate, &[1])?;
        self.gate += 5 + body.len() as u64;
        self.tail += 5 + body.len() as u64;
        self.count += 1;
        self.spare_bodies -= 1;
        self.spare_bytes -= body.len();
        self.phase = Phase::Started;
        Ok(())
    }

    /// Whether the log may be shortened: its number isn't the last one.
    pub fn can_shorten(&self) -> bool
        ensures { IsTrue result ↔ (self.now.number ≢ 2 ^ 63) }
    {
        self.number != LAST_NUMBER
    }

    /// The bytes of records since the log was read or shortened; at first of the whole log.
    pub fn tail(&self) -> u64
        ensures { result ≡ self.now.tail }
    {
        self.tail
    }

    /// Puts another list in place of the log's; at `Ok` it is stable. It uses up one spare body
    /// more than there are bodies, and as many spare bytes as they have. `Fault` comes only where
    /// the disk's count of faults rose; after it only `reopen` and `close` may be called.
    pub fn shorten(&mut self, bodies: &[Bytes]) -> Result<(), Fault>
        requires started { self.old.phase ≡ Phase.Started }
        requires can { self.old.number ≢ 2 ^ 63 }
        requires sizes { HaveSizes bodies.now }
        requires spare_bodies { length bodies.now < self.old.spare_bodies }
        requires spare_bytes { total bodies.now ≤ self.old.spare_bytes }
        ensures started { OnOk result (self.new.phase ≡ Phase.Started) }
        ensures closing { OnErr result (self.new.phase ≡ Phase.Closing) }
        ensures list { (old : List (List ℕ)) → IsLogOf D.state self.old old
            → OnOk result (IsLogOf D.state self.new bodies.now) }
        ensures bodies { OnOk result (self.old.spare_bodies
            ≤ self.new.spare_bodies + length bodies.now + 1) }
        ensures bytes { OnOk result (self.old.spare_bytes
            ≤ self.new.spare_bytes + total bodies.now) }
        ensures number { OnOk result (self.new.number ≡ self.old.number + 1) }
        ensures place { OnOk result (self.new.start
            ≡ place_for self.old.start self.old.gate (length (whole_log bodies.now))) }
        ensures tail { OnOk result (self.new.tail ≡ 0) }

        // At Ok each image of the disk stands for the new list.
        ensures stable { (old : List (List ℕ)) → IsLogOf D.state self.old old
            → (D.state self.old.disk).honest
            → OnOk result (StandsFor (D.state self.new.disk) self.old.node self.old.nodes
            bodies.now) }

        // A crash at any moment of the call leaves the old list or the new one.
        ensures any_moment { (old : List (List ℕ)) → IsLogOf D.state self.old old
            → (D.state self.old.disk).honest
            → LeavesOnly (D.state self.old.disk) (D.state self.new.disk)
            (IsOneOrOther self.old.node self.old.nodes old bodies.now) }
        ensures images { (old : List (List ℕ)) → IsLogOf D.state self.old old
            → (D.state self.old.disk).honest → (c : List ℕ) → (D.state self.new.disk).images c
            → IsOneOrOther self.old.node self.old.nodes old bodies.now c }
        ensures header { (D.state self.old.disk).honest → HasHeader (D.state self.new.disk) }
        ensures node { self.new.node ≡ self.old.node }
        ensures nodes { self.new.nodes ≡ self.old.nodes }
        ensures honest { (D.state self.old.disk).honest → (D.state self.new.disk).honest }
        ensures no_better { (D.state self.new.disk).honest → (D.state self.old.disk).honest }
        ensures cause { HasCause (D.faults self.old.disk) (D.faults self.new.disk) result }
    {
        self.phase = Phase::Closing;
        stage_all(&mut self.piece, bodies);
        let size = self.piece.len() as u64;
        let place = choose_place(self.start, self.gate, size);
        replace(&mut self.disk, &self.piece, place, self.number)?;
        self.start = place;
        self.gate = place + size - 1;
        self.number += 1;
        self.tail = 0;
        self.count = bodies.len() as u32;
        self.spare_bodies -= self.count + 1;
        self.spare_bytes -= size as usize - 1 - 5 * bodies.len();
        self.phase = Phase::Started;
        Ok(())
    }

    /// Writes all of a body's record but its open gate, so that a crash leaves the list without it.
    /// After it only `reopen` and `close` may be called. `Fault` comes only where the disk's count
    /// of faults rose.
    pub fn write_half(&mut self, body: &[u8]) -> Result<(), Fault>
        requires started { self.old.phase ≡ Phase.Started }
        requires size { length body.now < 2 ^ 32 }
        requires spare_body { 0 < self.old.spare_bodies }
        requires spare_bytes { length body.now ≤ self.old.spare_bytes }
        ensures closing { self.new.phase ≡ Phase.Closing }
        ensures stands { (bodies : List (List ℕ)) → IsLogOf D.state self.old bodies
            → (D.state self.old.disk).honest
            → StandsFor (D.state self.new.disk) self.old.node self.old.nodes bodies }
        ensures any_moment { (bodies : List (List ℕ)) → IsLogOf D.state self.old bodies
            → (D.state self.old.disk).honest
            → LeavesOnly (D.state self.old.disk) (D.state self.new.disk)
            (λ c. Stands self.old.node self.old.nodes c bodies) }
        ensures header { (D.state self.old.disk).honest → HasHeader (D.state self.new.disk) }

        // At Ok the record stands on the disk behind a closed gate.
        ensures half { (bodies : List (List ℕ)) → IsLogOf D.state self.old bodies
            → (D.state self.old.disk).honest
            → OnOk result (IsStagedAt self.old.node self.old.nodes bodies body.now
            (D.state self.new.disk).content) }
        ensures stable { (D.state self.old.disk).honest
            → OnOk result (IsStable (D.state self.new.disk)) }
        ensures node { self.new.node ≡ self.old.node }
        ensures nodes { self.new.nodes ≡ self.old.nodes }
        ensures honest { (D.state self.old.disk).honest → (D.state self.new.disk).honest }
        ensures no_better { (D.state self.new.disk).honest → (D.state self.old.disk).honest }
        ensures cause { HasCause (D.faults self.old.disk) (D.faults self.new.disk) result }
    {
        self.phase = Phase::Closing;
        half(&mut self.disk, &mut self.piece, self.gate, body)?;
        Ok(())
    }

    /// The number of the node whose log it is.
    pub fn node(&self) -> u8
        ensures { result ≡ self.now.node }
    {
        self.node
    }

    /// How many nodes there are.
    pub fn nodes(&self) -> u8
        ensures { result ≡ self.now.nodes }
    {
        self.nodes
    }

    /// Where the log begins on its disk.
    pub(crate) fn begins(&self) -> u64
        ensures { result ≡ self.now.start }
    {
        self.start
    }

    /// Whether the disk was read as fresh and `start` hasn't written its header.
    pub fn is_fresh(&self) -> bool
        ensures { IsTrue result ↔ (self.now.phase ≡ Phase.Fresh) }
    {
        self.phase == Phase::Fresh
    }

    /// The disk, as the last call left it.
    pub fn close(self) -> D
        ensures disk { result ≡ self.disk }

        // Unless a call failed or wrote half a record, each image of it stands for the list.
        ensures stands { self.phase ≢ Phase.Closing → (bodies : List (List ℕ))
            → IsLogOf D.state self bodies → (D.state result).honest
            → StandsFor (D.state result) self.node self.nodes bodies }
    {
        self.disk
    }
}

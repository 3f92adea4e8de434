ghost use Rattle.std.specs.Prelude.{◌≡◌, ◌≢◌, ◌≤◌, ◌<◌, ◌^◌, ◌+◌, ◌++◌, ◌∷◌, [], ℕ, List, length};
ghost use Rattle.std.specs.Prelude.{get_or, IfOk, IfErr, IsErrOf, OnOk, OnErr, IsOk, IsTrue, ◌↔◌};
ghost use Rattle.mn_io.specs.DiskModel.{IsStable, LeavesOnly, NoneNew, DiskStays, WritesNothing};
ghost use Rattle.mn_io.specs.Faults.{HasCause, Rose};
ghost use Rattle.mn_redo.specs.Appender.{IsLogOf};
ghost use Rattle.mn_redo.specs.Grammar.{HaveSizes, IsBeforeOrAfter, IsDamaged, IsFresh, IsLogAt};
ghost use Rattle.mn_redo.specs.Grammar.{IsOneOrOther, IsStagedAt, Stands, place_for, places};
ghost use Rattle.mn_redo.specs.Grammar.{records, total, whole_log};
ghost use Rattle.mn_redo.specs.Redo.{HasHeader, StandsFor};
ghost use Rattle.mn_redo.specs.declared.open.OpenCause.TheVariants as causes;

use crate::appender::Appender;
use crate::body::body_of;
use crate::change::{place_all, stage, stage_all};
use crate::open::OpenCause;
use mn_base::NodeNo;
use mn_io::{Bytes, Disk, Fault, NoMemory, make_room};
use std::alloc::Global;
use std::marker::Model;

/// For how many bytes and gates there is room at once.
const BYTES_AT_ONCE: usize = 1 << 20;

const GATES_AT_ONCE: usize = 1 << 12;

/// How far a log has come.
#[derive(Clone, Copy, Debug, PartialEq, Eq)]
pub enum Phase {
    /// The disk was read as fresh, and its header isn't written yet.
    Fresh,
    /// The disk has its header, and bodies may be appended.
    Started,
    /// A call failed or wrote half a record, and only `close` may be called.
    Closing,
}

/// A list of bodies on a disk, with a copy of its bytes in memory.
#[derive(Drop)]
pub struct Redo<D: Disk> {
    appender: Appender<D>,
    /// The log from its beginning up to its closed gate.
    bytes: Vec<u8>,
    /// The places of the gates of its bodies from its beginning on.
    gates: Vec<u64>,
    spare_bodies: u32,
    spare_bytes: usize,
}

impl<D: Disk> Model for Redo<D> {
    ghost use Rattle.std.specs.Prelude.{◌≢◌, vec_capacity};
    ghost use Rattle.mn_redo.specs.Log.{listed_in};
    ghost use Rattle.mn_redo.specs.Redo.{RedoState, IsCopied};
    ghost use Rattle.mn_redo.specs.declared.redo.Phase.TheVariants.{Closing};

    ghost Value = { RedoState D };

    ghost view = { λ r. record {
      disk = r.appender.disk;
      node = r.appender.node;
      nodes = r.appender.nodes;
      phase = r.appender.phase;
      start = r.appender.start;
      number = r.appender.number;
      tail = r.appender.tail;
      bodies = listed_in 0 r.bytes.items;
      spare_bodies = r.spare_bodies;
      spare_bytes =
          r.spare_bytes;
    } };

    ghost invariant = { λ r. r.appender.phase ≢ Closing
        → IsCopied D.state r.appender r.bytes.items r.gates.items (vec_capacity r.bytes)
        (vec_capacity r.gates) r.spare_bodies r.spare_bytes };
}

/// A disk that wasn't opened, and why.
#[derive(Drop)]
pub struct OpenFailed<D: Disk> {
    pub disk: D,
    pub cause: OpenCause,
}

impl<D: Disk> Redo<D> {
    /// Reads the log of the node of this number, of so many nodes, from its disk. It writes
    /// nothing: it makes the room that `start` needs, syncs, and reads the disk once.
    ///
    /// `Fault` comes only where the disk's count of faults rose, `Damaged` exactly where the disk's
    /// bytes are outside the grammar, with the place of the fault, and `NoMemory` where there is no
    /// room for the bytes. The disk comes back with the cause.
    pub fn open(alloc: Global, disk: D, node: NodeNo, nodes: u8) -> Result<Redo<D>, OpenFailed<D>>
        // The list is that of the bytes that the disk had; a fresh disk has none.
        ensures read { (D.state disk).honest
            → IfOk result (λ redo. Stands node.0 nodes (D.state disk).content redo.bodies) }
        ensures stands { (D.state disk).honest
            → IfOk result (λ redo. StandsFor (D.state redo.disk) node.0 nodes redo.bodies) }
        ensures fresh { (D.state disk).honest
            → IfOk result (λ redo. redo.phase ≡ Phase.Fresh → IsFresh (D.state disk).content) }
        ensures used { (D.state disk).honest
            → IfOk result (λ redo. redo.phase ≡ Phase.Started
            → IsLogAt node.0 nodes (D.state disk).content redo.number redo.start redo.bodies) }
        ensures tail { IfOk result (λ redo. redo.tail ≡ length (records redo.bodies)) }
        ensures going { IfOk result (λ redo. redo.phase ≢ Phase.Closing) }
        ensures node { IfOk result (λ redo. redo.node ≡ node.0) }
        ensures nodes { IfOk result (λ redo. redo.nodes ≡ nodes) }
        ensures damaged { (D.state disk).honest → (at : ℕ)
            → IfErr result (λ failed. failed.cause ≡ causes.Damaged at
            → IsDamaged node.0 nodes (D.state disk).content at) }
        ensures fault { IfErr result
            (λ failed. failed.cause ≡ causes.Fault → Rose (D.faults disk) (D.faults failed.disk)) }
        ensures later_ok { IfOk result (λ redo. D.faults disk ≤ D.faults redo.disk) }
        ensures later_err { IfErr result (λ failed. D.faults disk ≤ D.faults failed.disk) }

        // Nothing was written.
        ensures content { (D.state disk).honest
            → IfOk result (λ redo. (D.state redo.disk).content ≡ (D.state disk).content) }
        ensures content_damaged { (D.state disk).honest → (at : ℕ)
            → IfErr result (λ failed. failed.cause ≡ causes.Damaged at
            → (D.state failed.disk).content ≡ (D.state disk).content) }
        ensures unwritten_ok { (D.state disk).honest
            → IfOk result (λ redo. WritesNothing (D.state disk) (D.state redo.disk)) }
        ensures unwritten_err { (D.state disk).honest
            → IfErr result (λ failed. WritesNothing (D.state disk) (D.state failed.disk)) }
        ensures images_ok { (D.state disk).honest
            → IfOk result (λ redo. NoneNew (D.state disk) (D.state redo.disk)) }
        ensures images_err { (D.state disk).honest
            → IfErr result (λ failed. NoneNew (D.state disk) (D.state failed.disk)) }
        ensures honest_ok { (D.state disk).honest
            → IfOk result (λ redo. (D.state redo.disk).honest) }
        ensures honest_err { (D.state disk).honest
            → IfErr result (λ failed. (D.state failed.disk).honest) }
        ensures no_better_ok { IfOk result
            (λ redo. (D.state redo.disk).honest → (D.state disk).honest) }
        ensures no_better_err { IfErr result
            (λ failed. (D.state failed.disk).honest → (D.state disk).honest) }
    {
        let mut appender = Appender::new(alloc, disk, node.0, nodes);
        match appender.read(alloc) {
            Ok(found) => Ok(Redo {
                appender,
                bytes: found.bytes,
                gates: found.gates,
                spare_bodies: 0,
                spare_bytes: 0,
            }),
            Err(cause) => Err(OpenFailed {
                disk: appender.close(),
                cause,
            }),
        }
    }

    /// Reads the log again from its disk, as `open` does, whatever the last call left. It writes
    /// nothing.
    ///
    /// The causes are those of `open`. After an error only `reopen` and `close` may be called.
    pub fn reopen(&mut self, alloc: Global) -> Result<(), OpenCause>
        // The list is that of the bytes that the disk had; a fresh disk has none.
        ensures read { (D.state self.old.disk).honest
            → OnOk result (Stands self.old.node self.old.nodes
            (D.state self.old.disk).content self.new.bodies) }
        ensures stands { (D.state self.old.disk).honest
            → OnOk result (StandsFor (D.state self.new.disk) self.old.node self.old.nodes
            self.new.bodies) }
        ensures none { OnOk result (self.new.phase ≡ Phase.Fresh → self.new.bodies ≡ []) }
        ensures tail { OnOk result (self.new.tail ≡ length (records self.new.bodies)) }
        ensures fresh { (D.state self.old.disk).honest
            → OnOk result (self.new.phase ≡ Phase.Fresh → IsFresh (D.state self.old.disk).content) }
        ensures going { OnOk result (self.new.phase ≢ Phase.Closing) }
        ensures closing { OnErr result (self.new.phase ≡ Phase.Closing) }
        ensures node { self.new.node ≡ self.old.node }
        ensures nodes { self.new.nodes ≡ self.old.nodes }
        ensures damaged { (D.state self.old.disk).honest → (at : ℕ)
            → IsErrOf result (causes.Damaged at)
            → IsDamaged self.old.node self.old.nodes (D.state self.old.disk).content at }

        // Whatever bytes the disk gave, they are damaged there.
        ensures told { (at : ℕ) → IsErrOf result (causes.Damaged at) → (content : List ℕ)
            × IsDamaged self.old.node self.old.nodes content at }
        ensures fault { IsErrOf result causes.Fault
            → Rose (D.faults self.old.disk) (D.faults self.new.disk) }
        ensures later { D.faults self.old.disk ≤ D.faults self.new.disk }

        // Nothing was written.
        ensures unwritten { (D.state self.old.disk).honest
            → WritesNothing (D.state self.old.disk) (D.state self.new.disk) }
        ensures images { (D.state self.old.disk).honest
            → NoneNew (D.state self.old.disk) (D.state self.new.disk) }
        ensures header_stays { ((D.state self.old.disk).honest → HasHeader (D.state self.old.disk))
            → (D.state self.new.disk).honest → HasHeader (D.state self.new.disk) }
        ensures honest { (D.state self.old.disk).honest → (D.state self.new.disk).honest }
        ensures no_better { (D.state self.new.disk).honest → (D.state self.old.disk).honest }
    {
        let found = self.appender.read(alloc)?;
        self.bytes = found.bytes;
        self.gates = found.gates;
        self.spare_bodies = 0;
        self.spare_bytes = 0;
        Ok(())
    }

    /// Gives a fresh disk its header; of a disk that has one it calls nothing. `Fault` comes only
    /// where the disk's count of faults rose; after it only `close` may be called.
    pub fn start(&mut self) -> Result<(), Fault>
        requires going { self.old.phase ≢ Phase.Closing }
        ensures started { OnOk result (self.new.phase ≡ Phase.Started) }
        ensures closing { OnErr result (self.new.phase ≡ Phase.Closing) }
        ensures bodies { self.new.bodies ≡ self.old.bodies }
        ensures spare_bodies { self.new.spare_bodies ≡ self.old.spare_bodies }
        ensures spare_bytes { self.new.spare_bytes ≡ self.old.spare_bytes }
        ensures place { self.new.start ≡ self.old.start }
        ensures number { self.new.number ≡ self.old.number }
        ensures tail { self.new.tail ≡ self.old.tail }
        ensures stands { (D.state self.old.disk).honest
            → StandsFor (D.state self.new.disk) self.old.node self.old.nodes self.old.bodies }
        ensures used { self.old.phase ≡ Phase.Started → self.new ≡ self.old }
        ensures used_ok { self.old.phase ≡ Phase.Started → IsOk result }

        // At Ok no image of the disk is fresh.
        ensures header { (D.state self.old.disk).honest
            → OnOk result (HasHeader (D.state self.new.disk)) }
        ensures header_stays { ((D.state self.old.disk).honest → HasHeader (D.state self.old.disk))
            → (D.state self.new.disk).honest → HasHeader (D.state self.new.disk) }

        // A crash at any moment of the call leaves a disk that stands for the same list.
        ensures any_moment { (D.state self.old.disk).honest
            → LeavesOnly (D.state self.old.disk) (D.state self.new.disk)
            (λ c. Stands self.old.node self.old.nodes c self.old.bodies) }
        ensures node { self.new.node ≡ self.old.node }
        ensures nodes { self.new.nodes ≡ self.old.nodes }
        ensures honest { (D.state self.old.disk).honest → (D.state self.new.disk).honest }
        ensures no_better { (D.state self.new.disk).honest → (D.state self.old.disk).honest }
        ensures cause { HasCause (D.faults self.old.disk) (D.faults self.new.disk) result }
    {
        self.appender.start()
    }

    /// Takes the memory for so many more bodies with so many bytes in them, on the disk too: the
    /// spare numbers are both at least so much. `NoMemory` where there is none; then nothing but
    /// the room has changed.
    pub fn reserve(&mut self, bodies: u32, bytes: usize) -> Result<(), NoMemory>
        requires going { self.old.phase ≢ Phase.Closing }
        ensures spare_bodies { OnOk result (bodies ≤ self.new.spare_bodies) }
        ensures spare_bytes { OnOk result (bytes ≤ self.new.spare_bytes) }
        ensures no_fewer { self.old.spare_bodies ≤ self.new.spare_bodies }
        ensures no_less { self.old.spare_bytes ≤ self.new.spare_bytes }
        ensures phase { self.new.phase ≡ self.old.phase }
        ensures place { self.new.start ≡ self.old.start }
        ensures number { self.new.number ≡ self.old.number }
        ensures tail { self.new.tail ≡ self.old.tail }
        ensures bodies { self.new.bodies ≡ self.old.bodies }
        ensures node { self.new.node ≡ self.old.node }
        ensures nodes { self.new.nodes ≡ self.old.nodes }
        ensures stays { (D.state self.old.disk).honest
            → DiskStays (D.state self.old.disk) (D.state self.new.disk) }
        ensures header_stays { ((D.state self.old.disk).honest → HasHeader (D.state self.old.disk))
            → (D.state self.new.disk).honest → HasHeader (D.state self.new.disk) }
        ensures no_better { (D.state self.new.disk).honest → (D.state self.old.disk).honest }
        ensures faults { D.faults self.new.disk ≡ D.faults self.old.disk }
    {
        let bodies = self.spare_bodies.max(bodies);
        let bytes = self.spare_bytes.max(bytes);
        self.appender.reserve(bodies, bytes)?;
        let count = bodies as usize;
        make_room(&mut self.gates, count, GATES_AT_ONCE)?;
        make_room(&mut self.bytes, bytes + 5 * count, BYTES_AT_ONCE)?;
        self.spare_bodies = bodies;
        self.spare_bytes = bytes;
        Ok(())
    }

    /// Adds a body of fewer than 2^32 bytes at the end of the list; at `Ok` it is stable. It uses
    /// up one spare body and as many spare bytes as the body has. `Fault` comes only where the
    /// disk's count of faults rose; after it only `close` may be called.
    pub fn append(&mut self, body: &[u8]) -> Result<(), Fault>
        requires started { self.old.phase ≡ Phase.Started }
        requires size { length body.now < 2 ^ 32 }
        requires spare_body { 0 < self.old.spare_bodies }
        requires spare_bytes { length body.now ≤ self.old.spare_bytes }
        ensures started { OnOk result (self.new.phase ≡ Phase.Started) }
        ensures closing { OnErr result (self.new.phase ≡ Phase.Closing) }
        ensures list { OnOk result (self.new.bodies ≡ self.old.bodies ++ body.now ∷ []) }
        ensures bodies { OnOk result (self.old.spare_bodies ≤ self.new.spare_bodies + 1) }
        ensures bytes { OnOk result (self.old.spare_bytes
            ≤ self.new.spare_bytes + length body.now) }
        ensures place { self.new.start ≡ self.old.start }
        ensures number { self.new.number ≡ self.old.number }
        ensures tail { OnOk result (self.new.tail ≡ self.old.tail + 5 + length body.now) }

        // At Ok each image of the disk stands for the list with the body.
        ensures stable { (D.state self.old.disk).honest
            → OnOk result (StandsFor (D.state self.new.disk) self.old.node self.old.nodes
            (self.old.bodies ++ body.now ∷ [])) }

        // A crash at any moment of the call leaves the list from before it, with the body or
        // without.
        ensures any_moment { (D.state self.old.disk).honest
            → LeavesOnly (D.state self.old.disk) (D.state self.new.disk)
            (IsBeforeOrAfter self.old.node self.old.nodes self.old.bodies body.now) }
        ensures images { (D.state self.old.disk).honest → (c : List ℕ)
            → (D.state self.new.disk).images c
            → IsBeforeOrAfter self.old.node self.old.nodes self.old.bodies body.now c }
        ensures header { (D.state self.old.disk).honest → HasHeader (D.state self.new.disk) }
        ensures node { self.new.node ≡ self.old.node }
        ensures nodes { self.new.nodes ≡ self.old.nodes }
        ensures honest { (D.state self.old.disk).honest → (D.state self.new.disk).honest }
        ensures no_better { (D.state self.new.disk).honest → (D.state self.old.disk).honest }
        ensures cause { HasCause (D.faults self.old.disk) (D.faults self.new.disk) result }
    {
        self.appender.append(body)?;
        let gate = self.bytes.len() - 1;
        stage(&mut self.bytes, body);
        self.bytes[gate] = 1;
        self.gates.push(gate as u64).unwrap();
        self.spare_bodies -= 1;
        self.spare_bytes -= body.len();
        Ok(())
    }

    /// Whether the log may be shortened: its number isn't the last one.
    pub fn can_shorten(&self) -> bool
        ensures { IsTrue result ↔ (self.now.number ≢ 2 ^ 63) }
    {
        self.appender.can_shorten()
    }

    /// The bytes of records since the log was opened or shortened; at opening of the whole log.
    pub fn tail(&self) -> u64
        ensures { result ≡ self.now.tail }
    {
        self.appender.tail()
    }

    /// Puts another list in place of the log's; at `Ok` it is stable. It uses up one spare body
    /// more than there are bodies, and as many spare bytes as they have. `Fault` comes only where
    /// the disk's count of faults rose; after it only `close` may be called.
    pub fn shorten(&mut self, bodies: &[Bytes]) -> Result<(), Fault>
        requires started { self.old.phase ≡ Phase.Started }
        requires can { self.old.number ≢ 2 ^ 63 }
        requires sizes { HaveSizes bodies.now }
        requires spare_bodies { length bodies.now < self.old.spare_bodies }
        requires spare_bytes { total bodies.now ≤ self.old.spare_bytes }
        ensures started { OnOk result (self.new.phase ≡ Phase.Started) }
        ensures closing { OnErr result (self.new.phase ≡ Phase.Closing) }
        ensures list { OnOk result (self.new.bodies ≡ bodies.now) }
        ensures bodies { OnOk result (self.old.spare_bodies
            ≤ self.new.spare_bodies + length bodies.now + 1) }
        ensures bytes { OnOk result (self.old.spare_bytes
            ≤ self.new.spare_bytes + total bodies.now) }
        ensures number { OnOk result (self.new.number ≡ self.old.number + 1) }
        ensures place { OnOk result (self.new.start ≡ place_for self.old.start
            (self.old.start + length (records self.old.bodies)) (length (whole_log bodies.now))) }
        ensures tail { OnOk result (self.new.tail ≡ 0) }

        // At Ok each image of the disk stands for the new list.
        ensures stable { (D.state self.old.disk).honest
            → OnOk result (StandsFor (D.state self.new.disk) self.old.node self.old.nodes
            bodies.now) }

        // A crash at any moment of the call leaves the old list or the new one.
        ensures any_moment { (D.state self.old.disk).honest
            → LeavesOnly (D.state self.old.disk) (D.state self.new.disk)
            (IsOneOrOther self.old.node self.old.nodes self.old.bodies bodies.now) }
        ensures images { (D.state self.old.disk).honest → (c : List ℕ)
            → (D.state self.new.disk).images c
            → IsOneOrOther self.old.node self.old.nodes self.old.bodies bodies.now c }
        ensures header { (D.state self.old.disk).honest → HasHeader (D.state self.new.disk) }
        ensures node { self.new.node ≡ self.old.node }
        ensures nodes { self.new.nodes ≡ self.old.nodes }
        ensures honest { (D.state self.old.disk).honest → (D.state self.new.disk).honest }
        ensures no_better { (D.state self.new.disk).honest → (D.state self.old.disk).honest }
        ensures cause { HasCause (D.faults self.old.disk) (D.faults self.new.disk) result }
    {
        self.appender.shorten(bodies)?;
        stage_all(&mut self.bytes, bodies);
        place_all(&mut self.gates, bodies);
        self.spare_bodies -= bodies.len() as u32 + 1;
        self.spare_bytes -= self.bytes.len() - 1 - 5 * bodies.len();
        Ok(())
    }

    /// Writes all of a body's record but its open gate, so that a crash leaves the list without it.
    /// After it only `close` may be called. `Fault` comes only where the disk's count of faults
    /// rose.
    pub fn write_half(&mut self, body: &[u8]) -> Result<(), Fault>
        requires started { self.old.phase ≡ Phase.Started }
        requires size { length body.now < 2 ^ 32 }
        requires spare_body { 0 < self.old.spare_bodies }
        requires spare_bytes { length body.now ≤ self.old.spare_bytes }
        ensures closing { self.new.phase ≡ Phase.Closing }
        ensures stands { (D.state self.old.disk).honest
            → StandsFor (D.state self.new.disk) self.old.node self.old.nodes self.old.bodies }
        ensures any_moment { (D.state self.old.disk).honest
            → LeavesOnly (D.state self.old.disk) (D.state self.new.disk)
            (λ c. Stands self.old.node self.old.nodes c self.old.bodies) }

        ensures header { (D.state self.old.disk).honest → HasHeader (D.state self.new.disk) }

        // At Ok the record stands on the disk behind a closed gate.
        ensures half { (D.state self.old.disk).honest
            → OnOk result (IsStagedAt self.old.node self.old.nodes self.old.bodies body.now
            (D.state self.new.disk).content) }
        ensures stable { (D.state self.old.disk).honest
            → OnOk result (IsStable (D.state self.new.disk)) }
        ensures node { self.new.node ≡ self.old.node }
        ensures nodes { self.new.nodes ≡ self.old.nodes }
        ensures honest { (D.state self.old.disk).honest → (D.state self.new.disk).honest }
        ensures no_better { (D.state self.new.disk).honest → (D.state self.old.disk).honest }
        ensures cause { HasCause (D.faults self.old.disk) (D.faults self.new.disk) result }
    {
        self.appender.write_half(body)
    }

    /// The number of the node whose log it is.
    pub fn node(&self) -> u8
        ensures { result ≡ self.now.node }
    {
        self.appender.node()
    }

    /// How many nodes there are.
    pub fn nodes(&self) -> u8
        ensures { result ≡ self.now.nodes }
    {
        self.appender.nodes()
    }

    /// How many bodies there are.
    pub fn count(&self) -> u32
        requires going { self.now.phase ≢ Phase.Closing }
        ensures { result ≡ length self.now.bodies }
    {
        self.gates.len() as u32
    }

    /// The bytes of a body, whose number is below the count.
    pub fn body(&self, number: u32) -> &[u8]
        requires going { self.now.phase ≢ Phase.Closing }
        requires number { number < length self.now.bodies }
        ensures { result.now ≡ get_or self.now.bodies number [] }
    {
        body_of(&self.bytes, &self.gates, number as usize)
    }

    /// The place on the disk of the gate of a body, whose number is below the count.
    pub fn gate(&self, number: u32) -> u64
        requires going { self.now.phase ≢ Phase.Closing }
        requires number { number < length self.now.bodies }
        ensures { result ≡ get_or (places self.now.start self.now.bodies) number 0 }
    {
        self.appender.begins() + self.gates[number as usize]
    }

    /// Whether the disk was read as fresh and `start` hasn't written its header.
    pub fn is_fresh(&self) -> bool
        ensures { IsTrue result ↔ (self.now.phase ≡ Phase.Fresh) }
    {
        self.appender.is_fresh()
    }

    /// The disk, as the last call left it.
    pub fn close(self) -> D
        ensures disk { result ≡ self.disk }

        // Unless a call failed or wrote half a record, each image of it stands for the list.
        ensures stands { self.phase ≢ Phase.Closing → (D.state result).honest
            → StandsFor (D.state result) self.node self.nodes self.bodies }
    {
        self.appender.close()
    }

    /// The same log without the copy of its bodies.
    pub fn into_appender(self) -> Appender<D>
        ensures disk { result.disk ≡ self.disk }
        ensures node { result.node ≡ self.node }
        ensures nodes { result.nodes ≡ self.nodes }
        ensures phase { result.phase ≡ self.phase }
        ensures place { result.start ≡ self.start }
        ensures number { result.number ≡ self.number }
        ensures tail { result.tail ≡ self.tail }
        ensures log { self.phase ≢ Phase.Closing → IsLogOf D.state result self.bodies }
    {
        self.appender
    }
}

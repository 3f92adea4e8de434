ghost use Rattle.std.specs.Prelude.{◌≡◌, ◌≤◌, ◌<◌, ◌+◌, ◌^◌, ℕ, [], length, get_or, IfOk, IsErrOf};
ghost use Rattle.mn_io.specs.DiskModel.{DiskStays};
ghost use Rattle.mn_io.specs.Faults.{Rose};
ghost use Rattle.mn_redo.specs.Grammar.{AreInFront, IsDamaged, places};
ghost use Rattle.mn_redo.specs.Log.{IsFrontKept, listed_in};
ghost use Rattle.mn_redo.specs.declared.open.OpenCause.TheVariants as causes;

use crate::body::body_of;
use crate::open::{Found, OpenCause, read_log, read_whole};
use mn_base::NodeNo;
use mn_io::Disk;
use std::alloc::Global;
use std::marker::Model;

/// The bodies of the whole records in front of the closed gate or the damage of a log.
#[derive(Drop)]
pub struct Front {
    /// Where the log begins on its disk.
    start: u64,
    bytes: Vec<u8>,
    gates: Vec<u64>,
}

impl Model for Front {
    ghost use Rattle.std.specs.Prelude.{◌≤◌, ◌+◌, ◌^◌, length};
    ghost use Rattle.mn_redo.specs.Log.{FrontState, IsFrontKept, listed_in};

    ghost Value = { FrontState };

    ghost view = { λ f. record { start = f.start; bodies = listed_in 0 f.bytes.items } };

    ghost invariant = { λ f. IsFrontKept f.bytes.items f.gates.items
        × (f.start + length f.bytes.items ≤ 2 ^ 63) };
}

impl Front {
    /// Reads what stands in front of the damage that `Redo::open` told of this disk, at its place.
    /// It writes nothing.
    ///
    /// `Fault` comes only where the disk's count of faults rose, `NoMemory` where there is no room
    /// for the bytes, and `Damaged` where the disk gave other bytes than before: an honest disk
    /// never does.
    pub fn read<D: Disk>(
        alloc: Global,
        disk: &mut D,
        node: NodeNo,
        nodes: u8,
        at: u64,
    ) -> Result<Front, OpenCause>
        ensures front { (D.state disk.old).honest
            → IsDamaged node.0 nodes (D.state disk.old).content at
            → IfOk result (λ front. AreInFront node.0 nodes (D.state disk.old).content at
            front.start front.bodies) }
        ensures damaged { (D.state disk.old).honest
            → IsDamaged node.0 nodes (D.state disk.old).content at → (other : ℕ)
            → IsErrOf result (causes.Damaged other) → ⊥ }
        ensures fault { IsErrOf result causes.Fault → Rose (D.faults disk.old) (D.faults disk.new) }
        ensures later { D.faults disk.old ≤ D.faults disk.new }

        // Nothing was written.
        ensures same { (D.state disk.old).honest → DiskStays (D.state disk.old) (D.state disk.new) }
        ensures no_better { (D.state disk.new).honest → (D.state disk.old).honest }
    {
        let mut bytes = read_whole(alloc, disk)?;
        bytes.truncate(at as usize);
        bytes.push(0)?;
        let found = read_log(alloc, bytes, node.0, nodes)?;
        Ok(Front::of(found))
    }

    /// The bodies of a log that was read.
    pub(crate) fn of(found: Found) -> Front
        requires kept { IsFrontKept found.bytes.items found.gates.items }
        requires near { found.start + length found.bytes.items ≤ 2 ^ 63 }
        ensures start { result.start ≡ found.start }
        ensures bodies { result.bodies ≡ listed_in 0 found.bytes.items }
    {
        Front {
            start: found.start,
            bytes: found.bytes,
            gates: found.gates,
        }
    }

    /// How many bodies there are.
    pub fn count(&self) -> u32
        ensures { result ≡ length self.now.bodies }
    {
        self.gates.len() as u32
    }

    /// The bytes of a body, whose number is below the count.
    pub fn body(&self, number: u32) -> &[u8]
        requires number { number < length self.now.bodies }
        ensures { result.now ≡ get_or self.now.bodies number [] }
    {
        body_of(&self.bytes, &self.gates, number as usize)
    }

    /// The place on the disk of the gate of a body, whose number is below the count.
    pub fn gate(&self, number: u32) -> u64
        requires number { number < length self.now.bodies }
        ensures { result ≡ get_or (places self.now.start self.now.bodies) number 0 }
    {
        self.start + self.gates[number as usize]
    }
}

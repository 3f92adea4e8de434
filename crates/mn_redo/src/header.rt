ghost use Rattle.std.specs.Prelude.{◌≡◌, ◌≤◌, ◌<◌, ◌+◌, ◌++◌, ◌∷◌, [], ◌↔◌, length, take, OnOk};
ghost use Rattle.std.specs.Prelude.{IsTrue, replicate};
ghost use Rattle.mn_io.specs.Faults.{HasCause};
ghost use Rattle.mn_io.specs.DiskModel.{IsStable, LeavesOnly};
ghost use Rattle.mn_redo.specs.Grammar.{header, IsFresh, IsLogAt, Stands};

use mn_ckpt::{change, cut_to};
use mn_io::{Disk, Failed};

/// The first 16 bytes of a log.
pub fn header_of(node: u8, nodes: u8) -> [u8; 16]
    ensures { result ≡ header node nodes }
{
    [1, 77, 78, 76, 79, 71, 2, node, nodes, 0, 0, 0, 0, 0, 0, 0]
}

/// The bytes of a log of no bodies, with closed areas, up to its closed gate.
pub fn empty_log(node: u8, nodes: u8) -> [u8; 81]
    ensures { result ≡ header node nodes ++ replicate 65 0 }
{
    [
        1, 77, 78, 76, 79, 71, 2, node, nodes, 0, 0, 0, 0, 0, 0, 0, 0, 0, 0, 0, 0, 0, 0, 0, 0, 0,
        0, 0, 0, 0, 0, 0, 0, 0, 0, 0, 0, 0, 0, 0, 0, 0, 0, 0, 0, 0, 0, 0, 0, 0, 0, 0, 0, 0, 0, 0,
        0, 0, 0, 0, 0, 0, 0, 0, 0, 0, 0, 0, 0, 0, 0, 0, 0, 0, 0, 0, 0, 0, 0, 0, 0,
    ]
}

/// Whether a disk with these bytes has no header yet.
pub fn is_fresh(bytes: &[u8]) -> bool
    ensures { IsTrue result ↔ IsFresh bytes.now }
{
    bytes.len() < 81 || bytes[0] != 1
}

/// Whether the first 16 bytes are the header.
pub fn has_header(bytes: &[u8], node: u8, nodes: u8) -> bool
    requires { 16 ≤ length bytes.now }
    ensures { IsTrue result ↔ (take 16 bytes.now ≡ header node nodes) }
{
    bytes[..16] == header_of(node, nodes)[..]
}

/// Gives a fresh disk its header and two closed areas. Its first byte, the gate, is written last,
/// so that a crash at any moment leaves a disk that stands for no bodies.
pub fn write_header<D: Disk>(disk: &mut D, node: u8, nodes: u8, bytes: &[u8]) -> Result<(), Failed>
    requires bytes { bytes.now ≡ header node nodes ++ replicate 65 0 }
    requires fresh { (D.state disk.old).honest → IsFresh (D.state disk.old).content }
    requires stable { (D.state disk.old).honest → IsStable (D.state disk.old) }
    requires changes { 8 ≤ D.spare_changes disk.old }
    requires room { 82 ≤ D.spare_bytes disk.old }
    ensures log { (D.state disk.old).honest
        → OnOk result (IsLogAt node nodes (D.state disk.new).content 0 80 []) }
    ensures stable { (D.state disk.old).honest → OnOk result (IsStable (D.state disk.new)) }
    ensures honest { (D.state disk.old).honest → (D.state disk.new).honest }
    ensures no_better { (D.state disk.new).honest → (D.state disk.old).honest }
    ensures any_moment { (D.state disk.old).honest
        → LeavesOnly (D.state disk.old) (D.state disk.new) (λ c. Stands node nodes c []) }
    ensures changes { D.spare_changes disk.old ≤ D.spare_changes disk.new + 8 }
    ensures room { D.spare_bytes disk.old ≤ D.spare_bytes disk.new + 82 }
    ensures cause { HasCause (D.faults disk.old) (D.faults disk.new) result }
{
    cut_to(disk, 0)?;
    change(disk, 0, &[0])?;
    change(disk, 1, &bytes[1..])?;
    change(disk, 0, &[1])
}

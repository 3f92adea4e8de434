ghost use Rattle.std.specs.Prelude.{◌≡◌, ◌≢◌, ◌≤◌, ◌+◌, ◌↔◌, length, OnOk, IfOk, IfSome, IsSome};
ghost use Rattle.std.specs.Prelude.{IsNone, IsErrOf};
ghost use Rattle.mn_io.specs.Faults.{HasCause};
ghost use Rattle.mn_io.specs.DiskModel.{DiskStays, IsStable, LeavesOnly};
ghost use Rattle.mn_ckpt.specs.Area.{gate_of, image_of, IsClosed, IsClosedOrOld, IsWritten};
ghost use Rattle.mn_ckpt.specs.Area.{IsClosedOldOrWritten};

use crate::error::ImageError;
use crate::synced::change;
use mn_io::{Bytes, Disk, Failed, Fault};
use std::alloc::Global;

/// The place of the gate of an area.
fn gate_at(area: u8) -> u64
    requires area { area ≤ 1 }
    ensures { result ≡ Rattle.mn_ckpt.specs.Area.gate_place area }
{
    16 + 32 * area as u64
}

/// Closes an area that is open, and syncs. One that is closed isn't written: a crash might leave it
/// open over bytes that mean nothing.
fn close<D: Disk>(disk: &mut D, area: u8) -> Result<(), Failed>
    requires area { area ≤ 1 }
    requires within { (D.state disk.old).honest → 80 ≤ length (D.state disk.old).content }
    requires changes { 2 ≤ D.spare_changes disk.old }
    requires room { 1 ≤ D.spare_bytes disk.old }
    ensures closed { (D.state disk.old).honest
        → OnOk result (IsClosed area (D.state disk.old).content (D.state disk.new).content) }
    ensures stable { (D.state disk.old).honest → IsStable (D.state disk.old)
        → OnOk result (IsStable (D.state disk.new)) }
    ensures any_moment { (D.state disk.old).honest → IsStable (D.state disk.old)
        → LeavesOnly (D.state disk.old) (D.state disk.new)
        (IsClosedOrOld area (D.state disk.old).content) }
    ensures honest { (D.state disk.old).honest → (D.state disk.new).honest }
    ensures no_better { (D.state disk.new).honest → (D.state disk.old).honest }
    ensures changes { D.spare_changes disk.old ≤ D.spare_changes disk.new + 2 }
    ensures bytes { D.spare_bytes disk.old ≤ D.spare_bytes disk.new + 1 }
    ensures cause { HasCause (D.faults disk.old) (D.faults disk.new) result }
{
    let at = gate_at(area);
    let mut gate = [0u8; 1];
    disk.read(at, &mut gate)?;
    if gate[0] != 1 {
        return Ok(());
    }
    change(disk, at, &[0])
}

/// Writes an image of 16 bytes into an area and opens its gate: the gate is closed where it is
/// open, the image is written behind it, and the gate is written as 1, with a sync after each.
/// `Fault` comes only where the disk's count of faults rose.
pub fn write_image<D: Disk>(disk: &mut D, area: u8, image: &[u8]) -> Result<(), Fault>
    requires area { area ≤ 1 }
    requires size { length image.now ≡ 16 }
    requires within { (D.state disk.old).honest → 80 ≤ length (D.state disk.old).content }
    requires changes { 6 ≤ D.spare_changes disk.old }
    requires room { 18 ≤ D.spare_bytes disk.old }
    ensures written { (D.state disk.old).honest
        → OnOk result (IsWritten area image.now (D.state disk.old).content
        (D.state disk.new).content) }
    ensures stable { (D.state disk.old).honest → OnOk result (IsStable (D.state disk.new)) }

    // Over a stable disk a crash at any moment leaves the bytes from before, a closed area, or the
    // area open with the image.
    ensures any_moment { (D.state disk.old).honest → IsStable (D.state disk.old)
        → LeavesOnly (D.state disk.old) (D.state disk.new)
        (IsClosedOldOrWritten area image.now (D.state disk.old).content) }
    ensures honest { (D.state disk.old).honest → (D.state disk.new).honest }
    ensures no_better { (D.state disk.new).honest → (D.state disk.old).honest }
    ensures changes { D.spare_changes disk.old ≤ D.spare_changes disk.new + 6 }
    ensures bytes { D.spare_bytes disk.old ≤ D.spare_bytes disk.new + 18 }
    ensures cause { HasCause (D.faults disk.old) (D.faults disk.new) result }
{
    close(disk, area)?;
    let at = gate_at(area);
    change(disk, at + 1, image)?;
    change(disk, at, &[1])?;
    Ok(())
}

/// The image of an area in the first bytes of a disk, where its gate is open.
pub fn image_in(content: &[u8], area: u8) -> Option<&[u8]>
    requires area { area ≤ 1 }
    requires within { 80 ≤ length content.now }
    ensures some { IsSome result ↔ (gate_of area content.now ≡ 1) }
    ensures image { IfSome result (λ image. image.now ≡ image_of area content.now) }
{
    let at = gate_at(area) as usize;
    if content[at] != 1 {
        return None;
    }
    Some(&content[at + 1..at + 17])
}

/// Reads the image of an area; None exactly where its gate is closed. It writes nothing. `Fault`
/// comes only where the disk's count of faults rose.
pub fn read_image<D: Disk>(
    alloc: Global,
    disk: &mut D,
    area: u8,
) -> Result<Option<Bytes>, ImageError>
    requires area { area ≤ 1 }
    requires within { (D.state disk.old).honest → 80 ≤ length (D.state disk.old).content }
    ensures some { (D.state disk.old).honest
        → IfOk result (λ read. IsSome read ↔ (gate_of area (D.state disk.old).content ≡ 1)) }
    ensures image { (D.state disk.old).honest
        → IfOk result (λ read. IfSome read
        (λ image. image ≡ image_of area (D.state disk.old).content)) }
    ensures same { (D.state disk.old).honest → DiskStays (D.state disk.old) (D.state disk.new) }
    ensures no_better { (D.state disk.new).honest → (D.state disk.old).honest }
    ensures changes { D.spare_changes disk.old ≤ D.spare_changes disk.new }
    ensures bytes { D.spare_bytes disk.old ≤ D.spare_bytes disk.new }
    ensures later { D.faults disk.old ≤ D.faults disk.new }
    ensures fault { IsErrOf result ImageError.Fault
        → Rattle.mn_io.specs.Faults.Rose (D.faults disk.old) (D.faults disk.new) }
{
    let mut front = [0u8; 80];
    disk.read(0, &mut front)?;
    match image_in(&front, area) {
        Some(image) => Ok(Some(Bytes::from_vec(Vec::from_slice(alloc, image)?))),
        None => Ok(None),
    }
}

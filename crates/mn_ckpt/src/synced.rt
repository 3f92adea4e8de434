ghost use Rattle.std.specs.Prelude.{◌≡◌, ◌≤◌, ◌+◌, length, take, OnOk};
ghost use Rattle.mn_io.specs.Faults.{HasCause};
ghost use Rattle.mn_io.specs.DiskModel.{Cut, IsStable, LeavesOnly, Torn, written_at};

use mn_io::{Disk, Failed};

/// Writes a piece over a disk, and syncs.
pub fn change<D: Disk>(disk: &mut D, at: u64, piece: &[u8]) -> Result<(), Failed>
    requires within { (D.state disk.old).honest → at ≤ length (D.state disk.old).content }
    requires changes { 2 ≤ D.spare_changes disk.old }
    requires room { length piece.now ≤ D.spare_bytes disk.old }
    ensures written { (D.state disk.old).honest
        → OnOk result ((D.state disk.new).content
        ≡ written_at (D.state disk.old).content at piece.now) }
    ensures stable { (D.state disk.old).honest → OnOk result (IsStable (D.state disk.new)) }
    ensures honest { (D.state disk.old).honest → (D.state disk.new).honest }
    ensures no_better { (D.state disk.new).honest → (D.state disk.old).honest }

    // Over a stable disk a crash at any moment leaves the bytes from before outside the range.
    ensures any_moment { (D.state disk.old).honest → IsStable (D.state disk.old)
        → LeavesOnly (D.state disk.old) (D.state disk.new)
        (Torn at (length piece.now) (D.state disk.old).content) }
    ensures changes { D.spare_changes disk.old ≤ D.spare_changes disk.new + 2 }
    ensures bytes { D.spare_bytes disk.old ≤ D.spare_bytes disk.new + length piece.now }
    ensures cause { HasCause (D.faults disk.old) (D.faults disk.new) result }
{
    disk.write_at(at, piece)?;
    disk.sync()?;
    Ok(())
}

/// Cuts a disk to a length, which isn't above the one that it has, and syncs.
pub fn cut_to<D: Disk>(disk: &mut D, length: u64) -> Result<(), Failed>
    requires within { (D.state disk.old).honest
        → length ≤ Rattle.std.specs.Prelude.length (D.state disk.old).content }
    requires changes { 2 ≤ D.spare_changes disk.old }
    ensures cut { (D.state disk.old).honest
        → OnOk result ((D.state disk.new).content ≡ take length (D.state disk.old).content) }
    ensures stable { (D.state disk.old).honest → OnOk result (IsStable (D.state disk.new)) }
    ensures honest { (D.state disk.old).honest → (D.state disk.new).honest }
    ensures no_better { (D.state disk.new).honest → (D.state disk.old).honest }

    // Over a stable disk a crash at any moment leaves a front of the bytes from before.
    ensures any_moment { (D.state disk.old).honest → IsStable (D.state disk.old)
        → LeavesOnly (D.state disk.old) (D.state disk.new) (Cut length (D.state disk.old).content) }
    ensures changes { D.spare_changes disk.old ≤ D.spare_changes disk.new + 2 }
    ensures bytes { D.spare_bytes disk.old ≤ D.spare_bytes disk.new }
    ensures cause { HasCause (D.faults disk.old) (D.faults disk.new) result }
{
    disk.cut(length)?;
    disk.sync()?;
    Ok(())
}

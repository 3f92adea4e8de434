ghost use Rattle.std.specs.Prelude.{◌≡◌, ◌≢◌, ◌≤◌, ◌<◌, ◌+◌, ◌^◌, ℕ, List, length, OnOk};
ghost use Rattle.mn_io.specs.Faults.{HasCause};
ghost use Rattle.mn_io.specs.DiskModel.{IsStable, LeavesOnly};
ghost use Rattle.mn_redo.specs.Grammar.{IsLogAt, IsLogOneOrOther, IsReplacing, place_for};
ghost use Rattle.mn_redo.specs.Grammar.{HasLog, whole_log};

use crate::area::image_for;
use mn_ckpt::{change, cut_to, write_image};
use mn_io::{Disk, Fault};

/// Where a new list of so many bytes is written.
pub fn choose_place(start: u64, gate: u64, size: u64) -> u64
    requires near { gate < 2 ^ 63 }
    requires small { size < 2 ^ 63 }
    ensures { result ≡ place_for start gate size }
{
    if 80 + size <= start {
        return 80;
    }
    gate + 1
}

/// Cuts what lies behind a log that begins at 80 and has so many bytes. Behind another one nothing
/// is cut.
fn trim<D: Disk>(disk: &mut D, place: u64, size: u64) -> Result<(), Fault>
    requires size { size < 2 ^ 63 }
    requires within { (D.state disk.old).honest → place ≡ 80
        → 80 + size ≤ length (D.state disk.old).content }
    requires stable { (D.state disk.old).honest → IsStable (D.state disk.old) }
    requires changes { 2 ≤ D.spare_changes disk.old }
    ensures log { (D.state disk.old).honest → (node nodes number : ℕ) (bodies : List (List ℕ))
        → IsLogAt node nodes (D.state disk.old).content number place bodies
        → size ≡ length (whole_log bodies)
        → OnOk result (IsLogAt node nodes (D.state disk.new).content number place bodies) }
    ensures any_moment { (D.state disk.old).honest → (node nodes number : ℕ)
        (bodies : List (List ℕ)) → IsLogAt node nodes (D.state disk.old).content number place bodies
        → size ≡ length (whole_log bodies)
        → LeavesOnly (D.state disk.old) (D.state disk.new) (λ c. HasLog node nodes c bodies) }
    ensures stable { (D.state disk.old).honest → OnOk result (IsStable (D.state disk.new)) }
    ensures honest { (D.state disk.old).honest → (D.state disk.new).honest }
    ensures no_better { (D.state disk.new).honest → (D.state disk.old).honest }
    ensures changes { D.spare_changes disk.old ≤ D.spare_changes disk.new + 2 }
    ensures bytes { D.spare_bytes disk.old ≤ D.spare_bytes disk.new }
    ensures cause { HasCause (D.faults disk.old) (D.faults disk.new) result }
{
    if place != 80 {
        return Ok(());
    }
    cut_to(disk, 80 + size)?;
    Ok(())
}

/// Writes a new list beside a log, and makes it the log under the next number: the list is written
/// and synced, the area of the number that isn't current gets it, and what lies behind a list at 80
/// is cut.
pub fn replace<D: Disk>(disk: &mut D, piece: &[u8], place: u64, number: u64) -> Result<(), Fault>
    requires within { (D.state disk.old).honest → place ≤ length (D.state disk.old).content }
    requires place { (D.state disk.old).honest → 80 ≤ place }
    requires near { place + length piece.now < 2 ^ 63 }
    requires stable { (D.state disk.old).honest → IsStable (D.state disk.old) }
    requires few { number < 2 ^ 63 }
    requires changes { 10 ≤ D.spare_changes disk.old }
    requires room { length piece.now + 18 ≤ D.spare_bytes disk.old }
    ensures log { (D.state disk.old).honest → (node nodes : ℕ) (bodies others : List (List ℕ))
        → IsReplacing node nodes (D.state disk.old).content number bodies others piece.now place
        → OnOk result (IsLogAt node nodes (D.state disk.new).content (number + 1) place others) }
    ensures any_moment { (D.state disk.old).honest → (node nodes : ℕ)
        (bodies others : List (List ℕ))
        → IsReplacing node nodes (D.state disk.old).content number bodies others piece.now place
        → LeavesOnly (D.state disk.old) (D.state disk.new)
        (IsLogOneOrOther node nodes bodies others) }
    ensures stable { (D.state disk.old).honest → OnOk result (IsStable (D.state disk.new)) }
    ensures honest { (D.state disk.old).honest → (D.state disk.new).honest }
    ensures no_better { (D.state disk.new).honest → (D.state disk.old).honest }
    ensures changes { D.spare_changes disk.old ≤ D.spare_changes disk.new + 10 }
    ensures bytes { D.spare_bytes disk.old ≤ D.spare_bytes disk.new + length piece.now + 18 }
    ensures cause { HasCause (D.faults disk.old) (D.faults disk.new) result }
{
    change(disk, place, piece)?;
    let next = number + 1;
    write_image(disk, (next % 2) as u8, &image_for(next, place))?;
    trim(disk, place, piece.len() as u64)
}

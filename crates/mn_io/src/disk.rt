ghost use Rattle.std.specs.Prelude.{◌≡◌, ◌≤◌, ◌<◌, ◌+◌, ℕ, List, length, take, drop, IfOk, OnOk};
ghost use Rattle.std.specs.Io.{ReadsAtMost};
ghost use Rattle.mn_io.specs.Faults.{HasCause};
ghost use Rattle.mn_io.specs.DiskModel.{DiskState, IsDisk, Elapses, DiskStays, ImagesFollow};
ghost use Rattle.mn_io.specs.DiskModel.{NoneNew, IsStable, Torn, Cut, written_at};

use crate::{Failed, NoMemory};

/// Bytes that outlive a crash once they are synced.
///
/// `Failed` comes only where the count of faults rose in the call. After it the content is known
/// only as one of the images; a change that failed may or may not stand.
pub trait Disk {
    /// What it means now. Of a disk that isn't honest only the faults and the room are promised,
    /// and it never becomes honest again.
    ghost state: { Self → DiskState };

    /// How often it failed.
    ghost faults: { Self → ℕ };

    /// How many changes it has room for, and how many bytes in them.
    ghost spare_changes: { Self → ℕ };

    ghost spare_bytes: { Self → ℕ };

    /// What a read gives is one of the images, and the clock is one.
    ghost is_disk: { (disk : Self) → (state disk).honest → IsDisk (state disk) };

    /// How many bytes it has.
    fn length(&mut self) -> Result<u64, Failed>
        ensures value { (state self.old).honest
            → IfOk result (λ n. n ≡ length (state self.old).content) }
        ensures same { (state self.old).honest → DiskStays (state self.old) (state self.new) }
        ensures honest { (state self.new).honest → (state self.old).honest }
        ensures changes { spare_changes self.old ≤ spare_changes self.new }
        ensures bytes { spare_bytes self.old ≤ spare_bytes self.new }
        ensures cause { HasCause (faults self.old) (faults self.new) result };

    /// Puts bytes from the place `at` on into `into`, as many as are there and fit, and says how
    /// many.
    fn read(&mut self, at: u64, into: &mut [u8]) -> Result<usize, Failed>
        ensures bound { ReadsAtMost result into.new }
        ensures value { (state self.old).honest
            → IfOk result (λ n. take n into.new
            ≡ take (length into.new) (drop at (state self.old).content)) }
        ensures same { (state self.old).honest → DiskStays (state self.old) (state self.new) }
        ensures honest { (state self.new).honest → (state self.old).honest }
        ensures changes { spare_changes self.old ≤ spare_changes self.new }
        ensures bytes { spare_bytes self.old ≤ spare_bytes self.new }
        ensures cause { HasCause (faults self.old) (faults self.new) result };

    /// Writes a piece at the place `at`, which isn't past the end: over what is there, and beyond
    /// the end. Until a sync, a crash may leave any bytes in the range.
    fn write_at(&mut self, at: u64, piece: &[u8]) -> Result<(), Failed>
        requires within { (state self.old).honest → at ≤ length (state self.old).content }
        requires change { 0 < spare_changes self.old }
        requires room { length piece.now ≤ spare_bytes self.old }
        ensures written { (state self.old).honest
            → OnOk result ((state self.new).content
            ≡ written_at (state self.old).content at piece.now) }
        ensures crash { (state self.old).honest
            → ImagesFollow (Torn at (length piece.now)) (state self.old) (state self.new) }
        ensures time { (state self.old).honest → Elapses (state self.old) (state self.new) }
        ensures honest { (state self.new).honest → (state self.old).honest }
        ensures changes { spare_changes self.old ≤ spare_changes self.new + 1 }
        ensures bytes { spare_bytes self.old ≤ spare_bytes self.new + length piece.now }
        ensures cause { HasCause (faults self.old) (faults self.new) result };

    /// Cuts it to a length, which isn't above the one that it has. Until a sync, a crash may leave
    /// any length between.
    fn cut(&mut self, length: u64) -> Result<(), Failed>
        requires within { (state self.old).honest
            → length ≤ Rattle.std.specs.Prelude.length (state self.old).content }
        requires change { 0 < spare_changes self.old }
        ensures cut { (state self.old).honest
            → OnOk result ((state self.new).content ≡ take length (state self.old).content) }
        ensures crash { (state self.old).honest
            → ImagesFollow (Cut length) (state self.old) (state self.new) }
        ensures time { (state self.old).honest → Elapses (state self.old) (state self.new) }
        ensures honest { (state self.new).honest → (state self.old).honest }
        ensures changes { spare_changes self.old ≤ spare_changes self.new + 1 }
        ensures bytes { spare_bytes self.old ≤ spare_bytes self.new }
        ensures cause { HasCause (faults self.old) (faults self.new) result };

    /// Makes every change stable: at `Ok` a crash leaves what a read gives.
    fn sync(&mut self) -> Result<(), Failed>
        requires { 0 < spare_changes self.old }
        ensures stable { (state self.old).honest → OnOk result (IsStable (state self.new)) }
        ensures same { (state self.old).honest
            → OnOk result ((state self.new).content ≡ (state self.old).content) }
        ensures crash { (state self.old).honest → NoneNew (state self.old) (state self.new) }
        ensures time { (state self.old).honest → Elapses (state self.old) (state self.new) }
        ensures honest { (state self.new).honest → (state self.old).honest }
        ensures changes { spare_changes self.old ≤ spare_changes self.new + 1 }
        ensures bytes { spare_bytes self.old ≤ spare_bytes self.new }
        ensures cause { HasCause (faults self.old) (faults self.new) result };

    /// Takes the memory for so many changes with so many bytes in them: the spare numbers are both
    /// at least so much, and nothing else changes. `NoMemory` where there is none. No other call
    /// takes memory; `write_at`, `cut` and `sync` use up one spare change each.
    fn make_room(&mut self, changes: u32, bytes: usize) -> Result<(), NoMemory>
        ensures room_changes { OnOk result (changes ≤ spare_changes self.new) }
        ensures room_bytes { OnOk result (bytes ≤ spare_bytes self.new) }
        ensures honest { (state self.new).honest → (state self.old).honest }
        ensures no_fewer { spare_changes self.old ≤ spare_changes self.new }
        ensures no_less { spare_bytes self.old ≤ spare_bytes self.new }
        ensures same { (state self.old).honest → DiskStays (state self.old) (state self.new) }
        ensures faults { faults self.new ≡ faults self.old };
}

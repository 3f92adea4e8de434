ghost use Rattle.std.specs.Prelude.{◌≡◌, ◌≢◌, ◌≤◌, false, true};
ghost use Rattle.mn_io.specs.Faults.{next_count};

use crate::memory_disk::MemoryDisk;
use mn_io::{Disk, Failed, NoMemory};
use std::alloc::Global;
use std::cmp::Ordering;
use std::marker::Model;
use std::sync::atomic::AtomicU64;
use std::sync::{Arc, atomic};

/// The moment at which a program stops: a call of one of its disks, counted over all of them.
#[derive(Drop)]
pub struct LastCall {
    number: u64,
    calls: AtomicU64,
}

/// What becomes of a call.
#[derive(Clone, Copy, Debug, PartialEq, Eq)]
enum Turn {
    Goes,
    IsLast,
    IsTooLate,
}

impl LastCall {
    /// The call of this number, from 0. NoMemory: there was none for it.
    pub fn new(alloc: Global, number: u64) -> Result<Arc<LastCall, Global>, NoMemory> {
        Ok(Arc::new(
            alloc,
            LastCall {
                number,
                calls: AtomicU64::new(0),
            },
        )?)
    }

    /// How many calls there were. Behind the last one a disk is counted once, however often it is
    /// called.
    pub fn calls(&self) -> u64 {
        self.calls.load(atomic::Ordering::SeqCst)
    }

    /// Counts a call, and says what becomes of it.
    fn turn(&self) -> Turn {
        let call = self.calls.fetch_add(1, atomic::Ordering::SeqCst);
        match call.cmp(&self.number) {
            Ordering::Less => Turn::Goes,
            Ordering::Equal => Turn::IsLast,
            Ordering::Greater => Turn::IsTooLate,
        }
    }
}

/// Whether a disk has stopped, and how many of its calls failed.
#[derive(Drop)]
struct StopCount {
    last: Arc<LastCall, Global>,
    is_stopped: bool,
    faults: u64,
}

impl StopCount {
    /// Begins a call.
    fn begin(&mut self) -> Turn
        ensures late { self.old.is_stopped ≡ true → result ≡ Turn.IsTooLate }
        ensures stopped { result ≢ Turn.Goes → self.new.is_stopped ≡ true }
        ensures faults { self.new.faults ≡ self.old.faults }
    {
        if self.is_stopped {
            return Turn::IsTooLate;
        }
        let turn = self.last.turn();
        self.is_stopped = turn != Turn::Goes;
        turn
    }

    /// Counts a call that failed.
    fn fail(&mut self)
        ensures stopped { self.new.is_stopped ≡ self.old.is_stopped }
        ensures faults { self.new.faults ≡ next_count self.old.faults }
        ensures later { self.old.faults ≤ self.new.faults }
    {
        self.faults = self.faults.saturating_add(1);
    }
}

/// A disk in memory that stops with others inside a call of one of them. A write or a cut that is
/// stopped may stand, in part too, as `MemoryDisk::crash` chooses. Each later call fails, and
/// touches nothing.
///
/// It is what a program leaves behind that is killed at that moment.
#[derive(Drop)]
pub struct StopsAfter {
    disk: MemoryDisk,
    count: StopCount,
}

impl Model for StopsAfter {
    ghost use Rattle.mn_memdisk.specs.Memory.{StopState};

    ghost Value = { StopState };

    ghost view = { λ s. record {
      disk = s.disk;
      is_stopped = s.count.is_stopped;
      faults = s.count.faults;
    } };
}

impl StopsAfter {
    /// A disk that stops with all others that have this last call.
    pub fn new(disk: MemoryDisk, last: Arc<LastCall, Global>) -> StopsAfter
        ensures { result ≡ record { disk = disk; is_stopped = false; faults = 0 } }
    {
        StopsAfter {
            disk,
            count: StopCount {
                last,
                is_stopped: false,
                faults: 0,
            },
        }
    }

    /// The disk that is left, which counts its calls on from those that reached it.
    pub fn into_disk(self) -> MemoryDisk
        ensures { result ≡ self.disk }
    {
        let StopsAfter {
            disk,
            count: _count,
        } = self;
        disk
    }

    /// How many calls failed.
    pub fn faults(&self) -> u64
        ensures { result ≡ self.now.faults }
    {
        self.count.faults
    }
}

impl Disk for StopsAfter {
    ghost use Rattle.std.specs.Prelude.{◌≡◌, ◌≤◌, ◌<◌, ◌+◌, length, take, drop, true, is_err};
    ghost use Rattle.std.specs.Prelude.{IfOk, OnOk};
    ghost use Rattle.std.specs.Io.{ReadsAtMost};
    ghost use Rattle.mn_io.specs.DiskModel.{Cut, Elapses, ImagesFollow, IsStable, NoneNew};
    ghost use Rattle.mn_io.specs.DiskModel.{DiskStays, Torn, written_at};
    ghost use Rattle.mn_io.specs.Faults.{HasCause};
    ghost use Rattle.mn_io.specs.Memory.{counted};
    ghost use Rattle.mn_memdisk.specs.Laws.{is_disk_of};
    ghost use Rattle.mn_memdisk.specs.Memory.{DidNothing, state_of};

    ghost state = { λ s. state_of s.disk };

    ghost faults = { λ s. s.faults };

    ghost spare_changes = { λ s. s.disk.spare_changes };

    ghost spare_bytes = { λ s. s.disk.spare_bytes };

    ghost is_disk = { λ s honest. is_disk_of s.disk.first s.disk.events s.disk.content honest };

    #[tactic(auto, using(crate::proofs::Stays::disk_stays))]
    fn length(&mut self) -> Result<u64, Failed>
        ensures value { (state_of self.old.disk).honest
            → IfOk result (λ n. n ≡ length (state_of self.old.disk).content) }
        ensures same { (state_of self.old.disk).honest
            → DiskStays (state_of self.old.disk) (state_of self.new.disk) }
        ensures honest { (state_of self.new.disk).honest → (state_of self.old.disk).honest }
        ensures changes { self.old.disk.spare_changes ≤ self.new.disk.spare_changes }
        ensures bytes { self.old.disk.spare_bytes ≤ self.new.disk.spare_bytes }
        ensures cause { HasCause self.old.faults self.new.faults result }

        // A call that fails is counted once, and from the stop on each one fails.
        ensures counted { self.new.faults ≡ counted (is_err result) self.old.faults }
        ensures stopped { self.old.is_stopped ≡ true → DidNothing self.old self.new result }
    {
        if self.count.begin() != Turn::Goes {
            self.count.fail();
            return Err(Failed);
        }
        let result = self.disk.length();
        if result.is_err() {
            self.count.fail();
        }
        result
    }

    #[tactic(auto, using(crate::proofs::Stays::disk_stays))]
    fn read(&mut self, at: u64, into: &mut [u8]) -> Result<usize, Failed>
        ensures bound { ReadsAtMost result into.new }
        ensures value { (state_of self.old.disk).honest
            → IfOk result (λ n. take n into.new
            ≡ take (length into.new) (drop at (state_of self.old.disk).content)) }
        ensures same { (state_of self.old.disk).honest
            → DiskStays (state_of self.old.disk) (state_of self.new.disk) }
        ensures honest { (state_of self.new.disk).honest → (state_of self.old.disk).honest }
        ensures changes { self.old.disk.spare_changes ≤ self.new.disk.spare_changes }
        ensures bytes { self.old.disk.spare_bytes ≤ self.new.disk.spare_bytes }
        ensures cause { HasCause self.old.faults self.new.faults result }

        // A call that fails is counted once, and from the stop on each one fails.
        ensures counted { self.new.faults ≡ counted (is_err result) self.old.faults }
        ensures stopped { self.old.is_stopped ≡ true → DidNothing self.old self.new result }
    {
        if self.count.begin() != Turn::Goes {
            self.count.fail();
            return Err(Failed);
        }
        let result = self.disk.read(at, into);
        if result.is_err() {
            self.count.fail();
        }
        result
    }

    #[tactic(auto, using(crate::proofs::Stays::torn_stays, crate::proofs::Stays::elapses_stays))]
    fn write_at(&mut self, at: u64, piece: &[u8]) -> Result<(), Failed>
        requires within { (state_of self.old.disk).honest
            → at ≤ length (state_of self.old.disk).content }
        requires change { 0 < self.old.disk.spare_changes }
        requires room { length piece.now ≤ self.old.disk.spare_bytes }
        ensures written { (state_of self.old.disk).honest
            → OnOk result ((state_of self.new.disk).content
            ≡ written_at (state_of self.old.disk).content at piece.now) }
        ensures crash { (state_of self.old.disk).honest
            → ImagesFollow (Torn at (length piece.now)) (state_of self.old.disk)
            (state_of self.new.disk) }
        ensures time { (state_of self.old.disk).honest
            → Elapses (state_of self.old.disk) (state_of self.new.disk) }
        ensures honest { (state_of self.new.disk).honest → (state_of self.old.disk).honest }
        ensures changes { self.old.disk.spare_changes ≤ self.new.disk.spare_changes + 1 }
        ensures bytes { self.old.disk.spare_bytes
            ≤ self.new.disk.spare_bytes + length piece.now }
        ensures cause { HasCause self.old.faults self.new.faults result }

        // A call that fails is counted once, and from the stop on each one fails.
        ensures counted { self.new.faults ≡ counted (is_err result) self.old.faults }
        ensures stopped { self.old.is_stopped ≡ true → DidNothing self.old self.new result }
    {
        let turn = self.count.begin();
        if turn == Turn::IsTooLate {
            self.count.fail();
            return Err(Failed);
        }
        let result = self.disk.write_at(at, piece);
        if turn == Turn::IsLast {
            self.count.fail();
            return Err(Failed);
        }
        if result.is_err() {
            self.count.fail();
        }
        result
    }

    #[tactic(auto, using(crate::proofs::Stays::cut_stays, crate::proofs::Stays::elapses_stays))]
    fn cut(&mut self, length: u64) -> Result<(), Failed>
        requires within { (state_of self.old.disk).honest
            → length ≤ Rattle.std.specs.Prelude.length (state_of self.old.disk).content }
        requires change { 0 < self.old.disk.spare_changes }
        ensures cut { (state_of self.old.disk).honest
            → OnOk result ((state_of self.new.disk).content
            ≡ take length (state_of self.old.disk).content) }
        ensures crash { (state_of self.old.disk).honest
            → ImagesFollow (Cut length) (state_of self.old.disk) (state_of self.new.disk) }
        ensures time { (state_of self.old.disk).honest
            → Elapses (state_of self.old.disk) (state_of self.new.disk) }
        ensures honest { (state_of self.new.disk).honest → (state_of self.old.disk).honest }
        ensures changes { self.old.disk.spare_changes ≤ self.new.disk.spare_changes + 1 }
        ensures bytes { self.old.disk.spare_bytes ≤ self.new.disk.spare_bytes }
        ensures cause { HasCause self.old.faults self.new.faults result }

        // A call that fails is counted once, and from the stop on each one fails.
        ensures counted { self.new.faults ≡ counted (is_err result) self.old.faults }
        ensures stopped { self.old.is_stopped ≡ true → DidNothing self.old self.new result }
    {
        let turn = self.count.begin();
        if turn == Turn::IsTooLate {
            self.count.fail();
            return Err(Failed);
        }
        let result = self.disk.cut(length);
        if turn == Turn::IsLast {
            self.count.fail();
            return Err(Failed);
        }
        if result.is_err() {
            self.count.fail();
        }
        result
    }

    #[tactic(auto, using(crate::proofs::Stays::elapses_stays))]
    fn sync(&mut self) -> Result<(), Failed>
        requires { 0 < self.old.disk.spare_changes }
        ensures stable { (state_of self.old.disk).honest
            → OnOk result (IsStable (state_of self.new.disk)) }
        ensures same { (state_of self.old.disk).honest
            → OnOk result ((state_of self.new.disk).content ≡ (state_of self.old.disk).content) }
        ensures crash { (state_of self.old.disk).honest
            → NoneNew (state_of self.old.disk) (state_of self.new.disk) }
        ensures time { (state_of self.old.disk).honest
            → Elapses (state_of self.old.disk) (state_of self.new.disk) }
        ensures honest { (state_of self.new.disk).honest → (state_of self.old.disk).honest }
        ensures changes { self.old.disk.spare_changes ≤ self.new.disk.spare_changes + 1 }
        ensures bytes { self.old.disk.spare_bytes ≤ self.new.disk.spare_bytes }
        ensures cause { HasCause self.old.faults self.new.faults result }

        // A call that fails is counted once, and from the stop on each one fails.
        ensures counted { self.new.faults ≡ counted (is_err result) self.old.faults }
        ensures stopped { self.old.is_stopped ≡ true → DidNothing self.old self.new result }
    {
        if self.count.begin() != Turn::Goes {
            self.count.fail();
            return Err(Failed);
        }
        let result = self.disk.sync();
        if result.is_err() {
            self.count.fail();
        }
        result
    }

    fn make_room(&mut self, changes: u32, bytes: usize) -> Result<(), NoMemory>
        ensures room_changes { OnOk result (changes ≤ self.new.disk.spare_changes) }
        ensures room_bytes { OnOk result (bytes ≤ self.new.disk.spare_bytes) }
        ensures honest { (state_of self.new.disk).honest → (state_of self.old.disk).honest }
        ensures no_fewer { self.old.disk.spare_changes ≤ self.new.disk.spare_changes }
        ensures no_less { self.old.disk.spare_bytes ≤ self.new.disk.spare_bytes }
        ensures same { (state_of self.old.disk).honest
            → DiskStays (state_of self.old.disk) (state_of self.new.disk) }
        ensures faults { self.new.faults ≡ self.old.faults }

        // It isn't counted among the calls.
        ensures stopped { self.new.is_stopped ≡ self.old.is_stopped }
    {
        self.disk.make_room(changes, bytes)
    }
}

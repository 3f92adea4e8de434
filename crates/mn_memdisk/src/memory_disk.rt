use crate::calls::CallCount;
use crate::changes::Change;
use crate::crash::image_after;
use crate::held::Held;
use mn_io::{Bytes, Calls, Disk, Failed, NoMemory, make_room};
use std::alloc::Global;
use std::marker::Model;

/// For how many changes there is room at once.
const ROOM_FOR_CHANGES: usize = 1 << 14;

/// A disk in memory. A call of it fails exactly where its number is in a list; `make_room` isn't
/// counted among the calls. It can undo what happened to it, so that a crash may be tried at any
/// moment.
#[derive(Drop)]
pub struct MemoryDisk {
    held: Held,
    changes: Vec<Change>,
    count: CallCount,
}

impl Model for MemoryDisk {
    ghost use Rattle.std.specs.Prelude.{◌-◌, reverse, vec_len, vec_capacity};
    ghost use Rattle.mn_memdisk.specs.Memory.{MemoryState};
    ghost use Rattle.mn_memdisk.specs.Events.{IsKept, events_of, first_of};
    ghost use Rattle.mn_memdisk.specs.Held.{shown};

    ghost Value = { MemoryState };

    ghost view = { λ m. record {
      first = first_of (reverse m.changes.items) m.held.held;
      events = events_of (reverse m.changes.items) m.held.held;
      content = shown m.held.held;
      calls = m.count.calls;
      fails = m.count.fails;
      faults = m.count.faults;
      spare_changes = vec_capacity m.changes - vec_len m.changes;
      spare_bytes = m.held.room;
    } };

    ghost invariant = { λ m. IsKept (reverse m.changes.items) m.held.held };
}

impl MemoryDisk {
    ghost use Rattle.std.specs.Prelude.{◌≡◌, [], IfOk};
    ghost use Rattle.mn_memdisk.specs.Crash.{crashed};
    ghost use Rattle.mn_memdisk.specs.Memory.{state_of};

    /// A disk with these bytes, all of them stable. The calls in `fails` will fail. It takes no
    /// memory.
    pub fn new(content: Bytes, fails: Calls) -> Self
        ensures new { result ≡ record {
          first = content;
          events = [];
          content = content;
          calls = 0;
          fails = fails;
          faults = 0;
          spare_changes = 0;
          spare_bytes = result.spare_bytes;
        } }
        ensures honest { (state_of result).honest }
    {
        let content = content.into_vec();
        let alloc = *content.allocator();
        MemoryDisk {
            held: Held::new(content),
            changes: Vec::new(alloc),
            count: CallCount {
                calls: 0,
                fails,
                faults: 0,
            },
        }
    }

    /// What a read gives.
    pub fn content(&self) -> &[u8]
        ensures { result.now ≡ self.now.content }
    {
        self.held.content()
    }

    /// The disk after a crash at this moment: its content is one of the images, all of it stable.
    /// It counts calls and faults on, and the same calls fail. `NoMemory` where the image finds no
    /// room.
    ///
    /// Of each change that no sync made stable, the first one first, the choice has two bits, the
    /// lowest first: 0 leaves nothing of it, 1 all of it, 2 the first half of what was written, 3
    /// the second half with zeros for bytes past the old end that aren't there. 2 and 3 leave of a
    /// cut a length between. A change that failed counts as one that wasn't synced.
    pub fn crash(self, alloc: Global, choice: u64) -> Result<MemoryDisk, NoMemory>
        ensures image { IfOk result (λ disk. (state_of self).images disk.content) }
        ensures chosen { IfOk result
            (λ disk. disk.content ≡ crashed choice self.first self.events) }
        ensures stable { IfOk result (λ disk. (disk.first ≡ disk.content) × (disk.events ≡ [])) }
        ensures honest { IfOk result (λ disk. (state_of disk).honest) }
        ensures calls { IfOk result (λ disk. disk.calls ≡ self.calls) }
        ensures fails { IfOk result (λ disk. disk.fails ≡ self.fails) }
        ensures faults { IfOk result (λ disk. disk.faults ≡ self.faults) }
    {
        let MemoryDisk {
            held,
            changes,
            count,
        } = self;
        let image = image_after(alloc, held, &changes, choice)?;
        Ok(MemoryDisk {
            held: Held::new(image),
            changes: Vec::new(alloc),
            count,
        })
    }

    /// How many calls failed.
    pub fn faults(&self) -> u64
        ensures { result ≡ self.now.faults }
    {
        self.count.faults
    }
}

impl Disk for MemoryDisk {
    ghost use Rattle.std.specs.Prelude.{◌≡◌, ◌≤◌, ◌<◌, ◌+◌, ◌↔◌, length, take, drop, IsTrue, IsErr};
    ghost use Rattle.std.specs.Prelude.{IfOk, OnOk};
    ghost use Rattle.std.specs.Io.{ReadsAtMost};
    ghost use Rattle.mn_io.specs.DiskModel.{Cut, Elapses, ImagesFollow, IsStable, NoneNew};
    ghost use Rattle.mn_io.specs.DiskModel.{DiskStays, Torn, written_at};
    ghost use Rattle.mn_io.specs.Faults.{HasCause};
    ghost use Rattle.mn_io.specs.Memory.{is_one_of};
    ghost use Rattle.mn_memdisk.specs.Laws.{is_disk_of};
    ghost use Rattle.mn_memdisk.specs.Memory.{IsCounted, state_of};

    ghost state = { state_of };

    ghost faults = { λ m. m.faults };

    ghost spare_changes = { λ m. m.spare_changes };

    ghost spare_bytes = { λ m. m.spare_bytes };

    ghost is_disk = { λ m honest. is_disk_of m.first m.events m.content honest };

    fn length(&mut self) -> Result<u64, Failed>
        ensures value { (state_of self.old).honest
            → IfOk result (λ n. n ≡ length (state_of self.old).content) }
        ensures same { (state_of self.old).honest
            → DiskStays (state_of self.old) (state_of self.new) }
        ensures honest { (state_of self.new).honest → (state_of self.old).honest }
        ensures changes { self.old.spare_changes ≤ self.new.spare_changes }
        ensures bytes { self.old.spare_bytes ≤ self.new.spare_bytes }
        ensures cause { HasCause self.old.faults self.new.faults result }

        // It fails, and counts a fault, exactly at the calls of its list.
        ensures exact { IsErr result ↔ IsTrue (is_one_of self.old.calls self.old.fails) }
        ensures counted { IsCounted self.old self.new }
    {
        if self.count.is_due() {
            return Err(Failed);
        }
        Ok(self.held.content().len() as u64)
    }

    fn read(&mut self, at: u64, into: &mut [u8]) -> Result<usize, Failed>
        ensures bound { ReadsAtMost result into.new }
        ensures value { (state_of self.old).honest
            → IfOk result (λ n. take n into.new
            ≡ take (length into.new) (drop at (state_of self.old).content)) }
        ensures same { (state_of self.old).honest
            → DiskStays (state_of self.old) (state_of self.new) }
        ensures honest { (state_of self.new).honest → (state_of self.old).honest }
        ensures changes { self.old.spare_changes ≤ self.new.spare_changes }
        ensures bytes { self.old.spare_bytes ≤ self.new.spare_bytes }
        ensures cause { HasCause self.old.faults self.new.faults result }

        // It fails, and counts a fault, exactly at the calls of its list.
        ensures exact { IsErr result ↔ IsTrue (is_one_of self.old.calls self.old.fails) }
        ensures counted { IsCounted self.old self.new }
    {
        if self.count.is_due() {
            return Err(Failed);
        }
        let content = self.held.content();
        let start = content.len().min(at as usize);
        let count = into.len().min(content.len() - start);
        into[..count].copy_from_slice(&content[start..start + count]);
        Ok(count)
    }

    fn write_at(&mut self, at: u64, piece: &[u8]) -> Result<(), Failed>
        requires within { (state_of self.old).honest → at ≤ length (state_of self.old).content }
        requires change { 0 < self.old.spare_changes }
        requires room { length piece.now ≤ self.old.spare_bytes }
        ensures written { (state_of self.old).honest
            → OnOk result ((state_of self.new).content
            ≡ written_at (state_of self.old).content at piece.now) }
        ensures crash { (state_of self.old).honest
            → ImagesFollow (Torn at (length piece.now)) (state_of self.old) (state_of self.new) }
        ensures time { (state_of self.old).honest
            → Elapses (state_of self.old) (state_of self.new) }
        ensures honest { (state_of self.new).honest → (state_of self.old).honest }
        ensures changes { self.old.spare_changes ≤ self.new.spare_changes + 1 }
        ensures bytes { self.old.spare_bytes ≤ self.new.spare_bytes + length piece.now }
        ensures cause { HasCause self.old.faults self.new.faults result }

        // It fails, and counts a fault, exactly at the calls of its list.
        ensures exact { IsErr result ↔ IsTrue (is_one_of self.old.calls self.old.fails) }
        ensures counted { IsCounted self.old self.new }
    {
        if self.count.is_due() {
            let change = self.held.lose(at, piece);
            self.changes.push(change).unwrap();
            return Err(Failed);
        }
        let change = self.held.write(at, piece);
        self.changes.push(change).unwrap();
        Ok(())
    }

    fn cut(&mut self, length: u64) -> Result<(), Failed>
        requires within { (state_of self.old).honest
            → length ≤ Rattle.std.specs.Prelude.length (state_of self.old).content }
        requires change { 0 < self.old.spare_changes }
        ensures cut { (state_of self.old).honest
            → OnOk result ((state_of self.new).content ≡ take length (state_of self.old).content) }
        ensures crash { (state_of self.old).honest
            → ImagesFollow (Cut length) (state_of self.old) (state_of self.new) }
        ensures time { (state_of self.old).honest
            → Elapses (state_of self.old) (state_of self.new) }
        ensures honest { (state_of self.new).honest → (state_of self.old).honest }
        ensures changes { self.old.spare_changes ≤ self.new.spare_changes + 1 }
        ensures bytes { self.old.spare_bytes ≤ self.new.spare_bytes }
        ensures cause { HasCause self.old.faults self.new.faults result }

        // It fails, and counts a fault, exactly at the calls of its list.
        ensures exact { IsErr result ↔ IsTrue (is_one_of self.old.calls self.old.fails) }
        ensures counted { IsCounted self.old self.new }
    {
        if self.count.is_due() {
            self.changes.push(Change::LostCut { length }).unwrap();
            return Err(Failed);
        }
        let change = self.held.cut(length);
        self.changes.push(change).unwrap();
        Ok(())
    }

    fn sync(&mut self) -> Result<(), Failed>
        requires { 0 < self.old.spare_changes }
        ensures stable { (state_of self.old).honest → OnOk result (IsStable (state_of self.new)) }
        ensures same { (state_of self.old).honest
            → OnOk result ((state_of self.new).content ≡ (state_of self.old).content) }
        ensures crash { (state_of self.old).honest
            → NoneNew (state_of self.old) (state_of self.new) }
        ensures time { (state_of self.old).honest
            → Elapses (state_of self.old) (state_of self.new) }
        ensures honest { (state_of self.new).honest → (state_of self.old).honest }
        ensures changes { self.old.spare_changes ≤ self.new.spare_changes + 1 }
        ensures bytes { self.old.spare_bytes ≤ self.new.spare_bytes }
        ensures cause { HasCause self.old.faults self.new.faults result }

        // It fails, and counts a fault, exactly at the calls of its list.
        ensures exact { IsErr result ↔ IsTrue (is_one_of self.old.calls self.old.fails) }
        ensures counted { IsCounted self.old self.new }
    {
        if self.count.is_due() {
            return Err(Failed);
        }
        self.changes.push(Change::Synced).unwrap();
        Ok(())
    }

    fn make_room(&mut self, changes: u32, bytes: usize) -> Result<(), NoMemory>
        ensures room_changes { OnOk result (changes ≤ self.new.spare_changes) }
        ensures room_bytes { OnOk result (bytes ≤ self.new.spare_bytes) }
        ensures honest { (state_of self.new).honest → (state_of self.old).honest }
        ensures no_fewer { self.old.spare_changes ≤ self.new.spare_changes }
        ensures no_less { self.old.spare_bytes ≤ self.new.spare_bytes }
        ensures same { (state_of self.old).honest
            → DiskStays (state_of self.old) (state_of self.new) }
        ensures faults { self.new.faults ≡ self.old.faults }

        // It isn't counted among the calls.
        ensures calls { self.new.calls ≡ self.old.calls }
        ensures fails { self.new.fails ≡ self.old.fails }
    {
        make_room(&mut self.changes, changes as usize, ROOM_FOR_CHANGES)?;
        self.held.make_room(bytes)?;
        Ok(())
    }
}

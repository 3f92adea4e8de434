use crate::memory_disk::MemoryDisk;
use mn_io::{Disk, Failed, NoMemory};
use std::alloc::Global;
use std::sync::Arc;
use std::sync::atomic::{AtomicU64, Ordering};
use std::thread;

/// How often a disk looks for the other before it gives up.
const TURNS: u32 = 20_000_000;

/// A place at which two disks meet: each waits inside a write until the other has come.
#[derive(Drop)]
pub struct Meeting {
    came: AtomicU64,
    met: AtomicU64,
}

impl Meeting {
    /// A meeting to which no disk has come. NoMemory: there was none for it.
    pub fn new(alloc: Global) -> Result<Arc<Meeting, Global>, NoMemory> {
        Ok(Arc::new(
            alloc,
            Meeting {
                came: AtomicU64::new(0),
                met: AtomicU64::new(0),
            },
        )?)
    }

    /// How many disks have met the other.
    pub fn met(&self) -> u64 {
        self.met.load(Ordering::SeqCst)
    }

    /// Comes, and waits for the other, but not for ever.
    fn come(&self) {
        self.came.fetch_add(1, Ordering::SeqCst);
        for _ in 0..TURNS {
            if self.came.load(Ordering::SeqCst) >= 2 {
                self.met.fetch_add(1, Ordering::SeqCst);
                return;
            }
            thread::yield_now();
        }
    }
}

/// A disk in memory that comes to a meeting inside one of its writes. It tells whether two disks
/// are written at once.
#[derive(Drop)]
pub struct MeetDisk {
    disk: MemoryDisk,
    meeting: Arc<Meeting, Global>,
    writes: u64,
    at: u64,
}

impl MeetDisk {
    ghost use Rattle.std.specs.Prelude.{◌≡◌};

    /// A disk that comes to the meeting inside its write of this number, from 0.
    pub fn new(disk: MemoryDisk, meeting: Arc<Meeting, Global>, at: u64) -> MeetDisk
        ensures { result.disk ≡ disk }
    {
        MeetDisk {
            disk,
            meeting,
            writes: 0,
            at,
        }
    }

    /// How often it was written.
    pub fn writes(&self) -> u64
        ensures { result ≡ self.now.writes }
    {
        self.writes
    }
}

impl Disk for MeetDisk {
    ghost state = { λ d. ⟦<MemoryDisk as Disk>⟧.state d.disk };

    ghost faults = { λ d. ⟦<MemoryDisk as Disk>⟧.faults d.disk };

    ghost spare_changes = { λ d. ⟦<MemoryDisk as Disk>⟧.spare_changes d.disk };

    ghost spare_bytes = { λ d. ⟦<MemoryDisk as Disk>⟧.spare_bytes d.disk };

    ghost is_disk = { λ d honest. ⟦<MemoryDisk as Disk>⟧.is_disk d.disk honest };

    fn length(&mut self) -> Result<u64, Failed> {
        self.disk.length()
    }

    fn read(&mut self, at: u64, into: &mut [u8]) -> Result<usize, Failed> {
        self.disk.read(at, into)
    }

    fn write_at(&mut self, at: u64, piece: &[u8]) -> Result<(), Failed> {
        if self.writes == self.at {
            self.meeting.come();
        }
        self.writes = self.writes.saturating_add(1);
        self.disk.write_at(at, piece)
    }

    fn cut(&mut self, length: u64) -> Result<(), Failed> {
        self.disk.cut(length)
    }

    fn sync(&mut self) -> Result<(), Failed> {
        self.disk.sync()
    }

    fn make_room(&mut self, changes: u32, bytes: usize) -> Result<(), NoMemory> {
        self.disk.make_room(changes, bytes)
    }
}

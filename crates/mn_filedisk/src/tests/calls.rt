//! Calls of a disk over a file, and what they answer.
use crate::NodeFile;
use mn_io::Disk;

/// The disk of a test.
pub type Tested<'a> = NodeFile<&'a HostRuntime>;

/// A call, and what it answers: a length, the bytes of a read of at most eight, or whether it goes.
pub enum Call {
    Length(Option<u64>),
    Read(u64, Option<&'static [u8]>),
    Write(u64, &'static [u8], bool),
    Cut(u64, bool),
    Sync(bool),
}

/// Whether a read from here on gives these bytes.
fn reads(disk: &mut Tested<'_>, at: u64, told: Option<&[u8]>) -> bool {
    let mut into = [0; 8];
    match disk.read(at, &mut into) {
        Ok(count) => told == into.get(..count),
        Err(_) => told.is_none(),
    }
}

/// Whether the call answers so.
fn answers(disk: &mut Tested<'_>, call: &Call) -> bool {
    match call {
        Call::Length(told) => disk.length().ok() == *told,
        Call::Read(at, told) => reads(disk, *at, *told),
        Call::Write(at, piece, goes) => disk.write_at(*at, piece).is_ok() == *goes,
        Call::Cut(length, goes) => disk.cut(*length).is_ok() == *goes,
        Call::Sync(goes) => disk.sync().is_ok() == *goes,
    }
}

/// The number of the first of these calls that answers otherwise, or that of all.
pub fn gone_through(disk: &mut Tested<'_>, calls: &[Call]) -> usize {
    for (number, call) in calls.iter().enumerate() {
        if !answers(disk, call) {
            return number;
        }
    }
    calls.len()
}

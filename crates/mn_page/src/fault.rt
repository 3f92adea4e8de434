ghost use Rattle.std.specs.Prelude.{◌≡◌, ◌<◌, ◌≤◌, length};
ghost use Rattle.mn_page.specs.Fronts.{BeginsEntry, BeginsPage, IsLongest, entry_goes_on};

use crate::page_front::begins_page;

/// The bytes of a slot.
pub const SLOT: usize = 1_024;

/// The bytes of an entry's place.
pub const ENTRY: usize = 64;

/// How many of the first bytes still begin some page. Bytes that begin none begin none with more
/// behind them, so the place is found by halving.
pub fn page_fault(bytes: &[u8]) -> u16
    ensures longest { IsLongest BeginsPage bytes.now result }
    ensures within { result ≤ length bytes.now }
{
    let mut here = 0;
    let mut past = bytes.len().min(SLOT) + 1;
    while past - here > 1 {
        let middle = here + (past - here) / 2;
        if begins_page(&bytes[..middle]) {
            here = middle;
        } else {
            past = middle;
        }
    }
    here as u16
}

/// Whether byte `at` of an entry may be this one: `some` says whether a byte before it isn't zero,
/// `count` how long the name is.
fn entry_goes_on(at: usize, some: bool, count: usize, byte: u8) -> bool
    requires { count < 256 }
    ensures { result ≡ entry_goes_on at some count byte }
{
    match at {
        0..7 => true,
        7 => some || byte > 0,
        8 => byte == 1 || byte == 2,
        9 => byte < 64 || byte == 255,
        10 => byte < 8,
        11 => byte < 16,
        12 => true,
        13 => byte > 0 && byte < 17,
        _ => {
            if at < 14 + count {
                matches!(byte, b'a'..=b'z' | b'0'..=b'9')
            } else {
                byte == 0
            }
        }
    }
}

/// How many of the first bytes still begin some entry.
pub fn entry_fault(bytes: &[u8]) -> u16
    ensures longest { IsLongest BeginsEntry bytes.now result }
    ensures within { result ≤ length bytes.now }
{
    let mut some = false;
    let mut count = 0;
    for at in 0..ENTRY {
        let Some(byte) = bytes.get(at) else {
            return at as u16;
        };
        if !entry_goes_on(at, some, count, *byte) {
            return at as u16;
        }
        some = some || *byte > 0;
        count = if at == 13 { *byte as usize } else { count };
    }
    ENTRY as u16
}

ghost use Rattle.std.specs.Prelude.{◌≡◌, ◌≤◌, ◌-◌, ◌++◌, [], ◌↔◌, IsTrue, length, replicate};
ghost use Rattle.std.specs.Prelude.{MatchOption, option_map};
ghost use Rattle.mn_page.specs.KeyRoom.{HasNoneFrom, HasRoomForKeys, IsLast, IsLeastFrom, IsNext};
ghost use Rattle.mn_page.specs.KeyRoom.{LeavesRoom, raised};

use crate::scan::is_below;
use arrayvec::ArrayVec;
use mn_base::key_precedes;

/// A key of up to 32 bytes, without memory.
pub type ShortKey = ArrayVec<u8, 32>;

/// The least key above this one; there is none above 32 bytes of 255.
pub fn next_key(key: &[u8]) -> Option<ShortKey>
    ensures { length key.now ≤ 32
        → MatchOption result (IsLast key.now) (λ next. IsNext key.now next.items) }
{
    let mut next = ShortKey::new();
    if next.try_extend_from_slice(key).is_err() {
        return None;
    }
    if next.try_push(0).is_ok() {
        return Some(next);
    }
    raised(next)
}

/// The key whose last byte that is not 255 is one higher, with nothing behind it.
fn raised(key: ShortKey) -> Option<ShortKey>
    ensures { option_map (λ r. r.items) result ≡ raised key.items }
{
    let mut raised = key;
    for _ in 0..32usize {
        let last = raised.pop()?;
        if last < 255 {
            raised.try_push(last + 1).ok()?;
            return Some(raised);
        }
    }
    None
}

/// The bytes, as many zeros behind them as make up the size, if they are not too many.
pub fn filled(bytes: &[u8], size: usize) -> Option<ShortKey>
    ensures { MatchOption result (length bytes.now ≤ 32 → size ≤ 32 → ⊥)
        (λ key. key.items ≡ bytes.now ++ replicate (size - length bytes.now) 0) }
{
    let mut key = ShortKey::new();
    key.try_extend_from_slice(bytes).ok()?;
    for _ in bytes.len()..size {
        key.try_push(0).ok()?;
    }
    Some(key)
}

/// The least key of this size at or above `least`.
fn least_from(least: &[u8], size: usize) -> Option<ShortKey>
    ensures { length least.now ≤ 32 → size ≤ 32
        → MatchOption result (HasNoneFrom least.now [] size)
        (λ key. IsLeastFrom least.now [] size key.items) }
{
    if least.len() <= size {
        return filled(least, size);
    }
    let mut front = ShortKey::new();
    front.try_extend_from_slice(&least[..size]).ok()?;
    filled(raised(front)?.as_slice(), size)
}

/// The least key of this size that begins with `front` and is at or above `least`.
fn least_with(least: &[u8], front: &[u8], size: usize) -> Option<ShortKey>
    ensures { length least.now ≤ 32 → size ≤ 32 → length front.now ≤ size
        → MatchOption result (HasNoneFrom least.now front.now size)
        (λ key. IsLeastFrom least.now front.now size key.items) }
{
    let with = filled(front, size)?;
    if !key_precedes(with.as_slice(), least) {
        return Some(with);
    }
    let from = least_from(least, size)?;
    if from.as_slice().starts_with(front) {
        Some(from)
    } else {
        None
    }
}

/// Whether the key and so many more above it lie below the bound.
pub fn has_room(key: &[u8], more: usize, high: Option<&[u8]>) -> bool
    ensures { length key.now ≤ 32
        → (IsTrue result ↔ HasRoomForKeys key.now more (option_map (λ h. h.now) high.entry)) }
{
    let mut last = ShortKey::new();
    if last.try_extend_from_slice(key).is_err() {
        return false;
    }
    for _ in 0..more {
        match next_key(last.as_slice()) {
            Some(next) => last = next,
            None => return false,
        }
    }
    is_below(last.as_slice(), high)
}

/// What the keys that are still to come must meet: they lie at or above `least` and below `high`,
/// and `more` stand behind the next one.
#[derive(Clone, Copy)]
pub struct Room<'a> {
    pub least: &'a [u8],
    pub high: Option<&'a [u8]>,
    pub more: usize,
}

/// Whether a key of this size that begins with `front` leaves the room.
pub fn leaves_room(room: &Room<'_>, front: &[u8], size: usize) -> bool
    ensures { length room.now.least.now ≤ 32 → size ≤ 32 → length front.now ≤ size
        → (IsTrue result ↔ LeavesRoom room.now.least.now front.now size room.now.more
        (option_map (λ h. h.now) room.now.high)) }
{
    match least_with(room.least, front, size) {
        Some(key) => has_room(key.as_slice(), room.more, room.high),
        None => false,
    }
}

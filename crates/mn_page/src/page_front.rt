ghost use Rattle.std.specs.Prelude.{◌≡◌, ◌≤◌, ◌↔◌, IsTrue, ℕ, List, [], Option, Some, None, Bool};
ghost use Rattle.std.specs.Prelude.{true, false, length, MatchOption, MatchResult};
ghost use Rattle.std.specs.Option.{option_map};
ghost use Rattle.mn_base.specs.declared.ids.Addr.{Addr};
ghost use Rattle.mn_page.specs.Fronts.{BeginsPage};
ghost use Rattle.mn_page.specs.Grammar.{IsAddr, IsKey, IsValue, addr_bytes, counted, high_bytes};
ghost use Rattle.mn_page.specs.KeyRoom.{HasRoomForKeys};
ghost use Rattle.mn_page.specs.Reading.{AreVersions, Begins, IsSeq, as_they_stand, eight};
ghost use Rattle.mn_page.specs.Reading.{height_text, versions_text};
ghost use Rattle.mn_page.specs.PageFronts.{addr_goes_on, height_goes_on, BehindFences, Decides};
ghost use Rattle.mn_page.specs.PageFronts.{FromSeq, HasKeys, IsCount, IsFloor, IsHeight, IsHeld};
ghost use Rattle.mn_page.specs.PageFronts.{IsHighAt, IsKeyIn, IsLeastHigh, IsLeastOver, Items};
ghost use Rattle.mn_page.specs.PageFronts.{Judged, count_text, least_keys};

use crate::fault::SLOT;
use crate::key_room::{Room, ShortKey, filled, has_room, leaves_room, next_key};
use crate::scan::{first_addr, first_byte, first_height, first_seq, first_text, first_versions};
use mn_base::are_zeros;

// Each function gives what stands behind a field. Err: the bytes end inside the field, or can't
// begin it; `true` where more bytes make it a field that some page goes on from.

fn front_seq(bytes: &[u8]) -> Result<&[u8], bool>
    ensures { MatchResult result (λ rest. (seq : ℕ) × Begins IsSeq eight bytes.now seq rest.now)
        (λ goes. Judged IsSeq eight bytes.now goes) }
{
    match first_seq(bytes) {
        Some((_, rest)) => Ok(rest),
        None => Err(bytes.len() < 8),
    }
}

/// The height too.
fn front_height(bytes: &[u8]) -> Result<(u16, &[u8]), bool>
    ensures { MatchResult result (λ x. Begins IsHeight height_text bytes.now x.0 x.1.now)
        (λ goes. Judged IsHeight height_text bytes.now goes) }
{
    match first_height(bytes) {
        Some(found) => Ok(found),
        None => Err(height_goes_on(bytes)),
    }
}

/// Whether bytes that are no whole height begin one.
fn height_goes_on(bytes: &[u8]) -> bool
    ensures { result ≡ height_goes_on bytes.now }
{
    let Some((kind, behind)) = first_byte(bytes) else {
        return true;
    };
    match first_byte(behind) {
        Some((high, rest)) => rest.is_empty() && (kind == 2 || (kind == 1 && high == 0)),
        None => kind == 1 || kind == 2,
    }
}

fn front_versions(bytes: &[u8]) -> Result<&[u8], bool>
    ensures { MatchResult result (λ rest. (v : ℕ × ℕ)
        × Begins AreVersions versions_text bytes.now v rest.now)
        (λ goes. Judged AreVersions versions_text bytes.now goes) }
{
    match first_versions(bytes) {
        Some((_, rest)) => Ok(rest),
        None => Err(bytes.len() < 9 && versions_go_on(bytes)),
    }
}

/// Whether zeros behind the bytes, up to nine, make them a version and a set of versions above it.
fn versions_go_on(bytes: &[u8]) -> bool
    ensures { length bytes.now ≤ 9 → Judged AreVersions versions_text bytes.now result }
{
    let Some(whole) = filled(bytes, 9) else {
        return false;
    };
    match first_versions(whole.as_slice()) {
        Some(_) => true,
        None => false,
    }
}

fn front_addr(bytes: &[u8]) -> Result<&[u8], bool>
    ensures { MatchResult result (λ rest. (addr : Addr)
        × Begins IsAddr addr_bytes bytes.now addr rest.now)
        (λ goes. Judged IsAddr addr_bytes bytes.now goes) }
{
    match first_addr(bytes) {
        Some((_, rest)) => Ok(rest),
        None => Err(addr_goes_on(bytes)),
    }
}

/// Whether bytes that are no whole address begin one.
fn addr_goes_on(bytes: &[u8]) -> bool
    ensures { result ≡ addr_goes_on bytes.now }
{
    let Some((node, behind)) = first_byte(bytes) else {
        return true;
    };
    match first_byte(behind) {
        Some((slot, rest)) => rest.is_empty() && node < 8 && slot < 16,
        None => node < 8,
    }
}

/// A key with its length, which leaves the room.
fn front_key<'a>(
    bytes: &'a [u8],
    shortest: usize,
    room: &Room<'_>,
) -> Result<(&'a [u8], &'a [u8]), bool>
    ensures { length room.now.least.now ≤ 32 → (key : List ℕ)
        × IsKeyIn shortest room.now.least.now room.now.more
        (option_map (λ h. h.now) room.now.high) key
        → MatchResult result (λ x. Begins
        (IsKeyIn shortest room.now.least.now room.now.more (option_map (λ h. h.now) room.now.high))
        counted bytes.now x.0.now x.1.now)
        (λ goes. Judged (IsKeyIn shortest room.now.least.now room.now.more
        (option_map (λ h. h.now) room.now.high)) counted bytes.now goes) }
{
    let Some((size, behind)) = first_byte(bytes) else {
        return Err(true);
    };
    let size = size as usize;
    if size < shortest || size > 32 {
        return Err(false);
    }
    let Some((key, rest)) = first_text(behind, size) else {
        return Err(leaves_room(room, behind, size));
    };
    if !leaves_room(room, key, size) {
        return Err(false);
    }
    Ok((key, rest))
}

fn front_value(bytes: &[u8]) -> Result<&[u8], bool>
    ensures { MatchResult result (λ rest. (value : List ℕ)
        × Begins IsValue counted bytes.now value rest.now)
        (λ goes. Judged IsValue counted bytes.now goes) }
{
    let Some((size, behind)) = first_byte(bytes) else {
        return Err(true);
    };
    let size = size as usize;
    if size > 64 {
        return Err(false);
    }
    let Some((_, rest)) = first_text(behind, size) else {
        return Err(true);
    };
    Ok(rest)
}

/// What stands behind a key.
fn front_held(bytes: &[u8], is_leaf: bool) -> Result<&[u8], bool>
    ensures { MatchResult result (λ rest. (text : List ℕ)
        × Begins (IsHeld is_leaf) as_they_stand bytes.now text rest.now)
        (λ goes. Judged (IsHeld is_leaf) as_they_stand bytes.now goes) }
{
    if is_leaf {
        front_value(bytes)
    } else {
        front_addr(bytes)
    }
}

/// The bound above the keys too.
fn front_high<'a>(
    bytes: &'a [u8],
    low: &[u8],
    is_leaf: bool,
) -> Result<(Option<&'a [u8]>, &'a [u8]), bool>
    ensures { length low.now ≤ 32 → HasRoomForKeys low.now (least_keys is_leaf) None
        → MatchResult result (λ x. Begins (IsHighAt is_leaf low.now) high_bytes bytes.now
        (option_map (λ h. h.now) x.0) x.1.now)
        (λ goes. Judged (IsHighAt is_leaf low.now) high_bytes bytes.now goes) }
{
    let Some((some, behind)) = first_byte(bytes) else {
        return Err(true);
    };
    if some == 0 {
        return Ok((None, behind));
    }
    if some > 1 {
        return Err(false);
    }
    let Some(least) = least_high(low, is_leaf) else {
        return Err(false);
    };
    let room = Room {
        least: least.as_slice(),
        high: None,
        more: 0,
    };
    let (high, rest) = front_key(behind, 1, &room)?;
    Ok((Some(high), rest))
}

/// The least bound above the keys, with a separator below it for an inner page.
fn least_high(low: &[u8], is_leaf: bool) -> Option<ShortKey>
    ensures { length low.now ≤ 32
        → MatchOption result ((key : List ℕ) → IsKey key
        → HasRoomForKeys low.now (least_keys is_leaf) (Some key) → ⊥)
        (λ least. IsLeastHigh is_leaf low.now least.items) }
{
    let above = next_key(low)?;
    if is_leaf {
        Some(above)
    } else {
        next_key(above.as_slice())
    }
}

/// The least key above these bytes, if there is one.
fn least_above(low: &[u8]) -> ShortKey
    ensures { length low.now ≤ 32 → HasKeys false low.now 1 None
        → IsLeastOver false low.now result.items }
{
    next_key(low).unwrap_or_default()
}

/// The least key at or above these bytes.
fn least_at(low: &[u8]) -> ShortKey
    ensures { length low.now ≤ 32 → IsLeastOver true low.now result.items }
{
    if low.is_empty() {
        return next_key(low).unwrap_or_default();
    }
    filled(low, low.len()).unwrap_or_default()
}

/// The least key that a leaf may hold, or the least separator of an inner page.
fn least_key(low: &[u8], is_leaf: bool) -> ShortKey
    ensures { length low.now ≤ 32 → HasKeys is_leaf low.now 1 None
        → IsLeastOver is_leaf low.now result.items }
{
    if is_leaf {
        least_at(low)
    } else {
        least_above(low)
    }
}

/// The number of keys too.
fn front_count<'a>(
    bytes: &'a [u8],
    low: &[u8],
    high: Option<&[u8]>,
    is_leaf: bool,
) -> Result<(usize, &'a [u8]), bool>
    ensures { length low.now ≤ 32 → (n : ℕ)
        × IsCount is_leaf low.now (option_map (λ h. h.now) high.entry) n
        → MatchResult result (λ x. Begins
        (IsCount is_leaf low.now (option_map (λ h. h.now) high.entry))
        (count_text is_leaf) bytes.now x.0 x.1.now)
        (λ goes. Judged (IsCount is_leaf low.now (option_map (λ h. h.now) high.entry))
        (count_text is_leaf) bytes.now goes) }
{
    let Some((count, rest)) = first_byte(bytes) else {
        return Err(true);
    };
    let count = count as usize;
    if count > 8 || (!is_leaf && count < 2) {
        return Err(false);
    }
    let keys = if is_leaf { count } else { count - 1 };
    let least = least_key(low, is_leaf);
    if keys > 0 && !has_room(least.as_slice(), keys - 1, high) {
        return Err(false);
    }
    Ok((keys, rest))
}

/// So many keys, with what they hold, and zeros.
fn front_items(
    bytes: &[u8],
    is_leaf: bool,
    least: &[u8],
    high: Option<&[u8]>,
    keys: usize,
) -> Result<(), bool>
    ensures { (from : Bool) (base : List ℕ) → IsFloor keys from base least.now
        → HasKeys from base keys (option_map (λ h. h.now) high.entry)
        → MatchResult result (λ _. Decides
        (Items is_leaf from base (option_map (λ h. h.now) high.entry) keys) bytes.now true)
        (λ goes. Decides (Items is_leaf from base (option_map (λ h. h.now) high.entry) keys)
        bytes.now goes) }
{
    if keys == 0 {
        if are_zeros(bytes) {
            return Ok(());
        }
        return Err(false);
    }
    let more = keys - 1;
    let (key, behind) = front_key(bytes, 1, &Room { least, high, more })?;
    let rest = front_held(behind, is_leaf)?;
    let next = least_above(key);
    front_items(rest, is_leaf, next.as_slice(), high, more)
}

/// A leaf may be empty, an inner page has two children.
fn least_keys(is_leaf: bool) -> usize
    ensures { result ≡ least_keys is_leaf }
{
    if is_leaf { 0 } else { 1 }
}

/// What stands behind the fences.
fn front_body(bytes: &[u8], low: &[u8], high: Option<&[u8]>, is_leaf: bool) -> Result<(), bool>
    ensures { length low.now ≤ 32
        → HasRoomForKeys low.now (least_keys is_leaf) (option_map (λ h. h.now) high.entry)
        → MatchResult result (λ _. Decides
        (BehindFences is_leaf low.now (option_map (λ h. h.now) high.entry)) bytes.now true)
        (λ goes. Decides (BehindFences is_leaf low.now (option_map (λ h. h.now) high.entry))
        bytes.now goes) }
{
    let (keys, behind) = front_count(bytes, low, high, is_leaf)?;
    let least = least_key(low, is_leaf);
    if is_leaf {
        return front_items(behind, true, least.as_slice(), high, keys);
    }
    let rest = front_addr(behind)?;
    front_items(rest, false, least.as_slice(), high, keys)
}

fn front_page(bytes: &[u8]) -> Result<(), bool>
    ensures { MatchResult result (λ _. Decides FromSeq bytes.now true)
        (λ goes. Decides FromSeq bytes.now goes) }
{
    let after_seq = front_seq(bytes)?;
    let (height, after_height) = front_height(after_seq)?;
    let after_versions = front_versions(after_height)?;
    let is_leaf = height == 0;
    let room = Room {
        least: &[],
        high: None,
        more: least_keys(is_leaf),
    };
    let (low, after_low) = front_key(after_versions, 0, &room)?;
    let (high, after_high) = front_high(after_low, low, is_leaf)?;
    front_body(after_high, low, high, is_leaf)
}

/// Whether some page's bytes begin with these.
pub fn begins_page(bytes: &[u8]) -> bool
    ensures { IsTrue result ↔ BeginsPage bytes.now }
{
    if bytes.len() > SLOT {
        return false;
    }
    match front_page(bytes) {
        Ok(()) => true,
        Err(goes) => goes,
    }
}

//! Which keys lie within the fences of a page, and which child of an inner page a key belongs to.
#![tactic(auto)]

ghost use Rattle.std.specs.Prelude.{◌≡◌, option_map};
ghost use Rattle.mn_base.specs.Order.{covers_key};
ghost use Rattle.mn_fence.specs.Child.{count_not_above, Ascend, IsChild};

use mn_base::{Key, key_precedes};

/// Whether the key is at or above the low fence and below the high one. Without a high fence no key
/// is too high. Keys are ordered by their bytes, where a proper prefix comes first.
pub fn covers(low: &[u8], high: Option<&[u8]>, key: &[u8]) -> bool
    ensures { result ≡ covers_key low.now (option_map (λ h. h.now) high.entry) key.now }
{
    if key_precedes(key, low) {
        return false;
    }
    match high {
        Some(high) => key_precedes(key, high),
        None => true,
    }
}

/// How many of the separators are not above the key. Where they ascend, this is the number of the
/// child that covers the key: child `i` has the separator before it as its low fence, and the next
/// as its high one.
pub fn child_of(separators: &[Key], key: &[u8]) -> usize
    ensures count { result ≡ count_not_above separators.now key.now }
    ensures child { Ascend separators.now → IsChild separators.now key.now result }
{
    separators
        .iter()
        .filter(|separator| !key_precedes(key, separator.as_slice()))
        .count()
}

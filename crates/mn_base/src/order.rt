ghost use Rattle.std.specs.Prelude.{◌≡◌, ◌+◌, ◌≤◌, length, min};
ghost use Rattle.mn_base.specs.Order.{key_cmp, key_lt, word_at};

use std::cmp::Ordering;

/// How many bytes are compared at once, as a number.
const WORD: usize = 4;

/// The order of two keys, by their bytes; a proper prefix comes first.
pub fn key_order(a: &[u8], b: &[u8]) -> Ordering
    ensures { result ≡ key_cmp a.now b.now }
{
    let both = a.len().min(b.len());
    if both < WORD {
        return order_by_bytes(a, b, both);
    }
    order_by_words(a, b, both)
}

/// Whether the first key comes before the second.
#[inline]
pub fn key_precedes(a: &[u8], b: &[u8]) -> bool
    ensures { result ≡ key_lt a.now b.now }
{
    key_order(a, b).is_lt()
}

fn order_by_bytes(a: &[u8], b: &[u8], both: usize) -> Ordering
    requires { both ≡ min (length a.now) (length b.now) }
    ensures { result ≡ key_cmp a.now b.now }
{
    for i in 0..both {
        let found = a[i].cmp(&b[i]);
        if found.is_ne() {
            return found;
        }
    }
    a.len().cmp(&b.len())
}

/// The last word of both may overlap the one before it, so that no bytes are left over.
fn order_by_words(a: &[u8], b: &[u8], both: usize) -> Ordering
    requires both { both ≡ min (length a.now) (length b.now) }
    requires enough { 4 ≤ both }
    ensures { result ≡ key_cmp a.now b.now }
{
    let last = both - WORD;
    let mut at = 0;
    while at < last {
        let found = word(a, at).cmp(&word(b, at));
        if found.is_ne() {
            return found;
        }
        at += WORD;
    }
    let found = word(a, last).cmp(&word(b, last));
    if found.is_ne() {
        return found;
    }
    a.len().cmp(&b.len())
}

fn word(bytes: &[u8], i: usize) -> u32
    requires { i + 4 ≤ length bytes.now }
    ensures { result ≡ word_at bytes.now i }
{
    u32::from_be_bytes([bytes[i], bytes[i + 1], bytes[i + 2], bytes[i + 3]])
}

//! The bytes that a space keeps flat, from its first on. What is missing behind them is zeros.
ghost use Rattle.std.specs.Prelude.{◌≡◌, ◌≤◌, ◌+◌, length, bytes_eq, vec_capacity};
ghost use Rattle.mn_mini.specs.Flat.{bytes_in, overwritten};
ghost use Rattle.mn_mini.specs.Mini.{space_size};
ghost use Rattle.mn_page.specs.Grammar.{padded};

use mn_base::are_zeros;

/// Puts bytes over a range of what is kept, and keeps what it needs for that. It takes no memory.
pub fn write(kept: &mut Vec<u8>, start: usize, bytes: &[u8])
    requires short { length kept.old.items ≤ space_size }
    requires room { space_size ≤ vec_capacity kept.old }
    requires within { start + length bytes.now ≤ space_size }
    ensures bytes { padded space_size kept.new.items
        ≡ overwritten (padded space_size kept.old.items) start bytes.now }
    ensures short { length kept.new.items ≤ space_size }
    ensures room { space_size ≤ vec_capacity kept.new }
{
    let end = start + bytes.len();
    let length = kept.len().max(end);
    kept.resize(length, 0).unwrap();
    kept[start..end].copy_from_slice(bytes);
}

/// What is kept of a range. What is missing is zeros.
pub fn kept_in(kept: &Vec<u8>, start: usize, length: usize) -> &[u8]
    requires short { Rattle.std.specs.Prelude.length kept.now.items ≤ space_size }
    requires within { start + length ≤ space_size }
    ensures bytes { padded length result.now
        ≡ bytes_in (padded space_size kept.now.items) start length }
    ensures short { Rattle.std.specs.Prelude.length result.now ≤ length }
{
    let from = kept.len().min(start);
    let to = kept.len().min(start + length);
    &kept[from..to]
}

/// Whether these bytes are what is kept of a range, and zeros.
pub fn is_kept(kept: &[u8], bytes: &[u8]) -> bool
    requires { length kept.now ≤ length bytes.now }
    ensures { result ≡ bytes_eq (padded (length bytes.now) kept.now) bytes.now }
{
    kept == &bytes[..kept.len()] && are_zeros(&bytes[kept.len()..])
}

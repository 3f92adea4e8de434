ghost use Rattle.std.specs.Prelude.{◌≡◌, ◌≤◌, ◌<◌, ◌+◌, ◌-◌, ◌++◌, ◌∷◌, [], ℕ, List, length, take};
ghost use Rattle.std.specs.Prelude.{replicate};
ghost use Rattle.byteorder.specs.Endian.{big_bytes};
ghost use Rattle.mn_page.specs.Grammar.{counted, addr_bytes};
ghost use Rattle.mn_page.specs.Written.{Adds};

use byteorder::{BigEndian, ByteOrder};
use mn_base::Addr;

/// Puts bytes behind the first `at` bytes; the answer is how many bytes stand then.
#[inline(always)]
pub fn put_bytes(into: &mut [u8], at: usize, bytes: &[u8]) -> usize
    requires { at + length bytes.now ≤ length into.old }
    ensures added { Adds into.old into.new at result bytes.now }
    ensures end { result ≡ at + length bytes.now }
{
    let end = at + bytes.len();
    into[at..end].copy_from_slice(bytes);
    end
}

#[inline(always)]
pub fn put_byte(into: &mut [u8], at: usize, byte: u8) -> usize
    requires { at + 1 ≤ length into.old }
    ensures added { Adds into.old into.new at result (byte ∷ []) }
    ensures end { result ≡ at + 1 }
{
    put_bytes(into, at, &[byte])
}

/// Puts bytes behind their length in one byte.
#[inline(always)]
pub fn put_counted(into: &mut [u8], at: usize, bytes: &[u8]) -> usize
    requires short { length bytes.now < 256 }
    requires room { at + 1 + length bytes.now ≤ length into.old }
    ensures added { Adds into.old into.new at result (counted bytes.now) }
    ensures end { result ≡ at + 1 + length bytes.now }
{
    let at = put_byte(into, at, bytes.len() as u8);
    put_bytes(into, at, bytes)
}

/// Puts a number in two bytes, the higher first.
#[inline(always)]
pub fn put_u16(into: &mut [u8], at: usize, number: u16) -> usize
    requires { at + 2 ≤ length into.old }
    ensures added { Adds into.old into.new at result (big_bytes 2 number) }
    ensures end { result ≡ at + 2 }
{
    let mut bytes = [0u8; 2];
    BigEndian::write_u16(&mut bytes, number);
    put_bytes(into, at, &bytes)
}

/// Puts a number in eight bytes, the highest first.
#[inline(always)]
pub fn put_u64(into: &mut [u8], at: usize, number: u64) -> usize
    requires { at + 8 ≤ length into.old }
    ensures added { Adds into.old into.new at result (big_bytes 8 number) }
    ensures end { result ≡ at + 8 }
{
    let mut bytes = [0u8; 8];
    BigEndian::write_u64(&mut bytes, number);
    put_bytes(into, at, &bytes)
}

#[inline(always)]
pub fn put_addr(into: &mut [u8], at: usize, addr: Addr) -> usize
    requires { at + 3 ≤ length into.old }
    ensures added { Adds into.old into.new at result (addr_bytes addr) }
    ensures end { result ≡ at + 3 }
{
    let at = put_byte(into, at, addr.node.0);
    put_u16(into, at, addr.slot)
}

/// Puts zeros behind the first `at` bytes, to the end.
pub fn put_zeros(into: &mut [u8], at: usize)
    requires { at ≤ length into.old }
    ensures { into.new ≡ take at into.old ++ replicate (length into.old - at) 0 }
{
    into[at..].fill(0);
}

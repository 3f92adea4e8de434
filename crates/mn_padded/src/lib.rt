//! Bytes that are lent, of which the zeros at their end are known.
#![tactic(auto)]

ghost use Rattle.std.specs.Prelude.{◌≡◌, ◌≤◌, length, true, bytes_eq};
ghost use Rattle.mn_padded.specs.Zeros.{zeros_from, IsFilled};

use mn_base::are_zeros;
use std::marker::Model;

/// Bytes that are lent, and a place from which on they are known to be zeros, so that nobody has to
/// look at them again. Contracts see the bytes as a list.
#[derive(Debug, Drop)]
pub struct Padded<'a> {
    bytes: &'a [u8],
    filled: usize,
}

impl<'a> Model for Padded<'a> {
    ghost use Rattle.std.specs.Prelude.{ℕ, List};
    ghost use Rattle.mn_padded.specs.Zeros.{IsFilled};

    ghost Value = { List ℕ };

    ghost view = { λ p. p.bytes.now };

    ghost invariant = { λ p. IsFilled p.filled p.bytes.now };
}

impl<'a> Padded<'a> {
    /// Bytes of which no zeros are known.
    #[inline(always)]
    pub fn plain(bytes: &'a [u8]) -> Self
        ensures { result ≡ bytes.now }
    {
        Padded {
            bytes,
            filled: bytes.len(),
        }
    }

    /// Bytes that are zeros from a place on.
    #[inline(always)]
    pub fn new(bytes: &'a [u8], filled: usize) -> Self
        requires { IsFilled filled bytes.now }
        ensures { result ≡ bytes.now }
    {
        Padded { bytes, filled }
    }

    #[inline(always)]
    pub fn as_slice(&self) -> &'a [u8]
        ensures { result.now ≡ self.now }
    {
        self.bytes
    }

    /// Whether all bytes from a place on are zero. It looks only at those that aren't known to be.
    #[inline(always)]
    pub fn are_zeros_from(&self, at: usize) -> bool
        requires { at ≤ length self.now }
        ensures { result ≡ zeros_from at self.now }
    {
        if at >= self.filled {
            return true;
        }
        are_zeros(&self.bytes[at..self.filled])
    }

    /// Whether these are the same bytes. It compares none that are known to be zeros on both sides.
    pub fn is_same(&self, other: &Padded<'_>) -> bool
        ensures { result ≡ bytes_eq self.now other.now }
    {
        if self.bytes.len() != other.bytes.len() {
            return false;
        }
        let filled = self.filled.max(other.filled);
        self.bytes[..filled] == other.bytes[..filled]
    }
}

/// How many bytes there are at least that are looked at to find zeros among them.
const FEW: usize = 64;

/// A place from which on all bytes are zero. It isn't always the first such place: half of the
/// bytes before it are looked at together.
pub fn filled_in(bytes: &[u8]) -> usize
    ensures { IsFilled result bytes.now }
{
    let mut filled = bytes.len();
    while filled >= FEW {
        let half = filled / 2;
        if !are_zeros(&bytes[half..filled]) {
            return filled;
        }
        filled = half;
    }
    filled
}

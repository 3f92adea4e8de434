ghost use Rattle.std.specs.Prelude.{◌≡◌, ◌≤◌, ◌<◌, ◌+◌, ℕ, [], get_or, length};
ghost use Rattle.mn_redo.specs.Grammar.{places};
ghost use Rattle.mn_redo.specs.Log.{BytesAreKept, listed_in};

/// Where a body of a log ends, which begins behind its gate and its length.
fn end_of(bytes: &[u8], gates: &[u64], number: usize) -> usize
    requires kept { BytesAreKept [] bytes.now }
    requires gates { gates.now ≡ places 0 (listed_in 0 bytes.now) }
    requires number { number < length (listed_in 0 bytes.now) }
    ensures within { result ≤ length bytes.now }
    ensures end { result ≡ get_or gates.now number 0 + 5
        + length (get_or (listed_in 0 bytes.now) number []) }
{
    if number < gates.len() - 1 {
        return gates[number + 1] as usize;
    }
    bytes.len() - 1
}

/// The bytes of a body of a log.
pub fn body_of<'a>(bytes: &'a [u8], gates: &[u64], number: usize) -> &'a [u8]
    requires kept { BytesAreKept [] bytes.now }
    requires gates { gates.now ≡ places 0 (listed_in 0 bytes.now) }
    requires number { number < length (listed_in 0 bytes.now) }
    requires index { number < length gates.now }
    requires start { get_or gates.now number 0 + 5 ≤ length bytes.now }
    ensures { result.now ≡ get_or (listed_in 0 bytes.now) number [] }
{
    let start = gates[number] as usize + 5;
    &bytes[start..end_of(bytes, gates, number)]
}

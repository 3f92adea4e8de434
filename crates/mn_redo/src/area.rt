ghost use Rattle.std.specs.Prelude.{◌≡◌, ◌≤◌, ◌<◌, length, take, drop, IfOk, IfErr, IfSome, OnSome};
ghost use Rattle.std.specs.Prelude.{IsNone, ◌++◌};
ghost use Rattle.std.specs.Int.{w64, to_be_bytes, from_be_bytes};
ghost use Rattle.mn_redo.specs.Grammar.{IsLead, IsRight, IsWrongAt, by_greater, current_number};
ghost use Rattle.mn_redo.specs.Grammar.{number_of, start_in};

use crate::header::has_header;
use mn_ckpt::image_in;

/// The number in eight bytes.
fn big(bytes: &[u8]) -> u64
    requires eight { length bytes.now ≡ 8 }
    ensures { result ≡ from_be_bytes w64 bytes.now }
{
    let mut eight = [0u8; 8];
    eight.copy_from_slice(bytes);
    u64::from_be_bytes(eight)
}

/// The image of a number and the place where a log begins.
pub fn image_for(number: u64, start: u64) -> [u8; 16]
    ensures { result ≡ to_be_bytes w64 number ++ to_be_bytes w64 start }
{
    let [a, b, c, d, e, f, g, h] = number.to_be_bytes();
    let [i, j, k, l, m, n, o, p] = start.to_be_bytes();
    [a, b, c, d, e, f, g, h, i, j, k, l, m, n, o, p]
}

/// What an area says: its number, which is 0 where it is closed, and where a log begins.
#[derive(Drop)]
struct Said {
    number: u64,
    start: u64,
}

/// What an area says that is in the grammar.
fn told(content: &[u8], area: u8) -> Option<Said>
    requires area { area ≤ 1 }
    requires within { 80 ≤ length content.now }
    ensures right { OnSome result (IsRight area content.now) }
    ensures number { IfSome result (λ told. told.number ≡ number_of area content.now) }
    ensures start { IfSome result
        (λ told. 0 < told.number → told.start ≡ start_in area content.now) }
    ensures few { IfSome result (λ told. told.number ≤ 9223372036854775808) }
    ensures wrong { IsNone result → IsRight area content.now → ⊥ }
{
    let Some(image) = image_in(content, area) else {
        return Some(Said {
            number: 0,
            start: 0,
        });
    };
    let number = big(&image[..8]);
    let start = big(&image[8..]);
    if number == 0 || number > 1 << 63 || number % 2 != area as u64 {
        return None;
    }
    Some(Said { number, start })
}

/// Of two areas, what is said of the one with the greater number.
fn choose(n: u64, m: u64, first: u64, second: u64, none: u64) -> u64
    ensures { result ≡ by_greater n m first second none }
{
    if m < n {
        return first;
    }
    if n < m {
        return second;
    }
    none
}

/// Where the log begins in the bytes of a disk that isn't fresh, and the number of the current
/// area; or the place of what is wrong in front of it.
pub fn find_start(content: &[u8], node: u8, nodes: u8) -> Result<(u64, usize), u64>
    requires within { 80 < length content.now }
    ensures lead { IfOk result (λ found. IsLead node nodes (take found.1 content.now)) }
    ensures number { IfOk result (λ found.
        found.0 ≡ current_number (take found.1 content.now)) }
    ensures few { IfOk result (λ found. found.0 ≤ 9223372036854775808) }
    ensures long { IfOk result (λ found. 80 ≤ found.1) }
    ensures within { IfOk result (λ found. found.1 < length content.now) }
    ensures wrong { IfErr result (IsWrongAt node nodes content.now) }
{
    if !has_header(content, node, nodes) {
        return Err(0);
    }
    let Some(first) = told(content, 0) else {
        return Err(16);
    };
    let Some(second) = told(content, 1) else {
        return Err(48);
    };
    let start = choose(first.number, second.number, first.start, second.start, 80);
    if start < 80 || start >= content.len() as u64 {
        return Err(choose(first.number, second.number, 16, 48, 48));
    }
    Ok((first.number.max(second.number), start as usize))
}

//! What the values of versions come to.
ghost use Rattle.std.specs.Prelude.{◌≡◌, ◌≤◌, ◌<◌, IfOk, IsSomeAnd, length, slice_get};
ghost use Rattle.mn_gen.specs.Summary.{amount_of, greatest_of, least_of, may_count, number_on};
ghost use Rattle.mn_gen.specs.Summary.{or_none, sum_of, sums_of};

use mn_base::{NoMemory, Pair, VersionNo};
use mn_plain::Store;
use std::alloc::Global;

/// The most digits of a value that counts.
const MOST_DIGITS: usize = 9;

/// Whether a value has as many bytes as one that counts, and no leading zero.
fn may_count(value: &[u8]) -> bool
    ensures { result ≡ may_count value.now }
{
    match value {
        [] => false,
        [_] => true,
        [first, ..] => value.len() <= MOST_DIGITS && *first != b'0',
    }
}

/// The number of these digits; 0 where one is no digit.
fn number_of(value: &[u8]) -> u64
    requires { length value.now ≤ 9 }
    ensures { result ≡ or_none (number_on 0 value.now) }
{
    let mut number: u64 = 0;
    for byte in value {
        if !byte.is_ascii_digit() {
            return 0;
        }
        number = number * 10 + u64::from(*byte - b'0');
    }
    number
}

/// The number that a value spells in at most nine digits, without leading zeros; another value
/// counts 0.
fn amount_of(value: &[u8]) -> u64
    ensures { result ≡ amount_of value.now }
{
    if may_count(value) {
        number_of(value)
    } else {
        0
    }
}

/// What the values come to. NoMemory: more than is counted.
fn sum_of(pairs: &[Pair]) -> Result<u64, NoMemory>
    ensures { IfOk result (λ sum. sum ≡ sum_of pairs.now) }
{
    let mut sum: u64 = 0;
    for pair in pairs {
        match sum.checked_add(amount_of(pair.value.as_slice())) {
            Some(more) => sum = more,
            None => return Err(NoMemory),
        }
    }
    Ok(sum)
}

/// What the values of a version come to. NoMemory: there is no such number.
fn version_sum(alloc: Global, store: &Store, at: usize) -> Result<u64, NoMemory>
    requires { at < length store.now }
    ensures { IfOk result (λ sum.
        IsSomeAnd (slice_get store.now at) (λ v. sum ≡ sum_of v.pairs)) }
{
    let Ok(number) = u8::try_from(at) else {
        return Err(NoMemory);
    };
    let pairs = store.pairs(alloc, VersionNo(number))?;
    sum_of(pairs.as_slice())
}

/// What the values of each version come to, in order of number. NoMemory: there was no memory for
/// them, or a version has more than is counted.
pub fn sums_of(alloc: Global, store: &Store) -> Result<Vec<u64>, NoMemory>
    ensures { IfOk result (λ sums. sums.items ≡ sums_of store.now) }
{
    let count = store.listing(alloc)?.as_slice().len();
    let mut sums = Vec::with_capacity(alloc, count)?;
    for at in 0..count {
        sums.push(version_sum(alloc, store, at)?)?;
    }
    Ok(sums)
}

/// The least of some numbers; 0 for none.
pub fn least_of(numbers: &[u64]) -> u64
    ensures { result ≡ least_of numbers.now }
{
    let [first, rest @ ..] = numbers else {
        return 0;
    };
    let mut least = *first;
    for number in rest {
        least = least.min(*number);
    }
    least
}

/// The greatest of some numbers; 0 for none.
pub fn greatest_of(numbers: &[u64]) -> u64
    ensures { result ≡ greatest_of numbers.now }
{
    let mut greatest = 0;
    for number in numbers {
        greatest = greatest.max(*number);
    }
    greatest
}

ghost use Rattle.std.specs.Prelude.{◌≡◌, ◌≤◌, ◌<◌, ◌+◌, ◌-◌, ◌*◌, min, length, IsTrue, IfOk, OnOk};
ghost use Rattle.std.specs.List.{list_all};
ghost use Rattle.mn_script.specs.Words.{len_to, word_at, next_at, column_at, told_at, end_at};
ghost use Rattle.mn_script.specs.Words.{Gives, GivesPart, name_word, number_word, key_word};
ghost use Rattle.mn_script.specs.Words.{value_word, is_digit, number_from, is_number};
ghost use Rattle.mn_script.specs.Lines.{bound_at};

use crate::error::LineError;
use crate::strings::{is_none, string_of};
use mn_base::{BaseError, Key, Name, Value};
use std::alloc::Global;

/// How many bytes stand before the first such byte.
pub fn length_to(bytes: &[u8], stop: u8) -> usize
    ensures value { result ≡ len_to stop bytes.now }
    ensures within { result ≤ length bytes.now }
{
    for (at, byte) in bytes.iter().enumerate() {
        if *byte == stop {
            return at;
        }
    }
    bytes.len()
}

/// The word that begins at a place; none behind the last one.
pub fn word(line: &[u8], at: usize) -> &[u8]
    ensures word { result.now ≡ word_at line.now at }
    ensures within { length result.now ≤ length line.now - at }
{
    if at > line.len() {
        return &[];
    }
    let rest = &line[at..];
    &rest[..length_to(rest, b' ')]
}

/// Where the word behind this one begins, which begins at a place.
#[inline(always)]
fn behind(line: &[u8], at: usize, word: &[u8]) -> usize
    requires place { at ≤ length line.now + 1 }
    requires word { word.now ≡ word_at line.now at }
    requires within { length word.now ≤ length line.now - at }
    ensures next { result ≡ next_at line.now at }
    ensures within { result ≤ length line.now + 1 }
{
    (at + word.len() + 1).min(line.len() + 1)
}

/// Where the next word begins.
pub fn next(line: &[u8], at: usize) -> usize
    requires { at ≤ length line.now + 1 }
    ensures next { result ≡ next_at line.now at }
    ensures within { result ≤ length line.now + 1 }
{
    behind(line, at, word(line, at))
}

/// The refusal of the word at a place.
pub fn wrong(line: &[u8], at: usize) -> LineError
    requires { at ≤ length line.now + 1 }
    ensures { result ≡ LineError.Wrong (column_at line.now at) }
{
    LineError::Wrong {
        column: (at + 1).min(line.len() + 1),
    }
}

/// Refuses a line that goes on.
pub fn end(line: &[u8], at: usize) -> Result<(), LineError>
    requires { at ≤ length line.now + 1 }
    ensures { Gives result (end_at line.now at tt) }
{
    if at > line.len() {
        Ok(())
    } else {
        Err(wrong(line, at))
    }
}

/// A name.
pub fn name(alloc: Global, line: &[u8], at: &mut usize) -> Result<Name, LineError>
    requires { at.old ≤ length line.now + 1 }
    ensures said { GivesPart result at.new
        (told_at line.now at.old (name_word (word_at line.now at.old))) }
    ensures within { OnOk result (at.new ≤ length line.now + 1) }
{
    let text = word(line, *at);
    match Name::new(alloc, text) {
        Ok(name) => {
            *at = behind(line, *at, text);
            Ok(name)
        }
        Err(BaseError::BadName { .. }) => Err(wrong(line, *at)),
        Err(BaseError::NoMemory) => Err(LineError::NoMemory),
        Err(BaseError::Empty) => unreachable!(),
        Err(BaseError::TooLong { .. }) => unreachable!(),
        Err(BaseError::BadSteps { .. }) => unreachable!(),
    }
}

fn is_digit_byte(byte: u8) -> bool
    ensures { result ≡ is_digit byte }
{
    (48..=57).contains(&byte)
}

fn are_digits(word: &[u8]) -> bool
    ensures { result ≡ list_all is_digit word.now }
{
    for byte in word {
        if !is_digit_byte(*byte) {
            return false;
        }
    }
    true
}

/// Whether the word is digits without a leading zero.
fn is_decimal(word: &[u8]) -> bool
    ensures { result ≡ is_number word.now }
{
    match word {
        [] => false,
        [first] => is_digit_byte(*first),
        [first, rest @ ..] => is_digit_byte(*first) && *first != b'0' && are_digits(rest),
    }
}

/// The number of these digits; one above 9,999 counts as 10,000.
fn value_of(word: &[u8]) -> u32
    requires { IsTrue (list_all is_digit word.now) }
    ensures { result ≡ number_from 0 word.now }
{
    let mut value: u32 = 0;
    for byte in word {
        value = (value * 10 + u32::from(*byte - b'0')).min(10_000);
    }
    value
}

/// A number from `low` to `high`.
pub fn number(line: &[u8], at: &mut usize, low: u32, high: u32) -> Result<u32, LineError>
    requires { at.old ≤ length line.now + 1 }
    ensures said { GivesPart result at.new
        (told_at line.now at.old (number_word low high (word_at line.now at.old))) }
    ensures within { OnOk result (at.new ≤ length line.now + 1) }
    ensures range { IfOk result (λ n. (low ≤ n) × (n ≤ high)) }
{
    let text = word(line, *at);
    if !is_decimal(text) {
        return Err(wrong(line, *at));
    }
    let value = value_of(text);
    if value < low || value > high {
        return Err(wrong(line, *at));
    }
    *at = behind(line, *at, text);
    Ok(value)
}

/// A key.
pub fn key(alloc: Global, line: &[u8], at: &mut usize) -> Result<Key, LineError>
    requires { at.old ≤ length line.now + 1 }
    ensures said { GivesPart result at.new
        (told_at line.now at.old (key_word (word_at line.now at.old))) }
    ensures within { OnOk result (at.new ≤ length line.now + 1) }
{
    let text = word(line, *at);
    let Some(bytes) = string_of(alloc, text)? else {
        return Err(wrong(line, *at));
    };
    match Key::new(alloc, bytes.as_slice()) {
        Ok(key) => {
            *at = behind(line, *at, text);
            Ok(key)
        }
        Err(BaseError::Empty) => Err(wrong(line, *at)),
        Err(BaseError::TooLong { .. }) => Err(wrong(line, *at)),
        Err(BaseError::NoMemory) => Err(LineError::NoMemory),
        Err(BaseError::BadName { .. }) => unreachable!(),
        Err(BaseError::BadSteps { .. }) => unreachable!(),
    }
}

/// A value.
pub fn value(alloc: Global, line: &[u8], at: &mut usize) -> Result<Value, LineError>
    requires { at.old ≤ length line.now + 1 }
    ensures said { GivesPart result at.new
        (told_at line.now at.old (value_word (word_at line.now at.old))) }
    ensures within { OnOk result (at.new ≤ length line.now + 1) }
{
    let text = word(line, *at);
    let Some(bytes) = string_of(alloc, text)? else {
        return Err(wrong(line, *at));
    };
    match Value::new(alloc, bytes.as_slice()) {
        Ok(value) => {
            *at = behind(line, *at, text);
            Ok(value)
        }
        Err(BaseError::TooLong { .. }) => Err(wrong(line, *at)),
        Err(BaseError::NoMemory) => Err(LineError::NoMemory),
        Err(BaseError::Empty) => unreachable!(),
        Err(BaseError::BadName { .. }) => unreachable!(),
        Err(BaseError::BadSteps { .. }) => unreachable!(),
    }
}

/// A bound of a scan: a key, or `%` for none.
#[tactic(auto, unfolding(crate::specs::Lines::bound_at))]
pub fn bound(alloc: Global, line: &[u8], at: &mut usize) -> Result<Option<Key>, LineError>
    requires { at.old ≤ length line.now + 1 }
    ensures said { GivesPart result at.new (bound_at line.now at.old) }
    ensures within { OnOk result (at.new ≤ length line.now + 1) }
{
    if is_none(word(line, *at)) {
        *at = next(line, *at);
        return Ok(None);
    }
    Ok(Some(key(alloc, line, at)?))
}

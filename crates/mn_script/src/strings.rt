ghost use Rattle.std.specs.Prelude.{◌≡◌, ◌<◌, ◌++◌, List, ℕ, [], ◌∷◌, Option, Some, None, bytes_eq};
ghost use Rattle.std.specs.Prelude.{option_map, IfOk, IfSome};
ghost use Rattle.std.specs.List.{list_all};
ghost use Rattle.mn_report.specs.Spelling.{is_plain};
ghost use Rattle.mn_script.specs.Words.{digit_value, escaped, unspelled, string_word};
ghost use Rattle.mn_script.specs.Strings.{FirstOf};

use mn_base::NoMemory;
use std::alloc::Global;
use std::marker::Model;

/// The bytes that a word spells: those of the word itself, where each stands for itself. Contracts
/// see them as a list.
#[derive(Drop)]
pub struct Spelled<'a> {
    word: &'a [u8],
    /// The bytes that the word spells, where it isn't these.
    own: Option<Vec<u8>>,
}

impl<'a> Model for Spelled<'a> {
    ghost use Rattle.std.specs.Prelude.{ℕ, List, option_map, unwrap_or};

    ghost Value = { List ℕ };

    ghost view = { λ s. unwrap_or (option_map (λ v. v.items) s.own) s.word.now };
}

impl<'a> Spelled<'a> {
    pub fn as_slice(&self) -> &[u8]
        ensures { result.now ≡ self.now }
    {
        match &self.own {
            Some(bytes) => bytes,
            None => self.word,
        }
    }
}

/// The bytes of a word that spells itself.
fn itself(word: &[u8]) -> Spelled<'_>
    ensures { result ≡ word.now }
{
    Spelled { word, own: None }
}

fn is_plain_byte(byte: u8) -> bool
    ensures { result ≡ is_plain byte }
{
    (33..=126).contains(&byte) && byte != b'%' && byte != b';'
}

fn value_of_digit(digit: u8) -> Option<u8>
    ensures value { result ≡ digit_value digit }
    ensures within { IfSome result (λ n. n < 16) }
{
    match digit {
        b'0'..=b'9' => Some(digit - b'0'),
        b'a'..=b'f' => Some(digit - b'a' + 10),
        _ => None,
    }
}

/// The byte that two digits stand for, if it doesn't stand for itself.
fn escape_of(high: u8, low: u8) -> Option<u8>
    ensures { result ≡ escaped high low }
{
    let byte = value_of_digit(high)? * 16 + value_of_digit(low)?;
    if is_plain_byte(byte) {
        None
    } else {
        Some(byte)
    }
}

/// The byte that the front of a word spells, and how many bytes of the word that takes.
fn first_byte(word: &[u8]) -> Option<(u8, usize)>
    ensures { FirstOf word.now result }
{
    match word {
        [b'%', high, low, ..] => {
            let byte = escape_of(*high, *low)?;
            Some((byte, 3))
        }
        [byte, ..] => {
            if is_plain_byte(*byte) {
                Some((*byte, 1))
            } else {
                None
            }
        }
        [] => None,
    }
}

/// Whether the word is `%` alone.
pub fn is_none(word: &[u8]) -> bool
    ensures { result ≡ bytes_eq word.now (37 ∷ []) }
{
    word == b"%".as_slice()
}

/// The bytes that a word spells, if it spells any.
fn spelled_by(alloc: Global, word: &[u8]) -> Result<Option<Vec<u8>>, NoMemory>
    ensures { IfOk result (λ bytes. option_map (λ v. v.items) bytes ≡ unspelled word.now) }
{
    let mut bytes = Vec::new(alloc);
    let mut rest = word;
    while !rest.is_empty() {
        let Some((byte, taken)) = first_byte(rest) else {
            return Ok(None);
        };
        bytes.push(byte)?;
        rest = &rest[taken..];
    }
    Ok(Some(bytes))
}

/// Whether each byte of the word stands for itself.
fn is_plain_word(word: &[u8]) -> bool
    ensures { result ≡ list_all is_plain word.now }
{
    for byte in word {
        if !is_plain_byte(*byte) {
            return false;
        }
    }
    true
}

/// The byte string that a word stands for, if it stands for one. It takes memory only where a byte
/// doesn't stand for itself.
pub fn string_of(alloc: Global, word: &[u8]) -> Result<Option<Spelled<'_>>, NoMemory>
    ensures { IfOk result (λ bytes. bytes ≡ string_word word.now) }
{
    if is_none(word) {
        return Ok(Some(itself(&[])));
    }
    if word.is_empty() {
        return Ok(None);
    }
    if is_plain_word(word) {
        return Ok(Some(itself(word)));
    }
    match spelled_by(alloc, word)? {
        Some(bytes) => Ok(Some(Spelled {
            word,
            own: Some(bytes),
        })),
        None => Ok(None),
    }
}

ghost use Rattle.std.specs.Prelude.{◌≡◌, ◌<◌, ◌++◌, decimal, OnOk};
ghost use Rattle.mn_report.specs.Spelling.{is_plain, hex_digit, hex_byte, spelled_byte, spelled};
ghost use Rattle.mn_report.specs.Spelling.{word_of, spaced_number};

use itoa::Buffer;
use std::alloc::AllocError;

fn is_plain_byte(byte: u8) -> bool
    ensures { result ≡ is_plain byte }
{
    (33..=126).contains(&byte) && byte != b'%' && byte != b';'
}

fn digit(n: u8) -> u8
    requires { n < 16 }
    ensures { result ≡ hex_digit n }
{
    if n < 10 { b'0' + n } else { b'a' - 10 + n }
}

/// Adds a byte as two lower-case hexadecimal digits.
pub fn push_hex(out: &mut Vec<u8>, byte: u8) -> Result<(), AllocError>
    ensures { OnOk result (out.new.items ≡ out.old.items ++ hex_byte byte) }
{
    out.extend_from_slice(&[digit(byte / 16), digit(byte % 16)])
}

fn push_spelled_byte(out: &mut Vec<u8>, byte: u8) -> Result<(), AllocError>
    ensures { OnOk result (out.new.items ≡ out.old.items ++ spelled_byte byte) }
{
    if is_plain_byte(byte) {
        out.push(byte)?;
        return Ok(());
    }
    out.push(b'%')?;
    push_hex(out, byte)
}

/// Adds the spelling of the bytes: those from 21 to 7e (hexadecimal) other than `%` and `;` as they
/// are, each other one as `%` and two lower-case hexadecimal digits.
pub fn push_spelled(out: &mut Vec<u8>, bytes: &[u8]) -> Result<(), AllocError>
    ensures { OnOk result (out.new.items ≡ out.old.items ++ spelled bytes.now) }
{
    for byte in bytes {
        push_spelled_byte(out, *byte)?;
    }
    Ok(())
}

/// Adds the word of a byte string: its spelling, or `%` alone for the empty one.
pub fn push_word(out: &mut Vec<u8>, bytes: &[u8]) -> Result<(), AllocError>
    ensures { OnOk result (out.new.items ≡ out.old.items ++ word_of bytes.now) }
{
    if bytes.is_empty() {
        out.push(b'%')?;
        return Ok(());
    }
    push_spelled(out, bytes)
}

/// Adds a number in decimal digits.
pub fn push_number(out: &mut Vec<u8>, number: u64) -> Result<(), AllocError>
    ensures { OnOk result (out.new.items ≡ out.old.items ++ decimal number) }
{
    let mut digits = Buffer::new();
    out.extend_from_slice(digits.format(number).as_bytes())
}

/// Adds a space and a number in decimal digits.
pub fn push_spaced_number(out: &mut Vec<u8>, number: u64) -> Result<(), AllocError>
    ensures { OnOk result (out.new.items ≡ out.old.items ++ spaced_number number) }
{
    out.push(b' ')?;
    push_number(out, number)
}

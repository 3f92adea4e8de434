ghost use Rattle.std.specs.Prelude.{◌≡◌, ◌≤◌, ◌<◌, ◌+◌, ◌∷◌, length};
ghost use Rattle.mn_script.specs.Reading.{script_of, lines_of, IsScriptRead};

use crate::draft::Draft;
use crate::error::{LineError, ScriptError};
use crate::script::Script;
use crate::words::length_to;
use std::alloc::Global;

/// The most bytes of a script.
pub const MAX_TEXT: usize = 4_194_304;

/// The first line of a text, and what is behind its LF.
pub fn split_line(text: &[u8]) -> (&[u8], &[u8])
    requires { 0 < length text.now }
    ensures lines { lines_of text.now ≡ result.0.now ∷ lines_of result.1.now }
    ensures less { length result.1.now < length text.now }
    ensures within { length result.0.now ≤ length text.now }
{
    let end = length_to(text, b'\n');
    if end < text.len() {
        (&text[..end], &text[end + 1..])
    } else {
        (text, &[])
    }
}

/// Reads a script. Refused: the text is none; `line` is the first line at which the text up to it
/// can't be the beginning of one, and `column` the place of the first wrong word there, both from
/// 1; 0 and 0 for a text of more than 4,194,304 bytes. NoMemory: there was no memory for the
/// script.
pub fn read_script(alloc: Global, text: &[u8]) -> Result<Script, ScriptError>
    ensures { IsScriptRead result (script_of text.now) }
{
    if text.len() > MAX_TEXT {
        return Err(ScriptError::Refused { line: 0, column: 0 });
    }
    let mut draft = Draft::new(alloc);
    let mut lines: u32 = 0;
    let mut rest = text;
    while !rest.is_empty() {
        let (line, after) = split_line(rest);
        match draft.line(alloc, line) {
            Ok(()) => {}
            Err(LineError::Wrong { column }) => {
                return Err(ScriptError::Refused {
                    line: lines + 1,
                    column: column.min(line.len() + 1) as u32,
                });
            }
            Err(LineError::NoMemory) => return Err(ScriptError::NoMemory),
        }
        lines += 1;
        rest = after;
    }
    draft.finish(lines)
}

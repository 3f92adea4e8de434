ghost use Rattle.std.specs.Prelude.{◌≡◌, ℕ, List, Ok, Option, IfOk, IfErr, IfSome};
ghost use Rattle.std.specs.Io.KnownBytes.{IsAtEnd};
ghost use Rattle.mn_io.specs.Faults.{Rose};
ghost use Rattle.mn_script.specs.Reading.{script_of as read_as};
ghost use Rattle.mn_script.specs.Script.{IsScript};
ghost use Rattle.mn_top.specs.declared.due.Due.{Due};
ghost use Rattle.mn_top.specs.Complete.{IsComplete};
ghost use Rattle.mn_top.specs.Crashes.{StayOpenable};
ghost use Rattle.mn_top.specs.Promise.{KeepsPromise, SurvivesCrashes};
ghost use Rattle.mn_top.specs.Words.{AskText};
ghost use Rattle.mn_top.specs.Program.{Finishes, IsDue, IsDueBefore, IsTask};

use crate::check::check_disks;
use crate::clap_words::read_words;
use crate::due::Due;
use crate::finish::finish;
use crate::laws::disks_hold_one_store;
use crate::outcome::Outcome;
use crate::play::{Ended, play, without_log};
use crate::words::{Command, Words, plays_script};
use mn_base::Gate;
use mn_gen::gen_script;
use mn_io::{Disk, ReadError, Sink, Source, read_all};
use mn_redo::{damaged_or_not, one_list};
use mn_script::{Script, ScriptError, read_script};
use mn_serial::ends_opened;
use std::alloc::Global;
use std::sync::Wait;
use std::thread::Threads;

/// The most bytes of a script.
const MAX_SCRIPT: usize = 4_194_304;

/// The text that the source holds.
fn text_of<R: Source>(alloc: Global, source: &mut R) -> Result<mn_io::Bytes, Due>
    ensures text { IfOk result (λ text. IfSome (R.remaining source.old) (λ known. text ≡ known)) }
    ensures whole { IfOk result (λ text. IsAtEnd (R.remaining source.new)) }
    ensures due { (words : List (List ℕ)) (given : ℕ) → AskText words given
        → IfErr result (IsDueBefore words (R.remaining source.old)
        (Rose (R.faults source.old) (R.faults source.new)) given) }
{
    match read_all(alloc, source, MAX_SCRIPT) {
        Ok(text) => Ok(text),
        Err(ReadError::Fault) => Err(Due::ReadFault),
        Err(ReadError::TooLong) => Err(Due::Refused { line: 0, column: 0 }),
        Err(ReadError::NoMemory) => Err(Due::NoMemory),
    }
}

/// The script that a text spells, if it is one for so many disks.
fn script_of(alloc: Global, text: &[u8], given: usize) -> Result<Script, Due>
    ensures spelled { IfOk result (λ script. read_as text.now ≡ Ok script) }
    ensures nodes { IfOk result (λ script. script.nodes ≡ given) }
    ensures rules { IfOk result (λ script. IsScript script) }
    ensures due { (words : List (List ℕ)) (known : Option (List ℕ)) → AskText words given
        → IfSome known (λ told. text.now ≡ told) → IfErr result (IsDueBefore words known ⊥ given) }
{
    let script = match read_script(alloc, text) {
        Ok(script) => script,
        Err(ScriptError::Refused { line, column }) => return Err(Due::Refused { line, column }),
        Err(ScriptError::NoMemory) => return Err(Due::NoMemory),
    };
    if script.nodes() as usize != given {
        return Err(Due::Disks {
            given: given as u64,
            wanted: script.nodes(),
        });
    }
    Ok(script)
}

/// What is to be done with the disks.
pub enum Task {
    /// A script is played by this command.
    Play { command: Command, script: Script },
    /// They are checked.
    Check,
}

/// What the words ask for, of so many disks, with the script that they ask for; or what is due
/// before a disk is touched.
fn called<R: Source>(
    alloc: Global,
    words: &Words,
    source: &mut R,
    given: usize,
) -> Result<Task, Due>
    ensures called { IfOk result (IsTask words.now (R.remaining source.old)
        (R.remaining source.new) given) }
    ensures due { IfErr result (IsDueBefore words.now (R.remaining source.old)
        (Rose (R.faults source.old) (R.faults source.new)) given) }
{
    let Some(line) = read_words(alloc, words)? else {
        return Err(Due::Usage);
    };
    if line.nodes as usize != given {
        return Err(Due::Disks {
            given: given as u64,
            wanted: line.nodes,
        });
    }
    let command = line.command;
    if !plays_script(command) {
        return Ok(Task::Check);
    }
    if let Some(number) = line.number {
        let made = gen_script(alloc, line.nodes, number)?;
        return Ok(Task::Play {
            command,
            script: made,
        });
    }
    let text = text_of(alloc, source)?;
    let script = script_of(alloc, text.as_slice(), given)?;
    Ok(Task::Play { command, script })
}

/// Opens the disks and does what the words ask for, or tells what is due before a disk is touched.
fn ended<T: Threads + Wait + Sync, R: Source, D: Disk + Send, G: Gate + Sync>(
    rt: &T,
    alloc: Global,
    words: &Words,
    source: &mut R,
    disks: Vec<D>,
    gate: &G,
) -> Ended<D>
    ensures due { IsDue D.state D.faults words.now (R.remaining source.old)
        (Rose (R.faults source.old) (R.faults source.new))
        (R.remaining source.new) disks.items result.disks.items result.log result.due }
    ensures crash { StayOpenable D.state disks.items result.disks.items }
{
    match called(alloc, words, source, disks.len()) {
        Ok(Task::Play { command, script }) => play(rt, alloc, gate, disks, command, &script),
        Ok(Task::Check) => check_disks(alloc, disks),
        Err(due) => without_log(alloc, disks, due),
    }
}

/// Runs the program: reads the words and the script, opens the disks, plays the script on them, and
/// writes the report, or one line that says why there is none. `replay` plays it on one thread, in
/// the order of its schedule. `run` plays it on threads, by the marks of its clients, whose calls
/// pass the gate. `gen` makes the script from a number, plays it as `run`, and writes a summary.
/// `check` plays none: it opens the disks, writes nothing to them, and tells the versions of their
/// store.
///
/// | Status | Written | Comes only where |
/// |---|---|---|
/// | 0 | the report or summary | the script was run; the source, if read, was read to its end |
/// | 0 | `check yes`, the versions | it is a check, and the disks hold a store of these versions |
/// | 1 | `usage` | the words are none of the four forms |
/// | 2 | `refused LINE COLUMN` | the source's text is no script, and there is its first fault |
/// | 3 | `read fault` | the source failed in this call |
/// | 4 | a prefix of what was due | the sink failed in this call |
/// | 5 | `disk fault NODE` | at opening or closing that disk failed in this call |
/// | 6 | `damaged NODE PLACE RULE` | the disks hold no store, by this rule |
/// | 7 | `no memory` | there was no memory |
/// | 8 | `disks GIVEN WANTED` | the words or the script ask for another number of disks |
///
/// Where the words and the text are right, the disks are honest and hold a store, and no count of
/// faults rises, it is 0 or 7.
///
/// The rule `runs` of status 6 tells that no number is left for a run, which is no matter to a
/// check, and `kept` that at closing a disk had another list than its node.
///
/// By a check and at 1, 2, 3 and 8 nothing is written to a disk, and at 6 nothing but where the
/// rule is `kept`. There, at 5 and at 7 nothing is written, or each disk is as some run leaves it
/// that began with what the disks showed. Whatever a crash leaves of honest disks behind a run, at
/// any status, holds a store in which all that was replied to stands, and the next opening shows
/// that store (`next_starts_there`).
pub fn run_program<T: Threads + Wait + Sync, R: Source, W: Sink, D: Disk + Send, G: Gate + Sync>(
    rt: &T,
    alloc: Global,
    words: &Words,
    source: &mut R,
    sink: &mut W,
    disks: Vec<D>,
    gate: &G,
) -> Outcome<D>
    // Something was due, by the words, the text, the ends, the disks and the log; it was written
    // and its status answered, or the sink failed behind a prefix.
    ensures due { (due : Due)
        × IsDue D.state D.faults words.now (R.remaining source.old)
        (Rose (R.faults source.old) (R.faults source.new))
        (R.remaining source.new) disks.items result.disks.items result.log due
        × Finishes due result.status (W.contents sink.old) (W.contents sink.new)
        (Rose (W.faults sink.old) (W.faults sink.new)) }

    // Honest disks of which a crash leaves a store are handed back so, whatever was due.
    ensures crash { StayOpenable D.state disks.items result.disks.items }

    // Right words and a right text on honest disks that hold a store come to their end, or to want
    // of memory, where no count of faults rose. A script to be run wants a number for the run.
    ensures complete { IsComplete D.state D.faults words.now (R.remaining source.old)
        (Rose (R.faults source.old) (R.faults source.new))
        (Rose (W.faults sink.old) (W.faults sink.new)) disks.items result.disks.items
        result.status }

    // At status 0 a report keeps the promise of the store, of honest disks.
    ensures promise { KeepsPromise D.state words.now (R.remaining source.old)
        (R.remaining source.new) disks.items result.disks.items (W.contents sink.old)
        (W.contents sink.new) result.status }

    // At any status, whatever a crash leaves holds a store in which all that was replied to stands.
    ensures survives { SurvivesCrashes D.state words.now (R.remaining source.old)
        (R.remaining source.new) disks.items result.disks.items result.log }
{
    one_list();
    damaged_or_not();
    ends_opened();
    disks_hold_one_store();
    let Ended { due, disks, log } = ended(rt, alloc, words, source, disks, gate);
    Outcome {
        status: finish(alloc, sink, &due),
        disks,
        log,
    }
}

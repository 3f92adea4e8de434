//! The words of the command line, read with clap.

ghost use Rattle.std.specs.Prelude.{◌≡◌, ◌∷◌, ◌↔◌, [], List, Option, ℕ, IfOk, IsTrue, MatchOption};
ghost use Rattle.std.specs.Prelude.{false, map, option_map, string_bytes};
ghost use Rattle.std.specs.List.{list_any};
ghost use Rattle.clap.specs.Words.{app_of};
ghost use Rattle.clap.specs.declared.builder.Command.TheViews.{out-Command};
ghost use Rattle.mn_top.specs.CommandLine.{AllPlain, ReadsAs, Split, checks, is_option, makes};
ghost use Rattle.mn_top.specs.CommandLine.{minuet, plays};
ghost use Rattle.mn_top.specs.Words.{AskNothing, Asked, Asks, IsSaid, MayBeFolder, Text};
ghost use Rattle.mn_top.specs.declared.words.Command.{Command};

use crate::words::{Command, CommandLine, Words, command_in, is_folder, nodes_in, number_in};
use clap::error::ErrorKind;
use clap::{Arg, Command as Subcommand};
use mn_base::NoMemory;
use std::alloc::{AllocError, Global};

/// A subcommand that takes nodes, and perhaps a folder.
fn plays<'a>(alloc: Global, name: &'a str) -> Result<Subcommand<'a>, AllocError>
    ensures { IfOk result (λ r. (app_of r ≡ plays name.entry.now)
        × ((out-Command r).has_globals ≡ false)) }
{
    let nodes = Arg::new(alloc, "nodes").required(true);
    let folder = Arg::new(alloc, "folder");
    Subcommand::new(alloc, name).arg(nodes)?.arg(folder)
}

/// A subcommand that takes nodes and a number, and perhaps a folder.
fn makes<'a>(alloc: Global, name: &'a str) -> Result<Subcommand<'a>, AllocError>
    ensures { IfOk result (λ r. (app_of r ≡ makes name.entry.now)
        × ((out-Command r).has_globals ≡ false)) }
{
    let nodes = Arg::new(alloc, "nodes").required(true);
    let number = Arg::new(alloc, "number").required(true);
    let folder = Arg::new(alloc, "folder");
    Subcommand::new(alloc, name)
        .arg(nodes)?
        .arg(number)?
        .arg(folder)
}

/// A subcommand that takes nodes and a folder.
fn checks<'a>(alloc: Global, name: &'a str) -> Result<Subcommand<'a>, AllocError>
    ensures { IfOk result (λ r. (app_of r ≡ checks name.entry.now)
        × ((out-Command r).has_globals ≡ false)) }
{
    let nodes = Arg::new(alloc, "nodes").required(true);
    let folder = Arg::new(alloc, "folder").required(true);
    Subcommand::new(alloc, name).arg(nodes)?.arg(folder)
}

/// The command line, with its four subcommands.
fn command_line<'a>(alloc: Global) -> Result<Subcommand<'a>, AllocError>
    ensures { IfOk result (λ r. (app_of r ≡ minuet) × ((out-Command r).has_globals ≡ false)) }
{
    let replay = plays(alloc, "replay")?;
    let run = plays(alloc, "run")?;
    let made = makes(alloc, "gen")?;
    let check = checks(alloc, "check")?;
    Subcommand::new(alloc, "minuet")
        .no_binary_name(true)
        .disable_help_flag(true)
        .disable_help_subcommand(true)
        .subcommand(replay)?
        .subcommand(run)?
        .subcommand(made)?
        .subcommand(check)
}

/// The words of a subcommand and of its positionals.
#[derive(Debug, Drop)]
struct Parts<'a> {
    command: Command,
    nodes: &'a str,
    number: Option<&'a str>,
    folder: Option<&'a str>,
}

/// Whether the word begins with a hyphen.
fn is_option(word: &str) -> bool
    ensures { result ≡ is_option word.now }
{
    match word.as_bytes() {
        [] => false,
        [first, ..] => *first == b'-',
    }
}

/// Whether a word begins with a hyphen.
fn has_option(words: &[String]) -> bool
    ensures { result ≡ list_any is_option (map string_bytes words.now) }
{
    for word in words {
        if is_option(word.as_str()) {
            return true;
        }
    }
    false
}

/// The parts of the words: nothing exactly where they aren't a subcommand's. Options are refused
/// before clap reads them: it would take `--`.
fn split<'a>(alloc: Global, words: &'a [String]) -> Result<Option<Parts<'a>>, AllocError>
    ensures { IfOk result (λ r. MatchOption r
        ((command : Command) (nodes : Text) (number folder : Option Text)
        → AllPlain (map string_bytes words.entry.now)
        → Split (map string_bytes words.entry.now) command nodes number folder → ⊥)
        (λ p. Split (map string_bytes words.entry.now) p.command p.nodes.now
        (option_map (λ s. s.now) p.number) (option_map (λ s. s.now) p.folder))) }
{
    if has_option(words) {
        return Ok(None);
    }
    let command = command_line(alloc)?;
    let matches = match command.try_get_matches_from(words) {
        Ok(matches) => matches,
        Err(error) => {
            if error.kind() == ErrorKind::OutOfMemory {
                return Err(AllocError);
            }
            return Ok(None);
        }
    };
    let Some((word, inner)) = matches.subcommand() else {
        return Ok(None);
    };
    let Some(command) = command_in(word) else {
        return Ok(None);
    };
    let Some(nodes) = inner.get_str("nodes") else {
        return Ok(None);
    };
    let number = inner.get_str("number");
    let folder = inner.get_str("folder");
    Ok(Some(Parts {
        command,
        nodes,
        number,
        folder,
    }))
}

/// A number, where a word stands.
fn may_be_number(word: Option<&str>) -> Option<Option<u64>>
    ensures { MatchOption result ((number : Option ℕ)
        → ReadsAs (option_map (λ w. w.now) word.entry) number → ⊥)
        (ReadsAs (option_map (λ w. w.now) word.entry)) }
{
    match word {
        Some(word) => {
            let number = number_in(word)?;
            Some(Some(number))
        }
        None => Some(None),
    }
}

/// A folder, where a word stands.
fn may_be_folder(word: Option<&str>) -> bool
    ensures { IsTrue result ↔ MayBeFolder (option_map (λ w. w.now) word.entry) }
{
    match word {
        Some(word) => is_folder(word),
        None => true,
    }
}

/// What the words ask for: nothing exactly for wrong ones.
pub fn read_words(alloc: Global, words: &Words) -> Result<Option<CommandLine<'_>>, NoMemory>
    ensures { IfOk result (λ line.
        MatchOption line (AskNothing words.now)
        (λ line. (asked : Asked) × Asks words.now asked × IsSaid line asked)) }
{
    let Some(parts) = split(alloc, words.texts())? else {
        return Ok(None);
    };
    let Some(nodes) = nodes_in(parts.nodes) else {
        return Ok(None);
    };
    let Some(number) = may_be_number(parts.number) else {
        return Ok(None);
    };
    if !may_be_folder(parts.folder) {
        return Ok(None);
    }
    Ok(Some(CommandLine {
        command: parts.command,
        nodes,
        number,
        folder: parts.folder,
    }))
}

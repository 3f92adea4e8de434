ghost use Rattle.std.specs.Prelude.{◌≡◌, ◌⊎◌, ◌++◌, IfOk, codes};
ghost use Rattle.mn_io.specs.Faults.{Rose};
ghost use Rattle.mn_report.specs.Spelling.{spaced_number};
ghost use Rattle.mn_top.specs.Program.{line, text_of, forest_rule_name, rule_name, status_of};
ghost use Rattle.mn_top.specs.Program.{Finishes, IsLine};
ghost use Rattle.mn_top.specs.declared.due.Due.{Due};
ghost use Rattle.mn_top.specs.declared.due.Due.TheVariants as dues;

use crate::due::{DamageRule, Due};
use mn_forest::Rule;
use mn_io::{Sink, write_all};
use mn_report::push_spaced_number;
use std::alloc::{AllocError, Global};

/// The name of a rule of the memory behind a space.
fn forest_rule_name(rule: Rule) -> &'static [u8]
    ensures { result.now ≡ forest_rule_name rule }
{
    match rule {
        Rule::Header => b" header",
        Rule::Count => b" count",
        Rule::Entry => b" entry",
        Rule::Root => b" root",
        Rule::Page => b" page",
        Rule::Child => b" child",
        Rule::Reach => b" reach",
    }
}

impl DamageRule {
    /// Its name behind a space.
    fn name(self) -> &'static [u8]
        ensures { result.now ≡ rule_name self }
    {
        match self {
            DamageRule::Log => b" log",
            DamageRule::Votes => b" votes",
            DamageRule::Both => b" both",
            DamageRule::Forest { rule } => forest_rule_name(rule),
            DamageRule::Runs => b" runs",
            DamageRule::Kept => b" kept",
        }
    }
}

/// Words and a number.
fn with_number(alloc: Global, words: &[u8], number: u64) -> Result<Vec<u8>, AllocError>
    ensures { IfOk result (λ text. text.items ≡ words.now ++ spaced_number number) }
{
    let mut text = words.to_vec(alloc)?;
    push_spaced_number(&mut text, number)?;
    Ok(text)
}

/// Words and two numbers.
fn with_numbers(alloc: Global, words: &[u8], first: u64, second: u64) -> Result<Vec<u8>, AllocError>
    ensures { IfOk result (λ text. text.items
        ≡ words.now ++ (spaced_number first ++ spaced_number second)) }
{
    let mut text = with_number(alloc, words, first)?;
    push_spaced_number(&mut text, second)?;
    Ok(text)
}

/// Where a log is damaged, and by which rule.
fn damage_text(alloc: Global, node: u8, place: u64, rule: DamageRule) -> Result<Vec<u8>, AllocError>
    ensures { IfOk result (λ text. text.items
        ≡ codes "damaged" ++ (spaced_number node ++ (spaced_number place ++ rule_name rule))) }
{
    let mut text = with_numbers(alloc, b"damaged", node as u64, place)?;
    text.extend_from_slice(rule.name())?;
    Ok(text)
}

impl Due {
    /// The line that is to be written where no report is, without its end.
    fn message(&self, alloc: Global) -> Result<Vec<u8>, AllocError>
        requires { IsLine self.now }
        ensures { IfOk result (λ text. text_of self.now ≡ line text.items) }
    {
        match self {
            Due::Report { .. } => unreachable!(),
            Due::Usage => b"usage".to_vec(alloc),
            Due::Refused { line: row, column } => {
                with_numbers(alloc, b"refused", *row as u64, *column as u64)
            }
            Due::ReadFault => b"read fault".to_vec(alloc),
            Due::DiskFault { node } => with_number(alloc, b"disk fault", *node as u64),
            Due::Damaged { node, place, rule } => damage_text(alloc, *node, *place, *rule),
            Due::NoMemory => b"no memory".to_vec(alloc),
            Due::Disks { given, wanted } => {
                with_numbers(alloc, b"disks", *given, *wanted as u64)
            }
        }
    }

    /// The line, whole.
    fn whole_line(&self, alloc: Global) -> Result<Vec<u8>, AllocError>
        requires { IsLine self.now }
        ensures { IfOk result (λ text. text.items ≡ text_of self.now) }
    {
        let mut text = self.message(alloc)?;
        text.push(b'\n')?;
        Ok(text)
    }

    /// The status that goes with it.
    fn status(&self) -> u8
        ensures { result ≡ status_of self.now }
    {
        match self {
            Due::Report { .. } => 0,
            Due::Usage => 1,
            Due::Refused { .. } => 2,
            Due::ReadFault => 3,
            Due::DiskFault { .. } => 5,
            Due::Damaged { .. } => 6,
            Due::NoMemory => 7,
            Due::Disks { .. } => 8,
        }
    }
}

/// Writes a text, and answers the status that goes with it, or 4 after a fault of the sink.
fn write<W: Sink>(sink: &mut W, text: &[u8], status: u8) -> u8
    ensures { (due : Due) → text.now ≡ text_of due → status ≡ status_of due
        → Finishes due result (W.contents sink.old) (W.contents sink.new)
        (Rose (W.faults sink.old) (W.faults sink.new)) }
{
    match write_all(sink, text) {
        Ok(()) => status,
        Err(_) => 4,
    }
}

/// Tells that there was no memory: writes that line and answers 7, or 4 after a fault of the sink.
pub fn tell_no_memory<W: Sink>(sink: &mut W) -> u8
    ensures { Finishes dues.NoMemory result (W.contents sink.old) (W.contents sink.new)
        (Rose (W.faults sink.old) (W.faults sink.new)) }
{
    write(sink, b"no memory\n", 7)
}

/// Writes what is due and answers its status, or 4 after a fault of the sink. Where there is no
/// memory for a line, that is told.
pub fn finish<W: Sink>(alloc: Global, sink: &mut W, due: &Due) -> u8
    ensures { Finishes due.now result (W.contents sink.old) (W.contents sink.new)
        (Rose (W.faults sink.old) (W.faults sink.new))
        ⊎ (IsLine due.now × Finishes dues.NoMemory result (W.contents sink.old)
        (W.contents sink.new) (Rose (W.faults sink.old) (W.faults sink.new))) }
{
    if let Due::Report { text } = due {
        return write(sink, text.as_slice(), 0);
    }
    match due.whole_line(alloc) {
        Ok(text) => write(sink, &text, due.status()),
        Err(_) => tell_no_memory(sink),
    }
}

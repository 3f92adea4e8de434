ghost use Rattle.std.specs.Prelude.{◌≡◌, ◌++◌, [], ◌∷◌, codes, flat_map, if◌then◌else◌, OnOk};
ghost use Rattle.hex.specs.Hex.{encode_lower};
ghost use Rattle.mn_report.specs.Spelling.{spaced};
ghost use Rattle.std.specs.List.{AllByRecursion};
ghost use Rattle.mn_report.specs.Answers.{CanTellLine};
ghost use Rattle.mn_report.specs.Report.{answer_line, rank_lines, history_text, doubt_line};
ghost use Rattle.mn_report.specs.Report.{point_lines, version_line};

use crate::answers::{push_line_answer, push_name, push_spaced, push_state};
use crate::lines::{AnswerLine, DoubtLine, Ranked, VersionLine};
use crate::spelling::{push_number, push_spaced_number};
use std::alloc::{AllocError, Global};

fn push_answer_line(out: &mut Vec<u8>, line: &AnswerLine) -> Result<(), AllocError>
    requires { CanTellLine line.now.answer }
    ensures { OnOk result (out.new.items ≡ out.old.items ++ answer_line line.now) }
{
    out.extend_from_slice(line.client.as_slice())?;
    push_spaced_number(out, u64::from(line.number))?;
    out.push(b' ')?;
    push_line_answer(out, &line.answer)?;
    out.push(b'\n')?;
    Ok(())
}

pub fn push_answer_lines(out: &mut Vec<u8>, lines: &[AnswerLine]) -> Result<(), AllocError>
    requires { AllByRecursion (λ a. CanTellLine a.answer) lines.now }
    ensures { OnOk result (out.new.items ≡ out.old.items ++ flat_map answer_line lines.now) }
{
    for line in lines {
        push_answer_line(out, line)?;
    }
    Ok(())
}

fn push_rank(out: &mut Vec<u8>, rank: u64, ranked: &Ranked) -> Result<(), AllocError>
    ensures { OnOk result (out.new.items ≡ out.old.items ++ rank_lines rank (ranked.now ∷ [])) }
{
    push_number(out, rank)?;
    push_spaced(out, ranked.client.as_slice())?;
    push_spaced_number(out, u64::from(ranked.number))?;
    out.push(b'\n')?;
    Ok(())
}

fn push_ranks(out: &mut Vec<u8>, ranks: &[Ranked]) -> Result<(), AllocError>
    ensures { OnOk result (out.new.items ≡ out.old.items ++ rank_lines 1 ranks.now) }
{
    for (at, ranked) in ranks.iter().enumerate() {
        push_rank(out, at as u64 + 1, ranked)?;
    }
    Ok(())
}

pub fn push_history(out: &mut Vec<u8>, ranks: &[Ranked]) -> Result<(), AllocError>
    ensures { OnOk result (out.new.items ≡ out.old.items ++ history_text ranks.now) }
{
    out.extend_from_slice(b"history")?;
    push_spaced_number(out, ranks.len() as u64)?;
    out.push(b'\n')?;
    push_ranks(out, ranks)
}

fn push_outcome(out: &mut Vec<u8>, committed: bool) -> Result<(), AllocError>
    ensures { OnOk result (out.new.items
        ≡ out.old.items ++ spaced (if committed then codes "committed" else codes "aborted")) }
{
    if committed {
        push_spaced(out, b"committed")
    } else {
        push_spaced(out, b"aborted")
    }
}

fn push_doubt(out: &mut Vec<u8>, line: &DoubtLine) -> Result<(), AllocError>
    ensures { OnOk result (out.new.items ≡ out.old.items ++ doubt_line line.now) }
{
    out.extend_from_slice(b"doubt")?;
    push_spaced(out, line.client.as_slice())?;
    push_spaced_number(out, u64::from(line.number))?;
    push_outcome(out, line.committed)?;
    out.push(b'\n')?;
    Ok(())
}

pub fn push_doubts(out: &mut Vec<u8>, lines: &[DoubtLine]) -> Result<(), AllocError>
    ensures { OnOk result (out.new.items ≡ out.old.items ++ flat_map doubt_line lines.now) }
{
    for line in lines {
        push_doubt(out, line)?;
    }
    Ok(())
}

fn push_met(out: &mut Vec<u8>, met: bool) -> Result<(), AllocError>
    ensures { OnOk result (out.new.items
        ≡ out.old.items ++ spaced (if met then codes "met" else codes "unmet")) }
{
    if met {
        push_spaced(out, b"met")
    } else {
        push_spaced(out, b"unmet")
    }
}

fn push_point(out: &mut Vec<u8>, number: u64, met: bool) -> Result<(), AllocError>
    ensures { OnOk result (out.new.items ≡ out.old.items ++ point_lines number (met ∷ [])) }
{
    out.extend_from_slice(b"point")?;
    push_spaced_number(out, number)?;
    push_met(out, met)?;
    out.push(b'\n')?;
    Ok(())
}

pub fn push_points(out: &mut Vec<u8>, points: &[bool]) -> Result<(), AllocError>
    ensures { OnOk result (out.new.items ≡ out.old.items ++ point_lines 1 points.now) }
{
    for (at, met) in points.iter().enumerate() {
        push_point(out, at as u64 + 1, *met)?;
    }
    Ok(())
}

fn push_digest(alloc: Global, out: &mut Vec<u8>, digest: &[u8; 32]) -> Result<(), AllocError>
    ensures { OnOk result (out.new.items ≡ out.old.items ++ spaced (encode_lower digest.now)) }
{
    let text = hex::encode(alloc, digest.as_slice())?;
    push_spaced(out, text.as_bytes())
}

fn push_version_line(alloc: Global, out: &mut Vec<u8>, line: &VersionLine) -> Result<(), AllocError>
    ensures { OnOk result (out.new.items ≡ out.old.items ++ version_line line.now) }
{
    out.extend_from_slice(b"version")?;
    push_spaced(out, line.name.as_slice())?;
    push_name(out, &line.parent)?;
    push_state(out, line.frozen)?;
    push_spaced_number(out, u64::from(line.count))?;
    push_digest(alloc, out, &line.digest)?;
    out.push(b'\n')?;
    Ok(())
}

pub fn push_version_lines(
    alloc: Global,
    out: &mut Vec<u8>,
    lines: &[VersionLine],
) -> Result<(), AllocError>
    ensures { OnOk result (out.new.items ≡ out.old.items ++ flat_map version_line lines.now) }
{
    for line in lines {
        push_version_line(alloc, out, line)?;
    }
    Ok(())
}

//! What is written of an image that is accepted.

ghost use Rattle.std.specs.Prelude.{◌≡◌, ◌++◌, IfOk, OnOk};
ghost use Rattle.std.specs.Fmt.{decimal};
ghost use Rattle.std.specs.List.{flat_map};
ghost use Rattle.check_command.specs.Reports.{answer_line, count_line, is_told, passed_text, report_text, start_line, told_line, told_lines, turn_lines, way_text};

use followed::{Passed, Turn};
use itoa::Buffer;
use rec_bits::NoMemory;
use segment::Way;
use std::alloc::Global;
use text_lines::first_line;

// A number in decimal digits.
fn add_number(out: &mut Vec<u8>, number: u64) -> Result<(), NoMemory>
    ensures { OnOk result (out.new.items ≡ out.old.items ++ decimal number) }
{
    let mut buffer = Buffer::new();
    out.extend_from_slice(buffer.format(number).as_bytes())?;
    Ok(())
}

// `CLOCKS TO`, or `never`.
fn add_way(out: &mut Vec<u8>, way: Way) -> Result<(), NoMemory>
    ensures { OnOk result (out.new.items ≡ out.old.items ++ way_text way) }
{
    match way {
        Way::Takes { clocks, to } => {
            add_number(out, clocks)?;
            out.extend_from_slice(b" ")?;
            add_number(out, to)?;
        }
        Way::Never | Way::Unknown(_) => out.extend_from_slice(b"never")?,
    }
    Ok(())
}

// `mark ADDRESS ANSWER WAY`.
fn add_answer(out: &mut Vec<u8>, address: u32, answer: &[u8], way: Way) -> Result<(), NoMemory>
    ensures { OnOk result (out.new.items ≡ out.old.items ++ answer_line address answer.now way) }
{
    out.extend_from_slice(b"mark ")?;
    add_number(out, u64::from(address))?;
    out.extend_from_slice(answer)?;
    add_way(out, way)?;
    out.extend_from_slice(b"\n")?;
    Ok(())
}

// The lines of a mark.
fn add_turn(out: &mut Vec<u8>, turn: &Turn) -> Result<(), NoMemory>
    ensures { OnOk result (out.new.items ≡ out.old.items ++ turn_lines turn.now) }
{
    add_answer(out, turn.address, b" 1 ", turn.when_one)?;
    add_answer(out, turn.address, b" 0 ", turn.when_zero)
}

// Whether a line of an image's text tells a view, or what is hidden.
fn is_told(line: &[u8]) -> bool
    ensures { result ≡ is_told line.now }
{
    line.starts_with(b"hide ") || line.starts_with(b"view ")
}

// A line of an image's text, where it tells a view, or what is hidden.
fn add_told_line(out: &mut Vec<u8>, line: &[u8]) -> Result<(), NoMemory>
    ensures { OnOk result (out.new.items ≡ out.old.items ++ told_line line.now) }
{
    if is_told(line) {
        out.extend_from_slice(line)?;
    }
    Ok(())
}

// The lines of an image's text that tell views, and what is hidden.
#[tactic(auto, using(crate::proofs::Telling::telling_more, crate::proofs::Telling::telling_all))]
fn add_told(out: &mut Vec<u8>, text: &[u8]) -> Result<(), NoMemory>
    ensures { OnOk result (out.new.items ≡ out.old.items ++ told_lines text.now) }
{
    let mut rest = text;
    while let Some((line, more)) = first_line(rest) {
        add_told_line(out, line)?;
        rest = more;
    }
    Ok(())
}

// The lines of all marks.
fn add_turns(out: &mut Vec<u8>, turns: &[Turn]) -> Result<(), NoMemory>
    ensures { OnOk result (out.new.items ≡ out.old.items ++ flat_map turn_lines turns.now) }
{
    for turn in turns {
        add_turn(out, turn)?;
    }
    Ok(())
}

// `followed COUNT`.
fn add_count(out: &mut Vec<u8>, marks: usize) -> Result<(), NoMemory>
    ensures { OnOk result (out.new.items ≡ out.old.items ++ count_line marks) }
{
    out.extend_from_slice(b"followed ")?;
    add_number(out, marks as u64)?;
    out.extend_from_slice(b"\n")?;
    Ok(())
}

// `start WAY`.
fn add_start(out: &mut Vec<u8>, way: Way) -> Result<(), NoMemory>
    ensures { OnOk result (out.new.items ≡ out.old.items ++ start_line way) }
{
    out.extend_from_slice(b"start ")?;
    add_way(out, way)?;
    out.extend_from_slice(b"\n")?;
    Ok(())
}

// The ways of words from mark to mark, and `done`.
fn add_passed(out: &mut Vec<u8>, passed: &Passed) -> Result<(), NoMemory>
    ensures { OnOk result (out.new.items ≡ out.old.items ++ passed_text passed.now) }
{
    add_start(out, passed.first)?;
    add_turns(out, passed.turns.as_slice())?;
    out.extend_from_slice(b"done\n")?;
    Ok(())
}

// All lines of a report.
fn add_report(out: &mut Vec<u8>, text: &[u8], marks: usize, passed: &Passed) -> Result<(), NoMemory>
    ensures { OnOk result (out.new.items ≡ out.old.items ++ report_text text.now marks passed.now) }
{
    add_count(out, marks)?;
    add_told(out, text)?;
    add_passed(out, passed)
}

/// What is written of an image of so many marks that is accepted: its views and what it hides, as its
/// text tells them, and the clocks from mark to mark.
pub fn report(
    alloc: Global,
    text: &[u8],
    marks: usize,
    passed: &Passed,
) -> Result<Vec<u8>, NoMemory>
    ensures { IfOk result (λ out. out.items ≡ report_text text.now marks passed.now) }
{
    let mut out = Vec::new(alloc);
    add_report(&mut out, text, marks, passed)?;
    Ok(out)
}

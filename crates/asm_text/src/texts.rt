//! The lines of a text.

ghost use Rattle.std.specs.Prelude.{◌≡◌, ◌<◌, ◌≤◌, ◌^◌, length, IfOk, IfErr, IfNone, IfSome};
ghost use Rattle.asm_text.specs.declared.line.Line.{Line};
ghost use Rattle.asm_text.specs.Lines.{AreTransferTexts, SaysLine};
ghost use Rattle.asm_text.specs.Texts.{IsAsmRefusal, IsAsmText, IsForm};

use crate::line::Line;
use crate::reading::line_of;
use crate::table::{Transfers, numbered};
use rec_bits::{Name, NoMemory, ParseFault};
use std::alloc::Global;
use text_lines::first_line;

// What a line says that stands behind so many, of which there are to be no more than `size`.
fn next_line(
    alloc: Global,
    transfers: &Transfers,
    line: &[u8],
    bits: u8,
    size: u64,
    before: usize,
) -> Result<Option<Line>, NoMemory>
    requires transfers { AreTransferTexts transfers.now }
    requires some { 1 ≤ bits }
    requires most { bits ≤ 64 }
    ensures room { IfOk result (λ found. IfSome found (λ _. before < size)) }
    ensures read { IfOk result (λ found. IfSome found (SaysLine transfers.now bits line.now)) }
    ensures none { IfOk result (λ found. IfNone found (before < size → IsForm transfers.now bits line.now → ⊥)) }
{
    if before as u64 >= size {
        return Ok(None);
    }
    line_of(alloc, transfers, line, bits)
}

// The lines that a text says.
fn read_lines(
    alloc: Global,
    transfers: &Transfers,
    bytes: &[u8],
    bits: u8,
    size: u64,
) -> Result<Vec<Line>, ParseFault>
    requires transfers { AreTransferTexts transfers.now }
    requires some { 1 ≤ bits }
    requires most { bits ≤ 64 }
    ensures read { IfOk result (λ lines. IsAsmText transfers.now bits size bytes.now lines.items) }
    ensures refused { IfErr result (IsAsmRefusal transfers.now bits size bytes.now) }
{
    let mut lines = Vec::new(alloc);
    let mut rest = bytes;
    while let Some((line, more)) = first_line(rest) {
        let Some(said) = next_line(alloc, transfers, line, bits, size, lines.len())? else {
            return Err(ParseFault::Text((bytes.len() - rest.len()) as u64));
        };
        lines.push(said)?;
        rest = more;
    }
    Ok(lines)
}

/// The lines of an assembler text for words of `bits` bits, of which a code has `size`. `texts` are
/// the texts of the netlist's patterns, by their numbers. `Text` comes exactly where a line isn't
/// of the form, or stands past the code's size, with the offset of the first byte of the first such
/// line; a last line without LF isn't of the form. `Memory` is want of memory.
pub fn lines(
    alloc: Global,
    bytes: &[u8],
    texts: &Vec<Name>,
    bits: u8,
    size: u64,
) -> Result<Vec<Line>, ParseFault>
    requires texts { AreTransferTexts texts.now.items }
    requires few { length texts.now.items < 2 ^ 32 }
    requires some { 1 ≤ bits }
    requires most { bits ≤ 64 }
    ensures read { IfOk result (λ lines. IsAsmText texts.now.items bits size bytes.now lines.items) }
    ensures refused { IfErr result (IsAsmRefusal texts.now.items bits size bytes.now) }
{
    let transfers = numbered(alloc, texts.as_slice())?;
    read_lines(alloc, &transfers, bytes, bits, size)
}

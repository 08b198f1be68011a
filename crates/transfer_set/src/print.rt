//! The text of patterns.

ghost use Rattle.std.specs.Prelude.{◌≡◌, ◌≤◌, ◌++◌, All, List, length, IfOk, OnOk};
ghost use Rattle.text_lines.specs.Digits.{bytes_of, hex_of};
ghost use Rattle.net_model.specs.Nets.{word_width};
ghost use Rattle.sym_expr.specs.declared.pool.Node.{Node};
ghost use Rattle.transfer_set.specs.PatternsText.{AreLines, IsLeastOf, IsLine, IsPatternsText, line_text, text_of};
ghost use Rattle.transfer_set.specs.Routes.{IsSet};
ghost use Rattle.transfer_set.specs.Rows.{row_pattern, row_patterns};
ghost use Rattle.transfer_set.specs.Tables.{AreSets, IsRow};

use crate::row::Row;
use crate::texts::{add_bytes, add_number};
use bit_bdd::{Book, SetId};
use net_model::Checked;
use rec_bits::NoMemory;
use std::alloc::Global;
use text_lines::bytes_of;

// The bytes of the widest word.
const WORD_BYTES: usize = 8;

// How many bytes an instruction word fills.
fn word_bytes(checked: &Checked) -> usize
    ensures bytes { result ≡ bytes_of (word_width checked.now.netlist) }
    ensures most { result ≤ WORD_BYTES }
{
    match checked.netlist().codes.get(0) {
        Some(code) => bytes_of(code.bits),
        None => 0,
    }
}

// The least word of a set.
fn least_word(book: &Book, set: SetId) -> u64
    requires { IsSet book.now set }
    ensures { IsLeastOf book.now set result }
{
    book.least(set).unwrap()
}

// A word in so many bytes, the highest first, in hexadecimal digits.
fn add_word(alloc: Global, line: &mut Vec<u8>, bytes: usize, word: u64) -> Result<(), NoMemory>
    requires { bytes ≤ WORD_BYTES }
    ensures { OnOk result (line.new.items ≡ line.old.items ++ hex_of bytes word) }
{
    let digits = hex::encode(alloc, &word.to_be_bytes()[WORD_BYTES - bytes..])?;
    add_bytes(line, digits.as_bytes())
}

// The line of a pattern: its number, its transfer, and a word in so many bytes.
fn add_line(
    alloc: Global,
    line: &mut Vec<u8>,
    number: usize,
    transfer: &[u8],
    bytes: usize,
    word: u64,
) -> Result<(), NoMemory>
    requires { bytes ≤ WORD_BYTES }
    ensures { OnOk result (line.new.items ≡ line.old.items ++ line_text number transfer.now bytes word) }
{
    add_number(line, number as u64)?;
    add_bytes(line, b" ")?;
    add_bytes(line, transfer)?;
    add_bytes(line, b" ; ")?;
    add_word(alloc, line, bytes, word)?;
    add_bytes(line, b"\n")
}

// The line of a pattern, with the least word of its set.
fn row_line(
    alloc: Global,
    checked: &Checked,
    book: &Book,
    number: usize,
    row: &Row,
) -> Result<Vec<u8>, NoMemory>
    requires set { IsSet book.now row.now.set }
    requires word { book.now.bits ≡ word_width checked.now.netlist }
    ensures { IfOk result (λ line. (pool : List Node) → IsRow checked.now.netlist book.now pool row.now →
        IsLine checked.now.netlist number (row_pattern pool row.now) line.items) }
{
    let _ = checked.netlist();
    let word = least_word(book, row.set);
    let mut line = Vec::new(alloc);
    add_line(
        alloc,
        &mut line,
        number,
        &row.text,
        word_bytes(checked),
        word,
    )?;
    Ok(line)
}

// The lines of patterns, numbered from 0.
fn row_lines(
    alloc: Global,
    checked: &Checked,
    book: &Book,
    rows: &[Row],
) -> Result<Vec<u8>, NoMemory>
    requires sets { AreSets book.now rows.now }
    requires word { book.now.bits ≡ word_width checked.now.netlist }
    ensures { IfOk result (λ lines. (pool : List Node) → All (IsRow checked.now.netlist book.now pool) rows.now →
        AreLines checked.now.netlist 0 (row_patterns pool rows.now) lines.items) }
{
    let mut lines = Vec::new(alloc);
    for (number, row) in rows.iter().enumerate() {
        lines.extend_from_slice(&row_line(alloc, checked, book, number, row)?)?;
    }
    Ok(lines)
}

// Lines with their count before them and the end behind.
fn add_whole(text: &mut Vec<u8>, count: usize, lines: &[u8]) -> Result<(), NoMemory>
    ensures { OnOk result (text.new.items ≡ text.old.items ++ text_of count lines.now) }
{
    add_bytes(text, b"patterns ")?;
    add_number(text, count as u64)?;
    add_bytes(text, b"\n")?;
    add_bytes(text, lines)?;
    add_bytes(text, b"done\n")
}

// The text of patterns: how many there are, and for each a line with its number, from 0 on, its
// transfer and the least word of its set.
pub(crate) fn text(
    alloc: Global,
    checked: &Checked,
    book: &Book,
    rows: &[Row],
) -> Result<Vec<u8>, NoMemory>
    requires sets { AreSets book.now rows.now }
    requires word { book.now.bits ≡ word_width checked.now.netlist }
    ensures { IfOk result (λ text. (pool : List Node) → All (IsRow checked.now.netlist book.now pool) rows.now →
        IsPatternsText checked.now.netlist (row_patterns pool rows.now) text.items) }
{
    let lines = row_lines(alloc, checked, book, rows)?;
    let mut text = Vec::new(alloc);
    add_whole(&mut text, rows.len(), &lines)?;
    Ok(text)
}

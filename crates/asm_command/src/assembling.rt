//! From an assembler text to the image of its words.

ghost use Rattle.std.specs.Prelude.{◌≡◌, ◌<◌, ◌≤◌, ◌^◌, All, IfOk, IfErr, length, map};
ghost use Rattle.std.specs.List.{AllZip};
ghost use Rattle.net_model.specs.CheckedRules.{KeepsRules};
ghost use Rattle.net_model.specs.Nets.{word_width};
ghost use Rattle.code_model.specs.ImageText.{image_text};
ghost use Rattle.isa_extract.specs.Extraction.{IsExtractedFrom};
ghost use Rattle.asm_text.specs.Lines.{AreTransferTexts, LineFits};
ghost use Rattle.asm_command.specs.Assembled.{HasLeastWord, IsAssembled, IsAssembleFault, bare_image, bare_word};
ghost use Rattle.asm_command.specs.Inner.Tables.{AreLeastWords, IsLeastOf, IsOutOf, IsSourceFault, IsTextFault, IsWordFault, KeepsPatterns, SaysLines, machine_of, row_texts};

use crate::EDITION;
use crate::fault::AsmFault;
use crate::texts::texts_of;
use asm_text::{Line, lines};
use asm_words::words;
use code_model::{Image, Limits, Word};
use isa_extract::{Isa, read_extracted_taken};
use net_model::Checked;
use rec_bits::{Items, NoMemory};
use std::alloc::Global;
use transfer_set::Patterns;

// The lines of a text.
fn lines_in(
    alloc: Global,
    checked: &Checked,
    patterns: &Patterns,
    text: &[u8],
) -> Result<Vec<Line>, AsmFault>
    requires { AreTransferTexts (row_texts patterns.now.rows) }
    ensures said { IfOk result (λ lines.
        SaysLines (row_texts patterns.now.rows) checked.now.netlist text.now lines.items) }
    ensures refused { IfErr result (IsTextFault (row_texts patterns.now.rows) checked.now.netlist text.now) }
{
    let texts = texts_of(alloc, patterns)?;
    let limits = Limits::of(checked);
    let lines = lines(alloc, text, &texts, limits.bits, u64::from(limits.words))?;
    Ok(lines)
}

// The least word of a line; None where it has none.
fn least_word(
    alloc: Global,
    checked: &Checked,
    extracted: &mut Isa,
    line: &Line,
) -> Result<Option<u64>, NoMemory>
    requires rules { KeepsRules checked.now.netlist checked.now.order }
    requires extracted { IsExtractedFrom checked.now.netlist extracted.old }
    requires line { LineFits (row_texts extracted.old.patterns.rows) (word_width checked.now.netlist) line.now }
    ensures extracted { IsExtractedFrom checked.now.netlist extracted.new }
    ensures kept { KeepsPatterns extracted.old extracted.new }
    ensures least { IfOk result (IsLeastOf (machine_of checked.now.netlist extracted.old) line.now) }
{
    let storages = checked.netlist().storages.len() as u32;
    let set = words(
        alloc,
        &mut extracted.book,
        &extracted.patterns,
        line,
        storages,
    )?;
    Ok(extracted.book.least(set))
}

// The least word of each line.
fn least_words(
    alloc: Global,
    checked: &Checked,
    extracted: &mut Isa,
    lines: &[Line],
) -> Result<Items<u64>, AsmFault>
    requires rules { KeepsRules checked.now.netlist checked.now.order }
    requires extracted { IsExtractedFrom checked.now.netlist extracted.old }
    requires lines { All (LineFits (row_texts extracted.old.patterns.rows) (word_width checked.now.netlist)) lines.now }
    ensures least { IfOk result (AllZip (HasLeastWord (machine_of checked.now.netlist extracted.old)) lines.now) }
    ensures refused { IfErr result (IsWordFault (machine_of checked.now.netlist extracted.old) lines.now) }
{
    let mut words = Items::new(alloc);
    for (number, line) in lines.iter().enumerate() {
        let Some(word) = least_word(alloc, checked, extracted, line)? else {
            return Err(AsmFault::Word(number as u64));
        };
        words.push(word)?;
    }
    Ok(words)
}

// Words of which no patterns are wanted.
fn bare_words(alloc: Global, words: &[u64]) -> Result<Items<Word>, NoMemory>
    ensures { IfOk result (λ bare. bare ≡ map bare_word words.now) }
{
    let mut bare = Items::new(alloc);
    for word in words {
        bare.push(Word {
            word: *word,
            patterns: Items::new(alloc),
        })?;
    }
    Ok(bare)
}

// The text of an image of words alone.
fn image_bytes(alloc: Global, bits: u8, words: &[u64]) -> Result<Vec<u8>, NoMemory>
    requires { bits ≤ 64 }
    ensures { IfOk result (λ out. out.items ≡ image_text (bare_image bits words.now)) }
{
    let words = bare_words(alloc, words)?;
    let image = Image {
        bits,
        temps: 0,
        places: Items::new(alloc),
        costs: Items::new(alloc),
        marks: Items::new(alloc),
        words,
    };
    image_text::write(alloc, &image)
}

// The least words of the lines of a text.
fn words_in(
    alloc: Global,
    checked: &Checked,
    extracted: &mut Isa,
    text: &[u8],
) -> Result<Items<u64>, AsmFault>
    requires rules { KeepsRules checked.now.netlist checked.now.order }
    requires extracted { IsExtractedFrom checked.now.netlist extracted.old }
    requires texts { AreTransferTexts (row_texts extracted.old.patterns.rows) }
    ensures words { IfOk result (AreLeastWords (machine_of checked.now.netlist extracted.old) text.now) }
    ensures refused { IfErr result (IsSourceFault (machine_of checked.now.netlist extracted.old) text.now) }
{
    let lines = lines_in(alloc, checked, &extracted.patterns, text)?;
    let words = least_words(alloc, checked, extracted, lines.as_slice())?;
    Ok(words)
}

// The text of the image of the least words of the lines of a text.
fn out_of(
    alloc: Global,
    checked: &Checked,
    extracted: &mut Isa,
    text: &[u8],
) -> Result<Vec<u8>, AsmFault>
    requires rules { KeepsRules checked.now.netlist checked.now.order }
    requires extracted { IsExtractedFrom checked.now.netlist extracted.old }
    requires texts { AreTransferTexts (row_texts extracted.old.patterns.rows) }
    ensures out { IfOk result (λ out. IsOutOf (machine_of checked.now.netlist extracted.old) text.now out.items) }
    ensures refused { IfErr result (IsSourceFault (machine_of checked.now.netlist extracted.old) text.now) }
{
    let words = words_in(alloc, checked, extracted, text)?;
    let out = image_bytes(alloc, Limits::of(checked).bits, words.as_slice())?;
    Ok(out)
}

/// The text of an image for the netlist that `net` is, of the least word of each line of the
/// assembler text that `text` is: without cells, places, costs and marks, and with no patterns that
/// are wanted. Each refusal comes exactly where it is the first that applies, in the order in which
/// they are listed.
pub fn assemble(alloc: Global, net: &[u8], text: &[u8]) -> Result<Vec<u8>, AsmFault>
    requires { length net.now < 2 ^ 32 }
    ensures assembled { IfOk result (λ out. IsAssembled net.now text.now out.items) }
    ensures refused { IfErr result (IsAssembleFault net.now text.now) }
{
    let (checked, mut extracted) = read_extracted_taken(alloc, net, EDITION)?;
    out_of(alloc, &checked, &mut extracted, text)
}

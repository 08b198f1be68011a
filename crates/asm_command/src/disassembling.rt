//! From an image to the text of its lines.

ghost use Rattle.std.specs.Prelude.{◌≡◌, ◌<◌, ◌^◌, All, IfOk, IfErr, length, map};
ghost use Rattle.std.specs.List.{AllZip};
ghost use Rattle.code_model.specs.declared.image.Word.{Word};
ghost use Rattle.code_model.specs.ImageFits.{IsFitting, limits_of};
ghost use Rattle.viewed_text.specs.Texts.{IsImageRead};
ghost use Rattle.isa_extract.specs.Extraction.{IsExtractedFrom};
ghost use Rattle.net_model.specs.Nets.{word_width};
ghost use Rattle.asm_text.specs.Texts.{lines_text};
ghost use Rattle.asm_command.specs.Disassembled.{IsDisassembled, IsDisassembleFault, ShowsWord};
ghost use Rattle.asm_command.specs.Inner.Tables.{IsImageFault, IsShownIn, IsShownOf, machine_of, row_texts};

use crate::EDITION;
use crate::fault::DisFault;
use crate::texts::texts_of;
use asm_text::{Line, print};
use asm_words::line_of;
use code_model::{Image, Limits, Word};
use isa_extract::{Isa, read_extracted_taken};
use net_model::Checked;
use rec_bits::NoMemory;
use std::alloc::Global;
use transfer_set::Patterns;

// The line of each word.
fn lines_of(
    alloc: Global,
    checked: &Checked,
    extracted: &Isa,
    words: &[Word],
) -> Result<Vec<Line>, NoMemory>
    requires extracted { IsExtractedFrom checked.now.netlist extracted.now }
    requires words { All (λ (word : Word). word.word < 2 ^ word_width checked.now.netlist) words.now }
    ensures { IfOk result (λ lines. AllZip (ShowsWord (machine_of checked.now.netlist extracted.now))
        (map (λ (word : Word). word.word) words.now) lines.items) }
{
    let Isa {
        book,
        pool,
        patterns,
        legal,
    } = extracted;
    let mut lines = Vec::new(alloc);
    for word in words {
        lines.push(line_of(alloc, book, pool, patterns, *legal, word.word)?)?;
    }
    Ok(lines)
}

// The image that bytes are, whatever is remarked on it.
fn image_of(alloc: Global, checked: &Checked, image: &[u8]) -> Result<Image, DisFault>
    requires { length image.now < 2 ^ 32 }
    ensures found { IfOk result (IsImageRead checked.now.netlist image.now) }
    ensures refused { IfErr result (IsImageFault checked.now.netlist image.now) }
{
    let image = viewed_text::read_image(alloc, image, checked)?;
    Ok(image)
}

// The text of lines.
fn text_of(
    alloc: Global,
    checked: &Checked,
    patterns: &Patterns,
    lines: &Vec<Line>,
) -> Result<Vec<u8>, NoMemory>
    ensures { IfOk result (λ text. text.items
        ≡ lines_text (row_texts patterns.now.rows) (limits_of checked.now.netlist).bits lines.now.items) }
{
    let texts = texts_of(alloc, patterns)?;
    print(alloc, lines, &texts, Limits::of(checked).bits)
}

// The text of the lines of the words of an image.
fn shown_of(
    alloc: Global,
    checked: &Checked,
    extracted: &Isa,
    image: &Image,
) -> Result<Vec<u8>, NoMemory>
    requires extracted { IsExtractedFrom checked.now.netlist extracted.now }
    requires image { IsFitting (limits_of checked.now.netlist) image.now }
    ensures { IfOk result (λ text. IsShownOf (machine_of checked.now.netlist extracted.now) image.now text.items) }
{
    let lines = lines_of(alloc, checked, extracted, image.words.as_slice())?;
    text_of(alloc, checked, &extracted.patterns, &lines)
}

// The text of the lines of the words of the image that bytes are.
fn out_of(
    alloc: Global,
    checked: &Checked,
    extracted: &Isa,
    image: &[u8],
) -> Result<Vec<u8>, DisFault>
    requires extracted { IsExtractedFrom checked.now.netlist extracted.now }
    requires image { length image.now < 2 ^ 32 }
    ensures out { IfOk result (λ text. IsShownIn (machine_of checked.now.netlist extracted.now) image.now text.items) }
    ensures refused { IfErr result (IsImageFault checked.now.netlist image.now) }
{
    let image = image_of(alloc, checked, image)?;
    let text = shown_of(alloc, checked, extracted, &image)?;
    Ok(text)
}

/// The text of the lines of the words of an image, one for each: `image` is its text, which fits
/// the netlist that `net` is. Each refusal comes exactly where it is the first that applies, in the
/// order in which they are listed.
pub fn disassemble(alloc: Global, net: &[u8], image: &[u8]) -> Result<Vec<u8>, DisFault>
    requires net { length net.now < 2 ^ 32 }
    requires image { length image.now < 2 ^ 32 }
    ensures disassembled { IfOk result (λ text. IsDisassembled net.now image.now text.items) }
    ensures refused { IfErr result (IsDisassembleFault net.now image.now) }
{
    let (checked, extracted) = read_extracted_taken(alloc, net, EDITION)?;
    out_of(alloc, &checked, &extracted, image)
}

//! From an image to its text.

ghost use Rattle.std.specs.Prelude.{◌≡◌, ◌++◌, ◌≤◌, ℕ, IfOk, OnOk, string_bytes};
ghost use Rattle.std.specs.List.{flat_map};
ghost use Rattle.code_model.specs.ImageText.{image_head, place_line, cost_line, mark_line, after_comma, numbers_text, word_line, word_lines, image_text};
ghost use Rattle.text_lines.specs.Digits.{hex_of};

use code_model::{Image, Mark, Place, Word};
use rec_bits::NoMemory;
use std::alloc::Global;
use text_lines::bytes_of;

// The bytes of the widest word.
const WORD_BYTES: usize = 8;

fn put_place(alloc: Global, out: &mut Vec<u8>, place: &Place) -> Result<(), NoMemory>
    ensures { OnOk result (out.new.items ≡ out.old.items ++ place_line place.now) }
{
    let address = place.address;
    let len = place.len;
    out.extend_from_slice(b"place ")?;
    out.extend_from_slice(place.name.as_slice())?;
    out.extend_from_slice(format!(in alloc; " {address} {len}\n")?.as_bytes())?;
    Ok(())
}

fn put_places(alloc: Global, out: &mut Vec<u8>, places: &[Place]) -> Result<(), NoMemory>
    ensures { OnOk result (out.new.items ≡ out.old.items ++ flat_map place_line places.now) }
{
    for place in places {
        put_place(alloc, out, place)?;
    }
    Ok(())
}

fn cost_text(alloc: Global, cost: &(u32, u32)) -> Result<String, NoMemory>
    ensures { IfOk result (λ line. string_bytes line ≡ cost_line cost.now) }
{
    let tree = cost.0;
    let least = cost.1;
    Ok(format!(in alloc; "tree {tree} {least}\n")?)
}

fn put_costs(alloc: Global, out: &mut Vec<u8>, costs: &[(u32, u32)]) -> Result<(), NoMemory>
    ensures { OnOk result (out.new.items ≡ out.old.items ++ flat_map cost_line costs.now) }
{
    for cost in costs {
        out.extend_from_slice(cost_text(alloc, cost)?.as_bytes())?;
    }
    Ok(())
}

fn mark_text(alloc: Global, mark: &Mark) -> Result<String, NoMemory>
    ensures { IfOk result (λ line. string_bytes line ≡ mark_line mark.now) }
{
    let address = mark.address;
    match mark.label {
        Some(tree) => Ok(format!(in alloc; "mark {address} {tree}\n")?),
        None => Ok(format!(in alloc; "mark {address} end\n")?),
    }
}

fn put_marks(alloc: Global, out: &mut Vec<u8>, marks: &[Mark]) -> Result<(), NoMemory>
    ensures { OnOk result (out.new.items ≡ out.old.items ++ flat_map mark_line marks.now) }
{
    for mark in marks {
        out.extend_from_slice(mark_text(alloc, mark)?.as_bytes())?;
    }
    Ok(())
}

fn word_digits(alloc: Global, word: u64, bytes: usize) -> Result<String, NoMemory>
    requires { bytes ≤ WORD_BYTES }
    ensures { IfOk result (λ line. string_bytes line ≡ hex_of bytes word) }
{
    Ok(hex::encode(alloc, &word.to_be_bytes()[WORD_BYTES - bytes..])?)
}

fn comma_text(alloc: Global, number: u32) -> Result<String, NoMemory>
    ensures { IfOk result (λ text. string_bytes text ≡ after_comma number) }
{
    Ok(format!(in alloc; ",{number}")?)
}

fn put_more_numbers(alloc: Global, out: &mut Vec<u8>, numbers: &[u32]) -> Result<(), NoMemory>
    ensures { OnOk result (out.new.items ≡ out.old.items ++ flat_map after_comma numbers.now) }
{
    for number in numbers {
        out.extend_from_slice(comma_text(alloc, *number)?.as_bytes())?;
    }
    Ok(())
}

fn put_numbers(alloc: Global, out: &mut Vec<u8>, numbers: &[u32]) -> Result<(), NoMemory>
    ensures { OnOk result (out.new.items ≡ out.old.items ++ numbers_text numbers.now) }
{
    let Some((first, more)) = numbers.split_first() else {
        out.extend_from_slice(b"-")?;
        return Ok(());
    };
    out.extend_from_slice(format!(in alloc; "{first}")?.as_bytes())?;
    put_more_numbers(alloc, out, more)?;
    Ok(())
}

fn put_word(
    alloc: Global,
    out: &mut Vec<u8>,
    address: usize,
    word: &Word,
    bytes: usize,
) -> Result<(), NoMemory>
    requires { bytes ≤ WORD_BYTES }
    ensures { OnOk result (out.new.items ≡ out.old.items ++ word_line bytes address word.now) }
{
    let digits = word_digits(alloc, word.word, bytes)?;
    out.extend_from_slice(format!(in alloc; "word {address} {digits} ")?.as_bytes())?;
    put_numbers(alloc, out, word.patterns.as_slice())?;
    out.extend_from_slice(b"\n")?;
    Ok(())
}

fn put_words(alloc: Global, out: &mut Vec<u8>, words: &[Word], bytes: usize) -> Result<(), NoMemory>
    requires { bytes ≤ WORD_BYTES }
    ensures { OnOk result (out.new.items ≡ out.old.items ++ word_lines bytes 0 words.now) }
{
    for (address, word) in words.iter().enumerate() {
        put_word(alloc, out, address, word, bytes)?;
    }
    Ok(())
}

fn head_lines(alloc: Global, image: &Image) -> Result<String, NoMemory>
    ensures { IfOk result (λ line. string_bytes line ≡ image_head image.now) }
{
    let bits = image.bits;
    let count = image.words.len();
    let temps = image.temps;
    Ok(format!(in alloc; "image {bits} {count}\ntemps {temps}\n")?)
}

/// The text of an image.
pub fn write(alloc: Global, image: &Image) -> Result<Vec<u8>, NoMemory>
    requires { image.now.bits ≤ 64 }
    ensures { IfOk result (λ text. text.items ≡ image_text image.now) }
{
    let bytes = bytes_of(image.bits);
    let mut out = Vec::new(alloc);
    out.extend_from_slice(head_lines(alloc, image)?.as_bytes())?;
    put_places(alloc, &mut out, image.places.as_slice())?;
    put_costs(alloc, &mut out, image.costs.as_slice())?;
    put_marks(alloc, &mut out, image.marks.as_slice())?;
    put_words(alloc, &mut out, image.words.as_slice(), bytes)?;
    out.extend_from_slice(b"done\n")?;
    Ok(out)
}

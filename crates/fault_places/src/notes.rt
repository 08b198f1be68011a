//! The text that is shown of a place.

ghost use Rattle.std.specs.Prelude.{◌≡◌, ◌++◌, ◌∷◌, [], IfOk, OnOk, codes, map};
ghost use Rattle.std.specs.Fmt.{decimal};
ghost use Rattle.std.specs.List.{concat};
ghost use Rattle.text_places.specs.Places.{last_line, line_around, column_at, line_at};
ghost use Rattle.fault_places.specs.Notes.{blank_for, caret_line, note_text};

use itoa::Buffer;
use rec_bits::NoMemory;
use std::alloc::Global;
use text_places::{line_around, line_before, place_of};

// A number in decimal digits.
fn add_number(note: &mut Vec<u8>, number: usize) -> Result<(), NoMemory>
    ensures { OnOk result (note.new.items ≡ note.old.items ++ decimal number) }
{
    let mut buffer = Buffer::new();
    note.extend_from_slice(buffer.format(number as u64).as_bytes())?;
    Ok(())
}

// `NAME:LINE:COLUMN: `.
fn add_place(note: &mut Vec<u8>, name: &str, text: &[u8], at: u64) -> Result<(), NoMemory>
    ensures { OnOk result (note.new.items ≡ note.old.items
        ++ concat (name.now ∷ codes ":" ∷ decimal (line_at text.now at) ∷ codes ":" ∷ decimal (column_at text.now at)
        ∷ codes ": " ∷ [])) }
{
    let place = place_of(text, at);
    note.extend_from_slice(name.as_bytes())?;
    note.extend_from_slice(b":")?;
    add_number(note, place.line)?;
    note.extend_from_slice(b":")?;
    add_number(note, place.column)?;
    note.extend_from_slice(b": ")?;
    Ok(())
}

// A line of these bytes.
fn add_line(note: &mut Vec<u8>, line: &[u8]) -> Result<(), NoMemory>
    ensures { OnOk result (note.new.items ≡ note.old.items ++ concat (line.now ∷ codes "\n" ∷ [])) }
{
    note.extend_from_slice(line)?;
    note.extend_from_slice(b"\n")?;
    Ok(())
}

fn blank_for(byte: u8) -> u8
    ensures { result ≡ blank_for byte }
{
    if byte == b'\t' { b'\t' } else { b' ' }
}

// What stands above the caret is blank, but for its tabs.
fn add_caret(note: &mut Vec<u8>, before: &[u8]) -> Result<(), NoMemory>
    ensures { OnOk result (note.new.items ≡ note.old.items ++ (map blank_for before.now ++ codes "^\n")) }
{
    for byte in before {
        note.push(blank_for(*byte))?;
    }
    note.extend_from_slice(b"^\n")?;
    Ok(())
}

/// The place of an offset in a file's text, behind the file's name, with a reason, its line, and a
/// caret below the byte.
pub fn note(
    alloc: Global,
    name: &str,
    text: &[u8],
    at: u64,
    reason: &str,
) -> Result<Vec<u8>, NoMemory>
    ensures { IfOk result (λ note. note.items ≡ note_text name.now text.now at reason.now) }
{
    let mut note = Vec::new(alloc);
    add_place(&mut note, name, text, at)?;
    add_line(&mut note, reason.as_bytes())?;
    add_line(&mut note, line_around(text, at))?;
    add_caret(&mut note, line_before(text, at))?;
    Ok(note)
}

//! From a line to what it says.

ghost use Rattle.std.specs.Prelude.{◌≡◌, ◌≤◌, IfOk, option_map};
ghost use Rattle.image_items.specs.Reading.{place_parts, word_parts, said_by, item_of, size_item, temps_item, place_item, tree_item, mark_item, word_item};

use crate::Item;
use crate::field::{label_of, last_number, number_before, pair_of, word_in};
use crate::list::list_of;
use code_model::{Mark, Place, Word};
use rec_bits::{Items, NoMemory};
use std::alloc::Global;
use text_lines::{cut, is_name, line_end};

// A name, an address and a length.
#[tactic(auto, unfolding(crate::specs::Reading::place_parts))]
fn place_parts(text: &[u8]) -> Option<(&[u8], (u32, u32))>
    ensures { option_map (λ parts. (parts.0.now, parts.1)) result ≡ place_parts text.now }
{
    let (name, rest) = cut(text, b' ')?;
    let numbers = pair_of(rest)?;
    if is_name(name) {
        Some((name, numbers))
    } else {
        None
    }
}

#[tactic(auto, unfolding(crate::specs::Reading::place_item))]
fn place_item(alloc: Global, text: &[u8]) -> Result<Option<Item>, NoMemory>
    ensures { IfOk result (λ item. item ≡ place_item text.now) }
{
    let Some((name, numbers)) = place_parts(text) else {
        return Ok(None);
    };
    let name = Items::from_slice(alloc, name)?;
    let address = numbers.0;
    let len = numbers.1;
    Ok(Some(Item::Variable(Place { name, address, len })))
}

#[tactic(auto, unfolding(crate::specs::Reading::mark_item))]
fn mark_item(text: &[u8]) -> Option<Item>
    ensures { result ≡ mark_item text.now }
{
    let (address, rest) = number_before(text, b' ')?;
    let label = label_of(line_end(rest)?)?;
    Some(Item::Label(Mark { address, label }))
}

// An address, a word, and the text of its patterns.
#[tactic(auto, unfolding(crate::specs::Reading::word_parts))]
fn word_parts(text: &[u8], bytes: usize) -> Option<(u32, u64, &[u8])>
    requires { bytes ≤ 8 }
    ensures { option_map (λ parts. (parts.0, parts.1, parts.2.now)) result ≡ word_parts bytes text.now }
{
    let (address, rest) = number_before(text, b' ')?;
    let (digits, rest) = cut(rest, b' ')?;
    let word = word_in(digits, bytes)?;
    Some((address, word, line_end(rest)?))
}

#[tactic(auto, unfolding(crate::specs::Reading::word_item))]
fn word_item(alloc: Global, text: &[u8], bytes: usize) -> Result<Option<Item>, NoMemory>
    requires { bytes ≤ 8 }
    ensures { IfOk result (λ item. item ≡ word_item bytes text.now) }
{
    let Some((address, word, list)) = word_parts(text, bytes) else {
        return Ok(None);
    };
    match list_of(alloc, list)? {
        Some(patterns) => Ok(Some(Item::Code {
            address,
            word: Word { word, patterns },
        })),
        None => Ok(None),
    }
}

#[tactic(auto, unfolding(crate::specs::Reading::size_item))]
fn size_item(text: &[u8]) -> Option<Item>
    ensures { result ≡ size_item text.now }
{
    let (bits, count) = pair_of(text)?;
    Some(Item::Size { bits, count })
}

#[tactic(auto, unfolding(crate::specs::Reading::temps_item))]
fn temps_item(text: &[u8]) -> Option<Item>
    ensures { result ≡ temps_item text.now }
{
    Some(Item::Temps(last_number(text)?))
}

#[tactic(auto, unfolding(crate::specs::Reading::tree_item))]
fn tree_item(text: &[u8]) -> Option<Item>
    ensures { result ≡ tree_item text.now }
{
    Some(Item::Tree(pair_of(text)?))
}

// What a line says that begins with a keyword and a space.
#[tactic(auto, unfolding(crate::specs::Reading::said_by))]
fn said_by(
    alloc: Global,
    keyword: &[u8],
    text: &[u8],
    bytes: usize,
) -> Result<Option<Item>, NoMemory>
    requires { bytes ≤ 8 }
    ensures { IfOk result (λ item. item ≡ said_by bytes keyword.now text.now) }
{
    if keyword == b"image".as_slice() {
        Ok(size_item(text))
    } else if keyword == b"temps".as_slice() {
        Ok(temps_item(text))
    } else if keyword == b"place".as_slice() {
        let item = place_item(alloc, text)?;
        Ok(item)
    } else if keyword == b"tree".as_slice() {
        Ok(tree_item(text))
    } else if keyword == b"mark".as_slice() {
        Ok(mark_item(text))
    } else if keyword == b"word".as_slice() {
        let item = word_item(alloc, text, bytes)?;
        Ok(item)
    } else {
        Ok(None)
    }
}

/// What a line says, where a word has so many bytes, or None where no line of an image text is so.
#[tactic(auto, unfolding(crate::specs::Reading::item_of))]
pub fn item_of(alloc: Global, line: &[u8], bytes: usize) -> Result<Option<Item>, NoMemory>
    requires { bytes ≤ 8 }
    ensures { IfOk result (λ item. item ≡ item_of bytes line.now) }
{
    if line == b"done\n".as_slice() {
        return Ok(Some(Item::Done));
    }
    let Some((keyword, text)) = cut(line, b' ') else {
        return Ok(None);
    };
    let item = said_by(alloc, keyword, text, bytes)?;
    Ok(item)
}

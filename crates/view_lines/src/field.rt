//! What stands between the spaces of a line.

ghost use Rattle.std.specs.Prelude.{◌≡◌, option_map};
ghost use Rattle.view_terms.specs.Inner.Reading.{Gives};
ghost use Rattle.view_lines.specs.Inner.Reading.{addressed, cell_in, cell_number, hide_parts, holder_in, name_in, register_in};

use crate::Holder;
use image_items::{label_of, number_before};
use rec_bits::{Items, Name};
use std::alloc::Global;
use text_lines::{cut, is_name, line_end};
use view_terms::Stop;

/// A label and a name.
#[tactic(auto, unfolding(crate::specs::Inner::Reading::hide_parts))]
pub fn hide_parts(text: &[u8]) -> Option<(Option<u32>, &[u8])>
    ensures { option_map (λ parts. (parts.0, parts.1.now)) result ≡ hide_parts text.now }
{
    let (label, rest) = cut(text, b' ')?;
    let label = label_of(label)?;
    Some((label, line_end(rest)?))
}

/// An address, what stands behind it up to a space, and the rest of the line.
#[tactic(auto, unfolding(crate::specs::Inner::Reading::addressed))]
pub fn addressed(text: &[u8]) -> Option<(u32, &[u8], &[u8])>
    ensures { option_map (λ parts. (parts.0, parts.1.now, parts.2.now)) result ≡ addressed text.now }
{
    let (address, rest) = number_before(text, b' ')?;
    let (subject, rest) = cut(rest, b' ')?;
    Some((address, subject, line_end(rest)?))
}

/// The name that a text is.
#[tactic(auto, unfolding(crate::specs::Inner::Reading::name_in))]
pub fn name_of(alloc: Global, text: &[u8]) -> Result<Name, Stop>
    ensures { Gives (λ name. name) (name_in text.now) result }
{
    if !is_name(text) {
        return Err(Stop::Form);
    }
    let name = Items::from_slice(alloc, text)?;
    Ok(name)
}

// The number before a bracket that is the last byte.
#[tactic(auto, unfolding(crate::specs::Inner::Reading::cell_number))]
fn cell_number(text: &[u8]) -> Option<u32>
    ensures { result ≡ cell_number text.now }
{
    let (number, rest) = number_before(text, b']')?;
    if rest.is_empty() { Some(number) } else { None }
}

// A cell, from the name of what it is one of, and what stands behind the bracket.
#[tactic(auto, unfolding(crate::specs::Inner::Reading::cell_in))]
fn cell_of(alloc: Global, cells: &[u8], text: &[u8]) -> Result<Holder, Stop>
    ensures { Gives (λ holder. holder) (cell_in cells.now text.now) result }
{
    let Some(at) = cell_number(text) else {
        return Err(Stop::Form);
    };
    let cells = name_of(alloc, cells)?;
    Ok(Holder::Cell { cells, at })
}

// A register.
#[tactic(auto, unfolding(crate::specs::Inner::Reading::register_in))]
fn register_of(alloc: Global, text: &[u8]) -> Result<Holder, Stop>
    ensures { Gives (λ holder. holder) (register_in text.now) result }
{
    let name = name_of(alloc, text)?;
    Ok(Holder::Register(name))
}

/// A register, or a cell of the memory or the register file.
#[tactic(auto, unfolding(crate::specs::Inner::Reading::holder_in))]
pub fn holder_of(alloc: Global, text: &[u8]) -> Result<Holder, Stop>
    ensures { Gives (λ holder. holder) (holder_in text.now) result }
{
    match cut(text, b'[') {
        Some((cells, rest)) => cell_of(alloc, cells, rest),
        None => register_of(alloc, text),
    }
}

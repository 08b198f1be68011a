//! The items of a line.

ghost use Rattle.std.specs.Prelude.{◌≡◌, ◌≤◌, List, IfOk, IfSome, MatchOption};
ghost use Rattle.asm_text.specs.declared.line.Item.{Item};
ghost use Rattle.asm_text.specs.Inner.Reading.{SayItems, SayTail};

use crate::item::next_item;
use crate::line::Item;
use crate::parts::after;
use rec_bits::{Items, NoMemory};
use std::alloc::Global;

// The items that a text is, each behind a space.
fn items_of(alloc: Global, text: &[u8], bits: u8) -> Result<Option<Items<Item>>, NoMemory>
    requires { bits ≤ 64 }
    ensures read { IfOk result (λ found. IfSome found (SayItems bits text.now)) }
    ensures only { IfOk result (λ found. (items : List Item) → SayItems bits text.now items →
        MatchOption found ⊥ (λ got. got ≡ items)) }
{
    let mut items = Items::new(alloc);
    let mut rest = text;
    while !rest.is_empty() {
        let Some((item, more)) = next_item(rest, bits) else {
            return Ok(None);
        };
        items.push(item)?;
        rest = more;
    }
    Ok(Some(items))
}

/// The items of a line, from what stands behind its transfers: none where that is nothing, and
/// otherwise those behind ` with`, one or more.
pub(crate) fn tail_of(alloc: Global, text: &[u8], bits: u8) -> Result<Option<Items<Item>>, NoMemory>
    requires { bits ≤ 64 }
    ensures read { IfOk result (λ found. IfSome found (SayTail bits text.now)) }
    ensures only { IfOk result (λ found. (items : List Item) → SayTail bits text.now items →
        MatchOption found ⊥ (λ got. got ≡ items)) }
{
    if text.is_empty() {
        return Ok(Some(Items::new(alloc)));
    }
    let Some(rest) = after(text, b" with") else {
        return Ok(None);
    };
    if rest.is_empty() {
        return Ok(None);
    }
    items_of(alloc, rest, bits)
}

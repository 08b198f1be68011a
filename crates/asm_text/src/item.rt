//! One item of a line.

ghost use Rattle.std.specs.Prelude.{◌≡◌, ◌≤◌, ◌↔◌, List, ℕ, IsTrue, IfSome, MatchOption, Some};
ghost use Rattle.asm_text.specs.declared.line.Item.{Item};
ghost use Rattle.asm_text.specs.Lines.{ItemFits};
ghost use Rattle.asm_text.specs.Inner.Reading.{BeginsItem, SaysItem, byte_of, numbers_in};

use crate::line::Item;
use crate::parts::{after, first_word};
use rec_bits::mask;
use text_lines::{cut, number};

#[tactic(auto, unfolding(crate::specs::Inner::Reading::byte_of))]
// The number below 256 that a text is.
fn byte_of(text: &[u8]) -> Option<u8>
    ensures { result ≡ byte_of text.now }
{
    u8::try_from(number(text)?).ok()
}

#[tactic(auto, unfolding(crate::specs::Inner::Reading::numbers_in))]
// The numbers of an item's text.
fn numbers_in(text: &[u8]) -> Option<Item>
    ensures { result ≡ numbers_in text.now }
{
    let (first, rest) = cut(text, b':')?;
    let (second, third) = cut(rest, b'=')?;
    let hi = byte_of(first)?;
    let lo = byte_of(second)?;
    let value = number(third)?;
    Some(Item { hi, lo, value })
}

// Whether an item has bits of a word of so many, and a value that they can have.
fn fits(item: Item, bits: u8) -> bool
    requires { bits ≤ 64 }
    ensures { IsTrue result ↔ ItemFits bits item }
{
    item.lo <= item.hi && item.hi < bits && item.value <= mask(item.hi - item.lo + 1)
}

// The item that a text is, where it fits a word of so many bits.
fn item_of(text: &[u8], bits: u8) -> Option<Item>
    requires { bits ≤ 64 }
    ensures some { IfSome result (SaysItem bits text.now) }
    ensures only { (item : Item) → SaysItem bits text.now item → result ≡ Some item }
{
    let item = numbers_in(text)?;
    if fits(item, bits) { Some(item) } else { None }
}

/// The item that a text begins with, behind a space, and what stands from the next space on.
pub(crate) fn next_item(text: &[u8], bits: u8) -> Option<(Item, &[u8])>
    requires { bits ≤ 64 }
    ensures some { IfSome result (λ found. BeginsItem bits text.now found.0 found.1.now) }
    ensures only { (item : Item) (rest : List ℕ) → BeginsItem bits text.now item rest →
        MatchOption result ⊥ (λ found. (found.0 ≡ item) × (found.1.now ≡ rest)) }
{
    let (word, rest) = first_word(after(text, b" ")?);
    let item = item_of(word, bits)?;
    Some((item, rest))
}

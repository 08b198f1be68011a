//! Lists of wanted patterns.

ghost use Rattle.std.specs.Prelude.{◌≡◌, IfOk};
ghost use Rattle.image_items.specs.Reading.{list_of, number_from, numbers_from, fields_of};

use crate::field::small;
use rec_bits::{Items, NoMemory};
use std::alloc::Global;
use text_lines::cut;

// The number of a field, where it isn't below `from`.
#[tactic(auto, unfolding(crate::specs::Reading::number_from))]
fn number_from(field: &[u8], from: u64) -> Option<u32>
    ensures { result ≡ number_from from field.now }
{
    let number = small(field)?;
    if u64::from(number) < from {
        return None;
    }
    Some(number)
}

// The numbers between commas, where they ascend strictly.
fn numbers_of(alloc: Global, text: &[u8]) -> Result<Option<Items<u32>>, NoMemory>
    ensures { IfOk result (λ numbers. numbers ≡ numbers_from 0 (fields_of 44 text.now)) }
{
    let mut numbers = Items::new(alloc);
    let mut from: u64 = 0;
    let mut rest = text;
    while let Some((field, more)) = cut(rest, b',') {
        let Some(number) = number_from(field, from) else {
            return Ok(None);
        };
        numbers.push(number)?;
        from = u64::from(number) + 1;
        rest = more;
    }
    let Some(number) = number_from(rest, from) else {
        return Ok(None);
    };
    numbers.push(number)?;
    Ok(Some(numbers))
}

/// The numbers of patterns that a text is, ascending strictly with commas between, or `-` for none.
#[tactic(auto, unfolding(crate::specs::Reading::list_of))]
pub fn list_of(alloc: Global, text: &[u8]) -> Result<Option<Items<u32>>, NoMemory>
    ensures { IfOk result (λ numbers. numbers ≡ list_of text.now) }
{
    if text == b"-".as_slice() {
        return Ok(Some(Items::new(alloc)));
    }
    let numbers = numbers_of(alloc, text)?;
    Ok(numbers)
}

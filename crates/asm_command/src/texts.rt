//! The texts of patterns.

ghost use Rattle.std.specs.Prelude.{◌≡◌, ◌<◌, ◌^◌, IfOk, length};
ghost use Rattle.asm_command.specs.Inner.Tables.{row_texts};

use rec_bits::{Name, NoMemory};
use std::alloc::Global;
use transfer_set::Patterns;

/// The texts of the patterns' transfers, by their numbers.
pub(crate) fn texts_of(alloc: Global, patterns: &Patterns) -> Result<Vec<Name>, NoMemory>
    ensures texts { IfOk result (λ texts. texts.items ≡ row_texts patterns.now.rows) }
    ensures few { IfOk result (λ texts. length texts.items < 2 ^ 32) }
{
    let mut texts = Vec::new(alloc);
    for number in 0..patterns.len() {
        texts.push(patterns.text(alloc, number)?)?;
    }
    Ok(texts)
}

//! The texts of patterns' transfers, with a table of their numbers.

ghost use Rattle.std.specs.Prelude.{◌≡◌, ◌<◌, ◌^◌, ℕ, length, None, IfOk, IfSome};
ghost use Rattle.asm_text.specs.Lines.{text_of};

use indexmap::IndexMap;
use rec_bits::{Name, NoMemory};
use std::alloc::Global;
use std::marker::Model;

/// The texts of patterns' transfers, with a table of their numbers. Contracts see the list of the
/// texts.
#[derive(Drop)]
pub(crate) struct Transfers<'a> {
    pub(crate) texts: &'a [Name],
    numbers: IndexMap<&'a [u8], u32>,
}

impl<'a> Model for Transfers<'a> {
    ghost use Rattle.std.specs.Prelude.{ℕ, List, length};
    ghost use Rattle.asm_text.specs.Inner.Numbers.{HasNumbers};

    ghost Value = { List (List ℕ) };

    ghost view = { λ transfers. transfers.texts.now };

    ghost invariant = { λ transfers.
        HasNumbers transfers.numbers.entries transfers.texts.now (length transfers.texts.now) };
}

impl<'a> Transfers<'a> {
    /// The number of a pattern whose text this is, if there is one.
    pub(crate) fn number(&self, text: &[u8]) -> Option<u32>
        ensures some { IfSome result (λ number. (number < length self.now) × (text_of self.now number ≡ text.now)) }
        ensures only { (number : ℕ) →
            number < length self.now → text_of self.now number ≡ text.now → result ≡ None → ⊥ }
    {
        self.numbers.get(text).copied()
    }
}

/// The texts with a table of their numbers. Want of memory is the only refusal.
pub(crate) fn numbered<'a>(alloc: Global, texts: &'a [Name]) -> Result<Transfers<'a>, NoMemory>
    requires { length texts.now < 2 ^ 32 }
    ensures { IfOk result (λ transfers. transfers ≡ texts.now) }
{
    let mut numbers = IndexMap::new(alloc);
    for (number, text) in texts.iter().enumerate() {
        numbers.insert(text.as_slice(), number as u32)?;
    }
    Ok(Transfers { texts, numbers })
}

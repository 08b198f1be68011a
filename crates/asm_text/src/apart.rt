//! Whether the transfers of a line are of different storages.

ghost use Rattle.std.specs.Prelude.{◌≡◌, ◌<◌, ◌↔◌, All, AllPairs, length, IsTrue, IfOk};
ghost use Rattle.asm_text.specs.Lines.{NameApart, storage_in, text_of};

use indexmap::IndexSet;
use rec_bits::{Name, NoMemory};
use std::alloc::Global;

// How many bytes name the storage of a transfer's text.
fn storage_len(text: &[u8]) -> usize
    ensures { result ≡ length (storage_in text.now) }
{
    text.iter()
        .take_while(|byte| !(**byte == b' ' || **byte == b'['))
        .count()
}

// The storage that a pattern's transfer names.
fn storage_of(texts: &[Name], pattern: u32) -> &[u8]
    requires { pattern < length texts.now }
    ensures { result.now ≡ storage_in (text_of texts.now pattern) }
{
    let text = texts[pattern as usize].as_slice();
    &text[..storage_len(text)]
}

/// Whether no two transfers are of one storage. Want of memory is the only refusal.
pub(crate) fn are_apart(alloc: Global, texts: &[Name], patterns: &[u32]) -> Result<bool, NoMemory>
    requires { All (λ p. p < length texts.now) patterns.now }
    ensures { IfOk result (λ apart. IsTrue apart ↔ AllPairs (NameApart texts.now) patterns.now) }
{
    let mut storages = IndexSet::new(alloc);
    for pattern in patterns {
        if !storages.insert(storage_of(texts, *pattern))? {
            return Ok(false);
        }
    }
    Ok(true)
}

//! Compiled code: its words, where the variables stand, and which addresses are marked.

ghost use Rattle.std.specs.Prelude.{◌≡◌, IfOk};
ghost use Rattle.code_model.specs.Places.{words_of};

use rec_bits::{Items, Name, NoMemory};
use std::alloc::Global;

/// The cells of a variable: `len` of them from `address` on.
#[derive(Drop)]
pub struct Place {
    pub name: Name,
    pub address: u32,
    pub len: u32,
}

/// Where the variables of a program stand: behind so many temporary cells, which have the addresses
/// from 0 on.
#[derive(Drop)]
pub struct Places {
    pub temps: u32,
    /// The variables' places in order of declaration.
    pub list: Items<Place>,
}

/// A marked address: the first word of the code of the test with this tree's number, or of the end,
/// where there is no number.
#[derive(Clone, Copy, PartialEq, Eq)]
pub struct Mark {
    pub address: u32,
    pub label: Option<u32>,
}

/// An instruction word, with the numbers of the patterns that are wanted of it, ascending.
#[derive(Drop)]
pub struct Word {
    pub word: u64,
    pub patterns: Items<u32>,
}

/// An image: the bits of a word, the number of temporary cells, the variables' places in order of
/// declaration, the cost of each tree with its number, the marks by address, and the words from
/// address 0 on.
#[derive(Drop)]
pub struct Image {
    pub bits: u8,
    pub temps: u32,
    pub places: Items<Place>,
    pub costs: Items<(u32, u32)>,
    pub marks: Items<Mark>,
    pub words: Items<Word>,
}

/// The instruction words of an image alone, from address 0 on.
pub fn words_of(alloc: Global, image: &Image) -> Result<Items<u64>, NoMemory>
    ensures { IfOk result (λ words. words ≡ words_of image.now) }
{
    let mut words = Items::new(alloc);
    for word in image.words.as_slice() {
        words.push(word.word)?;
    }
    Ok(words)
}

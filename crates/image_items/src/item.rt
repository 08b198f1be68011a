//! What a line of an image text says.

use code_model::{Mark, Place, Word};

/// What a line of an image text says.
#[derive(Drop)]
pub enum Item {
    /// The bits of a word, and how many words there are.
    Size { bits: u32, count: u32 },
    /// How many temporary cells there are.
    Temps(u32),
    /// Where a variable stands.
    Variable(Place),
    /// A tree's number with its cost.
    Tree((u32, u32)),
    /// A marked address.
    Label(Mark),
    /// A word with its address.
    Code { address: u32, word: Word },
    /// The end of the text.
    Done,
}

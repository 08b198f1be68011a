//! Code that is laid out.

use code_model::Mark;
use form_model::Step;
use rec_bits::Items;

/// A word of the code.
#[derive(Clone, Copy, PartialEq, Eq)]
pub enum Item {
    /// The word of a block's group. The blocks are numbered in the order of the flow, the code of
    /// each test's operands among them, and the groups of a block in their order, both from 0.
    Group { block: u32, at: u32 },
    /// A jump or branch word.
    Jump(Step),
}

/// The words of the code in the order of their addresses, and the marks in the order of theirs.
#[derive(Drop)]
pub struct Laid {
    pub items: Items<Item>,
    pub marks: Items<Mark>,
}

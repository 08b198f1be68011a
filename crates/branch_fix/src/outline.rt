//! What is laid out.

use form_model::{Flow, Forms};

/// The branch of a test.
#[derive(Clone, Copy, PartialEq, Eq)]
pub struct Branch {
    /// Its form, by its place in the list of forms.
    pub form: usize,
    /// The setting of its condition's bits.
    pub setting: u64,
}

/// A flow with the words of its blocks and the branches of its tests, the forms that its jumps and
/// branches have, and how long its code may be.
#[derive(Clone, Copy)]
pub struct Outline<'a> {
    /// The flow of a program.
    pub flow: &'a [Flow],
    /// The number of words of each block of the flow, that of a test's operands among them, which
    /// is 0 where there are none.
    pub sizes: &'a [u32],
    /// The branch of each test, in the order of the flow.
    pub branches: &'a [Branch],
    /// The forms that branches and jumps have, and how far jumps reach.
    pub forms: &'a Forms,
    /// How many words there is room for.
    pub words: u64,
    /// How many words the code has at most, which the blocks' sizes have to keep.
    pub bound: u64,
}

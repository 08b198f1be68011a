//! What an image that passes is found to do.

use rec_bits::Items;
use segment::Way;

/// The ways of an image's words from each mark to the next. Each is known.
#[derive(Drop)]
pub struct Passed {
    /// From the first word.
    pub first: Way,
    /// From the marks of tests, in the order of the marks.
    pub turns: Items<Turn>,
}

/// The ways from the mark of a test, for each answer.
#[derive(Clone, Copy, PartialEq, Eq)]
pub struct Turn {
    pub address: u32,
    pub when_one: Way,
    pub when_zero: Way,
}

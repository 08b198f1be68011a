//! What is known of classes' values.

/// A class of trees whose value is known to be a number.
#[derive(Clone, Copy)]
pub struct Fact {
    pub class: u64,
    pub number: u64,
}

//! The flow of a program: its assignments and tests in the order of the text, and where each goes
//! on.

use crate::Job;
use rec_bits::Items;

/// A place of a flow. The places of a flow are numbered from 0.
#[derive(Clone, Copy, PartialEq, Eq)]
pub enum Flow {
    /// The assignment of the tree with this number.
    Assign(u32),
    /// The test of the tree with this number.
    Test {
        tree: u32,
        /// The place where it goes on if the tree's value is 1.
        when_one: u32,
        /// The place where it goes on if the tree's value is 0.
        when_zero: u32,
    },
    /// It goes on at this place.
    Jump(u32),
    /// The end of the program.
    End,
}

/// The flow of a program, and its trees in the order of their numbers, each with its aim.
#[derive(Drop)]
pub struct Blocks {
    pub flow: Items<Flow>,
    pub jobs: Vec<Job>,
}

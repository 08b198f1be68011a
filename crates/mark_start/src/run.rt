//! Where a segment starts, and what is known on the way.

use crate::hints::Hint;
use class_values::Fact;
use net_model::Storage;
use rec_bits::Items;
use sym_expr::Pool;
use sym_run::{Coded, Known};

/// Where a segment starts: the machine's code, the mark, and the answer that its test has.
#[derive(Clone, Copy)]
pub struct Start<'a> {
    /// The expressions of the code's moves and of the hints.
    pub pool: &'a Pool,
    pub code: &'a [Coded],
    /// The machine's storages, and the numbers of those that are the program counter, the memory and
    /// the register file.
    pub storages: &'a [Storage],
    pub counter: u64,
    pub memory: u64,
    pub file: u64,
    /// How many cells the register file has, and the bits of one.
    pub file_cells: u64,
    pub file_word: u8,
    /// The bits of the program counter, of a cell and of an address.
    pub counter_width: u8,
    pub word: u8,
    pub addr: u8,
    /// How many temporary cells there are.
    pub temps: u32,
    /// The mark, and the answer of its test.
    pub from: &'a Hint,
    pub answer: bool,
}

/// What is known on the way: facts, the machine's state, and the program's cells.
#[derive(Drop)]
pub struct Run {
    pub facts: Items<Fact>,
    pub machine: Known,
    pub vars: Known,
}

//! What is known of a machine's state.

use rec_bits::Items;

/// What is known of a cell of the memory.
#[derive(Clone, Copy)]
pub enum Cell {
    /// Nothing.
    Unknown,
    /// It holds what the mark's store has there.
    Kept,
    /// It is an array's, and holds what was written there last, or what the mark's store has.
    Array,
    /// It holds the value of a class.
    Is(u64),
}

/// A class whose value is the address of an array's cell, and one of the same value (`like`) by which
/// the cell is read. The address is the array's `first` or a later one, before its `end`.
#[derive(Clone, Copy)]
pub struct Element {
    pub class: u64,
    pub like: u64,
    pub first: u64,
    pub end: u64,
}

/// What was written to an array: the classes of its address and of the value.
#[derive(Clone, Copy)]
pub struct Put {
    pub address: u64,
    pub value: u64,
}

/// What is known of a machine's state at a word, by classes of trees over the store at the mark
/// where words are followed from.
#[derive(Drop)]
pub struct Known {
    /// For each storage the class whose value its register holds, if one is known.
    pub regs: Items<Option<u64>>,
    /// For each address of the memory what is known of its cell; past the last, nothing is.
    pub cells: Items<Cell>,
    /// Classes of addresses of arrays.
    pub inside: Items<Element>,
    /// What was written to arrays since the mark, in order.
    pub puts: Items<Put>,
    /// For each cell of the register file the class whose value it holds, if one is known; past the
    /// last, none is.
    pub file: Items<Option<u64>>,
}

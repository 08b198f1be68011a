//! What is said of a state at a mark.

use form_model::Tree;
use rec_bits::Items;
use sym_expr::ExprId;

/// A variable's cells in the memory, and what the variable is at a mark, if not what they hold; or
/// that it is hidden, so that nothing is said of it.
#[derive(Clone, Copy)]
pub struct Spot {
    pub address: u32,
    pub len: u32,
    pub is_array: bool,
    pub hidden: bool,
    /// The expression that is the variable's value.
    pub view: Option<ExprId>,
}

/// What a place of the machine has, a register, a cell of the register file or a temporary cell: the
/// value of a tree over the program's cells.
#[derive(Drop)]
pub struct Holding {
    pub place: ExprId,
    pub tree: Tree,
}

/// A cell of the program, by its address, with the number that it is known to hold.
#[derive(Clone, Copy)]
pub struct Numbered {
    pub address: u32,
    pub number: u64,
}

/// A mark: its address, the number of its test, or None at the end, and what is said of states
/// there.
#[derive(Drop)]
pub struct Hint {
    pub address: u32,
    pub label: Option<u32>,
    pub spots: Items<Spot>,
    pub holdings: Items<Holding>,
    pub numbers: Items<Numbered>,
}

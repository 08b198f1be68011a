//! The trees of a program: what its assignments and tests compute over the data memory.

use rec_bits::{Op1, Op2};

/// An expression over numbers and the data memory. Each tells its own width in bits: in `Read` the
/// last number, and in `Zext` and `Sext` the width that is reached.
#[derive(Drop)]
pub enum Tree {
    Lit { width: u8, value: u64 },
    /// The cell of the address that the tree gives.
    Read(Box<Tree>, u8),
    Un(Op1, Box<Tree>),
    Bin(Op2, Box<Tree>, Box<Tree>),
    /// The bits from the first number down to the second.
    Slice(Box<Tree>, u8, u8),
    Zext(Box<Tree>, u8),
    Sext(Box<Tree>, u8),
}

/// Where a tree's value goes.
#[derive(Drop)]
pub enum Aim {
    /// To the cell of this address.
    Cell(u32),
    /// To the cell of the address that this tree gives.
    Store(Tree),
    /// To the branch of a test.
    Test,
    /// To a temporary cell.
    Temp,
}

/// A tree with its aim. A test of equality has two trees, either of which may be used.
#[derive(Drop)]
pub struct Job {
    pub aim: Aim,
    pub trees: Vec<Tree>,
}

//! What a net or a storage gets under one instruction word.

use rec_bits::{Op1, Op2};

/// An expression over registers, the memory, the register file, constants and the instruction word.
/// Each tells its own width: in `Word`, `Reg`, `Read` and `Cell` the last number is the width, in
/// `Zext` and `Sext` the width that is reached.
#[derive(Drop)]
pub enum Expr {
    Word(u8),
    Reg(u32, u8),
    Const { width: u8, value: u64 },
    /// A cell of the memory at an address.
    Read(Box<Expr>, u8),
    /// A cell of the register file at an address.
    Cell(Box<Expr>, u8),
    Un(Op1, Box<Expr>),
    Bin(Op2, Box<Expr>, Box<Expr>),
    /// The bits from the first number down to the second.
    Slice(Box<Expr>, u8, u8),
    Cat(Box<Expr>, Box<Expr>),
    Zext(Box<Expr>, u8),
    Sext(Box<Expr>, u8),
    /// The second where the first is 1, and otherwise the third.
    Select(Box<Expr>, Box<Expr>, Box<Expr>),
}

/// What a storage does at a clock.
#[derive(Drop)]
pub enum Transfer {
    Keep,
    /// A register takes a value.
    Write(Expr),
    /// The memory or the file takes the second value at the first as the address.
    WriteAt(Expr, Expr),
}

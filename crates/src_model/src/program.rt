//! Programs, as written.

use rec_bits::{Items, Name, Op1, Op2};

/// A program: its variables in the order of their declarations, and its statements.
#[derive(Drop)]
pub struct Program {
    pub vars: Items<Var>,
    pub body: Vec<Stmt>,
}

/// A variable: its name, the offset of the name in the text, and the length of an array.
#[derive(Drop)]
pub struct Var {
    pub name: Name,
    pub at: u64,
    /// None of a plain variable.
    pub len: Option<u64>,
}

/// A statement.
#[derive(Drop)]
pub enum Stmt {
    /// The value is put into the place.
    Assign {
        place: Spot,
        value: SrcExpr,
    },
    /// The first statements where the test holds, and otherwise the others, if there are any.
    If {
        test: SrcTest,
        yes: Vec<Stmt>,
        no: Option<Vec<Stmt>>,
    },
    /// The statements, as long as the test holds before them.
    While {
        test: SrcTest,
        body: Vec<Stmt>,
    },
    /// The statements, with the counter at each number from `from` to `to`. `at` is the offset of
    /// the counter's name.
    For {
        counter: Name,
        at: u64,
        from: u64,
        to: u64,
        body: Vec<Stmt>,
    },
}

/// A place: a plain variable, or what an array has at an index.
#[derive(Drop)]
#[cycle(expr)]
pub struct Spot {
    pub name: Name,
    /// The offset of the name.
    pub at: u64,
    pub index: Option<Box<SrcExpr>>,
}

/// An expression, and the offset of its first token, a parenthesis included.
#[derive(Drop)]
#[cycle(expr)]
pub struct SrcExpr {
    pub at: u64,
    pub node: SrcNode,
}

/// What an expression is.
#[derive(Drop)]
#[cycle(expr)]
pub enum SrcNode {
    Num(u64),
    Var(Spot),
    Un(Op1, Box<SrcExpr>),
    Bin(Op2, Box<SrcExpr>, Box<SrcExpr>),
    /// Widened to so many bits, by zeros or by copies of the top bit.
    Zext(Box<SrcExpr>, u64),
    Sext(Box<SrcExpr>, u64),
    /// The low bits, so many.
    Low(Box<SrcExpr>, u64),
}

/// A test: the left side compared with the right one.
#[derive(Drop)]
pub struct SrcTest {
    pub cmp: Cmp,
    pub left: SrcExpr,
    pub right: SrcExpr,
}

/// How a test compares. The orders with an `S` are those of signed numbers.
#[derive(Clone, Copy, PartialEq, Eq)]
pub enum Cmp {
    Eq,
    Ne,
    Lt,
    Le,
    Gt,
    Ge,
    Slt,
    Sle,
    Sgt,
    Sge,
}

//! The words of a netlist text.

ghost use Rattle.std.proofs.Common.{rules};

use grammar::Exact;
use rec_bits::{Op1, Op2};

/// A word of a netlist text.
pub type Word = grammar::Word<Symbol, Key>;

/// A token of a netlist text.
pub type Lexed = grammar::Lexed<Symbol, Key>;

/// A reserved word that tells what stands behind it.
#[derive(Clone, Copy, PartialEq, Eq)]
pub enum Key {
    Item(ItemWord),
    Operator(Operator),
}

/// A reserved word that begins an item.
#[derive(Clone, Copy, PartialEq, Eq)]
pub enum ItemWord {
    Code,
    Register,
    Mode,
    Memory,
    File,
    Bank,
    Net,
    Bus,
    Module,
    Part,
}

/// A reserved word that begins an expression, and opens a level in it.
#[derive(Clone, Copy, PartialEq, Eq)]
pub enum Operator {
    Unary(Op1),
    Binary(Op2),
    Cat,
    Slice,
    Zext,
    Sext,
    Read,
    Case,
}

/// A sign, or another reserved word.
#[derive(Clone, Copy, PartialEq, Eq)]
pub enum Symbol {
    Colon,
    Semicolon,
    Comma,
    Equals,
    Dot,
    Hash,
    LeftParen,
    RightParen,
    LeftBrace,
    RightBrace,
    LeftBracket,
    RightBracket,
    Size,
    At,
    In,
    Out,
    When,
    Addr,
    Write,
    Else,
    Version,
}

impl Exact for Symbol {
    ghost exact = { Prim.search rules };
}

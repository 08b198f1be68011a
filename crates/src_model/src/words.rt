//! The words of a program's text.

ghost use Rattle.std.proofs.Common.{rules};

use crate::Cmp;
use grammar::Exact;
use rec_bits::Op2;

/// A word of a program's text.
pub type Word = grammar::Word<Symbol, Key>;

/// A token of a program's text.
pub type Lexed = grammar::Lexed<Symbol, Key>;

/// A word that takes operands.
#[derive(Clone, Copy, PartialEq, Eq)]
pub enum Key {
    /// An operator between two operands. That of `-`, which also stands before one operand, is
    /// `Sub`.
    Operator(Op2),
    Compare(Cmp),
    Call(Call),
}

/// A reserved word that calls for an expression and a number of bits.
#[derive(Clone, Copy, PartialEq, Eq)]
pub enum Call {
    Zext,
    Sext,
    Low,
}

/// A sign, or another reserved word.
#[derive(Clone, Copy, PartialEq, Eq)]
pub enum Symbol {
    Equals,
    Semicolon,
    Comma,
    Tilde,
    LeftParen,
    RightParen,
    LeftBrace,
    RightBrace,
    LeftBracket,
    RightBracket,
    Var,
    If,
    Else,
    While,
    For,
    To,
}

impl Exact for Symbol {
    ghost exact = { Prim.search rules };
}

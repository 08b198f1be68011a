//! The words of a text.

use rec_bits::Name;

/// A token: its word, and the offset of its first byte.
#[derive(Drop)]
pub struct Lexed<S, K> {
    pub word: Word<S, K>,
    pub at: u64,
}

/// A word, by what it may begin or stand for, of a language with the symbols `S` and the keys `K`.
#[derive(Drop)]
pub enum Word<S, K> {
    Name(Name),
    Number(u64),
    /// A sign or a reserved word that tells only by where it stands.
    Symbol(S),
    /// A sign or a reserved word that tells what stands behind it or around it.
    Key(K),
    /// What stands in no text.
    Other,
}

/// A name and the offset of its first byte in the text.
#[derive(Drop)]
pub struct Ident {
    pub name: Name,
    pub at: u64,
}

/// Types whose values are equal only where they are the same.
pub trait Exact: Copy + PartialEq {
    ghost use Rattle.std.specs.Prelude.{◌≡◌, ◌↔◌, IsTrue};

    ghost exact: { (a b : Self) → IsTrue (Self.eq a b) ↔ (a ≡ b) };
}

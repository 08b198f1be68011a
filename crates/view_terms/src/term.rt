//! Terms.

use rec_bits::Name;

/// A term, as it is written. The words of the last three may be those of operators.
#[derive(Drop)]
pub enum Term {
    /// A name.
    Name(Name),
    /// A number, such as a width or a bit's place.
    Number(u64),
    /// A number with its width in bits.
    Constant { value: u64, width: u64 },
    /// A word with one term.
    One(Name, Box<Term>),
    /// A word with two terms.
    Two(Name, Box<Term>, Box<Term>),
    /// A word with three terms.
    Three(Name, Box<Term>, Box<Term>, Box<Term>),
}

//! Tokens.

/// What a token is.
#[derive(Clone, Copy, PartialEq, Eq)]
pub enum Kind {
    /// A name that isn't reserved.
    Name,
    /// A reserved word.
    Reserved,
    /// A number.
    Number,
    /// A sign.
    Sign,
    /// One byte at which no token begins. It ends the list of tokens.
    Bad,
}

/// A token at its place.
#[derive(Clone, Copy, PartialEq, Eq)]
pub struct Token {
    pub kind: Kind,
    /// The offset of its first byte.
    pub at: u64,
    /// How many bytes it has.
    pub len: u32,
}

impl Token {
    ghost use Rattle.std.specs.Prelude.{◌≡◌};
    ghost use Rattle.lexing.specs.Tokens.{token_bytes};

    /// Its bytes in its text, as far as they lie within that.
    pub fn bytes<'a>(&self, text: &'a [u8]) -> &'a [u8]
        ensures { result.now ≡ token_bytes text.now self.now }
    {
        let rest = &text[(self.at as usize).min(text.len())..];
        &rest[..(self.len as usize).min(rest.len())]
    }
}

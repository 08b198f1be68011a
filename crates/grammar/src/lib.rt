//! Grammars as relations between texts and values, and what a parser that reads one token after the
//! other owes of them.
//!
//! Promise: each reader of a token (`expect`, `name`, `number` and those behind or between symbols)
//! `Gives` its grammar: what it answers was read from the front, what it leaves stands behind that,
//! no other text and no other value can be read there, and where it fails the number of tokens that
//! are left tells the first one at fault. `offset` gives the place of that token, or the length of
//! the text where none is left.
//!
//! Invariant: `Reads` and `Fails` in `specs/Reading` name the tokens that may go on behind a text
//! (`more`). A parser of more than one token keeps them by the lemmas of `proofs/`, one for each
//! way to put grammars together, so that the grammar leaves a text one reading.
//!
//! Files:
//!
//! - `words`: what a token is: `Lexed`, `Word` over the symbols and keys of a language, and
//!   `Ident`.
//! - `stop`: why a parser stopped: at a token, or for want of memory.
//! - `step`: the readers of one token, and of a name or a number with a symbol beside it.
//! - `fault`: the offset of a fault from the tokens that are left.
//! - `beside`: what was read before, kept beside what is read behind it: where nothing is read there,
//!   a parser that owns a tree lets it go in that one place, whatever its type.
//! - `specs/`: `Reading` (the ways to put grammars together, and what is owed), `Tokens` and
//!   `Parses` are cited by public contracts, here and in the two parsers.
//! - `proofs/`: `Tokens`, `Steps`, `Repeats`, `Chains`, `Limits` and `Whole`, by the way a grammar
//!   is put together; `Passing`, `Faults` and `Kept` for what follows at each exit of a parser.
#![tactic(auto)]

mod beside;
mod fault;
mod step;
mod stop;
mod words;

pub use beside::keeping;
pub use fault::offset;
pub use step::{
    begins_with, expect, front, is_symbol, name, name_behind, number, number_behind, number_between,
};
pub use stop::ParseStop;
pub use words::{Exact, Ident, Lexed, Word};

//! Texts as lists of tokens, for any language of names, numbers and signs.
//!
//! Promise: `tokens` gives the tokens of a text as `tokens_of` defines them (`exact`), and says the
//! same of each token and each gap by itself (`lawful`: `AreTokens`): the longest run is taken, and
//! one token of kind `Bad` ends the list exactly where none begins. `lexed` gives each token with
//! the word that it stands for. `number_of` gives a number's value, 2^64 - 1 where it is greater.
//!
//! Files:
//!
//! - `bytes`: classes of bytes, and how long a run of one class is.
//! - `language`: `Language`, the reserved words and signs of a language, and the longest sign at a
//!   place.
//! - `token`: `Token` and its kinds.
//! - `number`: how long a number is, and its value.
//! - `piece`: what stands at the front of some bytes: a gap, a token, or neither.
//! - `scan`: `tokens`, piece by piece.
//! - `words`: the trait `Vocabulary`, which says what reserved words and signs stand for, and
//!   `lexed`.
//! - `specs/`: all but `Worked`, which has texts computed, are cited by public contracts, here and
//!   in the two lexers: `Table`, `Bytes`, `Numbers`, `Tokens`, `Laws`, `Words`.
//! - `proofs/`: `Standing` and `Scans` for going over a text, `TokenLaws` from there to the laws.
#![tactic(auto)]

mod bytes;
mod language;
mod number;
mod piece;
mod scan;
mod token;
mod words;

pub use bytes::{digit, letter};
pub use language::Language;
pub use number::number_of;
pub use scan::tokens;
pub use token::{Kind, Token};
pub use words::{Vocabulary, lexed};

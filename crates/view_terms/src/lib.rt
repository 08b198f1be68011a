//! Terms: operators over names and numbers, as the lines behind an image write them.
//!
//! Promise: `read` takes bytes just where they are a term's text (`SaysTerm`), as that term alone.
//! A term is a name, a number, a number with its width, or a word with one, two or three terms in
//! parentheses; at most 64 parentheses nest, so that no text asks for more of the machine's stack.
//! Which words are operators, what a name stands for and which widths agree isn't told here.
//!
//! Invariant: what is read of a text's front is what `term_at` of `specs/Inner/Reading` gives, which
//! goes step by step as the code does; `proofs/Laws` holds it against the text of a term.
//!
//! Files:
//!
//! - `term`: a `Term`.
//! - `stop`: why none was read: bytes that are none, or want of memory.
//! - `reading`: a term from the front of a text, and `read`.
//! - `specs/`: `Terms`, how terms are written and which can be, and `Worked`, terms that are
//!   computed. `specs/Inner/`: `Reading`.
//! - `proofs/`: `Words` for words and what follows them, `Laws` from the front of a text to a term and
//!   back, `Giving` for what follows at the exits of a reader.
#![tactic(auto)]

mod reading;
mod stop;
mod term;

pub use reading::read;
pub use stop::Stop;
pub use term::Term;

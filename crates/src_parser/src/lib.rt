//! Programs, read by their grammar.
//!
//! Promise: `read` answers the one program that the bytes say (`found`, `only`: `IsSrcText`), with
//! the limits of 64 levels and of 1,024 tokens an expression exact; where they say none, the offset
//! is that of the first token such that those before it begin some text and with it they don't, or
//! the text's length (`fault`: `IsSrcTextFault`). `parse` promises the same of tokens.
//!
//! Invariant: every reader in this crate keeps `Reads` and `Fails` of `grammar` for its production
//! of `src_model/specs/Grammar`. `levels` is how many levels may still be opened, and `room` how
//! many tokens an expression may still use.
//!
//! Files:
//!
//! - `words`: the words that the reserved words and the signs of programs stand for.
//! - `expression`: expressions, by six ranks of operators, each grouped to the left.
//! - `declaration`: the lines of variables.
//! - `statement`: tests, assignments, blocks and what stands round them.
//! - `whole`, `text`: programs of a list of tokens, and of bytes.
//! - `specs/`: `Texts` and `Words`, cited by public contracts together with the grammar in
//!   `src_model/specs/Grammar`. `specs/Inner/`: `Steps`, which goes with the readers, part by part.
//! - `proofs/`: `Expressions`, `Declarations` and `Statements` by what is read, `Rooms` for the
//!   limit on tokens, `TextFaults` for bytes.
#![tactic(auto)]

mod declaration;
mod expression;
mod statement;
mod text;
mod whole;
mod words;

pub use text::read;
pub use whole::parse;

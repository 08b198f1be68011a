//! Netlist texts, read by their grammar.
//!
//! Promise: `read` answers the one edition and list of items that the bytes say (`found`, `only`:
//! `IsNetText`); where they say none, the offset is that of the first token such that those before
//! it begin some text and with it they don't, or the text's length (`fault`: `IsNetTextFault`).
//! `parse` promises the same of tokens.
//!
//! Invariant: every reader in this crate keeps `Reads` and `Fails` of `grammar` for its production
//! of `net_model/specs/Grammar`, with the tokens that may go on behind it. `depth` is how many
//! levels of an expression may still be opened, of 64, and falls where one is opened.
//!
//! Files:
//!
//! - `editions`: which words are reserved in which edition: the table has a line for each.
//! - `words`: the words that the reserved words and the signs of netlists stand for.
//! - `leaf`: expressions without levels: names with their field and bits, and constants.
//! - `expression`: expressions with levels: operators, slices, reads and cases.
//! - `parts`: parts of items: enables, drivers, bindings, equations, links and ports.
//! - `item`: items, one reader for each kind.
//! - `whole`, `text`: all items of a list of tokens, and of bytes.
//! - `specs/`: `Texts` and `Words`, cited by public contracts together with the grammar in
//!   `net_model/specs/Grammar`. `specs/Inner/`: `Steps`, which goes with the readers, part by part.
//! - `proofs/`: `Leaves`, `Expressions`, `ItemParts` and `Heads` by what is read; `TextFaults` for
//!   bytes.
#![tactic(auto)]

mod editions;
mod expression;
mod item;
mod leaf;
mod parts;
mod text;
mod whole;
mod words;

pub use text::read;
pub use whole::parse;

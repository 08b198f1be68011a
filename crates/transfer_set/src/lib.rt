//! What instruction words do to storages: the routes of nets, and the patterns that are read off
//! them.
//!
//! Promise: from the control bits and the routes of a netlist `collect_patterns` gives exactly its
//! patterns, those of the register file among them, each with all its words, none twice, in their
//! order; for each storage exactly the words that keep it; exactly the words that step; and which
//! storages are the memory and, where there is one, the file (`ready`: `IsReady`).
//! `law_of_growth`: what the ids of a table mean they mean in each extension of the book and each
//! growth of the pool (`StaysReady`). A `Machine` lends a netlist with its patterns and its pool as
//! one value (`IsReadyFor`); its `print` writes the text of the patterns (`IsPatternsText`).
//!
//! Invariant: ids mean something only over a netlist, a book and a pool together, which is
//! `IsReady`, and of a `Machine` and its book `IsReadyFor`; the `Patterns` themselves keep only
//! that there are fewer than 2^32. Entries are collected storage by storage so that no two of a
//! storage have one transfer, and the set of each holds a word.
//!
//! Files:
//!
//! - `route`: the routes of nets; `route_trace` makes them.
//! - `fields`: the bits of a slice, and the instruction bits that occur in an expression.
//! - `entries`: transfers with the words that give them, as they are collected.
//! - `sources`: what feeds the storages, and the entries of all.
//! - `keeping`, `stepping`: the words that keep a storage, and those that step.
//! - `texts`: the texts of expressions and transfers, with what they are put together from.
//! - `row`: a pattern with its text, and patterns in order.
//! - `print`: the text of all patterns.
//! - `patterns`, `patterns/pattern_text`: `Patterns`, with its calls, and the text of one.
//! - `machine`: a netlist with its patterns.
//! - `laws`: `law_of_growth`.
//! - `specs/`, cited by public contracts, here and above: `Routes`, `Ready`, `Machines`, `Tables`,
//!   `Rows`, `Sets`, `TextMarks`, `PatternsText`, `Stepping`, `Entries`. `specs/Inner/`: `Entries`,
//!   `Sources` and `Stepping`, which go with the collecting, and `Widths` for the operators of
//!   transfers.
//! - `proofs/`: `Collecting`, `Feeding`, `Finding`, `Assembling` from routes to patterns,
//!   `OnceEach`, `TextsDiffer`, `TransfersDiffer`, `InOrder` for their order, which leaves no choice
//!   (`OnePatterns`), `TermsOf` and `TermsFit` for what their expressions are, `ReadyLaws` for
//!   growth.
#![tactic(auto)]

mod entries;
mod fields;
mod keeping;
mod laws;
mod machine;
mod patterns;
mod print;
mod route;
mod row;
mod sources;
mod stepping;
mod texts;

pub use fields::{expr_fields, span};
pub use laws::law_of_growth;
pub use machine::Machine;
pub use patterns::{Patterns, collect_patterns};
pub use route::{Route, Routes};
pub use stepping::{Counter, is_register, is_step};
pub use texts::{
    add_bounds, add_bytes, add_constant, add_last, add_number, word_of_one, word_of_two,
};

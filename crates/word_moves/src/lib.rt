//! What a netlist does under one instruction word, found without diagrams.
//!
//! Promise: `word_moves` gives the first bus that clashes under the word, and what each storage does
//! (`IsWordMoves`, by `clash_at` and `transfer_at` of `net_model/specs/Transfers`). The expressions
//! are ids of the pool, which grows by them. `isa_extract` tells the same of all words at once, by
//! sets of words.
//!
//! Control depends on the instruction word alone. So the values of all nets in a state of zeros
//! decide each choice, and then every net has one expression: the gates are gone through once, in
//! the order of the checked netlist.
//!
//! Files:
//!
//! - `evaluate`: the values of all nets in the state of zeros.
//! - `choices`: the net whose value a case or a bus takes.
//! - `gates`: the expression of a gate, from those of the nets that it names; `trace`: of all nets.
//! - `moves`: what each storage does, the first clash, and `word_moves`.
//! - `specs/`: `Moves`. `specs/Inner/`: `Choices` and `Gates`, which go with the loops, and `Ids`.
//! - `proofs/`: `Traced` and `Moved` for nets and storages under a word; `Evaluated`, `Targets` and
//!   `Wide` for what they ask.
#![tactic(auto)]

mod choices;
mod evaluate;
mod gates;
mod moves;
mod trace;

pub use moves::{StorageMove, WordMoves, word_moves};

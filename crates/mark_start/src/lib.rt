//! What is known at a mark, before the words behind it are walked.
//!
//! Promise: `Start::begin` gives what is known there without the mark's hint, and `Start::tell`,
//! `answers` and `holdings` learn what the hint says and that the test has its answer: what is known
//! stands for each state at the mark and for the program's cells there (`Stands`), where the store over
//! which its trees stand is the mark's (`IsStore`): the program's cells, and behind these what the
//! registers and the cells of the register file hold. One of these that no holding tells is known by
//! its pair of cells in this store, so a view over what they hold is the variable's value. Where a class isn't known, nothing is learnt.
//! `in_cell`, `expr` and `tree` give the classes of what a cell holds, of an expression over the
//! machine's state and of a tree over the program's cells, in any run (`IsInCell`, `IsExprOf`,
//! `IsTreeOf`).
//!
//! A `Start` is the mark, with the code and the storages of the machine (`IsCode` says of which netlist
//! and words). A `Hint` says what a relation says of a mark, in ids and trees.
//!
//! Files:
//!
//! - `hints`, `run`: what is said of marks, where a segment starts, and what is known.
//! - `begin`, `start`: what is known at the mark.
//! - `reads`: classes of cells, expressions and trees.
//! - `gather`: the addresses of arrays in the program's trees.
//! - `specs/`, cited by public contracts: `Marked` (what hints say of states and cells), `Runs` (what
//!   is known, and the mark's store).
//! - `proofs/`: `Stores` for the mark's store, `Places` and `Starting` for what is known there,
//!   `Learning` for what is known more, `Telling` for all of it, `Reading` for classes.
#![tactic(auto)]

mod begin;
mod gather;
mod hints;
mod reads;
mod run;
mod start;

pub use begin::are_viewless;
pub use hints::{Hint, Holding, Numbered, Spot};
pub use run::{Run, Start};
pub use start::bit;

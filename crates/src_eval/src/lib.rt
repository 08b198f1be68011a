//! The evaluator of programs: it runs from one checkpoint to the next.
//!
//! Promise: `Runner::new` has ahead of it exactly the checkpoints that the checked program passes
//! from its store (`ahead`: `strace`), and the calls of `next` give them one after the other
//! (`passes`: `Advances`), and after the end the end again (`ended`: `HasEnded`). Each call
//! returns, also of a program that loops for ever, and takes no memory. `count` gives their number
//! up to a limit.
//!
//! Invariant: a `Runner` keeps `MachineFits` in `specs/Inner/Steps`: the operands of each step fit
//! their widths, each assignment is followed by a later step or by a test, which is why `next`
//! returns, and each cell holds a word. A step's place in the list is the number of its tree.
//!
//! Files:
//!
//! - `table`: the cells of variables, by their names, and the scope in which names are resolved.
//! - `formula`: expressions with cells in place of names, and their values.
//! - `resolve`: expressions of a program as formulas.
//! - `machine`: a program as steps, and a run through them.
//! - `build`: the steps of statements, each with where the run goes on.
//! - `run`: `Runner`, as callers see it.
//! - `specs/`, cited by public contracts: `Runs`, and of `Steps` and `Formulas` what is ahead of a
//!   run. `specs/Inner/`: `Laid`, `Resolved`, `Tables` and `Props`, which go with the building, and
//!   `Steps`, what a run keeps.
//! - `proofs/`: `LaidLemmas` and `FlowLemmas` from steps to checkpoints, `BuildLemmas`,
//!   `AssembleLemmas` and `BlockLemmas` for the building, `FormulaLemmas` and `ResolveLemmas` for
//!   values.
#![tactic(auto)]

mod build;
mod formula;
mod machine;
mod resolve;
mod run;
mod table;

pub use run::Runner;

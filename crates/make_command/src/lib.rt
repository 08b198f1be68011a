//! Made-up runs: a netlist and a program of a number, compiled and clocked, and what is told of
//! that.
//!
//! Promise: `make` gives the summary of a number (`summary`: `IsSummary`): for some image that is
//! right code for its two texts, the number of words, the clocks from zeros to the end mark, the
//! checkpoints that the program passes, and what the memory holds then. Otherwise it tells what
//! refuses the two texts (`refused`: `IsCompileFault`).
//!
//! Invariant: while the image is clocked, none of the clocks before the end mark clashes (`RunsOn`
//! in `specs/Stops`).
//!
//! Files:
//!
//! - `marks`: the address at which the end is marked.
//! - `ends`: from nothing but zeros to the end mark, or to the greatest number of clocks.
//! - `counting`: how many checkpoints the evaluator passes from zeros.
//! - `summary`: the text of a summary.
//! - `summing`: from an image to what is told of it.
//! - `making`: from a number to its summary: `make`.
//! - `specs/`, cited by public contracts: `Summaries`, `Summing`, `Summary`, and `Stops`, where a
//!   run ends; `Worked` is computed. `specs/Inner/`: `Marks`, for the loop.
//! - `proofs/`: `RightRuns` and `Shown`: right code doesn't clash before its end mark; `EndMarks`,
//!   `Clocks` and `Blank`.
#![tactic(auto)]

mod counting;
mod ends;
mod making;
mod marks;
mod summary;
mod summing;

pub use making::make;

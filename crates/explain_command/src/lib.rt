//! Why a program has the covers that it has: an explanation of each of its jobs.
//!
//! Promise: `explain` gives a text that tells of each job of the program, in order, its number, its
//! place in the program's text, what it is there, its trees, and the cost of its chosen cover; or,
//! exactly where it has no orderly cover, the smallest subtrees that nothing makes, and equal trees
//! that have a cover, where some are found (`explained`: `IsExplained`). Behind each of the subtrees
//! come lines on the forms that are nearest, of which nothing is promised but that they are lines
//! which begin with `near `. The text ends with the line of an answer of `compile`. Refusals are
//! those of `compile` up to NoJump, in its order, but that netlists with modes are refused as ones
//! that break N6 (`refused`: `IsExplainFault`).
//!
//! Invariant: the places of jobs and the jobs have the same numbers (`law_of_places`).
//!
//! Files:
//!
//! - `text`: the line of a cost.
//! - `tree_text`: the text of a tree.
//! - `heading`: what is told of a job whatever its cover is.
//! - `covering`: the cost of its cover, or what lacks one.
//! - `equal`: what may stand for a job without a cover.
//! - `subject`: what is told of.
//! - `telling`: all jobs, one behind the other.
//! - `ending`: what `compile` answers.
//! - `netlists`: the netlist, and what is extracted from it.
//! - `explaining`: the parts in their order: `explain`.
//! - `specs/`: `Lines` and `Explained`, cited by the public contract. `specs/Inner/`: `Telling`,
//!   what the functions tell one another.
//! - `proofs/`: `Growing`: texts that grow line by line; `Alone`: netlists without modes; `Early`:
//!   refusals.
#![tactic(auto)]

mod covering;
mod ending;
mod equal;
mod explaining;
mod heading;
mod netlists;
mod subject;
mod telling;
mod text;
mod tree_text;

pub use explaining::explain;

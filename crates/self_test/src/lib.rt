//! What a self-test computes: of each pattern whose operands code can load and whose result it can
//! store, the value over cells of its own.
//!
//! Promise: `candidates` gives the jobs of all candidates in their order (`jobs`: `test_jobs`),
//! with the temporary cells that their trees may need before them (`temps`: `test_temps`), or
//! `DataFull` exactly where these cells are more than the memory has (`enough`; `refused`:
//! `IsBindFault`).
//!
//! A pattern that gives a form is a candidate where six things hold (`is_candidate` of
//! `specs/Candidates`). Its storage isn't the program counter; the program counter doesn't occur in
//! it; it writes a register of the memory's width, or the memory at a field shape; each register in
//! it has that width; each read in it stands at a field shape; no cat and no select occurs in its
//! value. Its tree has a cell of its own for each register and each read, from left to right, and
//! what the word of all ones gives for each outermost field shape (`tree_from` of `specs/Trees`).
//!
//! A pattern's expression shares parts, so its tree may have more nodes than a number can say:
//! counts stand at 2^64 - 1 (`capped`), which is above the size of each memory.
//!
//! Files:
//!
//! - `parts`: what holds of all parts of an expression of the pool.
//! - `select`: which patterns are candidates, and their values.
//! - `trees`: a candidate's tree.
//! - `cells`: `candidates`, with the cells.
//! - `specs/`: `Candidates`, `Trees`, `Cells` and `Told` are cited by public contracts; `Worked` is
//!   computed. `specs/Inner/Values`: what is computed of a value before its tree is made.
//! - `proofs/`: `Inner` and `Counting`: what is counted of a value is what its tree has; `Looking`:
//!   what holds of a pattern that is looked up; `Memories`: the widths of addresses and words;
//!   `Lists`: the values of patterns in turn; `Needs`: what all counts come to.
#![tactic(auto)]

mod cells;
mod parts;
mod select;
mod trees;

pub use cells::{TestJobs, candidates};

//! The words of a self-test: from its jobs to their covers and words.
//!
//! Promise: `code_of` covers each job of a netlist's self-test, or skips it exactly where no cover
//! of it is orderly, and gives the words of all jobs that have a cover, one after the other, with
//! how many are tested, how many are skipped and what the covers cost together (`code`: `IsCodeOf`).
//! No register is live behind a job, so the steps of each job are packed by themselves.
//!
//! The words are at most what the covers cost together (`words_few` of `proofs/Lengths`). That sum
//! stands at 2^64 - 1 for more (`capped`), which is above the size of each code.
//!
//! Files:
//!
//! - `code`: `code_of`.
//! - `specs/`: `Tried` and `Codes` are cited by public contracts. `specs/Inner/`: `Jobs`, what the
//!   jobs of a self-test are, and `Adding`, one job more.
//! - `proofs/`: `Plain`: the jobs of a self-test are such jobs; `Fitting`: they have words, which
//!   fit; `Adding`: one job after the other; `Lengths`: no more words than costs.
#![tactic(auto)]

mod code;

pub use code::{TestCode, code_of};

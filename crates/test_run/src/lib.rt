//! The run of a self-test: from its words to its text.
//!
//! Promise: `report` clocks the words from the self-test's first state, as many clocks as there are
//! words, and gives the text of what they show of each fault; it answers None exactly where the run
//! without a fault clashes (`text_of` of `specs/Texts`). The text (`report_text` of `specs/Text`) has
//! how many candidates are tested and how many are skipped, the words with their addresses, how many
//! faults there are, a line for each fault that is detected or clashes, and how many are detected.
//!
//! A self-test starts with the number after its address in each cell of the data memory, as far as
//! a cell's width goes, and with 0 in all else (`test_start` of `specs/Starts`).
//!
//! Files:
//!
//! - `starting`: the first state.
//! - `good`: what the run without a fault leaves in the memory.
//! - `writing`: the text, line by line.
//! - `texts`: `report`.
//! - `specs/`: `Starts`, `Text` (its lines) and `Texts` are cited by public contracts.
//! - `proofs/`: `Cells`: the first state fits; `Nets`: a netlist has a net, so it has a fault.
#![tactic(auto)]

mod good;
mod starting;
mod texts;
mod writing;

pub use texts::report;

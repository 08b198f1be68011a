//! The trees and the flow of a program, and in `specs/` what they are and when code does what they
//! say.
//!
//! Promise: `lower` gives exactly the flow and the jobs of a checked program whose variables stand
//! at places of their own (`flow`: `program_flow`, `jobs`: `program_jobs`). The laws: a memory with
//! the variables behind each other holds them (`law_of_rows`: `HoldsVars`), the tree of an
//! expression has its value in the store that the memory holds (`law_of_trees`), the job of an
//! assignment goes to its place's cell (`law_of_assignments`), jobs do what the program's statements
//! say (`law_of_jobs`: `DoProgram`), the temporary cells and the nodes that the rules count are the
//! greatest counts over the trees (`law_of_temps`, `law_of_nodes`), and words that do what the flow
//! says by such jobs trace the program (`law_of_flow`: `IsPlaced`), also where tests are turned:
//! their targets exchanged, and their trees the opposite ones (`Turned`).
//!
//! Invariant: a `DataMemory` has cells and addresses of 1 to 64 bits. The flow of a statement is
//! made for the place at which it stands, so its targets are final once it is appended; jobs are
//! numbered as they are pushed, in the order of the text.
//!
//! Files:
//!
//! - `memory`: the data memory as the trees see it.
//! - `trees`: the trees of expressions, and the addresses of places.
//! - `jobs`: the jobs of assignments, tests and of what a `for` does.
//! - `flow`: the flow of statements, and `lower`.
//! - `laws`: the laws above.
//! - `specs/`, cited by public contracts: `Lowered` (trees over a memory map), `Jobs`, `Flows`,
//!   `Blocks`, `Placed`, `Seen` (the store that memory holds), `Held` (places of their own), `Doing`,
//!   `Meant` (what jobs do to the store), `Turned` and `Measures`; `Worked` is computed. `specs/Inner/`:
//!   `Lowering` and `Near`, which go with the lowering.
//! - `proofs/`: `Standing` carries the law of flow, by induction over statements with a list of
//!   pending assignments, `TurnedTests` that of turned ones; `Cells`, `Meant`, `Done`, `Following`, `Values` and `Behind` the laws of
//!   trees and jobs, `Measured`, `Temps` and `Nodes` those of counts; `LowerLemmas` and `LowerCases`
//!   the lowering.
#![tactic(auto)]

mod flow;
mod jobs;
mod laws;
mod memory;
mod trees;

pub use flow::lower;
pub use laws::{
    law_of_assignments, law_of_flow, law_of_jobs, law_of_nodes, law_of_rows, law_of_temps,
    law_of_trees,
};

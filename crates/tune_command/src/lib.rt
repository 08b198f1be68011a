//! The compiler by equal trees: from the texts of a netlist and a program to that of an image.
//!
//! Promise: `tune` gives bytes that the grammar of images reads as an image which traces exactly the
//! program on exactly the netlist of the two texts, made for its task in another spelling: each job
//! as it is, or by equal trees that cost less or have covers alone (`right`: `IsTuned`). The refusals
//! are those of `compile`; that a tree has no cover comes only where it has none in its own spelling,
//! and none was found in another (`refused`: `IsTuneFault`).
//!
//! Files:
//!
//! - `compiler`: the parts in their order, all but the image those of `compile_command`.
//! - `specs/`, cited by public contracts: `Tuned`.
//! - `proofs/`: `PlainLemmas`: the jobs of a program that was read are its own; `FaultLemmas`: why
//!   nothing was written; `WithinLemmas`: where `compile` refuses nothing, no refusal comes here.
#![tactic(auto)]

mod compiler;

pub use compiler::tune;

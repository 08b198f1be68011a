//! The compiler for two memories: from the texts of a netlist with a bank, a program and a part of
//! its variables to that of an image.
//!
//! Promise: `dual` gives bytes that the grammar of images reads as an image which is right code for
//! exactly the program on exactly the netlist, clocked as it stands with both its memories, the
//! variables of the part in the bank (`right`: `IsDualCompiled`). Each refusal comes only where it
//! is the first that applies (`refused`: `IsDualFault`).
//!
//! Files:
//!
//! - `fault`: why nothing was compiled, and what the fault of a part is told as.
//! - `compiler`: the parts in their order: the view of the netlist with what is extracted from it,
//!   the program, the part, the places, the jobs, the image, the text.
//! - `specs/`, cited by public contracts: `RightDual` (right code for two memories), `Tasks` (what
//!   three texts say together), `Code`, `Compiled`. `specs/Inner/`: `Faults`, `Viewed`, `Sizes`,
//!   for the proof.
//! - `proofs/`: `Traces`: a trace on the view is one on the netlist; `PartLaws`: a text tells one
//!   part; `DualLemmas`: three texts say one task, and it is that of what was read; `Jobs`,
//!   `Checked`: that task is checked; `Fitting`, `Imaged`: its places and its image fit the netlist.
#![tactic(auto)]

mod compiler;
mod fault;

pub use compiler::{dual, view};
pub use fault::DualFault;

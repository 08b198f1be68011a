//! The compiler: from the texts of a netlist and a program to that of an image.
//!
//! Promise: `compile` gives bytes that the grammar of images reads as an image which is right code
//! for exactly the program on exactly the netlist of the two texts, and which that netlist holds
//! (`right`: `IsCompiled`); so none of the refusals applies there, unless another image made for
//! the task is too long. `read_compiled` gives that image with the netlist and the program
//! (`compiled`: `IsCompiledTo`). Each refusal comes only where it is the first that applies
//! (`refused`: `IsCompileFault`). `netlist`, `program`, `read` of both, `places`, `lowered` and
//! `image_for` are the parts of these two, each with its own refusals, for whoever asks more of what
//! was read, or makes other code of it.
//!
//! Files:
//!
//! - `fault`: why nothing was compiled, and what the fault of a part is told as.
//! - `compiler`: the parts in their order: the netlist with what is extracted from it, the program,
//!   its places, what code is made of, the image, the text.
//! - `specs/`, cited by public contracts: `Tasks` (what two texts say together), `Code`, `Read`,
//!   `Compiled`. `specs/Inner/`: `Faults`, for the proof.
//! - `proofs/`: `ReadLemmas`: what was read is checked; `TaskLemmas`: two texts say one task, and it
//!   is that of what was read; `FittingLemmas`: the places fit an image's text.
#![tactic(auto)]

mod compiler;
mod fault;

pub use compiler::{
    Compiled, LoweredProgram, compile, image_for, lowered, netlist, places, program, read,
    read_compiled, text,
};
pub use fault::CompileFault;

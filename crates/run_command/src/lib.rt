//! Running an image: from the texts of a netlist, an image and a memory to the text of the state
//! after some clocks.
//!
//! Promise: `run` gives the text of the state that so many clocks reach (`shows`: `ShowsState`), or
//! the first refusal that applies, in the order netlist, image, memory, clash, with the first cycle
//! that clashes and its first such bus (`refused`: `IsRunFault`). A netlist with a bank is refused
//! (`run_edition`); one with modes has a simulator for each, all made before the first clock. Once
//! the first clock has passed want of memory is no answer any more: no function behind it takes an
//! allocator.
//!
//! Files:
//!
//! - `clocks`: so many clocks, or the first clash.
//! - `machine`: from the three texts to the simulator, `run`, and why no state was reached.
//! - `specs/`: `Runs`, what a run shows and when each refusal comes, cited by public contracts.
//!   `specs/Inner/`: `Runs`, what was read of a part, for the proof.
//! - `proofs/`: `RunLaws`: the answers exclude each other; `FaultLaws`, `ImageLaws`, `StateLaws`: a
//!   fault of a text is at one place; `ClockLemmas` and `LimitLaws`; `Firsts`: what the netlist of a
//!   mode reads and writes is the netlist's.
#![tactic(auto)]

mod clocks;
mod machine;

pub use machine::{RunFault, run};

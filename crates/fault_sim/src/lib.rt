//! A simulator of a netlist with one stuck bit: it clocks a checked netlist in which one bit of one
//! net's value stands at 0 or 1 wherever the net is used.
//!
//! Promise: `FaultSim::clock` is the clock equation of the faulty netlist (`clocks`: `Clocks`, by
//! `faulty_clock` of `specs/Faulty`), or it tells the first bus that clashes and changes nothing.
//! `cell`, `cells` and `words` tell what the simulator holds; `restart` puts another fault and
//! another state in. `test_fault` tells what a run of the words shows of a fault: the least cell
//! that it changes, a clash, or nothing (`found`: `finding` of `specs/Reports`). `findings` tells
//! it of all faults, by net, bit and value. One simulator serves for all faults, and clocks and
//! restarts without taking memory. `law_of_no_fault`: where each net is seen as it is, values,
//! clocks and runs are those of the netlist. `law_of_hidden_faults`: a fault whose bit has the
//! stuck value already changes nothing of a clock. `law_of_fault_count`: there are twice as many
//! faults as bits.
//!
//! Gates, buses, storages and the ports of the data memory and of the file see the stuck bit. The
//! register behind a net doesn't: it holds what it took. Nor does the instruction word, which is
//! taken at the program counter's state.
//!
//! Invariant: a `FaultSim` keeps `IsRunning`: fault, words and state fit the netlist, and its array
//! has a number for each net, of its width.
//!
//! The gates are evaluated as the netlist has them, in the order of the checked netlist, by
//! `cycle_sim::gate_of`: a fault is simulated over few clocks.
//!
//! Files:
//!
//! - `fault`: what a fault is, and what is seen of a net.
//! - `values`: what is seen of all nets.
//! - `edge`: what registers and cells become.
//! - `sim`: `FaultSim`.
//! - `finding`: `test_fault`, over a `FaultSim`.
//! - `report`: `findings`.
//! - `laws`: what holds of the definitions.
//! - `specs/`: `Faulty`, `Clocks` and `Reports` are cited by public contracts; `Worked` has a
//!   netlist of two nets, computed. `specs/Inner/Running` is the invariant.
//! - `proofs/`: `Seeing`: the equation of each net; `Edges`: a clock; `Watching`: clock by clock to
//!   a finding; `Listing`: fault by fault to the report; `Good`, `Masked` and `Counting`: the laws.
#![tactic(auto)]

mod edge;
mod fault;
mod finding;
mod laws;
mod report;
mod sim;
mod values;

pub use fault::Fault;
pub use finding::{Finding, test_fault};
pub use laws::{law_of_fault_count, law_of_hidden_faults, law_of_no_fault};
pub use report::findings;
pub use sim::FaultSim;

//! A simulator: it clocks a checked netlist on a list of instruction words, one edge after the
//! other.
//!
//! Promise: `clock` is the clock equation, every storage from the old values, or it tells the first
//! bus that clashes and changes nothing (`clocks`: `Clocks`, by `clock` of
//! `net_model/specs/Clock`). `evaluate` gives the value of each net (`value_of`), `gate_of` that of
//! one net's gate from those of the nets that it names, `find_clash` the first bus that clashes.
//! `pc`, `reg`, `cell`, `file` and `last_write` tell what the simulator holds, and `trade`
//! exchanges what two of them hold. A `ModeSim` is all this of a netlist with modes: it has a
//! simulator for each, made beforehand, and clocks that of the mode that the state has; a netlist
//! without a mode has one. No call of a `Sim` or a `ModeSim` but `new` takes memory.
//!
//! Invariant: a `Sim` keeps `IsRunning`: its words and its state fit the netlist, and its program
//! is one of the netlist (`IsProgram`): run from any state under any word, the program's array
//! gives registers, memory, file and buses what the values of the nets give them.
//!
//! A netlist is decoded once, when its simulator is made. Wires, and nets with zeros above another,
//! have no place in the array, since what names them goes to their source; constants are written
//! once; the instruction word and the registers are copied to their places (inlets) before the
//! instructions run, which saves an instruction for each; widths have become masks; a case over at
//! most 8 bits looks its place up in a table.
//!
//! Files:
//!
//! - `values`: the values of all nets, each evaluated once, in the order of the checked netlist, as
//!   `word_moves` asks for them.
//! - `operation`: what inlets and instructions are, and a run of many.
//! - `decode`: gates, storages and buses turned into operations over places of one array.
//! - `program`: the instructions of a netlist, in the order of its nets.
//! - `edge`: what a clock does, given the array: clashes, registers, the memory, the file.
//! - `sim`: `Sim`, with its clock.
//! - `modes`: `ModeSim`, a simulator for each mode.
//! - `specs/`, cited by public contracts: `Clocks`, `Shown` (what contracts see of a simulator),
//!   `Trades`, `Moded` and `Moding`. `specs/Inner/`: `Running`, `Ports`, `Operations`, `Decoding`
//!   and `Programs`, for the invariants.
//! - `proofs/`: `Inlets`: what stands in the array before the instructions; `Gates`: an instruction
//!   gives its net's value; `Runs`: so do all of them; `Programs`: and so a program is one of its
//!   netlist; `Edges`: a clock, from the array; `Trading`: a state fits netlists of the same shapes
//!   alike; `Moding`: a clock in a mode is one of the netlist itself; `Sims`: what the simulators of
//!   the modes keep.
#![tactic(auto)]

mod decode;
mod edge;
mod modes;
mod operation;
mod program;
mod sim;
mod values;

pub use edge::find_clash;
pub use modes::ModeSim;
pub use sim::{Clocked, Sim};
pub use values::{evaluate, gate_of, number_at, value_at, zeros};

//! What steps read and write, and the registers that are live between groups of steps.
//!
//! Promise: `live`, `live_with` and `live_between` give for each group, or before one, exactly the
//! registers that are live (`lives_of`, `live_before`). `touches` tells whether a step may read
//! what another writes, where addresses that their settings settle to different numbers are apart
//! (`reads`), and `shares` whether two have one destination: a register, the memory, or a cell of the
//! file. `law_of_lists`: a table of a netlist's
//! patterns lists patterns of the netlist, with ids of the pool (`TablesAreListed`).
//!
//! Invariant: what expressions read is found once for a pool, parts before wholes, and handed on as
//! `sets` (`AreReads`). A set of registers is a number: bit `r` for the register of number `r`,
//! below 16.
//!
//! Files:
//!
//! - `regs`: sets of registers.
//! - `locations`: the location that a step writes, as far as its setting settles it.
//! - `reads`: what the expressions of a pool read, each told once.
//! - `steps`: what steps read and write of one another.
//! - `between`: live registers, from the last group to the first.
//! - `laws`: `law_of_lists`.
//! - `specs/`, cited by public contracts: `Listed` (a table of a netlist's patterns whose ids are a
//!   pool's), `Reading` (the registers that expressions read, and whether they may see a write).
//! - `proofs/`: `Kept` and `Slices` for live registers, `Bits` for sets.
#![tactic(auto)]

mod between;
mod laws;
mod locations;
mod reads;
mod regs;
mod steps;

pub use between::{live, live_between, live_with};
pub use laws::law_of_lists;
pub use locations::Location;
pub use reads::{flag_at, reads_table};
pub use steps::{shares, touches};

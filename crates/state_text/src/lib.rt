//! The texts of states: what a memory text sets, and what a state is written as.
//!
//! Promise: `read_state` gives the state that the lines of a memory text set, each a register, a
//! cell of the data memory or one of the register file, the program counter at 0 (`found`:
//! `IsMemoryText`), or the offset of the first bad line (`refused`: `IsMemoryRefusal`).
//! `write_state` adds exactly the text of a simulator's state: the registers, behind them the
//! file's cells that aren't 0, then the memory's (`text`: `state_text`). It takes no memory where
//! there is room (`succeeds`); `text_room` takes room for every state of a netlist.
//!
//! Files:
//!
//! - `setting`: what a line sets.
//! - `line`: from a line to what it sets, or None.
//! - `reading`: `read_state`, line by line, from zeros.
//! - `writing`: `write_state` and `text_room`.
//! - `specs/`: `Shown`, and of `Settings` `IsStartState`, cited by public contracts; memory texts
//!   are defined in `net_model/specs/MemoryText`. `Worked`: a text and lines of a register file,
//!   computed. `specs/Inner/`: `Settings`, which goes with the reading of a line.
//! - `proofs/`: `Told` and `Progress` for lines, `Starts` for start states, `Shown` and `Rooms` for
//!   writing.
#![tactic(auto)]

mod line;
mod reading;
mod setting;
mod writing;

pub use reading::read_state;
pub use writing::{text_room, write_state};

//! Made-up processors and programs: a netlist and a program text for each number.
//!
//! Promise: `netlist` gives exactly the netlist of a number (`net_text`), a processor with one to
//! four accumulators, and `program`, of a number up to 1,000, its program (`src_text`), a loop
//! round as many statements as the number tells; both texts are short enough for the readers
//! (`short`). That the texts keep the rules is no promise.
//!
//! Files:
//!
//! - `net_text`: the netlist of a number, line by line.
//! - `src_text`: the program of a number, each statement read off a number of its own.
//! - `specs/`: `NetText`, `SrcText` and `Each` are cited by public contracts; `Worked` has the
//!   texts of the number 1, computed.
//! - `proofs/`: `Lengths`: how long the texts are at most.
#![tactic(auto)]

mod net_text;
mod src_text;

pub use net_text::netlist;
pub use src_text::program;

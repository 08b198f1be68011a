//! Watching a netlist run a program: the text of its checkpoints, line by line, while it is
//! clocked.
//!
//! Promise: `Watch::new` promises what will be written: the text of the checkpoints that the
//! netlist shows over so many clocks on right code, which without their cycles are the first of the
//! source, without a clash (`IsTraceText`). `run` puts that text, or a front of it where the sink
//! fails, and nothing after the put that failed (`Puts`); it takes no memory. `law_of_ends`: the end
//! mark is reached exactly when the source ends (`ReachesEnd`, `PassesEnd`). `law_of_room`: no line
//! is longer than the room that is taken for it.
//!
//! Invariant: a `Watch` keeps `IsWatchable`: a simulator with the image's words, whose clocks up to
//! the end mark don't clash, and nothing told of the variables. A `LineWriter` has room for the
//! longest line, and the cells as the last line told them.
//!
//! Files:
//!
//! - `marks`: the label of an address, looked up by halving the marks.
//! - `line`: the line of a checkpoint, from a simulator's state, with the cells that differ from a
//!   store.
//! - `room`: the bytes that the longest line of a program's variables may have.
//! - `writer`: the lines of checkpoints, put one after the other.
//! - `watching`: clocks, and what is seen between them.
//! - `watch`: `Watch`, as callers see it.
//! - `laws`: `law_of_ends`, `law_of_room`.
//! - `specs/`, cited by public contracts: `Watched`, `Puts`, `Ends`, `Texts` and `Rooms`, and
//!   `Traces`, what is shown of a trace; `Worked` has two runs with their texts, computed.
//!   `specs/Inner/`: `Traces`, `Ready` and `Scenes`, for the loop and the invariant.
//! - `proofs/`: `Fronts` and `Starting` carry `new`, `Clocking`, `Seeing`, `Lines`, `Halving` and
//!   `Putting` carry `run`, `Changing` the cells of a line one after the other, `Rooms` its length,
//!   `Ends` the law of the end.
#![tactic(auto)]

mod laws;
mod line;
mod marks;
mod room;
mod watch;
mod watching;
mod writer;

pub use laws::{law_of_ends, law_of_room};
pub use watch::Watch;

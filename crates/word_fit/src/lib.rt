//! Which words fit a group of steps, and what fitting words do.
//!
//! Promise: a clock under a word that fits a group doesn't clash, does at one edge what the group's
//! steps do, keeps the live registers, and leaves the program counter one on (`law_of_clocks`:
//! `ClocksFollow`). Words that fit groups, clocked in order, leave what the groups leave in memory,
//! file and live registers (`law_of_runs`: `RunsFollow`, `RunsFollowSteps`). A register is live
//! exactly where it is still needed (`law_of_liveness`, `law_of_live_lists`). The least words of groups fit
//! them and are one list (`law_of_least`). `written_by` and its fellows tell what a step writes.
//!
//! Files:
//!
//! - `groups`: a group is a list of steps.
//! - `writing`: what a step of a table of patterns writes.
//! - `laws`: the laws above.
//! - `specs/`: `Fits` (which words fit, over the netlist alone), `Groups` (live registers, least
//!   words), `Runs`, `Steps`, `Machines` (the same over a machine) and `Laws` are cited by public
//!   contracts, here and above, and of `Writing` what a step writes; `Worked` is computed.
//! - `proofs/`: `FilePlaces`, `Clocks` and `Follows` for one clock, `Runs` and `Words` for many,
//!   `Needed` and `Least`; `WorkedWords` has a word that fits, and words that don't.
#![tactic(auto)]

mod groups;
mod laws;
mod writing;

pub use groups::Group;
pub use laws::{law_of_clocks, law_of_least, law_of_live_lists, law_of_liveness, law_of_runs};
pub use writing::{
    Written, same_space, space_in, stores, stores_cells, stores_in, writes, writes_register,
    written_by,
};

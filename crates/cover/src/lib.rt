//! The cover of least cost that is chosen for a job.
//!
//! Promise: `cover` answers the first of the orderly covers of least cost, over the trees of the
//! job (`chosen`: `IsChosen`), with its cost, which for a test leaves out the branch word (`cost`:
//! `job_cost`), or `NoCover` where no tree of the job has an orderly cover (`none`: `HasNoCover`).
//! `law_of_choices`: there is at most one such cover, and none where `HasNoCover` holds. So there
//! is always one right answer.
//!
//! `least_costs` finds the first form that begins a cover of least cost of a job's tree. `choice`
//! reads off the covers of the parts from there down, by asking for each whether it is one of the
//! least cost that is left.
//!
//! Files:
//!
//! - `covers`: what `cover` answers.
//! - `choice`: the first cover of a known least cost, from the form at its root down.
//! - `jobs`: `cover`: the better of a job's trees.
//! - `laws`: `law_of_choices`.
//! - `specs/`, cited by public contracts: `Best` and `Jobs`; what is promised stands in
//!   `form_model/specs/Covers`. `specs/Inner/`: `Choice` and `Best`, what the functions here tell
//!   one another.
//! - `proofs/`: `ChoiceLemmas` and `BeginLemmas` for the first cover, `BestLemmas` for a job's, and
//!   `OnceLemmas` for the law.
#![tactic(auto)]

mod choice;
mod covers;
mod jobs;
mod laws;

pub use covers::{CoverFault, JobCover};
pub use jobs::cover;
pub use laws::law_of_choices;

//! Where the jobs of a program stand in its text, and what they are there.
//!
//! Promise: `places_of` gives the place of each job of a program's statements, in the order of the
//! jobs (`program_job_places`). `law_of_places`: there are as many as jobs, whatever memory the jobs are
//! made for (`program_jobs`), so that a job and its place have one number.
//!
//! Files:
//!
//! - `places`: what a job is, and the places of statements' jobs.
//! - `laws`: `law_of_places`.
//! - `specs/`: `Places`, cited by the public contracts; `Worked` is computed.
//! - `proofs/`: `Counts` carries the law, `Growing` goes over statements.
#![tactic(auto)]

mod laws;
mod places;

pub use laws::law_of_places;
pub use places::{JobPlace, Role, places_of};

//! Respelling: a program's trees by equal ones that a netlist's forms cover at less cost.
//!
//! Promise: `respell` keeps a job as it is, or gives another (`IsAnswer`): of the same aim, with one
//! tree that is equal to the job's first, or for a test its opposite, whose targets are to be
//! exchanged, and that reads no other cells (`IsRespelled`). Nothing is lost: it has a plan, which
//! costs less than each of the job's own (`IsGain`). That the spelling is the best is not promised.
//! The laws: in memories whose cells fit, a respelled job does what the job does
//! (`law_of_respelled_jobs`), so that jobs that do what a program's statements say still do so where
//! they are respelled, once turned tests are turned back (`law_of_respelled_programs`).
//!
//! The search owes nothing but safety: `tree_laws` gives an equal tree whatever was listed, joined
//! and picked, and `cover` says what both spellings cost. It lists the job's trees, applies the laws
//! in rounds (`law_rounds`), up to `CLASSES` classes, reckons after each round what forms cost for
//! each class that leave its value in a register, the file or a cell, and picks the nodes of the
//! least. A law that would bring an operator which no form has is left out, and operators are widened
//! only by the extensions that stand beside them in forms (`survey`).
//!
//! Files:
//!
//! - `survey`: the operators of forms.
//! - `seeds`: what laws begin with.
//! - `search`: a round of seeds and laws.
//! - `costs`: the least costs of classes by the forms.
//! - `picks`: the nodes of the trees that cost least.
//! - `reads`, `needs`: which cells a tree reads beside another, and what it needs.
//! - `jobs`: `respell`.
//! - `laws`: the laws above.
//! - `specs/`, cited by public contracts: `Respelled` (jobs, and those of a program), `Kept`.
//!   `specs/Inner/`: `Choosing`, for `jobs`.
//! - `proofs/`: `EqualJobs` and `RespelledPrograms` prove the laws, `SpelledLemmas` and `Gains` go
//!   with `jobs`.
#![tactic(auto)]

mod costs;
mod jobs;
mod laws;
mod needs;
mod picks;
mod reads;
mod search;
mod seeds;
mod survey;

pub use jobs::{Respelled, Speller};
pub use laws::{law_of_respelled_jobs, law_of_respelled_programs};
pub use needs::Limits;
pub use survey::CLASSES;

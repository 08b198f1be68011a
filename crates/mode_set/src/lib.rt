//! Mode registers: the forms that keep the mode, and costs by mode.
//!
//! Promise: `keeping` gives exactly the forms of a mode that keep it, in their order, with their
//! greatest reach (`kept`: `AreKeeping`, `reach`); `plan_job` the least mode of least cost of a job
//! and its chosen cover there, with what the job costs in that mode, or that it has none
//! (`planned`: `IsPlanned`, `cost`: `mode_cost`, `none`: `HasNoPlan`); `mode_jump_word` the least
//! word of a jump or branch that keeps the mode, or that there is none (`word`: `FitsTurn`).
//! `can_put` tells whether a form puts a number into the mode (`CanPut`), and `mode_word` gives the
//! least word that does, with its pattern, or that there is none (`word`: `IsLeastModeWord`).
//!
//! Files:
//!
//! - `kept`, `copies`: the forms that keep the mode; copies of forms.
//! - `plans`: the mode of a job, and its cover there.
//! - `jumps`, `puts`: words of jumps and branches, and words that put a number into the mode.
//! - `specs/`: `Keeping` (what a netlist is told in a mode: its forms that keep the mode or put a
//!   number into it, and the modes that can be used), `Costs` (costs by mode, and the mode that is
//!   chosen for a job), `Plans`, `Words`, `ModeWords`; `Worked` is computed. `specs/Inner/`: `Best`
//!   (the plan of one mode, and the best of the first modes).
//! - `proofs/`: `KeptForms` for lists of forms, `Best` for the plan, `Turning` for the words of jumps
//!   and branches, `Putting` for those that put a number into the mode.
#![tactic(auto)]

mod copies;
mod jumps;
mod kept;
mod plans;
mod puts;

pub use jumps::mode_jump_word;
pub use kept::keeping;
pub use plans::{Plan, plan_job};
pub use puts::{ModeWord, can_put, mode_word};

//! The steps of a cover, and what they leave.
//!
//! Promise: of an orderly cover of one of a job's trees (`Covers`), `emit` gives exactly the steps,
//! and for a test the setting of its branch's condition (`IsEmitted`). `law_of_values`: from each
//! start state the steps of an orderly cover leave the tree's value at its aim, and change no other
//! cell from the temporary ones on (`LeaveValue`). `law_of_registers`: they spare what is still
//! needed, read only what an earlier step wrote, and leave the program counter alone (`AreSpare`).
//! `law_of_costs`, `law_of_settings` and `law_of_cells` tell how many steps there are, of which
//! forms with which bits (`AreOfForms`), and how many cuts.
//!
//! Invariant: cells are given from 0 on in the order of the tree from left to right, a cut after
//! those inside it, whatever the order of the operands; a match has them side by side, so each part
//! knows its first cell. All steps for cuts come first, and then, form by form, those of operands
//! in their order and the form's own.
//!
//! Files:
//!
//! - `counts`: how many cuts covers have.
//! - `cells`: the operands and cuts of a match with their cells.
//! - `homes`: the cells of the file in which covers leave their values.
//! - `settings`: the bits of a form's word that name cells.
//! - `roots`: the form at the root of a cover, with its match, its parts and its step.
//! - `operands`: the steps of operands and of the form behind them.
//! - `cuts`: the steps that put cuts into their cells.
//! - `emits`: `emit`.
//! - `laws`: the five laws.
//! - `specs/`, cited by public contracts: `Formed` (what is asked of forms), `Leaves`, `Spares`,
//!   `Settles`, `ReadWords`, `Emits`, `Models`; the steps themselves are `form_model/specs/Steps`;
//!   `Worked` is computed. `specs/Inner/`: `CellLists`, the lists of operands and cuts as the
//!   functions here hand them on.
//! - `proofs/`: `Works` and `Spared` are the two inductions over covers, under `Leaving` and
//!   `Lives`; `Matched`, `Forms` and `Fields` are for one form, `Walks` for cuts; `Counted`,
//!   `Settled`, `Few`; `Orderly`: the places that an orderly cover names are there.
#![tactic(auto)]

mod cells;
mod counts;
mod cuts;
mod emits;
mod homes;
mod laws;
mod operands;
mod roots;
mod settings;

pub use emits::{Emitted, emit};
pub use laws::{law_of_cells, law_of_costs, law_of_registers, law_of_settings, law_of_values};

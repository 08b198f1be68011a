//! What instruction words do to what is known of a machine's state, from one mark to the next.
//!
//! Promise: what is known (`Known`: registers, cells of the register file and of the memory, and what
//! was written to arrays, each by a class of trees over the store at a mark) stands for states
//! (`StandsFor`). `Step::eval` gives a class that has an expression's value in each of these states
//! (`Evaluates`), and `Step::next` what is known behind one word (`LeadsOn`): of the register file
//! nothing behind a write at an address that isn't known. `Image::walk` and `Image::cross` follow
//! words from each of these states, without a clash and past no mark, to a marked address in just so
//! many clocks (`Arrives`, `Crosses`), or say at which word they stop.
//! `Store` has the program's side: the class of a tree (`Store::tree`), and what is known behind an
//! assignment (`Store::assigned`, `Store::put`, `Store::put_at`). `agree` says yes only where two
//! memories hold one number in a cell (`AgreeAt`). Each call may answer that it doesn't know; that
//! promises nothing. The table of classes only grows (`Grows`), and no class is joined. Classes of
//! operators' values are those of `class_values`, whose facts hold in the memories of one segment.
//!
//! An array is written by `Put`s, and what its cell holds behind them is a class: that of the value
//! of the last write to it, where addresses are known to be the same or to differ, and else
//! `old + bit * (value - old)` by the bit of their comparison. The same puts and the same address
//! so give the same class on the machine's and on the program's side.
//!
//! Files:
//!
//! - `known`: what is known of a state.
//! - `choices`: values that are one or another by a bit, and values of two parts.
//! - `behind`: what arrays' cells hold behind writes.
//! - `writes`: two lists of writes to arrays, compared.
//! - `eval`: classes of expressions.
//! - `moves`: one word.
//! - `walk`: words from one mark to the next.
//! - `program`: the program's trees and assignments.
//! - `arrival`: what is known of two memories, compared.
//! - `specs/`, cited by public contracts: `Known` (what is known, and states that it stands for),
//!   `Reading` (what cells hold), `Moves` (one word), `Walks`, `Arrivals`. `specs/Inner/`: `Reading`
//!   (classes of what a state holds), and `Passed` (arrays behind writes).
//! - `proofs/`: `Keeping` carries what is known over to tables that grew; `Cells`, `Evaluated`,
//!   `Passing` for classes of values; `Moving`, `Writing`, `Walking` for words; `Agreeing`, `PutLemmas`
//!   and `SamePuts` for the crates above.
#![tactic(auto)]

mod arrival;
mod behind;
mod choices;
mod eval;
mod known;
mod moves;
mod program;
mod walk;
mod writes;

pub use arrival::agree;
pub use eval::{Step, cell};
pub use known::{Cell, Element, Known, Put};
pub use moves::{Move, unknown, written};
pub use program::Store;
pub use walk::{Arrival, Coded, Image, Walked};
pub use writes::{are_puts_same, leave_same};

//! Where the variables of a program stand in the data memory.
//!
//! Promise: `bind` gives the temporary cells and then the variables in the order of their
//! declarations, arrays whole (`places`: `layout_of`), disjoint and within the memory (`apart`:
//! `Apart`), or `DataFull` exactly where the program needs more cells than there are, with both
//! numbers (`refused`: `IsBindFault`). `cells_in` and `place` are one variable's cells and place,
//! for other layouts.
//!
//! Files:
//!
//! - `fault`: why no places were given.
//! - `layout`: the cells of variables, their places one behind the other, and `bind`.
//! - `specs/`: `Refusals`, cited by a public contract; layouts are defined in
//!   `code_model/specs/Layout`.
//! - `proofs/`: `Cells`: how many cells variables have, and that their places are apart.
#![tactic(auto)]

mod fault;
mod layout;

pub use fault::BindFault;
pub use layout::{bind, cells_in, place};

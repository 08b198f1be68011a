//! Which remarks fit an image: names that are there, of the right kind, with widths that agree, and in
//! which order they stand.
//!
//! Promise: `accepts` tells exactly whether a remark fits a netlist's storages and an image and may
//! stand behind the one before (`accepts` of `specs/Fits`). Terms have widths as expressions of netlists
//! have them: a view's over registers and the cells of the memory and the file (`part_width`), a
//! holding's over variables, of which each is as wide as a cell (`tree_width`). None takes memory.
//!
//! Files:
//!
//! - `operators`: the words of a term, and the width of what each gives.
//! - `widths`: the width of a term, from the names that it may have.
//! - `turn`: the order of remarks.
//! - `fitting`: what holds a value, and whether a remark fits.
//! - `specs/`: `Widths` (of terms), `Turns` (the order) and `Fits` are cited by public contracts;
//!   `Worked` has terms that have a width and terms that have none.
//! - `proofs/`: what single functions need.
#![tactic(auto)]

mod fitting;
mod operators;
mod turn;
mod widths;

pub use fitting::{Spot, accepts, register_spot};
pub use operators::constant_width;
pub use turn::{HolderSpace, Turn};
pub use widths::{name_in, number_in};

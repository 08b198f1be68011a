//! What remarks say: the views of variables as expressions over registers, and what is hidden.
//!
//! Promise: `part_of` gives the expression that a term over registers and cells stands for, exactly
//! where it stands for one (`part_of` of `specs/Parts`), and `viewed_of` the views and the hidden
//! variables of the remarks on an image, in their order (`views_said`, `hidden_said`).
//!
//! Files:
//!
//! - `operators`: from a word to its operator.
//! - `part`: from a term to an expression.
//! - `viewed`: from remarks to views.
//! - `specs/`: `Parts` (terms) and `Said` (remarks), cited by public contracts.
//! - `proofs/`: `Views`, what the loop over remarks keeps.
#![tactic(auto)]

mod operators;
mod part;
mod viewed;

pub use operators::{op1_of, op2_of};
pub use part::{part_of, register_part};
pub use viewed::viewed_of;

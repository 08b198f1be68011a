//! Which forms come nearest to a tree that nothing makes, and what is between them, in words.
//!
//! `near_texts`: for each form with the tree's operator at its root, or that goes where the tree is
//! to go, the first difference on the way down from the root, from left to right: another width,
//! another operator, a number that the form's field doesn't show, a register that nothing loads
//! with an operand, or a temporary cell that nothing fills. In the order of the forms, each text
//! once. `add_tree`, `add_expr`: trees and expressions in the notation of patterns; a read of a
//! variable's cell is the variable.
//!
//! It promises nothing but safety and an end, so that the words can change without a proof: tests
//! say what they are.
//!
//! Files:
//!
//! - `text`: names and numbers in a text, and `Names`.
//! - `exprs`, `trees`: expressions of forms, and trees.
//! - `differences`: the first difference between a form and a tree.
//! - `words`: a difference in words.
//! - `near`: `near_texts`.
#![tactic(auto)]

mod differences;
mod exprs;
mod near;
mod text;
mod trees;
mod words;

pub use differences::{Difference, Means, first_difference};
pub use exprs::add_expr;
pub use near::near_texts;
pub use text::Names;
pub use trees::add_tree;
pub use words::add_difference;

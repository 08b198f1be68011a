//! What a form takes of a tree.
//!
//! Promise: `match_at` gives what a form takes of a tree that goes to a destination, exactly, and
//! None exactly where it doesn't match (`found`: `taken` of `form_model/specs/Matches`), with the
//! number of each part's tree among the subtrees (`at`). `fits_field`, `shows_all` and `setting_of`
//! tell of a field shape which numbers it shows and under which bits. Sizes and widths are exact,
//! and past what can be counted want of memory is answered. `may_take` refuses only forms that don't
//! match.
//!
//! Invariant: subtrees are numbered from 0, a tree before its operands and these from left to
//! right; `past` gives the number behind a tree. A part carries the number of its tree, so that
//! `cover` finds the row of each subtree without comparing trees.
//!
//! Files:
//!
//! - `parts`: matches, the parts that they leave open, and where trees go.
//! - `sizes`: widths of trees and expressions, and how many nodes a tree has.
//! - `shapes`: field shapes: which numbers they show, and under which bits of the word.
//! - `takes`: which forms needn't be matched with a tree, since an operator of theirs isn't the
//!   tree's at its place.
//! - `terms`: what an expression of a form takes of a tree.
//! - `forms`: what a form takes of a tree with its destination: `match_at`.
//! - `specs/`: `Numbers` and `Leaves`, cited by public contracts. `specs/Inner/`: `Settings` and
//!   `Unary`, parts of definitions that proofs name.
//! - `proofs/`: `NumberLemmas` for subtrees, `ShapeLemmas` and `ExtensionLemmas` for shapes,
//!   `UnaryLemmas`, and `ValueLemmas` for forms whose value doesn't take a tree.
#![tactic(auto)]

mod forms;
mod parts;
mod shapes;
mod sizes;
mod takes;
mod terms;

pub use forms::match_at;
pub use parts::{Destination, Home, Leaf, Match, Subgoal, Subtree};
pub use shapes::{fits_field, is_field_shape, low_bits, plain_setting_of, setting_of, shows_all};
pub use sizes::{expr_width, plus, tree_size, tree_width};
pub use takes::may_take;
pub use terms::is_number_tree;

//! The forms of a netlist: the transfers that code is made of, and what they may change beside.
//!
//! Promise: `forms` gives exactly the forms of a netlist with these patterns, in their order, each
//! with its clobbers and its tied read, and the greatest reach of its jumps (`forms`: `AreForms`), and
//! the size of the register file (`file`); the table of patterns stays right in the grown book
//! (`ready`: `IsReady`). The laws, each a statement of
//! `specs/Laws`: there is one such list (`law_of_lists`), each form is one of its pattern
//! (`law_of_forms`), every setting of a plain form has a word that does it, steps, and keeps what
//! is no clobber (`law_of_words`), when forms of a kind are absent (`law_of_absence`), and what settings and reaches are (`law_of_settings`,
//! `law_of_reach`).
//!
//! Invariant: whether every setting has a word is asked of single words by the definitions, and of
//! a set by the code: a set reaches all words by its other bits exactly where it is so (`decide`).
//! Which operators of a transfer are swapped is the crate below (`operand_swaps`).
//!
//! Files:
//!
//! - `pattern_ids`: a pattern by its ids, as it is looked up.
//! - `decide`, `words`: whether every setting has a word; the words of a pattern that step and
//!   keep.
//! - `linear`, `shapes`, `branches`: what has to hold of a pattern's expressions.
//! - `classes`: from these, what a pattern is: plain, a jump, a branch, or nothing.
//! - `copies`: expressions of the pool as values of their own, and with operators swapped.
//! - `tied`: the place of a form's tied read.
//! - `making`: the forms of a pattern of which it is known what it is; it knows no book.
//! - `listing`: `forms`: over the patterns once for the reach of jumps and once for the forms.
//! - `laws`: the laws above.
//! - `specs/`, cited by public contracts: `Laws`, `Listing`, `Promises`, `Static`, `Targets`, `Tied`
//!   and `Words`; `Worked` is computed. `specs/Inner/`: `PatternIds`, `Copies`, `Linear`, `Holds` and
//!   `Adding`, which go with the code.
//! - `proofs/`: `Chosen` and `Deciding` for words, `Classifying`, `RuleLists`, `OneList` for the
//!   list, `FormLaws`, `Registers`, `NoForms`, `ShapeBits` for the laws.
#![tactic(auto)]

mod branches;
mod classes;
mod copies;
mod decide;
mod laws;
mod linear;
mod listing;
mod making;
mod pattern_ids;
mod shapes;
mod tied;
mod words;

pub use laws::{
    law_of_absence, law_of_forms, law_of_lists, law_of_reach, law_of_settings, law_of_words,
};
pub use listing::forms;
pub use words::can_turn;

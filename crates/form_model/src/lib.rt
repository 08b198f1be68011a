//! What a compiler has to choose from: the trees and the flow of a program, the forms of a netlist,
//! and the covers of trees by forms.
//!
//! Promise: `law_of_shapes`: which values a field shape shows, under which bits of the word, and
//! the least number that it doesn't show, is what is computed for it, for words of any width and
//! for sums with a constant (`IsExactShape`). `law_of_trees`: a tree is an expression over numbers
//! and the memory, in which no register and no instruction bit occurs (`is_tree`, `HasNoState`).
//! All else here is definitions, on which the crates of covers, steps and words rest.
//!
//! The register file: a form reads it as it reads a register, and writes it where its goal says so.
//! A cover says how many of its cells it needs at one time, and the steps choose them.
//!
//! Files:
//!
//! - `trees`: trees, their aims, and jobs.
//! - `flow`: the flow of a program, a list of places.
//! - `forms`: forms of a netlist, steps, and sets of registers.
//! - `covers`: covers of trees by forms.
//! - `laws`: the two laws above.
//! - `specs/`, all cited by public contracts in the crates above: `Trees`, `Shapes` (field shapes),
//!   `Forms` (forms as plain values), `Registers` (those that forms go to and name), `Matches` (what
//!   a form takes of a tree), `CoverModels` and `Covers` (covers, orderly ones, and the chosen one),
//!   `Steps` (the steps of a cover, and the cells of the file that they name), `Effects` and `Live`
//!   (what steps do and read, and live registers). `Worked` has shapes and matches, computed, and
//!   `WorkedFile` the steps of covers whose operands are in a file.
//! - `proofs/`: `FieldLaws`, `PlainLaws`, `SumLaws` and `ShapeLaws` carry the law of shapes,
//!   `TreeLaws` that of trees; `NeedLaws` says where covers leave their values. `Zips` is for lists
//!   in two orders, in the crates above. `WorkedCovers` is a worked choice between the two trees of
//!   a test.
#![tactic(auto)]

mod covers;
mod flow;
mod forms;
mod laws;
mod trees;

pub use covers::{Cover, CoverCuts, CoverOperands};
pub use flow::{Blocks, Flow};
pub use forms::{Form, Forms, Goal, RegSet, Step, Target};
pub use laws::{law_of_shapes, law_of_trees};
pub use trees::{Aim, Job, Tree};

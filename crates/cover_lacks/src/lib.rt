//! What a job lacks that has no cover: the smallest subtrees that nothing makes.
//!
//! Promise: `lacking` lists exactly what is lacking of a job (`list`: `AreLacking`), from left to
//! right and each once, and that is something where a tree of the job has no cover (`some`).
//! `is_same` tells whether two trees are equal.
//!
//! A tree is *made* where it can come, as a part, into some register or a temporary cell (`IsMade`
//! of `cover`). A form *asks* for the operands and cuts of its match (`FormAsks`). From the job's
//! tree, what is asked for and not made is *missed*, and so is what is asked for of that. What is
//! missed is *lacking* where all that is asked of it is made, and so is the job's tree itself.
//!
//! Invariant: `IsVisited` in `specs/Inner/Flags`. The subtrees are visited in the order of their
//! numbers, and what a part asks for has a greater number: when a part's turn comes it is known
//! whether it is missed.
//!
//! Files:
//!
//! - `asks`: the trees that forms ask for of a tree and nothing makes, by their numbers.
//! - `flags`: which numbers are missed and lacking.
//! - `equal`, `listed`: the flagged trees, each once, in the order of their first places.
//! - `jobs`: `lacking`.
//! - `specs/Lacks`, cited by public contracts. `specs/Inner/`: `Asked`, `Flags` and `Listed`, what
//!   the functions here tell one another.
//! - `proofs/`: named by the file that they are for.
#![tactic(auto)]

mod asks;
mod equal;
mod flags;
mod jobs;
mod listed;

pub use equal::is_same;
pub use jobs::lacking;

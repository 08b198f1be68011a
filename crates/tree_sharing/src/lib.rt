//! Which of the subtrees of a job are equal.
//!
//! Promise: `first_numbers` gives each number the least number of an equal subtree, and has one for
//! each (`AreFirstEqual`); `first_equal` looks it up. Those of a store's address come first
//! (`job_nodes`), each numbered as `tree_grammar` does. `numbered` lists them.
//!
//! Invariant: `IsShared` in `specs/Inner/Sharing`. A root names its operands by their least numbers,
//! so equal subtrees have one root, and none is compared with another as a tree. Each root that was
//! met has the least number of its subtree, and so has each number whose subtree was met. A subtree
//! is met behind those inside it, which have greater numbers: so of the subtrees before it in number
//! only those around it aren't met, and none of these equals it, since they have more nodes.
//!
//! Files:
//!
//! - `sharing`: roots and their numbers, `first_numbers` and `first_equal`.
//! - `listing`: `numbered`.
//! - `specs/Sharing`, cited by public contracts; `specs/Inner/`: `Entries` and `Sharing`, what the
//!   functions here tell one another.
//! - `proofs/`: `NodeLemmas`: behind each numbered subtree stand its own; `SharingLemmas`: equal
//!   subtrees have one root, and its number is the least; `EntryLemmas`: what holds of each entry of
//!   a map, and of some key; `ListingLemmas`: a tree's subtrees are itself and its operands'.
#![tactic(auto)]

mod listing;
mod sharing;

pub use listing::numbered;
pub use sharing::{first_equal, first_numbers};

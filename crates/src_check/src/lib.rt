//! The rules S1 to S6 of source programs.
//!
//! Promise: `check` gives a program back as `Typed` only where none of S1 to S6 is broken (`taken`:
//! `first_fault` of `src_model/specs/Rules`), and otherwise answers the first rule that is, with
//! the least offset at which it is broken, or with its count and bound (`refused`: `IsCheckFault`),
//! or want of memory.
//!
//! Invariant: a table of names finds the first declaration of each (`Finds` in
//! `specs/Inner/Tables`). `walk` goes over the statements once for each rule, with the loops round
//! a statement as a chain of references on the stack, the innermost first.
//!
//! Files:
//!
//! - `names`: S1 and S2, and the table of declarations.
//! - `widths`: S3; the width of an expression, or the least offset at which the rule is broken in
//!   it.
//! - `indexes`: S4; the range of an index over whole numbers.
//! - `rounds`: the loops round a statement.
//! - `walk`: S2 to S5 statement by statement: a `LoopRule` is the rule that is asked.
//! - `whole`: the rules in their order, with S6 and what is asked of declarations, and `check`.
//! - `specs/`: `Refusals`, cited by public contracts, and the rules are `src_model/specs`.
//!   `specs/Inner/`: `LoopRules`, `Rounds` and `Tables`, which go with the walk.
//! - `proofs/`: `Walks` and `Tables` one statement and one declaration further, `Ranges`, `Lengths`
//!   and `Weights` for the rules by themselves.
#![tactic(auto)]

mod indexes;
mod names;
mod rounds;
mod walk;
mod whole;
mod widths;

pub use whole::check;

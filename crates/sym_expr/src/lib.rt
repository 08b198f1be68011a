//! Expressions over registers, the memory, the register file, constants and the instruction word,
//! in one pool with one id for each.
//!
//! Promise: `intern` gives the id of an expression and adds no other (`expr`, `alone`), and changes
//! no id that the pool held, on want of memory too (`grows`: `Grows`). Two ids are equal exactly
//! where their expressions are (`one_each`: `IsOneEach`), and an id is an expression for ever
//! (`keeps`: `KeepsExprs`). `width`, `size`, `eval` and `expr` tell of an id what `net_model`
//! defines of its expression.
//!
//! Invariant: the parts of each node come before it, its operator gets operands of the widths that
//! it asks for, and no two nodes are equal (`IsPool`); beside each node stand the width and the
//! size of its expression (`IsMeasuredPool`). So a pass over the ids in order meets parts before
//! wholes.
//!
//! Files:
//!
//! - `pool`: `Pool`, with its nodes and their measures.
//! - `specs/`: `Pools` is cited by public contracts, but for `IsPool`, which is the invariant;
//!   `Measures` is for the invariant alone.
//! - `proofs/`: `OneEach` and `Growth` for ids, `Trees`, `Fits` and `Measured` for expressions,
//!   `Keys` for the derived `==`, `CallerLemmas` for callers.
#![tactic(auto)]

mod pool;

pub use pool::{ExprId, Node, Pool};

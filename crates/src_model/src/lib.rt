//! Programs of the source language: their types, programs that were checked, and in `specs/` how
//! programs are written, the rules that they keep, and what they pass when they run.
//!
//! Promise: whoever holds a `Typed` has a program that keeps S1 to S6 for words of its width
//! (`kept`: `KeepsSrcRules`). `law_of_indexes`: in each run of such a program every index lies in
//! its array, so that the run which stops at the first index that doesn't passes the same
//! checkpoints (`strace_inside`). `block_sizes`, `is_literal`, `number_of` and `temps` tell sizes
//! exactly, `width_of` and `operand_width` widths.
//!
//! Invariant: the `ghost` fields of `Typed`: a width of 1 to 64, and no first fault. `Typed::new`
//! is the one way to make one; `src_check` calls it.
//!
//! Files:
//!
//! - `words`, `program`: the words of tokens, and programs as written.
//! - `fault`: the broken rules of a program.
//! - `store`, `checkpoint`: what the variables hold, and the moments at which program and code are
//!   compared.
//! - `sizes`: statements, nodes of trees, and temporary cells.
//! - `widths`: widths of expressions and of operands.
//! - `typed`: `Typed`, a program that was checked.
//! - `laws`: the law of indexes.
//! - `specs/`, cited by public contracts, here and above: `Written`, `Grammar`, the rules (`Names`,
//!   `Widths`, `Loops`, `Indexes`, `Sizes`, `Rules`), what a run passes (`Meaning`, `Ways`,
//!   `Trace`), `Inside`, `Fitting`. `Worked..` are computed. `specs/Inner/`: `Fitting` and `Sound`,
//!   what the rules leave to be known, for proofs, and `Narrow`, for widths.
//! - `proofs/`: `InsideLemmas`, `CounterLemmas` and `RangeLemmas` carry the law; `SoundLemmas` and
//!   `FittingLemmas` what each statement of a checked program keeps; `TraceLemmas` and `WayLemmas`
//!   what callers cite of runs.
#![tactic(auto)]

mod checkpoint;
mod fault;
mod laws;
mod program;
mod sizes;
mod store;
mod typed;
mod widths;
mod words;

pub use checkpoint::Checkpoint;
pub use fault::{SrcFault, SrcKind};
pub use laws::law_of_indexes;
pub use program::{Cmp, Program, Spot, SrcExpr, SrcNode, SrcTest, Stmt, Var};
pub use sizes::{Sizes, block_sizes, is_literal, number_of};
pub use store::Store;
pub use typed::{SrcFault2, Typed};
pub use widths::{operand_width, width_of};
pub use words::{Call, Key, Lexed, Symbol, Word};

//! The front of each command on a program: its text is read, and it is held against the rules.
//!
//! Promise: `read_src` takes bytes exactly where they are the text of a program that keeps S1 to S6
//! for words of so many bits, as the one program that they say (`found`: `IsSrcFile`). Otherwise it
//! tells the first token that shows a fault of the text, or the first rule that is broken
//! (`refused`: `IsSrcRefusal`).
//!
//! Files:
//!
//! - `front`: `read_src`, by `src_parser` and `src_check`, and why bytes were not taken.
//! - `specs/`: of `Fronts` public contracts cite all but `IsNamed` and `AreNamed`, which say that
//!   the names of a program are names.
//! - `proofs/`: `FrontLaws`: the answers on a program's bytes exclude each other. `SourceNames` and
//!   `Lengths`: the names that a text declares are names, and are no more than its bytes;
//!   `compile_command` cites them.
#![tactic(auto)]

mod front;

pub use front::{SrcRefusal, read_src};

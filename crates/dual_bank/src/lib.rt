//! Netlists of two data memories: which variables of a program stand in the bank, the second of
//! them, where all stand, and the jobs of a program over both.
//!
//! Promise: `part` tells exactly the variables that a text names (`IsPart`), or the first line that
//! names none or one again (`IsPartRefusal`). `bind_banks` gives their places (`bank_layout`), or
//! `DataFull` exactly where the memory has too few cells, or else the bank (`IsBankFault`). `banked`
//! gives the jobs of a program over both (`job_of_banked`). The laws, where the variables have room
//! (`FitsBanks`): the joined memory holds them (`law_of_banks`: `HoldsVars`, `HasCellRoom`), a tree
//! and a job over both have the value and the effect that they have over one where their indexes lie
//! in their memories, and a program's jobs do what its statements say (`law_of_banked`:
//! `DoProgram`); they need no more temporary cells, and at most twice the nodes (`law_of_sizes`:
//! `AllSmall`).
//!
//! Files:
//!
//! - `parts`: the variables that a text names.
//! - `layout`: the places of variables in two memories.
//! - `banking`: the jobs of a program over two memories.
//! - `laws`: the laws above.
//! - `specs/`, cited by public contracts: `Parts`, `Layouts` and `Banked`; `Worked` is computed.
//!   `specs/Inner/`: `Sums`.
//! - `proofs/`: `Progress` for going over the lines of a part, `Cells` for counts of cells, `Sums`
//!   for addresses that are sums, and for the laws `Held` (each variable is in one memory), `Joined`
//!   (values over two memories are those over one), `Lying` (where the program's indexes lie in
//!   their arrays, those of its jobs lie in their memories) and `Sizes`.
#![tactic(auto)]

mod banking;
mod laws;
mod layout;
mod parts;

pub use banking::banked;
pub use laws::{law_of_banked, law_of_banks, law_of_sizes};
pub use layout::bind_banks;
pub use parts::part;

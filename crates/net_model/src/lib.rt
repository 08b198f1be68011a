//! Netlists of registers, memories, register files, buses and operators: their types, and in
//! `specs/` what they mean.
//!
//! Promise: `law_of_values`: the value of a net is what its symbolic value means (`value_of`,
//! `sym_of`, `mean`). `law_of_transfers`: under a word without clash the next state is what the
//! word's transfers say (`Moved`). `law_of_modes`: while the mode of a netlist is v, the netlist is
//! what it is in mode v (`ModesAreFixed`: the values of nets, the clash, the clock). Whoever holds a
//! `Checked` has a netlist that keeps N1 to N9, N11
//! and N14, with an order of its nets (`kept`: `KeepsRules`, `sound`: `IsSound`). `flags_of`,
//! `enables`, `selectors`, `control_places`, `file_addrs` and `named` tell of nets exactly what
//! they are defined to be.
//!
//! Invariant: a `Checked` keeps `KeepsRules`: in its order each net stands behind those that its
//! gate names. `flags_of` goes along such an order, so that one pass tells what a net has together
//! with all that it depends on.
//!
//! Files:
//!
//! - `units`, `words`: the items of a netlist text as written, and the words of its tokens.
//! - `hardware`, `states`: a `Netlist` of nets, storages and codes by their numbers, and a `State`.
//!   A memory and a register file have the same `Cells`; a `Space` tells which of the two is meant.
//! - `expression`: expressions and transfers, which are what a net or a storage gets under one
//!   word.
//! - `fault`: the broken rules, and why a netlist was not accepted.
//! - `named`, `controls`: the nets that a gate names, those in control places, and the addresses of
//!   a register file.
//! - `flags`: what is told of each net by its gate and by what is told of the nets that it names.
//! - `checked`: `Checked`, with its program counter, its memory, its file and its static nets.
//! - `editions`: which editions add what.
//! - `modes`: `Modes`, a netlist with what it is in each of its modes, all checked.
//! - `laws`: the three laws above.
//! - `specs/` of meaning, cited publicly: `Nets`, `Value`, `Clock`, `Symbolic`, `Exprs`, `Meaning`,
//!   `Transfers`, `Patterns`, `Texts`, `Fields`, `Occurs`, `Widths`, `Control`, `MemoryText`; of
//!   rules and texts, likewise: `Written`, `Editions`, `Grammar`, `TextNames`, `Numbering`,
//!   `Elaborated`, `Elaborable`, `NameRules`, `TextWidths`, `WidthRules`, `DriverRules`,
//!   `LimitRules`, `TextRules`, `Depends`, `Order`, `CheckedRules`, `NetFaults`, `Flags`; of modes:
//!   `Fixed`, `Modes`, `ModeRules`.
//!   `Worked..` are computed. `specs/Inner/`: `Nodes`, by which recursions end.
//! - `proofs/`: `Meanings` and `Syms` carry the law of values, `Effects` and `NextStates` that of
//!   transfers, `KeptRules` and `KeptTexts` what follows from the rules, `Fixing` and
//!   `Clocking` the law of modes, `Fixes` and `ModeFaults` the rules in modes, `TermLaws` what others
//!   cite.
#![tactic(auto)]

mod checked;
mod controls;
mod editions;
mod expression;
mod fault;
mod flags;
mod hardware;
mod laws;
mod modes;
mod named;
mod states;
mod units;
mod words;

pub use checked::Checked;
pub use editions::is_banked;
pub use expression::{Expr, Transfer};
pub use fault::{CheckFault, NetFault, NetKind, Role};
pub use flags::{Property, flags_of, is_set};
pub use grammar::Ident;
pub use hardware::{Cells, Code, Gate, Net, Netlist, Space, Storage};
pub use laws::{law_of_modes, law_of_transfers, law_of_values};
pub use modes::Modes;
pub use states::State;
pub use units::{NetExpr, Port, RegisterKind, Unit, Units};
pub use words::{ItemWord, Key, Lexed, Operator, Symbol, Word};

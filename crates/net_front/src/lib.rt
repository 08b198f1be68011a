//! The front of each command on a netlist: its text is read, and its items are held against the
//! rules.
//!
//! Promise: `read_net` takes bytes exactly where they are a netlist's text of an edition up to the
//! newest that is taken (`taken`) that keeps N1 to N9, N11 and N14, with the one edition and list of
//! items that they say (`found`: `IsNetFile`) and its netlist, checked in each of its modes
//! (`modes`: `IsModedOf`); one without modes has one. Of a netlist with a bank it is the view that is
//! given (`taken_of`).
//! Otherwise it tells the first token that shows a fault of the text, or the first rule that is
//! broken, in the order N1, N2, N3, N4, N11, N5 to N9, N14, each in all modes before the next
//! (`refused`: `IsTakenRefusal`). `read_banked` takes texts with a bank alone
//! (`IsBankedRefusal`). `flatten` promises this of items and of the rules up to N11
//! (`IsElaboratedOf`, `IsTextRefusal`). `read_taken` is for commands that take no netlists with
//! modes or a bank, so that there is one checked netlist (`netlist`: `IsCheckedOf`):
//! it refuses the others as breaking N6 (`refused`: `IsTakenRefusal`).
//!
//! Files:
//!
//! - `flat`: `flatten`, from items to their netlist, by `net_names`, `net_rules` and `net_elab`.
//! - `front`: from bytes to items, and from these to their checked netlist, by `net_parser`,
//!   `flatten`, `net_check` and `bank_view`.
//! - `taken`: `read_net`, `read_banked`, `read_taken`.
//! - `specs/`: `Fronts` and `Taken` are cited by public contracts, but for what a part's refusal is
//!   (`IsRuleRefusal`, `IsItemsRefusal`) and what it is told as (`parse_refusal`, `check_refusal`,
//!   `newer_of`).
//! - `proofs/`: `FrontLaws`, `TakenLaws`: the answers on a netlist's bytes exclude each other.
#![tactic(auto)]

mod flat;
mod front;
mod taken;

pub use flat::{NetFault2, flatten};
pub use front::NetRefusal;
pub use taken::{read_banked, read_net, read_taken};

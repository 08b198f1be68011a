//! The rules N5 to N9 and N14 of a netlist: it is accepted with an order of its nets, or refused
//! with the first rule that it breaks; what a netlist with a mode register is in each of its modes,
//! and the rules there.
//!
//! Promise: `check` accepts a netlist that keeps N1 to N4 and N11 (`IsWellFormed`) as it is, with
//! an order of its nets in which it keeps every rule, or refuses it with the first of N5 to N9 and
//! N14 that it breaks (`found`). It accepts exactly where the rules are kept (`accepted`:
//! `KeepsRules`) and refuses exactly where one is broken (`refused`: `FaultOf`), but for want of
//! memory. `check_modes` does the same of what a netlist is in each of its modes
//! (`AreModesOfNetlist`, `KeepsModes`, `ModeFaultOf`), where each rule is tried in all modes before
//! the next. In a mode a netlist is one of its own, in which the register's output is a constant
//! (`net_model/specs/Fixed`: `in_mode`); while the mode register holds a number, a clock of the
//! netlist is one of what it is in the mode of that number (`net_model::law_of_modes`), which has no
//! mode and is of the first edition. So each stage behind the check takes the netlist of a mode and
//! knows of no mode.
//!
//! Invariant: the walk that orders the nets keeps its own path, of which each open net names the
//! next, and every placed net stands behind all that it names (`specs/Inner/Walk`). The search for
//! cycles keeps, for the nets that it has met, at which of them components begin
//! (`specs/Inner/Components`). Neither recurses, so no netlist exhausts the stack.
//!
//! Files:
//!
//! - `graph`: for each net, the nets that its gate names.
//! - `stack`: a list whose last item is taken first.
//! - `walk`: the nets in an order, or one that depends on itself.
//! - `cycle`: N5; the least net on a cycle, by strongly connected components.
//! - `role`: N6; the first part that the netlist lacks, or the register file or the mode of its
//!   edition.
//! - `control`: N7 to N9, on the nets in control places, and N14, on the addresses of a file.
//! - `rules`: the rules in their order, and `check`.
//! - `fixing`: the netlist of a mode, and how many modes there are.
//! - `modes`: `check_modes`.
//! - `specs/Inner/`: `Walk`, `Components`, `Graphs`, `Roles` and `Control`, which go with the
//!   loops. Public contracts cite no file here, since the rules are `net_model/specs/CheckedRules`
//!   and `NetFaults`; `specs/Worked` has small netlists.
//! - `proofs/`: `Walks`, `Steps`, `Ends` for the walk, `Meets`, `Joins`, `Closes`, `Marks`,
//!   `SearchEnds` for the search, `Broken` and `Lacks` for the other rules.
#![tactic(auto)]

mod control;
mod cycle;
mod fixing;
mod graph;
mod modes;
mod role;
mod rules;
mod stack;
mod walk;

pub use modes::check_modes;
pub use rules::check;

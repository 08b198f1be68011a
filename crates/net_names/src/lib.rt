//! What the names of a netlist text stand for: items, the ports of a module, and what is bound to
//! them.
//!
//! Promise: `Names::place` and `item` give the first item of a name (`place_named`, `item_named`),
//! `Ports::input` and `output` the first port of a direction and a name (`port_named`), and
//! `Bindings::bound` what is bound to a name first (`bound`). Contracts see each of these as the
//! list that it was made of. `Table::enter` gives a name a place, if it has none yet.
//!
//! Invariant: a table holds for each name of its list the first place of it, and nothing for other
//! names (`HasPlaces`, `HasPortPlaces`); `Ports` keeps the list of the inputs beside.
//!
//! Files:
//!
//! - `table`: `SymbolTable`, from names to the places where they stand first.
//! - `names`: the items of a text by their names.
//! - `ports`: the ports of a module by their names, each direction for itself.
//! - `bindings`: the links of a part and the equations of a module by their names.
//! - `specs/`: of `Places` public contracts cite how a table is seen and grows and which ports are
//!   inputs; the rest says what the three tables keep. What names stand for is
//!   `net_model/specs/TextNames`.
//! - `proofs/`: `Tables` and `PortTables`: tables with one more name.
#![tactic(auto)]

mod bindings;
mod names;
mod ports;
mod table;

pub use bindings::Bindings;
pub use names::{Names, name_of};
pub use ports::Ports;
pub use table::SymbolTable;

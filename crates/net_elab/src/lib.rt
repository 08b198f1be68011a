//! Netlist texts, elaborated: the netlist that the items of a text say.
//!
//! Promise: `elaborate` gives, for a text whose items keep N1 to N4 and N11 (`IsElaborable`, and
//! `IsFewIn` for the limits that its edition asks for), exactly the netlist that it says, of its
//! edition, net by net, modules and parts included (`exact`: `netlist_of`), and that netlist keeps
//! these rules said of a netlist alone (`formed`: `IsWellFormed`).
//!
//! Invariant: nets are numbered before any is made (`IsNumbered`), so that a name may stand for a
//! net that comes later. What is emitted for an expression stands at the end of the list of nets,
//! inner nets first, as many as were counted for it (`specs/Inner/Emissions`).
//!
//! Files:
//!
//! - `declared`: `Declared`, items that keep the rules, with the places of their names.
//! - `count`: how many nets an expression and a part give.
//! - `numbers`: the last net of each item, its storage, and the wires of its ports, for the whole
//!   text.
//! - `modes`: the register that is the mode of a text, or the file that is its bank.
//! - `site`: what names stand for where an expression stands: among the items, or in a part.
//! - `expression`, `part`, `item`: the nets of expressions, of the parts of modules, and of items.
//! - `whole`: `elaborate`, item by item.
//! - `specs/Inner/`: `Emissions`, `Found` and `Sites`, which go with what is emitted and found.
//!   Public contracts cite no file here, since the netlist of a text is defined in
//!   `net_model/specs/Elaborated`.
//! - `proofs/`: `Emits`, `Parts` and `Drivers` for what the parts of an expression, a part and a
//!   bus give together, `Scans` and `Standing` for numbers, `Formed`, `Kept`, `Sounds` and
//!   `LoneMode` for the rules.
#![tactic(auto)]

mod count;
mod declared;
mod expression;
mod item;
mod modes;
mod numbers;
mod part;
mod site;
mod whole;

pub use whole::elaborate;

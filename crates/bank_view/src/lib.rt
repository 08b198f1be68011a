//! The view of a netlist that has a bank: one memory in place of two.
//!
//! Promise: `view` gives the view exactly (`view_of`): each net of the netlist, with its new number
//! and the nets that an access needs before it, and in the places of the two items the nets that
//! join their writes. `law_of_views`: nets have the same values there, a word that writes both
//! memories clashes, and under every other word the view's clock is the netlist's on the joined
//! cells (`values`, `both`, `one`). `law_of_rules`: the view keeps the rules that the netlist keeps.
//!
//! Files:
//!
//! - `ports`: what feeds the memory and the bank, and where they stand among the storages.
//! - `slot`: what nets of the view are there for, one after the other.
//! - `views`: `view`: the numbers of nets and storages there, gates, nets, storages and codes.
//! - `laws`: the two laws above.
//! - `specs/`: `Banks`, `Views`, `Clocks`, `Keeping` are cited publicly; `Worked` is computed.
//!   `Inner/Numbers`: what the code's numbers are.
//! - `proofs/`: `Places`: where the nets of each slot stand; `Beside`, `Arrays`: the memory and the
//!   bank among the storages; `Values`, `Clocks`: the law of views; `Starts`: joined states; `Kept`:
//!   roles and limits; `Formed`: names, nets, storages and codes; `Sorted`, `Ranks`: an order;
//!   `Flagged`: control; `Ruled`: the law of rules; `Numbers`: the code's numbers.
#![tactic(auto)]

mod laws;
mod ports;
mod slot;
mod views;

pub use laws::{law_of_rules, law_of_views};
pub use views::view;

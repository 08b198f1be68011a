//! Where the words of a program's code stand: its branch and jump words, the addresses that they go
//! to, and its marks.
//!
//! Promise: `lay_out` gives the words and marks of an `Outline`, a flow whose blocks have so many
//! words each, exactly (`laid`: `IsLaid`), or tells that the bound is beyond the reach of jumps, and then that
//! the words are more than there is room for (`refused`: `IsLayFault`). `bound` gives the bound of
//! a flow (`bound_of`). The laws: an image whose words stand for a flow's parts traces the program
//! (`law_of_layouts`: `IsMade`), the rounds settle on one list of parts (`law_of_parts`), the bound
//! is the program's own (`law_of_bounds`), and target bits lead to their targets
//! (`law_of_targets`).
//!
//! Invariant: a part stands for each place of the flow, so places and parts have one numbering. A
//! branch that became three words stays so, hence the number of long tests rises in each round but
//! the last, and the rounds end; whatever they made long, the words are at most the bound.
//!
//! Files:
//!
//! - `outline`: what is laid out.
//! - `part`: what stands at the places of a flow.
//! - `begun`: which places begin a block.
//! - `cut`: the parts of an outline's flow.
//! - `rooms`: the words of parts, and their addresses.
//! - `widen`: the rounds: relative branches that don't show their distance become three words.
//! - `jumps`, `laid`, `items`: jump and branch words, and the words of all parts.
//! - `marks`: the marks of parts.
//! - `bounds`: the most words that a program has.
//! - `fault`, `layout`: why code was not laid out, and `lay_out`.
//! - `laws`: the laws above.
//! - `specs/`, cited by public contracts here and in `right_code`: `Parts` (what stands at the places
//!   of a flow, with addresses), `Rounds`, `Items` (the words), `Bounds`, `Costs` (of blocks),
//!   `Marked`, `Laid` (what `lay_out` answers), `Made` (words that stand for parts), `Entered`;
//!   `Worked` is computed. `specs/Inner/`: `Flowing`, for proofs.
//! - `proofs/`: `Placing` carries the law of layouts, `Layouts` and `Laying` the call, `Rounds`,
//!   `Costs`, `Settings` the other laws.
#![tactic(auto)]

mod begun;
mod bounds;
mod cut;
mod fault;
mod items;
mod jumps;
mod laid;
mod laws;
mod layout;
mod marks;
mod outline;
mod part;
mod rooms;
mod widen;

pub use begun::{continues, entered};
pub use bounds::bound;
pub use fault::LayFault;
pub use laid::{Item, Laid};
pub use laws::{law_of_bounds, law_of_layouts, law_of_parts, law_of_targets};
pub use layout::lay_out;
pub use outline::{Branch, Outline};

//! Rounds of laws: the laws of equal trees, applied to a table of classes until nothing changes or
//! the table is full.
//!
//! Promise: none but safety, and that the table stays one over cells of as many bits. What the rounds
//! owe beside, `tree_laws` promises of every table: classes are joined only where all their trees are
//! equal, so a caller may ask a table that was joined whatever it asks one that wasn't. That two equal
//! trees come into one class isn't promised.
//!
//! A round looks for each side of each law in the table, lists the other side there, and joins both.
//! What a law may bring is a caller's choice (`Gate`): all operators, or those that it can use. Between
//! rounds a caller may list further nodes for the laws to begin with.
//!
//! Files:
//!
//! - `kinds`: the operators of nodes.
//! - `gate`: which laws are wanted.
//! - `index`: the nodes of each class.
//! - `matching`: where a side of a law stands in a table.
//! - `rounds`: the rounds.
#![tactic(auto)]

mod gate;
mod index;
mod kinds;
mod matching;
mod rounds;

pub use gate::{Brings, Gate};
pub use index::{Graph, Index, Member};
pub use kinds::Kind;
pub use rounds::{Extent, Rounds};

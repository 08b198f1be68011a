//! The least costs of covers: how many forms the cheapest cover of a tree has.
//!
//! Promise: `least_cost` gives the least cost of the orderly covers of a tree, and None exactly
//! where it has none (`IsLeastCost`). `made_parts` tells of each subtree whether it can come into
//! some register, the file or a temporary cell (`AreMade`), and `part_destination` where a form
//! puts a part of a tree. The methods of `Search` give the least costs from which `cover` chooses:
//! of a tree for an entry of its row (`IsLeast`), of operands over their orders (`IsLeastOrder`)
//! and of cuts (`IsLeastCut`), each under limits.
//!
//! Invariant: `AreRight` in `specs/Tables`. A `Search` says what is looked for and stays as it is;
//! what is found stands in a `CostTable`. A subtree is looked up by the least number of an equal
//! one (`tree_sharing`), so that equal subtrees have their rows in common. Each row that the table
//! keeps under the number of a subtree is right, for whether the subtree is whole and for *limits*,
//! the registers to avoid and the cells of the file that are allowed: for each register, for the
//! file and for a temporary cell it has the least cost of the covers that write none of these
//! registers and need no more cells. An operand behind one whose home is in the file is allowed one
//! cell less, and a cut the whole file. Each list of matches has all forms that match its subtree,
//! in their order. A row is kept only once it is closed under the forms that go on from another
//! entry of the same row, *chain rules*. Each register has an entry and a bit in a set: those that
//! forms go to and name are below 16 (`Forms`), and so are those of the operands that matches leave
//! open. Without a file no cell is allowed in any limits, and the table is one of registers alone.
//!
//! No cost passes 64 bits, so costs are added without a test. A tree of n subtrees that has a cover
//! has one of at most 36 n forms (`FewLemmas`): in the row of each subtree chain rules lead through
//! 18 entries at most, and where the subtree is a cut as a whole, so they do in a second row. There
//! are so few subtrees (`AreFew`), since one block of memory has a list of rows for each of them.
//! While a row is closed, an entry that has no cost gets one that is 1 more than another's
//! (`IsRoomy`).
//!
//! Files:
//!
//! - `search`: what covers are looked for.
//! - `costs`: sums and comparisons of costs.
//! - `opened`: the operands and the cuts that a match leaves open, with the numbers of their trees.
//! - `parts`: these among a match's parts.
//! - `limits`: what a cover has to keep to.
//! - `slots`: an entry of a row, for a register, the file or a temporary cell, and its place there.
//! - `rows`: a row of least costs, and its closure under chain rules.
//! - `matches`: the forms that match a subtree, with what their matches leave open, once for all
//!   limits.
//! - `table`: the rows and the lists of matches that were found, each in a list under the number of
//!   its subtree.
//! - `least`: least costs of a tree, of operands over all orders, and of cuts, and the *floor* of
//!   operands, which no order costs less than: orders are gone through only where it can make an
//!   entry less, and only up to one that costs no more.
//! - `fits`: the forms that begin a cover of what is asked for, and the first of those that begin one
//!   of least cost.
//! - `made`: `least_cost`, `made_parts`, and where a form puts a part of a tree.
//! - `specs/`, cited by public contracts: `Made` for the three functions, and what the search's
//!   methods say, with `Subgoals`, `Least`, `Slots` and `Rows` at the head. `specs/Inner/Made`:
//!   which form makes a part.
//! - `proofs/`: named by what they are about; from costs to the promise they go `LeastLemmas`,
//!   `RowLemmas`, `FewLemmas`, `TableLemmas`, `FitLemmas`, `OrderlyLemmas`, `MadeLemmas`.
#![tactic(auto)]

mod costs;
mod fits;
mod least;
mod limits;
mod made;
mod matches;
mod opened;
mod parts;
mod rows;
mod search;
mod slots;
mod table;

pub use costs::form_cost;
pub use fits::{BestFit, Fit, cost_of};
pub use limits::{Limits, after_home, keeps_to};
pub use made::{least_cost, made_parts, part_destination};
pub use matches::{FormMatch, Matches};
pub use opened::{OpenCut, OpenOperand};
pub use parts::without;
pub use search::Search;
pub use slots::{Slot, slot_of};
pub use table::{CostTable, KeptRow};

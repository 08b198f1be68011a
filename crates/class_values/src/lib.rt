//! Values of classes of trees: their numbers, and the classes of what operators make of them.
//!
//! Promise: in one memory, the store over which the trees of a table of `tree_laws` stand, a class has
//! a value (`Holds`), and facts say that classes have numbers there (`AreFacts`). `number` gives the
//! class of a number (`IsNumber`), `unary`, `binary`, `sliced`, `zero_extended` and `sign_extended` that
//! of an operator's value (`IsUn`, `IsBin`, `IsSlice`, `IsZext`, `IsSext`), and `symbol` that of a value
//! that the store has in two cells (`IsSymbol`), as that of a register of which nothing else is known.
//! `number_of` gives the number that a class has wherever the facts hold (`HasNumber`), and `offset_of`
//! a class as a sum with a number (`IsOffset`). `are_same` says yes only where two classes have one
//! value in every memory (`AreSame`). Each call may answer that it doesn't know; that promises nothing.
//! The table only grows (`Grows`), and no class is joined: what holds of a class in one memory, it
//! holds in the table that grew from it.
//!
//! `class_of` gives a node's class, and leaves a table as it is that is full (`IsFull`: it has
//! `MOST_CLASSES` classes), where a node that isn't listed has none. So expressions that grow without
//! end come to be unknown, and `is_full` tells why.
//!
//! A class's number is known by a literal of its class, by a fact, such as the answer of a test, by a
//! fact that says that an equation with a literal holds, or that its negation doesn't, and by the
//! numbers of an operator's operands. Facts hold in some memories alone, so nothing is joined because
//! of one. Operators over classes fold numbers and have one form: operands that may be exchanged stand
//! in one order, and a sum has its terms one behind the other in this order, with the number that they
//! have together last; terms that are multiples of one class are one term, or none where they cancel;
//! a difference is a sum with negatives, a product with a number has each term so many times, a shift
//! by a number is a product, and of an equation with a number the other numbers go to its side. Low
//! bits of operators that act on low bits are the operators over the operands' low bits. So pointers
//! and counters need no laws.
//!
//! Files:
//!
//! - `facts`: what is known of classes' values.
//! - `room`: how many classes a table may have.
//! - `numbers`: classes whose value is a number.
//! - `values`: operators over classes.
//! - `sums`: the one form of operators, and of sums.
//! - `multiples`: classes that are so many times another one.
//! - `products`: the one form of products with numbers, and of shifts by them.
//! - `low`: the one form of low bits.
//! - `offsets`: classes as sums with a number.
//! - `symbols`: what the store has in two cells.
//! - `specs/`, cited by public contracts: `Values` (values and numbers of classes), `Operators` (classes
//!   of operators' values), `Symbols` (values in two cells), `Room`. `specs/Inner/`: `Numbers` (of
//!   listed nodes, and by facts), `Sums`, `Limbs` (single cells).
//! - `proofs/`: `Grown` and `Keeping` carry values over to tables that grew; `Made`, `Numbering`,
//!   `Summing`, `Multiplying`, `LowBits`, `Offsetting`, `Symbolic` for classes of values.
#![tactic(auto)]

mod facts;
mod low;
mod multiples;
mod numbers;
mod offsets;
mod products;
mod room;
mod sums;
mod symbols;
mod values;

pub use facts::Fact;
pub use numbers::{are_same, number, number_of};
pub use offsets::{Offset, offset_of};
pub use room::{MOST_CLASSES, class_of, is_full};
pub use symbols::symbol;
pub use values::{binary, sign_extended, sliced, unary, zero_extended};

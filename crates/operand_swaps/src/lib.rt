//! The operators of a transfer whose operands can change places, and the transfers with some of
//! them swapped.
//!
//! Promise: `swap_count` says how many operators of an address and a value are swapped, of at most
//! eight (`count`), and `swap_sides` swaps exactly those whose bit is set in a choice, those of the
//! address before those of the value (`swapped`). No choice changes the width or the meaning of
//! either (`law_of_swaps`: `SwapsChangeNothing`).
//!
//! Invariant: an operator goes by its path from the root, in the order of levels; a swap moves the
//! operators below it, so the code swaps the lowest level first. The sum of a field shape stays as
//! it is: its constant stands where it stands.
//!
//! Files:
//!
//! - `swaps`: the operators of an expression level by level, their count, and the swaps.
//! - `laws`: the law above.
//! - `specs/`, cited by public contracts: `Swaps`, `Sides` and `Laws`; `Worked` is computed.
//!   `specs/Inner/LevelSwaps` goes with the code.
//! - `proofs/`: `SumSwaps` for sums that are shapes, `Swapping` for swaps level by level,
//!   `SwapLaws` for the law.
#![tactic(auto)]

mod laws;
mod swaps;

pub use laws::law_of_swaps;
pub use swaps::{Sides, swap_count, swap_sides};

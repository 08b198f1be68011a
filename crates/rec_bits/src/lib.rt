//! Numbers of 1 to 64 bits with their operators, ranges, lists and names: what every crate of
//! `record` stands on.
//!
//! Promise: `apply1`, `apply2`, `slice`, `cat` and `sext` give exactly the values that
//! `specs/Operators` defines, for operands that fit their widths. `range_add`, `range_sub` and
//! `range_mul` give the range of all sums, differences and products, or None where an end of it
//! lies outside -2^64 to 2^64. `lesser_offset` and `offset_if` give the least of offsets. Contracts see an
//! `Items` as the list of its items; a refused `push` leaves it as it was.
//!
//! Files:
//!
//! - `fault`: `NoMemory`, which is want of memory alone, and `ParseFault`, which has an offset too.
//! - `list`: `Items`, made from a `Vec` and given back as one, and `Name`, the bytes of a name.
//! - `operator`: the operators of one and of two operands, and parts, joins and extensions of
//!   values.
//! - `ranges`: ranges of whole numbers.
//! - `least`: the lesser of two offsets that may be absent, by which the first fault of a rule is
//!   found.
//! - `specs/`: `Operators`, `Ranges`, `Faults` and `Counts` are cited by public contracts, here and
//!   above; `Worked` has operators and ranges at worked values, computed.
//! - `proofs/`: laws of these that many crates use: ends of ranges, widths of results, masks, lists
//!   that grow, and tests of two parts.
#![tactic(auto)]

mod fault;
mod least;
mod list;
mod operator;
mod ranges;

pub use fault::{NoMemory, ParseFault};
pub use least::{lesser_offset, offset_if};
pub use list::{Items, Name};
pub use operator::{
    Op1, Op2, apply1, apply2, cat, mask, result_width, sext, slice, written_result_width,
};
pub use ranges::{Range, range_add, range_mul, range_sub};

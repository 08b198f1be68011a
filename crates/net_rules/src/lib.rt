//! The rules of netlist texts that are looked at before a netlist is made: N1 to N4 and N11.
//!
//! Promise: `first_fault` gives the first of N1, N2, N3, N4 and N11 that the items break, with the
//! least offset at which it is broken or with its numbers, and None where they keep them all
//! (`first_fault` of `net_model/specs/TextRules`).
//!
//! Invariant: a `Text` has the ports of each item of its names, found by their names. Each rule is
//! a scan that keeps the least offset found so far. Counts stop at 2^64 - 1. A rule may take for
//! granted that those before it are kept, as `fault` asks them in order.
//!
//! Files:
//!
//! - `fault`: the rules in their order.
//! - `text`: tables of names, and `Place`, which tells where an expression stands: among the items,
//!   or in a module.
//! - `duplicates`: N1, names that stand for two things.
//! - `unknowns`: N2, names that stand for nothing in their place.
//! - `widths`: N3; the width of an expression, or None where the rule is broken in it.
//! - `numbers`, `cases`: numbers that are all different; N4 in cases.
//! - `drivers`: N4 in items: inputs and outputs without an expression, or with two.
//! - `count`: how many nets the items give.
//! - `limits`: N11, by these counts and the limits of the text's edition.
//! - `specs/Inner/`: `Scans`, `Scopes`, `Modules`, `Widths`, `Cases` and `Counts`, which go with
//!   the scans. Public contracts cite no file here, since the rules stand in `net_model/specs`.
//! - `proofs/`: `Faults` for the order of the rules, `Scans` for one item further, and for the rest
//!   what the scans look at: `Texts`, `Rows`, `RowNumbers`, `Inputs`, `Bits`, `Counts`.
#![tactic(auto)]

mod cases;
mod count;
mod drivers;
mod duplicates;
mod fault;
mod limits;
mod numbers;
mod text;
mod unknowns;
mod widths;

pub use fault::first_fault;

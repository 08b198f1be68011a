//! Whether the words between two marks do what a path of the program's flow does.
//!
//! Promise: `Segment::way` says where the words lead that stand behind a mark of a test. They take so
//! many clocks (`Way::Takes`): from each state at the mark that is related to the program's cells,
//! where the test has the answer and the program can do the path's jobs and compute the test behind
//! them, just so many lead past no mark to that of an address, with the path's label, where all is
//! related again. Or no such state has the answer (`Way::Never`). That is `IsWay`; a segment in
//! `follow`'s sense is a part of it. `Segment::first_way` says the same of the first word, where all
//! variables stand in their places (`IsFirstWay`). `Way::Unknown` promises nothing: it says how far
//! the check came, and which equation of a hint failed, so that a caller can leave it out and ask
//! again.
//!
//! A `Segment` is what is asked: where it starts (`Start`: the machine's code, the mark and its test's
//! answer), the hints of the marks, the jobs of the program, and the path. `IsAskedOf` says of which
//! image, program and path it is one; it asks for a netlist without a mode register. A `Hint` says what
//! a relation says of a mark, in ids and trees (`IsHintOf`).
//!
//! What is known at the mark (`Run`: the machine's state and the program's cells, both by classes of
//! trees over the mark's store) is led on twice: by the jobs of the path on the program's side, and word
//! by word on the machine's. At the mark that is reached, places and views, holdings and numbers are
//! compared by their classes. The path goes first, since its trees and those of the test at its end list
//! the addresses of arrays that the words may use. An answer that the relation rules out takes no clock.
//!
//! Where two classes aren't seen to have one value, the laws of equal trees are asked (`law_rounds`):
//! for an equation at the mark that is reached, and, where it isn't seen which word comes next, for
//! whether a test of the words is one whose answer is known, or its negation. The trees of both are
//! listed in a table of their own, so nothing is joined in the segment's, and what is seen without laws
//! asks for none. `rounds` and `stands` bound the rounds, the classes and the tests.
//!
//! Files:
//!
//! - `run`: what is asked.
//! - `path`: the program's jobs, and the test at the path's end.
//! - `arrive`: whether all is as a hint says.
//! - `rounds`: classes that have one value by laws.
//! - `branches`: tests of the words that have an answer by laws.
//! - `way`: what is found.
//! - `stands`: both calls.
//! - `specs/`, cited by public contracts: `Asked` (which segment it is), `Timed` (ways and their
//!   clocks); `Runs` (what is known on the way), `Copied` (classes with the values of another table's),
//!   `Proved` (segments in the words of hints).
//! - `proofs/`: `Copying` for classes of another table, `Putting` for jobs, `Agreement` for the mark
//!   that is reached, `Leading` from one to the other, and `Bridge` to the words of `follow`.
#![tactic(auto)]

mod arrive;
mod branches;
mod path;
mod rounds;
mod run;
mod stands;
mod way;

pub use run::Segment;
pub use way::{Equation, Way, Why};

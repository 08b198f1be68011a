//! The words of a line of an assembler text, and the line of a word.
//!
//! Promise: `words` gives all words of a line (`words`: `IsWordOfLine`). A raw line has its one
//! word; any other has the words without clash that give each named storage its transfer, let every
//! other storage keep, and have each item's bits (`DoesLine`). `line_of` gives the line of a word
//! (`IsLineOf`): the word itself where it clashes, and otherwise all transfers that it gives, in
//! order of their numbers, with one item for each slice of the instruction word in them, in the
//! order of first occurrence. `law_of_lines`: a word is one of the words of its line.
//! `law_of_clocks`: each word of a word's line has the clock of that word, in every state.
//!
//! The calls know no netlist: what they promise holds for every netlist of which the table of
//! patterns is ready (`IsReady`).
//!
//! Files:
//!
//! - `asking`: the words of a line: the sets that hold them and the values of their bits, and
//!   `words`.
//! - `slices`: a slice of the instruction word.
//! - `showing`: the patterns that a word gives, the slices in their transfers, and `line_of`.
//! - `laws`: the two laws.
//! - `specs/`: `Asked` (the words of a line), `Slices` (slices of transfers, each once), `Shown`
//!   (the line of a word), `Tables` (what the calls ask of a table), `Laws`, and `Worked`, lines of
//!   a small processor with words that are theirs and words that aren't. `specs/Inner/`: `Wanted`
//!   and `Given`, which go with `asking` and `showing`.
//! - `proofs/`: `Held`, `Told`, `Bits`: the sets and values that are wanted hold a word exactly
//!   where it does the line. `Found`, `Fitting`, `Numbered`: what is found of a word is its line.
//!   `Alike`, `Naming`, `Clocked`: words that are alike in the slices of a line have one clock.
#![tactic(auto)]

mod asking;
mod laws;
mod showing;
mod slices;

pub use asking::words;
pub use laws::{law_of_clocks, law_of_lines};
pub use showing::line_of;
pub use slices::Slice;

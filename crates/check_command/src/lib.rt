//! The check of an image: from the texts of a netlist, a program and an image with views to the clocks
//! of its words, where it is right code.
//!
//! Promise: `check` gives a text only where the image of the third bytes is right code by its views
//! for the program of the second on the netlist of the first, however it was made (`checked`:
//! `IsChecked`). The text has the image's views and what it hides, which is what a reader has to
//! trust, and the exact clocks from mark to mark (`report_text`, by `HasPassed`). Each refusal but one
//! comes exactly where it is the first that applies (`refused`: `IsCheckStop`): texts that are none,
//! and then the first rule of images that is broken (`IsRuleFault`). `Follow` comes where an image keeps
//! all rules and it isn't shown that its words follow the program; it says nothing of the image. A
//! netlist with a mode register or a bank is refused (`checked_edition`).
//!
//! What the check finds is proved by `followed`; hints of the image's text (`hold`, `know`) only help
//! it, and no clause speaks of them. So what makes hints, and what tells why words don't follow,
//! promises nothing but safety.
//!
//! Files:
//!
//! - `fault`: why an image isn't accepted, and what the fault of a part is told as.
//! - `places`, `modest`, `views`, `end_word`, `rules`: the first rule that is broken.
//! - `interning`, `trees`, `hints`: what the text says beside, as the check asks for it.
//! - `causes`: what is told of words that don't follow.
//! - `report`: what is written.
//! - `checking`: all together, `check`.
//! - `specs/`, cited by public contracts: `Tasks` (what three texts say together), `Places`, `Views`
//!   (a view does no work: eight nodes at most, and operators of the netlist; `WorkedViews`),
//!   `EndWords`, `Rules`, `Reports`, `Checked`. `specs/Inner/`: `Faults`, `Moves`, `Marked`,
//!   `Ascending`, `Stops`, `Readings`, which go with the functions here.
//! - `proofs/`: `PlaceLemmas`, `ViewLemmas`, `EndLemmas` and `RuleLemmas` for the rules of images;
//!   `PartLaws`: remarks that fit say views; `Ordered`: these go up the addresses; `ReadLemmas`: from
//!   what was read of each text to all three; `Telling` for the report's lines of views; `CheckLaws`:
//!   the answers on three texts exclude each other.
#![tactic(auto)]

mod causes;
mod checking;
mod end_word;
mod fault;
mod hints;
mod interning;
mod modest;
mod places;
mod report;
mod rules;
mod trees;
mod views;

pub use checking::check;
pub use fault::{Cause, CheckFault, CheckStop, Origin, RuleFault};

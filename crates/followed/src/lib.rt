//! Whether an image with views, however it was made, is right code for a program.
//!
//! Promise: where `passes` gives the ways of an image's words, the image is right code for the program
//! by its views, and from each state at a mark that is related to the program's cells the words take
//! just so many clocks to the next (`HasPassed`). So it is for each image that fits the netlist, as the
//! reader of image texts gives it, whatever the views, the hints and the pool are. A fault says how far
//! the check came, and nothing of the image: it may be right all the same.
//!
//! Hints are checked, and never made: who asks gives one for each mark, with what it says of registers
//! and temporary cells there. Their relation (`relation_at`) is what all is proved by; no clause of
//! right code speaks of it. An equation that fails is told, so that a caller can leave it out and ask
//! again.
//!
//! Files:
//!
//! - `claim`, `passed`, `fault`: what is asked, what is found, and why nothing is.
//! - `checks`: `passes`, from `follow`'s law.
//! - `laid`, `plain`: whether variables stand at the image's places, and whether views are plain.
//! - `whole`: from the words and the hints to the segments.
//! - `code`: what words do, for a symbolic run, and whether a word goes to itself.
//! - `later`: the marks and views from an address on, for walks that go up the addresses.
//! - `said`: whether hints are of the image's marks, with the views there and what is hidden.
//! - `front`: the ways from the first word, and from each mark for each answer of its test.
//! - `specs/`: `Passing` (the promise), `Turned` (ways), `Said` (hints as relations). `specs/Inner/`:
//!   `Ascending` (hints and views in order), `Hinted` (hints of marks), `Led` (segments that are ready, and their ways), `Coded` (words),
//!   `Memories`.
//! - `proofs/`: `Leads` for `front`, `Words` for `code`, `Laying` for `laid`, `Following` on top.
#![tactic(auto)]

mod checks;
mod claim;
mod code;
mod fault;
mod front;
mod laid;
mod later;
mod passed;
mod plain;
mod said;
mod whole;

pub use checks::passes;
pub use claim::Claim;
pub use fault::CheckFault;
pub use laid::addr_width;
pub use passed::{Passed, Turn};

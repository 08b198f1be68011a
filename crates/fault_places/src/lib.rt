//! Where a fault stands in the file that it is told of, for somebody who reads it.
//!
//! Promise: `note` gives the place of an offset with its line, a reason and a caret (`note_text`).
//! Which offset a status tells of, and the reason, are tested only (rows with the line `told`):
//! `spot_of` tells the file and what is known of the place there, `offset_in` the offset in the
//! file's text, `reason_of` the words, and `told_of` puts them together. `FORMS` has the forms of
//! words, one a line.
//!
//! Files:
//!
//! - `spot`: what a status tells of a place, and its offset in a text.
//! - `reason`: what is wrong there, in words.
//! - `notes`: the text that is shown.
//! - `told`: what is told of a call: such a text, or the forms of words.
//! - `forms`: the forms of words.
//! - `specs/`: `Notes`, cited by a public contract.
#![tactic(auto)]

mod forms;
mod notes;
mod reason;
mod spot;
mod told;

pub use forms::FORMS;
pub use notes::note;
pub use reason::reason_of;
pub use spot::{FaultPlace, offset_in, spot_of};
pub use told::told_of;

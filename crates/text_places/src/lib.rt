//! Lines and columns of a text's bytes.
//!
//! Promise: `place_of` gives the line and the column of an offset (`line`: `line_at`, `column`:
//! `column_at`), `line_around` the line that it stands in (`line_around`), and `line_before` what
//! stands in that line before it (`last_line`). All are exact, for every text and offset, and take no
//! memory.
//!
//! Files:
//!
//! - `places`: the three calls.
//! - `specs/`: `Places`, cited by the public contracts; `Worked` is computed.
//! - `proofs/`: `LineLemmas`: a line is a part of the text.
#![tactic(auto)]

mod places;

pub use places::{TextPlace, line_around, line_before, place_of};

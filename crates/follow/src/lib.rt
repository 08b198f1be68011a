//! When an image, however it was made, follows a program, and the law that it then is right code.
//!
//! Promise: `law_of_followed`: an image with views that passes the check (`PassesCheck`: all its
//! marks follow the program, `IsFollowed`) is right code for the program, each variable seen through
//! its view or in its place where it isn't hidden (`IsRightByViews`). With nothing hidden every
//! variable is seen at every mark (`law_of_none_hidden`). From a place of a flow there is one path to
//! the next test (`law_of_paths`), which `trail_from` finds (`law_of_trails`). Elements of an array
//! are cells of nothing else (`law_of_elements`). `has_marks_of` decides whether an image has the
//! marks of a flow, and `mark_fault` tells what is wrong with them first (`IsMarkFault`). This crate
//! says what a check has to find at each mark by itself, and what follows from that for whole runs;
//! the crates above find it. For them it reads an image: `label_at` gives the label of an address,
//! which `marks_from` leaves where it drops marks below, and `places_of` the places that a program is
//! lowered for.
//!
//! Files:
//!
//! - `laws`: the laws above.
//! - `trail`: paths by the numbers of their jobs, found.
//! - `places`: the places of an image.
//! - `marks`: the labels of marks, and whether they are those of a flow.
//! - `mark_faults`: what is wrong with marks, first.
//! - `specs/`, cited by public contracts: `RightByViews` (the promise), `Paths` (from a place of a
//!   flow to the next test), `Safe` (addresses of jobs), `Relations` (what relates states to cells),
//!   `Followed` (what has to be found at each mark), `Checked` (all that has to be found), `Trails`,
//!   `MarkFaults`, `Later` (marks from an address on).
//!   `Worked` is computed. `specs/Inner/`: `Marked`, which goes with the marks.
//! - `proofs/`: `Whole` on top; `Safety` for the addresses of a program's jobs, `Passing` for what a
//!   program passes, path by path, `Crossing` from paths to clocks, `Showing` for what is shown at
//!   marks; `OnePath`, `TrailLemmas`, `MarkLemmas`, `Apart`, `Unhidden` for the other laws and the
//!   code. `WorkedRight`, `WorkedHidden` and `WorkedHeld` prove small images right from nothing but
//!   the definitions (`WorkedLoop` has what they share, `WorkedClocks` and `WorkedStates` their
//!   clocks), and one that isn't.
#![tactic(auto)]

mod laws;
mod mark_faults;
mod marks;
mod places;
mod trail;

pub use laws::{law_of_elements, law_of_followed, law_of_none_hidden, law_of_paths};
pub use mark_faults::{MarkFault, mark_fault};
pub use marks::{has_marks_of, label_at, marks_from};
pub use places::places_of;
pub use trail::{Trail, law_of_trails, trail_from};

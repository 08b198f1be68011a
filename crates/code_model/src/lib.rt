//! Images of code, and in `specs/` what a netlist that is clocked on one shows and when it is
//! right.
//!
//! Promise: `words_of` and `Limits::of` give what `specs/` defines: the instruction words of an
//! image, and the bits and the greatest number of words of a netlist's code. All else here is
//! definitions: an image is right code where it `IsLaidOut` and `TracesRight`, which says of every
//! start state in mode 0 and every m that the clocked netlist shows the first m checkpoints of a
//! source, in time, without a clash and each in mode 0, and that from the end on no clock clashes
//! and the variables' cells and the mode stay. A netlist without a mode register is always in mode
//! 0. Beside an image may stand views, which say where variables are at its marks, and variables
//! that are hidden there; with neither, what is shown is what the places hold (`law_of_no_views`).
//!
//! Files:
//!
//! - `image`: an image: words with the patterns that are wanted of them, places, costs and marks.
//! - `limits`: what an image has to keep to for a netlist.
//! - `views`: an image with views of its variables at the marks, some of which may be hidden there.
//! - `laws`: the law of images without views.
//! - `specs/`, cited by public contracts in the crates above: `Places` and `Layout` (words, labels,
//!   and where variables stand), `Machine` (what is seen at marks), `Right` (right code), `Views`
//!   (what is seen through views, and what is hidden), `ImageText`, `ImageFits` and `ImageLines`
//!   (the text of an image, and which bytes are one), `Words` (words that jump), `Flow` (states that
//!   are reached without a mark on the way, and clocks between states in mode 0). The source is a
//!   parameter of `Right`: the trace of the language stands in `src_model`. `WorkedViews` is
//!   computed.
//! - `specs/Inner/`: `Flow`, whose `Follows` carries a proof from state to state, and what holds of
//!   each state at a mark.
//! - `proofs/`: `Tracing`, `Heads`, `Flowing` and `Traces` from `Follows` to traces, `Marks` for the
//!   states at marks; `Fixed`, `Stores`; `Masking` and `Unviewed` for what is hidden and for what
//!   has no view.
#![tactic(auto)]

mod image;
mod laws;
mod limits;
mod views;

pub use image::{Image, Mark, Place, Places, Word, words_of};
pub use laws::law_of_no_views;
pub use limits::Limits;
pub use views::{Hidden, View, Viewed};

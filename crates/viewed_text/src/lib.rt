//! The texts of images behind which remarks may stand: which variables are hidden, where variables are
//! at marks, and what else is known there.
//!
//! Promise: `read` takes bytes just where they are an image's text with remarks that fit the image,
//! behind which a second `done` stands, or without any (`IsRemarkedText`), as that image and those
//! remarks alone; and otherwise tells the first line with which no such text can go on
//! (`IsRemarkedRefusal`). `read_image` gives the image alone.
//!
//! Invariant: the first line `done` parts the text: what stands before it and the line itself is an
//! image's text, since no other line of one is `done`; and no remark is.
//!
//! Files:
//!
//! - `parting`: a text up to its first `done`, and the rest.
//! - `behind`: the remarks behind that.
//! - `reading`: `read` and `read_image`.
//! - `specs/`: `Texts`, cited by the public contract. `specs/Inner/`: `Behind`, which goes line by line
//!   as the code does.
//! - `proofs/`: `Lines` for texts of whole lines, `Dones` for the place of `done` among the lines of an
//!   image, `Remarks` for the lines behind it, `FirstDone` and `Going` for the loops, `Whole` for all of
//!   a text; `Once` (one image, one fault) and `Same` (by which parts of a netlist) for callers.
#![tactic(auto)]

mod behind;
mod parting;
mod reading;

pub use reading::{Remarked, read, read_image};

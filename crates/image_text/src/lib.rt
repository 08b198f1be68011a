//! The texts of images.
//!
//! Promise: `write` gives the text of an image (`image_text` of `code_model/specs/ImageText`).
//! `read` takes bytes just where they are what is written of an image that fits the netlist's code,
//! as that image alone (`found`, `only`: `IsImageText`), and otherwise tells the first line with
//! which no such text can go on (`refused`: `IsImageRefusal`). `law_of_again`: what is written of an
//! image that fits is read as that image.
//!
//! Invariant: a `Front` is what the lines so far say, and is the front of the text of some image
//! that keeps to the limits; parts come in one order, places, costs, marks, words; marks ascend,
//! and words come by their addresses from 0 on.
//!
//! Files:
//!
//! - `writing`: from an image to its text, part by part.
//! - `front`: what is read from the front of a text, and one line more.
//! - `reading`: all lines, and `read`.
//! - `laws`: `law_of_again`.
//! - `specs/Inner/`: `Fronts` and `Lines`, which go with the reading. Public contracts cite no file
//!   here, since texts are defined in `code_model/specs`.
//! - `proofs/`: `Progress`, `Machine` and `Whole` for going over the lines, `Marks`, `Again` for
//!   the law.
#![tactic(auto)]

mod front;
mod laws;
mod reading;
mod writing;

pub use laws::law_of_again;
pub use reading::{read, read_within};
pub use writing::write;

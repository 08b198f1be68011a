//! The lines of image texts, one by one.
//!
//! Promise: `item_of` gives what a line of an image's text says, where a word has so many bytes, or
//! None (`item_of` in `specs/Reading`, which goes step by step as the code does), and `word_in` the
//! word that hexadecimal digits are; `small`, `number_before` and `label_of` give numbers and labels,
//! for other lines that have them. That a line which is read says what it is read as, and that a line
//! which says something is read as that, is `proofs/Laws`, by which `image_text` goes.
//!
//! Files:
//!
//! - `item`: what a line may say.
//! - `field`: numbers and words in a line.
//! - `list`: lists of wanted patterns, which ascend.
//! - `reading`: from a line to what it says, by its first word.
//! - `specs/`: `Reading`, cited by the public contract. `specs/Inner/`: `Items`, which says the
//!   same from the other side, by the line that is written of each item.
//! - `proofs/`: `Laws` holds the two sides against each other; `Digits`, `Lists`, `Endings` are for
//!   its parts.
#![tactic(auto)]

mod field;
mod item;
mod list;
mod reading;

pub use field::{label_of, number_before, small, word_in};
pub use item::Item;
pub use reading::item_of;

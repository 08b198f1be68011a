//! Texts of lines: their lines, and what stands in one between spaces.
//!
//! Promise: `first_line` splits a text behind its first LF (`IsFirstLine`), `cut` at the first byte
//! of a kind (`parts_at`), and `line_end` gives what stands before an LF that is last. `number`
//! gives the number below 2^64 that digits without leading zeros write, `is_name` tells names, and
//! `bytes_of` how many bytes a word of so many bits fills. All are exact, and none takes memory.
//!
//! Files:
//!
//! - `line`: the first line of a text and what follows it.
//! - `field`: what stands in a line: parts, numbers and names.
//! - `digits`: the bytes of a word.
//! - `specs/`: `Lines`, `Fields` and `Digits` (the hexadecimal digits of a word) are cited by public
//!   contracts, here and in the crates of texts.
//! - `proofs/`: `Parts` and `Ends` for cutting, `Numbers` and `Values` for numbers as they are
//!   written, `Joined` and `Steps` for callers that go over lines.
#![tactic(auto)]

mod digits;
mod field;
mod line;

pub use digits::bytes_of;
pub use field::{cut, is_name, line_end, number};
pub use line::first_line;

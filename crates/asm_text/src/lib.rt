//! The lines of assembler texts.
//!
//! A line is `raw` and a word in hexadecimal digits, or it is `keep` or transfers joined by ` & `,
//! after which ` with` and items may stand, each behind a space. A transfer is the text of one of a
//! netlist's patterns, and an item is the highest and the lowest of some bits and their value. A
//! line ends with LF, and no two of its transfers are of one storage.
//!
//! Promise: `print` gives the text of lines (`lines_text`). `lines` takes bytes just where their
//! lines are what is written of lines that fit, of which there are no more than the code has words
//! (`read`: `IsAsmText`), and otherwise tells the first line that isn't of the form or stands past
//! the code's size (`refused`: `IsAsmFault`). Bytes say one line at most (`only` of `line_of`), also
//! where a register is called `with`, `raw` or `keep`: a transfer's text has exactly two spaces
//! (`IsTransferText`), and no two texts are equal, so lines are read from the left without choice.
//! The time of reading grows in proportion to the bytes: one table has the texts, and another the
//! storages that a line names so far.
//!
//! Invariant: the table of `Transfers` has the text of each pattern, with the number of a pattern
//! that has it.
//!
//! Files:
//!
//! - `line`: what a line says.
//! - `writing`: from lines to their text.
//! - `parts`: what stands behind a text, and words between spaces.
//! - `table`: the texts of transfers, with a table of their numbers.
//! - `transfers`, `apart`: the transfers of a line, and whether they are of different storages.
//! - `item`, `items`: one item, and those of a line.
//! - `reading`: one line.
//! - `texts`: `lines`, line by line.
//! - `specs/`: `Lines` (how a line is written, and when it fits), `Texts` (texts and their faults)
//!   and `Worked`, lines that are computed. `specs/Inner/`: `Reading` and `Numbers`, which go with
//!   the reading.
//! - `proofs/`: `Words`, `Split`, `Fronts` for texts cut at spaces; `Numbered` and `Storages` for
//!   the two tables; `Single`, `ItemLists` for items and `TransferLists` for transfers, which carry
//!   what all that the text says must go on with; `Whole` for a line, `Progress` for all lines.
#![tactic(auto)]

mod apart;
mod item;
mod items;
mod line;
mod parts;
mod reading;
mod table;
mod texts;
mod transfers;
mod writing;

pub use line::{Item, Line};
pub use texts::lines;
pub use writing::print;

//! The texts that `record_rows` prints of netlists, of their forms and of covers.
//!
//! `word_line`: how many nets, storages and patterns a netlist has, how many diagram nodes and
//! expressions stand behind these, and, where instruction words have at most 16 bits, how many
//! words there are, how many of them clash, and for how many what the word does by itself isn't
//! what the patterns tell of it. `form_lines`: the forms of a netlist, each with its pattern's
//! number, its transfer, the mask of its instruction bits and its clobbers. `cover_lines`: for each
//! job of a program the tree that is covered, what the cover costs and how many temporary cells it
//! fills, or that there is no cover.
//!
//! These texts promise nothing but safety and an end, so that what is printed can change without a
//! proof: the rows of `record_rows` say what it is. What a word does by itself is exact
//! (`word_moves`). The program itself extracts by sets of words; the rows hold these against each
//! word by itself.
//!
//! What owns a netlist with its diagrams, its forms or a program lends it to a function that owns
//! none of these, and lets it go before the next `?`: each way out that lets one go is proved by
//! itself.
//!
//! Files:
//!
//! - `fault`: why a row has no text.
//! - `text`: numbers in a text.
//! - `netlist`, `words`: what is counted of a netlist, and its words held one by one against the
//!   patterns.
//! - `expr_text`, `form_text`: expressions and forms.
//! - `cover_text`: the covers of a program's jobs.
//! - `proofs/`: `WordCounts` for `words`.
#![tactic(auto)]

mod cover_text;
mod expr_text;
mod fault;
mod form_text;
mod netlist;
mod text;
mod words;

pub use cover_text::cover_lines;
pub use fault::RowFault;
pub use form_text::form_lines;
pub use netlist::word_line;
pub use text::put;

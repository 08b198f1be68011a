//! Assembler texts of a netlist: from lines to an image of their words, and back.
//!
//! Promise: `assemble` gives the text of the image of the least words of the lines, one for each
//! (`assembled`: `IsAssembled`), or the first refusal that applies, in the order netlist, lines,
//! words (`refused`: `IsAssembleFault`). `disassemble` gives the text of the lines of an image's
//! words (`disassembled`: `IsDisassembled`), or the first refusal (`refused`:
//! `IsDisassembleFault`). What is disassembled is read as the lines that were shown
//! (`law_of_reading`: `ReadsAgain`) and never refused (`law_of_taking`: `IsTaken`), and the words
//! that are assembled of it clock as those of the image do (`law_of_clocks`: `ClocksAlike`).
//!
//! Files:
//!
//! - `fault`: why nothing was assembled, or disassembled.
//! - `texts`: the texts of patterns.
//! - `assembling`: the parts in their order: the netlist with what is extracted from it, the lines,
//!   their least words, the image's text.
//! - `disassembling`: the netlist, the image, the lines of its words, their text.
//! - `laws`: what follows of texts that are disassembled.
//! - `specs/`, cited by public contracts: `Machines` (a netlist with its patterns), `Assembled`,
//!   `Disassembled`, `Laws`. `specs/Inner/`: `Faults` (what the faults of parts are told as) and
//!   `Tables` (what the functions tell one another).
//! - `proofs/`: `TransferTexts`, `PatternTexts`: the texts of a netlist's patterns are transfers',
//!   no two are equal, and each names its storage; `ShownLines`: the line of a word is of the form;
//!   `OneLine`: bytes say one list of lines; `MachineLaws`, `AsmLaws`, `DisLaws`: each answer is
//!   one, and the answers exclude each other; `Tables` and `Read` from what was read to the texts;
//!   `Again` for the laws; `Zips` for lists in step.
//!
//! Netlist texts of the first two editions are taken, those with a register file among them. Those of
//! the later ones are refused: a netlist with modes has words for each mode, and one with a bank has
//! a second data memory.
#![tactic(auto)]

mod assembling;
mod disassembling;
mod fault;
mod laws;
mod texts;

pub use assembling::assemble;
pub use disassembling::disassemble;
pub use fault::{AsmFault, DisFault};
pub use laws::{law_of_clocks, law_of_reading, law_of_taking};

// The newest edition of the netlist texts for which words are assembled.
const EDITION: u8 = 2;

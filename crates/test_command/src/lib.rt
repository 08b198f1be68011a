//! Self-testing: from the text of a netlist to that of its self-test.
//!
//! Promise: `test` gives the text of a self-test that is right for the netlist (`tested`:
//! `IsTested`): its words are those of the candidates that have a cover, one after the other; the
//! run without a fault doesn't clash and leaves the value of each tested candidate's tree in its
//! cell; and the text says of each stuck-at fault what a run of the words shows of it. Or it gives
//! the first refusal that applies (`refused`: `IsTestFault`), in the order netlist, cells, steps,
//! words, evaluations. Packing leaves a choice, so the last two and the text are said of words that
//! are made for the netlist. `law_of_words`: all such words are right, where there are cells and
//! room for them (`MadeIsRight`). `law_of_texts`: the words leave no choice of the text
//! (`WordsHaveOneText`).
//!
//! Counts that stand at the end of their type are told as want of memory.
//!
//! Files:
//!
//! - `fault`: why there is no self-test.
//! - `testing`: the parts in their order: the netlist with what is extracted from it, its forms, the
//!   jobs, their code, the run.
//! - `laws`: what follows of words that are made for a netlist.
//! - `specs/`, cited by public contracts: `Tested` (what the run leaves), `Refusals` (of a netlist),
//!   `Texts` (of bytes), `Laws`. `specs/Inner/`: `Codes` (what the functions tell one another) and
//!   `Faults` (what the faults of parts are told as).
//! - `proofs/`: `Runs`: runs one after the other; `Leaving`: the words of jobs leave what the jobs
//!   leave; `Trees` and `Values`: and these the values of their trees; `Right`: so a self-test that
//!   is made is right; `TestLaws`: each answer is one, and the answers exclude each other.
#![tactic(auto)]

mod fault;
mod laws;
mod testing;

pub use fault::TestFault;
pub use laws::{law_of_texts, law_of_words};
pub use testing::test;

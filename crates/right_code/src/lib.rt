//! When an image is right code for a program on a netlist, and the laws of such code.
//!
//! Promise: `law_of_programs`: an image that is made for a checked task is right code, which traces
//! the program (`IsMadeFor`, `IsRightImage`, `IsChecked`), where the code has room for its words
//! and jumps reach them all (`reach`), as they do where they reach as far as the bound (`bound`).
//! The netlist may have a register file; the code keeps the program's cells in the data memory. It
//! may have modes: such code starts in mode 0 and comes to each mark in it, and a block is cut at
//! the words that put the mode.
//! A task names the places of its variables, its flow and its jobs. The flow is the program's, where
//! some tests may be turned, with their targets exchanged and the opposite trees (`HasJobs`).
//! `law_of_tasks`: a task is checked where the variables stand behind the temporary cells and the
//! flow and the jobs are the program's own (`row_task`), and an image that is laid out for it has the
//! variables there (`IsLaidOut`).
//! `law_of_block_words`, `law_of_test_words` and `law_of_jump_words`: each step and each jump of
//! such code has a word. `law_of_chosen`: a chosen cover has a cell for each of its cuts.
//! `law_of_lists`, `law_of_isas`, `law_of_costs` and `law_of_uncovered_tree`: what the definitions ask for is
//! one: the forms, the instruction set of each mode, the costs, the bound, the first tree without a
//! cover.
//!
//! There is no code to run here: this crate says what `code_gen` has to make, over the netlist and
//! the program alone, so that neither ids nor sets occur in the definition of right code.
//!
//! Files:
//!
//! - `laws`: what is one for a task, and that an image made for it is right code.
//! - `words`: that each step and each jump of a task's code has a word.
//! - `specs/`, cited by public contracts: `Tasks` (what two files say together), `FlowJobs` (its
//!   jobs), `Forms`, `Covered`, `Bounded`, `Words`, `Cuts` (a block's jobs cut at the mode words),
//!   `Images` (the definition of right code), `Jobs` (the steps of jobs), `Laid`, `Forks`.
//! - `specs/Inner/`, between the definition of an image and its trace: `Blocks`, `Code`, `Known`,
//!   `Jobs`, `Laid` and `Forks`.
//! - `proofs/`: `Right` on top; `Rows` for the task of one memory; `TaskFlows` for a task's flow;
//!   `Made`, `Given`, `Chosen`, `Ordered`, `Coded` from the image to the trace; `Kept` and `ModeKept`
//!   for forms that keep the mode; `Plain`, `Listed`, `Turning`, `Turns`, `Swapping` for forms;
//!   `Standing`, `Layouts`, `Walked`, `Forked`, `Branching`, `Ways` for words; `Worded` and `Jumping`
//!   for the laws of words; `OneForms`, `OneBound`, `Bare` for what is one. docs/ARCHITECTURE.md goes
//!   through them in order.
#![tactic(auto)]

mod laws;
mod words;

pub use laws::{
    law_of_chosen, law_of_costs, law_of_isas, law_of_lists, law_of_programs, law_of_tasks,
    law_of_uncovered_tree,
};
pub use words::{law_of_block_words, law_of_jump_words, law_of_test_words};

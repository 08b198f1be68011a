//! From a netlist and a program that were read to the code of the program.
//!
//! Promise: `image_of` gives an image that is right code for the task of the netlist, the program,
//! the places of its variables, its flow and its jobs (`right`: `IsRightImage` of `coded_task`),
//! whose numbers and words fit an image's text (`fits`: `IsFitting`), and then none of the reasons
//! before a full image applies (`reached`: `IsReached`). No step, no jump, no cover and no reach come
//! exactly where they are the first that applies; a full image only where an image that is made for
//! the task is longer than the code, and then so is the bound (`refused`: `IsCodeFault`).
//! `tuned_image_of` takes equal trees in place of the program's own where these cost less, or have
//! covers alone: its image is right code for the task in such a spelling, and traces the program as
//! it is written (`right`: `IsRightByEqualTrees`; `refused`: `IsTunedFault`). `TREE_NODES` bounds
//! such a tree. `usable_forms` gives the forms of a netlist without modes, or the first refusal alone
//! (`refused`: `IsFormless`), for whoever asks why there is no image, and `blocks_of` the flow and
//! the jobs of a program whose variables stand behind its temporary cells (`flow`: `program_flow`,
//! `jobs`: `task_jobs`).
//!
//! What serves without a program, too: `only_control`, whether all forms of a list are jumps or
//! branches; `chosen_cover`, the cover of one job, or None exactly where it has none (`tried`:
//! `IsTried`); `pack_block`, steps packed into groups, each with its word (`packed`:
//! `IsPackedBlock`), by a `KnownMachine`, which knows what the expressions of the patterns read.
//!
//! Invariant: a `PlannedProgram` has the modes and the covers of all jobs in the order of their
//! numbers, and `Modes` has a machine, its forms and its passage for each mode. Blocks and tests
//! are made in the order of the flow, a block for each place that begins one, so the words of the
//! layout's items are found by the number of their block.
//!
//! Files:
//!
//! - `fault`, `views`: why no image was made, and what code is made from.
//! - `modes`, `forms`: the forms of the netlist in its modes, of which one steps and one jumps, the
//!   modes that can be used, and the words between them.
//! - `jobs`: the flow and the jobs of the program in the netlist's memory.
//! - `covers`: `chosen_cover`, a mode and a cover for each job, and their costs.
//! - `steps`: the steps of a block, and how long it is.
//! - `cuts`: a block's jobs cut at the mode words, with the groups and words of each cut.
//! - `registers`: the registers that a branch's condition reads.
//! - `blocks`: `pack_block`, and the groups of each block and of each test's operands, with their
//!   words.
//! - `words`: the words of the layout's items, with their lists.
//! - `spelling`: the jobs of a program by equal trees, and its flow where tests are turned.
//! - `image`: the layout, the bound, `image_of` and `tuned_image_of`.
//! - `specs/`: `Refusals`, `Spelled`, `Tasks`, `Machines`, `Blocks` and `Trials`, cited by public
//!   contracts with `right_code/specs`. `specs/Inner/`: what goes with the code: `Planning`, `Coded`,
//!   `Imaged`, `Spelling`, `Views`, `Uncovered`, `Registers`, `Memories`.
//! - `proofs/`: `Whole` and `Making` put the image together, `Coding`, `Cutting`, `Running`,
//!   `Packing` and `Stepping` its blocks; `Lengths` and `Sizes` for the bound, `NeededForms` and
//!   `FormLemmas` for refusals; `Held`, `ModeRegs` and `ByMode` for the modes; `Fitting`, `Frames`,
//!   `Told`, `Built` and `Listing` for the task, `Spellings` and `Spelled` for it in another spelling.
#![tactic(auto)]

mod blocks;
mod covers;
mod cuts;
mod fault;
mod forms;
mod image;
mod jobs;
mod modes;
mod registers;
mod spelling;
mod steps;
mod views;
mod words;

pub use blocks::pack_block;
pub use covers::chosen_cover;
pub use fault::CodeFault;
pub use forms::{only_control, usable_forms};
pub use image::{image_of, tuned_image_of};
pub use jobs::{addr_width, blocks_of};
pub use spelling::TREE_NODES;

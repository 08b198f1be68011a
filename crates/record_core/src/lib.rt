//! The call of the program: from the words of the command line to the text that is written.
//!
//! Promise: of `record_call`. `wrote`: on `Done` the sink took in this call the text of the command
//! for its files, as of `compile` that of an image which is right code, of `tune` that of one which
//! is right code by equal trees, of `dual` that of one which is right code for two memories, and of
//! `check` the clocks of an image which is right code by its views (`Wrote`). `gives`: what is
//! answered is the first refusal that applies, with its line, or `Done`, or want of memory
//! (`IsAnswer`). `shelf_calm`, `sink_calm`: no fault of a file or of the output is swallowed; a
//! fetch or a put that fails is the last, and a fetch that fails never ends as want of memory.
//! `shelf_unasked`: where the words ask for no file, none is fetched. `exactly`, `complete`,
//! `compiles`, `compiles_tuned`, `compiles_dual`: where the files are told, nothing is answered but
//! what applies, want of memory, or a fault of the sink (`IsExact`, `IsAccepted`, `CanCompile`,
//! `CanTune`, `CanDual`).
//! `Status::code` is the exit status.
//!
//! Invariant: no file is read as a text before all were fetched, and nothing is put before it is
//! settled that the command is not refused; of one that is refused only the line is put.
//!
//! Files:
//!
//! - `status`, `stop`: how a call ends, and why a command has no text.
//! - `words`: the command that the words ask for.
//! - `fetch`: the files of a command.
//! - `compile`, `extract`, `run`, `go`, `make`, `asm`, `test`, `explain`, `tune`, `dual`, `check`:
//!   one command each, `asm` with `dis`.
//! - `commands`: the arm of each command, and its text put.
//! - `line`: the lines of the faults.
//! - `refusal`: why nothing else is written, with its line, and how that is put.
//! - `call`: `record_call`.
//! - `specs/`, cited by public contracts: `Answers` (what is answered, and what is written),
//!   `Stages`, `Words`, `Watching`, `Showing`, `Status`, `Lines`, `NetLines`, `SrcLines` and
//!   `CheckLines`. `specs/Inner/`: `Fetch`, `Putting`, `Refusals`, `Statuses`, for the functions
//!   here.
//! - `proofs/`: `WroteLemmas`, `AnswerLemmas`, `UniqueLemmas` and `StageLemmas` for the call,
//!   `PutLemmas` for the arms, one file a command, `FetchLemmas`, `NameLemmas`.
#![tactic(auto)]

mod asm;
mod call;
mod check;
mod commands;
mod compile;
mod dual;
mod explain;
mod extract;
mod fetch;
mod go;
mod line;
mod make;
mod refusal;
mod run;
mod status;
mod stop;
mod test;
mod tune;
mod words;

pub use call::record_call;
pub use line::name_place;
pub use status::Status;

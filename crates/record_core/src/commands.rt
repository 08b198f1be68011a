//! What a command puts, for the bytes of its files.
ghost use Rattle.std.specs.Prelude.{◌≡◌, ℕ, List};
ghost use Rattle.checkpoint_watch.specs.Puts.{Puts};
ghost use Rattle.record_core.specs.Answers.{file_at, TextAnswers};
ghost use Rattle.record_core.specs.Inner.Fetch.{contents, AreShort};
ghost use Rattle.record_core.specs.Inner.Putting.{CommandEnds, MadeAlone, PutsMade, PutsReport};
ghost use Rattle.record_core.specs.Words.{CommandFits};
ghost use Rattle.record_core.specs.declared.status.Status.{Status};
ghost use Rattle.record_core.specs.declared.stop.Told.{Told};

use crate::Status;
use crate::asm::{assembled_text, shown_text};
use crate::check::checked_text;
use crate::compile::compile_text;
use crate::dual::dual_text;
use crate::explain::explained_text;
use crate::extract::extract_text;
use crate::go::go;
use crate::make::make_text;
use crate::run::run_text;
use crate::stop::Stop;
use crate::test::test_text;
use crate::tune::tuned_text;
use crate::words::Command;
use rec_bits::Items;
use rec_io::{Sink, WriteFault, put_all};
use std::alloc::Global;

/// The bytes of the file at this place, or none where there is no such file.
pub fn file(files: &[Vec<u8>], place: usize) -> &[u8]
    ensures { result.now ≡ file_at (contents files.now) place }
{
    match files.get(place) {
        Some(file) => file.as_slice(),
        None => &[],
    }
}

/// Puts a whole text. `WriteFault` comes exactly where the output failed, which took a prefix of the
/// text (`Puts`).
pub fn put<S: Sink>(out: &mut S, text: &[u8]) -> Result<(), WriteFault>
    ensures { Puts (S.state out.old) (S.state out.new) text.now result }
{
    put_all(out, text)
}

// What was made, or a status with nothing told beside it.
fn alone<T: Drop>(made: Result<T, Status>) -> Result<T, Stop>
    ensures { MadeAlone made result }
{
    Ok(made?)
}

// Puts a text, where one was made.
fn put_made<S: Sink>(
    out: &mut S,
    made: Result<Vec<u8>, Stop>,
) -> Result<Result<(), WriteFault>, Stop>
    ensures { PutsMade made (S.state out.old) (S.state out.new) result }
{
    let text = made?;
    Ok(put(out, &text))
}

// Puts a report, where one was made.
fn put_report<S: Sink>(
    out: &mut S,
    made: Result<Items<u8>, Stop>,
) -> Result<Result<(), WriteFault>, Stop>
    ensures { PutsReport made (S.state out.old) (S.state out.new) result }
{
    let report = made?;
    Ok(put(out, report.as_slice()))
}

/// Puts the text of the command for the bytes of its files, or answers the first refusal that
/// applies, where nothing was put.
pub fn put_command<S: Sink>(
    alloc: Global,
    command: Command,
    files: &[Vec<u8>],
    out: &mut S,
) -> Result<Result<(), WriteFault>, Stop>
    requires short { AreShort (contents files.now) }
    requires fits { CommandFits command }

    // Whatever the lines of the refusals are.
    ensures { (line : Told → Status → List ℕ) →
        CommandEnds line command (contents files.now) (S.state out.old) (S.state out.new) result }
{
    let first = file(files, 0);
    let second = file(files, 1);
    let third = file(files, 2);
    match command {
        Command::Compile => put_made(out, alone(compile_text(alloc, first, second))),
        Command::Extract => put_made(out, alone(extract_text(alloc, first))),
        Command::Run(clocks) => put_made(out, run_text(alloc, first, second, third, clocks)),
        Command::Go(clocks) => alone(go(alloc, first, second, third, clocks, out)),
        Command::Make(number) => put_made(out, alone(make_text(alloc, number))),
        Command::Asm => put_made(out, alone(assembled_text(alloc, first, second))),
        Command::Dis => put_made(out, alone(shown_text(alloc, first, second))),
        Command::Test => put_report(out, alone(test_text(alloc, first))),
        Command::Explain => put_made(out, alone(explained_text(alloc, first, second))),
        Command::Tune => put_made(out, alone(tuned_text(alloc, first, second))),
        Command::Dual => put_made(out, alone(dual_text(alloc, first, second, third))),
        Command::Check => put_made(out, checked_text(alloc, first, second, third)),
    }
}

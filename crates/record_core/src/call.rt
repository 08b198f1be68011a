//! The call of the program.
ghost use Rattle.std.specs.Prelude.{◌≡◌, ◌≢◌, ◌⊎◌, ◌≤◌, Some, IfOk, IfErr, IsSome, OnOk};
ghost use Rattle.rec_io.specs.Causes.{Rose};
ghost use Rattle.rec_io.specs.Shelf.{NoFetchFailed};
ghost use Rattle.record_core.specs.Answers.{FetchesTold, IsAnswer, IsExact, IsAccepted, CanCompile, CanDual, CanTune, Wrote, netlist_in};
ghost use Rattle.record_core.specs.Inner.Fetch.{contents, AreShort};
ghost use Rattle.record_core.specs.Lines.{due_line};
ghost use Rattle.record_core.specs.Inner.Putting.{PutsAnswer, PutsDone};
ghost use Rattle.record_core.specs.Inner.Refusals.{IsRefusal, RefusesText, RefusesWords};
ghost use Rattle.record_core.specs.Words.{CommandFits, command_of, files_asked, names_of, texts_of};
ghost use Rattle.record_core.specs.declared.words.Command.{Command};
ghost use Rattle.record_core.specs.declared.status.Status.{Status};

use crate::Status;
use crate::commands::{file, put_command};
use crate::fetch::fetch_all;
use crate::refusal::{Refusal, refused};
use crate::stop::{Stop, Told};
use crate::words::{Command, command_of};
use rec_io::{Shelf, Sink, WriteFault};
use std::alloc::Global;

// The refusal of a command over these files.
fn command_refused(
    alloc: Global,
    words: &[String],
    command: Command,
    files: &[Vec<u8>],
    stop: Stop,
) -> Refusal
    ensures { IsRefusal (texts_of words.now) (netlist_in command (contents files.now)) stop.told stop.status result }
{
    match command {
        Command::Make(number) => match job_gen::netlist(alloc, u64::from(number)) {
            Ok(net) => refused(alloc, words, &net, &stop.told, stop.status),
            Err(_) => Refusal::Memory,
        },
        _ => refused(alloc, words, file(files, 0), &stop.told, stop.status),
    }
}

// Puts the text of the command for the bytes of its files, or answers the first refusal that
// applies, where nothing was put.
fn put_for<S: Sink>(
    alloc: Global,
    words: &[String],
    command: Command,
    files: &[Vec<u8>],
    out: &mut S,
) -> Result<Result<(), WriteFault>, Refusal>
    requires short { AreShort (contents files.now) }
    requires fits { CommandFits command }
    ensures done { IfOk result (PutsDone
        (due_line (texts_of words.now) (netlist_in command (contents files.now))) command
        (contents files.now) (S.state out.old) (S.state out.new)) }
    ensures refused { IfErr result (RefusesText (texts_of words.now)
        (due_line (texts_of words.now) (netlist_in command (contents files.now))) command (contents files.now)) }
    ensures still { IfErr result (λ _. S.state out.new ≡ S.state out.old) }
{
    match put_command(alloc, command, files, out) {
        Ok(put) => Ok(put),
        Err(stop) => Err(command_refused(alloc, words, command, files, stop)),
    }
}

// Puts the text, or answers the first refusal that applies, where nothing was put. No fetch failed
// where a text was due.
fn decide<F: Shelf, S: Sink>(
    alloc: Global,
    words: &[String],
    shelf: &mut F,
    out: &mut S,
) -> Result<Result<(), WriteFault>, Refusal>
    ensures later { (F.state shelf.old).faults ≤ (F.state shelf.new).faults }
    ensures same { (F.state shelf.new).files ≡ (F.state shelf.old).files }
    ensures unasked { files_asked (texts_of words.now) ≡ 0 → F.state shelf.new ≡ F.state shelf.old }
    ensures calm { OnOk result (NoFetchFailed (F.state shelf.old) (F.state shelf.new)) }
    ensures done { IfOk result (PutsAnswer (texts_of words.now) (F.state shelf.old)
        (F.state shelf.new) (S.state out.old) (S.state out.new)) }
    ensures refused { IfErr result (RefusesWords (texts_of words.now) (F.state shelf.old) (F.state shelf.new)) }
    ensures still { IfErr result (λ _. S.state out.new ≡ S.state out.old) }
{
    let Some(command) = command_of(words) else {
        return Err(refused(alloc, words, &[], &Told::Nothing, Status::Usage));
    };
    match fetch_all(alloc, &words[1..command.file_count() + 1], shelf) {
        Ok(files) => put_for(alloc, words, command, &files, out),
        Err(status) => Err(refused(alloc, words, &[], &Told::Nothing, status)),
    }
}

// Decides, and puts the line of a refusal.
fn answer<F: Shelf, S: Sink>(alloc: Global, words: &[String], shelf: &mut F, out: &mut S) -> Status
    ensures shelf_later { (F.state shelf.old).faults ≤ (F.state shelf.new).faults }
    ensures shelf_same { (F.state shelf.new).files ≡ (F.state shelf.old).files }
    ensures shelf_unasked { files_asked (texts_of words.now) ≡ 0 → F.state shelf.new ≡ F.state shelf.old }
    ensures sink_later { (S.state out.old).faults ≤ (S.state out.new).faults }
    ensures sink_calm { result ≢ Status.WriteFault → (S.state out.new).faults ≡ (S.state out.old).faults }
    ensures gives { IsAnswer (texts_of words.now) (F.state shelf.old) (F.state shelf.new)
        (S.state out.old) (S.state out.new) result }
{
    match decide(alloc, words, shelf, out) {
        Ok(Ok(())) => Status::Done,
        Ok(Err(_)) => Status::WriteFault,
        Err(refusal) => match refusal.put(words, out) {
            Ok(()) => refusal.status(),
            Err(_) => Status::WriteFault,
        },
    }
}

/// What the words ask for, over the files of this shelf, into this output.
///
/// The words are those after the program's name: `compile NET SRC`, `extract NET`, `run NET IMG MEM
/// CYCLES`, `go NET SRC MEM CYCLES`, `make N`, `asm NET TEXT`, `dis NET IMG`, `test NET`, `explain
/// NET SRC`, `tune NET SRC`, `dual NET SRC PART` or `check NET SRC IMG`, where NET, SRC, IMG, MEM,
/// TEXT and PART are names of files, CYCLES is a decimal number from 0 to 1,000,000, and N one from
/// 1 to 1,000. On `Done` the output took the whole text: an image, the patterns of a netlist, a
/// state, checkpoints, a summary, lines of transfers, the report of a self-test, what covers the
/// jobs of a program, or the clocks of an image from mark to mark. On `WriteFault` it took a prefix
/// of the text that was due, and nothing after the put that failed; on every other status it took
/// the line of the fault. Want of memory may be answered anywhere, but where a file could not be
/// read.
pub fn record_call<F: Shelf, S: Sink>(
    alloc: Global,
    words: &Vec<String>,
    shelf: &mut F,
    out: &mut S,
) -> Status
    ensures shelf_later { (F.state shelf.old).faults ≤ (F.state shelf.new).faults }
    ensures shelf_same { (F.state shelf.new).files ≡ (F.state shelf.old).files }
    ensures shelf_unasked { files_asked (texts_of words.now.items) ≡ 0 → F.state shelf.new ≡ F.state shelf.old }
    ensures sink_later { (S.state out.old).faults ≤ (S.state out.new).faults }

    // No fault is swallowed: where a fetch fails it is the last, and `ReadFault` is answered, or
    // `WriteFault` where the output fails too; on no status but `WriteFault` has a put failed.
    ensures shelf_calm { FetchesTold (F.state shelf.old) (F.state shelf.new) result }
    ensures sink_calm { result ≢ Status.WriteFault → (S.state out.new).faults ≡ (S.state out.old).faults }

    // What is due is the first refusal that applies, with its line, or `Done` and the text, or want
    // of memory. Nothing is put after a put that failed.
    ensures gives { IsAnswer (texts_of words.now.items) (F.state shelf.old) (F.state shelf.new)
        (S.state out.old) (S.state out.new) result }

    // Where the files are told, nothing else is answered than what applies; where code or a
    // self-test is made more than one answer may, since what is made for one task may differ in
    // length; and so may of an image that keeps all rules, as `Follow` says nothing of it.
    ensures exactly { IsSome (F.state shelf.old).files →
        IsExact (texts_of words.now.items) (F.state shelf.old) (F.state shelf.new) result }

    // Where no refusal applies and the output did not fail, the call succeeds.
    ensures complete { IsAccepted (texts_of words.now.items) (F.state shelf.old) (F.state shelf.new) →
        ¬ Rose (S.state out.old).faults (S.state out.new).faults → (result ≡ Status.Done) ⊎ (result ≡ Status.Memory) }

    // In particular, `compile` succeeds where the files are told and say a netlist and a program of
    // which nothing is refused, whatever image is made for them, and neither the shelf nor the
    // output failed.
    ensures compiles { CanCompile (texts_of words.now.items) (F.state shelf.old).files →
        ¬ Rose (F.state shelf.old).faults (F.state shelf.new).faults →
        ¬ Rose (S.state out.old).faults (S.state out.new).faults →
        (result ≡ Status.Done) ⊎ (result ≡ Status.Memory) }

    // So does `tune` for the same netlist and program, whose jobs cost no more in another spelling.
    ensures compiles_tuned { CanTune (texts_of words.now.items) (F.state shelf.old).files →
        ¬ Rose (F.state shelf.old).faults (F.state shelf.new).faults →
        ¬ Rose (S.state out.old).faults (S.state out.new).faults →
        (result ≡ Status.Done) ⊎ (result ≡ Status.Memory) }

    // So does `dual`.
    ensures compiles_dual { CanDual (texts_of words.now.items) (F.state shelf.old).files →
        ¬ Rose (F.state shelf.old).faults (F.state shelf.new).faults →
        ¬ Rose (S.state out.old).faults (S.state out.new).faults →
        (result ≡ Status.Done) ⊎ (result ≡ Status.Memory) }

    // The main promise: what was written is the text of the command for its files, as of `compile`
    // an image that is right code for the program on the netlist, and that the netlist holds; as of
    // `tune` one made by equal trees, and of `dual` one for both memories of a netlist. Of `check`
    // it is that the image of the bytes is right by its views for this netlist and this program.
    ensures wrote { (command : Command) → command_of (texts_of words.now.items) ≡ Some command →
        result ≡ Status.Done →
        Wrote command (names_of command (texts_of words.now.items)) (F.state shelf.old).files
        (S.state out.old).written (S.state out.new).written }
{
    answer(alloc, words, shelf, out)
}

//! The program: real files, standard output, and the exit status.
//!
//! Promise: `main` has no clause of its own; it hands the words behind the program's name to
//! `record_core::record_call`, over the two below, and exits with the status's code. Words of which
//! one is no text count as none. `FileShelf` and `OutSink` keep the contracts of `Shelf` and `Sink`
//! in `rec_io`, and tell nothing of the bytes. The one word `--help` makes no call: the forms of
//! words are put, and the exit status is that of `Done` or of `WriteFault`. What `telling` tells on
//! standard error comes behind the call, and changes neither its output nor its exit status.
//!
//! Invariant: a shelf here reads at most one byte more than the limit, to tell a file that is too
//! long, also where it fails; a failed read or write raises the count of faults by one, and a write
//! of no byte is a fault.
//!
//! Files:
//!
//! - `file_shelf`: the files of the runtime as a `Shelf`.
//! - `out_sink`: an output of the runtime as a `Sink`.
//! - `telling`: what standard error takes: the forms of words, or the place that a refusal is about.
//! - `main`: the words, the call, the exit status.
//! - `proofs/`: `file_shelf/` alone, for the reading of a file; there is no `specs/`.
//!
//! The files `args`, `data/` and `stdout` beside `src/` are a run of the program that the gate
//! passes.
#![tactic(auto)]

mod file_shelf;
mod out_sink;
mod telling;

use fault_places::FORMS;
use file_shelf::FileShelf;
use out_sink::OutSink;
use rec_bits::NoMemory;
use rec_io::{WriteFault, put_all};
use record_core::{Status, record_call};
use std::io::ErrorKind;
use std::process::ExitCode;
use std::{env, io};
use telling::tell;

// The words after the program's name; none where one of them is no text.
fn words_of(rt: &HostRuntime) -> Result<Vec<String>, NoMemory> {
    match env::args(rt) {
        Ok(words) => Ok(words.skip(1).collect(rt.alloc())?),
        Err(error) => match error.kind() {
            ErrorKind::OutOfMemory => Err(NoMemory),
            _ => Ok(Vec::new(rt.alloc())),
        },
    }
}

fn asks_for_help(words: &[String]) -> bool {
    matches!(words, [word] if word.as_str() == "--help")
}

// Puts the forms of words.
fn help(rt: &HostRuntime) -> Status {
    match put_all(&mut OutSink::new(io::writer(rt)), FORMS.as_bytes()) {
        Ok(()) => Status::Done,
        Err(WriteFault) => Status::WriteFault,
    }
}

// What these words ask for, and then what is told of it.
fn call(rt: &HostRuntime, words: &Vec<String>) -> Status {
    let mut shelf = FileShelf::new(rt);
    let mut out = OutSink::new(io::writer(rt));
    let status = record_call(rt.alloc(), words, &mut shelf, &mut out);
    tell(rt.alloc(), &mut shelf, words, status, &rt.stderr());
    status
}

fn main(rt: HostRuntime) -> ExitCode {
    let status = match words_of(&rt) {
        Ok(words) if asks_for_help(&words) => help(&rt),
        Ok(words) => call(&rt, &words),
        Err(NoMemory) => Status::Memory,
    };
    ExitCode::from(status.code())
}

//! Why nothing else is written, and its line.
ghost use Rattle.std.specs.Prelude.{◌≡◌, ℕ};
ghost use Rattle.checkpoint_watch.specs.Puts.{Puts};
ghost use Rattle.record_core.specs.Inner.Refusals.{IsRefusal, status_of, text_of};
ghost use Rattle.record_core.specs.Words.{texts_of};
ghost use Rattle.record_core.specs.declared.refusal.Refusal.{Refusal};
ghost use Rattle.record_core.specs.declared.status.Status.{Status};

use crate::Status;
use crate::commands::put;
use crate::line::{fault_line, file_name, told_name};
use crate::stop::Told;
use rec_io::{Sink, WriteFault};
use std::alloc::Global;

/// Why nothing else is written.
#[derive(Drop)]
pub enum Refusal {
    /// Want of memory.
    Memory,
    /// The file at this place could not be read. Its line is put in pieces and takes no memory, so
    /// that a fault of a file never ends as want of memory.
    Read(u8),
    /// A status, and its line.
    Told { status: Status, line: String },
}

/// The refusal of this status, with its line from the words, the netlist's text and what is told
/// beside it.
pub fn refused(alloc: Global, words: &[String], net: &[u8], told: &Told, status: Status) -> Refusal
    ensures line { IsRefusal (texts_of words.now) net.now told.now status result }
    ensures read { (file : ℕ) → status ≡ Status.ReadFault file → result ≡ Refusal.Read file }
{
    if let Status::ReadFault { file } = status {
        return Refusal::Read(file);
    }
    let name = told_name(net, told, status);
    match fault_line(alloc, words, name, status) {
        Ok(line) => Refusal::Told { status, line },
        Err(_) => Refusal::Memory,
    }
}

// Puts the line of a file that could not be read.
fn put_read_line<S: Sink>(out: &mut S, words: &[String], file: u8) -> Result<(), WriteFault>
    ensures { Puts (S.state out.old) (S.state out.new) (text_of (texts_of words.now) (Refusal.Read file)) result }
{
    put(out, b"error read ")?;
    put(out, file_name(words, file).as_bytes())?;
    put(out, b"\n")
}

impl Refusal {
    /// What the call answers where its line was put.
    pub(crate) fn status(&self) -> Status
        ensures { result ≡ status_of self.now }
    {
        match self {
            Refusal::Memory => Status::Memory,
            Refusal::Read(file) => Status::ReadFault { file: *file },
            Refusal::Told { status, .. } => *status,
        }
    }

    /// Puts its line, of a call with these words. `WriteFault` comes exactly where the output failed,
    /// which took a prefix of the line (`Puts`). Takes no memory.
    pub(crate) fn put<S: Sink>(&self, words: &[String], out: &mut S) -> Result<(), WriteFault>
        ensures { Puts (S.state out.old) (S.state out.new) (text_of (texts_of words.now) self.now) result }
    {
        match self {
            Refusal::Memory => put(out, b"error memory\n"),
            Refusal::Read(file) => put_read_line(out, words, *file),
            Refusal::Told { line, .. } => put(out, line.as_bytes()),
        }
    }
}

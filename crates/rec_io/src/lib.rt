//! What `record` meets outside: files by name, one output, and a fake of each in memory.
//!
//! Promise: `Shelf::fetch` gives all bytes of a file within a limit, or tells why not (`IsGot`,
//! `IsRefused`); a fetch that fails counts one fault and no other answer counts any, and each gets
//! at most `limit` bytes and one (`within`). `Sink::put` takes a front of a piece, or fails and
//! counts one fault. `put_all` puts a piece until it was taken whole (`all`), or tells a fault where
//! a proper front was taken (`part`) and nothing was put after the put that failed (`failed`), and
//! tells none where no put failed (`calm`). `MemShelf` and `MemSink` fail exactly where they were
//! told to, or where no file has the name and no room is free, but for want of memory.
//!
//! Invariant: what a shelf or a sink means is `state`: files or bytes where they are told, a count
//! of faults that never falls, and whether the last fetch or put failed. By the last two a caller's
//! contract can say that a fault was the only one and the last: `LastFailed`, `LastPutFailed`. An
//! implementation that tells nothing of its bytes, as that of real files, keeps the same contracts.
//!
//! Files:
//!
//! - `shelf`: the trait `Shelf` and why a file was not handed out.
//! - `sink`: the trait `Sink`, its fault, and `put_all`.
//! - `mem_shelf`: files in memory, some of whose fetches fail.
//! - `mem_sink`: an output in memory with a greatest piece, a room, and puts that fail.
//! - `specs/`: all files are cited by public contracts: `Causes` (counts of faults), `Files`,
//!   `Shelf`, `Sink`, `Written`, and for the fakes `MemShelf` and `MemSink`.
//! - `proofs/`: `WrittenLemmas` carries `put_all`; `Examples` has the definitions at small values.
#![tactic(auto)]

mod mem_shelf;
mod mem_sink;
mod shelf;
mod sink;

pub use mem_shelf::MemShelf;
pub use mem_sink::MemSink;
pub use shelf::{Fetch, Shelf};
pub use sink::{Sink, WriteFault, put_all};

//! The files of a command.
ghost use Rattle.std.specs.Prelude.{◌≡◌, ◌⊎◌, ◌<◌, ◌≤◌, [], Some, IfSome, IfOk, IfErr, OnOk, length, map, slice_index_or};
ghost use Rattle.rec_io.specs.Shelf.{NoFetchFailed, NoneFailed};
ghost use Rattle.record_core.specs.Answers.{place_from, IsFile, AreFiles, HasFirst};
ghost use Rattle.record_core.specs.Inner.Fetch.{contents, FetchStops, FetchPasses, FetchesPass};
ghost use Rattle.record_core.specs.Words.{texts_of, name_in};

use crate::Status;
use rec_io::{Fetch, Shelf};
use std::alloc::Global;

// The most bytes of a file.
const FILE_LIMIT: u64 = 1_048_576;

// The first place of this name.
fn place(names: &[String], name: &str) -> Option<usize>
    ensures first { result ≡ place_from 0 (texts_of names.now) name.now }
    ensures within { IfSome result (λ k. k < length names.now) }
{
    for (k, first) in names.iter().enumerate() {
        if first.as_str() == name {
            return Some(k);
        }
    }
    None
}

// The first place of the name at this index.
fn place_of(names: &[String], index: usize) -> u8
    requires within { index < length names.now }
    requires few { length names.now ≤ 8 }
    ensures { place_from 0 (texts_of names.now) (name_in names.now index) ≡ Some result }
{
    let Some(k) = place(names, names[index].as_str()) else {
        unreachable!()
    };
    k as u8
}

// One file, after those before it. A status names the first place of the file's name.
fn fetch_one<F: Shelf>(
    alloc: Global,
    names: &[String],
    index: usize,
    shelf: &mut F,
) -> Result<Vec<u8>, Status>
    requires within { index < length names.now }
    requires few { length names.now ≤ 8 }
    requires earlier { HasFirst (F.state shelf.old).files (texts_of names.now) index }
    ensures files { (F.state shelf.new).files ≡ (F.state shelf.old).files }
    ensures later { (F.state shelf.old).faults ≤ (F.state shelf.new).faults }
    ensures calm { OnOk result (NoneFailed (F.state shelf.old) (F.state shelf.new)) }
    ensures ok { IfOk result (λ bytes. IsFile (F.state shelf.old).files (name_in names.now index) bytes.items) }
    ensures passed { OnOk result (FetchPasses (F.state shelf.new)) }
    ensures stopped { IfErr result (FetchStops (texts_of names.now) (F.state shelf.old) (F.state shelf.new)) }
{
    let name = names[index].as_str();
    match shelf.fetch(alloc, name, FILE_LIMIT) {
        Ok(bytes) => Ok(bytes),
        Err(Fetch::Memory) => Err(Status::Memory),
        Err(Fetch::Failed) => Err(Status::ReadFault {
            file: place_of(names, index),
        }),
        Err(Fetch::TooLong(limit)) => Err(Status::TooLong {
            file: place_of(names, index),
            limit,
        }),
    }
}

/// All files in their order, before any of them is read; none is asked for after a fetch that
/// failed.
pub fn fetch_all<F: Shelf>(
    alloc: Global,
    names: &[String],
    shelf: &mut F,
) -> Result<Vec<Vec<u8>>, Status>
    requires few { length names.now ≤ 8 }
    ensures later { (F.state shelf.old).faults ≤ (F.state shelf.new).faults }
    ensures files { (F.state shelf.new).files ≡ (F.state shelf.old).files }
    ensures unasked { length names.now ≡ 0 → F.state shelf.new ≡ F.state shelf.old }
    ensures calm { OnOk result (NoFetchFailed (F.state shelf.old) (F.state shelf.new)) }
    ensures ok { IfOk result (λ got. AreFiles (F.state shelf.old).files (texts_of names.now) (contents got.items)) }
    ensures passed { OnOk result (FetchesPass (texts_of names.now) (F.state shelf.new)) }
    ensures stopped { IfErr result (FetchStops (texts_of names.now) (F.state shelf.old) (F.state shelf.new)) }
{
    let mut got = Vec::new(alloc);
    for index in 0..names.len() {
        let bytes = fetch_one(alloc, names, index, shelf)?;
        got.push(bytes)?;
    }
    Ok(got)
}

//! What is told of a call that was refused.

use crate::{FORMS, note, offset_in, reason_of, spot_of};
use rec_io::Shelf;
use record_core::Status;
use std::alloc::Global;

// The most bytes of a file that is shown from.
const FILE_LIMIT: u64 = 1_048_576;

// The name of the file at this place among those that the words name. `make` names none.
fn file_name(words: &[String], file: usize) -> Option<&str> {
    match words {
        [command, names @ ..] if command.as_str() != "make" => Some(names.get(file)?.as_str()),
        _ => None,
    }
}

// The place of the file that a status tells of: of `check` the image is the third.
fn place_in(words: &[String], status: Status, file: usize) -> usize {
    match (words, status) {
        ([command, ..], Status::ImageText(_)) if command.as_str() == "check" => 2,
        _ => file,
    }
}

// What is shown of the place that a status tells of. None where it tells of none, and where the
// file can't be read again.
fn note_of<F: Shelf>(
    alloc: Global,
    shelf: &mut F,
    words: &[String],
    status: Status,
) -> Option<Vec<u8>> {
    let (file, spot) = spot_of(status)?;
    let name = file_name(words, place_in(words, status, file))?;
    let text = shelf.fetch(alloc, name, FILE_LIMIT).ok()?;
    let at = offset_in(alloc, &text, spot).ok()??;
    note(alloc, name, &text, at, reason_of(status)).ok()
}

/// What somebody who reads is told of a call with these words that ended so: the forms of words
/// where they have none, and else the place in a file that a refusal is about, which is fetched
/// again. None where there is nothing to tell, where the file is gone, and for want of memory.
pub fn told_of<F: Shelf>(
    alloc: Global,
    shelf: &mut F,
    words: &[String],
    status: Status,
) -> Option<Vec<u8>> {
    match status {
        Status::Usage => FORMS.as_bytes().to_vec(alloc).ok(),
        _ => note_of(alloc, shelf, words, status),
    }
}

//! What is told on standard error, for somebody who reads it. No fault of it changes anything.

use fault_places::told_of;
use rec_io::Shelf;
use record_core::Status;
use std::alloc::Global;

/// Tells of a call with these words that ended so, where there is something to tell.
pub fn tell<F: Shelf, P: Print>(
    alloc: Global,
    shelf: &mut F,
    words: &[String],
    status: Status,
    to: &P,
) {
    if let Some(text) = told_of(alloc, shelf, words, status) {
        let _ = to.write_all(&text);
    }
}

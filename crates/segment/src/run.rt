//! What is asked.

use form_model::Job;
use mark_start::{Hint, Start};

/// A segment: from a mark, where a test has an answer, over a path of jobs.
#[derive(Clone, Copy)]
pub struct Segment<'a> {
    /// The mark from which the segment goes, with the answer of its test.
    pub start: Start<'a>,
    /// The marked addresses.
    pub marks: &'a [u64],
    pub hints: &'a [Hint],
    pub jobs: &'a [Job],
    /// The job of the test.
    pub test: u32,
    /// The jobs of the path, by their numbers, and the label of the mark to which it goes.
    pub path: &'a [u32],
    pub label: Option<u32>,
    /// How many clocks the words may take behind the first.
    pub clocks: u64,
}

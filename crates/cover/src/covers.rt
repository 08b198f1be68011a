//! Covers of jobs.

use form_model::Cover;
use thiserror::Error;

/// A cover of a tree, and its cost.
#[derive(Drop)]
pub struct TreeCover {
    pub cover: Cover,
    pub cost: u64,
}

/// The cover that is chosen for a job.
#[derive(Drop)]
pub struct JobCover {
    /// Which of the job's trees it covers, from 0.
    pub which: usize,
    pub cover: Cover,
    /// The number of its forms; that of a test leaves out its branch form.
    pub cost: u64,
}

/// Why a job got no cover.
#[derive(Clone, Copy, Debug, PartialEq, Eq, Error)]
pub enum CoverFault {
    /// No tree of the job has an orderly cover.
    #[error("no forms cover the job")]
    NoCover,
    /// Want of memory.
    #[error("out of memory")]
    Memory,
}

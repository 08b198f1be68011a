//! Why a row isn't run.

use rec_bits::NoMemory;
use row_texts::RowFault;
use std::alloc::{AllocError, AllocFailed};
use thiserror::Error;

/// Why a row isn't run. It has no text of its own, so that a function that leaves by it lets
/// nothing go; `main` adds the line.
#[derive(Clone, Copy, Debug, Error)]
pub enum Fault {
    /// A line that such a row doesn't have.
    #[error("no line of such a row")]
    Line,
    /// A text that writes no number, or too large a one.
    #[error("no number")]
    Number,
    /// A text that is no program, or breaks a rule.
    #[error("no program")]
    Program,
    /// There is no text of a netlist or of its forms and covers.
    #[error("{0}")]
    Text(RowFault),
    /// Want of memory.
    #[error("out of memory")]
    Memory,
}

impl From<RowFault> for Fault {
    fn from(cause: RowFault) -> Fault {
        Fault::Text(cause)
    }
}

impl From<AllocError> for Fault {
    fn from(_cause: AllocError) -> Fault {
        Fault::Memory
    }
}

impl<T: Drop> From<AllocFailed<T>> for Fault {
    fn from(_cause: AllocFailed<T>) -> Fault {
        Fault::Memory
    }
}

impl From<NoMemory> for Fault {
    fn from(_cause: NoMemory) -> Fault {
        Fault::Memory
    }
}

//! Why a row has no text.

use net_front::NetRefusal;
use rec_bits::NoMemory;
use std::alloc::AllocError;
use thiserror::Error;

/// Why a row has no text.
#[derive(Clone, Copy, Debug, PartialEq, Eq, Error)]
pub enum RowFault {
    /// A text of more than 1,048,576 bytes.
    #[error("a text is too long")]
    Long,
    /// A text that is no netlist, or needs more memory than there is.
    #[error("no netlist")]
    Netlist,
    /// A text that is no program for the words of the netlist's memory, or needs more memory than
    /// there is.
    #[error("no program")]
    Program,
    /// The netlist's memory has no places for the program.
    #[error("no places for a program")]
    Places,
    /// A name that is no text, or a number that names nothing.
    #[error("no name")]
    Name,
    /// Want of memory.
    #[error("out of memory")]
    Memory,
}

impl From<AllocError> for RowFault {
    fn from(_cause: AllocError) -> RowFault {
        RowFault::Memory
    }
}

impl From<NoMemory> for RowFault {
    fn from(_cause: NoMemory) -> RowFault {
        RowFault::Memory
    }
}

impl From<NetRefusal> for RowFault {
    fn from(_cause: NetRefusal) -> RowFault {
        RowFault::Netlist
    }
}

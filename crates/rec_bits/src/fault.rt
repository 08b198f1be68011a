//! Faults that several crates share.

ghost use Rattle.std.specs.Prelude.{◌≡◌};
ghost use Rattle.rec_bits.specs.declared.fault.ParseFault.{ParseFault};

use std::alloc::{AllocError, AllocFailed};
use thiserror::Error;

/// Want of memory, and nothing else.
#[derive(Clone, Copy, Debug, PartialEq, Eq)]
pub struct NoMemory;

impl From<AllocError> for NoMemory {
    fn from(_cause: AllocError) -> NoMemory {
        NoMemory
    }
}

impl<T: Drop> From<AllocFailed<T>> for NoMemory {
    fn from(_cause: AllocFailed<T>) -> NoMemory {
        NoMemory
    }
}

/// Why bytes were not read as a text.
#[derive(Clone, Copy, Debug, PartialEq, Eq, Error)]
pub enum ParseFault {
    /// The bytes are no text of the grammar; the offset of the byte where that shows.
    #[error("no text at byte {0}")]
    Text(u64),
    /// Want of memory.
    #[error("out of memory")]
    Memory,
}

impl From<NoMemory> for ParseFault {
    ghost from_gives = { λ _ fault. fault ≡ ParseFault.Memory };

    fn from(_cause: NoMemory) -> ParseFault {
        ParseFault::Memory
    }
}

impl From<AllocError> for ParseFault {
    ghost from_gives = { λ _ fault. fault ≡ ParseFault.Memory };

    fn from(_cause: AllocError) -> ParseFault {
        ParseFault::Memory
    }
}

impl<T: Drop> From<AllocFailed<T>> for ParseFault {
    ghost from_gives = { λ _ fault. fault ≡ ParseFault.Memory };

    fn from(_cause: AllocFailed<T>) -> ParseFault {
        ParseFault::Memory
    }
}

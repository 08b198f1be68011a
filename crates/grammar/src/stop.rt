//! Why a parser stopped.

ghost use Rattle.std.specs.Prelude.{◌≡◌};
ghost use Rattle.grammar.specs.declared.stop.ParseStop.{ParseStop};

use rec_bits::NoMemory;
use std::alloc::{AllocError, AllocFailed};

/// Why nothing was read.
#[derive(Clone, Copy, Debug, PartialEq, Eq)]
pub enum ParseStop {
    /// The token is at fault with which so many are left, it among them; or 0 where the text ends
    /// too early.
    At(usize),
    /// Want of memory.
    Memory,
}

impl From<NoMemory> for ParseStop {
    ghost from_gives = { λ _ stop. stop ≡ ParseStop.Memory };

    fn from(_cause: NoMemory) -> ParseStop {
        ParseStop::Memory
    }
}

impl From<AllocError> for ParseStop {
    ghost from_gives = { λ _ stop. stop ≡ ParseStop.Memory };

    fn from(_cause: AllocError) -> ParseStop {
        ParseStop::Memory
    }
}

impl<T: Drop> From<AllocFailed<T>> for ParseStop {
    ghost from_gives = { λ _ stop. stop ≡ ParseStop.Memory };

    fn from(_cause: AllocFailed<T>) -> ParseStop {
        ParseStop::Memory
    }
}

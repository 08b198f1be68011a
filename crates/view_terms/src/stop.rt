//! Why nothing was read.

ghost use Rattle.std.specs.Prelude.{◌≡◌};
ghost use Rattle.view_terms.specs.declared.stop.Stop.{Stop};

use rec_bits::NoMemory;
use std::alloc::{AllocError, AllocFailed};

/// Why nothing was read.
#[derive(Clone, Copy, PartialEq, Eq)]
pub enum Stop {
    /// The bytes aren't of the form.
    Form,
    /// Want of memory.
    Memory,
}

impl From<NoMemory> for Stop {
    ghost from_gives = { λ _ stop. stop ≡ Stop.Memory };

    fn from(_cause: NoMemory) -> Stop {
        Stop::Memory
    }
}

impl From<AllocError> for Stop {
    ghost from_gives = { λ _ stop. stop ≡ Stop.Memory };

    fn from(_cause: AllocError) -> Stop {
        Stop::Memory
    }
}

impl<T: Drop> From<AllocFailed<T>> for Stop {
    ghost from_gives = { λ _ stop. stop ≡ Stop.Memory };

    fn from(_cause: AllocFailed<T>) -> Stop {
        Stop::Memory
    }
}

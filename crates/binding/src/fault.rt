//! Why a program has no place in a memory.

ghost use Rattle.std.specs.Prelude.{◌≡◌};
ghost use Rattle.binding.specs.declared.fault.BindFault.{BindFault};

use rec_bits::NoMemory;
use thiserror::Error;

/// Why no places were given.
#[derive(Clone, Copy, Debug, PartialEq, Eq, Error)]
pub enum BindFault {
    /// The program needs more cells than there are.
    #[error("{need} cells are needed, and there are {have}")]
    DataFull { need: u64, have: u64 },
    /// Want of memory.
    #[error("out of memory")]
    Memory,
}

impl From<NoMemory> for BindFault {
    ghost from_gives = { λ _ fault. fault ≡ BindFault.Memory };

    fn from(_cause: NoMemory) -> BindFault {
        BindFault::Memory
    }
}

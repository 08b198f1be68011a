//! Why code was not laid out.

ghost use Rattle.std.specs.Prelude.{◌≡◌};
ghost use Rattle.branch_fix.specs.declared.fault.LayFault.{LayFault};

use rec_bits::NoMemory;
use thiserror::Error;

/// Why code was not laid out.
#[derive(Clone, Copy, Debug, PartialEq, Eq, Error)]
pub enum LayFault {
    /// The code may have more words than there are addresses in reach of a jump.
    #[error("the code may have {bound} words, and jumps reach {reach}")]
    NoReach { bound: u64, reach: u64 },
    /// The code has more words than there is room for, which is less than the most words that it
    /// may have, too.
    #[error("the code has {len} words, there is room for {size}, and it has at most {bound}")]
    ImageFull { len: u64, size: u64, bound: u64 },
    /// Want of memory.
    #[error("out of memory")]
    Memory,
}

impl From<NoMemory> for LayFault {
    ghost from_gives = { λ _ fault. fault ≡ LayFault.Memory };

    fn from(_cause: NoMemory) -> LayFault {
        LayFault::Memory
    }
}

//! Why a program has no code on a netlist.

ghost use Rattle.std.specs.Prelude.{◌≡◌};

use rec_bits::NoMemory;
use std::alloc::AllocFailed;
use thiserror::Error;

/// Why no image was made.
#[derive(Clone, Copy, Debug, PartialEq, Eq, Error)]
pub enum CodeFault {
    /// No form of the netlist is but a jump or a branch.
    #[error("no form steps")]
    NoStep,
    /// The netlist has another form, and no jump.
    #[error("no form jumps")]
    NoJump,
    /// It has both, and this tree of the program is the first that its forms don't cover.
    #[error("no forms cover the tree {0}")]
    NoCover(u32),
    /// They cover all, and the code may have more words than a jump reaches: `bound` words.
    #[error("the code may have {bound} words, and jumps reach {reach}")]
    NoReach { bound: u64, reach: u64 },
    /// Jumps reach far enough, and the code has more words than there is room for: `len` words,
    /// where it might have `bound`.
    #[error("the code has {len} words, and there is room for {size}")]
    ImageFull { len: u64, size: u64, bound: u64 },
    /// Want of memory.
    #[error("out of memory")]
    Memory,
}

impl From<NoMemory> for CodeFault {
    ghost from_gives = { λ _ fault. fault ≡ CodeFault.Memory };

    ghost use Rattle.code_gen.specs.declared.fault.CodeFault.{CodeFault};

    fn from(_cause: NoMemory) -> CodeFault {
        CodeFault::Memory
    }
}

impl<T: Drop> From<AllocFailed<T>> for CodeFault {
    ghost from_gives = { λ _ fault. fault ≡ CodeFault.Memory };

    ghost use Rattle.code_gen.specs.declared.fault.CodeFault.{CodeFault};

    fn from(_cause: AllocFailed<T>) -> CodeFault {
        CodeFault::Memory
    }
}

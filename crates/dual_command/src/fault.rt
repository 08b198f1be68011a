//! Why nothing was compiled for two memories.

ghost use Rattle.std.specs.Prelude.{◌≡◌};

use compile_command::CompileFault;
use rec_bits::{NoMemory, ParseFault};

/// Why nothing was compiled for two memories: the first of these that applies, where a text of a
/// part that is none comes behind all that is wrong with the netlist and the program by themselves.
#[derive(Clone, Copy, Debug, PartialEq, Eq)]
pub enum DualFault {
    /// The third bytes tell no part of the program's variables; the offset of the line that shows
    /// it.
    PartText(u64),
    /// As for one memory. `DataFull` is tried for the memory, and then for the bank.
    Compile(CompileFault),
}

impl From<NoMemory> for DualFault {
    ghost from_gives = { λ _ fault. fault ≡ DualFault.Compile (CompileFault.Memory) };

    ghost use Rattle.dual_command.specs.declared.fault.DualFault.{DualFault};
    ghost use Rattle.compile_command.specs.declared.fault.CompileFault.{CompileFault};

    fn from(_cause: NoMemory) -> DualFault {
        DualFault::Compile(CompileFault::Memory)
    }
}

impl From<CompileFault> for DualFault {
    ghost from_gives = { λ refusal fault. fault ≡ DualFault.Compile refusal };

    ghost use Rattle.dual_command.specs.declared.fault.DualFault.{DualFault};

    fn from(refusal: CompileFault) -> DualFault {
        DualFault::Compile(refusal)
    }
}

impl From<ParseFault> for DualFault {
    ghost from_gives = { λ refusal fault. fault ≡ part_fault refusal };

    ghost use Rattle.std.specs.Prelude.{◌≡◌};
    ghost use Rattle.dual_command.specs.Inner.Faults.{part_fault};

    fn from(refusal: ParseFault) -> DualFault {
        match refusal {
            ParseFault::Text(at) => DualFault::PartText(at),
            ParseFault::Memory => DualFault::Compile(CompileFault::Memory),
        }
    }
}

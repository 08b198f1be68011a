//! What is wrong with a netlist.

ghost use Rattle.std.specs.Prelude.{◌≡◌};
ghost use Rattle.net_model.specs.declared.fault.CheckFault.{CheckFault};

use rec_bits::NoMemory;
use std::alloc::{AllocError, AllocFailed};

/// A broken rule of netlists. A number is the offset of a name in the text: of the name at fault
/// for `Duplicate` and `Unknown`, and otherwise of the item's name.
#[derive(Clone, Copy, Debug, PartialEq, Eq)]
pub enum NetFault {
    /// N1: a name stands for two things.
    Duplicate(u64),
    /// N2: a name stands for nothing in its place.
    Unknown(u64),
    /// N3: widths don't fit.
    Width(u64),
    /// N4: an input, an output or a row of a case is missing or stands twice.
    Driver(u64),
    /// N5: a net depends on itself without a register between.
    Cycle(u64),
    /// N6: a part that each processor has is missing, stands twice, or has a wrong width or size.
    Role(Role),
    /// N7: a write enable or bus enable depends on more than the instruction word.
    Enable(u64),
    /// N8: control is computed by an operator that isn't allowed there.
    ControlOp(u64),
    /// N9: a selector that depends on a state is wider than one bit.
    WideSelect(u64),
    /// N10: two drivers of a bus are enabled under every word.
    AlwaysClash,
    /// N11: there is too much of something.
    Limit {
        kind: NetKind,
        count: u64,
        bound: u64,
    },
    /// N12: an expression of a net has too many nodes.
    PatternLarge(u64),
    /// N13: a net has too many expressions.
    TooMany(u64),
    /// N14: a register file is read or written at an address that depends on more than the
    /// instruction word.
    FileAddr(u64),
}

/// What each processor has one of.
#[derive(Clone, Copy, Debug, PartialEq, Eq)]
pub enum Role {
    Code,
    Memory,
    Pc,
    Size,
    Addr,
    File,
    Mode,
    Bank,
}

/// What there may be too much of in a netlist.
#[derive(Clone, Copy, Debug, PartialEq, Eq)]
pub enum NetKind {
    Nets,
    Registers,
    Cells,
    Words,
    File,
}

/// Why a netlist was not accepted: by the call that asks some of the rules.
#[derive(Clone, Copy, Debug, PartialEq, Eq)]
pub enum CheckFault {
    /// It breaks this rule, which is the first of those that are asked.
    Fault(NetFault),
    /// Want of memory.
    Memory,
}

impl From<NoMemory> for CheckFault {
    ghost from_gives = { λ _ fault. fault ≡ CheckFault.Memory };

    fn from(_cause: NoMemory) -> CheckFault {
        CheckFault::Memory
    }
}

impl From<AllocError> for CheckFault {
    ghost from_gives = { λ _ fault. fault ≡ CheckFault.Memory };

    fn from(_cause: AllocError) -> CheckFault {
        CheckFault::Memory
    }
}

impl<T: Drop> From<AllocFailed<T>> for CheckFault {
    ghost from_gives = { λ _ fault. fault ≡ CheckFault.Memory };

    fn from(_cause: AllocFailed<T>) -> CheckFault {
        CheckFault::Memory
    }
}

//! Why nothing was assembled, or disassembled.

ghost use Rattle.std.specs.Prelude.{◌≡◌};

use net_front::NetRefusal;
use net_model::NetFault;
use rec_bits::{NoMemory, ParseFault};

/// Why nothing was assembled: the first of these that applies.
#[derive(Clone, Copy, Debug, PartialEq, Eq)]
pub enum AsmFault {
    /// The first bytes are no netlist text; the offset at which that shows.
    NetText(u64),
    /// They are one, and this is the first rule that it breaks: N10, and then N12 or N13, come
    /// after all others.
    Net(NetFault),
    /// The first bytes are a netlist's that keeps all rules, and the second no assembler text for
    /// it; the offset of the line at fault.
    Text(u64),
    /// They are one, and the line of this number, from 0, is the first that no word does.
    Word(u64),
    /// Want of memory.
    Memory,
}

/// Why nothing was disassembled: the first of these that applies.
#[derive(Clone, Copy, Debug, PartialEq, Eq)]
pub enum DisFault {
    /// The first bytes are no netlist text; the offset at which that shows.
    NetText(u64),
    /// They are one, and this is the first rule that it breaks: N10, and then N12 or N13, come
    /// after all others.
    Net(NetFault),
    /// The first bytes are a netlist's that keeps all rules, and the second no image text that fits
    /// it; the offset of the line at fault.
    ImageText(u64),
    /// Want of memory.
    Memory,
}

impl From<NoMemory> for AsmFault {
    ghost from_gives = { λ _ fault. fault ≡ AsmFault.Memory };

    ghost use Rattle.asm_command.specs.declared.fault.AsmFault.{AsmFault};

    fn from(_cause: NoMemory) -> AsmFault {
        AsmFault::Memory
    }
}

impl From<NetRefusal> for AsmFault {
    ghost from_gives = { λ refusal fault. fault ≡ asm_net_fault refusal };

    ghost use Rattle.std.specs.Prelude.{◌≡◌};
    ghost use Rattle.asm_command.specs.Inner.Faults.{asm_net_fault};

    fn from(refusal: NetRefusal) -> AsmFault {
        match refusal {
            NetRefusal::Text(at) => AsmFault::NetText(at),
            NetRefusal::Fault(fault) => AsmFault::Net(fault),
            NetRefusal::Memory => AsmFault::Memory,
        }
    }
}

impl From<ParseFault> for AsmFault {
    ghost from_gives = { λ refusal fault. fault ≡ asm_text_fault refusal };

    ghost use Rattle.std.specs.Prelude.{◌≡◌};
    ghost use Rattle.asm_command.specs.Inner.Faults.{asm_text_fault};

    fn from(refusal: ParseFault) -> AsmFault {
        match refusal {
            ParseFault::Text(at) => AsmFault::Text(at),
            ParseFault::Memory => AsmFault::Memory,
        }
    }
}

impl From<NoMemory> for DisFault {
    ghost from_gives = { λ _ fault. fault ≡ DisFault.Memory };

    ghost use Rattle.asm_command.specs.declared.fault.DisFault.{DisFault};

    fn from(_cause: NoMemory) -> DisFault {
        DisFault::Memory
    }
}

impl From<NetRefusal> for DisFault {
    ghost from_gives = { λ refusal fault. fault ≡ dis_net_fault refusal };

    ghost use Rattle.std.specs.Prelude.{◌≡◌};
    ghost use Rattle.asm_command.specs.Inner.Faults.{dis_net_fault};

    fn from(refusal: NetRefusal) -> DisFault {
        match refusal {
            NetRefusal::Text(at) => DisFault::NetText(at),
            NetRefusal::Fault(fault) => DisFault::Net(fault),
            NetRefusal::Memory => DisFault::Memory,
        }
    }
}

impl From<ParseFault> for DisFault {
    ghost from_gives = { λ refusal fault. fault ≡ dis_image_fault refusal };

    ghost use Rattle.std.specs.Prelude.{◌≡◌};
    ghost use Rattle.asm_command.specs.Inner.Faults.{dis_image_fault};

    fn from(refusal: ParseFault) -> DisFault {
        match refusal {
            ParseFault::Text(at) => DisFault::ImageText(at),
            ParseFault::Memory => DisFault::Memory,
        }
    }
}

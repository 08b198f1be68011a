//! Why nothing was compiled.

ghost use Rattle.std.specs.Prelude.{◌≡◌};

use binding::BindFault;
use code_gen::CodeFault;
use net_front::NetRefusal;
use net_model::NetFault;
use rec_bits::NoMemory;
use src_front::SrcRefusal;
use src_model::SrcFault;

/// Why nothing was compiled: the first of these that applies.
#[derive(Clone, Copy, Debug, PartialEq, Eq)]
pub enum CompileFault {
    /// The first bytes are no netlist text; the offset at which that shows.
    NetText(u64),
    /// They are one, and this is the first rule that it breaks: N10, and then N12 or N13, come
    /// after all others.
    Net(NetFault),
    /// The first bytes are a netlist's that keeps all rules, and the second are no program text;
    /// the offset at which that shows.
    SrcText(u64),
    /// They are one, and this is the first rule that it breaks for the words of the netlist.
    Src(SrcFault),
    /// The program needs more cells than the netlist's memory has.
    DataFull { need: u64, have: u64 },
    /// It has room, and no form of the netlist is but a jump or a branch.
    NoStep,
    /// The netlist has another form, and no jump.
    NoJump,
    /// It has both, and this tree of the program is the first that its forms don't cover.
    NoCover(u32),
    /// They cover all, and the code may have more words than a jump reaches: `bound` words.
    NoReach { bound: u64, reach: u64 },
    /// Jumps reach far enough, and the code has more words than there is room for: `len` words,
    /// where it might have `bound`.
    ImageFull { len: u64, size: u64, bound: u64 },
    /// Want of memory.
    Memory,
}

impl From<NoMemory> for CompileFault {
    ghost from_gives = { λ _ fault. fault ≡ CompileFault.Memory };

    ghost use Rattle.compile_command.specs.declared.fault.CompileFault.{CompileFault};

    fn from(_cause: NoMemory) -> CompileFault {
        CompileFault::Memory
    }
}

impl From<NetRefusal> for CompileFault {
    ghost from_gives = { λ refusal fault. fault ≡ net_fault refusal };

    ghost use Rattle.std.specs.Prelude.{◌≡◌};
    ghost use Rattle.compile_command.specs.Inner.Faults.{net_fault};

    fn from(refusal: NetRefusal) -> CompileFault {
        match refusal {
            NetRefusal::Text(at) => CompileFault::NetText(at),
            NetRefusal::Fault(fault) => CompileFault::Net(fault),
            NetRefusal::Memory => CompileFault::Memory,
        }
    }
}

impl From<SrcRefusal> for CompileFault {
    ghost from_gives = { λ refusal fault. fault ≡ src_fault refusal };

    ghost use Rattle.std.specs.Prelude.{◌≡◌};
    ghost use Rattle.compile_command.specs.Inner.Faults.{src_fault};

    fn from(refusal: SrcRefusal) -> CompileFault {
        match refusal {
            SrcRefusal::Text(at) => CompileFault::SrcText(at),
            SrcRefusal::Fault(fault) => CompileFault::Src(fault),
            SrcRefusal::Memory => CompileFault::Memory,
        }
    }
}

impl From<BindFault> for CompileFault {
    ghost from_gives = { λ refusal fault. fault ≡ bind_fault refusal };

    ghost use Rattle.std.specs.Prelude.{◌≡◌};
    ghost use Rattle.compile_command.specs.Inner.Faults.{bind_fault};

    fn from(refusal: BindFault) -> CompileFault {
        match refusal {
            BindFault::DataFull { need, have } => CompileFault::DataFull { need, have },
            BindFault::Memory => CompileFault::Memory,
        }
    }
}

impl From<CodeFault> for CompileFault {
    ghost from_gives = { λ refusal fault. fault ≡ code_fault refusal };

    ghost use Rattle.std.specs.Prelude.{◌≡◌};
    ghost use Rattle.compile_command.specs.Inner.Faults.{code_fault};

    fn from(refusal: CodeFault) -> CompileFault {
        match refusal {
            CodeFault::NoStep => CompileFault::NoStep,
            CodeFault::NoJump => CompileFault::NoJump,
            CodeFault::NoCover(number) => CompileFault::NoCover(number),
            CodeFault::NoReach { bound, reach } => CompileFault::NoReach { bound, reach },
            CodeFault::ImageFull { len, size, bound } => {
                CompileFault::ImageFull { len, size, bound }
            }
            CodeFault::Memory => CompileFault::Memory,
        }
    }
}

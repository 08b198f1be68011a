//! How a call ends.
ghost use Rattle.std.specs.Prelude.{◌≡◌};
ghost use Rattle.record_core.specs.declared.status.Status.{Status};

use asm_command::{AsmFault, DisFault};
use check_command::{Cause, CheckFault, Origin, RuleFault};
use compile_command::CompileFault;
use dual_command::DualFault;
use net_front::NetRefusal;
use net_model::NetFault;
use rec_bits::NoMemory;
use src_model::SrcFault;
use std::alloc::{AllocError, AllocFailed};
use test_command::TestFault;

/// How a call ends. A `file` is its place among the words that name files, from 0; offsets are
/// those of bytes.
#[derive(Clone, Copy, Debug, PartialEq, Eq)]
pub enum Status {
    /// The output took the whole text.
    Done,
    /// The words have no form of a command.
    Usage,
    /// The file could not be read.
    ReadFault { file: u8 },
    /// The file is longer than `limit` bytes.
    TooLong { file: u8, limit: u64 },
    /// The output failed.
    WriteFault,
    /// The first file is no netlist text; the offset at which that shows.
    NetText(u64),
    /// The netlist breaks a rule.
    Net(NetFault),
    /// The second file is no source text; the offset at which that shows.
    SrcText(u64),
    /// The program breaks a rule.
    Src(SrcFault),
    /// The netlist has nothing but jumps and branches.
    NoStep,
    /// The netlist has no jump.
    NoJump,
    /// This tree of the program is the first that the netlist's forms don't cover.
    NoCover(u32),
    /// The program, or the self-test, needs more cells than the memory has.
    DataFull { need: u64, have: u64 },
    /// The code may have more words than the jumps reach.
    NoReach { bound: u64, reach: u64 },
    /// The image, or the self-test, has more words than there is room for; it might have `bound`.
    ImageFull { len: u64, size: u64, bound: u64 },
    /// Want of memory.
    Memory,
    /// The file is no image for the netlist; the offset at which that shows.
    ImageText(u64),
    /// The file is no memory text for the netlist; the offset at which that shows.
    MemText(u64),
    /// Two drivers of the bus of this number are enabled in this clock cycle, of equal values too.
    Clash { cycle: u64, bus: u32 },
    /// The second file is no assembler text for the netlist; the offset of the first byte of the
    /// first line that isn't of the form or stands past the code.
    AsmText(u64),
    /// No instruction word does what this line of the assembler text says, counted from 0, and each
    /// line before it has one.
    AsmWord(u64),
    /// The self-test would take `count` evaluations: its faults times its words times the nets. They
    /// may be `bound`.
    TestLimit { count: u64, bound: u64 },
    /// The third file tells no part of the program's variables; the offset of the first line that
    /// isn't a declared name or repeats one.
    PartText(u64),
    /// The image breaks a rule of images with views.
    Rule(RuleFault),
    /// It isn't shown that the image's words follow the program from here on. This says nothing of
    /// the image.
    Follow { origin: Origin, cause: Cause },
}

impl Status {
    ghost use Rattle.record_core.specs.Status.{code_of};

    /// The exit status of the program.
    pub fn code(&self) -> u8
        ensures { result ≡ code_of self.now }
    {
        match self {
            Status::Done => 0,
            Status::Usage => 2,
            Status::ReadFault { .. } | Status::TooLong { .. } => 3,
            Status::WriteFault => 4,
            Status::NetText(_) => 5,
            Status::Net(_) => 6,
            Status::SrcText(_) => 7,
            Status::Src(_) => 8,
            Status::NoStep | Status::NoJump | Status::NoCover(_) => 9,
            Status::DataFull { .. } | Status::NoReach { .. } | Status::ImageFull { .. } => 10,
            Status::Memory => 11,
            Status::ImageText(_) | Status::MemText(_) => 12,
            Status::Clash { .. } => 13,
            Status::AsmText(_) => 16,
            Status::AsmWord(_) => 17,
            Status::TestLimit { .. } => 18,
            Status::PartText(_) => 19,
            Status::Rule(_) => 20,
            Status::Follow { .. } => 21,
        }
    }
}

impl From<NoMemory> for Status {
    ghost from_gives = { λ _ status. status ≡ Status.Memory };

    fn from(_cause: NoMemory) -> Status {
        Status::Memory
    }
}

impl From<AllocError> for Status {
    ghost from_gives = { λ _ status. status ≡ Status.Memory };

    fn from(_cause: AllocError) -> Status {
        Status::Memory
    }
}

impl<T: Drop> From<AllocFailed<T>> for Status {
    ghost from_gives = { λ _ status. status ≡ Status.Memory };

    fn from(_cause: AllocFailed<T>) -> Status {
        Status::Memory
    }
}

impl From<CompileFault> for Status {
    ghost from_gives = { λ fault status. status ≡ compile_status fault };

    ghost use Rattle.std.specs.Prelude.{◌≡◌};
    ghost use Rattle.record_core.specs.Inner.Statuses.{compile_status};

    fn from(fault: CompileFault) -> Status {
        match fault {
            CompileFault::NetText(at) => Status::NetText(at),
            CompileFault::Net(fault) => Status::Net(fault),
            CompileFault::SrcText(at) => Status::SrcText(at),
            CompileFault::Src(fault) => Status::Src(fault),
            CompileFault::DataFull { need, have } => Status::DataFull { need, have },
            CompileFault::NoStep => Status::NoStep,
            CompileFault::NoJump => Status::NoJump,
            CompileFault::NoCover(tree) => Status::NoCover(tree),
            CompileFault::NoReach { bound, reach } => Status::NoReach { bound, reach },
            CompileFault::ImageFull { len, size, bound } => Status::ImageFull { len, size, bound },
            CompileFault::Memory => Status::Memory,
        }
    }
}

impl From<CheckFault> for Status {
    ghost from_gives = { λ fault status. status ≡ check_status fault };

    ghost use Rattle.std.specs.Prelude.{◌≡◌};
    ghost use Rattle.record_core.specs.Inner.Statuses.{check_status};

    fn from(fault: CheckFault) -> Status {
        match fault {
            CheckFault::NetText(at) => Status::NetText(at),
            CheckFault::Net(fault) => Status::Net(fault),
            CheckFault::SrcText(at) => Status::SrcText(at),
            CheckFault::Src(fault) => Status::Src(fault),
            CheckFault::ImageText(at) => Status::ImageText(at),
            CheckFault::Rule(fault) => Status::Rule(fault),
            CheckFault::Follow { origin, cause } => Status::Follow { origin, cause },
            CheckFault::Memory => Status::Memory,
        }
    }
}

impl From<DualFault> for Status {
    ghost from_gives = { λ fault status. status ≡ dual_status fault };

    ghost use Rattle.std.specs.Prelude.{◌≡◌};
    ghost use Rattle.record_core.specs.Inner.Statuses.{dual_status};

    fn from(fault: DualFault) -> Status {
        match fault {
            DualFault::PartText(at) => Status::PartText(at),
            DualFault::Compile(fault) => Status::from(fault),
        }
    }
}

impl From<NetRefusal> for Status {
    ghost from_gives = { λ refusal status. status ≡ net_status refusal };

    ghost use Rattle.std.specs.Prelude.{◌≡◌};
    ghost use Rattle.record_core.specs.Inner.Statuses.{net_status};

    fn from(refusal: NetRefusal) -> Status {
        match refusal {
            NetRefusal::Text(at) => Status::NetText(at),
            NetRefusal::Fault(fault) => Status::Net(fault),
            NetRefusal::Memory => Status::Memory,
        }
    }
}

impl From<AsmFault> for Status {
    ghost from_gives = { λ fault status. status ≡ asm_status fault };

    ghost use Rattle.std.specs.Prelude.{◌≡◌};
    ghost use Rattle.record_core.specs.Inner.Statuses.{asm_status};

    fn from(fault: AsmFault) -> Status {
        match fault {
            AsmFault::NetText(at) => Status::NetText(at),
            AsmFault::Net(fault) => Status::Net(fault),
            AsmFault::Text(at) => Status::AsmText(at),
            AsmFault::Word(line) => Status::AsmWord(line),
            AsmFault::Memory => Status::Memory,
        }
    }
}

impl From<DisFault> for Status {
    ghost from_gives = { λ fault status. status ≡ dis_status fault };

    ghost use Rattle.std.specs.Prelude.{◌≡◌};
    ghost use Rattle.record_core.specs.Inner.Statuses.{dis_status};

    fn from(fault: DisFault) -> Status {
        match fault {
            DisFault::NetText(at) => Status::NetText(at),
            DisFault::Net(fault) => Status::Net(fault),
            DisFault::ImageText(at) => Status::ImageText(at),
            DisFault::Memory => Status::Memory,
        }
    }
}

impl From<TestFault> for Status {
    ghost from_gives = { λ fault status. status ≡ test_status fault };

    ghost use Rattle.std.specs.Prelude.{◌≡◌};
    ghost use Rattle.record_core.specs.Inner.Statuses.{test_status};

    fn from(fault: TestFault) -> Status {
        match fault {
            TestFault::NetText(at) => Status::NetText(at),
            TestFault::Net(fault) => Status::Net(fault),
            TestFault::DataFull { need, have } => Status::DataFull { need, have },
            TestFault::NoStep => Status::NoStep,
            TestFault::ImageFull { len, size, bound } => Status::ImageFull { len, size, bound },
            TestFault::TestLimit { count, bound } => Status::TestLimit { count, bound },
            TestFault::Memory => Status::Memory,
        }
    }
}

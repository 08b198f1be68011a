//! Why an image isn't accepted.

ghost use Rattle.std.specs.Prelude.{◌≡◌};
ghost use Rattle.check_command.specs.declared.fault.CheckFault.{CheckFault};

use follow::MarkFault;
use net_front::NetRefusal;
use net_model::NetFault;
use rec_bits::{Name, NoMemory, ParseFault};
use src_front::SrcRefusal;
use src_model::SrcFault;

/// Where words begin that don't follow the program.
#[derive(Clone, Copy, Debug, PartialEq, Eq)]
pub enum Origin {
    /// At address 0.
    Start,
    /// At the mark of an address, where the value of its test is the answer.
    Mark { address: u32, answer: bool },
}

/// Why it isn't shown that words follow the program. Some of them tell a name beside.
#[derive(Clone, Copy, Debug, PartialEq, Eq)]
pub enum Cause {
    /// The word at this address may clash, whether a run comes there or not.
    Clash(u64),
    /// What the word at this address does isn't known: an address, or a branch's condition. Or they
    /// come to this address, which has no word.
    Word(u64),
    /// No mark comes within the clocks.
    Clocks,
    /// They come to the mark of this address, which isn't one of the program's next test.
    Mark(u64),
    /// There a variable, which is named, isn't what the program has.
    Variable,
    /// The program writes an element of an array, and it isn't known which, or what. The first array is
    /// named.
    Written,
    /// What a register holds, or a cell of the storage that is named, isn't what the mark's hint says.
    Holding(Option<u64>),
    /// Nor is the number of a variable, which is named.
    Number,
    /// More was asked than the check takes on.
    Much,
}

/// The rule that an image breaks first.
#[derive(Clone, Copy, Debug, PartialEq, Eq)]
pub enum RuleFault {
    /// The place of a variable, which is named, is the first that isn't right, or the first too many.
    Place,
    /// All places are right, and there are more temporary cells than the memory has.
    Temps,
    /// All cells are right, and this is wrong first with the marks.
    Mark(MarkFault),
    /// All marks are right, and the view of a variable, which is named, at the mark of this address is
    /// the first that isn't right: plain, modest, and the only one of its variable.
    View(u32),
    /// All views are right, and the last word doesn't plainly go to itself, or it writes the memory,
    /// or clashes.
    EndWord,
}

/// Why an image isn't accepted: the first of these that applies.
#[derive(Clone, Copy, Debug, PartialEq, Eq)]
pub enum CheckFault {
    /// The first bytes are no netlist text; the offset at which that shows.
    NetText(u64),
    /// They are one, and this is the first rule that it breaks. One with a mode register or a bank
    /// breaks N6, where it breaks no rule that is tried before.
    Net(NetFault),
    /// The first bytes are a netlist's that keeps all rules, and the second are no program text; the
    /// offset at which that shows.
    SrcText(u64),
    /// They are one, and this is the first rule that it breaks for the words of the netlist.
    Src(SrcFault),
    /// The third bytes are no image text with views for the netlist; the offset at which that shows.
    ImageText(u64),
    /// They are one, and this is the first rule that the image breaks.
    Rule(RuleFault),
    /// The image keeps all rules, and it isn't shown that words follow the program from here on.
    /// This says nothing of the image.
    Follow { origin: Origin, cause: Cause },
    /// Want of memory.
    Memory,
}

/// Why an image isn't accepted, and the name that is told of it, if it is one that tells a name.
#[derive(Drop)]
pub struct CheckStop {
    pub fault: CheckFault,
    pub name: Option<Name>,
}

impl From<CheckFault> for CheckStop {
    ghost from_gives = { λ fault stop. stop ≡ nameless fault };

    ghost use Rattle.std.specs.Prelude.{◌≡◌};
    ghost use Rattle.check_command.specs.Inner.Faults.{nameless};

    fn from(fault: CheckFault) -> CheckStop {
        CheckStop { fault, name: None }
    }
}

impl From<NoMemory> for CheckStop {
    ghost from_gives = { λ _ stop. stop ≡ nameless CheckFault.Memory };

    ghost use Rattle.std.specs.Prelude.{◌≡◌};
    ghost use Rattle.check_command.specs.Inner.Faults.{nameless};
    ghost use Rattle.check_command.specs.declared.fault.CheckFault.{CheckFault};

    fn from(_cause: NoMemory) -> CheckStop {
        CheckStop::from(CheckFault::Memory)
    }
}

impl From<NoMemory> for CheckFault {
    ghost from_gives = { λ _ fault. fault ≡ CheckFault.Memory };

    ghost use Rattle.check_command.specs.declared.fault.CheckFault.{CheckFault};

    fn from(_cause: NoMemory) -> CheckFault {
        CheckFault::Memory
    }
}

impl From<NetRefusal> for CheckFault {
    ghost from_gives = { λ refusal fault. fault ≡ net_fault refusal };

    ghost use Rattle.std.specs.Prelude.{◌≡◌};
    ghost use Rattle.check_command.specs.Inner.Faults.{net_fault};

    fn from(refusal: NetRefusal) -> CheckFault {
        match refusal {
            NetRefusal::Text(at) => CheckFault::NetText(at),
            NetRefusal::Fault(fault) => CheckFault::Net(fault),
            NetRefusal::Memory => CheckFault::Memory,
        }
    }
}

impl From<SrcRefusal> for CheckFault {
    ghost from_gives = { λ refusal fault. fault ≡ src_fault refusal };

    ghost use Rattle.std.specs.Prelude.{◌≡◌};
    ghost use Rattle.check_command.specs.Inner.Faults.{src_fault};

    fn from(refusal: SrcRefusal) -> CheckFault {
        match refusal {
            SrcRefusal::Text(at) => CheckFault::SrcText(at),
            SrcRefusal::Fault(fault) => CheckFault::Src(fault),
            SrcRefusal::Memory => CheckFault::Memory,
        }
    }
}

impl From<ParseFault> for CheckFault {
    ghost from_gives = { λ parse fault. fault ≡ image_fault parse };

    ghost use Rattle.std.specs.Prelude.{◌≡◌};
    ghost use Rattle.check_command.specs.Inner.Faults.{image_fault};

    fn from(fault: ParseFault) -> CheckFault {
        match fault {
            ParseFault::Text(at) => CheckFault::ImageText(at),
            ParseFault::Memory => CheckFault::Memory,
        }
    }
}

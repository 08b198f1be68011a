//! Why there is no self-test.

ghost use Rattle.std.specs.Prelude.{◌≡◌};

use net_front::NetRefusal;
use net_model::NetFault;
use rec_bits::NoMemory;

/// Why there is no self-test: the first of these that applies.
#[derive(Clone, Copy, Debug, PartialEq, Eq)]
pub enum TestFault {
    /// The bytes are no netlist text; the offset at which that shows.
    NetText(u64),
    /// They are one, and this is the first rule that it breaks: N10, and then N12 or N13, come
    /// after all others.
    Net(NetFault),
    /// The netlist keeps all rules, and its self-test needs more cells than its memory has.
    DataFull { need: u64, have: u64 },
    /// It has room, and no form of the netlist is but a jump or a branch.
    NoStep,
    /// There is another form, and the self-test has more words than there is room for: `len` words,
    /// where it might have `bound`.
    ImageFull { len: u64, size: u64, bound: u64 },
    /// There is room for them, and its faults, its words and its nets take more evaluations than
    /// the limit: `count`, which is their product.
    TestLimit { count: u64, bound: u64 },
    /// Want of memory.
    Memory,
}

impl From<NoMemory> for TestFault {
    ghost from_gives = { λ _ fault. fault ≡ TestFault.Memory };

    ghost use Rattle.test_command.specs.declared.fault.TestFault.{TestFault};

    fn from(_cause: NoMemory) -> TestFault {
        TestFault::Memory
    }
}

impl From<NetRefusal> for TestFault {
    ghost from_gives = { λ refusal fault. fault ≡ test_net_fault refusal };

    ghost use Rattle.std.specs.Prelude.{◌≡◌};
    ghost use Rattle.test_command.specs.Inner.Faults.{test_net_fault};

    fn from(refusal: NetRefusal) -> TestFault {
        match refusal {
            NetRefusal::Text(at) => TestFault::NetText(at),
            NetRefusal::Fault(fault) => TestFault::Net(fault),
            NetRefusal::Memory => TestFault::Memory,
        }
    }
}

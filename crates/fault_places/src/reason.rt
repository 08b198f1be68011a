//! What is wrong, in words.

use check_command::RuleFault;
use follow::MarkFault;
use net_model::NetFault;
use record_core::Status;
use src_model::SrcFault;

fn net_reason(fault: NetFault) -> &'static str {
    match fault {
        NetFault::Duplicate(_) => "the name stands for two things",
        NetFault::Unknown(_) => "the name stands for nothing here",
        NetFault::Width(_) => "widths don't fit",
        NetFault::Driver(_) => "an input, an output or a row of a case is missing or stands twice",
        NetFault::Cycle(_) => "it depends on itself without a register between",
        NetFault::Enable(_) => "an enable depends on more than the instruction word",
        NetFault::ControlOp(_) => "control is computed by an operator that isn't allowed there",
        NetFault::WideSelect(_) => "a selector that depends on a state is wider than one bit",
        NetFault::PatternLarge(_) => "an expression that it may have is too large",
        NetFault::TooMany(_) => "it may have too many expressions",
        NetFault::FileAddr(_) => "an address of it depends on more than the instruction word",
        NetFault::Role(_) | NetFault::AlwaysClash | NetFault::Limit { .. } => "",
    }
}

fn src_reason(fault: SrcFault) -> &'static str {
    match fault {
        SrcFault::Duplicate(_) => "the name is declared twice",
        SrcFault::Unknown(_) => "the name isn't declared, or not as it is used",
        SrcFault::Width(_) => "widths don't fit",
        SrcFault::Index(_) => "the index may lie outside its array",
        SrcFault::Counter(_) => "the counter is changed in its loop, or its bounds don't fit",
        SrcFault::Limit { .. } => "",
    }
}

/// What is wrong at the place that a status tells of; the empty text where it tells of none.
pub fn reason_of(status: Status) -> &'static str {
    match status {
        Status::NetText(_) => "no netlist goes on like this",
        Status::Net(fault) => net_reason(fault),
        Status::SrcText(_) => "no program goes on like this",
        Status::Src(fault) => src_reason(fault),
        Status::NoCover(_) => "no transfers of the netlist do this; `record explain` tells why",
        Status::ImageText(_) => "no line of an image for this netlist",
        Status::PartText(_) => "no line of a part of the program's variables",
        Status::Rule(RuleFault::Mark(MarkFault::Unmarked(_))) =>
            "no mark of the image is of this test",
        Status::MemText(_) => "no line of a memory text for this netlist",
        Status::AsmText(_) => "no line of an assembler text for this netlist",
        Status::AsmWord(_) => "no instruction word does this",
        _ => "",
    }
}

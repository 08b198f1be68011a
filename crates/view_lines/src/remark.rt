//! What a line may say.

use rec_bits::Name;
use view_terms::Term;

/// What holds a value: a register, or a cell of the memory or the register file.
#[derive(Drop)]
pub enum Holder {
    Register(Name),
    Cell { cells: Name, at: u32 },
}

/// What a line says. A label is a test's number or, without one, the end.
#[derive(Drop)]
pub enum Remark {
    /// At the marks of the label the variable isn't shown.
    Hide {
        label: Option<u32>,
        name: Name,
    },
    /// At the mark the variable is the value of the term, which is one over registers.
    View {
        address: u32,
        name: Name,
        value: Term,
    },
    /// At the mark the holder has the value of the term, which is one over variables.
    Hold {
        address: u32,
        holder: Holder,
        value: Term,
    },
    /// At the mark the variable is this number.
    Know {
        address: u32,
        name: Name,
        value: u64,
    },
}

//! The forms of a netlist: the transfers that code is made of.

ghost use Rattle.form_model.specs.Registers.{AreLow};
ghost use Rattle.form_model.specs.Forms.{models_of_forms};

use net_model::Expr;

/// A set of storages: bit `s` stands for the storage of number `s`, below 16.
pub type RegSet = u16;

/// What a form's transfer goes to.
#[derive(Drop)]
pub enum Goal {
    /// The register of this number.
    Reg(u32),
    /// The data memory.
    Memory,
    /// The register file.
    File,
    /// The program counter, in every case; `reach` is the least address that no setting of the
    /// form's bits gives.
    Jump { reach: u64 },
    /// The program counter: the target where the condition is 1, or where it is 0, and otherwise
    /// the next word.
    Branch { when_one: bool, target: Target },
}

/// Where a branch goes. The expression is a field shape.
#[derive(Drop)]
pub enum Target {
    /// The address that the expression gives.
    Absolute(Expr),
    /// So many words on as the expression gives.
    Relative(Expr),
}

/// A transfer of which code can be made: for each choice of its field bits some word does it,
/// steps, and changes nothing that it needn't but the clobbers.
#[derive(Drop)]
pub struct Form {
    /// The number of its pattern.
    pub pattern: u32,
    pub goal: Goal,
    /// The address of a write of the memory or of the file, with the form's swaps.
    pub addr: Option<Expr>,
    /// The value that is written, or the condition of a branch, with the form's swaps.
    pub value: Expr,
    /// The instruction bits that occur in the pattern.
    pub fields: u64,
    /// The registers and memories that it may change, its own among them; the file isn't one.
    pub clobbers: RegSet,
    /// Of a form that writes the file: the place from the left, from 0, of the operand that is read
    /// at the form's own address, where there is one.
    pub tied: Option<u32>,
}

/// The forms of a netlist in their order.
#[derive(Drop)]
pub struct Forms {
    pub list: Vec<Form>,
    /// The greatest reach of the jump forms, and 0 where there is none.
    pub reach: u64,
    /// The number of cells of the register file, and 0 where there is none.
    pub file: u32,
    /// A set of registers has a bit for each register that a form goes to or names.
    pub ghost low: { AreLow (models_of_forms list.items) },
}

/// A pattern with the values of its field bits.
#[derive(Clone, Copy, PartialEq, Eq)]
pub struct Step {
    /// The number of the pattern.
    pub pattern: u32,
    /// The values of the field bits, in their places in the word, and 0 in all other bits.
    pub setting: u64,
}

//! A netlist: nets, storages and codes.

ghost use Rattle.std.specs.Prelude.{◌≡◌, option_copied, slice_get};
ghost use Rattle.net_model.specs.Nets.{is_in, space_at, storage_name, width_of, word_width};
ghost use Rattle.net_model.specs.NetFaults.{name_at};
ghost use Rattle.net_model.specs.CheckedRules.{code_size};

use rec_bits::{Items, Name, Op1, Op2};

/// What gives a net its value. Nets, storages and codes are named by their numbers.
#[derive(Drop)]
pub enum Gate {
    /// The instruction word of a code.
    Word(u32),
    /// A register's state.
    Reg(u32),
    /// The cell at an address of the memory or the file of this number, and 0 past its size.
    Read {
        memory: u32,
        addr: u32,
    },
    /// A constant.
    Const(u64),
    /// The value of another net.
    Wire(u32),
    /// An operator of one operand.
    Un(Op1, u32),
    /// An operator of two operands.
    Bin(Op2, u32, u32),
    /// The bits of a net from `hi` down to `lo`.
    Slice {
        of: u32,
        hi: u8,
        lo: u8,
    },
    /// The first net above the second.
    Cat(u32, u32),
    /// Zeros above a net.
    Zext(u32),
    /// Copies of the top bit above a net.
    Sext(u32),
    /// The net of the row with the selector's number, or that of the rest.
    Case {
        sel: u32,
        rows: Items<(u64, u32)>,
        rest: Option<u32>,
    },
    /// The value of the one driver that is enabled, or 0; pairs of a value and its enable.
    Bus(Items<(u32, u32)>),
}

/// A net: its width of 1 to 64 bits, the offset of its item's name in the text, and its gate.
#[derive(Drop)]
pub struct Net {
    pub width: u8,
    pub name_at: u64,
    pub gate: Gate,
}

/// Which cells: those of the data memory, or those of the register file.
#[derive(Clone, Copy, PartialEq, Eq)]
pub enum Space {
    Memory,
    File,
}

/// Cells at addresses, with the offset of their name in the text, and the nets that write one of
/// them at each clock: its value, its address and, if not always, its enable.
#[derive(Drop)]
pub struct Cells {
    pub name: Name,
    pub name_at: u64,
    pub width: u8,
    pub size: u32,
    pub addr_width: u8,
    pub value: u32,
    pub addr: u32,
    pub when: Option<u32>,
}

/// A register, a memory, or a register file. The bank of a netlist that has one, its second data
/// memory, is kept as a file is. What feeds a storage is named by the numbers of nets; without a
/// `when` it takes its input at each clock.
#[derive(Drop)]
pub enum Storage {
    Register {
        name: Name,
        width: u8,
        input: u32,
        when: Option<u32>,
    },
    Memory(Cells),
    File(Cells),
}

/// An instruction memory: the bits of a word, how many words there may be, and the storage that
/// counts through them.
#[derive(Drop)]
pub struct Code {
    pub name: Name,
    pub bits: u8,
    pub words: u32,
    pub counter: u32,
}

/// A netlist. A net, a storage or a code is named by its place.
#[derive(Drop)]
pub struct Netlist {
    pub nets: Items<Net>,
    pub storages: Items<Storage>,
    pub codes: Items<Code>,
    /// The edition of its text: 2 where it has a register file, 3 where it has a mode, 4 where it
    /// has a bank, and otherwise 1; 5 where it is the view of one that has a bank.
    pub edition: u8,
    /// The register that is the mode, where the edition has one, and it is alone and has 2 bits at
    /// most; or the file that is the bank, where the edition has one, and it is alone.
    pub special: Option<u32>,
}

impl Storage {
    /// The storage's name.
    pub fn name(&self) -> &[u8]
        ensures { result.now ≡ storage_name self.now }
    {
        match self {
            Storage::Register { name, .. } => name.as_slice(),
            Storage::Memory(cells) | Storage::File(cells) => cells.name.as_slice(),
        }
    }

    /// Whether the storage has the cells of this space.
    pub fn is_in(&self, space: Space) -> bool
        ensures { result ≡ is_in space self.now }
    {
        match (space, self) {
            (Space::Memory, Storage::Memory(_)) | (Space::File, Storage::File(_)) => true,
            _ => false,
        }
    }
}

impl Netlist {
    /// The net of this number, or None past the last.
    pub fn net(&self, id: u32) -> Option<&Net>
        ensures { option_copied result ≡ slice_get self.now.nets id }
    {
        self.nets.get(id as usize)
    }

    /// The storage of this number, or None past the last.
    pub fn storage(&self, id: u32) -> Option<&Storage>
        ensures { option_copied result ≡ slice_get self.now.storages id }
    {
        self.storages.get(id as usize)
    }

    /// The cells that a read of the storage of this number is of.
    pub fn space(&self, id: u32) -> Space
        ensures { result ≡ space_at self.now id }
    {
        match self.storage(id) {
            Some(Storage::File(_)) => Space::File,
            _ => Space::Memory,
        }
    }

    /// The width of the net of this number, or None past the last.
    pub fn width(&self, id: u32) -> Option<u8>
        ensures { result ≡ width_of self.now id }
    {
        match self.net(id) {
            Some(net) => Some(net.width),
            None => None,
        }
    }

    /// The offset of the name that the net of this number was made for, and 0 past the last.
    pub fn name_at(&self, id: u32) -> u64
        ensures { result ≡ name_at self.now id }
    {
        match self.net(id) {
            Some(net) => net.name_at,
            None => 0,
        }
    }

    /// The number of bits of an instruction word, and 0 where there is no code.
    pub fn word_width(&self) -> u8
        ensures { result ≡ word_width self.now }
    {
        match self.codes.get(0) {
            Some(code) => code.bits,
            None => 0,
        }
    }

    /// The number of instruction words, and 0 where there is no code.
    pub fn code_size(&self) -> u32
        ensures { result ≡ code_size self.now.codes }
    {
        match self.codes.get(0) {
            Some(code) => code.words,
            None => 0,
        }
    }
}

//! The items of a netlist text, as written.

use crate::Space;
use grammar::Ident;
use rec_bits::{Items, Op1, Op2};

/// The edition of a text, 1 where it tells none, and its items, in their order.
#[derive(Drop)]
pub struct Units {
    pub edition: u8,
    pub items: Items<Unit>,
}

/// Which register: a plain one, or the mode, at each of whose numbers words do something else.
#[derive(Clone, Copy, PartialEq, Eq)]
pub enum RegisterKind {
    Plain,
    Mode,
}

/// An item: its names, numbers and expressions, in their order.
#[derive(Drop)]
pub enum Unit {
    Code {
        name: Ident,
        bits: u64,
        size: u64,
        counter: Ident,
    },
    /// A register, or the mode.
    Register {
        kind: RegisterKind,
        name: Ident,
        width: u64,
        input: NetExpr,
        when: Option<NetExpr>,
    },
    /// A memory, a register file, or in a text of the edition that adds it the bank.
    Memory {
        space: Space,
        name: Ident,
        width: u64,
        size: u64,
        addr_width: u64,
        value: NetExpr,
        addr: NetExpr,
        when: Option<NetExpr>,
    },
    Net {
        name: Ident,
        width: u64,
        value: NetExpr,
    },
    /// The drivers are pairs of a value and its enable.
    Bus {
        name: Ident,
        width: u64,
        drivers: Items<(NetExpr, NetExpr)>,
    },
    Module {
        name: Ident,
        ports: Items<Port>,
        equations: Items<(Ident, NetExpr)>,
    },
    Part {
        name: Ident,
        module: Ident,
        links: Items<(Ident, NetExpr)>,
    },
}

/// An input or an output of a module.
#[derive(Drop)]
pub struct Port {
    pub output: bool,
    pub name: Ident,
    pub width: u64,
}

/// An expression.
#[derive(Drop)]
pub enum NetExpr {
    /// What a name stands for, or an output of the part of that name; of it the bits from the first
    /// number down to the second. A bracket with one number gives that number twice.
    Named {
        name: Ident,
        field: Option<Ident>,
        bits: Option<(u64, u64)>,
    },
    Const {
        value: u64,
        width: u64,
    },
    Un(Op1, Box<NetExpr>),
    Bin(Op2, Box<NetExpr>, Box<NetExpr>),
    /// The first above the second.
    Cat(Box<NetExpr>, Box<NetExpr>),
    /// The bits from the first number down to the second.
    Slice(Box<NetExpr>, u64, u64),
    /// Widened to so many bits, by zeros or by copies of the top bit.
    Zext(Box<NetExpr>, u64),
    Sext(Box<NetExpr>, u64),
    /// The cell of a memory or a file at an address.
    Read(Ident, Box<NetExpr>),
    /// What the row with the selector's number gives, or the rest; a row's numbers and its value.
    Case {
        sel: Box<NetExpr>,
        rows: Vec<(Vec<u64>, NetExpr)>,
        rest: Option<Box<NetExpr>>,
    },
}

//! Expressions with cells in place of names, and their values.

ghost use Rattle.std.specs.Prelude.{◌≡◌, ◌+◌, ◌^◌, ◌<◌, ◌≤◌, slice_index, slice_set, if◌then◌else◌};
ghost use Rattle.src_model.specs.Meaning.{compares};
ghost use Rattle.src_eval.specs.Formulas.{Sound, formula_value, met, SoundSides};

use rec_bits::{Items, Op1, Op2, apply1, apply2, sext, slice};
use src_model::Cmp;

/// An expression of a program, with its variables' cells and its operators' widths.
#[derive(Drop)]
pub enum Formula {
    Number(u64),
    /// What a cell holds.
    Cell(u64),
    /// What a cell of an array holds, by the array's first cell and an index.
    Element(u64, Box<Formula>),
    /// An operator, with the width of its operands.
    Un(Op1, u8, Box<Formula>),
    Bin(Op2, u8, Box<Formula>, Box<Formula>),
    /// Copies of the top bit, from the first width up to the second.
    Sext(u8, u8, Box<Formula>),
    /// The low bits, so many.
    Low(u8, Box<Formula>),
}

// What a cell holds, so far behind the first; 0 where there is none.
fn cell(cells: &[u64], first: u64, index: u64) -> u64
    ensures { result ≡ slice_index cells.now (first + index) }
{
    match first.checked_add(index) {
        Some(at) if at < cells.len() as u64 => cells[at as usize],
        _ => 0,
    }
}

/// Puts a value into a cell, so far behind the first, if there is one.
pub fn put(cells: &mut Items<u64>, first: u64, index: u64, value: u64)
    ensures { cells.new ≡ slice_set cells.old (first + index) value }
{
    let len = cells.len() as u64;
    match first.checked_add(index) {
        Some(at) if at < len => cells.set(at as usize, value),
        _ => {}
    }
}

impl Formula {
    /// The value of an expression in a store. Its operators' operands fit their widths.
    pub fn value(&self, cells: &[u64]) -> u64
        requires { Sound cells.now self.now }
        ensures { result ≡ formula_value cells.now self.now }
    {
        match self {
            Formula::Number(n) => *n,
            Formula::Cell(at) => cell(cells, *at, 0),
            Formula::Element(first, index) => cell(cells, *first, index.value(cells)),
            Formula::Un(op, width, x) => apply1(*op, *width, x.value(cells)),
            Formula::Bin(op, width, x, y) => apply2(*op, *width, x.value(cells), y.value(cells)),
            Formula::Sext(from, to, x) => sext(x.value(cells), *from, *to),
            Formula::Low(width, x) => slice(x.value(cells), *width - 1, 0),
        }
    }
}

/// A test of two sides of one width.
#[derive(Drop)]
pub struct Comparison {
    pub cmp: Cmp,
    pub width: u8,
    pub left: Formula,
    pub right: Formula,
}

fn compares(cmp: Cmp, width: u8, a: u64, b: u64) -> bool
    requires low { 1 ≤ width }
    requires high { width ≤ 64 }
    requires left { a < 2 ^ width }
    requires right { b < 2 ^ width }
    ensures { result ≡ compares cmp width a b }
{
    match cmp {
        Cmp::Eq => a == b,
        Cmp::Ne => a != b,
        Cmp::Lt => a < b,
        Cmp::Le => a <= b,
        Cmp::Gt => a > b,
        Cmp::Ge => a >= b,
        Cmp::Slt => apply2(Op2::Lts, width, a, b) == 1,
        Cmp::Sle => apply2(Op2::Lts, width, b, a) == 0,
        Cmp::Sgt => apply2(Op2::Lts, width, b, a) == 1,
        Cmp::Sge => apply2(Op2::Lts, width, a, b) == 0,
    }
}

impl Comparison {
    /// Whether the test holds in a store. Its sides fit their width, and so do the operands within.
    pub fn holds(&self, cells: &[u64]) -> bool
        requires { SoundSides cells.now self.now }
        ensures { result ≡ met self.now cells.now }
    {
        let left = self.left.value(cells);
        let right = self.right.value(cells);
        compares(self.cmp, self.width, left, right)
    }

    /// The first place where the test holds in a store, and else the second.
    pub fn choose(&self, cells: &[u64], on_true: usize, on_false: usize) -> usize
        requires { SoundSides cells.now self.now }
        ensures { result ≡ (if met self.now cells.now then on_true else on_false) }
    {
        if self.holds(cells) { on_true } else { on_false }
    }
}

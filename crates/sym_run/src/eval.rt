//! The classes of expressions over what is known of a state.

ghost use Rattle.std.specs.Prelude.{◌≡◌, ◌<◌, true, length, IfOk, IfSome};
ghost use Rattle.sym_expr.specs.Pools.{expr_of_id};
ghost use Rattle.sym_run.specs.Known.{Evaluates, entry};
ghost use Rattle.sym_run.specs.Reading.{IsCell};
ghost use Rattle.sym_run.specs.Inner.Reading.{SomeAlias, IsAlias, IsFileCell, IsOfWidth, IsReg};
ghost use Rattle.tree_laws.specs.Classes.{Grows};

use crate::behind::element;
use crate::choices::{either, joined};
use crate::known::{Cell, Element, Known};
use class_values::{
    Fact, are_same, binary, class_of, number, number_of, sign_extended, sliced, unary,
    zero_extended,
};
use rec_bits::NoMemory;
use sym_expr::{ExprId, Node, Pool};
use tree_laws::Classes;

/// An instruction word, with what is known of the state before it.
#[derive(Clone, Copy)]
pub struct Step<'a> {
    pub pool: &'a Pool,
    pub facts: &'a [Fact],
    pub known: &'a Known,
    pub word: u64,
}

// A class that has this width.
pub(crate) fn of_width(table: &Classes, class: u64, width: u8) -> Option<u64>
    ensures { IfSome result (IsOfWidth table.now class width) }
{
    if table.width(class)? == width {
        Some(class)
    } else {
        None
    }
}

// The class of a register of this width.
fn register(table: &Classes, known: &Known, register: u32, width: u8) -> Option<u64>
    ensures { IfSome result (IsReg table.now known.now register width) }
{
    match known.regs.get(register as usize) {
        Some(Some(class)) => of_width(table, *class, width),
        _ => None,
    }
}

// What is known of a cell of the register file.
fn in_file(known: &Known, address: u64) -> Option<u64>
    ensures { result ≡ entry known.now.file address }
{
    match known.file.get(address as usize) {
        Some(class) => *class,
        None => None,
    }
}

// The class of a cell of the register file of this width, whose address has the class.
fn file_cell(table: &Classes, facts: &[Fact], known: &Known, addr: u64, width: u8) -> Option<u64>
    ensures { IfSome result (IsFileCell table.now facts.now known.now addr width) }
{
    let address = number_of(table, facts, addr)?;
    let class = in_file(known, address)?;
    of_width(table, class, width)
}

// The class by which an array's cell is read, where the class is of its address.
fn alias(table: &Classes, elements: &[Element], class: u64) -> Option<u64>
    ensures { IfSome result (IsAlias table.now elements.now class) }
{
    for element in elements {
        if are_same(table, class, element.class) {
            return Some(element.like);
        }
    }
    None
}

// Whether the class is of an address of an array.
pub(crate) fn is_alias(table: &Classes, elements: &[Element], class: u64) -> bool
    ensures { result ≡ true → SomeAlias table.now elements.now class }
{
    match alias(table, elements, class) {
        Some(_like) => true,
        None => false,
    }
}

// The class by which an array's cell is read, where the class is of a listed address.
fn listed_alias(table: &Classes, known: &Known, class: u64) -> Option<u64>
    ensures { IfSome result (IsAlias table.now known.now.inside class) }
{
    alias(table, known.inside.as_slice(), class)
}

/// The class of a cell of the memory of this width, whose address has the class.
pub fn cell(
    table: &mut Classes,
    facts: &[Fact],
    known: &Known,
    addr: u64,
    width: u8,
) -> Result<Option<u64>, NoMemory>
    ensures grows { Grows table.old table.new }
    ensures is { IfOk result (λ found. IfSome found (IsCell table.old table.new facts.now known.now addr width)) }
{
    if let Some(like) = listed_alias(table, known, addr) {
        return element(table, facts, known, like, width);
    }
    let Some(at) = number_of(table, facts, addr) else {
        return Ok(None);
    };
    match known.cells.get(at as usize) {
        Some(Cell::Is(class)) => Ok(of_width(table, *class, width)),
        Some(Cell::Kept) => class_of(table, Node::Read(addr, width)),
        Some(Cell::Array) => element(table, facts, known, addr, width),
        _ => Ok(None),
    }
}

impl Step<'_> {
    /// The class of an expression's value under the word, or None where it isn't known.
    pub fn eval(&self, table: &mut Classes, id: ExprId) -> Result<Option<u64>, NoMemory>
        requires { id < length self.now.pool.now }
        ensures grows { Grows table.old table.new }
        ensures is { IfOk result (λ found. IfSome found
            (Evaluates table.old table.new self.now.facts.now self.now.known.now self.now.word (expr_of_id self.now.pool.now id))) }
    {
        match self.pool.node(id) {
            Node::Word(width) => number(table, width, self.word),
            Node::Const { width, value } => number(table, width, value),
            Node::Reg(id, width) => Ok(register(table, self.known, id, width)),
            Node::Read(addr, width) => {
                let Some(addr) = self.eval(table, addr)? else {
                    return Ok(None);
                };
                cell(table, self.facts, self.known, addr, width)
            }
            Node::Un(op, a) => {
                let Some(a) = self.eval(table, a)? else {
                    return Ok(None);
                };
                unary(table, self.facts, op, a)
            }
            Node::Bin(op, a, b) => {
                let Some(a) = self.eval(table, a)? else {
                    return Ok(None);
                };
                let Some(b) = self.eval(table, b)? else {
                    return Ok(None);
                };
                binary(table, self.facts, op, a, b)
            }
            Node::Slice(a, hi, lo) => {
                let Some(a) = self.eval(table, a)? else {
                    return Ok(None);
                };
                sliced(table, self.facts, a, hi, lo)
            }
            Node::Zext(a, width) => {
                let Some(a) = self.eval(table, a)? else {
                    return Ok(None);
                };
                zero_extended(table, self.facts, a, width)
            }
            Node::Sext(a, width) => {
                let Some(a) = self.eval(table, a)? else {
                    return Ok(None);
                };
                sign_extended(table, self.facts, a, width)
            }
            Node::Select(c, a, b) => {
                let Some(c) = self.eval(table, c)? else {
                    return Ok(None);
                };
                match number_of(table, self.facts, c) {
                    Some(way) => {
                        if way == 1 {
                            self.eval(table, a)
                        } else {
                            self.eval(table, b)
                        }
                    }
                    None => {
                        let Some(a) = self.eval(table, a)? else {
                            return Ok(None);
                        };
                        let Some(b) = self.eval(table, b)? else {
                            return Ok(None);
                        };
                        either(table, self.facts, c, a, b)
                    }
                }
            }
            Node::Cell(addr, width) => {
                let Some(addr) = self.eval(table, addr)? else {
                    return Ok(None);
                };
                Ok(file_cell(table, self.facts, self.known, addr, width))
            }
            Node::Cat(a, b) => {
                let Some(a) = self.eval(table, a)? else {
                    return Ok(None);
                };
                let Some(b) = self.eval(table, b)? else {
                    return Ok(None);
                };
                joined(table, self.facts, a, b)
            }
        }
    }
}

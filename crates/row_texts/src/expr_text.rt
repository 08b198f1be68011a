//! Expressions, as patterns are written.

use crate::fault::RowFault;
use crate::text::put;
use net_model::{Checked, Expr, Space};
use std::alloc::AllocError;
use transfer_set::{word_of_one, word_of_two};

// Adds a name, whose bytes are those of a text's token.
fn add_name(text: &mut String, name: &[u8]) -> Result<(), RowFault> {
    match std::str::from_utf8(name) {
        Ok(name) => Ok(text.push_str(name)?),
        Err(_) => Err(RowFault::Name),
    }
}

/// Adds the name of the storage of this number.
pub fn add_storage(text: &mut String, checked: &Checked, id: u32) -> Result<(), RowFault> {
    match checked.netlist().storage(id) {
        Some(storage) => add_name(text, storage.name()),
        None => Err(RowFault::Name),
    }
}

// Adds the name of the instruction word.
fn add_code(text: &mut String, checked: &Checked) -> Result<(), RowFault> {
    match checked.netlist().codes.get(0) {
        Some(code) => add_name(text, code.name.as_slice()),
        None => Err(RowFault::Name),
    }
}

// Adds a word and a bracket that opens.
fn begin(text: &mut String, word: &str) -> Result<(), AllocError> {
    text.push_str(word)?;
    text.push_str("(")
}

// Adds a constant with its width.
fn add_constant(text: &mut String, value: u64, width: u8) -> Result<(), AllocError> {
    put(text, "", value)?;
    put(text, "#", u64::from(width))
}

// Adds the two ends of a slice.
fn add_ends(text: &mut String, hi: u8, lo: u8) -> Result<(), AllocError> {
    put(text, ",", u64::from(hi))?;
    put(text, ",", u64::from(lo))
}

// Adds the name of a space, and a comma.
fn add_space(text: &mut String, checked: &Checked, space: Space) -> Result<(), RowFault> {
    add_storage(text, checked, checked.place(space))?;
    Ok(text.push_str(",")?)
}

// The word of an operator, or of a read.
fn word_of(expr: &Expr) -> &'static str {
    match expr {
        Expr::Un(op, _) => word_of_one(*op),
        Expr::Bin(op, _, _) => word_of_two(*op),
        Expr::Slice(_, _, _) => "slice",
        Expr::Cat(_, _) => "cat",
        Expr::Zext(_, _) => "zext",
        Expr::Sext(_, _) => "sext",
        Expr::Select(_, _, _) => "select",
        _ => "read",
    }
}

// Adds what stands in the brackets of an operator or a read.
#[cycle(writing)]
fn add_operands(text: &mut String, checked: &Checked, expr: &Expr) -> Result<(), RowFault> {
    match expr {
        Expr::Read(a, _) => {
            add_space(text, checked, Space::Memory)?;
            add_expr(text, checked, a)
        }
        Expr::Cell(a, _) => {
            add_space(text, checked, Space::File)?;
            add_expr(text, checked, a)
        }
        Expr::Un(_, a) => add_expr(text, checked, a),
        Expr::Bin(_, a, b) | Expr::Cat(a, b) => {
            add_expr(text, checked, a)?;
            text.push_str(",")?;
            add_expr(text, checked, b)
        }
        Expr::Slice(a, hi, lo) => {
            add_expr(text, checked, a)?;
            Ok(add_ends(text, *hi, *lo)?)
        }
        Expr::Zext(a, width) | Expr::Sext(a, width) => {
            add_expr(text, checked, a)?;
            Ok(put(text, ",", u64::from(*width))?)
        }
        Expr::Select(c, a, b) => {
            add_expr(text, checked, c)?;
            text.push_str(",")?;
            add_expr(text, checked, a)?;
            text.push_str(",")?;
            add_expr(text, checked, b)
        }
        Expr::Word(_) | Expr::Reg(_, _) | Expr::Const { .. } => Ok(()),
    }
}

/// Adds an expression as patterns are written.
#[cycle(writing)]
pub fn add_expr(text: &mut String, checked: &Checked, expr: &Expr) -> Result<(), RowFault> {
    match expr {
        Expr::Word(_) => add_code(text, checked),
        Expr::Reg(id, _) => add_storage(text, checked, *id),
        Expr::Const { width, value } => Ok(add_constant(text, *value, *width)?),
        _ => {
            begin(text, word_of(expr))?;
            add_operands(text, checked, expr)?;
            Ok(text.push_str(")")?)
        }
    }
}

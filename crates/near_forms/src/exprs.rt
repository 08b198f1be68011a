//! Expressions of forms, as patterns are written.

use crate::text::{Names, put, put_code, put_constant, put_more, put_space, put_storage};
use net_model::{Expr, Space};
use rec_bits::NoMemory;
use transfer_set::{word_of_one, word_of_two};

// The word of an operator, or of a read.
fn word_of(expr: &Expr) -> &'static str {
    match expr {
        Expr::Un(op, _) => word_of_one(*op),
        Expr::Bin(op, _, _) => word_of_two(*op),
        Expr::Slice(_, _, _) => "slice",
        Expr::Cat(_, _) => "cat",
        Expr::Zext(_, _) => "zext",
        Expr::Sext(_, _) => "sext",
        Expr::Select(_, _, _) => "select",
        _ => "read",
    }
}

// Adds what stands in the brackets of an operator or a read.
#[cycle(writing)]
fn add_operands(text: &mut Vec<u8>, names: Names, expr: &Expr) -> Result<(), NoMemory> {
    match expr {
        Expr::Read(a, _) => {
            put_space(text, names, Space::Memory)?;
            put(text, b",")?;
            add_expr(text, names, a)
        }
        Expr::Cell(a, _) => {
            put_space(text, names, Space::File)?;
            put(text, b",")?;
            add_expr(text, names, a)
        }
        Expr::Un(_, a) => add_expr(text, names, a),
        Expr::Bin(_, a, b) | Expr::Cat(a, b) => {
            add_expr(text, names, a)?;
            put(text, b",")?;
            add_expr(text, names, b)
        }
        Expr::Slice(a, hi, lo) => {
            add_expr(text, names, a)?;
            put_more(text, *hi)?;
            put_more(text, *lo)
        }
        Expr::Zext(a, width) => {
            add_expr(text, names, a)?;
            put_more(text, *width)
        }
        Expr::Sext(a, width) => {
            add_expr(text, names, a)?;
            put_more(text, *width)
        }
        Expr::Select(c, a, b) => {
            add_expr(text, names, c)?;
            put(text, b",")?;
            add_expr(text, names, a)?;
            put(text, b",")?;
            add_expr(text, names, b)
        }
        _ => Ok(()),
    }
}

/// Adds an expression as patterns are written.
#[cycle(writing)]
pub fn add_expr(text: &mut Vec<u8>, names: Names, expr: &Expr) -> Result<(), NoMemory> {
    match expr {
        Expr::Word(_) => put_code(text, names),
        Expr::Reg(id, _) => put_storage(text, names, *id),
        Expr::Const { width, value } => put_constant(text, *value, *width),
        _ => {
            put(text, word_of(expr).as_bytes())?;
            put(text, b"(")?;
            add_operands(text, names, expr)?;
            put(text, b")")
        }
    }
}

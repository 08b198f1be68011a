//! A difference in words.

use crate::differences::Difference;
use crate::exprs::add_expr;
use crate::text::{Names, put, put_memory, put_number, put_space, put_storage};
use crate::trees::add_tree;
use cover_lacks::is_same;
use form_model::{Form, Goal, Tree};
use net_model::{Expr, Space};
use rec_bits::NoMemory;
use tree_grammar::{expr_width, low_bits, tree_width};

// The greatest number of so many bits.
fn greatest(width: u64) -> u64 {
    low_bits(u64::MAX, width)
}

// Adds a number of so many bits in two's complement.
fn put_signed(text: &mut Vec<u8>, value: u64, width: u64) -> Result<(), NoMemory> {
    if value <= greatest(width.saturating_sub(1)) {
        return put_number(text, value);
    }
    put(text, b"-")?;
    put_number(
        text,
        greatest(width).saturating_sub(value).saturating_add(1),
    )
}

// Adds the least and the greatest number that a field of so many bits shows.
fn put_range(text: &mut Vec<u8>, width: u64) -> Result<(), NoMemory> {
    put(text, b", 0 to ")?;
    put_number(text, greatest(width))
}

// The same of a field that is widened by copies of its top bit.
fn put_signed_range(text: &mut Vec<u8>, width: u64) -> Result<(), NoMemory> {
    let most = greatest(width.saturating_sub(1));
    put(text, b", -")?;
    put_number(text, most.saturating_add(1))?;
    put(text, b" to ")?;
    put_number(text, most)
}

// Adds which numbers a field shape shows.
fn put_shown(text: &mut Vec<u8>, shape: &Expr) -> Result<(), NoMemory> {
    match shape {
        Expr::Sext(a, _) => put_signed_range(text, expr_width(a)),
        Expr::Zext(a, _) => put_range(text, expr_width(a)),
        // a sum's numbers are no range from 0 on, and a constant is itself the one
        Expr::Const { .. } | Expr::Bin(..) => Ok(()),
        _ => put_range(text, expr_width(shape)),
    }
}

// Adds that a number isn't shown.
fn put_unshown(text: &mut Vec<u8>, names: Names, shape: &Expr, value: u64) -> Result<(), NoMemory> {
    match shape {
        Expr::Sext(_, width) => put_signed(text, value, u64::from(*width))?,
        _ => put_number(text, value)?,
    }
    put(text, b" isn't shown by ")?;
    add_expr(text, names, shape)?;
    put_shown(text, shape)
}

// Adds a tree; the one of which all this is said is called `it`.
fn put_tree(text: &mut Vec<u8>, names: Names, it: &Tree, tree: &Tree) -> Result<(), NoMemory> {
    if is_same(it, tree) {
        put(text, b"it")
    } else {
        add_tree(text, names, tree)
    }
}

// Adds how many bits a tree has, and how many an expression.
fn put_widths(
    text: &mut Vec<u8>,
    names: Names,
    it: &Tree,
    expr: &Expr,
    tree: &Tree,
) -> Result<(), NoMemory> {
    put_tree(text, names, it, tree)?;
    put(text, b" has ")?;
    put_number(text, tree_width(tree))?;
    put(text, b" bits, where ")?;
    add_expr(text, names, expr)?;
    put(text, b" has ")?;
    put_number(text, expr_width(expr))
}

// Adds where a form puts a value.
fn put_goal(text: &mut Vec<u8>, names: Names, form: &Form) -> Result<(), NoMemory> {
    match &form.goal {
        Goal::Reg(id) => put_storage(text, names, *id),
        Goal::File => put_space(text, names, Space::File),
        _ => put_memory(text, names),
    }
}

// Adds what else may be too little where each operand comes into its place: the register file.
fn put_small_file(text: &mut Vec<u8>, names: Names) -> Result<(), NoMemory> {
    if names.checked.size(Space::File) == 0 {
        return Ok(());
    }
    put(text, b" or ")?;
    put_space(text, names, Space::File)?;
    put(text, b" is too small")
}

/// Adds what is between a form and a tree, in words that call this tree `it`.
pub fn add_difference(
    text: &mut Vec<u8>,
    names: Names,
    it: &Tree,
    difference: Difference,
) -> Result<(), NoMemory> {
    match difference {
        Difference::Width { expr, tree } => put_widths(text, names, it, expr, tree),
        Difference::Operator { expr, tree } => {
            put_tree(text, names, it, tree)?;
            put(text, b" stands where ")?;
            add_expr(text, names, expr)?;
            put(text, b" is wanted")
        }
        Difference::Number { shape, value } => put_unshown(text, names, shape, value),
        Difference::Register { id, tree } => {
            put(text, b"nothing loads ")?;
            put_storage(text, names, id)?;
            put(text, b" with ")?;
            put_tree(text, names, it, tree)
        }
        Difference::File { tree } => {
            put(text, b"nothing loads ")?;
            put_space(text, names, Space::File)?;
            put(text, b" with ")?;
            put_tree(text, names, it, tree)
        }
        Difference::Cell { tree } => {
            put(text, b"nothing puts ")?;
            put_tree(text, names, it, tree)?;
            put(text, b" into a temporary cell")
        }
        Difference::Addresses { shape } => {
            add_expr(text, names, shape)?;
            put(text, b" doesn't show all temporary cells")
        }
        Difference::Indirect { address } => {
            put(text, b"the cell's address is known, where ")?;
            add_expr(text, names, address)?;
            put(text, b" is written at")
        }
        Difference::Clash => {
            put(text, b"in every order an operand overwrites another")?;
            put_small_file(text, names)
        }
        Difference::Made { form } => {
            put(text, b"it comes into ")?;
            put_goal(text, names, form)?;
            put(text, b", and nothing takes it on from there")
        }
    }
}

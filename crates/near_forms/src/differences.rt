//! The first difference between a form and a tree.

use form_model::{Form, Forms, Tree};
use least_costs::least_cost;
use net_model::Expr;
use rec_bits::NoMemory;
use std::alloc::Global;
use tree_grammar::{
    Destination, expr_width, fits_field, is_field_shape, is_number_tree, setting_of, shows_all,
    tree_width,
};

/// What is between an expression of a form and a tree that stands at its place.
#[derive(Clone, Copy)]
pub enum Difference<'a> {
    /// They have other widths.
    Width { expr: &'a Expr, tree: &'a Tree },
    /// They have other operators, or the expression is a field and the tree no number.
    Operator { expr: &'a Expr, tree: &'a Tree },
    /// The field shape doesn't show the number.
    Number { shape: &'a Expr, value: u64 },
    /// Nothing loads the register of this number with the tree.
    Register { id: u32, tree: &'a Tree },
    /// Nothing loads the register file with the tree.
    File { tree: &'a Tree },
    /// Nothing fills a temporary cell with the tree, which the form would read there.
    Cell { tree: &'a Tree },
    /// The field shape doesn't show the addresses of all temporary cells.
    Addresses { shape: &'a Expr },
    /// The form writes at this address, and the tree goes to a cell of a known one.
    Indirect { address: &'a Expr },
    /// Each operand comes into its register or the file, but in every order one overwrites another,
    /// or the file is too small for all.
    Clash,
    /// The tree comes where the form puts it, but goes on from there nowhere.
    Made { form: &'a Form },
}

/// By what trees are to be covered.
#[derive(Clone, Copy)]
pub struct Means<'a> {
    pub forms: &'a Forms,
    pub temps: u32,
}

// A field shape and a tree.
fn number_difference<'a>(shape: &'a Expr, tree: &'a Tree) -> Option<Difference<'a>> {
    if expr_width(shape) != tree_width(tree) {
        return Some(Difference::Width { expr: shape, tree });
    }
    let Tree::Lit { width, value } = tree else {
        return Some(Difference::Operator { expr: shape, tree });
    };
    if fits_field(shape, *width, *value) {
        None
    } else {
        Some(Difference::Number {
            shape,
            value: *value,
        })
    }
}

// A register and a tree of its width, which has to come into it.
fn register_difference<'a>(
    alloc: Global,
    means: Means<'a>,
    id: u32,
    tree: &'a Tree,
    whole: bool,
) -> Result<Option<Difference<'a>>, NoMemory> {
    let destination = Destination::Register(id);
    match least_cost(alloc, means.forms, destination, tree, whole, means.temps)? {
        Some(_) => Ok(None),
        None => Ok(Some(Difference::Register { id, tree })),
    }
}

// A read of the file and a tree of its width, which has to come into one of its cells.
fn file_difference<'a>(
    alloc: Global,
    means: Means<'a>,
    tree: &'a Tree,
    whole: bool,
) -> Result<Option<Difference<'a>>, NoMemory> {
    match least_cost(
        alloc,
        means.forms,
        Destination::File,
        tree,
        whole,
        means.temps,
    )? {
        Some(_) => Ok(None),
        None => Ok(Some(Difference::File { tree })),
    }
}

// A read at a field shape and a tree of its width that is no read at a number, so that it has to be
// in a temporary cell.
fn cut_difference<'a>(
    alloc: Global,
    means: Means<'a>,
    shape: &'a Expr,
    tree: &'a Tree,
) -> Result<Option<Difference<'a>>, NoMemory> {
    if !shows_all(shape, means.temps) {
        return Ok(Some(Difference::Addresses { shape }));
    }
    match least_cost(
        alloc,
        means.forms,
        Destination::Temp,
        tree,
        false,
        means.temps,
    )? {
        Some(_) => Ok(None),
        None => Ok(Some(Difference::Cell { tree })),
    }
}

// A read at a field shape and a tree of its width.
fn cell_difference<'a>(
    alloc: Global,
    means: Means<'a>,
    expr: &'a Expr,
    shape: &'a Expr,
    tree: &'a Tree,
    whole: bool,
) -> Result<Option<Difference<'a>>, NoMemory> {
    if let Tree::Read(a, _) = tree {
        if is_number_tree(a) {
            return Ok(number_difference(shape, a));
        }
    }
    if whole {
        return Ok(Some(Difference::Operator { expr, tree }));
    }
    cut_difference(alloc, means, shape, tree)
}

// The first difference between an expression of a form and a tree, if there is one.
fn expr_difference<'a>(
    alloc: Global,
    means: Means<'a>,
    expr: &'a Expr,
    tree: &'a Tree,
    whole: bool,
) -> Result<Option<Difference<'a>>, NoMemory> {
    if is_field_shape(expr) {
        return Ok(number_difference(expr, tree));
    }
    if expr_width(expr) != tree_width(tree) {
        return Ok(Some(Difference::Width { expr, tree }));
    }
    match (expr, tree) {
        (Expr::Reg(id, _), _) => register_difference(alloc, means, *id, tree, whole),
        (Expr::Cell(_, _), _) => file_difference(alloc, means, tree, whole),
        (Expr::Read(a, _), _) if is_field_shape(a) => {
            cell_difference(alloc, means, expr, a, tree, whole)
        }
        (Expr::Read(a, _), Tree::Read(b, _)) => {
            expr_difference(alloc, means, a, b, is_number_tree(b))
        }
        (Expr::Un(op, a), Tree::Un(o, b)) if *op == *o => {
            expr_difference(alloc, means, a, b, false)
        }
        (Expr::Bin(op, a, b), Tree::Bin(o, x, y)) if *op == *o => {
            match expr_difference(alloc, means, a, x, false)? {
                Some(found) => Ok(Some(found)),
                None => expr_difference(alloc, means, b, y, false),
            }
        }
        (Expr::Slice(a, hi, lo), Tree::Slice(b, h, l)) if *hi == *h && *lo == *l => {
            expr_difference(alloc, means, a, b, false)
        }
        (Expr::Zext(a, _), Tree::Zext(b, _)) => expr_difference(alloc, means, a, b, false),
        (Expr::Sext(a, _), Tree::Sext(b, _)) => expr_difference(alloc, means, a, b, false),
        _ => Ok(Some(Difference::Operator { expr, tree })),
    }
}

// The address of a memory form and where a tree goes.
fn address_difference<'a>(
    alloc: Global,
    means: Means<'a>,
    address: &'a Expr,
    destination: Destination<'a>,
) -> Result<Option<Difference<'a>>, NoMemory> {
    match destination {
        Destination::Cell(cell) => {
            if !is_field_shape(address) {
                return Ok(Some(Difference::Indirect { address }));
            }
            let value = u64::from(cell);
            match setting_of(address, value)? {
                Some(_) => Ok(None),
                None => Ok(Some(Difference::Number {
                    shape: address,
                    value,
                })),
            }
        }
        Destination::Store(tree) => expr_difference(alloc, means, address, tree, false),
        _ => Ok(None),
    }
}

// The first difference between a form and a tree that goes there, the address before the value.
fn difference_there<'a>(
    alloc: Global,
    means: Means<'a>,
    form: &'a Form,
    destination: Destination<'a>,
    tree: &'a Tree,
) -> Result<Option<Difference<'a>>, NoMemory> {
    if let Some(address) = &form.addr {
        if let Some(found) = address_difference(alloc, means, address, destination)? {
            return Ok(Some(found));
        }
    }
    expr_difference(alloc, means, &form.value, tree, is_root(destination))
}

// Whether a tree that goes there can't be a cut.
fn is_root(destination: Destination) -> bool {
    match destination {
        Destination::Cell(_) => true,
        Destination::Test => true,
        _ => false,
    }
}

/// The first difference between a form and a tree that goes there and has no cover, the address of
/// a write before its value.
pub fn first_difference<'a>(
    alloc: Global,
    means: Means<'a>,
    form: &'a Form,
    destination: Destination<'a>,
    tree: &'a Tree,
) -> Result<Difference<'a>, NoMemory> {
    if let Some(found) = difference_there(alloc, means, form, destination, tree)? {
        return Ok(found);
    }
    match least_cost(alloc, means.forms, destination, tree, false, means.temps)? {
        Some(_) => Ok(Difference::Made { form }),
        None => Ok(Difference::Clash),
    }
}

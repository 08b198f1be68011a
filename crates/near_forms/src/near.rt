//! The forms that come nearest to a tree.

use crate::differences::{Means, first_difference};
use crate::text::Names;
use crate::words::add_difference;
use cover_lacks::is_same;
use form_model::{Form, Goal, Job, Tree};
use least_costs::part_destination;
use net_model::Expr;
use rec_bits::NoMemory;
use std::alloc::Global;
use tree_grammar::{Destination, is_field_shape};

// Whether the expression has the tree's operator at its root; a field shape has that of a number.
fn has_root(expr: &Expr, tree: &Tree) -> bool {
    match tree {
        Tree::Lit { .. } => is_field_shape(expr),
        _ => !is_field_shape(expr) && has_operator(expr, tree),
    }
}

// The same of an expression that is no field shape.
fn has_operator(expr: &Expr, tree: &Tree) -> bool {
    match (expr, tree) {
        (Expr::Read(_, _), Tree::Read(_, _)) => true,
        (Expr::Un(op, _), Tree::Un(o, _)) => *op == *o,
        (Expr::Bin(op, _, _), Tree::Bin(o, _, _)) => *op == *o,
        (Expr::Slice(_, _, _), Tree::Slice(_, _, _)) => true,
        (Expr::Zext(_, _), Tree::Zext(_, _)) => true,
        (Expr::Sext(_, _), Tree::Sext(_, _)) => true,
        _ => false,
    }
}

// Whether the form goes where a tree of a job goes.
fn goes_to(form: &Form, destination: Destination) -> bool {
    match (&form.goal, destination) {
        (Goal::Memory, Destination::Cell(_)) => true,
        (Goal::Memory, Destination::Store(_)) => true,
        (Goal::Branch { .. }, Destination::Test) => true,
        _ => false,
    }
}

// Whether the form moves a value as it is.
fn is_move(form: &Form) -> bool {
    match &form.value {
        Expr::Reg(_, _) | Expr::Cell(_, _) => true,
        Expr::Read(a, _) => is_field_shape(a),
        _ => false,
    }
}

// Whether the tree is one of the job's.
fn is_of_job(job: &Job, tree: &Tree) -> bool {
    for root in &job.trees {
        if is_same(root, tree) {
            return true;
        }
    }
    false
}

// Where the form is to put the tree, if it comes near to it: where the job's tree goes, or else into
// the form's register, the file or a temporary cell.
fn destination_near<'a>(form: &Form, job: &'a Job, tree: &Tree) -> Option<Destination<'a>> {
    let root = Destination::of(&job.aim);
    let near = has_root(&form.value, tree);
    if goes_to(form, root) && (near || is_move(form)) && is_of_job(job, tree) {
        return Some(root);
    }
    if near { part_destination(form) } else { None }
}

// The text of the difference between a form and a tree.
fn near_text(
    alloc: Global,
    names: Names,
    means: Means,
    form: &Form,
    destination: Destination,
    tree: &Tree,
) -> Result<Vec<u8>, NoMemory> {
    let difference = first_difference(alloc, means, form, destination, tree)?;
    let mut text = Vec::new(alloc);
    add_difference(&mut text, names, tree, difference)?;
    Ok(text)
}

// Whether the text is one of these.
fn has_text(texts: &[Vec<u8>], text: &[u8]) -> bool {
    for other in texts {
        if other.as_slice() == text {
            return true;
        }
    }
    false
}

// Adds the text, if it isn't there yet.
fn add_text(texts: &mut Vec<Vec<u8>>, text: Vec<u8>) -> Result<(), NoMemory> {
    if !has_text(texts, &text) {
        texts.push(text)?;
    }
    Ok(())
}

/// What is between each form that comes near to a tree and the tree, in words, where the tree is
/// lacking of the job: for the forms with the tree's operator at their root, and where it is a tree
/// of the job itself also for those that write or test a value as it is. In the order of the forms,
/// each text once.
pub fn near_texts(
    alloc: Global,
    names: Names,
    means: Means,
    job: &Job,
    tree: &Tree,
) -> Result<Vec<Vec<u8>>, NoMemory> {
    let mut texts = Vec::new(alloc);
    for form in &means.forms.list {
        if let Some(destination) = destination_near(form, job, tree) {
            let text = near_text(alloc, names, means, form, destination, tree)?;
            add_text(&mut texts, text)?;
        }
    }
    Ok(texts)
}

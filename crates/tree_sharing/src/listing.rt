//! The subtrees of a job in the order of their numbers.

ghost use Rattle.std.specs.Prelude.{◌≡◌, ◌++◌, IfOk, OnOk};
ghost use Rattle.form_model.specs.Trees.{model_of_tree};
ghost use Rattle.tree_grammar.specs.Numbers.{subtrees};
ghost use Rattle.tree_grammar.specs.Leaves.{model_of_destination};
ghost use Rattle.tree_sharing.specs.Sharing.{job_nodes, exprs_at};
ghost use Rattle.tree_sharing.specs.Inner.Sharing.{address_nodes, operand_subtrees, operand_expr};

use crate::sharing::{first_operand, second_operand};
use form_model::Tree;
use rec_bits::NoMemory;
use std::alloc::Global;
use tree_grammar::Destination;

// Adds the subtrees of a tree.
#[cycle(listing)]
fn list<'a>(out: &mut Vec<&'a Tree>, tree: &'a Tree) -> Result<(), NoMemory>
    ensures { OnOk result (exprs_at out.new.items ≡ exprs_at out.old.items ++ subtrees (model_of_tree tree.now)) }
{
    out.push(tree)?;
    list_operand(out, first_operand(tree))?;
    list_operand(out, second_operand(tree))
}

// The same of an operand, where there is one.
#[cycle(listing)]
fn list_operand<'a>(out: &mut Vec<&'a Tree>, operand: Option<&'a Tree>) -> Result<(), NoMemory>
    ensures { OnOk result
        (exprs_at out.new.items ≡ exprs_at out.old.items ++ operand_subtrees (operand_expr operand.entry)) }
{
    match operand {
        Some(tree) => list(out, tree),
        None => Ok(()),
    }
}

// Adds the subtrees of a store's address.
fn list_address<'a>(out: &mut Vec<&'a Tree>, destination: Destination<'a>) -> Result<(), NoMemory>
    ensures { OnOk result (exprs_at out.new.items
        ≡ exprs_at out.old.items ++ address_nodes (model_of_destination destination.entry)) }
{
    match destination {
        Destination::Store(address) => list(out, address),
        _ => Ok(()),
    }
}

/// The subtrees, each at its number: those of a store's address, and then those of the tree.
pub fn numbered<'a>(
    alloc: Global,
    destination: Destination<'a>,
    tree: &'a Tree,
) -> Result<Vec<&'a Tree>, NoMemory>
    ensures { IfOk result (λ nodes. exprs_at nodes.items
        ≡ job_nodes (model_of_destination destination.entry) (model_of_tree tree.now)) }
{
    let mut out = Vec::new(alloc);
    list_address(&mut out, destination)?;
    list(&mut out, tree)?;
    Ok(out)
}

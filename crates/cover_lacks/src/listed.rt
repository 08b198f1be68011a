//! The flagged trees in the order of their first places.

ghost use Rattle.std.specs.Prelude.{◌≡◌, ◌+◌, ◌<◌, IfOk, OnOk, Some, length, slice_get};
ghost use Rattle.std.specs.Bool.{OnTrue, OnFalse};
ghost use Rattle.net_model.specs.Exprs.{ExprModel};
ghost use Rattle.form_model.specs.Trees.{model_of_tree};
ghost use Rattle.tree_sharing.specs.Sharing.{IsFirst, exprs_at};
ghost use Rattle.cover_lacks.specs.Lacks.{AreInOrder};
ghost use Rattle.cover_lacks.specs.Inner.Flags.{IsFlagged};
ghost use Rattle.cover_lacks.specs.Inner.Listed.{ListedBelow};

use crate::equal::is_same;
use form_model::Tree;
use rec_bits::NoMemory;
use std::alloc::Global;

// Whether the number is the first of its tree.
fn is_first(nodes: &[&Tree], n: usize) -> bool
    requires { n < length nodes.now }
    ensures yes { OnTrue result ((tree : ExprModel) → slice_get (exprs_at nodes.now) n ≡ Some tree →
        IsFirst (exprs_at nodes.now) tree n) }
    ensures no { OnFalse result ((tree : ExprModel) → slice_get (exprs_at nodes.now) n ≡ Some tree →
        IsFirst (exprs_at nodes.now) tree n → ⊥) }
{
    for m in 0..n {
        if is_same(nodes[m], nodes[n]) {
            return false;
        }
    }
    true
}

// Whether one of the tree's numbers is flagged.
fn is_flagged(nodes: &[&Tree], flags: &[bool], tree: &Tree) -> bool
    requires { length flags.now ≡ length nodes.now }
    ensures yes { OnTrue result (IsFlagged (exprs_at nodes.now) flags.now (model_of_tree tree.now)) }
    ensures no { OnFalse result (IsFlagged (exprs_at nodes.now) flags.now (model_of_tree tree.now) → ⊥) }
{
    for n in 0..nodes.len() {
        if flags[n] && is_same(nodes[n], tree) {
            return true;
        }
    }
    false
}

// Adds the tree of the number, if it is flagged and has no number that is less.
fn add_listed<'a>(
    nodes: &[&'a Tree],
    flags: &[bool],
    n: usize,
    list: &mut Vec<&'a Tree>,
) -> Result<(), NoMemory>
    requires len { length flags.now ≡ length nodes.now }
    requires n { n < length nodes.now }
    requires listed { ListedBelow (exprs_at nodes.now) flags.now n (exprs_at list.old.items) }
    ensures { OnOk result (ListedBelow (exprs_at nodes.now) flags.now (n + 1) (exprs_at list.new.items)) }
{
    if !is_first(nodes, n) {
        return Ok(());
    }
    if is_flagged(nodes, flags, nodes[n]) {
        list.push(nodes[n])?;
    }
    Ok(())
}

// The flagged trees, each once, in the order of their first places.
pub(crate) fn in_order<'a>(
    alloc: Global,
    nodes: &[&'a Tree],
    flags: &[bool],
) -> Result<Vec<&'a Tree>, NoMemory>
    requires { length flags.now ≡ length nodes.now }
    ensures { IfOk result (λ list. AreInOrder (exprs_at nodes.now) (IsFlagged (exprs_at nodes.now) flags.now)
        (exprs_at list.items)) }
{
    let mut list = Vec::new(alloc);
    for n in 0..nodes.len() {
        add_listed(nodes, flags, n, &mut list)?;
    }
    Ok(list)
}

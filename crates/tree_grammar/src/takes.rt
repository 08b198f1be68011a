//! Whether the value of a form may take a tree, as far as their operators tell.

ghost use Rattle.std.specs.Prelude.{◌≡◌, ℕ, Bool, false, Option, None};
ghost use Rattle.std.specs.Bool.{OnTrue, OnFalse};
ghost use Rattle.rec_bits.specs.declared.operator.Op2.{Op2};
ghost use Rattle.net_model.specs.Exprs.{ExprModel, model_of_expr, un};
ghost use Rattle.form_model.specs.Matches.{MatchModel, bin_match, matched, read_match, sext_match, shape_match, slice_match, zext_match};
ghost use Rattle.form_model.specs.Trees.{is_number, model_of_tree};

use crate::shapes::is_field_shape;
use crate::terms::is_number_tree;
use form_model::Tree;
use net_model::Expr;
use rec_bits::{Op1, Op2};

// Whether a field shape may take the tree: it takes numbers alone.
fn may_be_shown(tree: &Tree) -> bool
    ensures { OnFalse result ((shape : ExprModel) → shape_match shape (model_of_tree tree.now) ≡ None) }
{
    is_number_tree(tree)
}

fn is_read(tree: &Tree) -> bool
    ensures { OnFalse result ((f : ExprModel → Bool → Option MatchModel) (w : ℕ) → read_match f w (model_of_tree tree.now) ≡ None) }
{
    match tree {
        Tree::Read(_, _) => true,
        _ => false,
    }
}

fn is_bin(tree: &Tree) -> bool
    ensures yes { OnTrue result (is_number (model_of_tree tree.now) ≡ false) }
    ensures no { OnFalse result ((f g : ExprModel → Bool → Option MatchModel) (o : Op2) → bin_match f g o (model_of_tree tree.now) ≡ None) }
{
    match tree {
        Tree::Bin(_, _, _) => true,
        _ => false,
    }
}

fn is_slice(tree: &Tree) -> bool
    ensures { OnFalse result ((f : ExprModel → Bool → Option MatchModel) (w h l : ℕ) →
        slice_match f w h l (model_of_tree tree.now) ≡ None) }
{
    match tree {
        Tree::Slice(_, _, _) => true,
        _ => false,
    }
}

fn is_zext(tree: &Tree) -> bool
    ensures { OnFalse result
        ((f : ExprModel → Bool → Option MatchModel) (v w : ℕ) → zext_match f v w (model_of_tree tree.now) ≡ None) }
{
    match tree {
        Tree::Zext(_, _) => true,
        _ => false,
    }
}

fn is_sext(tree: &Tree) -> bool
    ensures { OnFalse result
        ((f : ExprModel → Bool → Option MatchModel) (v w : ℕ) → sext_match f v w (model_of_tree tree.now) ≡ None) }
{
    match tree {
        Tree::Sext(_, _) => true,
        _ => false,
    }
}

/// Whether a form's value may take the tree: an operator of it has to be the tree's too, unless it
/// is of a field shape and the tree is a number. It spares most forms a match.
#[cycle(taking)]
pub fn may_take(value: &Expr, tree: &Tree) -> bool
    ensures { OnFalse result ((temps : ℕ) (whole : Bool) →
        matched temps (model_of_expr value.now) (model_of_tree tree.now) whole ≡ None) }
{
    match value {
        Expr::Word(_) => may_be_shown(tree),
        Expr::Const { .. } => may_be_shown(tree),
        Expr::Reg(_, _) => true,
        Expr::Cell(_, _) => true,
        Expr::Read(a, _) => is_field_shape(a) || is_read(tree),
        Expr::Un(op, a) => may_take_one(*op, a, tree),
        Expr::Bin(op, a, b) => {
            if is_bin(tree) {
                may_take_two(*op, a, b, tree)
            } else {
                is_number_tree(tree) && is_field_shape(value)
            }
        }
        Expr::Slice(_, _, _) => may_be_shown(tree) || is_slice(tree),
        Expr::Zext(_, _) => may_be_shown(tree) || is_zext(tree),
        Expr::Sext(_, _) => may_be_shown(tree) || is_sext(tree),
        Expr::Cat(_, _) => false,
        Expr::Select(_, _, _) => false,
    }
}

// The same of a value with an operator of one operand.
#[cycle(taking)]
fn may_take_one(op: Op1, a: &Expr, tree: &Tree) -> bool
    ensures { OnFalse result ((temps : ℕ) (whole : Bool) →
        matched temps (un op (model_of_expr a.now)) (model_of_tree tree.now) whole ≡ None) }
{
    match tree {
        Tree::Un(o, x) => *o == op && may_take(a, x),
        _ => false,
    }
}

// The same of a value with an operator of two operands.
#[cycle(taking)]
fn may_take_two(op: Op2, a: &Expr, b: &Expr, tree: &Tree) -> bool
    ensures { OnFalse result ((temps : ℕ) →
        bin_match (matched temps (model_of_expr a.now)) (matched temps (model_of_expr b.now)) op (model_of_tree tree.now) ≡ None) }
{
    match tree {
        Tree::Bin(o, x, y) => *o == op && may_take(a, x) && may_take(b, y),
        _ => false,
    }
}

//! Widths of trees and expressions, and how many nodes a tree has.

ghost use Rattle.std.specs.Prelude.{◌≡◌, ◌+◌, ◌-◌, ◌<◌, ◌≤◌, ◌^◌, ◌==◌, min, IfOk};
ghost use Rattle.net_model.specs.Exprs.{size_of, model_of_expr, expr_width};
ghost use Rattle.form_model.specs.Trees.{model_of_tree};

use form_model::Tree;
use net_model::Expr;
use rec_bits::{NoMemory, written_result_width};

/// The sum of two numbers of things that memory holds. Want of memory where it is past the greatest
/// number that can be counted.
pub fn plus(a: u64, b: u64) -> Result<u64, NoMemory>
    ensures { IfOk result (λ c. c ≡ a + b) }
{
    match a.checked_add(b) {
        Some(c) => Ok(c),
        None => Err(NoMemory),
    }
}

/// How many nodes the tree has. No tree that memory holds has more than can be counted.
pub fn tree_size(tree: &Tree) -> Result<u64, NoMemory>
    ensures { IfOk result (λ n. n ≡ size_of (model_of_tree tree.now)) }
{
    match tree {
        Tree::Lit { .. } => Ok(1),
        Tree::Bin(_, a, b) => plus(plus(tree_size(a)?, tree_size(b)?)?, 1),
        Tree::Read(a, _)
        | Tree::Un(_, a)
        | Tree::Slice(a, _, _)
        | Tree::Zext(a, _)
        | Tree::Sext(a, _) => plus(tree_size(a)?, 1),
    }
}

// The width of the bits from one down to another.
pub(crate) fn slice_width(hi: u8, lo: u8) -> u64
    ensures { result ≡ hi + 1 - lo }
{
    (u64::from(hi) + 1).saturating_sub(u64::from(lo))
}

/// The width of a tree's value, in bits.
pub fn tree_width(tree: &Tree) -> u64
    ensures width { result ≡ expr_width (model_of_tree tree.now) }
    ensures few { result ≤ 256 }
{
    match tree {
        Tree::Lit { width, .. } => u64::from(*width),
        Tree::Read(_, w) => u64::from(*w),
        Tree::Un(_, a) => tree_width(a),
        Tree::Bin(o, a, _) => written_result_width(*o, tree_width(a)),
        Tree::Slice(_, hi, lo) => slice_width(*hi, *lo),
        Tree::Zext(_, w) => u64::from(*w),
        Tree::Sext(_, w) => u64::from(*w),
    }
}

/// The width of an expression's value, or the greatest number where it is more.
pub fn expr_width(e: &Expr) -> u64
    ensures { result ≡ min (expr_width (model_of_expr e.now)) 18446744073709551615 }
{
    match e {
        Expr::Word(w) => u64::from(*w),
        Expr::Reg(_, w) => u64::from(*w),
        Expr::Const { width, .. } => u64::from(*width),
        Expr::Read(_, w) | Expr::Cell(_, w) => u64::from(*w),
        Expr::Un(_, a) => expr_width(a),
        Expr::Bin(o, a, _) => written_result_width(*o, expr_width(a)),
        Expr::Slice(_, hi, lo) => slice_width(*hi, *lo),
        Expr::Cat(a, b) => expr_width(a).saturating_add(expr_width(b)),
        Expr::Zext(_, w) => u64::from(*w),
        Expr::Sext(_, w) => u64::from(*w),
        Expr::Select(_, a, _) => expr_width(a),
    }
}

// Whether the tree's value is as wide as the expression's.
pub(crate) fn is_as_wide(tree: &Tree, e: &Expr) -> bool
    ensures { result ≡ (expr_width (model_of_tree tree.now) == expr_width (model_of_expr e.now)) }
{
    tree_width(tree) == expr_width(e)
}

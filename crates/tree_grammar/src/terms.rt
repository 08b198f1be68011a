//! What an expression of a form takes of a tree.

ghost use Rattle.std.specs.Prelude.{◌≡◌, ◌++◌, ℕ, ◌+◌, ◌==◌, true, Some, None, IfOk, OnOk, List, if◌then◌else◌};
ghost use Rattle.std.specs.Option.{option_map};
ghost use Rattle.net_model.specs.Exprs.{ExprModel, size_of, model_of_expr, expr_width};
ghost use Rattle.form_model.specs.Trees.{is_cell, is_number, model_of_tree};
ghost use Rattle.form_model.specs.Matches.{cell_match, literal_match, matched, open_if, operand, settled, shape_match};
ghost use Rattle.tree_grammar.specs.Numbers.{HoldsSubtrees};
ghost use Rattle.tree_grammar.specs.Inner.Unary.{model_of_pair, unary_operands};
ghost use Rattle.tree_grammar.specs.Leaves.{AreAt, IsPartAt, Taken, model_of_home, model_of_leaf, models_of_leaves};

use crate::parts::{Home, Leaf, Subtree};
use crate::shapes::{is_field_shape, setting_of, shows_all};
use crate::sizes::{is_as_wide, plus, tree_size, tree_width};
use form_model::Tree;
use net_model::Expr;
use rec_bits::NoMemory;

// ---- numbers and cells

/// Whether the tree is a number.
pub fn is_number_tree(tree: &Tree) -> bool
    ensures { result ≡ is_number (model_of_tree tree.now) }
{
    match tree {
        Tree::Lit { .. } => true,
        _ => false,
    }
}

// Whether the tree is a read at a number.
fn is_cell_tree(tree: &Tree) -> bool
    ensures { result ≡ is_cell (model_of_tree tree.now) }
{
    match tree {
        Tree::Read(a, _) => is_number_tree(a),
        _ => false,
    }
}

// The setting under which the field shape takes a number.
fn take_number(shape: &Expr, tree: &Tree) -> Result<Option<u64>, NoMemory>
    ensures { IfOk result (λ o. settled o ≡ shape_match (model_of_expr shape.now) (model_of_tree tree.now)) }
{
    match tree {
        Tree::Lit { value, .. } => {
            if !is_as_wide(tree, shape) {
                return Ok(None);
            }
            setting_of(shape, *value)
        }
        _ => Ok(None),
    }
}

// The setting under which the field shape gives the address of a read at a number.
fn take_literal(shape: &Expr, tree: &Tree) -> Result<Option<u64>, NoMemory>
    ensures { IfOk result (λ o. settled o ≡ literal_match (model_of_expr shape.now) (model_of_tree tree.now)) }
{
    match tree {
        Tree::Read(a, _) => take_number(shape, a),
        _ => Ok(None),
    }
}

// ---- parts

// Leaves a part open, which settles no bits.
fn put_part<'a>(parts: &mut Vec<Leaf<'a>>, part: Leaf<'a>) -> Result<Option<u64>, NoMemory>
    ensures found { IfOk result (λ o. Taken (models_of_leaves parts.old.items) (models_of_leaves parts.new.items)
        (open_if true (model_of_leaf part.entry)) o) }
    ensures at { OnOk result ((nodes : List ExprModel) → AreAt nodes parts.old.items →
        IsPartAt nodes part.entry → AreAt nodes parts.new.items) }
{
    parts.push(part)?;
    Ok(Some(0))
}

// What a read at a field shape takes: a read at a number, or a cut.
fn take_cell<'a>(
    parts: &mut Vec<Leaf<'a>>,
    temps: u32,
    shape: &'a Expr,
    width: u8,
    subtree: Subtree<'a>,
) -> Result<Option<u64>, NoMemory>
    ensures found { IfOk result (λ o. Taken (models_of_leaves parts.old.items) (models_of_leaves parts.new.items)
        (cell_match temps (model_of_expr shape.now) width (model_of_tree subtree.entry.tree.now) subtree.entry.whole) o) }
    ensures at { OnOk result ((nodes : List ExprModel) →
        HoldsSubtrees nodes subtree.entry.at (model_of_tree subtree.entry.tree.now) →
        AreAt nodes parts.old.items → AreAt nodes parts.new.items) }
{
    let Subtree { tree, whole, at } = subtree;
    if u64::from(width) != tree_width(tree) {
        return Ok(None);
    }
    if is_cell_tree(tree) {
        return take_literal(shape, tree);
    }
    if whole || !shows_all(shape, temps) {
        return Ok(None);
    }
    put_part(parts, Leaf::Cut { shape, tree, at })
}

// The number of what follows the tree of number `at`.
pub(crate) fn past(at: u64, tree: &Tree) -> Result<u64, NoMemory>
    ensures { IfOk result (λ n. n ≡ at + size_of (model_of_tree tree.now)) }
{
    plus(at, tree_size(tree)?)
}

// ---- operators of one operand

// An expression of a form, and a tree that it has to match.
#[derive(Clone, Copy)]
struct Pair<'a> {
    expr: &'a Expr,
    tree: &'a Tree,
}

fn pair_if<'a>(same: bool, expr: &'a Expr, tree: &'a Tree) -> Option<Pair<'a>>
    ensures { option_map model_of_pair result
        ≡ (if same then Some (record { expr = model_of_expr expr.now; tree = model_of_tree tree.now }) else None) }
{
    if same {
        Some(Pair { expr, tree })
    } else {
        None
    }
}

// The operands of an expression and of a tree, where both have one operator of one operand, and
// equal widths.
fn operands<'a>(e: &'a Expr, tree: &'a Tree) -> Option<Pair<'a>>
    ensures { option_map model_of_pair result ≡ unary_operands (model_of_expr e.now) (model_of_tree tree.now) }
{
    match e {
        Expr::Un(op, a) => match tree {
            Tree::Un(o, b) => pair_if(*o == *op, a, b),
            _ => None,
        },
        Expr::Slice(a, hi, lo) => match tree {
            Tree::Slice(b, h, l) => pair_if(is_as_wide(b, a) && *h == *hi && *l == *lo, a, b),
            _ => None,
        },
        Expr::Zext(a, width) => match tree {
            Tree::Zext(b, w) => pair_if(is_as_wide(b, a) && *w == *width, a, b),
            _ => None,
        },
        Expr::Sext(a, width) => match tree {
            Tree::Sext(b, w) => pair_if(is_as_wide(b, a) && *w == *width, a, b),
            _ => None,
        },
        _ => None,
    }
}

// ---- expressions

// A register or a read of the file takes a tree of its width as an operand.
fn take_operand<'a>(
    parts: &mut Vec<Leaf<'a>>,
    home: Home<'a>,
    width: u8,
    subtree: Subtree<'a>,
) -> Result<Option<u64>, NoMemory>
    ensures found { IfOk result (λ o. Taken (models_of_leaves parts.old.items) (models_of_leaves parts.new.items)
        (open_if (width == expr_width (model_of_tree subtree.entry.tree.now))
        (operand (model_of_home home.entry) (model_of_tree subtree.entry.tree.now) subtree.entry.whole)) o) }
    ensures at { OnOk result ((nodes : List ExprModel) →
        HoldsSubtrees nodes subtree.entry.at (model_of_tree subtree.entry.tree.now) →
        AreAt nodes parts.old.items → AreAt nodes parts.new.items) }
{
    let Subtree { tree, whole, at } = subtree;
    if u64::from(width) != tree_width(tree) {
        return Ok(None);
    }
    put_part(
        parts,
        Leaf::Operand {
            home,
            tree,
            whole,
            at,
        },
    )
}

// Adds the parts that an expression of a form leaves open of a tree, and gives the bits that it
// settles, or none where it doesn't match.
pub(crate) fn take<'a>(
    parts: &mut Vec<Leaf<'a>>,
    temps: u32,
    e: &'a Expr,
    subtree: Subtree<'a>,
) -> Result<Option<u64>, NoMemory>
    ensures found { IfOk result (λ o. Taken (models_of_leaves parts.old.items) (models_of_leaves parts.new.items)
        (matched temps (model_of_expr e.now) (model_of_tree subtree.entry.tree.now) subtree.entry.whole) o) }
    ensures at { OnOk result ((nodes : List ExprModel) →
        HoldsSubtrees nodes subtree.entry.at (model_of_tree subtree.entry.tree.now) →
        AreAt nodes parts.old.items → AreAt nodes parts.new.items) }
{
    let Subtree { tree, at, .. } = subtree;
    if is_field_shape(e) {
        return take_number(e, tree);
    }
    if let Some(pair) = operands(e, tree) {
        return take(
            parts,
            temps,
            pair.expr,
            Subtree::inner(pair.tree, plus(at, 1)?),
        );
    }
    match e {
        Expr::Reg(id, width) => take_operand(parts, Home::Register(*id), *width, subtree),
        Expr::Cell(a, width) => take_operand(parts, Home::File(a), *width, subtree),
        Expr::Read(a, width) => {
            if is_field_shape(a) {
                return take_cell(parts, temps, a, *width, subtree);
            }
            let Tree::Read(b, w) = tree else {
                return Ok(None);
            };
            if *w != *width {
                return Ok(None);
            }
            let address = Subtree {
                tree: b,
                whole: is_number_tree(b),
                at: plus(at, 1)?,
            };
            take(parts, temps, a, address)
        }
        Expr::Bin(op, a, b) => {
            let Tree::Bin(o, l, r) = tree else {
                return Ok(None);
            };
            if *o != *op {
                return Ok(None);
            }
            let next = plus(at, 1)?;
            let after = past(next, l)?;
            let Some(x) = take(parts, temps, a, Subtree::inner(l, next))? else {
                return Ok(None);
            };
            let Some(y) = take(parts, temps, b, Subtree::inner(r, after))? else {
                return Ok(None);
            };
            Ok(Some(x | y))
        }
        Expr::Word(_)
        | Expr::Const { .. }
        | Expr::Un(_, _)
        | Expr::Slice(_, _, _)
        | Expr::Zext(_, _)
        | Expr::Sext(_, _)
        | Expr::Cat(_, _)
        | Expr::Select(_, _, _) => Ok(None),
    }
}

//! Equal trees.

ghost use Rattle.std.specs.Prelude.{◌≡◌};
ghost use Rattle.std.specs.Bool.{OnTrue, OnFalse};
ghost use Rattle.form_model.specs.Trees.{model_of_tree};
ghost use Rattle.cover_lacks.specs.Inner.Listed.{same_trees};

use form_model::Tree;

// Whether two trees are equal, operator by operator.
fn same(a: &Tree, b: &Tree) -> bool
    ensures { result ≡ same_trees (model_of_tree a.now) (model_of_tree b.now) }
{
    match a {
        Tree::Lit { width, value } => match b {
            Tree::Lit { width: w, value: v } => *width == *w && *value == *v,
            _ => false,
        },
        Tree::Read(x, width) => match b {
            Tree::Read(y, w) => *width == *w && same(x, y),
            _ => false,
        },
        Tree::Un(op, x) => match b {
            Tree::Un(o, y) => *op == *o && same(x, y),
            _ => false,
        },
        Tree::Bin(op, x, z) => match b {
            Tree::Bin(o, y, u) => *op == *o && same(x, y) && same(z, u),
            _ => false,
        },
        Tree::Slice(x, hi, lo) => match b {
            Tree::Slice(y, h, l) => *hi == *h && *lo == *l && same(x, y),
            _ => false,
        },
        Tree::Zext(x, width) => match b {
            Tree::Zext(y, w) => *width == *w && same(x, y),
            _ => false,
        },
        Tree::Sext(x, width) => match b {
            Tree::Sext(y, w) => *width == *w && same(x, y),
            _ => false,
        },
    }
}

/// Whether two trees are equal.
pub fn is_same(a: &Tree, b: &Tree) -> bool
    ensures yes { OnTrue result (model_of_tree a.now ≡ model_of_tree b.now) }
    ensures no { OnFalse result (model_of_tree a.now ≡ model_of_tree b.now → ⊥) }
{
    same(a, b)
}

//! Laws of the definitions, proved here once for every crate above.

ghost use Rattle.std.specs.Prelude.{◌≡◌, ℕ, true};
ghost use Rattle.form_model.specs.Shapes.{IsExactShape, ShapeFits, is_shape};
ghost use Rattle.form_model.specs.Trees.{HasNoState, is_tree, model_of_tree};
ghost use Rattle.form_model.specs.declared.trees.Tree.{Tree as CodeTree};
ghost use Rattle.net_model.specs.Exprs.{ExprModel};

/// Which values a field shape shows, under which bits of the word, and up to where it shows them
/// all, is what is computed for it.
pub fn law_of_shapes()
    ensures { (bits : ℕ) (shape : ExprModel) → is_shape shape ≡ true → ShapeFits bits shape → IsExactShape bits shape }
{}

/// A tree is an expression over numbers and the memory, in which no register and no instruction bit
/// occurs.
pub fn law_of_trees()
    ensures tree { (tree : CodeTree) → is_tree (model_of_tree tree) ≡ true }
    ensures state { (expr : ExprModel) → is_tree expr ≡ true → HasNoState expr }
{}

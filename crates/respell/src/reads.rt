//! Which cells a tree reads, beside those that another reads.

ghost use Rattle.std.specs.Prelude.{◌≡◌, true};
ghost use Rattle.form_model.specs.Trees.{model_of_tree};
ghost use Rattle.respell.specs.Respelled.{ReadsAt, ReadsNoMore};
ghost use Rattle.tree_laws.specs.Classes.{cell_bits};

use form_model::Tree;
use tree_laws::Classes;

/// Whether each address at which the new tree reads is equal to one at which the old tree reads, as
/// far as a table knows.
pub(crate) fn reads_no_more(table: &Classes, old: &Tree, new: &Tree) -> bool
    ensures { result ≡ true → ReadsNoMore (cell_bits table.now) (model_of_tree old.now) (model_of_tree new.now) }
{
    match new {
        Tree::Lit { .. } => true,
        Tree::Read(a, _) => reads_at(table, old, a) && reads_no_more(table, old, a),
        Tree::Un(_, a) => reads_no_more(table, old, a),
        Tree::Bin(_, a, b) => reads_no_more(table, old, a) && reads_no_more(table, old, b),
        Tree::Slice(a, ..) => reads_no_more(table, old, a),
        Tree::Zext(a, _) => reads_no_more(table, old, a),
        Tree::Sext(a, _) => reads_no_more(table, old, a),
    }
}

// Whether a tree reads at an address.
fn reads_at(table: &Classes, tree: &Tree, address: &Tree) -> bool
    ensures { result ≡ true → ReadsAt (cell_bits table.now) (model_of_tree address.now) (model_of_tree tree.now) }
{
    match tree {
        Tree::Lit { .. } => false,
        Tree::Read(a, _) => table.are_equal(a, address) || reads_at(table, a, address),
        Tree::Un(_, a) => reads_at(table, a, address),
        Tree::Bin(_, a, b) => reads_at(table, a, address) || reads_at(table, b, address),
        Tree::Slice(a, ..) => reads_at(table, a, address),
        Tree::Zext(a, _) => reads_at(table, a, address),
        Tree::Sext(a, _) => reads_at(table, a, address),
    }
}

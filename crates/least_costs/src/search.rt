//! What covers are looked for.

ghost use Rattle.form_model.specs.Registers.{AreLow};
ghost use Rattle.form_model.specs.Forms.{models_of_forms};

use form_model::{Form, Tree};
use std::alloc::Global;
use tree_grammar::Destination;

/// A search for covers: where its memory comes from, the forms, the number of temporary cells, and
/// that of the file's cells, 0 where there is no file, and the tree that is to be covered, with its
/// destination. It stays as it is: what is found stands in a `CostTable` beside it.
#[derive(Clone, Copy)]
pub struct Search<'a> {
    pub alloc: Global,
    pub forms: &'a [Form],
    pub temps: u32,
    pub file: u32,
    pub destination: Destination<'a>,
    pub tree: &'a Tree,
    /// A set of registers has a bit for each register that a form names.
    pub ghost low: { AreLow (models_of_forms forms.now) },
}

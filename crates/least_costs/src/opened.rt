//! What a match leaves open, with the numbers of its trees.

ghost use Rattle.tree_grammar.specs.Leaves.{model_of_home};
ghost use Rattle.least_costs.specs.Slots.{IsLowHome};

use form_model::Tree;
use tree_grammar::Home;

/// An operand that a match leaves open, with the number of its tree among the job's subtrees.
#[derive(Clone, Copy)]
pub struct OpenOperand<'a> {
    /// Where it waits for the form that takes it.
    pub home: Home<'a>,
    pub tree: &'a Tree,
    pub whole: bool,
    pub at: u64,
    /// A set of registers has a bit for its home, if that is a register.
    pub ghost low: { IsLowHome (model_of_home home) },
}

/// A cut that a match leaves open, with the number of its tree among the job's subtrees.
#[derive(Clone, Copy)]
pub struct OpenCut<'a> {
    pub tree: &'a Tree,
    pub at: u64,
}

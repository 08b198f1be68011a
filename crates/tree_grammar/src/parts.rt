//! Matches, and where trees go.

ghost use Rattle.std.specs.Prelude.{◌≡◌, false};
ghost use Rattle.form_model.specs.Forms.{aim_destination};
ghost use Rattle.tree_grammar.specs.Leaves.{model_of_destination};

use form_model::{Aim, Tree};
use net_model::Expr;

/// Where an operand waits for the form that takes it.
#[derive(Clone, Copy)]
pub enum Home<'a> {
    /// In the register of this number.
    Register(u32),
    /// In a cell of the register file, which this field shape names.
    File(&'a Expr),
}

/// What a match leaves open, with the number of its tree among the subtrees.
#[derive(Clone, Copy)]
pub enum Leaf<'a> {
    /// A tree that another form has to put into its home first. A whole tree can't be a cut.
    Operand {
        home: Home<'a>,
        tree: &'a Tree,
        whole: bool,
        at: u64,
    },
    /// A tree that has to be in a temporary cell first, the address of which the field shape gives.
    Cut {
        shape: &'a Expr,
        tree: &'a Tree,
        at: u64,
    },
}

/// A tree with its number among the subtrees.
#[derive(Clone, Copy)]
pub struct Subtree<'a> {
    pub tree: &'a Tree,
    /// Whether it is the root of its job or the number that is a read's address. This is asked for a
    /// register or the file alone.
    pub whole: bool,
    pub at: u64,
}

impl<'a> Subtree<'a> {
    // An operand of a tree, which isn't whole.
    pub(crate) fn inner(tree: &'a Tree, at: u64) -> Subtree<'a>
        ensures tree { result.tree.now ≡ tree.now }
        ensures whole { result.whole ≡ false }
        ensures at { result.at ≡ at }
    {
        Subtree {
            tree,
            whole: false,
            at,
        }
    }
}

/// What a form is asked to take: a tree that goes to a destination.
#[derive(Clone, Copy)]
pub struct Subgoal<'a> {
    pub destination: Destination<'a>,
    pub tree: &'a Tree,
    /// Whether the tree is whole, as in `Subtree`.
    pub whole: bool,
    /// The number at which its trees begin, those of a store's address first.
    pub at: u64,
}

/// What a form takes of a tree.
#[derive(Drop)]
pub struct Match<'a> {
    /// The bits of the word that the match settles, in their places, with 0 in those that will name
    /// a temporary cell or a cell of the file.
    pub setting: u64,
    /// Its parts from left to right, those of a store's address before those of its value.
    pub parts: Vec<Leaf<'a>>,
}

/// Where a tree's value goes: an aim, or a register or the file as an operand.
#[derive(Clone, Copy)]
pub enum Destination<'a> {
    /// To the register of this number.
    Register(u32),
    /// To a cell of the register file.
    File,
    /// To the cell of this address.
    Cell(u32),
    /// To the cell of the address that this tree gives.
    Store(&'a Tree),
    /// To the branch of a test.
    Test,
    /// To a temporary cell.
    Temp,
}

impl<'a> Destination<'a> {
    /// Where a tree with this aim goes.
    pub fn of(aim: &'a Aim) -> Destination<'a>
        ensures { model_of_destination result ≡ aim_destination aim.now }
    {
        match aim {
            Aim::Cell(address) => Destination::Cell(*address),
            Aim::Store(address) => Destination::Store(address),
            Aim::Test => Destination::Test,
            Aim::Temp => Destination::Temp,
        }
    }
}

//! What the trees of a job need.

ghost use Rattle.std.specs.Prelude.{◌≡◌, ◌≤◌, true, [], ◌∷◌, IfOk, OnOk};
ghost use Rattle.form_model.specs.Forms.{aim_destination};
ghost use Rattle.form_model.specs.Trees.{is_cell, model_of_tree};
ghost use Rattle.form_model.specs.WideNodes.{tree_temps, wide_below, wide_nodes};
ghost use Rattle.src_trees.specs.Measures.{IsSmall, tree_size as size_of};

use form_model::{Aim, Tree};
use rec_bits::NoMemory;
use tree_grammar::{is_number_tree, plus, tree_size, tree_width};
use tree_laws::NoTree;

/// What there is for the trees of a job.
#[derive(Clone, Copy, PartialEq, Eq)]
pub struct Limits {
    /// How many bits a cell of the memory has.
    pub cell: u8,
    /// How many temporary cells there are.
    pub temps: u32,
    /// How many leaves and operators the trees of a job have at most.
    pub nodes: u64,
}

/// Nothing where a tree with its aim needs no more than that. A tree that goes to a temporary cell
/// is no job of a program.
pub(crate) fn check_small(aim: &Aim, tree: &Tree, limits: Limits) -> Result<(), NoTree>
    ensures { OnOk result (IsSmall limits.cell limits.temps limits.nodes
        (record { destination = aim_destination aim.now; trees = model_of_tree tree.now ∷ [] })) }
{
    if let Aim::Temp = aim {
        return Err(NoTree::Unlisted);
    }
    match is_within(aim, tree, limits) {
        Ok(true) => Ok(()),
        Ok(false) => Err(NoTree::Unlisted),
        Err(_) => Err(NoTree::Memory),
    }
}

// Whether there are cells for all nodes that may wait in one, and nodes are not too many.
fn is_within(aim: &Aim, tree: &Tree, limits: Limits) -> Result<bool, NoMemory>
    ensures cells { result ≡ Ok true → tree_temps limits.cell (aim_destination aim.now) (model_of_tree tree.now) ≤ limits.temps }
    ensures nodes { result ≡ Ok true → size_of (aim_destination aim.now) (model_of_tree tree.now) ≤ limits.nodes }
{
    Ok(
        cells(aim, tree, u64::from(limits.cell))? <= u64::from(limits.temps)
            && nodes(aim, tree)? <= limits.nodes,
    )
}

// The nodes of a job's tree that may wait in a temporary cell.
fn cells(aim: &Aim, tree: &Tree, bits: u64) -> Result<u64, NoMemory>
    ensures { IfOk result (λ count. count ≡ tree_temps bits (aim_destination aim.now) (model_of_tree tree.now)) }
{
    match aim {
        Aim::Store(address) => plus(wide(address, bits)?, wide(tree, bits)?),
        Aim::Cell(_) => below(tree, bits),
        Aim::Test => below(tree, bits),
        Aim::Temp => wide(tree, bits),
    }
}

// The leaves and operators of a job's tree, with those of its address.
fn nodes(aim: &Aim, tree: &Tree) -> Result<u64, NoMemory>
    ensures { IfOk result (λ count. count ≡ size_of (aim_destination aim.now) (model_of_tree tree.now)) }
{
    match aim {
        Aim::Store(address) => plus(tree_size(address)?, tree_size(tree)?),
        Aim::Cell(_) => tree_size(tree),
        Aim::Test => tree_size(tree),
        Aim::Temp => tree_size(tree),
    }
}

// Whether a tree is a read at a number.
fn is_read_at_number(tree: &Tree) -> bool
    ensures { result ≡ is_cell (model_of_tree tree.now) }
{
    match tree {
        Tree::Read(address, _) => is_number_tree(address),
        _ => false,
    }
}

// The nodes of a tree that are as wide as a word, but for reads at numbers.
#[cycle(count)]
fn wide(tree: &Tree, bits: u64) -> Result<u64, NoMemory>
    ensures { IfOk result (λ count. count ≡ wide_nodes bits (model_of_tree tree.now)) }
{
    let behind = below(tree, bits)?;
    if is_read_at_number(tree) || tree_width(tree) != bits {
        return Ok(behind);
    }
    plus(1, behind)
}

// Those below the root.
#[cycle(count)]
fn below(tree: &Tree, bits: u64) -> Result<u64, NoMemory>
    ensures { IfOk result (λ count. count ≡ wide_below bits (model_of_tree tree.now)) }
{
    match tree {
        Tree::Lit { .. } => Ok(0),
        Tree::Read(a, _) => {
            if is_number_tree(a) {
                Ok(0)
            } else {
                wide(a, bits)
            }
        }
        Tree::Un(_, a) => wide(a, bits),
        Tree::Bin(_, a, b) => plus(wide(a, bits)?, wide(b, bits)?),
        Tree::Slice(a, ..) => wide(a, bits),
        Tree::Zext(a, _) => wide(a, bits),
        Tree::Sext(a, _) => wide(a, bits),
    }
}

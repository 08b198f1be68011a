//! The operands and the cuts of a match, with the temporary cells that cuts are put into.

ghost use Rattle.std.specs.Prelude.{◌≡◌, ℕ, ◌+◌, ◌∷◌, List, IfOk, slice_index};
ghost use Rattle.form_model.specs.Matches.{LeafModel};
ghost use Rattle.tree_grammar.specs.Leaves.{model_of_leaf, models_of_leaves};
ghost use Rattle.emit_seq.specs.Inner.CellLists.{AreMatchCells, HaveCells};
ghost use Rattle.emit_seq.specs.Models.{models_of_cut_cells, models_of_operand_cells};

use form_model::Tree;
use net_model::Expr;
use rec_bits::NoMemory;
use std::alloc::Global;
use tree_grammar::{Home, Leaf, plus};

/// An operand, with the cells of the cuts inside its cover: from the first up to the one past the
/// last.
#[derive(Clone, Copy)]
pub struct OperandCells<'a> {
    pub home: Home<'a>,
    pub tree: &'a Tree,
    pub whole: bool,
    pub first: u64,
    pub past: u64,
}

/// A cut, with the shape that names its cell, the first cell of the cuts inside it, and its own.
#[derive(Clone, Copy)]
pub struct CutCells<'a> {
    pub shape: &'a Expr,
    pub tree: &'a Tree,
    pub first: u64,
    pub cell: u64,
}

/// The operands and the cuts of a match, each from left to right, with their cells.
#[derive(Drop)]
pub struct MatchCells<'a> {
    pub operands: Vec<OperandCells<'a>>,
    pub cuts: Vec<CutCells<'a>>,
}

// The number at this place, and 0 past the last.
fn count_at(counts: &[u64], place: usize) -> u64
    ensures { result ≡ slice_index counts.now place }
{
    counts.get(place).copied().unwrap_or(0)
}

// Adds a part, the first of whose cells is told, and gives the cell past them.
fn add_part<'a>(
    cells: &mut MatchCells<'a>,
    part: Leaf<'a>,
    inside: &[u64],
    own: &[u64],
    first: u64,
) -> Result<u64, NoMemory>
    ensures { IfOk result (λ past. (leaves rest : List LeafModel) (start : ℕ) →
        HaveCells leaves inside.now own.now start (models_of_operand_cells cells.old.operands.items)
        (models_of_cut_cells cells.old.cuts.items) (model_of_leaf part.entry ∷ rest) first →
        HaveCells leaves inside.now own.now start (models_of_operand_cells cells.new.operands.items)
        (models_of_cut_cells cells.new.cuts.items) rest past) }
{
    match part {
        Leaf::Operand {
            home,
            tree,
            whole,
            ..
        } => {
            let past = plus(first, count_at(inside, cells.operands.len()))?;
            cells.operands.push(OperandCells {
                home,
                tree,
                whole,
                first,
                past,
            })?;
            Ok(past)
        }
        Leaf::Cut { shape, tree, .. } => {
            let cell = plus(first, count_at(own, cells.cuts.len()))?;
            cells.cuts.push(CutCells {
                shape,
                tree,
                first,
                cell,
            })?;
            plus(cell, 1)
        }
    }
}

/// The operands and the cuts of a match, which have the cells from `first` on: `inside` has the
/// numbers of cuts of the operands, and `own` those of the cuts inside each cut.
pub fn match_cells<'a>(
    alloc: Global,
    parts: &[Leaf<'a>],
    inside: &[u64],
    own: &[u64],
    first: u64,
) -> Result<MatchCells<'a>, NoMemory>
    ensures { IfOk result (λ cells. AreMatchCells (models_of_leaves parts.now) inside.now own.now first cells) }
{
    let mut cells = MatchCells {
        operands: Vec::new(alloc),
        cuts: Vec::new(alloc),
    };
    let mut next = first;
    for part in parts {
        next = add_part(&mut cells, *part, inside, own, next)?;
    }
    Ok(cells)
}

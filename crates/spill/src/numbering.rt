//! The cells of a cover's cuts.

ghost use Rattle.std.specs.Prelude.{◌≡◌, ◌++◌, ℕ, Bool, IfOk, OnOk, length};
ghost use Rattle.std.specs.List.{range_with_len};
ghost use Rattle.net_model.specs.Exprs.{ExprModel};
ghost use Rattle.form_model.specs.Forms.{DestinationModel};
ghost use Rattle.form_model.specs.Covers.{IsOrderly, StockModel};
ghost use Rattle.form_model.specs.CoverModels.{model_of_cover_cuts, model_of_cover_operands, model_of_cover};
ghost use Rattle.form_model.specs.Steps.{cut_count, cuts_count, operands_count};
ghost use Rattle.spill.specs.Filled.{filled_cells};

use crate::cut_cells::Cells;
use form_model::{Cover, CoverCuts, CoverOperands};
use rec_bits::NoMemory;
use std::alloc::Global;

// Adds a cell for each cut of the operands' covers; its number is how many cells stand before it.
#[cycle(adding)]
fn add_in_operands(operands: &CoverOperands, list: &mut Vec<usize>) -> Result<(), NoMemory>
    ensures { OnOk result (list.new.items ≡ list.old.items
        ++ range_with_len (length list.old.items) (operands_count (model_of_cover_operands operands.now))) }
{
    match operands {
        CoverOperands::Empty => Ok(()),
        CoverOperands::Then { cover, rest, .. } => {
            add_in(cover, list)?;
            add_in_operands(rest, list)
        }
    }
}

// Adds a cell for each of these cuts, behind those inside it.
#[cycle(adding)]
fn add_in_cuts(cuts: &CoverCuts, list: &mut Vec<usize>) -> Result<(), NoMemory>
    ensures { OnOk result (list.new.items ≡ list.old.items
        ++ range_with_len (length list.old.items) (cuts_count (model_of_cover_cuts cuts.now))) }
{
    match cuts {
        CoverCuts::Empty => Ok(()),
        CoverCuts::Then { cover, rest } => {
            add_in(cover, list)?;
            let cell = list.len();
            list.push(cell)?;
            add_in_cuts(rest, list)
        }
    }
}

// Adds a cell for each cut of the cover, inner ones among them.
#[cycle(adding)]
fn add_in(cover: &Cover, list: &mut Vec<usize>) -> Result<(), NoMemory>
    ensures { OnOk result (list.new.items ≡ list.old.items
        ++ range_with_len (length list.old.items) (cut_count (model_of_cover cover.now))) }
{
    add_in_operands(&cover.operands, list)?;
    add_in_cuts(&cover.cuts, list)
}

/// The cells of the cover's cuts: 0 for the cut that is evaluated first, 1 for the next, and so on.
/// Cuts are evaluated in the order of the tree from left to right, a cut after those inside it,
/// whatever the order of the operands that they stand in; the steps of an orderly cover fill these
/// very cells. Want of memory is the only refusal.
pub fn cells(alloc: Global, cover: &Cover) -> Result<Cells, NoMemory>
    ensures numbered { IfOk result (λ cells. cells.list.items ≡ range_with_len 0 (cut_count (model_of_cover cover.now))) }
    ensures filled { IfOk result (λ cells. (stock : StockModel) (destination : DestinationModel) (tree : ExprModel) (whole : Bool) →
        IsOrderly stock destination tree whole (model_of_cover cover.now) →
        filled_cells stock (model_of_cover cover.now) 0 destination tree whole ≡ cells.list.items) }
{
    let mut list = Vec::new(alloc);
    add_in(cover, &mut list)?;
    Ok(Cells { list })
}

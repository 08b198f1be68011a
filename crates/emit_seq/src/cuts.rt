//! The steps that put cuts into their cells.

ghost use Rattle.std.specs.Prelude.{◌≡◌, ◌++◌, IfOk, OnOk};
ghost use Rattle.form_model.specs.Covers.{AreCut, AreOrderly, IsOrderly};
ghost use Rattle.form_model.specs.CoverModels.{model_of_cover_cuts, model_of_cover_operands, model_of_cover};
ghost use Rattle.form_model.specs.Steps.{cut_steps as cut_steps_of, inside_operands as inside_operands_of, into_cells as into_cells_of, own_steps, woven as woven_of};
ghost use Rattle.form_model.specs.Trees.{model_of_tree};
ghost use Rattle.tree_grammar.specs.Leaves.{model_of_destination, models_of_leaves};
ghost use Rattle.emit_seq.specs.Inner.CellLists.{operands_in, trees_in};
ghost use Rattle.emit_seq.specs.Models.{models_of_cut_cells, models_of_operand_cells, model_of_stock};

use crate::cells::{CutCells, OperandCells};
use crate::counts::inserted;
use crate::operands::put_own_steps;
use crate::roots::{Covered, Stock, cut_covered, operand_covered, root_of, take_out};
use form_model::{Cover, CoverCuts, CoverOperands, Step};
use rec_bits::{Items, NoMemory};
use std::alloc::Global;
use tree_grammar::Leaf;

fn put_all(out: &mut Items<Step>, steps: &[Step]) -> Result<(), NoMemory>
    ensures { OnOk result (out.new ≡ out.old ++ steps.now) }
{
    for step in steps {
        out.push(*step)?;
    }
    Ok(())
}

// Adds the steps for the operands and those for the form's own cuts, in the order of the parts.
fn put_woven(
    out: &mut Items<Step>,
    parts: &[Leaf],
    inside: &[Items<Step>],
    own: &[Items<Step>],
) -> Result<(), NoMemory>
    ensures { OnOk result (out.new ≡ out.old ++ woven_of (models_of_leaves parts.now) inside.now own.now) }
{
    match parts {
        [] => Ok(()),
        [part, rest @ ..] => match *part {
            Leaf::Operand { .. } => match inside {
                [] => put_woven(out, rest, inside, own),
                [steps, more @ ..] => {
                    put_all(out, steps.as_slice())?;
                    put_woven(out, rest, more, own)
                }
            },
            Leaf::Cut { .. } => match own {
                [] => put_woven(out, rest, inside, own),
                [steps, more @ ..] => {
                    put_all(out, steps.as_slice())?;
                    put_woven(out, rest, inside, more)
                }
            },
        },
    }
}

fn woven(
    alloc: Global,
    parts: &[Leaf],
    inside: &[Items<Step>],
    own: &[Items<Step>],
) -> Result<Items<Step>, NoMemory>
    ensures { IfOk result (λ steps. steps ≡ woven_of (models_of_leaves parts.now) inside.now own.now) }
{
    let mut out = Items::new(alloc);
    put_woven(&mut out, parts, inside, own)?;
    Ok(out)
}

/// The steps that put the cuts of an orderly cover into their cells.
#[cycle(cutting)]
pub fn cut_steps<'a>(
    alloc: Global,
    stock: Stock<'a>,
    cover: &Cover,
    covered: Covered<'a>,
) -> Result<Items<Step>, NoMemory>
    requires { IsOrderly (model_of_stock stock) (model_of_destination covered.destination)
        (model_of_tree covered.tree.now) covered.whole (model_of_cover cover.now) }
    ensures { IfOk result (λ steps. steps
        ≡ cut_steps_of (model_of_stock stock.entry) (model_of_cover cover.now) covered.entry.first
        (model_of_destination covered.entry.destination) (model_of_tree covered.entry.tree.now)
        covered.entry.whole) }
{
    let mut root = root_of(alloc, stock, cover, covered)?;
    let inside = inside_operands(alloc, stock, &cover.operands, &mut root.operands)?;
    let own = into_cells(alloc, stock, &cover.cuts, root.cuts.as_slice())?;
    woven(
        alloc,
        root.parts.as_slice(),
        inside.as_slice(),
        own.as_slice(),
    )
}

/// The steps that put the cuts of an orderly cover into their cells, and then its own.
#[cycle(cutting)]
pub fn all_steps<'a>(
    alloc: Global,
    stock: Stock<'a>,
    cover: &Cover,
    covered: Covered<'a>,
) -> Result<Items<Step>, NoMemory>
    requires { IsOrderly (model_of_stock stock) (model_of_destination covered.destination)
        (model_of_tree covered.tree.now) covered.whole (model_of_cover cover.now) }
    ensures { IfOk result (λ steps.
        steps ≡ cut_steps_of (model_of_stock stock.entry) (model_of_cover cover.now) covered.entry.first
        (model_of_destination covered.entry.destination) (model_of_tree covered.entry.tree.now) covered.entry.whole
        ++ own_steps (model_of_stock stock.entry) (model_of_cover cover.now) covered.entry.first covered.entry.held
        (model_of_destination covered.entry.destination) (model_of_tree covered.entry.tree.now) covered.entry.whole) }
{
    let mut steps = cut_steps(alloc, stock, cover, covered)?;
    put_own_steps(alloc, stock, cover, covered, &mut steps)?;
    Ok(steps)
}

// For each operand, from left to right, the steps for the cuts inside it. The cells of each are
// taken out of those that are left.
#[cycle(cutting)]
fn inside_operands<'a>(
    alloc: Global,
    stock: Stock<'a>,
    operands: &CoverOperands,
    left: &mut Vec<OperandCells<'a>>,
) -> Result<Vec<Items<Step>>, NoMemory>
    requires { AreOrderly (model_of_stock stock) (operands_in (models_of_operand_cells left.old.items))
        (model_of_cover_operands operands.now) }
    ensures { IfOk result (λ v. v.items
        ≡ inside_operands_of (model_of_stock stock.entry) (model_of_cover_operands operands.now) (models_of_operand_cells left.old.items)) }
{
    match operands {
        CoverOperands::Empty => Ok(Vec::new(alloc)),
        CoverOperands::Then { place, cover, rest } => {
            let operand = operand_covered(take_out(left, *place), 0);
            let steps = cut_steps(alloc, stock, cover, operand)?;
            let others = inside_operands(alloc, stock, rest, left)?;
            let lists = inserted(others, *place, steps)?;
            Ok(lists)
        }
    }
}

// For each of the form's own cuts, from left to right, the steps for those inside it, and then its
// own.
#[cycle(cutting)]
fn into_cells<'a>(
    alloc: Global,
    stock: Stock<'a>,
    covers: &CoverCuts,
    cuts: &[CutCells<'a>],
) -> Result<Vec<Items<Step>>, NoMemory>
    requires { AreCut (model_of_stock stock) (trees_in (models_of_cut_cells cuts.now)) (model_of_cover_cuts covers.now) }
    ensures { IfOk result (λ v. v.items
        ≡ into_cells_of (model_of_stock stock.entry) (model_of_cover_cuts covers.now) (models_of_cut_cells cuts.now)) }
{
    match covers {
        CoverCuts::Empty => Ok(Vec::new(alloc)),
        CoverCuts::Then { cover, rest } => match cuts {
            [] => unreachable!(),
            [cells, later @ ..] => {
                let steps = all_steps(alloc, stock, cover, cut_covered(*cells))?;
                let others = into_cells(alloc, stock, rest, later)?;
                let lists = inserted(others, 0, steps)?;
                Ok(lists)
            }
        },
    }
}

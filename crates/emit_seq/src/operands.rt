//! The steps of operands and of the form behind them.

ghost use Rattle.std.specs.Prelude.{◌≡◌, ◌++◌, OnOk};
ghost use Rattle.form_model.specs.Covers.{AreOrderly, IsOrderly};
ghost use Rattle.form_model.specs.CoverModels.{model_of_cover_operands, model_of_cover};
ghost use Rattle.form_model.specs.Forms.{FormModel};
ghost use Rattle.form_model.specs.Steps.{form_step, operand_steps, own_steps};
ghost use Rattle.form_model.specs.Trees.{model_of_tree};
ghost use Rattle.tree_grammar.specs.Leaves.{model_of_destination};
ghost use Rattle.emit_seq.specs.Inner.CellLists.{operands_in};
ghost use Rattle.emit_seq.specs.Models.{models_of_operand_cells, model_of_stock};

use crate::cells::OperandCells;
use crate::homes::{cell_of, holding};
use crate::roots::{Covered, Stock, operand_covered, root_of, take_out};
use form_model::{Cover, CoverOperands, Step};
use rec_bits::{Items, NoMemory};
use std::alloc::Global;
use tree_grammar::Destination;

// Adds the form's own step. A test has none.
fn put_form_step(
    out: &mut Items<Step>,
    destination: Destination,
    step: Step,
) -> Result<(), NoMemory>
    ensures { OnOk result ((form : FormModel) → step.pattern ≡ form.pattern →
        out.new ≡ out.old ++ form_step form (model_of_destination destination.entry) step.setting) }
{
    match destination {
        Destination::Test => Ok(()),
        _ => out.push(step),
    }
}

/// Adds the steps of an orderly cover without those for its cuts: those of its operands, and then
/// the form's own.
#[cycle(evaluating)]
pub fn put_own_steps<'a>(
    alloc: Global,
    stock: Stock<'a>,
    cover: &Cover,
    covered: Covered<'a>,
    out: &mut Items<Step>,
) -> Result<(), NoMemory>
    requires { IsOrderly (model_of_stock stock) (model_of_destination covered.destination)
        (model_of_tree covered.tree.now) covered.whole (model_of_cover cover.now) }
    ensures { OnOk result (out.new ≡ out.old
        ++ own_steps (model_of_stock stock.entry) (model_of_cover cover.now) covered.entry.first covered.entry.held
        (model_of_destination covered.entry.destination) (model_of_tree covered.entry.tree.now)
        covered.entry.whole) }
{
    let mut root = root_of(alloc, stock, cover, covered)?;
    put_operands(
        alloc,
        stock,
        &cover.operands,
        covered.held,
        &mut root.operands,
        out,
    )?;
    put_form_step(out, covered.destination, root.step)
}

// Adds the steps of operands, in the order of their evaluation. The cells of each operand are taken
// out of those that are left.
#[cycle(evaluating)]
fn put_operands<'a>(
    alloc: Global,
    stock: Stock<'a>,
    operands: &CoverOperands,
    held: u64,
    left: &mut Vec<OperandCells<'a>>,
    out: &mut Items<Step>,
) -> Result<(), NoMemory>
    requires { AreOrderly (model_of_stock stock) (operands_in (models_of_operand_cells left.old.items))
        (model_of_cover_operands operands.now) }
    ensures { OnOk result (out.new ≡ out.old
        ++ operand_steps (model_of_stock stock.entry) (model_of_cover_operands operands.now)
        (models_of_operand_cells left.old.items) held) }
{
    match operands {
        CoverOperands::Empty => Ok(()),
        CoverOperands::Then { place, cover, rest } => {
            let operand = operand_covered(take_out(left, *place), held);
            put_own_steps(alloc, stock, cover, operand, out)?;
            let more = holding(held, cell_of(alloc, stock, cover, held)?)?;
            put_operands(alloc, stock, rest, more, left, out)
        }
    }
}

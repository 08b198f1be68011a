//! The bits of a form's word that name temporary cells and cells of the file.

ghost use Rattle.std.specs.Prelude.{◌≡◌, ℕ, IfOk, bit_or};
ghost use Rattle.net_model.specs.Exprs.{model_of_expr};
ghost use Rattle.form_model.specs.Forms.{model_of_form};
ghost use Rattle.form_model.specs.Shapes.{shape_setting};
ghost use Rattle.form_model.specs.Steps.{bits_or_none, cells_setting as cells_setting_of, home_setting as home_setting_of, homes_setting as homes_setting_of, own_setting as own_setting_of};
ghost use Rattle.form_model.specs.Covers.{operands_of};
ghost use Rattle.tree_grammar.specs.Leaves.{model_of_destination, model_of_home, models_of_leaves};
ghost use Rattle.emit_seq.specs.Models.{models_of_cut_cells};

use crate::cells::CutCells;
use form_model::Form;
use net_model::Expr;
use rec_bits::NoMemory;
use tree_grammar::{Destination, Home, Leaf, setting_of};

// The bits of the word that give the shape this value, or none where it doesn't show it.
fn bits_for(shape: &Expr, value: u64) -> Result<u64, NoMemory>
    ensures { IfOk result (λ n. n ≡ bits_or_none (shape_setting (model_of_expr shape.now) value)) }
{
    Ok(setting_of(shape, value)?.unwrap_or(0))
}

/// The bits that name the cells of the cuts.
pub fn cells_setting(cuts: &[CutCells]) -> Result<u64, NoMemory>
    ensures { IfOk result (λ n. n ≡ cells_setting_of (models_of_cut_cells cuts.now)) }
{
    let mut setting = 0;
    for cut in cuts {
        setting |= bits_for(cut.shape, cut.cell)?;
    }
    Ok(setting)
}

// The bits that name the cell of an operand, where it is in the file.
fn home_setting(home: Home, cell: Option<u64>) -> Result<u64, NoMemory>
    ensures { IfOk result (λ n. n ≡ home_setting_of (model_of_home home.entry) cell) }
{
    match (home, cell) {
        (Home::File(shape), Some(cell)) => bits_for(shape, cell),
        _ => Ok(0),
    }
}

/// The bits that name the cells of the operands among the parts, which are given from left to right.
pub fn homes_setting(parts: &[Leaf], homes: &[Option<u64>]) -> Result<u64, NoMemory>
    ensures { IfOk result (λ n. n ≡ homes_setting_of (operands_of (models_of_leaves parts.now)) homes.now) }
{
    match parts {
        [] => Ok(0),
        [part, rest @ ..] => match *part {
            Leaf::Cut { .. } => homes_setting(rest, homes),
            Leaf::Operand { home, .. } => match homes {
                [] => Ok(0),
                [cell, more @ ..] => {
                    let own = home_setting(home, *cell)?;
                    Ok(own | homes_setting(rest, more)?)
                }
            },
        },
    }
}

/// The bits that name the temporary cell that is written, or the cell of the file.
pub fn own_setting(
    form: &Form,
    destination: Destination,
    own: u64,
    cell: Option<u64>,
) -> Result<u64, NoMemory>
    ensures { IfOk result (λ n. n ≡ own_setting_of (model_of_destination destination.entry) (model_of_form form.now).addr own cell) }
{
    match (destination, &form.addr) {
        (Destination::Temp, Some(addr)) => bits_for(addr, own),
        (Destination::File, Some(addr)) => match cell {
            Some(cell) => bits_for(addr, cell),
            None => Ok(0),
        },
        _ => Ok(0),
    }
}

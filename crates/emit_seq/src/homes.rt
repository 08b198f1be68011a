//! The cells of the file in which covers leave their values.

ghost use Rattle.std.specs.Prelude.{◌≡◌, ◌==◌, Some, IfOk};
ghost use Rattle.std.specs.Int.{bit_at};
ghost use Rattle.form_model.specs.CoverModels.{model_of_cover_operands, model_of_cover};
ghost use Rattle.form_model.specs.Steps.{cell_of as cell_of_plan, cell_or, first_home, free_cell as free_cell_of, holding as holding_of, operand_homes, some_or, tied_cell as tied_cell_of};
ghost use Rattle.emit_seq.specs.Inner.CellLists.{AreListed, IsListed};
ghost use Rattle.emit_seq.specs.Models.{model_of_stock};

use crate::counts::inserted;
use crate::roots::{Stock, form_at};
use form_model::{Cover, CoverOperands, Goal};
use rec_bits::NoMemory;
use std::alloc::Global;

/// The cells of operands, where they are in the file.
#[derive(Drop)]
pub struct Homes {
    /// From left to right.
    pub cells: Vec<Option<u64>>,
    /// That of the first in the order that is in the file.
    pub first: Option<u64>,
}

// Whether a cell isn't held.
fn is_free(held: u64, cell: u64) -> bool
    ensures { result ≡ (bit_at held cell == 0) }
{
    cell >= 64 || (held >> cell) & 1 == 0
}

// The least of so many cells that isn't held, or their number.
fn free_cell(held: u64, count: u32) -> u64
    ensures { result ≡ free_cell_of held count }
{
    let mut cell = 0;
    for k in 0..count {
        if !is_free(held, cell) {
            cell = u64::from(k) + 1;
        }
    }
    cell
}

/// The cells that are held with that of an operand, where it is in the file.
pub fn holding(held: u64, cell: Option<u64>) -> Result<u64, NoMemory>
    ensures { IfOk result (λ n. n ≡ holding_of held cell) }
{
    match cell {
        None => Ok(held),
        Some(c) => if c < 64 {
            Ok(held | (1 << c))
        } else {
            Err(NoMemory)
        },
    }
}

// The cell of the tied operand, from those of all operands from left to right.
fn tied_cell(tied: Option<u32>, cells: &[Option<u64>]) -> Option<u64>
    ensures { result ≡ tied_cell_of tied cells.now }
{
    match cells.get(tied? as usize) {
        Some(cell) => *cell,
        None => None,
    }
}

// The cell that a form writes that writes the file: the tied operand's, or else that of the first in
// the order, or else the free one.
fn written_cell(tied: Option<u32>, homes: &Homes, free: u64) -> u64
    ensures { result ≡ cell_or (some_or (tied_cell_of tied homes.now.cells.items) homes.now.first) free }
{
    tied_cell(tied, homes.cells.as_slice())
        .or(homes.first)
        .unwrap_or(free)
}

/// The cell of the file in which a cover leaves its value, if it leaves it there.
#[cycle(homing)]
pub fn cell_of<'a>(
    alloc: Global,
    stock: Stock<'a>,
    cover: &Cover,
    held: u64,
) -> Result<Option<u64>, NoMemory>
    requires { IsListed (model_of_stock stock) (model_of_cover cover.now) }
    ensures { IfOk result (λ o. o ≡ cell_of_plan (model_of_stock stock.entry) (model_of_cover cover.now) held) }
{
    let form = form_at(stock, cover.form);
    match &form.goal {
        Goal::File => {
            let homes = homes_of(alloc, stock, &cover.operands, held)?;
            let free = free_cell(held, stock.file);
            Ok(Some(written_cell(form.tied, &homes, free)))
        }
        _ => Ok(None),
    }
}

/// The cells of operands.
#[cycle(homing)]
pub fn homes_of<'a>(
    alloc: Global,
    stock: Stock<'a>,
    operands: &CoverOperands,
    held: u64,
) -> Result<Homes, NoMemory>
    requires { AreListed (model_of_stock stock) (model_of_cover_operands operands.now) }
    ensures cells { IfOk result (λ h. h.cells.items ≡ operand_homes (model_of_stock stock.entry) (model_of_cover_operands operands.now) held) }
    ensures first { IfOk result (λ h. h.first ≡ first_home (model_of_stock stock.entry) (model_of_cover_operands operands.now) held) }
{
    match operands {
        CoverOperands::Empty => Ok(Homes {
            cells: Vec::new(alloc),
            first: None,
        }),
        CoverOperands::Then { place, cover, rest } => {
            let cell = cell_of(alloc, stock, cover, held)?;
            let later = homes_of(alloc, stock, rest, holding(held, cell)?)?;
            let cells = inserted(later.cells, *place, cell)?;
            Ok(Homes {
                cells,
                first: cell.or(later.first),
            })
        }
    }
}

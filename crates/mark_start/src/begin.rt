//! What is known of cells at a mark.

ghost use Rattle.std.specs.Prelude.{◌≡◌, ◌<◌, List, true, Some, length, slice_get, IfOk};
ghost use Rattle.mark_start.specs.Marked.{AreViewless, IsViewless, IsInArray, IsInArrays, IsKeptBy, IsKeptIn};
ghost use Rattle.mark_start.specs.Runs.{AreStartCells, ArraysIn, IsStartCell, IsToldCell, IsToldFile, IsToldOf, IsToldReg, IsToldVar};
ghost use Rattle.mark_start.specs.declared.hints.Spot.{Spot as TheSpot};

use crate::hints::Spot;
use rec_bits::{Items, NoMemory};
use std::alloc::Global;
use sym_expr::{ExprId, Node, Pool};
use sym_run::{Cell, Known};

// ---- cells

// Whether a variable that has no view and isn't hidden has the cell of this address: an array, or any.
fn is_kept(spots: &[Spot], a: u64, is_array: bool) -> bool
    ensures kept { result ≡ true → IsKeptIn spots.now a }
    ensures arrays { AreViewless spots.now → is_array ≡ true → IsInArrays spots.now a → result ≡ true }
{
    let Some((spot, rest)) = spots.split_first() else {
        return false;
    };
    if is_kept_in(*spot, a, is_array) {
        return true;
    }
    is_kept(rest, a, is_array)
}

// Whether this one does.
fn is_kept_in(spot: Spot, a: u64, is_array: bool) -> bool
    ensures kept { result ≡ true → IsKeptBy spot a }
    ensures array { IsViewless spot → is_array ≡ true → IsInArray spot a → result ≡ true }
{
    let first = u64::from(spot.address);
    let end = first + u64::from(spot.len);
    if is_array && !spot.is_array {
        return false;
    }
    if spot.hidden {
        return false;
    }
    spot.view.is_none() && first <= a && a < end
}

/// Whether no array has a view, and none is hidden.
pub fn are_viewless(spots: &[Spot]) -> bool
    ensures { result ≡ true → AreViewless spots.now }
{
    let Some((spot, rest)) = spots.split_first() else {
        return true;
    };
    if !is_viewless(*spot) {
        return false;
    }
    are_viewless(rest)
}

fn is_viewless(spot: Spot) -> bool
    ensures { result ≡ true → IsViewless spot }
{
    if spot.is_array {
        !spot.hidden && spot.view.is_none()
    } else {
        true
    }
}

// What is known of a cell at the mark: of the machine, or of the program.
fn start_cell(spots: &[Spot], a: u64, is_machine: bool) -> Cell
    ensures is { IsStartCell spots.now is_machine a result }
    ensures array { AreViewless spots.now → IsInArrays spots.now a → result ≡ Cell.Array }
{
    if is_kept(spots, a, true) {
        return Cell::Array;
    }
    if !is_machine {
        return Cell::Kept;
    }
    if is_kept(spots, a, false) {
        Cell::Kept
    } else {
        Cell::Unknown
    }
}

// What is known of the cells at the mark.
pub(crate) fn start_cells(
    alloc: Global,
    spots: &[Spot],
    room: u64,
    is_machine: bool,
) -> Result<Items<Cell>, NoMemory>
    ensures { IfOk result (AreStartCells spots.now is_machine room) }
{
    let mut cells = Items::new(alloc);
    for a in 0..room {
        cells.push(start_cell(spots, a, is_machine))?;
    }
    Ok(cells)
}

// ---- what holds in a place

// A register has the value of a class.
pub(crate) fn tell_reg(known: &mut Known, register: u64, class: u64)
    ensures told { IsToldReg register class known.old known.new }
    ensures cells { known.new.cells ≡ known.old.cells }
{
    if register < known.regs.len() as u64 {
        known.regs.set(register as usize, Some(class));
    }
}

// Whether nothing is known of a cell that is there.
fn is_unknown(known: &Known, address: u64) -> bool
    ensures { result ≡ true → slice_get known.now.cells address ≡ Some Cell.Unknown }
{
    match known.cells.get(address as usize) {
        Some(Cell::Unknown) => true,
        _ => false,
    }
}

// A cell of which nothing is known has the value of a class.
fn tell_cell(known: &mut Known, address: u64, class: u64)
    ensures told { IsToldCell address class known.old known.new }
    ensures arrays { (spots : List TheSpot) → ArraysIn spots known.old.cells → ArraysIn spots known.new.cells }
{
    if is_unknown(known, address) {
        known.cells.set(address as usize, Cell::Is(class));
    }
}

// A cell of the register file has the value of a class.
pub(crate) fn tell_file(known: &mut Known, address: u64, class: u64)
    ensures told { IsToldFile address class known.old known.new }
    ensures cells { known.new.cells ≡ known.old.cells }
{
    if address < known.file.len() as u64 {
        known.file.set(address as usize, Some(class));
    }
}

// Whether a cell holds what the mark's store has there.
fn is_kept_cell(known: &Known, address: u64) -> bool
    ensures { result ≡ true → slice_get known.now.cells address ≡ Some Cell.Kept }
{
    match known.cells.get(address as usize) {
        Some(Cell::Kept) => true,
        _ => false,
    }
}

// A cell of the program that is no array's has the value of a class.
pub(crate) fn tell_var(known: &mut Known, address: u64, class: u64)
    ensures told { IsToldVar address class known.old known.new }
    ensures arrays { (spots : List TheSpot) → ArraysIn spots known.old.cells → ArraysIn spots known.new.cells }
{
    if is_kept_cell(known, address) {
        known.cells.set(address as usize, Cell::Is(class));
    }
}

// A place has the value of a class.
pub(crate) fn learn(pool: &Pool, known: &mut Known, place: ExprId, class: u64)
    requires { place < length pool.now }
    ensures told { IsToldOf pool.now place class known.old known.new }
    ensures arrays { (spots : List TheSpot) → ArraysIn spots known.old.cells → ArraysIn spots known.new.cells }
{
    match pool.node(place) {
        Node::Reg(register, _width) => tell_reg(known, u64::from(register), class),
        Node::Read(addr, _width) => {
            if let Node::Const {
                width: _bits,
                value,
            } = pool.node(addr)
            {
                tell_cell(known, value, class);
            }
        }
        Node::Cell(addr, _width) => {
            if let Node::Const {
                width: _bits,
                value,
            } = pool.node(addr)
            {
                tell_file(known, value, class);
            }
        }
        _ => {}
    }
}

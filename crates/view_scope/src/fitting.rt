//! Whether a remark fits.

ghost use Rattle.std.specs.Prelude.{◌≡◌, ◌≤◌, position};
ghost use Rattle.view_lines.specs.Remarks.{model_of_remark};
ghost use Rattle.view_terms.specs.Terms.{model_of_term};
ghost use Rattle.view_scope.specs.Fits.{accepts, cell, cell_spot, has_label, hide_turn, hold_turn, holder_spot, is_hideable, is_marked, is_register_named, know_turn, place_index, plain_index, register_spot, same_label, starts_labelled, turn_of, view_turn};

use crate::Turn;
use crate::turn::{HolderSpace, may_follow};
use crate::widths::{part_width, register_width, tree_width};
use code_model::{Image, Mark, Place};
use net_model::{Cells, Storage};
use rec_bits::mask;
use view_lines::{Holder, Remark};
use view_terms::Term;

/// What holds a value: the register or the cell of this number, and its width.
#[derive(Clone, Copy)]
pub struct Spot {
    pub space: HolderSpace,
    pub index: usize,
    pub width: u8,
}

// Whether a mark has the label.
fn same_label(mark: &Mark, label: Option<u32>) -> bool
    ensures { result ≡ same_label mark.now.label label }
{
    match mark.label {
        Some(one) => match label {
            Some(other) => one == other,
            None => false,
        },
        None => match label {
            Some(_tree) => false,
            None => true,
        },
    }
}

// Whether one of the marks has the label, and none at address 0 does.
fn is_hideable(marks: &[Mark], label: Option<u32>) -> bool
    ensures { result ≡ is_hideable marks.now label }
{
    has_label(marks, label) && !starts_labelled(marks, label)
}

// Whether a mark at address 0 has the label.
fn starts_labelled(marks: &[Mark], label: Option<u32>) -> bool
    ensures { result ≡ starts_labelled marks.now label }
{
    marks
        .iter()
        .any(|mark| mark.address == 0 && same_label(mark, label))
}

// Whether one of the marks has the label.
fn has_label(marks: &[Mark], label: Option<u32>) -> bool
    ensures { result ≡ has_label marks.now label }
{
    marks.iter().any(|mark| same_label(mark, label))
}

// Whether there is a mark at an address.
fn is_marked(marks: &[Mark], address: u32) -> bool
    ensures { result ≡ is_marked marks.now address }
{
    marks.iter().any(|mark| mark.address == address)
}

// The number of the place of a name.
fn place_index(places: &[Place], name: &[u8]) -> Option<usize>
    ensures { result ≡ place_index places.now name.now }
{
    places
        .iter()
        .position(|place| place.name.as_slice() == name)
}

// The number of the place of a name, which has one cell.
fn plain_index(places: &[Place], name: &[u8]) -> Option<usize>
    ensures { result ≡ plain_index places.now name.now }
{
    places
        .iter()
        .position(|place| place.name.as_slice() == name && place.len == 1)
}

// Whether a storage is the register of a name.
fn is_register_named(storage: &Storage, name: &[u8]) -> bool
    ensures { result ≡ is_register_named name.now storage.now }
{
    match storage {
        Storage::Register { name: own, .. } => own.as_slice() == name,
        Storage::Memory(_) | Storage::File(_) => false,
    }
}

// The number of the register of a name.
fn register_index(storages: &[Storage], name: &[u8]) -> Option<usize>
    ensures { result ≡ position (is_register_named name.now) storages.now }
{
    storages
        .iter()
        .position(|storage| is_register_named(storage, name))
}

/// The register of a name.
#[tactic(auto, unfolding(crate::specs::Fits::register_spot))]
pub fn register_spot(storages: &[Storage], name: &[u8]) -> Option<Spot>
    ensures { result ≡ register_spot storages.now name.now }
{
    let index = register_index(storages, name)?;
    let width = register_width(storages, name)?;
    Some(Spot {
        space: HolderSpace::Registers,
        index,
        width,
    })
}

// A cell of cells, where there are so many.
fn cell(cells: &Cells, space: HolderSpace, at: u32, count: u32) -> Option<Spot>
    ensures { result ≡ cell cells.now space at count }
{
    if at < count && at < cells.size {
        Some(Spot {
            space,
            index: at as usize,
            width: cells.width,
        })
    } else {
        None
    }
}

// A temporary cell of the memory, or a cell of the file.
fn cell_spot(storages: &[Storage], temps: u32, name: &[u8], at: u32) -> Option<Spot>
    ensures { result ≡ cell_spot storages.now temps name.now at }
{
    let (storage, rest) = storages.split_first()?;
    match storage {
        Storage::Register { .. } => cell_spot(rest, temps, name, at),
        Storage::Memory(cells) => {
            if cells.name.as_slice() == name {
                cell(cells, HolderSpace::Memory, at, temps)
            } else {
                cell_spot(rest, temps, name, at)
            }
        }
        Storage::File(cells) => {
            if cells.name.as_slice() == name {
                cell(cells, HolderSpace::File, at, cells.size)
            } else {
                cell_spot(rest, temps, name, at)
            }
        }
    }
}

// What holds a value.
fn holder_spot(storages: &[Storage], image: &Image, holder: &Holder) -> Option<Spot>
    ensures { result ≡ holder_spot storages.now image.now holder.now }
{
    match holder {
        Holder::Register(name) => register_spot(storages, name.as_slice()),
        Holder::Cell { cells, at } => cell_spot(storages, image.temps, cells.as_slice(), *at),
    }
}

#[tactic(auto, unfolding(crate::specs::Fits::hide_turn))]
fn hide_turn(image: &Image, label: Option<u32>, name: &[u8]) -> Option<Turn>
    ensures { result ≡ hide_turn image.now label name.now }
{
    if !is_hideable(image.marks.as_slice(), label) {
        return None;
    }
    let index = place_index(image.places.as_slice(), name)?;
    Some(match label {
        Some(test) => Turn::HideAtTest {
            test,
            variable: index,
        },
        None => Turn::HideAtEnd { variable: index },
    })
}

#[tactic(auto, unfolding(crate::specs::Fits::view_turn))]
fn view_turn(
    storages: &[Storage],
    image: &Image,
    at: u32,
    name: &[u8],
    value: &Term,
) -> Option<Turn>
    ensures { result ≡ view_turn storages.now image.now at name.now (model_of_term value.now) }
{
    let index = place_index(image.places.as_slice(), name)?;
    part_width(storages, value)?;
    Some(Turn::View {
        address: at,
        variable: index,
    })
}

#[tactic(auto, unfolding(crate::specs::Fits::hold_turn))]
fn hold_turn(
    storages: &[Storage],
    image: &Image,
    word: u8,
    at: u32,
    holder: &Holder,
    value: &Term,
) -> Option<Turn>
    ensures { result ≡ hold_turn storages.now image.now word at holder.now (model_of_term value.now) }
{
    if !is_marked(image.marks.as_slice(), at) {
        return None;
    }
    let spot = holder_spot(storages, image, holder)?;
    let width = tree_width(image.places.as_slice(), word, value)?;
    if width != spot.width {
        return None;
    }
    Some(Turn::Hold {
        address: at,
        space: spot.space,
        index: spot.index,
    })
}

#[tactic(auto, unfolding(crate::specs::Fits::know_turn))]
fn know_turn(image: &Image, word: u8, at: u32, name: &[u8], value: u64) -> Option<Turn>
    requires some { 1 ≤ word }
    requires narrow { word ≤ 64 }
    ensures { result ≡ know_turn image.now word at name.now value }
{
    if !is_marked(image.marks.as_slice(), at) || value > mask(word) {
        return None;
    }
    let index = plain_index(image.places.as_slice(), name)?;
    Some(Turn::Know {
        address: at,
        variable: index,
    })
}

// Where a remark stands, if it fits.
fn turn_of(storages: &[Storage], image: &Image, word: u8, remark: &Remark) -> Option<Turn>
    requires some { 1 ≤ word }
    requires narrow { word ≤ 64 }
    ensures { result ≡ turn_of storages.now image.now word (model_of_remark remark.now) }
{
    match remark {
        Remark::Hide { label, name } => hide_turn(image, *label, name.as_slice()),
        Remark::View {
            address,
            name,
            value,
        } => view_turn(storages, image, *address, name.as_slice(), value),
        Remark::Hold {
            address,
            holder,
            value,
        } => hold_turn(storages, image, word, *address, holder, value),
        Remark::Know {
            address,
            name,
            value,
        } => know_turn(image, word, *address, name.as_slice(), *value),
    }
}

/// Where a remark stands that fits a netlist's storages and an image, and may follow the remark
/// before it; None for any other. A cell has `word` bits.
#[tactic(auto, unfolding(crate::specs::Fits::accepts))]
pub fn accepts(
    storages: &[Storage],
    image: &Image,
    word: u8,
    last: Option<Turn>,
    remark: &Remark,
) -> Option<Turn>
    requires some { 1 ≤ word }
    requires narrow { word ≤ 64 }
    ensures { result ≡ accepts storages.now image.now word last (model_of_remark remark.now) }
{
    let turn = turn_of(storages, image, word, remark)?;
    if may_follow(last, turn) {
        Some(turn)
    } else {
        None
    }
}

//! Whether the variables of a program stand at an image's places.

ghost use Rattle.std.specs.Prelude.{◌≡◌, true, option_copied};
ghost use Rattle.net_model.specs.CheckedRules.{KeepsRules};
ghost use Rattle.net_model.specs.Nets.{addr_width_in};
ghost use Rattle.net_model.specs.declared.hardware.Space.TheVariants.{Memory as InMemory};
ghost use Rattle.src_model.specs.Meaning.{cells_in};
ghost use Rattle.src_model.specs.Written.{model_of_program};
ghost use Rattle.src_trees.specs.Held.{AreAlone, IsAlone, LieWithin, StandFor};
ghost use Rattle.follow.specs.RightByViews.{IsLaidFor};
ghost use Rattle.followed.specs.Inner.Memories.{Stands, storage_addr_bits};

use code_model::{Image, Place};
use net_model::{Checked, Storage};
use src_model::{Typed, Var};

// The cells of a variable.
fn cells_in(var: &Var) -> u64
    ensures { result ≡ cells_in var.now }
{
    var.len.unwrap_or(1)
}

// Whether a place is that of a variable.
fn stands(place: &Place, var: &Var) -> bool
    ensures { result ≡ true → Stands place.now var.now }
{
    place.name.as_slice() == var.name.as_slice() && u64::from(place.len) == cells_in(var)
}

// Whether the places are those of the variables.
fn stand_for(places: &[Place], vars: &[Var]) -> bool
    ensures { result ≡ true → StandFor places.now vars.now }
{
    let Some((place, places)) = places.split_first() else {
        return vars.is_empty();
    };
    let Some((var, vars)) = vars.split_first() else {
        return false;
    };
    if !stands(place, var) {
        return false;
    }
    stand_for(places, vars)
}

// Whether places lie between two addresses.
fn lie_within(first: u32, end: u32, places: &[Place]) -> bool
    ensures { result ≡ true → LieWithin first end places.now }
{
    let Some((place, rest)) = places.split_first() else {
        return true;
    };
    if place.address < first {
        return false;
    }
    if u64::from(place.address) + u64::from(place.len) > u64::from(end) {
        return false;
    }
    lie_within(first, end, rest)
}

// Whether a place has no cell that one of others has.
fn is_alone(place: &Place, places: &[Place]) -> bool
    ensures { result ≡ true → IsAlone place.now places.now }
{
    let Some((other, rest)) = places.split_first() else {
        return true;
    };
    let first = u64::from(place.address);
    let second = u64::from(other.address);
    if first + u64::from(place.len) > second && second + u64::from(other.len) > first {
        return false;
    }
    is_alone(place, rest)
}

// Whether no place has a cell that another has.
fn are_alone(places: &[Place]) -> bool
    ensures { result ≡ true → AreAlone places.now }
{
    let Some((place, rest)) = places.split_first() else {
        return true;
    };
    if !is_alone(place, rest) {
        return false;
    }
    are_alone(rest)
}

// The bits of an address of a memory.
fn addr_bits(storage: Option<&Storage>) -> u8
    ensures { result ≡ storage_addr_bits (option_copied storage.entry) }
{
    match storage {
        Some(Storage::Memory(cells)) => cells.addr_width,
        _ => 0,
    }
}

/// The number of bits of an address of the data memory.
pub fn addr_width(checked: &Checked) -> u8
    ensures width { result ≡ addr_width_in InMemory checked.now.netlist.storages }
    ensures rules { KeepsRules checked.now.netlist checked.now.order }
{
    addr_bits(checked.netlist().storage(checked.memory()))
}

// Whether the variables of a program stand at an image's places.
pub(crate) fn is_laid(checked: &Checked, typed: &Typed, image: &Image) -> bool
    ensures { result ≡ true → IsLaidFor checked.now.netlist typed.now.width (model_of_program typed.now.program) image.now }
{
    let addr = addr_width(checked);
    if addr < 1 {
        return false;
    }
    if addr > typed.width() {
        return false;
    }
    let size = checked.memory_size();
    if image.temps > size {
        return false;
    }
    if !stand_for(image.places.as_slice(), typed.program().vars.as_slice()) {
        return false;
    }
    if !lie_within(image.temps, size, image.places.as_slice()) {
        return false;
    }
    are_alone(image.places.as_slice())
}

// Whether a place is that of a variable, between two addresses, and has no cell of later ones.
fn is_placed(place: &Place, var: &Var, first: u32, end: u32, later: &[Place]) -> bool {
    stands(place, var)
        && place.address >= first
        && u64::from(place.address) + u64::from(place.len) <= u64::from(end)
        && is_alone(place, later)
}

// The first place that isn't so, counted on from a number, or where the shorter list ends.
pub(crate) fn misplaced(places: &[Place], vars: &[Var], first: u32, end: u32, count: u32) -> u32 {
    let Some((place, places)) = places.split_first() else {
        return count;
    };
    let Some((var, vars)) = vars.split_first() else {
        return count;
    };
    if !is_placed(place, var, first, end, places) {
        return count;
    }
    misplaced(places, vars, first, end, count.saturating_add(1))
}

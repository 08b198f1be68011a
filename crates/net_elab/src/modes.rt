//! The mode or the bank of a text.

ghost use Rattle.std.specs.Prelude.{◌≡◌, ◌<◌, ◌^◌, IfOk, length, map, option_to_list};
ghost use Rattle.net_model.specs.Editions.{is_banked, is_moded};
ghost use Rattle.net_model.specs.Elaborated.{files_from, lone_bank, lone_mode, modes_from, own_files, own_modes, special_in};
ghost use Rattle.net_model.specs.Written.{model_of_unit};

use crate::numbers::count_storages;
use net_model::{RegisterKind, Space, Unit, is_banked};
use rec_bits::{Items, NoMemory};
use std::alloc::Global;

// The edition whose netlists have a mode.
const MODED: u8 = 3;

// The most bits of a mode.
const MODE_BITS: u64 = 2;

/// The storage and the width of an item that is a mode, where the item's storage has this number.
fn own_mode(storage: u32, unit: &Unit) -> Option<(u32, u64)>
    ensures { option_to_list result ≡ own_modes storage (model_of_unit unit.now) }
{
    match unit {
        Unit::Register {
            kind: RegisterKind::Mode,
            width,
            ..
        } => Some((storage, *width)),
        _ => None,
    }
}

/// The storages and the widths of all modes.
fn modes(alloc: Global, units: &[Unit]) -> Result<Items<(u32, u64)>, NoMemory>
    requires { length units.now < 2 ^ 32 }
    ensures { IfOk result (λ modes. modes ≡ modes_from 0 (map model_of_unit units.now)) }
{
    let mut modes = Items::new(alloc);
    let mut storage = 0u32;
    for unit in units {
        if let Some(mode) = own_mode(storage, unit) {
            modes.push(mode)?;
        }
        storage += count_storages(unit);
    }
    Ok(modes)
}

/// The storage of the mode, where there is one alone, and it has 2 bits at most.
fn lone_mode(modes: &[(u32, u64)]) -> Option<u32>
    ensures { result ≡ lone_mode modes.now }
{
    match modes {
        [(storage, width)] if *width <= MODE_BITS => Some(*storage),
        _ => None,
    }
}

/// The storage of an item that is a file, where the item's storage has this number.
fn own_file(storage: u32, unit: &Unit) -> Option<u32>
    ensures { option_to_list result ≡ own_files storage (model_of_unit unit.now) }
{
    match unit {
        Unit::Memory {
            space: Space::File,
            ..
        } => Some(storage),
        _ => None,
    }
}

/// The storages of all files, which are banks where the edition has one.
fn files(alloc: Global, units: &[Unit]) -> Result<Items<u32>, NoMemory>
    requires { length units.now < 2 ^ 32 }
    ensures { IfOk result (λ files. files ≡ files_from 0 (map model_of_unit units.now)) }
{
    let mut files = Items::new(alloc);
    let mut storage = 0u32;
    for unit in units {
        if let Some(file) = own_file(storage, unit) {
            files.push(file)?;
        }
        storage += count_storages(unit);
    }
    Ok(files)
}

/// The storage of the bank, where there is one alone.
fn lone_bank(files: &[u32]) -> Option<u32>
    ensures { result ≡ lone_bank files.now }
{
    match files {
        [storage] => Some(*storage),
        _ => None,
    }
}

/// The storage of the mode, or of the bank, of a text of an edition: one edition has a mode, and
/// one a bank.
pub fn special_in(alloc: Global, edition: u8, units: &[Unit]) -> Result<Option<u32>, NoMemory>
    requires { length units.now < 2 ^ 32 }
    ensures { IfOk result (λ special. special ≡ special_in edition (map model_of_unit units.now)) }
{
    if edition == MODED {
        let modes = modes(alloc, units)?;
        return Ok(lone_mode(modes.as_slice()));
    }
    if is_banked(edition) {
        let files = files(alloc, units)?;
        return Ok(lone_bank(files.as_slice()));
    }
    Ok(None)
}

//! N11: too much of something.

ghost use Rattle.std.specs.Prelude.{◌≡◌, IfOk, map};
ghost use Rattle.net_model.specs.LimitRules.{cells_of, count_register, count_registers, data_size, file_size, greatest, limit_fault, most_nets, over, words_of_unit};
ghost use Rattle.rec_bits.specs.Counts.{capped};
ghost use Rattle.net_model.specs.Written.{model_of_unit};

use crate::count::count_items;
use crate::text::Text;
use net_model::{NetFault, NetKind, Space, Unit, is_banked};
use rec_bits::NoMemory;
use std::alloc::Global;

const NETS: u64 = 4096;

// Where there is a bank, so few that the netlist with one memory in place of two has no more.
const NETS_BESIDE_BANK: u64 = 1000;

const REGISTERS: u64 = 13;

const FILE: u64 = 32;

const CELLS: u64 = 65536;

const WORDS: u64 = 65536;

// A count above its bound.
fn over(kind: NetKind, bound: u64, count: u64) -> Option<NetFault>
    ensures { result ≡ over kind bound count }
{
    if count <= bound {
        None
    } else {
        Some(NetFault::Limit { kind, count, bound })
    }
}

fn count_register(unit: &Unit) -> u64
    ensures { result ≡ count_register (model_of_unit unit.now) }
{
    match unit {
        Unit::Register { .. } => 1,
        _ => 0,
    }
}

fn count_registers(units: &[Unit]) -> u64
    ensures { result ≡ capped (count_registers (map model_of_unit units.now)) }
{
    let mut total: u64 = 0;
    for unit in units {
        total = total.saturating_add(count_register(unit));
    }
    total
}

fn cells_of(space: Space, unit: &Unit) -> u64
    ensures { result ≡ cells_of space (model_of_unit unit.now) }
{
    match unit {
        Unit::Memory {
            space: own,
            size,
            ..
        } if *own == space => *size,
        _ => 0,
    }
}

fn greatest_cells(space: Space, units: &[Unit]) -> u64
    ensures { result ≡ greatest (cells_of space) (map model_of_unit units.now) }
{
    let mut size = 0;
    for unit in units {
        size = cells_of(space, unit).max(size);
    }
    size
}

fn words_of_unit(unit: &Unit) -> u64
    ensures { result ≡ words_of_unit (model_of_unit unit.now) }
{
    match unit {
        Unit::Code { size, .. } => *size,
        _ => 0,
    }
}

fn greatest_code(units: &[Unit]) -> u64
    ensures { result ≡ greatest words_of_unit (map model_of_unit units.now) }
{
    let mut size = 0;
    for unit in units {
        size = words_of_unit(unit).max(size);
    }
    size
}

// How many nets there may be in an edition.
fn most_nets(edition: u8) -> u64
    ensures { result ≡ most_nets edition }
{
    if is_banked(edition) {
        NETS_BESIDE_BANK
    } else {
        NETS
    }
}

// The greatest size of a register file: a bank is none.
fn file_size(edition: u8, units: &[Unit]) -> u64
    ensures { result ≡ file_size edition (map model_of_unit units.now) }
{
    if is_banked(edition) {
        0
    } else {
        greatest_cells(Space::File, units)
    }
}

// The greatest size of a memory or a bank.
fn data_size(edition: u8, units: &[Unit]) -> u64
    ensures { result ≡ data_size edition (map model_of_unit units.now) }
{
    let size = greatest_cells(Space::Memory, units);
    if is_banked(edition) {
        greatest_cells(Space::File, units).max(size)
    } else {
        size
    }
}

/// The first limit that is passed by the items of a text of an edition.
pub(crate) fn first_limit(
    alloc: Global,
    text: &Text,
    edition: u8,
    units: &[Unit],
) -> Result<Option<NetFault>, NoMemory>
    requires { text.now ≡ units.now }
    ensures { IfOk result (λ fault. fault ≡ limit_fault edition (map model_of_unit units.now)) }
{
    let nets = count_items(alloc, text, units)?;
    if let Some(fault) = over(NetKind::Nets, most_nets(edition), nets) {
        return Ok(Some(fault));
    }
    if let Some(fault) = over(NetKind::Registers, REGISTERS, count_registers(units)) {
        return Ok(Some(fault));
    }
    if let Some(fault) = over(NetKind::File, FILE, file_size(edition, units)) {
        return Ok(Some(fault));
    }
    if let Some(fault) = over(NetKind::Cells, CELLS, data_size(edition, units)) {
        return Ok(Some(fault));
    }
    Ok(over(NetKind::Words, WORDS, greatest_code(units)))
}

// A clock edge, from what is seen of all nets: what the storages become.

ghost use Rattle.std.specs.Prelude.{◌≡◌, ◌<◌, ◌^◌, length, slice_index, slice_set};
ghost use Rattle.net_model.specs.Nets.{storage_array};
ghost use Rattle.net_model.specs.Clock.{is_enabled, next_cells, next_reg, next_regs, written};

use cycle_sim::value_at;
use net_model::{Space, Storage};
use rec_bits::Items;

fn enables(values: &[u64], when: Option<u32>) -> bool
    ensures { result ≡ is_enabled (slice_index values.now) when }
{
    match when {
        Some(id) => value_at(values, id) == 1,
        None => true,
    }
}

// What a storage's entry becomes.
fn next_value(values: &[u64], storage: &Storage, old: u64) -> u64
    ensures { result ≡ next_reg (slice_index values.now) storage.now old }
{
    match storage {
        Storage::Register { input, when, .. } if enables(values, *when) => value_at(values, *input),
        _ => old,
    }
}

/// Clocks all registers.
pub(crate) fn clock_registers(values: &[u64], storages: &[Storage], regs: &mut Items<u64>)
    requires { length regs.old ≡ length storages.now }
    ensures { regs.new ≡ next_regs (slice_index values.now) storages.now regs.old }
{
    for (i, storage) in storages.iter().enumerate() {
        let old = regs.as_slice()[i];
        regs.set(i, next_value(values, storage, old));
    }
}

// Puts a number into a cell, where there is one.
fn put(cells: &mut Items<u64>, address: u64, value: u64)
    requires { length cells.old < 2 ^ 64 }
    ensures { cells.new ≡ slice_set cells.old address value }
{
    let at = address as usize;
    if at < cells.len() {
        cells.set(at, value);
    }
}

// Clocks the cells of a storage, if it has any.
fn write(values: &[u64], storage: &Storage, cells: &mut Items<u64>)
    requires { length cells.old < 2 ^ 64 }
    ensures { cells.new ≡ written (slice_index values.now) (storage_array storage.now) cells.old }
{
    match storage {
        Storage::Register { .. } => {}
        Storage::Memory(array) | Storage::File(array) => {
            if enables(values, array.when) {
                put(
                    cells,
                    value_at(values, array.addr),
                    value_at(values, array.value),
                );
            }
        }
    }
}

/// Clocks the cells of the data memory, or of the register file.
pub(crate) fn clock_cells(
    values: &[u64],
    space: Space,
    storages: &[Storage],
    cells: &mut Items<u64>,
)
    requires { length cells.old < 2 ^ 64 }
    ensures { cells.new ≡ next_cells (slice_index values.now) space storages.now cells.old }
{
    for storage in storages {
        if storage.is_in(space) {
            write(values, storage, cells);
            return;
        }
    }
}

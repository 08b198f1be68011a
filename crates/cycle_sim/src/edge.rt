// A clock edge, from the values of all nets: whether a bus clashes, and what the storages become.

ghost use Rattle.std.specs.Prelude.{◌≡◌, ◌<◌, ◌^◌, IfSome, length, slice_index};
ghost use Rattle.net_model.specs.Nets.{array_in, storage_array};
ghost use Rattle.net_model.specs.Clock.{clash_in, enabled_count, gate_clashes, is_enabled};
ghost use Rattle.cycle_sim.specs.Inner.Ports.{cell_by, cells_by, port_of};
ghost use Rattle.cycle_sim.specs.Inner.Programs.{clash_by, latched, regs_by};

use crate::values::value_at;
use net_model::{Gate, Net, Space, Storage};
use rec_bits::Items;

// How many drivers of a bus may be enabled.
const ENABLED_AT_MOST: usize = 1;

// How a clock writes the data memory, or the register file: the width of its cells and the nets of
// the value, of the address and of the enable.
#[derive(Clone, Copy)]
pub(crate) struct Port {
    pub width: u8,
    pub value: u32,
    pub addr: u32,
    pub when: Option<u32>,
}

// How a clock gives a storage's entry its next value.
#[derive(Clone, Copy)]
pub(crate) enum Latch {
    /// From the place `input`, where the place `when` holds 1 or there is none.
    Input { input: u32, when: Option<u32> },
    /// It stays.
    Held,
}

// A bus: the number of its net, and pairs of a driver's place and its enable's.
#[derive(Drop)]
pub(crate) struct BusDrivers {
    pub net: u32,
    pub drivers: Items<(u32, u32)>,
}

// How the cells of a space are written.
pub(crate) fn find_port(space: Space, storages: &[Storage]) -> Option<Port>
    ensures { result ≡ port_of (array_in space storages.now) }
{
    for storage in storages {
        if storage.is_in(space) {
            return port_to(storage);
        }
    }
    None
}

// How the cells of a storage are written.
fn port_to(storage: &Storage) -> Option<Port>
    ensures { result ≡ port_of (storage_array storage.now) }
{
    match storage {
        Storage::Register { .. } => None,
        Storage::Memory(cells) | Storage::File(cells) => Some(Port {
            width: cells.width,
            value: cells.value,
            addr: cells.addr,
            when: cells.when,
        }),
    }
}

/// The first bus that clashes, by the values of all nets: more than one of its drivers is enabled.
pub fn find_clash(values: &[u64], nets: &[Net]) -> Option<usize>
    ensures within { IfSome result (λ bus. bus < length nets.now) }
    ensures first { result ≡ clash_in (slice_index values.now) nets.now }
{
    nets.iter().position(|net| clashes(values, &net.gate))
}

// The first of the buses that clashes, by the numbers at their places.
pub(crate) fn first_clash(values: &[u64], buses: &[BusDrivers]) -> Option<u32>
    ensures { result ≡ clash_by (slice_index values.now) buses.now }
{
    for bus in buses {
        if count_enabled(values, bus.drivers.as_slice()) > ENABLED_AT_MOST {
            return Some(bus.net);
        }
    }
    None
}

fn clashes(values: &[u64], gate: &Gate) -> bool
    ensures { result ≡ gate_clashes (slice_index values.now) gate.now }
{
    match gate {
        Gate::Bus(drivers) => count_enabled(values, drivers.as_slice()) > ENABLED_AT_MOST,
        _ => false,
    }
}

fn count_enabled(values: &[u64], drivers: &[(u32, u32)]) -> usize
    ensures { result ≡ enabled_count (slice_index values.now) drivers.now }
{
    let mut count = 0;
    for driver in drivers {
        if value_at(values, driver.1) == 1 {
            count += 1;
        }
    }
    count
}

fn enables(values: &[u64], when: Option<u32>) -> bool
    ensures { result ≡ is_enabled (slice_index values.now) when }
{
    match when {
        Some(id) => value_at(values, id) == 1,
        None => true,
    }
}

// What a storage's entry becomes.
fn next_value(values: &[u64], storage: &Latch, old: u64) -> u64
    ensures { result ≡ latched (slice_index values.now) storage.now old }
{
    match storage {
        Latch::Input { input, when } => {
            if enables(values, *when) {
                value_at(values, *input)
            } else {
                old
            }
        }
        Latch::Held => old,
    }
}

// Clocks all registers.
pub(crate) fn clock_registers(values: &[u64], storages: &[Latch], regs: &mut Items<u64>)
    requires { length regs.old ≡ length storages.now }
    ensures { regs.new ≡ regs_by (slice_index values.now) storages.now regs.old }
{
    for (i, storage) in storages.iter().enumerate() {
        let old = regs.as_slice()[i];
        regs.set(i, next_value(values, storage, old));
    }
}

// Clocks the cells of a space, and tells the one that is written.
pub(crate) fn clock_cells(values: &[u64], port: Option<Port>, cells: &mut Items<u64>) -> Option<u32>
    requires { length cells.old < 2 ^ 32 }
    ensures cells { cells.new ≡ cells_by (slice_index values.now) port cells.old }
    ensures written { result ≡ cell_by (slice_index values.now) port (length cells.old) }
{
    let port = port?;
    let address = value_at(values, port.addr);
    if enables(values, port.when) && address < cells.len() as u64 {
        cells.set(address as usize, value_at(values, port.value));
        Some(address as u32)
    } else {
        None
    }
}

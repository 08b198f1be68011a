//! The two data memories of a netlist that has a bank.

ghost use Rattle.std.specs.Prelude.{◌≡◌, ◌<◌, ◌^◌, None, length};
ghost use Rattle.net_model.specs.Nets.{array_in, memory_id, place_in, storage_array};
ghost use Rattle.bank_view.specs.Banks.{bank_place, bank_port, memory_port, others, port_of};
ghost use Rattle.bank_view.specs.Views.{less_one};

use net_model::{Netlist, Space, Storage};

/// What feeds cells: the numbers of nets, with the offset of the item's name and the measures;
/// without a `when` they are written at each clock.
#[derive(Clone, Copy)]
pub(crate) struct Port {
    pub name_at: u64,
    pub size: u32,
    pub width: u8,
    pub addr_width: u8,
    pub value: u32,
    pub addr: u32,
    pub when: Option<u32>,
}

// Zeros, where there are no cells.
fn no_port() -> Port
    ensures { result ≡ port_of None }
{
    Port {
        name_at: 0,
        size: 0,
        width: 0,
        addr_width: 0,
        value: 0,
        addr: 0,
        when: None,
    }
}

// What feeds the cells of a storage.
fn port_of(storage: &Storage) -> Port
    ensures { result ≡ port_of (storage_array storage.now) }
{
    match storage {
        Storage::Register { .. } => no_port(),
        Storage::Memory(cells) | Storage::File(cells) => Port {
            name_at: cells.name_at,
            size: cells.size,
            width: cells.width,
            addr_width: cells.addr_width,
            value: cells.value,
            addr: cells.addr,
            when: cells.when,
        },
    }
}

// What feeds the first cells of a space.
fn port_in(space: Space, storages: &[Storage]) -> Port
    ensures { result ≡ port_of (array_in space storages.now) }
{
    for storage in storages {
        if storage.is_in(space) {
            return port_of(storage);
        }
    }
    no_port()
}

/// What feeds the bank.
pub(crate) fn bank_port(netlist: &Netlist) -> Port
    ensures { result ≡ bank_port netlist.now }
{
    port_in(Space::File, netlist.storages.as_slice())
}

/// What feeds the memory.
pub(crate) fn memory_port(netlist: &Netlist) -> Port
    ensures { result ≡ memory_port netlist.now }
{
    port_in(Space::Memory, netlist.storages.as_slice())
}

// The number of the first storage with cells of a space, and the length where there is none.
fn place_in(space: Space, storages: &[Storage]) -> u32
    requires { length storages.now < 2 ^ 32 }
    ensures { result ≡ place_in space storages.now }
{
    let mut place = 0;
    for storage in storages {
        if storage.is_in(space) {
            return place;
        }
        place += 1;
    }
    place
}

/// The number of the bank's storage.
pub(crate) fn bank_place(netlist: &Netlist) -> u32
    requires { length netlist.now.storages < 2 ^ 32 }
    ensures { result ≡ bank_place netlist.now }
{
    place_in(Space::File, netlist.storages.as_slice())
}

/// The number in the view of a storage other than the bank.
pub(crate) fn storage_number(bank: u32, storage: u32) -> u32
    ensures { result ≡ less_one bank storage }
{
    if storage > bank { storage - 1 } else { storage }
}

/// The number of the memory's storage among those but the bank.
pub(crate) fn memory_place(netlist: &Netlist) -> u32
    requires { length netlist.now.storages < 2 ^ 32 }
    ensures { result ≡ memory_id (others netlist.now) }
{
    let memory = place_in(Space::Memory, netlist.storages.as_slice());
    storage_number(bank_place(netlist), memory)
}

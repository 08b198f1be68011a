//! A netlist that was checked.

ghost use Rattle.std.specs.Prelude.{◌≡◌, ◌<◌, ◌^◌, IfOk, length, option_copied};
ghost use Rattle.net_model.specs.Nets.{counter_of, memory_id, memory_size, memory_width, place_in, size_in, storage_bits, storage_cells, width_in};
ghost use Rattle.net_model.specs.CheckedRules.{KeepsRules};
ghost use Rattle.rec_bits.specs.Operators.{IsWidth};
ghost use Rattle.net_model.specs.Control.{IsSound};
ghost use Rattle.net_model.specs.Flags.{flag_at};
ghost use Rattle.net_model.specs.Symbolic.{is_static};
ghost use Rattle.net_model.specs.Texts.{memory_name, space_name};

use crate::{Netlist, Property, Space, Storage, flags_of};
use rec_bits::{Items, NoMemory};
use std::alloc::Global;
use std::marker::Model;

/// A netlist that keeps the rules N1 to N9, N11 and N14, and an order of its nets in which each
/// stands after those that it depends on.
#[derive(Drop)]
pub struct Checked {
    netlist: Netlist,
    order: Items<u32>,
}

impl Model for Checked {
    ghost use Rattle.net_model.specs.CheckedRules.{KeepsRules, Ordered};

    ghost Value = { Ordered };

    ghost view = { λ checked. record { netlist = checked.netlist; order = checked.order } };

    ghost invariant = { λ checked. KeepsRules checked.netlist checked.order };
}

impl Checked {
    /// A netlist that keeps the rules, with an order of its nets.
    pub fn new(netlist: Netlist, order: Items<u32>) -> Checked
        requires { KeepsRules netlist order }
        ensures netlist { result.netlist ≡ netlist }
        ensures order { result.order ≡ order }
    {
        Checked { netlist, order }
    }

    /// The netlist.
    pub fn netlist(&self) -> &Netlist
        ensures value { result.now ≡ self.now.netlist }
        ensures kept { KeepsRules self.now.netlist self.now.order }
        ensures sound { IsSound self.now.netlist }
    {
        &self.netlist
    }

    /// The order of the nets.
    pub fn order(&self) -> &Items<u32>
        ensures value { result.now ≡ self.now.order }
        ensures kept { KeepsRules self.now.netlist self.now.order }
    {
        &self.order
    }

    /// For each net whether it is static: that neither it nor what it depends on reads a register,
    /// the memory or the file.
    pub fn static_flags(&self, alloc: Global) -> Result<Items<bool>, NoMemory>
        ensures long { IfOk result (λ flags. length flags ≡ length self.now.netlist.nets) }
        ensures flags { IfOk result (λ flags. flag_at flags ≡ is_static self.now.netlist) }
    {
        let order = self.order.as_slice();
        flags_of(alloc, Property::Static, &self.netlist, order)
    }

    /// The number of the program counter's storage.
    pub fn pc(&self) -> u32
        ensures { result ≡ counter_of self.now.netlist.codes }
    {
        match self.netlist.codes.get(0) {
            Some(code) => code.counter,
            None => 0,
        }
    }

    /// The number of the storage that has the cells of a space, and that of storages where none
    /// has.
    pub fn place(&self, space: Space) -> u32
        ensures { result ≡ place_in space self.now.netlist.storages }
    {
        first_place(space, self.netlist.storages.as_slice())
    }

    /// The number of cells of a space, and 0 where it isn't there.
    pub fn size(&self, space: Space) -> u32
        ensures { result ≡ size_in space self.now.netlist.storages }
    {
        size_of(self.netlist.storage(self.place(space)))
    }

    /// The number of bits of a cell of a space, and 0 where it isn't there.
    pub fn width(&self, space: Space) -> u8
        ensures { result ≡ width_in space self.now.netlist.storages }
    {
        bits_of(self.netlist.storage(self.place(space)))
    }

    /// The name of a space's storage, and none where it isn't there.
    pub fn name(&self, space: Space) -> &[u8]
        ensures { result.now ≡ space_name self.now.netlist space }
    {
        match self.netlist.storage(self.place(space)) {
            Some(storage) => storage.name(),
            None => &[],
        }
    }

    /// The number of the data memory's storage.
    pub fn memory(&self) -> u32
        ensures { result ≡ memory_id self.now.netlist.storages }
    {
        self.place(Space::Memory)
    }

    /// The number of cells of the data memory.
    pub fn memory_size(&self) -> u32
        ensures { result ≡ memory_size self.now.netlist.storages }
    {
        self.size(Space::Memory)
    }

    /// The number of bits of a cell of the data memory, 1 to 64.
    pub fn memory_width(&self) -> u8
        ensures width { result ≡ memory_width self.now.netlist.storages }
        ensures within { IsWidth result }
    {
        bits_of(self.netlist.storage(self.memory()))
    }

    /// The data memory's name.
    pub fn memory_name(&self) -> &[u8]
        ensures { result.now ≡ memory_name self.now.netlist }
    {
        self.name(Space::Memory)
    }
}

// The place of the first storage with cells of a space, and the length where there is none.
fn first_place(space: Space, storages: &[Storage]) -> u32
    requires { length storages.now < 2 ^ 32 }
    ensures { result ≡ place_in space storages.now }
{
    let mut place = 0;
    for storage in storages {
        if storage.is_in(space) {
            return place;
        }
        place += 1;
    }
    place
}

// The number of a storage's cells.
fn size_of(storage: Option<&Storage>) -> u32
    ensures { result ≡ storage_cells (option_copied storage.entry) }
{
    match storage {
        Some(Storage::Memory(cells) | Storage::File(cells)) => cells.size,
        _ => 0,
    }
}

// The width of a register, or of a storage's cells.
fn bits_of(storage: Option<&Storage>) -> u8
    ensures { result ≡ storage_bits (option_copied storage.entry) }
{
    match storage {
        Some(Storage::Register { width, .. }) => *width,
        Some(Storage::Memory(cells) | Storage::File(cells)) => cells.width,
        None => 0,
    }
}

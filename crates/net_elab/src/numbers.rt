//! The numbers of nets, storages and wires.

ghost use Rattle.std.specs.Prelude.{◌≡◌, ◌+◌, ◌<◌, ◌^◌, ◌++◌, ◌∷◌, [], IfOk, OnOk, if◌then◌else◌, length, map, slice_get, slice_index};
ghost use Rattle.net_model.specs.Numbering.{count_input, count_inputs, count_item, count_output, count_outputs, count_storages, item_wires, last_nets, list_or_none, port_wires, storage_numbers, wires_from};
ghost use Rattle.net_model.specs.Written.{binding_of, model_of_unit};
ghost use Rattle.net_elab.specs.Inner.Found.{IsNumbered};

use crate::count::{count_input, count_inputs, count_output};
use crate::declared::Declared;
use net_model::{Ident, NetExpr, Port, Unit};
use rec_bits::{Items, NoMemory};
use std::alloc::Global;

/// The number at a place, and 0 past the end.
pub fn number_at(numbers: &[u32], place: usize) -> u32
    ensures { result ≡ slice_index numbers.now place }
{
    numbers.get(place).copied().unwrap_or(0)
}

/// The list at a place, which is empty past the end.
pub fn list_at(lists: &[Items<u32>], place: usize) -> &[u32]
    ensures { result.now ≡ list_or_none (slice_get lists.now place) }
{
    match lists.get(place) {
        Some(list) => list.as_slice(),
        None => &[],
    }
}

/// The wire of a port, which is one or the other by the port's direction.
fn port_wire(port: &Port, input: u32, output: u32) -> u32
    ensures { result ≡ (if port.now.output then output else input) }
{
    if port.output { output } else { input }
}

/// The wires of a part's ports, where the nets of its inputs and the wires of its outputs begin at
/// these numbers.
pub fn port_wires(
    alloc: Global,
    start: u32,
    wire: u32,
    links: &[(Ident, NetExpr)],
    ports: &[Port],
) -> Result<Items<u32>, NoMemory>
    requires inputs { start + count_inputs (map binding_of links.now) ports.now < 2 ^ 32 }
    requires outputs { wire + count_outputs ports.now < 2 ^ 32 }
    ensures { IfOk result (λ wires. wires ≡ port_wires start wire (map binding_of links.now) ports.now) }
{
    let mut wires = Items::new(alloc);
    let mut input = start;
    let mut output = wire;
    for port in ports {
        let next = input + count_input(links, port);
        wires.push(port_wire(port, next.saturating_sub(1), output))?;
        input = next;
        output += count_output(port);
    }
    Ok(wires)
}

/// The wires of an item's ports, if it is a part.
fn item_wires(
    alloc: Global,
    declared: &Declared,
    start: u32,
    unit: &Unit,
) -> Result<Items<u32>, NoMemory>
    requires { start + count_item (map model_of_unit declared.now) (model_of_unit unit.now) < 2 ^ 32 }
    ensures { IfOk result (λ wires. wires ≡ item_wires (map model_of_unit declared.now) start (model_of_unit unit.now)) }
{
    match unit {
        Unit::Part { module, links, .. } => {
            let ports = declared.ports(&module.name);
            let links = links.as_slice();
            let wire = start + count_inputs(links, ports);
            port_wires(alloc, start, wire, links, ports)
        }
        _ => Ok(Items::new(alloc)),
    }
}

/// How many storages an item gives.
pub fn count_storages(unit: &Unit) -> u32
    ensures { result ≡ count_storages (model_of_unit unit.now) }
{
    match unit {
        Unit::Register { .. } | Unit::Memory { .. } => 1,
        _ => 0,
    }
}

/// The last net of each item, the number of its storage, and the wires of its ports.
#[derive(Drop)]
pub struct Numbers {
    pub nets: Items<u32>,
    pub storages: Items<u32>,
    pub wires: Items<Items<u32>>,
}

impl Numbers {
    /// The numbers of no item.
    fn new(alloc: Global) -> Numbers
        ensures nets { result.nets ≡ [] }
        ensures storages { result.storages ≡ [] }
        ensures wires { result.wires ≡ [] }
    {
        Numbers {
            nets: Items::new(alloc),
            storages: Items::new(alloc),
            wires: Items::new(alloc),
        }
    }

    /// Adds those of one more item.
    fn push(&mut self, net: u32, storage: u32, wires: Items<u32>) -> Result<(), NoMemory>
        ensures nets { OnOk result (self.new.nets ≡ self.old.nets ++ net ∷ []) }
        ensures storages { OnOk result (self.new.storages ≡ self.old.storages ++ storage ∷ []) }
        ensures wires { OnOk result (self.new.wires ≡ self.old.wires ++ wires ∷ []) }
    {
        self.nets.push(net)?;
        self.storages.push(storage)?;
        self.wires.push(wires)
    }
}

/// The numbers of a text.
pub fn numbered(alloc: Global, declared: &Declared) -> Result<Numbers, NoMemory>
    ensures { IfOk result (λ made. IsNumbered (map model_of_unit declared.now) made.nets made.storages made.wires) }
{
    let mut made = Numbers::new(alloc);
    let mut start = 0u32;
    let mut storage = 0u32;
    for unit in declared.units() {
        let next = start + declared.count_item(unit);
        let wires = item_wires(alloc, declared, start, unit)?;
        made.push(next.saturating_sub(1), storage, wires)?;
        start = next;
        storage += count_storages(unit);
    }
    Ok(made)
}

//! The nets, storages and codes of items.

ghost use Rattle.std.specs.Prelude.{◌≡◌, ◌+◌, ◌<◌, ◌^◌, IfOk, OnOk, length, map, option_copied, option_map, ℕ, false, true};
ghost use Rattle.net_model.specs.Elaborated.{storage_in};
ghost use Rattle.net_model.specs.Elaborable.{ItemKeeps};
ghost use Rattle.net_model.specs.Numbering.{count_drivers, scope_at};
ghost use Rattle.net_model.specs.Written.{binding_of, bus, code, driver_of, model_of_unit, memory, net, part, model_of_net_expr, register, when_of};
ghost use Rattle.net_elab.specs.Inner.Emissions.{AllDriversWide, EmittedDrivers, HasRoom, ItemDone};
ghost use Rattle.net_elab.specs.Inner.Sites.{model_of_site};

use crate::expression::{emit, emit_if, push_net};
use crate::part::{ModuleBody, emit_part};
use crate::site::{Site, Text};
use net_model::{
    Cells, Code, Gate, Ident, Net, NetExpr, Netlist, RegisterKind, Space, Storage, Unit,
};
use rec_bits::{Items, Name, NoMemory};
use std::alloc::Global;

/// A name of the netlist's own.
fn copy_of(alloc: Global, name: &Ident) -> Result<Name, NoMemory>
    ensures { IfOk result (λ copy. copy ≡ name.now.name) }
{
    Name::from_slice(alloc, name.name.as_slice())
}

/// How wide the words of an instruction memory are, and how many there are.
#[derive(Clone, Copy)]
struct CodeMeasures {
    bits: u64,
    size: u64,
}

/// An instruction memory, and the net of its word.
fn emit_code(
    alloc: Global,
    text: &Text,
    netlist: &mut Netlist,
    name: &Ident,
    shape: CodeMeasures,
    counter: &Ident,
) -> Result<(), NoMemory>
    requires keeps { ItemKeeps (map model_of_unit text.now) (code name.now shape.bits shape.size counter.now) }
    requires room { HasRoom (map model_of_unit text.now) (code name.now shape.bits shape.size counter.now) netlist.old }
    ensures { OnOk result (ItemDone (map model_of_unit text.now) (code name.now shape.bits shape.size counter.now)
        netlist.old netlist.new) }
{
    let gate = Gate::Word(netlist.codes.len() as u32);
    push_net(&mut netlist.nets, name.at, shape.bits as u8, gate)?;
    netlist.codes.push(Code {
        name: copy_of(alloc, name)?,
        bits: shape.bits as u8,
        words: shape.size as u32,
        counter: text.storage(&counter.name),
    })
}

/// Which register it is, how wide, what it takes and when.
#[derive(Clone, Copy)]
struct Latch<'a> {
    kind: RegisterKind,
    width: u64,
    input: &'a NetExpr,
    when: &'a Option<NetExpr>,
}

/// A register, or the mode, with its nets.
fn emit_register(
    alloc: Global,
    text: &Text,
    netlist: &mut Netlist,
    name: &Ident,
    latch: &Latch,
) -> Result<(), NoMemory>
    requires keeps { ItemKeeps (map model_of_unit text.now)
        (register latch.now.kind name.now latch.now.width (model_of_net_expr latch.now.input.now)
        (when_of latch.now.when.now)) }
    requires room { HasRoom (map model_of_unit text.now)
        (register latch.now.kind name.now latch.now.width (model_of_net_expr latch.now.input.now)
        (when_of latch.now.when.now)) netlist.old }
    ensures { OnOk result (ItemDone (map model_of_unit text.now)
        (register latch.now.kind name.now latch.now.width (model_of_net_expr latch.now.input.now)
        (when_of latch.now.when.now)) netlist.old netlist.new) }
{
    let site = Site::Top(text);
    let input = emit(alloc, &site, &mut netlist.nets, name.at, latch.input)?;
    let when = emit_if(
        alloc,
        &site,
        &mut netlist.nets,
        name.at,
        latch.when.as_ref(),
    )?;
    let gate = Gate::Reg(netlist.storages.len() as u32);
    push_net(&mut netlist.nets, name.at, latch.width as u8, gate)?;
    netlist.storages.push(Storage::Register {
        name: copy_of(alloc, name)?,
        width: latch.width as u8,
        input: input.net,
        when,
    })
}

/// Whether it is a memory or a file, how wide its cells are, how many there are, and how wide its
/// addresses.
#[derive(Clone, Copy)]
struct MemoryMeasures {
    space: Space,
    width: u64,
    size: u64,
    addr_width: u64,
}

/// What is written to a memory or a file, and where and when.
#[derive(Drop)]
struct Write<'a> {
    value: &'a NetExpr,
    addr: &'a NetExpr,
    when: &'a Option<NetExpr>,
}

/// The storage of a space with these cells.
fn storage_in(space: Space, cells: Cells) -> Storage
    ensures { result ≡ storage_in space cells }
{
    match space {
        Space::Memory => Storage::Memory(cells),
        Space::File => Storage::File(cells),
    }
}

/// A memory or a file with its nets.
fn emit_memory(
    alloc: Global,
    text: &Text,
    netlist: &mut Netlist,
    name: &Ident,
    shape: MemoryMeasures,
    write: &Write,
) -> Result<(), NoMemory>
    requires keeps { ItemKeeps (map model_of_unit text.now) (memory shape.space name.now shape.width shape.size
        shape.addr_width (model_of_net_expr write.now.value.now) (model_of_net_expr write.now.addr.now)
        (when_of write.now.when.now)) }
    requires room { HasRoom (map model_of_unit text.now)
        (memory shape.space name.now shape.width shape.size shape.addr_width (model_of_net_expr write.now.value.now)
        (model_of_net_expr write.now.addr.now) (when_of write.now.when.now)) netlist.old }
    ensures { OnOk result (ItemDone (map model_of_unit text.now)
        (memory shape.space name.now shape.width shape.size shape.addr_width (model_of_net_expr write.now.value.now)
        (model_of_net_expr write.now.addr.now) (when_of write.now.when.now)) netlist.old netlist.new) }
{
    let site = Site::Top(text);
    let nets = &mut netlist.nets;
    let value = emit(alloc, &site, nets, name.at, write.value)?;
    let addr = emit(alloc, &site, nets, name.at, write.addr)?;
    let when = emit_if(alloc, &site, nets, name.at, write.when.as_ref())?;
    let cells = Cells {
        name: copy_of(alloc, name)?,
        name_at: name.at,
        width: shape.width as u8,
        size: shape.size as u32,
        addr_width: shape.addr_width as u8,
        value: value.net,
        addr: addr.net,
        when,
    };
    netlist.storages.push(storage_in(shape.space, cells))
}

/// A named net with those of its expression.
fn emit_net(
    alloc: Global,
    text: &Text,
    netlist: &mut Netlist,
    name: &Ident,
    width: u64,
    value: &NetExpr,
) -> Result<(), NoMemory>
    requires keeps { ItemKeeps (map model_of_unit text.now) (net name.now width (model_of_net_expr value.now)) }
    requires room { HasRoom (map model_of_unit text.now) (net name.now width (model_of_net_expr value.now)) netlist.old }
    ensures { OnOk result (ItemDone (map model_of_unit text.now)
        (net name.now width (model_of_net_expr value.now)) netlist.old netlist.new) }
{
    let nets = &mut netlist.nets;
    let value = emit(alloc, &Site::Top(text), nets, name.at, value)?;
    push_net(nets, name.at, width as u8, Gate::Wire(value.net))?;
    Ok(())
}

/// The nets of drivers, and the drivers by their nets.
fn emit_drivers(
    alloc: Global,
    site: &Site,
    nets: &mut Items<Net>,
    at: u64,
    drivers: &[(NetExpr, NetExpr)],
) -> Result<Items<(u32, u32)>, NoMemory>
    requires widths { AllDriversWide (scope_at (model_of_site site.now)) (map driver_of drivers.now) }
    requires room { length nets.old + count_drivers (map driver_of drivers.now) < 2 ^ 32 }
    ensures { IfOk result (EmittedDrivers (model_of_site site.now) at (map driver_of drivers.now) nets.old nets.new) }
{
    let mut pairs = Items::new(alloc);
    for driver in drivers {
        let value = emit(alloc, site, nets, at, &driver.0)?;
        let enable = emit(alloc, site, nets, at, &driver.1)?;
        pairs.push((value.net, enable.net))?;
    }
    Ok(pairs)
}

/// A bus with the nets of its drivers.
fn emit_bus(
    alloc: Global,
    text: &Text,
    netlist: &mut Netlist,
    name: &Ident,
    width: u64,
    drivers: &[(NetExpr, NetExpr)],
) -> Result<(), NoMemory>
    requires keeps { ItemKeeps (map model_of_unit text.now) (bus name.now width (map driver_of drivers.now)) }
    requires room { HasRoom (map model_of_unit text.now) (bus name.now width (map driver_of drivers.now)) netlist.old }
    ensures { OnOk result (ItemDone (map model_of_unit text.now)
        (bus name.now width (map driver_of drivers.now)) netlist.old netlist.new) }
{
    let site = Site::Top(text);
    let pairs = emit_drivers(alloc, &site, &mut netlist.nets, name.at, drivers)?;
    push_net(&mut netlist.nets, name.at, width as u8, Gate::Bus(pairs))?;
    Ok(())
}

/// A part with the nets of its module.
fn emit_instance(
    alloc: Global,
    text: &Text,
    netlist: &mut Netlist,
    name: &Ident,
    of: &Ident,
    links: &[(Ident, NetExpr)],
) -> Result<(), NoMemory>
    requires keeps { ItemKeeps (map model_of_unit text.now) (part name.now of.now (map binding_of links.now)) }
    requires room { HasRoom (map model_of_unit text.now) (part name.now of.now (map binding_of links.now)) netlist.old }
    ensures { OnOk result (ItemDone (map model_of_unit text.now)
        (part name.now of.now (map binding_of links.now)) netlist.old netlist.new) }
{
    let body = ModuleBody {
        ports: text.declared().ports(&of.name),
        equations: text.declared().equations(&of.name),
    };
    emit_part(alloc, text, &mut netlist.nets, name.at, links, &body)
}

/// The nets, the storage and the code of an item.
pub fn emit_item(
    alloc: Global,
    text: &Text,
    netlist: &mut Netlist,
    unit: &Unit,
) -> Result<(), NoMemory>
    requires keeps { ItemKeeps (map model_of_unit text.now) (model_of_unit unit.now) }
    requires room { HasRoom (map model_of_unit text.now) (model_of_unit unit.now) netlist.old }
    ensures { OnOk result (ItemDone (map model_of_unit text.now) (model_of_unit unit.now) netlist.old netlist.new) }
{
    match unit {
        Unit::Code {
            name,
            bits,
            size,
            counter,
        } => {
            let shape = CodeMeasures {
                bits: *bits,
                size: *size,
            };
            emit_code(alloc, text, netlist, name, shape, counter)
        }
        Unit::Register {
            kind,
            name,
            width,
            input,
            when,
        } => {
            let latch = Latch {
                kind: *kind,
                width: *width,
                input,
                when,
            };
            emit_register(alloc, text, netlist, name, &latch)
        }
        Unit::Memory {
            space,
            name,
            width,
            size,
            addr_width,
            value,
            addr,
            when,
        } => {
            let shape = MemoryMeasures {
                space: *space,
                width: *width,
                size: *size,
                addr_width: *addr_width,
            };
            let write = Write { value, addr, when };
            emit_memory(alloc, text, netlist, name, shape, &write)
        }
        Unit::Net { name, width, value } => emit_net(alloc, text, netlist, name, *width, value),
        Unit::Bus {
            name,
            width,
            drivers,
        } => emit_bus(alloc, text, netlist, name, *width, drivers.as_slice()),
        Unit::Module { .. } => Ok(()),
        Unit::Part {
            name,
            module,
            links,
        } => emit_instance(alloc, text, netlist, name, module, links.as_slice()),
    }
}

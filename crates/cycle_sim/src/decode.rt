// Gates, storages and buses decoded once, over the places where the values of nets stand.

ghost use Rattle.std.specs.Prelude.{◌≡◌, ◌<◌, ◌^◌, ◌≤◌, IfOk, length};
ghost use Rattle.cycle_sim.specs.Inner.Decoding.{binary_of, buses_from, choice_of, chosen, constants_of, decoded, drivers_by, latches_by, latch_by, constant_of, inlets_from, optional, port_by, rows_by, source_in, source_of, table_of};

use crate::edge::{BusDrivers, Latch, Port};
use crate::operation::{Inlet, NOWHERE, Operation, place_at};
use crate::values::net_width;
use net_model::{Gate, Net, Netlist, Storage};
use rec_bits::{Items, NoMemory, Op2, mask};
use std::alloc::Global;

// How wide a selector may be for a table of all its values.
const TABLE_BITS: u8 = 8;

// The place of a net's value.
fn source_at(sources: &[u32], net: u32) -> u32
    ensures { result ≡ source_in sources.now net }
{
    place_at(sources, u64::from(net))
}

fn optional_source(sources: &[u32], net: Option<u32>) -> Option<u32>
    ensures { result ≡ optional (source_in sources.now) net }
{
    match net {
        Some(net) => Some(source_at(sources, net)),
        None => None,
    }
}

/// The place of a net's value, by the places of the nets before it.
pub(crate) fn source_of(sources: &[u32], id: u32, gate: &Gate) -> u32
    ensures { result ≡ source_of (source_in sources.now) id gate.now }
{
    match gate {
        Gate::Wire(a) | Gate::Zext(a) => source_at(sources, *a),
        _ => id,
    }
}

/// What a gate does at a clock, or None for a constant, for what an inlet takes, and where the
/// value stands at its source.
pub(crate) fn decode(
    alloc: Global,
    netlist: &Netlist,
    sources: &[u32],
    net: &Net,
) -> Result<Option<Operation>, NoMemory>
    requires low { 1 ≤ net.now.width }
    requires high { net.now.width ≤ 64 }
    ensures { IfOk result (λ operation. operation
        ≡ decoded netlist.now (source_in sources.now) net.now.width net.now.gate) }
{
    match &net.gate {
        Gate::Read { memory, addr } => {
            let space = netlist.space(*memory);
            Ok(Some(Operation::Recall(space, source_at(sources, *addr))))
        }
        Gate::Word(_) | Gate::Reg(_) | Gate::Const(_) | Gate::Wire(_) | Gate::Zext(_) => Ok(None),
        Gate::Un(op, a) => Ok(Some(Operation::Unary {
            op: *op,
            width: net.width,
            a: source_at(sources, *a),
        })),
        Gate::Bin(op, a, b) => {
            let from = net_width(netlist, *a);
            let left = source_at(sources, *a);
            let right = source_at(sources, *b);
            Ok(Some(binary_operation(*op, from, net.width, left, right)))
        }
        Gate::Slice { of, hi: _, lo } => Ok(Some(Operation::Field {
            of: source_at(sources, *of),
            lowest: *lo,
            mask: mask(net.width),
        })),
        Gate::Cat(a, b) => Ok(Some(Operation::Pair {
            high: source_at(sources, *a),
            low: source_at(sources, *b),
            low_width: net_width(netlist, *b),
        })),
        Gate::Sext(a) => Ok(Some(Operation::Extension {
            a: source_at(sources, *a),
            from: net_width(netlist, *a),
            to: net.width,
        })),
        Gate::Case { sel, rows, rest } => {
            let bits = net_width(netlist, *sel);
            let choice = choice(alloc, sources, bits, *sel, rows.as_slice(), *rest)?;
            Ok(Some(choice))
        }
        Gate::Bus(drivers) => {
            let drivers = drivers_of(alloc, sources, drivers.as_slice())?;
            Ok(Some(Operation::Drive(drivers)))
        }
    }
}

// An operator by the width of its operands and that of its result.
fn binary_operation(op: Op2, from: u8, width: u8, a: u32, b: u32) -> Operation
    requires low { 1 ≤ width }
    requires high { width ≤ 64 }
    ensures { result ≡ binary_of op from width a b }
{
    let mask = mask(width);
    match op {
        Op2::Add => Operation::Sum { a, b, mask },
        Op2::Sub => Operation::Difference { a, b, mask },
        Op2::Mul => Operation::Product { a, b, mask },
        Op2::And => Operation::Conjunction(a, b),
        Op2::Or => Operation::Disjunction(a, b),
        Op2::Xor => Operation::Exclusion(a, b),
        Op2::Eq => Operation::Sameness(a, b),
        Op2::Ltu => Operation::Below(a, b),
        Op2::Shl | Op2::Shr | Op2::Sar | Op2::Lts => Operation::Binary {
            op,
            width: from,
            a,
            b,
        },
    }
}

fn choice(
    alloc: Global,
    sources: &[u32],
    bits: u8,
    sel: u32,
    rows: &[(u64, u32)],
    rest: Option<u32>,
) -> Result<Operation, NoMemory>
    ensures { IfOk result (λ operation. operation ≡ choice_of (source_in sources.now) bits sel rows.now rest) }
{
    let key = source_at(sources, sel);
    if bits <= TABLE_BITS {
        let places = table(alloc, sources, bits, rows, rest)?;
        Ok(Operation::Table { key, places })
    } else {
        let rows = rows_of(alloc, sources, rows)?;
        let rest = optional_source(sources, rest);
        Ok(Operation::Search { key, rows, rest })
    }
}

// The places for all values of so many bits.
fn table(
    alloc: Global,
    sources: &[u32],
    bits: u8,
    rows: &[(u64, u32)],
    rest: Option<u32>,
) -> Result<Items<u32>, NoMemory>
    requires { bits ≤ 8 }
    ensures { IfOk result (λ places. places ≡ table_of (source_in sources.now) rows.now rest (2 ^ bits)) }
{
    let mut places = Items::new(alloc);
    let size = 1u64 << bits;
    for key in 0..size {
        places.push(chosen_place(sources, key, rows, rest))?;
    }
    Ok(places)
}

// The place of the row with this number, or of the rest.
fn chosen_place(sources: &[u32], key: u64, rows: &[(u64, u32)], rest: Option<u32>) -> u32
    ensures { result ≡ chosen (source_in sources.now) key rows.now rest }
{
    for row in rows {
        if row.0 == key {
            return source_at(sources, row.1);
        }
    }
    match rest {
        Some(id) => source_at(sources, id),
        None => NOWHERE,
    }
}

fn rows_of(
    alloc: Global,
    sources: &[u32],
    rows: &[(u64, u32)],
) -> Result<Items<(u64, u32)>, NoMemory>
    ensures { IfOk result (λ list. list ≡ rows_by (source_in sources.now) rows.now) }
{
    let mut list = Items::new(alloc);
    for row in rows {
        list.push((row.0, source_at(sources, row.1)))?;
    }
    Ok(list)
}

fn drivers_of(
    alloc: Global,
    sources: &[u32],
    drivers: &[(u32, u32)],
) -> Result<Items<(u32, u32)>, NoMemory>
    ensures { IfOk result (λ list. list ≡ drivers_by (source_in sources.now) drivers.now) }
{
    let mut list = Items::new(alloc);
    for driver in drivers {
        let value = source_at(sources, driver.0);
        list.push((value, source_at(sources, driver.1)))?;
    }
    Ok(list)
}

fn constant_of(gate: &Gate) -> u64
    ensures { result ≡ constant_of gate.now }
{
    match gate {
        Gate::Const(value) => *value,
        _ => 0,
    }
}

/// The constants in their places, and 0 elsewhere.
pub(crate) fn constants(alloc: Global, nets: &[Net]) -> Result<Vec<u64>, NoMemory>
    ensures { IfOk result (λ values. values.items ≡ constants_of nets.now) }
{
    let values = nets.iter().map(|net| constant_of(&net.gate));
    Ok(values.collect(alloc)?)
}

fn latch_of(sources: &[u32], storage: &Storage) -> Latch
    ensures { result ≡ latch_by (source_in sources.now) storage.now }
{
    match storage {
        Storage::Register { input, when, .. } => Latch::Input {
            input: source_at(sources, *input),
            when: optional_source(sources, *when),
        },
        Storage::Memory(_) | Storage::File(_) => Latch::Held,
    }
}

/// Where the storages take their next values.
pub(crate) fn latches(
    alloc: Global,
    sources: &[u32],
    storages: &[Storage],
) -> Result<Items<Latch>, NoMemory>
    ensures { IfOk result (λ latches. latches ≡ latches_by (source_in sources.now) storages.now) }
{
    let mut latches = Items::new(alloc);
    for storage in storages {
        latches.push(latch_of(sources, storage))?;
    }
    Ok(latches)
}

/// The port over places.
pub(crate) fn routed(sources: &[u32], port: Option<Port>) -> Option<Port>
    ensures { result ≡ port_by (source_in sources.now) port }
{
    match port {
        Some(port) => Some(Port {
            width: port.width,
            value: source_at(sources, port.value),
            addr: source_at(sources, port.addr),
            when: optional_source(sources, port.when),
        }),
        None => None,
    }
}

/// The inlets: the places of the instruction word and of registers.
pub(crate) fn inlets(alloc: Global, nets: &[Net]) -> Result<Items<Inlet>, NoMemory>
    requires { length nets.now < 2 ^ 32 }
    ensures { IfOk result (λ inlets. inlets ≡ inlets_from 0 nets.now) }
{
    let mut inlets = Items::new(alloc);
    for (at, net) in nets.iter().enumerate() {
        let storage = match &net.gate {
            Gate::Word(_) => None,
            Gate::Reg(id) => Some(*id),
            _ => continue,
        };
        inlets.push(Inlet {
            place: at as u32,
            storage,
        })?;
    }
    Ok(inlets)
}

/// The buses with their drivers' places.
pub(crate) fn buses(
    alloc: Global,
    sources: &[u32],
    nets: &[Net],
) -> Result<Items<BusDrivers>, NoMemory>
    requires { length nets.now < 2 ^ 32 }
    ensures { IfOk result (λ buses. buses ≡ buses_from (source_in sources.now) 0 nets.now) }
{
    let mut buses = Items::new(alloc);
    for (at, net) in nets.iter().enumerate() {
        if let Gate::Bus(drivers) = &net.gate {
            let drivers = drivers_of(alloc, sources, drivers.as_slice())?;
            buses.push(BusDrivers {
                net: at as u32,
                drivers,
            })?;
        }
    }
    Ok(buses)
}

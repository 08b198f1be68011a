//! The view of a netlist of two data memories.

ghost use Rattle.std.specs.Prelude.{◌≡◌, false, ◌+◌, ◌*◌, ◌<◌, ◌≤◌, ◌^◌, IfOk, OnOk, option_copied, map, option_map, length, ◌++◌, [], ◌∷◌, slice_get};
ghost use Rattle.bank_view.specs.Banks.{bank_port, memory_port, addr_bits};
ghost use Rattle.bank_view.specs.Views.{renamed, renamed_rows, renamed_drivers, added_to, count_for, slot_size, enable_count, access_nets, access_end, added_before, before, is_bank_write, is_memory_write, slots_of, nets_for, enable_nets, enable_number, memory_enable, bank_enable, join_nets, join_number, memory_nets, bank_nets, slot_nets, net_number, numbering_of, joined, renamed_code, view_of};
ghost use Rattle.std.specs.List.{flat_map};
ghost use Rattle.net_model.specs.Nets.{is_in};
ghost use Rattle.net_model.specs.declared.hardware.Space.TheVariants.{File as InFile};
ghost use Rattle.bank_view.specs.Keeping.{HasBanks};
ghost use Rattle.bank_view.specs.Inner.Numbers.{number_in, numbers_from, total, joined_from, AreNumbers};

use crate::ports::{bank_place, bank_port, memory_place, memory_port, storage_number};
use crate::slot::{Slot, slots};
use net_model::{Cells, Code, Gate, Net, Netlist, Space, Storage};
use rec_bits::{Items, Name, NoMemory, Op2};
use std::alloc::Global;

/// The numbers in the view: those of the netlist's nets, that of any further one, and those of the
/// first nets that are there for the two writes; that of the memory's storage, and that of the bank's
/// in the netlist.
#[derive(Drop)]
pub(crate) struct Numbers {
    pub nets: Items<u32>,
    pub past: u32,
    pub memory: u32,
    pub bank: u32,
    pub storage: u32,
    pub bank_place: u32,
}

fn number(numbers: &Numbers, net: u32) -> u32
    ensures { result ≡ number_in numbers.now net }
{
    match numbers.nets.get(net as usize) {
        Some(number) => *number,
        None => numbers.past,
    }
}

fn number_of_some(numbers: &Numbers, net: Option<u32>) -> Option<u32>
    ensures { result ≡ option_map (number_in numbers.now) net }
{
    match net {
        Some(net) => Some(number(numbers, net)),
        None => None,
    }
}

// The edition of views.
const VIEW_EDITION: u8 = 5;

// ---- how many nets there are for what

// How many nets stand before a net of this gate.
fn added_to(netlist: &Netlist, gate: &Gate) -> u32
    ensures value { result ≡ added_to netlist.now gate.now }
    ensures few { result ≤ 3 }
{
    match gate {
        Gate::Read { memory, addr: _ } => access_end(netlist.space(*memory), 1),
        _ => 0,
    }
}

fn added_before(netlist: &Netlist, net: u32) -> u32
    ensures value { result ≡ added_before netlist.now (slice_get netlist.now.nets net) }
    ensures few { result ≤ 3 }
{
    match netlist.net(net) {
        Some(net) => added_to(netlist, &net.gate),
        None => 0,
    }
}

fn count_for(netlist: &Netlist, net: u32) -> u32
    ensures value { result ≡ count_for netlist.now (slice_get netlist.now.nets net) }
    ensures few { result ≤ 4 }
{
    match netlist.net(net) {
        Some(net) => added_to(netlist, &net.gate) + 1,
        None => 0,
    }
}

fn enable_count(when: Option<u32>) -> u32
    ensures value { result ≡ enable_count when }
    ensures few { result ≤ 1 }
{
    match when {
        Some(_) => 0,
        None => 1,
    }
}

fn slot_size(netlist: &Netlist, slot: Slot) -> u32
    ensures value { result ≡ slot_size netlist.now slot }
    ensures few { result ≤ 6 }
{
    match slot {
        Slot::Kept(net, _) => count_for(netlist, net),
        Slot::MemoryWrite => {
            1 + enable_count(memory_port(netlist).when) + enable_count(bank_port(netlist).when) + 3
        }
        Slot::BankWrite => 3,
    }
}

// ---- numbers

fn net_numbers(alloc: Global, netlist: &Netlist, slots: &[Slot]) -> Result<Items<u32>, NoMemory>
    requires { length slots.now ≤ 2000 }
    ensures { IfOk result (λ numbers. numbers ≡ numbers_from netlist.now 0 slots.now) }
{
    let mut numbers = Items::new(alloc);
    let mut at = 0;
    for slot in slots {
        if let Slot::Kept(net, _) = slot {
            numbers.push(at + added_before(netlist, *net))?;
        }
        at += slot_size(netlist, *slot);
    }
    Ok(numbers)
}

fn total(netlist: &Netlist, slots: &[Slot]) -> u32
    requires { length slots.now ≤ 2000 }
    ensures { result ≡ total netlist.now slots.now }
{
    let mut at = 0;
    for slot in slots {
        at += slot_size(netlist, *slot);
    }
    at
}

fn memory_number(netlist: &Netlist, slots: &[Slot]) -> u32
    requires { length slots.now ≤ 2000 }
    ensures { result ≡ before netlist.now is_memory_write slots.now }
{
    let mut at = 0;
    for slot in slots {
        if let Slot::MemoryWrite = slot {
            return at;
        }
        at += slot_size(netlist, *slot);
    }
    at
}

fn bank_number(netlist: &Netlist, slots: &[Slot]) -> u32
    requires { length slots.now ≤ 2000 }
    ensures { result ≡ before netlist.now is_bank_write slots.now }
{
    let mut at = 0;
    for slot in slots {
        if let Slot::BankWrite = slot {
            return at;
        }
        at += slot_size(netlist, *slot);
    }
    at
}

fn numbered(alloc: Global, netlist: &Netlist, slots: &[Slot]) -> Result<Numbers, NoMemory>
    requires few { length netlist.now.nets ≤ 1000 }
    requires storages { length netlist.now.storages < 2 ^ 32 }
    requires slots { slots.now ≡ slots_of netlist.now }
    ensures { IfOk result (AreNumbers netlist.now) }
{
    let nets = net_numbers(alloc, netlist, slots)?;
    Ok(Numbers {
        nets,
        past: total(netlist, slots),
        memory: memory_number(netlist, slots),
        bank: bank_number(netlist, slots),
        storage: memory_place(netlist),
        bank_place: bank_place(netlist),
    })
}

// ---- gates

fn renamed_rows(
    alloc: Global,
    numbers: &Numbers,
    rows: &[(u64, u32)],
) -> Result<Items<(u64, u32)>, NoMemory>
    ensures { IfOk result (λ made. made ≡ renamed_rows (number_in numbers.now) rows.now) }
{
    let mut made = Items::new(alloc);
    for (key, net) in rows {
        made.push((*key, number(numbers, *net)))?;
    }
    Ok(made)
}

fn renamed_drivers(
    alloc: Global,
    numbers: &Numbers,
    drivers: &[(u32, u32)],
) -> Result<Items<(u32, u32)>, NoMemory>
    ensures { IfOk result (λ made. made ≡ renamed_drivers (number_in numbers.now) drivers.now) }
{
    let mut made = Items::new(alloc);
    for (value, enable) in drivers {
        made.push((number(numbers, *value), number(numbers, *enable)))?;
    }
    Ok(made)
}

// The last of the nets that are there for an access, the first of which has this number.
fn access_end(space: Space, at: u32) -> u32
    requires { at + 2 < 2 ^ 32 }
    ensures { result ≡ access_end space at }
{
    match space {
        Space::Memory => at,
        Space::File => at + 2,
    }
}

// A gate with the numbers of the view; `at` is the first number of the nets that are there for its
// net.
fn renamed(
    alloc: Global,
    netlist: &Netlist,
    numbers: &Numbers,
    at: u32,
    gate: &Gate,
) -> Result<Gate, NoMemory>
    requires at { at + 2 < 2 ^ 32 }
    requires numbers { AreNumbers netlist.now numbers.now }
    ensures { IfOk result (λ made. made ≡ renamed netlist.now (number_in numbers.now) at gate.now) }
{
    Ok(match gate {
        Gate::Word(code) => Gate::Word(*code),
        Gate::Reg(storage) => Gate::Reg(storage_number(numbers.bank_place, *storage)),
        Gate::Read { memory, addr: _ } => Gate::Read {
            memory: numbers.storage,
            addr: access_end(netlist.space(*memory), at),
        },
        Gate::Const(value) => Gate::Const(*value),
        Gate::Wire(net) => Gate::Wire(number(numbers, *net)),
        Gate::Un(op, net) => Gate::Un(*op, number(numbers, *net)),
        Gate::Bin(op, left, right) => {
            Gate::Bin(*op, number(numbers, *left), number(numbers, *right))
        }
        Gate::Slice { of, hi, lo } => Gate::Slice {
            of: number(numbers, *of),
            hi: *hi,
            lo: *lo,
        },
        Gate::Cat(high, low) => Gate::Cat(number(numbers, *high), number(numbers, *low)),
        Gate::Zext(net) => Gate::Zext(number(numbers, *net)),
        Gate::Sext(net) => Gate::Sext(number(numbers, *net)),
        Gate::Case { sel, rows, rest } => Gate::Case {
            sel: number(numbers, *sel),
            rows: renamed_rows(alloc, numbers, rows.as_slice())?,
            rest: number_of_some(numbers, *rest),
        },
        Gate::Bus(drivers) => Gate::Bus(renamed_drivers(alloc, numbers, drivers.as_slice())?),
    })
}

// ---- nets

// 2 to the power of an address width.
fn cells(bits: u8) -> u64
    requires { bits ≤ 15 }
    ensures { result ≡ 2 ^ bits }
{
    1 << bits
}

fn push_access(
    nets: &mut Items<Net>,
    netlist: &Netlist,
    space: Space,
    name_at: u64,
    at: u32,
    addr: u32,
) -> Result<(), NoMemory>
    requires bits { addr_bits netlist.now ≤ 15 }
    requires at { at ≤ 6100 }
    ensures { OnOk result (nets.new ≡ nets.old ++ access_nets space netlist.now name_at at addr) }
{
    let bits = memory_port(netlist).addr_width;
    let width = bits + 1;
    nets.push(Net {
        width,
        name_at,
        gate: Gate::Zext(addr),
    })?;
    if let Space::File = space {
        nets.push(Net {
            width,
            name_at,
            gate: Gate::Const(cells(bits)),
        })?;
        nets.push(Net {
            width,
            name_at,
            gate: Gate::Bin(Op2::Add, at, at + 1),
        })?;
    }
    Ok(())
}

// Adds the nets that are there for a net, the first of which has the number `at`.
fn push_for(
    alloc: Global,
    nets: &mut Items<Net>,
    netlist: &Netlist,
    numbers: &Numbers,
    at: u32,
    net: &Net,
) -> Result<(), NoMemory>
    requires bits { addr_bits netlist.now ≤ 15 }
    requires at { at ≤ 6100 }
    requires numbers { AreNumbers netlist.now numbers.now }
    ensures { OnOk result (nets.new ≡ nets.old ++ nets_for netlist.now (number_in numbers.now) at (Some net.now)) }
{
    if let Gate::Read { memory, addr } = &net.gate {
        let addr = number(numbers, *addr);
        push_access(nets, netlist, netlist.space(*memory), net.name_at, at, addr)?;
    }
    let gate = renamed(alloc, netlist, numbers, at, &net.gate)?;
    nets.push(Net {
        width: net.width,
        name_at: net.name_at,
        gate,
    })
}

fn push_enable(nets: &mut Items<Net>, name_at: u64, when: Option<u32>) -> Result<(), NoMemory>
    ensures { OnOk result (nets.new ≡ nets.old ++ enable_nets name_at when) }
{
    match when {
        Some(_) => Ok(()),
        None => nets.push(Net {
            width: 1,
            name_at,
            gate: Gate::Const(1),
        }),
    }
}

fn enable_number(numbers: &Numbers, at: u32, when: Option<u32>) -> u32
    ensures { result ≡ enable_number (number_in numbers.now) at when }
{
    match when {
        Some(when) => number(numbers, when),
        None => at,
    }
}

fn memory_enable(netlist: &Netlist, numbers: &Numbers) -> u32
    requires { AreNumbers netlist.now numbers.now }
    ensures { result ≡ memory_enable netlist.now (numbering_of netlist.now) }
{
    enable_number(numbers, numbers.memory + 1, memory_port(netlist).when)
}

fn bank_enable(netlist: &Netlist, numbers: &Numbers) -> u32
    requires { AreNumbers netlist.now numbers.now }
    ensures { result ≡ bank_enable netlist.now (numbering_of netlist.now) }
{
    let at = numbers.memory + 1 + enable_count(memory_port(netlist).when);
    enable_number(numbers, at, bank_port(netlist).when)
}

fn bus(alloc: Global, one: (u32, u32), other: (u32, u32)) -> Result<Gate, NoMemory>
    ensures { IfOk result (λ made. made ≡ Gate.Bus (one ∷ other ∷ [])) }
{
    let mut drivers = Items::new(alloc);
    drivers.push(one)?;
    drivers.push(other)?;
    Ok(Gate::Bus(drivers))
}

// Adds the three nets that join the writes.
fn push_joins(
    alloc: Global,
    nets: &mut Items<Net>,
    netlist: &Netlist,
    numbers: &Numbers,
) -> Result<(), NoMemory>
    requires bits { addr_bits netlist.now ≤ 15 }
    requires numbers { AreNumbers netlist.now numbers.now }
    ensures { OnOk result (nets.new ≡ nets.old ++ join_nets netlist.now (numbering_of netlist.now)) }
{
    let memory = memory_port(netlist);
    let on_memory = memory_enable(netlist, numbers);
    let on_bank = bank_enable(netlist, numbers);
    let value = number(numbers, memory.value);
    let bank_value = number(numbers, bank_port(netlist).value);
    let values = bus(alloc, (value, on_memory), (bank_value, on_bank))?;
    let name_at = memory.name_at;
    nets.push(Net {
        width: memory.width,
        name_at,
        gate: values,
    })?;
    let addresses = bus(
        alloc,
        (numbers.memory, on_memory),
        (numbers.bank + 2, on_bank),
    )?;
    nets.push(Net {
        width: memory.addr_width + 1,
        name_at,
        gate: addresses,
    })?;
    nets.push(Net {
        width: 1,
        name_at,
        gate: Gate::Bin(Op2::Or, on_memory, on_bank),
    })
}

// Adds the nets that have the memory's item.
fn push_memory(
    alloc: Global,
    nets: &mut Items<Net>,
    netlist: &Netlist,
    numbers: &Numbers,
) -> Result<(), NoMemory>
    requires bits { addr_bits netlist.now ≤ 15 }
    requires numbers { AreNumbers netlist.now numbers.now }
    ensures { OnOk result (nets.new ≡ nets.old ++ memory_nets netlist.now (numbering_of netlist.now)) }
{
    let memory = memory_port(netlist);
    let addr = number(numbers, memory.addr);
    push_access(
        nets,
        netlist,
        Space::Memory,
        memory.name_at,
        numbers.memory,
        addr,
    )?;
    push_enable(nets, memory.name_at, memory.when)?;
    push_enable(nets, memory.name_at, bank_port(netlist).when)?;
    push_joins(alloc, nets, netlist, numbers)
}

// Adds those that have the bank's.
fn push_bank(nets: &mut Items<Net>, netlist: &Netlist, numbers: &Numbers) -> Result<(), NoMemory>
    requires bits { addr_bits netlist.now ≤ 15 }
    requires numbers { AreNumbers netlist.now numbers.now }
    ensures { OnOk result (nets.new ≡ nets.old ++ bank_nets netlist.now (numbering_of netlist.now)) }
{
    let bank = bank_port(netlist);
    let addr = number(numbers, bank.addr);
    push_access(nets, netlist, Space::File, bank.name_at, numbers.bank, addr)
}

// Adds the nets that are there for a net of the netlist.
fn push_kept(
    alloc: Global,
    nets: &mut Items<Net>,
    netlist: &Netlist,
    numbers: &Numbers,
    net: u32,
) -> Result<(), NoMemory>
    requires bits { addr_bits netlist.now ≤ 15 }
    requires numbers { AreNumbers netlist.now numbers.now }
    ensures { OnOk result (nets.new ≡ nets.old ++ nets_for netlist.now (net_number netlist.now (numbering_of netlist.now))
        ((numbering_of netlist.now).first net) (slice_get netlist.now.nets net)) }
{
    match netlist.net(net) {
        Some(made) => {
            let at = number(numbers, net) - added_to(netlist, &made.gate);
            push_for(alloc, nets, netlist, numbers, at, made)
        }
        None => Ok(()),
    }
}

fn push_slot(
    alloc: Global,
    nets: &mut Items<Net>,
    netlist: &Netlist,
    numbers: &Numbers,
    slot: Slot,
) -> Result<(), NoMemory>
    requires bits { addr_bits netlist.now ≤ 15 }
    requires numbers { AreNumbers netlist.now numbers.now }
    ensures { OnOk result (nets.new ≡ nets.old ++ slot_nets netlist.now (numbering_of netlist.now) slot) }
{
    match slot {
        Slot::Kept(net, _) => push_kept(alloc, nets, netlist, numbers, net),
        Slot::MemoryWrite => push_memory(alloc, nets, netlist, numbers),
        Slot::BankWrite => push_bank(nets, netlist, numbers),
    }
}

fn all_nets(
    alloc: Global,
    netlist: &Netlist,
    numbers: &Numbers,
    slots: &[Slot],
) -> Result<Items<Net>, NoMemory>
    requires bits { addr_bits netlist.now ≤ 15 }
    requires numbers { AreNumbers netlist.now numbers.now }
    ensures { IfOk result (λ nets. nets ≡ flat_map (slot_nets netlist.now (numbering_of netlist.now)) slots.now) }
{
    let mut nets = Items::new(alloc);
    for slot in slots {
        push_slot(alloc, &mut nets, netlist, numbers, *slot)?;
    }
    Ok(nets)
}

// ---- storages and codes

fn join_number(netlist: &Netlist, numbers: &Numbers) -> u32
    requires { AreNumbers netlist.now numbers.now }
    ensures value { result ≡ join_number netlist.now (numbering_of netlist.now) }
    ensures few { result ≤ 6103 }
{
    let constants = enable_count(memory_port(netlist).when) + enable_count(bank_port(netlist).when);
    numbers.memory + 1 + constants
}

fn joined(
    alloc: Global,
    netlist: &Netlist,
    numbers: &Numbers,
    storage: &Storage,
) -> Result<Storage, NoMemory>
    requires bits { addr_bits netlist.now ≤ 15 }
    requires size { (bank_port netlist.now).size ≤ 2 ^ addr_bits netlist.now }
    requires numbers { AreNumbers netlist.now numbers.now }
    requires other { is_in InFile storage.now ≡ false }
    ensures { IfOk result (λ made. made ≡ joined netlist.now (numbering_of netlist.now) storage.now) }
{
    match storage {
        Storage::Register {
            name,
            width,
            input,
            when,
        } => Ok(Storage::Register {
            name: Items::from_slice(alloc, name.as_slice())?,
            width: *width,
            input: number(numbers, *input),
            when: number_of_some(numbers, *when),
        }),
        Storage::Memory(memory) => {
            let first = join_number(netlist, numbers);
            let bits = memory_port(netlist).addr_width;
            Ok(Storage::Memory(Cells {
                name: Items::from_slice(alloc, memory.name.as_slice())?,
                name_at: memory.name_at,
                width: memory.width,
                size: cells(bits) as u32 + bank_port(netlist).size,
                addr_width: bits + 1,
                value: first,
                addr: first + 1,
                when: Some(first + 2),
            }))
        }
        Storage::File(_) => unreachable!(),
    }
}

fn storages(alloc: Global, netlist: &Netlist, numbers: &Numbers) -> Result<Items<Storage>, NoMemory>
    requires banks { HasBanks netlist.now }
    requires bits { addr_bits netlist.now ≤ 15 }
    requires size { (bank_port netlist.now).size ≤ 2 ^ addr_bits netlist.now }
    requires numbers { AreNumbers netlist.now numbers.now }
    ensures { IfOk result (λ made. made ≡ joined_from netlist.now 0 netlist.now.storages) }
{
    let mut made = Items::new(alloc);
    for (number, storage) in netlist.storages.as_slice().iter().enumerate() {
        if number != numbers.bank_place as usize {
            made.push(joined(alloc, netlist, numbers, storage)?)?;
        }
    }
    Ok(made)
}

fn codes(alloc: Global, netlist: &Netlist) -> Result<Items<Code>, NoMemory>
    requires { length netlist.now.storages < 2 ^ 32 }
    ensures { IfOk result (λ made. made ≡ map (renamed_code netlist.now) netlist.now.codes) }
{
    let mut made = Items::new(alloc);
    let bank = bank_place(netlist);
    for code in netlist.codes.as_slice() {
        made.push(Code {
            name: Items::from_slice(alloc, code.name.as_slice())?,
            bits: code.bits,
            words: code.words,
            counter: storage_number(bank, code.counter),
        })?;
    }
    Ok(made)
}

/// The view of a netlist that has a bank: one memory of the cells of both, in which those of the
/// bank stand behind the others. It has no bank, and is of an edition of its own.
pub fn view(alloc: Global, netlist: &Netlist) -> Result<Netlist, NoMemory>
    requires { HasBanks netlist.now }
    ensures { IfOk result (λ made. made ≡ view_of netlist.now) }
{
    let slots = slots(alloc, netlist)?;
    let numbers = numbered(alloc, netlist, slots.as_slice())?;
    let nets = all_nets(alloc, netlist, &numbers, slots.as_slice())?;
    let storages = storages(alloc, netlist, &numbers)?;
    let codes = codes(alloc, netlist)?;
    Ok(Netlist {
        nets,
        storages,
        codes,
        edition: VIEW_EDITION,
        special: None,
    })
}

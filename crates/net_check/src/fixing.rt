//! The netlist of a mode.

ghost use Rattle.std.specs.Prelude.{◌≡◌, ◌≤◌, ◌^◌, IfOk, IsTrue, is_some, map, slice_get};
ghost use Rattle.net_model.specs.CheckedRules.{IsMode};
ghost use Rattle.net_model.specs.Fixed.{fixed_gate, fixed_net, fixed_of, in_mode};
ghost use Rattle.net_model.specs.ModeRules.{modes_in};

use net_model::{Cells, Code, Gate, Net, Netlist, Storage};
use rec_bits::{Items, Name, NoMemory};
use std::alloc::Global;

// A gate with this value in place of the mode's output.
fn fixed_gate(alloc: Global, gate: &Gate, mode: u32, value: u64) -> Result<Gate, NoMemory>
    ensures { IfOk result (λ made. made ≡ fixed_gate mode value gate.now) }
{
    Ok(match gate {
        Gate::Reg(id) if *id == mode => Gate::Const(value),
        Gate::Reg(id) => Gate::Reg(*id),
        Gate::Word(code) => Gate::Word(*code),
        Gate::Read { memory, addr } => Gate::Read {
            memory: *memory,
            addr: *addr,
        },
        Gate::Const(number) => Gate::Const(*number),
        Gate::Wire(a) => Gate::Wire(*a),
        Gate::Un(op, a) => Gate::Un(*op, *a),
        Gate::Bin(op, a, b) => Gate::Bin(*op, *a, *b),
        Gate::Slice { of, hi, lo } => Gate::Slice {
            of: *of,
            hi: *hi,
            lo: *lo,
        },
        Gate::Cat(a, b) => Gate::Cat(*a, *b),
        Gate::Zext(a) => Gate::Zext(*a),
        Gate::Sext(a) => Gate::Sext(*a),
        Gate::Case { sel, rows, rest } => Gate::Case {
            sel: *sel,
            rows: Items::from_slice(alloc, rows.as_slice())?,
            rest: *rest,
        },
        Gate::Bus(drivers) => Gate::Bus(Items::from_slice(alloc, drivers.as_slice())?),
    })
}

// The nets with this value in place of the mode's output.
fn fixed_nets(alloc: Global, nets: &[Net], mode: u32, value: u64) -> Result<Items<Net>, NoMemory>
    ensures { IfOk result (λ made. made ≡ map (fixed_net mode value) nets.now) }
{
    let mut made = Items::new(alloc);
    for net in nets {
        made.push(Net {
            width: net.width,
            name_at: net.name_at,
            gate: fixed_gate(alloc, &net.gate, mode, value)?,
        })?;
    }
    Ok(made)
}

fn copy_cells(alloc: Global, cells: &Cells) -> Result<Cells, NoMemory>
    ensures { IfOk result (λ made. made ≡ cells.now) }
{
    Ok(Cells {
        name: Name::from_slice(alloc, cells.name.as_slice())?,
        name_at: cells.name_at,
        width: cells.width,
        size: cells.size,
        addr_width: cells.addr_width,
        value: cells.value,
        addr: cells.addr,
        when: cells.when,
    })
}

fn copy_storage(alloc: Global, storage: &Storage) -> Result<Storage, NoMemory>
    ensures { IfOk result (λ made. made ≡ storage.now) }
{
    Ok(match storage {
        Storage::Register {
            name,
            width,
            input,
            when,
        } => Storage::Register {
            name: Name::from_slice(alloc, name.as_slice())?,
            width: *width,
            input: *input,
            when: *when,
        },
        Storage::Memory(cells) => Storage::Memory(copy_cells(alloc, cells)?),
        Storage::File(cells) => Storage::File(copy_cells(alloc, cells)?),
    })
}

fn copy_storages(alloc: Global, storages: &[Storage]) -> Result<Items<Storage>, NoMemory>
    ensures { IfOk result (λ made. made ≡ storages.now) }
{
    let mut made = Items::new(alloc);
    for storage in storages {
        made.push(copy_storage(alloc, storage)?)?;
    }
    Ok(made)
}

fn copy_codes(alloc: Global, codes: &[Code]) -> Result<Items<Code>, NoMemory>
    ensures { IfOk result (λ made. made ≡ codes.now) }
{
    let mut made = Items::new(alloc);
    for code in codes {
        made.push(Code {
            name: Name::from_slice(alloc, code.name.as_slice())?,
            bits: code.bits,
            words: code.words,
            counter: code.counter,
        })?;
    }
    Ok(made)
}

// What a netlist is while the register `mode` holds `value`.
fn fixed_at(alloc: Global, netlist: &Netlist, mode: u32, value: u64) -> Result<Netlist, NoMemory>
    ensures { IfOk result (λ made. made ≡ fixed_of mode value netlist.now) }
{
    Ok(Netlist {
        nets: fixed_nets(alloc, netlist.nets.as_slice(), mode, value)?,
        storages: copy_storages(alloc, netlist.storages.as_slice())?,
        codes: copy_codes(alloc, netlist.codes.as_slice())?,
        edition: 1,
        special: None,
    })
}

/// What a netlist that has a mode register is while that holds `value`: the same with the constant
/// in place of the register's output. It has no mode, and is of the first edition. The refusal is
/// want of memory.
pub fn fixed(alloc: Global, netlist: &Netlist, value: u64) -> Result<Netlist, NoMemory>
    requires { IsTrue (is_some netlist.now.special) }
    ensures { IfOk result (λ made. made ≡ in_mode netlist.now.special value netlist.now) }
{
    match netlist.special {
        Some(mode) => fixed_at(alloc, netlist, mode, value),
        None => unreachable!(),
    }
}

// How many numbers so many bits may be.
fn numbers_of(width: u8) -> u64
    requires { width ≤ 2 }
    ensures { result ≡ 2 ^ width }
{
    1u64 << width
}

/// How many modes a netlist has: the numbers that its mode register may hold, 2 or 4, or 1 where it
/// has none.
pub fn modes_in(netlist: &Netlist) -> u64
    requires { IsMode netlist.now netlist.now.special }
    ensures { result ≡ modes_in netlist.now }
{
    let Some(mode) = netlist.special else {
        return 1;
    };
    match netlist.storage(mode) {
        Some(Storage::Register { width, .. }) => numbers_of(*width),
        _ => unreachable!(),
    }
}

// The parts that each processor has.

ghost use Rattle.std.specs.Prelude.{◌≡◌, ◌≤◌, ◌^◌, ◌↔◌, IsTrue, MatchOption, None, option_map, slice_get};
ghost use Rattle.net_model.specs.CheckedRules.{HasBank, HasBankBeside, HasFile, HasFiles, HasMode, HasRoles, IsCounter, IsAddressed, IsWellFormed, count_in, files_of};
ghost use Rattle.net_model.specs.declared.hardware.Space.TheVariants.{File as InFile};
ghost use Rattle.net_model.specs.NetFaults.{LacksRole};
ghost use Rattle.net_model.specs.Nets.{array_in, storage_bits};
ghost use Rattle.net_check.specs.Inner.Roles.{AreAlike, HasRoom, IsShape, IsShapedBeside, lone_from, shape_of};

use net_model::{Cells, Netlist, Role, Space, Storage, is_banked};
use rec_bits::mask;

// The most bits of a program counter.
const COUNTER_BITS: u8 = 16;

// The least size of a code, a memory or a file.
const LEAST_SIZE: u32 = 1;

// The edition whose netlists have a mode.
const MODED: u8 = 3;

// The most bits of the addresses of a memory that stands beside a bank.
const BANKED_ADDR_BITS: u8 = 15;

// How many bits more than an address a cell has beside a bank: one for both memories, and a sign.
const BANKED_ROOM: u8 = 2;

// The measures of a memory or a file.
#[derive(Clone, Copy)]
pub(crate) struct CellMeasures {
    pub width: u8,
    pub size: u32,
    pub addr_width: u8,
}

fn shape_of(cells: &Cells) -> CellMeasures
    ensures { result ≡ shape_of cells.now }
{
    CellMeasures {
        width: cells.width,
        size: cells.size,
        addr_width: cells.addr_width,
    }
}

// The register file or the bank, where there is one: the first.
fn file_shape(storages: &[Storage]) -> Option<CellMeasures>
    ensures { result ≡ option_map shape_of (array_in InFile storages.now) }
{
    for storage in storages {
        if let Storage::File(cells) = storage {
            return Some(shape_of(cells));
        }
    }
    None
}

fn count_files(storages: &[Storage]) -> usize
    ensures { result ≡ count_in InFile storages.now }
{
    let mut count = 0;
    for storage in storages {
        if storage.is_in(Space::File) {
            count += 1;
        }
    }
    count
}

// How many files a netlist of an edition has.
fn files_of(edition: u8) -> usize
    ensures { result ≡ files_of edition }
{
    if edition == 2 { 1 } else { 0 }
}

// Whether the netlist has a mode, where its edition has one.
fn has_mode(netlist: &Netlist) -> bool
    ensures { IsTrue result ↔ HasMode netlist.now }
{
    netlist.edition != MODED || netlist.special.is_some()
}

// The memory, where there is just one.
fn lone_memory(storages: &[Storage]) -> Option<CellMeasures>
    ensures { result ≡ lone_from None storages.now }
{
    let mut met = None;
    for storage in storages {
        if let Storage::Memory(cells) = storage {
            if met.is_some() {
                return None;
            }
            met = Some(shape_of(cells));
        }
    }
    met
}

// The width of a program counter, or None where the storage of this number can't be one.
fn counter_bits(netlist: &Netlist, id: u32) -> Option<u8>
    ensures { MatchOption result (¬ IsCounter (slice_get netlist.now.storages id)) (λ bits.
        IsCounter (slice_get netlist.now.storages id) × (storage_bits (slice_get netlist.now.storages id) ≡ bits)) }
{
    match netlist.storage(id) {
        Some(
            Storage::Register {
                width,
                when: None,
                ..
            },
        ) if *width <= COUNTER_BITS => Some(*width),
        _ => None,
    }
}

// Whether so many bits reach each place of this many, of which there is one at least.
fn is_reached(size: u32, bits: u8) -> bool
    requires low { 1 ≤ bits }
    requires high { bits ≤ 64 }
    ensures { IsTrue result ↔ IsAddressed size bits }
{
    size >= LEAST_SIZE && u64::from(size - LEAST_SIZE) <= mask(bits)
}

// Whether the program counter reaches all words and an address reaches all cells.
fn are_reached(words: u32, bits: u8, memory: CellMeasures) -> bool
    requires low { 1 ≤ bits }
    requires high { bits ≤ 64 }
    requires addr_low { 1 ≤ memory.addr_width }
    requires addr_high { memory.addr_width ≤ 64 }
    ensures { IsTrue result ↔ (IsAddressed words bits × IsAddressed memory.size memory.addr_width) }
{
    is_reached(words, bits) && is_reached(memory.size, memory.addr_width)
}

// Whether the netlist has as many files as its edition has, and an address reaches all cells.
fn has_files(netlist: &Netlist) -> bool
    requires { IsWellFormed netlist.now }
    ensures { IsTrue result ↔ HasFiles netlist.now }
{
    let storages = netlist.storages.as_slice();
    if count_files(storages) != files_of(netlist.edition) {
        return false;
    }
    match file_shape(storages) {
        Some(shape) => is_reached(shape.size, shape.addr_width),
        None => true,
    }
}

// Whether the netlist has the file of its edition; a bank is none.
fn has_file(netlist: &Netlist) -> bool
    requires { IsWellFormed netlist.now }
    ensures { IsTrue result ↔ HasFile netlist.now }
{
    is_banked(netlist.edition) || has_files(netlist)
}

// Whether so many bits reach just this many places.
fn is_full(size: u32, bits: u8) -> bool
    requires low { 1 ≤ bits }
    requires high { bits ≤ 64 }
    ensures { IsTrue result ↔ (size ≡ 2 ^ bits) }
{
    size >= LEAST_SIZE && u64::from(size - LEAST_SIZE) == mask(bits)
}

// Whether the cells of both are as wide, and named by as many bits.
fn are_alike(bank: CellMeasures, memory: CellMeasures) -> bool
    ensures { IsTrue result ↔ AreAlike bank memory }
{
    bank.width == memory.width && bank.addr_width == memory.addr_width
}

// Whether a cell has room for an address of both memories, and for a sign.
fn has_room(memory: CellMeasures) -> bool
    ensures { IsTrue result ↔ HasRoom memory }
{
    memory.addr_width <= BANKED_ADDR_BITS && memory.addr_width + BANKED_ROOM <= memory.width
}

// Whether a bank of these measures may stand beside the memory.
fn is_beside(bank: CellMeasures, memory: CellMeasures) -> bool
    requires low { 1 ≤ memory.addr_width }
    requires high { memory.addr_width ≤ 64 }
    ensures { IsTrue result ↔ IsShapedBeside bank memory }
{
    if !are_alike(bank, memory) || !has_room(memory) {
        return false;
    }
    is_reached(bank.size, memory.addr_width) && is_full(memory.size, memory.addr_width)
}

// Whether the only file is the bank, and stands so beside the memory.
fn has_bank_beside(netlist: &Netlist, memory: CellMeasures) -> bool
    requires formed { IsWellFormed netlist.now }
    requires memory { IsShape netlist.now.storages memory }
    ensures { IsTrue result ↔ HasBankBeside netlist.now.storages netlist.now.special }
{
    let storages = netlist.storages.as_slice();
    if netlist.special.is_none() || count_files(storages) != 1 {
        return false;
    }
    match file_shape(storages) {
        Some(bank) => is_beside(bank, memory),
        None => false,
    }
}

// Whether the netlist has a bank, where its edition has one.
fn has_bank(netlist: &Netlist, memory: CellMeasures) -> bool
    requires formed { IsWellFormed netlist.now }
    requires memory { IsShape netlist.now.storages memory }
    ensures { IsTrue result ↔ HasBank netlist.now }
{
    !is_banked(netlist.edition) || has_bank_beside(netlist, memory)
}

// The first part that the netlist lacks.
pub(crate) fn lacking_role(netlist: &Netlist) -> Option<Role>
    requires { IsWellFormed netlist.now }
    ensures { MatchOption result (HasRoles netlist.now) (LacksRole netlist.now) }
{
    let [code] = netlist.codes.as_slice() else {
        return Some(Role::Code);
    };
    let Some(memory) = lone_memory(netlist.storages.as_slice()) else {
        return Some(Role::Memory);
    };
    let Some(bits) = counter_bits(netlist, code.counter) else {
        return Some(Role::Pc);
    };
    if !are_reached(code.words, bits, memory) {
        return Some(Role::Size);
    }
    if memory.addr_width > memory.width {
        return Some(Role::Addr);
    }
    if !has_file(netlist) {
        return Some(Role::File);
    }
    if !has_mode(netlist) {
        return Some(Role::Mode);
    }
    if !has_bank(netlist, memory) {
        return Some(Role::Bank);
    }
    None
}

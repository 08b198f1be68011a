// The nets as a list of instructions over one array of numbers, and a run of them.

ghost use Rattle.std.specs.Prelude.{◌≡◌, ◌%◌, ◌^◌, ◌<◌, ◌≤◌, length, slice_index, slice_index_or};
ghost use Rattle.rec_bits.specs.Operators.{apply1_of, apply2_of, sext_of};
ghost use Rattle.cycle_sim.specs.Inner.Operations.{AreReady, AreWithin, HasOperands, filled, inlet_value, operation_value, run_of};

use crate::values::{bus_of, case_of, number_at, value_at};
use net_model::{Space, State};
use rec_bits::{Items, Op1, Op2, apply1, apply2, mask, sext};

/// A place past the end of each array: 0 is read there.
pub(crate) const NOWHERE: u32 = 4_294_967_295;

/// What gives a place its number at a clock. Operands are places, and a mask has a 1 for each bit
/// of the result.
#[derive(Drop)]
pub(crate) enum Operation {
    /// The cell at an address, of the data memory or of the register file.
    Recall(Space, u32),
    Sum {
        a: u32,
        b: u32,
        mask: u64,
    },
    Difference {
        a: u32,
        b: u32,
        mask: u64,
    },
    Product {
        a: u32,
        b: u32,
        mask: u64,
    },
    Conjunction(u32, u32),
    Disjunction(u32, u32),
    Exclusion(u32, u32),
    Sameness(u32, u32),
    Below(u32, u32),
    /// An operator of one operand.
    Unary {
        op: Op1,
        width: u8,
        a: u32,
    },
    /// Another operator of two operands, by the operands' width.
    Binary {
        op: Op2,
        width: u8,
        a: u32,
        b: u32,
    },
    /// Some bits of a number, the lowest of them at `lowest`.
    Field {
        of: u32,
        lowest: u8,
        mask: u64,
    },
    /// A number above the `low_width` bits of another.
    Pair {
        high: u32,
        low: u32,
        low_width: u8,
    },
    /// A number of `from` bits with copies of its top bit up to `to` bits.
    Extension {
        a: u32,
        from: u8,
        to: u8,
    },
    /// The number at the place that the table has for the key.
    Table {
        key: u32,
        places: Items<u32>,
    },
    /// The number at the place of the row with the key, or of the rest.
    Search {
        key: u32,
        rows: Items<(u64, u32)>,
        rest: Option<u32>,
    },
    /// The number of the first driver whose enable is 1; pairs of a number's place and its
    /// enable's.
    Drive(Items<(u32, u32)>),
}

/// An operation, and the place that takes its number.
#[derive(Drop)]
pub(crate) struct Instruction {
    pub place: u32,
    pub operation: Operation,
}

/// A place that takes its number before the instructions run.
#[derive(Clone, Copy)]
pub(crate) struct Inlet {
    pub place: u32,
    /// The storage whose state it takes; without one it takes the instruction word.
    pub storage: Option<u32>,
}

/// The place that a list has at an index.
pub(crate) fn place_at(places: &[u32], index: u64) -> u32
    ensures { result ≡ slice_index_or places.now index 4294967295 }
{
    match places.get(index as usize) {
        Some(place) => *place,
        None => NOWHERE,
    }
}

// The low bits of a number.
#[tactic(auto, using(rec_bits::proofs::Masks::masks))]
fn low_bits(width: u8, number: u64) -> u64
    requires low { 1 ≤ width }
    requires high { width ≤ 64 }
    ensures { result ≡ number % 2 ^ width }
{
    number & mask(width)
}

// The number at an operand's place.
fn operand(values: &[u64], place: u32) -> u64
    requires { place < length values.now }
    ensures { result ≡ slice_index values.now place }
{
    values[place as usize]
}

// The number that an operation gives.
fn operate(operation: &Operation, state: &State, values: &[u64]) -> u64
    requires { HasOperands (length values.now) operation.now }
    ensures { result ≡ operation_value (slice_index values.now) state.now operation.now }
{
    match operation {
        Operation::Recall(space, addr) => {
            number_at(state.cells_in(*space).as_slice(), operand(values, *addr))
        }
        Operation::Sum { a, b, mask } => {
            operand(values, *a).wrapping_add(operand(values, *b)) & *mask
        }
        Operation::Difference { a, b, mask } => {
            operand(values, *a).wrapping_sub(operand(values, *b)) & *mask
        }
        Operation::Product { a, b, mask } => {
            operand(values, *a).wrapping_mul(operand(values, *b)) & *mask
        }
        Operation::Conjunction(a, b) => operand(values, *a) & operand(values, *b),
        Operation::Disjunction(a, b) => operand(values, *a) | operand(values, *b),
        Operation::Exclusion(a, b) => operand(values, *a) ^ operand(values, *b),
        Operation::Sameness(a, b) => u64::from(operand(values, *a) == operand(values, *b)),
        Operation::Below(a, b) => u64::from(operand(values, *a) < operand(values, *b)),
        Operation::Unary { op, width, a } => unary(*op, *width, operand(values, *a)),
        Operation::Binary { op, width, a, b } => {
            binary(*op, *width, operand(values, *a), operand(values, *b))
        }
        Operation::Field { of, lowest, mask } => (operand(values, *of) >> *lowest) & *mask,
        Operation::Pair {
            high,
            low,
            low_width,
        } => (operand(values, *high) << *low_width).wrapping_add(operand(values, *low)),
        Operation::Extension { a, from, to } => extension(operand(values, *a), *from, *to),
        Operation::Table { key, places } => {
            value_at(values, place_at(places.as_slice(), operand(values, *key)))
        }
        Operation::Search { key, rows, rest } => {
            case_of(values, operand(values, *key), rows.as_slice(), *rest)
        }
        Operation::Drive(drivers) => bus_of(values, drivers.as_slice()),
    }
}

#[inline(never)]
fn unary(op: Op1, width: u8, a: u64) -> u64
    requires low { 1 ≤ width }
    requires high { width ≤ 64 }
    ensures { result ≡ apply1_of op width (a % 2 ^ width) }
{
    apply1(op, width, low_bits(width, a))
}

#[inline(never)]
fn binary(op: Op2, width: u8, a: u64, b: u64) -> u64
    requires low { 1 ≤ width }
    requires high { width ≤ 64 }
    ensures { result ≡ apply2_of op width (a % 2 ^ width) (b % 2 ^ width) }
{
    apply2(op, width, low_bits(width, a), low_bits(width, b))
}

#[inline(never)]
fn extension(a: u64, from: u8, to: u8) -> u64
    requires low { 1 ≤ from }
    requires order { from ≤ to }
    requires high { to ≤ 64 }
    ensures { result ≡ sext_of (a % 2 ^ from) from to }
{
    sext(low_bits(from, a), from, to)
}

fn inlet_value(regs: &[u64], word: u64, storage: Option<u32>) -> u64
    ensures { result ≡ inlet_value regs.now word storage }
{
    match storage {
        Some(id) => value_at(regs, id),
        None => word,
    }
}

/// Gives the inlets their numbers.
pub(crate) fn fill(inlets: &[Inlet], regs: &[u64], word: u64, values: &mut [u64])
    requires { AreWithin (length values.old) inlets.now }
    ensures { values.new ≡ filled regs.now word inlets.now values.old }
{
    for inlet in inlets {
        values[inlet.place as usize] = inlet_value(regs, word, inlet.storage);
    }
}

/// Runs the instructions in their order.
// its few values stay in registers where it is a function of its own
#[inline(never)]
pub(crate) fn run(instructions: &[Instruction], state: &State, values: &mut [u64])
    requires { AreReady (length values.old) instructions.now }
    ensures { values.new ≡ run_of state.now instructions.now values.old }
{
    let mut rest = instructions;
    while let Some((instruction, others)) = rest.split_first() {
        let number = operate(&instruction.operation, state, values);
        values[instruction.place as usize] = number;
        rest = others;
    }
}

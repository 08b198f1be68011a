//! The bits of a gate's value, from those of the nets that the gate names.

ghost use Rattle.std.specs.Prelude.{◌≡◌, ℕ, ◌-◌, ◌+◌, ◌<◌, ◌≤◌, ◌^◌, ◌==◌, if◌then◌else◌, true, [], length, take, drop, slice_get, IfOk};
ghost use Rattle.std.specs.List.{AllByRecursion};
ghost use Rattle.rec_bits.specs.Operators.{apply2_of, result_width};
ghost use Rattle.net_model.specs.CheckedRules.{is_control_gate};
ghost use Rattle.net_model.specs.Nets.{code_bits, gate_nets, width_at};
ghost use Rattle.net_model.specs.Value.{case_value};
ghost use Rattle.net_model.specs.Widths.{GateFits, IsTyped};
ghost use Rattle.bit_bdd.specs.Diagrams.{Extends};
ghost use Rattle.ctl_bdd.specs.Bits.{AreSets, number_at};
ghost use Rattle.net_model.specs.Flags.{is_control_pair};
ghost use Rattle.ctl_bdd.specs.Tables.{AreGateBits, IsBitTable, numbers_at, sets_at};
ghost use Rattle.ctl_bdd.specs.Inner.Tables.{HasRows, HasRest};

use crate::bits::{
    Pairing, choice_bits, constant_bits, constant_set, equal_set, equals, extend, join, not_bits,
    pair_bits, word_bits,
};
use bit_bdd::{Book, SetId};
use net_model::{Gate, Net, Netlist};
use rec_bits::{Items, NoMemory, Op2};
use std::alloc::Global;

// The sets of a net's bits.
pub(crate) fn sets_of(table: &[Items<SetId>], net: u32) -> &[SetId]
    ensures { result.now ≡ sets_at table.now net }
{
    match table.get(net as usize) {
        Some(sets) => sets.as_slice(),
        None => &[],
    }
}

// The bits of an operator of two operands.
fn operator_bits(
    alloc: Global,
    book: &mut Book,
    op: Op2,
    a: &[SetId],
    b: &[SetId],
) -> Result<Items<SetId>, NoMemory>
    requires control { is_control_pair op ≡ true }
    requires a { AreSets book.old a.now }
    requires b { AreSets book.old b.now }
    requires long { length a.now ≡ length b.now }
    ensures grows { Extends book.old book.new }
    ensures sets { IfOk result (λ out. AreSets book.new out) }
    ensures long { IfOk result (λ out. length out ≡ result_width op (length a.now)) }
    ensures number { IfOk result (λ out. (word : ℕ) →
        number_at book.new out word ≡
        apply2_of op (length a.now) (number_at book.old a.now word) (number_at book.old b.now word)) }
{
    match op {
        Op2::And => {
            let out = pair_bits(alloc, book, Pairing::And, a, b)?;
            Ok(out)
        }
        Op2::Or => {
            let out = pair_bits(alloc, book, Pairing::Or, a, b)?;
            Ok(out)
        }
        Op2::Xor => {
            let out = pair_bits(alloc, book, Pairing::Xor, a, b)?;
            Ok(out)
        }
        Op2::Eq => {
            let set = equal_set(alloc, book, a, b)?;
            let out = Items::from_slice(alloc, &[set])?;
            Ok(out)
        }
        _ => unreachable!(),
    }
}

// The bits from `hi` down to `lo`.
fn slice_bits(alloc: Global, sets: &[SetId], hi: u8, lo: u8) -> Result<Items<SetId>, NoMemory>
    requires order { lo ≤ hi }
    requires within { hi < length sets.now }
    ensures { IfOk result (λ out. out ≡ take (hi + 1 - lo) (drop lo sets.now)) }
{
    Items::from_slice(alloc, &sets[usize::from(lo)..usize::from(hi) + 1])
}

// The bits of a row, for the words at which the selector has its number, and other bits for all
// others.
fn row_bits(
    alloc: Global,
    book: &mut Book,
    sel: &[SetId],
    key: u64,
    on: &[SetId],
    off: &[SetId],
) -> Result<Items<SetId>, NoMemory>
    requires sel { AreSets book.old sel.now }
    requires few { length sel.now ≤ 64 }
    requires key { key < 2 ^ length sel.now }
    requires on { AreSets book.old on.now }
    requires off { AreSets book.old off.now }
    requires long { length on.now ≡ length off.now }
    ensures grows { Extends book.old book.new }
    ensures sets { IfOk result (λ out. AreSets book.new out) }
    ensures long { IfOk result (λ out. length out ≡ length on.now) }
    ensures number { IfOk result (λ out. (word : ℕ) →
        number_at book.new out word ≡
        (if key == number_at book.old sel.now word then number_at book.old on.now word
        else number_at book.old off.now word)) }
{
    let test = equals(alloc, book, sel, key)?;
    let out = choice_bits(alloc, book, test, on, off)?;
    Ok(out)
}

// What a case gives where no row has the selector's number.
fn rest_bits(
    alloc: Global,
    book: &Book,
    table: &[Items<SetId>],
    rest: Option<u32>,
    width: u8,
) -> Result<Items<SetId>, NoMemory>
    requires high { width ≤ 64 }
    requires table { IsBitTable book.now table.now }
    requires rest { HasRest table.now width rest }
    ensures sets { IfOk result (λ out. AreSets book.now out) }
    ensures long { IfOk result (λ out. length out ≡ width) }
    ensures number { IfOk result (λ out. (key word : ℕ) →
        number_at book.now out word ≡ case_value (numbers_at book.now table.now word) key [] rest) }
{
    match rest {
        Some(net) => {
            let out = Items::from_slice(alloc, sets_of(table, net))?;
            Ok(out)
        }
        None => {
            let out = constant_bits(alloc, book, 0, width)?;
            Ok(out)
        }
    }
}

// The rows of a case.
#[derive(Drop)]
struct CaseRows<'a> {
    // The net for each number of the selector.
    rows: &'a [(u64, u32)],
    // The net for all other numbers; the constant 0 where there is none.
    rest: Option<u32>,
    // The width of the nets.
    width: u8,
}

// The bits of a case with a selector of these bits, from the last row to the first.
fn case_bits(
    alloc: Global,
    book: &mut Book,
    table: &[Items<SetId>],
    sel: &[SetId],
    case: &CaseRows,
) -> Result<Items<SetId>, NoMemory>
    requires high { case.now.width ≤ 64 }
    requires table { IsBitTable book.old table.now }
    requires sel { AreSets book.old sel.now }
    requires few { length sel.now ≤ 64 }
    requires rows { HasRows table.now (length sel.now) case.now.width case.now.rows.now }
    requires rest { HasRest table.now case.now.width case.now.rest }
    ensures grows { Extends book.old book.new }
    ensures sets { IfOk result (λ out. AreSets book.new out) }
    ensures long { IfOk result (λ out. length out ≡ case.now.width) }
    ensures number { IfOk result (λ out. (word : ℕ) →
        number_at book.new out word ≡
        case_value (numbers_at book.old table.now word) (number_at book.old sel.now word)
        case.now.rows.now case.now.rest) }
{
    let mut out = rest_bits(alloc, book, table, case.rest, case.width)?;
    let mut left = case.rows.len();
    while left > 0 {
        left -= 1;
        let (key, net) = case.rows[left];
        out = row_bits(alloc, book, sel, key, sets_of(table, net), out.as_slice())?;
    }
    Ok(out)
}

// The bits of a gate's value, where control may use the gate and the nets that it names have
// theirs.
pub(crate) fn gate_bits(
    alloc: Global,
    netlist: &Netlist,
    book: &mut Book,
    table: &[Items<SetId>],
    net: &Net,
) -> Result<Items<SetId>, NoMemory>
    requires typed { IsTyped netlist.now }
    requires code { length netlist.now.codes ≡ 1 }
    requires word { book.old.bits ≡ code_bits (slice_get netlist.now.codes 0) }
    requires table { IsBitTable book.old table.now }
    requires low { 1 ≤ net.now.width }
    requires high { net.now.width ≤ 64 }
    requires gate { GateFits netlist.now net.now.width net.now.gate }
    requires control { is_control_gate net.now.gate ≡ true }
    requires named { AllByRecursion (λ n. length (sets_at table.now n) ≡ width_at netlist.now n)
        (gate_nets net.now.gate) }
    ensures grows { Extends book.old book.new }
    ensures bits { IfOk result (AreGateBits netlist.now book.old book.new table.now net.now.width net.now.gate) }
{
    match &net.gate {
        Gate::Word(_) => {
            let out = word_bits(alloc, book, net.width)?;
            Ok(out)
        }
        Gate::Const(value) => {
            let out = constant_bits(alloc, book, *value, net.width)?;
            Ok(out)
        }
        Gate::Wire(a) => {
            let out = Items::from_slice(alloc, sets_of(table, *a))?;
            Ok(out)
        }
        // control has no other operator of one operand
        Gate::Un(_, a) => {
            let out = not_bits(alloc, book, sets_of(table, *a))?;
            Ok(out)
        }
        Gate::Bin(op, a, b) => {
            let out = operator_bits(alloc, book, *op, sets_of(table, *a), sets_of(table, *b))?;
            Ok(out)
        }
        Gate::Slice { of, hi, lo } => {
            let out = slice_bits(alloc, sets_of(table, *of), *hi, *lo)?;
            Ok(out)
        }
        Gate::Cat(a, b) => {
            let out = join(alloc, sets_of(table, *b), sets_of(table, *a))?;
            Ok(out)
        }
        Gate::Zext(a) => {
            let none = constant_set(book, false);
            let out = extend(alloc, sets_of(table, *a), none, net.width)?;
            Ok(out)
        }
        Gate::Sext(a) => {
            let sets = sets_of(table, *a);
            let out = extend(alloc, sets, sets[sets.len() - 1], net.width)?;
            Ok(out)
        }
        Gate::Case { sel, rows, rest } => {
            let sets = sets_of(table, *sel);
            let case = CaseRows {
                rows: rows.as_slice(),
                rest: *rest,
                width: net.width,
            };
            let out = case_bits(alloc, book, table, sets, &case)?;
            Ok(out)
        }
        Gate::Reg(_) | Gate::Read { .. } | Gate::Bus(_) => unreachable!(),
    }
}

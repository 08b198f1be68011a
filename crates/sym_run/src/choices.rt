//! Values that are one or another by a bit, and values of two parts.

ghost use Rattle.std.specs.Prelude.{◌≡◌, ◌+◌, ◌<◌, ◌≤◌, ◌^◌, IfOk, IfSome};
ghost use Rattle.sym_run.specs.Inner.Passed.{IsChosen};
ghost use Rattle.sym_run.specs.Inner.Parts.{IsJoined};
ghost use Rattle.tree_laws.specs.Classes.{Grows, width_in};

use class_values::{Fact, binary, number, zero_extended};
use rec_bits::{NoMemory, Op2};
use tree_laws::Classes;

/// The class of `value` where the bit is 1, and of `old` where it is 0: `old + bit * (value - old)`.
pub(crate) fn chosen(
    table: &mut Classes,
    facts: &[Fact],
    bit: u64,
    width: u8,
    value: u64,
    old: u64,
) -> Result<Option<u64>, NoMemory>
    ensures grows { Grows table.old table.new }
    ensures is { IfOk result (λ found. IfSome found (IsChosen table.old table.new facts.now bit width value old)) }
{
    let Some(factor) = zero_extended(table, facts, bit, width)? else {
        return Ok(None);
    };
    let Some(change) = binary(table, facts, Op2::Sub, value, old)? else {
        return Ok(None);
    };
    let Some(part) = binary(table, facts, Op2::Mul, factor, change)? else {
        return Ok(None);
    };
    binary(table, facts, Op2::Add, old, part)
}

/// The class of `first` where the bit is 1, and of `second`, which is as wide, where it is 0.
pub(crate) fn either(
    table: &mut Classes,
    facts: &[Fact],
    bit: u64,
    first: u64,
    second: u64,
) -> Result<Option<u64>, NoMemory>
    ensures grows { Grows table.old table.new }
    ensures is { IfOk result (λ found. IfSome found (IsChosen table.old table.new facts.now bit (width_in table.old first) first second)) }
{
    let Some(width) = table.width(first) else {
        return Ok(None);
    };
    chosen(table, facts, bit, width, first, second)
}

// The width of two values side by side, where a word has room for it.
fn joined_width(high: u8, low: u8) -> Option<u8>
    ensures sum { IfSome result (λ width. width ≡ high + low) }
    ensures room { IfSome result (λ width. low < width) }
    ensures most { IfSome result (λ width. width ≤ 64) }
{
    let width = high.checked_add(low)?;
    if low < width && width <= 64 {
        Some(width)
    } else {
        None
    }
}

// 2 to a number of bits.
fn power(bits: u8) -> u64
    requires { bits < 64 }
    ensures { result ≡ 2 ^ bits }
{
    1 << bits
}

/// The class of a value above the bits of another one: `high * 2^bits + low`.
pub(crate) fn joined(
    table: &mut Classes,
    facts: &[Fact],
    high: u64,
    low: u64,
) -> Result<Option<u64>, NoMemory>
    ensures grows { Grows table.old table.new }
    ensures is { IfOk result (λ found. IfSome found (IsJoined table.old table.new facts.now high low)) }
{
    let Some(bits) = table.width(low) else {
        return Ok(None);
    };
    let Some(above) = table.width(high) else {
        return Ok(None);
    };
    let Some(width) = joined_width(above, bits) else {
        return Ok(None);
    };
    let Some(factor) = number(table, width, power(bits))? else {
        return Ok(None);
    };
    let Some(upper) = zero_extended(table, facts, high, width)? else {
        return Ok(None);
    };
    let Some(lower) = zero_extended(table, facts, low, width)? else {
        return Ok(None);
    };
    let Some(raised) = binary(table, facts, Op2::Mul, upper, factor)? else {
        return Ok(None);
    };
    binary(table, facts, Op2::Add, raised, lower)
}

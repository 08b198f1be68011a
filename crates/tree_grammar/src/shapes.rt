//! Field shapes: which numbers they show, and under which bits of the word.

ghost use Rattle.std.specs.Prelude.{◌≡◌, ◌+◌, ◌-◌, ◌*◌, ◌%◌, ◌^◌, ◌<◌, ◌≤◌, ◌==◌, ◌&&◌, nat_lt, is_some, true, Some, IfOk, IfSome};
ghost use Rattle.std.specs.Bool.{OnTrue};
ghost use Rattle.std.specs.Option.{option_map};
ghost use Rattle.rec_bits.specs.Operators.{sext_of};
ghost use Rattle.net_model.specs.Exprs.{model_of_expr, expr_width};
ghost use Rattle.form_model.specs.Shapes.{field_setting, is_field, is_plain, is_shape, less_by as less_by_of, plain_setting, shape_setting, shows, shows_below, sum_of as sum_of_terms, sum_setting, sum_with as sum_with_of, summands as summands_of};
ghost use Rattle.tree_grammar.specs.Inner.Settings.{IsSmall, IsSteady, extension_setting, is_word, sum_at};

use crate::sizes::{expr_width, slice_width};
use net_model::Expr;
use rec_bits::{NoMemory, Op2, mask, sext, slice};

// ---- what is a field shape

// Whether the expression is the instruction word.
fn is_whole_word(e: &Expr) -> bool
    ensures { result ≡ is_word (model_of_expr e.now) }
{
    match e {
        Expr::Word(_) => true,
        _ => false,
    }
}

// Whether the expression is the instruction word, or a slice of it.
fn is_field_of_word(e: &Expr) -> bool
    ensures { result ≡ is_field (model_of_expr e.now) }
{
    match e {
        Expr::Word(_) => true,
        Expr::Slice(a, _, _) => is_whole_word(a),
        _ => false,
    }
}

// Whether the expression is the instruction word, a slice of it, a zext or sext of one of these, or
// a constant.
fn is_plain_shape(e: &Expr) -> bool
    ensures { result ≡ is_plain (model_of_expr e.now) }
{
    match e {
        Expr::Const { .. } => true,
        Expr::Zext(a, _) => is_field_of_word(a),
        Expr::Sext(a, _) => is_field_of_word(a),
        _ => is_field_of_word(e),
    }
}

/// Whether the expression is a field shape: the instruction word, a slice of it, a zext or sext of
/// one of these, a constant, or the sum of a constant and one of these.
pub fn is_field_shape(e: &Expr) -> bool
    ensures { result ≡ is_shape (model_of_expr e.now) }
{
    match e {
        Expr::Bin(op, a, b) => match sum_of(*op, a, b) {
            Some(sum) => is_plain_shape(sum.to),
            None => false,
        },
        _ => is_plain_shape(e),
    }
}

// ---- sums

// A constant, with its width in bits, and what it is added to.
#[derive(Clone, Copy)]
struct Sum<'a> {
    width: u8,
    added: u64,
    to: &'a Expr,
}

// The constant of this width with what it is added to, where it is of its width and the other as
// wide.
fn sum_with<'a>(width: u8, added: u64, to: &'a Expr) -> Option<Sum<'a>>
    ensures is { option_map sum_at result ≡ sum_with_of width added (model_of_expr to.now) }
    ensures small { IfSome result IsSmall }
{
    if width <= 64 && is_within(added, u64::from(width)) && expr_width(to) == u64::from(width) {
        Some(Sum { width, added, to })
    } else {
        None
    }
}

// The two expressions as a sum, where one of them is a constant.
fn summands<'a>(a: &'a Expr, b: &'a Expr) -> Option<Sum<'a>>
    ensures is { option_map sum_at result ≡ summands_of (model_of_expr a.now) (model_of_expr b.now) }
    ensures small { IfSome result IsSmall }
{
    match a {
        Expr::Const { width, value } => sum_with(*width, *value, b),
        _ => match b {
            Expr::Const { width, value } => sum_with(*width, *value, a),
            _ => None,
        },
    }
}

// The sum that an operator with its operands is.
fn sum_of<'a>(op: Op2, a: &'a Expr, b: &'a Expr) -> Option<Sum<'a>>
    ensures is { option_map sum_at result ≡ sum_of_terms op (model_of_expr a.now) (model_of_expr b.now) }
    ensures small { IfSome result IsSmall }
{
    match op {
        Op2::Add => summands(a, b),
        _ => None,
    }
}

// The number to which the constant is added to give this value.
fn less_by(sum: Sum, value: u64) -> u64
    requires small { IsSmall sum }
    requires within { value < 2 ^ sum.width }
    ensures { result ≡ less_by_of sum.entry.width value sum.entry.added }
{
    if sum.added <= value {
        value - sum.added
    } else {
        mask(sum.width) - (sum.added - value - 1)
    }
}

// ---- which numbers a shape shows

// Whether a number has at most so many bits.
fn is_within(value: u64, width: u64) -> bool
    ensures { result ≡ nat_lt value (2 ^ width) }
{
    if width == 0 {
        value == 0
    } else if width < 64 {
        value <= mask(width as u8)
    } else {
        true
    }
}

/// The low bits of a number, so many.
pub fn low_bits(value: u64, width: u64) -> u64
    ensures { result ≡ value % 2 ^ width }
{
    if width == 0 {
        0
    } else if width < 64 {
        slice(value, width as u8 - 1, 0)
    } else {
        value
    }
}

// Whether a number is its own low `from` bits with copies of their top bit up to `to` bits.
fn is_extension(value: u64, from: u64, to: u8) -> bool
    ensures { result ≡ (sext_of (value % 2 ^ from) from to == value) }
{
    if from == 0 {
        return value == 0;
    }
    if u64::from(to) < from {
        return is_within(value, from);
    }
    if to > 64 {
        return is_within(value, from - 1);
    }
    sext(low_bits(value, from), from as u8, to) == value
}

// Whether some word gives the field this value.
fn field_shows(field: &Expr, value: u64) -> bool
    ensures { result ≡ is_some (field_setting (model_of_expr field.now) value) }
{
    match field {
        Expr::Word(width) => is_within(value, u64::from(*width)),
        Expr::Slice(a, hi, lo) => is_whole_word(a) && is_within(value, slice_width(*hi, *lo)),
        _ => false,
    }
}

// Whether some word gives the field, with copies of its top bit, this value.
fn extension_shows(field: &Expr, to: u8, value: u64) -> bool
    ensures { result ≡ is_some (extension_setting (model_of_expr field.now) to value) }
{
    match field {
        Expr::Word(width) => is_extension(value, u64::from(*width), to),
        Expr::Slice(a, hi, lo) => is_whole_word(a)
            && is_extension(value, slice_width(*hi, *lo), to),
        _ => false,
    }
}

// Whether some word gives the constant, or the field as it is extended, this value.
fn plain_shows(shape: &Expr, value: u64) -> bool
    ensures { result ≡ is_some (plain_setting (model_of_expr shape.now) value) }
{
    match shape {
        Expr::Const { value: c, .. } => *c == value,
        Expr::Zext(a, _) => field_shows(a, value),
        Expr::Sext(a, width) => extension_shows(a, *width, value),
        _ => field_shows(shape, value),
    }
}

// Whether some word gives the sum this value.
fn sum_shows(sum: Sum, value: u64) -> bool
    requires { IsSmall sum }
    ensures { result ≡ is_some (sum_setting (Some (sum_at sum.entry)) value) }
{
    is_within(value, u64::from(sum.width)) && plain_shows(sum.to, less_by(sum, value))
}

// Whether some word gives the field shape this value.
fn shows_value(shape: &Expr, value: u64) -> bool
    ensures { result ≡ shows (model_of_expr shape.now) value }
{
    match shape {
        Expr::Bin(op, a, b) => match sum_of(*op, a, b) {
            Some(sum) => sum_shows(sum, value),
            None => false,
        },
        _ => plain_shows(shape, value),
    }
}

/// Whether the field shape takes the number of this width, in bits: it is as wide, and some word
/// gives it this value.
pub fn fits_field(shape: &Expr, width: u8, value: u64) -> bool
    ensures { result ≡ (is_shape (model_of_expr shape.now)
        && ((width == expr_width (model_of_expr shape.now)) && shows (model_of_expr shape.now) value)) }
{
    is_field_shape(shape) && u64::from(width) == expr_width(shape) && shows_value(shape, value)
}

// Whether the shape shows with a number all that are less.
fn is_steady(shape: &Expr) -> bool
    ensures { OnTrue result (IsSteady (model_of_expr shape.now)) }
{
    match shape {
        Expr::Word(_) => true,
        Expr::Slice(_, _, _) => true,
        Expr::Zext(_, _) => true,
        _ => false,
    }
}

/// Whether the field shape shows each number below this one.
pub fn shows_all(shape: &Expr, count: u32) -> bool
    ensures { result ≡ shows_below (model_of_expr shape.now) count }
{
    if count == 0 {
        return true;
    }
    if is_steady(shape) {
        return shows_value(shape, u64::from(count - 1));
    }
    shows_each(shape, count)
}

fn shows_each(shape: &Expr, count: u32) -> bool
    ensures { result ≡ shows_below (model_of_expr shape.now) count }
{
    for value in 0..count {
        if !shows_value(shape, u64::from(value)) {
            return false;
        }
    }
    true
}

// ---- the bits of the word

// The product with a power of 2. Want of memory where 64 bits don't hold it.
fn shifted(value: u64, places: u8) -> Result<u64, NoMemory>
    ensures { IfOk result (λ n. n ≡ value * 2 ^ places) }
{
    if places == 0 {
        return Ok(value);
    }
    if places >= 64 {
        return Err(NoMemory);
    }
    match value.checked_mul(mask(places) + 1) {
        Some(n) => Ok(n),
        None => Err(NoMemory),
    }
}

// The bits of the word, in their places, that give the field the low bits of this value, in the
// field's width.
fn field_bits(field: &Expr, value: u64) -> Result<u64, NoMemory>
    requires { is_field (model_of_expr field.now) ≡ true }
    ensures { IfOk result (λ bits.
        field_setting (model_of_expr field.now) (value % 2 ^ expr_width (model_of_expr field.now)) ≡ Some bits) }
{
    match field {
        Expr::Word(width) => Ok(low_bits(value, u64::from(*width))),
        Expr::Slice(_, hi, lo) => shifted(low_bits(value, slice_width(*hi, *lo)), *lo),
        _ => Ok(0),
    }
}

// The same for a constant, or a field as it is extended, that has the value under some word.
fn plain_bits(shape: &Expr, value: u64) -> Result<u64, NoMemory>
    requires { is_some (plain_setting (model_of_expr shape.now) value) ≡ true }
    ensures { IfOk result (λ bits. plain_setting (model_of_expr shape.now) value ≡ Some bits) }
{
    match shape {
        Expr::Zext(a, _) => field_bits(a, value),
        Expr::Sext(a, _) => field_bits(a, value),
        Expr::Word(_) => field_bits(shape, value),
        Expr::Slice(_, _, _) => field_bits(shape, value),
        _ => Ok(0),
    }
}

/// The bits of the word, in their places and 0 elsewhere, that give a field shape without a sum this
/// value, and none exactly where it doesn't show it or is a sum. A field that lies above bit 63 is
/// answered as want of memory.
pub fn plain_setting_of(shape: &Expr, value: u64) -> Result<Option<u64>, NoMemory>
    ensures { IfOk result (λ o. o ≡ plain_setting (model_of_expr shape.now) value) }
{
    if !plain_shows(shape, value) {
        return Ok(None);
    }
    let bits = plain_bits(shape, value)?;
    Ok(Some(bits))
}

// The bits of the word that give the sum this value, and none where it doesn't have it.
fn sum_setting_of(sum: Sum, value: u64) -> Result<Option<u64>, NoMemory>
    requires { IsSmall sum }
    ensures { IfOk result (λ o. o ≡ sum_setting (Some (sum_at sum.entry)) value) }
{
    if !is_within(value, u64::from(sum.width)) {
        return Ok(None);
    }
    plain_setting_of(sum.to, less_by(sum, value))
}

/// The bits of the word, in their places and 0 elsewhere, that give the field shape this value, and
/// none exactly where it doesn't show it. A word has at most 64 bits, so a field that lies above
/// bit 63 is answered as want of memory.
pub fn setting_of(shape: &Expr, value: u64) -> Result<Option<u64>, NoMemory>
    ensures { IfOk result (λ o. o ≡ shape_setting (model_of_expr shape.now) value) }
{
    match shape {
        Expr::Bin(op, a, b) => match sum_of(*op, a, b) {
            Some(sum) => sum_setting_of(sum, value),
            None => Ok(None),
        },
        _ => plain_setting_of(shape, value),
    }
}

//! What laws begin with: nodes of a table that forms ask for, beside those that are there.

ghost use Rattle.std.specs.Prelude.{◌≡◌};
ghost use Rattle.tree_laws.specs.Classes.{cell_bits};

use crate::survey::{Extension, Field, Shift, Survey};
use law_rounds::Kind;
use rec_bits::{NoMemory, Op2, mask};
use sym_expr::Node;
use tree_laws::Classes;

/// Lists a class's extensions that forms have, with their low bits.
pub(crate) fn at_class(table: &mut Classes, survey: &Survey, class: u64) -> Result<(), NoMemory>
    ensures { cell_bits table.new ≡ cell_bits table.old }
{
    for extension in survey.extensions() {
        extend(table, *extension, class)?;
    }
    Ok(())
}

/// Lists what a node of a class gives: an operator over wider operands, bits of a shifted value, or
/// a number as one that forms have.
pub(crate) fn at_node(
    table: &mut Classes,
    survey: &Survey,
    class: u64,
    node: Node,
) -> Result<(), NoMemory>
    ensures { cell_bits table.new ≡ cell_bits table.old }
{
    match node {
        Node::Bin(op, a, b) => {
            for widening in survey.widenings() {
                if widening.op == op {
                    widen(table, widening.by, class, Operator { op, a, b })?;
                }
            }
            Ok(())
        }
        Node::Slice(of, hi, lo) => shift_fields(table, survey, of, Field { hi, lo }),
        Node::Const { width, value } => divide(table, survey, width, value),
        _ => Ok(()),
    }
}

// An operator over two classes.
#[derive(Clone, Copy)]
struct Operator {
    op: Op2,
    a: u64,
    b: u64,
}

// Lists an operator over wider operands, with its low bits.
fn widen(table: &mut Classes, by: Extension, class: u64, operator: Operator) -> Result<(), NoMemory>
    ensures { cell_bits table.new ≡ cell_bits table.old }
{
    let Some(width) = table.width(class) else {
        return Ok(());
    };
    let (Some(x), Some(y)) = (
        extend(table, by, operator.a)?,
        extend(table, by, operator.b)?,
    ) else {
        return Ok(());
    };
    if let Some(whole) = table.add(Node::Bin(operator.op, x, y))? {
        list_low(table, whole, width)?;
    }
    Ok(())
}

// The class of an extension of a class, whose low bits are listed too.
fn extend(table: &mut Classes, by: Extension, class: u64) -> Result<Option<u64>, NoMemory>
    ensures { cell_bits table.new ≡ cell_bits table.old }
{
    let Some(width) = table.width(class) else {
        return Ok(None);
    };
    let node = if by.signed {
        Node::Sext(class, by.width)
    } else {
        Node::Zext(class, by.width)
    };
    let Some(wide) = table.add(node)? else {
        return Ok(None);
    };
    list_low(table, wide, width)?;
    Ok(Some(wide))
}

// Lists the low bits of a class.
fn list_low(table: &mut Classes, class: u64, width: u8) -> Result<(), NoMemory>
    ensures { cell_bits table.new ≡ cell_bits table.old }
{
    if let Some(top) = width.checked_sub(1) {
        table.add(Node::Slice(class, top, 0))?;
    }
    Ok(())
}

// ---- shifts

// Lists bits of a value as those that a form takes of the value shifted, by each shift of forms.
fn shift_fields(table: &mut Classes, survey: &Survey, of: u64, bits: Field) -> Result<(), NoMemory>
    ensures { cell_bits table.new ≡ cell_bits table.old }
{
    for field in survey.fields() {
        for shift in survey.shifts() {
            if let Some(distance) = distance(bits, *field, shift.op) {
                shift_to(table, *shift, of, bits, distance)?;
            }
        }
    }
    Ok(())
}

// How far the bits have to be shifted to stand where a field is.
fn distance(bits: Field, field: Field, op: Op2) -> Option<u8> {
    let (from, to) = match op {
        Op2::Shl => (bits, field),
        _ => (field, bits),
    };
    let distance = to.lo.checked_sub(from.lo)?;
    if distance == 0 || from.hi.checked_add(distance)? != to.hi {
        return None;
    }
    Some(distance)
}

// Lists the value shifted so far, at once or by single steps, with the bits after each step.
fn shift_to(
    table: &mut Classes,
    shift: Shift,
    of: u64,
    bits: Field,
    distance: u8,
) -> Result<(), NoMemory>
    ensures { cell_bits table.new ≡ cell_bits table.old }
{
    let (step, count) = if shift.shows(u64::from(distance)) {
        (distance, 1)
    } else {
        (1, distance)
    };
    let mut value = of;
    let mut place = bits;
    for _ in 0..count {
        let Some(next) = shifted(table, shift, value, step)? else {
            return Ok(());
        };
        let Some(moved) = moved(place, shift.op, step) else {
            return Ok(());
        };
        table.add(Node::Slice(next, moved.hi, moved.lo))?;
        value = next;
        place = moved;
    }
    Ok(())
}

// The bits behind a shift.
fn moved(bits: Field, op: Op2, step: u8) -> Option<Field> {
    match op {
        Op2::Shl => Some(Field {
            hi: bits.hi.checked_add(step)?,
            lo: bits.lo.checked_add(step)?,
        }),
        _ => Some(Field {
            hi: bits.hi.checked_sub(step)?,
            lo: bits.lo.checked_sub(step)?,
        }),
    }
}

// The class of a value shifted by so many places, where the form shifts so.
fn shifted(
    table: &mut Classes,
    shift: Shift,
    value: u64,
    places: u8,
) -> Result<Option<u64>, NoMemory>
    ensures { cell_bits table.new ≡ cell_bits table.old }
{
    if table.width(value) != Some(shift.width) || !shift.shows(u64::from(places)) {
        return Ok(None);
    }
    let number = Node::Const {
        width: shift.width,
        value: u64::from(places),
    };
    match table.add(number)? {
        Some(by) => table.add(Node::Bin(shift.op, value, by)),
        None => Ok(None),
    }
}

// ---- numbers

// Lists a number that no form has as one of several that forms have: as less than 0, as a shifted
// one, or as a sum.
fn divide(table: &mut Classes, survey: &Survey, width: u8, value: u64) -> Result<(), NoMemory>
    ensures { cell_bits table.new ≡ cell_bits table.old }
{
    if width < 2 || width > 64 || survey.shows(width, value) {
        return Ok(());
    }
    let negative = value.wrapping_neg() & mask(width);
    if survey.has(Kind::Bin(Op2::Sub)) && negative < value {
        list_pair(table, Op2::Sub, width, 0, negative)?;
    }
    for shift in survey.shifts() {
        if shift.op == Op2::Shl && shift.shows(1) && shift.width >= width {
            if value % 2 == 0 {
                list_pair(table, Op2::Shl, width, value / 2, 1)?;
            } else if survey.has(Kind::Bin(Op2::Add)) {
                list_pair(table, Op2::Add, width, value ^ 1, 1)?;
            }
        }
    }
    Ok(())
}

// Lists an operator over two numbers.
fn list_pair(table: &mut Classes, op: Op2, width: u8, left: u64, right: u64) -> Result<(), NoMemory>
    ensures { cell_bits table.new ≡ cell_bits table.old }
{
    let left = table.add(Node::Const { width, value: left })?;
    let right = table.add(Node::Const {
        width,
        value: right,
    })?;
    if let (Some(a), Some(b)) = (left, right) {
        table.add(Node::Bin(op, a, b))?;
    }
    Ok(())
}

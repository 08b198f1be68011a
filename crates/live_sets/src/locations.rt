//! Locations that steps write, as far as a step's setting settles them.

ghost use Rattle.std.specs.Prelude.{◌≡◌, ◌+◌, ◌%◌, ◌^◌, ◌<◌, ◌≤◌, true, false, length, IfSome, MatchOption};
ghost use Rattle.rec_bits.specs.Operators.{sext_of};
ghost use Rattle.net_model.specs.Meaning.{mean};
ghost use Rattle.net_model.specs.Symbolic.{no_state};
ghost use Rattle.sym_expr.specs.Pools.{expr_of_id};
ghost use Rattle.rec_bits.specs.declared.operator.Op2.TheVariants.{Add};
ghost use Rattle.net_model.specs.Exprs.{bin, expr_width};
ghost use Rattle.form_model.specs.Shapes.{is_field, is_plain, is_shape};
ghost use Rattle.form_model.specs.Effects.{may_see, location_at};
ghost use Rattle.live_sets.specs.Reading.{model_of_location};

use net_model::Space;
use rec_bits::{Op2, slice};
use sym_expr::{ExprId, Node, Pool};
use word_fit::same_space;

/// A location that a step writes.
#[derive(Clone, Copy, PartialEq, Eq)]
pub enum Location {
    /// The register of this number.
    Register(u32),
    /// The cell of this address, of the memory or of the file.
    Cell(Space, u128),
    /// Some cell of it.
    Cells(Space),
}

// Copies of the top bit above a value, which may be wider than it should be.
fn wide_sext(value: u64, from: u8, to: u8) -> u128
    requires low { 1 ≤ from }
    requires order { from ≤ to }
    requires high { to ≤ 64 }
    ensures { result ≡ sext_of value from to }
{
    if u128::from(value) >= 1u128 << (from - 1) {
        u128::from(value) + ((1u128 << to) - (1u128 << from))
    } else {
        u128::from(value)
    }
}

// The value of the instruction word or of a slice of it.
fn field_value(pool: &Pool, id: ExprId, setting: u64) -> Option<u64>
    requires { id < length pool.now }
    ensures { MatchOption result (is_field (expr_of_id pool.now id) ≡ false)
        (λ value. (is_field (expr_of_id pool.now id) ≡ true) × (mean (expr_of_id pool.now id) no_state setting ≡ value)) }
{
    match pool.node(id) {
        Node::Word(_) => Some(setting),
        Node::Slice(a, hi, lo) => match pool.node(a) {
            Node::Word(_) => Some(slice(setting, hi, lo)),
            _ => None,
        },
        _ => None,
    }
}

// The value of a field shape that is no sum.
fn plain_value(pool: &Pool, id: ExprId, setting: u64) -> Option<u128>
    requires { id < length pool.now }
    ensures value { MatchOption result (is_plain (expr_of_id pool.now id) ≡ false)
        (λ value. (is_plain (expr_of_id pool.now id) ≡ true) × (mean (expr_of_id pool.now id) no_state setting ≡ value)) }
    ensures small { IfSome result (λ value. value < 2 ^ 66) }
{
    match pool.node(id) {
        Node::Const { value, .. } => Some(u128::from(value)),
        Node::Zext(a, _) => match field_value(pool, a, setting) {
            Some(value) => Some(u128::from(value)),
            None => None,
        },
        Node::Sext(a, width) => match field_value(pool, a, setting) {
            Some(value) => Some(wide_sext(value, pool.width(a), width)),
            None => None,
        },
        _ => match field_value(pool, id, setting) {
            Some(value) => Some(u128::from(value)),
            None => None,
        },
    }
}

// The value of the sum of a constant and a field shape that is no sum, in so many bits.
fn sum_value(pool: &Pool, width: u8, added: u64, to: ExprId, setting: u64) -> Option<u128>
    requires within { to < length pool.now }
    requires high { width ≤ 64 }
    ensures { MatchOption result (is_plain (expr_of_id pool.now to) ≡ false)
        (λ value. (is_plain (expr_of_id pool.now to) ≡ true)
        × ((added + mean (expr_of_id pool.now to) no_state setting) % 2 ^ width ≡ value)) }
{
    match plain_value(pool, to, setting) {
        Some(value) => Some((u128::from(added) + value) % (1u128 << width)),
        None => None,
    }
}

// The value of the sum of two expressions, where it is a field shape.
fn added_value(pool: &Pool, a: ExprId, b: ExprId, setting: u64) -> Option<u128>
    requires first { a < length pool.now }
    requires second { b < length pool.now }
    requires width { expr_width (expr_of_id pool.now b) ≡ expr_width (expr_of_id pool.now a) }
    ensures { MatchOption result (is_shape (bin Add (expr_of_id pool.now a) (expr_of_id pool.now b)) ≡ false)
        (λ value. (is_shape (bin Add (expr_of_id pool.now a) (expr_of_id pool.now b)) ≡ true)
        × (mean (bin Add (expr_of_id pool.now a) (expr_of_id pool.now b)) no_state setting ≡ value)) }
{
    match (pool.node(a), pool.node(b)) {
        (Node::Const { width, value }, _) => sum_value(pool, width, value, b, setting),
        (_, Node::Const { width, value }) => sum_value(pool, width, value, a, setting),
        _ => None,
    }
}

// The value of a field shape.
fn shape_value(pool: &Pool, id: ExprId, setting: u64) -> Option<u128>
    requires { id < length pool.now }
    ensures { MatchOption result (is_shape (expr_of_id pool.now id) ≡ false)
        (λ value. (is_shape (expr_of_id pool.now id) ≡ true) × (mean (expr_of_id pool.now id) no_state setting ≡ value)) }
{
    match pool.node(id) {
        Node::Bin(Op2::Add, a, b) => added_value(pool, a, b, setting),
        _ => plain_value(pool, id, setting),
    }
}

// The cell of a space at an address, where a setting settles it.
pub(crate) fn cell_at(pool: &Pool, space: Space, addr: ExprId, setting: u64) -> Location
    requires { addr < length pool.now }
    ensures { model_of_location result ≡ location_at space setting (expr_of_id pool.now addr) }
{
    match shape_value(pool, addr, setting) {
        Some(value) => Location::Cell(space, value),
        None => Location::Cells(space),
    }
}

// Whether a read at the first location may see a write at the second.
pub(crate) fn may_see(read: Location, written: Location) -> bool
    ensures { result ≡ may_see (model_of_location read) (model_of_location written) }
{
    match (read, written) {
        (_, Location::Register(_)) => false,
        (Location::Register(_), _) => false,
        (Location::Cell(own, a), Location::Cell(other, b)) => same_space(own, other) && a == b,
        (Location::Cell(own, _), Location::Cells(other)) => same_space(own, other),
        (Location::Cells(own), Location::Cell(other, _)) => same_space(own, other),
        (Location::Cells(own), Location::Cells(other)) => same_space(own, other),
    }
}

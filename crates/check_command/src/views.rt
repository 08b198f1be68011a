//! The first view that isn't right: plain, modest, and the last of its variable and mark.

ghost use Rattle.std.specs.Prelude.{◌≡◌, ◌↔◌, ℕ, ◌^◌, ◌<◌, ◌≤◌, ◌==◌, ◌&&◌, IfNone, IfSome, IsTrue, MatchOption, Some, length, option_copied, slice_get};
ghost use Rattle.net_model.specs.Exprs.{expr_width, model_of_expr};
ghost use Rattle.net_model.specs.Nets.{memory_width};
ghost use Rattle.rec_bits.specs.Faults.{same_name};
ghost use Rattle.rec_bits.specs.Operators.{result_width};
ghost use Rattle.code_model.specs.Places.{label_at};
ghost use Rattle.code_model.specs.Views.{IsPlainView, is_literal, is_of_registers, place_named};
ghost use Rattle.followed.specs.Inner.Ascending.{ComeFrom};
ghost use Rattle.check_command.specs.Views.{AreViewsRight, IsLastAt, IsRightView, IsViewFault};
ghost use Rattle.check_command.specs.Inner.Ascending.{SayOf};
ghost use Rattle.check_command.specs.Inner.Marked.{is_test};

use crate::modest::is_modest;
use code_model::{Image, Mark, Place, View};
use follow::{label_at, marks_from};
use net_model::{Checked, Expr};
use rec_bits::{Name, Op2};

/// Whether two names are one.
pub fn same_name(name: &Name, other: &Name) -> bool
    ensures { result ≡ same_name name.now other.now }
{
    name.as_slice() == other.as_slice()
}

// Whether the first mark of an address is a test's.
fn is_test_at(marks: &[Mark], address: u32) -> bool
    ensures { result ≡ is_test (label_at marks.now address) }
{
    match label_at(marks, address) {
        Some(Some(_tree)) => true,
        Some(None) | None => false,
    }
}

// The place of a variable.
fn place_named<'a>(places: &'a [Place], name: &Name) -> Option<&'a Place>
    ensures { option_copied result ≡ place_named places.now name.now }
{
    let (place, rest) = places.split_first()?;
    if same_name(&place.name, name) {
        return Some(place);
    }
    place_named(rest, name)
}

// Whether an expression is a number.
fn is_literal(expr: &Expr) -> bool
    ensures { result ≡ is_literal (model_of_expr expr.now) }
{
    matches!(expr, Expr::Const { .. })
}

// Whether an expression is over registers, cells of the register file at literal addresses and numbers
// alone.
fn is_of_registers(expr: &Expr) -> bool
    ensures { result ≡ is_of_registers (model_of_expr expr.now) }
{
    match expr {
        Expr::Word(_) | Expr::Read(_, _) => false,
        Expr::Cell(addr, _) => is_literal(addr),
        Expr::Reg(_, _) | Expr::Const { .. } => true,
        Expr::Un(_, a) | Expr::Slice(a, _, _) | Expr::Zext(a, _) | Expr::Sext(a, _) => {
            is_of_registers(a)
        }
        Expr::Bin(_, a, b) | Expr::Cat(a, b) => is_of_registers(a) && is_of_registers(b),
        Expr::Select(c, a, b) => is_of_registers(c) && is_of_registers(a) && is_of_registers(b),
    }
}

// The width of an operator's value, from that of its first operand.
fn operator_width(op: Op2, width: Option<u64>) -> Option<u64>
    ensures { (a : ℕ) → MatchOption width (2 ^ 64 ≤ a) (λ w. a ≡ w) →
        MatchOption result (2 ^ 64 ≤ result_width op a) (λ w. result_width op a ≡ w) }
{
    match op {
        Op2::Eq | Op2::Ltu | Op2::Lts => Some(1),
        _ => width,
    }
}

// The width of an expression; None where it is 2^64 or more.
fn width_of(expr: &Expr) -> Option<u64>
    ensures { MatchOption result (2 ^ 64 ≤ expr_width (model_of_expr expr.now))
        (λ width. expr_width (model_of_expr expr.now) ≡ width) }
{
    match expr {
        Expr::Word(width) | Expr::Reg(_, width) | Expr::Const { width, .. } => {
            Some(u64::from(*width))
        }
        Expr::Read(_, width) | Expr::Cell(_, width) => Some(u64::from(*width)),
        Expr::Zext(_, width) | Expr::Sext(_, width) => Some(u64::from(*width)),
        Expr::Slice(_, hi, lo) => Some((u64::from(*hi) + 1).saturating_sub(u64::from(*lo))),
        Expr::Un(_, a) | Expr::Select(_, a, _) => width_of(a),
        Expr::Bin(op, a, _) => operator_width(*op, width_of(a)),
        Expr::Cat(a, b) => width_of(a)?.checked_add(width_of(b)?),
    }
}

// Whether an expression is as wide as a cell.
fn is_cell_wide(checked: &Checked, expr: &Expr) -> bool
    ensures { IsTrue result ↔ (expr_width (model_of_expr expr.now) ≡ memory_width checked.now.netlist.storages) }
{
    let cell = u64::from(checked.memory_width());
    match width_of(expr) {
        Some(width) => width == cell,
        None => false,
    }
}

// Whether a view is plain; `marks` say of its address what the image's do.
fn is_plain_view(checked: &Checked, image: &Image, marks: &[Mark], view: &View) -> bool
    requires { label_at marks.now view.now.address ≡ label_at image.now.marks view.now.address }
    ensures { IsTrue result ↔ IsPlainView checked.now.netlist image.now view.now }
{
    let Some(place) = place_named(image.places.as_slice(), &view.name) else {
        return false;
    };
    if view.address == 0 {
        return false;
    }
    if place.len != 1 {
        return false;
    }
    if !is_of_registers(&view.value) {
        return false;
    }
    if !is_cell_wide(checked, &view.value) {
        return false;
    }
    is_test_at(marks, view.address)
}

// Whether two views are of one variable at one mark.
fn are_of_one(view: &View, other: &View) -> bool
    ensures { result ≡ ((view.now.address == other.now.address) && same_name view.now.name other.now.name) }
{
    view.address == other.address && same_name(&view.name, &other.name)
}

// Whether no later view is of the variable at the mark of the view of this number: of the views behind
// it, those of its mark come first.
fn is_last_at(views: &[View], at: usize, view: &View) -> bool
    requires ascend { ComeFrom 0 views.now }
    requires inside { at < length views.now }
    requires there { slice_get views.now at ≡ Some view.now }
    ensures { IsTrue result ↔ IsLastAt views.now at view.now }
{
    for later in at + 1..views.len() {
        let other = &views[later];
        if other.address != view.address {
            return true;
        }
        if are_of_one(view, other) {
            return false;
        }
    }
    true
}

// Whether the view of this number is plain and modest, and the only one of its variable and mark from
// there on; `marks` say of its address what the image's do.
fn is_right_view(
    checked: &Checked,
    image: &Image,
    marks: &[Mark],
    views: &[View],
    at: usize,
) -> bool
    requires ascend { ComeFrom 0 views.now }
    requires marks { SayOf views.now image.now.marks marks.now at }
    requires inside { at < length views.now }
    ensures { IsTrue result ↔ IsRightView checked.now.netlist image.now views.now at }
{
    let Some(view) = views.get(at) else {
        return false;
    };
    is_plain_view(checked, image, marks, view)
        && is_modest(checked.netlist(), &view.value)
        && is_last_at(views, at, view)
}

/// The first view of an image that isn't plain or modest, or that is of the variable and the mark of a
/// later one, where views go up the addresses.
pub fn view_fault<'a>(checked: &Checked, image: &Image, views: &'a [View]) -> Option<&'a View>
    requires { ComeFrom 0 views.now }
    ensures fault { IfSome result (λ view.
        IsViewFault checked.now.netlist image.now views.now view.now.address view.now.name) }
    ensures right { IfNone result (AreViewsRight checked.now.netlist image.now views.now) }
{
    let mut marks = image.marks.as_slice();
    for at in 0..views.len() {
        let view = &views[at];
        marks = marks_from(marks, view.address);
        if !is_right_view(checked, image, marks, views, at) {
            return Some(view);
        }
    }
    None
}

//! Whether views are plain.

ghost use Rattle.std.specs.Prelude.{◌≡◌, ◌≤◌, ℕ, true, IfNone, IfSome, option_copied};
ghost use Rattle.net_model.specs.declared.hardware.Netlist.{Netlist};
ghost use Rattle.net_model.specs.Exprs.{expr_width, model_of_expr};
ghost use Rattle.net_model.specs.Nets.{memory_width};
ghost use Rattle.code_model.specs.Places.{label_at};
ghost use Rattle.src_model.specs.declared.checkpoint.Checkpoint.{Checkpoint};
ghost use Rattle.followed.specs.Inner.Ascending.{ComeFrom};
ghost use Rattle.code_model.specs.Views.{ArePlainViews, IsOnly, IsPlainView, is_literal, is_of_registers, place_named};

use crate::later::{is_view, same_name};
use code_model::{Image, Mark, Place, View};
use follow::{label_at, marks_from};
use net_model::Expr;
use rec_bits::{Name, result_width};

// The place of a variable.
fn place_named<'a>(places: &'a [Place], name: &Name) -> Option<&'a Place>
    ensures { option_copied result ≡ place_named places.now name.now }
{
    let (place, rest) = places.split_first()?;
    if same_name(&place.name, name) {
        return Some(place);
    }
    place_named(rest, name)
}

// Whether an expression is a number.
fn is_literal(expr: &Expr) -> bool
    ensures { result ≡ is_literal (model_of_expr expr.now) }
{
    match expr {
        Expr::Const {
            width: _width,
            value: _value,
        } => true,
        _ => false,
    }
}

// Whether an expression is over registers, cells of the register file at literal addresses and numbers
// alone.
fn is_of_registers(expr: &Expr) -> bool
    ensures { result ≡ is_of_registers (model_of_expr expr.now) }
{
    match expr {
        Expr::Word(_width) => false,
        Expr::Reg(_register, _width) => true,
        Expr::Const {
            width: _width,
            value: _value,
        } => true,
        Expr::Read(_addr, _width) => false,
        Expr::Cell(addr, _width) => is_literal(addr),
        Expr::Un(_op, a) => is_of_registers(a),
        Expr::Bin(_op, a, b) => is_of_registers(a) && is_of_registers(b),
        Expr::Slice(a, _hi, _lo) => is_of_registers(a),
        Expr::Cat(a, b) => is_of_registers(a) && is_of_registers(b),
        Expr::Zext(a, _width) => is_of_registers(a),
        Expr::Sext(a, _width) => is_of_registers(a),
        Expr::Select(c, a, b) => is_of_registers(c) && (is_of_registers(a) && is_of_registers(b)),
    }
}

// The width of an expression, where it is known.
fn width_of(expr: &Expr) -> Option<u8>
    ensures { IfSome result (λ width. expr_width (model_of_expr expr.now) ≡ width) }
{
    match expr {
        Expr::Word(width) => Some(*width),
        Expr::Reg(_register, width) => Some(*width),
        Expr::Const {
            width,
            value: _value,
        } => Some(*width),
        Expr::Read(_addr, width) => Some(*width),
        Expr::Cell(_addr, width) => Some(*width),
        Expr::Un(_op, a) => width_of(a),
        Expr::Bin(op, a, _b) => {
            let a = width_of(a)?;
            Some(result_width(*op, a))
        }
        Expr::Slice(_a, hi, lo) => {
            if *hi > 63 || *lo > *hi {
                return None;
            }
            Some(*hi + 1 - *lo)
        }
        Expr::Cat(a, b) => {
            let a = width_of(a)?;
            let b = width_of(b)?;
            a.checked_add(b)
        }
        Expr::Zext(_a, width) => Some(*width),
        Expr::Sext(_a, width) => Some(*width),
        Expr::Select(_c, a, _b) => width_of(a),
    }
}

// Whether an expression has this width.
fn is_wide(expr: &Expr, width: u8) -> bool
    ensures { result ≡ true → expr_width (model_of_expr expr.now) ≡ width }
{
    match width_of(expr) {
        Some(found) => found == width,
        None => false,
    }
}

// Whether an address has the mark of a test.
fn is_of_test(marks: &[Mark], address: u32) -> bool
    ensures { result ≡ true → (tree : ℕ) × (label_at marks.now address ≡ Some (Checkpoint.At tree)) }
{
    let Some(label) = label_at(marks, address) else {
        return false;
    };
    label.is_some()
}

// Whether a view is plain, where cells have so many bits; `marks` say of its address what the image's do.
fn is_plain(word: u8, image: &Image, marks: &[Mark], view: &View) -> bool
    requires { label_at marks.now view.now.address ≡ label_at image.now.marks view.now.address }
    ensures { result ≡ true → (netlist : Netlist) → memory_width netlist.storages ≡ word → IsPlainView netlist image.now view.now }
{
    if !is_of_test(marks, view.address) {
        return false;
    }
    if view.address == 0 {
        return false;
    }
    let Some(place) = place_named(image.places.as_slice(), &view.name) else {
        return false;
    };
    if place.len != 1 {
        return false;
    }
    if !is_of_registers(&view.value) {
        return false;
    }
    is_wide(&view.value, word)
}

// Whether no later view is of the same variable at the same mark, where none lies below one before it.
fn is_only(view: &View, views: &[View]) -> bool
    ensures { result ≡ true → ComeFrom view.now.address views.now → IsOnly view.now views.now }
{
    let Some((other, rest)) = views.split_first() else {
        return true;
    };
    if other.address != view.address {
        return true;
    }
    if is_view(view, other.address, &other.name) {
        return false;
    }
    is_only(view, rest)
}

// The first view that isn't plain, or lies below an address or one before it, or of whose variable and
// mark is a later one, counted on from a number; `marks` are those from the address on.
fn odd_from(
    word: u8,
    image: &Image,
    marks: &[Mark],
    low: u32,
    views: &[View],
    count: u32,
) -> Option<u32>
    requires { (address : ℕ) → low ≤ address → label_at marks.now address ≡ label_at image.now.marks address }
    ensures come { IfNone result (ComeFrom low views.now) }
    ensures plain { IfNone result ((netlist : Netlist) → memory_width netlist.storages ≡ word → ArePlainViews netlist image.now views.now) }
{
    let (view, rest) = views.split_first()?;
    if view.address < low {
        return Some(count);
    }
    let marks = marks_from(marks, view.address);
    if !is_plain(word, image, marks, view) {
        return Some(count);
    }
    if !is_only(view, rest) {
        return Some(count);
    }
    odd_from(
        word,
        image,
        marks,
        view.address,
        rest,
        count.saturating_add(1),
    )
}

// The first view that isn't plain, or lies below one before it, or of whose variable and mark is a
// later one.
pub(crate) fn first_odd(word: u8, image: &Image, views: &[View]) -> Option<u32>
    ensures come { IfNone result (ComeFrom 0 views.now) }
    ensures plain { IfNone result ((netlist : Netlist) → memory_width netlist.storages ≡ word → ArePlainViews netlist image.now views.now) }
{
    odd_from(word, image, image.marks.as_slice(), 0, views, 0)
}

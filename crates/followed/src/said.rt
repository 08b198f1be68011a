//! Whether hints are of an image's marks.

ghost use Rattle.std.specs.Prelude.{◌≡◌, ◌<◌, ◌≤◌, ℕ, List, [], true, IfNone, None, Some, option_copied, length};
ghost use Rattle.std.specs.Option.{option_map};
ghost use Rattle.net_model.specs.Exprs.{model_of_expr};
ghost use Rattle.sym_expr.specs.declared.pool.Node.{Node as TheNode};
ghost use Rattle.sym_expr.specs.Pools.{expr_of_id};
ghost use Rattle.code_model.specs.Places.{checkpoint_of, label_at};
ghost use Rattle.code_model.specs.Views.{hidden_at, hidden_in, is_labelled, is_one_of, view_at};
ghost use Rattle.segment.specs.Asked.{AreArrays, AreSpots};
ghost use Rattle.followed.specs.Inner.Ascending.{AscendFrom, ComeFrom, IsLater};
ghost use Rattle.followed.specs.Inner.Hinted.{AreHere, IsHere};

use crate::later::{Later, later_from, same_name, view_at};
use code_model::{Hidden, Place, View, Viewed};
use follow::label_at;
use mark_start::{Hint, Spot};
use net_model::Expr;
use rec_bits::Name;
use src_model::Var;
use sym_expr::{ExprId, Node, Pool};

// The first hint that isn't above those before it, or is below an address, counted on from a number.
pub(crate) fn first_low(low: u64, hints: &[Hint], count: u32) -> Option<u32>
    ensures { IfNone result (AscendFrom low hints.now) }
{
    let (hint, rest) = hints.split_first()?;
    let address = u64::from(hint.address);
    if address < low {
        return Some(count);
    }
    first_low(address + 1, rest, count.saturating_add(1))
}

// Whether a label is that of a mark.
fn is_label(label: Option<u32>, mark: Option<Option<u32>>) -> bool
    ensures { result ≡ true → option_map checkpoint_of mark ≡ Some (checkpoint_of label) }
{
    match mark {
        Some(found) => found == label,
        None => false,
    }
}

// Whether a mark has the label for which a variable is hidden.
fn is_hiding(label: Option<u32>, mark: Option<Option<u32>>) -> bool
    ensures { result ≡ is_labelled label (option_map checkpoint_of mark) }
{
    match mark {
        Some(Some(tree)) => label == Some(tree),
        Some(None) => label.is_none(),
        None => false,
    }
}

// Whether a variable is hidden at a mark.
fn is_hidden(hidden: &[Hidden], mark: Option<Option<u32>>, name: &Name) -> bool
    ensures { result ≡ is_one_of (hidden_at hidden.now (option_map checkpoint_of mark)) name.now }
{
    let Some((one, rest)) = hidden.split_first() else {
        return false;
    };
    if is_hiding(one.label, mark) && same_name(&one.name, name) {
        return true;
    }
    is_hidden(rest, mark, name)
}

// Whether no variable is hidden at a mark.
pub(crate) fn hides_none(hidden: &[Hidden], mark: Option<Option<u32>>) -> bool
    ensures { result ≡ true → hidden_at hidden.now (option_map checkpoint_of mark) ≡ [] }
{
    let Some((one, rest)) = hidden.split_first() else {
        return true;
    };
    if is_hiding(one.label, mark) {
        return false;
    }
    hides_none(rest, mark)
}

// Whether an expression is that of an id.
fn is_expr(pool: &Pool, id: ExprId, expr: &Expr) -> bool
    requires { id < length pool.now }
    ensures { result ≡ true → model_of_expr expr.now ≡ expr_of_id pool.now id }
{
    match expr {
        Expr::Word(w) => pool.node(id) == Node::Word(*w),
        Expr::Reg(r, w) => pool.node(id) == Node::Reg(*r, *w),
        Expr::Const { width, value } => {
            pool.node(id)
                == Node::Const {
                    width: *width,
                    value: *value,
                }
        }
        Expr::Cell(a, w) => match pool.node(id) {
            Node::Cell(x, v) => v == *w && is_expr(pool, x, a),
            _ => false,
        },
        Expr::Un(op, a) => match pool.node(id) {
            Node::Un(o, x) => o == *op && is_expr(pool, x, a),
            _ => false,
        },
        Expr::Bin(op, a, b) => match pool.node(id) {
            Node::Bin(o, x, y) => o == *op && is_expr(pool, x, a) && is_expr(pool, y, b),
            _ => false,
        },
        Expr::Slice(a, hi, lo) => match pool.node(id) {
            Node::Slice(x, h, l) => h == *hi && l == *lo && is_expr(pool, x, a),
            _ => false,
        },
        Expr::Cat(a, b) => match pool.node(id) {
            Node::Cat(x, y) => is_expr(pool, x, a) && is_expr(pool, y, b),
            _ => false,
        },
        Expr::Zext(a, w) => match pool.node(id) {
            Node::Zext(x, v) => v == *w && is_expr(pool, x, a),
            _ => false,
        },
        Expr::Sext(a, w) => match pool.node(id) {
            Node::Sext(x, v) => v == *w && is_expr(pool, x, a),
            _ => false,
        },
        Expr::Select(c, a, b) => match pool.node(id) {
            Node::Select(x, y, z) => {
                is_expr(pool, x, c) && is_expr(pool, y, a) && is_expr(pool, z, b)
            }
            _ => false,
        },
        _ => false,
    }
}

// Whether a variable is seen by an id as its view says.
fn is_seen(pool: &Pool, view: Option<&Expr>, id: Option<ExprId>) -> bool
    ensures { result ≡ true → option_map model_of_expr (option_copied view.entry) ≡ option_map (expr_of_id pool.now) id }
{
    match view {
        Some(expr) => match id {
            Some(id) => id < pool.len() && is_expr(pool, id, expr),
            None => false,
        },
        None => id.is_none(),
    }
}

// Whether spots are the places, seen as they are.
pub(crate) fn are_bare(places: &[Place], spots: &[Spot]) -> bool
    ensures { result ≡ true → (pool : List TheNode) → AreSpots [] (λ name. None) pool places.now spots.now }
{
    let Some((place, places)) = places.split_first() else {
        return spots.is_empty();
    };
    let Some((spot, spots)) = spots.split_first() else {
        return false;
    };
    if spot.address != place.address || spot.len != place.len {
        return false;
    }
    if spot.hidden || spot.view.is_some() {
        return false;
    }
    are_bare(places, spots)
}

// Whether each spot says whether its variable is an array.
pub(crate) fn are_arrays(vars: &[Var], spots: &[Spot]) -> bool
    ensures { result ≡ true → AreArrays vars.now spots.now }
{
    let Some((var, vars)) = vars.split_first() else {
        return spots.is_empty();
    };
    let Some((spot, spots)) = spots.split_first() else {
        return false;
    };
    if spot.is_array != var.len.is_some() {
        return false;
    }
    are_arrays(vars, spots)
}

// The label of a mark, and the views from there on.
#[derive(Clone, Copy)]
struct Here<'a> {
    mark: Option<Option<u32>>,
    views: &'a [View],
}

// An image with its views, a pool and the program's variables, by which hints are looked at.
#[derive(Clone, Copy)]
pub(crate) struct Seen<'a> {
    pub pool: &'a Pool,
    pub viewed: &'a Viewed,
    pub vars: &'a [Var],
}

impl Seen<'_> {
    // Whether spots are the places, with what the views from there on say and what is hidden at the
    // mark of an address.
    fn are_spots(&self, address: u32, here: Here<'_>, places: &[Place], spots: &[Spot]) -> bool
        requires come { ComeFrom 0 here.views.now }
        requires mark { option_map checkpoint_of here.mark ≡ label_at self.now.viewed.now.image.marks address }
        requires views { (name : List ℕ) → view_at here.views.now address name ≡ view_at self.now.viewed.now.views address name }
        ensures { result ≡ true → AreSpots (hidden_in self.now.viewed.now address) (view_at self.now.viewed.now.views address) self.now.pool.now
            places.now spots.now }
    {
        let Some((place, places)) = places.split_first() else {
            return spots.is_empty();
        };
        let Some((spot, spots)) = spots.split_first() else {
            return false;
        };
        if spot.address != place.address || spot.len != place.len {
            return false;
        }
        let view = view_at(here.views, address, &place.name);
        if !is_seen(self.pool, view, spot.view) {
            return false;
        }
        let hidden = is_hidden(self.viewed.hidden.as_slice(), here.mark, &place.name);
        if spot.hidden != hidden {
            return false;
        }
        self.are_spots(address, here, places, spots)
    }

    // Whether a hint is of a mark, with its label and the views there.
    fn is_here(&self, later: Later<'_>, hint: &Hint) -> bool
        requires later { IsLater self.now.viewed.now later }
        requires low { later.low ≤ hint.now.address }
        ensures { result ≡ true → IsHere self.now.viewed.now self.now.vars.now self.now.pool.now hint.now }
    {
        let mark = label_at(later.marks, hint.address);
        if !is_label(hint.label, mark) {
            return false;
        }
        let here = Here {
            mark,
            views: later.views,
        };
        let places = self.viewed.image.places.as_slice();
        if !self.are_spots(hint.address, here, places, hint.spots.as_slice()) {
            return false;
        }
        are_arrays(self.vars, hint.spots.as_slice())
    }

    // The first hint that isn't, of such as ascend, counted on from a number.
    pub(crate) fn first_odd(&self, later: Later<'_>, hints: &[Hint], count: u32) -> Option<u32>
        requires later { IsLater self.now.viewed.now later }
        requires ascend { AscendFrom later.low hints.now }
        ensures { IfNone result (AreHere self.now.viewed.now self.now.vars.now self.now.pool.now hints.now) }
    {
        let (hint, rest) = hints.split_first()?;
        let later = later_from(later, hint.address);
        if !self.is_here(later, hint) {
            return Some(count);
        }
        self.first_odd(later, rest, count.saturating_add(1))
    }
}

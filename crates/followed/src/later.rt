//! The marks and views of an image from an address on: a walk that goes up the addresses passes each
//! but once.

ghost use Rattle.std.specs.Prelude.{◌≡◌, ◌≤◌, ◌==◌, ◌&&◌, ℕ, List, option_copied};
ghost use Rattle.std.specs.Option.{option_map};
ghost use Rattle.rec_bits.specs.Faults.{same_name};
ghost use Rattle.net_model.specs.Exprs.{model_of_expr};
ghost use Rattle.code_model.specs.Places.{label_at};
ghost use Rattle.code_model.specs.Views.{view_at};
ghost use Rattle.followed.specs.Inner.Ascending.{ComeFrom, IsLater};

use code_model::{Mark, View, Viewed};
use follow::marks_from;
use net_model::Expr;
use rec_bits::Name;

pub(crate) fn same_name(a: &Name, b: &Name) -> bool
    ensures { result ≡ same_name a.now b.now }
{
    a.as_slice() == b.as_slice()
}

// Whether a view is of this variable at this address.
pub(crate) fn is_view(view: &View, address: u32, name: &Name) -> bool
    ensures { result ≡ ((view.now.address == address) && same_name view.now.name name.now) }
{
    view.address == address && same_name(&view.name, name)
}

// What the view of a variable says at an address, where no view lies below one before it.
pub(crate) fn view_at<'a>(views: &'a [View], address: u32, name: &Name) -> Option<&'a Expr>
    requires { ComeFrom 0 views.now }
    ensures { option_map model_of_expr (option_copied result) ≡ view_at views.now address name.now }
{
    let (view, rest) = views.split_first()?;
    if address < view.address {
        return None;
    }
    if is_view(view, address, name) {
        return Some(&view.value);
    }
    view_at(rest, address, name)
}

// The views from the first on that isn't below an address.
fn views_from(views: &[View], low: u32) -> &[View]
    requires { ComeFrom 0 views.now }
    ensures come { ComeFrom 0 result.now }
    ensures same { (address : ℕ) (name : List ℕ) → low ≤ address → view_at result.now address name ≡ view_at views.now address name }
{
    let Some((view, rest)) = views.split_first() else {
        return views;
    };
    if view.address < low {
        return views_from(rest, low);
    }
    views
}

// The marks and views of an image, without such as lie below an address.
#[derive(Clone, Copy)]
pub(crate) struct Later<'a> {
    pub low: u32,
    pub marks: &'a [Mark],
    pub views: &'a [View],
}

// All of an image, of whose views none lies below one before it.
pub(crate) fn all_of(viewed: &Viewed) -> Later<'_>
    requires { ComeFrom 0 viewed.now.views }
    ensures low { result.low ≡ 0 }
    ensures later { IsLater viewed.now result }
{
    Later {
        low: 0,
        marks: viewed.image.marks.as_slice(),
        views: viewed.views.as_slice(),
    }
}

// Those from a higher address on.
pub(crate) fn later_from<'a>(later: Later<'a>, low: u32) -> Later<'a>
    requires come { ComeFrom 0 later.views.now }
    ensures low { result.low ≡ low }
    ensures come { ComeFrom 0 result.views.now }
    ensures marks { (address : ℕ) → low ≤ address → label_at result.marks.now address ≡ label_at later.entry.marks.now address }
    ensures views { (address : ℕ) (name : List ℕ) → low ≤ address
        → view_at result.views.now address name ≡ view_at later.entry.views.now address name }
{
    Later {
        low,
        marks: marks_from(later.marks, low),
        views: views_from(later.views, low),
    }
}

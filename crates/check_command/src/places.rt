//! The first place that is wrong.

ghost use Rattle.std.specs.Prelude.{◌≡◌, ◌↔◌, ◌<◌, IfSome, IfNone, IsTrue, Some};
ghost use Rattle.src_model.specs.Meaning.{cells_in};
ghost use Rattle.code_model.specs.declared.image.Place.{Place};
ghost use Rattle.check_command.specs.Places.{AreApart, ArePlacesRight, IsAloneAt, IsPlaceFault, IsPlaceOf, IsRightPlace, LiesIn};

use code_model::{Image, Place};
use rec_bits::Name;
use src_model::Var;

// The cells of a variable.
fn cells_in(var: &Var) -> u64
    ensures { result ≡ cells_in var.now }
{
    var.len.unwrap_or(1)
}

// Whether a place is that of a variable.
fn is_place_of(var: &Var, place: &Place) -> bool
    ensures { IsTrue result ↔ IsPlaceOf var.now place.now }
{
    place.name.as_slice() == var.name.as_slice() && u64::from(place.len) == cells_in(var)
}

// Whether a place lies behind so many temporary cells, in a memory of so many.
fn lies_in(temps: u32, size: u32, place: &Place) -> bool
    ensures { IsTrue result ↔ LiesIn temps size place.now }
{
    temps <= place.address && u64::from(place.address) + u64::from(place.len) <= u64::from(size)
}

// Whether one place ends before the other begins.
fn are_apart(place: &Place, other: &Place) -> bool
    ensures { IsTrue result ↔ AreApart place.now other.now }
{
    let first = u64::from(place.address);
    let second = u64::from(other.address);
    first + u64::from(place.len) <= second || second + u64::from(other.len) <= first
}

// Whether no other of these places has a cell of the place of this number.
fn is_alone_at(places: &[Place], at: usize, place: &Place) -> bool
    ensures { IsTrue result ↔ IsAloneAt places.now at place.now }
{
    for other in 0..places.len() {
        if other != at && !are_apart(place, &places[other]) {
            return false;
        }
    }
    true
}

// Whether the place of this number is right.
fn is_right_place(vars: &[Var], image: &Image, size: u32, at: usize) -> bool
    ensures { IsTrue result ↔ IsRightPlace vars.now image.now size at }
{
    let Some(var) = vars.get(at) else {
        return false;
    };
    let Some(place) = image.places.as_slice().get(at) else {
        return false;
    };
    is_place_of(var, place)
        && lies_in(image.temps, size, place)
        && is_alone_at(image.places.as_slice(), at, place)
}

/// The name of the first place that isn't right, where the program's variables stand in an image for
/// a memory of `size` cells: that of the variable, or of the place where there are no more variables.
pub fn place_fault<'a>(vars: &'a [Var], image: &'a Image, size: u32) -> Option<&'a Name>
    ensures fault { IfSome result (λ name. IsPlaceFault vars.now image.now size name.now) }
    ensures right { IfNone result (ArePlacesRight vars.now image.now size) }
{
    for at in 0..vars.len() {
        if !is_right_place(vars, image, size, at) {
            return Some(&vars[at].name);
        }
    }
    let more = image.places.as_slice().get(vars.len())?;
    Some(&more.name)
}

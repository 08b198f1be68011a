//! The places of an image, as a program is lowered for them.

ghost use Rattle.std.specs.Prelude.{◌≡◌, IfOk};

use code_model::{Image, Place, Places};
use rec_bits::{Items, NoMemory};
use std::alloc::Global;

// A place of its own.
fn place_of(alloc: Global, place: &Place) -> Result<Place, NoMemory>
    ensures { IfOk result (λ made. made ≡ place.now) }
{
    let name = Items::from_slice(alloc, place.name.as_slice())?;
    Ok(Place {
        name,
        address: place.address,
        len: place.len,
    })
}

// Places of their own.
fn list_of(alloc: Global, places: &[Place]) -> Result<Items<Place>, NoMemory>
    ensures { IfOk result (λ made. made ≡ places.now) }
{
    let mut made = Items::new(alloc);
    for place in places {
        made.push(place_of(alloc, place)?)?;
    }
    Ok(made)
}

/// The places of an image with its temporary cells, of their own, for which a program is lowered.
pub fn places_of(alloc: Global, image: &Image) -> Result<Places, NoMemory>
    ensures { IfOk result (λ made. made ≡ record { temps = image.now.temps; list = image.now.places }) }
{
    let list = list_of(alloc, image.places.as_slice())?;
    Ok(Places {
        temps: image.temps,
        list,
    })
}

//! From remarks to views.

ghost use Rattle.std.specs.Prelude.{◌≡◌, ◌++◌, IfOk, map};
ghost use Rattle.view_lines.specs.Remarks.{model_of_remark};
ghost use Rattle.view_terms.specs.Inner.Reading.{Gives};
ghost use Rattle.view_parts.specs.Said.{hidden_said, model_of_view, view_said, views_said};
ghost use Rattle.view_terms.specs.Terms.{model_of_term};

use crate::part::part_of;
use code_model::{Hidden, Image, View, Viewed};
use net_model::Storage;
use rec_bits::{Items, Name, NoMemory};
use std::alloc::Global;
use view_lines::Remark;
use view_terms::{Stop, Term};

// A view of a variable by a term.
#[tactic(auto, unfolding(crate::specs::Said::view_said))]
fn view_of(
    alloc: Global,
    storages: &[Storage],
    address: u32,
    name: &Name,
    value: &Term,
) -> Result<View, Stop>
    ensures { Gives model_of_view (view_said storages.now address name.now (model_of_term value.now)) result }
{
    let name = Items::from_slice(alloc, name.as_slice())?;
    let value = part_of(alloc, storages, value)?;
    Ok(View {
        address,
        name,
        value,
    })
}

// The views among remarks.
#[tactic(auto, unfolding(crate::specs::Said::views_said))]
fn views_of(alloc: Global, storages: &[Storage], remarks: &[Remark]) -> Result<Items<View>, Stop>
    ensures { Gives (map model_of_view) (views_said storages.now (map model_of_remark remarks.now)) result }
{
    let mut views = Items::new(alloc);
    for remark in remarks {
        if let Remark::View {
            address,
            name,
            value,
        } = remark
        {
            views.push(view_of(alloc, storages, *address, name, value)?)?;
        }
    }
    Ok(views)
}

// What remarks hide.
#[tactic(auto, unfolding(crate::specs::Said::hidden_said))]
fn hidden_of(alloc: Global, remarks: &[Remark]) -> Result<Items<Hidden>, NoMemory>
    ensures { IfOk result (λ hidden. hidden ≡ hidden_said (map model_of_remark remarks.now)) }
{
    let mut hidden = Items::new(alloc);
    for remark in remarks {
        if let Remark::Hide { label, name } = remark {
            let name = Items::from_slice(alloc, name.as_slice())?;
            hidden.push(Hidden {
                label: *label,
                name,
            })?;
        }
    }
    Ok(hidden)
}

/// The image with the views and the hidden variables of its remarks. `Form` comes exactly where the
/// term of a view stands for no expression.
pub fn viewed_of(
    alloc: Global,
    storages: &[Storage],
    image: Image,
    remarks: &[Remark],
) -> Result<Viewed, Stop>
    ensures views { Gives (λ viewed. map model_of_view viewed.views) (views_said storages.now (map model_of_remark remarks.now)) result }
    ensures image { IfOk result (λ viewed. viewed.image ≡ image) }
    ensures hidden { IfOk result (λ viewed. viewed.hidden ≡ hidden_said (map model_of_remark remarks.now)) }
{
    let views = views_of(alloc, storages, remarks)?;
    let hidden = hidden_of(alloc, remarks)?;
    Ok(Viewed {
        image,
        views,
        hidden,
    })
}

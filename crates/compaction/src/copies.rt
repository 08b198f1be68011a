//! Groups made of others.

ghost use Rattle.std.specs.Prelude.{◌≡◌, [], ◌∷◌, ◌++◌, IfOk};
ghost use Rattle.form_model.specs.Live.{singles};

use form_model::Step;
use rec_bits::{Items, NoMemory};
use std::alloc::Global;
use word_fit::Group;

/// The steps of both groups.
pub(crate) fn joined(alloc: Global, first: &[Step], second: &[Step]) -> Result<Group, NoMemory>
    ensures { IfOk result (λ both. both ≡ first.now ++ second.now) }
{
    let mut both = Vec::from_slice(alloc, first)?;
    both.extend_from_slice(second)?;
    Ok(Items::from_vec(both))
}

/// The group with one more step.
pub(crate) fn added(alloc: Global, group: &[Step], step: Step) -> Result<Group, NoMemory>
    ensures { IfOk result (λ more. more ≡ group.now ++ step ∷ []) }
{
    let mut more = Items::from_slice(alloc, group)?;
    more.push(step)?;
    Ok(more)
}

// The group of one step.
fn single(alloc: Global, step: Step) -> Result<Group, NoMemory>
    ensures { IfOk result (λ group. group ≡ step ∷ []) }
{
    let mut group = Items::new(alloc);
    group.push(step)?;
    Ok(group)
}

/// The steps in groups of one.
pub(crate) fn singles(alloc: Global, steps: &[Step]) -> Result<Vec<Group>, NoMemory>
    ensures { IfOk result (λ groups. groups.items ≡ singles steps.now) }
{
    let mut groups = Vec::new(alloc);
    for step in steps {
        let group = single(alloc, *step)?;
        groups.push(group)?;
    }
    Ok(groups)
}

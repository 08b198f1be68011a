//! Paths of a flow, found.

ghost use Rattle.std.specs.Prelude.{ℕ, ◌≡◌, ◌<◌, ◌^◌, List, length, IfOk, slice_get};
ghost use Rattle.form_model.specs.declared.flow.Flow.{Flow};
ghost use Rattle.src_trees.specs.Lowered.{JobModel};
ghost use Rattle.follow.specs.Paths.{path_from};
ghost use Rattle.follow.specs.Trails.{path_of, trail_from};

use form_model::Flow;
use rec_bits::{Items, NoMemory};
use std::alloc::Global;

/// A path of a flow: the numbers of its assignments' trees, one after the other, and the place that
/// it leads to.
#[derive(Drop)]
pub struct Trail {
    pub trees: Items<u32>,
    pub to: u32,
}

// The item of a flow at a place.
pub(crate) fn item_at(flow: &[Flow], at: usize) -> Option<Flow>
    ensures { result ≡ slice_get flow.now at }
{
    flow.get(at).copied()
}

/// The trail from a place of a flow to the next test or to the end; `None` where jumps lead round,
/// or out of the flow.
pub fn trail_from(alloc: Global, flow: &[Flow], from: u32) -> Result<Option<Trail>, NoMemory>
    requires { length flow.now < 2 ^ 32 }
    ensures { IfOk result (λ found. found ≡ trail_from flow.now (length flow.now) from) }
{
    let mut trees = Items::new(alloc);
    let mut at = from;
    for i in 0..flow.len() {
        let Some(item) = item_at(flow, at as usize) else {
            return Ok(None);
        };
        match item {
            Flow::Assign(tree) => {
                trees.push(tree)?;
                at += 1;
            }
            Flow::Jump(to) => at = to,
            Flow::Test { .. } | Flow::End => return Ok(Some(Trail { trees, to: at })),
        }
    }
    Ok(None)
}

/// The path from a place is that of the trail, where all its jobs are there.
pub fn law_of_trails()
    ensures { (flow : List Flow) (jobs : List JobModel) (n at : ℕ) →
        path_from flow jobs n at ≡ path_of jobs (trail_from flow n at) }
{}

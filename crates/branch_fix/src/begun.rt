//! Which places of a flow begin a block.

ghost use Rattle.std.specs.Prelude.{◌≡◌, ◌<◌, IfOk, length, true, slice_get, slice_set};
ghost use Rattle.src_trees.specs.Blocks.{continues, is_entered, is_assign};
ghost use Rattle.branch_fix.specs.Entered.{entered_places};

use form_model::Flow;
use rec_bits::NoMemory;
use std::alloc::Global;

fn enter(entered: &mut [bool], at: u32)
    ensures { entered.new ≡ slice_set entered.old at true }
{
    let at = at as usize;
    if at < entered.len() {
        entered[at] = true;
    }
}

/// For each place of a flow whether a test or a jump goes there.
pub fn entered(alloc: Global, flow: &[Flow]) -> Result<Vec<bool>, NoMemory>
    ensures { IfOk result (λ entered. entered.items ≡ entered_places flow.now) }
{
    let mut entered = Vec::new(alloc);
    for _item in flow {
        entered.push(false)?;
    }
    for place in flow {
        match *place {
            Flow::Test {
                when_one,
                when_zero,
                ..
            } => {
                enter(&mut entered, when_one);
                enter(&mut entered, when_zero);
            }
            Flow::Jump(to) => enter(&mut entered, to),
            _ => {}
        }
    }
    Ok(entered)
}

// Whether a flow has an assignment at a place.
fn is_assign(flow: &[Flow], at: usize) -> bool
    ensures { result ≡ is_assign (slice_get flow.now at) }
{
    match flow.get(at) {
        Some(Flow::Assign(_)) => true,
        _ => false,
    }
}

fn was_entered(flow: &[Flow], entered: &[bool], at: usize) -> bool
    requires at { at < length flow.now }
    requires entered { entered.now ≡ entered_places flow.now }
    ensures { result ≡ is_entered flow.now at }
{
    match entered.get(at) {
        Some(entered) => *entered,
        None => false,
    }
}

/// Whether a place continues the block of the place before it.
pub fn continues(flow: &[Flow], entered: &[bool], at: usize) -> bool
    requires at { at < length flow.now }
    requires entered { entered.now ≡ entered_places flow.now }
    ensures { result ≡ continues flow.now at }
{
    at > 0 && is_assign(flow, at - 1) && is_assign(flow, at) && !was_entered(flow, entered, at)
}

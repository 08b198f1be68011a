//! What is checked.

use code_model::Viewed;
use mark_start::Hint;
use net_model::Checked;
use src_model::Typed;

/// An image with views that is claimed to be right code for a program on a netlist, and hints of its
/// marks, whose ids are those of a pool.
#[derive(Clone, Copy)]
pub struct Claim<'a> {
    pub checked: &'a Checked,
    pub typed: &'a Typed,
    pub viewed: &'a Viewed,
    pub hints: &'a [Hint],
}

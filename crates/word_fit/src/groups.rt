//! Groups of steps.

use form_model::Step;
use rec_bits::Items;

/// The steps that one instruction word does at one clock edge.
pub type Group = Items<Step>;

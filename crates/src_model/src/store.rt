//! What the variables of a program hold.

use rec_bits::Items;

/// The cells of all variables, in the order of their declarations, arrays whole.
#[derive(Drop)]
pub struct Store {
    pub cells: Items<u64>,
}

//! What a line of a memory text sets.

use net_model::Space;

/// A value for a register or for a cell.
#[derive(Clone, Copy, PartialEq, Eq)]
pub enum Setting {
    /// The register with this storage's number.
    Entry {
        storage: u32,
        value: u64,
    },
    /// The cell at this address.
    Cell {
        space: Space,
        address: u32,
        value: u64,
    },
}

//! What the storages hold.

ghost use Rattle.std.specs.Prelude.{◌≡◌};
ghost use Rattle.net_model.specs.Nets.{held};

use crate::Space;
use rec_bits::Items;

/// The values of all storages: an entry for each storage, 0 at a memory's and a file's, the cells
/// of the data memory, and those of the register file.
#[derive(Drop)]
pub struct State {
    pub regs: Items<u64>,
    pub cells: Items<u64>,
    pub file: Items<u64>,
}

impl State {
    /// The cells of the data memory, or those of the register file.
    pub fn cells_in(&self, space: Space) -> &Items<u64>
        ensures { result.now ≡ held self.now space }
    {
        match space {
            Space::Memory => &self.cells,
            Space::File => &self.file,
        }
    }
}

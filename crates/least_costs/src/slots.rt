//! Entries of a row of least costs: one for each register, and behind them one for the file and one
//! for a temporary cell.

ghost use Rattle.std.specs.Prelude.{◌≡◌, ◌<◌};
ghost use Rattle.tree_grammar.specs.Leaves.{model_of_home};
ghost use Rattle.least_costs.specs.Slots.{place, IsEntry, IsLowHome, home_slot};

use tree_grammar::Home;

/// An entry of a row: where the row's tree goes.
#[derive(Clone, Copy, Default, PartialEq, Eq)]
pub enum Slot {
    /// Into the register of this number, below 16.
    Register(u8),
    /// Into a cell of the file.
    File,
    /// Into a temporary cell.
    #[default]
    Temporary,
}

impl Slot {
    /// Its place in a row.
    pub fn index(self) -> usize
        ensures is { result ≡ place self }
        ensures within { IsEntry self → result < 18 }
    {
        match self {
            Slot::Register(r) => r as usize,
            Slot::File => 16,
            Slot::Temporary => 17,
        }
    }
}

/// The entry for an operand with this home.
pub fn slot_of(home: Home) -> Slot
    requires { IsLowHome (model_of_home home) }
    ensures is { result ≡ home_slot (model_of_home home.entry) }
    ensures entry { IsEntry result }
{
    match home {
        Home::Register(id) => Slot::Register(id as u8),
        Home::File(_) => Slot::File,
    }
}

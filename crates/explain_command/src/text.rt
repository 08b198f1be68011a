//! The line of a cost.

ghost use Rattle.std.specs.Prelude.{◌≡◌, ◌++◌, OnOk};
ghost use Rattle.explain_command.specs.Lines.{cost_line};

use rec_bits::NoMemory;
use transfer_set::{add_bytes, add_number};

/// Adds the line of a cost.
pub(crate) fn add_cost(text: &mut Vec<u8>, cost: u64) -> Result<(), NoMemory>
    ensures { OnOk result (text.new.items ≡ text.old.items ++ cost_line cost) }
{
    add_bytes(text, b"cost ")?;
    add_number(text, cost)?;
    add_bytes(text, b"\n")
}

//! How many classes a table may have.

ghost use Rattle.std.specs.Prelude.{◌≡◌, ◌↔◌, ◌⊎◌, IfNone, IfOk, IfSome, IsTrue};
ghost use Rattle.class_values.specs.Room.{IsFull};
ghost use Rattle.tree_laws.specs.Classes.{FitsIn, Grows, NodeStands};

use rec_bits::NoMemory;
use sym_expr::Node;
use tree_laws::Classes;

/// The most classes of a table that is grown here, joined ones counted.
pub const MOST_CLASSES: u64 = 1 << 17;

/// Whether a table has as many classes as it may have.
pub fn is_full(table: &Classes) -> bool
    ensures { IsTrue result ↔ IsFull table.now }
{
    table.len() >= MOST_CLASSES
}

/// The class of a node, which is a new one where there was none. None where trees don't have such a
/// node or the widths of its classes don't fit, or where it isn't listed in a table that is full.
pub fn class_of(table: &mut Classes, node: Node) -> Result<Option<u64>, NoMemory>
    ensures stands { IfOk result (λ found. IfSome found (NodeStands table.new node)) }
    ensures none { IfOk result (λ found. IfNone found ((FitsIn table.old node → ⊥) ⊎ IsFull table.old)) }
    ensures full { IsFull table.old → table.new ≡ table.old }
    ensures grows { Grows table.old table.new }
{
    if is_full(table) {
        return Ok(table.find(node));
    }
    table.add(node)
}

//! The text of one pattern.

ghost use Rattle.std.specs.Prelude.{◌≡◌, ◌<◌, List, length, option_map, slice_get, IfOk};
ghost use Rattle.bit_bdd.specs.Diagrams.{Diagrams};
ghost use Rattle.net_model.specs.declared.hardware.Netlist.{Netlist};
ghost use Rattle.net_model.specs.Texts.{text_of_transfer};
ghost use Rattle.sym_expr.specs.declared.pool.Node.{Node};
ghost use Rattle.transfer_set.specs.Rows.{row_patterns};
ghost use Rattle.transfer_set.specs.Tables.{IsPatternTable};

use crate::patterns::Patterns;
use rec_bits::{Items, Name, NoMemory};
use std::alloc::Global;

impl Patterns {
    /// The text of a pattern's transfer, as `print` writes it.
    pub fn text(&self, alloc: Global, pattern: u32) -> Result<Name, NoMemory>
        requires { pattern < length self.now.rows }
        ensures kept { IfOk result (λ text.
            option_map (λ row. row.text.items) (slice_get self.now.rows pattern) ≡ Some text) }
        ensures transfer { IfOk result (λ text. (netlist : Netlist) (book : Diagrams) (pool : List Node) →
            IsPatternTable netlist book pool self.now →
            option_map (λ row. text_of_transfer netlist row.storage row.move)
            (slice_get (row_patterns pool self.now.rows) pattern)
            ≡ Some text) }
    {
        let row = &self.rows[pattern as usize];
        Items::from_slice(alloc, row.text.as_slice())
    }
}

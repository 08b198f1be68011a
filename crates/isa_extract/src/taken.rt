//! What is extracted from a netlist, for commands that don't take all editions.

ghost use Rattle.std.specs.Prelude.{◌<◌, ◌^◌, length, IfOk, IfErr};
ghost use Rattle.net_model.specs.Patterns.{ArePatterns};
ghost use Rattle.transfer_set.specs.Rows.{row_patterns};
ghost use Rattle.isa_extract.specs.Extraction.{IsExtractedFrom};
ghost use Rattle.isa_extract.specs.Taken.{IsRoutedTakenRefusal, IsTakenNet};

use crate::netlists::{Isa, extract_netlist};
use net_front::{NetRefusal, read_taken};
use net_model::Checked;
use std::alloc::Global;

/// The netlist of a text whose edition is `newest` at most, 1 where it tells none, and which keeps
/// all rules, with its instruction set: for a command that takes no netlists with modes. Any other
/// text is refused by the faults of `read_taken`, or as by `read_extracted`.
pub fn read_extracted_taken(
    alloc: Global,
    bytes: &[u8],
    newest: u8,
) -> Result<(Checked, Isa), NetRefusal>
    requires bytes { length bytes.now < 2 ^ 32 }
    requires alone { newest < 3 }
    ensures netlist { IfOk result (λ both. IsTakenNet newest bytes.now both.0) }
    ensures extracted { IfOk result (λ both. IsExtractedFrom both.0.netlist both.1) }
    ensures patterns { IfOk result (λ both.
        ArePatterns both.0.netlist (row_patterns both.1.pool both.1.patterns.rows)) }
    ensures refused { IfErr result (IsRoutedTakenRefusal newest bytes.now) }
{
    let (_, checked) = read_taken(alloc, bytes, newest)?;
    let extracted = extract_netlist(alloc, &checked)?;
    Ok((checked, extracted))
}

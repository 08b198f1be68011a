//! The first rule that is broken.

ghost use Rattle.std.specs.Prelude.{◌≡◌, IfOk, None, map};
ghost use Rattle.rec_bits.specs.Faults.{least};
ghost use Rattle.net_model.specs.NameRules.{duplicates};
ghost use Rattle.net_model.specs.TextRules.{first_fault};
ghost use Rattle.net_model.specs.Written.{model_of_unit};

use crate::drivers::first_undriven;
use crate::duplicates::first_duplicate;
use crate::limits::first_limit;
use crate::text::Text;
use crate::unknowns::first_unknown;
use crate::widths::first_misfit;
use net_model::{NetFault, Unit, Units};
use net_names::Names;
use rec_bits::NoMemory;
use std::alloc::Global;

/// The first of the rules N1, N2, N3, N4 and N11 that a text breaks, with the least offset at which
/// it does, or None where the text keeps them all. The names are those of the text.
pub fn first_fault(
    alloc: Global,
    units: &Units,
    names: &Names,
) -> Result<Option<NetFault>, NoMemory>
    requires { names.now ≡ units.now.items }
    ensures { IfOk result (λ fault. fault ≡ first_fault units.now.edition (map model_of_unit units.now.items)) }
{
    if let Some(at) = first_duplicate(alloc, units)? {
        return Ok(Some(NetFault::Duplicate(at)));
    }
    let text = Text::new(alloc, units, names)?;
    fault_behind_names(alloc, &text, units.edition, units.items.as_slice())
}

// The first of the rules N2, N3, N4 and N11 that a text breaks, where no name stands there twice.
fn fault_behind_names(
    alloc: Global,
    text: &Text,
    edition: u8,
    items: &[Unit],
) -> Result<Option<NetFault>, NoMemory>
    requires text { text.now ≡ items.now }
    requires names { None ≡ least (duplicates (map model_of_unit items.now)) }
    ensures { IfOk result (λ fault. fault ≡ first_fault edition (map model_of_unit items.now)) }
{
    if let Some(at) = first_unknown(text, items) {
        return Ok(Some(NetFault::Unknown(at)));
    }
    if let Some(at) = first_misfit(text, items) {
        return Ok(Some(NetFault::Width(at)));
    }
    if let Some(at) = first_undriven(alloc, text, items)? {
        return Ok(Some(NetFault::Driver(at)));
    }
    first_limit(alloc, text, edition, items)
}

//! The netlists of which programs are explained.

ghost use Rattle.std.specs.Prelude.{◌≡◌, ◌<◌, ◌^◌, IfErr, IfOk, [], ◌∷◌, length};
ghost use Rattle.isa_extract.specs.Extraction.{IsIsaOf};
ghost use Rattle.net_model.specs.ModeRules.{AreModesOfNetlist};
ghost use Rattle.explain_command.specs.Explained.{IsUntaken};
ghost use Rattle.explain_command.specs.Inner.Telling.{IsAlone, IsPlainNet};

use compile_command::CompileFault;
use isa_extract::{Isa, read_extracted_taken};
use net_model::{Checked, Modes};
use rec_bits::{Items, NoMemory};
use std::alloc::Global;

// The newest edition of the netlist texts of which programs are explained.
const EDITION: u8 = 2;

// A netlist without modes, as what it is in its only one.
fn alone(alloc: Global, checked: Checked) -> Result<Modes, NoMemory>
    requires { AreModesOfNetlist checked.netlist (checked ∷ []) }
    ensures netlist { IfOk result (λ modes. modes.netlist ≡ checked.netlist) }
    ensures bases { IfOk result (λ modes. modes.bases ≡ checked ∷ []) }
{
    let mut bases = Items::new(alloc);
    bases.push(checked)?;
    Ok(Modes::alone(bases))
}

/// The netlist that `net` is, of an edition without modes, which keeps all rules, and what is
/// extracted from it. A text with modes is refused as one that breaks N6.
pub(crate) fn netlist(alloc: Global, net: &[u8]) -> Result<(Modes, Isa), CompileFault>
    requires { length net.now < 2 ^ 32 }
    ensures found { IfOk result (λ both. IsPlainNet net.now both.0) }
    ensures alone { IfOk result (λ both. IsAlone both.0) }
    ensures isa { IfOk result (λ both. IsIsaOf both.0.netlist both.1) }
    ensures refused { IfErr result (IsUntaken net.now) }
{
    let (checked, isa) = read_extracted_taken(alloc, net, EDITION)?;
    let modes = alone(alloc, checked)?;
    Ok((modes, isa))
}

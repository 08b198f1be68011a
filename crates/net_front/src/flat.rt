//! Netlists from items.

ghost use Rattle.std.specs.Prelude.{◌≡◌, ◌^◌, ◌<◌, length, IfOk, IfErr};
ghost use Rattle.net_model.specs.Written.{model_of_units};
ghost use Rattle.net_front.specs.Fronts.{IsElaboratedOf, IsTextRefusal};

use net_elab::elaborate;
use net_model::{CheckFault, Netlist, Units};
use net_names::Names;
use net_rules::first_fault;
use std::alloc::Global;

/// Why items have no netlist: the first rule of N1, N2, N3, N4 and N11 that they break, or want of
/// memory.
pub type NetFault2 = CheckFault;

// The netlist of the items, by their names.
fn flatten_by(alloc: Global, units: &Units, names: &Names) -> Result<Netlist, NetFault2>
    requires few { length units.now.items < 2 ^ 32 }
    requires names { names.now ≡ units.now.items }
    ensures found { IfOk result (IsElaboratedOf (model_of_units units.now)) }
    ensures refused { IfErr result (IsTextRefusal (model_of_units units.now)) }
{
    if let Some(fault) = first_fault(alloc, units, names)? {
        return Err(NetFault2::Fault(fault));
    }
    let netlist = elaborate(alloc, units, names)?;
    Ok(netlist)
}

/// The netlist that the items say, with their nets in the items' order, where they keep N1 to N4
/// and N11. `Fault` comes exactly where they break one of these rules, with the first in the order
/// N1, N2, N3, N4, N11, and with the least offset at which it is broken, or the numbers of N11.
/// `Memory` is want of memory.
pub fn flatten(alloc: Global, units: &Units) -> Result<Netlist, NetFault2>
    requires { length units.now.items < 2 ^ 32 }
    ensures found { IfOk result (IsElaboratedOf (model_of_units units.now)) }
    ensures refused { IfErr result (IsTextRefusal (model_of_units units.now)) }
{
    let names = Names::new(alloc, units)?;
    flatten_by(alloc, units, &names)
}

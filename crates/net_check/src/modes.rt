// The check of what a netlist is in each of its modes.

ghost use Rattle.std.specs.Prelude.{◌≡◌, IsTrue, MatchResult, None, false, is_some};
ghost use Rattle.net_model.specs.Editions.{is_banked};
ghost use Rattle.net_model.specs.declared.fault.NetFault.{NetFault};
ghost use Rattle.net_model.specs.CheckedRules.{IsWellFormed};
ghost use Rattle.net_model.specs.ModeRules.{AcceptsModes, AreModesOfNetlist, KeepsModes, ModeFaultOf, RefusesModes};
ghost use Rattle.net_model.specs.NetFaults.{IsFaultOrMemory};

use crate::fixing::{fixed, modes_in};
use crate::rules::check;
use net_model::{CheckFault, Checked, Modes, Netlist};
use rec_bits::Items;
use std::alloc::Global;

// A netlist without a mode, as what it is in its only one.
fn check_alone(alloc: Global, netlist: Netlist) -> Result<Modes, CheckFault>
    requires formed { IsWellFormed netlist }
    requires alone { netlist.special ≡ None }
    ensures { MatchResult result (AcceptsModes netlist) (RefusesModes netlist) }
{
    let checked = check(alloc, netlist)?;
    let mut bases = Items::new(alloc);
    bases.push(checked)?;
    Ok(Modes::alone(bases))
}

// What a netlist with a mode is in each.
fn bases(alloc: Global, netlist: &Netlist) -> Result<Items<Checked>, CheckFault>
    requires formed { IsWellFormed netlist.now }
    requires plain { is_banked netlist.now.edition ≡ false }
    requires special { IsTrue (is_some netlist.now.special) }
    ensures { MatchResult result (AreModesOfNetlist netlist.now) (RefusesModes netlist.now) }
{
    let mut bases = Items::new(alloc);
    for value in 0..modes_in(netlist) {
        let base = fixed(alloc, netlist, value)?;
        bases.push(check(alloc, base)?)?;
    }
    Ok(bases)
}

/// Accepts a netlist without a bank that keeps N5 to N9 and N14 in each of its modes, with what it
/// is in them. It has to keep N1 to N4 and N11.
///
/// # Errors
///
/// The first of the rules N5 to N9 and N14 that is broken in some mode, in this order, as `check`
/// tells it of the first mode that breaks it. The netlist is given up. `Memory` is want of memory.
pub fn check_modes(alloc: Global, netlist: Netlist) -> Result<Modes, CheckFault>
    requires formed { IsWellFormed netlist }
    requires plain { is_banked netlist.edition ≡ false }
    ensures found { MatchResult result (AcceptsModes netlist) (RefusesModes netlist) }
    ensures accepted { KeepsModes netlist →
        MatchResult result (λ _. Unit {0}) (λ cause. cause ≡ CheckFault.Memory) }
    ensures refused { (fault : NetFault) → ModeFaultOf netlist fault →
        MatchResult result (λ _. ⊥) (IsFaultOrMemory fault) }
{
    if netlist.special.is_none() {
        return check_alone(alloc, netlist);
    }
    let bases = bases(alloc, &netlist)?;
    Ok(Modes::new(netlist, bases))
}

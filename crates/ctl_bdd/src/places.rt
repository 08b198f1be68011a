//! The nets that stand in control places, and all that they depend on.

ghost use Rattle.std.specs.Prelude.{◌≡◌, ℕ, ◌<◌, ◌&&◌, ◌||◌, filter, nat_eq, true, length, IfOk, OnOk};
ghost use Rattle.std.specs.List.{AllByRecursion, list_any};
ghost use Rattle.net_model.specs.CheckedRules.{is_control};
ghost use Rattle.net_model.specs.Control.{control_places};
ghost use Rattle.net_model.specs.Nets.{gate_nets};
ghost use Rattle.net_model.specs.Flags.{flag_at};
ghost use Rattle.ctl_bdd.specs.Inner.Flags.{IsClosed};

use crate::flags::{new_flags, set_all};
use net_model::{Checked, Gate, Netlist, is_set};
use rec_bits::{Items, NoMemory};
use std::alloc::Global;

fn with_flag(alloc: Global, flags: &[bool], nets: &[u32]) -> Result<Items<u32>, NoMemory>
    ensures { IfOk result (λ those. those ≡ filter (flag_at flags.now) nets.now) }
{
    let mut those = Items::new(alloc);
    for net in nets {
        if is_set(flags, *net) {
            those.push(*net)?;
        }
    }
    Ok(those)
}

// The control places of nets that have their flag set.
pub(crate) fn places_with_flag(
    alloc: Global,
    netlist: &Netlist,
    flags: &[bool],
) -> Result<Items<u32>, NoMemory>
    ensures { IfOk result (λ places. places ≡ filter (flag_at flags.now) (control_places netlist.now)) }
{
    let places = netlist.control_places(alloc)?;
    with_flag(alloc, flags, places.as_slice())
}

// Flags that are set at these of so many nets.
pub(crate) fn flags_at(alloc: Global, nets: usize, those: &[u32]) -> Result<Items<bool>, NoMemory>
    requires { AllByRecursion (λ n. n < nets) those.now }
    ensures long { IfOk result (λ flags. length flags ≡ nets) }
    ensures flags { IfOk result (λ flags. (n : ℕ) → n < nets → flag_at flags n ≡ list_any (nat_eq n) those.now) }
{
    let mut flags = new_flags(alloc, nets)?;
    set_all(&mut flags, those);
    Ok(flags)
}

// Sets the flags of all that a net depends on through its gate, if its own flag is set.
fn set_named(alloc: Global, flags: &mut Items<bool>, gate: &Gate, net: u32) -> Result<(), NoMemory>
    requires { AllByRecursion (λ n. n < length flags.old) (gate_nets gate.now) }
    ensures long { length flags.new ≡ length flags.old }
    ensures flags { OnOk result ((n : ℕ) →
        flag_at flags.new n
        ≡ (flag_at flags.old n || (flag_at flags.old net && list_any (nat_eq n) (gate_nets gate.now)))) }
{
    if is_set(flags.as_slice(), net) {
        let named = gate.named(alloc)?;
        set_all(flags, named.as_slice());
    }
    Ok(())
}

// For each net whether one of these is it or depends on it, from the last net in order to the
// first.
pub(crate) fn needed_flags(
    alloc: Global,
    checked: &Checked,
    those: &[u32],
) -> Result<Items<bool>, NoMemory>
    requires inside { AllByRecursion (λ n. n < length checked.now.netlist.nets) those.now }
    requires control { AllByRecursion (λ n. is_control checked.now.netlist n ≡ true) those.now }
    ensures closed { IfOk result (IsClosed checked.now.netlist) }
    ensures those { IfOk result (λ flags. (n : ℕ) → list_any (nat_eq n) those.now ≡ true → flag_at flags n ≡ true) }
{
    let nets = checked.netlist().nets.as_slice();
    let order = checked.order().as_slice();
    let mut flags = flags_at(alloc, nets.len(), those)?;
    let mut left = order.len();
    while left > 0 {
        left -= 1;
        let net = order[left];
        set_named(alloc, &mut flags, &nets[net as usize].gate, net)?;
    }
    Ok(flags)
}

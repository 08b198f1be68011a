//! Netlists from bytes.

ghost use Rattle.std.specs.Prelude.{◌≡◌, ◌^◌, ◌<◌, true, length, IfOk, IfErr, MatchResult};
ghost use Rattle.net_model.specs.CheckedRules.{IsWellFormed};
ghost use Rattle.net_model.specs.Editions.{is_banked};
ghost use Rattle.net_model.specs.NetFaults.{Refuses};
ghost use Rattle.net_model.specs.Written.{model_of_units};
ghost use Rattle.net_front.specs.Fronts.{IsModedOf, IsTakenAs, IsViewOf, RefusesIf, SaysNet, IsItemsRefusal, IsRuleRefusal};

use crate::flat::flatten;
use bank_view::view;
use net_check::{check, check_modes};
use net_model::{CheckFault, Modes, NetFault, Netlist, Units, is_banked};
use rec_bits::{NoMemory, ParseFault};
use std::alloc::Global;

/// Why bytes were not taken as a netlist.
#[derive(Clone, Copy, Debug, PartialEq, Eq)]
pub enum NetRefusal {
    /// They are no netlist text; the offset at which that shows.
    Text(u64),
    /// They are one, and this is the first rule that it breaks.
    Fault(NetFault),
    /// Want of memory.
    Memory,
}

impl From<NoMemory> for NetRefusal {
    ghost from_gives = { λ _ refusal. refusal ≡ NetRefusal.Memory };

    ghost use Rattle.std.specs.Prelude.{◌≡◌};
    ghost use Rattle.net_front.specs.declared.front.NetRefusal.{NetRefusal};

    fn from(_cause: NoMemory) -> NetRefusal {
        NetRefusal::Memory
    }
}

impl From<ParseFault> for NetRefusal {
    ghost from_gives = { λ fault refusal. refusal ≡ parse_refusal fault };

    ghost use Rattle.std.specs.Prelude.{◌≡◌};
    ghost use Rattle.net_front.specs.Fronts.{parse_refusal};

    fn from(fault: ParseFault) -> NetRefusal {
        match fault {
            ParseFault::Text(at) => NetRefusal::Text(at),
            ParseFault::Memory => NetRefusal::Memory,
        }
    }
}

impl From<CheckFault> for NetRefusal {
    ghost from_gives = { λ fault refusal. refusal ≡ check_refusal fault };

    ghost use Rattle.std.specs.Prelude.{◌≡◌};
    ghost use Rattle.net_front.specs.Fronts.{check_refusal};

    fn from(fault: CheckFault) -> NetRefusal {
        match fault {
            CheckFault::Fault(fault) => NetRefusal::Fault(fault),
            CheckFault::Memory => NetRefusal::Memory,
        }
    }
}

// The items that the bytes say.
pub(crate) fn items(alloc: Global, bytes: &[u8]) -> Result<Units, NetRefusal>
    requires { length bytes.now < 2 ^ 32 }
    ensures found { IfOk result (λ units. SaysNet bytes.now (model_of_units units)) }
    ensures refused { IfErr result (IsItemsRefusal bytes.now) }
{
    let units = net_parser::read(alloc, bytes)?;
    Ok(units)
}

// The view of a netlist that has a bank, where the netlist keeps the rules: then the view does.
fn viewed(alloc: Global, netlist: Netlist) -> Result<Modes, CheckFault>
    requires formed { IsWellFormed netlist }
    requires banked { is_banked netlist.edition ≡ true }
    ensures { MatchResult result (IsViewOf netlist) (Refuses netlist) }
{
    let checked = check(alloc, netlist)?;
    let view = view(alloc, checked.netlist())?;
    check_modes(alloc, view)
}

// What a netlist is in its modes, or its view where it has a bank, where it keeps the rules.
fn seen(alloc: Global, netlist: Netlist) -> Result<Modes, CheckFault>
    requires { IsWellFormed netlist }
    ensures { MatchResult result (IsTakenAs (is_banked netlist.edition) netlist)
        (RefusesIf (is_banked netlist.edition) netlist) }
{
    if is_banked(netlist.edition) {
        return viewed(alloc, netlist);
    }
    check_modes(alloc, netlist)
}

// What the netlist of the items is in its modes, or its view where it has a bank, where the netlist
// keeps the rules in each.
pub(crate) fn modes(alloc: Global, units: &Units) -> Result<Modes, NetRefusal>
    requires { length units.now.items < 2 ^ 32 }
    ensures found { IfOk result (IsModedOf (model_of_units units.now)) }
    ensures refused { IfErr result (IsRuleRefusal (model_of_units units.now)) }
{
    let netlist = flatten(alloc, units)?;
    let modes = seen(alloc, netlist)?;
    Ok(modes)
}

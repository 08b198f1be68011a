//! Netlists from bytes, for commands that take some editions.

ghost use Rattle.std.specs.Prelude.{◌≡◌, true, ◌^◌, ◌<◌, ◌≤◌, length, IfOk, IfErr};
ghost use Rattle.net_model.specs.declared.fault.NetFault.TheVariants.{Role as LacksRole};
ghost use Rattle.net_model.specs.Written.{model_of_units};
ghost use Rattle.net_front.specs.Fronts.{IsCheckedOf, IsModedOf, IsNetFile, IsRuleRefusal};
ghost use Rattle.net_front.specs.Taken.{IsBankedRefusal, IsTakenRefusal, added_role, is_behind_roles as behind_roles, newer_of, unbanked_role};
ghost use Rattle.net_model.specs.Editions.{is_banked};
ghost use Rattle.net_front.specs.declared.front.NetRefusal.TheVariants.{Fault};

use crate::flat::flatten;
use crate::front::{NetRefusal, items, modes};
use net_check::check;
use net_model::{Checked, Modes, NetFault, Role, Units, is_banked};
use std::alloc::Global;

// Whether the rule is tried behind N6.
fn is_behind_roles(fault: NetFault) -> bool
    ensures { result ≡ behind_roles fault }
{
    match fault {
        NetFault::Enable(_)
        | NetFault::ControlOp(_)
        | NetFault::WideSelect(_)
        | NetFault::FileAddr(_) => true,
        NetFault::Duplicate(_)
        | NetFault::Unknown(_)
        | NetFault::Width(_)
        | NetFault::Driver(_)
        | NetFault::Cycle(_)
        | NetFault::Role(_)
        | NetFault::AlwaysClash
        | NetFault::Limit { .. }
        | NetFault::PatternLarge(_)
        | NetFault::TooMany(_) => false,
    }
}

// The part that an edition adds, as N6 names it.
fn added_role(edition: u8) -> Role
    ensures { result ≡ added_role edition }
{
    match edition {
        3 => Role::Mode,
        4 => Role::Bank,
        _ => Role::File,
    }
}

// What the command that takes no texts but those with a bank refuses another as.
fn unbanked_role(edition: u8) -> Role
    ensures { result ≡ unbanked_role edition }
{
    match edition {
        3 => Role::Mode,
        _ => Role::Bank,
    }
}

// What a refusal of the items is told as, where their edition isn't taken and adds this part.
fn newer(role: Role, refusal: NetRefusal) -> NetRefusal
    ensures { result ≡ newer_of role refusal }
{
    match refusal {
        NetRefusal::Fault(fault) if is_behind_roles(fault) => {
            NetRefusal::Fault(NetFault::Role(role))
        }
        _ => refusal,
    }
}

// Why items are refused whose edition isn't taken and adds this part, by what the rules say of
// them.
fn newer_refusal(role: Role, modes: Result<Modes, NetRefusal>) -> NetRefusal
    ensures kept { IfOk modes (λ _. result ≡ Fault (LacksRole role)) }
    ensures refused { IfErr modes (λ refusal. result ≡ newer_of role refusal) }
{
    match modes {
        Ok(_) => NetRefusal::Fault(NetFault::Role(role)),
        Err(refusal) => newer(role, refusal),
    }
}

// The netlist of the items of an edition without modes, where it keeps the rules.
fn checked(alloc: Global, units: &Units) -> Result<Checked, NetRefusal>
    requires few { length units.now.items < 2 ^ 32 }
    requires alone { units.now.edition < 3 }
    ensures found { IfOk result (IsCheckedOf (model_of_units units.now)) }
    ensures refused { IfErr result (IsRuleRefusal (model_of_units units.now)) }
{
    let netlist = flatten(alloc, units)?;
    let checked = check(alloc, netlist)?;
    Ok(checked)
}

/// The items of a netlist's text whose edition is `newest` at most, 1 where it tells none, and
/// their netlist with what it is in its modes; of a text with a bank it is the view that is told.
/// `Text` comes exactly where the bytes are no netlist text, with the offset of the first token such
/// that those before it begin some text and with it they don't, or the length of the bytes where all
/// of them begin one. `Fault` comes exactly where they are one that breaks a rule, with the first;
/// each is tried in all modes before the next. A text of a later edition is refused by the first
/// rule that it breaks, where that is N6 or tried before it, and else as one that breaks N6, with
/// the part that its edition adds. `Memory` is want of memory.
pub fn read_net(alloc: Global, bytes: &[u8], newest: u8) -> Result<(Units, Modes), NetRefusal>
    requires { length bytes.now < 2 ^ 32 }
    ensures found { IfOk result (λ read. IsNetFile bytes.now (model_of_units read.0)) }
    ensures taken { IfOk result (λ read. read.0.edition ≤ newest) }
    ensures modes { IfOk result (λ read. IsModedOf (model_of_units read.0) read.1) }
    ensures refused { IfErr result (IsTakenRefusal newest bytes.now) }
{
    let units = items(alloc, bytes)?;
    if units.edition > newest {
        let role = added_role(units.edition);
        return Err(newer_refusal(role, modes(alloc, &units)));
    }
    let modes = modes(alloc, &units)?;
    Ok((units, modes))
}

/// The items of a netlist's text that has a bank, and the view of their netlist. The refusals of
/// such a text are those of `read_net`. A text of another edition is refused: by the first rule that
/// it breaks, where that is N6 or tried before it, and else as one that breaks N6, with the mode
/// where its edition has one, and else with the bank.
pub fn read_banked(alloc: Global, bytes: &[u8]) -> Result<(Units, Modes), NetRefusal>
    requires { length bytes.now < 2 ^ 32 }
    ensures found { IfOk result (λ read. IsNetFile bytes.now (model_of_units read.0)) }
    ensures banked { IfOk result (λ read. is_banked read.0.edition ≡ true) }
    ensures modes { IfOk result (λ read. IsModedOf (model_of_units read.0) read.1) }
    ensures refused { IfErr result (IsBankedRefusal bytes.now) }
{
    let units = items(alloc, bytes)?;
    if !is_banked(units.edition) {
        let role = unbanked_role(units.edition);
        return Err(newer_refusal(role, modes(alloc, &units)));
    }
    let modes = modes(alloc, &units)?;
    Ok((units, modes))
}

/// The items of a text whose edition is `newest` at most, 1 where it tells none, and their netlist,
/// for a command that takes none with modes or a bank: these are of editions 3 and 4. The refusals
/// of such a text are those of `read_net`. A text of a later edition is refused: by the first rule
/// that it breaks, where that is N6 or tried before it, and else as one that breaks N6, with the
/// part that its edition adds.
pub fn read_taken(alloc: Global, bytes: &[u8], newest: u8) -> Result<(Units, Checked), NetRefusal>
    requires bytes { length bytes.now < 2 ^ 32 }
    requires alone { newest < 3 }
    ensures found { IfOk result (λ read. IsNetFile bytes.now (model_of_units read.0)) }
    ensures taken { IfOk result (λ read. read.0.edition ≤ newest) }
    ensures netlist { IfOk result (λ read. IsCheckedOf (model_of_units read.0) read.1) }
    ensures refused { IfErr result (IsTakenRefusal newest bytes.now) }
{
    let units = items(alloc, bytes)?;
    if units.edition > newest {
        let role = added_role(units.edition);
        return Err(newer_refusal(role, modes(alloc, &units)));
    }
    let checked = checked(alloc, &units)?;
    Ok((units, checked))
}

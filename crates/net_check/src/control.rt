// The rules on the nets that stand in control places.

ghost use Rattle.std.specs.Prelude.{◌≡◌, IfOk, MatchOption, Some};
ghost use Rattle.net_model.specs.CheckedRules.{HasRoles, HasStaticFileAddrs};
ghost use Rattle.net_model.specs.Depends.{IsAcyclic};
ghost use Rattle.rec_bits.specs.Faults.{least, lesser_offset};
ghost use Rattle.net_model.specs.Control.{enables, selectors};
ghost use Rattle.net_model.specs.NetFaults.{FaultOf, failing, name_at};
ghost use Rattle.net_model.specs.Nets.{width_at};
ghost use Rattle.net_model.specs.Order.{IsOrder};
ghost use Rattle.net_check.specs.Inner.Control.{HasFlags, KeepsControl, KeepsStatics, passes};

use net_model::{NetFault, Netlist, Property, flags_of, is_set};
use rec_bits::{Items, NoMemory};
use std::alloc::Global;

// What a selector's width has to be where the selector isn't static.
const NARROW: u8 = 1;

// A rule on a net that stands in a control place.
#[derive(Clone, Copy)]
pub(crate) enum Rule {
    // N7 and N14: it is static.
    Enable,
    // N8: where it is static, it depends on gates alone that control may use.
    ControlOp,
    // N9: it is static or one bit wide.
    WideSelect,
}

// For each net whether it is static, and whether all gates that it depends on are for control.
#[derive(Drop)]
pub(crate) struct Flags {
    pub statics: Items<bool>,
    pub controls: Items<bool>,
}

impl Flags {
    // The flags of the nets of a netlist, which stand in this order.
    fn new(alloc: Global, netlist: &Netlist, order: &[u32]) -> Result<Flags, NoMemory>
        requires { IsOrder netlist.now order.now }
        ensures { IfOk result (HasFlags netlist.now) }
    {
        let statics = flags_of(alloc, Property::Static, netlist, order)?;
        let controls = flags_of(alloc, Property::Control, netlist, order)?;
        Ok(Flags { statics, controls })
    }
}

fn width_of(netlist: &Netlist, net: u32) -> u8
    ensures { result ≡ width_at netlist.now net }
{
    match netlist.net(net) {
        Some(net) => net.width,
        None => 0,
    }
}

fn keeps(rule: Rule, netlist: &Netlist, flags: &Flags, net: u32) -> bool
    requires { HasFlags netlist.now flags.now }
    ensures { result ≡ passes rule netlist.now net }
{
    let is_static = is_set(flags.statics.as_slice(), net);
    match rule {
        Rule::Enable => is_static,
        Rule::ControlOp => !is_static || is_set(flags.controls.as_slice(), net),
        Rule::WideSelect => is_static || width_of(netlist, net) == NARROW,
    }
}

// The lesser of an offset and one that was found before.
fn lesser(found: Option<u64>, at: u64) -> u64
    ensures { Some result ≡ lesser_offset found (Some at) }
{
    match found {
        Some(other) => other.min(at),
        None => at,
    }
}

// The lesser of two offsets, where there are any.
fn sooner_of(found: Option<u64>, other: Option<u64>) -> Option<u64>
    ensures { result ≡ lesser_offset found other }
{
    match other {
        Some(at) => Some(lesser(found, at)),
        None => found,
    }
}

// The least offset of these nets that break a rule.
fn least_broken(rule: Rule, netlist: &Netlist, flags: &Flags, nets: &[u32]) -> Option<u64>
    requires { HasFlags netlist.now flags.now }
    ensures { result ≡ least (failing (passes rule netlist.now) (name_at netlist.now) nets.now) }
{
    let mut found = None;
    for net in nets {
        if !keeps(rule, netlist, flags, *net) {
            found = Some(lesser(found, netlist.name_at(*net)));
        }
    }
    found
}

// The first rule that is broken, where these nets stand in the places of enables and selectors.
fn first_broken(
    netlist: &Netlist,
    flags: &Flags,
    enable_nets: &[u32],
    selector_nets: &[u32],
) -> Option<NetFault>
    requires acyclic { IsAcyclic netlist.now }
    requires roles { HasRoles netlist.now }
    requires flags { HasFlags netlist.now flags.now }
    requires enables { enable_nets.now ≡ enables netlist.now }
    requires selectors { selector_nets.now ≡ selectors netlist.now }
    ensures { MatchOption result (KeepsControl netlist.now) (FaultOf netlist.now) }
{
    if let Some(at) = least_broken(Rule::Enable, netlist, flags, enable_nets) {
        return Some(NetFault::Enable(at));
    }
    let enable_at = least_broken(Rule::ControlOp, netlist, flags, enable_nets);
    let selector_at = least_broken(Rule::ControlOp, netlist, flags, selector_nets);
    if let Some(at) = sooner_of(enable_at, selector_at) {
        return Some(NetFault::ControlOp(at));
    }
    match least_broken(Rule::WideSelect, netlist, flags, selector_nets) {
        Some(at) => Some(NetFault::WideSelect(at)),
        None => None,
    }
}

// The first rule that is broken, where these nets stand in the places of enables.
fn fault_at_enables(
    alloc: Global,
    netlist: &Netlist,
    flags: &Flags,
    enable_nets: &[u32],
) -> Result<Option<NetFault>, NoMemory>
    requires acyclic { IsAcyclic netlist.now }
    requires roles { HasRoles netlist.now }
    requires flags { HasFlags netlist.now flags.now }
    requires enables { enable_nets.now ≡ enables netlist.now }
    ensures { IfOk result (λ found. MatchOption found (KeepsControl netlist.now) (FaultOf netlist.now)) }
{
    let selector_nets = netlist.selectors(alloc)?;
    Ok(first_broken(netlist, flags, enable_nets, selector_nets.as_slice()))
}

// The first rule that is broken, by the flags of the nets.
fn fault_by_flags(
    alloc: Global,
    netlist: &Netlist,
    flags: &Flags,
) -> Result<Option<NetFault>, NoMemory>
    requires acyclic { IsAcyclic netlist.now }
    requires roles { HasRoles netlist.now }
    requires flags { HasFlags netlist.now flags.now }
    ensures { IfOk result (λ found. MatchOption found (KeepsControl netlist.now) (FaultOf netlist.now)) }
{
    let enable_nets = netlist.enables(alloc)?;
    fault_at_enables(alloc, netlist, flags, enable_nets.as_slice())
}

// N14, where it is broken, by the flags of the nets.
fn file_fault(alloc: Global, netlist: &Netlist, flags: &Flags) -> Result<Option<NetFault>, NoMemory>
    requires acyclic { IsAcyclic netlist.now }
    requires roles { HasRoles netlist.now }
    requires kept { KeepsControl netlist.now }
    requires flags { HasFlags netlist.now flags.now }
    ensures { IfOk result (λ found. MatchOption found (HasStaticFileAddrs netlist.now) (FaultOf netlist.now)) }
{
    let addrs = netlist.file_addrs(alloc)?;
    match least_broken(Rule::Enable, netlist, flags, addrs.as_slice()) {
        Some(at) => Ok(Some(NetFault::FileAddr(at))),
        None => Ok(None),
    }
}

// The first of the rules N7 to N9 and N14 that is broken.
pub(crate) fn control_fault(
    alloc: Global,
    netlist: &Netlist,
    order: &[u32],
) -> Result<Option<NetFault>, NoMemory>
    requires roles { HasRoles netlist.now }
    requires order { IsOrder netlist.now order.now }
    ensures { IfOk result (λ found. MatchOption found (KeepsStatics netlist.now) (FaultOf netlist.now)) }
{
    let flags = Flags::new(alloc, netlist, order)?;
    match fault_by_flags(alloc, netlist, &flags)? {
        Some(fault) => Ok(Some(fault)),
        None => file_fault(alloc, netlist, &flags),
    }
}

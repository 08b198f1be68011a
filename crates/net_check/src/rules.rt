// The check of a netlist.

ghost use Rattle.std.specs.Prelude.{◌≡◌, ℕ, List, MatchResult, map};
ghost use Rattle.net_model.specs.declared.fault.NetFault.{NetFault};
ghost use Rattle.net_model.specs.CheckedRules.{IsWellFormed, KeepsRules};
ghost use Rattle.net_model.specs.NetFaults.{Accepts, FaultOf, IsFaultOrMemory, Refuses};
ghost use Rattle.net_model.specs.Nets.{gate_nets};
ghost use Rattle.net_model.specs.Order.{IsOrder};

use crate::control::control_fault;
use crate::cycle::least_on_cycle;
use crate::graph::graph_of;
use crate::role::lacking_role;
use crate::walk::{Sorted, sort};
use net_model::{CheckFault, Checked, NetFault, Netlist};
use rec_bits::Items;
use std::alloc::Global;

// The nets in an order, or N5 with the least net that lies on a cycle.
fn order_of(
    alloc: Global,
    netlist: &Netlist,
    graph: &[Items<u32>],
) -> Result<Items<u32>, CheckFault>
    requires formed { IsWellFormed netlist.now }
    requires graph { graph.now ≡ map (λ net. gate_nets net.gate) netlist.now.nets }
    ensures { MatchResult result (IsOrder netlist.now) (Refuses netlist.now) }
{
    match sort(alloc, graph)? {
        Sorted::Order(order) => Ok(order),
        Sorted::Cycle(known) => {
            let net = least_on_cycle(alloc, graph, known)?;
            let fault = NetFault::Cycle(netlist.name_at(net));
            Err(CheckFault::Fault(fault))
        }
    }
}

// The nets of a netlist in an order, or N5.
fn net_order(alloc: Global, netlist: &Netlist) -> Result<Items<u32>, CheckFault>
    requires { IsWellFormed netlist.now }
    ensures { MatchResult result (IsOrder netlist.now) (Refuses netlist.now) }
{
    let graph = graph_of(alloc, netlist.nets.as_slice())?;
    order_of(alloc, netlist, graph.as_slice())
}

// Refuses a netlist that breaks one of N6 to N9 and N14.
fn check_parts(alloc: Global, netlist: &Netlist, order: &[u32]) -> Result<(), CheckFault>
    requires formed { IsWellFormed netlist.now }
    requires order { IsOrder netlist.now order.now }
    ensures { MatchResult result (λ _. KeepsRules netlist.now order.now) (Refuses netlist.now) }
{
    if let Some(role) = lacking_role(netlist) {
        return Err(CheckFault::Fault(NetFault::Role(role)));
    }
    match control_fault(alloc, netlist, order)? {
        Some(fault) => Err(CheckFault::Fault(fault)),
        None => Ok(()),
    }
}

// An order of the nets of a netlist that keeps N5 to N9 and N14.
fn checked_order(alloc: Global, netlist: &Netlist) -> Result<Items<u32>, CheckFault>
    requires { IsWellFormed netlist.now }
    ensures { MatchResult result (KeepsRules netlist.now) (Refuses netlist.now) }
{
    let order = net_order(alloc, netlist)?;
    check_parts(alloc, netlist, order.as_slice())?;
    Ok(order)
}

/// Accepts a netlist that keeps N5 to N9 and N14, with an order of its nets in which each stands
/// behind those that it depends on. The netlist has to keep N1 to N4 and N11.
///
/// # Errors
///
/// The first of the rules N5 to N9 and N14 that is broken, in this order. All but N6 come with the
/// offset of a name: N5 with that of the item of the least-numbered net that lies on a cycle, the
/// others with the least one of the items of the nets that stand in a control place, or of N14 as
/// an address of a file, and break the rule. N6 comes with the first part that is lacking. The
/// netlist is given up. `Memory` is want of memory.
pub fn check(alloc: Global, netlist: Netlist) -> Result<Checked, CheckFault>
    requires { IsWellFormed netlist }
    ensures found { MatchResult result (Accepts netlist) (Refuses netlist) }
    ensures accepted { (order : List ℕ) → KeepsRules netlist order →
        MatchResult result (λ _. Unit {0}) (λ cause. cause ≡ CheckFault.Memory) }
    ensures refused { (fault : NetFault) → FaultOf netlist fault → MatchResult result (λ _. ⊥) (IsFaultOrMemory fault) }
{
    let order = checked_order(alloc, &netlist)?;
    Ok(Checked::new(netlist, order))
}

//! What a run of words shows of all faults of a netlist.

ghost use Rattle.std.specs.Prelude.{◌≡◌, ◌<◌, ◌++◌, [], ◌∷◌, IfOk, OnOk, length};
ghost use Rattle.net_model.specs.Nets.{memory_size, width_at};
ghost use Rattle.net_model.specs.Widths.{IsState};
ghost use Rattle.fault_sim.specs.Faulty.{IsFault};
ghost use Rattle.fault_sim.specs.Reports.{bit_faults, finding as finding_in, findings as findings_of, told};

use crate::{Fault, FaultSim, Finding, test_fault};
use net_model::State;
use rec_bits::{Items, NoMemory};
use std::alloc::Global;

// Adds a fault with what the words show of it.
fn test_one(
    sim: &mut FaultSim<'_>,
    start: &State,
    good: &[u64],
    fault: Fault,
    found: &mut Items<(Fault, Finding)>,
) -> Result<(), NoMemory>
    requires fault { IsFault sim.old.netlist fault }
    requires start { IsState sim.old.netlist start.now }
    requires even { length good.now ≡ memory_size sim.old.netlist.storages }
    ensures netlist { sim.new.netlist ≡ sim.old.netlist }
    ensures words { sim.new.words ≡ sim.old.words }
    ensures found { OnOk result (found.new ≡ found.old
        ++ (fault, finding_in sim.old.netlist sim.old.words start.now good.now fault) ∷ []) }
{
    let finding = test_fault(sim, fault, start, good);
    found.push((fault, finding))
}

// Adds both faults of a bit.
fn test_bit(
    sim: &mut FaultSim<'_>,
    start: &State,
    good: &[u64],
    net: u32,
    bit: u8,
    found: &mut Items<(Fault, Finding)>,
) -> Result<(), NoMemory>
    requires net { net < length sim.old.netlist.nets }
    requires bit { bit < width_at sim.old.netlist net }
    requires start { IsState sim.old.netlist start.now }
    requires even { length good.now ≡ memory_size sim.old.netlist.storages }
    ensures netlist { sim.new.netlist ≡ sim.old.netlist }
    ensures words { sim.new.words ≡ sim.old.words }
    ensures found { OnOk result (found.new ≡ found.old
        ++ told sim.old.netlist sim.old.words start.now good.now (bit_faults net bit 1)) }
{
    let low = Fault {
        net,
        bit,
        value: false,
    };
    test_one(sim, start, good, low, found)?;
    let high = Fault { value: true, ..low };
    test_one(sim, start, good, high, found)
}

// Adds all faults of a net.
fn test_net(
    sim: &mut FaultSim<'_>,
    start: &State,
    good: &[u64],
    net: u32,
    width: u8,
    found: &mut Items<(Fault, Finding)>,
) -> Result<(), NoMemory>
    requires net { net < length sim.old.netlist.nets }
    requires width { width ≡ width_at sim.old.netlist net }
    requires start { IsState sim.old.netlist start.now }
    requires even { length good.now ≡ memory_size sim.old.netlist.storages }
    ensures netlist { sim.new.netlist ≡ sim.old.netlist }
    ensures words { sim.new.words ≡ sim.old.words }
    ensures found { OnOk result (found.new ≡ found.old
        ++ told sim.old.netlist sim.old.words start.now good.now (bit_faults net 0 width)) }
{
    for bit in 0..width {
        test_bit(sim, start, good, net, bit, found)?;
    }
    Ok(())
}

/// What the simulator's words show of each fault, by net, bit and value, 0 before 1: each from the
/// state `start`, held against `good`, what the memory holds without a fault.
pub fn findings(
    alloc: Global,
    sim: &mut FaultSim<'_>,
    start: &State,
    good: &[u64],
) -> Result<Items<(Fault, Finding)>, NoMemory>
    requires start { IsState sim.old.netlist start.now }
    requires even { length good.now ≡ memory_size sim.old.netlist.storages }
    ensures netlist { sim.new.netlist ≡ sim.old.netlist }
    ensures words { sim.new.words ≡ sim.old.words }
    ensures found { IfOk result (λ found. found
        ≡ findings_of sim.old.netlist sim.old.words start.now good.now) }
{
    let mut found = Items::new(alloc);
    let nets = sim.netlist().nets.as_slice();
    for (place, net) in nets.iter().enumerate() {
        test_net(sim, start, good, place as u32, net.width, &mut found)?;
    }
    Ok(found)
}

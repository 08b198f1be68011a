//! What is told of each net by its gate and by what is told of the nets that it names.

ghost use Rattle.std.specs.Prelude.{◌≡◌, ◌&&◌, IfOk, length, replicate, true};
ghost use Rattle.net_model.specs.CheckedRules.{is_control_gate};
ghost use Rattle.net_model.specs.Order.{IsOrder};
ghost use Rattle.net_model.specs.Symbolic.{all_nets, reads_state};
ghost use Rattle.net_model.specs.Flags.{flag_at, has, is_control_pair, is_local};

use crate::{Gate, Netlist};
use rec_bits::{Items, NoMemory, Op1, Op2};
use std::alloc::Global;

/// What a net may have together with all that it depends on.
#[derive(Clone, Copy)]
pub enum Property {
    /// No state is read.
    Static,
    /// All gates are those that control may use.
    Control,
}

/// Whether a net has its flag set, which those past the last net have.
pub fn is_set(flags: &[bool], net: u32) -> bool
    ensures { result ≡ flag_at flags.now net }
{
    match flags.get(net as usize) {
        Some(flag) => *flag,
        None => true,
    }
}

fn all_set(flags: &[bool], nets: &[u32]) -> bool
    ensures { result ≡ all_nets (flag_at flags.now) nets.now }
{
    for net in nets {
        if !is_set(flags, *net) {
            return false;
        }
    }
    true
}

fn is_state_read(gate: &Gate) -> bool
    ensures { result ≡ reads_state gate.now }
{
    match gate {
        Gate::Reg(_) | Gate::Read { .. } => true,
        _ => false,
    }
}

fn is_for_control(gate: &Gate) -> bool
    ensures { result ≡ is_control_gate gate.now }
{
    match gate {
        Gate::Word(_)
        | Gate::Const(_)
        | Gate::Wire(_)
        | Gate::Slice { .. }
        | Gate::Cat(_, _)
        | Gate::Zext(_)
        | Gate::Sext(_)
        | Gate::Un(Op1::Not, _)
        | Gate::Case { .. } => true,
        Gate::Bin(op, _, _) => is_for_control_pair(*op),
        _ => false,
    }
}

fn is_for_control_pair(op: Op2) -> bool
    ensures { result ≡ is_control_pair op }
{
    match op {
        Op2::And | Op2::Or | Op2::Xor | Op2::Eq => true,
        _ => false,
    }
}

// Whether a gate has the property where all nets that it names have it.
fn is_allowed(property: Property, gate: &Gate) -> bool
    ensures { result ≡ is_local property gate.now }
{
    match property {
        Property::Static => !is_state_read(gate),
        Property::Control => is_for_control(gate),
    }
}

fn all_flags(alloc: Global, nets: usize) -> Result<Items<bool>, NoMemory>
    ensures { IfOk result (λ flags. flags ≡ replicate nets true) }
{
    Ok(Items::from_vec(vec![in alloc; true; nets]?))
}

fn flag_of(property: Property, flags: &[bool], gate: &Gate, named: &[u32]) -> bool
    ensures { result ≡ (is_local property gate.now && all_nets (flag_at flags.now) named.now) }
{
    is_allowed(property, gate) && all_set(flags, named)
}

/// For each net whether it has the property, one net after the other in their order.
pub fn flags_of(
    alloc: Global,
    property: Property,
    netlist: &Netlist,
    order: &[u32],
) -> Result<Items<bool>, NoMemory>
    requires { IsOrder netlist.now order.now }
    ensures long { IfOk result (λ flags. length flags ≡ length netlist.now.nets) }
    ensures flags { IfOk result (λ flags. flag_at flags ≡ has property netlist.now) }
{
    let nets = netlist.nets.as_slice();
    let mut flags = all_flags(alloc, nets.len())?;
    for id in order {
        let at = *id as usize;
        let gate = &nets[at].gate;
        let named = gate.named(alloc)?;
        let flag = flag_of(property, flags.as_slice(), gate, named.as_slice());
        flags.set(at, flag);
    }
    Ok(flags)
}

//! The nets that a gate names.

ghost use Rattle.std.specs.Prelude.{◌≡◌, ◌∷◌, IfOk};
ghost use Rattle.net_model.specs.Nets.{driver_nets, gate_nets, row_nets};

use crate::Gate;
use rec_bits::{Items, NoMemory};
use std::alloc::Global;

impl Gate {
    /// The nets that the gate names, in its order; one that it names twice stands there twice.
    pub fn named(&self, alloc: Global) -> Result<Items<u32>, NoMemory>
        ensures { IfOk result (λ named. named ≡ gate_nets self.now) }
    {
        match self {
            Gate::Word(_) | Gate::Reg(_) | Gate::Const(_) => Ok(Items::new(alloc)),
            Gate::Read { addr: a, .. }
            | Gate::Wire(a)
            | Gate::Un(_, a)
            | Gate::Slice { of: a, .. }
            | Gate::Zext(a)
            | Gate::Sext(a) => Items::from_slice(alloc, &[*a]),
            Gate::Bin(_, a, b) | Gate::Cat(a, b) => Items::from_slice(alloc, &[*a, *b]),
            Gate::Case { sel, rows, rest } => named_by_case(alloc, *sel, rows.as_slice(), *rest),
            Gate::Bus(drivers) => named_by_bus(alloc, drivers.as_slice()),
        }
    }
}

fn named_by_case(
    alloc: Global,
    sel: u32,
    rows: &[(u64, u32)],
    rest: Option<u32>,
) -> Result<Items<u32>, NoMemory>
    ensures { IfOk result (λ named. named ≡ sel ∷ row_nets rows.now rest) }
{
    let mut named = Items::new(alloc);
    named.push(sel)?;
    for row in rows {
        named.push(row.1)?;
    }
    if let Some(rest) = rest {
        named.push(rest)?;
    }
    Ok(named)
}

fn named_by_bus(alloc: Global, drivers: &[(u32, u32)]) -> Result<Items<u32>, NoMemory>
    ensures { IfOk result (λ named. named ≡ driver_nets drivers.now) }
{
    let mut named = Items::new(alloc);
    for driver in drivers {
        named.push(driver.0)?;
        named.push(driver.1)?;
    }
    Ok(named)
}

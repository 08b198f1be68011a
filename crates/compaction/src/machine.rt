//! A netlist with its patterns, and what their expressions read.

ghost use Rattle.std.specs.Prelude.{◌≡◌};
ghost use Rattle.net_model.specs.Occurs.{transfer_has_read};
ghost use Rattle.compaction.specs.Machines.{known_operation};
ghost use Rattle.compaction.specs.Inner.Machines.{HasTables};

use form_model::{RegSet, Step};
use live_sets::flag_at;
use transfer_set::Machine;

/// A netlist that code is made for, with what the expressions of its patterns read.
#[derive(Clone, Copy)]
pub struct KnownMachine<'a> {
    pub machine: Machine<'a>,
    /// For each expression of the pool the registers that it reads.
    pub registers: &'a [RegSet],
    /// And whether it reads the memory or the file.
    pub memory: &'a [bool],
}

/// Whether a step reads the memory or the file.
pub(crate) fn reads_memory(known: &KnownMachine<'_>, step: Step) -> bool
    requires { HasTables known.now }
    ensures { result ≡ transfer_has_read (known_operation known.now step).move }
{
    match known.machine.patterns.expr_of(step.pattern) {
        None => false,
        Some((None, value)) => flag_at(known.memory, value),
        Some((Some(addr), value)) => flag_at(known.memory, addr) || flag_at(known.memory, value),
    }
}

//! The registers that the condition of a branch reads.

ghost use Rattle.std.specs.Prelude.{◌≡◌, ◌<◌, IfSome, length, option_map, slice_get};
ghost use Rattle.compaction.specs.Tables.{KnowsReads};
ghost use Rattle.live_sets.specs.Listed.{AreListed};
ghost use Rattle.sym_expr.specs.Pools.{expr_of_id};
ghost use Rattle.code_gen.specs.Machines.{known_netlist, known_patterns};
ghost use Rattle.code_gen.specs.Inner.Registers.{AreConditionReads, pattern_condition};

use compaction::KnownMachine;
use form_model::RegSet;
use sym_expr::{ExprId, Node};

// The expression by which a pattern chooses between two values, if it does.
fn condition_of(known: &KnownMachine<'_>, pattern: u32) -> Option<ExprId>
    requires { AreListed known.now.machine }
    ensures within { IfSome result (λ id. id < length known.now.machine.pool.now) }
    ensures condition { option_map (expr_of_id known.now.machine.pool.now) result
        ≡ pattern_condition (slice_get (known_patterns known.now) pattern) }
{
    match known.machine.patterns.expr_of(pattern) {
        Some((None, value)) => match known.machine.pool.node(value) {
            Node::Select(condition, ..) => Some(condition),
            _ => None,
        },
        _ => None,
    }
}

/// The registers that the condition of a pattern reads, by which it chooses between two values: bit
/// `r` stands for the register of number `r`. A pattern without a condition reads none.
pub(crate) fn condition_registers(known: &KnownMachine<'_>, pattern: u32) -> RegSet
    requires tables { KnowsReads known.now }
    requires listed { AreListed known.now.machine }
    ensures { AreConditionReads (known_patterns known.now) pattern result }
{
    match condition_of(known, pattern) {
        Some(condition) => known.registers[condition as usize],
        None => 0,
    }
}

//! The registers that are live between groups of steps.

ghost use Rattle.std.specs.Prelude.{◌≡◌, [], ◌∷◌, length, map, IfOk};
ghost use Rattle.form_model.specs.Live.{live_before, regs_of};
ghost use Rattle.word_fit.specs.Groups.{lives_of};
ghost use Rattle.word_fit.specs.Machines.{machine_operation};
ghost use Rattle.live_sets.specs.Listed.{AreListed};
ghost use Rattle.live_sets.specs.Reading.{AreReads};

use crate::reads::reads_table;
use crate::regs::{minus, union};
use crate::steps::{reads_of, writes_of};
use form_model::{RegSet, Step};
use rec_bits::{Items, NoMemory};
use std::alloc::Global;
use transfer_set::Machine;
use word_fit::Group;

/// The registers that are live before a group, where `live` are live after it. `sets` has the
/// registers that the pool's expressions read, as `reads_table` gives them.
pub fn live_between(machine: &Machine<'_>, sets: &[RegSet], group: &[Step], live: RegSet) -> RegSet
    requires listed { AreListed machine.now }
    requires long { length sets.now ≡ length machine.now.pool.now }
    requires reads { AreReads machine.now.pool.now sets.now }
    ensures { regs_of result ≡ live_before (machine_operation machine.now) (group.now ∷ []) (regs_of live) }
{
    let _netlist = machine.checked.netlist();
    let written = writes_of(machine.patterns, group);
    let kept = minus(live, written);
    let read = reads_of(machine, sets, group);
    union(read, kept)
}

// As many empty sets as there are groups.
fn blank(alloc: Global, groups: &[Group]) -> Result<Items<RegSet>, NoMemory>
    ensures { IfOk result (λ sets. length sets ≡ length groups.now) }
{
    let mut sets = Items::new(alloc);
    for _group in groups {
        sets.push(0)?;
    }
    Ok(sets)
}

/// For each group the registers that are live after it, where `after` are live after the last.
/// `sets` has the registers that the pool's expressions read, as `reads_table` gives them.
pub fn live_with(
    alloc: Global,
    machine: &Machine<'_>,
    sets: &[RegSet],
    groups: &[Group],
    after: RegSet,
) -> Result<Items<RegSet>, NoMemory>
    requires listed { AreListed machine.now }
    requires long { length sets.now ≡ length machine.now.pool.now }
    requires reads { AreReads machine.now.pool.now sets.now }
    ensures { IfOk result (λ lives. map regs_of lives
        ≡ lives_of (machine_operation machine.now) groups.now (regs_of after)) }
{
    let mut lives = blank(alloc, groups)?;
    let mut live = after;
    let mut index = groups.len();
    while index > 0 {
        index -= 1;
        lives.set(index, live);
        live = live_between(machine, sets, groups[index].as_slice(), live);
    }
    Ok(lives)
}

/// For each group the registers that are live after it, where `after` are live after the last:
/// those that a later group reads before another writes them, and those of `after` that no later
/// group writes. Sets of registers have bit `r` for the register of number `r`. The table's
/// patterns are the netlist's, and its ids are the pool's, as `law_of_lists` says of a table over a
/// book. Want of memory is the only refusal.
pub fn live(
    alloc: Global,
    machine: &Machine<'_>,
    groups: &[Group],
    after: RegSet,
) -> Result<Items<RegSet>, NoMemory>
    requires { AreListed machine.now }
    ensures { IfOk result (λ lives. map regs_of lives
        ≡ lives_of (machine_operation machine.now) groups.now (regs_of after)) }
{
    let sets = reads_table(alloc, machine.pool)?;
    live_with(alloc, machine, sets.as_slice(), groups, after)
}

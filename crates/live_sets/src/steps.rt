//! What steps read and write of one another.

ghost use Rattle.std.specs.Prelude.{◌≡◌, ℕ, ◌<◌, All, List, length, IfOk};
ghost use Rattle.sym_expr.specs.declared.pool.Node.{Node};
ghost use Rattle.form_model.specs.Effects.{reads, register, same_destination, location_of, expr_reads, writes};
ghost use Rattle.form_model.specs.Live.{group_reads, group_writes, regs_of};
ghost use Rattle.word_fit.specs.Machines.{machine_operation};
ghost use Rattle.word_fit.specs.Steps.{step_operation};
ghost use Rattle.live_sets.specs.Listed.{AreListed, HasRowIds};
ghost use Rattle.live_sets.specs.Reading.{AreReads, model_of_location};

use crate::locations::{Location, cell_at, may_see};
use crate::reads::{flag_at, seen_table, set_at};
use crate::regs::{has, none, one, union};
use form_model::{RegSet, Step};
use net_model::Space;
use rec_bits::NoMemory;
use std::alloc::Global;
use transfer_set::{Machine, Patterns};
use word_fit::{Written, space_in, stores_cells, stores_in, written_by};

// The registers that a step reads.
fn step_reads(machine: &Machine<'_>, sets: &[RegSet], step: Step) -> RegSet
    requires numbered { All (HasRowIds machine.now.pool.now) machine.now.patterns.now.rows }
    requires long { length sets.now ≡ length machine.now.pool.now }
    requires reads { AreReads machine.now.pool.now sets.now }
    ensures { (r : ℕ) → r < 16 → regs_of result r ≡ reads (machine_operation machine.now step) (register r) }
{
    match machine.patterns.expr_of(step.pattern) {
        None => none(),
        Some((None, value)) => set_at(sets, value),
        Some((Some(addr), value)) => union(set_at(sets, addr), set_at(sets, value)),
    }
}

// The register that a step writes.
fn step_writes(patterns: &Patterns, step: Step) -> RegSet
    ensures { (pool : List Node) (r : ℕ) → r < 16 →
        regs_of result r ≡ writes (step_operation pool patterns.now step) r }
{
    match written_by(patterns, step) {
        Written::Register(register) => one(register),
        Written::Cells(_) | Written::Nothing => none(),
    }
}

// The registers that a group reads.
pub(crate) fn reads_of(machine: &Machine<'_>, sets: &[RegSet], group: &[Step]) -> RegSet
    requires numbered { All (HasRowIds machine.now.pool.now) machine.now.patterns.now.rows }
    requires long { length sets.now ≡ length machine.now.pool.now }
    requires reads { AreReads machine.now.pool.now sets.now }
    ensures { (r : ℕ) → r < 16 → regs_of result r ≡ group_reads (machine_operation machine.now) group.now r }
{
    match group {
        [] => none(),
        [step, rest @ ..] => union(
            step_reads(machine, sets, *step),
            reads_of(machine, sets, rest),
        ),
    }
}

// The registers that a group writes.
pub(crate) fn writes_of(patterns: &Patterns, group: &[Step]) -> RegSet
    ensures { (pool : List Node) (r : ℕ) → r < 16 →
        regs_of result r ≡ group_writes (step_operation pool patterns.now) group.now r }
{
    match group {
        [] => none(),
        [step, rest @ ..] => union(step_writes(patterns, *step), writes_of(patterns, rest)),
    }
}

// The location that a step writes. A pattern that isn't of the table stands for one that keeps the
// first storage.
fn location_of_step(machine: &Machine<'_>, step: Step) -> Location
    requires { All (HasRowIds machine.now.pool.now) machine.now.patterns.now.rows }
    ensures { model_of_location result ≡ location_of (machine_operation machine.now step) }
{
    match machine.patterns.storage_of(step.pattern) {
        None => Location::Register(0),
        Some(storage) => match machine.patterns.expr_of(step.pattern) {
            Some((Some(addr), _)) => {
                cell_at(
                    machine.pool,
                    space_in(machine.patterns, storage),
                    addr,
                    step.setting,
                )
            }
            _ => Location::Register(storage),
        },
    }
}

// Whether a step may see a write of the memory or of the file.
fn sees(
    alloc: Global,
    machine: &Machine<'_>,
    reader: Step,
    location: Location,
) -> Result<bool, NoMemory>
    requires { All (HasRowIds machine.now.pool.now) machine.now.patterns.now.rows }
    ensures { IfOk result (λ seen.
        seen ≡ reads (machine_operation machine.now reader) (model_of_location location)) }
{
    let flags = seen_table(alloc, machine.pool, reader.setting, location)?;
    match machine.patterns.expr_of(reader.pattern) {
        None => Ok(false),
        Some((None, value)) => Ok(flag_at(flags.as_slice(), value)),
        Some((Some(addr), value)) => {
            Ok(flag_at(flags.as_slice(), addr) || flag_at(flags.as_slice(), value))
        }
    }
}

/// Whether the first step may read what the second one writes. A read and a write of the memory, or
/// of the file, at addresses that their settings settle, to two different numbers, don't count, nor do
/// a read of the one and a write of the other. `sets` has the
/// registers that the pool's expressions read, as `reads_table` gives them.
pub fn touches(
    alloc: Global,
    machine: &Machine<'_>,
    sets: &[RegSet],
    reader: Step,
    writer: Step,
) -> Result<bool, NoMemory>
    requires listed { AreListed machine.now }
    requires long { length sets.now ≡ length machine.now.pool.now }
    requires reads { AreReads machine.now.pool.now sets.now }
    ensures { IfOk result (λ read. read
        ≡ reads (machine_operation machine.now reader)
        (location_of (machine_operation machine.now writer))) }
{
    let _netlist = machine.checked.netlist();
    match location_of_step(machine, writer) {
        Location::Register(register) => {
            let read = step_reads(machine, sets, reader);
            Ok(has(read, register))
        }
        location => sees(alloc, machine, reader, location),
    }
}

// The storage of a step. A pattern that isn't of the table stands for one that keeps the first
// storage.
fn storage_of(patterns: &Patterns, step: Step) -> u32
    ensures { (pool : List Node) → result ≡ (step_operation pool patterns.now step).storage }
{
    match patterns.storage_of(step.pattern) {
        Some(storage) => storage,
        None => 0,
    }
}

/// Whether two steps have one destination: a register, the memory, or a cell of the file.
#[tactic(auto, using(crate::proofs::Shared::file_shares, crate::proofs::Shared::memory_shares, crate::proofs::Shared::register_shares))]
pub fn shares(machine: &Machine<'_>, left: Step, right: Step) -> bool
    requires { AreListed machine.now }
    ensures { result ≡ same_destination (machine_operation machine.now left)
        (machine_operation machine.now right) }
{
    let _netlist = machine.checked.netlist();
    if stores_in(machine.patterns, Space::File, left) {
        return stores_cells(machine.patterns, right)
            && may_see(
                location_of_step(machine, left),
                location_of_step(machine, right),
            );
    }
    if stores_in(machine.patterns, Space::Memory, left) {
        return stores_in(machine.patterns, Space::Memory, right);
    }
    !stores_cells(machine.patterns, right)
        && storage_of(machine.patterns, left) == storage_of(machine.patterns, right)
}

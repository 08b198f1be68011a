//! The sets, and the values of field bits, that are wanted of a word for a group of steps.

ghost use Rattle.std.specs.Prelude.{◌≡◌, false, ◌<◌, [], ◌++◌, if◌then◌else◌, map, slice_get, IfOk, OnOk};
ghost use Rattle.form_model.specs.Live.{group_writes, regs_of};
ghost use Rattle.word_fit.specs.Fits.{group_stores};
ghost use Rattle.word_fit.specs.Machines.{machine_operation};
ghost use Rattle.nop_synth.specs.Wanted.{cell_sets, group_sets, has_cells, is_wanted, jump_sets, keep_at, option_list, place_of, register_sets, row_fields, row_set, space_sets, step_field, step_set};

use crate::meet::FieldValue;
use bit_bdd::SetId;
use form_model::{RegSet, Step};
use net_model::Space;
use rec_bits::{Items, NoMemory};
use std::alloc::Global;
use transfer_set::{Machine, Patterns};
use word_fit::{stores, writes};

// The words of the pattern of this number.
pub(crate) fn set_of(patterns: &Patterns, pattern: u32) -> SetId
    ensures { result ≡ row_set (slice_get patterns.now.rows pattern) }
{
    match patterns.set_of(pattern) {
        Some(set) => set,
        None => 0,
    }
}

// The field bits of the pattern of this number.
fn fields_of(patterns: &Patterns, pattern: u32) -> u64
    ensures { result ≡ row_fields (slice_get patterns.now.rows pattern) }
{
    match patterns.fields_of(pattern) {
        Some(fields) => fields,
        None => 0,
    }
}

// For each step the words of its pattern.
fn step_sets(alloc: Global, patterns: &Patterns, group: &[Step]) -> Result<Items<SetId>, NoMemory>
    ensures { IfOk result (λ sets. sets ≡ map (step_set patterns.now) group.now) }
{
    let mut sets = Items::new(alloc);
    for step in group {
        sets.push(set_of(patterns, step.pattern))?;
    }
    Ok(sets)
}

// The field bits of a step with their values.
pub(crate) fn field_of(patterns: &Patterns, step: Step) -> FieldValue
    ensures { result ≡ step_field patterns.now step }
{
    FieldValue {
        mask: fields_of(patterns, step.pattern),
        value: step.setting,
    }
}

// For each step its field bits with their values.
pub(crate) fn step_fields(
    alloc: Global,
    patterns: &Patterns,
    group: &[Step],
) -> Result<Items<FieldValue>, NoMemory>
    ensures { IfOk result (λ fields. fields ≡ map (step_field patterns.now) group.now) }
{
    let mut fields = Items::new(alloc);
    for step in group {
        fields.push(field_of(patterns, *step))?;
    }
    Ok(fields)
}

// The number of the storage with the cells of a space, where it is there.
fn place_of(patterns: &Patterns, space: Space) -> Option<u32>
    ensures { result ≡ place_of patterns.now space }
{
    match space {
        Space::Memory => Some(patterns.memory()),
        Space::File => patterns.file(),
    }
}

// The words that keep the memory, or the file, where they are asked for.
fn kept_in(patterns: &Patterns, space: Space) -> Option<SetId>
    ensures { option_list result ≡ keep_at patterns.now (place_of patterns.now space) }
{
    let storage = place_of(patterns, space)?;
    patterns.keep_set(storage)
}

// Adds the words that keep the memory, or the file, unless it is written.
fn add_space(
    patterns: &Patterns,
    sets: &mut Items<SetId>,
    space: Space,
    stored: bool,
) -> Result<(), NoMemory>
    ensures { OnOk result (sets.new ≡ sets.old ++ space_sets patterns.now space stored) }
{
    if stored {
        return Ok(());
    }
    if let Some(set) = kept_in(patterns, space) {
        sets.push(set)?;
    }
    Ok(())
}

// Adds the words that keep the memory and those that keep the file, each unless a step writes it.
fn add_cells(machine: &Machine<'_>, sets: &mut Items<SetId>, group: &[Step]) -> Result<(), NoMemory>
    ensures { OnOk result (sets.new ≡ sets.old
        ++ cell_sets machine.now.patterns.now (λ space. group_stores space (machine_operation machine.now) group.now)) }
{
    add_space(
        machine.patterns,
        sets,
        Space::Memory,
        stores(machine.patterns, Space::Memory, group),
    )?;
    add_space(
        machine.patterns,
        sets,
        Space::File,
        stores(machine.patterns, Space::File, group),
    )
}

// Whether a storage has cells: those of the memory or of the file.
fn has_cells(patterns: &Patterns, storage: u32) -> bool
    ensures { result ≡ has_cells patterns.now storage }
{
    storage == patterns.memory() || patterns.file() == Some(storage)
}

// Whether a register is to be kept.
fn is_kept(machine: &Machine<'_>, group: &[Step], live: RegSet, register: u32) -> bool
    requires { register < 16 }
    ensures { result
        ≡ is_wanted machine.now.patterns.now (regs_of live)
        (group_writes (machine_operation machine.now) group.now) register }
{
    (live >> register) & 1 == 1
        && !has_cells(machine.patterns, register)
        && !writes(machine.patterns, group, register)
}

// Adds the words that keep a register, where that is asked for.
fn add_register(
    patterns: &Patterns,
    sets: &mut Items<SetId>,
    register: u32,
    kept: bool,
) -> Result<(), NoMemory>
    ensures { OnOk result (sets.new
        ≡ sets.old ++ (if kept then option_list (slice_get patterns.now.keeps register) else [])) }
{
    if !kept {
        return Ok(());
    }
    if let Some(set) = patterns.keep_set(register) {
        sets.push(set)?;
    }
    Ok(())
}

// Adds the words that keep the live registers that no step writes.
fn add_registers(
    machine: &Machine<'_>,
    sets: &mut Items<SetId>,
    group: &[Step],
    live: RegSet,
) -> Result<(), NoMemory>
    ensures { OnOk result (sets.new ≡ sets.old
        ++ register_sets machine.now.patterns.now (regs_of live)
        (group_writes (machine_operation machine.now) group.now) 16) }
{
    for register in 0..16u32 {
        let kept = is_kept(machine, group, live, register);
        add_register(machine.patterns, sets, register, kept)?;
    }
    Ok(())
}

// All sets that are to hold a word of the group.
pub(crate) fn wanted_sets(
    alloc: Global,
    machine: &Machine<'_>,
    group: &[Step],
    live: RegSet,
) -> Result<Items<SetId>, NoMemory>
    ensures { IfOk result (λ sets. sets
        ≡ group_sets machine.now.patterns.now group.now (regs_of live)
        (λ space. group_stores space (machine_operation machine.now) group.now)
        (group_writes (machine_operation machine.now) group.now)) }
{
    let mut sets = step_sets(alloc, machine.patterns, group)?;
    add_cells(machine, &mut sets, group)?;
    add_registers(machine, &mut sets, group, live)?;
    Ok(sets)
}

// The words that keep the memory, and those that keep registers.
pub(crate) fn kept_sets(
    alloc: Global,
    machine: &Machine<'_>,
    kept: RegSet,
) -> Result<Items<SetId>, NoMemory>
    ensures { IfOk result (λ sets. sets ≡ jump_sets machine.now.patterns.now (regs_of kept)) }
{
    let mut sets = Items::new(alloc);
    add_space(machine.patterns, &mut sets, Space::Memory, false)?;
    add_registers(machine, &mut sets, &[], kept)?;
    Ok(sets)
}

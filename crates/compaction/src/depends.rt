//! What steps of groups read and write of one another.

ghost use Rattle.std.specs.Prelude.{◌≡◌, ◌++◌, IfOk};
ghost use Rattle.form_model.specs.Effects.{location_of, reads};
ghost use Rattle.compaction.specs.Packing.{all_differ, is_read_by, reads_across, reads_from, shares_destination};
ghost use Rattle.compaction.specs.Machines.{known_operation};
ghost use Rattle.compaction.specs.Inner.Machines.{HasTables};

use crate::machine::{KnownMachine, reads_memory};
use form_model::Step;
use rec_bits::NoMemory;
use std::alloc::Global;
use word_fit::stores_cells;

// Whether the first step may read what the second one writes. Only where the one reads the memory or
// the file and the other writes one are their addresses looked at.
fn touches(
    alloc: Global,
    known: &KnownMachine<'_>,
    reader: Step,
    writer: Step,
) -> Result<bool, NoMemory>
    requires { HasTables known.now }
    ensures { IfOk result (λ read. read
        ≡ reads (known_operation known.now reader) (location_of (known_operation known.now writer))) }
{
    if stores_cells(known.machine.patterns, writer) && !reads_memory(known, reader) {
        return Ok(false);
    }
    live_sets::touches(alloc, &known.machine, known.registers, reader, writer)
}

/// Whether the step reads a destination of the group.
pub(crate) fn reads_from(
    alloc: Global,
    known: &KnownMachine<'_>,
    step: Step,
    group: &[Step],
) -> Result<bool, NoMemory>
    requires { HasTables known.now }
    ensures { IfOk result (λ read.
        read ≡ reads_from (known_operation known.now) (known_operation known.now step) group.now) }
{
    match group {
        [] => Ok(false),
        [writer, rest @ ..] => {
            if touches(alloc, known, step, *writer)? {
                Ok(true)
            } else {
                reads_from(alloc, known, step, rest)
            }
        }
    }
}

/// Whether one of the readers reads a destination of the group.
pub(crate) fn reads_across(
    alloc: Global,
    known: &KnownMachine<'_>,
    group: &[Step],
    readers: &[Step],
) -> Result<bool, NoMemory>
    requires { HasTables known.now }
    ensures { IfOk result (λ read. read ≡ reads_across (known_operation known.now) group.now readers.now) }
{
    match readers {
        [] => Ok(false),
        [reader, rest @ ..] => {
            if reads_from(alloc, known, *reader, group)? {
                Ok(true)
            } else {
                reads_across(alloc, known, group, rest)
            }
        }
    }
}

// Whether a step of the group reads the step's destination.
fn is_read_by(
    alloc: Global,
    known: &KnownMachine<'_>,
    step: Step,
    group: &[Step],
) -> Result<bool, NoMemory>
    requires { HasTables known.now }
    ensures { IfOk result (λ read.
        read ≡ is_read_by (known_operation known.now) (known_operation known.now step) group.now) }
{
    match group {
        [] => Ok(false),
        [reader, rest @ ..] => {
            if touches(alloc, known, *reader, step)? {
                Ok(true)
            } else {
                is_read_by(alloc, known, step, rest)
            }
        }
    }
}

/// Whether a step of one of two groups reads the step's destination.
pub(crate) fn is_read_by_either(
    alloc: Global,
    known: &KnownMachine<'_>,
    step: Step,
    first: &[Step],
    second: &[Step],
) -> Result<bool, NoMemory>
    requires { HasTables known.now }
    ensures { IfOk result (λ read. read
        ≡ is_read_by (known_operation known.now) (known_operation known.now step) (first.now ++ second.now)) }
{
    let in_first = is_read_by(alloc, known, step, first)?;
    let in_second = is_read_by(alloc, known, step, second)?;
    Ok(in_first || in_second)
}

/// Whether a step of the group has the step's destination.
pub(crate) fn shares_destination(known: &KnownMachine<'_>, step: Step, group: &[Step]) -> bool
    requires { HasTables known.now }
    ensures { result ≡ shares_destination (known_operation known.now) (known_operation known.now step) group.now }
{
    match group {
        [] => false,
        [other, rest @ ..] => {
            live_sets::shares(&known.machine, step, *other) || shares_destination(known, step, rest)
        }
    }
}

// Whether a step of one of two groups has the step's destination.
fn shares_either(known: &KnownMachine<'_>, step: Step, first: &[Step], second: &[Step]) -> bool
    requires { HasTables known.now }
    ensures { result
        ≡ shares_destination (known_operation known.now) (known_operation known.now step) (first.now ++ second.now) }
{
    shares_destination(known, step, first) || shares_destination(known, step, second)
}

/// Whether the destinations of two groups all differ.
pub(crate) fn all_differ(known: &KnownMachine<'_>, first: &[Step], second: &[Step]) -> bool
    requires { HasTables known.now }
    ensures { result ≡ all_differ (known_operation known.now) (first.now ++ second.now) }
{
    match first {
        [] => differ(known, second),
        [step, rest @ ..] => {
            !shares_either(known, *step, rest, second) && all_differ(known, rest, second)
        }
    }
}

// Whether the destinations of a group all differ.
fn differ(known: &KnownMachine<'_>, group: &[Step]) -> bool
    requires { HasTables known.now }
    ensures { result ≡ all_differ (known_operation known.now) group.now }
{
    match group {
        [] => true,
        [step, rest @ ..] => !shares_destination(known, *step, rest) && differ(known, rest),
    }
}

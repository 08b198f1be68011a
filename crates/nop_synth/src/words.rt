//! The least word for a group of steps, and for a jump.

ghost use Rattle.std.specs.Prelude.{◌≡◌, ℕ, IfOk, MatchOption};
ghost use Rattle.bit_bdd.specs.Diagrams.{Extends};
ghost use Rattle.form_model.specs.Live.{regs_of};
ghost use Rattle.transfer_set.specs.Machines.{IsReadyFor, machine_netlist};
ghost use Rattle.word_fit.specs.Fits.{FitsTurning, IsLeastFit};
ghost use Rattle.word_fit.specs.Machines.{machine_fits, machine_operation};

use crate::meet::words_held;
use crate::sets::{field_of, kept_sets, set_of, step_fields, wanted_sets};
use bit_bdd::Book;
use form_model::{RegSet, Step};
use rec_bits::NoMemory;
use std::alloc::Global;
use transfer_set::Machine;

/// The least word that fits a group of steps with a set of live registers, and `None` exactly where
/// no word fits. A word fits where it does each step's transfer with its setting, steps, keeps the
/// data memory unless a step writes it, keeps the register file unless a step writes it, keeps each
/// live register that no step writes, and doesn't clash. `live` has bit `r` for the register of
/// number `r`. No word does a step whose number is past the last pattern's.
///
/// The patterns' sets are those of the book, and their expressions those of the pool; the book
/// grows, and what it held means what it meant. Want of memory is the only refusal.
pub fn word_for(
    alloc: Global,
    machine: &Machine<'_>,
    book: &mut Book,
    group: &[Step],
    live: RegSet,
) -> Result<Option<u64>, NoMemory>
    requires ready { IsReadyFor machine.now book.old }
    ensures grows { Extends book.old book.new }
    ensures ready { IsReadyFor machine.now book.new }
    ensures word { IfOk result (λ found. MatchOption found
        ((word : ℕ) → machine_fits machine.now word group.now (regs_of live) → ⊥)
        (IsLeastFit (λ word. machine_fits machine.now word group.now (regs_of live)))) }
{
    let width = machine.checked.netlist().word_width();
    // the size tells that the first id is the empty set
    let _ = book.size();
    let sets = wanted_sets(alloc, machine, group, live)?;
    let fields = step_fields(alloc, machine.patterns, group)?;
    let fitting = words_held(
        alloc,
        book,
        width,
        machine.patterns.step_set(),
        sets.as_slice(),
        fields.as_slice(),
    )?;
    Ok(book.least(fitting))
}

/// The least word without clash that does the transfer of a jump or branch with its setting, keeps
/// the data memory and each register of a set, and `None` exactly where there is none. Other
/// registers and the register file needn't keep what they hold. `kept` has bit `r` for the register
/// of number `r`.
///
/// The patterns' sets are those of the book, and their expressions those of the pool, which isn't
/// read; the book grows, and what it held means what it meant. Want of memory is the only refusal.
pub fn jump_word(
    alloc: Global,
    machine: &Machine<'_>,
    book: &mut Book,
    step: Step,
    kept: RegSet,
) -> Result<Option<u64>, NoMemory>
    requires ready { IsReadyFor machine.now book.old }
    ensures grows { Extends book.old book.new }
    ensures ready { IsReadyFor machine.now book.new }
    ensures word { IfOk result (λ found. MatchOption found
        ((word : ℕ) →
        FitsTurning (machine_netlist machine.now) word (machine_operation machine.now step) (regs_of kept) → ⊥)
        (IsLeastFit (λ word.
        FitsTurning (machine_netlist machine.now) word (machine_operation machine.now step) (regs_of kept)))) }
{
    let width = machine.checked.netlist().word_width();
    // the size tells that the first id is the empty set
    let _ = book.size();
    let sets = kept_sets(alloc, machine, kept)?;
    let fields = [field_of(machine.patterns, step)];
    let set = set_of(machine.patterns, step.pattern);
    let fitting = words_held(alloc, book, width, set, sets.as_slice(), &fields)?;
    Ok(book.least(fitting))
}

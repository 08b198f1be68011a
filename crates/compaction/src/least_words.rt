//! The least word of a group.

ghost use Rattle.std.specs.Prelude.{ℕ, IfOk};
ghost use Rattle.bit_bdd.specs.Diagrams.{Extends};
ghost use Rattle.form_model.specs.Live.{regs_of};
ghost use Rattle.transfer_set.specs.Machines.{IsReadyFor};
ghost use Rattle.word_fit.specs.Fits.{IsLeastFit};
ghost use Rattle.word_fit.specs.Machines.{machine_fits};

use bit_bdd::Book;
use form_model::{RegSet, Step};
use nop_synth::word_for;
use rec_bits::NoMemory;
use std::alloc::Global;
use transfer_set::Machine;

/// The least word that fits a group of steps, where `live` are live behind it: bit `r` stands for
/// the register of number `r`. The group has to have a word that fits it. The book grows, and what
/// it held means what it meant. Want of memory is the only refusal.
pub fn least_word(
    alloc: Global,
    machine: &Machine<'_>,
    book: &mut Book,
    group: &[Step],
    live: RegSet,
) -> Result<u64, NoMemory>
    requires ready { IsReadyFor machine.now book.old }
    requires word { (w : ℕ) × machine_fits machine.now w group.now (regs_of live) }
    ensures grows { Extends book.old book.new }
    ensures ready { IsReadyFor machine.now book.new }
    ensures least { IfOk result (IsLeastFit (λ word. machine_fits machine.now word group.now (regs_of live))) }
{
    match word_for(alloc, machine, book, group, live)? {
        Some(word) => Ok(word),
        // there is one
        None => Ok(0),
    }
}

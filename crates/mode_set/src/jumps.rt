//! The words of jumps and branches that keep the mode.

ghost use Rattle.std.specs.Prelude.{◌≡◌, ◌<◌, ℕ, IfOk, MatchOption, Some, slice_get};
ghost use Rattle.bit_bdd.specs.Diagrams.{Extends};
ghost use Rattle.mode_set.specs.Words.{FitsTurn};
ghost use Rattle.net_model.specs.Nets.{IsRegister};
ghost use Rattle.transfer_set.specs.Machines.{IsReadyFor, machine_netlist};
ghost use Rattle.word_fit.specs.Fits.{IsLeastFit};
ghost use Rattle.word_fit.specs.Machines.{machine_operation};

use bit_bdd::Book;
use form_model::Step;
use nop_synth::jump_word;
use rec_bits::NoMemory;
use std::alloc::Global;
use transfer_set::Machine;

/// The least word without clash that does the transfer of a jump or branch with its setting and
/// keeps the data memory and the register `mode`, and `None` exactly where there is none.
///
/// The book grows, and what it held means what it meant. Want of memory is the only refusal.
pub fn mode_jump_word(
    alloc: Global,
    machine: &Machine<'_>,
    book: &mut Book,
    step: Step,
    mode: u32,
) -> Result<Option<u64>, NoMemory>
    requires ready { IsReadyFor machine.now book.old }
    requires mode { IsRegister (slice_get (machine_netlist machine.now).storages mode) }
    ensures grows { Extends book.old book.new }
    ensures ready { IsReadyFor machine.now book.new }
    ensures word { IfOk result (λ found. MatchOption found
        ((word : ℕ) → FitsTurn (machine_netlist machine.now) (Some mode) word (machine_operation machine.now step) → ⊥)
        (IsLeastFit (λ word.
        FitsTurn (machine_netlist machine.now) (Some mode) word (machine_operation machine.now step)))) }
{
    // a checked netlist has few storages
    let _netlist = machine.checked.netlist();
    jump_word(alloc, machine, book, step, 1 << mode)
}

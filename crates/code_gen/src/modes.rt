//! The forms of a netlist in its modes, the modes that can be used, and the words between them.

ghost use Rattle.std.specs.Prelude.{◌≡◌, ◌↔◌, ◌<◌, ◌+◌, ℕ, List, IfOk, IfErr, IsTrue, OnOk, Some, length, slice_get};
ghost use Rattle.form_model.specs.Forms.{models_of_forms};
ghost use Rattle.form_set.specs.Listing.{AreForms};
ghost use Rattle.mode_set.specs.Keeping.{CanPut, CanUse};
ghost use Rattle.mode_set.specs.ModeWords.{IsLeastModeWord};
ghost use Rattle.mode_set.specs.Plans.{UsableAt};
ghost use Rattle.net_model.specs.ModeRules.{KeepsModes, modes_in};
ghost use Rattle.net_model.specs.Nets.{IsRegister};
ghost use Rattle.transfer_set.specs.Machines.{IsReadyFor};
ghost use Rattle.code_gen.specs.Machines.{known_netlist, known_patterns};
ghost use Rattle.code_gen.specs.Refusals.{IsFormless, IsJumpless, IsStepless};
ghost use Rattle.compaction.specs.declared.machine.KnownMachine.{KnownMachine as TheMachine};
ghost use Rattle.code_gen.specs.Inner.Planning.{AreFormsBelow, AreMachinesOf, ArePassages, AreReadyAll, IsPassageOrNone, all_form_models, listed_form_models};

use crate::fault::CodeFault;
use crate::forms::check_kinds;
use crate::views::Passage;
use bit_bdd::Book;
use compaction::KnownMachine;
use form_model::Forms;
use form_set::forms;
use mode_set::{ModeWord, can_put, keeping, mode_word};
use net_model::Netlist;
use rec_bits::NoMemory;
use std::alloc::Global;

/// All forms of each mode, and those that keep the mode. A netlist without modes has one list, which
/// stands among those that keep the mode alone.
#[derive(Drop)]
pub(crate) struct FormsByMode {
    pub all: Vec<Forms>,
    pub kept: Vec<Forms>,
}

// Adds the forms of the next mode.
fn push_forms(
    alloc: Global,
    machines: &[KnownMachine<'_>],
    books: &mut [Book],
    netlist: &Netlist,
    mode: usize,
    list: &mut FormsByMode,
) -> Result<(), NoMemory>
    requires rules { KeepsModes netlist.now }
    requires machines { AreMachinesOf machines.now netlist.now }
    requires ready { AreReadyAll machines.now books.old }
    requires within { mode < length machines.now }
    requires forms { AreFormsBelow netlist.now machines.now mode list.old }
    ensures ready { AreReadyAll machines.now books.new }
    ensures forms { OnOk result (AreFormsBelow netlist.now machines.now (mode + 1) list.new) }
{
    let known = &machines[mode];
    let book = &mut books[mode];
    let all = forms(alloc, &known.machine, book)?;
    let Some(register) = netlist.special else {
        list.kept.push(all)?;
        return Ok(());
    };
    let kept = keeping(alloc, &known.machine, book, &all, register)?;
    list.all.push(all)?;
    list.kept.push(kept)?;
    Ok(())
}

/// The forms of a netlist in each of its modes, of which in mode 0 one steps and one jumps; `NoStep`
/// or `NoJump` comes exactly where of those that keep the mode none does, and `Memory` is want of
/// memory.
pub(crate) fn forms_by_mode(
    alloc: Global,
    machines: &[KnownMachine<'_>],
    books: &mut [Book],
    netlist: &Netlist,
) -> Result<FormsByMode, CodeFault>
    requires rules { KeepsModes netlist.now }
    requires machines { AreMachinesOf machines.now netlist.now }
    requires ready { AreReadyAll machines.now books.old }
    ensures ready { AreReadyAll machines.now books.new }
    ensures forms { IfOk result (AreFormsBelow netlist.now machines.now (modes_in netlist.now)) }
    ensures steps { IfOk result (λ _. ¬ IsStepless netlist.now) }
    ensures jumps { IfOk result (λ _. ¬ IsJumpless netlist.now) }
    ensures refused { IfErr result (IsFormless netlist.now) }
{
    let mut list = FormsByMode {
        all: Vec::new(alloc),
        kept: Vec::new(alloc),
    };
    for mode in 0..machines.len() {
        push_forms(alloc, machines, books, netlist, mode, &mut list)?;
    }
    check_kinds(&list.kept[0].list)?;
    Ok(list)
}

// Whether a mode other than 0 can be used: mode 0 can put it, and it can put 0 back.
fn is_usable(list: &FormsByMode, special: u32, mode: usize) -> Result<bool, NoMemory>
    requires within { mode < length list.now.all.items }
    ensures { IfOk result (λ can. IsTrue can
        ↔ (CanPut (Some special) (listed_form_models list.now.all.items 0) mode
        × CanPut (Some special) (listed_form_models list.now.all.items mode) 0)) }
{
    if !can_put(&list.all[0].list, special, mode as u64)? {
        return Ok(false);
    }
    can_put(&list.all[mode].list, special, 0)
}

/// For each mode whether it can be used; mode 0 always can.
pub(crate) fn usable_modes(
    alloc: Global,
    list: &FormsByMode,
    netlist: &Netlist,
) -> Result<Vec<bool>, NoMemory>
    requires { (machines : List TheMachine) × AreFormsBelow netlist.now machines (modes_in netlist.now) list.now }
    ensures long { IfOk result (λ usable. length usable.items ≡ modes_in netlist.now) }
    ensures usable { IfOk result (λ usable. (v : ℕ) →
        UsableAt usable.items v ↔ CanUse netlist.now (all_form_models netlist.now list.now) v) }
{
    let mut usable = Vec::new(alloc);
    usable.push(true)?;
    let Some(register) = netlist.special else {
        return Ok(usable);
    };
    for mode in 1..list.all.len() {
        usable.push(is_usable(list, register, mode)?)?;
    }
    Ok(usable)
}

// The word of one mode that puts a number into the mode, where there is one.
fn word_in(
    alloc: Global,
    known: &KnownMachine<'_>,
    book: &mut Book,
    all: &Forms,
    special: u32,
    value: u64,
) -> Result<Option<ModeWord>, NoMemory>
    requires ready { IsReadyFor known.now.machine book.old }
    requires mode { IsRegister (slice_get (known_netlist known.now).storages special) }
    requires edition { (known_netlist known.now).edition ≡ 1 }
    requires forms { AreForms (known_netlist known.now) (known_patterns known.now)
        (models_of_forms all.now.list.items) all.now.reach }
    ensures ready { IsReadyFor known.now.machine book.new }
    ensures word { IfOk result (IsLeastModeWord (known_netlist known.now) (Some special)
        (known_patterns known.now) (models_of_forms all.now.list.items) value) }
{
    mode_word(alloc, &known.machine, book, all, special, value)
}

// The words into a mode that can be used, and back; none without a mode register.
fn passage(
    alloc: Global,
    machines: &[KnownMachine<'_>],
    books: &mut [Book],
    list: &FormsByMode,
    netlist: &Netlist,
    mode: usize,
) -> Result<Option<Passage>, NoMemory>
    requires rules { KeepsModes netlist.now }
    requires machines { AreMachinesOf machines.now netlist.now }
    requires ready { AreReadyAll machines.now books.old }
    requires forms { AreFormsBelow netlist.now machines.now (modes_in netlist.now) list.now }
    requires within { mode < modes_in netlist.now }
    ensures ready { AreReadyAll machines.now books.new }
    ensures words { IfOk result (IsPassageOrNone netlist.now machines.now list.now mode) }
{
    let Some(special) = netlist.special else {
        return Ok(None);
    };
    let into = mode as u64;
    let Some(enter) = word_in(
        alloc,
        &machines[0],
        &mut books[0],
        &list.all[0],
        special,
        into,
    )?
    else {
        return Ok(None);
    };
    let Some(leave) = word_in(
        alloc,
        &machines[mode],
        &mut books[mode],
        &list.all[mode],
        special,
        0,
    )?
    else {
        return Ok(None);
    };
    Ok(Some(Passage { enter, leave }))
}

/// For each mode other than 0 that can be used the words into it and back.
pub(crate) fn passages(
    alloc: Global,
    machines: &[KnownMachine<'_>],
    books: &mut [Book],
    list: &FormsByMode,
    netlist: &Netlist,
) -> Result<Vec<Option<Passage>>, NoMemory>
    requires rules { KeepsModes netlist.now }
    requires machines { AreMachinesOf machines.now netlist.now }
    requires ready { AreReadyAll machines.now books.old }
    requires forms { AreFormsBelow netlist.now machines.now (modes_in netlist.now) list.now }
    ensures ready { AreReadyAll machines.now books.new }
    ensures words { IfOk result (λ words. ArePassages netlist.now machines.now list.now words.items) }
{
    let mut passages = Vec::new(alloc);
    passages.push(None)?;
    for mode in 1..machines.len() {
        let words = passage(alloc, machines, books, list, netlist, mode)?;
        passages.push(words)?;
    }
    Ok(passages)
}

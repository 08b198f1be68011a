//! The forms of a netlist.

ghost use Rattle.std.specs.Prelude.{◌≡◌, max, slice_get, Some, IfOk, OnOk};
ghost use Rattle.bit_bdd.specs.Diagrams.{Extends};
ghost use Rattle.form_model.specs.Forms.{models_of_forms};
ghost use Rattle.form_set.specs.Inner.Adding.{HasAdded, IsGreatestReach, IsReachOf};
ghost use Rattle.form_set.specs.Listing.{AreForms, AreFormModels};
ghost use Rattle.form_set.specs.Inner.PatternIds.{AreIdsIn, pattern_in};
ghost use Rattle.transfer_set.specs.Machines.{IsReadyFor, machine_netlist, machine_patterns};
ghost use Rattle.net_model.specs.declared.hardware.Space.TheVariants.{File as InFile};
ghost use Rattle.net_model.specs.Nets.{size_in};
ghost use Rattle.net_model.specs.Patterns.{Pattern as ThePattern};

use crate::classes::{Class, classify, jump_reach};
use crate::making::{add_branches, add_plain, jump_form};
use crate::pattern_ids::{Known, known_ids};
use bit_bdd::Book;
use form_model::{Form, Forms};
use net_model::Space;
use rec_bits::NoMemory;
use std::alloc::Global;
use transfer_set::Machine;

// How far a jump form of the pattern of this number reaches, and 0 where it gives none.
fn number_reach(
    alloc: Global,
    machine: &Machine<'_>,
    book: &mut Book,
    number: u32,
) -> Result<u64, NoMemory>
    requires ready { IsReadyFor machine.now book.old }
    ensures grows { Extends book.old book.new }
    ensures reach { IfOk result (λ reach. (pattern : ThePattern) →
        slice_get (machine_patterns machine.now) number ≡ Some pattern →
        IsReachOf (machine_netlist machine.now) pattern reach) }
{
    match known_ids(machine, number) {
        None => Ok(0),
        Some(ids) => {
            let reach = jump_reach(alloc, machine, book, ids)?;
            Ok(reach)
        }
    }
}

// The larger of two numbers.
fn larger(a: u64, b: u64) -> u64
    ensures { result ≡ max a b }
{
    if a < b { b } else { a }
}

// The greatest reach of the jump forms, and 0 where there is none.
fn reach_of(alloc: Global, machine: &Machine<'_>, book: &mut Book) -> Result<u64, NoMemory>
    requires ready { IsReadyFor machine.now book.old }
    ensures grows { Extends book.old book.new }
    ensures reach { IfOk result (IsGreatestReach (machine_netlist machine.now) (machine_patterns machine.now)) }
{
    let mut reach = 0;
    for number in 0..machine.patterns.len() {
        let here = number_reach(alloc, machine, book, number)?;
        reach = larger(reach, here);
    }
    Ok(reach)
}

// Adds the forms of a pattern.
fn add_pattern(
    alloc: Global,
    machine: &Machine<'_>,
    book: &mut Book,
    list: &mut Vec<Form>,
    reach: u64,
    known: Known,
) -> Result<(), NoMemory>
    requires ready { IsReadyFor machine.now book.old }
    requires ids { AreIdsIn machine.now book.old known.ids }
    ensures grows { Extends book.old book.new }
    ensures added { OnOk result (HasAdded (machine_netlist machine.now) reach known.number
        (pattern_in machine.now known.ids) (models_of_forms list.old.items) (models_of_forms list.new.items)) }
{
    let class = classify(alloc, machine, book, known.ids, reach)?;
    match class {
        Class::Plain(clobbers) => {
            add_plain(alloc, machine, list, known, clobbers)?;
        }
        Class::Jump => {
            let form = jump_form(alloc, machine, known)?;
            list.push(form)?;
        }
        Class::Branch(parts) => {
            add_branches(alloc, machine, list, known, parts)?;
        }
        Class::Other => {}
    }
    Ok(())
}

// Adds the forms of the pattern of this number.
fn add_number(
    alloc: Global,
    machine: &Machine<'_>,
    book: &mut Book,
    list: &mut Vec<Form>,
    reach: u64,
    number: u32,
) -> Result<(), NoMemory>
    requires ready { IsReadyFor machine.now book.old }
    ensures grows { Extends book.old book.new }
    ensures added { OnOk result ((pattern : ThePattern) →
        slice_get (machine_patterns machine.now) number ≡ Some pattern →
        HasAdded (machine_netlist machine.now) reach number pattern
        (models_of_forms list.old.items) (models_of_forms list.new.items)) }
{
    match known_ids(machine, number) {
        None => Ok(()),
        Some(ids) => {
            add_pattern(alloc, machine, book, list, reach, Known { number, ids })?;
            Ok(())
        }
    }
}

// The forms of all patterns.
fn list_of(
    alloc: Global,
    machine: &Machine<'_>,
    book: &mut Book,
    reach: u64,
) -> Result<Vec<Form>, NoMemory>
    requires ready { IsReadyFor machine.now book.old }
    ensures grows { Extends book.old book.new }
    ensures list { IfOk result (λ list.
        AreFormModels (machine_netlist machine.now) reach 0 (machine_patterns machine.now)
        (models_of_forms list.items)) }
{
    let mut list = Vec::new(alloc);
    for number in 0..machine.patterns.len() {
        add_number(alloc, machine, book, &mut list, reach, number)?;
    }
    Ok(list)
}

/// The forms of a netlist with these patterns, the greatest reach of its jump forms, 0 where there is
/// none, and the number of the register file's cells, 0 where there is no file.
///
/// A pattern gives a form where no register and no instruction bit occurs twice in it, each part of
/// it that the instruction word settles is a field shape, each address of the register file in it
/// shows every cell, and for every setting of its instruction bits some word of its set steps and
/// keeps the data memory and the file unless that one is what it writes. Where it writes the file,
/// one read of the file may have the address that is written as its own: it is the form's tied read,
/// and its bits aren't counted again. What such a word may change beside are the form's clobbers: the
/// registers are taken in order of declaration, and each that still leaves a word for every setting
/// is kept from then on. A pattern
/// that jumps, or branches to a target that reaches as far as any jump, gives a form where every
/// setting has a word that keeps the data memory. The forms stand by the numbers of their patterns,
/// and those of one pattern by its choices of swaps, of which at most eight operators have part.
///
/// The patterns' sets are those of the book, and their expressions those of the pool; the book
/// grows, and what it held means what it meant. Want of memory is the only refusal.
pub fn forms(alloc: Global, machine: &Machine<'_>, book: &mut Book) -> Result<Forms, NoMemory>
    requires ready { IsReadyFor machine.now book.old }
    ensures grows { Extends book.old book.new }
    ensures ready { IsReadyFor machine.now book.new }
    ensures forms { IfOk result (λ forms. AreForms (machine_netlist machine.now)
        (machine_patterns machine.now) (models_of_forms forms.list.items) forms.reach) }
    ensures file { IfOk result (λ forms. forms.file ≡ size_in InFile (machine_netlist machine.now).storages) }
{
    // the rules of the netlist say which registers its expressions name
    let _netlist = machine.checked.netlist();
    let reach = reach_of(alloc, machine, book)?;
    let list = list_of(alloc, machine, book, reach)?;
    Ok(Forms {
        list,
        reach,
        file: machine.checked.size(Space::File),
    })
}

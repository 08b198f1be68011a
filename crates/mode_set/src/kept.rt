//! The forms that keep the mode.

ghost use Rattle.std.specs.Prelude.{◌≡◌, ◌↔◌, ◌<◌, IfOk, IsTrue, Some, length};
ghost use Rattle.std.specs.List.{AllByRecursion};
ghost use Rattle.bit_bdd.specs.Diagrams.{Extends};
ghost use Rattle.form_model.specs.declared.forms.Form.{Form as TheForm};
ghost use Rattle.form_model.specs.Forms.{model_of_goal, model_of_form, models_of_forms};
ghost use Rattle.form_set.specs.Listing.{goal_reach, greatest_reach};
ghost use Rattle.mode_set.specs.Keeping.{AreKeeping, FormKeeps};
ghost use Rattle.transfer_set.specs.Machines.{IsReadyFor, machine_netlist, machine_patterns};

use crate::copies::copy_form;
use bit_bdd::Book;
use form_model::{Form, Forms, Goal};
use form_set::can_turn;
use rec_bits::NoMemory;
use std::alloc::Global;
use transfer_set::Machine;

// How far a form jumps, and 0 where it is no jump.
fn reach_of(form: &Form) -> u64
    ensures { result ≡ goal_reach (model_of_goal form.now.goal) }
{
    match form.goal {
        Goal::Jump { reach } => reach,
        Goal::Reg(_) | Goal::Memory | Goal::File | Goal::Branch { .. } => 0,
    }
}

// Whether a form keeps the mode.
fn keeps(
    alloc: Global,
    machine: &Machine<'_>,
    book: &mut Book,
    form: &Form,
    mode: u32,
) -> Result<bool, NoMemory>
    requires ready { IsReadyFor machine.now book.old }
    requires mode { mode < length (machine_netlist machine.now).storages }
    requires pattern { form.now.pattern < length machine.now.patterns.now.rows }
    ensures grows { Extends book.old book.new }
    ensures ready { IsReadyFor machine.now book.new }
    ensures keeps { IfOk result (λ kept. IsTrue kept ↔ FormKeeps (machine_netlist machine.now)
        (machine_patterns machine.now) mode (model_of_form form.now)) }
{
    // a checked netlist has few storages
    let _netlist = machine.checked.netlist();
    match form.goal {
        Goal::Reg(_) | Goal::Memory | Goal::File => Ok((form.clobbers >> mode) & 1 == 0),
        Goal::Jump { .. } | Goal::Branch { .. } => {
            can_turn(alloc, machine, book, form.pattern, mode)
        }
    }
}

/// The forms that keep the register `mode`, in their order, with the greatest reach of the jumps
/// among them: a form that goes into a register or into cells keeps the mode where its clobbers
/// don't hold it; a jump or a branch where every setting has a word of its pattern that keeps the
/// data memory and the mode.
///
/// `forms` are forms of the netlist with these patterns. The book grows, and what it held means
/// what it meant. Want of memory is the only refusal.
pub fn keeping(
    alloc: Global,
    machine: &Machine<'_>,
    book: &mut Book,
    forms: &Forms,
    mode: u32,
) -> Result<Forms, NoMemory>
    requires ready { IsReadyFor machine.now book.old }
    requires mode { mode < length (machine_netlist machine.now).storages }
    requires patterns { AllByRecursion (λ (form : TheForm). form.pattern < length machine.now.patterns.now.rows)
        forms.now.list.items }
    ensures grows { Extends book.old book.new }
    ensures ready { IsReadyFor machine.now book.new }
    ensures kept { IfOk result (λ kept. AreKeeping (machine_netlist machine.now)
        (machine_patterns machine.now) (Some mode) (models_of_forms forms.now.list.items)
        (models_of_forms kept.list.items)) }
    ensures reach { IfOk result (λ kept. kept.reach ≡ greatest_reach (models_of_forms kept.list.items)) }
    ensures file { IfOk result (λ kept. kept.file ≡ forms.now.file) }
{
    let mut list = Vec::new(alloc);
    let mut reach = 0;
    for form in &forms.list {
        let kept = keeps(alloc, machine, book, form, mode)?;
        if kept {
            list.push(copy_form(alloc, form)?)?;
            reach = reach.max(reach_of(form));
        }
    }
    Ok(Forms {
        list,
        reach,
        file: forms.file,
    })
}

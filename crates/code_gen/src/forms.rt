//! The forms of a netlist that code can be made of.

ghost use Rattle.std.specs.Prelude.{◌≡◌, false, IfOk, IfErr, None};
ghost use Rattle.std.specs.List.{list_all};
ghost use Rattle.bit_bdd.specs.Diagrams.{Extends};
ghost use Rattle.net_model.specs.Patterns.{ArePatterns};
ghost use Rattle.form_model.specs.declared.forms.Form.{Form as TheForm};
ghost use Rattle.form_model.specs.Forms.{model_of_goal, models_of_forms};
ghost use Rattle.form_set.specs.Listing.{AreForms};
ghost use Rattle.net_model.specs.declared.hardware.Space.TheVariants.{File as InFile};
ghost use Rattle.net_model.specs.Nets.{size_in};
ghost use Rattle.form_set.specs.Promises.{is_control_goal, is_no_jump};
ghost use Rattle.transfer_set.specs.Machines.{IsReadyFor, machine_netlist, machine_patterns};
ghost use Rattle.code_gen.specs.Refusals.{IsFormless, IsJumpless, IsKindsFault, IsStepless};

use crate::fault::CodeFault;
use bit_bdd::Book;
use form_model::{Form, Forms, Goal};
use form_set::forms;
use std::alloc::Global;
use transfer_set::Machine;

fn is_control(form: &Form) -> bool
    ensures { result ≡ is_control_goal (model_of_goal form.now.goal) }
{
    matches!(form.goal, Goal::Jump { .. } | Goal::Branch { .. })
}

fn is_no_jump(form: &Form) -> bool
    ensures { result ≡ is_no_jump (model_of_goal form.now.goal) }
{
    !matches!(form.goal, Goal::Jump { .. })
}

/// Whether all forms of a list are jumps or branches.
pub fn only_control(list: &[Form]) -> bool
    ensures { result ≡ list_all (λ (form : TheForm). is_control_goal (model_of_goal form.goal)) list.now }
{
    list.iter().all(|form| is_control(form))
}

fn no_jumps(list: &[Form]) -> bool
    ensures { result ≡ list_all (λ (form : TheForm). is_no_jump (model_of_goal form.goal)) list.now }
{
    list.iter().all(|form| is_no_jump(form))
}

/// Whether there is a form that is no jump and no branch, and a jump.
pub(crate) fn check_kinds(list: &[Form]) -> Result<(), CodeFault>
    ensures steps { IfOk result (λ _.
        list_all (λ (form : TheForm). is_control_goal (model_of_goal form.goal)) list.now ≡ false) }
    ensures jumps { IfOk result (λ _. list_all (λ (form : TheForm). is_no_jump (model_of_goal form.goal)) list.now ≡ false) }
    ensures refused { IfErr result (IsKindsFault list.now) }
{
    if only_control(list) {
        return Err(CodeFault::NoStep);
    }
    if no_jumps(list) {
        return Err(CodeFault::NoJump);
    }
    Ok(())
}

/// The forms of a netlist without modes, of which one steps and one jumps, and the size of its
/// register file; `NoStep` or `NoJump` comes exactly where none does, and `Memory` is want of memory.
pub fn usable_forms(
    alloc: Global,
    machine: &Machine<'_>,
    book: &mut Book,
) -> Result<Forms, CodeFault>
    requires plain { (machine_netlist machine.now).special ≡ None }
    requires ready { IsReadyFor machine.now book.old }
    requires patterns { ArePatterns (machine_netlist machine.now) (machine_patterns machine.now) }
    ensures grows { Extends book.old book.new }
    ensures ready { IsReadyFor machine.now book.new }
    ensures forms { IfOk result (λ forms. AreForms (machine_netlist machine.now)
        (machine_patterns machine.now) (models_of_forms forms.list.items) forms.reach) }
    ensures file { IfOk result (λ forms. forms.file ≡ size_in InFile (machine_netlist machine.now).storages) }
    ensures steps { IfOk result (λ _. ¬ IsStepless (machine_netlist machine.now)) }
    ensures jumps { IfOk result (λ _. ¬ IsJumpless (machine_netlist machine.now)) }
    ensures refused { IfErr result (IsFormless (machine_netlist machine.now)) }
{
    let forms = forms(alloc, machine, book)?;
    check_kinds(&forms.list)?;
    Ok(forms)
}

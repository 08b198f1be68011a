//! The words that put a number into the mode, and the modes that can be used.

ghost use Rattle.std.specs.Prelude.{◌≡◌, ◌↔◌, ℕ, IfOk, IsTrue, MatchOption, Some, slice_get};
ghost use Rattle.bit_bdd.specs.Diagrams.{Extends};
ghost use Rattle.form_model.specs.Forms.{model_of_form, models_of_forms};
ghost use Rattle.form_model.specs.Shapes.{plain_setting};
ghost use Rattle.form_set.specs.Listing.{AreForms};
ghost use Rattle.mode_set.specs.Keeping.{CanPut, Puts};
ghost use Rattle.mode_set.specs.ModeWords.{IsLeastModeWord, IsStepWord, lesser_of};
ghost use Rattle.net_model.specs.Nets.{IsRegister};
ghost use Rattle.transfer_set.specs.Machines.{IsReadyFor, machine_netlist, machine_patterns};

use bit_bdd::Book;
use form_model::{Form, Forms, Goal, Step};
use nop_synth::word_for;
use rec_bits::NoMemory;
use std::alloc::Global;
use transfer_set::Machine;
use tree_grammar::plain_setting_of;

/// A word that puts a number into the mode, and the pattern that it is of.
#[derive(Clone, Copy, PartialEq, Eq)]
pub struct ModeWord {
    pub pattern: u32,
    pub word: u64,
}

// The setting under which a form puts a number into the mode, if it does: it goes into the mode,
// and its value is a field shape of the first edition, which has no sums.
fn put_setting(form: &Form, mode: u32, value: u64) -> Result<Option<u64>, NoMemory>
    ensures { IfOk result (λ setting. MatchOption setting (Puts mode value (model_of_form form.now) → ⊥)
        (λ bits. Puts mode value (model_of_form form.now)
        × (plain_setting (model_of_form form.now).value value ≡ Some bits))) }
{
    match form.goal {
        Goal::Reg(id) if id == mode => plain_setting_of(&form.value, value),
        Goal::Reg(_) | Goal::Memory | Goal::File | Goal::Jump { .. } | Goal::Branch { .. } => Ok(
            None,
        ),
    }
}

/// Whether some form of a list puts a number into the mode. Want of memory stands for a field that
/// lies above bit 63.
pub fn can_put(forms: &[Form], mode: u32, value: u64) -> Result<bool, NoMemory>
    ensures { IfOk result (λ can. IsTrue can ↔ CanPut (Some mode) (models_of_forms forms.now) value) }
{
    for form in forms {
        let setting = put_setting(form, mode, value)?;
        if setting.is_some() {
            return Ok(true);
        }
    }
    Ok(false)
}

// The least word that does a form with a setting, steps and keeps the data memory, whatever else it
// changes, with the form's pattern.
fn word_with(
    alloc: Global,
    machine: &Machine<'_>,
    book: &mut Book,
    form: &Form,
    setting: u64,
) -> Result<Option<ModeWord>, NoMemory>
    requires ready { IsReadyFor machine.now book.old }
    ensures grows { Extends book.old book.new }
    ensures ready { IsReadyFor machine.now book.new }
    ensures word { IfOk result (λ found. IsStepWord (machine_netlist machine.now)
        machine.now.pool.now machine.now.patterns.now
        (record { pattern = form.now.pattern; setting = setting }) found) }
{
    let step = Step {
        pattern: form.pattern,
        setting,
    };
    let found = word_for(alloc, machine, book, &[step], 0)?;
    Ok(found.map(|word| ModeWord {
        pattern: form.pattern,
        word,
    }))
}

// The lesser of two mode words, and the one that is known where they are equal.
fn lesser(known: Option<ModeWord>, next: Option<ModeWord>) -> Option<ModeWord>
    ensures { result ≡ lesser_of known next }
{
    let Some(word) = next else {
        return known;
    };
    match known {
        Some(least) if least.word <= word.word => Some(least),
        _ => Some(word),
    }
}

/// The least of the words of the forms that put a number into the mode, which puts it there, steps
/// and keeps the data memory, with the pattern that it is of; `None` exactly where there is none.
/// `forms` are all forms of the netlist, which is of the first edition, as that of a mode is: there
/// is no register file to keep. The book grows, and what it held means what it meant. Want of
/// memory is the only refusal.
pub fn mode_word(
    alloc: Global,
    machine: &Machine<'_>,
    book: &mut Book,
    forms: &Forms,
    mode: u32,
    value: u64,
) -> Result<Option<ModeWord>, NoMemory>
    requires ready { IsReadyFor machine.now book.old }
    requires mode { IsRegister (slice_get (machine_netlist machine.now).storages mode) }
    requires edition { (machine_netlist machine.now).edition ≡ 1 }
    requires forms { (reach : ℕ) × AreForms (machine_netlist machine.now) (machine_patterns machine.now)
        (models_of_forms forms.now.list.items) reach }
    ensures grows { Extends book.old book.new }
    ensures ready { IsReadyFor machine.now book.new }
    ensures word { IfOk result (IsLeastModeWord (machine_netlist machine.now) (Some mode)
        (machine_patterns machine.now) (models_of_forms forms.now.list.items) value) }
{
    // what holds of a checked netlist is said here
    let _netlist = machine.checked.netlist();
    let mut least = None;
    for form in &forms.list {
        let setting = put_setting(form, mode, value)?;
        if let Some(bits) = setting {
            let next = word_with(alloc, machine, book, form, bits)?;
            least = lesser(least, next);
        }
    }
    Ok(least)
}

//! From the two texts to the explanation.

ghost use Rattle.std.specs.Prelude.{◌≡◌, ◌<◌, ◌^◌, ℕ, IfErr, IfOk, List, None, length};
ghost use Rattle.code_model.specs.Layout.{layout_of};
ghost use Rattle.form_model.specs.Forms.{models_of_forms};
ghost use Rattle.form_model.specs.Covers.{stock_with};
ghost use Rattle.job_places.specs.Places.{program_job_places};
ghost use Rattle.isa_extract.specs.Extraction.{IsIsaOf};
ghost use Rattle.compile_command.specs.Code.{HasRoom};
ghost use Rattle.net_model.specs.Nets.{memory_width};
ghost use Rattle.right_code.specs.Tasks.{IsChecked, read_task, task_jobs};
ghost use Rattle.src_front.specs.Fronts.{AreNamed};
ghost use Rattle.src_model.specs.Rules.{first_fault};
ghost use Rattle.src_model.specs.Written.{model_of_program};
ghost use Rattle.explain_command.specs.Explained.{AreJobTexts, IsExplained, IsExplainFault, IsExplainedTask};
ghost use Rattle.explain_command.specs.Inner.Telling.{IsAlone, IsEarlyFault, IsPlainNet, IsTold};

use crate::ending::add_ending;
use crate::netlists::netlist;
use crate::subject::Subject;
use crate::telling::job_texts;
use code_gen::{blocks_of, usable_forms};
use code_model::Places;
use compile_command::CompileFault;
use form_model::Forms;
use isa_extract::Isa;
use net_model::Modes;
use rec_bits::NoMemory;
use src_model::Typed;
use std::alloc::Global;
use transfer_set::Machine;

// What is told of the jobs of a program whose variables stand at these places, by these forms.
fn told_jobs(
    alloc: Global,
    src: &[u8],
    modes: &Modes,
    forms: &Forms,
    typed: &Typed,
    places: &Places,
) -> Result<Vec<u8>, NoMemory>
    requires checked { IsChecked (read_task modes.now typed.now) }
    requires alone { IsAlone modes.now }
    requires places { places.now ≡ layout_of typed.now.width (model_of_program typed.now.program) }
    requires room { HasRoom (read_task modes.now typed.now) }
    ensures { IfOk result (λ text. AreJobTexts modes.now.netlist
        (stock_with forms.now.list.items places.now.temps forms.now.file) src.now 0
        (program_job_places (model_of_program typed.now.program)) (task_jobs (read_task modes.now typed.now)) text.items) }
{
    let blocks = blocks_of(alloc, modes, typed, places)?;
    let subject = Subject {
        src,
        places: places.list.as_slice(),
        checked: modes.first(),
        forms,
        temps: places.temps,
    };
    let text = job_texts(alloc, &subject, typed.program(), &blocks.jobs);
    // as one step, where its parts would be let go one by one
    drop(blocks);
    text
}

// The same by the netlist's forms, of which one steps and one jumps, where the program has room.
fn jobs_text(
    alloc: Global,
    src: &[u8],
    modes: &Modes,
    extracted: &mut Isa,
    typed: &Typed,
) -> Result<Vec<u8>, CompileFault>
    requires alone { IsAlone modes.now }
    requires isa { IsIsaOf modes.now.netlist extracted.old }
    requires width { typed.now.width ≡ memory_width modes.now.netlist.storages }
    requires program { first_fault typed.now.width (model_of_program typed.now.program) ≡ None }
    requires few { length typed.now.program.vars < 2 ^ 32 }
    requires named { AreNamed typed.now.program.vars }
    ensures told { IfOk result (λ text. IsTold src.now text.items (read_task modes.now typed.now)) }
    ensures isa { IfOk result (λ _. IsIsaOf modes.now.netlist extracted.new) }
    ensures refused { IfErr result (IsEarlyFault (read_task modes.now typed.now)) }
{
    let places = compile_command::places(alloc, modes, typed)?;
    let machine = Machine {
        checked: modes.first(),
        pool: &extracted.pool,
        patterns: &extracted.patterns,
    };
    let forms = usable_forms(alloc, &machine, &mut extracted.book)?;
    let text = told_jobs(alloc, src, modes, &forms, typed, &places)?;
    Ok(text)
}

// The explanation of a program on a netlist without modes.
fn task_text(
    alloc: Global,
    src: &[u8],
    modes: &Modes,
    mut isa: Isa,
    typed: &Typed,
) -> Result<Vec<u8>, CompileFault>
    requires alone { IsAlone modes.now }
    requires isa { IsIsaOf modes.now.netlist isa }
    requires width { typed.now.width ≡ memory_width modes.now.netlist.storages }
    requires program { first_fault typed.now.width (model_of_program typed.now.program) ≡ None }
    requires few { length typed.now.program.vars < 2 ^ 32 }
    requires named { AreNamed typed.now.program.vars }
    ensures explained { IfOk result (λ text. IsExplainedTask src.now text.items (read_task modes.now typed.now)) }
    ensures refused { IfErr result (IsEarlyFault (read_task modes.now typed.now)) }
{
    let mut text = jobs_text(alloc, src, modes, &mut isa, typed)?;
    add_ending(alloc, &mut text, modes, isa, typed)?;
    Ok(text)
}

// The explanation of the program that `src` is on a netlist without modes, whatever its text is.
fn explain_on(alloc: Global, modes: &Modes, isa: Isa, src: &[u8]) -> Result<Vec<u8>, CompileFault>
    requires alone { IsAlone modes.now }
    requires isa { IsIsaOf modes.now.netlist isa }
    requires src { length src.now < 2 ^ 32 }
    ensures explained { (net : List ℕ) → IsPlainNet net modes.now →
        IfOk result (λ text. IsExplained net src.now text.items) }
    ensures refused { (net : List ℕ) → IsPlainNet net modes.now → IfErr result (IsExplainFault net src.now) }
{
    let typed = compile_command::program(alloc, src, modes.first().memory_width())?;
    let text = task_text(alloc, src, modes, isa, &typed);
    drop(typed);
    text
}

/// The explanation of the program that `src` is on the netlist that `net` is: each of its jobs with
/// the cost of its cover, or with what lacks one, and then what `compile` answers. The refusals are
/// those of `compile` up to `NoJump`, each exactly where it is the first that applies, but that a
/// text with modes is refused as one that breaks N6; a job without a cover is none.
pub fn explain(alloc: Global, net: &[u8], src: &[u8]) -> Result<Vec<u8>, CompileFault>
    requires net { length net.now < 2 ^ 32 }
    requires src { length src.now < 2 ^ 32 }
    ensures explained { IfOk result (λ text. IsExplained net.now src.now text.items) }
    ensures refused { IfErr result (IsExplainFault net.now src.now) }
{
    let (modes, isa) = netlist(alloc, net)?;
    let text = explain_on(alloc, &modes, isa, src);
    drop(modes);
    text
}

//! The jobs of a program, in the netlist's data memory.

ghost use Rattle.std.specs.Prelude.{◌≡◌, ◌≤◌, IfOk, option_copied};
ghost use Rattle.net_model.specs.CheckedRules.{KeepsRules, memory_addr_width};
ghost use Rattle.net_model.specs.Nets.{memory_size, memory_width};
ghost use Rattle.src_model.specs.Written.{model_of_program};
ghost use Rattle.code_model.specs.Layout.{layout_of, need_of};
ghost use Rattle.src_trees.specs.Flows.{program_flow};
ghost use Rattle.src_trees.specs.Jobs.{models_of_jobs};
ghost use Rattle.right_code.specs.Tasks.{read_task, task_jobs};
ghost use Rattle.code_gen.specs.Inner.Memories.{storage_addr_bits};

use code_model::Places;
use form_model::Blocks;
use net_model::{Checked, Modes, Storage};
use rec_bits::NoMemory;
use src_model::Typed;
use src_trees::lower;
use std::alloc::Global;

// The bits of an address of a memory.
fn addr_bits(storage: Option<&Storage>) -> u8
    ensures { result ≡ storage_addr_bits (option_copied storage.entry) }
{
    match storage {
        Some(Storage::Memory(cells)) => cells.addr_width,
        _ => 0,
    }
}

/// The number of bits of an address of the data memory, 1 to 64. What holds of a checked netlist is
/// said here.
pub fn addr_width(checked: &Checked) -> u8
    ensures width { result ≡ memory_addr_width checked.now.netlist.storages }
    ensures rules { KeepsRules checked.now.netlist checked.now.order }
{
    addr_bits(checked.netlist().storage(checked.memory()))
}

/// The flow and the jobs of a program whose variables stand at the places of its layout in the
/// netlist's data memory. The only error is want of memory.
pub fn blocks_of(
    alloc: Global,
    modes: &Modes,
    typed: &Typed,
    places: &Places,
) -> Result<Blocks, NoMemory>
    requires width { typed.now.width ≡ memory_width modes.now.netlist.storages }
    requires places { places.now ≡ layout_of typed.now.width (model_of_program typed.now.program) }
    requires room { need_of typed.now.width (model_of_program typed.now.program) ≤ memory_size modes.now.netlist.storages }
    ensures flow { IfOk result (λ blocks. blocks.flow ≡ program_flow (model_of_program typed.now.program)) }
    ensures jobs { IfOk result (λ blocks. models_of_jobs blocks.jobs.items ≡ task_jobs (read_task modes.now typed.now)) }
{
    let width = addr_width(modes.first());
    let blocks = lower(alloc, typed, places, width)?;
    Ok(blocks)
}

//! The command that compiles a program and watches the netlist run it.
ghost use Rattle.std.specs.Prelude.{◌≡◌, ◌≢◌, ◌⊎◌, ℕ, List, ◌≤◌, IfOk, IfErr, length};
ghost use Rattle.net_model.specs.MemoryText.{IsMemoryText};
ghost use Rattle.code_model.specs.Machine.{IsCalm};
ghost use Rattle.right_code.specs.Tasks.{read_task};
ghost use Rattle.compile_command.specs.Code.{IsRightFor};
ghost use Rattle.record_core.specs.Answers.{file_limit, GoAnswers};
ghost use Rattle.record_core.specs.Inner.Putting.{IsMemoryStatus, PutsGo, PutsWatched};
ghost use Rattle.record_core.specs.Inner.Statuses.{memory_status};
ghost use Rattle.record_core.specs.declared.status.Status.{Status};

use crate::Status;
use checkpoint_watch::Watch;
use compile_command::{Compiled, read_compiled};
use net_model::State;
use rec_bits::ParseFault;
use rec_io::{Sink, WriteFault};
use state_text::read_state;
use std::alloc::Global;

// A fault of the memory's text.
fn memory_status(fault: ParseFault) -> Status
    ensures { result ≡ memory_status fault }
{
    match fault {
        ParseFault::Text(at) => Status::MemText(at),
        ParseFault::Memory => Status::Memory,
    }
}

// The state that `memory` says, in which the netlist is in mode 0 before its first word: no line
// names the mode.
fn start_of(alloc: Global, program: &Compiled, memory: &[u8]) -> Result<State, Status>
    requires { length memory.now ≤ file_limit }
    ensures said { IfOk result (IsMemoryText program.now.modes.netlist
        program.now.modes.netlist.special memory.now) }
    ensures starts { IfOk result (IsCalm program.now.modes.netlist 0) }
    ensures refused { IfErr result (IsMemoryStatus (read_task program.now.modes program.now.typed) memory.now) }
{
    let modes = &program.modes;
    read_state(alloc, memory, modes.first(), modes.netlist().special).map_err(memory_status)
}

// Puts the checkpoints of a compiled program over so many clocks, from the state of `memory`.
fn watch<S: Sink>(
    alloc: Global,
    program: &Compiled,
    memory: &[u8],
    clocks: u32,
    out: &mut S,
) -> Result<Result<(), WriteFault>, Status>
    requires short { length memory.now ≤ file_limit }
    requires image { IsRightFor program.now.image (read_task program.now.modes program.now.typed) }
    ensures done { IfOk result (PutsWatched (read_task program.now.modes program.now.typed)
        memory.now clocks (S.state out.old) (S.state out.new)) }
    ensures refused { IfErr result (IsMemoryStatus (read_task program.now.modes program.now.typed) memory.now) }
    ensures still { IfErr result (λ _. S.state out.new ≡ S.state out.old) }
{
    let start = start_of(alloc, program, memory)?;
    let watch = Watch::new(
        alloc,
        &program.modes,
        &program.typed,
        &program.image,
        start,
        clocks,
    )?;
    Ok(watch.run(out))
}

/// Puts the checkpoints that the netlist `net` shows of the program `src` over so many clocks, from
/// the state of `memory`, or answers the first refusal that applies, where nothing was put.
pub fn go<S: Sink>(
    alloc: Global,
    net: &[u8],
    src: &[u8],
    memory: &[u8],
    clocks: u32,
    out: &mut S,
) -> Result<Result<(), WriteFault>, Status>
    requires net_short { length net.now ≤ file_limit }
    requires src_short { length src.now ≤ file_limit }
    requires memory_short { length memory.now ≤ file_limit }

    // Whatever the lines of the refusals are.
    ensures done { (line : Status → List ℕ) →
        IfOk result (PutsGo line net.now src.now memory.now clocks (S.state out.old) (S.state out.new)) }
    ensures refused { (line : Status → List ℕ) → IfErr result (λ status.
        (status ≡ Status.Memory) ⊎ GoAnswers line net.now src.now memory.now clocks status (line status)) }
    ensures other { IfErr result (λ status. status ≢ Status.Done) }
    ensures still { IfErr result (λ _. S.state out.new ≡ S.state out.old) }
{
    let program = read_compiled(alloc, net, src)?;
    let put = watch(alloc, &program, memory, clocks, out)?;
    Ok(put)
}

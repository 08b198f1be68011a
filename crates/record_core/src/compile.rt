//! The command that compiles.
ghost use Rattle.std.specs.Prelude.{◌≡◌, ◌≢◌, ◌⊎◌, ℕ, List, ◌≤◌, IfOk, IfErr, length};
ghost use Rattle.record_core.specs.Answers.{file_limit, CompileAnswers};
ghost use Rattle.record_core.specs.declared.status.Status.{Status};

use crate::Status;
use compile_command::compile;
use std::alloc::Global;

/// The image text of the program `src` for the netlist `net`, or the first refusal that applies.
pub fn compile_text(alloc: Global, net: &[u8], src: &[u8]) -> Result<Vec<u8>, Status>
    requires net_short { length net.now ≤ file_limit }
    requires src_short { length src.now ≤ file_limit }

    // Whatever the lines of the refusals are.
    ensures ok { (line : Status → List ℕ) →
        IfOk result (λ text. CompileAnswers line net.now src.now Status.Done text.items) }
    ensures refused { (line : Status → List ℕ) → IfErr result (λ status.
        (status ≡ Status.Memory) ⊎ CompileAnswers line net.now src.now status (line status)) }
    ensures other { IfErr result (λ status. status ≢ Status.Done) }
{
    let text = compile(alloc, net, src)?;
    Ok(text)
}

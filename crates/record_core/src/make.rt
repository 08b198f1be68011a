//! The command that makes a program up, compiles and runs it.
ghost use Rattle.std.specs.Prelude.{◌≡◌, ◌≢◌, ◌⊎◌, ℕ, List, ◌≤◌, IfOk, IfErr};
ghost use Rattle.record_core.specs.Answers.{MakeAnswers};
ghost use Rattle.record_core.specs.Words.{job_limit};
ghost use Rattle.record_core.specs.declared.status.Status.{Status};

use crate::Status;
use make_command::make;
use std::alloc::Global;

/// The summary of the made-up program of this number on the made-up netlist, or the first refusal
/// that applies to their texts.
pub fn make_text(alloc: Global, number: u32) -> Result<Vec<u8>, Status>
    requires some { 1 ≤ number }
    requires most { number ≤ job_limit }

    // Whatever the lines of the refusals are.
    ensures ok { (line : Status → List ℕ) → IfOk result (λ text. MakeAnswers line number Status.Done text.items) }
    ensures refused { (line : Status → List ℕ) → IfErr result (λ status.
        (status ≡ Status.Memory) ⊎ MakeAnswers line number status (line status)) }
    ensures other { IfErr result (λ status. status ≢ Status.Done) }
{
    let text = make(alloc, number)?;
    Ok(text)
}

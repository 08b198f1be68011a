//! The command that extracts.
ghost use Rattle.std.specs.Prelude.{◌≡◌, ◌≢◌, ◌⊎◌, ℕ, List, ◌≤◌, IfOk, IfErr, length};
ghost use Rattle.record_core.specs.Answers.{file_limit, ExtractAnswers};
ghost use Rattle.record_core.specs.declared.status.Status.{Status};

use crate::Status;
use isa_extract::extract;
use std::alloc::Global;

/// The text of the patterns of the netlist `net`, or the first refusal that applies.
pub fn extract_text(alloc: Global, net: &[u8]) -> Result<Vec<u8>, Status>
    requires { length net.now ≤ file_limit }

    // Whatever the lines of the refusals are.
    ensures ok { (line : Status → List ℕ) → IfOk result (λ text. ExtractAnswers line net.now Status.Done text.items) }
    ensures refused { (line : Status → List ℕ) → IfErr result (λ status.
        (status ≡ Status.Memory) ⊎ ExtractAnswers line net.now status (line status)) }
    ensures other { IfErr result (λ status. status ≢ Status.Done) }
{
    let text = extract(alloc, net)?;
    Ok(text)
}

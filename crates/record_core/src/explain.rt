//! The command that explains covers.
ghost use Rattle.std.specs.Prelude.{◌≡◌, ◌≢◌, ◌⊎◌, ℕ, List, ◌≤◌, IfOk, IfErr, length};
ghost use Rattle.record_core.specs.Answers.{file_limit, ExplainAnswers};
ghost use Rattle.record_core.specs.declared.status.Status.{Status};

use crate::Status;
use explain_command::explain;
use std::alloc::Global;

/// What covers the jobs of the program `src` on the netlist `net`, and what in them no form makes, or
/// the first refusal that applies.
pub fn explained_text(alloc: Global, net: &[u8], src: &[u8]) -> Result<Vec<u8>, Status>
    requires net_short { length net.now ≤ file_limit }
    requires src_short { length src.now ≤ file_limit }

    // Whatever the lines of the refusals are.
    ensures ok { (line : Status → List ℕ) → IfOk result (λ text.
        ExplainAnswers line net.now src.now Status.Done text.items) }
    ensures refused { (line : Status → List ℕ) → IfErr result (λ status.
        (status ≡ Status.Memory) ⊎ ExplainAnswers line net.now src.now status (line status)) }
    ensures other { IfErr result (λ status. status ≢ Status.Done) }
{
    let text = explain(alloc, net, src)?;
    Ok(text)
}

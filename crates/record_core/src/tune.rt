//! The command that compiles by equal trees.
ghost use Rattle.std.specs.Prelude.{◌≡◌, ◌≢◌, ◌⊎◌, ℕ, List, ◌≤◌, IfOk, IfErr, length};
ghost use Rattle.record_core.specs.Answers.{file_limit, TuneAnswers};
ghost use Rattle.record_core.specs.declared.status.Status.{Status};

use crate::Status;
use std::alloc::Global;
use tune_command::tune;

/// The image text of the program `src` for the netlist `net`, by equal trees that cost less, or a
/// refusal that applies.
pub fn tuned_text(alloc: Global, net: &[u8], src: &[u8]) -> Result<Vec<u8>, Status>
    requires net_short { length net.now ≤ file_limit }
    requires src_short { length src.now ≤ file_limit }

    // Whatever the lines of the refusals are.
    ensures ok { (line : Status → List ℕ) →
        IfOk result (λ text. TuneAnswers line net.now src.now Status.Done text.items) }
    ensures refused { (line : Status → List ℕ) → IfErr result (λ status.
        (status ≡ Status.Memory) ⊎ TuneAnswers line net.now src.now status (line status)) }
    ensures other { IfErr result (λ status. status ≢ Status.Done) }
{
    let text = tune(alloc, net, src)?;
    Ok(text)
}

//! The command that compiles for two memories.
ghost use Rattle.std.specs.Prelude.{◌≡◌, ◌≢◌, ◌⊎◌, ℕ, List, ◌≤◌, IfOk, IfErr, length};
ghost use Rattle.record_core.specs.Answers.{file_limit, DualAnswers};
ghost use Rattle.record_core.specs.declared.status.Status.{Status};

use crate::Status;
use dual_command::dual;
use std::alloc::Global;

/// The image text of the program `src` for the netlist `net`, which has a bank, with the variables
/// in it that `named` names, or the first refusal that applies.
pub fn dual_text(alloc: Global, net: &[u8], src: &[u8], named: &[u8]) -> Result<Vec<u8>, Status>
    requires net_short { length net.now ≤ file_limit }
    requires src_short { length src.now ≤ file_limit }
    requires named_short { length named.now ≤ file_limit }

    // Whatever the lines of the refusals are.
    ensures ok { (line : Status → List ℕ) →
        IfOk result (λ text. DualAnswers line net.now src.now named.now Status.Done text.items) }
    ensures refused { (line : Status → List ℕ) → IfErr result (λ status.
        (status ≡ Status.Memory) ⊎ DualAnswers line net.now src.now named.now status (line status)) }
    ensures other { IfErr result (λ status. status ≢ Status.Done) }
{
    let text = dual(alloc, net, src, named)?;
    Ok(text)
}
